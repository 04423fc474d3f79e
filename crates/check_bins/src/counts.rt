//! How often each bin occurred.
ghost use Rattle.std.specs.Prelude.{◌<◌, ℕ, All};
ghost use Rattle.std.specs.BTreeMap.{values};

use crate::bin::Bin;
use std::collections::BTreeMap;

/// How often each bin occurred, up to 2^64 - 1.
#[derive(Drop)]
pub struct Counts {
    /// Of bins that occurred.
    pub(crate) counts: BTreeMap<Bin, u64>,
    ghost some: { All (λ (n : ℕ). 0 < n) (values counts) },
}
