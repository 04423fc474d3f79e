//! Requests that are accepted and not yet answered.
use check_cells::Pattern;
use std::alloc::AllocError;
use tl_types::Ask;

/// A request that its port has accepted and not yet answered.
#[derive(Debug, Drop)]
pub struct Accepted {
    /// Its wide source.
    pub wide: usize,
    pub ask: Ask,
    /// What its reply has to fit.
    pub due: Pattern,
    /// Its place in the port's list.
    pub index: usize,
}

impl Clone for Accepted {
    ghost use Rattle.std.specs.Prelude.{◌≡◌};

    ghost is_clone = { λ entry copy. copy ≡ entry };

    fn clone(&self) -> Result<Accepted, AllocError> {
        Ok(Accepted {
            wide: self.wide,
            ask: self.ask.copy(),
            due: self.due.copy(),
            index: self.index,
        })
    }
}
