//! What there was at the edges of a clock at the times that are over.
ghost use Rattle.std.specs.Prelude.{◌≡◌};
ghost use Rattle.check_samples.specs.Edges.{is_low_of, needs_of, no_edges};

use crate::reset::Reset;

/// What there was at the edges of a clock: any edge; one outside of reset; one in reset; a beat that crossed outside; and
/// valid and ready of a channel that were 1 in reset.
#[derive(Debug, Clone, Copy, PartialEq, Eq)]
pub struct Edges {
    pub any: bool,
    pub outside: bool,
    pub in_reset: bool,
    pub crossed: bool,
    pub masked: bool,
}

/// What has to be known at an edge outside of reset: each valid; and each ready whose valid is 1.
#[derive(Debug, Clone, Copy, PartialEq, Eq)]
pub struct Needs {
    pub valid: bool,
    pub ready: bool,
}

impl Edges {
    /// There was none.
    pub(crate) fn none() -> Edges
        ensures { result ≡ no_edges }
    {
        Edges {
            any: false,
            outside: false,
            in_reset: false,
            crossed: false,
            masked: false,
        }
    }
}

/// What has to be known at an edge, after what there was at earlier ones.
pub(crate) fn needs_of(reset: Option<Reset>, edges: Edges) -> Needs
    ensures { result ≡ needs_of reset edges }
{
    Needs {
        valid: edges.in_reset,
        ready: reset.is_none() || edges.in_reset,
    }
}

/// Whether a reset is active at 0; without one nothing is to be said of it.
pub(crate) fn is_low_of(reset: Option<Reset>) -> bool
    ensures { result ≡ is_low_of reset }
{
    match reset {
        None => true,
        Some(reset) => reset.is_low,
    }
}
