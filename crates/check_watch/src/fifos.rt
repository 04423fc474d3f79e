//! Links at which replies begin in the order of their requests.
ghost use Rattle.std.specs.Prelude.{◌≡◌};

use std::alloc::AllocError;
use std::marker::Model;

/// The links at which replies begin in the order in which their requests began: a flag for each master's link, and one for
/// each port's. A link that is not in its list has none.
#[derive(Drop)]
pub struct FifoLinks {
    masters: Vec<bool>,
    ports: Vec<bool>,
}

impl Model for FifoLinks {
    ghost use Rattle.check_watch.specs.Fifos.{FifoFlags};

    ghost Value = { FifoFlags };

    ghost view = { λ f. record { masters = f.masters.items; ports = f.ports.items } };
}

impl Clone for FifoLinks {
    ghost use Rattle.std.specs.Prelude.{◌≡◌};

    ghost is_clone = { λ fifos copy. copy ≡ fifos };

    fn clone(&self) -> Result<FifoLinks, AllocError> {
        Ok(FifoLinks {
            masters: self.masters.clone()?,
            ports: self.ports.clone()?,
        })
    }
}

impl FifoLinks {
    /// The flags of the masters' links, and of the ports'.
    pub fn new(masters: Vec<bool>, ports: Vec<bool>) -> FifoLinks
        ensures { result ≡ record { masters = masters.items; ports = ports.items } }
    {
        FifoLinks { masters, ports }
    }

    /// The flags of the masters' links.
    pub fn masters(&self) -> &[bool]
        ensures { result.now ≡ self.now.masters }
    {
        &self.masters
    }

    /// The flags of the ports' links.
    pub fn ports(&self) -> &[bool]
        ensures { result.now ≡ self.now.ports }
    {
        &self.ports
    }
}
