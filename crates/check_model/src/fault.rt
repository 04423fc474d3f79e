//! Why a call is refused.
ghost use Rattle.std.specs.Prelude.{◌≡◌};

use std::alloc::AllocError;
use thiserror::Error;

/// Why a request is not served, in the order in which faults are tried.
#[derive(Debug, Clone, Copy, PartialEq, Eq, Error)]
pub enum ServeFault {
    #[error("no such master")]
    NoSuchMaster,
    #[error("no such source")]
    NoSuchSource,
    #[error("memory refused")]
    Memory,
}

impl From<AllocError> for ServeFault {
    ghost use Rattle.check_model.specs.declared.fault.ServeFault.TheVariants.{Memory};

    ghost from_gives = { λ _ fault. fault ≡ Memory };

    fn from(_: AllocError) -> ServeFault {
        ServeFault::Memory
    }
}

/// Why a byte is not shown or put.
#[derive(Debug, Clone, Copy, PartialEq, Eq, Error)]
pub enum ByteFault {
    /// No range of a port has the address.
    #[error("no port at the address")]
    Nowhere,
    /// A device keeps no bytes here.
    #[error("a device at the address")]
    Device,
    #[error("memory refused")]
    Memory,
}

impl From<AllocError> for ByteFault {
    ghost use Rattle.check_model.specs.declared.fault.ByteFault.TheVariants.{Memory};

    ghost from_gives = { λ _ fault. fault ≡ Memory };

    fn from(_: AllocError) -> ByteFault {
        ByteFault::Memory
    }
}
