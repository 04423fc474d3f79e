//! Why a run by threads has no end.
ghost use Rattle.std.specs.Prelude.{◌≡◌};
ghost use Rattle.tl_workers.specs.declared.fault.ThreadFault.TheVariants.{Memory};

use std::alloc::AllocError;
use thiserror::Error;
use tl_types::Memory;

/// Why a run by threads has no end.
#[derive(Debug, Clone, Copy, PartialEq, Eq, Error)]
pub enum ThreadFault {
    #[error("memory refused")]
    Memory,
    #[error("thread refused")]
    NoThread,
    /// The gate never let a port's worker serve, until that served all the same.
    #[error("gate of port {0} held")]
    GateHeld(usize),
    /// A lock gave back another port's book.
    #[error("port {0}: stray book")]
    StrayBook(usize),
    /// All threads have ended, and this master has not left the arena.
    #[error("master {0} has not left")]
    NotLeft(usize),
}

impl From<Memory> for ThreadFault {
    ghost from_gives = { λ _ fault. fault ≡ Memory };

    fn from(_: Memory) -> ThreadFault {
        ThreadFault::Memory
    }
}

impl From<AllocError> for ThreadFault {
    ghost from_gives = { λ _ fault. fault ≡ Memory };

    fn from(_: AllocError) -> ThreadFault {
        ThreadFault::Memory
    }
}
