//! Why traces and histories don't agree.
ghost use Rattle.std.specs.Prelude.{◌≡◌};
ghost use Rattle.tl_audit.specs.declared.fault.AuditFault.TheVariants.{Memory};

use std::alloc::AllocError;
use thiserror::Error;

/// Why traces and histories don't agree. Masters and ports are named by their numbers, entries by their places.
#[derive(Debug, Clone, Copy, PartialEq, Eq, Error)]
pub enum AuditFault {
    /// The master's entry is not the one at its port and index.
    #[error("audit: master {0} entry {1}: not in its history")]
    Missing(usize, usize),
    /// Two entries name this place of the port's history.
    #[error("audit: port {0} entry {1}: traced twice")]
    Twice(usize, usize),
    /// An earlier entry of the same source and port has no smaller index.
    #[error("audit: master {0} entry {1}: out of order")]
    Order(usize, usize),
    /// No entry names this place of the port's history.
    #[error("audit: port {0} entry {1}: not traced")]
    Untraced(usize, usize),
    #[error("memory refused")]
    Memory,
}

impl From<AllocError> for AuditFault {
    ghost from_gives = { λ _ fault. fault ≡ Memory };

    fn from(_: AllocError) -> AuditFault {
        AuditFault::Memory
    }
}
