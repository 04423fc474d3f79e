//! Why a record was not read.
ghost use Rattle.std.specs.Prelude.{◌≡◌};
ghost use Rattle.check_records.specs.declared.fault.RecordFault.TheVariants.{Memory};

use std::alloc::AllocError;
use thiserror::Error;

/// Why the next record was not read.
#[derive(Debug, Clone, Copy, PartialEq, Eq, Error)]
pub enum RecordFault {
    /// The record that begins on this line has too many bytes.
    #[error("row too long")]
    TooLong(u64),
    #[error("read failed")]
    Read,
    #[error("memory refused")]
    Memory,
}

impl From<AllocError> for RecordFault {
    ghost from_gives = { λ _ e. e ≡ Memory };

    fn from(_e: AllocError) -> RecordFault {
        RecordFault::Memory
    }
}
