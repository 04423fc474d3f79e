//! What becomes of a capture.
ghost use Rattle.std.specs.Prelude.{◌≡◌};
ghost use Rattle.check_text.specs.Fault.{of_record};

use check_records::RecordFault;
use check_review::{Unlawful, VerdictCounts};
use check_rows::{Left, RowFault};
use thiserror::Error;

/// The verdict over a capture.
#[derive(Debug, Drop)]
pub enum Verdict {
    Lawful(VerdictCounts),
    Unlawful(Unlawful),
    /// It is lawful, and requests are left at its end. This comes only if it is asked for.
    Incomplete(Left),
}

/// Why a text is no capture, or was not read. The text of each is one line for standard error.
#[derive(Debug, Clone, Copy, PartialEq, Eq, Error)]
pub enum CaptureFault {
    /// The first record, on this line, is not the header; or there is none.
    #[error("capture: line {0}: wrong header")]
    Header(u64),
    /// The record that begins on this line has too many bytes.
    #[error("capture: line {0}: row too long")]
    TooLong(u64),
    /// The record that begins on this line is no row, or none that may stand there.
    #[error("capture: line {0}: {1}")]
    Row(u64, RowFault),
    #[error("read failed")]
    Read,
    #[error("memory refused")]
    Memory,
    /// What is reported was not written whole.
    #[error("write failed")]
    Write,
}

impl From<RecordFault> for CaptureFault {
    ghost from_gives = { λ fault e. e ≡ of_record fault };

    fn from(fault: RecordFault) -> CaptureFault {
        match fault {
            RecordFault::TooLong(line) => CaptureFault::TooLong(line),
            RecordFault::Read => CaptureFault::Read,
            RecordFault::Memory => CaptureFault::Memory,
        }
    }
}
