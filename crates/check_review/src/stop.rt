//! How the rows of a capture end.
ghost use Rattle.std.specs.Prelude.{◌≡◌};
ghost use Rattle.check_review.specs.Verdict.{stop_of};

use check_lines::{Breach, VerdictCounts};
use check_rows::{Row, RowFault};
use check_unanswered::Left;

/// How a lawful capture ends: its counts, and what is left of its requests, if that is asked for and there are any.
#[derive(Debug, Clone, Copy, PartialEq, Eq)]
pub struct Ending {
    pub counts: VerdictCounts,
    pub left: Option<Left>,
}

/// The first row that makes a capture unlawful, and how; of a request that has waited for too long the row with which it began.
#[derive(Debug, Drop)]
pub struct Unlawful {
    pub row: Row,
    pub breach: Breach,
}

/// Why rows are refused as they are judged.
#[derive(Debug, Drop)]
pub enum Refusal {
    Unlawful(Unlawful),
    /// There was no memory for what is told of them, or for what is kept of them.
    Memory,
}

/// Why a row is not taken.
#[derive(Debug, Drop)]
pub enum Stop {
    /// It may not stand after the rows before it.
    Row(RowFault),
    /// It is of a later time, and the rows before it are not lawful.
    Beat(Unlawful),
    /// It is of a later time, and there was no memory for what is told or kept of the rows before it.
    Memory,
}

/// What becomes of a row if those before it are refused.
pub(crate) fn stop_of(refusal: Refusal) -> Stop
    ensures { result ≡ stop_of refusal }
{
    match refusal {
        Refusal::Unlawful(found) => Stop::Beat(found),
        Refusal::Memory => Stop::Memory,
    }
}
