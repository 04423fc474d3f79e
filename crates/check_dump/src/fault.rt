//! Why there is no verdict over a dump.

use check_rows::RowFault;
use check_samples::{EdgeFault, UnknownBit};
use check_vcd::Mistake;

/// Why there is no verdict over the rows of a dump.
#[derive(Debug, Drop)]
pub enum ReplayFault {
    /// All of the dump was read, and its edges are none to take beats at.
    Edges(EdgeFault),
    /// A beat has an unknown bit.
    Unknown(UnknownBit),
    /// The dump is wrong: on which line, and why.
    Dump(u64, Mistake),
    /// The row on this line of the capture is none, or none that may stand there.
    Row(u64, RowFault),
    Read,
    Memory,
    /// What is reported was not written whole.
    Write,
}
