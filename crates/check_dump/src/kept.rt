//! What is kept of the rows of a dump, as they are read one after the other.

use check_samples::{DueRows, EdgeFault, Rows, UnknownBit};
use check_vcd::Mistake;
use std::io::Read;

/// How the rows of a dump end.
#[derive(Debug, Drop)]
pub enum RowsEnd {
    /// All of the dump was read.
    Whole,
    /// All of it was read, and its edges are none to take beats at.
    WithoutEdges(EdgeFault),
    /// A beat has an unknown bit.
    BeforeBeat(UnknownBit),
    /// The dump is wrong: on which line, and why.
    BeforeLine(u64, Mistake),
}

/// The rows of a dump that are left to come, one after the other. Those that are due are kept until they were read.
#[derive(Drop)]
pub(crate) struct DumpLines<D: Read + Drop> {
    pub(crate) rows: Rows<D>,
    pub(crate) due: DueRows,
    /// The place of the row that was read last, and of the next one.
    pub(crate) at: usize,
    pub(crate) next: usize,
    pub(crate) ended: Option<RowsEnd>,
}
