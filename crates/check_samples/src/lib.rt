//! Beats in the values of a dump: a row of a capture for each that crosses a link.
//!
//! A [`Sampler`] takes what happens in a dump (`Event` of `check_vcd`) by [`Sampler::take`]. A row is made for each
//! [`Channel`] whose valid and ready are both 1 at an edge of the clock of its [`Domain`] outside of that domain's reset
//! ([`Edge`]), with the values that signals had before the time of the edge, in the order of the channels. [`Sampler::push_rows`] makes the rows of the
//! last time. If resets of the whole system are told ([`SystemReset`]), the row of one stands before the others of its time
//! (`specs/Resets.antt`). Both are pinned to one definition over the whole list of what happens, `rows_from`
//! (`specs/Sampling.antt`); what a row says is in `specs/Row.antt`. [`Rows`] hands a sampler all that happens in a dump,
//! and its model is the text of the rows that are left to come, and what they end with (`specs/Left.antt`). A whole dump
//! in which a clock has no edge ends with a fault, and so does one in which the edges of a clock, or all beats, lie in reset
//! (`specs/EdgeFault.antt`).
//!
//! A value is kept in a slot of [`Values`], and a [`Tap`] says which of its digits are a signal. Parts of values are put
//! together, whenever a time begins, in one more value behind those that are kept: there are the signals of several
//! parts. Read on in `docs/reference/formats.md`, "Dumps".
#![tactic(auto)]

mod channel;
mod clock;
mod domain;
mod due;
mod edge_fault;
mod edges;
mod hands;
mod reset;
mod row;
mod rows;
mod sampler;
mod signal;
mod slot;
mod tap;
mod values;
mod watched;

pub use channel::{AskTaps, BeatTaps, Channel, ReplyTaps, UnknownBit};
pub use clock::{Clock, Edge};
pub use domain::Domain;
pub use due::{DueAsk, DueReply, DueRow, DueRows, push_due};
pub use edge_fault::EdgeFault;
pub use edges::{Edges, Needs};
pub use reset::{Reset, SystemReset};
pub use row::{AskCells, ReplyCells, is_known, read_bits};
pub use rows::{Progress, Rows, RowsFault};
pub use sampler::{Probes, SampleFault, Sampler};
pub use signal::Signal;
pub use tap::Tap;
pub use values::Values;
