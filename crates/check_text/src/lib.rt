//! The verdict over a capture of links of any width: its text, record by record and row by row, through the judge.
//!
//! [`judge_capture`] reads a capture to its end, or to the first row that makes it unlawful. Its answer is a
//! [`Verdict`]: the rows that the text spells are lawful, with their counts; or those to the end of some time have a
//! first row that makes them unlawful, with its first fault; or they are lawful and requests are left at their end, if the
//! judge was to say so. A text that is no capture is a [`CaptureFault`]: the first record that is no row, or none that may
//! stand there, by its line (`specs/Capture.antt`). What the judge reports of the rows by then goes to a writer: in parts, as
//! it grows long, and the rest before the answer (`specs/Out.antt`). After a verdict the judge has counted what the rows
//! cover, if it was to.
//!
//! Nothing here keeps a row: memory is that of the judge, of one record, and of what is reported of one time. Read on in
//! `docs/reference/captures.md`.
#![tactic(auto)]

mod capture;
mod fault;
mod header;
mod out;
mod rows;

pub use capture::judge_capture;
pub use check_review::Judge;
pub use fault::{CaptureFault, Verdict};
pub use out::write_long;
pub use rows::verdict_at_end;
