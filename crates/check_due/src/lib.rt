//! The rows of a dump as the judge takes them: from values to values, with no text between.
//!
//! [`row_of_due`] makes the row of a capture of a row that is due in a dump (`DueRow` of `check_samples`). It is the row that
//! `check_rows` reads in the line that `tlvcd` writes of it (`IsDueRow` of `specs/Rows.antt`), and the line itself is never made.
//! A row whose numbers its columns have no room for, or whose link the system has not, is left to the reader of lines, which
//! finds its fault.
//!
//! That a line spells its row again is proved of numbers, bits and words (`proofs/`), and `check_wave_laws` rests on the same
//! lemmas. Read on in `check_dump`.
#![tactic(auto)]

mod bits;
mod columns;
mod rows;

pub use rows::row_of_due;
