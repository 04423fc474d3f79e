//! The value change dumps of IEEE 1364, read from a stream in memory that depends on the signals that a dump declares.
//!
//! [`Words`] answers the words of a text one after the other, each with its line (`specs/Words.antt`); of a longer word
//! it keeps [`MAX_WORD`] bytes. [`Dump::open`] reads a header, and answers the [`Var`]s that it declares
//! (`specs/Header.antt`). [`Dump::keep`] says whose values are wanted, and [`Dump::read`] answers what happens next: a
//! time, or a change of a value that is wanted (`specs/Body.antt`). Each answer, and each fault with its line, is that
//! of the definitions over the words of the whole text (`specs/Dump.antt`).
//!
//! Nothing is allocated after the header, except room for the longest value. Read on in `docs/reference/formats.md`, "Dumps".
#![tactic(auto)]

mod body;
mod codes;
mod dump;
mod fault;
mod header;
mod range;
mod scanner;
mod token;
mod words;

pub use body::Event;
pub use dump::Dump;
pub use fault::{DumpFault, Mistake};
pub use header::Var;
pub use range::{Span, split_range};
pub use scanner::MAX_WORD;
pub use words::Words;
