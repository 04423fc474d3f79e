//! The streams of a program: the system that a reader spells, and a text for a writer, however the two behave.
//!
//! [`read_whole_system`] reads a script to its end: the answer is the system that all of it spells, or its first fault;
//! [`read_up_to`] gives the bytes of any file.
//! [`write_all`] writes a text whole, or a prefix of it and says so. All are handed a [`LimitedReader`] or a
//! [`LimitedWriter`] alone, which let a stream be called a bounded number of times ([`READS`] reads, [`RETRIES`] writes
//! that are tried again since they were interrupted): so whatever a stream does, they end. [`NamedFile`] is a file that is
//! opened when it is read.
//!
//! The programs `tlx`, `tlcheck` and `tlvcd` read and write through this. Read on in `docs/design/proved.md`.
#![tactic(auto)]

mod file;
mod input;
pub mod laws;
mod limited;
mod streams;

pub use file::NamedFile;
pub use input::{InputFault, read_whole_system};
pub use limited::{LimitedReader, LimitedWriter, READS, RETRIES};
pub use streams::{ReadFault, WriteFault, read_up_to, write_all};
