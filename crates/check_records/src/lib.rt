//! The records of a capture, read from a stream in bounded memory, each with its line.
//!
//! A [`Records`] reads CSV by the defaults of crate `csv`: commas, double quotes, lines that end in CR, LF or CR LF,
//! empty lines that are no records, and a byte order mark that is dropped (`specs/Text.antt`). [`Records::read`] goes
//! on to the next record, of which it has the line and the columns, or answers that there is none; a record of more
//! than [`MAX_ROW`] bytes is a fault that names its line, found as soon as its next byte is seen. What a read does to
//! the text that is left is a relation from view to view (`specs/Reading.antt`), and `HaveRead` says it of one record
//! after another.
//!
//! [`Records::read_in_place`] leaves a record where it was read, if it stands there whole on a line without quotes, and
//! [`Records::bare`] has that line (`specs/Bare.antt`). Of other records a field that begins with no quote and stands
//! whole in what was read is taken at once; other bytes go one by one through the state machine of `csv`. The reader
//! underneath is read in chunks of 64 KiB, and nothing is allocated after [`Records::new`]: that is read off the code, and
//! no clause says when a read fails. Lines are counted in 64 bits: a text with more is a failed read. A read that is
//! interrupted is made again, a bounded number of times in a row. Read on in `docs/reference/captures.md`, which has the format.
#![tactic(auto)]

mod bare;
mod draft;
mod fault;
pub mod laws;
mod machine;
mod records;
mod source;

pub use draft::MAX_ROW;
pub use fault::RecordFault;
pub use records::Records;
