//! The engines: from the bytes of a script to the text of its run. Each promises the same of what it reads and writes
//! (`IsAnswered`, `specs/Engine.antt`), and differs in whose run the text is of.
//!
//! However the reader and the writer behave, an engine ends: it reads through a `LimitedReader` and writes through a
//! `LimitedWriter` alone (crate `tl_streams`), which allow [`READS`](tl_streams::READS) reads, and
//! [`RETRIES`](tl_streams::RETRIES) writes that are tried again since they were interrupted.

pub mod serial;
pub mod threads;
