//! Requests and their replies, kept in no more memory than they have.
//!
//! A message in hand has room for the longest one. What is kept of many of them must not: a [`Journal`] is a list of
//! requests with their replies, of which each takes a header and the bytes that it has. These stand in [`Pools`], those
//! of one message after those of the other, which also keep the operations of a script.
//!
//! Each call's contract says which list it leaves; what was appended is read back as it was. If room for an entry
//! was made before, appending it takes no memory.
//!
//! Read on in `docs/design/model.md`, "Journals".
#![tactic(auto)]

mod journal;
mod pools;
mod trace;

pub use journal::Journal;
pub use pools::Pools;
pub use trace::{Place, Trace, blank_entry};
