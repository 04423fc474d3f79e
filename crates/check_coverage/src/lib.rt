//! What a capture has covered: how often each bin occurs.
//!
//! Each row that was judged adds some bins (`check_bins::Bin`) after the rows before it (`specs/Bins.antt`).
//! [`Coverage::note`] counts those of one row more, and keeps which requests are in flight (`specs/Flights.antt`), when
//! the beats of each source crossed (`specs/Times.antt`), and the latest request of each port (`specs/Latest.antt`).
//! [`Coverage::append`] appends the counts as a text (`check_bins::Counts`). What the links, sources and ports are is read
//! from the judge that took the rows (`check_sides::Watch`), which both calls borrow. From where the memories of ports are
//! seen ([`Mirrors`], `specs/Mirrors.antt`) is handed in at the beginning.
//!
//! A reset of the whole system ([`Coverage::reset`]) leaves nothing in flight, and the counts go on.
//!
//! Messages are counted at the masters' links if these are watched, else at the ports'. A count stops at 2^64 - 1.
//!
//! Read on in `docs/guide/regression.md`, "What was covered", which has the table of bins.
#![tactic(auto)]

mod coverage;
mod flight;
mod latest;
pub mod laws;
mod lists;
mod marks;
mod mirrors;
mod parts;
mod ranges;
mod times;
mod waits;

pub use coverage::{Coverage, is_counted, wide_source_at};
pub use mirrors::Mirrors;
