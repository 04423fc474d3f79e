//! What may be covered: the bins, how often each occurred, and their text.
//!
//! A bin ([`Bin`]) is a thing that a capture may show, as a request of this operation and size from this master to this
//! port. Which beats add which bins is said in `check_coverage`, which stands above. [`Counts`] counts bins
//! (`specs/Counting.antt`); a count stops at 2^64 - 1. [`Counts::append`] appends them as a text: a head line, and a line
//! for each bin that occurred, in the order of [`Bin`] (`specs/Text.antt`).
//!
//! Read on in `docs/guide/regression.md`, "What was covered", which has the table of bins.
#![tactic(auto)]

mod bin;
mod counting;
mod counts;
pub mod laws;
mod words;

pub use bin::{Access, Bin, Cause, CountedChannel, Operation, Pair, Shape};
pub use counts::Counts;
