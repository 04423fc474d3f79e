//! The judge of what crossed the links of a crossbar, where replies of some links come in the order of their requests.
//!
//! The standard lets replies to requests of different sources come in any order. A queue before a slave, or a master that
//! can't sort replies, needs them in order, and a system says so of a link ([`FifoLinks`]). There the n-th reply that
//! begins has to answer the n-th request that began (`specs/Turns.antt`).
//!
//! [`OrderedWatch`] is the judge of `check_sides` with that rule: a list of beats is lawful if it is lawful for that judge, and
//! each reply of such a link begins in turn (`specs/Lawful.antt`). [`OrderedWatch::step`] answers `Ok` exactly if the list with one
//! beat more is lawful, if memory is not refused; an `Err` changes nothing, and is the first fault of the beat, or want of
//! memory. All memory for the order of replies is asked for by [`OrderedWatch::new`].
//!
//! Read on in `docs/design/model.md`, "Replies in order".
#![tactic(auto)]

pub mod laws;
mod link_turns;
mod steps;
mod turns;
mod watch;

pub use check_sides::{
    Beat, Change, Ended, Fault, FifoLinks, Link, Links, Origin, Paths, Reason, Seen, SeenEntry,
    StepError, Wiring, is_port_alone, is_some_alone,
};
pub use watch::OrderedWatch;
