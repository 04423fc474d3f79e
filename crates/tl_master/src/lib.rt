//! One master: it issues requests of its own sources, polls for their replies, and keeps its trace.
//!
//! [`Master::issue`] widens the source, routes the request by the map and posts it to the arena; each refusal comes
//! exactly where it should, in one order. [`Master::poll`] collects the reply to what is out for a source and appends
//! the entry, with the master's own source. Both contracts give the whole master after the call (`specs/Steps.antt`),
//! and neither takes memory or waits: [`Master::new`] made the room. [`Master::next_out`] goes from source to source of
//! those that a request is out for.
//!
//! [`Master::finish`] leaves the arena and gives the trace: of two entries with one source and port the earlier has
//! the smaller index, and for each port its entries, with wide sources, stand in one lawful history of the port's
//! reset, which has no other request of this master's.
//!
//! What was asked of a source, collected or still out, in the order of issue, is `asked` (`specs/Master.antt`): an
//! issue puts its request at the end, and nothing else changes it.
#![tactic(auto)]

mod master;
mod source_set;

pub use master::{IssueFault, Issued, Master, Polled};
