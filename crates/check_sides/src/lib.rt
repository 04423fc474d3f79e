//! The judge of what crossed the links of a crossbar, over links of any width, if not all links that are watched are
//! judged together.
//!
//! A *group* is links that are judged together, by `check_watch`. With `Links::Masters` and `Ports` all links that are
//! watched are one group, and with `Both` all but those of ports that the system takes out. With `Links::Each` the
//! masters' links are one, as with `Masters`. Each port's link that is not among them is one by itself: its sources are
//! its own, and no master has to own them. Its slave is its own too. So what stands before a port may renumber sources,
//! and split or combine messages, and each side is still judged (`specs/Groups.antt`).
//!
//! [`Watch::step`] takes one beat more. It answers `Ok` exactly if the list with this beat is lawful, if memory is not
//! refused, and keeps that list then; an `Err` changes nothing, and is the first fault that the beat has in its group, or
//! want of memory. [`Watch::take`] makes neither the fault nor the reply. Memory may be refused to a lawful beat with
//! which a port's slave serves a request; at a port's link that is judged by itself, also to the first request of a
//! source, for which room is made there.
//!
//! Read on in `docs/design/model.md`, "Groups of links of any width".
#![tactic(auto)]

mod flights;
mod groups;
mod pending;
mod port;
mod port_steps;
mod reasons;
mod reset;
mod steps;
mod watch;

pub use check_watch::{
    Beat, Change, Ended, Fault, FifoLinks, Link, Links, Origin, Paths, Reason, Seen, SeenEntry,
    StepError, Wiring,
};
pub use groups::{is_any_set, is_port_alone, is_some_alone};
pub use watch::Watch;
