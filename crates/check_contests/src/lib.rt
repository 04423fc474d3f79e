//! Slaves that take requests in an order that nobody knows: each request takes effect at some moment after it is
//! accepted, and before its reply begins.
//!
//! [`Contests`] keeps the requests that a port has accepted and not yet answered ([`Accepted`]), each with what its reply has
//! to fit. Contracts see it as their list. [`Contests::accept`] serves a request beside those kept. What two of them may
//! write is contested: it is unknown from then on, in the memory and in what is due (`specs/Contests.antt`, over
//! `specs/Writes.antt`). [`Contests::answer`] takes one out.
//!
//! [`cut_short`] makes unknown what a request may write that a reset cut short (`specs/Cut.antt`). [`serve_sent`] does the
//! same with a request of which a beat was marked corrupt, and serves each other (`specs/Sent.antt`).
//!
//! `laws` says that this is right: whenever each request takes effect at the true slave, what is due to its reply says no
//! more than what was expected of that slave then (`specs/Moments.antt`, `specs/Below.antt`, `specs/Laws.antt`). It also
//! says that nothing is made unknown if no two requests have a byte in common that one of them may write, and that what is
//! seen stays true whatever a corrupt request writes.
#![tactic(auto)]

mod accepted;
mod contests;
mod cut;
mod due;
mod flags;
pub mod laws;
mod placed;
mod sent;
mod writes;

pub use accepted::Accepted;
pub use contests::Contests;
pub use cut::cut_short;
pub use sent::{answer_sent, serve_sent};
