//! The running arena: slots in which masters post requests and ports answer them, shared by any number of threads.
//!
//! [`Arena::new`] makes an arena with one seat for each master and each port. A master claims a free slot, posts a
//! request of its own source to a port, collects the reply and releases the slot; a port accepts what is posted for it
//! and answers it with its memory's reply. Every call takes `&Arena` and the caller's own seat, waits for nobody and
//! takes no memory, and moves a slot by one atomic step on its word, which keeps the rule of `tl_rule`. That step is
//! one event of the core of `tl_slots`: the clause `event` of each call names it. At each slot that it tries, a call
//! looks at the word at most once and exchanges it at most once: no clause says so, it is read off the code.
//!
//! A collected reply stands in one lawful history of the port, which begins with what the port's bank held when the
//! arena was made, after all that the master had collected there when it posted ([`Arena::collect`]). At the end
//! [`Arena::close`] gives an account of every slot.
//!
//! Read on in `docs/design/model.md`, "The running arena". The tests of its calls are the crate `tl_arena_tests`.
#![tactic(auto)]

mod account;
mod arena;
mod carried;
mod close;
mod key;
pub mod laws;
mod master;
mod plays;
mod port;
mod record;
mod seats;
mod turn;

pub use account::{Account, HeldSlot};
pub use arena::{Arena, ArenaFault, ArenaName, Made};
pub use seats::{MasterSeat, PortSeat};
pub use turn::{Accepted, Claim, Served, Ticket};
