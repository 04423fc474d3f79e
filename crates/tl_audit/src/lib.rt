//! The audit of a finished run: whether the traces of its masters and the histories of its ports hold the same entries,
//! each once.
//!
//! [`audit`] answers Ok exactly if they agree (`Agrees`, `specs/Agrees.antt`); a fault names an entry of a trace, or
//! a place of a history, at which that fails. [`audit_lists`] takes histories from anywhere in place of books. Both
//! take one mark for each place of each history, and time in proportion to the entries. Each entry of a trace is copied
//! out of it, once for each of the three looks at a trace.
//!
//! What follows for a reader of the traces is a law ([`laws`], `specs/Reader.antt`): they are those of one thread that
//! serves each port's history from reset.
//!
//! Read on in `docs/design/model.md`, "The audit".
#![tactic(auto)]

mod books;
mod fault;
pub mod laws;
mod lists;
mod marks;
mod order;
mod recorded;

pub use books::audit;
pub use fault::AuditFault;
pub use lists::audit_lists;
