//! A run by threads over one arena, and the text of what it leaves.
//!
//! [`run_named`] puts the books behind locks, has the threads (`tl_workers`) made, started and joined, closes the arena
//! and takes the books out again. If it answers Ok, each master's trace is one of its operations, each port's book is its own
//! and lawful, the account is that of the arena at its end, and every master has left ([`ThreadedRun`]). What such a run
//! needs is made by `run_threads` (`tl_program`). [`threaded_text`] makes the text of a run.
//!
//! The wrong bodies of a run by threads that the gate tries (`must-fail`) stand in this crate, since it is small: a check
//! of one from nothing costs as much as that of its crate.
//!
//! Read on in `docs/design/model.md`, "Runs by threads".
#![tactic(auto)]

mod named;
mod text;

pub use named::{ThreadedRun, run_named};
pub use text::threaded_text;
