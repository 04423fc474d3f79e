//! Tests of runs, and of the parts that they are made of: nothing else is here.
//!
//! The contracts say what each call answers. These tests say whether that is what was meant, and that each call succeeds.
//! All is worked out by hand:
//!
//! - values of messages (`tl_types`), beats (`tl_beats`), slaves (`tl_ops`) and slots
//!   (`tl_slots`); the texts of their faults and of faults that no script has, and texts if memory is refused;
//! - the audit of traces against histories (`tl_audit`), and the line of each fault of a run (`tl_program`).
//!   `tests/hostile/disturb_streams` runs the program with streams that are slow or fail.
//!
//! No clause can say that two threads run at once, that a run ends, or that each master leaves. `threads` runs whole
//! systems by threads, at gates that count who comes, with one thread a port and with four. What the program prints of
//! scripts stands in `tests/scripts`.
//!
//! They stand in one crate, since each check of tests reads all that stands below them.
#![tactic(auto)]

#[cfg(test)]
mod tests;
