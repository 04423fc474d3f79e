//! The rule of the running arena, and the laws of its steps.
//!
//! The arena is a table of words and slots (`atomic_table`) that any number of seats step on. What the words, the
//! records at home and the seats' views are between any two steps is one definition, `Fits` of `specs/Rule.antt`: the
//! table is the image of plain lists that are lawful. [`laws`] says that each of the eight kinds of step, and the
//! dealing of the seats, keeps it, and that each step is one event that the core of `tl_slots` accepts; and what the
//! rule says of a master's view and a port's list, which is what a collected reply promises.
//!
//! There is no thread and no atomic here. There is no code, except types of views, of which no value is ever made: the
//! calls are in `tl_arena`.
//!
//! Read on in `docs/design/model.md`, "The running arena".
#![tactic(auto)]

pub mod laws;
mod view;

pub use view::{About, Desk, Hands, Held, View};
