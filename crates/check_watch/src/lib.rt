//! The judge of what crossed the links of a crossbar, anyone's: which beat is the first that no lawful crossbar could
//! have shown? Links have buses of 1 to 64 bytes; slaves are memories, known or unknown byte by byte, or devices.
//!
//! A [`GroupWatch`] is made of how a crossbar is wired ([`Wiring`]), and of the slave of each port at reset. Sources and ports are as
//! `tl_map` has them.
//! [`GroupWatch::step`] takes one beat more. For every past that the judge keeps it answers `Ok` exactly if the list
//! with this beat is lawful, and keeps that list then; an `Err` changes nothing, and is the first [`Fault`] that the
//! beat has, or want of memory. An `Ok` says what the beat ends ([`Seen`]). [`GroupWatch::take`] takes a lawful beat
//! too, and makes neither the fault nor the reply. Both judge a beat by the same private path, and take it
//! afterwards.
//!
//! What is lawful is said beat by beat (`specs/Allowed.antt`) by what the beat finds: the messages under way at its
//! link, what is in flight of its source, how far that has come across, and its port's slave (`specs/Scene.antt`,
//! `specs/Past.antt`); what is kept of these is `check_flight`'s. A request takes effect as its port's slave says. A
//! beat with which a request takes effect can need a page of memory: [`StepError::Memory`] says that a lawful beat
//! was refused one.
//!
//! Read on in `docs/design/model.md`, "The judge over links of any width".
#![tactic(auto)]

mod asks;
mod beat;
mod fault;
mod fifos;
pub mod laws;
mod links;
mod paths;
mod pending;
mod replies;
mod reset;
mod seen;
mod steps;
mod watch;
mod wiring;

pub use beat::{Beat, Link};
pub use fault::{Fault, Reason, StepError, fault_of};
pub use fifos::FifoLinks;
pub use links::Links;
pub use paths::Paths;
pub use pending::{Change, Origin};
pub use replies::{answer_reason, due_reason};
pub use seen::{Ended, Seen, SeenEntry};
pub use watch::GroupWatch;
pub use wiring::Wiring;
