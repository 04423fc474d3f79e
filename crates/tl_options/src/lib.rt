//! The command line of tlx: `tlx [--serial] [--history] [--workers N]`.
//!
//! [`read_options`] carries the promise: the words are taken or refused just as the command line says, by clap's own
//! definitions (`command_line`, `specs/Options.antt`). If they are taken, the answer is what they ask for. The laws
//! say of each line that the documents name what it asks for, or as what it is refused. Tests say what help and
//! refusals print.
//!
//! This crate stands on clap and nothing of the crossbar but its limits, so that it is proved beside the engines. Read
//! on in `docs/design/model.md`, "The command line".
#![tactic(auto)]

pub mod laws;
mod options;

pub use options::{Options, read_options};
