//! The run of a system by one thread: master 0's requests, then master 1's, and so on, each answered before the next.
//!
//! [`run_serial`] answers the traces and the histories of the serial run (`IsSerialRun`, `specs/Serial.antt`). A
//! system has exactly one such run ([`laws`]). [`write_serial`] answers their text, and keeps nothing of what was served
//! if no histories are asked for. No arena is used, and no thread is started. Only want of memory is answered.
//!
//! Read on in `docs/design/model.md`, "Runs".
#![tactic(auto)]

pub mod laws;
mod run;
mod text;

pub use run::{SerialRun, run_serial};
pub use text::write_serial;
