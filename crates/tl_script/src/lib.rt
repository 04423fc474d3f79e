//! The texts of tlx: scripts, the operations in them, and the lines of traces, histories and accounts.
//!
//! [`read_system`] answers the [`System`] that a script describes, or the first of its faults in the order of the
//! checks (`specs/Script.antt`, with the tables of the keys in `specs/Port.antt` and `specs/Master.antt`). Beside that
//! only want of memory is answered. [`read_operation`] answers the one [`Job`] that a line spells, and nothing for
//! every other line (`specs/Operation.antt`). [`write_trace`], [`write_history`] and [`write_account`] give exactly the
//! texts of `specs/Trace.antt` and `specs/History.antt`; [`push_traces`], [`push_trace`], [`push_entry`],
//! [`push_history`] and [`push_account`] append them to a text, [`push_reply`] part of a line. Words and numbers are
//! the crate `tl_text`'s.
//!
//! What is a TOML document, and what its table is, is the crate `toml`'s own definition, `parse_document`.
//!
//! Read on in `docs/reference/formats.md`, which has the formats with examples, and in `docs/design/model.md`, "Texts".
#![tactic(auto)]

mod data;
mod fault;
mod history;
pub mod laws;
mod map;
mod masters;
mod operation;
mod operations;
mod parts;
mod ports;
mod print;
mod script;
mod sources;
mod system;
mod value;

pub use fault::{ScriptFault, ScriptKey};
pub use history::{push_account, push_history, write_account, write_history};
pub use map::{MAX_RANGES, MapFault};
pub use operation::{Job, read_operation};
pub use operations::Operations;
pub use print::{
    push_ask, push_entry, push_origin, push_place, push_reply, push_target, push_trace,
    push_traces, write_trace,
};
pub use script::{MAX_SCRIPT, read_system};
pub use sources::SourceFault;
pub use system::{Device, MAX_JOBS, PartsOfSystem, System, banks_of};
