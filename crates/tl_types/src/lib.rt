//! The messages of TileLink TL-UL and TL-UH: requests on channel A, replies on channel D.
//!
//! An [`Ask`] or a [`Reply`] that exists has a lawful size, the byte count of its operation, and no byte left unset
//! but in a partial put; the bytes of a denied reply are zero. Contracts see them as the records `Request` and
//! `Response` of `specs/`, so that two messages are equal if these fields are. The tables between operations and
//! the opcodes and parameters of the wires are in `wire`, proved in both directions.
//!
//! This crate also has what all others share: the limits, the entries of traces, the fault [`Memory`], a copy of bytes
//! that costs little if they are few ([`write_over`]), the pattern of "the first fault that applies"
//! (`specs/Fault.antt`), and lemmas on lists (`proofs/Lists.antt`).
//!
//! Read on in `docs/design/model.md`, "Messages".
#![tactic(auto)]

mod bytes;
mod fault;
pub mod laws;
mod limits;
mod operation;
mod reply;
mod request;
mod room;
mod trace;
mod wire;

pub use bytes::Bytes;
pub use fault::Memory;
pub use limits::{
    BUS_BYTES, MAX_BYTES, MAX_MASTERS, MAX_PORTS, MAX_SIZE, MAX_SLOTS, MAX_WORKERS, WORD_BYTES,
};
pub use operation::{Arith, AskOp, Hint, Logic, ReplyOp, width};
pub use reply::{Reply, ReplyFault};
pub use request::{Ask, AskFault};
pub use room::write_over;
pub use trace::Entry;
pub use wire::{OpFault, opcode, param, read_op, read_reply_op, reply_opcode};
