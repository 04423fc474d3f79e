//! What crosses a link, beat by beat, on a bus of 1 to 64 bytes: which beat may come next, in constant time, and what
//! the beats spell.
//!
//! A beat is a small head ([`AskHead`], [`ReplyHead`]): no fault of its form reads a lane. A function that
//! needs its lanes takes a slice of them. [`UnderWay`] keeps the request and the reply that have begun at a link and not ended: the
//! first head, how many beats have crossed, and the bytes so far. It judges the next beat of either channel as one of
//! its message ([`FormFault`]), and says what a beat ends: a request, or a reply as a pattern of bytes known and unknown
//! (`check_cells`), since unknown lanes are judged only when a reply has ended.
//!
//! [`laws`] say that the beats of a channel are those of lawful messages in turn, and the first beats of one more. They
//! also say that lanes and bits past the bus mean nothing. On a bus of 8 bytes the beats of a message are those of `tl_beats`
//! (`check_beats_eight`).
//!
//! Read on in `docs/design/model.md`, "Links of any width".
#![tactic(auto)]

mod ask;
mod asking;
mod beat;
mod bus;
mod fault;
mod lanes;
pub mod laws;
mod reply;
mod replying;
mod rules;
mod under_way;

pub use beat::{AskHead, ReplyHead};
pub use bus::{Bus, MAX_LANES, beat_count_on_bus};
pub use fault::FormFault;
pub use rules::LinkRules;
pub use under_way::UnderWay;
