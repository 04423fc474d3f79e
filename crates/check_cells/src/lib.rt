//! The bytes of a message, each known or unknown, and replies of such bytes.
//!
//! Contracts see [`Cells`] as a list of optional bytes. They lie in words with a mask for each, as the pages of
//! `check_memory` do, so that a part of one word is read, written and compared as one number. A [`Pattern`] is a
//! reply of which the denied flag and some bytes may be unknown: the one that is expected, or the one that was
//! captured. [`Pattern::fits`] says whether a captured reply fits what is expected (`FitsCaptured` of
//! `specs/Pattern.antt`): all that is expected is known in it and is the same, but for bytes that a corrupt beat carried
//! ([`Marks`]). A [`Sent`] is a request as it crossed, with marks of its own. An [`AskSoFar`] is a request of which not all
//! beats have crossed yet.
//!
//! The link layer (`check_beats`) gathers replies as patterns, and memories (`check_memory`) answer them.
//!
//! Read on in `docs/design/model.md`, "Bytes known and unknown".
#![tactic(auto)]

mod cells;
mod marks;
mod masks;
mod pattern;
mod sent;
mod so_far;

pub use cells::{Cells, MASK_BITS, mask_of};
pub use marks::Marks;
pub use masks::{give, known_cell, mark_cell, ones};
pub use pattern::Pattern;
pub use sent::Sent;
pub use so_far::AskSoFar;
