//! What tlx reads and sends is a special case of what the judge does: laws, each on a function that does nothing but carry
//! it.
//!
//! - [`scripts`]: a script of tlx is a system file of the judge, and describes the same system. It is said of scripts that
//!   have none of the keys which only a system file has (`specs/Instance.antt`).
//! - [`beats`]: on a bus of 8 bytes the links of any width are those of `tl_beats`. It is said of the lanes of bytes, and of
//!   the beats that spell a message. The message that `check_beats` gathers is the one that the beats spell in `tl_beats`
//!   (`specs/Beats.antt`).
//!
//! Nothing runs here. Read on in `docs/design/model.md`, "Scripts as system files" and "Links of any width".
#![tactic(auto)]

pub mod beats;
pub mod scripts;
