//! The command line of a program: its words, its options, and how a program ends that has none or has a fault.
//!
//! [`read_words`] reads the words. [`program`], [`flag`], [`valued`] and [`system_word`] make what clap reads them by:
//! the name of a program, an option that is set or not, an option or a word with a value, and the word SYSTEM. Each says
//! which of clap's rules it makes (`specs/Rules.antt`). [`value`], [`read_flag`] and [`read_file`] read what the words gave.
//!
//! [`fail`], [`no_memory`], [`unread`] and [`refused`] end a program that has a fault, with its line and its status.
//!
//! The programs `tlx`, `tlcheck` and `tlvcd` read their command lines and end through this. What their options are stands
//! in `tl_options`, `check_options` and `check_waves`. Read on in `docs/design/model.md`, "The command line".
#![tactic(auto)]

mod ends;
mod options;
mod words;

pub use ends::{fail, line_status, no_memory, refused, unread};
pub use options::{flag, program, read_file, read_flag, system_word, value, valued};
pub use words::read_words;
