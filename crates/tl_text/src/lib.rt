//! The words of lines: numbers, names, and what stands between blanks, as scripts spell them and traces print them.
//!
//! [`read_number`] answers the number that digits spell (`specs/Number.antt`), [`read_name`] the operation that a word
//! names, [`word`] and [`reply_word`] the words of operations and replies: reading and writing use one table of names
//! (`specs/Name.antt`). [`split_words`] answers the first words of a line (`specs/Word.antt`). [`push_decimal`],
//! [`push_hex`] and [`push_field`] append a number to a text. `specs/Reading.antt` says how the checks of a text follow
//! one another, for all readers of scripts, system files, rows and dumps.
//!
//! Each answer is pinned to its definition. Read on in `docs/reference/formats.md`, which has the formats with examples, and in
//! `docs/design/model.md`, "Texts".
#![tactic(auto)]

mod digits;
pub mod laws;
mod name;
mod number;
mod words;

pub use digits::{hex_digit, push_decimal, push_field, push_hex};
pub use name::{read_name, reply_word, word};
pub use number::{read_digits, read_number, read_pair};
pub use words::{MAX_WORDS, split_words};
