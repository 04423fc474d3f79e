//! What `tlvcd` writes, read as captures are: laws between `check_samples` and `check_rows`.
//!
//! `check_samples` says which text the row of a beat has, `check_rows` which row a text is, by the buses of links.
//! [`laws::beats_are_rows`] says that the text of each beat is one line, and that the row which it spells has the beat's
//! time, link, channel and numbers, and the bytes of its lanes that are known; [`laws::resets_are_rows`] says so of the
//! row of a reset. [`laws::rows_of_dumps_are_rows`] says so of the whole text of a dump's rows.
//! [`laws::rows_of_systems_are_rows`] says so of any two files that `tlvcd` reads: what the names of a system find
//! (`check_signals`) has no more bits than its columns have room for, mask and data as many as the bus of their link asks
//! for. [`laws::names_are_of_links`] says that these are all names of the file, and [`laws::resets_are_told`] that rows
//! tell of resets if the system has them.
//!
//! Which beats and which resets a dump has is said of its changes alone, without the machine that makes rows of them one
//! by one (`rows_from` of `check_samples`). [`laws::rows_are_sampled`] says that the rows of the machine are those of
//! these, [`laws::dumps_are_sampled`] and [`laws::systems_are_sampled`] that this is so of each dump and of what `tlvcd`
//! writes, and [`laws::sampled_rows_are_one`] that there are no other such rows.
//!
//! Nothing runs here. Read `specs/Sampled.antt`, what sampling means, `specs/Seen.antt`, what signals show,
//! `specs/Rows.antt` and `specs/Text.antt`, and then `docs/design/model.md`, "Dumps".
#![tactic(auto)]

pub mod laws;
