//! The command line of tlcheck: `tlcheck [--links both|masters|ports|each] [--order ORDER] [--within N] [--trace]
//! [--complete] [--quiet] [--coverage FILE] SYSTEM [CAPTURE]`.
//!
//! [`read_check_options`] carries the promise: the words are taken or refused just as the command line says, by clap's own
//! definitions (`IsCommandLine`, `specs/Options.antt`), and if they are taken the answer is what they ask for. The
//! laws say of lines that the documents name what they ask for, or as what they are refused. What help and refusals
//! read as is clap's.
//!
//! This crate stands on clap, and of the crates for captures on the two choices that the options name: `Links` of
//! `check_sides` and `Order` of `check_flight`. Read on in `docs/reference/captures.md`, "The command".
#![tactic(auto)]

pub mod laws;
mod options;

pub use options::{CheckOptions, read_check_options};
