//! Tests of tlcheck and tlvcd, and of their parts: nothing else is here. All is worked out by hand from the formats.
//!
//! - `parts`: addresses and sources (`tl_map`), records (`check_records`), and what is kept of memories and requests
//!   (`check_memory`, `check_flight`, `check_beats`);
//! - `progress`, `erasing`: the progress of a capture, and what a terminal shows after it (`screen`);
//! - `faults`: their lines and statuses.
//!
//! Read on in `docs/reference/captures.md`. What the built programs print stands in `tests/captures` and `tests/dumps`;
//! `tests/hostile/disturb_streams` runs them with streams that are slow or fail, `tests/hostile/refuse_memory` with memory
//! that is refused, and `tests/tools/options_test` with other command lines.
#![tactic(auto)]

#[cfg(test)]
mod tests;
