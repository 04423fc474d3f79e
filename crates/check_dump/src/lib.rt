//! The verdict over a dump: its rows go to the judge of captures one by one, as they are read.
//!
//! [`judge_dump`] reads the rows of a dump (`check_samples`) to their end, or to the first that makes them unlawful. Its
//! verdict is that of the rows which stand, line by line, in the text that `tlvcd` writes of the dump (`specs/Lines.antt`):
//! with the counts of all rows if they are lawful, or with the first that makes them unlawful. If the dump has a fault, that is
//! answered, unless the rows before it are unlawful ([`ReplayFault`], `specs/Replay.antt`).
//!
//! Nothing here keeps a row: memory is that of the judge, of the rows of one time, and of what is reported of one time. Read
//! on in `docs/reference/formats.md`, "Dumps".
#![tactic(auto)]

mod fault;
mod kept;
mod lines;
mod replay;

pub use fault::ReplayFault;
pub use replay::judge_dump;
