//! What the program `tlvcd` does: it writes the capture that a value change dump holds, for tlcheck.
//!
//! SYSTEM is a system file that says where the signals of each link are (`check_signals`); DUMP is a dump (`check_vcd`).
//! [`write_capture`] carries the theorem: the capture is the header, and a row for each beat that crosses a link at a rising
//! edge of the clock (`check_samples`), as the definitions say over the bytes of both files. A fault is one line, and the
//! rows before it are written. [`open_dump`] opens a dump by itself: then its rows are read one by one, and no capture is
//! written. [`read_wave_options`] reads the command line: the words are taken or refused as clap's definitions
//! say, and name these files (`specs/Options.antt`, `laws`). [`end_waves`] says with which status the program ends. Read on in
//! `docs/reference/formats.md`, "Dumps".
//!
//! It is a library, so that its tests stand in a crate above it (`check_program_tests`): a crate with tests is proved
//! twice.
#![tactic(auto)]

mod engine;
mod fault;
pub mod laws;
mod options;
mod program;
mod system;

pub use engine::{open_dump, write_capture};
pub use fault::WaveFault;
pub use options::{WaveOptions, read_wave_options};
pub use program::end_waves;
pub use system::WaveLinks;
