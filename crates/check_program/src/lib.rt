//! What the program `tlcheck` does: from the bytes of a system file, of its images and of a capture to the line of the
//! verdict.
//!
//! [`read_system_file`] reads SYSTEM and the parts that it names, and [`read_images`] the image of each port that names one, from
//! the folder of SYSTEM. [`check`] judges the capture that a reader gives, and writes the line of the verdict. It carries the
//! theorem (`specs/Engine.antt`): lawful is written exactly if the rows that the capture spells are lawful for the system.
//! The capture may be a dump; then its rows are those that `tlvcd` writes (`specs/Dump.antt`). If there is no verdict, a
//! [`CheckFault`] says why. [`check_as_asked`] judges as the command line asks (`check_options`), [`write_coverage`] writes
//! what was covered to a file, and [`end_check`] says with which status the program ends.
//!
//! A [`Shown`] is a reader that shows on standard error how far the capture is read (a [`Meter`] prints a [`Line`]), and an
//! [`Erasing`] is a writer that erases that line first. Both hand on each byte. Read on in `docs/reference/captures.md`.
//!
//! It is a library, so that its tests stand in a crate above it (`check_program_tests`).
#![tactic(auto)]

mod asked;
mod coverage;
mod dump;
mod engine;
mod fault;
mod front;
mod images;
mod line;
mod meter;
mod mirrors;
mod program;
mod shown;
mod system;

pub use asked::Asked;
pub use check_signals::{KeyFault, SignalKey};
pub use check_text::CaptureFault;
pub use check_waves::WaveFault;
pub use coverage::write_coverage;
pub use engine::check;
pub use fault::{CheckFault, DumpFault, UnnamedLink};
pub use images::{ImageFiles, read_images};
pub use line::Line;
pub use meter::Meter;
pub use program::{check_as_asked, end_check};
pub use shown::{Erasing, Shown};
pub use system::{SystemFile, read_image, read_system_file};
