//! tlvcd: writes the capture that a value change dump holds, for tlcheck.
//!
//! SYSTEM is a system file that says where the signals of each link are, and DUMP is a dump. Standard output is the capture:
//! a row for each beat that crosses a link at a rising edge of the clock. A fault is one line on standard error; the rows
//! before it were written. A command line that is refused is reported by clap's text.
//!
//! The crate `check_waves` carries the theorem: what is written, and the status. Here the program's words, files and memory
//! are handed to it. No clause says that the files read are those that were named, and that what was read is written as
//! rows: that is read off `run`. Read on in `docs/reference/formats.md`, "Dumps".
#![tactic(auto)]

use check_waves::{WaveFault, WaveOptions, end_waves, read_wave_options, write_capture};
use std::process::ExitCode;
use tl_cli::{read_words, refused};
use tl_streams::NamedFile;

fn main(rt: HostRuntime) -> ExitCode {
    let words = match read_words(&rt) {
        Ok(words) => words,
        Err(status) => return status,
    };
    match read_wave_options(rt.alloc(), &words) {
        Ok(options) => end_waves(&rt, run(&rt, &options)),
        Err(error) => refused(&rt, error),
    }
}

/// Writes the capture of the dump that was named, or of the one on standard input.
fn run(rt: &HostRuntime, options: &WaveOptions<'_>) -> Result<(), WaveFault> {
    let mut system = NamedFile::new(rt, options.system);
    let mut writer = rt.stdout();
    match options.dump {
        Some(name) => {
            let dump = NamedFile::new(rt, name);
            write_capture(rt.alloc(), &mut system, dump, &mut writer)
        }
        None => write_capture(rt.alloc(), &mut system, rt.stdin(), &mut writer),
    }
}
