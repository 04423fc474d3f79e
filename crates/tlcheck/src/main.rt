//! tlcheck: judges whether a captured trace of a TileLink crossbar is lawful.
//!
//! SYSTEM is a system file, and says what the crossbar is, with the images that it names. CAPTURE has a row for each beat
//! that crossed one of its links, or is a dump, whose rows are those that `tlvcd` writes. Standard output ends with one
//! line, the verdict: lawful, with counts, or the first row that makes the capture unlawful, and why. With `--complete` it
//! can be incomplete or empty too, if requests are left at its end or there were none. With `--trace` a line for each reply
//! stands before the verdict. Nothing else is written to it.
//!
//! With `--coverage FILE` the text of what the capture has covered is written to FILE, after the verdict's line. FILE is
//! left alone if there is no verdict.
//!
//! A fault is one line on standard error. If there is no verdict, nothing was written but the lines of replies, or a part
//! of these and the verdict's line if a write failed. If FILE can't be written, the verdict stands on standard output
//! already, and the fault is `write failed`; FILE may then hold a part of its text. A command line that is refused is
//! answered by clap's text. If standard error is a terminal, it shows the progress of a capture that takes more than a
//! second, unless `--quiet` is given.
//!
//! The crate `check_program` carries the theorem: what is written, and the status. Here the program's words, files and
//! memory are handed to it. It is a crate of its own, so that its proof is not done again for the tests. No clause says
//! that the files read are those that were named, and that what was read is judged: that is read off `run` and `judge`.
#![tactic(auto)]

use check_options::{CheckOptions, read_check_options};
use check_program::{
    CheckFault, Erasing, Meter, Shown, check_as_asked, end_check, read_images, read_system_file,
    write_coverage,
};
use std::fs;
use std::io::{IsTerminal, Read};
use std::process::ExitCode;
use tl_cli::{read_words, refused};
use tl_streams::NamedFile;

fn main(rt: HostRuntime) -> ExitCode {
    let words = match read_words(&rt) {
        Ok(words) => words,
        Err(status) => return status,
    };
    match read_check_options(rt.alloc(), &words) {
        Ok(options) => end_check(&rt, run(&rt, &options)),
        Err(error) => refused(&rt, error),
    }
}

/// Judges the capture that was named, or the one on standard input.
fn run(rt: &HostRuntime, options: &CheckOptions<'_>) -> Result<bool, CheckFault> {
    match options.capture {
        Some(name) => judge(rt, options, NamedFile::new(rt, name)),
        None => judge(rt, options, rt.stdin()),
    }
}

/// Reads the system with its images and judges a capture. After the verdict, what was covered is written to the file that
/// was named for it.
fn judge<C: Read + Drop>(
    rt: &HostRuntime,
    options: &CheckOptions<'_>,
    capture: C,
) -> Result<bool, CheckFault> {
    let mut system = NamedFile::new(rt, options.system);
    let file = read_system_file(rt.alloc(), &mut system)?;
    let images = read_images(rt.alloc(), rt, options.system, &file.parts)?;
    let meter = meter(rt, options);
    let mut writer = Erasing::new(rt.stdout(), meter.as_ref());
    let capture = Shown::new(capture, meter.as_ref());
    let mut covered = Vec::new(rt.alloc());
    let outcome = check_as_asked(
        rt.alloc(),
        file,
        &images,
        capture,
        &mut writer,
        options,
        &mut covered,
    );
    // so that the line of a fault stands alone
    if let Some(meter) = &meter {
        meter.erase();
    }
    let lawful = outcome?;
    if let Some(name) = options.coverage {
        write_coverage(rt, name, &covered)?;
    }
    Ok(lawful)
}

/// What shows the progress of the capture, if it is shown.
fn meter<'r>(rt: &'r HostRuntime, options: &CheckOptions<'_>) -> Option<Meter<'r, HostRuntime>> {
    if options.quiet || !rt.stderr().is_terminal() {
        return None;
    }
    Meter::new(rt, options.capture.and_then(|name| length_of(rt, name)))
}

/// The length of a file that is none of the system's devices or pipes.
fn length_of(rt: &HostRuntime, name: &str) -> Option<u64> {
    let metadata = fs::metadata(rt, name).ok()?;
    if metadata.is_file() {
        Some(metadata.len())
    } else {
        None
    }
}
