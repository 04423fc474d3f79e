//! The command line: `tlvcd SYSTEM [DUMP]`.
ghost use Rattle.std.specs.Prelude.{◌≡◌, IfOk, false, map};
ghost use Rattle.clap.specs.Words.{FailsBy, app_of, fault_of, rule_of};
ghost use Rattle.check_waves.specs.Options.{dump_rule, files_asked, files_in, wave_line};

use clap::{Arg, Command, Error};
use std::alloc::{AllocError, Global};
use std::convert::AsStr;
use tl_cli::{program, read_file, system_word, value, valued};

/// What help says first.
const ABOUT: &str = "Writes the capture of a TileLink crossbar from a value change dump";

/// What help says at its end.
const AFTER_HELP: &str = "\
SYSTEM is a system file that says where the signals are: clock, reset, signals, wires. DUMP is a value change dump.
The capture is written for tlcheck: tlvcd SYSTEM DUMP | tlcheck SYSTEM

Status: 0 all rows written, 1 a fault of the system or the dump, 2 of the command line, 4 memory refused, 5 a file could
not be opened, read or written.";

/// What the command line asks for.
#[derive(Clone, Copy, Debug, PartialEq, Eq)]
pub struct WaveOptions<'a> {
    /// The file with the system.
    pub system: &'a str,
    /// The file with the dump; if there is none it comes on standard input.
    pub dump: Option<&'a str>,
}

/// DUMP.
fn dump_word<'a>(alloc: Global) -> Arg<'a>
    ensures rule { rule_of result ≡ dump_rule }
    ensures local { result.global ≡ false }
{
    let help = "The file with the dump; standard input if there is none, or -";
    valued(alloc, "dump", "DUMP", help)
}

/// The words that there are.
fn command<'a>(alloc: Global) -> Result<Command<'a>, AllocError>
    ensures { IfOk result (λ command. app_of command ≡ wave_line) }
{
    program(alloc, "tlvcd", ABOUT, AFTER_HELP)
        .arg(system_word(alloc))?
        .arg(dump_word(alloc))
}

/// Reads the command line, whose first word is the program's name.
///
/// Errors: help or the version that was asked for, an unknown option, no SYSTEM, or a stray word; each is clap's own
/// text.
pub fn read_wave_options<'a, S: AsStr>(
    alloc: Global,
    words: &'a [S],
) -> Result<WaveOptions<'a>, Error>
    // The files are those that the words name.
    ensures asked { IfOk result (λ options. files_asked options ≡ files_in (map S.text words.now)) }

    // The words are taken or refused as the command line says.
    ensures faults { FailsBy (fault_of wave_line (map S.text words.now)) result }
{
    let matches = command(alloc)?.try_get_matches_from(words)?;
    Ok(WaveOptions {
        system: value(&matches, "system"),
        dump: read_file(matches.get_str("dump")),
    })
}
