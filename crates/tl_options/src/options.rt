//! The command line: `tlx [--serial] [--history] [--workers N]`.
ghost use Rattle.std.specs.Prelude.{◌≡◌, ◌≤◌, IfOk, map, false};
ghost use Rattle.clap.specs.Words.{FailsBy, app_of, fault_of, rule_of};
ghost use Rattle.tl_options.specs.Options.{command_line, options_in, workers_rule};

use clap::{Arg, ArgAction, Command, Error, value_parser};
use std::alloc::{AllocError, Global};
use std::convert::AsStr;
use tl_cli::{flag, program, read_flag, value};
use tl_types::MAX_WORKERS;

/// What help says first.
const ABOUT: &str =
    "Runs a script of requests over a TileLink crossbar, and prints what each is answered";

/// What help says at its end.
const AFTER_HELP: &str = "\
The script comes on standard input:
  slots = 4
  [[port]]
  kind = \"ram\"
  base = 0x1000
  length = 64
  [[master]]
  sources = 16
  ops = [\"0 putfull 0x1000 2 11223344\", \"0 get 0x1000 2\"]

Status: 0 done, 1 a fault of the script, 2 of the command line, 3 of the audit, 4 memory or a thread refused, 5 a read or a
write failed.";

/// What help says of each flag.
const SERIAL_HELP: &str = "Run the masters one after the other, on one thread";

const HISTORY_HELP: &str = "Print what each port has served behind the traces";

/// What the command line asks for.
#[derive(Clone, Copy, Debug, PartialEq, Eq)]
pub struct Options {
    /// Runs all masters one after the other, on one thread.
    pub serial: bool,
    /// Prints the histories after the traces.
    pub history: bool,
    /// How many threads serve each port, where the masters are threads.
    pub workers: usize,
}

/// Reads the command line, whose first word is the program's name.
///
/// Errors: help or the version that was asked for, an unknown option, a stray word, or a number of workers that is none
/// or outside its range; each is clap's own text.
pub fn read_options<S: AsStr>(alloc: Global, words: &[S]) -> Result<Options, Error>
    ensures some { IfOk result (λ options. 1 ≤ options.workers) }
    ensures few { IfOk result (λ options. options.workers ≤ MAX_WORKERS) }

    // The options are those that the words ask for.
    ensures asked { IfOk result
        (λ options. options ≡ options_in (map S.text words.now)) }

    // The words are taken or refused as the command line says.
    ensures faults { FailsBy (fault_of command_line (map S.text words.now)) result }
{
    let matches = command(alloc)?.try_get_matches_from(words)?;
    Ok(Options {
        serial: read_flag(value(&matches, "serial")),
        history: read_flag(value(&matches, "history")),
        workers: matches.get_one::<usize>("workers").unwrap(),
    })
}

/// `--workers N`.
fn workers_option<'a>(alloc: Global) -> Arg<'a>
    ensures rule { rule_of result ≡ workers_rule }
    ensures local { result.global ≡ false }
{
    Arg::new(alloc, "workers")
        .long("workers")
        .action(ArgAction::Set)
        .value_name("N")
        .value_parser(value_parser!(usize).range(1..=MAX_WORKERS as i64))
        .default_value("1")
        .help("Threads for each port")
}

/// The options that there are.
fn command<'a>(alloc: Global) -> Result<Command<'a>, AllocError>
    ensures { IfOk result (λ command. app_of command ≡ command_line) }
{
    program(alloc, "tlx", ABOUT, AFTER_HELP)
        .arg(flag(alloc, "serial", SERIAL_HELP))?
        .arg(flag(alloc, "history", HISTORY_HELP))?
        .arg(workers_option(alloc))
}
