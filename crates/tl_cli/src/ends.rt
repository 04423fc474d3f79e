//! How a program ends: a line on standard error if it has a fault, and its status.
ghost use Rattle.std.specs.Prelude.{◌≡◌, ◌≢◌};
ghost use Rattle.std.specs.IoError.{error_kind};
ghost use Rattle.std.specs.Process.{exit_status};
ghost use Rattle.clap.specs.Words.{kind_of};
ghost use Rattle.tl_cli.specs.Ends.{status_of_kind};

use clap::error::ErrorKind as LineKind;
use std::fmt::Display;
use std::io;
use std::io::{Eprint, ErrorKind, Print};
use std::process::ExitCode;
use tl_types::Memory;

/// The status of a command line that is mistaken, or not text.
const USAGE: u8 = 2;

/// The status of want of memory.
const NO_MEMORY: u8 = 4;

/// Prints the line of a fault. The status is the fault's also if its line can't be printed.
pub fn fail<R: Eprint, F: Display>(rt: &R, fault: &F, status: u8) -> ExitCode
    ensures { exit_status result ≡ status }
{
    let _ = eprintln!(rt; "{fault}");
    ExitCode::from(status)
}

/// Ends a program that had no memory for its command line.
pub fn no_memory<R: Eprint>(rt: &R) -> ExitCode
    ensures { exit_status result ≡ NO_MEMORY }
{
    fail(rt, &Memory, NO_MEMORY)
}

/// Ends a program whose command line could not be read: for want of memory, or since a word is not text.
pub fn unread<R: Eprint>(rt: &R, error: &io::Error) -> ExitCode
    ensures memory { error_kind error.now ≡ ErrorKind.OutOfMemory → exit_status result ≡ NO_MEMORY }
    ensures text { error_kind error.now ≢ ErrorKind.OutOfMemory → exit_status result ≡ USAGE }
{
    if error.kind() == ErrorKind::OutOfMemory {
        return no_memory(rt);
    }
    fail(rt, &"arguments are not text", USAGE)
}

/// The status of a command line without options: 0 for help and the version, 4 for want of memory, 2 for a mistake.
pub fn line_status(error: &clap::Error) -> u8
    ensures { result ≡ status_of_kind (kind_of error.now) }
{
    match error.kind() {
        LineKind::DisplayHelp | LineKind::DisplayVersion => 0,
        LineKind::OutOfMemory => NO_MEMORY,
        _ => USAGE,
    }
}

/// Prints the help that was asked for, or what is wrong with a command line, and ends the program.
pub fn refused<R: Print + Eprint>(rt: &R, error: clap::Error) -> ExitCode
    ensures { exit_status result ≡ status_of_kind (kind_of error) }
{
    if error.kind() == LineKind::OutOfMemory {
        return no_memory(rt);
    }
    let _ = error.print(rt);
    ExitCode::from(line_status(&error))
}
