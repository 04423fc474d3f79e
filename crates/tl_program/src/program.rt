//! The program, save for its words and its streams: which engine runs, and the status that the program ends with.
ghost use Rattle.std.specs.Prelude.{◌≡◌, ◌≤◌, true, false, IfErr, OnOk};
ghost use Rattle.std.specs.Process.{exit_status};
ghost use Rattle.tl_serial.specs.Text.{IsSerialText};
ghost use Rattle.tl_program.specs.Engine.{HasNoFault, HasThreadedFault, IsAnswered, IsThreadedText};
ghost use Rattle.tl_program.specs.Fault.{status_of};

use crate::engine::serial::serial_engine;
use crate::engine::threads::threads_engine;
use crate::fault::RunFault;
use std::alloc::Global;
use std::io::{Eprint, Read, Write};
use std::process::ExitCode;
use std::sync::Wait;
use std::thread::Threads;
use tl_cli::fail;
use tl_options::Options;
use tl_types::MAX_WORKERS;

/// Ends the program after a run: with its fault's line and status, if it has one.
pub fn ended<R: Eprint>(rt: &R, outcome: Result<(), RunFault>) -> ExitCode
    ensures done { OnOk outcome (exit_status result ≡ 0) }
    ensures fault { IfErr outcome (λ fault. exit_status result ≡ status_of fault) }
{
    match outcome {
        Ok(()) => ExitCode::from(0),
        Err(fault) => fail(rt, &fault, fault.status()),
    }
}

/// Runs the script that is read, on one thread or by threads.
pub fn run<R: Read, W: Write, T: Threads + Wait + Sync>(
    rt: &T,
    alloc: Global,
    reader: &mut R,
    writer: &mut W,
    options: Options,
) -> Result<(), RunFault>
    requires some { 1 ≤ options.workers }
    requires few { options.workers ≤ MAX_WORKERS }

    // Which of the two texts is written.
    ensures serial { options.serial ≡ true
        → IsAnswered (IsSerialText options.history) HasNoFault
        (R.remaining reader.old) (R.remaining reader.new)
        (W.contents writer.old) (W.contents writer.new) result }
    ensures threads { options.serial ≡ false
        → IsAnswered (IsThreadedText options.history) HasThreadedFault
        (R.remaining reader.old) (R.remaining reader.new)
        (W.contents writer.old) (W.contents writer.new) result }
{
    if options.serial {
        serial_engine(alloc, reader, writer, options.history)
    } else {
        threads_engine(rt, alloc, reader, writer, options.workers, options.history)
    }
}
