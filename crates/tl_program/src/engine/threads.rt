//! The threaded engine: from the bytes of a script to the text of a run by threads.
ghost use Rattle.std.specs.Prelude.{◌≡◌, ◌≤◌, ◌+◌, ℕ, List, Option};
ghost use Rattle.tl_journal.specs.Trace.{entries_in};
ghost use Rattle.tl_script.specs.declared.script.TheConstants.{MAX_SCRIPT};
ghost use Rattle.tl_streams.specs.Input.{GivesSystem};
ghost use Rattle.tl_streams.specs.Streams.{TakesUpTo};
ghost use Rattle.tl_program.specs.Run.{IsThreadedRun};
ghost use Rattle.tl_program.specs.Engine.{HasThreadedFault, IsAnswered, IsThreadedText};

use crate::fault::RunFault;
use crate::threads::run_threads;
use std::alloc::Global;
use std::io::{Read, Write};
use std::sync::Wait;
use std::thread::Threads;
use tl_audit::audit;
use tl_script::System;
use tl_streams::{LimitedReader, LimitedWriter, read_whole_system, write_all};
use tl_threads::{ThreadedRun, threaded_text};
use tl_types::MAX_WORKERS;
use tl_workers::OpenGate;

/// Audits a run of a system by threads, and writes its text: what is promised of any input that gives this system.
fn write_run<W: Write>(
    alloc: Global,
    system: &System,
    run: &ThreadedRun,
    writer: &mut LimitedWriter<'_, W>,
    history: bool,
) -> Result<(), RunFault>
    ensures same_writer { writer.new.writer.ghost_name ≡ writer.old.writer.ghost_name }
    ensures answered { (read_old read_new : Option (List ℕ)) → GivesSystem read_old read_new system.now
        → TakesUpTo (MAX_SCRIPT + 1) read_old read_new
        → IsThreadedRun system.now (entries_in run.now.traces.items) run.now.books.items run.now.account.free.items
        run.now.account.held.items run.now.account.left.items
        → IsAnswered (IsThreadedText history) HasThreadedFault read_old read_new
        (W.contents writer.old.writer.now) (W.contents writer.new.writer.now) result }
{
    audit(alloc, system.sources(), &run.traces, &run.books)?;
    let text = threaded_text(alloc, run, history)?;
    write_all(writer, &text)?;
    Ok(())
}

/// Reads a script to its end, runs its system by threads, each master on one of its own and each port on as many as
/// there are workers, audits the run, and writes the traces, the histories where they are asked for, and the account of
/// the slots. It returns when all threads have ended, and nothing is written before the whole text is made. At most
/// [`READS`](tl_streams::READS) reads are made, and at most [`RETRIES`](tl_streams::RETRIES) writes tried again.
pub fn threads_engine<R: Read, W: Write, T: Threads + Wait + Sync>(
    rt: &T,
    alloc: Global,
    reader: &mut R,
    writer: &mut W,
    workers: usize,
    history: bool,
) -> Result<(), RunFault>
    requires some { 1 ≤ workers }
    requires few { workers ≤ MAX_WORKERS }
    ensures { IsAnswered (IsThreadedText history) HasThreadedFault
        (R.remaining reader.old) (R.remaining reader.new)
        (W.contents writer.old) (W.contents writer.new) result }
{
    let mut reader = LimitedReader::new(reader);
    let mut writer = LimitedWriter::new(writer);
    run_script(rt, alloc, &mut reader, &mut writer, workers, history)
}

/// The same, through what limits the reads and the retried writes.
fn run_script<R: Read, W: Write, T: Threads + Wait + Sync>(
    rt: &T,
    alloc: Global,
    reader: &mut LimitedReader<'_, R>,
    writer: &mut LimitedWriter<'_, W>,
    workers: usize,
    history: bool,
) -> Result<(), RunFault>
    requires some { 1 ≤ workers }
    requires few { workers ≤ MAX_WORKERS }
    ensures same_reader { reader.new.reader.ghost_name ≡ reader.old.reader.ghost_name }
    ensures same_writer { writer.new.writer.ghost_name ≡ writer.old.writer.ghost_name }
    ensures answered { IsAnswered (IsThreadedText history) HasThreadedFault
        (R.remaining reader.old.reader.now) (R.remaining reader.new.reader.now)
        (W.contents writer.old.writer.now) (W.contents writer.new.writer.now) result }
{
    let system = read_whole_system(alloc, reader)?;
    let run = run_threads(rt, alloc, &system, workers, &OpenGate)?;
    write_run(alloc, &system, &run, writer, history)
}
