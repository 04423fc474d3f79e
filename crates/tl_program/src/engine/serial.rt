//! The serial engine: from the bytes of a script to the text of its run on one thread.
ghost use Rattle.std.specs.Prelude.{◌≡◌, ◌+◌, ℕ, List, Option};
ghost use Rattle.tl_program.specs.Engine.{HasNoFault, IsAnswered};
ghost use Rattle.tl_script.specs.declared.script.TheConstants.{MAX_SCRIPT};
ghost use Rattle.tl_serial.specs.Text.{IsSerialText};
ghost use Rattle.tl_streams.specs.Input.{GivesSystem};
ghost use Rattle.tl_streams.specs.Streams.{TakesUpTo};

use crate::fault::RunFault;
use std::alloc::Global;
use std::io::{Read, Write};
use tl_script::System;
use tl_serial::write_serial;
use tl_streams::{LimitedReader, LimitedWriter, read_whole_system, write_all};

/// Reads a script to its end, runs its system on one thread, and writes the traces and, if they are asked for, the
/// histories. Nothing is written before the whole text is made. At most [`READS`](tl_streams::READS) reads are
/// made, and at most [`RETRIES`](tl_streams::RETRIES) writes tried again.
pub fn serial_engine<R: Read, W: Write>(
    alloc: Global,
    reader: &mut R,
    writer: &mut W,
    history: bool,
) -> Result<(), RunFault>
    ensures { IsAnswered (IsSerialText history) HasNoFault
        (R.remaining reader.old) (R.remaining reader.new)
        (W.contents writer.old) (W.contents writer.new) result }
{
    let mut reader = LimitedReader::new(reader);
    let mut writer = LimitedWriter::new(writer);
    run_script(alloc, &mut reader, &mut writer, history)
}

/// Runs a system on one thread, and writes the text of the run: what is promised of any input that gives this system.
fn write_run<W: Write>(
    alloc: Global,
    system: &System,
    writer: &mut LimitedWriter<'_, W>,
    history: bool,
) -> Result<(), RunFault>
    ensures same_writer { writer.new.writer.ghost_name ≡ writer.old.writer.ghost_name }
    ensures answered { (read_old read_new : Option (List ℕ)) → GivesSystem read_old read_new system.now
        → TakesUpTo (MAX_SCRIPT + 1) read_old read_new
        → IsAnswered (IsSerialText history) HasNoFault read_old read_new
        (W.contents writer.old.writer.now) (W.contents writer.new.writer.now) result }
{
    let text = write_serial(alloc, system, history)?;
    write_all(writer, &text)?;
    Ok(())
}

/// The same, through what limits the reads and the retried writes.
fn run_script<R: Read, W: Write>(
    alloc: Global,
    reader: &mut LimitedReader<'_, R>,
    writer: &mut LimitedWriter<'_, W>,
    history: bool,
) -> Result<(), RunFault>
    ensures same_reader { reader.new.reader.ghost_name ≡ reader.old.reader.ghost_name }
    ensures same_writer { writer.new.writer.ghost_name ≡ writer.old.writer.ghost_name }
    ensures answered { IsAnswered (IsSerialText history) HasNoFault
        (R.remaining reader.old.reader.now) (R.remaining reader.new.reader.now)
        (W.contents writer.old.writer.now) (W.contents writer.new.writer.now) result }
{
    let system = read_whole_system(alloc, reader)?;
    write_run(alloc, &system, writer, history)
}
