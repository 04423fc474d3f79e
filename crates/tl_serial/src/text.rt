//! The text of the run of a system by one thread.
ghost use Rattle.std.specs.Prelude.{◌≡◌, ◌+◌, ◌++◌, ◌<◌, All, length, IfOk, IsSomeAnd, OnOk, false, slice_get};
ghost use Rattle.tl_journal.specs.Journal.{pairs_in};
ghost use Rattle.tl_map.specs.Blocks.{counts_in};
ghost use Rattle.tl_script.specs.System.{sends};
ghost use Rattle.tl_serial.specs.Text.{histories_text, IsSerialText};
ghost use Rattle.tl_serial.specs.Slave.{AreWritten, IsAppended};

use crate::run::{Slave, run_serial, send, slaves_of};
use std::alloc::{AllocError, Global};
use tl_journal::Journal;
use tl_script::{Operations, System, push_entry, push_history, push_traces};
use tl_types::{Ask, Memory, Reply};

/// Serves a master's operations in order, and appends the lines of its trace: each request is printed as it is
/// answered, and none is kept.
fn write_master(
    text: &mut Vec<u8>,
    slaves: &mut [Slave],
    system: &System,
    master: usize,
    jobs: &Operations,
) -> Result<(), Memory>
    requires ready { length slaves.old ≡ length system.now.ranges + 1 }
    requires source { IsSomeAnd (slice_get (counts_in system.now.owners) master)
        (λ count. All (λ ask. ask.source < count) (sends jobs.now)) }
    ensures { OnOk result (IsAppended system.now master jobs.now slaves.old slaves.new
        text.old.items text.new.items) }
{
    let (mut ask, mut answer) = (Ask::blank(), Reply::blank());
    for number in 0..jobs.len() {
        if jobs.fill(number, &mut ask) {
            let place = send(slaves, system, master, &ask, &mut answer)?;
            push_entry(text, master, &ask, &answer, place.port, place.index)?;
        }
    }
    Ok(())
}

/// Serves the masters of a system, one after the other, and gives the lines of their traces.
fn write_masters(alloc: Global, slaves: &mut [Slave], system: &System) -> Result<Vec<u8>, Memory>
    requires { length slaves.old ≡ length system.now.ranges + 1 }
    ensures { IfOk result (λ text. AreWritten system.now slaves.old slaves.new text.items
        (length system.now.jobs)) }
{
    let jobs = system.jobs();
    let mut text = Vec::new(alloc);
    for (master, jobs) in jobs.iter().enumerate() {
        write_master(&mut text, slaves, system, master, jobs)?;
    }
    Ok(text)
}

/// The text of the traces of the run. Nothing that was served is kept.
fn traces_text(alloc: Global, system: &System) -> Result<Vec<u8>, Memory>
    ensures { IfOk result (λ text. IsSerialText false system.now text.items) }
{
    let mut slaves = slaves_of(alloc, system.devices(), false)?;
    let text = write_masters(alloc, &mut slaves, system)?;
    Ok(text)
}

/// Appends the lines of the histories, port 0 first.
fn push_histories(text: &mut Vec<u8>, histories: &[Journal]) -> Result<(), AllocError>
    ensures { OnOk result
        (text.new.items
        ≡ text.old.items ++ histories_text (pairs_in histories.now)) }
{
    for (port, history) in histories.iter().enumerate() {
        push_history(text, port, history)?;
    }
    Ok(())
}

/// The text of the run of a system by one thread: its traces and, if they are asked for, its histories.
pub fn write_serial(alloc: Global, system: &System, history: bool) -> Result<Vec<u8>, Memory>
    ensures { IfOk result (λ text. IsSerialText history system.now text.items) }
{
    if !history {
        return traces_text(alloc, system);
    }
    let run = run_serial(alloc, system)?;
    let mut text = Vec::new(alloc);
    push_traces(&mut text, &run.traces)?;
    push_histories(&mut text, &run.histories)?;
    Ok(text)
}
