//! The run of a system by threads.
ghost use Rattle.std.specs.Prelude.{◌≡◌, ◌≤◌, length, IfOk};
ghost use Rattle.tl_journal.specs.Trace.{entries_in};
ghost use Rattle.tl_script.specs.System.{resets};
ghost use Rattle.tl_arena.specs.Views.{about_of, AreNewMasters, AreNewPorts};
ghost use Rattle.tl_program.specs.Run.{IsThreadedRun};

use std::alloc::Global;
use std::marker::Brand;
use std::sync::Wait;
use std::thread::Threads;
use tl_arena::{Arena, ArenaFault, Made};
use tl_ops::Bank;
use tl_script::{System, banks_of};
use tl_threads::{ThreadedRun, run_named};
use tl_types::{MAX_WORKERS, Memory};
use tl_workers::{Gate, ThreadFault, books_of, journals_of};

/// A new arena for the masters of a system and for ports with these banks.
#[tactic(auto, using(crate::proofs::Whole::resets_length))]
fn arena_of(alloc: Global, system: &System, banks: &[Bank]) -> Result<Made, Memory>
    requires { banks.now ≡ resets system.now }
    ensures arena { IfOk result (λ made. made.arena.about
        ≡ about_of system.now.slots system.now.owners (resets system.now)) }
    ensures masters { IfOk result (λ made. AreNewMasters made.arena (length system.now.jobs)
        made.masters.items) }
    ensures ports { IfOk result
        (λ made. AreNewPorts made.arena (length banks.now) made.ports.items) }
{
    let _lawful = system.jobs();
    match Arena::new(alloc, system.slots(), system.sources(), banks) {
        Ok(made) => Ok(made),
        Err(ArenaFault::BadCount) => unreachable!(),
        Err(ArenaFault::Memory) => Err(Memory),
    }
}

/// Runs a system: each master is a thread, each port has so many of them, and the masters and ports share one arena.
///
/// A master sends its operations in order. If the source of a request is busy, or no slot is free, it waits for a
/// reply of its own and tries again; at a wait and at the end it collects all that is out. It returns when all threads
/// have ended.
///
/// Errors, the first that applies: [`ThreadFault::Memory`] if memory is refused; [`ThreadFault::NoThread`] if a
/// thread is; [`ThreadFault::NotLeft`] if a master had not left when all threads had ended; [`ThreadFault::StrayBook`] if
/// a lock gave back another port's book; and [`ThreadFault::GateHeld`] if the gate let a worker wait for ever.
pub fn run_threads<R: Threads + Wait + Sync, G: Gate + Sync>(
    rt: &R,
    alloc: Global,
    system: &System,
    workers: usize,
    gate: &G,
) -> Result<ThreadedRun, ThreadFault>
    requires some { 1 ≤ workers }
    requires few { workers ≤ MAX_WORKERS }
    ensures { IfOk result (λ run. IsThreadedRun system.now (entries_in run.traces.items)
        run.books.items run.account.free.items run.account.held.items run.account.left.items) }
{
    let Ok(banks) = banks_of(alloc, system.devices()) else {
        return Err(ThreadFault::Memory);
    };
    let Ok(
        Made {
            arena,
            masters,
            ports,
        },
    ) = arena_of(alloc, system, &banks)
    else {
        return Err(ThreadFault::Memory);
    };
    let Ok(journals) = journals_of(alloc, system) else {
        return Err(ThreadFault::Memory);
    };
    let Ok(books) = books_of(alloc, &arena, ports, banks, system, &journals) else {
        return Err(ThreadFault::Memory);
    };
    let run = run_named::<Brand, R, G>(
        rt, alloc, arena, system, books, masters, &journals, workers, gate,
    )?;
    Ok(run)
}
