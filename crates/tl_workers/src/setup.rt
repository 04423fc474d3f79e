//! What a run needs before its threads start: books, masters and bells.
ghost use Rattle.std.specs.Prelude.{◌≡◌, ◌+◌, ◌*◌, ◌^◌, ◌<◌, ◌≤◌, ℕ, All, IfOk, OnOk, Some, vec_len, length, map, slice_get};
ghost use Rattle.tl_script.specs.System.{sends};
ghost use Rattle.tl_arena.specs.Views.{AreNewMasters, AreNewPorts};
ghost use Rattle.tl_workers.specs.Trace.{IsIdle};
ghost use Rattle.tl_types.specs.declared.limits.TheConstants.{MAX_MASTERS, MAX_WORKERS};
ghost use Rattle.tl_script.specs.declared.system.TheConstants.{MAX_JOBS};
ghost use Rattle.tl_workers.specs.Start.{AddsArrivals, AreFrom, AreJournals, IsHeardAt};
ghost use Rattle.tl_workers.specs.Start.{IsNewBook, IsNewMasterThread, IsNewThreadSet, IsNewWorkerThread};
ghost use Rattle.tl_arena.specs.Views.{new_master, new_port};
ghost use Rattle.tl_port.specs.Book.{new_book};
ghost use Rattle.tl_rule.specs.Views.{reset_of};

use crate::bell::{Bells, Listener, Ringer};
use crate::run::{MasterThread, ThreadSet, WorkerThread};
use std::alloc::Global;
use tl_arena::{Arena, MasterSeat, PortSeat};
use tl_map::AddressMap;
use tl_master::Master;
use tl_ops::Bank;
use tl_port::Book;
use tl_script::{Operations, System};
use tl_types::{Ask, Memory};

/// Adds to each port's count the requests of these operations that go there.
fn count_sends(map: &AddressMap, jobs: &Operations, counts: &mut [usize])
    requires ports { length counts.old ≡ length map.now + 1 }
    requires room { (p n : ℕ) → slice_get counts.old p ≡ Some n → n + length jobs.now < 2 ^ 64 }
    ensures { AddsArrivals map.now (sends jobs.now) counts.old counts.new }
{
    let mut ask = Ask::blank();
    for number in 0..jobs.len() {
        if jobs.fill(number, &mut ask) {
            counts[map.route(&ask)] += 1;
        }
    }
}

/// How many requests of a system go to each port.
pub fn journals_of(alloc: Global, system: &System) -> Result<Vec<usize>, Memory>
    ensures counted { IfOk result (λ journals. AreJournals system.now journals.items) }
    ensures few { IfOk result (λ journals. All (λ n. n ≤ MAX_MASTERS * MAX_JOBS) journals.items) }
{
    let map = system.map();
    let Ok(mut counts) = Vec::from_elem(alloc, 0usize, map.ports()) else {
        return Err(Memory);
    };
    for jobs in system.jobs() {
        count_sends(map, jobs, &mut counts);
    }
    Ok(counts)
}

/// The book of a new port's seat, with this bank, and room for as many entries as the journal says.
fn book_of(
    alloc: Global,
    arena: &Arena,
    number: usize,
    seat: PortSeat,
    bank: Bank,
    journal: usize,
) -> Result<Book, Memory>
    requires seat { seat ≡ new_port arena.now number }
    requires bank { bank ≡ reset_of arena.now.about number }
    ensures { IfOk result (λ book. book
        ≡ new_book (new_port arena.now number) (reset_of arena.now.about number) journal) }
{
    let Ok(book) = Book::new(alloc, bank, seat, arena.slots(), journal) else {
        return Err(Memory);
    };
    Ok(book)
}

/// The books of new ports, with these banks, which are their resets.
pub fn books_of(
    alloc: Global,
    arena: &Arena,
    seats: Vec<PortSeat>,
    banks: Vec<Bank>,
    system: &System,
    journals: &[usize],
) -> Result<Vec<Book>, Memory>
    requires seats { AreNewPorts arena.now (vec_len banks) seats.items }
    requires banks { banks.items ≡ arena.now.about.resets }
    requires ports { vec_len banks ≡ length journals.now }
    requires journals { AreJournals system.now journals.now }
    ensures many { IfOk result (λ books. vec_len books ≡ vec_len seats) }
    ensures books { IfOk result (λ books. AreFrom (IsNewBook arena.now system.now) 0 books.items) }
{
    let Ok(mut books) = Vec::with_capacity(alloc, seats.len()) else {
        return Err(Memory);
    };
    let mut banks = banks.into_iter();
    for seat in seats {
        let Some(bank) = banks.next() else {
            unreachable!()
        };
        let number = books.len();
        let Ok(book) = book_of(alloc, arena, number, seat, bank, journals[number]) else {
            return Err(Memory);
        };
        books.push_reserved(book);
    }
    Ok(books)
}

/// Another end of each of these bells.
fn ringers_of(alloc: Global, bells: &mut [Ringer]) -> Result<Vec<Ringer>, Memory>
    ensures { IfOk result (λ ringers. vec_len ringers ≡ length bells.old) }
{
    let Ok(mut ringers) = Vec::with_capacity(alloc, bells.len()) else {
        return Err(Memory);
    };
    for bell in bells {
        let Ok(ringer) = bell.again() else {
            return Err(Memory);
        };
        let Ok(()) = ringers.push(ringer) else {
            return Err(Memory);
        };
    }
    Ok(ringers)
}

/// What a new master's thread is handed, and another end of its bell for those who ring it. The bell has room for a
/// ring for each reply.
fn master_thread_of(
    alloc: Global,
    arena: &Arena,
    number: usize,
    seat: MasterSeat,
    system: &System,
    port_bells: &mut [Ringer],
) -> Result<(MasterThread, Ringer), Memory>
    requires seat { seat ≡ new_master arena.now number }
    requires sources { arena.now.about.owners ≡ system.now.owners }
    requires jobs { number < length system.now.jobs }
    requires ports { length port_bells.old ≡ length system.now.ranges + 1 }
    ensures { IfOk result (λ made. IsNewMasterThread arena.now system.now number made.0) }
{
    let limit = system.jobs()[number].requests();
    let Ok((ringer, listeners)) = Ringer::new(alloc, limit, 1) else {
        return Err(Memory);
    };
    let Some(own) = listeners.into_iter().next() else {
        unreachable!()
    };
    let Ok(master) = master_of(alloc, arena, number, seat, system, limit) else {
        return Err(Memory);
    };
    let Ok(others) = ringers_of(alloc, port_bells) else {
        return Err(Memory);
    };
    let thread = MasterThread {
        master,
        bells: Bells { own, others },
    };
    Ok((thread, ringer))
}

/// A new master with room for so many entries.
#[tactic(auto, using(crate::proofs::Asking::new_owned))]
fn master_of(
    alloc: Global,
    arena: &Arena,
    number: usize,
    seat: MasterSeat,
    system: &System,
    limit: usize,
) -> Result<Master, Memory>
    requires seat { seat ≡ new_master arena.now number }
    requires sources { arena.now.about.owners ≡ system.now.owners }
    ensures idle { IfOk result (λ master. IsIdle arena.now number master) }
    ensures room { IfOk result (λ master. master.limit ≡ limit) }
{
    let Ok(master) = Master::new(alloc, seat, system.sources(), limit) else {
        return Err(Memory);
    };
    Ok(master)
}

/// What the thread of each new master is handed, and an end of each master's bell.
fn master_threads_of(
    alloc: Global,
    arena: &Arena,
    seats: Vec<MasterSeat>,
    system: &System,
    port_bells: &mut [Ringer],
) -> Result<(Vec<MasterThread>, Vec<Ringer>), Memory>
    requires seats { AreNewMasters arena.now (length system.now.jobs) seats.items }
    requires sources { arena.now.about.owners ≡ system.now.owners }
    requires ports { length port_bells.old ≡ length system.now.ranges + 1 }
    ensures many { IfOk result (λ made. vec_len made.0 ≡ length system.now.jobs) }
    ensures threads { IfOk result (λ made. AreFrom (IsNewMasterThread arena.now system.now)
        0 made.0.items) }
    ensures bells { IfOk result (λ made. vec_len made.1 ≡ length system.now.jobs) }
{
    let Ok(mut threads) = Vec::with_capacity(alloc, seats.len()) else {
        return Err(Memory);
    };
    let Ok(mut bells) = Vec::with_capacity(alloc, seats.len()) else {
        return Err(Memory);
    };
    for seat in seats {
        let number = threads.len();
        let Ok((thread, ringer)) = master_thread_of(alloc, arena, number, seat, system, port_bells)
        else {
            return Err(Memory);
        };
        threads.push_reserved(thread);
        let Ok(()) = bells.push(ringer) else {
            return Err(Memory);
        };
    }
    Ok((threads, bells))
}

/// Those who hear the bell of a port: an end for each of its threads.
#[derive(Drop)]
pub(crate) struct PortListeners {
    pub(crate) port: usize,
    pub(crate) listeners: Vec<Listener>,
}

/// A bell for each port, with room for a ring for each of its requests and a stop for each of its threads, and the ends
/// that those hear it by.
fn port_bells_of(
    alloc: Global,
    journals: &[usize],
    workers: usize,
) -> Result<(Vec<Ringer>, Vec<PortListeners>), Memory>
    requires few { All (λ n. n ≤ MAX_MASTERS * MAX_JOBS) journals.now }
    requires workers { workers ≤ MAX_WORKERS }
    ensures bells { IfOk result (λ made. vec_len made.0 ≡ length journals.now) }
    ensures heard { IfOk result (λ made. All (IsHeardAt journals.now workers) made.1.items) }
{
    let Ok(mut bells) = Vec::with_capacity(alloc, journals.len()) else {
        return Err(Memory);
    };
    let Ok(mut heard) = Vec::with_capacity(alloc, journals.len()) else {
        return Err(Memory);
    };
    for (port, journal) in journals.iter().enumerate() {
        let Ok((ringer, listeners)) = Ringer::new(alloc, *journal + workers, workers) else {
            return Err(Memory);
        };
        let Ok(()) = bells.push(ringer) else {
            return Err(Memory);
        };
        let Ok(()) = heard.push(PortListeners { port, listeners }) else {
            return Err(Memory);
        };
    }
    Ok((bells, heard))
}

/// Appends what each thread of a port is handed.
fn push_workers(
    alloc: Global,
    threads: &mut Vec<WorkerThread>,
    heard: PortListeners,
    master_bells: &mut [Ringer],
) -> Result<(), Memory>
    ensures { OnOk result ((ports : ℕ) → heard.port < ports
        → All (IsNewWorkerThread ports (length master_bells.old)) threads.old.items
        → All (IsNewWorkerThread ports (length master_bells.old)) threads.new.items) }
{
    let PortListeners { port, listeners } = heard;
    for own in listeners {
        let Ok(others) = ringers_of(alloc, master_bells) else {
            return Err(Memory);
        };
        let bells = Bells { own, others };
        let Ok(()) = threads.push(WorkerThread { port, bells }) else {
            return Err(Memory);
        };
    }
    Ok(())
}

/// What each thread of each port is handed.
fn worker_threads_of(
    alloc: Global,
    heard: Vec<PortListeners>,
    journals: &[usize],
    workers: usize,
    master_bells: &mut [Ringer],
) -> Result<Vec<WorkerThread>, Memory>
    requires { All (IsHeardAt journals.now workers) heard.items }
    ensures { IfOk result (λ threads. All
        (IsNewWorkerThread (length journals.now) (length master_bells.old)) threads.items) }
{
    let many = usize::saturating_mul(journals.len(), workers);
    let Ok(mut threads) = Vec::with_capacity(alloc, many) else {
        return Err(Memory);
    };
    for listeners in heard {
        let Ok(()) = push_workers(alloc, &mut threads, listeners, master_bells) else {
            return Err(Memory);
        };
    }
    Ok(threads)
}

/// What the threads of a run are handed, where a port has so many of them.
pub fn threads_of(
    alloc: Global,
    arena: &Arena,
    seats: Vec<MasterSeat>,
    system: &System,
    journals: &[usize],
    workers: usize,
) -> Result<ThreadSet, Memory>
    requires seats { AreNewMasters arena.now (length system.now.jobs) seats.items }
    requires sources { arena.now.about.owners ≡ system.now.owners }
    requires ports { length journals.now ≡ length system.now.ranges + 1 }
    requires few { All (λ n. n ≤ MAX_MASTERS * MAX_JOBS) journals.now }
    requires workers { workers ≤ MAX_WORKERS }
    ensures { IfOk result (IsNewThreadSet arena.now system.now) }
{
    let Ok((mut port_bells, heard)) = port_bells_of(alloc, journals, workers) else {
        return Err(Memory);
    };
    let Ok((masters, mut master_bells)) = master_threads_of(
        alloc,
        arena,
        seats,
        system,
        &mut port_bells,
    ) else {
        return Err(Memory);
    };
    let Ok(threads) = worker_threads_of(alloc, heard, journals, workers, &mut master_bells) else {
        return Err(Memory);
    };
    Ok(ThreadSet {
        masters,
        workers: threads,
        port_bells,
        workers_per_port: workers,
    })
}
