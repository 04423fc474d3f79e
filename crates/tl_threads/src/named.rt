//! A run over one arena, which the ports' locks name.
ghost use Rattle.std.specs.Prelude.{◌≡◌, ◌+◌, ◌*◌, ◌<◌, ◌≤◌, All, Contains, IfOk, IfNone, IfSome, vec_len, vec_capacity, length};
ghost use Rattle.tl_types.specs.declared.limits.TheConstants.{MAX_MASTERS, MAX_WORKERS};
ghost use Rattle.tl_arena.specs.Account.{IsClosing};
ghost use Rattle.tl_arena.specs.Views.{AreNewMasters};
ghost use Rattle.tl_script.specs.declared.system.TheConstants.{MAX_JOBS};
ghost use Rattle.tl_threads.specs.Left.{HaveLeft, IsBookOf};
ghost use Rattle.tl_workers.specs.Start.{AreFrom, AreTracesOf, IsBookIn, IsNewBook};

use std::alloc::Global;
use std::sync::Wait;
use std::thread::Threads;
use tl_arena::{Account, Arena, ArenaName, MasterSeat};
use tl_journal::Trace;
use tl_port::{Book, Port};
use tl_script::System;
use tl_types::Memory;
use tl_workers::{Ended, Gate, Shared, ThreadFault, run_all, threads_of};

/// What the threads of a run leave: a trace for each master, the book of each port, and the account of the arena.
#[derive(Drop)]
pub struct ThreadedRun {
    pub traces: Vec<Trace>,
    pub books: Vec<Book>,
    pub account: Account,
}

/// Puts each book behind a lock.
fn ports_of<N: ArenaName>(alloc: Global, books: Vec<Book>) -> Result<Vec<Port<N>>, Memory>
    requires { AreFrom (IsBookIn N.arena) 0 books.items }
    ensures { IfOk result (λ ports. vec_len ports ≡ vec_len books) }
{
    let Ok(mut ports) = Vec::with_capacity(alloc, books.len()) else {
        return Err(Memory);
    };
    for book in books {
        ports.push_reserved(Port::<N>::new(book));
    }
    Ok(ports)
}

/// The books from behind the locks, each at its number.
fn books_of<N: ArenaName>(ports: Vec<Port<N>>, room: Vec<Book>) -> Result<Vec<Book>, ThreadFault>
    requires none { vec_len room ≡ 0 }
    requires room { vec_len ports ≤ vec_capacity room }
    ensures many { IfOk result (λ books. vec_len books ≡ vec_len ports) }
    ensures books { IfOk result (λ books. AreFrom (IsBookOf N.arena) 0 books.items) }
{
    let mut books = room;
    for port in ports {
        let book = port.into_book();
        let number = books.len();
        if book.number() != number {
            return Err(ThreadFault::StrayBook(number));
        }
        books.push_reserved(book);
    }
    Ok(books)
}

/// The first master of a system that by the account has not left.
fn first_not_left(system: &System, account: &Account) -> Option<usize>
    ensures some { IfSome result (λ m. (m < length system.now.owners)
        × (Contains account.now.left.items m → ⊥)) }
    ensures none { IfNone result (HaveLeft (length system.now.owners) account.now.left.items) }
{
    for master in 0..system.sources().masters() {
        if !account.left.contains(&master) {
            return Some(master);
        }
    }
    None
}

/// A run over the arena that N names, where a port has so many threads. What the threads are handed is made here, right
/// before they start, so no other exit has to drop it.
pub fn run_named<N: ArenaName + Send + Sync, R: Threads + Wait + Sync, G: Gate + Sync>(
    rt: &R,
    alloc: Global,
    arena: Arena,
    system: &System,
    books: Vec<Book>,
    masters: Vec<MasterSeat>,
    journals: &[usize],
    workers: usize,
    gate: &G,
) -> Result<ThreadedRun, ThreadFault>
    requires name { arena ≡ N.arena }
    requires ports { length system.now.ranges + 1 ≤ arena.about.ports }
    requires masters { AreNewMasters arena (length system.now.jobs) masters.items }
    requires sources { arena.about.owners ≡ system.now.owners }
    requires journals { length journals.now ≡ length system.now.ranges + 1 }
    requires few { All (λ n. n ≤ MAX_MASTERS * MAX_JOBS) journals.now }
    requires workers { workers ≤ MAX_WORKERS }
    requires books { AreFrom (IsNewBook arena system.now) 0 books.items }
    requires all_books { vec_len books ≡ length system.now.ranges + 1 }
    requires counts { length system.now.jobs ≡ length system.now.owners }
    ensures traces { IfOk result (λ run. AreTracesOf arena system.now run.traces.items) }
    ensures all { IfOk result (λ run. vec_len run.books ≡ vec_len books) }
    ensures books { IfOk result (λ run. AreFrom (IsBookOf arena) 0 run.books.items) }
    ensures account { IfOk result (λ run. IsClosing arena.about run.account.free.items
        run.account.held.items run.account.left.items) }
    ensures left { IfOk result (λ run. HaveLeft (length system.now.owners) run.account.left.items) }
{
    let Ok(room) = Vec::with_capacity(alloc, books.len()) else {
        return Err(ThreadFault::Memory);
    };
    let Ok(ports) = ports_of::<N>(alloc, books) else {
        return Err(ThreadFault::Memory);
    };
    let Ok(threads) = threads_of(alloc, &arena, masters, system, journals, workers) else {
        return Err(ThreadFault::Memory);
    };
    let shared = Shared {
        system,
        arena: &arena,
        ports: &ports,
        gate,
    };
    let Ended { traces, held } = run_all(rt, alloc, &shared, threads)?;
    let Ok(account) = arena.close(alloc) else {
        return Err(ThreadFault::Memory);
    };
    if let Some(master) = first_not_left(system, &account) {
        return Err(ThreadFault::NotLeft(master));
    }
    let books = books_of::<N>(ports, room)?;
    if let Some(port) = held {
        return Err(ThreadFault::GateHeld(port));
    }
    Ok(ThreadedRun {
        traces,
        books,
        account,
    })
}
