//! A book behind a lock.
ghost use Rattle.std.specs.Prelude.{◌≡◌, ◌+◌, ◌≤◌, ◌↔◌, length};
ghost use Rattle.tl_port.specs.declared.book.Intake.TheVariants.{JournalFull};
ghost use Rattle.tl_port.specs.Book.{IsLawfulBook};
ghost use Rattle.tl_port.specs.Steps.{Takes, Serves, TakesAndServes, IsStepAnswer};

use crate::book::{Book, Intake, Step};
use std::marker::PhantomData;
use std::sync::{Mutex, Wait};
use tl_arena::{Arena, ArenaName};

/// A book of the arena that N names. Its calls are the book's, to the letter: behind the lock no clause speaks of them,
/// so they are pinned here.
#[derive(Drop)]
struct Named<N: ArenaName> {
    book: Book,
    of: PhantomData<N>,
    ghost named: { book.seat.arena ≡ N.arena },
}

impl<N: ArenaName> Named<N> {
    fn intake(&mut self, arena: &Arena) -> Intake
        requires arena { arena.now ≡ N.arena }
        ensures takes { Takes self.old.book result self.new.book }
        ensures full { (result ≡ JournalFull)
            ↔ (length self.old.book.history + length self.old.book.flights
            ≡ self.old.book.journal) }
    {
        self.book.intake(arena)
    }

    fn serve(&mut self, arena: &Arena) -> Option<usize>
        requires arena { arena.now ≡ N.arena }
        ensures { Serves self.old.book result self.new.book }
    {
        self.book.serve(arena)
    }

    fn step(&mut self, arena: &Arena) -> Step
        requires arena { arena.now ≡ N.arena }
        ensures { TakesAndServes self.old.book result self.new.book }
    {
        self.book.step(arena)
    }
}

/// A slave port of the arena that N names. Whenever its lock is free its book is lawful and of that arena.
///
/// The calls that take `rt` wait for the lock, and do what the book's calls of the same name do. Once they have given
/// the lock back nothing is said of what they did: only what the lock keeps is known, and of the answer of a step that
/// it agrees with itself.
#[derive(Drop)]
pub struct Port<N: ArenaName> {
    lock: Mutex<Named<N>>,
}

impl<N: ArenaName> Port<N> {
    /// Puts a book behind a lock.
    pub fn new(book: Book) -> Port<N>
        requires { book.seat.arena ≡ N.arena }
    {
        Port {
            lock: Mutex::new(Named {
                book,
                of: PhantomData,
            }),
        }
    }

    /// Takes one request that is posted to the port.
    pub fn intake(&self, rt: &impl Wait, arena: &Arena) -> Intake
        requires { arena.now ≡ N.arena }
    {
        self.lock.lock(rt).intake(arena)
    }

    /// Serves the oldest request in flight. The answer is its place in the history.
    pub fn serve(&self, rt: &impl Wait, arena: &Arena) -> Option<usize>
        requires { arena.now ≡ N.arena }
    {
        self.lock.lock(rt).serve(arena)
    }

    /// An intake and then a service, under one lock. The answer names the source of a request just if one was
    /// served, and if one was taken one was served.
    pub fn step(&self, rt: &impl Wait, arena: &Arena) -> Step
        requires { arena.now ≡ N.arena }
        ensures { IsStepAnswer result }
    {
        self.lock.lock(rt).step(arena)
    }

    /// How many requests are in flight: no more than the arena has slots.
    pub fn in_flight_len(&self, rt: &impl Wait) -> usize
        ensures { result ≤ N.arena.about.slots }
    {
        self.lock.lock(rt).book.in_flight_len()
    }

    /// The book, without its lock.
    pub fn into_book(self) -> Book
        ensures named { result.seat.arena ≡ N.arena }
        ensures lawful { IsLawfulBook result }
    {
        let Port { lock } = self;
        let Named { book, of: _ } = lock.into_inner();
        let _number = book.number();
        book
    }
}
