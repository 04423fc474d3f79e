//! A port's book (`tl_port`).
ghost use Rattle.std.specs.Prelude.{◌≡◌, []};
ghost use Rattle.tl_rule.specs.Views.{reset_of};

use std::alloc::Global;
use std::process::Abort;
use tl_arena::{Arena, PortSeat};
use tl_ops::Bank;
use tl_port::{Book, Flight, Intake};

/// A book that knows its arena.
#[derive(Drop)]
pub(in crate::tests) struct Keeper<'a> {
    pub(in crate::tests) arena: &'a Arena,
    pub(in crate::tests) book: Book,
    ghost here: { book.seat.arena ≡ arena.now },
}

/// A call of a book, with its answer.
pub(in crate::tests) enum BookCall {
    Take(Intake),
    /// Something is taken and served.
    TakeAndServe,
    /// The place in the history of what is served.
    Serve(Option<usize>),
    /// What is in flight at a place.
    InFlight(usize, Option<Flight>),
    /// How many requests are in flight.
    InFlightLen(usize),
    /// How many requests were served.
    History(usize),
    /// The source of the request that was served first, and the bytes of its reply.
    First(u16, &'static [u8]),
    Number(usize),
    Byte(u64, u8),
}

/// A book with nothing served, with room for so many entries.
pub(in crate::tests) fn new_keeper<'a>(
    rt: &impl Abort,
    alloc: Global,
    arena: &'a Arena,
    seat: PortSeat,
    bank: Bank,
    room: usize,
) -> Keeper<'a>
    requires arena { seat.arena ≡ arena.now }
    requires reset { bank ≡ reset_of seat.arena.about seat.number }
    requires served { seat.list ≡ [] }
    requires idle { seat.serving ≡ [] }
{
    let Ok(book) = Book::new(alloc, bank, seat, arena.slots(), room) else {
        panic!(rt; "memory");
    };
    Keeper { arena, book }
}

impl<'a> Keeper<'a> {
    fn intake(&mut self) -> Intake {
        self.book.intake(self.arena)
    }

    fn serve(&mut self) -> Option<usize> {
        self.book.serve(self.arena)
    }

    /// Whether something is taken, and then something is served.
    pub(in crate::tests) fn takes_and_serves(&mut self) -> bool {
        matches!(self.intake(), Intake::Taken(_)) && self.serve().is_some()
    }

    /// Whether the request that was served first has this source, and its reply these bytes.
    fn served_first(&self, source: u16, bytes: &[u8]) -> bool {
        match self.book.entry(0) {
            Some((ask, reply)) => {
                ask.source() == source && reply.source() == source && reply.bytes() == bytes
            }
            None => false,
        }
    }

    /// Makes a call. Its answer is the right one.
    pub(in crate::tests) fn play(&mut self, call: &BookCall) -> bool {
        match call {
            BookCall::Take(found) => self.intake() == *found,
            BookCall::TakeAndServe => self.takes_and_serves(),
            BookCall::Serve(place) => self.serve() == *place,
            BookCall::InFlight(place, flight) => self.book.in_flight(*place) == *flight,
            BookCall::InFlightLen(count) => self.book.in_flight_len() == *count,
            BookCall::History(count) => self.book.history_len() == *count,
            BookCall::First(source, bytes) => self.served_first(*source, bytes),
            BookCall::Number(number) => self.book.number() == *number,
            BookCall::Byte(address, byte) => self.book.byte(*address) == Some(*byte),
        }
    }
}
