//! What a port has served, and what it is serving.
ghost use Rattle.std.specs.Prelude.{◌≡◌, ◌+◌, ◌-◌, ◌<◌, ◌≤◌, ◌↔◌, ◌++◌, ◌∷◌, [], length, IsTrue, IfOk, IfErr, IfSome, IfNone, slice_get, option_map};
ghost use Rattle.std.specs.Prelude as std;
ghost use Rattle.std.specs.VecDeque.{deque_capacity};
ghost use Rattle.tl_ops.specs.Store.{after, reply};
ghost use Rattle.tl_rule.specs.Serving.{ask_at};
ghost use Rattle.tl_rule.specs.Views.{reset_of};
ghost use Rattle.tl_arena.specs.Views.{with_accepted, with_answered};
ghost use Rattle.tl_arena.specs.Promises.{IsLawfulPort, memory_of};
ghost use Rattle.tl_port.specs.declared.book.Intake.TheVariants.{JournalFull};
ghost use Rattle.tl_port.specs.Book.{IsLawfulBook, new_book};
ghost use Rattle.tl_port.specs.Steps.{AcceptsOne, Takes, Serves, TakesAndServes};

use std::alloc::Global;
use std::collections::VecDeque;
use std::marker::Model;
use tl_arena::{Accepted, Arena, PortSeat};
use tl_journal::Journal;
use tl_ops::Bank;
use tl_types::{Ask, Reply};

/// What an intake found.
#[derive(Debug, Clone, Copy, PartialEq, Eq)]
pub enum Intake {
    /// A request of this wide source is in flight now.
    Taken(u16),
    /// No slot was found with a request for the port.
    Nothing,
    /// There is no room for the entry of one more request.
    JournalFull,
}

/// A request in flight: its wide source, and the slot that it owns.
#[derive(Debug, Clone, Copy, PartialEq, Eq)]
pub struct Flight {
    pub source: u16,
    pub slot: usize,
}

/// What one step did: its intake, and the place in the history and the wide source of the request that it served.
#[derive(Debug, Clone, Copy, PartialEq, Eq)]
pub struct Step {
    pub intake: Intake,
    pub index: Option<usize>,
    pub source: Option<u16>,
}

/// There was no memory for a book: its bank and its seat.
#[derive(Drop)]
pub struct NoBook {
    pub bank: Bank,
    pub seat: PortSeat,
}

/// One port's memory, all that it has served, and what it is serving.
#[derive(Drop)]
pub struct Book {
    bank: Bank,
    seat: PortSeat,
    journal: usize,
    history: Journal,
    flights: VecDeque<Accepted>,
    /// The last request that was served and its reply: room for the next ones, which contracts don't see.
    ask: Ask,
    reply: Reply,
}

impl Model for Book {
    ghost use Rattle.std.specs.Prelude.{◌≡◌, ◌≤◌, length};
    ghost use Rattle.std.specs.VecDeque.{deque_capacity};
    ghost use Rattle.tl_port.specs.Book.{BookView};
    ghost use Rattle.tl_port.specs.Kept.{IsKeptBook};

    ghost Value = { BookView };

    ghost view = { λ b. record { seat = b.seat; store = b.bank; history = b.history.items; flights = b.flights.items; journal = b.journal } };

    ghost invariant = { λ b. IsKeptBook (record { seat = b.seat; store = b.bank; history = b.history.items; flights = b.flights.items; journal = b.journal }) b.history.room (deque_capacity b.flights) };
}

impl Book {
    /// A book with nothing served, with room for `journal` entries and for `slots` requests in flight. Where memory is
    /// refused, bank and seat come back.
    pub fn new(
        alloc: Global,
        bank: Bank,
        seat: PortSeat,
        slots: usize,
        journal: usize,
    ) -> Result<Book, NoBook>
        requires reset { bank ≡ reset_of seat.arena.about seat.number }
        requires served { seat.list ≡ [] }
        requires serving { seat.serving ≡ [] }
        requires slots { slots ≡ seat.arena.about.slots }
        ensures ok { IfOk result (λ book. book ≡ new_book seat bank journal) }
        ensures err { IfErr result (λ e. (e.bank ≡ bank) × (e.seat ≡ seat)) }
    {
        let Ok(history) = Journal::with_room(alloc, journal) else {
            return Err(NoBook { bank, seat });
        };
        let Ok(flights) = VecDeque::with_capacity(alloc, slots) else {
            return Err(NoBook { bank, seat });
        };
        Ok(Book {
            bank,
            seat,
            journal,
            history,
            flights,
            ask: Ask::blank(),
            reply: Reply::blank(),
        })
    }

    /// Takes one request that is posted to this port, by one pass over the slots. If the journal is full it looks at
    /// none.
    pub fn intake(&mut self, arena: &Arena) -> Intake
        requires arena { self.old.seat.arena ≡ arena.now }
        ensures takes { Takes self.old result self.new }
        ensures full { (result ≡ JournalFull)
            ↔ (length self.old.history + length self.old.flights ≡ self.old.journal) }
    {
        if self.history.len() + self.flights.len() == self.journal {
            return Intake::JournalFull;
        }
        let Some(source) = take_posted(arena, &mut self.seat, &mut self.flights) else {
            return Intake::Nothing;
        };
        Intake::Taken(source)
    }

    /// Serves the oldest request in flight and answers its slot. The answer is its place in the history; None where
    /// nothing is in flight.
    pub fn serve(&mut self, arena: &Arena) -> Option<usize>
        requires arena { self.old.seat.arena ≡ arena.now }
        ensures { Serves self.old result self.new }
    {
        let Some(accepted) = self.flights.pop_front() else {
            return None;
        };
        let place = self.history.len();
        answer_by(
            arena,
            &mut self.seat,
            &mut self.bank,
            &mut self.history,
            &mut self.ask,
            &mut self.reply,
            accepted,
        );
        Some(place)
    }

    /// An intake, and then a service.
    pub(crate) fn step(&mut self, arena: &Arena) -> Step
        requires arena { self.old.seat.arena ≡ arena.now }
        ensures { TakesAndServes self.old result self.new }
    {
        let intake = self.intake(arena);
        let source = self.in_flight(0).map(|flight| flight.source);
        let index = self.serve(arena);
        Step {
            intake,
            index,
            source,
        }
    }

    /// How many requests are in flight: no more than there are slots.
    pub fn in_flight_len(&self) -> usize
        ensures value { result ≡ length self.now.flights }
        ensures few { result ≤ self.now.seat.arena.about.slots }
        ensures lawful { IsLawfulBook self.now }
    {
        // the port's seat serves no slot twice, and what is in flight is what it serves
        let _number = self.seat.number();
        self.flights.len()
    }

    /// The request in flight at a place, the oldest first.
    pub fn in_flight(&self, place: usize) -> Option<Flight>
        ensures value { result
            ≡ option_map (λ f. record { source = f.1.source; slot = f.0 })
            (slice_get self.now.flights place) }
        ensures lawful { IsLawfulBook self.now }
    {
        let accepted = self.flights.get(place)?;
        Some(Flight {
            source: accepted.source(),
            slot: accepted.slot(),
        })
    }

    /// How many requests were served.
    pub fn history_len(&self) -> usize
        ensures value { result ≡ length self.now.history }
        ensures lawful { IsLawfulBook self.now }
    {
        self.history.len()
    }

    /// All that was served, in order: requests with wide sources, and their replies.
    pub fn history(&self) -> &Journal
        ensures value { result.now.items ≡ self.now.history }
        ensures lawful { IsLawfulBook self.now }
    {
        &self.history
    }

    /// The request that was served at a place, with its wide source, and its reply.
    pub fn entry(&self, place: usize) -> Option<(Ask, Reply)>
        ensures some { IfSome result
            (λ e. slice_get self.now.history place ≡ std.Some e) }
        ensures none { IfNone result (length self.now.history ≤ place) }
        ensures lawful { IsLawfulBook self.now }
    {
        if place >= self.history.len() {
            return None;
        }
        Some(self.history.get(place))
    }

    /// The port's number.
    pub fn number(&self) -> usize
        ensures value { result ≡ self.now.seat.number }
        ensures known { result < self.now.seat.arena.about.ports }
        ensures lawful { IsLawfulBook self.now }
    {
        self.seat.number()
    }

    /// The byte of the port's memory at an address, if there is one.
    pub fn byte(&self, address: u64) -> Option<u8>
        ensures inside { self.now.store.base ≤ address
            → result ≡ slice_get self.now.store.bytes (address - self.now.store.base) }
        ensures below { address < self.now.store.base → result ≡ std.None }
        ensures lawful { IsLawfulBook self.now }
    {
        self.bank.byte(address)
    }
}

/// Accepts a request that is posted to the port, puts it at the end of what is in flight, and answers its wide source.
fn take_posted(arena: &Arena, seat: &mut PortSeat, flights: &mut VecDeque<Accepted>) -> Option<u16>
    requires arena { seat.old.arena ≡ arena.now }
    requires serving { flights.old.items ≡ seat.old.serving }
    requires room { seat.old.arena.about.slots ≤ deque_capacity flights.old }
    ensures some { IfSome result
        (λ source. AcceptsOne seat.old flights.old.items source seat.new flights.new.items) }
    ensures none { IfNone result ((seat.new ≡ seat.old) × (flights.new.items ≡ flights.old.items)) }
    ensures law { IsLawfulPort seat.new }
    ensures capacity { deque_capacity flights.new ≡ deque_capacity flights.old }
{
    let accepted = arena.accept(seat)?;
    let source = accepted.source();
    flights.push_back_reserved(accepted);
    Some(source)
}

/// Answers a request by the bank, and puts it with its reply at the end of the history. Both are read and written in
/// the place of others.
fn answer_by(
    arena: &Arena,
    seat: &mut PortSeat,
    bank: &mut Bank,
    history: &mut Journal,
    ask: &mut Ask,
    answer: &mut Reply,
    accepted: Accepted,
)
    requires arena { seat.old.arena ≡ arena.now }
    requires accepted { ask_at seat.old.serving accepted.0 ≡ std.Some accepted.1 }
    requires list { length seat.old.list < usize.MAX }
    requires memory { bank.old ≡ memory_of seat.old }
    requires room { length history.old.items < history.old.room }
    ensures seat { seat.new ≡ with_answered seat.old accepted (reply bank.old accepted.1) }
    ensures law { IsLawfulPort seat.new }
    ensures bank { bank.new ≡ after bank.old accepted.1 }
    ensures history { history.new.items
        ≡ history.old.items ++ (accepted.1, reply bank.old accepted.1) ∷ [] }
    ensures capacity { history.new.room ≡ history.old.room }
{
    accepted.read_ask(ask);
    bank.serve_into(ask, answer);
    history.push_reserved(ask.source(), ask, answer);
    arena.answer(seat, accepted, answer);
}
