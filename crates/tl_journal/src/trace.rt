//! The entries of a trace, kept compactly.
ghost use Rattle.std.specs.Prelude.{◌≡◌, ◌<◌, ◌≤◌, ◌==◌, ◌++◌, ◌∷◌, [], length, slice_get, IfOk, IsSomeAnd, Some, false};
ghost use Rattle.tl_types.specs.declared.operation.AskOp.TheVariants.{Get};
ghost use Rattle.tl_types.specs.declared.operation.ReplyOp.TheVariants.{AccessAck};
ghost use Rattle.tl_journal.specs.Trace.{served_entry, place_of};

use crate::journal::Journal;
use std::alloc::{AllocError, Global};
use std::marker::Model;
use tl_types::{Ask, Entry, Reply};

/// Where a request was served.
#[derive(Debug, Clone, Copy, PartialEq, Eq)]
pub struct Place {
    /// The port that served it.
    pub port: usize,
    /// Its place in that port's history.
    pub index: usize,
}

/// What one master sent and was answered, in the order collected, each with the place where it was served.
#[derive(Drop)]
pub struct Trace {
    journal: Journal,
    places: Vec<Place>,
}

impl Model for Trace {
    ghost use Rattle.std.specs.Prelude.{vec_capacity};
    ghost use Rattle.tl_journal.specs.Trace.{IsKeptTrace, TraceView, entries_of};

    ghost Value = { TraceView };

    ghost view = { λ t. record { items = entries_of t.journal.items t.places.items; room = t.journal.room } };

    ghost invariant = { λ t. IsKeptTrace t.journal t.places.items (vec_capacity t.places) };
}

impl Trace {
    /// An empty trace with room for so many entries, whatever they carry.
    pub fn with_room(alloc: Global, entries: usize) -> Result<Trace, AllocError>
        ensures { IfOk result (λ trace. trace ≡ record { items = []; room = entries }) }
    {
        let journal = Journal::with_room(alloc, entries)?;
        let places = Vec::with_capacity(alloc, entries)?;
        Ok(Trace { journal, places })
    }

    /// How many entries there are: no more than there is room for.
    pub fn len(&self) -> usize
        ensures value { result ≡ length self.now.items }
        ensures room { result ≤ self.now.room }
    {
        self.journal.len()
    }

    /// Whether there is no entry.
    pub fn is_empty(&self) -> bool
        ensures { result ≡ (length self.now.items == 0) }
    {
        self.len() == 0
    }

    /// Appends the entry of a request and its reply, each with this source, if there is room for one more.
    pub fn push_reserved(&mut self, source: u16, ask: &Ask, reply: &Reply, place: Place)
        requires { length self.old.items < self.old.room }
        ensures items { self.new.items ≡ self.old.items
            ++ served_entry (record ask.now { source = source }) (record reply.now { source = source }) place ∷ [] }
        ensures room { self.new.room ≡ self.old.room }
    {
        self.journal.push_reserved(source, ask, reply);
        self.places.push_reserved(place);
    }

    /// Where the entry at a place was served.
    pub fn served_at(&self, place: usize) -> Place
        requires { place < length self.now.items }
        ensures { IsSomeAnd (slice_get self.now.items place) (λ entry. result ≡ place_of entry) }
    {
        self.places[place]
    }

    /// The entry at a place.
    pub fn get(&self, place: usize) -> Entry
        requires { place < length self.now.items }
        ensures { slice_get self.now.items place ≡ Some result }
    {
        let mut entry = blank_entry();
        self.read(place, &mut entry);
        entry
    }

    /// Puts the entry at a place in the place of another: no more bytes are moved than it has.
    pub fn read(&self, place: usize, entry: &mut Entry)
        requires { place < length self.now.items }
        ensures { slice_get self.now.items place ≡ Some entry.new }
    {
        self.journal.read(place, &mut entry.ask, &mut entry.reply);
        let Place { port, index } = self.places[place];
        entry.port = port;
        entry.index = index;
    }
}

/// An entry of a get of one byte at address 0 from source 0 and of its acknowledgement, as if it were the first that
/// port 0 served: room for entries that are read one after the other.
pub fn blank_entry() -> Entry
    ensures { result ≡ record {
      ask = record { op = Get; size = 0; source = 0; address = 0; bytes = [] };
      reply = record { op = AccessAck; size = 0; source = 0; denied = false; bytes = [] };
      port = 0;
      index = 0;
    } }
{
    Entry {
        ask: Ask::blank(),
        reply: Reply::blank(),
        port: 0,
        index: 0,
    }
}
