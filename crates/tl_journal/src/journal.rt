//! Requests and their replies, kept compactly.
ghost use Rattle.std.specs.Prelude.{◌≡◌, ◌+◌, ◌<◌, ◌≤◌, ◌==◌, ◌++◌, ◌∷◌, [], length, max, slice_get, IfOk, IsOk, OnErr, OnOk, Some};
ghost use Rattle.tl_journal.specs.Headers.{IsEntryIn, ask_in, reply_in};

use crate::pools::Pools;
use std::alloc::{AllocError, Global};
use std::marker::Model;
use std::mem::size_of;
use tl_types::{Ask, AskOp, MAX_BYTES, Reply, ReplyOp};

/// The most bytes of an entry that are all given: the request's and the reply's.
const MAX_WHOLE: usize = 2 * MAX_BYTES;

/// What is kept of a request and its reply beside the bytes that they carry.
// The fields stand in an order that leaves few gaps.
#[derive(Drop)]
struct Header {
    op: AskOp,
    size: u8,
    answer: ReplyOp,
    answer_size: u8,
    denied: bool,
    source: u16,
    address: u64,
    /// Where the request's bytes begin in their pool.
    start: usize,
    /// Where the reply's begin in theirs.
    answer_start: usize,
}

const _: () = prove!(size_of::<Header>() <= 40);

/// Requests with their replies, in the order in which they were appended.
#[derive(Drop)]
pub struct Journal {
    headers: Vec<Header>,
    pools: Pools,
    room: usize,
}

impl Model for Journal {
    ghost use Rattle.std.specs.Prelude.{map, vec_capacity};
    ghost use Rattle.tl_journal.specs.Journal.{JournalView};
    ghost use Rattle.tl_journal.specs.Headers.{IsKeptJournal, entry_in};

    ghost Value = { JournalView };

    ghost view = { λ j. record { items = map (entry_in j.pools) j.headers.items; room = j.room } };

    ghost invariant = { λ j. IsKeptJournal j.pools j.headers.items (vec_capacity j.headers) j.room };
}

impl Journal {
    /// An empty journal.
    pub fn new(alloc: Global) -> Journal
        ensures { result ≡ record { items = []; room = 0 } }
    {
        Journal {
            headers: Vec::new(alloc),
            pools: Pools::new(alloc),
            room: 0,
        }
    }

    /// An empty journal with room for so many entries, whatever they carry. Memory that no entry takes is never
    /// touched.
    pub fn with_room(alloc: Global, entries: usize) -> Result<Journal, AllocError>
        ensures { IfOk result (λ journal. journal ≡ record { items = []; room = entries }) }
    {
        let headers = Vec::with_capacity(alloc, entries)?;
        let whole = entries.checked_mul(MAX_WHOLE).ok_or(AllocError)?;
        let mut pools = Pools::new(alloc);
        pools.reserve(whole, entries * MAX_BYTES)?;
        Ok(Journal {
            headers,
            pools,
            room: entries,
        })
    }

    /// How many entries there are: no more than there is room for.
    pub fn len(&self) -> usize
        ensures value { result ≡ length self.now.items }
        ensures room { result ≤ self.now.room }
    {
        self.headers.len()
    }

    /// Whether there is no entry.
    pub fn is_empty(&self) -> bool
        ensures { result ≡ (length self.now.items == 0) }
    {
        self.headers.is_empty()
    }

    /// Makes room for one more entry, if there is none.
    fn reserve_one(&mut self) -> Result<(), AllocError>
        ensures items { self.new.items ≡ self.old.items }
        ensures room { OnOk result (self.new.room ≡ max self.old.room (length self.old.items + 1)) }
        ensures err { OnErr result (self.new.room ≡ self.old.room) }
        ensures succeeds { length self.old.items < self.old.room → IsOk result }
    {
        if self.headers.len() < self.room {
            return Ok(());
        }
        self.headers.reserve(1)?;
        self.pools.reserve(MAX_WHOLE, MAX_BYTES)?;
        self.room = self.headers.len() + 1;
        Ok(())
    }

    /// Appends a request and its reply, each with this source, and makes room for them first if there is none: it
    /// fails only then.
    pub fn push(&mut self, source: u16, ask: &Ask, reply: &Reply) -> Result<(), AllocError>
        ensures ok { OnOk result (self.new.items ≡ self.old.items
            ++ (record ask.now { source = source }, record reply.now { source = source }) ∷ []) }
        ensures room { OnOk result (self.new.room ≡ max self.old.room (length self.new.items)) }
        ensures err { OnErr result (self.new ≡ self.old) }
        ensures succeeds { length self.old.items < self.old.room → IsOk result }
    {
        self.reserve_one()?;
        self.push_reserved(source, ask, reply);
        Ok(())
    }

    /// Appends a request and its reply, each with this source, if there is room for one more.
    pub fn push_reserved(&mut self, source: u16, ask: &Ask, reply: &Reply)
        requires { length self.old.items < self.old.room }
        ensures items { self.new.items ≡ self.old.items
            ++ (record ask.now { source = source }, record reply.now { source = source }) ∷ [] }
        ensures room { self.new.room ≡ self.old.room }
    {
        let start = self.pools.keep_reserved(ask.op(), ask.bytes());
        let answer_start = self.pools.keep_plain_reserved(reply.bytes());
        self.headers.push_reserved(Header {
            op: ask.op(),
            size: ask.size(),
            answer: reply.op(),
            answer_size: reply.size(),
            denied: reply.denied(),
            source,
            address: ask.address(),
            start,
            answer_start,
        });
    }

    /// The request at a place, and its reply.
    pub fn get(&self, place: usize) -> (Ask, Reply)
        requires { place < length self.now.items }
        ensures { slice_get self.now.items place ≡ Some result }
    {
        let (mut ask, mut reply) = (Ask::blank(), Reply::blank());
        self.read(place, &mut ask, &mut reply);
        (ask, reply)
    }

    /// Puts the request at a place, and its reply, in the places of others: no more bytes are moved than they have.
    pub fn read(&self, place: usize, ask: &mut Ask, reply: &mut Reply)
        requires { place < length self.now.items }
        ensures { slice_get self.now.items place ≡ Some (ask.new, reply.new) }
    {
        let header = &self.headers[place];
        read_request(&self.pools, header, ask);
        read_reply(&self.pools, header, reply);
    }
}

/// Puts the request of a header in the place of another.
fn read_request(pools: &Pools, header: &Header, ask: &mut Ask)
    requires { IsEntryIn pools.now header.now }
    ensures { ask.new ≡ ask_in pools.now header.now }
{
    pools.fill(
        header.op,
        header.size,
        header.source,
        header.address,
        header.start,
        ask,
    );
}

/// Puts the reply of a header in the place of another.
fn read_reply(pools: &Pools, header: &Header, reply: &mut Reply)
    requires { IsEntryIn pools.now header.now }
    ensures { reply.new ≡ reply_in pools.now header.now }
{
    let count = header.answer.byte_count(header.answer_size);
    reply.refill(
        header.answer,
        header.answer_size,
        header.source,
        header.denied,
        pools.plain(header.answer_start, count),
    );
}
