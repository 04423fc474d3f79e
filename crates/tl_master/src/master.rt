//! One master.
ghost use Rattle.std.specs.Prelude.{◌≡◌, ℕ, ◌+◌, ◌<◌, ◌≤◌, [], ◌∷◌, ◌++◌, length, IfOk, IfErr, replicate, IfSome, IfNone, IsSomeAnd, slice_get};
ghost use Rattle.std.specs.Prelude as std;
ghost use Rattle.tl_rule.specs.declared.view.Held.TheVariants.{Filled, Sent};
ghost use Rattle.tl_rule.specs.Views.{Owns};
ghost use Rattle.tl_arena.specs.Views.{owned_of, hand_at, with_held};
ghost use Rattle.tl_arena.specs.Promises.{IsIdleSource, OwnsHistories};
ghost use Rattle.tl_map.specs.Blocks.{HaveBlocks};
ghost use Rattle.tl_master.specs.Master.{new_state, count_of, out_of, ticket_at, IsInOrder, AreWidened, requests_of, of_source, asked, IsNextOut};
ghost use Rattle.tl_master.specs.Steps.{Appends, IsRoutedPost, Issues, Polls, AsksMore, AsksSame};

use crate::source_set::SourceSet;
use std::alloc::{AllocError, Global};
use std::marker::Model;
use thiserror::Error;
use tl_arena::{Arena, Claim, MasterSeat, Ticket};
use tl_journal::{Place, Trace};
use tl_map::{AddressMap, SourceOwners};
use tl_types::{Ask, Entry, Reply};

/// Where a request was posted: its slot, and the port that the map gives it.
#[derive(Clone, Copy, PartialEq, Eq)]
pub struct Issued {
    pub slot: usize,
    pub port: usize,
}

/// Why a request was not issued, in the order in which the refusals are tried.
#[derive(Debug, Clone, Copy, PartialEq, Eq, Error)]
pub enum IssueFault {
    #[error("the master has no such source")]
    NoSuchSource,
    #[error("a request of this source is out")]
    SourceBusy,
    #[error("entries and requests out fill the trace")]
    TraceFull,
    #[error("no slot was found free")]
    NoSlot,
}

/// What a poll found.
#[derive(Clone, Copy, PartialEq, Eq)]
pub enum Polled {
    /// Nothing is out for the source.
    Idle,
    /// What is out for the source is not answered yet.
    NotYet,
    /// The reply is in the trace, at this place.
    Done(usize),
}

/// A master: its seat, the start of its wide sources, what is out for each of its sources, and its trace.
#[derive(Drop)]
pub struct Master {
    seat: MasterSeat,
    start: u16,
    out: Vec<Option<Ticket>>,
    // the sources that something is out for
    busy: SourceSet,
    count: usize,
    limit: usize,
    trace: Trace,
    /// The last request that was posted or whose reply was collected, and the last reply: room for the next ones, which
    /// contracts don't see.
    ask: Ask,
    reply: Reply,
}

impl Model for Master {
    ghost use Rattle.std.specs.Prelude.{◌≡◌, ◌≤◌};
    ghost use Rattle.tl_map.specs.Blocks.{HaveBlocks};
    ghost use Rattle.tl_master.specs.Master.{MasterState};
    ghost use Rattle.tl_master.specs.Kept.{IsKeptMaster};
    ghost use Rattle.tl_master.specs.SourceSet.{IsSetOfOut};

    ghost Value = { MasterState };

    ghost view = { λ m. record { seat = m.seat; out = m.out.items; trace = m.trace.items; limit = m.limit } };

    ghost invariant = { λ m. IsKeptMaster (record { seat = m.seat; out = m.out.items; trace = m.trace.items; limit = m.limit }) m.start m.count × (m.limit ≤ m.trace.room) × IsSetOfOut m.busy.words m.out.items };
}

impl Master {
    /// A master with nothing out and an empty trace, with room for `limit` entries and for one request out a source.
    /// If memory is refused the seat comes back.
    pub fn new(
        alloc: Global,
        seat: MasterSeat,
        sources: &SourceOwners,
        limit: usize,
    ) -> Result<Master, MasterSeat>
        requires owned { owned_of seat ≡ 0 }
        requires collected { seat.got ≡ [] }
        requires sources { sources.now ≡ seat.arena.about.owners }
        requires blocks { HaveBlocks sources.now }
        ensures ok { IfOk result (λ master. master ≡ new_state seat limit) }
        ensures err { IfErr result (λ back. back ≡ seat) }
    {
        let number = seat.number();
        let sources_own = sources.count(number).unwrap_or(0);
        let start = sources.widen(number, 0).unwrap_or(0);
        let Ok(out) = nothing_out(alloc, sources_own as usize) else {
            return Err(seat);
        };
        let Ok(trace) = Trace::with_room(alloc, limit) else {
            return Err(seat);
        };
        Ok(Master {
            seat,
            start,
            out,
            busy: SourceSet::new(),
            count: 0,
            limit,
            trace,
            ask: Ask::blank(),
            reply: Reply::blank(),
        })
    }

    /// Posts a request of one of the master's sources, with its source widened, to the port that the map gives it.
    pub fn issue(
        &mut self,
        arena: &Arena,
        map: &AddressMap,
        ask: &Ask,
    ) -> Result<Issued, IssueFault>
        requires arena { self.old.seat.arena ≡ arena.now }
        requires ports { length map.now + 1 ≤ arena.now.about.ports }
        ensures issues { Issues map.now self.old ask.now result self.new }
        ensures asked { IfOk result (λ _. AsksMore self.old ask.now self.new) }
    {
        let source = ask.source() as usize;
        if source >= self.out.len() {
            return Err(IssueFault::NoSuchSource);
        }
        if self.out[source].is_some() {
            return Err(IssueFault::SourceBusy);
        }
        if self.trace.len() + self.count == self.limit {
            return Err(IssueFault::TraceFull);
        }
        let Some(claim) = arena.claim(&mut self.seat) else {
            return Err(IssueFault::NoSlot);
        };
        let wide = self.start + ask.source();
        let (seat, posted) = (&mut self.seat, &mut self.ask);
        let (ticket, issued) = post_routed(arena, seat, claim, map, ask, wide, posted);
        self.out[source] = Some(ticket);
        self.busy.insert(source);
        self.count += 1;
        Ok(issued)
    }

    /// Collects the reply to what is out for a source, if it is there: appends its entry, with the master's own
    /// source, and releases its slot.
    pub fn poll(&mut self, arena: &Arena, source: u16) -> Polled
        requires arena { self.old.seat.arena ≡ arena.now }
        ensures polls { Polls self.old source result self.new }
        ensures asked { AsksSame self.old self.new }
    {
        let at = source as usize;
        if at >= self.out.len() {
            return Polled::Idle;
        }
        let Some(ticket) = self.out[at].take() else {
            return Polled::Idle;
        };
        match collect_entry(
            arena,
            &mut self.seat,
            ticket,
            source,
            &mut self.trace,
            &mut self.ask,
            &mut self.reply,
        ) {
            Err(ticket) => {
                self.out[at] = Some(ticket);
                Polled::NotYet
            }
            Ok(place) => {
                self.busy.remove(at);
                self.count -= 1;
                Polled::Done(place)
            }
        }
    }

    /// How many requests are out.
    pub fn out(&self) -> usize
        ensures { result ≡ out_of self.now.out }
    {
        self.count
    }

    /// The lowest source from this one on that a request is out for.
    pub fn next_out(&self, from: usize) -> Option<u16>
        ensures some { IfSome result (IsNextOut self.now.out from) }
        ensures none { IfNone result
            ((source : ℕ) → from ≤ source → ticket_at self.now.out source ≡ std.None) }
    {
        let source = self.busy.first_from(from)?;
        Some(source as u16)
    }

    /// How many sources the master has.
    pub fn sources(&self) -> usize
        ensures value { result ≡ length self.now.out }
        ensures counted { result ≡ count_of self.now.seat.arena.about.owners self.now.seat.number }
    {
        self.out.len()
    }

    /// How many entries the trace has.
    pub fn trace_len(&self) -> usize
        ensures value { result ≡ length self.now.trace }
        ensures room { result + out_of self.now.out ≤ self.now.limit }
    {
        self.trace.len()
    }

    /// The entry at a place of the trace, with the master's own source.
    pub fn entry(&self, place: usize) -> Option<Entry>
        ensures some { IfSome result
            (λ entry. slice_get self.now.trace place ≡ std.Some entry) }
        ensures none { IfNone result (length self.now.trace ≤ place) }
    {
        if place >= self.trace.len() {
            return None;
        }
        Some(self.trace.get(place))
    }

    /// The port that served the entry at a place of the trace.
    pub fn port_at(&self, place: usize) -> Option<usize>
        ensures some { IfSome result (λ port. IsSomeAnd (slice_get self.now.trace place)
            (λ entry. port ≡ entry.port)) }
        ensures none { IfNone result (length self.now.trace ≤ place) }
    {
        if place >= self.trace.len() {
            return None;
        }
        Some(self.trace.served_at(place).port)
    }

    /// The master's number.
    pub fn number(&self) -> usize
        ensures value { result ≡ self.now.seat.number }
        ensures known { result < self.now.seat.arena.about.masters }
    {
        self.seat.number()
    }

    /// Leaves the arena, and gives the trace: the entries in the order collected.
    pub fn finish(self, arena: &Arena) -> Trace
        requires arena { self.seat.arena ≡ arena.now }
        requires none { out_of self.out ≡ 0 }
        ensures trace { result.items ≡ self.trace }
        ensures order { IsInOrder result.items }
        ensures widened { AreWidened self.seat.arena.about.owners self.seat.number result.items self.seat.got }
        ensures own { OwnsHistories self.seat }
    {
        let Master {
            seat,
            start: _,
            out: _,
            busy: _,
            count: _,
            limit: _,
            trace,
            ask: _,
            reply: _,
        } = self;
        arena.leave(seat);
        trace
    }
}

/// Posts a request from a wide source to the port that the map gives it. With that source it is put in the place of
/// another.
fn post_routed(
    arena: &Arena,
    seat: &mut MasterSeat,
    claim: Claim,
    map: &AddressMap,
    ask: &Ask,
    wide: u16,
    posted: &mut Ask,
) -> (Ticket, Issued)
    requires arena { seat.old.arena ≡ arena.now }
    requires claim { hand_at seat.old claim ≡ Filled }
    requires source { Owns arena.now.about seat.old.number wide }
    requires unsent { IsIdleSource seat.old wide }
    requires ports { length map.now + 1 ≤ arena.now.about.ports }
    ensures posted { IsRoutedPost map.now ask.now wide seat.old claim result.0 result.1 }
    ensures seat { seat.new
        ≡ with_held seat.old claim (Sent result.0.ask result.0.port result.0.known) }
{
    let port = map.route(ask);
    posted.refill_from(ask.op(), ask.size(), wide, ask.address(), ask.bytes());
    let ticket = arena.post(seat, claim, posted, port);
    let slot = ticket.slot();
    (ticket, Issued { slot, port })
}

/// Collects the reply to what was posted, if it is there, puts its entry, with the master's own source, at the end
/// of a trace that has room for it, and releases its slot. The answer is the entry's place. Request and reply are read
/// in the place of others.
fn collect_entry(
    arena: &Arena,
    seat: &mut MasterSeat,
    ticket: Ticket,
    source: u16,
    trace: &mut Trace,
    ask: &mut Ask,
    reply: &mut Reply,
) -> Result<usize, Ticket>
    requires arena { seat.old.arena ≡ arena.now }
    requires ticket { hand_at seat.old ticket.slot ≡ Sent ticket.ask ticket.port ticket.known }
    requires count { length seat.old.got < usize.MAX }
    requires room { length trace.old.items < trace.old.room }
    ensures ok { IfOk result (λ place.
        Appends seat.old ticket source trace.old.items place seat.new trace.new.items) }
    ensures capacity { trace.new.room ≡ trace.old.room }
    ensures err { IfErr result
        (λ back. (back ≡ ticket) × (seat.new ≡ seat.old) × (trace.new ≡ trace.old)) }
{
    let served = arena.collect(seat, ticket)?;
    served.read_ask(ask);
    served.read_reply(reply);
    let place = trace.len();
    let at = Place {
        port: served.port(),
        index: served.index(),
    };
    trace.push_reserved(source, ask, reply, at);
    arena.release(seat, served);
    Ok(place)
}

/// Nothing out, for each of these sources.
fn nothing_out(alloc: Global, sources: usize) -> Result<Vec<Option<Ticket>>, AllocError>
    ensures { IfOk result (λ out. out.items ≡ replicate sources std.None) }
{
    let mut out = Vec::with_capacity(alloc, sources)?;
    for _ in 0..sources {
        out.push(None)?;
    }
    Ok(out)
}
