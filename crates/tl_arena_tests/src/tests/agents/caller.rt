//! A master by its seat, that has one request out at a time.
ghost use Rattle.std.specs.Prelude.{◌≡◌, ◌<◌, All, IfSome, IfErr};
ghost use Rattle.std.specs.Option.{ForSome};
ghost use Rattle.tl_rule.specs.declared.view.Held.TheVariants.{Filled, Sent};
ghost use Rattle.tl_rule.specs.Views.{Owns};
ghost use Rattle.tl_arena.specs.Views.{hand_at, new_master};
ghost use Rattle.tl_arena.specs.Promises.{IsIdleSource};

use crate::tests::floor::BASE;
use std::alloc::Global;
use std::process::Abort;
use tl_arena::{Arena, Claim, MasterSeat, Served, Ticket};
use tl_map::SourceOwners;
use tl_types::{Ask, AskOp, Reply, ReplyOp};

/// A master's seat, and what its calls need.
#[derive(Drop)]
pub(in crate::tests) struct Seat<'a> {
    arena: &'a Arena,
    sources: &'a SourceOwners,
    seat: MasterSeat,
    ghost at: { seat.arena ≡ arena.now },
    ghost blocks: { arena.now.about.owners ≡ sources.now },
}

/// A reply that was collected, with some of its bytes as they lie (the first, the fourth and the fifth), the port that
/// gave it and its place in the port's list.
#[derive(Drop)]
pub(in crate::tests) struct Received {
    reply: Reply,
    read: [Option<u8>; 3],
    port: usize,
    index: usize,
}

impl Received {
    /// Whether it is this one.
    fn is(&self, wanted: &Wanted) -> bool {
        self.port == wanted.port
            && self.index == wanted.index
            && self.reply.op() == ReplyOp::AccessAckData
            && self.reply.bytes() == wanted.bytes
            && self.read == wanted.read
    }
}

/// What is read of a reply.
fn received_of(served: &Served) -> Received {
    Received {
        reply: served.reply(),
        read: [
            served.reply_byte(0),
            served.reply_byte(3),
            served.reply_byte(4),
        ],
        port: served.port(),
        index: served.index(),
    }
}

impl<'a> Seat<'a> {
    /// A slot for a request of the master's own source to a port, with the request as it will be posted, if nothing is
    /// out.
    fn claim(&mut self, ask: &Ask, port: usize) -> Option<(Claim, Ask)>
        ensures claimed { IfSome result (λ c. hand_at self.new.seat c.0 ≡ Filled) }
        ensures source { IfSome result
            (λ c. Owns self.new.seat.arena.about self.new.seat.number c.1.source) }
        ensures unsent { IfSome result (λ c. IsIdleSource self.new.seat c.1.source) }
        ensures port { IfSome result (λ _. port < self.new.seat.arena.about.ports) }
    {
        if self.seat.owned() != 0 || port >= self.arena.ports() {
            return None;
        }
        let wide = self.sources.widen(self.seat.number(), ask.source())?;
        let claim = self.arena.claim(&mut self.seat)?;
        Some((claim, ask.with_source(wide)))
    }

    /// Posts the request.
    fn post(&mut self, claim: Claim, ask: &Ask, port: usize) -> Ticket
        requires claim { hand_at self.old.seat claim ≡ Filled }
        requires source { Owns self.old.seat.arena.about self.old.seat.number ask.now.source }
        requires unsent { IsIdleSource self.old.seat ask.now.source }
        requires port { port < self.old.seat.arena.about.ports }
        ensures { hand_at self.new.seat result.slot ≡ Sent result.ask result.port result.known }
    {
        self.arena.post(&mut self.seat, claim, ask, port)
    }

    /// Posts a request of the master's own source, if it has a free slot and nothing is out.
    fn send(&mut self, ask: &Ask, port: usize) -> Option<Ticket>
        ensures { IfSome result (λ t. hand_at self.new.seat t.slot ≡ Sent t.ask t.port t.known) }
    {
        let (claim, ask) = self.claim(ask, port)?;
        Some(self.post(claim, &ask, port))
    }

    /// The reply, if it is there, whose slot is then released.
    fn receive(&mut self, ticket: Ticket) -> Result<Received, Ticket>
        requires { hand_at self.old.seat ticket.slot ≡ Sent ticket.ask ticket.port ticket.known }
        ensures err { IfErr result (λ t. (t ≡ ticket) × (self.new.seat ≡ self.old.seat)) }
    {
        if self.seat.collected() == usize::MAX {
            return Err(ticket);
        }
        let served = self.arena.collect(&mut self.seat, ticket)?;
        let received = received_of(&served);
        self.arena.release(&mut self.seat, served);
        Ok(received)
    }
}

/// A master by its seat, with the ticket of what it has out.
#[derive(Drop)]
pub(in crate::tests) struct Caller<'a> {
    seat: Seat<'a>,
    out: Option<Ticket>,
    ghost posted: { ForSome out (λ t. hand_at seat.seat t.slot ≡ Sent t.ask t.port t.known) },
}

/// A read of so many bytes, as a power of two, from a source of a master's own.
#[derive(Clone, Copy)]
pub(in crate::tests) struct Read {
    pub(in crate::tests) size: u8,
    pub(in crate::tests) source: u16,
}

impl Read {
    /// The request, at the first address of a memory.
    fn ask(self) -> Option<Ask> {
        Ask::new(AskOp::Get, self.size, self.source, BASE, &[]).ok()
    }
}

/// What a caller has to receive.
pub(in crate::tests) struct Wanted {
    pub(in crate::tests) port: usize,
    pub(in crate::tests) index: usize,
    pub(in crate::tests) bytes: &'static [u8],
    /// The first, the fourth and the fifth of them.
    pub(in crate::tests) read: [Option<u8>; 3],
}

/// A call of a caller, with its answer.
pub(in crate::tests) enum CallerCall {
    /// A request to a port is posted from this slot, or finds none.
    Send(Read, usize, Option<usize>),
    /// There is no reply yet.
    NoReply,
    Receive(Wanted),
}

/// A caller for each of these seats.
pub(in crate::tests) fn callers_of<'a>(
    rt: &impl Abort,
    alloc: Global,
    arena: &'a Arena,
    sources: &'a SourceOwners,
    seats: Vec<MasterSeat>,
) -> Vec<Caller<'a>>
    requires blocks { sources.now ≡ arena.now.about.owners }
    requires seats { All (λ v. v ≡ new_master arena.now v.number) seats.items }
{
    let mut callers = Vec::new(alloc);
    for seat in seats {
        let seat = Seat {
            arena,
            sources,
            seat,
        };
        callers
            .push(Caller { seat, out: None })
            .expect(rt, "memory");
    }
    callers
}

impl<'a> Caller<'a> {
    /// Posts a read of the caller's own source, if it has a free slot and nothing is out. The answer is the slot.
    fn send(&mut self, read: Read, port: usize) -> Option<usize> {
        if self.out.is_some() {
            return None;
        }
        let ticket = self.seat.send(&read.ask()?, port)?;
        let slot = ticket.slot();
        self.out = Some(ticket);
        Some(slot)
    }

    /// The same, and between the claim and the posting another looks for a slot. The answer is the slot, how many this
    /// caller owned then, and what the other found.
    pub(in crate::tests) fn send_past(
        &mut self,
        other: &mut Caller,
        (own, others): (Read, Read),
        port: usize,
    ) -> Option<(usize, usize, Option<usize>)> {
        if self.out.is_some() {
            return None;
        }
        let (claim, wide) = self.seat.claim(&own.ask()?, port)?;
        let owned = self.seat.seat.owned();
        let found = other.send(others, port);
        let ticket = self.seat.post(claim, &wide, port);
        let slot = ticket.slot();
        self.out = Some(ticket);
        Some((slot, owned, found))
    }

    /// The reply to what is out, if it is there.
    fn receive(&mut self) -> Option<Received> {
        let ticket = self.out.take()?;
        match self.seat.receive(ticket) {
            Ok(received) => Some(received),
            Err(ticket) => {
                self.out = Some(ticket);
                None
            }
        }
    }

    /// Makes a call. Its answer is the right one.
    pub(in crate::tests) fn play(&mut self, call: &CallerCall) -> bool {
        match call {
            CallerCall::Send(read, port, slot) => self.send(*read, *port) == *slot,
            CallerCall::NoReply => self.receive().is_none(),
            CallerCall::Receive(wanted) => match self.receive() {
                Some(received) => received.is(wanted),
                None => false,
            },
        }
    }

    /// The master leaves. It owns nothing.
    pub(in crate::tests) fn leave(self, rt: &impl Abort) {
        let Caller { seat, out: _ } = self;
        let Seat {
            arena,
            sources: _,
            seat,
        } = seat;
        assert!(rt; seat.owned() == 0);
        arena.leave(seat);
    }
}
