//! A master (`tl_master`).
ghost use Rattle.std.specs.Prelude.{◌≡◌, ◌+◌, ◌≤◌, All, length};
ghost use Rattle.tl_map.specs.Blocks.{HaveBlocks};
ghost use Rattle.tl_arena.specs.Views.{new_master};

use crate::tests::floor::BASE;
use std::alloc::Global;
use std::process::Abort;
use tl_arena::{Arena, MasterSeat};
use tl_journal::Trace;
use tl_map::{AddressMap, SourceOwners};
use tl_master::{IssueFault, Issued, Master, Polled};
use tl_types::{Ask, AskOp};

/// A master that knows its arena.
#[derive(Drop)]
pub(in crate::tests) struct Client<'a> {
    pub(in crate::tests) arena: &'a Arena,
    pub(in crate::tests) map: &'a AddressMap,
    pub(in crate::tests) master: Master,
    ghost here: { master.seat.arena ≡ arena.now },
    ghost ports: { length map.now + 1 ≤ arena.now.about.ports },
}

/// A call of a master, with its answer. Its requests are reads of four bytes at the first port.
pub(in crate::tests) enum MasterCall {
    Sources(usize),
    /// A request from this source is posted from this slot.
    Issue(u16, usize),
    /// It is not, and nothing changes.
    Refused(u16, IssueFault),
    /// From each source below this one a request is posted, from the slot of that number: a lone master finds the
    /// lowest slot that is free.
    IssueUpTo(u16),
    Poll(u16, Polled),
    /// The lowest source from this one on that a request is out for.
    NextOut(usize, Option<u16>),
    /// How many requests are out, and how many entries the trace has.
    Counts(usize, usize),
}

/// A client for each master, with room for so many entries in each trace.
pub(in crate::tests) fn clients_of<'a>(
    rt: &impl Abort,
    alloc: Global,
    arena: &'a Arena,
    map: &'a AddressMap,
    sources: &SourceOwners,
    seats: Vec<MasterSeat>,
    limit: usize,
) -> Vec<Client<'a>>
    requires ports { length map.now + 1 ≤ arena.now.about.ports }
    requires owners { sources.now ≡ arena.now.about.owners }
    requires blocks { HaveBlocks sources.now }
    requires seats { All (λ v. v ≡ new_master arena.now v.number) seats.items }
{
    let mut clients = Vec::new(alloc);
    for seat in seats {
        let Ok(master) = Master::new(alloc, seat, sources, limit) else {
            panic!(rt; "memory");
        };
        clients
            .push(Client { arena, map, master })
            .expect(rt, "memory");
    }
    clients
}

/// A read of four bytes at the start of the first port's memory.
pub(in crate::tests) fn read(source: u16) -> Option<Ask> {
    Ask::new(AskOp::Get, 2, source, BASE, &[]).ok()
}

impl<'a> Client<'a> {
    pub(in crate::tests) fn issue(&mut self, ask: &Ask) -> Result<Issued, IssueFault>
        ensures { self.new.arena.now ≡ self.old.arena.now }
    {
        self.master.issue(self.arena, self.map, ask)
    }

    pub(in crate::tests) fn poll(&mut self, source: u16) -> Polled {
        self.master.poll(self.arena, source)
    }

    /// How many requests are out, and how many entries the trace has.
    pub(in crate::tests) fn counts(&self) -> (usize, usize) {
        (self.master.out(), self.master.trace_len())
    }

    /// Leaves the arena with the trace: nothing is out.
    pub(in crate::tests) fn finish(self, rt: &impl Abort) -> Trace {
        let Client {
            arena,
            map: _,
            master,
        } = self;
        assert!(rt; master.out() == 0, "something is out");
        master.finish(arena)
    }

    /// Whether a request from a source is posted to the first port from this slot.
    fn issues(&mut self, source: u16, slot: usize) -> bool {
        match read(source) {
            Some(ask) => self.issue(&ask) == Ok(Issued { slot, port: 0 }),
            None => false,
        }
    }

    /// Whether requests of the sources below this one are posted from the slots of their numbers.
    fn issues_up_to(&mut self, end: u16) -> bool {
        for source in 0..end {
            if !self.issues(source, source as usize) {
                return false;
            }
        }
        true
    }

    /// Whether a request from a source is refused, and nothing changes.
    fn is_refused(&mut self, source: u16, fault: IssueFault) -> bool {
        let counts = self.counts();
        match read(source) {
            Some(ask) => self.issue(&ask) == Err(fault) && self.counts() == counts,
            None => false,
        }
    }

    /// Makes a call. Its answer is the right one.
    pub(in crate::tests) fn play(&mut self, call: &MasterCall) -> bool {
        match call {
            MasterCall::Sources(count) => self.master.sources() == *count,
            MasterCall::Issue(source, slot) => self.issues(*source, *slot),
            MasterCall::Refused(source, fault) => self.is_refused(*source, *fault),
            MasterCall::IssueUpTo(end) => self.issues_up_to(*end),
            MasterCall::Poll(source, found) => self.poll(*source) == *found,
            MasterCall::NextOut(from, next) => self.master.next_out(*from) == *next,
            MasterCall::Counts(out, entries) => self.counts() == (*out, *entries),
        }
    }

    /// The last call of a master that has one entry. Its reply is at this place of the first port's history.
    pub(in crate::tests) fn ends(self, rt: &impl Abort, number: usize, index: usize) -> bool {
        if self.master.number() != number {
            return false;
        }
        let trace = self.finish(rt);
        if trace.len() != 1 {
            return false;
        }
        let entry = trace.get(0);
        entry.ask.source() == 0
            && entry.reply.source() == 0
            && entry.port == 0
            && entry.index == index
    }
}
