//! A port by its seat, with its memory.
ghost use Rattle.std.specs.Prelude.{◌≡◌, []};
ghost use Rattle.tl_arena.specs.Promises.{memory_of};

use std::alloc::Global;
use std::collections::VecDeque;
use std::process::Abort;
use tl_arena::{Accepted, Arena, PortSeat};
use tl_ops::Bank;
use tl_types::{Ask, AskOp};

/// A port with its memory, and what it has accepted and not answered, the oldest first.
#[derive(Drop)]
pub(in crate::tests) struct Desk<'a> {
    arena: &'a Arena,
    seat: PortSeat,
    memory: Bank,
    taken: VecDeque<Accepted>,
    ghost here: { seat.arena ≡ arena.now },
    ghost true_memory: { memory ≡ memory_of seat },
    ghost serving: { taken.items ≡ seat.serving },
}

/// What is read of a request that was accepted. Its source is the wide one.
pub(in crate::tests) struct Accept {
    pub(in crate::tests) op: AskOp,
    pub(in crate::tests) size: u8,
    pub(in crate::tests) source: u16,
    pub(in crate::tests) address: u64,
}

/// A call of a desk, with its answer.
pub(in crate::tests) enum DeskCall {
    /// The slot from which a pass over all slots accepts a request.
    Accept(Option<usize>),
    /// A look at this slot accepts this request, if one.
    AcceptAt(usize, Option<Accept>),
    /// The slot whose request is answered: of those that were accepted, the oldest.
    Answer(Option<usize>),
}

/// A port that has accepted nothing yet.
pub(in crate::tests) fn new_desk<'a>(
    alloc: Global,
    arena: &'a Arena,
    seat: PortSeat,
    memory: Bank,
) -> Desk<'a>
    requires arena { seat.arena ≡ arena.now }
    requires memory { memory ≡ memory_of seat }
    requires idle { seat.serving ≡ [] }
{
    Desk {
        arena,
        seat,
        memory,
        taken: VecDeque::new(alloc),
    }
}

impl<'a> Desk<'a> {
    /// Whether a request that is posted for the port is accepted from this slot.
    pub(in crate::tests) fn accept_at(&mut self, rt: &impl Abort, slot: usize) -> bool {
        let Some(accepted) = self.arena.accept_at(&mut self.seat, slot) else {
            return false;
        };
        if self.taken.push_back(accepted).is_err() {
            panic!(rt; "no memory");
        }
        true
    }

    /// The slot from which a pass accepts a request.
    pub(in crate::tests) fn accept(&mut self, rt: &impl Abort) -> Option<usize> {
        let accepted = self.arena.accept(&mut self.seat)?;
        let slot = accepted.slot();
        if self.taken.push_back(accepted).is_err() {
            panic!(rt; "no memory");
        }
        Some(slot)
    }

    /// The slot whose request is answered: of those that were accepted, the oldest.
    pub(in crate::tests) fn answer(&mut self) -> Option<usize> {
        if self.seat.served() == usize::MAX {
            return None;
        }
        let accepted = self.taken.pop_front()?;
        let slot = accepted.slot();
        let mut ask = Ask::blank();
        accepted.read_ask(&mut ask);
        let reply = self.memory.serve(&ask);
        self.arena.answer(&mut self.seat, accepted, &reply);
        Some(slot)
    }

    /// Whether what was accepted last is this request.
    fn has_taken(&self, wanted: &Accept) -> bool {
        let Some(accepted) = self.taken.back() else {
            return false;
        };
        let mut seen = Ask::blank();
        accepted.read_ask(&mut seen);
        accepted.source() == wanted.source
            && seen.op() == wanted.op
            && seen.size() == wanted.size
            && seen.source() == wanted.source
            && seen.address() == wanted.address
    }

    /// Whether a look at a slot accepts this request, if one.
    fn looks_at(&mut self, rt: &impl Abort, slot: usize, wanted: Option<&Accept>) -> bool {
        match (self.accept_at(rt, slot), wanted) {
            (true, Some(wanted)) => self.has_taken(wanted),
            (accepted, wanted) => accepted == wanted.is_some(),
        }
    }

    /// Makes a call. Its answer is the right one.
    pub(in crate::tests) fn play(&mut self, rt: &impl Abort, call: &DeskCall) -> bool {
        match call {
            DeskCall::Accept(slot) => self.accept(rt) == *slot,
            DeskCall::AcceptAt(slot, request) => self.looks_at(rt, *slot, request.as_ref()),
            DeskCall::Answer(slot) => self.answer() == *slot,
        }
    }
}
