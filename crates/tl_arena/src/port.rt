//! The calls of a port.
ghost use Rattle.std.specs.Prelude.{◌≡◌, ◌<◌, ◌≤◌, length, IfSome, IfNone, true, false};
ghost use Rattle.std.specs.Prelude as std;
ghost use Rattle.tl_ops.specs.Store as store;
ghost use Rattle.tl_slots.specs.declared.word.TheConstants.{MAX_AGENT};
ghost use Rattle.tl_rule.specs.Serving.{ask_at};
ghost use Rattle.tl_arena.specs.Views.{with_accepted, with_answered};
ghost use Rattle.tl_arena.specs.Promises.{IsLawfulPort, IsAcceptStep, IsAnswerStep, memory_of};

use crate::arena::Arena;
use crate::carried::bring;
use crate::plays::{Accepts, Answers};
use crate::record::Berth;
use crate::seats::PortSeat;
use crate::turn::Accepted;
use tl_slots::{Phase, phase_of, word_of};
use tl_types::Reply;

impl Arena {
    /// Accepts a request that is posted for this port, by one pass from slot 0 upward.
    pub fn accept(&self, port: &mut PortSeat) -> Option<Accepted>
        requires arena { port.old.arena ≡ self.now }
        ensures slot { IfSome result (λ a. a.0 < self.now.about.slots) }
        ensures some { IfSome result
            (λ a. (ask_at port.old.serving a.0 ≡ std.None)
            × (port.new ≡ with_accepted port.old a)) }
        ensures event { IfSome result (λ a. IsAcceptStep port.old a port.new) }
        ensures none { IfNone result (port.new ≡ port.old) }
        ensures law { IsLawfulPort port.new }
    {
        let number = port.number();
        for slot in 0..self.slots {
            let Some(owner) = self.poster(slot, number) else {
                continue;
            };
            if let Some(accepted) = self.accept_from(port, slot, owner) {
                return Some(accepted);
            }
        }
        None
    }

    /// Accepts the request in a slot, if one is posted there for this port. It looks first: an exchange takes the
    /// word's cache line from its owner.
    pub fn accept_at(&self, port: &mut PortSeat, slot: usize) -> Option<Accepted>
        requires arena { port.old.arena ≡ self.now }
        ensures some { IfSome result
            (λ a. (a.0 ≡ slot) × (ask_at port.old.serving slot ≡ std.None)
            × (port.new ≡ with_accepted port.old a)) }
        ensures event { IfSome result (λ a. IsAcceptStep port.old a port.new) }
        ensures none { IfNone result (port.new ≡ port.old) }
        ensures law { IsLawfulPort port.new }
    {
        let owner = self.poster(slot, port.number())?;
        self.accept_from(port, slot, owner)
    }

    /// The master that a look at the slot finds to have posted to the port. Another thread may be faster.
    fn poster(&self, slot: usize, port: usize) -> Option<usize>
        ensures slot { IfSome result (λ _. slot < self.now.about.slots) }
        ensures small { IfSome result (λ owner. owner ≤ MAX_AGENT) }
    {
        if slot >= self.slots {
            return None;
        }
        match phase_of(self.table.shared.peek(slot)) {
            Some(Phase::Posted(owner, to)) if to == port => Some(owner),
            _ => None,
        }
    }

    /// Accepts the request in a slot, if this master has posted it for this port.
    fn accept_from(&self, port: &mut PortSeat, slot: usize, owner: usize) -> Option<Accepted>
        requires arena { port.old.arena ≡ self.now }
        requires slot { slot < self.now.about.slots }
        requires small { owner ≤ MAX_AGENT }
        ensures some { IfSome result
            (λ a. (a.0 ≡ slot) × (ask_at port.old.serving slot ≡ std.None)
            × (port.new ≡ with_accepted port.old a)) }
        ensures event { IfSome result (λ a. IsAcceptStep port.old a port.new) }
        ensures none { IfNone result (port.new ≡ port.old) }
        ensures law { IsLawfulPort port.new }
    {
        let words = &self.table.shared;
        let from = word_of(Phase::Posted(owner, port.number));
        let new = word_of(Phase::Serving(owner, port.number));
        if words.compare_exchange::<Accepts>(&mut port.seat, slot, from, new) != from {
            return None;
        }
        port.order.push_front_reserved(slot);
        port.owners[slot] = owner;
        let record = words
            .exchange(&mut port.seat, slot, Berth::empty())
            .into_record();
        Some(Accepted { slot, record })
    }

    /// Answers a request that was accepted. The reply is the port's memory's.
    pub fn answer(&self, port: &mut PortSeat, accepted: Accepted, reply: &Reply)
        requires arena { port.old.arena ≡ self.now }
        requires accepted { ask_at port.old.serving accepted.0 ≡ std.Some accepted.1 }
        requires room { length port.old.list < usize.MAX }
        requires reply { reply.now ≡ store.reply (memory_of port.old) accepted.1 }
        ensures seat { port.new ≡ with_answered port.old accepted reply.now }
        ensures event { IsAnswerStep port.old accepted port.new }
        ensures law { IsLawfulPort port.new }
    {
        let Accepted { slot, mut record } = accepted;
        let address = record.address();
        record.answer(address, port.served, reply);
        let words = &self.table.shared;
        bring(&mut port.seat, &mut port.order, slot);
        let _ = words.exchange(&mut port.seat, slot, Berth::of(record));
        let new = word_of(Phase::Answered(port.owners[slot], port.number));
        words.store::<Answers>(&mut port.seat, slot, new);
        let _ = port.order.pop_front();
        port.served += 1;
    }
}
