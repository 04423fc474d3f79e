//! The calls of a master.
ghost use Rattle.std.specs.Prelude.{◌≡◌, ◌<◌, ◌≤◌, length, true, false, IfOk, IfErr, IfSome, IfNone};
ghost use Rattle.tl_slots.specs.declared.event.Event.TheVariants as event;
ghost use Rattle.tl_rule.specs.declared.view.Held.TheVariants.{Nothing, Filled, Sent, Taken};
ghost use Rattle.tl_rule.specs.Views.{Owns};
ghost use Rattle.tl_arena.specs.Views.{hand_at, owned_of, with_held};
ghost use Rattle.tl_arena.specs.Promises.{IsIdleSource, IsCollected, OwnsHistories, IsMasterStep, IsLeaveStep};

use crate::arena::Arena;
use crate::carried::bring;
use crate::plays::{Claims, Collects, Leaves, Releases, Sends};
use crate::record::Berth;
use crate::seats::MasterSeat;
use crate::turn::{Claim, Served, Ticket};
use std::snapshot::Snapshot;
use tl_slots::{Phase, word_of};
use tl_types::Ask;

/// The word of a free slot.
const FREE: u64 = 0;

/// The leave word of a master that has left.
const LEFT: u64 = 1;

impl Arena {
    /// A free slot, by one pass over all of them: from the master's own part of the slots upward, and then from slot 0
    /// on. So masters look for slots at different places as long as there are enough.
    pub fn claim(&self, master: &mut MasterSeat) -> Option<Claim>
        requires arena { master.old.arena ≡ self.now }
        ensures some { IfSome result
            (λ i. (i < length master.old.hand) × (hand_at master.old i ≡ Nothing)
            × (master.new ≡ with_held master.old i Filled)) }
        ensures event { IfSome result
            (λ i. IsMasterStep (event.Claim i master.old.number) master.old master.new) }
        ensures none { IfNone result (master.new ≡ master.old) }
    {
        let first = master.number() * self.slots / self.masters;
        match self.claim_among(master, first, self.slots) {
            Some(claim) => Some(claim),
            None => self.claim_among(master, 0, first),
        }
    }

    /// The first free slot from a slot on and before an end.
    fn claim_among(&self, master: &mut MasterSeat, from: usize, end: usize) -> Option<Claim>
        requires arena { master.old.arena ≡ self.now }
        requires slots { end ≤ self.now.about.slots }
        ensures some { IfSome result
            (λ i. (i < length master.old.hand) × (hand_at master.old i ≡ Nothing)
            × (master.new ≡ with_held master.old i Filled)) }
        ensures event { IfSome result
            (λ i. IsMasterStep (event.Claim i master.old.number) master.old master.new) }
        ensures none { IfNone result (master.new ≡ master.old) }
    {
        for slot in from..end {
            if let Some(claim) = self.claim_at(master, slot) {
                return Some(claim);
            }
        }
        None
    }

    /// Claims the slot, if it is free. It looks first: an exchange takes the word's cache line from its owner.
    fn claim_at(&self, master: &mut MasterSeat, slot: usize) -> Option<Claim>
        requires arena { master.old.arena ≡ self.now }
        requires slot { slot < self.now.about.slots }
        ensures some { IfSome result
            (λ i. (i < length master.old.hand) × (hand_at master.old i ≡ Nothing)
            × (master.new ≡ with_held master.old i Filled)) }
        ensures event { IfSome result
            (λ i. IsMasterStep (event.Claim i master.old.number) master.old master.new) }
        ensures none { IfNone result (master.new ≡ master.old) }
    {
        let words = &self.table.shared;
        if words.peek(slot) != FREE {
            return None;
        }
        let new = word_of(Phase::Filling(master.number));
        if words.compare_exchange::<Claims>(&mut master.seat, slot, FREE, new) != FREE {
            return None;
        }
        master.order.push_front_reserved(slot);
        master.owned += 1;
        let berth = words.exchange(&mut master.seat, slot, Berth::empty());
        Some(Claim {
            slot,
            record: berth.into_record(),
        })
    }

    /// Posts a request of the master's own source to a port.
    pub fn post(&self, master: &mut MasterSeat, claim: Claim, ask: &Ask, port: usize) -> Ticket
        requires arena { master.old.arena ≡ self.now }
        requires claim { hand_at master.old claim ≡ Filled }
        requires source { Owns self.now.about master.old.number ask.now.source }
        requires unsent { IsIdleSource master.old ask.now.source }
        requires port { port < self.now.about.ports }
        ensures ticket { result
            ≡ record { slot = claim; ask = ask.now; port = port; known = length master.old.got } }
        ensures seat { master.new
            ≡ with_held master.old claim (Sent ask.now port (length master.old.got)) }
        ensures event { IsMasterStep
            (event.Post claim master.old.number port) master.old master.new }
    {
        let Claim { slot, mut record } = claim;
        record.post(ask, port);
        let words = &self.table.shared;
        bring(&mut master.seat, &mut master.order, slot);
        let _ = words.exchange(&mut master.seat, slot, Berth::of(record));
        let new = word_of(Phase::Posted(master.number, port));
        words.store::<Sends>(&mut master.seat, slot, new);
        let _ = master.order.pop_front();
        Ticket {
            slot,
            ask: Snapshot::of(ask),
            port,
            known: master.collected,
        }
    }

    /// Collects the reply to what was posted, if it is there.
    pub fn collect(&self, master: &mut MasterSeat, ticket: Ticket) -> Result<Served, Ticket>
        requires arena { master.old.arena ≡ self.now }
        requires ticket { hand_at master.old ticket.slot
            ≡ Sent ticket.ask ticket.port ticket.known }
        requires room { length master.old.got < usize.MAX }
        ensures ok { IfOk result (λ s. IsCollected master.old ticket s master.new) }
        ensures event { IfOk result
            (λ _. IsMasterStep (event.Collect ticket.slot master.old.number ticket.port) master.old master.new) }
        ensures err { IfErr result (λ t. (t ≡ ticket) × (master.new ≡ master.old)) }
    {
        let words = &self.table.shared;
        let from = word_of(Phase::Answered(master.number, ticket.port));
        let new = word_of(Phase::Taking(master.number, ticket.port));
        if words.compare_exchange::<Collects>(&mut master.seat, ticket.slot, from, new) != from {
            return Err(ticket);
        }
        let Ticket {
            slot,
            ask,
            port,
            known: _,
        } = ticket;
        master.order.push_front_reserved(slot);
        master.collected += 1;
        let berth = words.exchange(&mut master.seat, slot, Berth::empty());
        Ok(Served {
            slot,
            ask,
            port,
            record: berth.into_record(),
        })
    }

    /// Frees the slot of a reply that was collected.
    pub fn release(&self, master: &mut MasterSeat, served: Served)
        requires arena { master.old.arena ≡ self.now }
        requires taken { hand_at master.old served.slot ≡ Taken served.port }
        ensures seat { master.new ≡ with_held master.old served.slot Nothing }
        ensures event { IsMasterStep
            (event.Release served.slot master.old.number served.port) master.old master.new }
    {
        let Served {
            slot,
            ask: _,
            port: _,
            record,
        } = served;
        let words = &self.table.shared;
        bring(&mut master.seat, &mut master.order, slot);
        let _ = words.exchange(&mut master.seat, slot, Berth::of(record));
        words.store::<Releases>(&mut master.seat, slot, FREE);
        let _ = master.order.pop_front();
        master.owned -= 1;
    }

    /// The master makes no further step.
    pub fn leave(&self, master: MasterSeat)
        requires arena { master.arena ≡ self.now }
        requires empty { owned_of master ≡ 0 }
        ensures own { OwnsHistories master }
        ensures event { IsLeaveStep master }
    {
        let MasterSeat {
            mut seat,
            order: _,
            number,
            owned: _,
            collected: _,
        } = master;
        let word = self.slots + number;
        self.table.shared.store::<Leaves>(&mut seat, word, LEFT);
    }
}
