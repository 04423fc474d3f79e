//! The values of a turn: each is moved on by the next call of its turn.
ghost use Rattle.std.specs.Prelude.{◌≡◌, slice_get};
ghost use Rattle.tl_types.specs.Response.{IsLawfulResponse};

use crate::record::Record;
use std::marker::Model;
use std::snapshot::Snapshot;
use tl_types::{Ask, Reply};

/// A slot that is to be filled, with its record. It has no `Drop`: it must be posted.
pub struct Claim {
    pub(crate) slot: usize,
    pub(crate) record: Box<Record>,
}

impl Model for Claim {
    ghost use Rattle.std.specs.Prelude.{ℕ};

    ghost Value = { ℕ };

    ghost view = { λ c. c.slot };
}

impl Claim {
    /// The slot's number.
    pub fn slot(&self) -> usize
        ensures { result ≡ self.now }
    {
        self.slot
    }
}

/// A request that was posted. The record in its slot has the request: here contracts alone see it.
#[derive(Drop)]
pub struct Ticket {
    pub(crate) slot: usize,
    pub(crate) ask: Snapshot<Ask>,
    pub(crate) port: usize,
    pub(crate) known: usize,
}

impl Model for Ticket {
    ghost use Rattle.std.specs.Prelude.{◌≤◌};
    ghost use Rattle.tl_slots.specs.declared.word.TheConstants.{MAX_AGENT};
    ghost use Rattle.tl_arena.specs.Views.{TicketView};

    ghost Value = { TicketView };

    ghost view = { λ t. record { slot = t.slot; ask = t.ask.value; port = t.port; known = t.known } };

    ghost invariant = { λ t. t.port ≤ MAX_AGENT };
}

impl Ticket {
    /// The slot's number.
    pub fn slot(&self) -> usize
        ensures { result ≡ self.now.slot }
    {
        self.slot
    }
}

/// A reply that was collected, in the record of its slot. It has no `Drop`: its slot must be released.
pub struct Served {
    pub(crate) slot: usize,
    pub(crate) ask: Snapshot<Ask>,
    pub(crate) port: usize,
    pub(crate) record: Box<Record>,
}

impl Model for Served {
    ghost use Rattle.tl_beats.specs.Told.{told_reply};
    ghost use Rattle.tl_rule.specs.Record.{Spells, SpellsAnswer};
    ghost use Rattle.tl_arena.specs.Views.{ServedView};

    ghost Value = { ServedView };

    ghost view = { λ s. record { slot = s.slot; ask = s.ask.value; port = s.port; index = s.record.value.index; reply = told_reply s.record.value.replies s.ask.value.address } };

    ghost invariant = { λ s. Spells s.record.value s.ask.value × SpellsAnswer s.record.value s.ask.value.address (told_reply s.record.value.replies s.ask.value.address) };
}

impl Served {
    /// The slot's number.
    pub fn slot(&self) -> usize
        ensures { result ≡ self.now.slot }
    {
        self.slot
    }

    /// Puts the request, with its wide source, in the place of another.
    pub fn read_ask(&self, ask: &mut Ask)
        ensures { ask.new ≡ self.now.ask }
    {
        self.record.read_ask(ask);
    }

    /// Puts the reply, with the wide source, in the place of another.
    pub fn read_reply(&self, reply: &mut Reply)
        ensures { reply.new ≡ self.now.reply }
    {
        self.record.read_reply(self.record.address(), reply);
    }

    /// The reply, with the wide source.
    pub fn reply(&self) -> Reply
        ensures { result ≡ self.now.reply }
    {
        let mut reply = Reply::blank();
        self.read_reply(&mut reply);
        reply
    }

    /// A byte of the reply, read where it lies.
    pub fn reply_byte(&self, place: usize) -> Option<u8>
        ensures { result ≡ slice_get self.now.reply.bytes place }
    {
        self.record.reply_byte(self.record.address(), place)
    }

    /// Whether the request was denied.
    pub fn is_denied(&self) -> bool
        ensures value { result ≡ self.now.reply.denied }
        ensures lawful { IsLawfulResponse self.now.reply.op self.now.reply.size self.now.reply.denied
            self.now.reply.bytes }
    {
        self.record.is_denied()
    }

    /// The port that served it.
    pub fn port(&self) -> usize
        ensures { result ≡ self.now.port }
    {
        self.port
    }

    /// The reply's place in the port's list.
    pub fn index(&self) -> usize
        ensures { result ≡ self.now.index }
    {
        self.record.index()
    }
}

/// A request that a port has accepted, with the record of its slot.
#[derive(Drop)]
pub struct Accepted {
    pub(crate) slot: usize,
    pub(crate) record: Box<Record>,
}

impl Model for Accepted {
    ghost use Rattle.std.specs.Prelude.{ℕ};
    ghost use Rattle.tl_types.specs.Request.{Request};
    ghost use Rattle.tl_beats.specs.ToldAsk.{told_ask};
    ghost use Rattle.tl_rule.specs.Record.{Spells};

    ghost Value = { ℕ × Request };

    ghost view = { λ a. (a.slot, told_ask a.record.value.beats) };

    ghost invariant = { λ a. Spells a.record.value (told_ask a.record.value.beats) };
}

impl Accepted {
    /// The slot's number.
    pub fn slot(&self) -> usize
        ensures { result ≡ self.now.0 }
    {
        self.slot
    }

    /// The wide source of the request.
    pub fn source(&self) -> u16
        ensures { result ≡ self.now.1.source }
    {
        self.record.source()
    }

    /// Puts the request, with its wide source, in the place of another.
    pub fn read_ask(&self, ask: &mut Ask)
        ensures { ask.new ≡ self.now.1 }
    {
        self.record.read_ask(ask);
    }
}
