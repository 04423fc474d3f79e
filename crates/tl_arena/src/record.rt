//! The record of a slot: a request on its way to a port, and its reply on the way back, as beats. It stays where it was
//! made, and moves from hand to hand as a pointer.
ghost use Rattle.std.specs.Prelude.{◌≡◌, ℕ, IsSome, IfOk, slice_get};
ghost use Rattle.std.specs.Prelude as std;
ghost use Rattle.tl_types.specs.Request.{Request};
ghost use Rattle.tl_types.specs.Response.{Response};
ghost use Rattle.tl_beats.specs.Beats.{HasFieldsOf};
ghost use Rattle.tl_beats.specs.Told.{told_reply};
ghost use Rattle.tl_rule.specs.Record.{Spells, SpellsAnswer};

use arrayvec::ArrayVec;
use std::alloc::{AllocError, Global};
use std::marker::Model;
use tl_beats::{
    ABeat, DBeat, MAX_BEATS, assemble_ask_into, assemble_reply_into, pack_ask_into,
    pack_reply_into, reply_byte,
};
use tl_types::{Ask, Reply};

/// The beats of a request, its port, and the place and the beats of its reply.
#[derive(Drop)]
pub(crate) struct Record {
    beats: ArrayVec<ABeat, MAX_BEATS>,
    port: usize,
    index: usize,
    replies: ArrayVec<DBeat, MAX_BEATS>,
}

impl Model for Record {
    ghost use Rattle.tl_rule.specs.Record.{SlotRecord};

    ghost Value = { SlotRecord };

    ghost view = { λ r. record { beats = r.beats.items; port = r.port; index = r.index; replies = r.replies.items } };
}

impl Record {
    /// The record of a slot that was never posted.
    fn blank() -> Record {
        Record {
            beats: ArrayVec::new(),
            port: 0,
            index: 0,
            replies: ArrayVec::new(),
        }
    }

    /// Has a request that is posted to a port.
    pub(crate) fn post(&mut self, ask: &Ask, port: usize)
        ensures spells { Spells self.new ask.now }
        ensures port { self.new.port ≡ port }
    {
        let _lawful = ask.bytes();
        pack_ask_into(ask, &mut self.beats);
        self.port = port;
    }

    /// Has the reply to its request too, which stands at this place of the port's list.
    pub(crate) fn answer(&mut self, address: u64, index: usize, reply: &Reply)
        ensures asks { (ask : Request) → Spells self.old ask → Spells self.new ask }
        ensures answers { SpellsAnswer self.new address reply.now }
        ensures index { self.new.index ≡ index }
        ensures port { self.new.port ≡ self.old.port }
    {
        let _lawful = reply.bytes();
        self.index = index;
        pack_reply_into(reply, address, &mut self.replies);
    }

    /// The first beat of the request.
    fn first(&self) -> &ABeat
        requires { (ask : Request) × Spells self.now ask }
        ensures { (ask : Request) → Spells self.now ask → HasFieldsOf ask result.now }
    {
        &self.beats[0]
    }

    /// The source of the request.
    pub(crate) fn source(&self) -> u16
        requires { (ask : Request) × Spells self.now ask }
        ensures { (ask : Request) → Spells self.now ask → result ≡ ask.source }
    {
        self.first().source
    }

    /// The address of the request.
    pub(crate) fn address(&self) -> u64
        requires { (ask : Request) × Spells self.now ask }
        ensures { (ask : Request) → Spells self.now ask → result ≡ ask.address }
    {
        self.first().address
    }

    /// Puts the request in the place of another.
    pub(crate) fn read_ask(&self, ask: &mut Ask)
        requires { (ask : Request) × Spells self.now ask }
        ensures { Spells self.now ask.new }
    {
        assemble_ask_into(&self.beats, ask).unwrap();
    }

    /// Puts the reply to the request, whose address this is, in the place of another.
    pub(crate) fn read_reply(&self, address: u64, reply: &mut Reply)
        requires { (reply : Response) × SpellsAnswer self.now address reply }
        ensures { reply.new ≡ told_reply self.now.replies address }
    {
        assemble_reply_into(&self.replies, address, reply).unwrap();
    }

    /// A byte of the reply, if there is one.
    pub(crate) fn reply_byte(&self, address: u64, place: usize) -> Option<u8>
        ensures { (reply : Response) → SpellsAnswer self.now address reply
            → result ≡ slice_get reply.bytes place }
    {
        reply_byte(&self.replies, address, place)
    }

    /// Whether the request was denied.
    pub(crate) fn is_denied(&self) -> bool
        ensures { (address : ℕ) → result ≡ (told_reply self.now.replies address).denied }
    {
        self.replies.first().is_some_and(|beat| beat.denied)
    }

    /// The place of the reply in the port's list.
    pub(crate) fn index(&self) -> usize
        ensures { result ≡ self.now.index }
    {
        self.index
    }
}

/// What a slot has of its record: the record, or nothing while somebody else holds it.
#[derive(Drop)]
pub(crate) struct Berth {
    record: Option<Box<Record>>,
}

impl Model for Berth {
    ghost use Rattle.std.specs.Prelude.{Option, option_map};
    ghost use Rattle.tl_rule.specs.Record.{SlotRecord};

    ghost Value = { Option SlotRecord };

    ghost view = { λ b. option_map (λ r. r.value) b.record };
}

impl Berth {
    /// With the record of a slot that was never posted.
    pub(crate) fn new(alloc: Global) -> Result<Berth, AllocError>
        ensures { IfOk result (λ berth. IsSome berth) }
    {
        let record = Box::new(alloc, Record::blank())?;
        Ok(Berth::of(record))
    }

    /// With this record.
    pub(crate) fn of(record: Box<Record>) -> Berth
        ensures { result ≡ std.Some record.value }
    {
        Berth {
            record: Some(record),
        }
    }

    /// Without one.
    pub(crate) fn empty() -> Berth
        ensures { result ≡ std.None }
    {
        Berth { record: None }
    }

    /// The record.
    pub(crate) fn into_record(self) -> Box<Record>
        requires { IsSome self }
        ensures { self ≡ std.Some result.value }
    {
        let Berth { record } = self;
        record.unwrap()
    }
}
