//! The reply that is under way at a link.
ghost use Rattle.std.specs.Prelude.{◌≡◌, ℕ, ◌≤◌, ◌↔◌, None, false, length, IsTrue, IfSome, IfNone};
ghost use Rattle.check_beats.specs.Bus.{bus_bytes};
ghost use Rattle.check_beats.specs.Form.{FitsReply, IsFirstReplyFormFault};
ghost use Rattle.check_beats.specs.Rules.{IsMarkedBy};
ghost use Rattle.check_beats.specs.State.{first_reply, replied_beats, ends_reply, reply_of, reply_after, replying_source};

use crate::beat::ReplyHead;
use crate::bus::Bus;
use crate::fault::FormFault;
use crate::reply::{
    is_spoiled, lawful_reply_op, next_reply_fault, push_seen, put_reply, reply_beats, reply_fault,
};
use crate::rules::LinkRules;
use check_cells::{Cells, Marks, Pattern};
use std::alloc::AllocError;
use std::marker::Model;
use tl_types::MAX_BYTES;

/// Channel D of a link: what has crossed of the reply that is under way, as far as its lanes were known.
#[derive(Drop)]
pub struct Replying {
    bus: Bus,
    first: Option<ReplyHead>,
    beats: usize,
    bytes: Cells,
    marks: Marks,
}

impl Model for Replying {
    ghost use Rattle.check_beats.specs.Bus.{bus_bytes};
    ghost use Rattle.check_beats.specs.State.{ReplyChannel, reply_begun};
    ghost use Rattle.check_beats.specs.Begun.{IsReplyKept};

    ghost Value = { ReplyChannel };

    ghost view = { λ a. record { bus = bus_bytes a.bus; begun = reply_begun a.first a.beats a.bytes a.marks } };

    ghost invariant = { λ a. IsReplyKept (bus_bytes a.bus) (reply_begun a.first a.beats a.bytes a.marks) };
}

impl Clone for Replying {
    ghost use Rattle.std.specs.Prelude.{◌≡◌};

    ghost is_clone = { λ replying copy. copy ≡ replying };

    fn clone(&self) -> Result<Replying, AllocError> {
        Ok(Replying {
            bus: self.bus,
            first: self.first,
            beats: self.beats,
            bytes: self.bytes.copy(),
            marks: self.marks.copy(),
        })
    }
}

impl Replying {
    /// No reply is under way on a bus.
    pub fn new(bus: Bus) -> Replying
        ensures { result ≡ record { bus = bus_bytes bus; begun = None } }
    {
        Replying {
            bus,
            first: None,
            beats: 0,
            bytes: Cells::new(),
            marks: Marks::new(),
        }
    }

    /// Whether a beat is the first of its reply.
    pub fn begins(&self) -> bool
        ensures { IsTrue result ↔ (self.now.begun ≡ None) }
    {
        self.first.is_none()
    }

    /// The source of the reply that is under way.
    pub fn source(&self) -> Option<u16>
        ensures { result ≡ replying_source self.now.begun }
    {
        match &self.first {
            Some(first) => Some(first.source),
            None => None,
        }
    }

    /// How many beats have crossed of the reply that is under way.
    fn count(&self) -> usize
        ensures value { result ≡ replied_beats self.now.begun }
        ensures in_limit { result ≤ MAX_BYTES }
    {
        match self.first {
            Some(_) => self.beats,
            None => 0,
        }
    }

    /// The first fault that a beat has as the next one, by these rules.
    pub fn fault(&self, rules: LinkRules, beat: &ReplyHead) -> Option<FormFault>
        ensures fault { IfSome result (IsFirstReplyFormFault rules (first_reply self.now.begun) beat.now) }
        ensures fits { IfNone result (FitsReply (first_reply self.now.begun) beat.now) }
        ensures marked { IfNone result (IsMarkedBy rules beat.now) }
    {
        match &self.first {
            Some(head) => next_reply_fault(rules, &self.first, head, beat),
            None => reply_fault(rules, &self.first, beat),
        }
    }

    /// Whether a beat ends its reply.
    pub fn ends(&self, beat: &ReplyHead) -> bool
        requires { FitsReply (first_reply self.now.begun) beat.now }
        ensures { result ≡ ends_reply self.now.bus self.now.begun beat.now }
    {
        self.count() + 1 == reply_beats(self.bus, beat)
    }

    /// A beat crosses.
    pub fn take(&mut self, beat: &ReplyHead, known: u64, lanes: &[u8])
        requires fits { FitsReply (first_reply self.old.begun) beat.now }
        requires lanes { length lanes.now ≡ self.old.bus }
        ensures { self.new ≡ record self.old {
          begun = reply_after self.old.bus self.old.begun beat.now known lanes.now;
        } }
    {
        if self.ends(beat) {
            self.take_end();
        } else {
            self.take_part(beat, known, lanes);
        }
    }

    /// A beat crosses that does not end its reply.
    pub fn take_part(&mut self, beat: &ReplyHead, known: u64, lanes: &[u8])
        requires fits { FitsReply (first_reply self.old.begun) beat.now }
        requires lanes { length lanes.now ≡ self.old.bus }
        requires goes_on { ends_reply self.old.bus self.old.begun beat.now ≡ false }
        ensures { self.new ≡ record self.old {
          begun = reply_after self.old.bus self.old.begun beat.now known lanes.now;
        } }
    {
        if self.begins() {
            self.begin(beat, known, lanes);
        } else {
            self.go_on(beat, known, lanes);
        }
    }

    /// The last beat of the reply crosses.
    pub fn take_end(&mut self)
        ensures { self.new ≡ record self.old { begun = None } }
    {
        self.first = None;
    }

    /// The first beat of a reply of more beats than one crosses.
    fn begin(&mut self, beat: &ReplyHead, known: u64, lanes: &[u8])
        requires fits { FitsReply (first_reply self.old.begun) beat.now }
        requires lanes { length lanes.now ≡ self.old.bus }
        requires none { self.old.begun ≡ None }
        requires goes_on { ends_reply self.old.bus self.old.begun beat.now ≡ false }
        ensures { self.new ≡ record self.old {
          begun = reply_after self.old.bus self.old.begun beat.now known lanes.now;
        } }
    {
        self.first = Some(*beat);
        self.beats = 1;
        self.bytes.clear();
        self.marks.clear();
        push_seen(&mut self.bytes, beat, known, lanes);
        self.marks.push(is_spoiled(beat), lanes.len());
    }

    /// A beat crosses between the first of a reply and the last.
    fn go_on(&mut self, beat: &ReplyHead, known: u64, lanes: &[u8])
        requires fits { FitsReply (first_reply self.old.begun) beat.now }
        requires lanes { length lanes.now ≡ self.old.bus }
        requires some { self.old.begun ≡ None → ⊥ }
        requires goes_on { ends_reply self.old.bus self.old.begun beat.now ≡ false }
        ensures { self.new ≡ record self.old {
          begun = reply_after self.old.bus self.old.begun beat.now known lanes.now;
        } }
    {
        self.beats += 1;
        push_seen(&mut self.bytes, beat, known, lanes);
        self.marks.push(is_spoiled(beat), lanes.len());
    }

    /// Puts the reply to a request at this address that a beat ends in the place of another.
    pub fn reply_into(
        &self,
        beat: &ReplyHead,
        address: u64,
        known: u64,
        lanes: &[u8],
        reply: &mut Pattern,
    )
        requires fits { FitsReply (first_reply self.now.begun) beat.now }
        requires ends { IsTrue (ends_reply self.now.bus self.now.begun beat.now) }
        requires lanes { length lanes.now ≡ self.now.bus }
        ensures { reply.new ≡ reply_of self.now.bus self.now.begun address beat.now known lanes.now }
    {
        // most replies are one beat: no bytes are gathered
        if self.begins() {
            put_reply(self.bus, beat, address, known, lanes, reply);
        } else {
            self.put_long(beat, known, lanes, reply);
        }
    }

    /// Puts the reply that a beat ends, after those that have begun it, in the place of another.
    // it fills the bus, whatever the address
    #[inline(never)]
    fn put_long(&self, beat: &ReplyHead, known: u64, lanes: &[u8], reply: &mut Pattern)
        requires fits { FitsReply (first_reply self.now.begun) beat.now }
        requires ends { IsTrue (ends_reply self.now.bus self.now.begun beat.now) }
        requires lanes { length lanes.now ≡ self.now.bus }
        requires goes_on { self.now.begun ≡ None → ⊥ }
        ensures { (address : ℕ) → reply.new ≡ reply_of self.now.bus self.now.begun address beat.now known lanes.now }
    {
        let op = lawful_reply_op(beat);
        reply.set_fields(op, beat.size, beat.source, Some(beat.denied));
        reply.cells.refill_from(&self.bytes);
        reply.marks.refill_from(&self.marks);
        push_seen(&mut reply.cells, beat, known, lanes);
        reply.marks.push(is_spoiled(beat), lanes.len());
    }
}
