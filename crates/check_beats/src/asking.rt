//! The request that is under way at a link.
ghost use Rattle.std.specs.Prelude.{◌≡◌, ◌≤◌, ◌↔◌, None, false, length, IsTrue, IfSome, IfNone};
ghost use Rattle.check_beats.specs.Bus.{bus_bytes};
ghost use Rattle.check_beats.specs.Form.{FitsAsk, IsKnown, IsFirstAskFormFault};
ghost use Rattle.check_beats.specs.Rules.{IsAlignedBy, IsAskMarkedBy};
ghost use Rattle.check_beats.specs.State.{first_ask, asked_beats, ends_ask, ask_of, ask_after, ask_so_far};

use crate::ask::{ask_beats, ask_fault, next_ask_fault, op_of, put_ask};
use crate::beat::AskHead;
use crate::bus::Bus;
use crate::fault::FormFault;
use crate::lanes::push_shown;
use crate::rules::LinkRules;
use check_cells::{AskSoFar, Marks, Sent};
use std::alloc::AllocError;
use std::marker::Model;
use tl_types::{Bytes, MAX_BYTES};

/// Channel A of a link: what has crossed of the request that is under way.
///
/// Its bytes are gathered as they come. What a beat costs does not depend on those before it, and the room is that of
/// the longest message, whatever the bus.
#[derive(Drop)]
pub struct Asking {
    bus: Bus,
    first: Option<AskHead>,
    beats: usize,
    bytes: Bytes,
    marks: Marks,
}

impl Model for Asking {
    ghost use Rattle.check_beats.specs.Bus.{bus_bytes};
    ghost use Rattle.check_beats.specs.State.{AskChannel, ask_begun};
    ghost use Rattle.check_beats.specs.Begun.{IsAskKept};

    ghost Value = { AskChannel };

    ghost view = { λ a. record { bus = bus_bytes a.bus; begun = ask_begun a.first a.beats a.bytes a.marks } };

    ghost invariant = { λ a. IsAskKept (bus_bytes a.bus) (ask_begun a.first a.beats a.bytes a.marks) };
}

impl Clone for Asking {
    ghost use Rattle.std.specs.Prelude.{◌≡◌};

    ghost is_clone = { λ asking copy. copy ≡ asking };

    fn clone(&self) -> Result<Asking, AllocError> {
        Ok(Asking {
            bus: self.bus,
            first: self.first,
            beats: self.beats,
            bytes: self.bytes.copy(),
            marks: self.marks.copy(),
        })
    }
}

impl Asking {
    /// No request is under way on a bus.
    pub fn new(bus: Bus) -> Asking
        ensures { result ≡ record { bus = bus_bytes bus; begun = None } }
    {
        Asking {
            bus,
            first: None,
            beats: 0,
            bytes: Bytes::new(),
            marks: Marks::new(),
        }
    }

    /// The bus.
    pub fn bus(&self) -> Bus
        ensures { bus_bytes result ≡ self.now.bus }
    {
        self.bus
    }

    /// Whether a beat is the first of its request.
    pub fn begins(&self) -> bool
        ensures { IsTrue result ↔ (self.now.begun ≡ None) }
    {
        self.first.is_none()
    }

    /// The request that is under way, as far as it has crossed.
    pub fn so_far(&self) -> Option<AskSoFar>
        ensures { result ≡ ask_so_far self.now.begun }
    {
        match &self.first {
            Some(first) => Some(AskSoFar::new(
                op_of(self.bus, first),
                first.size,
                first.source,
                first.address,
                self.bytes.copy(),
            )),
            None => None,
        }
    }

    /// How many beats have crossed of the request that is under way.
    fn count(&self) -> usize
        ensures value { result ≡ asked_beats self.now.begun }
        ensures in_limit { result ≤ MAX_BYTES }
    {
        match self.first {
            Some(_) => self.beats,
            None => 0,
        }
    }

    /// The first fault that a beat has as the next one, by these rules and by its lanes that are known.
    pub fn fault(&self, rules: LinkRules, beat: &AskHead, known: u64) -> Option<FormFault>
        ensures fault { IfSome result (IsFirstAskFormFault self.now.bus rules (first_ask self.now.begun) beat.now known) }
        ensures fits { IfNone result (FitsAsk self.now.bus (first_ask self.now.begun) beat.now) }
        ensures aligned { IfNone result (IsAlignedBy rules beat.now) }
        ensures marked { IfNone result (IsAskMarkedBy rules beat.now) }
        ensures known { IfNone result (IsKnown beat.now known) }
    {
        match &self.first {
            Some(head) => next_ask_fault(self.bus, rules, &self.first, head, beat, known),
            None => ask_fault(self.bus, rules, &self.first, beat, known),
        }
    }

    /// Whether a beat ends its request.
    pub fn ends(&self, beat: &AskHead) -> bool
        requires { FitsAsk self.now.bus (first_ask self.now.begun) beat.now }
        ensures { result ≡ ends_ask self.now.bus self.now.begun beat.now }
    {
        self.count() + 1 == ask_beats(self.bus, beat)
    }

    /// A beat crosses.
    pub fn take(&mut self, beat: &AskHead, lanes: &[u8])
        requires fits { FitsAsk self.old.bus (first_ask self.old.begun) beat.now }
        requires lanes { length lanes.now ≡ self.old.bus }
        ensures { self.new ≡ record self.old {
          begun = ask_after self.old.bus self.old.begun beat.now lanes.now;
        } }
    {
        if self.ends(beat) {
            self.take_end();
        } else {
            self.take_part(beat, lanes);
        }
    }

    /// A beat crosses that does not end its request.
    pub fn take_part(&mut self, beat: &AskHead, lanes: &[u8])
        requires fits { FitsAsk self.old.bus (first_ask self.old.begun) beat.now }
        requires lanes { length lanes.now ≡ self.old.bus }
        requires goes_on { ends_ask self.old.bus self.old.begun beat.now ≡ false }
        ensures { self.new ≡ record self.old {
          begun = ask_after self.old.bus self.old.begun beat.now lanes.now;
        } }
    {
        if self.begins() {
            self.begin(beat, lanes);
        } else {
            self.go_on(beat, lanes);
        }
    }

    /// The last beat of the request crosses.
    pub fn take_end(&mut self)
        ensures { self.new ≡ record self.old { begun = None } }
    {
        self.first = None;
    }

    /// The first beat of a request of more beats than one crosses.
    fn begin(&mut self, beat: &AskHead, lanes: &[u8])
        requires fits { FitsAsk self.old.bus (first_ask self.old.begun) beat.now }
        requires lanes { length lanes.now ≡ self.old.bus }
        requires none { self.old.begun ≡ None }
        requires goes_on { ends_ask self.old.bus self.old.begun beat.now ≡ false }
        ensures { self.new ≡ record self.old {
          begun = ask_after self.old.bus self.old.begun beat.now lanes.now;
        } }
    {
        self.first = Some(*beat);
        self.beats = 1;
        self.bytes.clear();
        self.marks.clear();
        push_shown(&mut self.bytes, beat, lanes);
        self.marks.push(beat.corrupt, lanes.len());
    }

    /// A beat crosses between the first of a request and the last.
    fn go_on(&mut self, beat: &AskHead, lanes: &[u8])
        requires fits { FitsAsk self.old.bus (first_ask self.old.begun) beat.now }
        requires lanes { length lanes.now ≡ self.old.bus }
        requires some { self.old.begun ≡ None → ⊥ }
        requires goes_on { ends_ask self.old.bus self.old.begun beat.now ≡ false }
        ensures { self.new ≡ record self.old {
          begun = ask_after self.old.bus self.old.begun beat.now lanes.now;
        } }
    {
        self.beats += 1;
        push_shown(&mut self.bytes, beat, lanes);
        self.marks.push(beat.corrupt, lanes.len());
    }

    /// Puts the request that a beat ends in the place of another.
    pub fn ask_into(&self, beat: &AskHead, lanes: &[u8], sent: &mut Sent)
        requires fits { FitsAsk self.now.bus (first_ask self.now.begun) beat.now }
        requires ends { IsTrue (ends_ask self.now.bus self.now.begun beat.now) }
        requires lanes { length lanes.now ≡ self.now.bus }
        ensures { sent.new ≡ ask_of self.now.bus self.now.begun beat.now lanes.now }
    {
        // most requests are one beat: no bytes are gathered
        if self.begins() {
            put_ask(self.bus, beat, lanes, sent);
        } else {
            self.put_long(beat, lanes, sent);
        }
    }

    /// Puts the request that a beat ends, after those that have begun it, in the place of another.
    #[inline(never)]
    fn put_long(&self, beat: &AskHead, lanes: &[u8], sent: &mut Sent)
        requires fits { FitsAsk self.now.bus (first_ask self.now.begun) beat.now }
        requires ends { IsTrue (ends_ask self.now.bus self.now.begun beat.now) }
        requires lanes { length lanes.now ≡ self.now.bus }
        requires goes_on { self.now.begun ≡ None → ⊥ }
        ensures { sent.new ≡ ask_of self.now.bus self.now.begun beat.now lanes.now }
    {
        let op = op_of(self.bus, beat);
        let mut bytes = self.bytes.copy();
        push_shown(&mut bytes, beat, lanes);
        sent.ask
            .refill_from(op, beat.size, beat.source, beat.address, &bytes);
        sent.marks.refill_from(&self.marks);
        sent.marks.push(beat.corrupt, lanes.len());
    }
}
