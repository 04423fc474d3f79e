//! Steps at a port's link that is judged by itself: a beat is judged, and then it is taken.
ghost use Rattle.std.specs.Prelude.{◌≡◌, ◌≤◌, ◌⊎◌, ◌∷◌, ℕ, List, length, if◌then◌else◌, Some, None, IsTrue, IfOk, OnOk, OnErr, IsSomeAnd, IfNone};
ghost use Rattle.check_beats.specs.Form.{FitsAsk, FitsReply};
ghost use Rattle.check_beats.specs.State.{ask_of, ends_ask, ends_reply, first_ask, first_reply};
ghost use Rattle.check_flight.specs.Flight.Turn.{Asked};
ghost use Rattle.check_flight.specs.Flight.{flight_due};
ghost use Rattle.check_flight.specs.PortSlave.{accepting, answering, due_accepting, due_answering, may_need_to_accept};
ghost use Rattle.check_watch.specs.declared.beat.Beat.TheVariants.{A, D};
ghost use Rattle.check_watch.specs.declared.beat.Link.TheVariants.{Port};
ghost use Rattle.check_watch.specs.Lawful.{IsLawfulGroup, seen_in_group};
ghost use Rattle.check_watch.specs.Plan.{Layout, Plan, Sighting, seen_at};
ghost use Rattle.check_watch.specs.Scene.{ask_by, ended_by};
ghost use Rattle.check_watch.specs.View.{FitsBeat};
ghost use Rattle.check_sides.specs.Flights.{IsChanged, IsPut, flight_kept};
ghost use Rattle.check_sides.specs.Steps.{IsAloneStep, IsAloneTake, MayNeedAlone};
ghost use Rattle.check_sides.specs.View.{Beyond, IsAfter, IsOwnPort, KeepsPort, MayNeedToAnswer, answered_in};

use crate::port::PortLink;
use check_beats::{AskHead, LinkRules, ReplyHead};
use check_watch::{Beat, Ended, Seen, StepError};
use std::alloc::{AllocError, Global};
use tl_map::AddressMap;

impl PortLink {
    /// The request that a beat ends is in flight from then on, and the slave accepts it. If there is no memory, nothing is
    /// changed.
    fn accept(
        &mut self,
        alloc: Global,
        port: usize,
        beat: &AskHead,
        lanes: &[u8],
    ) -> Result<(), AllocError>
        requires fits { FitsAsk self.old.under.bus (first_ask self.old.under.asking) beat.now }
        requires ends { IsTrue (ends_ask self.old.under.bus self.old.under.asking beat.now) }
        requires lanes { self.old.under.bus ≤ length lanes.now }
        ensures under { self.new.under ≡ self.old.under }
        ensures flight { let ask = ask_of self.old.under.bus self.old.under.asking beat.now lanes.now in
            OnOk result (IsPut self.old.flights self.new.flights beat.now.source
            (record { turn = Asked port ask; due = due_accepting port self.old.slave (Some ask) })) }
        ensures slave { let ask = ask_of self.old.under.bus self.old.under.asking beat.now lanes.now in
            OnOk result (self.new.slave ≡ accepting self.old.slave beat.now.source (Some ask)) }
        ensures needed { let ask = ask_of self.old.under.bus self.old.under.asking beat.now lanes.now in
            OnErr result ((flight_kept self.old.flights beat.now.source ≡ None)
            ⊎ IsTrue (may_need_to_accept self.old.slave ask)) }
        ensures err { OnErr result (self.new ≡ self.old) }
    {
        let _source = beat.source;
        self.flights
            .accept(alloc, port, &self.under, beat, lanes, &mut self.slave)
    }

    /// Takes a beat of a request: what it ends. If there is no memory, nothing is changed.
    fn admit_ask(
        &mut self,
        alloc: Global,
        port: usize,
        beat: &AskHead,
        lanes: &[u8],
    ) -> Result<Ended, AllocError>
        requires fits { FitsAsk self.old.under.bus (first_ask self.old.under.asking) beat.now }
        requires lanes { self.old.under.bus ≤ length lanes.now }
        ensures after { (layout : Layout) (beyond : Beyond) (known : ℕ)
            → OnOk result (IsAfter layout port beyond self.old self.new (A beat.now) known lanes.now) }
        ensures ends { let under = self.old.under in
            IfOk result (λ e. e ≡ (if ends_ask under.bus under.asking beat.now then Ended.Ask else Ended.Part)) }
        ensures needed { OnErr result ((flight_kept self.old.flights beat.now.source ≡ None)
            ⊎ IsSomeAnd (ask_by self.old.under beat.now lanes.now)
            (λ ask. IsTrue (may_need_to_accept self.old.slave ask))) }
        ensures err { OnErr result (self.new ≡ self.old) }
        ensures bus { self.new.under.bus ≡ self.old.under.bus }
    {
        let source = beat.source;
        if !self.under.ends_ask(beat) {
            self.flights.begin(source, port)?;
            self.under.take_ask_part(beat, lanes);
            return Ok(Ended::Part);
        }
        self.accept(alloc, port, beat, lanes)?;
        self.under.take_ask_end();
        Ok(Ended::Ask)
    }

    /// The slave answers the request in flight of a source, if its reply begins. If there is no memory, nothing is changed.
    fn answer_first(&mut self, alloc: Global, port: usize, source: u16) -> Result<(), AllocError>
        ensures under { self.new.under ≡ self.old.under }
        ensures flight { OnOk result (IsChanged self.old.flights self.new.flights source (λ flight.
            flight_due flight (due_answering port self.old.slave source (answered_in self.old source)))) }
        ensures slave { OnOk result
            (self.new.slave ≡ answering self.old.slave source (answered_in self.old source)) }
        ensures needed { OnErr result (MayNeedToAnswer self.old source) }
        ensures err { OnErr result (self.new ≡ self.old) }
    {
        if self.under.begins_reply() {
            return self.flights.answer(alloc, source, port, &mut self.slave);
        }
        Ok(())
    }

    /// Takes a beat of a reply: what it ends. If there is no memory, nothing is changed.
    fn admit_reply(
        &mut self,
        alloc: Global,
        port: usize,
        beat: &ReplyHead,
        known: u64,
        lanes: &[u8],
    ) -> Result<Ended, AllocError>
        requires fits { FitsReply (first_reply self.old.under.replying) beat.now }
        requires lanes { self.old.under.bus ≤ length lanes.now }
        ensures after { (layout : Layout) (beyond : Beyond)
            → OnOk result (IsAfter layout port beyond self.old self.new (D beat.now) known lanes.now) }
        ensures ends { let under = self.old.under in
            IfOk result (λ e. e ≡ (if ends_reply under.bus under.replying beat.now then Ended.Reply else Ended.Part)) }
        ensures needed { OnErr result (MayNeedToAnswer self.old beat.now.source) }
        ensures err { OnErr result (self.new ≡ self.old) }
        ensures bus { self.new.under.bus ≡ self.old.under.bus }
    {
        let source = beat.source;
        self.answer_first(alloc, port, source)?;
        if !self.under.ends_reply(beat) {
            self.under.take_reply_part(beat, known, lanes);
            return Ok(Ended::Part);
        }
        self.under.take_reply_end();
        self.flights.clear(source);
        Ok(Ended::Reply)
    }

    /// Takes one beat more, which is lawful: what it ends. If there is no memory, nothing is changed.
    fn admit(
        &mut self,
        alloc: Global,
        port: usize,
        beat: &Beat,
        known: u64,
        lanes: &[u8],
    ) -> Result<Ended, AllocError>
        requires fits { FitsBeat self.old.under beat.now }
        requires lanes { self.old.under.bus ≤ length lanes.now }
        ensures keeps { (plan : Plan) (past : List Sighting) → KeepsPort plan port past self.old
            → IsLawfulGroup plan (seen_at (Port port) beat.now known lanes.now ∷ past)
            → OnOk result
            (KeepsPort plan port (seen_at (Port port) beat.now known lanes.now ∷ past) self.new) }
        ensures ended { (plan : Plan) (past : List Sighting) → KeepsPort plan port past self.old
            → IsLawfulGroup plan (seen_at (Port port) beat.now known lanes.now ∷ past)
            → IfOk result (λ e.
            e ≡ ended_by (seen_in_group plan past (seen_at (Port port) beat.now known lanes.now))) }
        ensures needed { (plan : Plan) (past : List Sighting) → KeepsPort plan port past self.old
            → IsLawfulGroup plan (seen_at (Port port) beat.now known lanes.now ∷ past)
            → OnErr result (MayNeedAlone plan past (seen_at (Port port) beat.now known lanes.now)) }
        ensures err { OnErr result (self.new ≡ self.old) }
        ensures bus { self.new.under.bus ≡ self.old.under.bus }
    {
        match beat {
            Beat::A(beat) => self.admit_ask(alloc, port, beat, lanes),
            Beat::D(beat) => self.admit_reply(alloc, port, beat, known, lanes),
        }
    }

    /// Takes one beat more, if it is lawful: what it ends. `None` says that it is not. Then nothing changes, nor if
    /// memory is refused.
    pub fn take(
        &mut self,
        alloc: Global,
        port: usize,
        rules: LinkRules,
        map: &AddressMap,
        beat: &Beat,
        known: u64,
        lanes: &[u8],
    ) -> Result<Option<Ended>, AllocError>
        requires lanes { self.old.under.bus ≤ length lanes.now }
        ensures taken { (plan : Plan) (past : List Sighting) → IsOwnPort plan.layout rules map.now
            → KeepsPort plan port past self.old
            → IsAloneTake plan port past (seen_at (Port port) beat.now known lanes.now) self.new result }
        ensures none { IfOk result (λ end. IfNone end (self.new ≡ self.old)) }
        ensures err { OnErr result (self.new ≡ self.old) }
        ensures bus { self.new.under.bus ≡ self.old.under.bus }
    {
        if let Some(_reason) = self.reason(port, rules, map, beat, known, lanes) {
            return Ok(None);
        }
        let ended = self.admit(alloc, port, beat, known, lanes)?;
        Ok(Some(ended))
    }

    /// Judges one beat more: what it ends, or its first fault. An `Err` changes nothing.
    pub fn step(
        &mut self,
        alloc: Global,
        port: usize,
        rules: LinkRules,
        map: &AddressMap,
        beat: &Beat,
        known: u64,
        lanes: &[u8],
    ) -> Result<Seen, StepError>
        requires lanes { self.old.under.bus ≤ length lanes.now }
        ensures judged { (plan : Plan) (past : List Sighting) → IsOwnPort plan.layout rules map.now
            → KeepsPort plan port past self.old
            → IsAloneStep plan port past (seen_at (Port port) beat.now known lanes.now) self.new result }
        ensures err { OnErr result (self.new ≡ self.old) }
        ensures bus { self.new.under.bus ≡ self.old.under.bus }
    {
        if let Some(reason) = self.reason(port, rules, map, beat, known, lanes) {
            let fault = self.fault(port, rules, beat, known, lanes, reason);
            return Err(StepError::Unlawful(fault));
        }
        let seen = self.seen(port, beat, known, lanes);
        match self.admit(alloc, port, beat, known, lanes) {
            Ok(_ended) => Ok(seen),
            Err(_refused) => Err(StepError::Memory),
        }
    }
}
