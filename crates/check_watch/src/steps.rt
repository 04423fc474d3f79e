//! Steps: a beat is judged, and then it is taken.
ghost use Rattle.std.specs.Prelude.{◌≡◌, ◌<◌, ◌≤◌, ◌∷◌, List, length, if◌then◌else◌, false, Some, None, IsTrue, IfOk, OnOk, OnErr, IfErr, IsSomeAnd, IfNone, IfSome};
ghost use Rattle.check_beats.specs.Form.{FitsAsk, FitsReply};
ghost use Rattle.check_beats.specs.State.{ask_of, ends_ask, ends_reply, first_ask, first_reply};
ghost use Rattle.check_flight.specs.Flight.Turn.{Asking, Asked};
ghost use Rattle.check_flight.specs.Flight.{asked, idle};
ghost use Rattle.check_flight.specs.PortSlave.{due_accepting, due_answering, may_need_to_accept, may_need_to_answer};
ghost use Rattle.check_flight.specs.Side.{ask_crossed, ask_ended, flight_at, reply_ended, side_due, side_with};
ghost use Rattle.check_watch.specs.declared.beat.Beat.TheVariants.{A, D};
ghost use Rattle.check_watch.specs.Lawful.{IsLawfulGroup, GroupMayNeedMemory, IsFirstReason, IsFirstGroupFault, seen_in_group};
ghost use Rattle.check_watch.specs.Past.{slave_at};
ghost use Rattle.check_watch.specs.Plan.{Plan, Sighting, link_number, HasLink, IsGroupLink, bus_of, seen_at};
ghost use Rattle.check_watch.specs.Scene.{ask_by, ended_by};
ghost use Rattle.check_watch.specs.Steps.{IsGroupStep, IsGroupTake};
ghost use Rattle.check_watch.specs.View.{IsPlace, MayNeedToAccept, MayNeedToAnswer, wides_in, KeepsGroup, own_side, under_in, flight_in, captured_in, crossings_asked, crossings_given, crossings_replied, slaves_answering, with_side, with_message, with_ask, with_late, with_part, with_end, with_reply};

use crate::asks::judge_ask;
use crate::beat::{Beat, Link};
use crate::fault::{Fault, Reason, StepError, fault_of};
use crate::replies::{judge_reply, seen_reply, wrong_reply};
use crate::seen::{Ended, Seen};
use crate::watch::GroupWatch;
use check_beats::{AskHead, ReplyHead};
use check_cells::Pattern;
use check_flight::FlightPlace;
use std::alloc::{AllocError, Global};

impl GroupWatch {
    /// A beat of a request crosses at a link that does not end it.
    fn begin_ask(&mut self, link: Link, place: FlightPlace, beat: &AskHead, lanes: &[u8])
        requires known { HasLink self.old.layout link }
        requires at { place.link ≡ link_number link }
        requires wide { place.wide < wides_in self.old }
        requires fits { let under = under_in self.old link in FitsAsk under.bus (first_ask under.asking) beat.now }
        requires goes_on { let under = under_in self.old link in ends_ask under.bus under.asking beat.now ≡ false }
        requires lanes { (under_in self.old link).bus ≤ length lanes.now }
        ensures { self.new ≡ with_message self.old link place.wide place.port
            (ask_crossed (under_in self.old link) beat.now lanes.now)
            (record { turn = Asking (link_number link); due = None }) None }
    {
        match link {
            Link::Master(_) => self.masters.begin_ask(place, beat, lanes),
            Link::Port(_) => self.ports.begin_ask(place, beat, lanes),
        }
    }

    /// A beat of a request crosses at a link that ends it, and no slave accepts it there.
    fn end_ask(&mut self, link: Link, place: FlightPlace, beat: &AskHead, lanes: &[u8])
        requires known { HasLink self.old.layout link }
        requires at { place.link ≡ link_number link }
        requires wide { place.wide < wides_in self.old }
        requires fits { let under = under_in self.old link in FitsAsk under.bus (first_ask under.asking) beat.now }
        requires ends { let under = under_in self.old link in IsTrue (ends_ask under.bus under.asking beat.now) }
        requires lanes { (under_in self.old link).bus ≤ length lanes.now }
        ensures { let under = under_in self.old link in
            self.new ≡ with_message self.old link place.wide place.port (ask_ended under) (record {
              turn = Asked (link_number link) (ask_of under.bus under.asking beat.now lanes.now);
              due = None;
            }) None }
    {
        match link {
            Link::Master(_) => self.masters.end_ask(place, beat, lanes),
            Link::Port(_) => self.ports.end_ask(place, beat, lanes),
        }
    }

    /// A beat of a request crosses at a link that ends it, and the slave of its port accepts it there. If there is no
    /// memory, nothing is changed.
    fn accept(
        &mut self,
        alloc: Global,
        link: Link,
        place: FlightPlace,
        beat: &AskHead,
        lanes: &[u8],
    ) -> Result<(), AllocError>
        requires known { HasLink self.old.layout link }
        requires at { place.link ≡ link_number link }
        requires wide { place.wide < wides_in self.old }
        requires port { place.port < length self.old.slaves }
        requires fits { let under = under_in self.old link in FitsAsk under.bus (first_ask under.asking) beat.now }
        requires ends { let under = under_in self.old link in IsTrue (ends_ask under.bus under.asking beat.now) }
        requires lanes { (under_in self.old link).bus ≤ length lanes.now }
        ensures after { let under = under_in self.old link in
            let slave = slave_at self.old.slaves place.port in
            let ask = ask_of under.bus under.asking beat.now lanes.now in
            OnOk result (self.new ≡ with_message self.old link place.wide place.port (ask_ended under) (record {
              turn = Asked (link_number link) ask;
              due = due_accepting place.port slave (Some ask);
            }) (Some ask)) }
        ensures needed { let under = under_in self.old link in
            let ask = ask_of under.bus under.asking beat.now lanes.now in
            OnErr result (IsTrue (may_need_to_accept (slave_at self.old.slaves place.port) ask)) }
        ensures err { OnErr result (self.new ≡ self.old) }
    {
        let slave = &mut self.slaves[place.port];
        match link {
            Link::Master(_) => self.masters.accept(alloc, place, beat, lanes, slave),
            Link::Port(_) => self.ports.accept(alloc, place, beat, lanes, slave),
        }
    }

    /// Notes how far a request has come across, a beat of which crosses at a link, and ends it or not.
    fn note_ask(&mut self, link: Link, wide: usize, ends: bool)
        requires { wide < wides_in self.old }
        ensures { self.new ≡ record self.old { crossings = crossings_asked self.old.crossings link wide ends } }
    {
        match link {
            Link::Master(_) => self.crossings[wide].wait(),
            Link::Port(_) => {
                if ends {
                    self.crossings[wide].cross();
                }
            }
        }
    }

    /// Takes a beat of a request: what it ends. If there is no memory, nothing is changed.
    fn admit_ask(
        &mut self,
        alloc: Global,
        link: Link,
        place: FlightPlace,
        beat: &AskHead,
        lanes: &[u8],
    ) -> Result<Ended, AllocError>
        requires known { HasLink self.old.layout link }
        requires at { place.link ≡ link_number link }
        requires wide { place.wide < wides_in self.old }
        requires port { place.port < length self.old.slaves }
        requires fits { let under = under_in self.old link in FitsAsk under.bus (first_ask under.asking) beat.now }
        requires lanes { (under_in self.old link).bus ≤ length lanes.now }
        ensures after { OnOk result (self.new ≡ with_ask self.old link place.wide place.port beat.now lanes.now) }
        ensures ends { let under = under_in self.old link in
            IfOk result (λ e. e ≡ (if ends_ask under.bus under.asking beat.now then Ended.Ask else Ended.Part)) }
        ensures needed { OnErr result
            (MayNeedToAccept self.old link place.port (ask_by (under_in self.old link) beat.now lanes.now)) }
        ensures err { OnErr result (self.new ≡ self.old) }
    {
        let ends = self.link(link).ends_ask(beat);
        if !ends {
            self.begin_ask(link, place, beat, lanes);
        } else if self.takes_effect(link, place.port) {
            self.accept(alloc, link, place, beat, lanes)?;
        } else {
            self.end_ask(link, place, beat, lanes);
        }
        self.note_ask(link, place.wide, ends);
        Ok(Ended::of_ask(ends))
    }

    /// The slave of the port answers the request in flight of a wide source, as its reply begins at a link.
    fn answer(&mut self, alloc: Global, link: Link, place: FlightPlace) -> Result<(), AllocError>
        requires wide { place.wide < wides_in self.old }
        requires port { place.port < length self.old.slaves }
        ensures after { let slave = slave_at self.old.slaves place.port in
            let ask = asked (flight_in self.old link place.wide).turn in
            OnOk result (self.new ≡ record (with_side self.old link
            (side_due (own_side self.old link) place.wide (due_answering place.port slave place.wide ask))) {
              slaves = slaves_answering self.old.slaves place.port place.wide ask;
            }) }
        ensures needed { let slave = slave_at self.old.slaves place.port in
            let ask = asked (flight_in self.old link place.wide).turn in
            OnErr result (IsSomeAnd ask (λ ask. IsTrue (may_need_to_answer slave ask))) }
        ensures err { OnErr result (self.new ≡ self.old) }
    {
        self.sized();
        let slave = &mut self.slaves[place.port];
        match link {
            Link::Master(_) => self.masters.answer(alloc, place, slave),
            Link::Port(_) => self.ports.answer(alloc, place, slave),
        }
    }

    /// The slave of the port answers the request in flight of a wide source, if its reply begins at a link. Where there is
    /// no memory, nothing is changed.
    fn answer_first(
        &mut self,
        alloc: Global,
        link: Link,
        place: FlightPlace,
    ) -> Result<(), AllocError>
        requires known { HasLink self.old.layout link }
        requires wide { place.wide < wides_in self.old }
        requires port { place.port < length self.old.slaves }
        ensures after { OnOk result (self.new ≡ with_late self.old link place.wide place.port) }
        ensures layout { self.new.layout ≡ self.old.layout }
        ensures under { under_in self.new link ≡ under_in self.old link }
        ensures wides { wides_in self.new ≡ wides_in self.old }
        ensures needed { OnErr result (MayNeedToAnswer self.old link place.wide place.port) }
        ensures err { OnErr result (self.new ≡ self.old) }
    {
        if self.is_answering(link, place.port) {
            self.answer(alloc, link, place)?;
        }
        Ok(())
    }

    /// A beat of a reply crosses at a link that does not end it.
    fn take_part(&mut self, link: Link, beat: &ReplyHead, known: u64, lanes: &[u8])
        requires known { HasLink self.old.layout link }
        requires fits { FitsReply (first_reply (under_in self.old link).replying) beat.now }
        requires goes_on { let under = under_in self.old link in
            ends_reply under.bus under.replying beat.now ≡ false }
        requires lanes { (under_in self.old link).bus ≤ length lanes.now }
        ensures { self.new ≡ with_part self.old link beat.now known lanes.now }
    {
        match link {
            Link::Master(number) => self.masters.take_reply(number, beat, known, lanes),
            Link::Port(number) => self.ports.take_reply(number, beat, known, lanes),
        }
    }

    /// The port gives this captured reply to what is in flight there of a wide source, if one is due.
    fn note_given(&mut self, wide: usize, reply: &Pattern)
        requires { wide < wides_in self.old }
        ensures { self.new ≡ record self.old {
          crossings = crossings_given self.old.crossings wide (flight_at self.old.ports.flights wide).due reply.now;
        } }
    {
        self.sized();
        if let Some(due) = self.ports.flight(wide).due() {
            self.crossings[wide].give(due, reply);
        }
    }

    /// Notes the captured reply that a beat ends at a link, if the link is a port's.
    fn note_reply(&mut self, link: Link, wide: usize, beat: &ReplyHead, known: u64, lanes: &[u8])
        requires known { HasLink self.old.layout link }
        requires wide { wide < wides_in self.old }
        requires fits { FitsReply (first_reply (under_in self.old link).replying) beat.now }
        requires ends { let under = under_in self.old link in IsTrue (ends_reply under.bus under.replying beat.now) }
        requires lanes { (under_in self.old link).bus ≤ length lanes.now }
        ensures { self.new ≡ record self.old {
          crossings = crossings_replied self.old.crossings link wide (flight_in self.old link wide).due
              (captured_in self.old link wide beat.now known lanes.now);
        } }
    {
        match link {
            Link::Master(_) => {}
            Link::Port(_) => {
                let mut reply = Pattern::blank();
                self.capture(link, wide, beat, known, lanes, &mut reply);
                self.note_given(wide, &reply);
            }
        }
    }

    /// Nothing is in flight any more of a wide source, and no reply under way, at a link.
    fn end_reply(&mut self, link: Link, place: FlightPlace)
        requires known { HasLink self.old.layout link }
        requires at { place.link ≡ link_number link }
        requires wide { place.wide < wides_in self.old }
        ensures { self.new ≡ with_side self.old link (side_with (own_side self.old link) (link_number link)
            (reply_ended (under_in self.old link)) place.wide idle) }
    {
        match link {
            Link::Master(_) => self.masters.end_reply(place),
            Link::Port(_) => self.ports.end_reply(place),
        }
    }

    /// A beat of a reply crosses at a link that ends it.
    fn take_end(
        &mut self,
        link: Link,
        place: FlightPlace,
        beat: &ReplyHead,
        known: u64,
        lanes: &[u8],
    )
        requires known { HasLink self.old.layout link }
        requires at { place.link ≡ link_number link }
        requires wide { place.wide < wides_in self.old }
        requires fits { FitsReply (first_reply (under_in self.old link).replying) beat.now }
        requires ends { let under = under_in self.old link in IsTrue (ends_reply under.bus under.replying beat.now) }
        requires lanes { (under_in self.old link).bus ≤ length lanes.now }
        ensures { self.new ≡ with_end self.old link place.wide beat.now known lanes.now }
    {
        self.note_reply(link, place.wide, beat, known, lanes);
        self.end_reply(link, place);
    }

    /// Takes a beat of a reply: what it ends. If there is no memory, nothing is changed.
    fn admit_reply(
        &mut self,
        alloc: Global,
        link: Link,
        place: FlightPlace,
        beat: &ReplyHead,
        known: u64,
        lanes: &[u8],
    ) -> Result<Ended, AllocError>
        requires known { HasLink self.old.layout link }
        requires at { place.link ≡ link_number link }
        requires wide { place.wide < wides_in self.old }
        requires port { place.port < length self.old.slaves }
        requires fits { FitsReply (first_reply (under_in self.old link).replying) beat.now }
        requires lanes { (under_in self.old link).bus ≤ length lanes.now }
        ensures after { OnOk result
            (self.new ≡ with_reply self.old link place.wide place.port beat.now known lanes.now) }
        ensures ends { let under = under_in self.old link in
            IfOk result (λ e. e ≡ (if ends_reply under.bus under.replying beat.now then Ended.Reply else Ended.Part)) }
        ensures needed { OnErr result (MayNeedToAnswer self.old link place.wide place.port) }
        ensures err { OnErr result (self.new ≡ self.old) }
    {
        let ends = self.link(link).ends_reply(beat);
        self.answer_first(alloc, link, place)?;
        if ends {
            self.take_end(link, place, beat, known, lanes);
        } else {
            self.take_part(link, beat, known, lanes);
        }
        Ok(Ended::of_reply(ends))
    }

    /// The first reason why one beat more is not lawful, at a link that is watched; `None` if it is lawful. What is kept
    /// stays.
    pub fn reason(&self, link: Link, beat: &Beat, known: u64, lanes: &[u8]) -> Option<Reason>
        requires known { HasLink self.now.layout link }
        requires lanes { bus_of self.now.layout link ≤ length lanes.now }
        ensures reason { (plan : Plan) (past : List Sighting) → KeepsGroup plan past self.now
            → IfSome result (IsFirstReason plan past (seen_at link beat.now known lanes.now)) }
        ensures allowed { (plan : Plan) (past : List Sighting) → KeepsGroup plan past self.now
            → IfNone result (IsLawfulGroup plan (seen_at link beat.now known lanes.now ∷ past)) }
    {
        match self.judge(link, beat, known, lanes) {
            Ok(_place) => None,
            Err(reason) => Some(reason),
        }
    }

    /// Judges one beat more, at a link that is watched: its place, or the first reason why it is not lawful.
    fn judge(
        &self,
        link: Link,
        beat: &Beat,
        known: u64,
        lanes: &[u8],
    ) -> Result<FlightPlace, Reason>
        requires known { HasLink self.now.layout link }
        requires lanes { bus_of self.now.layout link ≤ length lanes.now }
        ensures reason { (plan : Plan) (past : List Sighting) → KeepsGroup plan past self.now
            → IfErr result (IsFirstReason plan past (seen_at link beat.now known lanes.now)) }
        ensures allowed { (plan : Plan) (past : List Sighting) → KeepsGroup plan past self.now
            → OnOk result (IsLawfulGroup plan (seen_at link beat.now known lanes.now ∷ past)) }
        ensures place { IfOk result (IsPlace self.now link beat.now) }
    {
        self.sized();
        match beat {
            Beat::A(beat) => judge_ask(self, link, beat, known, lanes),
            Beat::D(beat) => judge_reply(self, link, beat, known, lanes),
        }
    }

    /// Takes one beat more, which is lawful and has this place: what it ends. If there is no memory, nothing is changed.
    fn admit(
        &mut self,
        alloc: Global,
        link: Link,
        place: FlightPlace,
        beat: &Beat,
        known: u64,
        lanes: &[u8],
    ) -> Result<Ended, AllocError>
        requires known { HasLink self.old.layout link }
        requires lanes { bus_of self.old.layout link ≤ length lanes.now }
        requires place { IsPlace self.old link beat.now place }
        ensures keeps { (plan : Plan) (past : List Sighting) → KeepsGroup plan past self.old
            → IsLawfulGroup plan (seen_at link beat.now known lanes.now ∷ past)
            → OnOk result (KeepsGroup plan (seen_at link beat.now known lanes.now ∷ past) self.new) }
        ensures ended { (plan : Plan) (past : List Sighting) → KeepsGroup plan past self.old
            → IsLawfulGroup plan (seen_at link beat.now known lanes.now ∷ past)
            → IfOk result (λ e. e ≡ ended_by (seen_in_group plan past (seen_at link beat.now known lanes.now))) }
        ensures needed { (plan : Plan) (past : List Sighting) → KeepsGroup plan past self.old
            → IsLawfulGroup plan (seen_at link beat.now known lanes.now ∷ past)
            → OnErr result (GroupMayNeedMemory plan past (seen_at link beat.now known lanes.now)) }
        ensures err { OnErr result (self.new ≡ self.old) }
        ensures layout { self.new.layout ≡ self.old.layout }
    {
        self.sized();
        match beat {
            Beat::A(beat) => self.admit_ask(alloc, link, place, beat, lanes),
            Beat::D(beat) => self.admit_reply(alloc, link, place, beat, known, lanes),
        }
    }

    /// What a beat of this place ends, if it is lawful.
    fn seen(&self, link: Link, place: FlightPlace, beat: &Beat, known: u64, lanes: &[u8]) -> Seen
        requires known { HasLink self.now.layout link }
        requires lanes { bus_of self.now.layout link ≤ length lanes.now }
        requires place { IsPlace self.now link beat.now place }
        ensures { (plan : Plan) (past : List Sighting) → KeepsGroup plan past self.now
            → result ≡ seen_in_group plan past (seen_at link beat.now known lanes.now) }
    {
        self.sized();
        match beat {
            Beat::A(beat) => {
                if self.link(link).ends_ask(beat) {
                    Seen::WholeAsk
                } else {
                    Seen::Part
                }
            }
            Beat::D(beat) => seen_reply(self, link, place, beat, known, lanes),
        }
    }

    /// The fault that a beat has for this first reason.
    fn fault(&self, link: Link, beat: &Beat, known: u64, lanes: &[u8], reason: Reason) -> Fault
        requires known { HasLink self.now.layout link }
        requires lanes { bus_of self.now.layout link ≤ length lanes.now }
        ensures { (plan : Plan) (past : List Sighting) → KeepsGroup plan past self.now
            → IsFirstReason plan past (seen_at link beat.now known lanes.now) reason
            → IsFirstGroupFault plan past (seen_at link beat.now known lanes.now) result }
    {
        self.sized();
        match reason {
            Reason::WrongReply => match beat {
                Beat::A(_) => Fault::NotGiven,
                Beat::D(beat) => wrong_reply(self, link, beat, known, lanes),
            },
            _ => fault_of(reason),
        }
    }

    /// Takes one beat more, at a link that is watched, if it is lawful: what it ends. `None` says that it is not. Then
    /// nothing changes, nor if memory is refused to a lawful one, with which a port's slave may need some. There are as many
    /// lanes as the link's bus has, or more; those past the bus are not looked at.
    ///
    /// It costs less than [`GroupWatch::step`], which makes the fault or the reply that a beat ends, too.
    pub fn take(
        &mut self,
        alloc: Global,
        link: Link,
        beat: &Beat,
        known: u64,
        lanes: &[u8],
    ) -> Result<Option<Ended>, AllocError>
        requires known { HasLink self.old.layout link }
        requires watched { IsGroupLink self.old.layout link }
        requires lanes { bus_of self.old.layout link ≤ length lanes.now }
        ensures taken { (plan : Plan) (past : List Sighting) → KeepsGroup plan past self.old
            → IsGroupTake plan past (seen_at link beat.now known lanes.now) self.new result }
        ensures none { IfOk result (λ end. IfNone end (self.new ≡ self.old)) }
        ensures err { OnErr result (self.new ≡ self.old) }
        ensures layout { self.new.layout ≡ self.old.layout }
    {
        let place = match self.judge(link, beat, known, lanes) {
            Ok(place) => place,
            Err(_reason) => return Ok(None),
        };
        let ended = self.admit(alloc, link, place, beat, known, lanes)?;
        Ok(Some(ended))
    }

    /// Judges one beat more, at a link that is watched: what it ends, or its first fault. An `Err` changes nothing, and
    /// [`StepError::Memory`] says that the beat is lawful, and that a port's slave may need memory with it. There are as many
    /// lanes as the link's bus has, or more; those past the bus are not looked at.
    pub fn step(
        &mut self,
        alloc: Global,
        link: Link,
        beat: &Beat,
        known: u64,
        lanes: &[u8],
    ) -> Result<Seen, StepError>
        requires known { HasLink self.old.layout link }
        requires watched { IsGroupLink self.old.layout link }
        requires lanes { bus_of self.old.layout link ≤ length lanes.now }
        ensures judged { (plan : Plan) (past : List Sighting) → KeepsGroup plan past self.old
            → IsGroupStep plan past (seen_at link beat.now known lanes.now) self.new result }
        ensures err { OnErr result (self.new ≡ self.old) }
        ensures layout { self.new.layout ≡ self.old.layout }
    {
        let place = match self.judge(link, beat, known, lanes) {
            Ok(place) => place,
            Err(reason) => {
                return Err(StepError::Unlawful(self.fault(link, beat, known, lanes, reason)));
            }
        };
        let seen = self.seen(link, place, beat, known, lanes);
        match self.admit(alloc, link, place, beat, known, lanes) {
            Ok(_ended) => Ok(seen),
            Err(_refused) => Err(StepError::Memory),
        }
    }
}
