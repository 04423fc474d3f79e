//! The judge of one port's link that is judged by itself: which beats are lawful there.
ghost use Rattle.std.specs.Prelude.{◌≡◌, ◌≤◌, ◌∷◌, ℕ, List, length, false, IsTrue, IfSome, IfNone, option_map};
ghost use Rattle.tl_map.specs.declared.range.Range.{Range};
ghost use Rattle.check_beats.specs.declared.rules.LinkRules.{LinkRules};
ghost use Rattle.check_beats.specs.Bus.{bus_bytes};
ghost use Rattle.check_beats.specs.Form.{FitsAsk, FitsReply};
ghost use Rattle.check_beats.specs.State.{ends_reply, first_ask, first_reply};
ghost use Rattle.check_flight.specs.Crossing.{Crossing};
ghost use Rattle.check_watch.specs.declared.beat.Beat.TheVariants.{A, D};
ghost use Rattle.check_watch.specs.declared.beat.Link.TheVariants.{Port};
ghost use Rattle.check_watch.specs.declared.fault.Reason.TheVariants.{WrongReply};
ghost use Rattle.check_watch.specs.Allowed.{IsAllowedAsk, IsAllowedReply, IsMust};
ghost use Rattle.check_watch.specs.Faults.{HasEndReason, IsFirstAskReason, IsFirstReplyReason, IsWrongReply};
ghost use Rattle.check_watch.specs.Lawful.{IsFirstGroupFault, IsFirstReason, IsLawfulGroup, seen_in_group};
ghost use Rattle.check_watch.specs.Plan.{Layout, Plan, Sighting, seen_at};
ghost use Rattle.check_watch.specs.Scene.{begins, seen};
ghost use Rattle.check_watch.specs.View.{FitsBeat};
ghost use Rattle.check_sides.specs.View.{Beyond, IsOwnPort, KeepsPort, captured_in, due_in, fresh_link, port_scene};

use crate::flights::Flights;
use check_beats::{AskHead, Bus, LinkRules, ReplyHead, UnderWay};
use check_cells::Pattern;
use check_flight::{Answer, PortSlave};
use check_watch::{Beat, Fault, Reason, Seen, SeenEntry, answer_reason, due_reason, fault_of};
use std::alloc::{AllocError, Global};
use std::marker::Model;
use tl_map::AddressMap;

/// What a judge keeps of one port's link that it judges by itself. What is in flight there is the link's own, and so is
/// the slave.
#[derive(Drop)]
pub struct PortLink {
    pub(crate) under: UnderWay,
    pub(crate) flights: Flights,
    pub(crate) slave: PortSlave,
}

impl Model for PortLink {
    ghost use Rattle.check_sides.specs.View.{PortView};

    ghost Value = { PortView };

    ghost view = { λ p. record { under = p.under; flights = p.flights; slave = p.slave } };
}

impl Clone for PortLink {
    ghost use Rattle.std.specs.Prelude.{◌≡◌};

    ghost is_clone = { λ link copy. copy ≡ link };

    fn clone(&self) -> Result<PortLink, AllocError> {
        Ok(PortLink {
            under: self.under.clone()?,
            flights: self.flights.clone()?,
            slave: self.slave.clone()?,
        })
    }
}

impl PortLink {
    /// The judge of a port's link with this bus and this slave, before any beat.
    pub fn new(alloc: Global, bus: Bus, slave: PortSlave) -> PortLink
        ensures { result ≡ fresh_link (bus_bytes bus) slave }
    {
        PortLink {
            under: UnderWay::new(bus),
            flights: Flights::new(alloc),
            slave,
        }
    }

    /// Whether a beat is the first of its message.
    pub(crate) fn begins(&self, beat: &Beat) -> bool
        ensures { result ≡ begins self.now.under beat.now }
    {
        match beat {
            Beat::A(_) => self.under.begins_ask(),
            Beat::D(_) => self.under.begins_reply(),
        }
    }

    /// What the reply has to fit to what is in flight of a source. If that is known as the reply begins, and not before, and
    /// it begins now, the answer is written into the room.
    fn due<'a>(&'a self, port: usize, source: u16, room: &'a mut Answer) -> Option<&'a Answer>
        ensures { option_map (λ answer. answer.now) result ≡ due_in self.now port source }
    {
        let flight = self.flights.flight(source);
        if !self.under.begins_reply() {
            return flight.due();
        }
        match flight.asked() {
            Some(sent) => {
                if self.slave.due_into(port, usize::from(source), sent, room) {
                    Some(room)
                } else {
                    flight.due()
                }
            }
            None => flight.due(),
        }
    }

    /// Puts the reply that a beat ends, as it was captured, in the place of another.
    fn capture(&self, beat: &ReplyHead, known: u64, lanes: &[u8], reply: &mut Pattern)
        requires fits { FitsReply (first_reply self.now.under.replying) beat.now }
        requires ends { IsTrue (ends_reply self.now.under.bus self.now.under.replying beat.now) }
        requires lanes { self.now.under.bus ≤ length lanes.now }
        ensures { reply.new ≡ captured_in self.now beat.now known lanes.now }
    {
        let address = match self.flights.flight(beat.source).asked() {
            Some(sent) => sent.ask().address(),
            None => 0,
        };
        self.under.reply_into(beat, address, known, lanes, reply);
    }

    /// The first reason why a beat of a request is not lawful, whatever its lanes.
    fn ask_reason(
        &self,
        port: usize,
        rules: LinkRules,
        map: &AddressMap,
        beat: &AskHead,
        known: u64,
    ) -> Option<Reason>
        ensures reason { (layout : Layout) (beyond : Beyond) (lanes : List ℕ) → IsOwnPort layout rules map.now
            → IfSome result (IsFirstAskReason layout (Port port)
            (port_scene layout port beyond self.now (A beat.now)) beat.now known lanes) }
        ensures allowed { (layout : Layout) (beyond : Beyond) (lanes : List ℕ) → IsOwnPort layout rules map.now
            → IfNone result (IsAllowedAsk layout (Port port)
            (port_scene layout port beyond self.now (A beat.now)) beat.now known lanes) }
        ensures fits { IfNone result
            (FitsAsk self.now.under.bus (first_ask self.now.under.asking) beat.now) }
    {
        let source = beat.source;
        if let Some(fault) = self.under.ask_fault(rules, beat, known) {
            return Some(Reason::Form(fault));
        }
        if !self.under.begins_ask() {
            return None;
        }
        if !self.flights.flight(source).is_idle() {
            return Some(Reason::SourceBusy);
        }
        if map.route_bytes(beat.address, rules.decoded_size(beat.size)) != port {
            return Some(Reason::WrongPort);
        }
        None
    }

    /// Why the reply that a beat ends is not the one that the slave expects.
    // apart from `reply_reason`, so that other beats pay for no room of a long reply
    #[inline(never)]
    fn end_reason(&self, port: usize, beat: &ReplyHead, known: u64, lanes: &[u8]) -> Option<Reason>
        requires fits { FitsReply (first_reply self.now.under.replying) beat.now }
        requires ends { IsTrue (ends_reply self.now.under.bus self.now.under.replying beat.now) }
        requires lanes { self.now.under.bus ≤ length lanes.now }
        ensures reason { (wider : ℕ) (crossing : Crossing) → IfSome result (HasEndReason false wider crossing
            (due_in self.now port beat.now.source) (captured_in self.now beat.now known lanes.now)) }
        ensures none { (wider : ℕ) (crossing : Crossing) → IfNone result (IsMust false wider crossing
            (due_in self.now port beat.now.source) (captured_in self.now beat.now known lanes.now)) }
    {
        let mut reply = Pattern::blank();
        self.capture(beat, known, lanes, &mut reply);
        let mut room = Answer::blank();
        due_reason(self.due(port, beat.source, &mut room), &reply)
    }

    /// The first reason why a beat of a reply is not lawful.
    fn reply_reason(
        &self,
        port: usize,
        rules: LinkRules,
        beat: &ReplyHead,
        known: u64,
        lanes: &[u8],
    ) -> Option<Reason>
        requires lanes { self.now.under.bus ≤ length lanes.now }
        ensures reason { (layout : Layout) (beyond : Beyond) (map : List (List Range))
            → IsOwnPort layout rules map → IfSome result (IsFirstReplyReason layout (Port port)
            (port_scene layout port beyond self.now (D beat.now)) beat.now known lanes.now) }
        ensures allowed { (layout : Layout) (beyond : Beyond) (map : List (List Range))
            → IsOwnPort layout rules map → IfNone result (IsAllowedReply layout (Port port)
            (port_scene layout port beyond self.now (D beat.now)) beat.now known lanes.now) }
        ensures fits { IfNone result (FitsReply (first_reply self.now.under.replying) beat.now) }
    {
        let source = beat.source;
        if let Some(fault) = self.under.reply_fault(rules, beat) {
            return Some(Reason::Form(fault));
        }
        let flight = self.flights.flight(source);
        let unknown = self.slave.may_be_unknown();
        if let Some(reason) = answer_reason(flight, port, &self.under, unknown, beat, known) {
            return Some(reason);
        }
        if !self.under.ends_reply(beat) {
            return None;
        }
        self.end_reason(port, beat, known, lanes)
    }

    /// The first reason why one beat more is not lawful.
    pub(crate) fn reason(
        &self,
        port: usize,
        rules: LinkRules,
        map: &AddressMap,
        beat: &Beat,
        known: u64,
        lanes: &[u8],
    ) -> Option<Reason>
        requires lanes { self.now.under.bus ≤ length lanes.now }
        ensures reason { (plan : Plan) (past : List Sighting) → IsOwnPort plan.layout rules map.now
            → KeepsPort plan port past self.now
            → IfSome result (IsFirstReason plan past (seen_at (Port port) beat.now known lanes.now)) }
        ensures allowed { (plan : Plan) (past : List Sighting) → IsOwnPort plan.layout rules map.now
            → KeepsPort plan port past self.now
            → IfNone result (IsLawfulGroup plan (seen_at (Port port) beat.now known lanes.now ∷ past)) }
        ensures fits { IfNone result (FitsBeat self.now.under beat.now) }
    {
        match beat {
            Beat::A(beat) => self.ask_reason(port, rules, map, beat, known),
            Beat::D(beat) => self.reply_reason(port, rules, beat, known, lanes),
        }
    }

    /// The wrong reply that a beat ends: what the slave expects, and what was captured.
    fn wrong_reply(
        &self,
        port: usize,
        rules: LinkRules,
        beat: &ReplyHead,
        known: u64,
        lanes: &[u8],
    ) -> Fault
        requires lanes { self.now.under.bus ≤ length lanes.now }
        ensures { (layout : Layout) (beyond : Beyond) → layout.rules ≡ rules
            → IsFirstReplyReason layout (Port port)
            (port_scene layout port beyond self.now (D beat.now)) beat.now known lanes.now WrongReply
            → IsWrongReply (port_scene layout port beyond self.now (D beat.now))
            beat.now known lanes.now result }
    {
        if let Some(_fault) = self.under.reply_fault(rules, beat) {
            return Fault::NotGiven;
        }
        if !self.under.ends_reply(beat) {
            return Fault::NotGiven;
        }
        let mut reply = Pattern::blank();
        self.capture(beat, known, lanes, &mut reply);
        let mut room = Answer::blank();
        match self.due(port, beat.source, &mut room) {
            Some(due) => Fault::WrongReply(due.reply.copy(), reply),
            None => Fault::NotGiven,
        }
    }

    /// The fault that a beat has for this first reason.
    pub(crate) fn fault(
        &self,
        port: usize,
        rules: LinkRules,
        beat: &Beat,
        known: u64,
        lanes: &[u8],
        reason: Reason,
    ) -> Fault
        requires lanes { self.now.under.bus ≤ length lanes.now }
        ensures { (plan : Plan) (past : List Sighting) → plan.layout.rules ≡ rules
            → KeepsPort plan port past self.now
            → IsFirstReason plan past (seen_at (Port port) beat.now known lanes.now) reason
            → IsFirstGroupFault plan past (seen_at (Port port) beat.now known lanes.now) result }
    {
        match reason {
            Reason::WrongReply => match beat {
                Beat::A(_) => Fault::NotGiven,
                Beat::D(beat) => self.wrong_reply(port, rules, beat, known, lanes),
            },
            _ => fault_of(reason),
        }
    }

    /// What a beat of a reply ends that is one of the message under way.
    fn seen_reply(&self, port: usize, beat: &ReplyHead, known: u64, lanes: &[u8]) -> Seen
        requires fits { FitsReply (first_reply self.now.under.replying) beat.now }
        requires lanes { self.now.under.bus ≤ length lanes.now }
        ensures { (layout : Layout) (beyond : Beyond)
            → result ≡ seen layout (Port port)
            (port_scene layout port beyond self.now (D beat.now)) (D beat.now) known lanes.now }
    {
        if !self.under.ends_reply(beat) {
            return Seen::Part;
        }
        let Some(sent) = self.flights.flight(beat.source).asked() else {
            return Seen::Part;
        };
        let mut room = Answer::blank();
        match self.due(port, beat.source, &mut room) {
            Some(answer) => {
                let mut reply = Pattern::blank();
                self.capture(beat, known, lanes, &mut reply);
                Seen::WholeReply(SeenEntry {
                    sent: sent.copy(),
                    reply,
                    port: answer.port,
                    index: answer.index,
                })
            }
            None => Seen::Part,
        }
    }

    /// What a beat ends that is one of the message under way, if it is lawful.
    pub(crate) fn seen(&self, port: usize, beat: &Beat, known: u64, lanes: &[u8]) -> Seen
        requires fits { FitsBeat self.now.under beat.now }
        requires lanes { self.now.under.bus ≤ length lanes.now }
        ensures { (plan : Plan) (past : List Sighting) → KeepsPort plan port past self.now
            → result ≡ seen_in_group plan past (seen_at (Port port) beat.now known lanes.now) }
    {
        match beat {
            Beat::A(beat) => {
                if self.under.ends_ask(beat) {
                    Seen::WholeAsk
                } else {
                    Seen::Part
                }
            }
            Beat::D(beat) => self.seen_reply(port, beat, known, lanes),
        }
    }
}
