//! Judging beats of channel D.
ghost use Rattle.std.specs.Prelude.{◌≡◌, ℕ, ◌<◌, ◌≤◌, ◌↔◌, length, false, IsTrue, IfOk, OnOk, IfErr, IfSome, IfNone, option_map};
ghost use Rattle.tl_types.specs.Fault.{IsFirstOf};
ghost use Rattle.check_beats.specs.Form.{FitsReply};
ghost use Rattle.check_beats.specs.State.{ends_reply, first_reply};
ghost use Rattle.check_flight.specs.Crossing.{Crossing};
ghost use Rattle.check_watch.specs.declared.beat.Beat.TheVariants.{D};
ghost use Rattle.check_watch.specs.declared.fault.Reason.TheVariants.{WrongReply};
ghost use Rattle.check_watch.specs.Allowed.{OfAsked, HasKnownLanes, IsAnswer, IsMust, IsAllowedReply};
ghost use Rattle.check_watch.specs.Faults.{IsWrongReply, HasAnswerReason, HasEndReason, IsFirstReplyReason, reason_rank};
ghost use Rattle.check_watch.specs.Plan.{Plan, HasLink, link_number, wider_bus};
ghost use Rattle.check_watch.specs.Scene.{is_given, seen};
ghost use Rattle.check_watch.specs.View.{IsPlace, SuitsGroup, wides_in, under_in, crossing_at, scene_in, due_in, captured_in};

use crate::asks::link_number;
use crate::beat::Link;
use crate::fault::{Fault, Reason};
use crate::seen::{Seen, SeenEntry};
use crate::watch::GroupWatch;
use check_beats::{ReplyHead, UnderWay};
use check_cells::Pattern;
use check_flight::{Answer, Flight, FlightPlace};
use tl_types::{Ask, reply_opcode};

/// Whether each lane that carries a byte of the reply to a request is known, if the slave may leave none unknown.
fn has_known_lanes(under: &UnderWay, unknown: bool, ask: &Ask, beat: &ReplyHead, known: u64) -> bool
    requires { FitsReply (first_reply under.now.replying) beat.now }
    ensures { IsTrue result ↔ HasKnownLanes under.now.bus unknown ask.now beat.now known }
{
    unknown || under.is_known_reply(beat, ask.address(), known)
}

/// The first reason why a beat is no answer to what is in flight of its source, at the link of this number. Its port's
/// slave may leave lanes unknown, or not.
pub fn answer_reason(
    flight: &Flight,
    number: usize,
    under: &UnderWay,
    unknown: bool,
    beat: &ReplyHead,
    known: u64,
) -> Option<Reason>
    requires { FitsReply (first_reply under.now.replying) beat.now }
    ensures reason { IfSome result (IsFirstOf
        (HasAnswerReason number flight.now.turn under.now.bus unknown beat.now known) reason_rank) }
    ensures none { IfNone result (OfAsked number flight.now.turn
        (IsAnswer under.now.bus unknown beat.now known)) }
{
    if !flight.is_at(number) {
        return Some(Reason::NoRequest);
    }
    let Some(sent) = flight.asked() else {
        return Some(Reason::EarlyReply);
    };
    let ask = sent.ask();
    if beat.size != ask.size() {
        return Some(Reason::WrongSize);
    }
    if beat.opcode != reply_opcode(ask.op().reply_op()) {
        return Some(Reason::WrongOpcode);
    }
    if !has_known_lanes(under, unknown, ask, beat, known) {
        return Some(Reason::UnknownData);
    }
    None
}

/// Why a captured reply is not the one that its port's slave expects, at a link to which no port gives one.
pub fn due_reason(due: Option<&Answer>, reply: &Pattern) -> Option<Reason>
    ensures reason { (wider : ℕ) (crossing : Crossing) → IfSome result
        (HasEndReason false wider crossing (option_map (λ answer. answer.now) due.entry) reply.now) }
    ensures none { (wider : ℕ) (crossing : Crossing) → IfNone result
        (IsMust false wider crossing (option_map (λ answer. answer.now) due.entry) reply.now) }
{
    match due {
        Some(answer) => {
            if answer.reply.fits(reply) {
                None
            } else {
                Some(Reason::WrongReply)
            }
        }
        None => Some(Reason::NotGiven),
    }
}

/// Why the reply that a beat ends, to a request to this port, is not the one that must come.
// apart from `end_reason`, so that other beats pay for no room of a long reply
#[inline(never)]
fn whole_reason(
    watch: &GroupWatch,
    link: Link,
    place: FlightPlace,
    beat: &ReplyHead,
    known: u64,
    lanes: &[u8],
) -> Option<Reason>
    requires known { HasLink watch.now.layout link }
    requires wide { place.wide < wides_in watch.now }
    requires port { place.port < length watch.now.slaves }
    requires fits { FitsReply (first_reply (under_in watch.now link).replying) beat.now }
    requires ends { let under = under_in watch.now link in IsTrue (ends_reply under.bus under.replying beat.now) }
    requires lanes { (under_in watch.now link).bus ≤ length lanes.now }
    ensures reason { IfSome result (HasEndReason (is_given watch.now.layout link place.port)
        (wider_bus watch.now.layout link place.port) (crossing_at watch.now.crossings place.wide) (due_in watch.now link place.wide place.port)
        (captured_in watch.now link place.wide beat.now known lanes.now)) }
    ensures none { IfNone result (IsMust (is_given watch.now.layout link place.port)
        (wider_bus watch.now.layout link place.port) (crossing_at watch.now.crossings place.wide) (due_in watch.now link place.wide place.port)
        (captured_in watch.now link place.wide beat.now known lanes.now)) }
{
    let mut reply = Pattern::blank();
    watch.capture(link, place.wide, beat, known, lanes, &mut reply);
    if watch.is_given(link, place.port) {
        let wider = watch.wider_bus(link, place.port);
        if watch.crossing(place.wide).gave(wider, &reply) {
            return None;
        }
        return Some(Reason::NotGiven);
    }
    let mut room = Answer::blank();
    due_reason(watch.due(link, place.wide, place.port, &mut room), &reply)
}

/// Why the reply that a beat ends, if it ends one, to a request to this port, is not the one that must come.
fn end_reason(
    watch: &GroupWatch,
    link: Link,
    place: FlightPlace,
    beat: &ReplyHead,
    known: u64,
    lanes: &[u8],
) -> Option<Reason>
    requires known { HasLink watch.now.layout link }
    requires wide { place.wide < wides_in watch.now }
    requires port { place.port < length watch.now.slaves }
    requires fits { FitsReply (first_reply (under_in watch.now link).replying) beat.now }
    requires lanes { (under_in watch.now link).bus ≤ length lanes.now }
    ensures ends { let under = under_in watch.now link in
        IfSome result (λ reason. IsTrue (ends_reply under.bus under.replying beat.now)) }
    ensures reason { IfSome result (HasEndReason (is_given watch.now.layout link place.port)
        (wider_bus watch.now.layout link place.port) (crossing_at watch.now.crossings place.wide) (due_in watch.now link place.wide place.port)
        (captured_in watch.now link place.wide beat.now known lanes.now)) }
    ensures none { let under = under_in watch.now link in
        IfNone result (IsTrue (ends_reply under.bus under.replying beat.now)
        → IsMust (is_given watch.now.layout link place.port)
        (wider_bus watch.now.layout link place.port) (crossing_at watch.now.crossings place.wide) (due_in watch.now link place.wide place.port)
        (captured_in watch.now link place.wide beat.now known lanes.now)) }
{
    if !watch.link(link).ends_reply(beat) {
        return None;
    }
    whole_reason(watch, link, place, beat, known, lanes)
}

/// Judges a beat of a reply: its place, or the first reason why it is not lawful.
pub fn judge_reply(
    watch: &GroupWatch,
    link: Link,
    beat: &ReplyHead,
    known: u64,
    lanes: &[u8],
) -> Result<FlightPlace, Reason>
    requires known { HasLink watch.now.layout link }
    requires lanes { (under_in watch.now link).bus ≤ length lanes.now }
    ensures reason { (plan : Plan) → SuitsGroup plan watch.now
        → IfErr result (IsFirstReplyReason watch.now.layout link
        (scene_in plan watch.now link (D beat.now)) beat.now known lanes.now) }
    ensures allowed { (plan : Plan) → SuitsGroup plan watch.now
        → OnOk result (IsAllowedReply watch.now.layout link
        (scene_in plan watch.now link (D beat.now)) beat.now known lanes.now) }
    ensures place { IfOk result (IsPlace watch.now link (D beat.now)) }
{
    let under = watch.link(link);
    if let Some(fault) = under.reply_fault(watch.rules(), beat) {
        return Err(Reason::Form(fault));
    }
    let Some(source) = watch.wide(link, beat.source) else {
        return Err(Reason::NoSuchSource);
    };
    let wide = usize::from(source);
    let place = FlightPlace {
        link: link_number(link),
        wide,
        port: watch.port_in_flight(link, wide),
    };
    let unknown = watch.slave(place.port).may_be_unknown();
    let flight = watch.flight(link, wide);
    if let Some(reason) = answer_reason(flight, place.link, under, unknown, beat, known) {
        return Err(reason);
    }
    if let Some(reason) = end_reason(watch, link, place, beat, known, lanes) {
        return Err(reason);
    }
    Ok(place)
}

/// The wrong reply that a beat ends: what its port's slave expects, and what was captured.
pub fn wrong_reply(
    watch: &GroupWatch,
    link: Link,
    beat: &ReplyHead,
    known: u64,
    lanes: &[u8],
) -> Fault
    requires known { HasLink watch.now.layout link }
    requires lanes { (under_in watch.now link).bus ≤ length lanes.now }
    ensures { (plan : Plan) → SuitsGroup plan watch.now
        → IsFirstReplyReason watch.now.layout link (scene_in plan watch.now link (D beat.now)) beat.now known lanes.now
        WrongReply
        → IsWrongReply (scene_in plan watch.now link (D beat.now)) beat.now known lanes.now result }
{
    let under = watch.link(link);
    if let Some(_fault) = under.reply_fault(watch.rules(), beat) {
        return Fault::NotGiven;
    }
    if !under.ends_reply(beat) {
        return Fault::NotGiven;
    }
    let Some(source) = watch.wide(link, beat.source) else {
        return Fault::NotGiven;
    };
    let wide = usize::from(source);
    let mut reply = Pattern::blank();
    watch.capture(link, wide, beat, known, lanes, &mut reply);
    let mut room = Answer::blank();
    let port = watch.port_in_flight(link, wide);
    match watch.due(link, wide, port, &mut room) {
        Some(due) => Fault::WrongReply(due.reply.copy(), reply),
        None => Fault::NotGiven,
    }
}

/// What a beat of a reply ends that has this place.
pub fn seen_reply(
    watch: &GroupWatch,
    link: Link,
    place: FlightPlace,
    beat: &ReplyHead,
    known: u64,
    lanes: &[u8],
) -> Seen
    requires known { HasLink watch.now.layout link }
    requires lanes { (under_in watch.now link).bus ≤ length lanes.now }
    requires place { IsPlace watch.now link (D beat.now) place }
    ensures { (plan : Plan) → SuitsGroup plan watch.now
        → result ≡ seen watch.now.layout link (scene_in plan watch.now link (D beat.now)) (D beat.now) known lanes.now }
{
    if !watch.link(link).ends_reply(beat) {
        return Seen::Part;
    }
    let Some(sent) = watch.flight(link, place.wide).asked() else {
        return Seen::Part;
    };
    let mut room = Answer::blank();
    match watch.must(link, place, &mut room) {
        Some(answer) => {
            let mut reply = Pattern::blank();
            watch.capture(link, place.wide, beat, known, lanes, &mut reply);
            Seen::WholeReply(SeenEntry {
                sent: sent.copy(),
                reply,
                port: answer.port,
                index: answer.index,
            })
        }
        None => Seen::Part,
    }
}
