//! Judging beats of channel A.
ghost use Rattle.std.specs.Prelude.{◌≡◌, ◌<◌, ◌≤◌, ◌↔◌, None, IsTrue, IfOk, OnOk, IfErr, length};
ghost use Rattle.tl_types.specs.declared.limits.TheConstants.{MAX_SIZE};
ghost use Rattle.check_beats.specs.Form.{FitsAsk};
ghost use Rattle.check_beats.specs.State.{ask_of, ends_ask, first_ask};
ghost use Rattle.check_flight.specs.Crossing.Crossing.{Waiting};
ghost use Rattle.check_flight.specs.Flight.Turn.{Idle};
ghost use Rattle.check_flight.specs.Side.{flight_at};
ghost use Rattle.check_watch.specs.declared.beat.Beat.TheVariants.{A};
ghost use Rattle.check_watch.specs.Allowed.{is_second, IsAskedAs, IsSent, IsPlaced, IsAllowedAsk};
ghost use Rattle.check_watch.specs.Faults.{IsFirstAskReason};
ghost use Rattle.check_watch.specs.Plan.{Plan, HasLink, link_number};
ghost use Rattle.check_watch.specs.View.{IsPlace, SuitsGroup, wides_in, under_in, flight_in, crossing_at, scene_in};

use crate::beat::Link;
use crate::fault::Reason;
use crate::watch::GroupWatch;
use check_beats::{AskHead, UnderWay};
use check_cells::Sent;
use check_flight::{Flight, FlightPlace, is_same_sent};

/// The number of a link on its side.
pub fn link_number(link: Link) -> usize
    ensures { result ≡ link_number link }
{
    match link {
        Link::Master(number) | Link::Port(number) => number,
    }
}

/// Whether the request in flight of a master has ended, and is the one that was seen at the link of a port.
fn is_asked_as(watch: &GroupWatch, flight: &Flight, port: usize, seen: &Sent) -> bool
    ensures { IsTrue result ↔ IsAskedAs watch.now.layout port flight.now.turn seen.now }
{
    let Some(master) = flight.asked_at() else {
        return false;
    };
    let Some(sent) = flight.asked() else {
        return false;
    };
    is_same_sent(sent, seen, watch.crossing_bus(master, port))
}

/// Whether a master has sent a request that crosses to a port, and it has not crossed before.
fn is_sent(watch: &GroupWatch, wide: usize, port: usize, seen: &Sent) -> bool
    requires { wide < wides_in watch.now }
    ensures { IsTrue result
        ↔ (IsAskedAs watch.now.layout port (flight_at watch.now.masters.flights wide).turn seen.now
        × (crossing_at watch.now.crossings wide ≡ Waiting)) }
{
    is_asked_as(watch, watch.sent(wide), port, seen) && watch.crossing(wide).is_waiting()
}

/// Whether requests at a link are to be sent at another first: at a port's, if both sides are watched.
fn is_second(watch: &GroupWatch, link: Link) -> bool
    ensures { result ≡ is_second watch.now.layout link }
{
    match link {
        Link::Master(_) => false,
        Link::Port(_) => watch.watches_both(),
    }
}

/// Whether a beat of a request finds its source free, if it begins one.
fn begins_free(watch: &GroupWatch, link: Link, wide: usize) -> bool
    requires known { HasLink watch.now.layout link }
    requires wide { wide < wides_in watch.now }
    ensures { IsTrue result
        ↔ ((under_in watch.now link).asking ≡ None → (flight_in watch.now link wide).turn ≡ Idle) }
{
    !watch.link(link).begins_ask() || watch.flight(link, wide).is_idle()
}

/// Whether a request goes to the port of a link.
fn is_placed(watch: &GroupWatch, link: Link, beat: &AskHead) -> bool
    requires { beat.now.size ≤ MAX_SIZE }
    ensures { IsTrue result ↔ IsPlaced watch.now.layout link beat.now }
{
    match link {
        Link::Master(_) => true,
        Link::Port(port) => watch.is_at_port(port, beat.source, beat.address, beat.size),
    }
}

/// Whether a beat of a request is at its port, if it begins one.
fn begins_placed(watch: &GroupWatch, link: Link, beat: &AskHead) -> bool
    requires known { HasLink watch.now.layout link }
    requires in_limit { beat.now.size ≤ MAX_SIZE }
    ensures { IsTrue result
        ↔ ((under_in watch.now link).asking ≡ None → IsPlaced watch.now.layout link beat.now) }
{
    !watch.link(link).begins_ask() || is_placed(watch, link, beat)
}

/// Whether a master has sent the request that a beat ends after those under way, and it has not crossed before.
// apart from `ends_sent`, so that other beats pay for no room of a long request
#[inline(never)]
fn is_whole_sent(
    watch: &GroupWatch,
    wide: usize,
    port: usize,
    under: &UnderWay,
    beat: &AskHead,
    lanes: &[u8],
) -> bool
    requires wide { wide < wides_in watch.now }
    requires fits { FitsAsk under.now.bus (first_ask under.now.asking) beat.now }
    requires ends { IsTrue (ends_ask under.now.bus under.now.asking beat.now) }
    requires lanes { under.now.bus ≤ length lanes.now }
    ensures { IsTrue result
        ↔ (IsAskedAs watch.now.layout port (flight_at watch.now.masters.flights wide).turn
        (ask_of under.now.bus under.now.asking beat.now lanes.now)
        × (crossing_at watch.now.crossings wide ≡ Waiting)) }
{
    let mut seen = Sent::blank();
    under.ask_into(beat, lanes, &mut seen);
    is_sent(watch, wide, port, &seen)
}

/// Whether a master has sent the request that a beat ends, if it ends one.
fn ends_sent(watch: &GroupWatch, link: Link, wide: usize, beat: &AskHead, lanes: &[u8]) -> bool
    requires known { HasLink watch.now.layout link }
    requires wide { wide < wides_in watch.now }
    requires fits { let under = under_in watch.now link in FitsAsk under.bus (first_ask under.asking) beat.now }
    requires lanes { (under_in watch.now link).bus ≤ length lanes.now }
    ensures { let under = under_in watch.now link in
        IsTrue result
        ↔ (IsTrue (ends_ask under.bus under.asking beat.now)
        → IsSent watch.now.layout link (flight_at watch.now.masters.flights wide).turn
        (crossing_at watch.now.crossings wide) (ask_of under.bus under.asking beat.now lanes.now)) }
{
    let under = watch.link(link);
    !is_second(watch, link)
        || !under.ends_ask(beat)
        || is_whole_sent(watch, wide, link_number(link), under, beat, lanes)
}

/// Judges a beat of a request: its place, or the first reason why it is not lawful.
pub fn judge_ask(
    watch: &GroupWatch,
    link: Link,
    beat: &AskHead,
    known: u64,
    lanes: &[u8],
) -> Result<FlightPlace, Reason>
    requires known { HasLink watch.now.layout link }
    requires lanes { (under_in watch.now link).bus ≤ length lanes.now }
    ensures reason { (plan : Plan) → SuitsGroup plan watch.now
        → IfErr result (IsFirstAskReason watch.now.layout link
        (scene_in plan watch.now link (A beat.now)) beat.now known lanes.now) }
    ensures allowed { (plan : Plan) → SuitsGroup plan watch.now
        → OnOk result (IsAllowedAsk watch.now.layout link
        (scene_in plan watch.now link (A beat.now)) beat.now known lanes.now) }
    ensures place { IfOk result (IsPlace watch.now link (A beat.now)) }
{
    if let Some(fault) = watch.link(link).ask_fault(watch.rules(), beat, known) {
        return Err(Reason::Form(fault));
    }
    let Some(source) = watch.wide(link, beat.source) else {
        return Err(Reason::NoSuchSource);
    };
    let wide = usize::from(source);
    if !begins_free(watch, link, wide) {
        return Err(Reason::SourceBusy);
    }
    if !begins_placed(watch, link, beat) {
        return Err(Reason::WrongPort);
    }
    if !ends_sent(watch, link, wide, beat, lanes) {
        return Err(Reason::NotSent);
    }
    Ok(FlightPlace {
        link: link_number(link),
        wide,
        port: watch.port(link, beat.address, beat.size),
    })
}
