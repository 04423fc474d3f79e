//! One side of a crossbar.
ghost use Rattle.std.specs.Prelude.{◌≡◌, ◌<◌, ◌≤◌, ℕ, Some, None, false, length, map, IfOk, OnOk, OnErr, IsTrue, IsSomeAnd};
ghost use Rattle.check_beats.specs.Form.{FitsAsk, FitsReply};
ghost use Rattle.check_beats.specs.State.{nothing_under, first_ask, first_reply, ends_ask, ends_reply, ask_of};
ghost use Rattle.check_flight.specs.PortSlave.{accepting, answering, due_accepting, due_answering, may_need_to_accept, may_need_to_answer};
ghost use Rattle.check_flight.specs.Flight.Turn.{Asking, Asked};
ghost use Rattle.check_flight.specs.Flight.{asked, idle};
ghost use Rattle.check_flight.specs.Side.{ask_crossed, ask_ended, bus_at, flight_at, reply_crossed, reply_ended, side_due, side_reset, side_under, side_with, under_at};

use crate::flight::Flight;
use crate::place::FlightPlace;
use crate::slave::PortSlave;
use check_beats::{AskHead, Bus, ReplyHead, UnderWay};
use std::alloc::{AllocError, Global};
use std::marker::Model;

/// The messages under way at each link of a side, and what is in flight there of each wide source.
///
/// Lanes are handed in as a slice of as many as the bus of the link has, or more; those past the bus are not looked at.
#[derive(Drop)]
pub struct Side {
    links: Vec<UnderWay>,
    flights: Vec<Flight>,
}

impl Model for Side {
    ghost use Rattle.check_flight.specs.Side.{SideView};

    ghost Value = { SideView };

    ghost view = { λ s. record { links = s.links.items; flights = s.flights.items } };
}

impl Clone for Side {
    ghost use Rattle.std.specs.Prelude.{◌≡◌};

    ghost is_clone = { λ side copy. copy ≡ side };

    fn clone(&self) -> Result<Side, AllocError> {
        Ok(Side {
            links: self.links.clone()?,
            flights: self.flights.clone()?,
        })
    }
}

/// A link of each of these buses, with no message under way.
fn fresh_links(alloc: Global, buses: &[Bus]) -> Result<Vec<UnderWay>, AllocError>
    ensures counted { IfOk result (λ links. length links.items ≡ length buses.now) }
    ensures fresh { IfOk result (λ links. (number : ℕ)
        → under_at links.items number ≡ nothing_under (bus_at buses.now number)) }
{
    let mut links = Vec::with_capacity(alloc, buses.len())?;
    for bus in buses {
        links.push(UnderWay::new(*bus))?;
    }
    Ok(links)
}

/// Nothing in flight of so many wide sources.
fn fresh_flights(alloc: Global, count: usize) -> Result<Vec<Flight>, AllocError>
    ensures counted { IfOk result (λ flights. length flights.items ≡ count) }
    ensures fresh { IfOk result (λ flights. (wide : ℕ) → flight_at flights.items wide ≡ idle) }
{
    let mut flights = Vec::with_capacity(alloc, count)?;
    for _wide in 0..count {
        flights.push(Flight::idle())?;
    }
    Ok(flights)
}

/// Nothing is under way at links any more.
fn reset_links(links: &mut [UnderWay])
    ensures { links.new ≡ map (λ under. nothing_under under.bus) links.old }
{
    for link in links.iter_mut() {
        link.reset();
    }
}

/// Nothing is in flight any more.
fn clear_flights(flights: &mut [Flight])
    ensures { flights.new ≡ map (λ _. idle) flights.old }
{
    for flight in flights.iter_mut() {
        flight.clear();
    }
}

impl Side {
    /// A side with a link of each of these buses, and with the wide sources below this one, before any beat.
    pub fn new(alloc: Global, buses: &[Bus], wides: usize) -> Result<Side, AllocError>
        ensures counted { IfOk result (λ side. length side.links ≡ length buses.now) }
        ensures wides { IfOk result (λ side. length side.flights ≡ wides) }
        ensures links { IfOk result (λ side. (number : ℕ)
            → under_at side.links number ≡ nothing_under (bus_at buses.now number)) }
        ensures flights { IfOk result (λ side. (wide : ℕ) → flight_at side.flights wide ≡ idle) }
    {
        Ok(Side {
            links: fresh_links(alloc, buses)?,
            flights: fresh_flights(alloc, wides)?,
        })
    }

    /// A reset: nothing is under way at the links, and nothing is in flight.
    pub fn reset(&mut self)
        ensures { self.new ≡ side_reset self.old }
    {
        reset_links(&mut self.links);
        clear_flights(&mut self.flights);
    }

    /// How many links it has.
    pub fn links(&self) -> usize
        ensures { result ≡ length self.now.links }
    {
        self.links.len()
    }

    /// How many wide sources it has room for.
    pub fn wides(&self) -> usize
        ensures { result ≡ length self.now.flights }
    {
        self.flights.len()
    }

    /// The messages under way at a link.
    pub fn link(&self, number: usize) -> &UnderWay
        requires { number < length self.now.links }
        ensures { result.now ≡ under_at self.now.links number }
    {
        &self.links[number]
    }

    /// What is in flight of a wide source.
    pub fn flight(&self, wide: usize) -> &Flight
        requires { wide < length self.now.flights }
        ensures { result.now ≡ flight_at self.now.flights wide }
    {
        &self.flights[wide]
    }

    /// A beat crosses that does not end its request.
    pub fn begin_ask(&mut self, place: FlightPlace, beat: &AskHead, lanes: &[u8])
        requires link { place.link < length self.old.links }
        requires wide { place.wide < length self.old.flights }
        requires fits { let under = under_at self.old.links place.link in
            FitsAsk under.bus (first_ask under.asking) beat.now }
        requires goes_on { let under = under_at self.old.links place.link in
            ends_ask under.bus under.asking beat.now ≡ false }
        requires lanes { (under_at self.old.links place.link).bus ≤ length lanes.now }
        ensures { let under = under_at self.old.links place.link in
            self.new ≡ side_with self.old place.link (ask_crossed under beat.now lanes.now) place.wide
            (record { turn = Asking place.link; due = None }) }
    {
        self.links[place.link].take_ask_part(beat, lanes);
        self.flights[place.wide].begin(place.link);
    }

    /// A beat crosses that ends its request, which no slave accepts there.
    pub fn end_ask(&mut self, place: FlightPlace, beat: &AskHead, lanes: &[u8])
        requires link { place.link < length self.old.links }
        requires wide { place.wide < length self.old.flights }
        requires fits { let under = under_at self.old.links place.link in
            FitsAsk under.bus (first_ask under.asking) beat.now }
        requires ends { let under = under_at self.old.links place.link in
            IsTrue (ends_ask under.bus under.asking beat.now) }
        requires lanes { (under_at self.old.links place.link).bus ≤ length lanes.now }
        ensures { let under = under_at self.old.links place.link in
            let ask = ask_of under.bus under.asking beat.now lanes.now in
            self.new ≡ side_with self.old place.link (ask_ended under) place.wide
            (record { turn = Asked place.link ask; due = None }) }
    {
        let under = &self.links[place.link];
        self.flights[place.wide].end(place.link, under, beat, lanes);
        self.links[place.link].take_ask_end();
    }

    /// A beat crosses that ends its request, which the slave of its port accepts. If there is no memory, nothing is
    /// changed.
    pub fn accept(
        &mut self,
        alloc: Global,
        place: FlightPlace,
        beat: &AskHead,
        lanes: &[u8],
        slave: &mut PortSlave,
    ) -> Result<(), AllocError>
        requires link { place.link < length self.old.links }
        requires wide { place.wide < length self.old.flights }
        requires fits { let under = under_at self.old.links place.link in
            FitsAsk under.bus (first_ask under.asking) beat.now }
        requires ends { let under = under_at self.old.links place.link in
            IsTrue (ends_ask under.bus under.asking beat.now) }
        requires lanes { (under_at self.old.links place.link).bus ≤ length lanes.now }
        ensures side { let under = under_at self.old.links place.link in
            let ask = ask_of under.bus under.asking beat.now lanes.now in
            OnOk result (self.new ≡ side_with self.old place.link (ask_ended under) place.wide (record {
              turn = Asked place.link ask;
              due = due_accepting place.port slave.old (Some ask);
            })) }
        ensures slave { let under = under_at self.old.links place.link in
            let ask = ask_of under.bus under.asking beat.now lanes.now in
            OnOk result (slave.new ≡ accepting slave.old place.wide (Some ask)) }
        ensures needed { let under = under_at self.old.links place.link in
            let ask = ask_of under.bus under.asking beat.now lanes.now in
            OnErr result (IsTrue (may_need_to_accept slave.old ask)) }
        ensures unchanged { OnErr result (self.new ≡ self.old) }
        ensures slave_unchanged { OnErr result (slave.new ≡ slave.old) }
    {
        let under = &self.links[place.link];
        self.flights[place.wide].accept(alloc, place, under, beat, lanes, slave)?;
        self.links[place.link].take_ask_end();
        Ok(())
    }

    /// The reply begins to the request in flight of a wide source, if that has ended: the slave of its port answers it.
    /// If there is no memory, nothing is changed.
    pub fn answer(
        &mut self,
        alloc: Global,
        place: FlightPlace,
        slave: &mut PortSlave,
    ) -> Result<(), AllocError>
        requires { place.wide < length self.old.flights }
        ensures side { let ask = asked (flight_at self.old.flights place.wide).turn in
            OnOk result (self.new
            ≡ side_due self.old place.wide (due_answering place.port slave.old place.wide ask)) }
        ensures slave { let ask = asked (flight_at self.old.flights place.wide).turn in
            OnOk result (slave.new ≡ answering slave.old place.wide ask) }
        ensures needed { let ask = asked (flight_at self.old.flights place.wide).turn in
            OnErr result (IsSomeAnd ask (λ ask. IsTrue (may_need_to_answer slave.old ask))) }
        ensures unchanged { OnErr result (self.new ≡ self.old) }
        ensures slave_unchanged { OnErr result (slave.new ≡ slave.old) }
    {
        self.flights[place.wide].answer(alloc, place, slave)?;
        Ok(())
    }

    /// A beat crosses that does not end its reply.
    pub fn take_reply(&mut self, number: usize, beat: &ReplyHead, known: u64, lanes: &[u8])
        requires link { number < length self.old.links }
        requires fits { FitsReply (first_reply (under_at self.old.links number).replying) beat.now }
        requires goes_on { let under = under_at self.old.links number in
            ends_reply under.bus under.replying beat.now ≡ false }
        requires lanes { (under_at self.old.links number).bus ≤ length lanes.now }
        ensures { self.new
            ≡ side_under self.old number (reply_crossed (under_at self.old.links number) beat.now known lanes.now) }
    {
        self.links[number].take_reply_part(beat, known, lanes);
    }

    /// The last beat crosses of the reply to the request in flight of a wide source: nothing is in flight of it any more.
    pub fn end_reply(&mut self, place: FlightPlace)
        requires link { place.link < length self.old.links }
        requires wide { place.wide < length self.old.flights }
        ensures { self.new
            ≡ side_with self.old place.link (reply_ended (under_at self.old.links place.link)) place.wide idle }
    {
        self.links[place.link].take_reply_end();
        self.flights[place.wide].clear();
    }
}
