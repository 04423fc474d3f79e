//! What is in flight of each source at one port's link, which is made as it is needed.
ghost use Rattle.std.specs.Prelude.{◌≡◌, ◌↔◌, ◌≤◌, ◌⊎◌, [], Some, None, OnOk, OnErr, IsTrue, IsSomeAnd, length};
ghost use Rattle.check_beats.specs.Form.{FitsAsk};
ghost use Rattle.check_beats.specs.State.{ask_of, ends_ask, first_ask};
ghost use Rattle.check_flight.specs.Flight.Turn.{Asking, Asked};
ghost use Rattle.check_flight.specs.Flight.{IsAskedAt, asked, flight_due, idle};
ghost use Rattle.check_flight.specs.PortSlave.{accepting, answering, due_accepting, due_answering, may_need_to_accept, may_need_to_answer};
ghost use Rattle.check_watch.specs.Reset.{IsLeftPort};
ghost use Rattle.check_sides.specs.Flights.{IsChanged, IsOpenFlight, IsOpenOf, IsPut, flight_of, flight_kept};

use check_beats::{AskHead, UnderWay};
use check_cells::AskSoFar;
use check_flight::{Flight, FlightPlace, PortSlave};
use std::alloc::{AllocError, Global};
use std::collections::BTreeMap;
use std::marker::Model;

/// What is in flight of each source. A source has room from its first request on.
#[derive(Drop)]
pub struct Flights {
    kept: BTreeMap<u16, Flight>,
    /// What is in flight of a source that has no room.
    nothing: Flight,
}

impl Model for Flights {
    ghost use Rattle.std.specs.Prelude.{◌≡◌, ℕ, List};
    ghost use Rattle.check_flight.specs.Flight.{Flight, idle};

    ghost Value = { List (ℕ × Flight) };

    ghost view = { λ f. f.kept.entries };

    ghost invariant = { λ f. f.nothing ≡ idle };
}

impl Clone for Flights {
    ghost use Rattle.std.specs.Prelude.{◌≡◌};

    ghost is_clone = { λ flights copy. copy ≡ flights };

    fn clone(&self) -> Result<Flights, AllocError> {
        Ok(Flights {
            kept: self.kept.clone()?,
            nothing: Flight::idle(),
        })
    }
}

/// The place of what is in flight of a source at a port's own link.
fn place_at(port: usize, source: u16) -> FlightPlace
    ensures { result ≡ record { link = port; wide = source; port = port } }
{
    FlightPlace {
        link: port,
        wide: usize::from(source),
        port,
    }
}

/// Whether the reply that is under way is to a source.
fn is_to(answering: Option<u16>, source: u16) -> bool
    ensures { IsTrue result ↔ (answering ≡ Some source) }
{
    match answering {
        Some(other) => other == source,
        None => false,
    }
}

/// Whether a request has ended at the link of a port.
fn is_asked_at(flight: &Flight, port: usize) -> bool
    ensures { IsTrue result ↔ IsAskedAt port flight.now.turn }
{
    match flight.asked_at() {
        Some(at) => at == port,
        None => false,
    }
}

/// The request of a source that has ended at the link of a port is cut short at its slave, if the reply that is under way is
/// not its own.
fn cut_flight(
    alloc: Global,
    port: usize,
    source: u16,
    flight: &Flight,
    answering: Option<u16>,
    slave: &mut PortSlave,
) -> Result<(), AllocError>
    ensures { OnOk result (IsLeftPort (IsOpenFlight port answering source flight.now) slave.old slave.new) }
{
    if is_to(answering, source) || !is_asked_at(flight, port) {
        return Ok(());
    }
    match flight.asked() {
        Some(sent) => slave.cut_short(alloc, &AskSoFar::whole(sent.ask())),
        None => Ok(()),
    }
}

impl Flights {
    /// Nothing in flight.
    pub fn new(alloc: Global) -> Flights
        ensures { result ≡ [] }
    {
        Flights {
            kept: BTreeMap::new(alloc),
            nothing: Flight::idle(),
        }
    }

    /// What is in flight of a source.
    pub fn flight(&self, source: u16) -> &Flight
        ensures { result.now ≡ flight_of self.now source }
    {
        match self.kept.get(&source) {
            Some(flight) => flight,
            None => &self.nothing,
        }
    }

    /// A request has begun at the link of this number. Memory may be refused to a source that has no room.
    pub fn begin(&mut self, source: u16, number: usize) -> Result<(), AllocError>
        ensures begun { OnOk result
            (IsPut self.old self.new source (record { turn = Asking number; due = None })) }
        ensures refused { OnErr result (flight_kept self.old source ≡ None) }
        ensures err { OnErr result (self.new ≡ self.old) }
    {
        if let Some(flight) = self.kept.get_mut(&source) {
            flight.begin(number);
            return Ok(());
        }
        let mut flight = Flight::idle();
        flight.begin(number);
        self.kept.insert(source, flight)?;
        Ok(())
    }

    /// A request has ended at the link of a port, by a beat after those under way, and its slave accepts it. Memory may be
    /// refused to a source that has no room, and to the slave. Then nothing is changed.
    pub fn accept(
        &mut self,
        alloc: Global,
        port: usize,
        under: &UnderWay,
        beat: &AskHead,
        lanes: &[u8],
        slave: &mut PortSlave,
    ) -> Result<(), AllocError>
        requires fits { FitsAsk under.now.bus (first_ask under.now.asking) beat.now }
        requires ends { IsTrue (ends_ask under.now.bus under.now.asking beat.now) }
        requires lanes { under.now.bus ≤ length lanes.now }
        ensures flight { let ask = ask_of under.now.bus under.now.asking beat.now lanes.now in
            OnOk result (IsPut self.old self.new beat.now.source (record {
              turn = Asked port ask;
              due = due_accepting port slave.old (Some ask);
            })) }
        ensures slave { let ask = ask_of under.now.bus under.now.asking beat.now lanes.now in
            OnOk result (slave.new ≡ accepting slave.old beat.now.source (Some ask)) }
        ensures needed { let ask = ask_of under.now.bus under.now.asking beat.now lanes.now in
            OnErr result ((flight_kept self.old beat.now.source ≡ None) ⊎ IsTrue (may_need_to_accept slave.old ask)) }
        ensures err { OnErr result (self.new ≡ self.old) }
        ensures slave_err { OnErr result (slave.new ≡ slave.old) }
    {
        let source = beat.source;
        if let Some(flight) = self.kept.get_mut(&source) {
            return flight.accept(alloc, place_at(port, source), under, beat, lanes, slave);
        }
        self.accept_first(alloc, port, under, beat, lanes, slave)
    }

    /// The same for a source that has no room: that is made first, and taken back if the slave is refused memory.
    #[inline(never)]
    fn accept_first(
        &mut self,
        alloc: Global,
        port: usize,
        under: &UnderWay,
        beat: &AskHead,
        lanes: &[u8],
        slave: &mut PortSlave,
    ) -> Result<(), AllocError>
        requires first { flight_kept self.old beat.now.source ≡ None }
        requires fits { FitsAsk under.now.bus (first_ask under.now.asking) beat.now }
        requires ends { IsTrue (ends_ask under.now.bus under.now.asking beat.now) }
        requires lanes { under.now.bus ≤ length lanes.now }
        ensures flight { let ask = ask_of under.now.bus under.now.asking beat.now lanes.now in
            OnOk result (IsPut self.old self.new beat.now.source (record {
              turn = Asked port ask;
              due = due_accepting port slave.old (Some ask);
            })) }
        ensures slave { let ask = ask_of under.now.bus under.now.asking beat.now lanes.now in
            OnOk result (slave.new ≡ accepting slave.old beat.now.source (Some ask)) }
        ensures needed { let ask = ask_of under.now.bus under.now.asking beat.now lanes.now in
            OnErr result ((flight_kept self.old beat.now.source ≡ None) ⊎ IsTrue (may_need_to_accept slave.old ask)) }
        ensures err { OnErr result (self.new ≡ self.old) }
        ensures slave_err { OnErr result (slave.new ≡ slave.old) }
    {
        let source = beat.source;
        self.kept.insert(source, Flight::idle())?;
        let Some(flight) = self.kept.get_mut(&source) else {
            return Ok(());
        };
        if let Err(_) = flight.accept(alloc, place_at(port, source), under, beat, lanes, slave) {
            self.kept.remove(&source);
            return Err(AllocError);
        }
        Ok(())
    }

    /// The reply begins to the request in flight of a source, if that has ended: the slave of this port answers it. If
    /// there is no memory, nothing is changed.
    pub fn answer(
        &mut self,
        alloc: Global,
        source: u16,
        port: usize,
        slave: &mut PortSlave,
    ) -> Result<(), AllocError>
        ensures flight { OnOk result (IsChanged self.old self.new source (λ flight.
            flight_due flight (due_answering port slave.old source (asked flight.turn)))) }
        ensures slave { OnOk result (slave.new
            ≡ answering slave.old source (asked (flight_of self.old source).turn)) }
        ensures needed { let ask = asked (flight_of self.old source).turn in
            OnErr result (IsSomeAnd ask (λ ask. IsTrue (may_need_to_answer slave.old ask))) }
        ensures err { OnErr result (self.new ≡ self.old) }
        ensures slave_err { OnErr result (slave.new ≡ slave.old) }
    {
        let Some(flight) = self.kept.get_mut(&source) else {
            return Ok(());
        };
        flight.answer(alloc, place_at(port, source), slave)
    }

    /// The requests that have ended at the link of a port, and whose replies have not begun there, are cut short at its slave.
    /// The reply that is under way is to the source `answering`.
    pub fn cut_short(
        &self,
        alloc: Global,
        port: usize,
        answering: Option<u16>,
        slave: &mut PortSlave,
    ) -> Result<(), AllocError>
        ensures { OnOk result (IsLeftPort (IsOpenOf self.now port answering) slave.old slave.new) }
    {
        for (source, flight) in self.kept.iter() {
            cut_flight(alloc, port, *source, flight, answering, slave)?;
        }
        Ok(())
    }

    /// Nothing is in flight any more.
    pub fn clear_all(&mut self)
        ensures { self.new ≡ [] }
    {
        self.kept.clear();
    }

    /// Nothing is in flight of a source any more.
    pub fn clear(&mut self, source: u16)
        ensures { IsChanged self.old self.new source (λ flight. idle) }
    {
        let Some(flight) = self.kept.get_mut(&source) else {
            return;
        };
        flight.clear();
    }
}
