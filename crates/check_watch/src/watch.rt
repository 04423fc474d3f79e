//! The judge of what crossed the links of a crossbar.
ghost use Rattle.std.specs.Prelude.{◌≡◌, ◌<◌, ◌≤◌, ◌↔◌, ◌+◌, ℕ, [], length, Some, IsTrue, IfOk, IfSome, option_map};
ghost use Rattle.tl_types.specs.declared.limits.TheConstants.{MAX_SIZE};
ghost use Rattle.tl_map.specs.Owner.{IsOwned};
ghost use Rattle.check_beats.specs.Bus.{bus_bytes};
ghost use Rattle.check_beats.specs.State.{ends_reply, first_reply};
ghost use Rattle.check_beats.specs.Form.{FitsReply};
ghost use Rattle.check_flight.specs.Crossing.Crossing.{Waiting};
ghost use Rattle.check_flight.specs.Side.{bus_at, flight_at};
ghost use Rattle.check_watch.specs.declared.beat.Beat.TheVariants.{D};
ghost use Rattle.check_beats.specs.declared.beat.ReplyHead.{ReplyHead};
ghost use Rattle.check_watch.specs.Past.{port_of, slave_at};
ghost use Rattle.check_watch.specs.Plan.{Plan, IsPlan, RoutesAt, RoutesWide, HasLink, IsWideAt, IsGroupLink, are_both, bus_of, crosses_at_port, is_apart, wider_bus};
ghost use Rattle.check_watch.specs.Scene.{begins, takes_effect, is_given, must_by};
ghost use Rattle.check_watch.specs.View.{GroupView, IsSized, wides_in, SuitsGroup, KeepsGroup, own_side, under_in, flight_in, crossing_at, is_answering_in, due_in, captured_in};

use crate::beat::{Beat, Link};
use crate::fifos::FifoLinks;
use crate::links::Links;
use crate::wiring::Wiring;
use check_beats::{Bus, LinkRules, MAX_LANES, ReplyHead, UnderWay};
use check_cells::Pattern;
use check_flight::{Answer, Crossing, Flight, FlightPlace, Order, PortSlave, Side};
use std::alloc::{AllocError, Global};
use std::marker::Model;
use tl_map::{AddressMap, SourceOwners};
use tl_types::MAX_SIZE;

/// What a judge keeps of the beats so far.
#[derive(Drop)]
pub struct GroupWatch {
    wiring: Wiring,
    pub(crate) masters: Side,
    pub(crate) ports: Side,
    pub(crate) crossings: Vec<Crossing>,
    pub(crate) slaves: Vec<PortSlave>,
}

impl Model for GroupWatch {
    ghost use Rattle.check_watch.specs.View.{GroupView, IsSized};

    ghost Value = { GroupView };

    ghost view = { λ w. record {
      layout = w.wiring;
      masters = w.masters;
      ports = w.ports;
      crossings = w.crossings.items;
      slaves = w.slaves.items;
    } };

    ghost invariant = { λ w. IsSized (record {
      layout = w.wiring;
      masters = w.masters;
      ports = w.ports;
      crossings = w.crossings.items;
      slaves = w.slaves.items;
    }) };
}

impl Clone for GroupWatch {
    ghost use Rattle.std.specs.Prelude.{◌≡◌};

    ghost is_clone = { λ watch copy. copy ≡ watch };

    fn clone(&self) -> Result<GroupWatch, AllocError> {
        Ok(GroupWatch {
            wiring: self.wiring.clone()?,
            masters: self.masters.clone()?,
            ports: self.ports.clone()?,
            crossings: self.crossings.clone()?,
            slaves: self.slaves.clone()?,
        })
    }
}

/// A wide source, if a master has it.
fn owned(sources: &SourceOwners, source: u16) -> Option<u16>
    ensures { (wide : ℕ) → (result ≡ Some wide) ↔ ((wide ≡ source) × IsOwned sources.now source) }
{
    if sources.is_owned(source) {
        Some(source)
    } else {
        None
    }
}

/// How many bytes a bus has: one, if there is none of that number.
fn bytes_at(buses: &[Bus], number: usize) -> usize
    ensures value { result ≡ bus_at buses.now number }
    ensures some { 0 < result }
    ensures in_limit { result ≤ MAX_LANES }
{
    match buses.get(number) {
        Some(bus) => bus.bytes(),
        None => 1,
    }
}

/// No request has come across of so many wide sources.
fn fresh_crossings(alloc: Global, count: usize) -> Result<Vec<Crossing>, AllocError>
    ensures counted { IfOk result (λ crossings. length crossings.items ≡ count) }
    ensures fresh { IfOk result (λ crossings. (wide : ℕ) → crossing_at crossings.items wide ≡ Waiting) }
{
    let mut crossings = Vec::with_capacity(alloc, count)?;
    for _wide in 0..count {
        crossings.push(Crossing::waiting())?;
    }
    Ok(crossings)
}

impl GroupWatch {
    /// The judge of a crossbar that is wired so, before any beat. There is a slave for each port, the error port's last, as it is at
    /// reset. If both sides are watched, ports that are flagged are not compared across: their links are none of those that are
    /// judged here.
    pub fn new(
        alloc: Global,
        wiring: Wiring,
        slaves: Vec<PortSlave>,
    ) -> Result<GroupWatch, AllocError>
        requires slaves { length slaves.items ≡ length wiring.ports + 1 }
        requires masters { length wiring.master_buses ≡ length wiring.owners }
        requires ports { length wiring.port_buses ≡ length wiring.ports }
        ensures layout { IfOk result (λ watch. watch.layout ≡ wiring) }
        ensures plan { IfOk result (λ watch. (plan : Plan) × (plan.resets ≡ slaves.items) × KeepsGroup plan [] watch) }
        ensures keeps { (plan : Plan) → IsPlan plan → plan.layout ≡ wiring → plan.resets ≡ slaves.items
            → IfOk result (KeepsGroup plan []) }
    {
        // these two are called for their clauses: no two masters share a source, and each request has one port
        let _owners = wiring.sources.masters();
        let _slots = wiring.map.ports();
        let wides = wiring.sources.wides();
        let masters = Side::new(alloc, &wiring.master_buses, wides)?;
        let ports = Side::new(alloc, &wiring.port_buses, wides)?;
        let crossings = fresh_crossings(alloc, wides)?;
        Ok(GroupWatch {
            wiring,
            masters,
            ports,
            crossings,
            slaves,
        })
    }

    /// Whether the crossbar has a link, and it is watched.
    pub fn watches(&self, link: Link) -> bool
        ensures { IsTrue result
            ↔ (HasLink self.now.layout link × IsGroupLink self.now.layout link) }
    {
        match (link, self.wiring.links) {
            (Link::Master(master), Links::Both | Links::Masters | Links::Each) => {
                master < self.wiring.sources.masters()
            }
            (Link::Port(port), Links::Both) => port < self.wiring.map.ports() - 1
                && !self.is_apart(port),
            (Link::Port(port), Links::Ports) => port < self.wiring.map.ports() - 1,
            (Link::Master(_), Links::Ports) | (Link::Port(_), Links::Masters | Links::Each) =>
                false,
        }
    }

    /// The links that are watched.
    pub fn links(&self) -> Links
        ensures { result ≡ self.now.layout.links }
    {
        self.wiring.links
    }

    /// A flag for each port: whether messages to it are not compared across. A port that is not in the list has none.
    pub fn apart(&self) -> &[bool]
        ensures { result.now ≡ self.now.layout.apart }
    {
        &self.wiring.apart
    }

    /// Whether messages to a port are not compared across.
    pub fn is_apart(&self, port: usize) -> bool
        ensures { result ≡ is_apart self.now.layout port }
    {
        match self.wiring.apart.get(port) {
            Some(apart) => *apart,
            None => false,
        }
    }

    /// The links at which replies begin in the order of their requests.
    pub fn fifos(&self) -> &FifoLinks
        ensures { result.now ≡ self.now.layout.fifos }
    {
        &self.wiring.fifos
    }

    /// What the links may do beyond the standard.
    pub fn rules(&self) -> LinkRules
        ensures { result ≡ self.now.layout.rules }
    {
        self.wiring.rules
    }

    /// The wide sources of the masters.
    pub fn sources(&self) -> &SourceOwners
        ensures { result.now ≡ self.now.layout.owners }
    {
        &self.wiring.sources
    }

    /// The address map of the ports.
    pub fn map(&self) -> &AddressMap
        ensures { result.now ≡ self.now.layout.ports }
    {
        &self.wiring.map
    }

    /// The bus of a link.
    pub fn bus(&self, link: Link) -> Bus
        requires { HasLink self.now.layout link }
        ensures { bus_bytes result ≡ bus_of self.now.layout link }
    {
        self.sized();
        self.link(link).bus()
    }

    /// How many bytes the wider one has of the buses of a master's link and of a port's.
    pub(crate) fn crossing_bus(&self, master: usize, port: usize) -> usize
        ensures value { result ≡ wider_bus self.now.layout (Link.Master master) port }
        ensures some { 0 < result }
        ensures in_limit { result ≤ MAX_LANES }
    {
        let masters = bytes_at(&self.wiring.master_buses, master);
        masters.max(bytes_at(&self.wiring.port_buses, port))
    }

    /// How many bytes the wider one has of the bus of a link and of that of a port's link.
    pub(crate) fn wider_bus(&self, link: Link, port: usize) -> usize
        requires known { HasLink self.now.layout link }
        ensures value { result ≡ wider_bus self.now.layout link port }
        ensures some { 0 < result }
        ensures in_limit { result ≤ MAX_LANES }
    {
        let ports = bytes_at(&self.wiring.port_buses, port);
        self.bus(link).bytes().max(ports)
    }

    /// When requests of a port take effect.
    pub fn order(&self, port: usize) -> Order
        requires { port < length self.now.slaves }
        ensures { result ≡ (slave_at self.now.slaves port).order }
    {
        self.slave(port).order()
    }

    /// The slave of a port.
    pub(crate) fn slave(&self, port: usize) -> &PortSlave
        requires { port < length self.now.slaves }
        ensures { result.now ≡ slave_at self.now.slaves port }
    {
        &self.slaves[port]
    }

    /// The side that a link is on.
    fn side(&self, link: Link) -> &Side
        ensures { result.now ≡ own_side self.now link }
    {
        match link {
            Link::Master(_) => &self.masters,
            Link::Port(_) => &self.ports,
        }
    }

    /// The messages under way at a link.
    pub(crate) fn link(&self, link: Link) -> &UnderWay
        requires { HasLink self.now.layout link }
        ensures { result.now ≡ under_in self.now link }
    {
        match link {
            Link::Master(number) => self.masters.link(number),
            Link::Port(number) => self.ports.link(number),
        }
    }

    /// Whether a beat is the first of its message at a link.
    pub fn begins(&self, link: Link, beat: &Beat) -> bool
        requires { HasLink self.now.layout link }
        ensures { result ≡ begins (under_in self.now link) beat.now }
    {
        match beat {
            Beat::A(_) => self.link(link).begins_ask(),
            Beat::D(_) => self.link(link).begins_reply(),
        }
    }

    /// What is in flight of a wide source, on the side that a link is on.
    pub(crate) fn flight(&self, link: Link, wide: usize) -> &Flight
        requires { wide < wides_in self.now }
        ensures { result.now ≡ flight_in self.now link wide }
    {
        self.sized();
        self.side(link).flight(wide)
    }

    /// What is in flight of a wide source on the masters' side.
    pub(crate) fn sent(&self, wide: usize) -> &Flight
        requires { wide < wides_in self.now }
        ensures { result.now ≡ flight_at self.now.masters.flights wide }
    {
        self.sized();
        self.masters.flight(wide)
    }

    /// How far the request of a wide source has come across.
    pub(crate) fn crossing(&self, wide: usize) -> &Crossing
        requires { wide < wides_in self.now }
        ensures { result.now ≡ crossing_at self.now.crossings wide }
    {
        &self.crossings[wide]
    }

    /// The wide source of a source at a link, if the link has it.
    pub(crate) fn wide(&self, link: Link, source: u16) -> Option<u16>
        ensures wide { (wide : ℕ) → (result ≡ Some wide) ↔ IsWideAt self.now.layout link source wide }
        ensures in_limit { IfSome result (λ wide. wide < wides_in self.now) }
    {
        self.sized();
        match link {
            Link::Master(master) => self.wiring.sources.widen(master, source),
            Link::Port(_) => owned(&self.wiring.sources, source),
        }
    }

    /// The port to which a master's requests of this address and size go.
    pub fn route(&self, master: usize, address: u64, size: u8) -> usize
        requires { size ≤ MAX_SIZE }
        ensures port { (port : ℕ) → (result ≡ port) ↔ RoutesAt self.now.layout master address size port }
        ensures in_ports { result < length self.now.slaves }
    {
        self.sized();
        self.wiring.route(master, address, size)
    }

    /// The port that requests at a link go to, of this address and size.
    pub(crate) fn port(&self, link: Link, address: u64, size: u8) -> usize
        requires known { HasLink self.now.layout link }
        requires in_limit { size ≤ MAX_SIZE }
        ensures master { (number port : ℕ) → link ≡ Link.Master number
            → (result ≡ port) ↔ RoutesAt self.now.layout number address size port }
        ensures port { (number : ℕ) → link ≡ Link.Port number → result ≡ number }
        ensures in_ports { result < length self.now.slaves }
    {
        self.sized();
        match link {
            Link::Master(master) => self.route(master, address, size),
            Link::Port(port) => port,
        }
    }

    /// The port of the request in flight of a wide source at a link.
    pub(crate) fn port_in_flight(&self, link: Link, wide: usize) -> usize
        requires known { HasLink self.now.layout link }
        requires wide { wide < wides_in self.now }
        ensures port { (plan : Plan) (beat : ReplyHead) → SuitsGroup plan self.now
            → result ≡ port_of plan link (flight_in self.now link wide).turn (D beat) }
        ensures in_ports { result < length self.now.slaves }
    {
        self.sized();
        match (self.flight(link, wide).asked(), link) {
            (Some(sent), _) => self.port(link, sent.ask().address(), sent.ask().size()),
            (None, Link::Port(port)) => port,
            (None, Link::Master(_)) => 0,
        }
    }

    /// Whether requests of the master that has a wide source go to a port at this address and of this size.
    pub(crate) fn is_at_port(&self, port: usize, wide: u16, address: u64, size: u8) -> bool
        requires { size ≤ MAX_SIZE }
        ensures { IsTrue result ↔ RoutesWide self.now.layout wide address size port }
    {
        match self.wiring.sources.owner(wide) {
            Some((master, _source)) => self.route(master, address, size) == port,
            None => false,
        }
    }

    /// Whether both sides are watched.
    pub(crate) fn watches_both(&self) -> bool
        ensures value { result ≡ are_both self.now.layout.links }
        ensures both { IsTrue result ↔ (self.now.layout.links ≡ Links.Both) }
    {
        matches!(self.wiring.links, Links::Both)
    }

    /// Whether requests to a port are seen on both sides, and compared.
    fn crosses(&self, port: usize) -> bool
        ensures { result ≡ crosses_at_port self.now.layout port }
    {
        matches!(self.wiring.links, Links::Both)
            && port < self.wiring.map.ports() - 1
            && !self.is_apart(port)
    }

    /// Whether the reply that must come at a link is what a port gave.
    pub(crate) fn is_given(&self, link: Link, port: usize) -> bool
        ensures { result ≡ is_given self.now.layout link port }
    {
        match link {
            Link::Master(_) => self.crosses(port),
            Link::Port(_) => false,
        }
    }

    /// Whether the slave of a port accepts and answers requests as they are seen at a link.
    pub(crate) fn takes_effect(&self, link: Link, port: usize) -> bool
        ensures { result ≡ takes_effect self.now.layout link port }
    {
        match link {
            Link::Master(_) => !self.crosses(port),
            Link::Port(_) => true,
        }
    }

    /// Whether the slave of a port answers as the next beat of channel D crosses at a link.
    pub(crate) fn is_answering(&self, link: Link, port: usize) -> bool
        requires known { HasLink self.now.layout link }
        ensures { result ≡ is_answering_in self.now link port }
    {
        self.takes_effect(link, port) && self.link(link).begins_reply()
    }

    /// What the reply has to fit to what is in flight of a wide source, which goes to this port. Where that is known as the
    /// reply begins, and not before, and it begins now, the answer is written into the room.
    pub(crate) fn due<'a>(
        &'a self,
        link: Link,
        wide: usize,
        port: usize,
        room: &'a mut Answer,
    ) -> Option<&'a Answer>
        requires known { HasLink self.now.layout link }
        requires wide { wide < wides_in self.now }
        requires port { port < length self.now.slaves }
        ensures { option_map (λ answer. answer.now) result ≡ due_in self.now link wide port }
    {
        let flight = self.flight(link, wide);
        if !self.is_answering(link, port) {
            return flight.due();
        }
        match flight.asked() {
            Some(sent) => {
                if self.slave(port).due_into(port, wide, sent, room) {
                    Some(room)
                } else {
                    flight.due()
                }
            }
            None => flight.due(),
        }
    }

    /// What the port gave to what is in flight of a wide source, if that must come, or what the reply has to fit.
    pub(crate) fn must<'a>(
        &'a self,
        link: Link,
        place: FlightPlace,
        room: &'a mut Answer,
    ) -> Option<&'a Answer>
        requires known { HasLink self.now.layout link }
        requires wide { place.wide < wides_in self.now }
        requires port { place.port < length self.now.slaves }
        ensures { option_map (λ answer. answer.now) result
            ≡ must_by (is_given self.now.layout link place.port) (crossing_at self.now.crossings place.wide)
            (due_in self.now link place.wide place.port) }
    {
        if self.is_given(link, place.port) {
            return self.crossing(place.wide).given();
        }
        self.due(link, place.wide, place.port, room)
    }

    /// Puts the reply that a beat ends to what is in flight of a wide source, as it was captured, in the place of another.
    pub(crate) fn capture(
        &self,
        link: Link,
        wide: usize,
        beat: &ReplyHead,
        known: u64,
        lanes: &[u8],
        reply: &mut Pattern,
    )
        requires known { HasLink self.now.layout link }
        requires wide { wide < wides_in self.now }
        requires fits { FitsReply (first_reply (under_in self.now link).replying) beat.now }
        requires ends { let under = under_in self.now link in IsTrue (ends_reply under.bus under.replying beat.now) }
        requires lanes { (under_in self.now link).bus ≤ length lanes.now }
        ensures { reply.new ≡ captured_in self.now link wide beat.now known lanes.now }
    {
        let address = match self.flight(link, wide).asked() {
            Some(sent) => sent.ask().address(),
            None => 0,
        };
        self.link(link)
            .reply_into(beat, address, known, lanes, reply);
    }

    /// That what is kept is of its sizes: it is called for its clauses alone.
    pub(crate) fn sized(&self)
        ensures sized { IsSized self.now }
        ensures masters { length self.now.masters.flights ≡ wides_in self.now }
        ensures ports { length self.now.ports.flights ≡ wides_in self.now }
    {
        // an invariant is known once a field is used
        let _ = &self.wiring.links;
    }
}
