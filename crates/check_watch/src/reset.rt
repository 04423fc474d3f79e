//! A reset of the whole system.
ghost use Rattle.std.specs.Prelude.{◌≡◌, ◌↔◌, ◌<◌, ◌+◌, ℕ, List, [], length, map, option_map, OnOk, IsTrue};
ghost use Rattle.check_flight.specs.Crossing.Crossing.{Waiting};
ghost use Rattle.check_flight.specs.Flight.{IsAskedAt, asked};
ghost use Rattle.check_flight.specs.PortSlave.{PortSlave, once_reset};
ghost use Rattle.check_watch.specs.declared.beat.Link.TheVariants.{Master, Port};
ghost use Rattle.check_watch.specs.Past.{slave_at, state};
ghost use Rattle.check_watch.specs.Plan.{HasLink, Plan, Sighting, link_number};
ghost use Rattle.check_watch.specs.Reset.{AreLeft, AreReset, IsBeingAnswered, IsCut, IsCutOpen, IsCutUnderWay, IsTaken, loaded_at, reset_plan};
ghost use Rattle.check_watch.specs.View.{KeepsGroup, SuitsGroup, flight_in, state_in, wides_in};

use crate::beat::Link;
use crate::watch::GroupWatch;
use check_cells::AskSoFar;
use check_flight::{Crossing, PortSlave};
use check_memory::Slave;
use std::alloc::{AllocError, Global};

/// No request has come across any more.
fn clear_crossings(crossings: &mut [Crossing])
    ensures { crossings.new ≡ map (λ _. Waiting) crossings.old }
{
    for crossing in crossings.iter_mut() {
        crossing.wait();
    }
}

/// The slaves are reset, with what is loaded into each, which is taken.
fn reset_slaves(slaves: &mut [PortSlave], loaded: &mut [Option<Slave>])
    requires { length loaded.old ≡ length slaves.old }
    ensures counted { length slaves.new ≡ length slaves.old }
    ensures each { (port : ℕ) → slave_at slaves.new port
        ≡ once_reset (slave_at slaves.old port) (loaded_at loaded.old port) }
{
    for port in 0..slaves.len() {
        slaves[port].reset(loaded[port].take());
    }
}

impl GroupWatch {
    /// Whether the system has a link.
    fn has(&self, link: Link) -> bool
        ensures { IsTrue result ↔ HasLink self.now.layout link }
    {
        self.sized();
        match link {
            Link::Master(master) => master < self.masters.links(),
            Link::Port(port) => port < self.ports.links(),
        }
    }

    /// Whether the reply to what is in flight of a wide source has begun at a link and not ended.
    fn is_answered(&self, link: Link, wide: usize) -> bool
        requires { HasLink self.now.layout link }
        ensures { IsTrue result ↔ IsBeingAnswered self.now.layout (state_in self.now) link wide }
    {
        let Some(source) = self.link(link).replying_source() else {
            return false;
        };
        match link {
            Link::Master(_) => match self.wide(link, source) {
                Some(found) => usize::from(found) == wide,
                None => false,
            },
            Link::Port(_) => usize::from(source) == wide,
        }
    }

    /// A request at a link is cut short at its slave, if a slave takes it there.
    fn cut_at(&mut self, alloc: Global, link: Link, ask: &AskSoFar) -> Result<(), AllocError>
        requires { HasLink self.old.layout link }
        ensures rest { self.new ≡ record self.old { slaves = self.new.slaves } }
        ensures counted { length self.new.slaves ≡ length self.old.slaves }
        ensures cut { (plan : Plan) → SuitsGroup plan self.old → OnOk result
            (AreLeft (λ port other. IsTaken plan link port other × (other ≡ ask.now)) self.old.slaves self.new.slaves) }
    {
        let port = self.port(link, ask.address(), ask.size());
        if self.takes_effect(link, port) {
            self.slaves[port].cut_short(alloc, ask)?;
        }
        Ok(())
    }

    /// The request of a wide source that has ended at a link.
    fn asked_so_far(&self, link: Link, wide: usize) -> Option<AskSoFar>
        requires { wide < wides_in self.now }
        ensures { result ≡ option_map (λ sent. sent.ask) (asked (flight_in self.now link wide).turn) }
    {
        match self.flight(link, wide).asked() {
            Some(sent) => Some(AskSoFar::whole(sent.ask())),
            None => None,
        }
    }

    /// The request that has begun at a link and not ended is cut short at its slave.
    fn cut_under_way(&mut self, alloc: Global, link: Link) -> Result<(), AllocError>
        requires { HasLink self.old.layout link }
        ensures rest { self.new ≡ record self.old { slaves = self.new.slaves } }
        ensures counted { length self.new.slaves ≡ length self.old.slaves }
        ensures cut { (plan : Plan) → SuitsGroup plan self.old → OnOk result
            (AreLeft (IsCutUnderWay plan (state_in self.old) link) self.old.slaves self.new.slaves) }
    {
        match self.link(link).ask_so_far() {
            Some(ask) => self.cut_at(alloc, link, &ask),
            None => Ok(()),
        }
    }

    /// The request of a wide source that has ended at a link is cut short at its slave, if its reply has not begun there.
    fn cut_open(&mut self, alloc: Global, link: Link, wide: usize) -> Result<(), AllocError>
        requires wide { wide < wides_in self.old }
        requires here { IsAskedAt (link_number link) (flight_in self.old link wide).turn }
        ensures rest { self.new ≡ record self.old { slaves = self.new.slaves } }
        ensures counted { length self.new.slaves ≡ length self.old.slaves }
        ensures cut { (plan : Plan) → SuitsGroup plan self.old → OnOk result
            (AreLeft (IsCutOpen plan (state_in self.old) link wide) self.old.slaves self.new.slaves) }
    {
        if !self.has(link) || self.is_answered(link, wide) {
            return Ok(());
        }
        match self.asked_so_far(link, wide) {
            Some(ask) => self.cut_at(alloc, link, &ask),
            None => Ok(()),
        }
    }

    /// The request of a wide source is cut short at its slave that has ended at a master's link, if its reply has not begun
    /// there.
    fn cut_sent(&mut self, alloc: Global, wide: usize) -> Result<(), AllocError>
        requires { wide < wides_in self.old }
        ensures rest { self.new ≡ record self.old { slaves = self.new.slaves } }
        ensures counted { length self.new.slaves ≡ length self.old.slaves }
        ensures cut { (plan : Plan) → SuitsGroup plan self.old → OnOk result
            (AreLeft (λ port ask. (master : ℕ) × IsCutOpen plan (state_in self.old) (Master master) wide port ask)
            self.old.slaves self.new.slaves) }
    {
        self.sized();
        match self.masters.flight(wide).asked_at() {
            Some(master) => self.cut_open(alloc, Link::Master(master), wide),
            None => Ok(()),
        }
    }

    /// The same of one that has ended at a port's link.
    fn cut_taken(&mut self, alloc: Global, wide: usize) -> Result<(), AllocError>
        requires { wide < wides_in self.old }
        ensures rest { self.new ≡ record self.old { slaves = self.new.slaves } }
        ensures counted { length self.new.slaves ≡ length self.old.slaves }
        ensures cut { (plan : Plan) → SuitsGroup plan self.old → OnOk result
            (AreLeft (λ port ask. (number : ℕ) × IsCutOpen plan (state_in self.old) (Port number) wide port ask)
            self.old.slaves self.new.slaves) }
    {
        self.sized();
        match self.ports.flight(wide).asked_at() {
            Some(port) => self.cut_open(alloc, Link::Port(port), wide),
            None => Ok(()),
        }
    }

    /// The requests of a wide source are cut short at their slaves that have ended, and whose replies have not begun.
    fn cut_wide(&mut self, alloc: Global, wide: usize) -> Result<(), AllocError>
        requires { wide < wides_in self.old }
        ensures rest { self.new ≡ record self.old { slaves = self.new.slaves } }
        ensures counted { length self.new.slaves ≡ length self.old.slaves }
        ensures cut { (plan : Plan) → SuitsGroup plan self.old → OnOk result
            (AreLeft (λ port ask. (link : Link) × IsCutOpen plan (state_in self.old) link wide port ask)
            self.old.slaves self.new.slaves) }
    {
        self.cut_sent(alloc, wide)?;
        self.cut_taken(alloc, wide)
    }

    /// The requests that have begun at masters' links and not ended are cut short at their slaves.
    fn cut_sending(&mut self, alloc: Global) -> Result<(), AllocError>
        ensures rest { self.new ≡ record self.old { slaves = self.new.slaves } }
        ensures counted { length self.new.slaves ≡ length self.old.slaves }
        ensures cut { (plan : Plan) → SuitsGroup plan self.old → OnOk result
            (AreLeft (λ port ask. (master : ℕ) × IsCutUnderWay plan (state_in self.old) (Master master) port ask)
            self.old.slaves self.new.slaves) }
    {
        for master in 0..self.masters.links() {
            self.cut_under_way(alloc, Link::Master(master))?;
        }
        Ok(())
    }

    /// The requests that have begun at ports' links and not ended are cut short at their slaves.
    fn cut_arriving(&mut self, alloc: Global) -> Result<(), AllocError>
        ensures rest { self.new ≡ record self.old { slaves = self.new.slaves } }
        ensures counted { length self.new.slaves ≡ length self.old.slaves }
        ensures cut { (plan : Plan) → SuitsGroup plan self.old → OnOk result
            (AreLeft (λ port ask. (number : ℕ) × IsCutUnderWay plan (state_in self.old) (Port number) port ask)
            self.old.slaves self.new.slaves) }
    {
        for port in 0..self.ports.links() {
            self.cut_under_way(alloc, Link::Port(port))?;
        }
        Ok(())
    }

    /// The requests that have ended, and whose replies have not begun, are cut short at their slaves.
    fn cut_in_flight(&mut self, alloc: Global) -> Result<(), AllocError>
        ensures rest { self.new ≡ record self.old { slaves = self.new.slaves } }
        ensures counted { length self.new.slaves ≡ length self.old.slaves }
        ensures cut { (plan : Plan) → SuitsGroup plan self.old → OnOk result
            (AreLeft (λ port ask. (wide : ℕ) × ((link : Link) × IsCutOpen plan (state_in self.old) link wide port ask))
            self.old.slaves self.new.slaves) }
    {
        self.sized();
        for wide in 0..self.crossings.len() {
            self.cut_wide(alloc, wide)?;
        }
        Ok(())
    }

    /// Each request that a reset cuts short is cut short at its slave.
    fn cut_all(&mut self, alloc: Global) -> Result<(), AllocError>
        ensures rest { self.new ≡ record self.old { slaves = self.new.slaves } }
        ensures counted { length self.new.slaves ≡ length self.old.slaves }
        ensures cut { (plan : Plan) → SuitsGroup plan self.old → OnOk result
            (AreLeft (IsCut plan (state_in self.old)) self.old.slaves self.new.slaves) }
    {
        self.cut_sending(alloc)?;
        self.cut_arriving(alloc)?;
        self.cut_in_flight(alloc)
    }

    /// The whole system is reset, and this is loaded into the slave of each port, the error port's last: `None` says that it
    /// keeps what it has. Memory may be refused: then nothing is promised of what is kept from then on.
    pub fn reset(&mut self, alloc: Global, mut loaded: Vec<Option<Slave>>) -> Result<(), AllocError>
        requires { length loaded.items ≡ length self.old.layout.ports + 1 }
        ensures layout { self.new.layout ≡ self.old.layout }
        ensures reset { (plan : Plan) (past : List Sighting) → KeepsGroup plan past self.old → OnOk result
            ((after : List PortSlave) × AreReset plan (state plan past) loaded.items after
            × KeepsGroup (reset_plan plan after) [] self.new) }
    {
        self.sized();
        self.cut_all(alloc)?;
        reset_slaves(&mut self.slaves, &mut loaded);
        self.masters.reset();
        self.ports.reset();
        clear_crossings(&mut self.crossings);
        Ok(())
    }
}
