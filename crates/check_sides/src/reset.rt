//! A reset of the whole system.
ghost use Rattle.std.specs.Prelude.{◌≡◌, ◌≢◌, ◌+◌, ℕ, List, [], length, Some, OnOk};
ghost use Rattle.check_beats.specs.State.{ask_so_far};
ghost use Rattle.check_flight.specs.PortSlave.{PortSlave};
ghost use Rattle.check_watch.specs.Plan.{Sighting};
ghost use Rattle.check_watch.specs.Reset.{IsLeftPort, loaded_at};
ghost use Rattle.check_sides.specs.Plan.{Plan};
ghost use Rattle.check_sides.specs.Reset.{AreResetLinks, IsCutIn, IsReset, IsResetOf, plan_after_reset};
ghost use Rattle.check_sides.specs.View.{HaveBuses, Keeps};
ghost use Rattle.check_beats.specs.declared.bus.Bus.{Bus};

use crate::port::PortLink;
use crate::watch::Watch;
use check_memory::Slave;
use std::alloc::{AllocError, Global};

impl PortLink {
    /// The request that has begun at this link and not ended is cut short at its slave.
    fn cut_under_way(&mut self, alloc: Global) -> Result<(), AllocError>
        ensures rest { self.new ≡ record self.old { slave = self.new.slave } }
        ensures cut { OnOk result (IsLeftPort (λ ask. ask_so_far self.old.under.asking ≡ Some ask)
            self.old.slave self.new.slave) }
    {
        match self.under.ask_so_far() {
            Some(ask) => self.slave.cut_short(alloc, &ask),
            None => Ok(()),
        }
    }

    /// Each request that a reset cuts short at this link of a port is cut short at its slave.
    fn cut_all(&mut self, alloc: Global, port: usize) -> Result<(), AllocError>
        ensures rest { self.new ≡ record self.old { slave = self.new.slave } }
        ensures cut { OnOk result (IsLeftPort (IsCutIn self.old port) self.old.slave self.new.slave) }
    {
        self.cut_under_way(alloc)?;
        let answering = self.under.replying_source();
        self.flights
            .cut_short(alloc, port, answering, &mut self.slave)
    }

    /// The whole system is reset, and this is loaded into the slave of this link of a port: `None` says that it keeps what it
    /// has. Memory may be refused: then nothing is promised of what is kept from then on.
    pub fn reset(
        &mut self,
        alloc: Global,
        port: usize,
        loaded: Option<Slave>,
    ) -> Result<(), AllocError>
        ensures bus { self.new.under.bus ≡ self.old.under.bus }
        ensures reset { OnOk result (IsResetOf self.old port loaded self.new) }
    {
        self.cut_all(alloc, port)?;
        self.slave.reset(loaded);
        self.under.reset();
        self.flights.clear_all();
        Ok(())
    }
}

/// What is loaded into the slave of a port, which is taken.
fn take_load(loaded: &mut [Option<Slave>], port: usize) -> Option<Slave>
    ensures value { result ≡ loaded_at loaded.old port }
    ensures rest { (other : ℕ) → other ≢ port → loaded_at loaded.new other ≡ loaded_at loaded.old other }
{
    if port < loaded.len() {
        loaded[port].take()
    } else {
        None
    }
}

/// The links of ports are reset, and what is loaded into their slaves is taken.
fn reset_ports(
    alloc: Global,
    ports: &mut [PortLink],
    loaded: &mut [Option<Slave>],
) -> Result<(), AllocError>
    ensures counted { length ports.new ≡ length ports.old }
    ensures buses { (buses : List Bus) → HaveBuses ports.old buses → HaveBuses ports.new buses }
    ensures reset { OnOk result (AreResetLinks ports.old loaded.old ports.new) }
{
    for port in 0..ports.len() {
        ports[port].reset(alloc, port, take_load(loaded, port))?;
    }
    Ok(())
}

impl Watch {
    /// The whole system is reset. This is loaded into the slave of each port, the error port's last, as the links see it that
    /// are judged together; and `own` into those of ports' links that are judged each by itself. `None` says that a slave keeps
    /// what it has, and so does the end of `own`. Memory may be refused: then nothing is promised of what is kept from then on.
    pub fn reset(
        &mut self,
        alloc: Global,
        loaded: Vec<Option<Slave>>,
        mut own: Vec<Option<Slave>>,
    ) -> Result<(), AllocError>
        requires { length loaded.items ≡ length self.old.layout.ports + 1 }
        ensures layout { self.new.layout ≡ self.old.layout }
        ensures reset { (plan : Plan) (past : List Sighting) → Keeps plan past self.old → OnOk result
            ((resets : List PortSlave) × (slaves : List PortSlave) × IsReset plan past loaded.items own.items resets slaves
            × Keeps (plan_after_reset plan resets slaves) [] self.new) }
    {
        self.sized();
        self.shared.reset(alloc, loaded)?;
        reset_ports(alloc, &mut self.ports, &mut own)
    }
}
