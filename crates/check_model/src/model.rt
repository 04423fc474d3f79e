//! The crossbar that serves one request a call.
ghost use Rattle.std.specs.Prelude.{◌≡◌, ◌≢◌, ◌↔◌, ◌<◌, ℕ, Err, IfErr, IfNone, IfOk, IfSome, OnErr, OnOk, Some, length, map};
ghost use Rattle.tl_map.specs.Map.{RoutesBytes};
ghost use Rattle.check_memory.specs.declared.slave.Slave.TheVariants as Stands;
ghost use Rattle.check_start.specs.Loads.{ImagesFit};
ghost use Rattle.check_watch.specs.Plan.{RoutesAt};
ghost use Rattle.check_model.specs.Bytes.{IsNowhere, IsPoked, IsPortOf, shown_at};
ghost use Rattle.check_model.specs.Model.{Accepts, IsFirstServeFault, IsServed, TakesBytes, after_reset, at_reset};
ghost use Rattle.check_model.specs.declared.fault.ByteFault.TheVariants.{Device, Nowhere};
ghost use Rattle.check_model.specs.declared.fault.ServeFault.TheVariants.{Memory};
ghost use Rattle.check_model.specs.declared.port.ModelPort.{ModelPort as PortView};

use crate::fault::{ByteFault, ServeFault};
use crate::port::{ModelPort, load_ports, ports_of};
use check_description::Description;
use check_flight::Answer;
use check_start::Loads;
use check_turns::{FifoLinks, Links, Paths, Wiring};
use std::alloc::{AllocError, Global};
use std::marker::Model;
use tl_types::Ask;

/// A crossbar: the way of requests, its slave ports with the error port after them, whether there may be resets of the whole
/// system, and what these load.
#[derive(Drop)]
pub struct SystemModel {
    wiring: Wiring,
    ports: Vec<ModelPort>,
    resets: bool,
    loads: Loads,
}

impl Model for SystemModel {
    ghost use Rattle.std.specs.Prelude.{◌≡◌, ◌+◌, length};
    ghost use Rattle.check_model.specs.Model.{ModelState};

    ghost Value = { ModelState };

    ghost view = { λ m. record {
      layout = m.wiring;
      ports = m.ports.items;
      resets = m.resets;
      loads = m.loads;
    } };

    ghost invariant = { λ m. (length m.ports.items ≡ length m.wiring.ports + 1)
        × (length m.loads ≡ length m.wiring.ports + 1) };
}

impl Clone for SystemModel {
    ghost use Rattle.std.specs.Prelude.{◌≡◌};

    ghost is_clone = { λ model copy. copy ≡ model };

    fn clone(&self) -> Result<SystemModel, AllocError> {
        Ok(SystemModel {
            wiring: self.wiring.clone()?,
            ports: self.ports.clone()?,
            resets: self.resets,
            loads: self.loads.clone()?,
        })
    }
}

impl SystemModel {
    /// A system before any request. Images has the bytes of the image of each port by its number, none of a port that names
    /// no image.
    pub fn new(
        alloc: Global,
        system: Description,
        images: &[Vec<u8>],
    ) -> Result<SystemModel, AllocError>
        requires { ImagesFit (map (λ image. image.items) images.now) system.ports }
        ensures { IfOk result (λ model. model ≡ at_reset system (map (λ image. image.items) images.now)) }
    {
        let parts = system.into_parts();
        let ports = ports_of(alloc, &parts.ports, images)?;
        let loads = Loads::of(alloc, &parts.ports, images)?;
        // a model has no links
        let wiring = Wiring {
            links: Links::Masters,
            apart: Vec::new(alloc),
            fifos: FifoLinks::new(Vec::new(alloc), Vec::new(alloc)),
            rules: parts.rules,
            map: parts.addresses,
            paths: Paths::new(parts.paths),
            sources: parts.sources,
            master_buses: Vec::new(alloc),
            port_buses: Vec::new(alloc),
        };
        Ok(SystemModel {
            wiring,
            ports,
            resets: parts.resets,
            loads,
        })
    }

    /// The port to which a master's request goes, whose source is the master's own.
    fn admit(&self, master: usize, ask: &Ask) -> Result<usize, ServeFault>
        ensures accepted { OnOk result (Accepts self.now master ask.now) }
        ensures port { IfOk result (RoutesAt self.now.layout master ask.now.address ask.now.size) }
        ensures in_ports { IfOk result (λ port. port < length self.now.ports) }
        ensures fault { IfErr result (IsFirstServeFault self.now master ask.now) }
    {
        let Some(count) = self.wiring.sources.count(master) else {
            return Err(ServeFault::NoSuchMaster);
        };
        if u32::from(ask.source()) >= count {
            return Err(ServeFault::NoSuchSource);
        }
        Ok(self.wiring.route(master, ask.address(), ask.size()))
    }

    /// Serves a master's request, whose source is the master's own, and puts its answer in the place of another.
    pub fn serve(
        &mut self,
        alloc: Global,
        master: usize,
        ask: &Ask,
        answer: &mut Answer,
    ) -> Result<(), ServeFault>
        ensures accepted { OnOk result (Accepts self.old master ask.now) }
        ensures served { OnOk result (IsServed self.old master ask.now answer.new self.new) }
        ensures fault { IfErr result (λ fault. fault ≢ Memory → IsFirstServeFault self.old master ask.now fault) }
        ensures memory { result ≡ Err Memory → Accepts self.old master ask.now × TakesBytes self.old master ask.now }
        ensures unchanged { OnErr result (self.new ≡ self.old) }
        ensures answer_unchanged { OnErr result (answer.new ≡ answer.old) }
    {
        let port = self.admit(master, ask)?;
        Ok(self.ports[port].serve(alloc, port, ask, answer)?)
    }

    /// The port that has an address, if one has it.
    fn port_of(&self, address: u64) -> Option<usize>
        ensures some { IfSome result (λ number. RoutesBytes self.now.layout.ports address 0 number) }
        ensures in_ports { IfSome result (λ number. number < length self.now.layout.ports) }
        ensures held { IfSome result (λ number. number < length self.now.ports) }
        ensures only { (number : ℕ) → RoutesBytes self.now.layout.ports address 0 number
            → number < length self.now.layout.ports → result ≡ Some number }
        ensures none { IfNone result (IsNowhere self.now address) }
    {
        let port = self.wiring.map.route_bytes(address, 0);
        if port + 1 == self.wiring.map.ports() {
            return None;
        }
        Some(port)
    }

    /// What is seen of the byte at an address: it may be unknown. Which master has a path there, and which sizes the slave
    /// serves, is not looked at.
    pub fn peek(&self, address: u64) -> Result<Option<u8>, ByteFault>
        ensures nowhere { result ≡ Err Nowhere ↔ IsNowhere self.now address }
        ensures seen { (number : ℕ) (port : PortView) → IsPortOf self.now address number port
            → result ≡ shown_at port.slave address }
    {
        let Some(port) = self.port_of(address) else {
            return Err(ByteFault::Nowhere);
        };
        self.ports[port].peek(address)
    }

    /// Puts a byte, known or unknown, at an address, at a ROM too.
    pub fn poke(&mut self, alloc: Global, address: u64, byte: Option<u8>) -> Result<(), ByteFault>
        ensures nowhere { result ≡ Err Nowhere ↔ IsNowhere self.old address }
        ensures device { (number : ℕ) (port : PortView) → IsPortOf self.old address number port
            → result ≡ Err Device ↔ (port.slave ≡ Stands.Device) }
        ensures poked { OnOk result (IsPoked self.old address byte self.new) }
        ensures unchanged { OnErr result (self.new ≡ self.old) }
    {
        let Some(port) = self.port_of(address) else {
            return Err(ByteFault::Nowhere);
        };
        self.ports[port].poke(alloc, address, byte)
    }

    /// Whether there may be resets of the whole system.
    pub fn has_resets(&self) -> bool
        ensures { result ≡ self.now.resets }
    {
        self.resets
    }

    /// A reset of the whole system. If there is no memory for what it loads, nothing is changed.
    pub fn reset(&mut self) -> Result<(), AllocError>
        ensures reset { OnOk result (self.new ≡ after_reset self.old) }
        ensures unchanged { OnErr result (self.new ≡ self.old) }
    {
        let mut loaded = self.loads.make()?;
        load_ports(&mut self.ports, &mut loaded);
        Ok(())
    }

    /// How many masters there are.
    pub fn masters(&self) -> usize
        ensures { result ≡ length self.now.layout.owners }
    {
        self.wiring.sources.masters()
    }

    /// How many ports there are, the error port among them.
    pub fn ports(&self) -> usize
        ensures { result ≡ length self.now.ports }
    {
        self.ports.len()
    }
}
