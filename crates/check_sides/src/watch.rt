//! The judge of what crossed the links of a crossbar.
ghost use Rattle.std.specs.Prelude.{◌≡◌, ◌≤◌, ◌↔◌, ◌+◌, ℕ, [], length, IsTrue, IfOk, IfSome, IfNone, true, false};
ghost use Rattle.check_beats.specs.Bus.{bus_bytes};
ghost use Rattle.tl_types.specs.declared.limits.TheConstants.{MAX_SIZE};
ghost use Rattle.check_watch.specs.declared.beat.Link.TheVariants.{Port};
ghost use Rattle.check_watch.specs.Plan.{RoutesAt};
ghost use Rattle.check_sides.specs.Groups.{are_apart, is_alone};
ghost use Rattle.check_sides.specs.Plan.{Plan, IsPlan, HasLink, IsWatched, bus_of};
ghost use Rattle.check_sides.specs.View.{IsSized, Keeps, fresh_links};

use crate::groups::{is_port_alone, is_some_alone};
use crate::port::PortLink;
use check_beats::{Bus, LinkRules};
use check_flight::PortSlave;
use check_watch::{GroupWatch, Link, Links, Wiring};
use std::alloc::{AllocError, Global};
use std::marker::Model;
use tl_map::{AddressMap, SourceOwners};

/// What a judge keeps of the beats so far.
#[derive(Drop)]
pub struct Watch {
    /// Of the links that are judged together.
    pub(crate) shared: GroupWatch,
    /// Of each port's link, if some are judged by themselves; else nothing.
    pub(crate) ports: Vec<PortLink>,
}

impl Model for Watch {
    ghost use Rattle.check_sides.specs.View.{View, IsSized};

    ghost Value = { View };

    ghost view = { λ w. record {
      layout = w.shared.layout;
      shared = w.shared;
      ports = w.ports.items;
    } };

    ghost invariant = { λ w. IsSized (record {
      layout = w.shared.layout;
      shared = w.shared;
      ports = w.ports.items;
    }) };
}

impl Clone for Watch {
    ghost use Rattle.std.specs.Prelude.{◌≡◌};

    ghost is_clone = { λ watch copy. copy ≡ watch };

    fn clone(&self) -> Result<Watch, AllocError> {
        Ok(Watch {
            shared: self.shared.clone()?,
            ports: self.ports.clone()?,
        })
    }
}

/// The links of these buses with these slaves, before any beat.
fn links_of(
    alloc: Global,
    buses: &[Bus],
    slaves: Vec<PortSlave>,
) -> Result<Vec<PortLink>, AllocError>
    ensures { IfOk result (λ links. links.items ≡ fresh_links buses.now slaves.items) }
{
    let mut links = Vec::with_capacity(alloc, buses.len())?;
    for (bus, slave) in buses.iter().zip(slaves) {
        links.push(PortLink::new(alloc, *bus, slave))?;
    }
    Ok(links)
}

impl Watch {
    /// The judge of a crossbar that is wired so, before any beat. There is a slave for each port, the error port's last, as it is at
    /// reset. A port that is flagged is judged by itself if both sides are watched. If some port is, slaves are given a second
    /// time, which the ports' links have by themselves; otherwise that list is not looked at.
    pub fn new(
        alloc: Global,
        wiring: Wiring,
        slaves: Vec<PortSlave>,
        own: Vec<PortSlave>,
    ) -> Result<Watch, AllocError>
        requires slaves { length slaves.items ≡ length wiring.ports + 1 }
        requires masters { length wiring.master_buses ≡ length wiring.owners }
        requires ports { length wiring.port_buses ≡ length wiring.ports }
        requires own { IsTrue (are_apart wiring) → length own.items ≡ length wiring.ports + 1 }
        ensures layout { IfOk result (λ watch. watch.layout ≡ wiring) }
        ensures plan { IfOk result (λ watch.
            (plan : Plan) × (plan.resets ≡ slaves.items) × (plan.own ≡ own.items) × Keeps plan [] watch) }
        ensures keeps { (plan : Plan) → IsPlan plan → plan.layout ≡ wiring → plan.resets ≡ slaves.items
            → (IsTrue (are_apart wiring) → plan.own ≡ own.items) → IfOk result (Keeps plan []) }
    {
        let ports = links_of(alloc, &wiring.port_buses, own)?;
        let shared = GroupWatch::new(alloc, wiring, slaves)?;
        Ok(Watch { shared, ports })
    }

    /// Whether the crossbar has a link, and it is watched.
    pub fn watches(&self, link: Link) -> bool
        ensures { IsTrue result
            ↔ (HasLink self.now.layout link × IsWatched self.now.layout.links link) }
    {
        match (link, self.shared.links()) {
            (Link::Master(master), Links::Both | Links::Masters | Links::Each) => {
                master < self.shared.sources().masters()
            }
            (Link::Port(port), Links::Both | Links::Ports | Links::Each) => {
                port < self.shared.map().ports() - 1
            }
            (Link::Master(_), Links::Ports) | (Link::Port(_), Links::Masters) => false,
        }
    }

    /// The links that are watched.
    pub fn links(&self) -> Links
        ensures { result ≡ self.now.layout.links }
    {
        self.shared.links()
    }

    /// What the system says of all its links.
    pub fn rules(&self) -> LinkRules
        ensures { result ≡ self.now.layout.rules }
    {
        self.shared.rules()
    }

    /// The wide sources of the masters.
    pub fn sources(&self) -> &SourceOwners
        ensures { result.now ≡ self.now.layout.owners }
    {
        self.shared.sources()
    }

    /// The ports and their addresses.
    pub fn map(&self) -> &AddressMap
        ensures { result.now ≡ self.now.layout.ports }
    {
        self.shared.map()
    }

    /// The port to which a master's requests of this address and size go.
    pub fn route(&self, master: usize, address: u64, size: u8) -> usize
        requires { size ≤ MAX_SIZE }
        ensures { (port : ℕ) → (result ≡ port) ↔ RoutesAt self.now.layout master address size port }
    {
        self.shared.route(master, address, size)
    }

    /// The bus of a link.
    pub fn bus(&self, link: Link) -> Bus
        requires { HasLink self.now.layout link }
        ensures { bus_bytes result ≡ bus_of self.now.layout link }
    {
        self.shared.bus(link)
    }

    /// That what is kept is of its sizes: it is called for its clauses alone.
    pub(crate) fn sized(&self)
        ensures { IsSized self.now }
    {
        // an invariant is known once a field is used
        let _ = &self.ports;
    }

    /// Whether the link of a port is judged by itself.
    pub fn is_alone(&self, port: usize) -> bool
        ensures { result ≡ is_alone self.now.layout (Port port) }
    {
        is_port_alone(self.shared.links(), self.shared.is_apart(port))
    }

    /// Whether some port's link is judged by itself.
    pub fn are_apart(&self) -> bool
        ensures { result ≡ are_apart self.now.layout }
    {
        is_some_alone(self.shared.links(), self.shared.apart())
    }

    /// The port whose link this is, if it is judged by itself.
    pub(crate) fn alone(&self, link: Link) -> Option<usize>
        ensures alone { IfSome result (λ port. (link ≡ Port port)
            × (is_alone self.now.layout link ≡ true)) }
        ensures shared { IfNone result (is_alone self.now.layout link ≡ false) }
    {
        match link {
            Link::Port(port) if self.is_alone(port) => Some(port),
            Link::Port(_) | Link::Master(_) => None,
        }
    }
}
