//! What a judge knows of a crossbar ahead, apart from its slaves.
ghost use Rattle.std.specs.Prelude.{◌≡◌, ◌↔◌, ◌≤◌, ℕ, length};
ghost use Rattle.check_watch.specs.Plan.{RoutesAt};
ghost use Rattle.tl_types.specs.declared.limits.TheConstants.{MAX_SIZE};

use crate::fifos::FifoLinks;
use crate::links::Links;
use crate::paths::Paths;
use check_beats::{Bus, LinkRules};
use std::alloc::AllocError;
use std::marker::Model;
use tl_map::{AddressMap, SourceOwners};

/// How a crossbar is wired, and which of its links are watched. There is a bus for each master's link, and one for each port's; the
/// error port has no link.
#[derive(Drop)]
pub struct Wiring {
    pub links: Links,
    /// Whether the link of a port is judged by itself if both sides are watched.
    pub apart: Vec<bool>,
    /// At which links replies begin in the order of their requests. It is kept for those who judge that.
    pub fifos: FifoLinks,
    /// What the links may do beyond the standard.
    pub rules: LinkRules,
    pub map: AddressMap,
    pub paths: Paths,
    pub sources: SourceOwners,
    pub master_buses: Vec<Bus>,
    pub port_buses: Vec<Bus>,
}

impl Model for Wiring {
    ghost use Rattle.check_watch.specs.Plan.{Layout};

    ghost Value = { Layout };

    ghost view = { λ w. record {
      links = w.links;
      apart = w.apart.items;
      fifos = w.fifos;
      rules = w.rules;
      owners = w.sources;
      ports = w.map;
      paths = w.paths;
      master_buses = w.master_buses.items;
      port_buses = w.port_buses.items;
    } };
}

impl Clone for Wiring {
    ghost use Rattle.std.specs.Prelude.{◌≡◌};

    ghost is_clone = { λ wiring copy. copy ≡ wiring };

    fn clone(&self) -> Result<Wiring, AllocError> {
        Ok(Wiring {
            links: self.links,
            apart: self.apart.clone()?,
            fifos: self.fifos.clone()?,
            rules: self.rules,
            map: self.map.clone()?,
            paths: self.paths.clone()?,
            sources: self.sources.clone()?,
            master_buses: self.master_buses.clone()?,
            port_buses: self.port_buses.clone()?,
        })
    }
}

impl Wiring {
    /// The port to which a master's requests of this address and size go: the error port, if decoders find no other, or if the
    /// master has no path to the one that they find.
    pub fn route(&self, master: usize, address: u64, size: u8) -> usize
        requires { size ≤ MAX_SIZE }
        ensures port { (port : ℕ) → (result ≡ port) ↔ RoutesAt self.now master address size port }
        ensures in_ports { result ≤ length self.now.ports }
    {
        let found = self.map.route_bytes(address, self.rules.decoded_size(size));
        if self.paths.has(master, found) {
            found
        } else {
            self.map.ports() - 1
        }
    }
}
