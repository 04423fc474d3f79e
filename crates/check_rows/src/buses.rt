//! The links of a system: their buses, the numbers of sources at ports' links, and whether there are resets.
ghost use Rattle.std.specs.Prelude.{◌≡◌};
ghost use Rattle.check_beats.specs.Bus.{bus_bytes};
ghost use Rattle.check_rows.specs.Buses.{HasBus, IsLinkOf, bus_of_link};

use crate::port_numbers::PortNumbers;
use check_beats::Bus;
use check_watch::Link;

/// The buses of the links of a system, by the numbers of its masters and of its ports. A link exists if it has one.
/// A capture of the system may have rows of resets, or not. At a port's link a beat may have numbers of sources of the link's
/// own: a port behind the end of the list has none.
#[derive(Debug, Clone, Copy)]
pub struct Buses<'a> {
    pub masters: &'a [Bus],
    pub ports: &'a [Bus],
    pub resets: bool,
    pub numbers: &'a [Option<PortNumbers>],
}

impl Buses<'_> {
    /// The bus of a link.
    pub fn of(&self, link: Link) -> Bus
        requires { IsLinkOf self.now.masters.now self.now.ports.now link }
        ensures bus { HasBus self.now.masters.now self.now.ports.now link result }
        ensures bytes { bus_bytes result ≡ bus_of_link self.now.masters.now self.now.ports.now link }
    {
        match link {
            Link::Master(number) => self.masters[number],
            Link::Port(number) => self.ports[number],
        }
    }
}
