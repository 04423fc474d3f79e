//! What a table of a port says.
ghost use Rattle.std.specs.Prelude.{◌≤◌, length};
ghost use Rattle.check_description.specs.Ranges.{AreRangesOfPort, first_length};

use crate::crossing::PortCrossing;
use crate::kind::PortKind;
use crate::listed::ListedMasters;
use crate::on_reset::OnReset;
use check_beats::Bus;
use check_flight::Order;
use check_memory::Sizes;
use tl_map::Range;

/// What a port holds before any request: the bytes of a file, if it names one, and over them those of `reset`, both from
/// the base of its first range on. All other bytes are zero, or unknown.
#[derive(Debug, Drop)]
pub struct Contents {
    pub reset: Vec<u8>,
    pub image: Option<String>,
    pub unknown: bool,
}

/// When the requests of a port take effect, as they are judged at the masters' links and at its own, if it says so.
#[derive(Debug, Clone, Copy, PartialEq, Eq)]
pub struct PortOrders {
    pub masters: Option<Order>,
    pub ports: Option<Order>,
}

/// A slave port. Without sizes of its own it has those of its kind; without an order on a side, that of the command line
/// stands.
#[derive(Debug, Drop)]
pub struct Port {
    pub name: Option<String>,
    pub kind: PortKind,
    pub ranges: Vec<Range>,
    pub contents: Contents,
    pub sizes: Option<Sizes>,
    pub orders: PortOrders,
    pub bus: Bus,
    /// Whether its ranges are one memory: byte k of each is byte k of the first.
    pub mirror: bool,
    /// The addresses of the bytes that change by themselves.
    pub volatile: Vec<Range>,
    /// What a reset of the whole system does to its bytes.
    pub on_reset: OnReset,
    /// The masters that reach it, and their sources at its link, if it lists them.
    pub listed: Option<ListedMasters>,
    /// What is compared of messages to it if both sides are watched.
    pub crossing: PortCrossing,
    /// Whether replies at its link begin in the order in which their requests began there.
    pub fifo: bool,
    ghost lawful: { AreRangesOfPort ranges.items },
    ghost given: { length contents.reset.items ≤ first_length ranges.items },
}
