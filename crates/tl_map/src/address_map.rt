//! The map of addresses to ports that may have several ranges.
ghost use Rattle.std.specs.Prelude.{◌≡◌, ◌+◌, ◌^◌, ◌<◌, ◌≤◌, ℕ, ◌↔◌, ◌++◌, IsTrue, IsSome, length, map, IfOk, OnOk, IfErr, IfSome, IfNone, Some, slice_get, Contains, Any};
ghost use Rattle.std.specs.List.Sorted.{IsPermutation};
ghost use Rattle.tl_map.specs.declared.range.Range.{Range};
ghost use Rattle.tl_map.specs.Range.{Overlaps};
ghost use Rattle.tl_map.specs.Map.{AreApartBefore, AreRanges, HasRoutes, IsFirstAddressMapFault, IsLawfulAddressMap, MeetsEarlier, MeetsFirst, Routes, RoutesBytes, lists_in, range_at};
ghost use Rattle.tl_map.specs.Placed.{AreListed, ArePlaced, DoRise, IsKeptMap, IsLastFrom, placed_at};

use crate::limits::MAX_JUDGED_PORTS;
use crate::range::Range;
use std::alloc::{AllocError, Global};
use std::marker::Model;
use thiserror::Error;
use tl_types::{Ask, MAX_SIZE};

/// Why ranges make no map: two have a byte in common, whose ports are named, the earlier one first; or memory is
/// refused.
#[derive(Debug, Clone, Copy, PartialEq, Eq, Error)]
pub enum AddressMapFault {
    #[error("ports {0} and {1} overlap")]
    Overlap(usize, usize),
    #[error("memory refused")]
    Memory,
}

/// A range and the port that it is of.
#[derive(Debug, Clone, Copy, PartialEq, Eq)]
struct Placed {
    range: Range,
    port: usize,
}

/// The ranges of ports, no two with a byte in common, and after them the error port, which has none.
#[derive(Debug, Drop)]
pub struct AddressMap {
    ports: Vec<Vec<Range>>,
    /// The ranges of all ports by rising bases, so that a port is found by halving.
    placed: Vec<Placed>,
}

impl Model for AddressMap {
    ghost use Rattle.std.specs.Prelude.{List};
    ghost use Rattle.tl_map.specs.declared.range.Range.{Range};
    ghost use Rattle.tl_map.specs.Map.{lists_in};
    ghost use Rattle.tl_map.specs.Placed.{IsKeptMap};

    ghost Value = { List (List Range) };

    ghost view = { λ m. lists_in m.ports.items };

    ghost invariant = { λ m. IsKeptMap (lists_in m.ports.items) m.placed.items };
}

impl Clone for AddressMap {
    ghost use Rattle.std.specs.Prelude.{◌≡◌};

    ghost is_clone = { λ map copy. copy ≡ map };

    fn clone(&self) -> Result<AddressMap, AllocError> {
        AddressMap::keep(*self.placed.allocator(), &self.ports)
    }
}

impl AddressMap {
    /// The map of ports with these ranges, or the first fault that they have.
    pub fn new(alloc: Global, ports: &[Vec<Range>]) -> Result<AddressMap, AddressMapFault>
        requires { AreRanges (lists_in ports.now) }
        ensures made { IfOk result (λ map. map ≡ lists_in ports.now) }
        ensures lawful { OnOk result (IsLawfulAddressMap (lists_in ports.now)) }
        ensures fault { IfErr result (IsFirstAddressMapFault (lists_in ports.now)) }
    {
        if let Some(fault) = first_fault(ports) {
            return Err(fault);
        }
        AddressMap::keep(alloc, ports).map_err(|_| AddressMapFault::Memory)
    }

    /// The map of ports with ranges that have no fault.
    fn keep(alloc: Global, ports: &[Vec<Range>]) -> Result<AddressMap, AllocError>
        requires { IsLawfulAddressMap (lists_in ports.now) }
        ensures { IfOk result (λ map. map ≡ lists_in ports.now) }
    {
        let placed = place_all(alloc, ports)?;
        let ports = copy_all(alloc, ports)?;
        Ok(AddressMap { ports, placed })
    }

    /// The port of a request: the one that has a range with all its bytes, or the error port.
    pub fn route(&self, ask: &Ask) -> usize
        ensures port { (port : ℕ) → (result ≡ port) ↔ Routes self.now ask.now port }
        ensures in_ports { result ≤ length self.now }
        ensures past_end { 2 ^ 64 < ask.now.address + 2 ^ ask.now.size → result ≡ length self.now }
    {
        self.route_bytes(ask.address(), ask.size())
    }

    /// The port of any request of this address and size.
    pub fn route_bytes(&self, address: u64, size: u8) -> usize
        requires { size ≤ MAX_SIZE }
        ensures port { (port : ℕ) → (result ≡ port) ↔ RoutesBytes self.now address size port }
        ensures in_ports { result ≤ length self.now }
        ensures past_end { 2 ^ 64 < address + 2 ^ size → result ≡ length self.now }
    {
        port_of(&self.ports, &self.placed, address, size)
    }

    /// How many ports there are, the error port among them.
    pub fn ports(&self) -> usize
        ensures value { result ≡ length self.now + 1 }
        ensures in_limit { result ≤ MAX_JUDGED_PORTS + 1 }
        ensures lawful { IsLawfulAddressMap self.now }
        ensures routes { HasRoutes self.now }
    {
        self.ports.len() + 1
    }

    /// The ranges of a port.
    pub fn ranges(&self, port: usize) -> &[Range]
        requires { port < length self.now }
        ensures { slice_get self.now port ≡ Some result.now }
    {
        self.ports[port].as_slice()
    }
}

// ---- where a request goes

/// The port of some bytes, by what a map keeps.
fn port_of(ports: &[Vec<Range>], placed: &[Placed], address: u64, size: u8) -> usize
    requires kept { IsKeptMap (lists_in ports.now) placed.now }
    requires in_limit { size ≤ MAX_SIZE }
    ensures port { (port : ℕ) → (result ≡ port) ↔ RoutesBytes (lists_in ports.now) address size port }
    ensures in_ports { result ≤ length (lists_in ports.now) }
{
    let Some(last) = last_from(placed, address) else {
        return ports.len();
    };
    if last.range.holds(address, size) {
        last.port
    } else {
        ports.len()
    }
}

/// The last range, by rising bases, that begins at an address or below. It is found by halving; no clause says how many
/// ranges are looked at.
fn last_from(placed: &[Placed], address: u64) -> Option<Placed>
    requires { DoRise placed.now }
    ensures found { IfSome result (IsLastFrom placed.now address) }
    ensures none { IfNone result
        ((other : Placed) → Contains placed.now other → address < other.range.base) }
{
    let count = placed.partition_point(|each| each.range.base <= address);
    if count == 0 {
        return None;
    }
    Some(placed[count - 1])
}

// ---- what a map keeps

/// Copies of the ranges of ports.
fn copy_all(alloc: Global, ports: &[Vec<Range>]) -> Result<Vec<Vec<Range>>, AllocError>
    ensures { IfOk result (λ copies. lists_in copies.items ≡ lists_in ports.now) }
{
    let mut copies = Vec::new(alloc);
    for ranges in ports {
        copies.push(Vec::from_slice(alloc, ranges)?)?;
    }
    Ok(copies)
}

/// The ranges of all ports by rising bases.
fn place_all(alloc: Global, ports: &[Vec<Range>]) -> Result<Vec<Placed>, AllocError>
    ensures { IfOk result (λ placed. ArePlaced (lists_in ports.now) placed.items) }
{
    Ok(sorted_by_base(list_all(alloc, ports)?))
}

/// The same ranges by rising bases.
fn sorted_by_base(mut placed: Vec<Placed>) -> Vec<Placed>
    ensures same { IsPermutation placed.items result.items }
    ensures rise { DoRise result.items }
{
    placed.sort_unstable_by_key(|each| each.range.base);
    placed
}

/// The ranges of all ports in the order of ports.
fn list_all(alloc: Global, ports: &[Vec<Range>]) -> Result<Vec<Placed>, AllocError>
    ensures { IfOk result
        (λ placed. AreListed (lists_in ports.now) (length ports.now) placed.items) }
{
    let mut placed = Vec::new(alloc);
    for (port, ranges) in ports.iter().enumerate() {
        list_port(&mut placed, port, ranges)?;
    }
    Ok(placed)
}

/// Adds the ranges of a port.
fn list_port(placed: &mut Vec<Placed>, port: usize, ranges: &[Range]) -> Result<(), AllocError>
    ensures { OnOk result
        (placed.new.items ≡ placed.old.items ++ map (placed_at port) ranges.now) }
{
    for range in ranges {
        placed.push(Placed {
            range: *range,
            port,
        })?;
    }
    Ok(())
}

// ---- whether ranges make a map

/// Whether some byte of a range is in one of these ranges.
fn meets(ranges: &[Range], range: Range) -> bool
    ensures { IsTrue result ↔ Any (λ other. Overlaps other range) ranges.now }
{
    ranges.iter().any(|other| other.overlaps(range))
}

/// Whether the range at a place meets one of another port that stands before it.
fn meets_earlier(ports: &[Vec<Range>], other: usize, port: usize, place: usize) -> bool
    requires there { IsSome (range_at (lists_in ports.now) port place) }
    requires no_later { other ≤ port }
    ensures { IsTrue result ↔ MeetsEarlier (lists_in ports.now) other port place }
{
    let ranges = ports[port].as_slice();
    let range = ranges[place];
    if other < port {
        meets(&ports[other], range)
    } else {
        meets(&ranges[..place], range)
    }
}

/// The lowest port that has a range which the one at a place meets, and which stands before it.
fn overlapped(ports: &[Vec<Range>], port: usize, place: usize) -> Option<usize>
    requires { IsSome (range_at (lists_in ports.now) port place) }
    ensures found { IfSome result (λ other. MeetsFirst (lists_in ports.now) other port place) }
    ensures none { IfNone result
        ((other : ℕ) → MeetsEarlier (lists_in ports.now) other port place → ⊥) }
{
    for other in 0..=port {
        if meets_earlier(ports, other, port, place) {
            return Some(other);
        }
    }
    None
}

/// The first fault of the ranges of a port, if those of earlier ports have none.
fn port_fault(ports: &[Vec<Range>], port: usize) -> Option<AddressMapFault>
    requires within { port < length ports.now }
    requires before { AreApartBefore (lists_in ports.now) port 0 }
    ensures fault { IfSome result (IsFirstAddressMapFault (lists_in ports.now)) }
    ensures none { IfNone result (AreApartBefore (lists_in ports.now) (port + 1) 0) }
{
    for place in 0..ports[port].len() {
        if let Some(other) = overlapped(ports, port, place) {
            return Some(AddressMapFault::Overlap(other, port));
        }
    }
    None
}

/// The first fault of these ranges, want of memory aside.
fn first_fault(ports: &[Vec<Range>]) -> Option<AddressMapFault>
    ensures fault { IfSome result (IsFirstAddressMapFault (lists_in ports.now)) }
    ensures none { IfNone result
        ((other port place : ℕ) → MeetsEarlier (lists_in ports.now) other port place → ⊥) }
    ensures memory { IfNone result (IsFirstAddressMapFault (lists_in ports.now) AddressMapFault.Memory) }
{
    for port in 0..ports.len() {
        if let Some(fault) = port_fault(ports, port) {
            return Some(fault);
        }
    }
    None
}
