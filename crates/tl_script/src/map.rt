//! The map of addresses of a script: each port has one range.
ghost use Rattle.std.specs.Prelude.{◌≡◌, ◌+◌, ◌<◌, ◌≤◌, ℕ, ◌↔◌, IsTrue, length, IfOk, OnOk, IfErr, IfSome, IfNone};
ghost use Rattle.tl_map.specs.Map.{lists_in, one_each};
ghost use Rattle.tl_script.specs.Map.{AreLawfulRanges, IsFirstMapFault, NoneBefore, OverlapsFirst, RangesOverlap};

use std::alloc::{AllocError, Global};
use thiserror::Error;
use tl_map::{AddressMap, Range};
use tl_types::MAX_PORTS;

/// The most ranges of a map: the error port is a port without a range.
pub const MAX_RANGES: usize = MAX_PORTS - 1;

/// Why ranges make no map. A range is named by its number, which is its port's; of two that overlap the earlier is
/// first. The texts are those of a script's fault lines behind `script: `, so they name ports in place of ranges.
#[derive(Debug, Clone, Copy, PartialEq, Eq, Error)]
pub enum MapFault {
    #[error("too many ports")]
    TooMany,
    #[error("port {0}: empty range")]
    EmptyRange(usize),
    #[error("port {0}: past the end")]
    PastEnd(usize),
    #[error("ports {0} and {1} overlap")]
    Overlap(usize, usize),
    #[error("memory refused")]
    Memory,
}

/// A port for each range, with that range alone.
fn ports_of(alloc: Global, ranges: &[Range]) -> Result<Vec<Vec<Range>>, AllocError>
    ensures { IfOk result (λ ports. lists_in ports.items ≡ one_each ranges.now) }
{
    let mut ports = Vec::with_capacity(alloc, ranges.len())?;
    for range in ranges {
        ports.push(Vec::from_slice(alloc, &[*range])?)?;
    }
    Ok(ports)
}

/// The map of ports with these ranges, which have no fault.
fn keep(alloc: Global, ranges: &[Range]) -> Option<AddressMap>
    requires { AreLawfulRanges ranges.now }
    ensures { IfSome result (λ map. map ≡ one_each ranges.now) }
{
    let Ok(ports) = ports_of(alloc, ranges) else {
        return None;
    };
    let Ok(map) = AddressMap::new(alloc, &ports) else {
        return None;
    };
    Some(map)
}

/// The map of ports with these ranges, one each, or the first fault that the ranges have.
pub(crate) fn map_of(alloc: Global, ranges: &[Range]) -> Result<AddressMap, MapFault>
    ensures made { IfOk result (λ map. map ≡ one_each ranges.now) }
    ensures lawful { OnOk result (AreLawfulRanges ranges.now) }
    ensures fault { IfErr result (IsFirstMapFault ranges.now) }
{
    if let Some(fault) = first_fault(ranges) {
        return Err(fault);
    }
    keep(alloc, ranges).ok_or(MapFault::Memory)
}

/// Whether there are more ranges than a map may have.
fn are_too_many(ranges: &[Range]) -> bool
    ensures { IsTrue result ↔ (MAX_RANGES < length ranges.now) }
{
    ranges.len() > MAX_RANGES
}

/// The first fault of these ranges, want of memory aside.
fn first_fault(ranges: &[Range]) -> Option<MapFault>
    ensures fault { IfSome result (IsFirstMapFault ranges.now) }
    ensures none { IfNone result (NoneBefore ranges.now MapFault.Memory) }
    ensures lawful { IfNone result (AreLawfulRanges ranges.now) }
{
    if are_too_many(ranges) {
        return Some(MapFault::TooMany);
    }
    for place in 0..ranges.len() {
        if let Some(fault) = range_fault(ranges, place) {
            return Some(fault);
        }
    }
    None
}

/// The first fault of the range at a place, if no fault is tried before it.
fn range_fault(ranges: &[Range], place: usize) -> Option<MapFault>
    requires within { place < length ranges.now }
    requires before { NoneBefore ranges.now (MapFault.EmptyRange place) }
    ensures fault { IfSome result (IsFirstMapFault ranges.now) }
    ensures none { IfNone result (NoneBefore ranges.now (MapFault.EmptyRange (place + 1))) }
{
    if ranges[place].is_empty() {
        return Some(MapFault::EmptyRange(place));
    }
    if ranges[place].is_past_end() {
        return Some(MapFault::PastEnd(place));
    }
    overlapped(ranges, place).map(|other| MapFault::Overlap(other, place))
}

/// The lowest range before a place that has a byte in common with the one at that place.
fn overlapped(ranges: &[Range], place: usize) -> Option<usize>
    requires { place < length ranges.now }
    ensures found { IfSome result (λ other. OverlapsFirst ranges.now other place) }
    ensures none { IfNone result
        ((other : ℕ) → other < place → RangesOverlap ranges.now other place → ⊥) }
{
    for other in 0..place {
        if ranges[other].overlaps(ranges[place]) {
            return Some(other);
        }
    }
    None
}
