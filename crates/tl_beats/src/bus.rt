//! Where the bytes of a message stand on the bus.
ghost use Rattle.std.specs.Prelude.{◌≡◌, ℕ, ◌+◌, ◌%◌, ◌<◌, ◌≤◌, length, take, drop, slice_index};
ghost use Rattle.tl_beats.specs.Beats.{low, beat_count, active_mask};
ghost use Rattle.tl_beats.specs.Packing.{plain_at_place};

use crate::beat::MAX_BEATS;
use tl_types::{BUS_BYTES, MAX_SIZE, width};

/// How many beats a message has.
pub fn beat_count(carries: bool, size: u8) -> usize
    requires { size ≤ MAX_SIZE }
    ensures value { result ≡ beat_count carries size }
    ensures in_limit { result ≤ MAX_BEATS }
{
    if carries {
        (width(size) / BUS_BYTES).max(1)
    } else {
        1
    }
}

/// The lane at which a message begins.
pub fn first_lane(address: u64, size: u8) -> usize
    requires { size ≤ MAX_SIZE }
    ensures value { result ≡ low address size % BUS_BYTES }
    ensures in_bus { result < BUS_BYTES }
{
    let width = width(size) as u64;
    ((address - address % width) % BUS_BYTES as u64) as usize
}

/// The mask of the active lanes.
pub fn active_mask(address: u64, size: u8) -> u8
    requires { size ≤ MAX_SIZE }
    ensures { result ≡ active_mask address size }
{
    let first = first_lane(address, size);
    let end = first + width(size).min(BUS_BYTES);
    ((1u16 << end) - (1u16 << first)) as u8
}

/// The lanes of a beat whose bytes begin at the lane `first`, with zeros on all others.
pub fn placed(given: &[u8], first: usize) -> [u8; BUS_BYTES]
    requires { first + length given.now ≤ BUS_BYTES }
    ensures { (k : ℕ) → k < BUS_BYTES → slice_index result k ≡ plain_at_place given.now first k }
{
    let mut lanes = [0; BUS_BYTES];
    if given.len() == BUS_BYTES {
        lanes.copy_from_slice(given);
        return lanes;
    }
    for k in 0..given.len() {
        lanes[first + k] = given[k];
    }
    lanes
}

/// As many bytes from a place on as the bus has lanes.
pub fn word_from(bytes: &[u8], start: usize) -> [u8; BUS_BYTES]
    requires { start + BUS_BYTES ≤ length bytes.now }
    ensures { result ≡ take BUS_BYTES (drop start bytes.now) }
{
    let mut lanes = [0; BUS_BYTES];
    lanes.copy_from_slice(&bytes[start..start + BUS_BYTES]);
    lanes
}
