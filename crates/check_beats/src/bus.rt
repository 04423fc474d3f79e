//! The bus of a link, and where the bytes of a message stand on it.
ghost use Rattle.std.specs.Prelude.{◌≡◌, ◌+◌, ◌%◌, ◌^◌, ◌<◌, ◌≤◌, min};
ghost use Rattle.check_beats.specs.Bus.{bus_log, bus_bytes, low, beat_count_on_bus, active_mask_on_bus};

use tl_types::{MAX_BYTES, MAX_SIZE, width};

/// The most lanes of a bus.
pub const MAX_LANES: usize = 64;

/// The data bus of a link, by how many bytes it has.
#[derive(Debug, Clone, Copy, PartialEq, Eq)]
pub enum Bus {
    One,
    Two,
    Four,
    Eight,
    Sixteen,
    ThirtyTwo,
    SixtyFour,
}

impl Bus {
    /// The base-2 logarithm of its bytes.
    pub fn log(self) -> u32
        ensures value { result ≡ bus_log self }
        ensures in_limit { result ≤ 6 }
    {
        match self {
            Bus::One => 0,
            Bus::Two => 1,
            Bus::Four => 2,
            Bus::Eight => 3,
            Bus::Sixteen => 4,
            Bus::ThirtyTwo => 5,
            Bus::SixtyFour => 6,
        }
    }

    /// How many bytes it has.
    // a power of two that is shifted, and not looked up: what divides by it is a mask
    pub fn bytes(self) -> usize
        ensures value { result ≡ bus_bytes self }
        ensures some { 0 < result }
        ensures in_limit { result ≤ MAX_LANES }
    {
        1 << self.log()
    }
}

/// How many beats a message has.
pub fn beat_count_on_bus(bus: Bus, carries: bool, size: u8) -> usize
    requires { size ≤ MAX_SIZE }
    ensures value { result ≡ beat_count_on_bus (bus_bytes bus) carries size }
    ensures in_limit { result ≤ MAX_BYTES }
{
    if carries {
        (width(size) >> bus.log()).max(1)
    } else {
        1
    }
}

/// The lane at which a message begins.
pub fn first_lane(bus: Bus, address: u64, size: u8) -> usize
    requires { size ≤ MAX_SIZE }
    ensures value { result ≡ low address size % bus_bytes bus }
    ensures in_bus { result + min (bus_bytes bus) (2 ^ size) ≤ bus_bytes bus }
{
    let width = width(size) as u64;
    ((address - address % width) % bus.bytes() as u64) as usize
}

/// The mask of the active lanes.
pub fn active_mask_on_bus(bus: Bus, address: u64, size: u8) -> u64
    requires { size ≤ MAX_SIZE }
    ensures { result ≡ active_mask_on_bus (bus_bytes bus) address size }
{
    let first = first_lane(bus, address, size);
    let count = bus.bytes().min(width(size));
    (u64::MAX >> (64 - count)) << first
}
