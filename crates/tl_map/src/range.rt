//! Ranges of addresses.
ghost use Rattle.std.specs.Prelude.{◌≤◌, ◌↔◌, IsTrue};
ghost use Rattle.tl_map.specs.Range.{HoldsBytes, IsEmpty, IsPastEnd, Overlaps};

use tl_types::{MAX_SIZE, width};

/// A range of addresses.
#[derive(Debug, Clone, Copy, PartialEq, Eq)]
pub struct Range {
    pub base: u64,
    pub length: u64,
}

impl Range {
    /// Whether the range holds all bytes from an address on, as many as a size stands for.
    pub(crate) fn holds(self, address: u64, size: u8) -> bool
        requires { size ≤ MAX_SIZE }
        ensures { IsTrue result ↔ HoldsBytes self address size }
    {
        let width = width(size) as u64;
        self.base <= address && width <= self.length && address - self.base <= self.length - width
    }

    /// Whether some byte is in both ranges.
    pub fn overlaps(self, other: Range) -> bool
        ensures { IsTrue result ↔ Overlaps self other }
    {
        if self.base <= other.base {
            other.length > 0 && other.base - self.base < self.length
        } else {
            self.length > 0 && self.base - other.base < other.length
        }
    }

    /// Whether the range has no byte.
    pub fn is_empty(self) -> bool
        ensures { IsTrue result ↔ IsEmpty self }
    {
        self.length == 0
    }

    /// Whether some byte of the range would lie past the last address.
    pub fn is_past_end(self) -> bool
        ensures { IsTrue result ↔ IsPastEnd self }
    {
        self.length > 0 && u64::MAX - self.base < self.length - 1
    }
}
