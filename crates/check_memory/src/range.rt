//! Where a port answers.
ghost use Rattle.std.specs.Prelude.{◌≡◌, ◌↔◌, ◌<◌, ◌≤◌, ◌+◌, ◌^◌, ◌&&◌, IsTrue, All, nat_le};
ghost use Rattle.check_memory.specs.Partial.{AreWithin, first_of, holds, start_in};

use tl_map::Range;

/// Whether it ends at or below the end of the address space.
fn is_within(range: Range) -> bool
    ensures { IsTrue result ↔ (range.base + range.length ≤ 2 ^ 64) }
{
    range.length == 0 || range.length - 1 <= u64::MAX - range.base
}

/// Whether it holds so many bytes from an address on.
fn range_holds(range: &Range, address: u64, width: u64) -> bool
    ensures { result ≡ (nat_le range.now.base address
        && nat_le (address + width) (range.now.base + range.now.length)) }
{
    range.base <= address && width <= range.length && address - range.base <= range.length - width
}

/// Whether one of the ranges holds so many bytes from an address on.
pub fn holds(ranges: &[Range], address: u64, width: u64) -> bool
    ensures { result ≡ holds ranges.now address width }
{
    for range in ranges {
        if range_holds(range, address, width) {
            return true;
        }
    }
    false
}

/// The first of the ranges.
pub fn first_of(ranges: &[Range]) -> Range
    ensures { result ≡ first_of ranges.now }
{
    if ranges.is_empty() {
        return Range { base: 0, length: 0 };
    }
    ranges[0]
}

/// Where so many bytes from an address on stand, of a range that is also seen from other addresses on.
pub fn start_in(range: Range, mirrors: &[u64], address: u64, width: u64) -> u64
    requires some { 0 < width }
    requires within { range.base + range.length ≤ 2 ^ 64 }
    ensures { result ≡ start_in range mirrors.now address width }
{
    for base in mirrors {
        let mirror = Range {
            base: *base,
            length: range.length,
        };
        if range_holds(&mirror, address, width) {
            return range.base + (address - *base);
        }
    }
    address
}

/// Whether all of these ranges end at or below the end of the address space.
pub fn are_within(ranges: &[Range]) -> bool
    ensures { IsTrue result ↔ AreWithin ranges.now (2 ^ 64) }
{
    ranges.iter().all(|range| is_within(*range))
}
