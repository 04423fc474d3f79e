//! Which range of its port has a request.
ghost use Rattle.std.specs.Prelude.{◌≡◌, ◌+◌, ◌&&◌, nat_le, nat_lt};
ghost use Rattle.check_coverage.specs.Ranges.{has_first, has_last, place_from};

use crate::mirrors::holds;
use tl_map::Range;

/// Where a request stands in its port: the number of the range that has it, whether that has all of it, and whether it has the
/// first byte of that range, and the last one.
#[derive(Clone, Copy)]
pub struct RangePlace {
    pub number: usize,
    pub is_within: bool,
    pub has_first: bool,
    pub has_last: bool,
}

/// Whether so many bytes from an address on have the first byte of a range.
fn has_first(range: Range, address: u64, span: u64) -> bool
    ensures { result ≡ has_first range address span }
{
    address <= range.base && u128::from(range.base) < u128::from(address) + u128::from(span)
}

/// Whether they have the last one.
fn has_last(range: Range, address: u64, span: u64) -> bool
    ensures { result ≡ has_last range address span }
{
    let end = u128::from(range.base) + u128::from(range.length);
    u128::from(address) < end && end <= u128::from(address) + u128::from(span)
}

/// Where so many bytes from an address on stand in these ranges, if decoders look at so many of them.
pub fn place_in(ranges: &[Range], address: u64, decoded: u64, span: u64) -> Option<RangePlace>
    ensures { result ≡ place_from 0 address decoded span ranges.now }
{
    for (number, range) in ranges.iter().enumerate() {
        if holds(range.base, range.length, address, decoded) {
            return Some(RangePlace {
                number,
                is_within: holds(range.base, range.length, address, span),
                has_first: has_first(*range, address, span),
                has_last: has_last(*range, address, span),
            });
        }
    }
    None
}
