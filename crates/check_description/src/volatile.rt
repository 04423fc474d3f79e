//! The bytes of a port that change by themselves.
ghost use Rattle.std.specs.Prelude.{◌≡◌, ◌+◌, ◌^◌, ◌≤◌};
ghost use Rattle.toml.specs.View.{table_view, view};
ghost use Rattle.tl_text.specs.Reading.{each};
ghost use Rattle.check_keys.specs.Reading.{Gives};
ghost use Rattle.check_description.specs.Ranges.{AreRangesOfPort};
ghost use Rattle.check_description.specs.Volatile.{volatile_at as volatile_of_table, volatile_in as volatile_of_value, volatile_of_pair};

use crate::ranges::{first_base, first_length, read_each_pair};
use check_keys::{Key, SystemFault, array_of, find_value, in_range};
use std::alloc::Global;
use tl_map::Range;
use toml::{Table, Value};

/// The most pairs of an offset and a length.
pub const MAX_VOLATILE: usize = 64;

/// The addresses of an offset and a length in a range.
#[tactic(auto, unfolding(crate::specs::Volatile::volatile_of_pair))]
fn volatile_of(first: Range, pair: (i64, i64)) -> Result<Range, SystemFault>
    requires { first.base + first.length ≤ 2 ^ 64 }
    ensures { Gives (λ range. range) result (volatile_of_pair first pair) }
{
    let offset = in_range(pair.0, Key::Volatile, 0, first.length)?;
    let length = in_range(pair.1, Key::Volatile, 1, first.length - offset)?;
    let base = first.base + offset;
    Ok(Range { base, length })
}

/// The addresses of offsets and lengths in a range.
fn volatile_of_each(
    alloc: Global,
    first: Range,
    pairs: &[(i64, i64)],
) -> Result<Vec<Range>, SystemFault>
    requires { first.base + first.length ≤ 2 ^ 64 }
    ensures { Gives (λ ranges. ranges.items) result (each (volatile_of_pair first) pairs.now) }
{
    let mut ranges = Vec::with_capacity(alloc, pairs.len())?;
    for pair in pairs {
        ranges.push(volatile_of(first, *pair)?)?;
    }
    Ok(ranges)
}

/// Those that a value lists.
#[tactic(auto, unfolding(crate::specs::Volatile::volatile_in))]
fn volatile_in(alloc: Global, first: Range, value: &Value) -> Result<Vec<Range>, SystemFault>
    requires { first.base + first.length ≤ 2 ^ 64 }
    ensures { Gives (λ ranges. ranges.items) result (volatile_of_value first (view value.now)) }
{
    let pairs = read_each_pair(alloc, array_of(value, Key::Volatile)?, Key::Volatile)?;
    if pairs.is_empty() || pairs.len() > MAX_VOLATILE {
        return Err(SystemFault::OutOfRange(Key::Volatile));
    }
    volatile_of_each(alloc, first, &pairs)
}

/// Those of a port with these ranges, which may have none.
#[tactic(auto, unfolding(crate::specs::Volatile::volatile_at))]
pub fn volatile_at(
    alloc: Global,
    ranges: &[Range],
    table: &Table,
) -> Result<Vec<Range>, SystemFault>
    requires { AreRangesOfPort ranges.now }
    ensures { Gives (λ volatile. volatile.items) result
        (volatile_of_table ranges.now (table_view table.now)) }
{
    let first = Range {
        base: first_base(ranges),
        length: first_length(ranges),
    };
    match find_value(table, Key::Volatile) {
        Some(value) => volatile_in(alloc, first, value),
        None => Ok(Vec::new(alloc)),
    }
}
