//! The ranges of a port: its base and its length, or a list of both.
ghost use Rattle.std.specs.Prelude.{◌≡◌, ◌<◌, ◌≤◌, All, IfOk, length, map};
ghost use Rattle.toml.specs.View.{table_view, view};
ghost use Rattle.tl_text.specs.Reading.{each};
ghost use Rattle.tl_map.specs.Map.{IsLawfulRange};
ghost use Rattle.check_keys.specs.Reading.{Gives};
ghost use Rattle.check_keys.specs.Value.{pair_in_value as pair_in};
ghost use Rattle.check_description.specs.Ranges.{AreRangesOfPort, first_base as base_of_first, first_length as length_of_first, listed_ranges, plain_ranges, range_of_pair, ranges_at as ranges_of_table, ranges_in as ranges_of_value};

use check_keys::{
    Key, LAST_INTEGER, SystemFault, array_of, find_value, in_range, number_at, number_if_any,
    pair_in_value,
};
use std::alloc::Global;
use tl_map::{MAX_RANGES_OF_PORT, Range};
use toml::{Table, Value};

/// How many bytes the first range has.
pub fn first_length(ranges: &[Range]) -> u64
    ensures { result ≡ length_of_first ranges.now }
{
    match ranges {
        [first, ..] => first.length,
        [] => 0,
    }
}

/// The address of the first byte of the first range.
pub fn first_base(ranges: &[Range]) -> u64
    ensures { result ≡ base_of_first ranges.now }
{
    match ranges {
        [first, ..] => first.base,
        [] => 0,
    }
}

/// The pairs of integers that values are.
pub fn read_each_pair(
    alloc: Global,
    values: &[Value],
    key: Key,
) -> Result<Vec<(i64, i64)>, SystemFault>
    ensures { Gives (λ pairs. pairs.items) result (each (pair_in key) (map view values.now)) }
{
    let mut pairs = Vec::with_capacity(alloc, values.len())?;
    for value in values {
        pairs.push(pair_in_value(value, key)?)?;
    }
    Ok(pairs)
}

/// The range of a base and a length.
#[tactic(auto, unfolding(crate::specs::Ranges::range_of_pair))]
fn range_of(pair: (i64, i64)) -> Result<Range, SystemFault>
    ensures value { Gives (λ range. range) result (range_of_pair pair) }
    ensures lawful { IfOk result IsLawfulRange }
{
    let base = in_range(pair.0, Key::Ranges, 0, LAST_INTEGER)?;
    let length = in_range(pair.1, Key::Ranges, 1, LAST_INTEGER)?;
    Ok(Range { base, length })
}

/// The ranges of bases and lengths.
fn make_each_range(alloc: Global, pairs: &[(i64, i64)]) -> Result<Vec<Range>, SystemFault>
    ensures value { Gives (λ ranges. ranges.items) result (each range_of_pair pairs.now) }
    ensures lawful { IfOk result (λ ranges. All IsLawfulRange ranges.items) }
    ensures counted { IfOk result (λ ranges. length ranges.items ≡ length pairs.now) }
{
    let mut ranges = Vec::with_capacity(alloc, pairs.len())?;
    for pair in pairs {
        ranges.push(range_of(*pair)?)?;
    }
    Ok(ranges)
}

/// The ranges that a value lists, if no base and no length stands beside them.
#[tactic(auto, unfolding(crate::specs::Ranges::ranges_in))]
fn ranges_in(alloc: Global, beside: bool, value: &Value) -> Result<Vec<Range>, SystemFault>
    ensures value { Gives (λ ranges. ranges.items) result (ranges_of_value beside (view value.now)) }
    ensures lawful { IfOk result (λ ranges. AreRangesOfPort ranges.items) }
{
    let pairs = read_each_pair(alloc, array_of(value, Key::Ranges)?, Key::Ranges)?;
    if beside || pairs.is_empty() || pairs.len() > MAX_RANGES_OF_PORT {
        return Err(SystemFault::OutOfRange(Key::Ranges));
    }
    make_each_range(alloc, &pairs)
}

/// The ranges that a value lists, after the base and the length were looked at.
#[tactic(auto, unfolding(crate::specs::Ranges::listed_ranges))]
fn read_listed(alloc: Global, table: &Table, value: &Value) -> Result<Vec<Range>, SystemFault>
    ensures value { Gives (λ ranges. ranges.items) result
        (listed_ranges (table_view table.now) (view value.now)) }
    ensures lawful { IfOk result (λ ranges. AreRangesOfPort ranges.items) }
{
    let base = number_if_any(table, Key::Base, 0, LAST_INTEGER)?;
    let length = number_if_any(table, Key::Length, 1, LAST_INTEGER)?;
    ranges_in(alloc, base.is_some() || length.is_some(), value)
}

/// One range, of the base and the length.
#[tactic(auto, unfolding(crate::specs::Ranges::plain_ranges))]
fn read_plain(alloc: Global, table: &Table) -> Result<Vec<Range>, SystemFault>
    ensures value { Gives (λ ranges. ranges.items) result (plain_ranges (table_view table.now)) }
    ensures lawful { IfOk result (λ ranges. AreRangesOfPort ranges.items) }
{
    let base = number_at(table, Key::Base, 0, LAST_INTEGER)?;
    let length = number_at(table, Key::Length, 1, LAST_INTEGER)?;
    Ok(Vec::from_slice(alloc, &[Range { base, length }])?)
}

/// The ranges of a port.
#[tactic(auto, unfolding(crate::specs::Ranges::ranges_at))]
pub fn ranges_at(alloc: Global, table: &Table) -> Result<Vec<Range>, SystemFault>
    ensures value { Gives (λ ranges. ranges.items) result (ranges_of_table (table_view table.now)) }
    ensures lawful { IfOk result (λ ranges. AreRangesOfPort ranges.items) }
{
    match find_value(table, Key::Ranges) {
        Some(value) => read_listed(alloc, table, value),
        None => read_plain(alloc, table),
    }
}
