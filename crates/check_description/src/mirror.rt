//! Ports whose ranges are one memory.
ghost use Rattle.std.specs.Prelude.{◌≡◌, ◌^◌, map, IfOk};
ghost use Rattle.toml.specs.View.{table_view};
ghost use Rattle.check_keys.specs.Reading.{Gives};
ghost use Rattle.check_memory.specs.Partial.{AreWithin};
ghost use Rattle.check_description.specs.Mirror.{differ_in_length as have_two_lengths, mirror_at as mirror_of_table, mirrors_kept as mirrors_of, ranges_kept as ranges_of};
ghost use Rattle.check_description.specs.Ranges.{AreRangesOfPort};

use crate::ranges::first_length;
use check_keys::{Key, SystemFault, flag_at};
use std::alloc::{AllocError, Global};
use tl_map::Range;
use toml::Table;

/// Whether one of the ranges has not the length of the first.
fn differ_in_length(ranges: &[Range]) -> bool
    ensures { result ≡ have_two_lengths ranges.now }
{
    let first = first_length(ranges);
    for range in ranges {
        if range.length != first {
            return true;
        }
    }
    false
}

/// Whether the ranges of a port are one memory.
#[tactic(auto, unfolding(crate::specs::Mirror::mirror_at))]
pub fn mirror_at(ranges: &[Range], table: &Table) -> Result<bool, SystemFault>
    ensures { Gives (λ mirror. mirror) result (mirror_of_table ranges.now (table_view table.now)) }
{
    let mirror = flag_at(table, Key::Mirror)?;
    if mirror && differ_in_length(ranges) {
        return Err(SystemFault::OutOfRange(Key::Mirror));
    }
    Ok(mirror)
}

/// Where the memory of a port of these ranges stands.
pub fn ranges_kept(alloc: Global, mirror: bool, ranges: &[Range]) -> Result<Vec<Range>, AllocError>
    requires { AreRangesOfPort ranges.now }
    ensures value { IfOk result (λ kept. kept.items ≡ ranges_of mirror ranges.now) }
    ensures within { IfOk result (λ kept. AreWithin kept.items (2 ^ 64)) }
{
    if mirror {
        Vec::from_slice(alloc, &ranges[..1])
    } else {
        Vec::from_slice(alloc, ranges)
    }
}

/// From which other addresses on its first range is seen.
pub fn mirrors_kept(alloc: Global, mirror: bool, ranges: &[Range]) -> Result<Vec<u64>, AllocError>
    requires { AreRangesOfPort ranges.now }
    ensures { IfOk result (λ kept. kept.items ≡ mirrors_of mirror ranges.now) }
{
    if mirror {
        bases_of(alloc, &ranges[1..])
    } else {
        Ok(Vec::new(alloc))
    }
}

/// The bases of ranges.
fn bases_of(alloc: Global, ranges: &[Range]) -> Result<Vec<u64>, AllocError>
    ensures { IfOk result (λ bases. bases.items ≡ map (λ range. range.base) ranges.now) }
{
    let mut bases = Vec::with_capacity(alloc, ranges.len())?;
    for range in ranges {
        bases.push(range.base)?;
    }
    Ok(bases)
}
