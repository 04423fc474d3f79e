//! Requests to beats.
ghost use Rattle.std.specs.Prelude.{◌≡◌, ◌%◌, ◌<◌, All};
ghost use Rattle.tl_types.specs.Operation.{carries_bytes};
ghost use Rattle.tl_beats.specs.Beats.{beat_count, low, IsBeatOf, IsClean, SpellsAsk};
ghost use Rattle.tl_beats.specs.Packing.{IsBlankOf};

use crate::beat::{ABeat, MAX_BEATS};
use crate::bus::{active_mask, beat_count, first_lane, placed};
use arrayvec::ArrayVec;
use tl_types::{Ask, BUS_BYTES, opcode, param};

/// A beat of a request before its bytes: all active lanes are set in the mask, and every lane is zero.
fn blank_beat(ask: &Ask) -> ABeat
    ensures { IsBlankOf ask.now result }
{
    let op = ask.op();
    ABeat {
        opcode: opcode(&op),
        param: param(&op),
        size: ask.size(),
        source: ask.source(),
        address: ask.address(),
        mask: active_mask(ask.address(), ask.size()),
        lanes: [0; BUS_BYTES],
    }
}

/// Beat number `b` of a request whose bytes begin at the lane `first`.
fn ask_beat(ask: &Ask, blank: &ABeat, first: usize, b: usize) -> ABeat
    requires blank { IsBlankOf ask.now blank.now }
    requires first { first ≡ low ask.now.address ask.now.size % BUS_BYTES }
    requires beat { b < beat_count (carries_bytes ask.now.op) ask.now.size }
    ensures spells { IsBeatOf ask.now b result }
    ensures clean { IsClean ask.now result }
{
    let bytes = ask.bytes();
    if !ask.op().carries_bytes() {
        return *blank;
    }
    let plain = bytes.plain();
    let start = BUS_BYTES * b;
    let given = &plain[start..plain.len().min(start + BUS_BYTES)];
    ABeat {
        mask: bytes.mask(b) << first,
        lanes: placed(given, first),
        ..*blank
    }
}

/// The beats that spell a request, with zeros on the lanes that carry nothing.
// not inlined: where it is, its result is blanked and moved once more
#[inline(never)]
pub fn pack_ask(ask: &Ask) -> ArrayVec<ABeat, MAX_BEATS>
    ensures spells { SpellsAsk ask.now result.items }
    ensures clean { All (λ beat. IsClean ask.now beat) result.items }
{
    let mut beats = ArrayVec::new();
    pack_ask_into(ask, &mut beats);
    beats
}

/// The same beats, in place of those that were there.
pub fn pack_ask_into(ask: &Ask, beats: &mut ArrayVec<ABeat, MAX_BEATS>)
    ensures spells { SpellsAsk ask.now beats.new.items }
    ensures clean { All (λ beat. IsClean ask.now beat) beats.new.items }
{
    let blank = blank_beat(ask);
    let first = first_lane(ask.address(), ask.size());
    beats.clear();
    for b in 0..beat_count(ask.op().carries_bytes(), ask.size()) {
        beats.push(ask_beat(ask, &blank, first, b));
    }
}
