//! Replies to beats.
ghost use Rattle.std.specs.Prelude.{◌≡◌, ℕ, ◌<◌, ◌≤◌, [], length, All};
ghost use Rattle.tl_types.specs.Operation.{reply_carries_bytes};
ghost use Rattle.tl_beats.specs.Beats.{beat_count};
ghost use Rattle.tl_beats.specs.Replies.{IsReplyBeatOf, IsCleanReply, SpellsReply};
ghost use Rattle.tl_beats.specs.Packing.{IsBlankReplyOf};

use crate::beat::{DBeat, MAX_BEATS};
use crate::bus::{beat_count, first_lane, placed, word_from};
use arrayvec::ArrayVec;
use tl_types::{BUS_BYTES, Reply, reply_opcode};

/// A beat of a reply before its bytes: every lane is zero.
fn blank_reply_beat(reply: &Reply) -> DBeat
    ensures { IsBlankReplyOf reply.now result }
{
    let op = reply.op();
    DBeat {
        opcode: reply_opcode(op),
        size: reply.size(),
        source: reply.source(),
        denied: reply.denied(),
        corrupt: op.carries_bytes() && reply.denied(),
        lanes: [0; BUS_BYTES],
    }
}

/// The beat of a reply that has fewer bytes than the bus has lanes.
fn only_beat(reply: &Reply, address: u64, blank: &DBeat) -> DBeat
    requires blank { IsBlankReplyOf reply.now blank.now }
    requires narrow { length reply.now.bytes < BUS_BYTES }
    ensures spells { IsReplyBeatOf reply.now address 0 result }
    ensures clean { IsCleanReply reply.now address result }
{
    let first = first_lane(address, reply.size());
    DBeat {
        lanes: placed(reply.bytes(), first),
        ..*blank
    }
}

/// Beat number `b` of a reply that fills the bus: each has a whole word of the bytes, whatever the address.
fn whole_beat(reply: &Reply, blank: &DBeat, b: usize) -> DBeat
    requires blank { IsBlankReplyOf reply.now blank.now }
    requires wide { BUS_BYTES ≤ length reply.now.bytes }
    requires beat { b < beat_count (reply_carries_bytes reply.now.op) reply.now.size }
    ensures spells { (address : ℕ) → IsReplyBeatOf reply.now address b result }
    ensures clean { (address : ℕ) → IsCleanReply reply.now address result }
{
    let mut beat = *blank;
    beat.lanes = word_from(reply.bytes(), BUS_BYTES * b);
    beat
}

/// Puts the beats of a reply that fills the bus where none are.
// not inlined: the blank beat then lies in memory, and is copied in two moves where it would else be field by field
#[inline(never)]
fn push_whole_beats(reply: &Reply, blank: &DBeat, beats: &mut ArrayVec<DBeat, MAX_BEATS>)
    requires blank { IsBlankReplyOf reply.now blank.now }
    requires wide { BUS_BYTES ≤ length reply.now.bytes }
    requires none { beats.old.items ≡ [] }
    ensures spells { (address : ℕ) → SpellsReply reply.now address beats.new.items }
    ensures clean { (address : ℕ)
        → All (λ beat. IsCleanReply reply.now address beat) beats.new.items }
{
    for b in 0..beat_count(reply.op().carries_bytes(), reply.size()) {
        beats.push(whole_beat(reply, blank, b));
    }
}

/// The beats that spell a reply to a request at the address, with zeros on the lanes that carry nothing.
///
/// They are marked corrupt where they carry the bytes of a denied reply.
// not inlined: where it is, its result is blanked and moved once more
#[inline(never)]
pub fn pack_reply(reply: &Reply, address: u64) -> ArrayVec<DBeat, MAX_BEATS>
    ensures spells { SpellsReply reply.now address result.items }
    ensures clean { All (λ beat. IsCleanReply reply.now address beat) result.items }
{
    let mut beats = ArrayVec::new();
    pack_reply_into(reply, address, &mut beats);
    beats
}

/// The same beats, in place of those that were there.
pub fn pack_reply_into(reply: &Reply, address: u64, beats: &mut ArrayVec<DBeat, MAX_BEATS>)
    ensures spells { SpellsReply reply.now address beats.new.items }
    ensures clean { All (λ beat. IsCleanReply reply.now address beat) beats.new.items }
{
    let blank = blank_reply_beat(reply);
    beats.clear();
    if reply.bytes().len() < BUS_BYTES {
        beats.push(only_beat(reply, address, &blank));
    } else {
        push_whole_beats(reply, &blank, beats);
    }
}
