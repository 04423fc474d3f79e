//! Beats to replies.
ghost use Rattle.std.specs.Prelude.{◌≡◌, ◌+◌, ◌*◌, ◌/◌, ◌%◌, ◌^◌, ◌≤◌, ◌↔◌, ◌&&◌, Bool, false, length, Ok, IsTrue, IsOk, MatchOption, OnOk, OnErr, IfOk, IfErr};
ghost use Rattle.tl_types.specs.List.{HoldsBelow, FailsFirstAt};
ghost use Rattle.tl_types.specs.Operation.{reply_carries_bytes, reply_byte_count};
ghost use Rattle.tl_types.specs.Response.{Response, IsLawfulResponse};
ghost use Rattle.tl_beats.specs.Replies.{IsLawfulFlag, SpellsReply};
ghost use Rattle.tl_beats.specs.Faults.{SameReplyFields, IsFirstReplyBeatFault};
ghost use Rattle.tl_beats.specs.Reading.{AreFaultlessReply, AreLanesOf, IsReplyBegun, IsFaultOfReplyBeats};

use crate::beat::{BeatFault, DBeat, MAX_BEATS};
use crate::bus::{beat_count, first_lane};
use tl_types::{BUS_BYTES, MAX_BYTES, MAX_SIZE, Reply, ReplyOp, read_reply_op};

/// The opcode, size and source of a beat as one number. They lie side by side, so that they are read at once.
fn shared_word(beat: &DBeat) -> u32
    ensures value { result ≡ beat.now.opcode + 2 ^ 8 * beat.now.size + 2 ^ 16 * beat.now.source }
    ensures opcode { beat.now.opcode ≡ result % 2 ^ 8 }
    ensures size { beat.now.size ≡ result / 2 ^ 8 % 2 ^ 8 }
    ensures source { beat.now.source ≡ result / 2 ^ 16 }
{
    beat.opcode as u32 + ((beat.size as u32) << 8) + ((beat.source as u32) << 16)
}

/// Whether two beats have the same shared fields.
pub fn same_reply_fields(first: &DBeat, beat: &DBeat) -> bool
    ensures { IsTrue result ↔ SameReplyFields first.now beat.now }
{
    shared_word(beat) == shared_word(first) && beat.denied == first.denied
}

/// Whether a `corrupt` flag is lawful.
pub fn is_lawful_flag(op: ReplyOp, denied: bool, corrupt: bool) -> bool
    ensures { IsTrue result ↔ IsLawfulFlag op denied corrupt }
{
    is_lawful_where(op.carries_bytes() && denied, corrupt)
}

/// Whether a `corrupt` flag is lawful, where it may be set or not.
fn is_lawful_where(may_be_set: bool, corrupt: bool) -> bool
    ensures { (op : ReplyOp) (denied : Bool) → may_be_set ≡ (reply_carries_bytes op && denied)
        → (IsTrue result ↔ IsLawfulFlag op denied corrupt) }
{
    !corrupt || may_be_set
}

/// The lowest beat from `from` on that has other fields than the first, where none before it has.
fn first_changed(beats: &[DBeat], first: &DBeat, from: usize) -> Option<usize>
    requires { HoldsBelow (SameReplyFields first.now) beats.now from }
    ensures { MatchOption result (HoldsBelow (SameReplyFields first.now) beats.now (length beats.now))
        (λ b. FailsFirstAt (SameReplyFields first.now) beats.now b) }
{
    for b in from..beats.len() {
        if !same_reply_fields(first, &beats[b]) {
            return Some(b);
        }
    }
    None
}

/// Tries the beats of a reply one by one, and names the first fault that shows.
// An unlawful flag comes after a changed field of a later beat, so the beats after it are tried for that alone.
fn check_reply_beats(beats: &[DBeat], first: &DBeat, op: ReplyOp) -> Result<(), BeatFault>
    ensures ok { OnOk result (AreFaultlessReply beats.now first.now op) }
    ensures fault { IfErr result (IsFaultOfReplyBeats beats.now first.now op) }
{
    let may_be_set = op.carries_bytes() && first.denied;
    for (b, beat) in beats.iter().enumerate() {
        if !same_reply_fields(first, beat) {
            return Err(BeatFault::Changed(b));
        }
        if !is_lawful_where(may_be_set, beat.corrupt) {
            return Err(match first_changed(beats, first, b) {
                Some(changed) => BeatFault::Changed(changed),
                None => BeatFault::CorruptFlag(b),
            });
        }
    }
    Ok(())
}

/// Puts the lanes of all beats, one beat after the other, over others.
// A list that grows is slower: each beat would wait for the length that the one before it leaves.
fn put_lanes(beats: &[DBeat], lanes: &mut [u8; MAX_BYTES])
    requires { length beats.now ≤ MAX_BEATS }
    ensures { AreLanesOf beats.now lanes.new }
{
    for (b, beat) in beats.iter().enumerate() {
        let start = BUS_BYTES * b;
        lanes[start..start + BUS_BYTES].copy_from_slice(&beat.lanes);
    }
}

/// Puts the reply of these beats, which have no fault, are whole words and not denied, in the place of another.
// a function of its own, since it holds room for the longest message
fn fill_wide(beats: &[DBeat], first: &DBeat, op: ReplyOp, address: u64, reply: &mut Reply)
    requires begun { IsReplyBegun beats.now first.now op }
    requires faultless { AreFaultlessReply beats.now first.now op }
    requires given { first.now.denied ≡ false }
    requires wide { BUS_BYTES ≤ reply_byte_count op first.now.size }
    ensures lawful { IsLawfulResponse reply.new.op reply.new.size reply.new.denied reply.new.bytes }
    ensures spells { SpellsReply reply.new address beats.now }
{
    let mut lanes = [0; MAX_BYTES];
    put_lanes(beats, &mut lanes);
    let bytes = &lanes[..op.byte_count(first.size)];
    reply.refill(op, first.size, first.source, first.denied, bytes);
}

/// Puts the denied reply of these beats, which have no fault, in the place of another: its bytes are zeros.
fn fill_denied(beats: &[DBeat], first: &DBeat, op: ReplyOp, address: u64, reply: &mut Reply)
    requires begun { IsReplyBegun beats.now first.now op }
    requires faultless { AreFaultlessReply beats.now first.now op }
    requires denied { IsTrue first.now.denied }
    ensures lawful { IsLawfulResponse reply.new.op reply.new.size reply.new.denied reply.new.bytes }
    ensures spells { SpellsReply reply.new address beats.now }
{
    let bytes = &[0; MAX_BYTES][..op.byte_count(first.size)];
    reply.refill(op, first.size, first.source, first.denied, bytes);
}

/// Puts the reply of these beats, which have no fault, in the place of another.
fn fill_reply(beats: &[DBeat], first: &DBeat, op: ReplyOp, address: u64, reply: &mut Reply)
    requires begun { IsReplyBegun beats.now first.now op }
    requires faultless { AreFaultlessReply beats.now first.now op }
    ensures lawful { IsLawfulResponse reply.new.op reply.new.size reply.new.denied reply.new.bytes }
    ensures spells { SpellsReply reply.new address beats.now }
{
    let count = op.byte_count(first.size);
    if first.denied {
        fill_denied(beats, first, op, address, reply);
    } else if count <= BUS_BYTES {
        let lane = first_lane(address, first.size);
        let bytes = &first.lanes[lane..lane + count];
        reply.refill(op, first.size, first.source, first.denied, bytes);
    } else {
        fill_wide(beats, first, op, address, reply);
    }
}

/// Puts the reply to a request at the address that beats spell in the place of another, or names the first fault that
/// they have.
pub fn assemble_reply_into(
    beats: &[DBeat],
    address: u64,
    reply: &mut Reply,
) -> Result<(), BeatFault>
    ensures ok { OnOk result (SpellsReply reply.new address beats.now) }
    ensures all { (response : Response)
        → IsLawfulResponse response.op response.size response.denied response.bytes
        → SpellsReply response address beats.now → IsOk result × (reply.new ≡ response) }
    ensures fault { IfErr result (IsFirstReplyBeatFault beats.now) }
    ensures kept { OnErr result (reply.new ≡ reply.old) }
{
    let first = beats.first().ok_or(BeatFault::NoBeat)?;
    let op = read_reply_op(first.opcode).map_err(BeatFault::Op)?;
    if first.size > MAX_SIZE {
        return Err(BeatFault::Size);
    }
    if beats.len() != beat_count(op.carries_bytes(), first.size) {
        return Err(BeatFault::Count);
    }
    check_reply_beats(beats, first, op)?;
    fill_reply(beats, first, op, address, reply);
    Ok(())
}

/// The reply to a request at the address that beats spell, or the first fault that they have.
pub fn assemble_reply(beats: &[DBeat], address: u64) -> Result<Reply, BeatFault>
    ensures ok { IfOk result (λ reply. SpellsReply reply address beats.now) }
    ensures all { (reply : Response) → IsLawfulResponse reply.op reply.size reply.denied reply.bytes
        → SpellsReply reply address beats.now → result ≡ Ok reply }
    ensures fault { IfErr result (IsFirstReplyBeatFault beats.now) }
{
    let mut reply = Reply::blank();
    assemble_reply_into(beats, address, &mut reply)?;
    Ok(reply)
}
