//! Beats to requests.
ghost use Rattle.std.specs.Prelude.{◌≡◌, ℕ, ◌+◌, ◌%◌, ◌<◌, ◌≤◌, ◌↔◌, [], length, Ok, IsTrue, IsOk, MatchOption, OnOk, OnErr, IfOk, IfErr};
ghost use Rattle.tl_types.specs.List.{HoldsBelow, FailsFirstAt};
ghost use Rattle.tl_types.specs.Operation.{carries_bytes, byte_count};
ghost use Rattle.tl_types.specs.Request.{Request, IsLawfulRequest};
ghost use Rattle.tl_beats.specs.Beats.{beat_count, active_mask, IsLawfulMask, StandsAt, SpellsAsk};
ghost use Rattle.tl_beats.specs.Faults.{SameFields, IsFirstBeatFault};
ghost use Rattle.tl_beats.specs.Reading.{GainsLanes, AreFaultless, AreBytesOf, IsBegun, IsFaultOfBeats};

use crate::beat::{ABeat, BeatFault};
use crate::bus::{active_mask, beat_count, first_lane};
use tl_types::{Ask, AskOp, BUS_BYTES, Bytes, MAX_BYTES, MAX_SIZE, read_op};

/// Whether two beats have the same shared fields.
/// They do not lie side by side as those of a reply do, so they are compared one by one.
pub fn same_fields(first: &ABeat, beat: &ABeat) -> bool
    ensures { IsTrue result ↔ SameFields first.now beat.now }
{
    beat.opcode == first.opcode
        && beat.param == first.param
        && beat.size == first.size
        && beat.source == first.source
        && beat.address == first.address
}

/// Whether a mask is lawful.
pub fn is_lawful_mask(mask: u8, op: AskOp, size: u8, address: u64) -> bool
    requires { size ≤ MAX_SIZE }
    ensures { IsTrue result ↔ IsLawfulMask op size address mask }
{
    sets_active(mask, op, active_mask(address, size))
}

/// Whether a mask sets just the active lanes, or some of them if bytes may be left unset.
fn sets_active(mask: u8, op: AskOp, active: u8) -> bool
    ensures { (size address : ℕ) → active ≡ active_mask address size
        → (IsTrue result ↔ IsLawfulMask op size address mask) }
{
    if op.may_leave_unset() {
        mask & active == mask
    } else {
        mask == active
    }
}

/// What stands at a lane of a beat.
fn byte_at(beat: &ABeat, lane: usize) -> Option<u8>
    requires { lane < BUS_BYTES }
    ensures { StandsAt beat.now.mask beat.now.lanes lane result }
{
    if beat.mask >> lane & 1 == 1 {
        Some(beat.lanes[lane])
    } else {
        None
    }
}

/// Appends what stands at some lanes of a beat.
fn push_lanes(bytes: &mut Bytes, beat: &ABeat, first: usize, count: usize)
    requires aligned { length bytes.old % BUS_BYTES ≡ 0 }
    requires in_bus { first + count ≤ BUS_BYTES }
    requires room { length bytes.old + count ≤ MAX_BYTES }
    ensures { GainsLanes beat.now first count bytes.old bytes.new }
{
    if count == BUS_BYTES && beat.mask == u8::MAX {
        bytes.push_given(&beat.lanes);
        return;
    }
    for k in 0..count {
        bytes.push(byte_at(beat, first + k));
    }
}

/// The lowest beat from `from` on that has other fields than the first, where none before it has.
fn first_changed(beats: &[ABeat], first: &ABeat, from: usize) -> Option<usize>
    requires { HoldsBelow (SameFields first.now) beats.now from }
    ensures { MatchOption result (HoldsBelow (SameFields first.now) beats.now (length beats.now))
        (λ b. FailsFirstAt (SameFields first.now) beats.now b) }
{
    for b in from..beats.len() {
        if !same_fields(first, &beats[b]) {
            return Some(b);
        }
    }
    None
}

/// Tries the beats of a request one by one, and names the first fault that shows.
// An unlawful mask comes after a changed field of a later beat, so the beats after it are tried for that alone.
fn check_beats(beats: &[ABeat], first: &ABeat, op: AskOp) -> Result<(), BeatFault>
    requires { first.now.size ≤ MAX_SIZE }
    ensures ok { OnOk result (AreFaultless beats.now first.now op) }
    ensures fault { IfErr result (IsFaultOfBeats beats.now first.now op) }
{
    let active = active_mask(first.address, first.size);
    for (b, beat) in beats.iter().enumerate() {
        if !same_fields(first, beat) {
            return Err(BeatFault::Changed(b));
        }
        if !sets_active(beat.mask, op, active) {
            return Err(match first_changed(beats, first, b) {
                Some(changed) => BeatFault::Changed(changed),
                None => BeatFault::Mask(b),
            });
        }
    }
    Ok(())
}

/// Gathers the bytes that stand in the beats of a request, if there are none yet.
fn gather_bytes(beats: &[ABeat], first: &ABeat, op: AskOp, bytes: &mut Bytes)
    requires in_limit { first.now.size ≤ MAX_SIZE }
    requires count { length beats.now ≡ beat_count (carries_bytes op) first.now.size }
    requires none { bytes.old ≡ [] }
    ensures { AreBytesOf beats.now first.now op bytes.new }
{
    let lane = first_lane(first.address, first.size);
    let count = op.byte_count(first.size).min(BUS_BYTES);
    for beat in beats {
        push_lanes(bytes, beat, lane, count);
    }
}

/// Puts the request that carries the bytes of these beats, which have no fault, in the place of another.
// a function of its own, since it holds room for the longest message
fn fill_with_bytes(beats: &[ABeat], first: &ABeat, op: AskOp, ask: &mut Ask)
    requires begun { IsBegun beats.now first.now op }
    requires faultless { AreFaultless beats.now first.now op }
    ensures lawful { IsLawfulRequest ask.new.op ask.new.size ask.new.bytes }
    ensures spells { SpellsAsk ask.new beats.now }
{
    let mut bytes = Bytes::new();
    gather_bytes(beats, first, op, &mut bytes);
    ask.refill_from(op, first.size, first.source, first.address, &bytes);
}

/// Puts the request that carries the word of the one beat, which has no fault and sets all lanes, in the place of
/// another.
// most puts are of a word: it is read from the lanes where they lie
fn fill_word(beats: &[ABeat], first: &ABeat, op: AskOp, ask: &mut Ask)
    requires begun { IsBegun beats.now first.now op }
    requires faultless { AreFaultless beats.now first.now op }
    requires word { byte_count op first.now.size ≡ BUS_BYTES }
    requires set { first.now.mask ≡ 255 }
    ensures lawful { IsLawfulRequest ask.new.op ask.new.size ask.new.bytes }
    ensures spells { SpellsAsk ask.new beats.now }
{
    ask.refill_given(op, first.size, first.source, first.address, &first.lanes);
}

/// Puts the request that these beats spell, which have no fault, in the place of another.
fn fill_ask(beats: &[ABeat], first: &ABeat, op: AskOp, ask: &mut Ask)
    requires begun { IsBegun beats.now first.now op }
    requires faultless { AreFaultless beats.now first.now op }
    ensures lawful { IsLawfulRequest ask.new.op ask.new.size ask.new.bytes }
    ensures spells { SpellsAsk ask.new beats.now }
{
    if !op.carries_bytes() {
        ask.refill(op, first.size, first.source, first.address, &[]);
    } else if op.byte_count(first.size) == BUS_BYTES && first.mask == u8::MAX {
        fill_word(beats, first, op, ask);
    } else {
        fill_with_bytes(beats, first, op, ask);
    }
}

/// Puts the request that beats spell in the place of another, or names the first fault that they have.
pub fn assemble_ask_into(beats: &[ABeat], ask: &mut Ask) -> Result<(), BeatFault>
    ensures ok { OnOk result (SpellsAsk ask.new beats.now) }
    ensures all { (request : Request) → IsLawfulRequest request.op request.size request.bytes
        → SpellsAsk request beats.now → IsOk result × (ask.new ≡ request) }
    ensures fault { IfErr result (IsFirstBeatFault beats.now) }
    ensures kept { OnErr result (ask.new ≡ ask.old) }
{
    let first = beats.first().ok_or(BeatFault::NoBeat)?;
    let op = read_op(first.opcode, first.param).map_err(BeatFault::Op)?;
    if first.size > MAX_SIZE {
        return Err(BeatFault::Size);
    }
    if beats.len() != beat_count(op.carries_bytes(), first.size) {
        return Err(BeatFault::Count);
    }
    check_beats(beats, first, op)?;
    fill_ask(beats, first, op, ask);
    Ok(())
}

/// The request that beats spell, or the first fault that they have.
pub fn assemble_ask(beats: &[ABeat]) -> Result<Ask, BeatFault>
    ensures ok { IfOk result (λ ask. SpellsAsk ask beats.now) }
    ensures all { (ask : Request) → IsLawfulRequest ask.op ask.size ask.bytes
        → SpellsAsk ask beats.now → result ≡ Ok ask }
    ensures fault { IfErr result (IsFirstBeatFault beats.now) }
{
    let mut ask = Ask::blank();
    assemble_ask_into(beats, &mut ask)?;
    Ok(ask)
}
