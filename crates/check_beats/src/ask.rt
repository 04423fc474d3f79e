//! Beats of channel A.
ghost use Rattle.std.specs.Prelude.{◌≡◌, ◌≤◌, ◌↔◌, ℕ, List, None, Some, false, length, IsTrue, IfSome, IfNone};
ghost use Rattle.tl_types.specs.Wire.{IsCodeOf};
ghost use Rattle.check_beats.specs.Bus.{bus_bytes, active_mask_on_bus};
ghost use Rattle.check_beats.specs.Form.{IsLawfulMaskOnBus, IsRightAskMark, SameFields, Continues, IsKnown, IsFormed, FitsAsk, IsFirstAskFormFault};
ghost use Rattle.check_beats.specs.Rules.{IsAlignedBy, IsAskMarkedBy};
ghost use Rattle.check_beats.specs.Message.{ask_beats, op_of};
ghost use Rattle.check_beats.specs.State.{ask_of};

use crate::beat::AskHead;
use crate::bus::{Bus, active_mask_on_bus, beat_count_on_bus, first_lane};
use crate::fault::FormFault;
use crate::lanes::{ZEROS, push_lanes};
use crate::rules::{LinkRules, is_aligned_by, is_ask_marked_by};
use check_cells::Sent;
use tl_types::{Ask, AskOp, Bytes, MAX_BYTES, MAX_SIZE, read_op};

/// Whether two beats have the same shared fields.
pub fn same_fields(first: &AskHead, beat: &AskHead) -> bool
    ensures { IsTrue result ↔ SameFields first.now beat.now }
{
    beat.opcode == first.opcode
        && beat.param == first.param
        && beat.size == first.size
        && beat.source == first.source
        && beat.address == first.address
}

/// Whether a mask sets just the active lanes, or some of them if bytes may be left unset.
fn sets_active(mask: u64, op: AskOp, active: u64) -> bool
    ensures { (bus size address : ℕ) → active ≡ active_mask_on_bus bus address size
        → (IsTrue result ↔ IsLawfulMaskOnBus bus op size address mask) }
{
    if op.may_leave_unset() {
        mask & active == mask
    } else {
        mask == active
    }
}

/// Whether a mask is lawful.
pub fn is_lawful_mask(bus: Bus, mask: u64, op: AskOp, size: u8, address: u64) -> bool
    requires { size ≤ MAX_SIZE }
    ensures { IsTrue result ↔ IsLawfulMaskOnBus (bus_bytes bus) op size address mask }
{
    sets_active(mask, op, active_mask_on_bus(bus, address, size))
}

/// Whether a beat has the fields of the message that is under way, if one is.
fn continues(first: &Option<AskHead>, beat: &AskHead) -> bool
    ensures { IsTrue result ↔ Continues SameFields first.now beat.now }
{
    match first {
        Some(first) => same_fields(first, beat),
        None => true,
    }
}

/// Whether each lane that carries a byte is known.
fn is_known(beat: &AskHead, known: u64) -> bool
    ensures { IsTrue result ↔ IsKnown beat.now known }
{
    beat.opcode >= 4 || beat.mask & known == beat.mask || beat.corrupt
}

/// Whether a `corrupt` flag may be lawful, whatever the system says.
fn is_lawful_ask_flag(op: AskOp, corrupt: bool) -> bool
    ensures { IsTrue result ↔ IsRightAskMark op corrupt }
{
    !corrupt || op.carries_bytes()
}

/// The first fault that a beat has as one of a request, after the first beat of the request that is under way.
#[inline(always)]
pub fn ask_fault(
    bus: Bus,
    rules: LinkRules,
    first: &Option<AskHead>,
    beat: &AskHead,
    known: u64,
) -> Option<FormFault>
    ensures fault { IfSome result (IsFirstAskFormFault (bus_bytes bus) rules first.now beat.now known) }
    ensures fits { IfNone result (FitsAsk (bus_bytes bus) first.now beat.now) }
    ensures aligned { IfNone result (IsAlignedBy rules beat.now) }
    ensures marked { IfNone result (IsAskMarkedBy rules beat.now) }
    ensures known { IfNone result (IsKnown beat.now known) }
{
    if !continues(first, beat) {
        return Some(FormFault::Changed);
    }
    let Ok(op) = read_op(beat.opcode, beat.param) else {
        return Some(FormFault::Opcode);
    };
    if beat.size > MAX_SIZE {
        return Some(FormFault::Size);
    }
    if !is_aligned_by(rules, beat) {
        return Some(FormFault::Unaligned);
    }
    if !is_lawful_mask(bus, beat.mask, op, beat.size, beat.address) {
        return Some(FormFault::Mask);
    }
    if !is_lawful_ask_flag(op, beat.corrupt) || !is_ask_marked_by(rules, beat) {
        return Some(FormFault::CorruptFlag);
    }
    if !is_known(beat, known) {
        return Some(FormFault::UnknownData);
    }
    None
}

/// How many beats the request has that a beat is part of.
pub fn ask_beats(bus: Bus, beat: &AskHead) -> usize
    requires { beat.now.size ≤ MAX_SIZE }
    ensures value { result ≡ ask_beats (bus_bytes bus) beat.now }
    ensures in_limit { result ≤ MAX_BYTES }
{
    beat_count_on_bus(bus, beat.opcode < 4, beat.size)
}

/// The operation of a beat that is lawful alone.
pub fn op_of(bus: Bus, beat: &AskHead) -> AskOp
    requires { IsFormed (bus_bytes bus) beat.now }
    ensures value { result ≡ op_of beat.now.opcode beat.now.param }
    ensures code { IsCodeOf result beat.now.opcode beat.now.param }
{
    read_op(beat.opcode, beat.param).unwrap()
}

/// Puts the request of one beat that leaves some of its bytes unset in the place of another.
// a function of its own, since it holds room for the longest message
#[inline(never)]
fn put_part(bus: Bus, op: AskOp, beat: &AskHead, lanes: &[u8], ask: &mut Ask)
    requires formed { IsFormed (bus_bytes bus) beat.now }
    requires op { op ≡ op_of beat.now.opcode beat.now.param }
    requires alone { ask_beats (bus_bytes bus) beat.now ≡ 1 }
    requires lanes { length lanes.now ≡ bus_bytes bus }
    requires clean { beat.now.corrupt ≡ false }
    ensures { ask.new ≡ (ask_of (bus_bytes bus) None beat.now lanes.now).ask }
{
    let mut bytes = Bytes::new();
    let first = first_lane(bus, beat.address, beat.size);
    let count = bus.bytes().min(op.byte_count(beat.size));
    push_lanes(&mut bytes, beat.mask, lanes, first, count);
    ask.refill_from(op, beat.size, beat.source, beat.address, &bytes);
}

/// Puts the request of one beat whose bytes are all given in the place of another.
fn put_whole(bus: Bus, op: AskOp, beat: &AskHead, lanes: &[u8], ask: &mut Ask)
    requires formed { IsFormed (bus_bytes bus) beat.now }
    requires op { op ≡ op_of beat.now.opcode beat.now.param }
    requires alone { ask_beats (bus_bytes bus) beat.now ≡ 1 }
    requires lanes { length lanes.now ≡ bus_bytes bus }
    requires set { beat.now.mask ≡ active_mask_on_bus (bus_bytes bus) beat.now.address beat.now.size }
    requires clean { beat.now.corrupt ≡ false }
    ensures { ask.new ≡ (ask_of (bus_bytes bus) None beat.now lanes.now).ask }
{
    let first = first_lane(bus, beat.address, beat.size);
    let count = bus.bytes().min(op.byte_count(beat.size));
    let bytes = &lanes[first..first + count];
    ask.refill_given(op, beat.size, beat.source, beat.address, bytes);
}

/// Puts the request of one beat that is not marked corrupt in the place of another.
fn put_clean(bus: Bus, op: AskOp, beat: &AskHead, lanes: &[u8], ask: &mut Ask)
    requires formed { IsFormed (bus_bytes bus) beat.now }
    requires op { op ≡ op_of beat.now.opcode beat.now.param }
    requires alone { ask_beats (bus_bytes bus) beat.now ≡ 1 }
    requires lanes { length lanes.now ≡ bus_bytes bus }
    requires clean { beat.now.corrupt ≡ false }
    ensures { ask.new ≡ (ask_of (bus_bytes bus) None beat.now lanes.now).ask }
{
    if beat.mask == active_mask_on_bus(bus, beat.address, beat.size) {
        put_whole(bus, op, beat, lanes, ask);
    } else {
        put_part(bus, op, beat, lanes, ask);
    }
}

/// The same of a beat that is marked corrupt: as if its lanes were zero.
// apart, since few beats are
#[inline(never)]
fn put_corrupt(bus: Bus, op: AskOp, beat: &AskHead, ask: &mut Ask)
    requires formed { IsFormed (bus_bytes bus) beat.now }
    requires op { op ≡ op_of beat.now.opcode beat.now.param }
    requires alone { ask_beats (bus_bytes bus) beat.now ≡ 1 }
    requires corrupt { IsTrue beat.now.corrupt }
    ensures { (lanes : List ℕ) → ask.new ≡ (ask_of (bus_bytes bus) None beat.now lanes).ask }
{
    let clean = AskHead {
        corrupt: false,
        ..*beat
    };
    put_clean(bus, op, &clean, &ZEROS[..bus.bytes()], ask);
}

/// Puts the request of one beat in the place of another.
pub fn put_ask(bus: Bus, beat: &AskHead, lanes: &[u8], sent: &mut Sent)
    requires formed { IsFormed (bus_bytes bus) beat.now }
    requires alone { ask_beats (bus_bytes bus) beat.now ≡ 1 }
    requires lanes { length lanes.now ≡ bus_bytes bus }
    ensures { sent.new ≡ ask_of (bus_bytes bus) None beat.now lanes.now }
{
    let op = op_of(bus, beat);
    if beat.corrupt {
        put_corrupt(bus, op, beat, &mut sent.ask);
    } else {
        put_clean(bus, op, beat, lanes, &mut sent.ask);
    }
    sent.marks.clear();
    sent.marks
        .push(beat.corrupt, bus.bytes().min(op.byte_count(beat.size)));
}

/// Whether a beat has the fields and the mask of another, and is not marked corrupt.
fn is_alike(head: &AskHead, beat: &AskHead) -> bool
    ensures same { IsTrue result → SameFields head.now beat.now }
    ensures mask { IsTrue result → beat.now.mask ≡ head.now.mask }
    ensures clean { IsTrue result → beat.now.corrupt ≡ false }
{
    same_fields(head, beat) && beat.mask == head.mask && !beat.corrupt
}

/// The fault that a beat which fits has by its lanes, if it has one.
fn lane_fault(
    bus: Bus,
    rules: LinkRules,
    first: &Option<AskHead>,
    beat: &AskHead,
    known: u64,
) -> Option<FormFault>
    requires fits { FitsAsk (bus_bytes bus) first.now beat.now }
    requires aligned { IsAlignedBy rules beat.now }
    requires marked { IsAskMarkedBy rules beat.now }
    ensures fault { IfSome result (IsFirstAskFormFault (bus_bytes bus) rules first.now beat.now known) }
    ensures known { IfNone result (IsKnown beat.now known) }
{
    if is_known(beat, known) {
        None
    } else {
        Some(FormFault::UnknownData)
    }
}

/// The first fault that a beat has as one of a request, after this first beat.
// one with the fields and the mask of the first is as lawful as that: most are
pub fn next_ask_fault(
    bus: Bus,
    rules: LinkRules,
    first: &Option<AskHead>,
    head: &AskHead,
    beat: &AskHead,
    known: u64,
) -> Option<FormFault>
    requires formed { IsFormed (bus_bytes bus) head.now }
    requires first { first.now ≡ Some head.now }
    ensures fault { IfSome result (IsFirstAskFormFault (bus_bytes bus) rules first.now beat.now known) }
    ensures fits { IfNone result (FitsAsk (bus_bytes bus) first.now beat.now) }
    ensures aligned { IfNone result (IsAlignedBy rules beat.now) }
    ensures marked { IfNone result (IsAskMarkedBy rules beat.now) }
    ensures known { IfNone result (IsKnown beat.now known) }
{
    if is_alike(head, beat) && is_aligned_by(rules, beat) {
        lane_fault(bus, rules, first, beat, known)
    } else {
        other_ask_fault(bus, rules, first, beat, known)
    }
}

/// As `ask_fault`.
// apart, so that what is judged of most beats is small
#[inline(never)]
fn other_ask_fault(
    bus: Bus,
    rules: LinkRules,
    first: &Option<AskHead>,
    beat: &AskHead,
    known: u64,
) -> Option<FormFault>
    ensures fault { IfSome result (IsFirstAskFormFault (bus_bytes bus) rules first.now beat.now known) }
    ensures fits { IfNone result (FitsAsk (bus_bytes bus) first.now beat.now) }
    ensures aligned { IfNone result (IsAlignedBy rules beat.now) }
    ensures marked { IfNone result (IsAskMarkedBy rules beat.now) }
    ensures known { IfNone result (IsKnown beat.now known) }
{
    ask_fault(bus, rules, first, beat, known)
}
