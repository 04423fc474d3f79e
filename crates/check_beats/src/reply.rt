//! Beats of channel D.
ghost use Rattle.std.specs.Prelude.{◌≡◌, ◌+◌, ◌*◌, ◌/◌, ◌%◌, ◌^◌, ◌≤◌, ◌↔◌, ◌++◌, None, Some, length, IsTrue, IfSome, IfNone};
ghost use Rattle.tl_types.specs.Wire.{reply_opcode_of};
ghost use Rattle.check_beats.specs.Bus.{bus_bytes};
ghost use Rattle.check_beats.specs.Form.{IsRightMark, SameReplyFields, Continues, IsFormedReply, FitsReply, IsFirstReplyFormFault, IsKnownReply};
ghost use Rattle.check_beats.specs.Message.{reply_beats, reply_op_of_number, is_spoiled, seen_cells};
ghost use Rattle.check_beats.specs.Rules.{IsMarkedBy};
ghost use Rattle.check_beats.specs.State.{reply_of};

use crate::beat::ReplyHead;
use crate::bus::{Bus, MAX_LANES, active_mask_on_bus, beat_count_on_bus, first_lane};
use crate::fault::FormFault;
use crate::lanes::ZEROS;
use crate::rules::{LinkRules, is_marked_by};
use check_cells::{Cells, Pattern};
use tl_types::{MAX_BYTES, MAX_SIZE, ReplyOp, read_reply_op};

/// The opcode, size and source of a beat as one number. They lie side by side, so that they are read at once.
fn shared_word(beat: &ReplyHead) -> u32
    ensures value { result ≡ beat.now.opcode + 2 ^ 8 * beat.now.size + 2 ^ 16 * beat.now.source }
    ensures opcode { beat.now.opcode ≡ result % 2 ^ 8 }
    ensures size { beat.now.size ≡ result / 2 ^ 8 % 2 ^ 8 }
    ensures source { beat.now.source ≡ result / 2 ^ 16 }
{
    beat.opcode as u32 + ((beat.size as u32) << 8) + ((beat.source as u32) << 16)
}

/// Whether two beats have the same shared fields.
pub fn same_reply_fields(first: &ReplyHead, beat: &ReplyHead) -> bool
    ensures { IsTrue result ↔ SameReplyFields first.now beat.now }
{
    shared_word(beat) == shared_word(first)
        && beat.param == first.param
        && beat.denied == first.denied
}

/// Whether a `corrupt` flag may be lawful, whatever the system says.
pub fn is_lawful_flag(op: ReplyOp, denied: bool, corrupt: bool) -> bool
    ensures { IsTrue result ↔ IsRightMark op denied corrupt }
{
    if op.carries_bytes() {
        corrupt || !denied
    } else {
        !corrupt
    }
}

/// Whether a beat has the fields of the message that is under way, if one is.
fn continues(first: &Option<ReplyHead>, beat: &ReplyHead) -> bool
    ensures { IsTrue result ↔ Continues SameReplyFields first.now beat.now }
{
    match first {
        Some(first) => same_reply_fields(first, beat),
        None => true,
    }
}

/// The first fault that a beat has as one of a reply, after the first beat of the reply that is under way.
pub fn reply_fault(
    rules: LinkRules,
    first: &Option<ReplyHead>,
    beat: &ReplyHead,
) -> Option<FormFault>
    ensures fault { IfSome result (IsFirstReplyFormFault rules first.now beat.now) }
    ensures fits { IfNone result (FitsReply first.now beat.now) }
    ensures marked { IfNone result (IsMarkedBy rules beat.now) }
{
    if !continues(first, beat) {
        return Some(FormFault::Changed);
    }
    let Ok(op) = read_reply_op(beat.opcode) else {
        return Some(FormFault::Opcode);
    };
    if beat.param != 0 {
        return Some(FormFault::Param);
    }
    if beat.size > MAX_SIZE {
        return Some(FormFault::Size);
    }
    if !is_lawful_flag(op, beat.denied, beat.corrupt) || !is_marked_by(rules, beat) {
        return Some(FormFault::CorruptFlag);
    }
    None
}

/// The first fault that a beat has as one of a reply, after this first beat.
// one with the fields and the flag of the first is as lawful as that: most are
pub fn next_reply_fault(
    rules: LinkRules,
    first: &Option<ReplyHead>,
    head: &ReplyHead,
    beat: &ReplyHead,
) -> Option<FormFault>
    requires formed { IsFormedReply head.now }
    requires first { first.now ≡ Some head.now }
    ensures fault { IfSome result (IsFirstReplyFormFault rules first.now beat.now) }
    ensures fits { IfNone result (FitsReply first.now beat.now) }
    ensures marked { IfNone result (IsMarkedBy rules beat.now) }
{
    if same_reply_fields(head, beat) && beat.corrupt == head.corrupt && is_marked_by(rules, beat) {
        None
    } else {
        reply_fault(rules, first, beat)
    }
}

/// How many beats the reply has that a beat is part of.
pub fn reply_beats(bus: Bus, beat: &ReplyHead) -> usize
    requires { beat.now.size ≤ MAX_SIZE }
    ensures value { result ≡ reply_beats (bus_bytes bus) beat.now }
    ensures in_limit { result ≤ MAX_BYTES }
{
    beat_count_on_bus(bus, beat.opcode == 1, beat.size)
}

/// The opcode of a beat that is lawful alone.
pub fn lawful_reply_op(beat: &ReplyHead) -> ReplyOp
    requires { IsFormedReply beat.now }
    ensures value { result ≡ reply_op_of_number beat.now.opcode }
    ensures code { reply_opcode_of result ≡ beat.now.opcode }
{
    read_reply_op(beat.opcode).unwrap()
}

/// Whether each lane is known that carries a byte of a reply to a request at this address.
pub fn is_known_reply(bus: Bus, address: u64, beat: &ReplyHead, known: u64) -> bool
    requires { beat.now.size ≤ MAX_SIZE }
    ensures { IsTrue result ↔ IsKnownReply (bus_bytes bus) address beat.now known }
{
    if beat.opcode != 1 || beat.denied || beat.corrupt {
        return true;
    }
    let active = active_mask_on_bus(bus, address, beat.size);
    active & known == active
}

/// Whether the bytes that a beat carries promise nothing.
pub fn is_spoiled(beat: &ReplyHead) -> bool
    ensures { result ≡ is_spoiled beat.now }
{
    beat.corrupt && !beat.denied
}

/// Puts what is seen of the bytes at so many lanes from one on in the place of others: zeros in a denied reply, and nothing of a
/// corrupt beat.
pub fn put_seen(
    cells: &mut Cells,
    beat: &ReplyHead,
    known: u64,
    lanes: &[u8],
    first: usize,
    count: usize,
)
    requires inside { first + count ≤ length lanes.now }
    requires in_limit { length lanes.now ≤ MAX_LANES }
    ensures { cells.new ≡ seen_cells beat.now known lanes.now first count }
{
    if beat.denied {
        cells.fill(true, count);
    } else if beat.corrupt {
        cells.fill(false, count);
    } else {
        cells.refill_part(lanes, known, first, count);
    }
}

/// Appends what is seen of the bytes at all lanes of a beat: zeros in a denied reply, and nothing of a corrupt beat.
pub fn push_seen(cells: &mut Cells, beat: &ReplyHead, known: u64, lanes: &[u8])
    requires in_limit { length lanes.now ≤ MAX_LANES }
    requires room { length cells.old + length lanes.now ≤ MAX_BYTES }
    ensures { cells.new ≡ cells.old ++ seen_cells beat.now known lanes.now 0 (length lanes.now) }
{
    if beat.denied {
        cells.append(&ZEROS[..lanes.len()], u64::MAX);
    } else if beat.corrupt {
        cells.append(&ZEROS[..lanes.len()], 0);
    } else {
        cells.append(lanes, known);
    }
}

/// Puts the reply of one beat, to a request at this address, in the place of another.
pub fn put_reply(
    bus: Bus,
    beat: &ReplyHead,
    address: u64,
    known: u64,
    lanes: &[u8],
    reply: &mut Pattern,
)
    requires formed { IsFormedReply beat.now }
    requires alone { reply_beats (bus_bytes bus) beat.now ≡ 1 }
    requires lanes { length lanes.now ≡ bus_bytes bus }
    ensures { reply.new ≡ reply_of (bus_bytes bus) None address beat.now known lanes.now }
{
    let op = lawful_reply_op(beat);
    let first = first_lane(bus, address, beat.size);
    let count = bus.bytes().min(op.byte_count(beat.size));
    reply.set_fields(op, beat.size, beat.source, Some(beat.denied));
    put_seen(&mut reply.cells, beat, known, lanes, first, count);
    reply.marks.clear();
    reply.marks.push(is_spoiled(beat), count);
}
