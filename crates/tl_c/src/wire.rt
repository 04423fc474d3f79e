//! The structs of the header, and what they stand for.
ghost use Rattle.std.specs.Prelude.{◌≡◌, ◌≢◌, ◌≤◌, ◌↔◌, drop, length, map, option_map};
ghost use Rattle.check_watch.specs.Plan.{seen_at};
ghost use Rattle.tl_types.specs.Wire.{IsCodeOf};
ghost use Rattle.tl_c.specs.Wire.{ask_beat, IsWireAnswer, IsWireAsk, IsTooLarge, NamesNone, beat_of, flag_of, known_number, link_of, reply_beat, shown_by_struct, told_byte};

use crate::fault::{NO_OPERATION, OK, SIZE};
use check_beats::{AskHead, MAX_LANES, ReplyHead};
use check_flight::Answer;
use check_memory::Cells;
use check_watch::{Beat, Link};
use tl_types::{Ask, AskOp, MAX_SIZE, read_op, reply_opcode};

/// The room of a message's bytes in the header's structs.
pub const ROOM: usize = 256;

/// A request: `struct tlx_request`.
#[repr(C)]
#[derive(Clone, Copy)]
pub struct WireAsk {
    pub address: u64,
    pub source: u16,
    pub opcode: u8,
    pub param: u8,
    pub size: u8,
    pub bytes: [u8; ROOM],
    pub set: [u8; ROOM],
}

/// What a request is answered: `struct tlx_answer`.
#[repr(C)]
#[derive(Clone, Copy)]
pub struct WireAnswer {
    pub port: usize,
    pub place: usize,
    pub count: usize,
    pub source: u16,
    pub opcode: u8,
    pub size: u8,
    pub denied: u8,
    pub bytes: [u8; ROOM],
    pub known: [u8; ROOM],
}

/// A beat: `struct tlx_beat`. Its lanes are those of the widest bus, and are borrowed where a beat is judged.
#[repr(C)]
#[derive(Clone, Copy)]
pub struct WireBeat {
    pub line: u64,
    pub time: u64,
    pub number: usize,
    pub address: u64,
    pub mask: u64,
    pub known: u64,
    pub source: u16,
    pub side: u8,
    pub channel: u8,
    pub opcode: u8,
    pub param: u8,
    pub size: u8,
    pub denied: u8,
    pub corrupt: u8,
    pub lanes: [u8; MAX_LANES],
}

/// Reads the request of a struct into the place of another, and answers `OK` or the number of its fault.
pub(crate) fn read_ask(wire: &WireAsk, ask: &mut Ask) -> u32
    ensures ask { result ≡ OK → IsWireAsk wire.now ask.new }
    ensures no_operation { result ≡ NO_OPERATION ↔ NamesNone wire.now }
    ensures size { result ≡ SIZE ↔ IsTooLarge wire.now }
    ensures first { result ≢ OK → NO_OPERATION ≤ result }
    ensures last { result ≤ SIZE }
{
    let Ok(op) = read_op(wire.opcode, wire.param) else {
        return NO_OPERATION;
    };
    if wire.size > MAX_SIZE {
        return SIZE;
    }
    fill_ask(wire, op, ask);
    OK
}

/// Puts a request of this operation, with the other fields of a struct, in the place of another.
fn fill_ask(wire: &WireAsk, op: AskOp, ask: &mut Ask)
    requires code { IsCodeOf op wire.now.opcode wire.now.param }
    requires in_limit { wire.now.size ≤ MAX_SIZE }
    ensures { IsWireAsk wire.now ask.new }
{
    let bytes = &wire.bytes[..op.byte_count(wire.size)];
    if op.may_leave_unset() {
        ask.refill_flagged(op, wire.size, wire.source, wire.address, bytes, &wire.set);
    } else {
        ask.refill_given(op, wire.size, wire.source, wire.address, bytes);
    }
}

/// Tells bytes in a buffer: zero where one is unknown.
fn tell_bytes(cells: &Cells, bytes: &mut [u8])
    requires { length bytes.old ≡ length cells.now }
    ensures { bytes.new ≡ map told_byte cells.now }
{
    for place in 0..bytes.len() {
        bytes[place] = cells.get(place).unwrap_or(0);
    }
}

/// Tells in a buffer which bytes are known: 1 where one is, else 0.
fn tell_known(cells: &Cells, flags: &mut [u8])
    requires { length flags.old ≡ length cells.now }
    ensures { flags.new ≡ map known_number cells.now }
{
    for place in 0..flags.len() {
        flags[place] = cells.get(place).is_some() as u8;
    }
}

/// Puts an answer into a struct. Behind its bytes the struct stays as it was: a short answer pays for no long one.
pub(crate) fn put_answer(wire: &mut WireAnswer, answer: &Answer)
    ensures answer { IsWireAnswer wire.new answer.now }
    ensures behind { drop wire.new.count wire.new.bytes ≡ drop wire.new.count wire.old.bytes }
    ensures known_behind { drop wire.new.count wire.new.known ≡ drop wire.new.count wire.old.known }
{
    let reply = &answer.reply;
    let cells = reply.cells();
    let count = cells.len();
    wire.port = answer.port;
    wire.place = answer.index;
    wire.count = count;
    wire.source = reply.source();
    wire.opcode = reply_opcode(reply.op());
    wire.size = reply.size();
    wire.denied = reply.denied().unwrap_or(false) as u8;
    tell_bytes(cells, &mut wire.bytes[..count]);
    tell_known(cells, &mut wire.known[..count]);
}

/// The flag that a number stands for.
fn flag_of(number: u8) -> Option<bool>
    ensures { result ≡ flag_of number }
{
    if number == 0 {
        Some(false)
    } else if number == 1 {
        Some(true)
    } else {
        None
    }
}

/// The link of a side's number.
fn link_of(side: u8, number: usize) -> Option<Link>
    ensures { result ≡ link_of side number }
{
    if side == 0 {
        Some(Link::Master(number))
    } else if side == 1 {
        Some(Link::Port(number))
    } else {
        None
    }
}

/// The beat of a request of a struct, if its flag has a meaning.
fn ask_beat(wire: &WireBeat) -> Option<Beat>
    ensures { result ≡ ask_beat wire.now (flag_of wire.now.corrupt) }
{
    let corrupt = flag_of(wire.corrupt)?;
    Some(Beat::A(AskHead {
        opcode: wire.opcode,
        param: wire.param,
        size: wire.size,
        source: wire.source,
        address: wire.address,
        mask: wire.mask,
        corrupt,
    }))
}

/// The beat of a reply of a struct, if its flags have a meaning.
fn reply_beat(wire: &WireBeat) -> Option<Beat>
    ensures { result ≡ reply_beat wire.now (flag_of wire.now.denied) (flag_of wire.now.corrupt) }
{
    let denied = flag_of(wire.denied)?;
    let corrupt = flag_of(wire.corrupt)?;
    Some(Beat::D(ReplyHead {
        opcode: wire.opcode,
        param: wire.param,
        size: wire.size,
        source: wire.source,
        denied,
        corrupt,
    }))
}

/// The beat of a struct, if its numbers have a meaning.
fn beat_of(wire: &WireBeat) -> Option<Beat>
    ensures { result ≡ beat_of wire.now }
{
    if wire.channel == 0 {
        ask_beat(wire)
    } else if wire.channel == 1 {
        reply_beat(wire)
    } else {
        None
    }
}

/// The link and the beat of a struct, if its numbers have a meaning.
pub(crate) fn seen_in(wire: &WireBeat) -> Option<(Link, Beat)>
    ensures { option_map (λ seen. seen_at seen.0 seen.1 wire.now.known wire.now.lanes) result ≡ shown_by_struct wire.now }
{
    let link = link_of(wire.side, wire.number)?;
    let beat = beat_of(wire)?;
    Some((link, beat))
}
