//! A row as most are, read in one pass over its line.
//!
//! `None` says nothing of the line, as in `front`: whoever gets it reads whole columns, and finds the fault, if there is
//! one.
ghost use Rattle.std.specs.Prelude.{◌≡◌, ◌≤◌, Ok, IfSome};
ghost use Rattle.check_beats.specs.Bus.{bus_bytes};
ghost use Rattle.check_rows.specs.Buses.{IsLinkOfRow};
ghost use Rattle.check_rows.specs.Column.{column_parts};
ghost use Rattle.check_rows.specs.Front.{LastSpell};
ghost use Rattle.check_rows.specs.Row.{ask_of_words, beat_of, reply_of_words, row_of, seen_beat, seen_row};

use crate::buses::Buses;
use crate::columns::RowChannel;
use crate::front::{
    last_flag_or, last_mark, take_address, take_channel, take_decimal, take_decimal_or_zero,
    take_flag, take_lanes, take_link, take_mask, take_nothing,
};
use crate::row::{MAX_FIELD, MAX_SOURCE, Row, asks_for_mark};
use check_beats::{AskHead, Bus, MAX_LANES, ReplyHead};
use check_watch::Beat;

/// The beat of channel A in the columns behind the channel, and which of its lanes are known.
fn quick_ask(bus: Bus, text: &[u8], lanes: &mut [u8; MAX_LANES]) -> Option<(Beat, u64)>
    ensures { IfSome result (λ it. LastSpell (ask_of_words (bus_bytes bus)) text.now (seen_beat (bus_bytes bus) lanes.new it)) }
{
    let Some((opcode, rest)) = take_decimal(text, MAX_FIELD) else {
        return None;
    };
    let Some((param, rest)) = take_decimal(rest, MAX_FIELD) else {
        return None;
    };
    let Some((size, rest)) = take_decimal(rest, MAX_FIELD) else {
        return None;
    };
    let Some((source, rest)) = take_decimal(rest, MAX_SOURCE) else {
        return None;
    };
    let Some((address, rest)) = take_address(rest) else {
        return None;
    };
    let Some((mask, rest)) = take_mask(bus, rest) else {
        return None;
    };
    let Some((known, rest)) = take_lanes(bus, rest, lanes) else {
        return None;
    };
    let Some(rest) = take_nothing(rest) else {
        return None;
    };
    let Some(corrupt) = last_mark(rest) else {
        return None;
    };
    let beat = AskHead {
        opcode: opcode as u8,
        param: param as u8,
        size: size as u8,
        source: source as u16,
        address,
        mask,
        corrupt: corrupt == 1,
    };
    Some((Beat::A(beat), known))
}

/// The beat of channel D in the columns behind the channel, and which of its lanes are known.
fn quick_reply(bus: Bus, text: &[u8], lanes: &mut [u8; MAX_LANES]) -> Option<(Beat, u64)>
    ensures { IfSome result (λ it.
        LastSpell (reply_of_words (bus_bytes bus)) text.now (seen_beat (bus_bytes bus) lanes.new it)) }
{
    let Some((opcode, rest)) = take_decimal(text, MAX_FIELD) else {
        return None;
    };
    let Some((param, rest)) = take_decimal_or_zero(rest, MAX_FIELD) else {
        return None;
    };
    let Some((size, rest)) = take_decimal(rest, MAX_FIELD) else {
        return None;
    };
    let Some((source, rest)) = take_decimal(rest, MAX_SOURCE) else {
        return None;
    };
    let Some(rest) = take_nothing(rest) else {
        return None;
    };
    let Some(rest) = take_nothing(rest) else {
        return None;
    };
    let Some((known, rest)) = take_lanes(bus, rest, lanes) else {
        return None;
    };
    let Some((denied, rest)) = take_flag(rest) else {
        return None;
    };
    let asked = asks_for_mark(opcode as u8, denied);
    let Some(corrupt) = last_flag_or(asked, rest) else {
        return None;
    };
    let beat = ReplyHead {
        opcode: opcode as u8,
        param: param as u8,
        size: size as u8,
        source: source as u16,
        denied,
        corrupt,
    };
    Some((Beat::D(beat), known))
}

/// The beat of this channel in the columns behind it, and which of its lanes are known.
fn quick_beat(
    bus: Bus,
    channel: RowChannel,
    text: &[u8],
    lanes: &mut [u8; MAX_LANES],
) -> Option<(Beat, u64)>
    ensures { IfSome result (λ it.
        LastSpell (beat_of (bus_bytes bus) channel) text.now (seen_beat (bus_bytes bus) lanes.new it)) }
{
    match channel {
        RowChannel::A => quick_ask(bus, text, lanes),
        RowChannel::D => quick_reply(bus, text, lanes),
    }
}

/// The row of a line without quotes, if it is one as most are. The lanes of the row stand in the first places of the
/// buffer then, as many as its bus has bytes.
pub(crate) fn quick_row(
    buses: &Buses<'_>,
    line: u64,
    text: &[u8],
    lanes: &mut [u8; MAX_LANES],
) -> Option<Row>
    ensures value { IfSome result (λ row.
        row_of buses.now.resets buses.now.masters.now buses.now.ports.now line (column_parts text.now) ≡ Ok (seen_row row lanes.new)) }
    ensures link { IfSome result (λ row.
        IsLinkOfRow row.is_reset buses.now.masters.now buses.now.ports.now row.link row.bus) }
{
    let Some((time, rest)) = take_decimal(text, u64::MAX) else {
        return None;
    };
    let Some((link, rest)) = take_link(buses, rest) else {
        return None;
    };
    let Some((channel, rest)) = take_channel(rest) else {
        return None;
    };
    let bus = buses.of(link);
    let Some((beat, known)) = quick_beat(bus, channel, rest, lanes) else {
        return None;
    };
    Some(Row {
        line,
        time,
        is_reset: false,
        link,
        bus,
        beat,
        known,
    })
}
