//! The rows of a capture.
ghost use Rattle.std.specs.Prelude.{◌≡◌, IfOk, None, Some, if◌then◌else◌};
ghost use Rattle.csv.specs.Records.{fields_of};
ghost use Rattle.check_beats.specs.Bus.{bus_bytes};
ghost use Rattle.check_rows.specs.Buses.{IsLinkOf, IsLinkOfRow};
ghost use Rattle.check_rows.specs.Column.{column_parts, column_words};
ghost use Rattle.check_rows.specs.declared.fault.RowFault.TheVariants.{Cut, Columns as WrongCount};
ghost use Rattle.check_rows.specs.Row.{ask_of_words, asks_for_mark, beat_in, beat_of, reply_of_words, row_at_reset, row_or_reset, row_in, row_of};

use crate::buses::Buses;
use crate::column::{Column, Columns, columns_of, cut_line, is_cut_line, is_cut_record};
use crate::columns::{
    RowChannel, are_empty, read_channel, read_flag, read_flag_or, read_link_or_reset, read_nothing,
};
use crate::fault::RowFault;
use crate::lanes::read_lanes;
use crate::number::{read_address, read_decimal, read_decimal_or_zero, read_mask};
use crate::quick::quick_row;
use check_beats::{AskHead, Bus, MAX_LANES, ReplyHead};
use check_watch::{Beat, Link};
use csv::ByteRecord;

/// The largest opcode, parameter and size that a beat can have.
pub(crate) const MAX_FIELD: u64 = u8::MAX as u64;

/// The largest source that a beat can have.
pub(crate) const MAX_SOURCE: u64 = u16::MAX as u64;

/// A row of a capture, but for its lanes: the line on which it begins, and what was seen when, at a link with this bus.
/// Bit k of `known` belongs to lane k. Or the whole system was reset then: the fields after `is_reset` mean nothing.
#[derive(Debug, Clone, Copy, PartialEq, Eq)]
pub struct Row {
    pub line: u64,
    pub time: u64,
    pub is_reset: bool,
    pub link: Link,
    pub bus: Bus,
    pub beat: Beat,
    pub known: u64,
}

impl Default for Row {
    fn default() -> Row {
        Row {
            line: 0,
            time: 0,
            is_reset: false,
            link: Link::Master(0),
            bus: Bus::One,
            beat: Beat::A(AskHead::default()),
            known: 0,
        }
    }
}

impl Row {
    /// The row of a reset of the whole system. It has no link and no beat: what stands there means nothing.
    pub fn reset(line: u64, time: u64) -> Row
        ensures { result ≡ row_at_reset line time }
    {
        Row {
            line,
            time,
            is_reset: true,
            link: Link::Master(0),
            bus: Bus::One,
            beat: Beat::A(AskHead {
                opcode: 0,
                param: 0,
                size: 0,
                source: 0,
                address: 0,
                mask: 0,
                corrupt: false,
            }),
            known: 0,
        }
    }
}

/// The beat of channel A that the columns spell, and which of its lanes are known.
#[tactic(auto, unfolding(crate::specs::Row::ask_of_words))]
fn read_ask(
    bus: Bus,
    columns: &Columns<'_>,
    lanes: &mut [u8; MAX_LANES],
) -> Result<(Beat, u64), RowFault>
    ensures { beat_in (bus_bytes bus) lanes.new result ≡ ask_of_words (bus_bytes bus) (column_words columns.now) }
{
    let opcode = read_decimal(Column::Opcode.of(columns), MAX_FIELD)?;
    let param = read_decimal(Column::Param.of(columns), MAX_FIELD)?;
    let size = read_decimal(Column::Size.of(columns), MAX_FIELD)?;
    let source = read_decimal(Column::Source.of(columns), MAX_SOURCE)?;
    let address = read_address(Column::Address.of(columns))?;
    let mask = read_mask(bus, Column::Mask.of(columns))?;
    let known = read_lanes(bus, Column::Data.of(columns), lanes)?;
    read_nothing(Column::Denied.of(columns))?;
    let corrupt = read_decimal_or_zero(Column::Corrupt.of(columns), 1)?;
    let beat = AskHead {
        opcode: opcode as u8,
        param: param as u8,
        size: size as u8,
        source: source as u16,
        address,
        mask,
        corrupt: corrupt == 1,
    };
    Ok((Beat::A(beat), known))
}

/// Whether the standard asks that a beat of a reply is marked corrupt.
#[inline(always)]
pub fn asks_for_mark(opcode: u8, denied: bool) -> bool
    ensures { result ≡ asks_for_mark opcode denied }
{
    denied && opcode == 1
}

/// The beat of channel D that the columns spell, and which of its lanes are known.
#[tactic(auto, unfolding(crate::specs::Row::reply_of_words))]
fn read_reply(
    bus: Bus,
    columns: &Columns<'_>,
    lanes: &mut [u8; MAX_LANES],
) -> Result<(Beat, u64), RowFault>
    ensures { beat_in (bus_bytes bus) lanes.new result ≡ reply_of_words (bus_bytes bus) (column_words columns.now) }
{
    let opcode = read_decimal(Column::Opcode.of(columns), MAX_FIELD)?;
    let param = read_decimal_or_zero(Column::Param.of(columns), MAX_FIELD)?;
    let size = read_decimal(Column::Size.of(columns), MAX_FIELD)?;
    let source = read_decimal(Column::Source.of(columns), MAX_SOURCE)?;
    read_nothing(Column::Address.of(columns))?;
    read_nothing(Column::Mask.of(columns))?;
    let known = read_lanes(bus, Column::Data.of(columns), lanes)?;
    let denied = read_flag(Column::Denied.of(columns))?;
    let asked = asks_for_mark(opcode as u8, denied);
    let corrupt = read_flag_or(asked, Column::Corrupt.of(columns))?;
    let beat = ReplyHead {
        opcode: opcode as u8,
        param: param as u8,
        size: size as u8,
        source: source as u16,
        denied,
        corrupt,
    };
    Ok((Beat::D(beat), known))
}

/// The beat of this channel that the columns spell.
fn read_beat(
    bus: Bus,
    channel: RowChannel,
    columns: &Columns<'_>,
    lanes: &mut [u8; MAX_LANES],
) -> Result<(Beat, u64), RowFault>
    ensures { beat_in (bus_bytes bus) lanes.new result
        ≡ beat_of (bus_bytes bus) channel (column_words columns.now) }
{
    match channel {
        RowChannel::A => read_ask(bus, columns, lanes),
        RowChannel::D => read_reply(bus, columns, lanes),
    }
}

/// The row of a beat at a link, of a time, that columns spell.
#[tactic(auto, unfolding(crate::specs::Row::row_or_reset))]
fn read_beat_row(
    buses: &Buses<'_>,
    line: u64,
    time: u64,
    link: Link,
    columns: &Columns<'_>,
    lanes: &mut [u8; MAX_LANES],
) -> Result<Row, RowFault>
    requires { IsLinkOf buses.now.masters.now buses.now.ports.now link }
    ensures value { row_in lanes.new result
        ≡ row_or_reset buses.now.masters.now buses.now.ports.now line time (column_words columns.now) (Some link) }
    ensures link { IfOk result (λ row.
        IsLinkOfRow row.is_reset buses.now.masters.now buses.now.ports.now row.link row.bus) }
{
    let channel = read_channel(Column::Channel.of(columns))?;
    let bus = buses.of(link);
    let (beat, known) = read_beat(bus, channel, columns, lanes)?;
    Ok(Row {
        line,
        time,
        is_reset: false,
        link,
        bus,
        beat,
        known,
    })
}

/// The row of a reset, of a time, that columns spell.
#[tactic(auto, unfolding(crate::specs::Row::row_or_reset))]
fn read_reset_row(
    buses: &Buses<'_>,
    line: u64,
    time: u64,
    columns: &Columns<'_>,
    lanes: &mut [u8; MAX_LANES],
) -> Result<Row, RowFault>
    ensures value { row_in lanes.new result
        ≡ row_or_reset buses.now.masters.now buses.now.ports.now line time (column_words columns.now) None }
    ensures link { IfOk result (λ row.
        IsLinkOfRow row.is_reset buses.now.masters.now buses.now.ports.now row.link row.bus) }
{
    if !are_empty(columns.after_link()) {
        return Err(RowFault::Number);
    }
    lanes[0] = 0;
    Ok(Row::reset(line, time))
}

/// The row that columns spell, in a system whose links have these buses, or the first fault that they have, from the
/// left.
#[tactic(auto, unfolding(crate::specs::Row::row_of))]
fn read_columns(
    buses: &Buses<'_>,
    line: u64,
    columns: &Columns<'_>,
    lanes: &mut [u8; MAX_LANES],
) -> Result<Row, RowFault>
    ensures value { row_in lanes.new result
        ≡ row_of buses.now.resets buses.now.masters.now buses.now.ports.now line (column_words columns.now) }
    ensures link { IfOk result (λ row.
        IsLinkOfRow row.is_reset buses.now.masters.now buses.now.ports.now row.link row.bus) }
{
    let time = read_decimal(Column::Time.of(columns), u64::MAX)?;
    match read_link_or_reset(buses, Column::Link.of(columns))? {
        Some(link) => read_beat_row(buses, line, time, link, columns, lanes),
        None => read_reset_row(buses, line, time, columns, lanes),
    }
}

/// What is wrong with a record of another count of columns, which stands where a fault cut the capture short, or not.
fn count_fault(is_cut: bool) -> RowFault
    ensures { result ≡ if is_cut then Cut else WrongCount }
{
    if is_cut {
        RowFault::Cut
    } else {
        RowFault::Columns
    }
}

/// The row that the columns of a record spell, in a system whose links have these buses, or the first fault that they
/// have, from the left. The lanes of the row stand in the first places of the buffer, as many as its bus has bytes.
/// After a fault nothing is said of the buffer.
#[tactic(auto, unfolding(crate::specs::Row::row_of))]
pub fn read_row(
    buses: &Buses<'_>,
    line: u64,
    columns: &ByteRecord,
    lanes: &mut [u8; MAX_LANES],
) -> Result<Row, RowFault>
    ensures value { row_in lanes.new result
        ≡ row_of buses.now.resets buses.now.masters.now buses.now.ports.now line (fields_of columns.now) }
    ensures link { IfOk result (λ row.
        IsLinkOfRow row.is_reset buses.now.masters.now buses.now.ports.now row.link row.bus) }
{
    match columns_of(columns) {
        Some(columns) => read_columns(buses, line, &columns, lanes),
        None => Err(count_fault(is_cut_record(columns))),
    }
}

/// The same of a line without quotes, between whose commas the columns stand.
#[tactic(auto, unfolding(crate::specs::Row::row_of))]
pub fn read_bare_row(
    buses: &Buses<'_>,
    line: u64,
    text: &[u8],
    lanes: &mut [u8; MAX_LANES],
) -> Result<Row, RowFault>
    ensures value { row_in lanes.new result
        ≡ row_of buses.now.resets buses.now.masters.now buses.now.ports.now line (column_parts text.now) }
    ensures link { IfOk result (λ row.
        IsLinkOfRow row.is_reset buses.now.masters.now buses.now.ports.now row.link row.bus) }
{
    if let Some(row) = quick_row(buses, line, text, lanes) {
        return Ok(row);
    }
    match cut_line(text) {
        Some(columns) => read_columns(buses, line, &columns, lanes),
        None => Err(count_fault(is_cut_line(text))),
    }
}
