//! The rows of a capture that rows of a dump are.
ghost use Rattle.std.specs.Prelude.{◌≡◌, ◌∷◌, Ok, IfSome};
ghost use Rattle.std.specs.Fmt.{decimal};
ghost use Rattle.check_beats.specs.Bus.{bus_bytes};
ghost use Rattle.check_rows.specs.Buses.{HasBus, IsLinkOf, IsLinkOfRow};
ghost use Rattle.check_rows.specs.Column.{column_parts};
ghost use Rattle.check_rows.specs.Row.{ask_of_words, reply_of_words, row_of, seen_beat, seen_row};
ghost use Rattle.check_samples.specs.Resets.{reset_line};
ghost use Rattle.check_samples.specs.Row.{ask_line, reply_line};
ghost use Rattle.check_due.specs.Rows.{IsDueRow, ask_words, reply_words};

use crate::columns::{
    field_of, field_or_zero, flag_of, flag_or, lanes_of, mark_or_zero, mask_of, source_of,
};
use check_beats::{AskHead, Bus, MAX_LANES, ReplyHead};
use check_rows::{Buses, Row, asks_for_mark};
use check_samples::{DueAsk, DueReply, DueRow};
use check_watch::{Beat, Link};

/// The bus of a link, if the system has it.
fn bus_of(buses: &Buses<'_>, link: Link) -> Option<Bus>
    ensures there { IfSome result (λ _. IsLinkOf buses.now.masters.now buses.now.ports.now link) }
    ensures bus { IfSome result (λ bus. HasBus buses.now.masters.now buses.now.ports.now link bus) }
{
    match link {
        Link::Master(number) => buses.masters.get(number).copied(),
        Link::Port(number) => buses.ports.get(number).copied(),
    }
}

/// The beat of a row of channel A, and which of its lanes are known.
fn ask_beat(bus: Bus, ask: &DueAsk<'_>, lanes: &mut [u8; MAX_LANES]) -> Option<(Beat, u64)>
    ensures { IfSome result (λ it. ask_of_words (bus_bytes bus) (decimal ask.now.time
        ∷ ask_words ask.now.link ask.now.cells ask.now.mask.now ask.now.lanes.now) ≡ Ok (seen_beat (bus_bytes bus) lanes.new it)) }
{
    let opcode = field_of(ask.cells.opcode)?;
    let param = field_of(ask.cells.param)?;
    let size = field_of(ask.cells.size)?;
    let source = source_of(ask.cells.source)?;
    let mask = mask_of(bus, ask.mask)?;
    let known = lanes_of(bus, ask.lanes, lanes)?;
    let corrupt = mark_or_zero(ask.cells.corrupt)?;
    let beat = AskHead {
        opcode,
        param,
        size,
        source,
        address: ask.cells.address,
        mask,
        corrupt: corrupt == 1,
    };
    Some((Beat::A(beat), known))
}

/// The same of channel D.
fn reply_beat(bus: Bus, reply: &DueReply<'_>, lanes: &mut [u8; MAX_LANES]) -> Option<(Beat, u64)>
    ensures { IfSome result (λ it. reply_of_words (bus_bytes bus) (decimal reply.now.time
        ∷ reply_words reply.now.link reply.now.cells reply.now.lanes.now) ≡ Ok (seen_beat (bus_bytes bus) lanes.new it)) }
{
    let opcode = field_of(reply.cells.opcode)?;
    let param = field_or_zero(reply.cells.param)?;
    let size = field_of(reply.cells.size)?;
    let source = source_of(reply.cells.source)?;
    let known = lanes_of(bus, reply.lanes, lanes)?;
    let denied = flag_of(reply.cells.denied)?;
    let asked = asks_for_mark(opcode, denied);
    let corrupt = flag_or(asked, reply.cells.corrupt)?;
    let beat = ReplyHead {
        opcode,
        param,
        size,
        source,
        denied,
        corrupt,
    };
    Some((Beat::D(beat), known))
}

/// The row of a beat of channel A.
fn row_of_ask(
    buses: &Buses<'_>,
    line: u64,
    ask: &DueAsk<'_>,
    lanes: &mut [u8; MAX_LANES],
) -> Option<Row>
    ensures value { IfSome result (λ row. row_of buses.now.resets buses.now.masters.now buses.now.ports.now line (column_parts
        (ask_line ask.now.time ask.now.link ask.now.cells ask.now.mask.now ask.now.lanes.now)) ≡ Ok (seen_row row lanes.new)) }
    ensures link { IfSome result (λ row.
        IsLinkOfRow row.is_reset buses.now.masters.now buses.now.ports.now row.link row.bus) }
{
    let bus = bus_of(buses, ask.link)?;
    let (beat, known) = ask_beat(bus, ask, lanes)?;
    Some(Row {
        line,
        time: ask.time,
        is_reset: false,
        link: ask.link,
        bus,
        beat,
        known,
    })
}

/// The row of a beat of channel D.
fn row_of_reply(
    buses: &Buses<'_>,
    line: u64,
    reply: &DueReply<'_>,
    lanes: &mut [u8; MAX_LANES],
) -> Option<Row>
    ensures value { IfSome result (λ row. row_of buses.now.resets buses.now.masters.now buses.now.ports.now line (column_parts
        (reply_line reply.now.time reply.now.link reply.now.cells reply.now.lanes.now)) ≡ Ok (seen_row row lanes.new)) }
    ensures link { IfSome result (λ row.
        IsLinkOfRow row.is_reset buses.now.masters.now buses.now.ports.now row.link row.bus) }
{
    let bus = bus_of(buses, reply.link)?;
    let (beat, known) = reply_beat(bus, reply, lanes)?;
    Some(Row {
        line,
        time: reply.time,
        is_reset: false,
        link: reply.link,
        bus,
        beat,
        known,
    })
}

/// The row of a reset of the whole system, if a capture of it has such rows.
fn row_of_reset(buses: &Buses<'_>, line: u64, time: u64, lanes: &mut [u8; MAX_LANES]) -> Option<Row>
    ensures value { IfSome result (λ row. row_of buses.now.resets buses.now.masters.now buses.now.ports.now line
        (column_parts (reset_line time)) ≡ Ok (seen_row row lanes.new)) }
    ensures link { IfSome result (λ row.
        IsLinkOfRow row.is_reset buses.now.masters.now buses.now.ports.now row.link row.bus) }
{
    if !buses.resets {
        return None;
    }
    lanes[0] = 0;
    Some(Row::reset(line, time))
}

/// The row of a capture that a row of a dump is on this line, in a system whose links have these buses. The lanes of the row
/// stand in the first places of the buffer then, as many as its bus has bytes. `None` says nothing of the row: its line has to
/// be read. `None` is always allowed: it changes what a row costs, and not what it is.
pub fn row_of_due(
    buses: &Buses<'_>,
    line: u64,
    due: &DueRow<'_>,
    lanes: &mut [u8; MAX_LANES],
) -> Option<Row>
    ensures value { IfSome result (λ row.
        IsDueRow buses.now.resets buses.now.masters.now buses.now.ports.now line due.now (seen_row row lanes.new)) }
    ensures link { IfSome result (λ row.
        IsLinkOfRow row.is_reset buses.now.masters.now buses.now.ports.now row.link row.bus) }
{
    match due {
        DueRow::Reset(time) => row_of_reset(buses, line, *time, lanes),
        DueRow::Ask(ask) => row_of_ask(buses, line, ask, lanes),
        DueRow::Reply(reply) => row_of_reply(buses, line, reply, lanes),
    }
}
