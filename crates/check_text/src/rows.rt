//! The rows of a capture, one after the other.
ghost use Rattle.std.specs.Prelude.{◌≡◌, ◌≤◌, [], None, length, OnOk, IfOk, IfErr};
ghost use Rattle.check_records.specs.Source.{Between};
ghost use Rattle.check_rows.specs.Row.{row_in};
ghost use Rattle.check_review.specs.View.{is_covered};
ghost use Rattle.check_text.specs.Buses.{HasBuses, link_buses, row_on};
ghost use Rattle.check_text.specs.Rows.{AllTaken, GoesOn, IsJudged, IsNext, IsTakable, answer_of, verdict_at_end, halt_of, verdict_refused};

use crate::fault::{CaptureFault, Verdict};
use crate::out::write_long;
use check_beats::MAX_LANES;
use check_records::Records;
use check_review::{Ending, Judge, Refusal, Stop, Unlawful};
use check_rows::{Buses, Row, RowFault, number_row, read_bare_row, read_row};
use std::alloc::{AllocError, Global};
use std::io::{Read, Write};
use tl_map::{MAX_JUDGED_MASTERS, MAX_JUDGED_PORTS};
use tl_streams::LimitedWriter;

/// Why no more rows are taken.
#[derive(Debug, Drop)]
pub enum Halt {
    Unlawful(Unlawful),
    Fault(CaptureFault),
}

/// What becomes of the next row, while nothing is told and no row is refused.
#[derive(Debug, Clone, Copy)]
enum Next {
    Taken,
    /// It is read, and is still to be taken.
    Left(Row),
    /// There is none.
    End,
    /// It is not read, or no row, or there was no memory for it.
    Fault(CaptureFault),
}

/// The row that the record spells that was read last, as it is judged. Its lanes stand in the first places of the buffer then.
fn row_at_hand<R: Read + Drop>(
    records: &Records<R>,
    buses: &Buses<'_>,
    lanes: &mut [u8; MAX_LANES],
) -> Result<Row, RowFault>
    requires masters { length buses.now.masters.now ≤ MAX_JUDGED_MASTERS }
    requires ports { length buses.now.ports.now ≤ MAX_JUDGED_PORTS }
    ensures value { row_in lanes.new result
        ≡ row_on (link_buses buses.now) records.now.row.line records.now.row.fields }
    ensures takable { IfOk result (IsTakable (link_buses buses.now)) }
{
    let line = records.line();
    let mut row = match records.bare() {
        Some(text) => read_bare_row(buses, line, text, lanes)?,
        None => read_row(buses, line, records.columns(), lanes)?,
    };
    number_row(buses.numbers, &mut row);
    Ok(row)
}

/// Reads the next row, and takes it if that tells nothing and no row is refused. The lanes of one that is left stand in the
/// first places of the buffer.
fn take_next<R: Read + Drop>(
    alloc: Global,
    records: &mut Records<R>,
    judge: &mut Judge,
    buses: &Buses<'_>,
    lanes: &mut [u8; MAX_LANES],
) -> Next
    requires fresh { records.old.fault ≡ None }
    requires masters { length buses.now.masters.now ≤ MAX_JUDGED_MASTERS }
    requires ports { length buses.now.ports.now ≤ MAX_JUDGED_PORTS }
    requires buses { HasBuses judge.old.tally.watch.layout (link_buses buses.now) }
    ensures next { IsNext (link_buses buses.now) judge.old judge.new records.old.left records.new.left
        records.new.row lanes.new result }
    ensures goes_on { GoesOn (link_buses buses.now) records.new result }
    ensures layout { judge.new.tally.watch.layout ≡ judge.old.tally.watch.layout }
    ensures covered { is_covered judge.new ≡ is_covered judge.old }
{
    match records.read_in_place() {
        Ok(true) => {}
        Ok(false) => return Next::End,
        Err(fault) => return Next::Fault(CaptureFault::from(fault)),
    }
    let row = match row_at_hand(records, buses, lanes) {
        Ok(row) => row,
        Err(fault) => return Next::Fault(CaptureFault::Row(records.line(), fault)),
    };
    match judge.take_quietly(alloc, &row, lanes.as_slice()) {
        Ok(true) => Next::Taken,
        Ok(false) => Next::Left(row),
        Err(AllocError) => Next::Fault(CaptureFault::Memory),
    }
}

/// Why a row on this line stops the judge.
fn halt_of(line: u64, stop: Stop) -> Halt
    ensures { result ≡ halt_of line stop }
{
    match stop {
        Stop::Row(fault) => Halt::Fault(CaptureFault::Row(line, fault)),
        Stop::Beat(found) => Halt::Unlawful(found),
        Stop::Memory => Halt::Fault(CaptureFault::Memory),
    }
}

/// Takes all rows that are left, and writes what is told as it grows long.
fn take_rows<R: Read + Drop, W: Write>(
    alloc: Global,
    records: &mut Records<R>,
    judge: &mut Judge,
    buses: &Buses<'_>,
    writer: &mut LimitedWriter<'_, W>,
    text: &mut Vec<u8>,
) -> Result<(), Halt>
    requires fresh { records.old.fault ≡ None }
    requires masters { length buses.now.masters.now ≤ MAX_JUDGED_MASTERS }
    requires ports { length buses.now.ports.now ≤ MAX_JUDGED_PORTS }
    requires buses { HasBuses judge.old.tally.watch.layout (link_buses buses.now) }
    requires empty { text.old.items ≡ [] }
    ensures same { writer.new.writer.ghost_name ≡ writer.old.writer.ghost_name }
    ensures covered { is_covered judge.new ≡ is_covered judge.old }
    ensures ok { OnOk result (Between records.old.left records.new.left
        (AllTaken (link_buses buses.now) judge.old judge.new (W.contents writer.old.writer.now)
        (W.contents writer.new.writer.now) text.new.items)) }
    ensures halt { IfErr result (λ halt. IsJudged (link_buses buses.now) judge.old judge.new.tally
        (W.contents writer.old.writer.now) (W.contents writer.new.writer.now) text.new.items
        records.old.left (answer_of halt)) }
{
    let mut lanes = [0; MAX_LANES];
    for _ in 0..u64::MAX {
        match take_next(alloc, records, judge, buses, &mut lanes) {
            Next::Taken => {}
            Next::End => return Ok(()),
            Next::Fault(fault) => return Err(Halt::Fault(fault)),
            Next::Left(row) => {
                if let Err(stop) = judge.take(alloc, &row, lanes.as_slice(), text) {
                    return Err(halt_of(records.line(), stop));
                }
                if let Err(fault) = write_long(writer, text) {
                    return Err(Halt::Fault(fault));
                }
            }
        }
    }
    Err(Halt::Fault(CaptureFault::Read))
}

/// What becomes of a capture where no more rows are taken.
fn answer_of(halt: Halt) -> Result<Verdict, CaptureFault>
    ensures { result ≡ answer_of halt }
{
    match halt {
        Halt::Unlawful(found) => Ok(Verdict::Unlawful(found)),
        Halt::Fault(fault) => Err(fault),
    }
}

/// What becomes of a capture whose last rows are refused.
fn verdict_refused(refusal: Refusal) -> Result<Verdict, CaptureFault>
    ensures { result ≡ verdict_refused refusal }
{
    match refusal {
        Refusal::Unlawful(found) => Ok(Verdict::Unlawful(found)),
        Refusal::Memory => Err(CaptureFault::Memory),
    }
}

/// The verdict over a capture that is lawful.
pub fn verdict_at_end(ending: Ending) -> Verdict
    ensures { result ≡ verdict_at_end ending }
{
    match ending.left {
        Some(left) => Verdict::Incomplete(left),
        None => Verdict::Lawful(ending.counts),
    }
}

/// Judges all rows that are left, and writes what is told of them, but for the text that is left at the end.
pub fn judge_rows<R: Read + Drop, W: Write>(
    alloc: Global,
    records: &mut Records<R>,
    judge: &mut Judge,
    buses: &Buses<'_>,
    writer: &mut LimitedWriter<'_, W>,
    text: &mut Vec<u8>,
) -> Result<Verdict, CaptureFault>
    requires fresh { records.old.fault ≡ None }
    requires masters { length buses.now.masters.now ≤ MAX_JUDGED_MASTERS }
    requires ports { length buses.now.ports.now ≤ MAX_JUDGED_PORTS }
    requires buses { HasBuses judge.old.tally.watch.layout (link_buses buses.now) }
    requires empty { text.old.items ≡ [] }
    ensures same { writer.new.writer.ghost_name ≡ writer.old.writer.ghost_name }
    ensures covered { is_covered judge.new ≡ is_covered judge.old }
    ensures judged { IsJudged (link_buses buses.now) judge.old judge.new.tally (W.contents writer.old.writer.now)
        (W.contents writer.new.writer.now) text.new.items records.old.left result }
{
    if let Err(halt) = take_rows(alloc, records, judge, buses, writer, text) {
        return answer_of(halt);
    }
    match judge.end(alloc, text) {
        Ok(ending) => Ok(verdict_at_end(ending)),
        Err(refusal) => verdict_refused(refusal),
    }
}
