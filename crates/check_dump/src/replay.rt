//! The rows of a dump, one after the other, through the judge of captures.
ghost use Rattle.std.specs.Prelude.{◌≡◌, ◌≤◌, ◌+◌, [], List, None, Ok, Some, true, ℕ, is_some, length, OnOk, IfOk, IfErr, IfSome};
ghost use Rattle.check_rows.specs.Buses.{IsLinkOfRow};
ghost use Rattle.check_rows.specs.Column.{column_parts};
ghost use Rattle.check_rows.specs.Row.{SeenRow, row_of, seen_row};
ghost use Rattle.check_review.specs.Verdict.{SystemPlan};
ghost use Rattle.check_review.specs.View.{Judges, is_asked, is_covered, is_traced};
ghost use Rattle.check_text.specs.Buses.{HasBuses, link_buses};
ghost use Rattle.check_text.specs.Rows.{Took};
ghost use Rattle.check_samples.specs.Due.{due_line};
ghost use Rattle.check_dump.specs.Lines.{IsInside, SpellsRow, coming, end_of};
ghost use Rattle.check_dump.specs.Replay.{AllTaken, EndsLater, EndsReplay, IsLatest, IsNoDue, IsReplayCovered, IsReplayed, IsReplayedBy, LineStops, ReplayFinishes, answer_at, answer_of, answer_refused, halt_of, is_cut_short, later_of, replay_fault_of};

use crate::fault::ReplayFault;
use crate::kept::{DumpLines, RowsEnd};
use crate::lines::LineFault;
use check_beats::MAX_LANES;
use check_due::row_of_due;
use check_review::{Ending, Judge, Refusal, Stop, Unlawful};
use check_rows::{Buses, Row, number_row, read_bare_row};
use check_samples::{DueRow, Rows, UnknownBit, push_due};
use check_text::{Verdict, verdict_at_end, write_long};
use std::alloc::{AllocError, Global};
use std::io::{Read, Write};
use tl_map::{MAX_JUDGED_MASTERS, MAX_JUDGED_PORTS};
use tl_streams::{LimitedWriter, write_all};

/// The number of the line of the first row: the header stands before it.
const FIRST_LINE: u64 = 2;

/// Why no more rows are taken.
#[derive(Debug, Drop)]
enum Halt {
    Unlawful(Unlawful),
    Fault(ReplayFault),
}

/// Where the rows are: the time of the latest one that was taken, and the number of the next line.
#[derive(Debug, Clone, Copy)]
struct Place {
    latest: Option<u64>,
    number: u64,
}

/// What becomes of a line that is not read.
fn fault_of(fault: LineFault) -> ReplayFault
    ensures { result ≡ replay_fault_of fault }
{
    match fault {
        LineFault::Read => ReplayFault::Read,
        LineFault::Memory => ReplayFault::Memory,
    }
}

/// Why a row on this line stops the judge.
fn halt_of(number: u64, stop: Stop) -> Halt
    ensures { result ≡ halt_of number stop }
{
    match stop {
        Stop::Row(why) => Halt::Fault(ReplayFault::Row(number, why)),
        Stop::Beat(found) => Halt::Unlawful(found),
        Stop::Memory => Halt::Fault(ReplayFault::Memory),
    }
}

/// The row that a row of the dump spells on this line, read from the text of the line. If it spells none, the fault is noted.
fn read_line(
    alloc: Global,
    buses: &Buses<'_>,
    number: u64,
    due: &DueRow<'_>,
    lanes: &mut [u8; MAX_LANES],
    halt: &mut Option<Halt>,
) -> Option<Row>
    ensures value { IfSome result (λ row. row_of buses.now.resets buses.now.masters.now buses.now.ports.now number
        (column_parts (due_line due.now)) ≡ Ok (seen_row row lanes.new)) }
    ensures link { IfSome result (λ row.
        IsLinkOfRow row.is_reset buses.now.masters.now buses.now.ports.now row.link row.bus) }
    ensures halt { result ≡ None → IfSome halt.new (IsNoDue (link_buses buses.now) number (due_line due.now)) }
    ensures noted { result ≡ None → is_some halt.new ≡ true }
{
    let mut line = Vec::new(alloc);
    match push_due(&mut line, due) {
        Ok(()) => {}
        Err(AllocError) => {
            *halt = Some(Halt::Fault(ReplayFault::Memory));
            return None;
        }
    }
    match read_bare_row(buses, number, &line, lanes) {
        Ok(row) => Some(row),
        Err(why) => {
            *halt = Some(Halt::Fault(ReplayFault::Row(number, why)));
            None
        }
    }
}

/// The row of a capture that a row of the dump is on this line, as it is judged; or it is noted why it is none. Most rows are
/// rows of a capture, so no room is kept for a fault.
fn read_due(
    alloc: Global,
    buses: &Buses<'_>,
    number: u64,
    due: &DueRow<'_>,
    lanes: &mut [u8; MAX_LANES],
    halt: &mut Option<Halt>,
) -> Option<Row>
    ensures value { IfSome result (λ row. SpellsRow (link_buses buses.now) number (due_line due.now) (seen_row row lanes.new)) }
    ensures link { IfSome result (λ row.
        IsLinkOfRow row.is_reset buses.now.masters.now buses.now.ports.now row.link row.bus) }
    ensures halt { result ≡ None → IfSome halt.new (IsNoDue (link_buses buses.now) number (due_line due.now)) }
    ensures noted { result ≡ None → is_some halt.new ≡ true }
{
    let mut row = match row_of_due(buses, number, due, lanes) {
        Some(row) => row,
        None => read_line(alloc, buses, number, due, lanes, halt)?,
    };
    number_row(buses.numbers, &mut row);
    Some(row)
}

/// Takes a row that is due, on this line; answers its time, or notes why it does not. Most rows tell nothing and refuse nothing,
/// and are taken without room for a fault.
fn take_line(
    alloc: Global,
    judge: &mut Judge,
    buses: &Buses<'_>,
    number: u64,
    due: &DueRow<'_>,
    lanes: &mut [u8; MAX_LANES],
    told: &mut Vec<u8>,
    halt: &mut Option<Halt>,
) -> Option<u64>
    requires masters { length buses.now.masters.now ≤ MAX_JUDGED_MASTERS }
    requires ports { length buses.now.ports.now ≤ MAX_JUDGED_PORTS }
    requires buses { HasBuses judge.old.tally.watch.layout (link_buses buses.now) }
    ensures ok { IfSome result (λ time. (row : SeenRow) × SpellsRow (link_buses buses.now) number (due_line due.now) row
        × (row.time ≡ time) × Took judge.old row judge.new told.old.items told.new.items) }
    ensures halt { result ≡ None → IfSome halt.new (LineStops (link_buses buses.now) number (due_line due.now) judge.old
        judge.new.tally told.old.items told.new.items) }
    ensures noted { result ≡ None → is_some halt.new ≡ true }
    ensures layout { judge.new.tally.watch.layout ≡ judge.old.tally.watch.layout }
    ensures covered { is_covered judge.new ≡ is_covered judge.old }
{
    let row = read_due(alloc, buses, number, due, lanes, halt)?;
    match judge.take_quietly(alloc, &row, lanes.as_slice()) {
        Ok(true) => return Some(row.time),
        Ok(false) => {}
        Err(AllocError) => {
            *halt = Some(Halt::Fault(ReplayFault::Memory));
            return None;
        }
    }
    match judge.take(alloc, &row, lanes.as_slice(), told) {
        Ok(()) => Some(row.time),
        Err(stop) => {
            *halt = Some(halt_of(number, stop));
            None
        }
    }
}

impl Place {
    /// The place behind a row of this time, if its line has a number.
    fn behind(self, time: u64) -> Option<Place>
        ensures { IfSome result (λ next. next ≡ record {
          latest = Some (later_of self.latest time);
          number = self.number + 1;
        }) }
    {
        let number = self.number.checked_add(1)?;
        let latest = match self.latest {
            Some(before) if time < before => before,
            _ => time,
        };
        Some(Place {
            latest: Some(latest),
            number,
        })
    }
}

/// Why no more rows are taken, as it was noted.
fn stopped(halt: Option<Halt>) -> Halt
    requires { is_some halt ≡ true }
    ensures { halt ≡ Some result }
{
    match halt {
        Some(halt) => halt,
        None => unreachable!(),
    }
}

/// Takes the rows of all lines, and writes what is told as it grows long.
fn take_lines<D: Read + Drop, W: Write>(
    alloc: Global,
    lines: &mut DumpLines<D>,
    judge: &mut Judge,
    buses: &Buses<'_>,
    writer: &mut LimitedWriter<'_, W>,
    told: &mut Vec<u8>,
) -> Result<Place, Halt>
    requires inside { IsInside lines.old }
    requires masters { length buses.now.masters.now ≤ MAX_JUDGED_MASTERS }
    requires ports { length buses.now.ports.now ≤ MAX_JUDGED_PORTS }
    requires buses { HasBuses judge.old.tally.watch.layout (link_buses buses.now) }
    requires empty { told.old.items ≡ [] }
    ensures same { writer.new.writer.ghost_name ≡ writer.old.writer.ghost_name }
    ensures covered { is_covered judge.new ≡ is_covered judge.old }
    ensures ok { IfOk result (λ place. IfSome (coming lines.old) (AllTaken (link_buses buses.now) judge.old judge.new
        place (W.contents writer.old.writer.now) (W.contents writer.new.writer.now) told.new.items
        lines.new.ended)) }
    ensures halt { IfErr result (λ halt. IfSome (coming lines.old) (IsReplayedBy (link_buses buses.now) judge.old
        judge.new.tally (W.contents writer.old.writer.now) (W.contents writer.new.writer.now) told.new.items
        (answer_of halt))) }
{
    let mut lanes = [0; MAX_LANES];
    let mut place = Place {
        latest: None,
        number: FIRST_LINE,
    };
    let mut halt = None;
    for _ in 0..u64::MAX {
        match lines.read() {
            Ok(true) => {}
            Ok(false) => return Ok(place),
            Err(fault) => return Err(Halt::Fault(fault_of(fault))),
        }
        let number = place.number;
        let due = lines.row();
        let taken = take_line(
            alloc, judge, buses, number, &due, &mut lanes, told, &mut halt,
        );
        let Some(time) = taken else {
            return Err(stopped(halt));
        };
        place = match place.behind(time) {
            Some(next) => next,
            None => return Err(Halt::Fault(ReplayFault::Read)),
        };
        match write_long(writer, told) {
            Ok(()) => {}
            Err(_) => return Err(Halt::Fault(ReplayFault::Write)),
        }
    }
    Err(Halt::Fault(ReplayFault::Read))
}

/// What becomes of a dump of which no more rows are taken.
fn answer_of(halt: Halt) -> Result<Verdict, ReplayFault>
    ensures { result ≡ answer_of halt }
{
    match halt {
        Halt::Unlawful(found) => Ok(Verdict::Unlawful(found)),
        Halt::Fault(fault) => Err(fault),
    }
}

/// The beat that ends the rows, if it is of the time of the latest one.
fn beat_now(end: &RowsEnd, latest: Option<u64>) -> Option<UnknownBit>
    ensures now { IfSome result (λ unknown. (end.now ≡ RowsEnd.BeforeBeat unknown)
        × ((rows : List SeenRow) → IsLatest latest rows → EndsLater (end_of end.now) rows → ⊥)) }
    ensures later { result ≡ None → (rows : List SeenRow) → IsLatest latest rows → EndsLater (end_of end.now) rows }
{
    match (end, latest) {
        (RowsEnd::BeforeBeat(unknown), Some(time)) if unknown.time <= time => Some(*unknown),
        _ => None,
    }
}

/// What becomes of a dump whose rows are lawful, by how they end.
fn answer_at(end: RowsEnd, ending: Ending) -> Result<Verdict, ReplayFault>
    ensures { result ≡ answer_at end ending }
{
    match end {
        RowsEnd::Whole => Ok(verdict_at_end(ending)),
        RowsEnd::WithoutEdges(why) => Err(ReplayFault::Edges(why)),
        RowsEnd::BeforeBeat(unknown) => Err(ReplayFault::Unknown(unknown)),
        RowsEnd::BeforeLine(line, mistake) => Err(ReplayFault::Dump(line, mistake)),
    }
}

/// What becomes of a dump whose last rows are refused.
fn answer_refused(refusal: Refusal) -> Result<Verdict, ReplayFault>
    ensures { result ≡ answer_refused refusal }
{
    match refusal {
        Refusal::Unlawful(found) => Ok(Verdict::Unlawful(found)),
        Refusal::Memory => Err(ReplayFault::Memory),
    }
}

/// Judges the rows of the last time, and answers what becomes of the dump, by how its rows end. If a beat of that time has an
/// unknown bit, they are not judged.
fn end_lines(
    alloc: Global,
    judge: &mut Judge,
    end: RowsEnd,
    latest: Option<u64>,
    told: &mut Vec<u8>,
) -> Result<Verdict, ReplayFault>
    ensures covered { is_covered judge.new ≡ is_covered judge.old }
    ensures ended { EndsReplay judge.old judge.new.tally end latest told.old.items told.new.items result }
{
    if let Some(unknown) = beat_now(&end, latest) {
        return Err(ReplayFault::Unknown(unknown));
    }
    match judge.end(alloc, told) {
        Ok(ending) => answer_at(end, ending),
        Err(refusal) => answer_refused(refusal),
    }
}

/// Judges all rows that are left, and writes what is told of them, but for the text that is left at the end.
fn judge_lines<D: Read + Drop, W: Write>(
    alloc: Global,
    lines: &mut DumpLines<D>,
    judge: &mut Judge,
    buses: &Buses<'_>,
    writer: &mut LimitedWriter<'_, W>,
    told: &mut Vec<u8>,
) -> Result<Verdict, ReplayFault>
    requires inside { IsInside lines.old }
    requires masters { length buses.now.masters.now ≤ MAX_JUDGED_MASTERS }
    requires ports { length buses.now.ports.now ≤ MAX_JUDGED_PORTS }
    requires buses { HasBuses judge.old.tally.watch.layout (link_buses buses.now) }
    requires empty { told.old.items ≡ [] }
    ensures same { writer.new.writer.ghost_name ≡ writer.old.writer.ghost_name }
    ensures covered { is_covered judge.new ≡ is_covered judge.old }
    ensures judged { IfSome (coming lines.old) (IsReplayedBy (link_buses buses.now) judge.old judge.new.tally
        (W.contents writer.old.writer.now) (W.contents writer.new.writer.now) told.new.items result) }
{
    let place = match take_lines(alloc, lines, judge, buses, writer, told) {
        Ok(place) => place,
        Err(halt) => return answer_of(halt),
    };
    match lines.take_end() {
        Some(end) => end_lines(alloc, judge, end, place.latest, told),
        None => Err(ReplayFault::Read),
    }
}

/// Whether an answer was given in the midst of a line.
fn is_cut_short(answer: &Result<Verdict, ReplayFault>) -> bool
    ensures { result ≡ is_cut_short answer.now }
{
    matches!(answer, Err(ReplayFault::Memory | ReplayFault::Write))
}

/// Writes what is left of the text that is told before an answer. Of a line that was cut short nothing is written.
fn finish<W: Write>(
    writer: &mut LimitedWriter<'_, W>,
    told: &[u8],
    answer: Result<Verdict, ReplayFault>,
) -> Result<Verdict, ReplayFault>
    ensures same { writer.new.writer.ghost_name ≡ writer.old.writer.ghost_name }
    ensures finishes { ReplayFinishes (W.contents writer.old.writer.now)
        (W.contents writer.new.writer.now) told.now answer result }
{
    if is_cut_short(&answer) {
        return answer;
    }
    match write_all(writer, told) {
        Ok(()) => answer,
        Err(_) => Err(ReplayFault::Write),
    }
}

/// Judges the rows of a dump, of a system whose links have these buses, by a judge that has taken no row. It reads to the
/// end, or to the first row of a later time than one that is unlawful, or to the first fault of the dump; what the judge
/// tells of the rows by then is written. After a verdict the judge has counted what is covered, if that is asked for. No
/// text is made of a row, unless it is none that the format has: then its line is read for the fault, which is
/// [`ReplayFault::Row`]. A law of `check_wave_laws` says that no row of a dump is such a one.
pub fn judge_dump<D: Read + Drop, W: Write>(
    alloc: Global,
    rows: Rows<D>,
    writer: &mut LimitedWriter<'_, W>,
    judge: &mut Judge,
    buses: &Buses<'_>,
) -> Result<Verdict, ReplayFault>
    requires masters { length buses.now.masters.now ≤ MAX_JUDGED_MASTERS }
    requires ports { length buses.now.ports.now ≤ MAX_JUDGED_PORTS }
    requires buses { HasBuses judge.old.tally.watch.layout (link_buses buses.now) }
    ensures replayed { (plan : SystemPlan) → Judges plan [] judge.old → IfSome rows (λ left.
        IsReplayed (is_asked judge.old) (is_traced judge.old) plan (link_buses buses.now) left
        (W.contents writer.old.writer.now) (W.contents writer.new.writer.now) result) }
    ensures covered { is_covered judge.new ≡ is_covered judge.old }
    ensures covers { (plan : SystemPlan) → Judges plan [] judge.old → IfOk result (λ verdict. IfSome rows (λ left.
        IsReplayCovered plan (link_buses buses.now) left judge.new.tally verdict)) }
    ensures same { writer.new.writer.ghost_name ≡ writer.old.writer.ghost_name }
{
    let mut lines = DumpLines::new(alloc, rows);
    let mut told = Vec::new(alloc);
    let answer = judge_lines(alloc, &mut lines, judge, buses, writer, &mut told);
    finish(writer, &told, answer)
}
