//! The verdict over a capture.
ghost use Rattle.std.specs.Prelude.{◌≡◌, ◌≤◌, [], None, length, OnOk, IfOk, IfErr, IfSome};
ghost use Rattle.check_records.specs.Source.{Between};
ghost use Rattle.check_records.specs.Text.{text_start};
ghost use Rattle.check_review.specs.Verdict.{SystemPlan};
ghost use Rattle.check_review.specs.View.{Judges, is_asked, is_covered, is_traced};
ghost use Rattle.check_text.specs.Buses.{HasBuses, link_buses};
ghost use Rattle.check_text.specs.Capture.{HasHeader, HasHeaderFault, IsCovered, IsFault, IsVerdict, IsWritten};

use crate::fault::{CaptureFault, Verdict};
use crate::header::is_header;
use crate::out::finish;
use crate::rows::judge_rows;
use check_records::Records;
use check_review::Judge;
use check_rows::Buses;
use std::alloc::Global;
use std::io::{Read, Write};
use tl_map::{MAX_JUDGED_MASTERS, MAX_JUDGED_PORTS};
use tl_streams::LimitedWriter;

/// Reads the header.
fn read_header<R: Read + Drop>(records: &mut Records<R>) -> Result<(), CaptureFault>
    requires { records.old.fault ≡ None }
    ensures ok { OnOk result (Between records.old.left records.new.left HasHeader) }
    ensures goes_on { OnOk result (records.new.fault ≡ None) }
    ensures fault { IfErr result (HasHeaderFault records.old.left records.new.left) }
{
    if !records.read()? {
        return Err(CaptureFault::Header(1));
    }
    if !is_header(records.columns()) {
        return Err(CaptureFault::Header(records.line()));
    }
    Ok(())
}

/// Judges a capture that a reader gives, of a system whose links have these buses, by a judge that has taken no row.
/// It reads to the end, or to the first row of a later time than one that is unlawful, or to the first record that is
/// no row; what the judge tells of the rows by then is written. After a verdict the judge has counted what is covered, if
/// that is asked for. No clause says when a read fails, memory is refused or a write fails: so what is said of a lawful
/// capture holds of each one for which `lawful` is written.
pub fn judge_capture<R: Read + Drop, W: Write>(
    alloc: Global,
    reader: R,
    writer: &mut LimitedWriter<'_, W>,
    judge: &mut Judge,
    buses: &Buses<'_>,
) -> Result<Verdict, CaptureFault>
    requires masters { length buses.now.masters.now ≤ MAX_JUDGED_MASTERS }
    requires ports { length buses.now.ports.now ≤ MAX_JUDGED_PORTS }
    requires buses { HasBuses judge.old.tally.watch.layout (link_buses buses.now) }
    ensures verdict { (plan : SystemPlan) → Judges plan [] judge.old
        → IfOk result (λ verdict. IfSome (R.remaining reader) (λ text.
        IsVerdict (is_asked judge.old) plan (link_buses buses.now) (text_start text) verdict)) }
    ensures fault { (plan : SystemPlan) → Judges plan [] judge.old
        → IfErr result (λ fault. IfSome (R.remaining reader) (λ text.
        IsFault plan (link_buses buses.now) (text_start text) fault)) }
    ensures covered { is_covered judge.new ≡ is_covered judge.old }
    ensures covers { (plan : SystemPlan) → Judges plan [] judge.old
        → IfOk result (λ verdict. IfSome (R.remaining reader) (λ text.
        IsCovered plan (link_buses buses.now) (text_start text) judge.new.tally verdict)) }
    ensures same { writer.new.writer.ghost_name ≡ writer.old.writer.ghost_name }
    ensures told { (plan : SystemPlan) → Judges plan [] judge.old → IfSome (R.remaining reader) (λ text.
        IsWritten (is_asked judge.old) (is_traced judge.old) plan (link_buses buses.now) (text_start text)
        (W.contents writer.old.writer.now) (W.contents writer.new.writer.now) result) }
{
    let mut records = Records::new(alloc, reader)?;
    read_header(&mut records)?;
    let mut text = Vec::new(alloc);
    let answer = judge_rows(alloc, &mut records, judge, buses, writer, &mut text);
    finish(writer, &text, answer)
}
