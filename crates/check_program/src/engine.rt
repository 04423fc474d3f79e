//! The engine: from the parts of a system and the bytes of a capture to the line of the verdict.
ghost use Rattle.std.specs.Prelude.{◌≡◌, ◌+◌, ◌≤◌, ◌++◌, ℕ, List, [], Option, if◌then◌else◌, is_some, length, map, IfOk, IfErr, IfSome, OnOk};
ghost use Rattle.std.specs.Io.KnownBytes.{Appends};
ghost use Rattle.check_description.specs.File.{parts_view, Parts as PartsView};
ghost use Rattle.check_start.specs.Loads.{AreLoadsOf, SystemPlan};
ghost use Rattle.check_start.specs.Start.{IsPlanOf};
ghost use Rattle.check_start.specs.declared.start.Terms.{Terms as IsTerms};
ghost use Rattle.check_coverage.specs.View.{Covers};
ghost use Rattle.check_text.specs.Review.{Judges, is_asked, is_covered, is_traced};
ghost use Rattle.check_lines.specs.Verdict.{empty_line, lawful_line};
ghost use Rattle.check_rows.specs.PortNumbers.{numbers_in};
ghost use Rattle.check_text.specs.Buses.{HasBuses};
ghost use Rattle.check_program.specs.declared.asked.Asked.{Asked as AskedFor};
ghost use Rattle.check_program.specs.Dump.{IsOutcome, IsOutcomeCounted, IsText};
ghost use Rattle.check_program.specs.Engine.{IsChecked, IsCounted, IsLineFault, IsPrepared, IsUnprepared, is_empty, is_lawful, line_of, with_buses};

use crate::asked::Asked;
use crate::dump::check_dump;
use crate::fault::CheckFault;
use crate::front::{begins_dump, read_front};
use crate::mirrors::mirrors_of;
use crate::system::SystemFile;
use check_beats::Bus;
use check_coverage::Coverage;
use check_description::{Description, Parts, describe};
use check_lines::{Names, VerdictCounts, push_breach, push_empty, push_incomplete, push_lawful};
use check_rows::{Buses, PortNumbers};
use check_start::begin;
use check_text::{Judge, Verdict, judge_capture};
use check_watch::Links;
use std::alloc::{AllocError, Global};
use std::io::{Read, Write};
use tl_map::{MAX_JUDGED_MASTERS, MAX_JUDGED_PORTS};
use tl_streams::{LimitedWriter, write_all};

/// Whether a lawful capture is told as empty: if it is asked whether requests are left, and there was none.
fn is_empty(complete: bool, counts: &VerdictCounts) -> bool
    ensures { result ≡ is_empty complete counts.now }
{
    complete && counts.requests == 0
}

/// Appends the line of a lawful capture, or of an empty one.
fn push_lawful_or_empty(
    text: &mut Vec<u8>,
    complete: bool,
    counts: &VerdictCounts,
) -> Result<(), AllocError>
    ensures { OnOk result (text.new.items ≡ text.old.items
        ++ (if is_empty complete counts.now then empty_line else lawful_line counts.now)) }
{
    if is_empty(complete, counts) {
        push_empty(text)
    } else {
        push_lawful(text, counts)
    }
}

/// The line of a verdict, with these names of links. The first argument is whether it is asked which requests are left.
fn line_of(
    alloc: Global,
    complete: bool,
    names: &Names,
    verdict: &Verdict,
) -> Result<Vec<u8>, AllocError>
    ensures { IfOk result (λ text. text.items ≡ line_of complete names.now verdict.now) }
{
    let mut text = Vec::new(alloc);
    match verdict {
        Verdict::Lawful(counts) => push_lawful_or_empty(&mut text, complete, counts)?,
        Verdict::Unlawful(found) => push_breach(&mut text, names, &found.row, &found.breach)?,
        Verdict::Incomplete(left) => push_incomplete(&mut text, left)?,
    }
    Ok(text)
}

/// Whether the line of a verdict says that the capture is lawful.
fn is_lawful(complete: bool, verdict: &Verdict) -> bool
    ensures { result ≡ is_lawful complete verdict.now }
{
    match verdict {
        Verdict::Lawful(counts) => !is_empty(complete, counts),
        Verdict::Unlawful(_) | Verdict::Incomplete(_) => false,
    }
}

/// What a judge of a system has covered that has seen no beat, if it is asked for.
fn coverage_if(
    alloc: Global,
    system: &Description,
    asked: bool,
) -> Result<Option<Coverage>, AllocError>
    ensures asked { IfOk result (λ coverage. is_some coverage ≡ asked) }
    ensures none_yet { IfOk result (λ coverage. (terms : IsTerms) (images : List (List ℕ)) (plan : SystemPlan)
        → IsPlanOf terms system.now images plan → IfSome coverage (Covers plan.begins [] [])) }
{
    if asked {
        Ok(Some(Coverage::new(alloc, mirrors_of(alloc, system)?)))
    } else {
        Ok(None)
    }
}

/// What a capture is judged by: a judge that has seen no beat, whether it is asked which requests are left, the names and the
/// buses of the links of its system, whether there may be rows of resets, and the numbers of sources at ports' links.
#[derive(Drop)]
pub(crate) struct Prepared {
    pub(crate) judge: Judge,
    pub(crate) complete: bool,
    pub(crate) names: Names,
    pub(crate) master_buses: Vec<Bus>,
    pub(crate) port_buses: Vec<Bus>,
    pub(crate) resets: bool,
    pub(crate) numbers: Vec<Option<PortNumbers>>,
}

/// What a capture is judged by, of a crossbar that is the system of these parts.
fn prepare(
    alloc: Global,
    parts: Parts,
    images: &[Vec<u8>],
    asked: Asked,
) -> Result<Prepared, CheckFault>
    ensures prepared { IfOk result
        (IsPrepared asked (parts_view parts) (map (λ image. image.items) images.now)) }
    ensures masters { IfOk result (λ prepared. length prepared.master_buses.items ≤ MAX_JUDGED_MASTERS) }
    ensures ports { IfOk result (λ prepared. length prepared.port_buses.items ≤ MAX_JUDGED_PORTS) }
    ensures buses { IfOk result (λ prepared. HasBuses prepared.judge.tally.watch.layout
        (with_buses prepared.master_buses.items prepared.port_buses.items prepared.resets
        (numbers_in prepared.numbers.items))) }
    ensures fault { IfErr result
        (IsUnprepared asked.terms (parts_view parts) (map (λ image. image.items) images.now)) }
{
    let system = describe(alloc, parts)?;
    let coverage = coverage_if(alloc, &system, asked.coverage)?;
    let begun = begin(alloc, system, images, asked.terms)?;
    let judge = Judge::before_rows(
        alloc,
        begun.watch,
        begun.loads,
        asked.trace,
        asked.complete,
        coverage,
        asked.terms.within,
    )?;
    Ok(Prepared {
        judge,
        complete: asked.complete,
        names: begun.names,
        master_buses: begun.master_buses,
        port_buses: begun.port_buses,
        resets: begun.resets,
        numbers: begun.numbers,
    })
}

/// Writes the line of a verdict. The answer is whether it says that the capture is lawful.
pub(crate) fn tell<W: Write>(
    alloc: Global,
    complete: bool,
    names: &Names,
    verdict: &Verdict,
    writer: &mut LimitedWriter<'_, W>,
) -> Result<bool, CheckFault>
    ensures same_writer { writer.new.writer.ghost_name ≡ writer.old.writer.ghost_name }
    ensures answered { IfOk result (λ lawful. lawful ≡ is_lawful complete verdict.now) }
    ensures written { IfOk result (λ _. Appends (W.contents writer.old.writer.now)
        (W.contents writer.new.writer.now) (line_of complete names.now verdict.now)) }
    ensures fault { IfErr result (IsLineFault (W.contents writer.old.writer.now)
        (W.contents writer.new.writer.now) (line_of complete names.now verdict.now)) }
{
    let line = line_of(alloc, complete, names, verdict)?;
    write_all(writer, &line)?;
    Ok(is_lawful(complete, verdict))
}

/// The verdict over a capture by what was prepared, with its line.
fn check_prepared<C: Read + Drop, W: Write>(
    alloc: Global,
    prepared: &mut Prepared,
    capture: C,
    writer: &mut LimitedWriter<'_, W>,
    covered: &mut Vec<u8>,
) -> Result<bool, CheckFault>
    requires masters { length prepared.old.master_buses.items ≤ MAX_JUDGED_MASTERS }
    requires ports { length prepared.old.port_buses.items ≤ MAX_JUDGED_PORTS }
    requires buses { HasBuses prepared.old.judge.tally.watch.layout
        (with_buses prepared.old.master_buses.items prepared.old.port_buses.items prepared.old.resets
        (numbers_in prepared.old.numbers.items)) }
    ensures same_writer { writer.new.writer.ghost_name ≡ writer.old.writer.ghost_name }
    ensures checked { (asked : AskedFor) (file : List ℕ) (parts : PartsView) (images : List (List ℕ))
        (known : Option (List ℕ)) → IsPrepared asked parts images prepared.old → IsText known (C.remaining capture)
        → IsChecked asked (record { file = file; parts = parts; images = images; capture = known })
        (W.contents writer.old.writer.now) (W.contents writer.new.writer.now) result }
    ensures covered { (asked : AskedFor) (file : List ℕ) (parts : PartsView) (images : List (List ℕ))
        (known : Option (List ℕ)) → IsPrepared asked parts images prepared.old → IsText known (C.remaining capture)
        → IfOk result (IsCounted asked (record { file = file; parts = parts; images = images; capture = known })
        covered.old.items covered.new.items) }
{
    let buses = Buses {
        masters: &prepared.master_buses,
        ports: &prepared.port_buses,
        resets: prepared.resets,
        numbers: &prepared.numbers,
    };
    let verdict = judge_capture(alloc, capture, writer, &mut prepared.judge, &buses)?;
    prepared.judge.append_coverage(covered)?;
    tell(alloc, prepared.complete, &prepared.names, &verdict, writer)
}

/// Reads a capture to its end or first fault, and writes the line of the verdict: whether what crossed the watched links
/// of a crossbar that is the system of this file is lawful. Images has the bytes of the image of each port by its
/// number, none of a port that names no image. The answer is the same as the line's. If replies are told, their lines
/// are written before, as the capture is read. If it is asked what the capture covers, the text of that is appended to
/// `covered` with the verdict.
///
/// The capture may be a dump, if its first byte that is no blank is a dollar sign: then the rows are those that its signals
/// show, by the names that the file gives.
pub fn check<C: Read + Drop, W: Write>(
    alloc: Global,
    system: SystemFile,
    images: &[Vec<u8>],
    capture: C,
    writer: &mut W,
    asked: Asked,
    covered: &mut Vec<u8>,
) -> Result<bool, CheckFault>
    ensures checked { IsOutcome asked (record {
      file = system.bytes.items;
      parts = parts_view system.parts;
      images = map (λ image. image.items) images.now;
      capture = C.remaining capture;
    }) (W.contents writer.old) (W.contents writer.new) result }
    ensures covered { IfOk result (IsOutcomeCounted asked (record {
      file = system.bytes.items;
      parts = parts_view system.parts;
      images = map (λ image. image.items) images.now;
      capture = C.remaining capture;
    }) covered.old.items covered.new.items) }
{
    let mut writer = LimitedWriter::new(writer);
    check_within(alloc, system, images, capture, &mut writer, asked, covered)
}

/// The same, through what limits the retried writes.
fn check_within<C: Read + Drop, W: Write>(
    alloc: Global,
    system: SystemFile,
    images: &[Vec<u8>],
    capture: C,
    writer: &mut LimitedWriter<'_, W>,
    asked: Asked,
    covered: &mut Vec<u8>,
) -> Result<bool, CheckFault>
    ensures same_writer { writer.new.writer.ghost_name ≡ writer.old.writer.ghost_name }
    ensures checked { IsOutcome asked (record {
      file = system.bytes.items;
      parts = parts_view system.parts;
      images = map (λ image. image.items) images.now;
      capture = C.remaining capture;
    }) (W.contents writer.old.writer.now) (W.contents writer.new.writer.now) result }
    ensures covered { IfOk result (IsOutcomeCounted asked (record {
      file = system.bytes.items;
      parts = parts_view system.parts;
      images = map (λ image. image.items) images.now;
      capture = C.remaining capture;
    }) covered.old.items covered.new.items) }
{
    let SystemFile { parts, bytes } = system;
    let mut prepared = prepare(alloc, parts, images, asked)?;
    check_read(
        alloc,
        &bytes,
        &mut prepared,
        capture,
        writer,
        asked.terms.links,
        covered,
    )
}

/// The verdict over a capture or a dump by what was prepared, with its line.
fn check_read<C: Read + Drop, W: Write>(
    alloc: Global,
    file: &[u8],
    prepared: &mut Prepared,
    mut capture: C,
    writer: &mut LimitedWriter<'_, W>,
    links: Links,
    covered: &mut Vec<u8>,
) -> Result<bool, CheckFault>
    requires masters { length prepared.old.master_buses.items ≤ MAX_JUDGED_MASTERS }
    requires ports { length prepared.old.port_buses.items ≤ MAX_JUDGED_PORTS }
    requires buses { HasBuses prepared.old.judge.tally.watch.layout
        (with_buses prepared.old.master_buses.items prepared.old.port_buses.items prepared.old.resets
        (numbers_in prepared.old.numbers.items)) }
    ensures same_writer { writer.new.writer.ghost_name ≡ writer.old.writer.ghost_name }
    ensures checked { (asked : AskedFor) (parts : PartsView) (images : List (List ℕ)) → asked.terms.links ≡ links
        → IsPrepared asked parts images prepared.old → IsOutcome asked (record {
          file = file.now;
          parts = parts;
          images = images;
          capture = C.remaining capture;
        }) (W.contents writer.old.writer.now) (W.contents writer.new.writer.now) result }
    ensures covered { (asked : AskedFor) (parts : PartsView) (images : List (List ℕ)) → asked.terms.links ≡ links
        → IsPrepared asked parts images prepared.old → IfOk result (IsOutcomeCounted asked (record {
          file = file.now;
          parts = parts;
          images = images;
          capture = C.remaining capture;
        }) covered.old.items covered.new.items) }
{
    let front = read_front(alloc, &mut capture)?;
    let is_dump = begins_dump(&front);
    let text = front.as_slice().chain(capture);
    if is_dump {
        check_dump(alloc, file, prepared, text, writer, links, covered)
    } else {
        check_prepared(alloc, prepared, text, writer, covered)
    }
}
