//! The engine: from the bytes of a system and of a dump to the rows of a capture.
ghost use Rattle.std.specs.Prelude.{◌≡◌, ℕ, List, Option, map, option_map, IfOk, IfErr, IfSome, OnOk, OnErr};
ghost use Rattle.check_vcd.specs.Codes.{find_in};
ghost use Rattle.check_vcd.specs.Dump.{Opens};
ghost use Rattle.check_vcd.specs.Header.{var_view};
ghost use Rattle.check_vcd.specs.Words.{Both};
ghost use Rattle.check_samples.specs.Left.{RowsGoOn, Stops, left_in};
ghost use Rattle.check_signals.specs.Found.{slot_one, slots_from};
ghost use Rattle.check_waves.specs.Capture.{GivesLinks, IsCapture, IsOpened, IsUnopened};
ghost use Rattle.check_waves.specs.Links.{wave_links_view};
ghost use Rattle.check_waves.specs.Out.{AppendsFront, EndsCapture, Finishes, IsOut, IsPushed, Moves, capture_of, is_cut, is_marked};

use crate::fault::WaveFault;
use crate::system::{WaveLinks, read_links};
use check_rows::Buses;
use check_samples::{DueRows, Progress, Rows, RowsFault, Sampler};
use check_signals::find_signals;
use check_vcd::{Dump, Var};
use std::alloc::{AllocError, Global};
use std::io::{Read, Write};
use tl_streams::{LimitedReader, LimitedWriter, write_all};

/// The first row of a capture.
const HEADER: &[u8] =
    b"time,link,channel,opcode,param,size,source,address,mask,data,denied,corrupt\n";

/// The last line of a capture of which rows are missing.
const CUT: &[u8] = b"fault\n";

/// How many bytes of rows are kept before they are written.
const ROOM: usize = 32_768;

/// Keeps the values of an identifier in a slot; a constant has no identifier.
fn keep_if_any<D: Read + Drop>(
    alloc: Global,
    dump: &mut Dump<D>,
    code: &Option<Vec<u8>>,
    slot: usize,
) -> Result<(), AllocError>
    ensures kept { OnOk result ((other : List ℕ) → find_in dump.new.codes other
        ≡ slot_one (option_map (λ code. code.items) code.now) slot (find_in dump.old.codes) other) }
    ensures words { dump.new.words ≡ dump.old.words }
    ensures body { dump.new.body ≡ dump.old.body }
{
    match code {
        Some(code) => dump.keep(alloc, code, slot),
        None => Ok(()),
    }
}

/// Keeps the values of these identifiers, each in the slot of its place.
fn keep_all<D: Read + Drop>(
    alloc: Global,
    dump: &mut Dump<D>,
    codes: &[Option<Vec<u8>>],
) -> Result<(), AllocError>
    ensures kept { OnOk result ((other : List ℕ) → find_in dump.new.codes other ≡ slots_from
        (map (λ code. option_map (λ code. code.items) code) codes.now) 0 (find_in dump.old.codes) other) }
    ensures words { dump.new.words ≡ dump.old.words }
    ensures body { dump.new.body ≡ dump.old.body }
{
    for (slot, code) in codes.iter().enumerate() {
        keep_if_any(alloc, dump, code, slot)?;
    }
    Ok(())
}

/// A sampler of what the signals of the links are among those that a dump declares. The dump keeps their values.
fn sampler_of<D: Read + Drop>(
    alloc: Global,
    dump: &mut Dump<D>,
    vars: &[Var],
    links: &WaveLinks,
) -> Result<Sampler, WaveFault>
    ensures ok { (text : Option (List ℕ)) → Opens text (map var_view vars.now) dump.old
        → IfOk result (λ sampler. IfSome text
        (IsOpened (wave_links_view links.now) (left_in dump.new sampler))) }
    ensures fault { (text : Option (List ℕ)) → Opens text (map var_view vars.now) dump.old
        → IfErr result (λ fault. IfSome text (IsUnopened (wave_links_view links.now) fault)) }
{
    let buses = Buses {
        masters: &links.master_buses,
        ports: &links.port_buses,
        resets: false,
        numbers: &[],
    };
    let resolved = find_signals(alloc, &buses, &links.names, vars)?;
    keep_all(alloc, dump, &resolved.codes)?;
    Ok(Sampler::new(alloc, resolved.probes, resolved.values)?)
}

/// Opens a dump of a system with these links; answers the rows that are to come of it. The header of the dump is read, up to
/// the first fault, and then it is looked where its signals are.
pub fn open_dump<D: Read + Drop>(
    alloc: Global,
    reader: D,
    links: &WaveLinks,
) -> Result<Rows<D>, WaveFault>
    ensures ok { IfOk result (λ rows. IfSome (D.remaining reader) (IsOpened (wave_links_view links.now) rows)) }
    ensures fault { IfErr result (λ fault. IfSome (D.remaining reader)
        (IsUnopened (wave_links_view links.now) fault)) }
{
    let (vars, mut dump) = Dump::open(alloc, reader)?;
    let sampler = sampler_of(alloc, &mut dump, &vars, links)?;
    Ok(Rows::new(dump, sampler))
}

/// Writes a text and clears it, if it is long.
fn write_long<W: Write>(
    writer: &mut LimitedWriter<'_, W>,
    text: &mut Vec<u8>,
) -> Result<(), WaveFault>
    ensures same { writer.new.writer.ghost_name ≡ writer.old.writer.ghost_name }
    ensures moves { OnOk result (Moves (W.contents writer.old.writer.now)
        (W.contents writer.new.writer.now) text.old.items text.new.items) }
    ensures front { OnErr result (AppendsFront (W.contents writer.old.writer.now)
        (W.contents writer.new.writer.now) text.old.items) }
    ensures fault { IfErr result (λ fault. fault ≡ WaveFault.Write) }
{
    if text.len() < ROOM {
        return Ok(());
    }
    match write_all(writer, text) {
        Ok(()) => {
            text.clear();
            Ok(())
        }
        Err(_) => Err(WaveFault::Write),
    }
}

/// Appends the lines of the rows that are due next to a text.
fn append_rows<D: Read + Drop>(
    rows: &mut Rows<D>,
    due: &mut DueRows,
    text: &mut Vec<u8>,
) -> Result<Progress, RowsFault>
    ensures ok { IfOk result (λ progress. Both rows.old rows.new (RowsGoOn progress text.old.items text.new.items)) }
    ensures fault { IfErr result (λ fault. IfSome rows.old (Stops fault text.old.items text.new.items)) }
{
    due.clear();
    let answer = rows.read(due);
    due.push_text(text)?;
    answer
}

/// Appends the rows that are left to a text, and writes that whenever it is long.
fn push_rows<D: Read + Drop, W: Write>(
    rows: &mut Rows<D>,
    due: &mut DueRows,
    writer: &mut LimitedWriter<'_, W>,
    text: &mut Vec<u8>,
) -> Result<(), WaveFault>
    ensures same { writer.new.writer.ghost_name ≡ writer.old.writer.ghost_name }
    ensures pushed { IfSome rows.old (λ left. IsPushed result left text.old.items text.new.items
        (W.contents writer.old.writer.now) (W.contents writer.new.writer.now)) }
{
    for _ in 0..u64::MAX {
        match append_rows(rows, due, text) {
            Ok(Progress::More) => {}
            Ok(Progress::Over) => return Ok(()),
            Err(fault) => return Err(WaveFault::from(fault)),
        }
        if let Err(fault) = write_long(writer, text) {
            return Err(fault);
        }
    }
    Err(WaveFault::Read)
}

/// Whether an answer was given in the midst of a row.
fn is_cut(answer: &Result<(), WaveFault>) -> bool
    ensures { result ≡ is_cut answer.now }
{
    matches!(answer, Err(WaveFault::Memory | WaveFault::Write))
}

/// Writes what is left of a text before an answer. Of a row that was cut short nothing is written.
fn finish<W: Write>(
    writer: &mut LimitedWriter<'_, W>,
    text: &[u8],
    answer: Result<(), WaveFault>,
) -> Result<(), WaveFault>
    ensures same { writer.new.writer.ghost_name ≡ writer.old.writer.ghost_name }
    ensures finishes { Finishes (W.contents writer.old.writer.now)
        (W.contents writer.new.writer.now) text.now answer result }
{
    if is_cut(&answer) {
        return answer;
    }
    match write_all(writer, text) {
        Ok(()) => answer,
        Err(_) => Err(WaveFault::Write),
    }
}

/// Writes the header of a capture and the rows that are left of a dump, which is lent.
fn write_left<D: Read + Drop, W: Write>(
    alloc: Global,
    rows: &mut Rows<D>,
    writer: &mut LimitedWriter<'_, W>,
) -> Result<(), WaveFault>
    ensures same { writer.new.writer.ghost_name ≡ writer.old.writer.ghost_name }
    ensures written { IfSome rows.old (λ left. IsOut result (capture_of left)
        (W.contents writer.old.writer.now) (W.contents writer.new.writer.now)) }
{
    let mut text = Vec::with_capacity(alloc, 2 * ROOM)?;
    text.extend_from_slice(HEADER)?;
    let mut due = DueRows::new(alloc);
    let answer = push_rows(rows, &mut due, writer, &mut text);
    finish(writer, &text, answer)
}

/// Writes the header of a capture and the rows that are left of a dump.
fn write_rows<D: Read + Drop, W: Write>(
    alloc: Global,
    mut rows: Rows<D>,
    writer: &mut LimitedWriter<'_, W>,
) -> Result<(), WaveFault>
    ensures same { writer.new.writer.ghost_name ≡ writer.old.writer.ghost_name }
    ensures written { IfSome rows (λ left. IsOut result (capture_of left)
        (W.contents writer.old.writer.now) (W.contents writer.new.writer.now)) }
{
    write_left(alloc, &mut rows, writer)
}

/// Whether an answer is a fault after which a line says that rows are missing.
fn is_marked(answer: &Result<(), WaveFault>) -> bool
    ensures { result ≡ is_marked answer.now }
{
    !matches!(answer, Ok(()) | Err(WaveFault::Write))
}

/// Ends a capture with this answer: after a fault by the line that says that rows are missing.
fn end_capture<W: Write>(
    writer: &mut LimitedWriter<'_, W>,
    answer: Result<(), WaveFault>,
) -> Result<(), WaveFault>
    ensures same { writer.new.writer.ghost_name ≡ writer.old.writer.ghost_name }
    ensures ends { EndsCapture (W.contents writer.old.writer.now) (W.contents writer.new.writer.now) answer result }
{
    if !is_marked(&answer) {
        return answer;
    }
    match write_all(writer, CUT) {
        Ok(()) => answer,
        Err(_) => Err(WaveFault::Write),
    }
}

/// Reads a system and then a dump, each to its end or first fault, and writes the capture: the header, and a row for
/// each beat that crosses at a rising edge of the clock. Rows before a fault are written, and then the line `fault`. The
/// system is judged first, then the header of the dump, and then where its signals are.
pub fn write_capture<S: Read, D: Read + Drop, W: Write>(
    alloc: Global,
    system: &mut S,
    dump: D,
    writer: &mut W,
) -> Result<(), WaveFault>
    ensures { IfSome (D.remaining dump) (λ text. IsCapture (S.remaining system.old)
        (S.remaining system.new) result text (W.contents writer.old) (W.contents writer.new)) }
{
    let mut reader = LimitedReader::new(system);
    let mut writer = LimitedWriter::new(writer);
    write_within(alloc, &mut reader, dump, &mut writer)
}

/// The same, through what limits the reads of the system and the retried writes.
fn write_within<S: Read, D: Read + Drop, W: Write>(
    alloc: Global,
    reader: &mut LimitedReader<'_, S>,
    dump: D,
    writer: &mut LimitedWriter<'_, W>,
) -> Result<(), WaveFault>
    ensures same_reader { reader.new.reader.ghost_name ≡ reader.old.reader.ghost_name }
    ensures same_writer { writer.new.writer.ghost_name ≡ writer.old.writer.ghost_name }
    ensures written { IfSome (D.remaining dump) (λ text. IsCapture
        (S.remaining reader.old.reader.now) (S.remaining reader.new.reader.now) result text
        (W.contents writer.old.writer.now) (W.contents writer.new.writer.now)) }
{
    let links = read_links(alloc, reader)?;
    write_linked(alloc, dump, &links, writer)
}

/// The same, of a system with these links.
fn write_linked<D: Read + Drop, W: Write>(
    alloc: Global,
    dump: D,
    links: &WaveLinks,
    writer: &mut LimitedWriter<'_, W>,
) -> Result<(), WaveFault>
    ensures same_writer { writer.new.writer.ghost_name ≡ writer.old.writer.ghost_name }
    ensures written { (read_old read_new : Option (List ℕ)) → GivesLinks read_old read_new (wave_links_view links.now)
        → IfSome (D.remaining dump) (λ text. IsCapture read_old read_new result text
        (W.contents writer.old.writer.now) (W.contents writer.new.writer.now)) }
{
    let rows = open_dump(alloc, dump, links)?;
    let answer = write_rows(alloc, rows, writer);
    end_capture(writer, answer)
}
