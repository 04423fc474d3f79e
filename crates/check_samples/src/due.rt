//! The rows that are due, as values: the numbers of their columns, and the bits of masks and data.
//!
//! What they stand for is the lines that `tlvcd` writes of them (`specs/Due.antt`), which are made only where they are
//! wanted.
ghost use Rattle.std.specs.Prelude.{◌≡◌, ◌+◌, ◌++◌, [], All, length, map, IfOk, OnErr, OnOk, option_map, slice_get};
ghost use Rattle.check_samples.specs.Due.{IsPlain, bits_at, due_line, due_text, kept_line};
ghost use Rattle.check_samples.specs.Resets.{reset_row};
ghost use Rattle.check_samples.specs.Row.{ask_text, reply_text};

use crate::row::{AskCells, ReplyCells, push_ask, push_reply, push_reset};
use check_watch::Link;
use std::alloc::{AllocError, Global};
use std::marker::Model;

/// A row of a beat of channel A: its columns, and the bits of its mask and of its data.
#[derive(Debug, Clone, Copy)]
pub struct DueAsk<'b> {
    pub time: u64,
    pub link: Link,
    pub cells: AskCells,
    pub mask: &'b [u8],
    pub lanes: &'b [u8],
}

/// A row of a beat of channel D: its columns, and the bits of its data.
#[derive(Debug, Clone, Copy)]
pub struct DueReply<'b> {
    pub time: u64,
    pub link: Link,
    pub cells: ReplyCells,
    pub lanes: &'b [u8],
}

/// A row that is due.
#[derive(Debug, Clone, Copy)]
pub enum DueRow<'b> {
    /// The whole system was reset at this time.
    Reset(u64),
    Ask(DueAsk<'b>),
    Reply(DueReply<'b>),
}

/// Where bits stand among those of all rows.
#[derive(Debug, Clone, Copy, PartialEq, Eq)]
struct BitsPlace {
    from: usize,
    to: usize,
}

/// A row of a beat of channel A, whose bits stand elsewhere.
#[derive(Debug, Clone, Copy, PartialEq, Eq)]
struct KeptAsk {
    time: u64,
    link: Link,
    cells: AskCells,
    mask: BitsPlace,
    lanes: BitsPlace,
}

/// The same of channel D.
#[derive(Debug, Clone, Copy, PartialEq, Eq)]
struct KeptReply {
    time: u64,
    link: Link,
    cells: ReplyCells,
    lanes: BitsPlace,
}

/// A row whose bits stand elsewhere.
#[derive(Debug, Clone, Copy, PartialEq, Eq)]
enum KeptRow {
    Reset(u64),
    Ask(KeptAsk),
    Reply(KeptReply),
}

/// The rows that are due, in their order. A clause sees their lines.
#[derive(Drop)]
pub struct DueRows {
    rows: Vec<KeptRow>,
    bits: Vec<u8>,
}

impl Model for DueRows {
    ghost use Rattle.std.specs.Prelude.{ℕ, All, List, length, map};
    ghost use Rattle.check_samples.specs.Due.{StandAmong, kept_line};

    ghost Value = { List (List ℕ) };

    ghost view = { λ due. map (kept_line due.bits.items) due.rows.items };

    ghost invariant = { λ due. All (StandAmong (length due.bits.items)) due.rows.items };
}

/// Appends bits; answers where they stand.
fn keep_bits(bits: &mut Vec<u8>, more: &[u8]) -> Result<BitsPlace, AllocError>
    ensures bits { OnOk result (bits.new.items ≡ bits.old.items ++ more.now) }
    ensures place { IfOk result (λ place. place ≡ record {
      from = length bits.old.items;
      to = length bits.old.items + length more.now;
    }) }
    ensures fault { OnErr result (bits.new.items ≡ bits.old.items) }
{
    let from = bits.len();
    bits.extend_from_slice(more)?;
    Ok(BitsPlace {
        from,
        to: bits.len(),
    })
}

/// The bits that stand at a place.
fn bits_at(bits: &[u8], place: BitsPlace) -> &[u8]
    ensures { result.now ≡ bits_at bits.now place }
{
    match bits.get(place.from..place.to) {
        Some(found) => found,
        None => b"",
    }
}

/// A row with its bits.
fn with_bits<'b>(row: &KeptRow, bits: &'b [u8]) -> DueRow<'b>
    ensures { due_line result ≡ kept_line bits.now row.now }
{
    match row {
        KeptRow::Reset(time) => DueRow::Reset(*time),
        KeptRow::Ask(ask) => DueRow::Ask(DueAsk {
            time: ask.time,
            link: ask.link,
            cells: ask.cells,
            mask: bits_at(bits, ask.mask),
            lanes: bits_at(bits, ask.lanes),
        }),
        KeptRow::Reply(reply) => DueRow::Reply(DueReply {
            time: reply.time,
            link: reply.link,
            cells: reply.cells,
            lanes: bits_at(bits, reply.lanes),
        }),
    }
}

/// Appends the line of a row, without its end.
pub fn push_due(text: &mut Vec<u8>, row: &DueRow<'_>) -> Result<(), AllocError>
    ensures { OnOk result (text.new.items ≡ text.old.items ++ due_line row.now) }
{
    match row {
        DueRow::Reset(time) => push_reset(text, *time),
        DueRow::Ask(ask) => push_ask(text, ask.time, ask.link, ask.cells, ask.mask, ask.lanes),
        DueRow::Reply(reply) => push_reply(text, reply.time, reply.link, reply.cells, reply.lanes),
    }
}

/// Appends the lines of rows.
fn push_lines(text: &mut Vec<u8>, rows: &[KeptRow], bits: &[u8]) -> Result<(), AllocError>
    ensures { OnOk result (text.new.items ≡ text.old.items ++ due_text (map (kept_line bits.now) rows.now)) }
{
    for row in rows {
        push_due(text, &with_bits(row, bits))?;
        text.push(b'\n')?;
    }
    Ok(())
}

impl DueRows {
    /// None.
    pub fn new(alloc: Global) -> DueRows
        ensures { result ≡ [] }
    {
        DueRows {
            rows: Vec::new(alloc),
            bits: Vec::new(alloc),
        }
    }

    /// How many there are. Each is one line.
    pub fn count(&self) -> usize
        ensures count { result ≡ length self.now }
        ensures plain { All IsPlain self.now }
    {
        self.rows.len()
    }

    /// The row at a place, if there is one.
    pub fn row(&self, place: usize) -> Option<DueRow<'_>>
        ensures { option_map due_line result ≡ slice_get self.now place }
    {
        match self.rows.get(place) {
            Some(row) => Some(with_bits(row, &self.bits)),
            None => None,
        }
    }

    /// Forgets all.
    pub fn clear(&mut self)
        ensures { self.new ≡ [] }
    {
        self.rows.clear();
        self.bits.clear();
    }

    /// Appends their lines to a text.
    pub fn push_text(&self, text: &mut Vec<u8>) -> Result<(), AllocError>
        ensures { OnOk result (text.new.items ≡ text.old.items ++ due_text self.now) }
    {
        push_lines(text, &self.rows, &self.bits)
    }

    /// Appends the row of a reset of the whole system.
    pub(crate) fn add_reset(&mut self, time: u64) -> Result<(), AllocError>
        ensures { OnOk result (due_text self.new ≡ due_text self.old ++ reset_row time) }
    {
        self.rows.push(KeptRow::Reset(time))?;
        Ok(())
    }

    /// Appends the row of a beat of channel A.
    pub(crate) fn add_ask(
        &mut self,
        time: u64,
        link: Link,
        cells: AskCells,
        mask: &[u8],
        lanes: &[u8],
    ) -> Result<(), AllocError>
        ensures { OnOk result (due_text self.new ≡ due_text self.old ++ ask_text time link cells mask.now lanes.now) }
    {
        let mask = keep_bits(&mut self.bits, mask)?;
        let lanes = keep_bits(&mut self.bits, lanes)?;
        self.rows.push(KeptRow::Ask(KeptAsk {
            time,
            link,
            cells,
            mask,
            lanes,
        }))?;
        Ok(())
    }

    /// Appends the row of a beat of channel D.
    pub(crate) fn add_reply(
        &mut self,
        time: u64,
        link: Link,
        cells: ReplyCells,
        lanes: &[u8],
    ) -> Result<(), AllocError>
        ensures { OnOk result (due_text self.new ≡ due_text self.old ++ reply_text time link cells lanes.now) }
    {
        let lanes = keep_bits(&mut self.bits, lanes)?;
        self.rows.push(KeptRow::Reply(KeptReply {
            time,
            link,
            cells,
            lanes,
        }))?;
        Ok(())
    }
}
