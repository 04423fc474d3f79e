//! Pages in the order in which they were made, several in a sheet.
ghost use Rattle.std.specs.Prelude.{◌≡◌, ℕ, ◌+◌, ◌*◌, ◌%◌, ◌^◌, ◌<◌, ◌≤◌, ◌++◌, ◌∷◌, [], length, take, drop, replicate, true, OnOk, OnErr, slice_index_or, slice_set};
ghost use Rattle.tl_types.specs.Operation.{carries_bytes, reply_op_of};
ghost use Rattle.tl_ops.specs.Cell.{FitsWords};
ghost use Rattle.check_memory.specs.Known.{known, replaced};
ghost use Rattle.check_memory.specs.Cells.{new_cells, forgotten};
ghost use Rattle.check_memory.specs.Pattern.{shown_cells};
ghost use Rattle.check_memory.specs.Place.{fill_of};
ghost use Rattle.check_memory.specs.Paged.{blank_slot, page_at, AreFilled};

use crate::sheet::{PAGE_BYTES, SHEET_PAGES, Sheet};
use check_cells::Cells;
use std::alloc::{AllocError, Global};
use std::marker::Model;
use tl_ops::Kind;
use tl_types::{Ask, MAX_BYTES};

/// Pages in the order in which they were made, each with its number.
#[derive(Drop)]
pub struct Slots {
    numbers: Vec<u64>,
    sheets: Vec<Sheet>,
    known: bool,
}

impl Model for Slots {
    ghost use Rattle.std.specs.Prelude.{length};
    ghost use Rattle.check_memory.specs.Paged.{Paged, AreFilled, slots_of};

    ghost Value = { Paged };

    ghost view = { λ s. record { slots = slots_of s.numbers.items s.sheets.items; known = s.known } };

    ghost invariant = { λ s. AreFilled (length s.numbers.items) s.sheets.items s.known };
}

impl Clone for Slots {
    ghost use Rattle.std.specs.Prelude.{◌≡◌};

    ghost is_clone = { λ slots copy. copy ≡ slots };

    fn clone(&self) -> Result<Slots, AllocError> {
        Ok(Slots {
            numbers: self.numbers.clone()?,
            sheets: self.sheets.clone()?,
            known: self.known,
        })
    }
}

impl Slots {
    /// No pages, where a byte that nothing has written is zero, or unknown.
    pub fn new(alloc: Global, known: bool) -> Slots
        ensures { result ≡ record { slots = []; known = known } }
    {
        Slots {
            numbers: Vec::new(alloc),
            sheets: Vec::new(alloc),
            known,
        }
    }

    /// How many there are.
    pub fn len(&self) -> usize
        ensures value { result ≡ length self.now.slots }
        ensures in_limit { result < 2 ^ 63 }
    {
        self.numbers.len()
    }

    /// Whether bytes that nothing has written are zero, and not unknown.
    pub fn known(&self) -> bool
        ensures { result ≡ self.now.known }
    {
        self.known
    }

    /// One page more, of bytes that nothing has written.
    pub fn add(&mut self, alloc: Global, number: u64) -> Result<(), AllocError>
        ensures added { OnOk result (self.new ≡ record {
          slots = self.old.slots ++ record {
            number = number;
            page = replicate PAGE_BYTES (fill_of self.old.known);
          } ∷ [];
          known = self.old.known;
        }) }
        ensures unchanged { OnErr result (self.new ≡ self.old) }
    {
        make_room(&mut self.sheets, alloc, self.numbers.len(), self.known)?;
        self.numbers.push(number)?;
        Ok(())
    }

    /// The bytes of the page at a place, from one on.
    pub fn read(&self, at: usize, start: usize, width: usize, cells: &mut Cells)
        requires at { at < length self.now.slots }
        requires limit { width ≤ MAX_BYTES }
        requires fits { FitsWords start width }
        requires inside { start + width ≤ PAGE_BYTES }
        ensures { let slot = slice_index_or self.now.slots at blank_slot in
            cells.new ≡ take width (drop start slot.page) }
    {
        let sheet = &self.sheets[at / SHEET_PAGES];
        sheet.read(place_of(at, start), width, cells);
    }

    /// Serves a request that carries bytes, in the page at a place.
    pub fn serve(&mut self, at: usize, kind: Kind, start: usize, ask: &Ask, cells: &mut Cells)
        requires at { at < length self.old.slots }
        requires carries { carries_bytes ask.now.op ≡ true }
        requires counted { length ask.now.bytes ≡ 2 ^ ask.now.size }
        requires fits { FitsWords start (2 ^ ask.now.size) }
        requires inside { start + 2 ^ ask.now.size ≤ PAGE_BYTES }
        ensures after { let slot = slice_index_or self.old.slots at blank_slot in
            let old = take (2 ^ ask.now.size) (drop start slot.page) in
            self.new ≡ record {
              slots = slice_set self.old.slots at (record {
                number = slot.number;
                page = replaced slot.page start (new_cells kind ask.now.op old ask.now.bytes);
              });
              known = self.old.known;
            } }
        ensures shown { let slot = slice_index_or self.old.slots at blank_slot in
            let old = take (2 ^ ask.now.size) (drop start slot.page) in
            cells.new ≡ shown_cells (reply_op_of ask.now.op) old }
    {
        let sheet = &mut self.sheets[at / SHEET_PAGES];
        sheet.serve(kind, place_of(at, start), ask, cells);
    }

    /// Makes the bytes that are flagged unknown, from one on, in the page at a place.
    pub fn forget(&mut self, at: usize, start: usize, flags: &[bool])
        requires at { at < length self.old.slots }
        requires inside { start + length flags.now ≤ PAGE_BYTES }
        ensures { let slot = slice_index_or self.old.slots at blank_slot in
            self.new ≡ record {
              slots = slice_set self.old.slots at (record {
                number = slot.number;
                page = forgotten flags.now start slot.page;
              });
              known = self.old.known;
            } }
    {
        let sheet = &mut self.sheets[at / SHEET_PAGES];
        sheet.forget(place_of(at, start), flags);
    }

    /// Writes bytes, all known, from one on, in the page at a place.
    pub fn load(&mut self, at: usize, start: usize, bytes: &[u8])
        requires at { at < length self.old.slots }
        requires inside { start + length bytes.now ≤ PAGE_BYTES }
        ensures { let slot = slice_index_or self.old.slots at blank_slot in
            self.new ≡ record {
              slots = slice_set self.old.slots at (record {
                number = slot.number;
                page = replaced slot.page start (known bytes.now);
              });
              known = self.old.known;
            } }
    {
        let sheet = &mut self.sheets[at / SHEET_PAGES];
        sheet.load(place_of(at, start), bytes);
    }
}

/// Makes a sheet more, if so many pages fill those that there are.
fn make_room(
    sheets: &mut Vec<Sheet>,
    alloc: Global,
    used: usize,
    known: bool,
) -> Result<(), AllocError>
    requires { AreFilled used sheets.old.items known }
    ensures filled { AreFilled used sheets.new.items known }
    ensures same { (at : ℕ) → at < used
        → page_at sheets.new.items at ≡ page_at sheets.old.items at }
    ensures room { OnOk result (used < SHEET_PAGES * length sheets.new.items) }
{
    if used / SHEET_PAGES < sheets.len() {
        return Ok(());
    }
    let sheet = Sheet::new(alloc, known)?;
    sheets.push(sheet)?;
    Ok(())
}

/// Where a byte of the page at a place stands in its sheet.
fn place_of(at: usize, start: usize) -> usize
    requires { start ≤ PAGE_BYTES }
    ensures { result ≡ PAGE_BYTES * (at % SHEET_PAGES) + start }
{
    PAGE_BYTES * (at % SHEET_PAGES) + start
}
