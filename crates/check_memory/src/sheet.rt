//! Sheets: bytes next to one another, each known or unknown, with room for some pages.
ghost use Rattle.std.specs.Prelude.{◌≡◌, ◌↔◌, ◌⊎◌, ℕ, ◌+◌, ◌*◌, ◌%◌, ◌^◌, ◌<◌, ◌≤◌, ◌∷◌, [], length, take, drop, replicate, IfOk, IsTrue, slice_index_or, None, Some, slice_set, true, ◌||◌, unwrap_or};
ghost use Rattle.tl_types.specs.Bytes.{bit_in};
ghost use Rattle.tl_types.specs.declared.operation.AskOp.TheVariants.{PutFull};
ghost use Rattle.tl_ops.specs.Cell.{FitsWords};
ghost use Rattle.tl_ops.specs.declared.kind.Kind.TheVariants.{Ram, ClearRegs};
ghost use Rattle.tl_types.specs.Operation.{carries_bytes, reply_op_of};
ghost use Rattle.check_memory.specs.Known.{known, replaced};
ghost use Rattle.check_memory.specs.Pattern.{shown_cells};
ghost use Rattle.check_memory.specs.Cells.{put_cells, new_cells, clear_cell, is_atomic, is_swap, forgotten};
ghost use Rattle.check_memory.specs.Place.{fill_of, known_bit};

use crate::wide::combined_words;
use check_cells::{Cells, give, known_cell, mark_cell, mask_of, ones};
use std::alloc::{AllocError, Global};
use std::marker::Model;
use tl_ops::Kind;
use tl_ops::lanes::Lanes;
use tl_types::{Ask, AskOp, Bytes, Logic, MAX_BYTES, WORD_BYTES};

/// The bytes of a page: a multiple of those of the longest message, so that one page holds each request. It is small, so
/// that words far from one another take little memory.
pub const PAGE_BYTES: usize = 256;

/// The pages of a sheet. There are several, so that few pieces of memory are asked for. A memory has room for at most
/// seven pages more than were made.
pub const SHEET_PAGES: usize = 8;

/// The bytes of a sheet.
const SHEET_BYTES: usize = SHEET_PAGES * PAGE_BYTES;

/// The words of a sheet.
const SHEET_WORDS: usize = SHEET_BYTES / WORD_BYTES;

/// Bytes next to one another, each known or unknown.
#[derive(Drop)]
pub struct Sheet {
    lanes: Lanes,
    masks: [u8; SHEET_WORDS],
}

impl Model for Sheet {
    ghost use Rattle.std.specs.Prelude.{List, ℕ, Option};
    ghost use Rattle.tl_types.specs.Bytes.{bit_in, given_in};
    ghost use Rattle.check_memory.specs.Kept.{IsSheet};

    ghost Value = { List (Option ℕ) };

    ghost view = { λ s. given_in (bit_in s.masks) s.lanes };

    ghost invariant = { λ s. IsSheet s.lanes s.masks };
}

impl Clone for Sheet {
    ghost use Rattle.std.specs.Prelude.{◌≡◌};

    ghost is_clone = { λ sheet copy. copy ≡ sheet };

    fn clone(&self) -> Result<Sheet, AllocError> {
        Ok(Sheet {
            lanes: self.lanes.clone()?,
            masks: self.masks,
        })
    }
}

impl Sheet {
    /// A sheet whose bytes are zero, or unknown.
    pub fn new(alloc: Global, known: bool) -> Result<Sheet, AllocError>
        ensures { IfOk result (λ sheet. sheet ≡ replicate SHEET_BYTES (fill_of known)) }
    {
        let lanes = Lanes::zeros(alloc, SHEET_WORDS)?;
        let masks = [mask_of(known); SHEET_WORDS];
        Ok(Sheet { lanes, masks })
    }

    /// The bytes from a place on.
    pub fn read(&self, start: usize, width: usize, cells: &mut Cells)
        requires fits { FitsWords start width }
        requires limit { width ≤ MAX_BYTES }
        requires inside { start + width ≤ length self.now }
        ensures { cells.new ≡ take width (drop start self.now) }
    {
        if width <= WORD_BYTES {
            let known = known_cell(&self.masks, start, width);
            cells.set_cell(self.lanes.cell(start, width), known, width);
        } else {
            self.read_words(start, width, cells);
        }
    }

    /// The bytes of whole words.
    // apart, so that a short read goes by short code
    #[inline(never)]
    fn read_words(&self, start: usize, width: usize, cells: &mut Cells)
        requires whole { start % WORD_BYTES ≡ 0 }
        requires words { width % WORD_BYTES ≡ 0 }
        requires limit { width ≤ MAX_BYTES }
        requires inside { start + width ≤ length self.now }
        ensures { cells.new ≡ take width (drop start self.now) }
    {
        let first = start / WORD_BYTES;
        let count = width / WORD_BYTES;
        let masks = part(&self.masks, first, count);
        cells.set_words(self.lanes.words(start, count), masks);
    }

    /// Puts the bytes that are given from a place on.
    fn put(&mut self, start: usize, given: &Bytes)
        requires fits { FitsWords start (length given.now) }
        requires inside { start + length given.now ≤ length self.old }
        ensures after { let old = take (length given.now) (drop start self.old) in
            self.new ≡ replaced self.old start (put_cells Ram old given.now) }
        ensures len { length self.new ≡ length self.old }
    {
        self.lanes.put(start, given);
        give(&mut self.masks, start, given);
    }

    /// Puts one byte, which is known then.
    fn put_byte(&mut self, place: usize, byte: u8)
        requires { place < length self.old }
        ensures after { self.new ≡ slice_set self.old place (Some byte) }
        ensures len { length self.new ≡ length self.old }
    {
        self.lanes.put_byte(place, byte);
        mark_cell(&mut self.masks, place, 1, true);
    }

    /// Writes bytes, all known, from a place on.
    pub fn load(&mut self, start: usize, bytes: &[u8])
        requires inside { start + length bytes.now ≤ length self.old }
        requires limit { length self.old ≤ SHEET_BYTES }
        ensures after { self.new ≡ replaced self.old start (known bytes.now) }
        ensures len { length self.new ≡ length self.old }
    {
        for k in 0..bytes.len() {
            self.put_byte(start + k, bytes[k]);
        }
    }

    /// Clears the bits of a byte that are given as ones.
    fn clear_byte(&mut self, place: usize, ones: u8)
        requires { place < length self.old }
        ensures after { let old = slice_index_or self.old place None in
            self.new ≡ slice_set self.old place (clear_cell old (Some ones)) }
        ensures len { length self.new ≡ length self.old }
    {
        if known_cell(&self.masks, place, 1) == 1 {
            let byte = self.lanes.byte(place);
            self.put_byte(place, byte & !ones);
        } else if ones == u8::MAX {
            self.put_byte(place, 0);
        }
    }

    /// Clears the bits that are given as ones, from a place on.
    fn clear(&mut self, start: usize, given: &Bytes)
        requires inside { start + length given.now ≤ length self.old }
        requires limit { start ≤ SHEET_BYTES }
        ensures after { let old = take (length given.now) (drop start self.old) in
            self.new ≡ replaced self.old start (put_cells ClearRegs old given.now) }
        ensures len { length self.new ≡ length self.old }
    {
        for k in 0..given.len() {
            self.clear_byte(start + k, ones_of(given, k));
        }
    }

    /// Puts the given bytes, as a slave of this kind takes them: it stores them, or clears the bits that they give as
    /// ones.
    fn put_as(&mut self, kind: Kind, start: usize, given: &Bytes)
        requires fits { FitsWords start (length given.now) }
        requires inside { start + length given.now ≤ length self.old }
        requires limit { start ≤ SHEET_BYTES }
        ensures after { let old = take (length given.now) (drop start self.old) in
            self.new ≡ replaced self.old start (put_cells kind old given.now) }
        ensures len { length self.new ≡ length self.old }
    {
        match kind {
            Kind::ClearRegs => self.clear(start, given),
            Kind::Ram | Kind::Rom | Kind::Regs | Kind::NoDevice => self.put(start, given),
        }
    }

    /// Serves a request that carries bytes, and shows what its answer does.
    pub fn serve(&mut self, kind: Kind, start: usize, ask: &Ask, cells: &mut Cells)
        requires carries { carries_bytes ask.now.op ≡ true }
        requires counted { length ask.now.bytes ≡ 2 ^ ask.now.size }
        requires limit { start ≤ SHEET_BYTES }
        requires fits { FitsWords start (2 ^ ask.now.size) }
        requires inside { start + 2 ^ ask.now.size ≤ length self.old }
        ensures after { let old = take (2 ^ ask.now.size) (drop start self.old) in
            self.new ≡ replaced self.old start (new_cells kind ask.now.op old ask.now.bytes) }
        ensures shown { let old = take (2 ^ ask.now.size) (drop start self.old) in
            cells.new ≡ shown_cells (reply_op_of ask.now.op) old }
        ensures len { length self.new ≡ length self.old }
    {
        match ask.op() {
            AskOp::PutFull | AskOp::PutPartial => {
                self.put_as(kind, start, ask.bytes());
                cells.clear();
            }
            AskOp::Arithmetic(_) | AskOp::Logical(_) => {
                self.serve_atomic(start, ask.op(), ask.bytes(), cells);
            }
            AskOp::Get | AskOp::Intent(_) => unreachable!(),
        }
    }

    /// Serves an atomic, and shows the bytes that stood there.
    fn serve_atomic(&mut self, start: usize, op: AskOp, given: &Bytes, cells: &mut Cells)
        requires fits { FitsWords start (length given.now) }
        requires inside { start + length given.now ≤ length self.old }
        requires atomic { is_atomic op ≡ true }
        ensures after { let old = take (length given.now) (drop start self.old) in
            self.new ≡ replaced self.old start (new_cells Ram op old given.now) }
        ensures shown { cells.new ≡ take (length given.now) (drop start self.old) }
        ensures len { length self.new ≡ length self.old }
    {
        if given.len() <= WORD_BYTES {
            self.combine(start, op, given, cells);
        } else {
            self.combine_words(start, op, given, cells);
        }
    }

    /// Serves an atomic on bytes that one word holds, and shows those that stood there.
    fn combine(&mut self, start: usize, op: AskOp, given: &Bytes, cells: &mut Cells)
        requires some { 0 < length given.now }
        requires in_word { start % WORD_BYTES + length given.now ≤ WORD_BYTES }
        requires inside { start + length given.now ≤ length self.old }
        requires atomic { is_atomic op ≡ true }
        ensures after { let old = take (length given.now) (drop start self.old) in
            self.new ≡ replaced self.old start (new_cells Ram op old given.now) }
        ensures shown { cells.new ≡ take (length given.now) (drop start self.old) }
        ensures len { length self.new ≡ length self.old }
    {
        let width = given.len();
        let mask = known_cell(&self.masks, start, width);
        let known = is_known_after(mask == ones(width), op);
        let old = self.lanes.update(start, op, given);
        cells.set_cell(old, mask, width);
        mark_cell(&mut self.masks, start, width, known);
    }

    /// Serves an atomic on whole words, and shows the bytes that stood there.
    // apart, so that an atomic on one word goes by short code
    #[inline(never)]
    fn combine_words(&mut self, start: usize, op: AskOp, given: &Bytes, cells: &mut Cells)
        requires some { 0 < length given.now }
        requires whole { start % WORD_BYTES ≡ 0 }
        requires words { length given.now % WORD_BYTES ≡ 0 }
        requires inside { start + length given.now ≤ length self.old }
        requires atomic { is_atomic op ≡ true }
        ensures after { let old = take (length given.now) (drop start self.old) in
            self.new ≡ replaced self.old start (new_cells Ram op old given.now) }
        ensures shown { cells.new ≡ take (length given.now) (drop start self.old) }
        ensures len { length self.new ≡ length self.old }
    {
        let width = given.len();
        let first = start / WORD_BYTES;
        let count = width / WORD_BYTES;
        self.read_words(start, width, cells);
        let full = are_full(part(&self.masks, first, count));
        let window = combined_words(op, self.lanes.words(start, count), given);
        self.lanes.put(start, &window);
        mark_words(&mut self.masks, first, count, is_known_after(full, op));
    }

    /// Makes the bytes that are flagged unknown, from a place on.
    pub fn forget(&mut self, start: usize, flags: &[bool])
        requires inside { start + length flags.now ≤ length self.old }
        requires limit { length self.old ≤ SHEET_BYTES }
        ensures after { self.new ≡ forgotten flags.now start self.old }
        ensures len { length self.new ≡ length self.old }
    {
        for k in 0..flags.len() {
            if flags[k] {
                self.forget_byte(start + k);
            }
        }
    }

    /// Makes one byte unknown.
    fn forget_byte(&mut self, place: usize)
        requires { place < length self.old }
        ensures after { self.new ≡ slice_set self.old place None }
        ensures len { length self.new ≡ length self.old }
    {
        mark_cell(&mut self.masks, place, 1, false);
    }
}

/// Whether a window is known after an atomic, by whether it was before.
fn is_known_after(whole: bool, op: AskOp) -> bool
    ensures { result ≡ (whole || is_swap op) }
{
    whole || matches!(op, AskOp::Logical(Logic::Swap))
}

/// Whether the bytes of words are all known, by their masks.
fn are_full(masks: &[u8]) -> bool
    ensures { IsTrue result ↔ ((place : ℕ) → place < WORD_BYTES * length masks.now
        → bit_in masks.now place ≡ 1) }
{
    masks.iter().all(|mask| *mask == u8::MAX)
}

/// Makes so many whole words known or unknown, from one on.
fn mark_words(masks: &mut [u8], first: usize, count: usize, known: bool)
    requires { first + count ≤ length masks.old }
    ensures inside { (place : ℕ) → WORD_BYTES * first ≤ place → place < WORD_BYTES * (first + count)
        → bit_in masks.new place ≡ known_bit known }
    ensures outside { (place : ℕ) → (place < WORD_BYTES * first) ⊎ (WORD_BYTES * (first + count) ≤ place)
        → bit_in masks.new place ≡ bit_in masks.old place }
{
    for word in first..first + count {
        masks[word] = mask_of(known);
    }
}

/// So many masks from one on.
fn part(masks: &[u8], first: usize, count: usize) -> &[u8]
    requires { first + count ≤ length masks.now }
    ensures { result.now ≡ take count (drop first masks.now) }
{
    &masks[first..first + count]
}

/// The bits that a byte gives as ones, which are none if it is not given.
fn ones_of(given: &Bytes, k: usize) -> u8
    requires { k < length given.now }
    ensures { result ≡ unwrap_or (slice_index_or given.now k None) 0 }
{
    given.plain()[k]
}
