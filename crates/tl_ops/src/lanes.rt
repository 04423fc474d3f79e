//! Bytes kept in words of the bus, and read and written a word at a time.
ghost use Rattle.std.specs.Prelude.{◌≡◌, ◌+◌, ◌-◌, ◌*◌, ◌%◌, ◌^◌, ◌<◌, ◌≤◌, ◌++◌, ◌∷◌, [], length, take, drop, replicate, slice_get, Some, IfOk};
ghost use Rattle.tl_types.specs.Bytes.{bytes_of_words};
ghost use Rattle.tl_ops.specs.Number.{low_bytes};
ghost use Rattle.tl_ops.specs.Store.{with_window};
ghost use Rattle.tl_ops.specs.Window.{merged, new_window, cleared, operand_of};
ghost use Rattle.tl_ops.specs.Cell.{FitsWords, spare_after, bytes_of_word};
ghost use Rattle.tl_ops.specs.declared.kind.Kind.TheVariants.{Ram};

use crate::cell::{cell_of, cleared_cell, new_cell, with_cell};
use arrayvec::ArrayVec;
use std::alloc::{AllocError, Global};
use std::marker::Model;
use tl_types::{AskOp, Bytes, MAX_BYTES, WORD_BYTES};

/// The bytes of a window.
pub type Window = ArrayVec<u8, MAX_BYTES>;

/// Bytes, of which each word keeps as many as the bus has lanes, the first lowest.
#[derive(Drop)]
pub struct Lanes {
    words: Vec<u64>,
}

impl Model for Lanes {
    ghost use Rattle.std.specs.Prelude.{List, ℕ};
    ghost use Rattle.tl_ops.specs.Cell.{lanes_of};

    ghost Value = { List ℕ };

    ghost view = { λ l. lanes_of l.words.items };
}

impl Clone for Lanes {
    ghost use Rattle.std.specs.Prelude.{◌≡◌};

    ghost is_clone = { λ lanes copy. copy ≡ lanes };

    fn clone(&self) -> Result<Lanes, AllocError> {
        Ok(Lanes {
            words: self.words.clone()?,
        })
    }
}

impl Lanes {
    /// As many words of zeros.
    pub fn zeros(alloc: Global, count: usize) -> Result<Lanes, AllocError>
        ensures { IfOk result (λ lanes. lanes ≡ replicate (WORD_BYTES * count) 0) }
    {
        Ok(Lanes {
            words: vec![in alloc; 0; count]?,
        })
    }

    /// The cell of `width` bytes from a place on.
    pub fn cell(&self, start: usize, width: usize) -> u64
        requires some { 0 < width }
        requires in_word { start % WORD_BYTES + width ≤ WORD_BYTES }
        requires inside { start + width ≤ length self.now }
        ensures bytes { low_bytes width result ≡ take width (drop start self.now) }
        ensures fits { result < 2 ^ (8 * width) }
    {
        cell_of(self.words[start / WORD_BYTES], start % WORD_BYTES, width)
    }

    /// Replaces the cell of `width` bytes from a place on.
    fn set_cell(&mut self, start: usize, width: usize, cell: u64)
        requires some { 0 < width }
        requires in_word { start % WORD_BYTES + width ≤ WORD_BYTES }
        requires inside { start + width ≤ length self.old }
        requires fits { cell < 2 ^ (8 * width) }
        ensures after { self.new ≡ with_window self.old start (low_bytes width cell) }
        ensures len { length self.new ≡ length self.old }
    {
        let word = self.words[start / WORD_BYTES];
        self.words[start / WORD_BYTES] = with_cell(word, start % WORD_BYTES, width, cell);
    }

    /// Serves a request on bytes that one word holds, where a put leaves what it gives, and answers the cell that was
    /// there.
    pub fn update(&mut self, start: usize, op: AskOp, given: &Bytes) -> u64
        requires some { 0 < length given.now }
        requires in_word { start % WORD_BYTES + length given.now ≤ WORD_BYTES }
        requires inside { start + length given.now ≤ length self.old }
        ensures after { let old = take (length given.now) (drop start self.old) in
            self.new ≡ with_window self.old start (new_window Ram op old given.now) }
        ensures len { length self.new ≡ length self.old }
        ensures bytes { low_bytes (length given.now) result
            ≡ take (length given.now) (drop start self.old) }
    {
        let width = given.len();
        let old = self.cell(start, width);
        self.set_cell(start, width, new_cell(op, old, given, 0));
        old
    }

    /// Clears the bits that are given as ones, in bytes that one word holds.
    pub fn clear(&mut self, start: usize, given: &Bytes)
        requires some { 0 < length given.now }
        requires in_word { start % WORD_BYTES + length given.now ≤ WORD_BYTES }
        requires inside { start + length given.now ≤ length self.old }
        ensures { let old = take (length given.now) (drop start self.old) in
            self.new ≡ with_window self.old start (cleared old (operand_of given.now)) }
    {
        let width = given.len();
        let old = self.cell(start, width);
        self.set_cell(start, width, cleared_cell(old, given));
    }

    /// Puts a byte at a place.
    pub fn put_byte(&mut self, place: usize, byte: u8)
        requires { place < length self.old }
        ensures { self.new ≡ with_window self.old place (byte ∷ []) }
    {
        self.set_cell(place, 1, u64::from(byte));
    }

    /// The bytes in memory, after `lead` zeros and before as many as fill the last word.
    pub fn new(alloc: Global, lead: usize, bytes: &[u8]) -> Result<Lanes, AllocError>
        requires lead { lead < WORD_BYTES }
        requires in_limit { length bytes.now ≤ 2 ^ 32 }
        ensures { IfOk result (λ lanes. lanes ≡ replicate lead 0
            ++ (bytes.now ++ replicate (spare_after (lead + length bytes.now)) 0)) }
    {
        let mut lanes = Lanes::zeros(alloc, (lead + bytes.len()).div_ceil(WORD_BYTES))?;
        for k in 0..bytes.len() {
            lanes.put_byte(lead + k, bytes[k]);
        }
        Ok(lanes)
    }

    /// The byte at a place.
    pub fn byte(&self, place: usize) -> u8
        requires { place < length self.now }
        ensures { slice_get self.now place ≡ Some result }
    {
        self.cell(place, 1) as u8
    }

    /// Puts word number `k` of the given bytes into word number `i`.
    fn put_word(&mut self, i: usize, given: &Bytes, k: usize)
        requires width { WORD_BYTES * k + WORD_BYTES ≤ length given.now }
        requires inside { WORD_BYTES * i + WORD_BYTES ≤ length self.old }
        ensures after { let old = take WORD_BYTES (drop (WORD_BYTES * i) self.old) in
            self.new ≡ with_window self.old (WORD_BYTES * i) (merged old (bytes_of_word given.now k)) }
        ensures len { length self.new ≡ length self.old }
    {
        let word = self.words[i];
        self.words[i] = new_cell(AskOp::PutPartial, word, given, k);
    }

    /// So many words from a place on.
    pub fn words(&self, start: usize, count: usize) -> &[u64]
        requires whole { start % WORD_BYTES ≡ 0 }
        requires inside { start + WORD_BYTES * count ≤ length self.now }
        ensures { bytes_of_words result.now ≡ take (WORD_BYTES * count) (drop start self.now) }
    {
        let first = start / WORD_BYTES;
        &self.words[first..first + count]
    }

    /// Puts the given bytes from a place on: into a cell, or into whole words.
    pub fn put(&mut self, start: usize, given: &Bytes)
        requires fits { FitsWords start (length given.now) }
        requires inside { start + length given.now ≤ length self.old }
        ensures after { let old = take (length given.now) (drop start self.old) in
            self.new ≡ with_window self.old start (merged old given.now) }
    {
        let width = given.len();
        if width < WORD_BYTES {
            self.update(start, AskOp::PutPartial, given);
            return;
        }
        for k in 0..width / WORD_BYTES {
            self.put_word(start / WORD_BYTES + k, given, k);
        }
    }
}
