//! The bytes of a message, of which some may be unknown.
ghost use Rattle.std.specs.Prelude.{◌≡◌, ◌↔◌, ℕ, ◌+◌, ◌*◌, ◌%◌, ◌^◌, ◌<◌, ◌≤◌, ◌++◌, ◌∷◌, [], length, take, drop, slice_get, Some, IfSome, IsTrue, replicate};
ghost use Rattle.std.specs.Int.{bit_at};
ghost use Rattle.tl_types.specs.Bytes.{bit_in, given_in, given_byte};
ghost use Rattle.tl_ops.specs.Number.{low_bytes};
ghost use Rattle.tl_ops.specs.Cell.{lanes_of};
ghost use Rattle.check_cells.specs.Known.{IsBelow, IsBelowBut, IsKeptIn, known};
ghost use Rattle.check_cells.specs.Bit.{fill_of, known_bit};

use crate::marks::Marks;
use crate::masks::{known_cell, mark_cell, ones};
use std::marker::Model;
use tl_ops::cell::{cell_of, with_cell};
use tl_types::{MAX_BYTES, WORD_BYTES, write_over};

/// The most bytes of which one mask says which are known.
pub const MASK_BITS: usize = u64::BITS as usize;

/// The most words of a message.
pub const MAX_WORDS: usize = MAX_BYTES / WORD_BYTES;

/// The bytes of a message, each known or unknown.
// words and masks past the last byte hold what they held before: nothing is cleared
#[derive(Debug, Drop)]
pub struct Cells {
    words: [u64; MAX_WORDS],
    masks: [u8; MAX_WORDS],
    len: usize,
}

impl Model for Cells {
    ghost use Rattle.std.specs.Prelude.{List, ℕ, Option, take};
    ghost use Rattle.tl_types.specs.Bytes.{bit_in, given_in};
    ghost use Rattle.tl_ops.specs.Cell.{lanes_of};
    ghost use Rattle.check_cells.specs.Room.{IsRoom};

    ghost Value = { List (Option ℕ) };

    ghost view = { λ c. take c.len (given_in (bit_in c.masks) (lanes_of c.words)) };

    ghost invariant = { λ c. IsRoom c.words c.masks c.len };
}

impl Cells {
    /// No bytes.
    pub fn new() -> Cells
        ensures { result ≡ [] }
    {
        Cells {
            words: [0; MAX_WORDS],
            masks: [0; MAX_WORDS],
            len: 0,
        }
    }

    /// How many there are.
    pub fn len(&self) -> usize
        ensures value { result ≡ length self.now }
        ensures in_limit { result ≤ MAX_BYTES }
    {
        self.len
    }

    /// The byte at a place, if it is known.
    pub fn get(&self, place: usize) -> Option<u8>
        requires { place < length self.now }
        ensures { slice_get self.now place ≡ Some result }
    {
        let known = known_cell(&self.masks, place, 1);
        let byte = cell_of(self.words[place / WORD_BYTES], place % WORD_BYTES, 1) as u8;
        if known == 1 { Some(byte) } else { None }
    }

    /// Takes all bytes away.
    pub fn clear(&mut self)
        ensures { self.new ≡ [] }
    {
        self.len = 0;
    }

    /// The bytes of a cell, those known whose bits are set.
    pub fn set_cell(&mut self, cell: u64, known: u8, width: usize)
        requires { width ≤ WORD_BYTES }
        ensures { self.new ≡ given_in (bit_at known) (low_bytes width cell) }
    {
        self.words[0] = cell;
        self.masks[0] = known;
        self.len = width;
    }

    /// The bytes of words, those known whose bits are set.
    pub fn set_words(&mut self, words: &[u64], masks: &[u8])
        requires paired { length masks.now ≡ length words.now }
        requires room { WORD_BYTES * length words.now ≤ MAX_BYTES }
        ensures { self.new ≡ given_in (bit_in masks.now) (lanes_of words.now) }
    {
        self.words[..words.len()].copy_from_slice(words);
        write_over(&mut self.masks[..masks.len()], masks);
        self.len = WORD_BYTES * words.len();
    }

    /// Appends a byte that is known, or one that is not.
    pub fn push(&mut self, byte: Option<u8>)
        requires { length self.old < MAX_BYTES }
        ensures { self.new ≡ self.old ++ byte ∷ [] }
    {
        let place = self.len;
        let word = self.words[place / WORD_BYTES];
        let cell = u64::from(byte.unwrap_or(0));
        self.words[place / WORD_BYTES] = with_cell(word, place % WORD_BYTES, 1, cell);
        mark_cell(&mut self.masks, place, 1, byte.is_some());
        self.len = place + 1;
    }

    /// Appends bytes, of which those are known whose bits are set.
    // whole words go in as words, and these are the bytes of most beats
    pub fn append(&mut self, bytes: &[u8], known: u64)
        requires few { length bytes.now ≤ MASK_BITS }
        requires room { length self.old + length bytes.now ≤ MAX_BYTES }
        ensures { self.new ≡ self.old ++ given_in (bit_at known) bytes.now }
    {
        if self.len() % WORD_BYTES == 0 && bytes.len() % WORD_BYTES == 0 {
            self.append_words(bytes, known);
        } else {
            self.append_each(bytes, known);
        }
    }

    /// Appends the bytes of whole words.
    fn append_words(&mut self, bytes: &[u8], known: u64)
        requires aligned { length self.old % WORD_BYTES ≡ 0 }
        requires whole { length bytes.now % WORD_BYTES ≡ 0 }
        requires few { length bytes.now ≤ MASK_BITS }
        requires room { length self.old + length bytes.now ≤ MAX_BYTES }
        ensures { self.new ≡ self.old ++ given_in (bit_at known) bytes.now }
    {
        for word in 0..bytes.len() / WORD_BYTES {
            let place = WORD_BYTES * word;
            let cell = word_of(&bytes[place..place + WORD_BYTES]);
            self.push_word(cell, (known >> place & 0xff) as u8);
        }
    }

    /// Appends one byte after the other.
    fn append_each(&mut self, bytes: &[u8], known: u64)
        requires few { length bytes.now ≤ MASK_BITS }
        requires room { length self.old + length bytes.now ≤ MAX_BYTES }
        ensures { self.new ≡ self.old ++ given_in (bit_at known) bytes.now }
    {
        for place in 0..bytes.len() {
            self.push(seen(bytes[place], known >> place & 1));
        }
    }

    /// Appends a word, of whose bytes those are known whose bits are set.
    fn push_word(&mut self, word: u64, known: u8)
        requires aligned { length self.old % WORD_BYTES ≡ 0 }
        requires room { length self.old + WORD_BYTES ≤ MAX_BYTES }
        ensures { self.new ≡ self.old ++ given_in (bit_at known) (low_bytes WORD_BYTES word) }
    {
        let place = self.len / WORD_BYTES;
        self.words[place] = word;
        self.masks[place] = known;
        self.len += WORD_BYTES;
    }

    /// Puts so many of these bytes from a place on, of which those are known whose bits are set, in the place of those
    /// that there were.
    // a part of one word, as most beats carry, is cut out of it as a number
    pub fn refill_part(&mut self, bytes: &[u8], known: u64, start: usize, count: usize)
        requires few { length bytes.now ≤ MASK_BITS }
        requires inside { start + count ≤ length bytes.now }
        ensures { self.new ≡ take count (drop start (given_in (bit_at known) bytes.now)) }
    {
        self.clear();
        if count == 0 {
            return;
        }
        let lane = start % WORD_BYTES;
        let word = start - lane;
        if lane + count <= WORD_BYTES && word + WORD_BYTES <= bytes.len() {
            let bytes = &bytes[word..word + WORD_BYTES];
            self.set_part(bytes, known >> start, lane, count);
        } else {
            self.append(&bytes[start..start + count], known >> start);
        }
    }

    /// The bytes of a part of a word, of which those are known whose bits are set.
    fn set_part(&mut self, word: &[u8], known: u64, lane: usize, width: usize)
        requires word { length word.now ≡ WORD_BYTES }
        requires some { 0 < width }
        requires in_word { lane + width ≤ WORD_BYTES }
        ensures { self.new ≡ given_in (bit_at known) (take width (drop lane word.now)) }
    {
        let cell = cell_of(word_of(word), lane, width);
        self.set_cell(cell, (known & 0xff) as u8, width);
    }

    /// Puts these bytes in the place of those that there were.
    pub fn refill(&mut self, bytes: &[Option<u8>])
        requires { length bytes.now ≤ MAX_BYTES }
        ensures { self.new ≡ bytes.now }
    {
        self.clear();
        for byte in bytes {
            self.push(*byte);
        }
    }

    /// Puts a copy of other bytes in the place of those that there were.
    // all words, also those past the last byte: a count that is known is copied without a call
    pub fn refill_from(&mut self, other: &Cells)
        ensures { self.new ≡ other.now }
    {
        self.words = other.words;
        self.masks = other.masks;
        self.len = other.len;
    }

    /// The same bytes.
    pub fn copy(&self) -> Cells
        ensures { result ≡ self.now }
    {
        Cells {
            words: self.words,
            masks: self.masks,
            len: self.len,
        }
    }

    /// So many bytes that are zero, or that are unknown.
    pub fn fill(&mut self, known: bool, width: usize)
        requires { width ≤ MAX_BYTES }
        ensures { self.new ≡ replicate width (fill_of known) }
    {
        let mask = mask_of(known);
        for word in 0..width.div_ceil(WORD_BYTES) {
            self.words[word] = 0;
            self.masks[word] = mask;
        }
        self.len = width;
    }

    /// Whether each byte that is known here is known there, and is the same.
    // word by word, and then what is left of one
    pub fn is_below(&self, other: &Cells) -> bool
        ensures { IsTrue result ↔ IsBelow self.now other.now }
    {
        let len = self.len();
        if len != other.len() {
            return false;
        }
        let words = len / WORD_BYTES;
        for word in 0..words {
            if !self.is_part_below(other, WORD_BYTES * word, WORD_BYTES) {
                return false;
            }
        }
        let rest = len % WORD_BYTES;
        rest == 0 || self.is_part_below(other, WORD_BYTES * words, rest)
    }

    /// Whether each byte that is known here and not marked is known there, and is the same.
    // as a rule none is marked
    pub fn is_below_but(&self, marks: &Marks, other: &Cells) -> bool
        ensures { IsTrue result ↔ IsBelowBut marks.now self.now other.now }
    {
        if marks.is_any() {
            self.is_each_below_but(marks, other)
        } else {
            self.is_below(other)
        }
    }

    /// The same, byte by byte.
    // apart, so that a comparison without marks is small
    #[inline(never)]
    fn is_each_below_but(&self, marks: &Marks, other: &Cells) -> bool
        ensures { IsTrue result ↔ IsBelowBut marks.now self.now other.now }
    {
        if self.len() != other.len() {
            return false;
        }
        for place in 0..self.len() {
            if !marks.get(place) && !is_kept(self.get(place), other.get(place)) {
                return false;
            }
        }
        true
    }

    /// Whether so many bytes of one word, from a place on, that are known here are known there, and are the same.
    fn is_part_below(&self, other: &Cells, start: usize, width: usize) -> bool
        requires some { 0 < width }
        requires in_word { start % WORD_BYTES + width ≤ WORD_BYTES }
        requires inside { start + width ≤ length self.now }
        requires paired { length other.now ≡ length self.now }
        requires limit { start ≤ MAX_BYTES }
        ensures { IsTrue result ↔ IsKeptIn self.now other.now start (start + width) }
    {
        if let (Some(less), Some(more)) = (
            self.known_part(start, width),
            other.known_part(start, width),
        ) {
            return less == more;
        }
        for place in start..start + width {
            if !is_kept(self.get(place), other.get(place)) {
                return false;
            }
        }
        true
    }

    /// So many bytes of one word, from a place on, as one number, if all are known.
    pub fn known_part(&self, start: usize, width: usize) -> Option<u64>
        requires some { 0 < width }
        requires in_word { start % WORD_BYTES + width ≤ WORD_BYTES }
        requires inside { start + width ≤ length self.now }
        ensures value { IfSome result (λ part.
            take width (drop start self.now) ≡ known (low_bytes width part)) }
        ensures fits { IfSome result (λ part. part < 2 ^ (8 * width)) }
    {
        let mask = known_cell(&self.masks, start, width);
        if mask == ones(width) {
            Some(cell_of(self.words[start / WORD_BYTES], start % WORD_BYTES, width))
        } else {
            None
        }
    }
}

/// A byte that is known, or not, by a bit.
fn seen(byte: u8, bit: u64) -> Option<u8>
    requires { bit < 2 }
    ensures { result ≡ given_byte bit byte }
{
    if bit == 1 { Some(byte) } else { None }
}

/// The bytes of a word as one number, the lowest first.
fn word_of(bytes: &[u8]) -> u64
    requires { length bytes.now ≡ WORD_BYTES }
    ensures { low_bytes WORD_BYTES result ≡ bytes.now }
{
    u64::from_le_bytes([
        bytes[0], bytes[1], bytes[2], bytes[3], bytes[4], bytes[5], bytes[6], bytes[7],
    ])
}

/// Whether a byte, if it is known, is known there too and is the same.
fn is_kept(less: Option<u8>, more: Option<u8>) -> bool
    ensures { IsTrue result ↔ ((byte : ℕ) → less ≡ Some byte → more ≡ Some byte) }
{
    match (less, more) {
        (None, _) => true,
        (Some(_), None) => false,
        (Some(byte), Some(other)) => byte == other,
    }
}

/// The mask of a word whose bytes are all known, or all unknown.
pub fn mask_of(known: bool) -> u8
    ensures { result ≡ 255 * known_bit known }
{
    if known { u8::MAX } else { 0 }
}
