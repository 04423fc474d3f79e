//! Marks of the bytes of a captured message: which of them are spoiled.
ghost use Rattle.std.specs.Prelude.{◌≡◌, ℕ, ◌+◌, ◌*◌, ◌<◌, ◌≤◌, ◌⊎◌, ◌++◌, [], length, replicate, slice_index_or, false};
ghost use Rattle.std.specs.List.{list_any};
ghost use Rattle.tl_types.specs.Bytes.{bit_in};
ghost use Rattle.check_cells.specs.Bit.{known_bit};

use crate::cells::MAX_WORDS;
use crate::masks::{known_cell, mark_cell};
use std::marker::Model;
use tl_types::{MAX_BYTES, WORD_BYTES};

/// For each byte of a captured message whether it is spoiled: a corrupt beat carried it.
#[derive(Debug, Drop)]
pub struct Marks {
    bits: [u8; MAX_WORDS],
    len: usize,
    /// If it is not set no bit is: so it is for most messages, and their bits are neither read nor written.
    any: bool,
}

impl Model for Marks {
    ghost use Rattle.std.specs.Prelude.{List, Bool};
    ghost use Rattle.check_cells.specs.Marks.{AreMarks, marks_in};

    ghost Value = { List Bool };

    ghost view = { λ m. marks_in m.bits m.len };

    ghost invariant = { λ m. AreMarks m.any m.bits m.len };
}

impl Marks {
    /// No marks.
    pub fn new() -> Marks
        ensures { result ≡ [] }
    {
        Marks {
            bits: [0; MAX_WORDS],
            len: 0,
            any: false,
        }
    }

    /// How many there are.
    pub fn len(&self) -> usize
        ensures value { result ≡ length self.now }
        ensures in_limit { result ≤ MAX_BYTES }
    {
        self.len
    }

    /// Whether any may be set.
    pub fn is_any(&self) -> bool
        ensures { result ≡ false → (place : ℕ) → slice_index_or self.now place false ≡ false }
    {
        self.any
    }

    /// Whether one is set.
    #[inline]
    pub fn has_set(&self) -> bool
        ensures { result ≡ list_any (λ mark. mark) self.now }
    {
        self.any && self.finds_set()
    }

    /// The same, mark by mark.
    // apart, since most messages have no spoiled byte
    #[inline(never)]
    fn finds_set(&self) -> bool
        ensures { result ≡ list_any (λ mark. mark) self.now }
    {
        for place in 0..self.len {
            if self.get(place) {
                return true;
            }
        }
        false
    }

    /// The mark of a byte. Past the last one none is set.
    pub fn get(&self, place: usize) -> bool
        ensures { result ≡ slice_index_or self.now place false }
    {
        place < self.len && known_cell(&self.bits, place, 1) == 1
    }

    /// Takes all marks away.
    pub fn clear(&mut self)
        ensures { self.new ≡ [] }
    {
        if self.any {
            self.bits = [0; MAX_WORDS];
            self.any = false;
        }
        self.len = 0;
    }

    /// Appends so many equal marks.
    pub fn push(&mut self, mark: bool, count: usize)
        requires { length self.old + count ≤ MAX_BYTES }
        ensures { self.new ≡ self.old ++ replicate count mark }
    {
        if mark || self.any {
            self.push_bits(mark, count);
        } else {
            self.len += count;
        }
    }

    /// The same, by their bits.
    // apart, since most messages have no spoiled byte
    #[inline(never)]
    fn push_bits(&mut self, mark: bool, count: usize)
        requires { length self.old + count ≤ MAX_BYTES }
        ensures { self.new ≡ self.old ++ replicate count mark }
    {
        mark_bits(&mut self.bits, self.len, count, mark);
        self.any = true;
        self.len += count;
    }

    /// Puts a copy of other marks in the place of those that there were.
    pub fn refill_from(&mut self, other: &Marks)
        ensures { self.new ≡ other.now }
    {
        self.bits = other.bits;
        self.len = other.len;
        self.any = other.any;
    }

    /// The same marks.
    pub fn copy(&self) -> Marks
        ensures { result ≡ self.now }
    {
        Marks {
            bits: self.bits,
            len: self.len,
            any: self.any,
        }
    }
}

/// Sets or clears so many bits, from a place on.
fn mark_bits(bits: &mut [u8], start: usize, count: usize, mark: bool)
    requires inside { start + count ≤ WORD_BYTES * length bits.old }
    requires in_limit { start + count ≤ MAX_BYTES }
    ensures inside { (k : ℕ) → k < count → bit_in bits.new (start + k) ≡ known_bit mark }
    ensures outside { (place : ℕ) → (place < start) ⊎ (start + count ≤ place)
        → bit_in bits.new place ≡ bit_in bits.old place }
    ensures counted { length bits.new ≡ length bits.old }
{
    for place in start..start + count {
        mark_cell(bits, place, 1, mark);
    }
}
