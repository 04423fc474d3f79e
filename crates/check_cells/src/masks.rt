//! Masks of words: a bit for each byte, set where it is known.
ghost use Rattle.std.specs.Prelude.{◌≡◌, ℕ, ◌+◌, ◌-◌, ◌*◌, ◌%◌, ◌/◌, ◌^◌, ◌<◌, ◌≤◌, ◌⊎◌, length, slice_index, slice_index_or, Bool, IsTrue, ◌↔◌, Option, None};
ghost use Rattle.std.specs.Int.{bit_at};
ghost use Rattle.tl_types.specs.Bytes.{bit_in};
ghost use Rattle.tl_ops.specs.Cell.{FitsWords};
ghost use Rattle.check_cells.specs.Bit.{known_bit, given_bit};

use tl_types::{Bytes, MAX_BYTES, WORD_BYTES};

/// The mask of so many bytes, all known.
pub fn ones(width: usize) -> u8
    requires { width ≤ WORD_BYTES }
    ensures value { result ≡ 2 ^ width - 1 }
{
    (u16::from(u8::MAX) >> (WORD_BYTES - width)) as u8
}

/// Which of so many bytes of a word are known, from a place on.
pub fn known_cell(masks: &[u8], start: usize, width: usize) -> u8
    requires in_word { start % WORD_BYTES + width ≤ WORD_BYTES }
    requires inside { start + width ≤ WORD_BYTES * length masks.now }
    requires some { 0 < width }
    ensures bits { (k : ℕ) → k < width → bit_at result k ≡ bit_in masks.now (start + k) }
    ensures fits { result < 2 ^ width }
{
    masks[start / WORD_BYTES] >> (start % WORD_BYTES) & ones(width)
}

/// Makes so many bytes of a word known or unknown, from a place on.
pub fn mark_cell(masks: &mut [u8], start: usize, width: usize, known: bool)
    requires in_word { start % WORD_BYTES + width ≤ WORD_BYTES }
    requires inside { start + width ≤ WORD_BYTES * length masks.old }
    requires some { 0 < width }
    ensures inside { (k : ℕ) → k < width → bit_in masks.new (start + k) ≡ known_bit known }
    ensures outside { (place : ℕ) → (place < start) ⊎ (start + width ≤ place)
        → bit_in masks.new place ≡ bit_in masks.old place }
{
    let bits = ones(width) << (start % WORD_BYTES);
    let word = start / WORD_BYTES;
    masks[word] = if known {
        masks[word] | bits
    } else {
        masks[word] & !bits
    };
}

/// Makes known what word `k` of the given bytes gives, from a place on to the end of its word.
fn give_word(masks: &mut [u8], start: usize, given: &Bytes, k: usize)
    requires inside { start / WORD_BYTES < length masks.old }
    requires width { WORD_BYTES * k < length given.now }
    requires limit { length given.now ≤ MAX_BYTES }
    ensures inside { (lane : ℕ) → start % WORD_BYTES + lane < WORD_BYTES
        → bit_in masks.new (start + lane)
        ≡ given_bit (bit_in masks.old (start + lane)) (slice_index_or given.now (WORD_BYTES * k + lane) None) }
    ensures outside { (place : ℕ) → (place < start) ⊎ (start + (WORD_BYTES - start % WORD_BYTES) ≤ place)
        → bit_in masks.new place ≡ bit_in masks.old place }
{
    let word = start / WORD_BYTES;
    let mask = given.mask(k);
    let lanes = mask << (start % WORD_BYTES);
    masks[word] |= lanes;
}

/// Makes the bytes that are given known, from a place on.
pub fn give(masks: &mut [u8], start: usize, given: &Bytes)
    requires fits { FitsWords start (length given.now) }
    requires inside { start + length given.now ≤ WORD_BYTES * length masks.old }
    requires limit { start ≤ 2 ^ 32 }
    ensures inside { (k : ℕ) → k < length given.now
        → bit_in masks.new (start + k) ≡ given_bit (bit_in masks.old (start + k)) (slice_index_or given.now k None) }
    ensures outside { (place : ℕ) → (place < start) ⊎ (start + length given.now ≤ place)
        → bit_in masks.new place ≡ bit_in masks.old place }
{
    let width = given.len();
    if width <= WORD_BYTES {
        give_word(masks, start, given, 0);
        return;
    }
    for k in 0..width / WORD_BYTES {
        give_word(masks, start + WORD_BYTES * k, given, k);
    }
}
