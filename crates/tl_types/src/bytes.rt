//! The bytes of a request, some of which may be left unset.
ghost use Rattle.std.specs.Prelude.{◌≡◌, ◌↔◌, ℕ, ◌+◌, ◌*◌, ◌%◌, ◌^◌, ◌<◌, ◌≤◌, ◌==◌, ◌++◌, ◌∷◌, [], length, slice_get, slice_index, Some, IsTrue, map};
ghost use Rattle.std.specs.Int.{bit_at};
ghost use Rattle.tl_types.specs.Bytes.{IsMaskOf, bit_in, flag_bit, given_in, plain_of};

use crate::limits::{MAX_BYTES, WORD_BYTES};
use crate::room::refill_room;
use arrayvec::ArrayVec;
use std::marker::Model;
use std::simd::prelude::*;

/// The most words of the bus that a message has.
const MAX_WORDS: usize = MAX_BYTES / WORD_BYTES;

/// The bytes of a request, of which some may be left unset.
///
/// They are plain bytes, zero if one is left unset, and a mask for each word of the bus.
#[derive(Debug, Drop)]
pub struct Bytes {
    plain: ArrayVec<u8, MAX_BYTES>,
    masks: [u8; MAX_WORDS],
}

impl Model for Bytes {
    ghost use Rattle.std.specs.Prelude.{List, ℕ, Option};
    ghost use Rattle.tl_types.specs.Bytes.{AreKept, bit_in, given_in};

    ghost Value = { List (Option ℕ) };

    ghost view = { λ b. given_in (bit_in b.masks) b.plain.items };

    ghost invariant = { λ b. AreKept b.plain.items b.masks };
}

impl Bytes {
    /// No bytes.
    pub fn new() -> Bytes
        ensures { result ≡ [] }
    {
        Bytes {
            plain: ArrayVec::new(),
            masks: [0; MAX_WORDS],
        }
    }

    /// Appends a byte that is given, or one that is left unset.
    pub fn push(&mut self, byte: Option<u8>)
        requires { length self.old < MAX_BYTES }
        ensures { self.new ≡ self.old ++ byte ∷ [] }
    {
        let place = self.plain.len();
        match byte {
            Some(byte) => {
                self.masks[place / WORD_BYTES] |= 1 << (place % WORD_BYTES);
                self.plain.push(byte);
            }
            None => self.plain.push(0),
        }
    }

    /// Appends a word, or the front of one, all of whose bytes are given.
    pub fn push_given(&mut self, bytes: &[u8])
        requires some { 0 < length bytes.now }
        requires aligned { length self.old % WORD_BYTES ≡ 0 }
        requires in_word { length bytes.now ≤ WORD_BYTES }
        requires room { length self.old + length bytes.now ≤ MAX_BYTES }
        ensures { self.new ≡ self.old ++ map (λ byte. Some byte) bytes.now }
    {
        let word = self.plain.len() / WORD_BYTES;
        self.masks[word] = u8::MAX >> (WORD_BYTES - bytes.len());
        self.plain.try_extend_from_slice(bytes).unwrap();
    }

    /// These bytes.
    pub fn of(given: &[Option<u8>]) -> Bytes
        requires { length given.now ≤ MAX_BYTES }
        ensures { result ≡ given.now }
    {
        let mut bytes = Bytes::new();
        bytes.refill(given);
        bytes
    }

    /// These bytes, all given.
    pub fn given(plain: &[u8]) -> Bytes
        requires { length plain.now ≤ MAX_BYTES }
        ensures { result ≡ map (λ byte. Some byte) plain.now }
    {
        let mut bytes = Bytes::new();
        bytes.refill_given(plain);
        bytes
    }

    /// Takes all bytes away.
    pub fn clear(&mut self)
        ensures { self.new ≡ [] }
    {
        self.plain.clear();
        self.masks = [0; MAX_WORDS];
    }

    /// Puts these bytes in the place of those that there were.
    // as many bytes are moved as there are, where a value built anew is moved with room for the longest message
    pub fn refill(&mut self, given: &[Option<u8>])
        requires { length given.now ≤ MAX_BYTES }
        ensures { self.new ≡ given.now }
    {
        self.clear();
        for byte in given {
            self.push(*byte);
        }
    }

    /// Puts these bytes, all given, in the place of those that there were.
    pub fn refill_given(&mut self, plain: &[u8])
        requires { length plain.now ≤ MAX_BYTES }
        ensures { self.new ≡ map (λ byte. Some byte) plain.now }
    {
        refill_room(&mut self.plain, plain);
        put_given_masks(&mut self.masks, plain.len());
    }

    /// Puts a copy of other bytes in the place of those that there were.
    pub fn refill_from(&mut self, other: &Bytes)
        ensures { self.new ≡ other.now }
    {
        refill_room(&mut self.plain, other.plain.as_slice());
        self.masks = other.masks;
    }

    /// Puts these bytes in the place of those that there were: one is left unset if its flag is zero.
    pub fn refill_flagged(&mut self, plain: &[u8], flags: &[u8])
        requires limit { length plain.now ≤ MAX_BYTES }
        requires flags { length plain.now ≤ length flags.now }
        ensures { self.new ≡ given_in (slice_index flags.now) plain.now }
    {
        refill_room(&mut self.plain, plain);
        clear_unset(self.plain.as_mut_slice(), flags);
        put_flagged_masks(&mut self.masks, &flags[..plain.len()]);
    }

    /// How many bytes there are, those that are left unset among them.
    pub fn len(&self) -> usize
        ensures value { result ≡ length self.now }
        ensures in_limit { result ≤ MAX_BYTES }
    {
        self.plain.len()
    }

    /// Whether there is no byte.
    pub fn is_empty(&self) -> bool
        ensures { result ≡ (length self.now == 0) }
    {
        self.plain.is_empty()
    }

    /// The byte at a place, if it is given.
    pub fn get(&self, place: usize) -> Option<u8>
        requires { place < length self.now }
        ensures { slice_get self.now place ≡ Some result }
    {
        let byte = self.plain[place];
        if self.masks[place / WORD_BYTES] >> (place % WORD_BYTES) & 1 == 1 {
            Some(byte)
        } else {
            None
        }
    }

    /// The bytes, zero if one is left unset.
    pub fn plain(&self) -> &[u8]
        ensures { result.now ≡ plain_of self.now }
    {
        self.plain.as_slice()
    }

    /// The mask of a word of the bytes: bit k is set where its byte k is given.
    pub fn mask(&self, word: usize) -> u8
        requires { WORD_BYTES * word < MAX_BYTES }
        ensures { IsMaskOf self.now word result }
    {
        self.masks[word]
    }

    /// Whether these bytes are those.
    pub fn is_same(&self, other: &Bytes) -> bool
        ensures { IsTrue result ↔ (self.now ≡ other.now) }
    {
        self.masks == other.masks && self.plain.as_slice() == other.plain.as_slice()
    }

    /// The same bytes.
    pub fn copy(&self) -> Bytes
        ensures { result ≡ self.now }
    {
        Bytes {
            plain: ArrayVec::try_from(self.plain.as_slice()).unwrap(),
            masks: self.masks,
        }
    }
}

/// Puts the masks of so many bytes that are all given in the place of others.
// where they lie: made aside and moved, they take longer than a short message's bytes. Those of one word, the common
// case, have one mask at a place that is known: no loop and no division
fn put_given_masks(masks: &mut [u8; MAX_WORDS], count: usize)
    requires { count ≤ MAX_BYTES }
    ensures counted { length masks.new ≡ MAX_WORDS }
    ensures small { (word : ℕ) → slice_index masks.new word < 2 ^ WORD_BYTES }
    ensures given { (place : ℕ) → place < count → bit_in masks.new place ≡ 1 }
    ensures past { (place : ℕ) → count ≤ place → bit_in masks.new place ≡ 0 }
{
    if count > WORD_BYTES {
        *masks = given_words(count);
        return;
    }
    *masks = [0; MAX_WORDS];
    masks[0] = (u16::from(u8::MAX) >> (WORD_BYTES - count)) as u8;
}

/// The masks of so many bytes that are all given, word by word.
// it stands apart, so that what a short message needs is small enough to stand in its callers
#[inline(never)]
fn given_words(count: usize) -> [u8; MAX_WORDS]
    requires { count ≤ MAX_BYTES }
    ensures counted { length result ≡ MAX_WORDS }
    ensures small { (word : ℕ) → slice_index result word < 2 ^ WORD_BYTES }
    ensures given { (place : ℕ) → place < count → bit_in result place ≡ 1 }
    ensures past { (place : ℕ) → count ≤ place → bit_in result place ≡ 0 }
{
    let mut masks = [0; MAX_WORDS];
    let words = count / WORD_BYTES;
    for word in 0..words {
        masks[word] = u8::MAX;
    }
    if count % WORD_BYTES > 0 {
        masks[words] = u8::MAX >> (WORD_BYTES - count % WORD_BYTES);
    }
    masks
}

/// Puts zero in the place of each byte whose flag is zero.
// the bytes of a whole word are looked at side by side
fn clear_unset(bytes: &mut [u8], flags: &[u8])
    requires { length bytes.old ≤ length flags.now }
    ensures { bytes.new ≡ plain_of (given_in (slice_index flags.now) bytes.old) }
{
    if bytes.len() == WORD_BYTES {
        clear_word(bytes, flags);
        return;
    }
    for place in 0..bytes.len() {
        bytes[place] = if flags[place] == 0 { 0 } else { bytes[place] };
    }
}

/// Puts zero in the place of each byte of a word whose flag is zero.
fn clear_word(bytes: &mut [u8], flags: &[u8])
    requires word { length bytes.old ≡ WORD_BYTES }
    requires flags { WORD_BYTES ≤ length flags.now }
    ensures { bytes.new ≡ plain_of (given_in (slice_index flags.now) bytes.old) }
{
    let none = u8x8::splat(0);
    let unset = u8x8::from_slice(flags).simd_eq(none);
    unset
        .select(none, u8x8::from_slice(bytes))
        .copy_to_slice(bytes);
}

/// Puts the masks of as many bytes as there are flags in the place of others: one is left unset if its flag is zero.
fn put_flagged_masks(masks: &mut [u8; MAX_WORDS], flags: &[u8])
    requires { length flags.now ≤ MAX_BYTES }
    ensures counted { length masks.new ≡ MAX_WORDS }
    ensures small { (word : ℕ) → slice_index masks.new word < 2 ^ WORD_BYTES }
    ensures bits { (place : ℕ) → bit_in masks.new place ≡ flag_bit (slice_index flags.now place) }
{
    if flags.len() > WORD_BYTES {
        *masks = flagged_words(flags);
        return;
    }
    *masks = [0; MAX_WORDS];
    masks[0] = flag_mask(flags);
}

/// The masks of as many bytes as there are flags, word by word.
// it stands apart as `given_words` does
#[inline(never)]
fn flagged_words(flags: &[u8]) -> [u8; MAX_WORDS]
    requires { length flags.now ≤ MAX_BYTES }
    ensures counted { length result ≡ MAX_WORDS }
    ensures small { (word : ℕ) → slice_index result word < 2 ^ WORD_BYTES }
    ensures bits { (place : ℕ) → bit_in result place ≡ flag_bit (slice_index flags.now place) }
{
    let mut masks = [0; MAX_WORDS];
    for word in 0..flags.len().div_ceil(WORD_BYTES) {
        let from = WORD_BYTES * word;
        masks[word] = flag_mask(&flags[from..flags.len().min(from + WORD_BYTES)]);
    }
    masks
}

/// The mask of a word, or of the front of one: a bit is set if its flag is not zero.
// the flags of a whole word are looked at side by side
fn flag_mask(flags: &[u8]) -> u8
    requires { length flags.now ≤ WORD_BYTES }
    ensures { (k : ℕ) → bit_at result k ≡ flag_bit (slice_index flags.now k) }
{
    if flags.len() == WORD_BYTES {
        let set = u8x8::from_slice(flags).simd_ne(u8x8::splat(0));
        return set.to_bitmask() as u8;
    }
    let mut mask = 0;
    for k in (0..flags.len()).rev() {
        mask = mask << 1 | u8::from(flags[k] != 0);
    }
    mask
}
