//! The bytes of a stream, and the word that they spell.
ghost use Rattle.std.specs.Prelude.{◌≡◌, ℕ, Err, true, false, ◌≤◌, ◌<◌, ◌+◌, ◌++◌, ◌∷◌, [], List, None, length, slice_range, take, vec_len, nat_lt, IfOk, IfErr, IfSome, OnOk};
ghost use Rattle.std.specs.Io.KnownBytes.{Consumes, IsAtEnd, Keeps};
ghost use Rattle.check_vcd.specs.Fault.{IsNoMistake};
ghost use Rattle.check_vcd.specs.Words.{are_letters, is_blank, line_after};

use crate::fault::DumpFault;
use std::alloc::Global;
use std::io::{ErrorKind, Read};

/// The most bytes of a word that are kept.
pub const MAX_WORD: usize = 65_536;

/// How many bytes one read asks for.
const CHUNK: usize = 65_536;

/// How many times in a row a read is made that is interrupted.
const MAX_TRIES: u32 = 1_048_576;

/// Whether a byte stands between words: a space, or a byte of control.
#[inline(always)]
fn is_blank(byte: u8) -> bool
    ensures { result ≡ is_blank byte }
{
    byte <= b' '
}

/// How many bytes a text begins with that are no blanks.
#[inline(always)]
fn run_length(text: &[u8]) -> usize
    ensures inside { result ≤ length text.now }
    ensures letters { are_letters (take result text.now) ≡ true }
{
    for (count, byte) in text.iter().enumerate() {
        if is_blank(*byte) {
            return count;
        }
    }
    text.len()
}

/// The line after a byte, if it has a number.
#[inline(always)]
fn line_behind(line: u64, byte: u8) -> Option<u64>
    ensures { IfSome result (λ after. after ≡ line_after line byte) }
{
    match byte {
        b'\n' => line.checked_add(1),
        _ => Some(line),
    }
}

/// Reads once, and again if that is interrupted.
fn read_some<R: Read>(reader: &mut R, buffer: &mut [u8]) -> Result<usize, DumpFault>
    ensures inside { IfOk result (λ count. count ≤ length buffer.new) }
    ensures taken { IfOk result (λ count. Consumes (R.remaining reader.old) (R.remaining reader.new)
        (take count buffer.new)) }
    ensures end { IfOk result (λ count. count ≡ 0 → 0 < length buffer.new
        → IsAtEnd (R.remaining reader.new)) }
    ensures fault { IfErr result IsNoMistake }
{
    for _ in 0..MAX_TRIES {
        match reader.read(buffer) {
            Ok(count) => return Ok(count),
            Err(error) if error.kind() == ErrorKind::Interrupted => {}
            Err(_) => return Err(DumpFault::Read),
        }
    }
    Err(DumpFault::Read)
}

/// The same, over all of a chunk.
fn read_over<R: Read>(reader: &mut R, chunk: &mut Vec<u8>) -> Result<usize, DumpFault>
    ensures len { vec_len chunk.new ≡ vec_len chunk.old }
    ensures inside { IfOk result (λ count. count ≤ vec_len chunk.new) }
    ensures taken { IfOk result (λ count. Consumes (R.remaining reader.old) (R.remaining reader.new)
        (take count chunk.new.items)) }
    ensures end { IfOk result (λ count. count ≡ 0 → 0 < vec_len chunk.new
        → IsAtEnd (R.remaining reader.new)) }
    ensures fault { IfErr result IsNoMistake }
{
    read_some(reader, chunk.as_mut_slice())
}

/// Where a word stands in a chunk: from this place to before that.
#[derive(Debug, Clone, Copy, PartialEq, Eq)]
pub(crate) struct Places {
    pub(crate) from: usize,
    pub(crate) to: usize,
}

/// Reads the words of a text: a reader, the bytes of it that were read, the part of them that is not taken yet, and the
/// line on which that begins; and the word at hand, with the line on which it stands.
#[derive(Drop)]
pub(crate) struct Scanner<R> {
    reader: R,
    chunk: Vec<u8>,
    next: usize,
    filled: usize,
    next_line: u64,
    pub(crate) word: Vec<u8>,
    pub(crate) size: u64,
    pub(crate) line: u64,
    ghost in_order: { next ≤ filled },
    ghost inside: { filled ≤ vec_len chunk },
    ghost room: { vec_len chunk ≡ 65536 },
}

impl<R: Read + Drop> Scanner<R> {
    ghost use Rattle.check_vcd.specs.Words.{AnswersWord, HasWordsOf, IsFront, nothing, with_byte, with_bytes};
    ghost use Rattle.check_vcd.specs.Scanner.{HasMoved, HasSameBytes, TakesWhole, TakesWord, at_hand, front, left, scanner_left, word_at_hand};

    /// The words of what a reader gives.
    pub(crate) fn new(alloc: Global, reader: R) -> Result<Scanner<R>, DumpFault>
        ensures ok { IfOk result (λ scanner. HasWordsOf (R.remaining reader) (left R.remaining scanner nothing)) }
        ensures fault { IfErr result IsNoMistake }
    {
        let mut chunk = Vec::with_capacity(alloc, CHUNK)?;
        chunk.resize(CHUNK, 0)?;
        Ok(Scanner {
            reader,
            chunk,
            next: 0,
            filled: 0,
            next_line: 1,
            word: Vec::new(alloc),
            size: 0,
            line: 1,
        })
    }

    /// Reads more, if nothing is at hand; answers whether there was anything.
    fn refill(&mut self) -> Result<bool, DumpFault>
        requires { at_hand self.old ≡ [] }
        ensures text { OnOk result (Keeps (R.remaining self.old.reader) (scanner_left R.remaining self.new)) }
        ensures end { IfOk result (λ more. more ≡ false
            → (at_hand self.new ≡ []) × IsAtEnd (R.remaining self.new.reader)) }
        ensures line { self.new.next_line ≡ self.old.next_line }
        ensures word { front self.new ≡ front self.old }
        ensures fault { IfErr result IsNoMistake }
    {
        self.next = 0;
        self.filled = 0;
        let count = read_over(&mut self.reader, &mut self.chunk)?;
        self.filled = count;
        Ok(count > 0)
    }

    /// Takes a byte of a word. Of a long word the front is kept.
    #[inline(always)]
    fn push_byte(&mut self, byte: u8) -> Result<(), DumpFault>
        ensures front { OnOk result (front self.new ≡ with_byte (front self.old) byte) }
        ensures same { HasSameBytes self.old self.new }
        ensures line { self.new.next_line ≡ self.old.next_line }
        ensures fault { IfErr result IsNoMistake }
    {
        if self.word.len() < MAX_WORD {
            self.word.push(byte)?;
        }
        self.size = self.size.checked_add(1).ok_or(DumpFault::Read)?;
        Ok(())
    }

    /// Takes a blank; answers whether it ends a word.
    #[inline(always)]
    fn take_blank(&mut self, byte: u8) -> Result<bool, DumpFault>
        ensures ended { IfOk result (λ ended. ended ≡ nat_lt 0 self.old.size) }
        ensures line { OnOk result ((self.new.line ≡ self.old.next_line)
            × (self.new.next_line ≡ line_after self.old.next_line byte)) }
        ensures same { HasSameBytes self.old self.new }
        ensures front { front self.new ≡ front self.old }
        ensures fault { IfErr result IsNoMistake }
    {
        self.line = self.next_line;
        if byte == b'\n' {
            self.next_line = self.next_line.checked_add(1).ok_or(DumpFault::Read)?;
        }
        Ok(self.size > 0)
    }

    /// Takes the next byte at hand; answers whether it ends a word.
    #[inline(always)]
    fn take_byte(&mut self) -> Result<bool, DumpFault>
        requires some { self.old.next < self.old.filled }
        requires front { IsFront (front self.old) }
        ensures ok { IfOk result (TakesWord self.old self.new) }
        ensures moves { HasMoved self.old self.new }
        ensures fault { IfErr result IsNoMistake }
    {
        let byte = self.chunk[self.next];
        self.next += 1;
        if is_blank(byte) {
            self.take_blank(byte)
        } else {
            self.push_byte(byte)?;
            Ok(false)
        }
    }

    /// Takes so many bytes of a word. Of a long word the front is kept.
    #[inline(always)]
    fn push_run(&mut self, count: usize) -> Result<(), DumpFault>
        requires { self.old.next + count ≤ self.old.filled }
        ensures front { OnOk result (front self.new ≡ with_bytes (front self.old) (take count (at_hand self.old))) }
        ensures next { OnOk result (self.new.next ≡ self.old.next + count) }
        ensures reader { self.new.reader ≡ self.old.reader }
        ensures chunk { self.new.chunk ≡ self.old.chunk }
        ensures filled { self.new.filled ≡ self.old.filled }
        ensures line { self.new.next_line ≡ self.old.next_line }
        ensures fault { IfErr result IsNoMistake }
    {
        let kept = count.min(MAX_WORD.saturating_sub(self.word.len()));
        self.word
            .extend_from_slice(&self.chunk[self.next..self.next + kept])?;
        self.size = self.size.checked_add(count as u64).ok_or(DumpFault::Read)?;
        self.next += count;
        Ok(())
    }

    /// Takes the bytes at hand up to the first blank.
    #[inline(always)]
    fn take_run(&mut self) -> Result<(), DumpFault>
        requires { IsFront (front self.old) }
        ensures ok { OnOk result (TakesWord self.old self.new false) }
        ensures next { OnOk result (self.old.next ≤ self.new.next) }
        ensures reader { self.new.reader ≡ self.old.reader }
        ensures filled { self.new.filled ≡ self.old.filled }
        ensures fault { IfErr result IsNoMistake }
    {
        let count = run_length(&self.chunk[self.next..self.filled]);
        self.push_run(count)
    }

    /// Takes the bytes at hand, up to the blank that ends a word; answers whether one did.
    #[inline(always)]
    fn take_bytes(&mut self) -> Result<bool, DumpFault>
        requires { IsFront (front self.old) }
        ensures ok { IfOk result (TakesWord self.old self.new) }
        ensures all { IfOk result (λ ended. ended ≡ false → at_hand self.new ≡ []) }
        ensures reader { self.new.reader ≡ self.old.reader }
        ensures fault { IfErr result IsNoMistake }
    {
        while self.next < self.filled {
            self.take_run()?;
            if self.next < self.filled && self.take_byte()? {
                return Ok(true);
            }
        }
        Ok(false)
    }

    /// The bytes of the chunk at these places.
    #[inline(always)]
    pub(crate) fn bytes_at(&self, places: Places) -> &[u8]
        requires from { places.from ≤ places.to }
        requires inside { places.to ≤ length self.now.chunk.items }
        ensures { result.now ≡ slice_range self.now.chunk.items places.from places.to }
    {
        &self.chunk[places.from..places.to]
    }

    /// Takes the next word, if all of it is at hand, and so is the blank that ends it; answers its places in the chunk.
    /// Nothing changes if it is not.
    #[inline(always)]
    pub(crate) fn take_whole(&mut self) -> Option<Places>
        ensures some { IfSome result (TakesWhole self.old self.new) }
        ensures none { result ≡ None → self.new ≡ self.old }
        ensures reader { self.new.reader ≡ self.old.reader }
    {
        let count = run_length(&self.chunk[self.next..self.filled]);
        let end = self.next + count;
        if count == 0 || end >= self.filled {
            return None;
        }
        let byte = self.chunk[end];
        if !is_blank(byte) {
            return None;
        }
        let line = self.next_line;
        let after = line_behind(line, byte)?;
        let from = self.next;
        self.line = line;
        self.next_line = after;
        self.next = end + 1;
        Some(Places { from, to: end })
    }

    /// Reads the next word; answers whether there was one. A last word that no blank ends is none, since it may be cut.
    #[inline(always)]
    pub(crate) fn read(&mut self) -> Result<bool, DumpFault>
        ensures ok { IfOk result (AnswersWord (left R.remaining self.old nothing) (left R.remaining self.new nothing)
            (word_at_hand self.new)) }
        ensures fault { IfErr result IsNoMistake }
    {
        self.word.clear();
        self.size = 0;
        for _ in 0..u64::MAX {
            if self.take_bytes()? {
                return Ok(true);
            }
            if !self.refill()? {
                return Ok(false);
            }
        }
        Err(DumpFault::Read)
    }
}
