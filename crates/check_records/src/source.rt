//! The text that is left to be read: a reader, and what it gave beyond what was taken.
ghost use Rattle.std.specs.Prelude.{◌≡◌, ℕ, Err, true, ◌≤◌, ◌<◌, ◌+◌, [], length, take, drop, get_or, false, option_map, vec_len, IfOk, OnOk, OnErr};
ghost use Rattle.std.specs.List.{AllPass};
ghost use Rattle.std.specs.Io.KnownBytes.{Consumes, IsAtEnd, Keeps};
ghost use Rattle.csv.specs.Reading.{strip_bom};
ghost use Rattle.check_records.specs.Text.{is_line_end, line_feeds};

use crate::fault::RecordFault;
use std::alloc::Global;
use std::io::{ErrorKind, Read};

/// How many bytes one read asks for.
const CHUNK: usize = 65_536;

/// How many times in a row a read is made that is interrupted.
const MAX_TRIES: u32 = 1_048_576;

/// The bytes of the byte order mark.
const MARK: [u8; 3] = [0xef, 0xbb, 0xbf];

/// A reader, the bytes of it that were read, the part of them that is not taken yet, and the line on which that begins.
#[derive(Drop)]
pub(crate) struct Source<R> {
    reader: R,
    chunk: Vec<u8>,
    next: usize,
    filled: usize,
    pub(crate) line: u64,
    /// Where the last line without quotes stands that was taken whole, and where it ends.
    bare_start: usize,
    bare_end: usize,
    ghost in_order: { next ≤ filled },
    ghost inside: { filled ≤ vec_len chunk },
    ghost room: { vec_len chunk ≡ 65536 },
    ghost bare_in_order: { bare_start ≤ bare_end },
    ghost bare_inside: { bare_end ≤ 65536 },
}

/// What a text begins with.
#[derive(Debug, Clone, Copy, PartialEq, Eq)]
struct LineEnds {
    /// How many bytes end lines.
    count: usize,
    /// How many of those are line feeds.
    feeds: usize,
}

/// The ends of lines that a text begins with.
fn count_line_ends(text: &[u8]) -> LineEnds
    ensures inside { result.count ≤ length text.now }
    ensures all { AllPass is_line_end (take result.count text.now) }
    ensures stops { result.count < length text.now → is_line_end (get_or text.now result.count 0) ≡ false }
    ensures feeds { result.feeds ≡ line_feeds (take result.count text.now) }
{
    let mut feeds = 0;
    for (count, byte) in text.iter().enumerate() {
        match *byte {
            b'\n' => feeds += 1,
            b'\r' => {}
            _ => return LineEnds { count, feeds },
        }
    }
    LineEnds {
        count: text.len(),
        feeds,
    }
}

/// Reads once, and again if that is interrupted.
fn read_some<R: Read>(reader: &mut R, buffer: &mut [u8]) -> Result<usize, RecordFault>
    ensures inside { IfOk result (λ count. count ≤ length buffer.new) }
    ensures taken { IfOk result (λ count. Consumes (R.remaining reader.old) (R.remaining reader.new)
        (take count buffer.new)) }
    ensures end { IfOk result (λ count. count ≡ 0 → 0 < length buffer.new
        → IsAtEnd (R.remaining reader.new)) }
    ensures fault { (line : ℕ) → result ≡ Err (RecordFault.TooLong line) → ⊥ }
{
    for _ in 0..MAX_TRIES {
        match reader.read(buffer) {
            Ok(count) => return Ok(count),
            Err(error) if error.kind() == ErrorKind::Interrupted => {}
            Err(_) => return Err(RecordFault::Read),
        }
    }
    Err(RecordFault::Read)
}

/// The same, over all of a chunk.
fn read_over<R: Read>(reader: &mut R, chunk: &mut Vec<u8>) -> Result<usize, RecordFault>
    ensures len { vec_len chunk.new ≡ vec_len chunk.old }
    ensures inside { IfOk result (λ count. count ≤ vec_len chunk.new) }
    ensures taken { IfOk result (λ count. Consumes (R.remaining reader.old) (R.remaining reader.new)
        (take count chunk.new.items)) }
    ensures end { IfOk result (λ count. count ≡ 0 → 0 < vec_len chunk.new
        → IsAtEnd (R.remaining reader.new)) }
    ensures fault { (line : ℕ) → result ≡ Err (RecordFault.TooLong line) → ⊥ }
{
    read_some(reader, chunk.as_mut_slice())
}

impl<R: Read + Drop> Source<R> {
    ghost use Rattle.check_records.specs.Source.{Between, HasFirst, HasSameNext, at_hand, bare_of, left, text_left};

    /// A reader of which nothing was read.
    fn unread(alloc: Global, reader: R) -> Result<Source<R>, RecordFault>
        ensures parts { IfOk result (λ source. (source.reader ≡ reader) × (source.next ≡ 0) × (source.filled ≡ 0)
            × (source.line ≡ 1)) }
        ensures fault { (line : ℕ) → result ≡ Err (RecordFault.TooLong line) → ⊥ }
    {
        let mut chunk = Vec::with_capacity(alloc, CHUNK)?;
        chunk.resize(CHUNK, 0)?;
        Ok(Source {
            reader,
            chunk,
            next: 0,
            filled: 0,
            line: 1,
            bare_start: 0,
            bare_end: 0,
        })
    }

    /// The text of a reader, without a byte order mark.
    pub(crate) fn new(alloc: Global, reader: R) -> Result<Source<R>, RecordFault>
        ensures line { IfOk result (λ source. source.line ≡ 1) }
        ensures text { IfOk result (λ source. Keeps (option_map strip_bom (R.remaining reader))
            (text_left R.remaining source)) }
        ensures fault { (line : ℕ) → result ≡ Err (RecordFault.TooLong line) → ⊥ }
    {
        let mut source = Source::unread(alloc, reader)?;
        source.skip_mark()?;
        Ok(source)
    }

    /// The bytes at hand.
    pub(crate) fn text(&self) -> &[u8]
        ensures { result.now ≡ at_hand self.now }
    {
        let all = self.chunk.as_slice();
        &all[self.next..self.filled]
    }

    /// The last line without quotes that was taken whole, without what ended it.
    pub(crate) fn bare(&self) -> &[u8]
        ensures { result.now ≡ bare_of self.now }
    {
        let all = self.chunk.as_slice();
        &all[self.bare_start..self.bare_end]
    }

    /// Notes that so many of the bytes at hand are a line without quotes.
    pub(crate) fn note_bare(&mut self, count: usize)
        requires { count ≤ length (at_hand self.old) }
        ensures bare { bare_of self.new ≡ take count (at_hand self.old) }
        ensures text { at_hand self.new ≡ at_hand self.old }
        ensures line { self.new.line ≡ self.old.line }
        ensures reader { self.new.reader ≡ self.old.reader }
    {
        self.bare_start = self.next;
        self.bare_end = self.next + count;
    }

    /// Takes so many of the bytes at hand, of which so many are line feeds. There is no line 2^64.
    pub(crate) fn advance(&mut self, count: usize, feeds: usize) -> Result<(), RecordFault>
        requires { count ≤ length (at_hand self.old) }
        ensures text { OnOk result (at_hand self.new ≡ drop count (at_hand self.old)) }
        ensures line { OnOk result (self.new.line ≡ self.old.line + feeds) }
        ensures reader { self.new.reader ≡ self.old.reader }
        ensures bare { bare_of self.new ≡ bare_of self.old }
        ensures fault { (line : ℕ) → result ≡ Err (RecordFault.TooLong line) → ⊥ }
    {
        let line = self
            .line
            .checked_add(feeds as u64)
            .ok_or(RecordFault::Read)?;
        self.line = line;
        self.next += count;
        Ok(())
    }

    /// Reads more, if nothing is at hand; answers whether there was anything.
    pub(crate) fn refill(&mut self) -> Result<bool, RecordFault>
        requires { at_hand self.old ≡ [] }
        ensures text { OnOk result (Keeps (R.remaining self.old.reader) (text_left R.remaining self.new)) }
        ensures end { IfOk result (λ more. more ≡ false
            → (at_hand self.new ≡ []) × IsAtEnd (R.remaining self.new.reader)) }
        ensures line { self.new.line ≡ self.old.line }
        ensures fault { (line : ℕ) → result ≡ Err (RecordFault.TooLong line) → ⊥ }
    {
        self.next = 0;
        self.filled = 0;
        let count = read_over(&mut self.reader, &mut self.chunk)?;
        self.filled = count;
        Ok(count > 0)
    }

    /// Reads one byte after those at the front of the chunk; answers whether there was one.
    fn read_byte(&mut self) -> Result<bool, RecordFault>
        requires front { self.old.next ≡ 0 }
        requires room { self.old.filled < 3 }
        ensures front { self.new.next ≡ 0 }
        ensures few { self.new.filled ≤ 3 }
        ensures text { OnOk result (Keeps (text_left R.remaining self.old) (text_left R.remaining self.new)) }
        ensures more { IfOk result (λ more. more ≡ true → self.new.filled ≡ self.old.filled + 1) }
        ensures end { IfOk result (λ more. more ≡ false → (self.new.filled ≡ self.old.filled)
            × IsAtEnd (R.remaining self.new.reader)) }
        ensures line { self.new.line ≡ self.old.line }
        ensures fault { (line : ℕ) → result ≡ Err (RecordFault.TooLong line) → ⊥ }
    {
        let mut one = [0u8];
        if read_some(&mut self.reader, &mut one)? == 0 {
            return Ok(false);
        }
        self.chunk[self.filled] = one[0];
        self.filled += 1;
        Ok(true)
    }

    /// Reads as many bytes as the byte order mark has, or all there are.
    fn read_front(&mut self) -> Result<(), RecordFault>
        requires front { self.old.next ≡ 0 }
        requires room { self.old.filled ≡ 0 }
        ensures front { self.new.next ≡ 0 }
        ensures text { OnOk result (Keeps (text_left R.remaining self.old) (text_left R.remaining self.new)) }
        ensures few { self.new.filled ≤ 3 }
        ensures end { OnOk result (self.new.filled < 3 → IsAtEnd (R.remaining self.new.reader)) }
        ensures line { self.new.line ≡ self.old.line }
        ensures fault { (line : ℕ) → result ≡ Err (RecordFault.TooLong line) → ⊥ }
    {
        while self.filled < MARK.len() {
            if !self.read_byte()? {
                return Ok(());
            }
        }
        Ok(())
    }

    /// Drops a byte order mark at the start of a text of which nothing was read.
    fn skip_mark(&mut self) -> Result<(), RecordFault>
        requires front { self.old.next ≡ 0 }
        requires unread { self.old.filled ≡ 0 }
        ensures text { OnOk result (Keeps (option_map strip_bom (R.remaining self.old.reader))
            (text_left R.remaining self.new)) }
        ensures line { self.new.line ≡ self.old.line }
        ensures fault { (line : ℕ) → result ≡ Err (RecordFault.TooLong line) → ⊥ }
    {
        self.read_front()?;
        if self.text() == MARK.as_slice() {
            self.next = MARK.len();
        }
        Ok(())
    }

    /// Goes on to the first byte of the next record; answers whether there is one.
    pub(crate) fn skip_line_ends(&mut self) -> Result<bool, RecordFault>
        ensures skips { OnOk result (Between (left R.remaining self.old) (left R.remaining self.new) HasSameNext) }
        ensures first { IfOk result (HasFirst R.remaining self.new) }
        ensures fault { (line : ℕ) → result ≡ Err (RecordFault.TooLong line) → ⊥ }
    {
        for _ in 0..u64::MAX {
            let ends = count_line_ends(self.text());
            self.advance(ends.count, ends.feeds)?;
            if !self.text().is_empty() {
                return Ok(true);
            }
            if !self.refill()? {
                return Ok(false);
            }
        }
        Err(RecordFault::Read)
    }
}
