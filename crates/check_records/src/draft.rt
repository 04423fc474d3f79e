//! A record while it is read.
ghost use Rattle.std.specs.Prelude.{◌≡◌, ◌↔◌, ◌≤◌, ◌<◌, ◌++◌, ◌∷◌, [], List, ℕ, false, true, length, take, get_or, Err, Ok, IfOk, OnOk};
ghost use Rattle.csv.specs.Machine.{is_end, ends_at_end};
ghost use Rattle.csv.specs.Records.{fields_of, partial_of};
ghost use Rattle.csv.specs.declared.parser.State.TheVariants as st;
ghost use Rattle.check_records.specs.Draft.{BeginsField, FeedsTo, IsDraft, TakesByte, action_at, full_size, partial};
ghost use Rattle.check_records.specs.Machine.{ends_field, state_of};
ghost use Rattle.check_records.specs.Text.{line_feeds};

use crate::fault::RecordFault;
use crate::machine::{Action, State, begins_field, ends_field, step};
use arrayvec::ArrayVec;
use csv::ByteRecord;
use std::alloc::Global;

/// The most bytes of a record: from its first to before the one that ends it. Quotes and commas count.
pub const MAX_ROW: usize = 4096;

/// The most fields of a record of that many bytes, all of which are commas.
const MAX_FIELDS: usize = MAX_ROW + 1;

/// A record while it is read: the line on which it begins, where the machine stands in it, the fields that have ended,
/// the bytes of the field at hand, and how many bytes it has so far.
#[derive(Drop)]
pub(crate) struct Draft {
    pub(crate) line: u64,
    state: State,
    pub(crate) columns: ByteRecord,
    field: ArrayVec<u8, MAX_ROW>,
    size: usize,
}

/// What a record takes of a text.
#[derive(Debug, Clone, Copy, PartialEq, Eq)]
pub(crate) struct Fed {
    /// How many bytes, from the front.
    pub(crate) taken: usize,
    /// How many of those are line feeds.
    pub(crate) feeds: usize,
    /// Whether the last of them ended the record.
    pub(crate) ended: bool,
}

/// How many bytes stand before the first that ends a field; all of them, if none does.
#[inline(always)]
fn field_length(text: &[u8]) -> usize
    ensures inside { result ≤ length text.now }
    ensures plain { (place : ℕ) → place < result → ends_field (get_or text.now place 0) ≡ false }
    ensures ends { result < length text.now → ends_field (get_or text.now result 0) ≡ true }
{
    for (count, byte) in text.iter().enumerate() {
        if ends_field(*byte) {
            return count;
        }
    }
    text.len()
}

impl Draft {
    /// A record with room for all that one may have.
    pub(crate) fn new(alloc: Global) -> Result<Draft, RecordFault>
        ensures fields { IfOk result (λ draft. fields_of draft.columns ≡ []) }
        ensures fault { (line : ℕ) → result ≡ Err (RecordFault.TooLong line) → ⊥ }
    {
        Ok(Draft {
            line: 1,
            state: State::StartRecord,
            columns: ByteRecord::with_capacity(alloc, MAX_ROW, MAX_FIELDS)?,
            field: ArrayVec::new(),
            size: 0,
        })
    }

    /// Begins the record of this line.
    pub(crate) fn begin(&mut self, line: u64)
        ensures line { self.new.line ≡ line }
        ensures blank { partial self.new ≡ record { state = st.StartRecord; fields = []; field = []; size = 0 } }
        ensures draft { IsDraft self.new }
    {
        self.line = line;
        self.state = State::StartRecord;
        self.columns.clear();
        self.field.clear();
        self.size = 0;
    }

    /// Ends the field at hand.
    fn end_field(&mut self) -> Result<(), RecordFault>
        requires { partial_of self.old.columns ≡ [] }
        ensures fields { OnOk result (fields_of self.new.columns
            ≡ fields_of self.old.columns ++ (self.old.field.items ∷ [])) }
        ensures whole { OnOk result (partial_of self.new.columns ≡ []) }
        ensures field { OnOk result (self.new.field.items ≡ []) }
        ensures others { (self.new.line ≡ self.old.line) × (self.new.state ≡ self.old.state)
            × (self.new.size ≡ self.old.size) }
        ensures memory { (line : ℕ) → result ≡ Err (RecordFault.TooLong line) → ⊥ }
    {
        self.columns.push_field(self.field.as_slice())?;
        self.field.clear();
        Ok(())
    }

    /// Whether the first byte of a text begins a field.
    fn begins_field(&self, text: &[u8]) -> bool
        ensures { result ≡ true ↔ BeginsField (partial self.now) text.now }
    {
        match text {
            [first, ..] if self.field.is_empty() => begins_field(self.state, *first),
            _ => false,
        }
    }

    /// Takes a byte, and answers whether it ends the record.
    #[inline(always)]
    fn take_byte(&mut self, byte: u8) -> Result<bool, RecordFault>
        requires { IsDraft self.old }
        ensures ok { IfOk result (TakesByte self.old byte self.new) }
        ensures line { self.new.line ≡ self.old.line }
        ensures long { (line : ℕ) → result ≡ Err (RecordFault.TooLong line) → (line ≡ self.old.line)
            × (is_end (action_at (partial self.old) byte) ≡ false) × (MAX_ROW ≤ self.old.size) }
    {
        let (state, action) = step(self.state, byte);
        self.state = state;
        if action == Action::EndRecord {
            self.end_field()?;
            return Ok(true);
        }
        if self.size >= MAX_ROW {
            return Err(RecordFault::TooLong(self.line));
        }
        self.size += 1;
        match action {
            Action::Copy => self.field.push(byte),
            Action::EndField => self.end_field()?,
            Action::Skip | Action::EndRecord => {}
        }
        Ok(false)
    }

    /// Takes whole fields from the front of a text whose first byte begins one, each at once. It stops before a field
    /// that begins with a quote, that does not end in the text, or for which there may be no room.
    fn feed_fields(&mut self, text: &[u8]) -> Result<Fed, RecordFault>
        requires draft { IsDraft self.old }
        requires field { BeginsField (partial self.old) text.now }
        ensures ok { IfOk result (λ fed. FeedsTo self.old (take fed.taken text.now) self.new fed fed.ended) }
        ensures taken { IfOk result (λ fed. fed.taken ≤ length text.now) }
        ensures feeds { IfOk result (λ fed. fed.feeds ≡ line_feeds (take fed.taken text.now)) }
        ensures line { self.new.line ≡ self.old.line }
        ensures memory { (line : ℕ) → result ≡ Err (RecordFault.TooLong line) → ⊥ }
    {
        let most = text.len().min(MAX_ROW - self.size);
        let mut start = 0;
        while start < text.len() {
            let end = start + field_length(&text[start..]);
            if end >= most || text[start] == b'"' {
                break;
            }
            self.columns.push_field(&text[start..end])?;
            if text[end] != b',' {
                return Ok(Fed {
                    taken: end + 1,
                    feeds: usize::from(text[end] == b'\n'),
                    ended: true,
                });
            }
            start = end + 1;
        }
        if start > 0 {
            self.state = State::StartField;
            self.size += start;
        }
        Ok(Fed {
            taken: start,
            feeds: 0,
            ended: false,
        })
    }

    /// Takes a text byte by byte, up to the byte that ends the record.
    fn feed_bytes(&mut self, text: &[u8]) -> Result<Fed, RecordFault>
        requires { IsDraft self.old }
        ensures ok { IfOk result (λ fed. FeedsTo self.old text.now self.new fed fed.ended) }
        ensures taken { IfOk result (λ fed. fed.taken ≤ length text.now) }
        ensures feeds { IfOk result (λ fed. fed.feeds ≡ line_feeds (take fed.taken text.now)) }
        ensures line { self.new.line ≡ self.old.line }
        ensures long { (line : ℕ) → result ≡ Err (RecordFault.TooLong line) → (line ≡ self.old.line)
            × ((rest : List ℕ) → MAX_ROW < full_size (partial self.old) (text.now ++ rest)) }
    {
        let mut feeds = 0;
        for (i, byte) in text.iter().enumerate() {
            if *byte == b'\n' {
                feeds += 1;
            }
            if self.take_byte(*byte)? {
                return Ok(Fed {
                    taken: i + 1,
                    feeds,
                    ended: true,
                });
            }
        }
        Ok(Fed {
            taken: text.len(),
            feeds,
            ended: false,
        })
    }

    /// Takes a text, up to the byte that ends the record. A record that gets too long is a fault at the byte that makes
    /// it so.
    pub(crate) fn feed(&mut self, text: &[u8]) -> Result<Fed, RecordFault>
        requires { IsDraft self.old }
        ensures ok { IfOk result (λ fed. FeedsTo self.old text.now self.new fed fed.ended) }
        ensures taken { IfOk result (λ fed. fed.taken ≤ length text.now) }
        ensures feeds { IfOk result (λ fed. fed.feeds ≡ line_feeds (take fed.taken text.now)) }
        ensures line { self.new.line ≡ self.old.line }
        ensures long { (line : ℕ) → result ≡ Err (RecordFault.TooLong line) → (line ≡ self.old.line)
            × ((rest : List ℕ) → MAX_ROW < full_size (partial self.old) (text.now ++ rest)) }
    {
        if !self.begins_field(text) {
            return self.feed_bytes(text);
        }
        let fields = self.feed_fields(text)?;
        if fields.ended {
            return Ok(fields);
        }
        let rest = self.feed_bytes(&text[fields.taken..])?;
        Ok(Fed {
            taken: fields.taken + rest.taken,
            feeds: fields.feeds + rest.feeds,
            ended: rest.ended,
        })
    }

    /// Takes the end of the text, and answers whether it ends a record.
    pub(crate) fn finish(&mut self) -> Result<bool, RecordFault>
        requires { IsDraft self.old }
        ensures ends { IfOk result (λ ends. ends ≡ ends_at_end (state_of self.old.state)) }
        ensures fields { result ≡ Ok true → fields_of self.new.columns
            ≡ fields_of self.old.columns ++ (self.old.field.items ∷ []) }
        ensures line { self.new.line ≡ self.old.line }
        ensures memory { (line : ℕ) → result ≡ Err (RecordFault.TooLong line) → ⊥ }
    {
        match self.state {
            State::StartRecord | State::AfterCr => Ok(false),
            _ => {
                self.end_field()?;
                Ok(true)
            }
        }
    }
}
