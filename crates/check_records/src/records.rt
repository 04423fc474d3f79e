//! The records of a text, one after the other.
ghost use Rattle.std.specs.Prelude.{◌≡◌, ℕ, [], option_map, None, Some, true, false, Err, IfOk, OnOk, IfErr, IfSome, IfNone};
ghost use Rattle.std.specs.Io.KnownBytes.{Keeps};
ghost use Rattle.csv.specs.Reading.{strip_bom};
ghost use Rattle.csv.specs.Records.{fields_of};
ghost use Rattle.check_records.specs.Bare.{comma_parts, record_row_in};
ghost use Rattle.check_records.specs.Reading.{AnswersRow, StopsLong, row_of_draft};
ghost use Rattle.check_records.specs.Source.{HasFirst, left};

use crate::bare::take_bare;
use crate::draft::Draft;
use crate::fault::RecordFault;
use crate::source::Source;
use csv::ByteRecord;
use std::alloc::Global;
use std::io::Read;
use std::marker::Model;

/// Reads a record whose first byte is at hand.
fn read_begun<R: Read + Drop>(
    source: &mut Source<R>,
    draft: &mut Draft,
) -> Result<bool, RecordFault>
    requires { HasFirst R.remaining source.old true }
    ensures ok { IfOk result (AnswersRow (left R.remaining source.old) (left R.remaining source.new)
        (row_of_draft draft.new)) }
    ensures long { (line : ℕ) → result ≡ Err (RecordFault.TooLong line)
        → StopsLong (left R.remaining source.old) line }
{
    draft.begin(source.line);
    for _ in 0..u64::MAX {
        let fed = draft.feed(source.text())?;
        source.advance(fed.taken, fed.feeds)?;
        if fed.ended {
            return Ok(true);
        }
        if !source.refill()? {
            return draft.finish();
        }
    }
    Err(RecordFault::Read)
}

/// Reads the next record, if there is one.
fn read_next<R: Read + Drop>(source: &mut Source<R>, draft: &mut Draft) -> Result<bool, RecordFault>
    ensures ok { IfOk result (AnswersRow (left R.remaining source.old) (left R.remaining source.new)
        (row_of_draft draft.new)) }
    ensures long { (line : ℕ) → result ≡ Err (RecordFault.TooLong line)
        → StopsLong (left R.remaining source.old) line }
{
    if source.skip_line_ends()? {
        read_begun(source, draft)
    } else {
        Ok(false)
    }
}

/// Reads the next record, if there is one, and leaves it in place if it stands whole in what was read, on a line
/// without quotes.
fn read_in_place<R: Read + Drop>(
    source: &mut Source<R>,
    draft: &mut Draft,
    is_bare: &mut bool,
) -> Result<bool, RecordFault>
    ensures ok { IfOk result (AnswersRow (left R.remaining source.old) (left R.remaining source.new)
        (record_row_in source.new draft.new is_bare.new)) }
    ensures long { (line : ℕ) → result ≡ Err (RecordFault.TooLong line)
        → StopsLong (left R.remaining source.old) line }
{
    *is_bare = false;
    if !source.skip_line_ends()? {
        return Ok(false);
    }
    if take_bare(source, draft)? {
        *is_bare = true;
        return Ok(true);
    }
    read_begun(source, draft)
}

/// Reads the records of a text.
#[derive(Drop)]
pub struct Records<R: Read + Drop> {
    source: Source<R>,
    draft: Draft,
    is_bare: bool,
    fault: Option<RecordFault>,
}

impl<R: Read + Drop> Model for Records<R> {
    ghost use Rattle.check_records.specs.Reading.{Reading};

    ghost Value = { Reading };

    ghost use Rattle.check_records.specs.Bare.{record_row_in};
    ghost use Rattle.check_records.specs.Source.{left};

    ghost view = { λ r. record {
      left = left R.remaining r.source;
      row = record_row_in r.source r.draft r.is_bare;
      is_bare = r.is_bare;
      fault = r.fault;
    } };
}

impl<R: Read + Drop> Records<R> {
    /// The records of what a reader gives. A byte order mark is read and dropped.
    pub fn new(alloc: Global, reader: R) -> Result<Records<R>, RecordFault>
        ensures text { IfOk result (λ records. Keeps (option_map strip_bom (R.remaining reader))
            records.left.text) }
        ensures line { IfOk result (λ records. records.left.line ≡ 1) }
        ensures fault { IfOk result (λ records. records.fault ≡ None) }
        ensures fields { IfOk result (λ records. records.row.fields ≡ []) }
        ensures columns { IfOk result (λ records. records.is_bare ≡ false) }
        ensures kind { (line : ℕ) → result ≡ Err (RecordFault.TooLong line) → ⊥ }
    {
        Ok(Records {
            source: Source::new(alloc, reader)?,
            draft: Draft::new(alloc)?,
            is_bare: false,
            fault: None,
        })
    }

    /// Reads the next record; answers whether there was one. A fault stops the reader: each read after it answers it
    /// again.
    pub fn read(&mut self) -> Result<bool, RecordFault>
        ensures ok { IfOk result (AnswersRow self.old.left self.new.left self.new.row) }
        ensures long { (line : ℕ) → result ≡ Err (RecordFault.TooLong line) → self.old.fault ≡ None
            → StopsLong self.old.left line }
        ensures goes_on { OnOk result ((self.old.fault ≡ None) × (self.new.fault ≡ None)) }
        ensures stops { IfErr result (λ fault. self.new.fault ≡ Some fault) }
        ensures stopped { IfSome self.old.fault (λ fault. result ≡ Err fault) }
        ensures columns { OnOk result (self.new.is_bare ≡ false) }
    {
        if let Some(fault) = self.fault {
            return Err(fault);
        }
        self.is_bare = false;
        let answer = read_next(&mut self.source, &mut self.draft);
        if let Err(fault) = answer {
            self.fault = Some(fault);
        }
        answer
    }

    /// The same, but a record that stands whole in what was read, on a line without quotes, is left there:
    /// [`Records::bare`] has it, and [`Records::columns`] has each other record. It costs less than [`Records::read`].
    pub fn read_in_place(&mut self) -> Result<bool, RecordFault>
        ensures ok { IfOk result (AnswersRow self.old.left self.new.left self.new.row) }
        ensures long { (line : ℕ) → result ≡ Err (RecordFault.TooLong line) → self.old.fault ≡ None
            → StopsLong self.old.left line }
        ensures goes_on { OnOk result ((self.old.fault ≡ None) × (self.new.fault ≡ None)) }
        ensures stops { IfErr result (λ fault. self.new.fault ≡ Some fault) }
        ensures stopped { IfSome self.old.fault (λ fault. result ≡ Err fault) }
    {
        if let Some(fault) = self.fault {
            return Err(fault);
        }
        let answer = read_in_place(&mut self.source, &mut self.draft, &mut self.is_bare);
        if let Err(why) = answer {
            self.fault = Some(why);
        }
        answer
    }

    /// The line on which the last record begins, counted from 1 by line feeds.
    pub fn line(&self) -> u64
        ensures { result ≡ self.now.row.line }
    {
        self.draft.line
    }

    /// The columns of the last record, unless it was left on its line.
    pub fn columns(&self) -> &ByteRecord
        ensures { self.now.is_bare ≡ false → fields_of result.now ≡ self.now.row.fields }
    {
        &self.draft.columns
    }

    /// The line of the last record, if it was left there; commas part its columns.
    pub fn bare(&self) -> Option<&[u8]>
        ensures some { IfSome result (λ line. comma_parts line.now ≡ self.now.row.fields) }
        ensures none { IfNone result (self.now.is_bare ≡ false) }
    {
        if !self.is_bare {
            return None;
        }
        Some(self.source.bare())
    }
}
