//! The columns of a capture.
ghost use Rattle.std.specs.Prelude.{◌≡◌, ◌≢◌, ◌==◌, ◌≤◌, ◌<◌, ℕ, [], ◌∷◌, true, false, drop, length, map, get_or, IfSome, IfNone};
ghost use Rattle.csv.specs.Records.{fields_of};
ghost use Rattle.check_rows.specs.Column.{column, header, is_cut, name_of_column, column_parts, place_of_column, column_words};

use csv::ByteRecord;

/// How many columns a row has.
pub const COLUMNS: usize = 12;

/// The one word of the record that stands where a fault cut a capture short.
const CUT: &[u8] = b"fault";

/// A column of a capture, in the order of the header.
#[derive(Debug, Clone, Copy, PartialEq, Eq)]
pub enum Column {
    Time,
    Link,
    Channel,
    Opcode,
    Param,
    Size,
    Source,
    Address,
    Mask,
    Data,
    Denied,
    Corrupt,
}

impl Column {
    /// Its place in a row, counted from 0.
    fn place(self) -> usize
        ensures value { result ≡ place_of_column self }
        ensures inside { result < COLUMNS }
    {
        match self {
            Column::Time => 0,
            Column::Link => 1,
            Column::Channel => 2,
            Column::Opcode => 3,
            Column::Param => 4,
            Column::Size => 5,
            Column::Source => 6,
            Column::Address => 7,
            Column::Mask => 8,
            Column::Data => 9,
            Column::Denied => 10,
            Column::Corrupt => 11,
        }
    }

    /// What stands in it in a row of these columns.
    pub(crate) fn of<'a>(self, columns: &Columns<'a>) -> &'a [u8]
        ensures value { result.now ≡ column (column_words columns.now) self }
        ensures count { length (column_words columns.now) ≡ COLUMNS }
    {
        columns.words[self.place()]
    }
}

/// What stands in the columns of a row.
#[derive(Clone, Copy)]
pub(crate) struct Columns<'a> {
    words: [&'a [u8]; COLUMNS],
}

impl<'a> Columns<'a> {
    /// What stands in the columns after those of the time and of the link.
    pub(crate) fn after_link(&self) -> &[&'a [u8]]
        ensures { map (λ word. word.now) result.now ≡ drop 2 (column_words self.now) }
    {
        &self.words[2..]
    }
}

/// What stands in the columns of a record, if it has as many as a row.
pub(crate) fn columns_of(found: &ByteRecord) -> Option<Columns<'_>>
    ensures some { IfSome result (λ columns. column_words columns ≡ fields_of found.now) }
    ensures none { IfNone result (length (fields_of found.now) ≢ COLUMNS) }
{
    if found.len() != COLUMNS {
        return None;
    }
    let mut words: [&[u8]; COLUMNS] = [b""; COLUMNS];
    for place in 0..COLUMNS {
        words[place] = found.get(place).unwrap_or(b"");
    }
    Some(Columns { words })
}

/// How many bytes stand before the first comma of a text; all of them, if it has none.
#[inline(always)]
fn part_length(text: &[u8]) -> usize
    ensures inside { result ≤ length text.now }
    ensures plain { (place : ℕ) → place < result → (get_or text.now place 0 == 44) ≡ false }
    ensures ends { result < length text.now → (get_or text.now result 0 == 44) ≡ true }
{
    for (count, byte) in text.iter().enumerate() {
        if *byte == b',' {
            return count;
        }
    }
    text.len()
}

/// What stands before the first comma of a text, and what after it, if it has one.
#[inline(always)]
fn cut_part(text: &[u8]) -> Option<(&[u8], &[u8])>
    ensures some { IfSome result (λ cut. column_parts text.now ≡ cut.0.now ∷ column_parts cut.1.now) }
    ensures none { IfNone result (column_parts text.now ≡ text.now ∷ []) }
{
    let length = part_length(text);
    if length == text.len() {
        return None;
    }
    Some((&text[..length], &text[length + 1..]))
}

/// What stands between the commas of a line, if it has as many columns as a row.
// a function of its own, so that its loops have the registers for themselves
#[inline(never)]
pub(crate) fn cut_line(line: &[u8]) -> Option<Columns<'_>>
    ensures some { IfSome result (λ columns. column_words columns ≡ column_parts line.now) }
    ensures none { IfNone result (length (column_parts line.now) ≢ COLUMNS) }
{
    let mut words = [line; COLUMNS];
    let mut rest = line;
    for place in 0..COLUMNS - 1 {
        let (part, behind) = cut_part(rest)?;
        words[place] = part;
        rest = behind;
    }
    match cut_part(rest) {
        Some(_) => None,
        None => {
            words[COLUMNS - 1] = rest;
            Some(Columns { words })
        }
    }
}

/// Whether a line stands where a fault cut the capture short.
pub(crate) fn is_cut_line(line: &[u8]) -> bool
    ensures { result ≡ is_cut (column_parts line.now) }
{
    match cut_part(line) {
        Some(_) => false,
        None => line == CUT,
    }
}

/// The same of a record.
pub(crate) fn is_cut_record(found: &ByteRecord) -> bool
    ensures { result ≡ is_cut (fields_of found.now) }
{
    found.len() == 1 && found.get(0) == Some(CUT)
}

/// The name of the column at a place, counted from 0.
pub fn column_name(place: usize) -> &'static str
    requires { place < COLUMNS }
    ensures { result.now ≡ get_or header place [] }
{
    match place {
        0 => "time",
        1 => "link",
        2 => "channel",
        3 => "opcode",
        4 => "param",
        5 => "size",
        6 => "source",
        7 => "address",
        8 => "mask",
        9 => "data",
        10 => "denied",
        _ => "corrupt",
    }
}
