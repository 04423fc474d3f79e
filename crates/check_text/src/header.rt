//! The header of a capture.
ghost use Rattle.std.specs.Prelude.{◌≡◌, ◌<◌, ◌↔◌, [], IsTrue, Some, get_or};
ghost use Rattle.csv.specs.Records.{field_at, fields_of};
ghost use Rattle.check_rows.specs.Column.{header};

use check_rows::{COLUMNS, column_name};
use csv::ByteRecord;

/// Whether a record has this word as its column of this number.
fn has(columns: &ByteRecord, place: usize, word: &str) -> bool
    ensures { IsTrue result ↔ (field_at (fields_of columns.now) place ≡ Some word.now) }
{
    columns.get(place) == Some(word.as_bytes())
}

/// Whether a record is the header.
pub fn is_header(columns: &ByteRecord) -> bool
    ensures { IsTrue result ↔ (fields_of columns.now ≡ header) }
{
    for place in 0..COLUMNS {
        if !has(columns, place, column_name(place)) {
            return false;
        }
    }
    columns.len() == COLUMNS
}
