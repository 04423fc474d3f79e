//! A record that stands on a line without quotes.
ghost use Rattle.std.specs.Prelude.{◌≡◌, ℕ, Err, Ok, false, true, ◌<◌, length, IfSome};
ghost use Rattle.check_records.specs.Bare.{IsBareLine, record_row_in};
ghost use Rattle.check_records.specs.Source.{Between, HasFirst, left};
ghost use Rattle.check_records.specs.Text.{GivesRecord};

use crate::draft::{Draft, MAX_ROW};
use crate::fault::RecordFault;
use crate::source::Source;
use memchr::memchr3;
use std::io::Read;

/// The length of the line that a text begins with, if it ends in the text, has no quote, and is no longer than a record
/// may be.
fn bare_length(text: &[u8]) -> Option<usize>
    ensures { IfSome result (IsBareLine text.now) }
{
    let most = text.len().min(MAX_ROW + 1);
    let length = memchr3(b'\n', b'\r', b'"', &text[..most])?;
    if text[length] == b'"' {
        return None;
    }
    Some(length)
}

/// Takes a record whose first byte is at hand, if it stands whole there, on a line without quotes; answers whether it
/// does. Nothing is changed if it does not.
pub(crate) fn take_bare<R: Read + Drop>(
    source: &mut Source<R>,
    draft: &mut Draft,
) -> Result<bool, RecordFault>
    requires { HasFirst R.remaining source.old true }
    ensures yes { result ≡ Ok true → Between (left R.remaining source.old) (left R.remaining source.new)
        (λ from to. GivesRecord from (record_row_in source.new draft.new true) to) }
    ensures no { result ≡ Ok false → source.new ≡ source.old }
    ensures fault { (line : ℕ) → result ≡ Err (RecordFault.TooLong line) → ⊥ }
{
    let text = source.text();
    let Some(length) = bare_length(text) else {
        return Ok(false);
    };
    let feeds = usize::from(text[length] == b'\n');
    draft.line = source.line;
    source.note_bare(length);
    source.advance(length + 1, feeds)?;
    Ok(true)
}
