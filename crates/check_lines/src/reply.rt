//! Replies of which bytes may be unknown, as lines spell them.
ghost use Rattle.std.specs.Prelude.{◌≡◌, ◌<◌, ◌≤◌, ◌+◌, ◌*◌, ◌++◌, length, vec_capacity, vec_len, OnErr, OnOk};
ghost use Rattle.tl_text.specs.Text.{BeginsWith};
ghost use Rattle.check_lines.specs.Reply.{cell_text, cells_part, cells_text, flag_text, pattern_text};

use check_cells::{Cells, Pattern};
use std::alloc::AllocError;
use tl_text::{hex_digit, reply_word};

/// Appends a byte in two hexadecimal digits, or `xx` if it is unknown, if there is room for them.
fn push_cell(text: &mut Vec<u8>, cell: Option<u8>)
    requires { vec_len text.old + 2 ≤ vec_capacity text.old }
    ensures items { text.new.items ≡ text.old.items ++ cell_text cell }
    ensures room { vec_capacity text.new ≡ vec_capacity text.old }
{
    match cell {
        Some(byte) => {
            text.push_reserved(hex_digit(byte / 16));
            text.push_reserved(hex_digit(byte % 16));
        }
        None => {
            text.push_reserved(b'x');
            text.push_reserved(b'x');
        }
    }
}

/// Appends bytes, if there is room for two characters of each.
fn push_cells(text: &mut Vec<u8>, cells: &Cells)
    requires { vec_len text.old + 2 * length cells.now ≤ vec_capacity text.old }
    ensures items { text.new.items ≡ text.old.items ++ cells_text cells.now }
    ensures room { vec_capacity text.new ≡ vec_capacity text.old }
{
    for place in 0..cells.len() {
        push_cell(text, cells.get(place));
    }
}

/// Appends a space and the bytes, if there are any. Room for all of them is made first.
#[tactic(auto, using(crate::proofs::Counted::counted))]
fn push_cells_part(text: &mut Vec<u8>, cells: &Cells) -> Result<(), AllocError>
    ensures ok { OnOk result (text.new.items ≡ text.old.items ++ cells_part cells.now) }
    ensures err { OnErr result (BeginsWith text.old.items text.new.items) }
    ensures room { vec_capacity text.old ≤ vec_capacity text.new }
    ensures full { OnErr result (vec_capacity text.old < length text.old.items + length (cells_part cells.now)) }
{
    let count = cells.len();
    if count == 0 {
        return Ok(());
    }
    text.reserve(1 + 2 * count)?;
    text.push_reserved(b' ');
    push_cells(text, cells);
    Ok(())
}

/// The word after a reply's name, if it is known to be denied.
fn flag_word(denied: Option<bool>) -> &'static str
    ensures { result.now ≡ flag_text denied }
{
    match denied {
        Some(true) => " denied",
        Some(false) | None => "",
    }
}

/// Appends a reply, as traces spell one, with `xx` for each unknown byte.
#[tactic(auto, using(tl_text::proofs::TextLemmas::begins))]
pub fn push_pattern(text: &mut Vec<u8>, reply: &Pattern) -> Result<(), AllocError>
    ensures ok { OnOk result (text.new.items ≡ text.old.items ++ pattern_text reply.now) }
    ensures err { OnErr result (BeginsWith text.old.items text.new.items) }
    ensures room { vec_capacity text.old ≤ vec_capacity text.new }
    ensures full { OnErr result (vec_capacity text.old < length text.old.items + length (pattern_text reply.now)) }
{
    text.extend_from_slice(reply_word(reply.op()).as_bytes())?;
    text.extend_from_slice(flag_word(reply.denied()).as_bytes())?;
    push_cells_part(text, reply.cells())
}
