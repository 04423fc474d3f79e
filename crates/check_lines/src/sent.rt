//! Requests as they crossed, as lines spell them.
ghost use Rattle.std.specs.Prelude.{◌≡◌, ◌<◌, ◌≤◌, ◌+◌, ◌*◌, ◌++◌, flat_map, length, vec_capacity, vec_len, OnErr, OnOk};
ghost use Rattle.std.specs.List.{range_with_len};
ghost use Rattle.tl_text.specs.Text.{BeginsWith};
ghost use Rattle.check_lines.specs.Sent.{corrupt_text, sent_byte_text, sent_text, spoiled_text};

use check_cells::Sent;
use std::alloc::AllocError;
use tl_script::{push_ask, push_target};
use tl_text::{hex_digit, word};

/// Appends a byte of a request in two characters, if there is room for them.
fn push_byte(text: &mut Vec<u8>, mark: bool, byte: Option<u8>)
    requires { vec_len text.old + 2 ≤ vec_capacity text.old }
    ensures items { text.new.items ≡ text.old.items ++ spoiled_text mark byte }
    ensures room { vec_capacity text.new ≡ vec_capacity text.old }
{
    let (high, low) = match (mark, byte) {
        (_, None) => (b'-', b'-'),
        (true, Some(_)) => (b'x', b'x'),
        (false, Some(byte)) => (hex_digit(byte / 16), hex_digit(byte % 16)),
    };
    text.push_reserved(high);
    text.push_reserved(low);
}

/// Appends the bytes of a request, if there is room for two characters of each.
fn push_bytes(text: &mut Vec<u8>, sent: &Sent)
    requires { vec_len text.old + 2 * length sent.now.ask.bytes ≤ vec_capacity text.old }
    ensures items { text.new.items
        ≡ text.old.items ++ flat_map (sent_byte_text sent.now) (range_with_len 0 (length sent.now.ask.bytes)) }
    ensures room { vec_capacity text.new ≡ vec_capacity text.old }
{
    let bytes = sent.ask().bytes();
    for place in 0..bytes.len() {
        push_byte(text, sent.marks().get(place), bytes.get(place));
    }
}

/// Appends a corrupt request.
// apart, since few requests are corrupt
#[inline(never)]
#[tactic(auto, using(tl_text::proofs::TextLemmas::begins))]
fn push_corrupt(text: &mut Vec<u8>, sent: &Sent) -> Result<(), AllocError>
    ensures ok { OnOk result (text.new.items ≡ text.old.items ++ corrupt_text sent.now) }
    ensures err { OnErr result (BeginsWith text.old.items text.new.items) }
{
    let ask = sent.ask();
    push_target(text, word(ask.op()), ask.address(), ask.size())?;
    text.reserve(1 + 2 * ask.bytes().len())?;
    text.push_reserved(b' ');
    push_bytes(text, sent);
    Ok(())
}

/// Appends a request as it crossed, as lines spell it.
#[tactic(auto, using(tl_text::proofs::TextLemmas::begins))]
pub fn push_sent(text: &mut Vec<u8>, sent: &Sent) -> Result<(), AllocError>
    ensures ok { OnOk result (text.new.items ≡ text.old.items ++ sent_text sent.now) }
    ensures err { OnErr result (BeginsWith text.old.items text.new.items) }
{
    if sent.is_corrupt() {
        push_corrupt(text, sent)
    } else {
        push_ask(text, sent.ask())
    }
}
