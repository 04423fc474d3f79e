//! The lines of traces.
ghost use Rattle.std.specs.Prelude.{◌≡◌, ◌<◌, ◌≤◌, ◌+◌, ◌*◌, ◌++◌, length, vec_capacity, vec_len, IfOk, OnErr, OnOk, map, Some};
ghost use Rattle.std.specs.Fmt.{digit_glyph};
ghost use Rattle.tl_script.specs.Data.{byte_text, data_text};
ghost use Rattle.tl_script.specs.Trace.{ask_text, bytes_part, denied_text, lines_of, message_text, origin_text, place_text, reply_text, target_text, trace_line, trace_text};
ghost use Rattle.tl_text.specs.Text.{BeginsWith};

use std::alloc::{AllocError, Global};
use tl_journal::{Trace, blank_entry};
use tl_text::{hex_digit, push_field, push_hex, reply_word, word};
use tl_types::{Ask, Bytes, Memory, Reply};

/// Appends a byte as two hexadecimal digits, or an unset one as dashes.
#[tactic(auto, using(tl_text::proofs::TextLemmas::begins))]
fn push_byte(text: &mut Vec<u8>, byte: Option<u8>) -> Result<(), AllocError>
    ensures ok { OnOk result (text.new.items ≡ text.old.items ++ byte_text byte) }
    ensures err { OnErr result (BeginsWith text.old.items text.new.items) }
{
    let digits = match byte {
        Some(byte) => [hex_digit(byte / 16), hex_digit(byte % 16)],
        None => [b'-', b'-'],
    };
    text.extend_from_slice(&digits)
}

/// A space and the bytes of a request, if it carries any.
#[tactic(auto, using(tl_text::proofs::TextLemmas::begins))]
fn push_data(text: &mut Vec<u8>, bytes: &Bytes) -> Result<(), AllocError>
    ensures ok { OnOk result (text.new.items ≡ text.old.items ++ bytes_part bytes.now) }
    ensures err { OnErr result (BeginsWith text.old.items text.new.items) }
{
    if bytes.is_empty() {
        return Ok(());
    }
    text.push(b' ')?;
    for place in 0..bytes.len() {
        push_byte(text, bytes.get(place))?;
    }
    Ok(())
}

/// Appends bytes that are all given, if there is room for two digits of each.
fn push_given(text: &mut Vec<u8>, bytes: &[u8])
    requires { vec_len text.old + 2 * length bytes.now ≤ vec_capacity text.old }
    ensures items { text.new.items
        ≡ text.old.items ++ data_text (map (λ byte. Some byte) bytes.now) }
    ensures room { vec_capacity text.new ≡ vec_capacity text.old }
{
    for byte in bytes {
        text.push_reserved(hex_digit(*byte / 16));
        text.push_reserved(hex_digit(*byte % 16));
    }
}

/// A space and the bytes of a reply, if it carries any. Room for all of them is made first.
#[tactic(auto, using(crate::proofs::Plain::plain))]
fn push_plain(text: &mut Vec<u8>, bytes: &[u8]) -> Result<(), AllocError>
    ensures ok { OnOk result
        (text.new.items
        ≡ text.old.items ++ bytes_part (map (λ byte. Some byte) bytes.now)) }
    ensures err { OnErr result (BeginsWith text.old.items text.new.items) }
    ensures room { vec_capacity text.old ≤ vec_capacity text.new }
    ensures full { OnErr result (vec_capacity text.old
        < length text.old.items + length (bytes_part (map (λ byte. Some byte) bytes.now))) }
{
    if bytes.is_empty() {
        return Ok(());
    }
    text.reserve(1 + 2 * bytes.len())?;
    text.push_reserved(b' ');
    push_given(text, bytes);
    Ok(())
}

/// Appends the word of an operation, an address and a size.
#[tactic(auto, using(tl_text::proofs::TextLemmas::begins))]
pub fn push_target(text: &mut Vec<u8>, name: &str, address: u64, size: u8) -> Result<(), AllocError>
    ensures ok { OnOk result (text.new.items ≡ text.old.items ++ target_text name.now address size) }
    ensures err { OnErr result (BeginsWith text.old.items text.new.items) }
    ensures room { vec_capacity text.old ≤ vec_capacity text.new }
    ensures full { OnErr result (vec_capacity text.old
        < length text.old.items + length (target_text name.now address size)) }
{
    text.extend_from_slice(name.as_bytes())?;
    text.extend_from_slice(b" 0x")?;
    push_hex(text, address)?;
    push_field(text, b" ", u64::from(size))
}

/// Appends a request, as lines spell it.
#[tactic(auto, using(tl_text::proofs::TextLemmas::begins))]
pub fn push_ask(text: &mut Vec<u8>, ask: &Ask) -> Result<(), AllocError>
    ensures ok { OnOk result (text.new.items ≡ text.old.items ++ ask_text ask.now) }
    ensures err { OnErr result (BeginsWith text.old.items text.new.items) }
{
    push_target(text, word(ask.op()), ask.address(), ask.size())?;
    push_data(text, ask.bytes())
}

fn denied_word(denied: bool) -> &'static str
    ensures { result.now ≡ denied_text denied }
{
    if denied { " denied" } else { "" }
}

/// Appends a reply, as the lines of traces and of histories have it.
#[tactic(auto, using(tl_text::proofs::TextLemmas::begins))]
pub fn push_reply(text: &mut Vec<u8>, reply: &Reply) -> Result<(), AllocError>
    ensures ok { OnOk result (text.new.items ≡ text.old.items ++ reply_text reply.now) }
    ensures err { OnErr result (BeginsWith text.old.items text.new.items) }
    ensures room { vec_capacity text.old ≤ vec_capacity text.new }
    ensures full { OnErr result (vec_capacity text.old
        < length text.old.items + length (reply_text reply.now)) }
{
    text.extend_from_slice(reply_word(reply.op()).as_bytes())?;
    text.extend_from_slice(denied_word(reply.denied()).as_bytes())?;
    push_plain(text, reply.bytes())
}

/// A request and its reply, as the lines of traces and of histories have them.
#[tactic(auto, using(tl_text::proofs::TextLemmas::begins), unfolding(crate::specs::Trace::message_text))]
pub fn push_message(text: &mut Vec<u8>, ask: &Ask, reply: &Reply) -> Result<(), AllocError>
    ensures ok { OnOk result
        (text.new.items ≡ text.old.items ++ message_text ask.now reply.now) }
    ensures err { OnErr result (BeginsWith text.old.items text.new.items) }
{
    push_ask(text, ask)?;
    text.extend_from_slice(b" -> ")?;
    push_reply(text, reply)
}

/// Appends a master and a source of its own.
#[tactic(auto, using(tl_text::proofs::TextLemmas::begins))]
pub fn push_origin(text: &mut Vec<u8>, master: usize, source: u16) -> Result<(), AllocError>
    ensures ok { OnOk result (text.new.items ≡ text.old.items ++ origin_text master source) }
    ensures err { OnErr result (BeginsWith text.old.items text.new.items) }
{
    push_field(text, b"m", master as u64)?;
    push_field(text, b" s", u64::from(source))?;
    text.extend_from_slice(b" ")
}

/// Appends the port that served a request, and its place in the port's list.
#[tactic(auto, using(tl_text::proofs::TextLemmas::begins))]
pub fn push_place(text: &mut Vec<u8>, port: usize, index: usize) -> Result<(), AllocError>
    ensures ok { OnOk result (text.new.items ≡ text.old.items ++ place_text port index) }
    ensures err { OnErr result (BeginsWith text.old.items text.new.items) }
{
    push_field(text, b" p", port as u64)?;
    push_field(text, b" #", index as u64)
}

/// Appends the line of a master's request that a port served as its request of this index, with its reply.
#[tactic(auto, using(tl_text::proofs::TextLemmas::begins), unfolding(crate::specs::Trace::trace_line))]
pub fn push_entry(
    text: &mut Vec<u8>,
    master: usize,
    ask: &Ask,
    reply: &Reply,
    port: usize,
    index: usize,
) -> Result<(), AllocError>
    ensures ok { OnOk result (text.new.items
        ≡ text.old.items ++ trace_line master (record {
          ask = ask.now;
          reply = reply.now;
          port = port;
          index = index;
        })) }
    ensures err { OnErr result (BeginsWith text.old.items text.new.items) }
{
    push_origin(text, master, ask.source())?;
    push_message(text, ask, reply)?;
    push_place(text, port, index)?;
    text.push(b'\n')?;
    Ok(())
}

/// Appends the lines of a master's trace.
#[tactic(auto, using(tl_text::proofs::TextLemmas::begins))]
pub fn push_trace(text: &mut Vec<u8>, master: usize, trace: &Trace) -> Result<(), AllocError>
    ensures ok { OnOk result
        (text.new.items ≡ text.old.items ++ lines_of master trace.now.items) }
    ensures err { OnErr result (BeginsWith text.old.items text.new.items) }
{
    let mut entry = blank_entry();
    for place in 0..trace.len() {
        trace.read(place, &mut entry);
        push_entry(
            text,
            master,
            &entry.ask,
            &entry.reply,
            entry.port,
            entry.index,
        )?;
    }
    Ok(())
}

/// Appends the lines of the traces, those of master 0 first.
#[tactic(auto, using(tl_text::proofs::TextLemmas::begins))]
pub fn push_traces(text: &mut Vec<u8>, traces: &[Trace]) -> Result<(), AllocError>
    ensures ok { OnOk result
        (text.new.items
        ≡ text.old.items ++ trace_text (map (λ trace. trace.items) traces.now)) }
    ensures err { OnErr result (BeginsWith text.old.items text.new.items) }
{
    for (master, trace) in traces.iter().enumerate() {
        push_trace(text, master, trace)?;
    }
    Ok(())
}

/// The text of the traces, that of master 0 first: a line for each entry.
pub fn write_trace(alloc: Global, traces: &[Trace]) -> Result<Vec<u8>, Memory>
    ensures { IfOk result
        (λ text. text.items ≡ trace_text (map (λ trace. trace.items) traces.now)) }
{
    let mut text = Vec::new(alloc);
    push_traces(&mut text, traces)?;
    Ok(text)
}
