//! The row of a beat.
ghost use Rattle.std.specs.Prelude.{[], ◌≡◌, ◌++◌, ◌∷◌, IfOk, OnOk};
ghost use Rattle.std.specs.Fmt.{decimal};
ghost use Rattle.std.specs.Char.{is_digit};
ghost use Rattle.tl_text.specs.Number.{number_of};
ghost use Rattle.check_samples.specs.Values.{all_before};
ghost use Rattle.check_samples.specs.Resets.{reset_line};
ghost use Rattle.check_samples.specs.Row.{ask_flags, ask_lanes, ask_line, ask_numbers, cells_of_ask, cells_of_reply, digit_of, head_text, hex_text, hexes, known_number, link_text, mark_text, number_if_any, reply_lanes, reply_line, reply_numbers};

use crate::channel::{AskTaps, ReplyTaps};
use crate::signal::Signal;
use crate::values::Values;
use check_watch::Link;
use std::alloc::AllocError;
use tl_text::{hex_digit, push_decimal, push_hex, read_number};

/// The most bits of a signal that is read as a number.
pub const MAX_BITS: usize = 64;

/// The signals of a beat of channel A as numbers, save its data.
#[derive(Debug, Clone, Copy, PartialEq, Eq)]
pub struct AskCells {
    pub opcode: u64,
    pub param: u64,
    pub size: u64,
    pub source: u64,
    pub address: u64,
    pub corrupt: Option<u64>,
}

/// The signals of a beat of channel D as numbers, save its data.
#[derive(Debug, Clone, Copy, PartialEq, Eq)]
pub struct ReplyCells {
    pub opcode: u64,
    pub param: Option<u64>,
    pub size: u64,
    pub source: u64,
    pub denied: u64,
    pub corrupt: Option<u64>,
}

/// Whether a digit is a known bit.
#[inline(always)]
pub fn is_known(bit: u8) -> bool
    ensures { result ≡ is_digit bit 2 }
{
    (bit == b'0') | (bit == b'1')
}

/// The number that one to 64 bits spell, if each is known. No step depends on what the bits are: a processor does not guess
/// them, and to go on after an unknown one costs less.
pub fn read_bits(bits: &[u8]) -> Option<u64>
    ensures { result ≡ number_of 2 MAX_BITS bits.now }
{
    if bits.is_empty() || bits.len() > MAX_BITS {
        return None;
    }
    let mut value: u64 = 0;
    let mut known = true;
    for bit in bits {
        known = known & is_known(*bit);
        value = 2 * value + u64::from(*bit % 2);
    }
    if known { Some(value) } else { None }
}

/// The number that bits spell, if each is known.
fn known_number(signal: Signal, bits: &[u8]) -> Result<u64, Signal>
    ensures { result ≡ known_number signal bits.now }
{
    match read_bits(bits) {
        Some(number) => Ok(number),
        None => Err(signal),
    }
}

/// The same of a signal that a dump may not have, which has no bits then.
fn number_if_any(signal: Signal, bits: &[u8]) -> Result<Option<u64>, Signal>
    ensures { result ≡ number_if_any signal bits.now }
{
    if bits.is_empty() {
        return Ok(None);
    }
    let number = known_number(signal, bits)?;
    Ok(Some(number))
}

/// The hexadecimal digit of at most four bits; `x` if one is unknown.
fn digit_of(bits: &[u8]) -> u8
    ensures { result ≡ digit_of bits.now }
{
    match read_number(bits, 2, 4) {
        Some(number) => hex_digit((number % 16) as u8),
        None => b'x',
    }
}

/// The same of four bits, each of which is known in most dumps.
fn digit_of_four(a: u8, b: u8, c: u8, d: u8) -> u8
    ensures { result ≡ digit_of (a ∷ b ∷ c ∷ d ∷ []) }
{
    if is_known(a) & is_known(b) & is_known(c) & is_known(d) {
        hex_digit(8 * (a % 2) + 4 * (b % 2) + 2 * (c % 2) + d % 2)
    } else {
        digit_of(&[a, b, c, d])
    }
}

/// Appends the hexadecimal digits of bits, two at a time, as far as there are eight bits; answers the others.
fn push_pairs<'b>(text: &mut Vec<u8>, bits: &'b [u8]) -> Result<&'b [u8], AllocError>
    ensures { IfOk result (λ rest. text.new.items ++ hexes rest.now ≡ text.old.items ++ hexes bits.now) }
{
    let mut rest = bits;
    while let [a, b, c, d, e, f, g, h, more @ ..] = rest {
        let high = digit_of_four(*a, *b, *c, *d);
        let low = digit_of_four(*e, *f, *g, *h);
        text.extend_from_slice(&[high, low])?;
        rest = more;
    }
    Ok(rest)
}

/// Appends the hexadecimal digits of bits, of which there are four for each.
fn push_hexes(text: &mut Vec<u8>, bits: &[u8]) -> Result<(), AllocError>
    ensures { OnOk result (text.new.items ≡ text.old.items ++ hexes bits.now) }
{
    let mut rest = push_pairs(text, bits)?;
    while let [a, b, c, d, more @ ..] = rest {
        text.push(digit_of_four(*a, *b, *c, *d))?;
        rest = more;
    }
    Ok(())
}

/// Appends the hexadecimal digits of bits; if they are no multiple of four, the first digit has fewer.
fn push_bits(text: &mut Vec<u8>, bits: &[u8]) -> Result<(), AllocError>
    ensures { OnOk result (text.new.items ≡ text.old.items ++ hex_text bits.now) }
{
    let over = bits.len() % 4;
    if over > 0 {
        text.push(digit_of(&bits[..over]))?;
    }
    push_hexes(text, &bits[over..])
}

/// Appends a number, which has one digit in most columns.
fn push_cell(text: &mut Vec<u8>, number: u64) -> Result<(), AllocError>
    ensures { OnOk result (text.new.items ≡ text.old.items ++ decimal number) }
{
    if number < 10 {
        text.push(b'0' + number as u8)?;
        Ok(())
    } else {
        push_decimal(text, number)
    }
}

/// Appends the name of a link.
fn push_link(text: &mut Vec<u8>, link: Link) -> Result<(), AllocError>
    ensures { OnOk result (text.new.items ≡ text.old.items ++ link_text link) }
{
    match link {
        Link::Master(number) => {
            text.push(b'm')?;
            push_cell(text, number as u64)
        }
        Link::Port(number) => {
            text.push(b'p')?;
            push_cell(text, number as u64)
        }
    }
}

/// Appends a comma and a number.
fn push_number(text: &mut Vec<u8>, number: u64) -> Result<(), AllocError>
    ensures { OnOk result (text.new.items ≡ text.old.items ++ (44 ∷ decimal number)) }
{
    text.push(b',')?;
    push_cell(text, number)
}

/// Appends a comma, and a number if there is one.
fn push_mark(text: &mut Vec<u8>, mark: Option<u64>) -> Result<(), AllocError>
    ensures { OnOk result (text.new.items ≡ text.old.items ++ (44 ∷ mark_text mark)) }
{
    text.push(b',')?;
    match mark {
        Some(number) => push_cell(text, number),
        None => Ok(()),
    }
}

/// The numbers of a beat of channel A.
pub(crate) fn ask_cells(values: &Values, taps: &AskTaps) -> Result<AskCells, Signal>
    ensures { result ≡ cells_of_ask (all_before values.now) taps.now }
{
    let opcode = known_number(Signal::AOpcode, values.before(taps.opcode))?;
    let param = known_number(Signal::AParam, values.before(taps.param))?;
    let size = known_number(Signal::ASize, values.before(taps.size))?;
    let source = known_number(Signal::ASource, values.before(taps.source))?;
    let address = known_number(Signal::AAddress, values.before(taps.address))?;
    known_number(Signal::AMask, values.before(taps.mask))?;
    let corrupt = number_if_any(Signal::ACorrupt, values.before(taps.corrupt))?;
    Ok(AskCells {
        opcode,
        param,
        size,
        source,
        address,
        corrupt,
    })
}

/// The numbers of a beat of channel D.
pub(crate) fn reply_cells(values: &Values, taps: &ReplyTaps) -> Result<ReplyCells, Signal>
    ensures { result ≡ cells_of_reply (all_before values.now) taps.now }
{
    let opcode = known_number(Signal::DOpcode, values.before(taps.opcode))?;
    let param = number_if_any(Signal::DParam, values.before(taps.param))?;
    let size = known_number(Signal::DSize, values.before(taps.size))?;
    let source = known_number(Signal::DSource, values.before(taps.source))?;
    let denied = known_number(Signal::DDenied, values.before(taps.denied))?;
    let corrupt = number_if_any(Signal::DCorrupt, values.before(taps.corrupt))?;
    Ok(ReplyCells {
        opcode,
        param,
        size,
        source,
        denied,
        corrupt,
    })
}

/// Appends the columns up to the channel.
fn push_head(text: &mut Vec<u8>, time: u64, link: Link, channel: u8) -> Result<(), AllocError>
    ensures { OnOk result (text.new.items ≡ text.old.items ++ head_text time link channel) }
{
    push_decimal(text, time)?;
    text.push(b',')?;
    push_link(text, link)?;
    text.extend_from_slice(&[b',', channel])
}

/// Appends the line of a reset of the whole system, without its end.
pub(crate) fn push_reset(text: &mut Vec<u8>, time: u64) -> Result<(), AllocError>
    ensures { OnOk result (text.new.items ≡ text.old.items ++ reset_line time) }
{
    push_decimal(text, time)?;
    text.extend_from_slice(b",reset,,,,,,,,,,")
}

/// Appends the columns of a beat of channel A that are decimal numbers.
fn push_ask_numbers(text: &mut Vec<u8>, cells: AskCells) -> Result<(), AllocError>
    ensures { OnOk result (text.new.items ≡ text.old.items ++ ask_numbers cells) }
{
    push_number(text, cells.opcode)?;
    push_number(text, cells.param)?;
    push_number(text, cells.size)?;
    push_number(text, cells.source)
}

/// Appends an address, and the bits of a mask and of data.
fn push_ask_lanes(
    text: &mut Vec<u8>,
    address: u64,
    mask: &[u8],
    lanes: &[u8],
) -> Result<(), AllocError>
    ensures { OnOk result (text.new.items ≡ text.old.items ++ ask_lanes address mask.now lanes.now) }
{
    text.push(b',')?;
    push_hex(text, address)?;
    text.push(b',')?;
    push_bits(text, mask)?;
    text.push(b',')?;
    push_bits(text, lanes)
}

/// Appends the flags of a beat of channel A, which is never denied.
fn push_ask_flags(text: &mut Vec<u8>, cells: AskCells) -> Result<(), AllocError>
    ensures { OnOk result (text.new.items ≡ text.old.items ++ ask_flags cells) }
{
    text.push(b',')?;
    push_mark(text, cells.corrupt)
}

/// Appends the line of a beat of channel A, without its end.
#[tactic(auto, unfolding(crate::specs::Row::ask_line))]
pub(crate) fn push_ask(
    text: &mut Vec<u8>,
    time: u64,
    link: Link,
    cells: AskCells,
    mask: &[u8],
    lanes: &[u8],
) -> Result<(), AllocError>
    ensures { OnOk result (text.new.items ≡ text.old.items ++ ask_line time link cells mask.now lanes.now) }
{
    push_head(text, time, link, b'A')?;
    push_ask_numbers(text, cells)?;
    push_ask_lanes(text, cells.address, mask, lanes)?;
    push_ask_flags(text, cells)
}

/// Appends the columns of a beat of channel D up to its source.
fn push_reply_numbers(text: &mut Vec<u8>, cells: ReplyCells) -> Result<(), AllocError>
    ensures { OnOk result (text.new.items ≡ text.old.items ++ reply_numbers cells) }
{
    push_number(text, cells.opcode)?;
    push_mark(text, cells.param)?;
    push_number(text, cells.size)?;
    push_number(text, cells.source)
}

/// Appends the bits of data, and the flags of a beat of channel D.
fn push_reply_lanes(text: &mut Vec<u8>, lanes: &[u8], cells: ReplyCells) -> Result<(), AllocError>
    ensures { OnOk result (text.new.items ≡ text.old.items ++ reply_lanes lanes.now cells) }
{
    text.extend_from_slice(b",,,")?;
    push_bits(text, lanes)?;
    push_number(text, cells.denied)?;
    push_mark(text, cells.corrupt)
}

/// Appends the line of a beat of channel D, without its end.
#[tactic(auto, unfolding(crate::specs::Row::reply_line))]
pub(crate) fn push_reply(
    text: &mut Vec<u8>,
    time: u64,
    link: Link,
    cells: ReplyCells,
    lanes: &[u8],
) -> Result<(), AllocError>
    ensures { OnOk result (text.new.items ≡ text.old.items ++ reply_line time link cells lanes.now) }
{
    push_head(text, time, link, b'D')?;
    push_reply_numbers(text, cells)?;
    push_reply_lanes(text, lanes, cells)
}
