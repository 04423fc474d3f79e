//! The first column of a line, read where it stands, up to its comma; each call answers what stands behind that, too.
//!
//! Only what is usual is read here. `None` says nothing of the line: whoever gets it reads whole columns.
ghost use Rattle.std.specs.Prelude.{◌≡◌, ◌≤◌, ◌<◌, ◌⊎◌, ◌+◌, ◌*◌, [], ◌∷◌, Ok, IfSome, length, take, drop, get_or};
ghost use Rattle.check_beats.specs.Bus.{bus_bytes};
ghost use Rattle.check_rows.specs.Buses.{IsLinkOf};
ghost use Rattle.check_rows.specs.Column.{column_parts};
ghost use Rattle.check_rows.specs.Columns.{channel_of, flag_of, flag_or, index_of, link_of};
ghost use Rattle.check_rows.specs.Front.{BeginsWithNumber, FirstIsNumber, FirstSpells};
ghost use Rattle.check_rows.specs.Lanes.{lanes_of};
ghost use Rattle.check_rows.specs.Number.{address_of, decimal_of, decimal_or_zero, mask_of};

use crate::buses::Buses;
use crate::columns::{RowChannel, read_flag};
use crate::digit::{UNKNOWN, digit_code};
use crate::lanes::read_lanes;
use crate::number::{ADDRESS_DIGITS, all_lanes, mask_digits};
use check_beats::{Bus, MAX_LANES};
use check_watch::Link;

/// A number from here on may have no room for one more decimal digit.
const NO_ROOM: u64 = u64::MAX / 10;

/// The number of the decimal digits that a text begins with, and how many they are, if there is room for it.
#[inline(always)]
fn front_decimal(text: &[u8]) -> Option<(u64, usize)>
    ensures { IfSome result (λ it. BeginsWithNumber 10 text.now it.0 it.1) }
{
    let mut value = 0;
    for (count, byte) in text.iter().enumerate() {
        if !byte.is_ascii_digit() {
            return Some((value, count));
        }
        if value >= NO_ROOM {
            return None;
        }
        value = 10 * value + u64::from(*byte - b'0');
    }
    Some((value, text.len()))
}

/// The number of the hexadecimal digits that a text begins with, and how many they are, if there are no more than an
/// address may have.
#[inline(always)]
fn front_hexadecimal(text: &[u8]) -> Option<(u64, usize)>
    ensures number { IfSome result (λ it. BeginsWithNumber 16 text.now it.0 it.1) }
    ensures few { IfSome result (λ it. it.1 ≤ ADDRESS_DIGITS) }
{
    let mut value = 0;
    for (count, byte) in text.iter().enumerate() {
        let code = digit_code(*byte);
        if code >= UNKNOWN {
            return Some((value, count));
        }
        if count == ADDRESS_DIGITS {
            return None;
        }
        value = 16 * value + u64::from(code);
    }
    None
}

/// What stands behind this byte, if a text begins with it.
#[inline(always)]
fn behind_byte(text: &[u8], byte: u8) -> Option<&[u8]>
    ensures { IfSome result (λ rest. text.now ≡ byte ∷ rest.now) }
{
    match text {
        [first, rest @ ..] if *first == byte => Some(rest),
        _ => None,
    }
}

/// What stands behind the comma at a place.
#[inline(always)]
fn behind_comma(text: &[u8], place: usize) -> Option<&[u8]>
    ensures inside { IfSome result (λ _. place < length text.now) }
    ensures comma { IfSome result (λ _. get_or text.now place 0 ≡ 44) }
    ensures rest { IfSome result (λ rest. rest.now ≡ drop (place + 1) text.now) }
{
    if place >= text.len() || text[place] != b',' {
        return None;
    }
    Some(&text[place + 1..])
}

/// The decimal number in the first column of a text, and what stands behind it.
#[inline(always)]
fn take_number(text: &[u8]) -> Option<(u64, &[u8])>
    ensures { IfSome result (λ it. FirstIsNumber text.now it.0 it.1.now) }
{
    let Some((value, count)) = front_decimal(text) else {
        return None;
    };
    let Some(rest) = behind_comma(text, count) else {
        return None;
    };
    if count == 0 {
        return None;
    }
    Some((value, rest))
}

/// The same, if the number is `most` at most.
#[inline(always)]
pub(crate) fn take_decimal(text: &[u8], most: u64) -> Option<(u64, &[u8])>
    ensures value { IfSome result (λ it. FirstSpells (decimal_of most) text.now it.0 it.1.now) }
    ensures small { IfSome result (λ it. it.0 ≤ most) }
{
    match take_number(text) {
        Some((value, rest)) if value <= most => Some((value, rest)),
        _ => None,
    }
}

/// The address in the first column of a text, and what stands behind it.
#[inline(always)]
pub(crate) fn take_address(text: &[u8]) -> Option<(u64, &[u8])>
    ensures { IfSome result (λ it. FirstSpells address_of text.now it.0 it.1.now) }
{
    let Some((value, count)) = front_hexadecimal(text) else {
        return None;
    };
    let Some(rest) = behind_comma(text, count) else {
        return None;
    };
    if count == 0 {
        return None;
    }
    Some((value, rest))
}

/// An empty first column of a text: what stands behind it.
#[inline(always)]
pub(crate) fn take_nothing(text: &[u8]) -> Option<&[u8]>
    ensures { IfSome result (λ rest. column_parts text.now ≡ [] ∷ column_parts rest.now) }
{
    behind_byte(text, b',')
}

/// The mask in the first column of a text, with a bit for each lane of the bus and no other, and what stands behind it.
#[inline(always)]
pub(crate) fn take_mask(bus: Bus, text: &[u8]) -> Option<(u64, &[u8])>
    ensures { IfSome result (λ it. FirstSpells (mask_of (bus_bytes bus)) text.now it.0 it.1.now) }
{
    let Some((value, count)) = front_hexadecimal(text) else {
        return None;
    };
    let Some(rest) = behind_comma(text, count) else {
        return None;
    };
    if count != mask_digits(bus) || value > all_lanes(bus) {
        return None;
    }
    Some((value, rest))
}

/// How many bytes the lanes take that a text begins with: none, or two for each lane.
#[inline(always)]
fn lanes_length(bus: Bus, text: &[u8]) -> usize
    ensures { (result ≡ 0) ⊎ (result ≡ 2 * bus_bytes bus) }
{
    match text {
        [b',', ..] => 0,
        _ => 2 * bus.bytes(),
    }
}

/// The lanes in the first column of a text, and what stands behind it. They stand in the first places of the buffer
/// then, and the number says which of them are known.
#[inline(always)]
pub(crate) fn take_lanes<'a>(
    bus: Bus,
    text: &'a [u8],
    lanes: &mut [u8; MAX_LANES],
) -> Option<(u64, &'a [u8])>
    ensures { IfSome result (λ it. FirstSpells (lanes_of (bus_bytes bus)) text.now
        (record { known = it.0; bytes = take (bus_bytes bus) lanes.new }) it.1.now) }
{
    let count = lanes_length(bus, text);
    let Some(rest) = behind_comma(text, count) else {
        return None;
    };
    match read_lanes(bus, &text[..count], lanes) {
        Ok(known) => Some((known, rest)),
        Err(_) => None,
    }
}

/// The number of a link among `count` in the first column of a text, and what stands behind it.
#[inline(always)]
fn take_index(text: &[u8], count: usize) -> Option<(usize, &[u8])>
    ensures value { IfSome result (λ it. FirstSpells (index_of count) text.now it.0 it.1.now) }
    ensures inside { IfSome result (λ it. it.0 < count) }
{
    match take_number(text) {
        Some((number, rest)) if number < count as u64 => Some((number as usize, rest)),
        _ => None,
    }
}

/// The link in the first column of a text, and what stands behind it.
#[inline(always)]
pub(crate) fn take_link<'a>(buses: &Buses<'_>, text: &'a [u8]) -> Option<(Link, &'a [u8])>
    ensures value { IfSome result (λ it.
        FirstSpells (link_of buses.now.masters.now buses.now.ports.now) text.now it.0 it.1.now) }
    ensures inside { IfSome result (λ it. IsLinkOf buses.now.masters.now buses.now.ports.now it.0) }
{
    if let Some(digits) = behind_byte(text, b'm') {
        return match take_index(digits, buses.masters.len()) {
            Some((number, rest)) => Some((Link::Master(number), rest)),
            None => None,
        };
    }
    let Some(digits) = behind_byte(text, b'p') else {
        return None;
    };
    match take_index(digits, buses.ports.len()) {
        Some((number, rest)) => Some((Link::Port(number), rest)),
        None => None,
    }
}

/// What stands behind a first column that is this byte.
#[inline(always)]
fn take_byte(text: &[u8], byte: u8) -> Option<&[u8]>
    ensures { IfSome result (λ rest. text.now ≡ byte ∷ 44 ∷ rest.now) }
{
    match behind_byte(text, byte) {
        Some(rest) => behind_byte(rest, b','),
        None => None,
    }
}

/// The channel in the first column of a text, and what stands behind it.
#[inline(always)]
pub(crate) fn take_channel(text: &[u8]) -> Option<(RowChannel, &[u8])>
    ensures { IfSome result (λ it. FirstSpells channel_of text.now it.0 it.1.now) }
{
    if let Some(rest) = take_byte(text, b'A') {
        return Some((RowChannel::A, rest));
    }
    match take_byte(text, b'D') {
        Some(rest) => Some((RowChannel::D, rest)),
        None => None,
    }
}

/// The flag in the first column of a text, and what stands behind it.
#[inline(always)]
pub(crate) fn take_flag(text: &[u8]) -> Option<(bool, &[u8])>
    ensures { IfSome result (λ it. FirstSpells flag_of text.now it.0 it.1.now) }
{
    if let Some(rest) = take_byte(text, b'0') {
        return Some((false, rest));
    }
    match take_byte(text, b'1') {
        Some(rest) => Some((true, rest)),
        None => None,
    }
}

/// The decimal number in the first column of a text, or 0 if that is empty, and what stands behind it.
#[inline(always)]
pub(crate) fn take_decimal_or_zero(text: &[u8], most: u64) -> Option<(u64, &[u8])>
    ensures value { IfSome result (λ it. FirstSpells (decimal_or_zero most) text.now it.0 it.1.now) }
    ensures small { IfSome result (λ it. it.0 ≤ most) }
{
    if let Some(rest) = take_nothing(text) {
        return Some((0, rest));
    }
    match take_decimal(text, most) {
        Some((number, rest)) => Some((number, rest)),
        None => None,
    }
}

/// The number up to 1 of a text that is the last column, or 0 if that is empty.
#[inline(always)]
pub(crate) fn last_mark(text: &[u8]) -> Option<u64>
    ensures value { IfSome result (λ n. decimal_or_zero 1 text.now ≡ Ok n) }
    ensures last { IfSome result (λ _. column_parts text.now ≡ text.now ∷ []) }
{
    if text.is_empty() {
        return Some(0);
    }
    match read_flag(text) {
        Ok(flag) => Some(flag as u64),
        Err(_) => None,
    }
}

/// The flag of a text that is the last column, or this one if that is empty.
#[inline(always)]
pub(crate) fn last_flag_or(absent: bool, text: &[u8]) -> Option<bool>
    ensures flag { IfSome result (λ flag. flag_or absent text.now ≡ Ok flag) }
    ensures last { IfSome result (λ _. column_parts text.now ≡ text.now ∷ []) }
{
    if text.is_empty() {
        return Some(absent);
    }
    match read_flag(text) {
        Ok(flag) => Some(flag),
        Err(_) => None,
    }
}
