//! The columns of a row that is due, as a reader of its line reads them: each answer is what the text of a column spells.
//!
//! `None` says nothing of the line. Whoever gets it reads the line, and finds the fault, if there is one.
ghost use Rattle.std.specs.Prelude.{◌≡◌, ◌*◌, Ok, Some, length, take, IfSome};
ghost use Rattle.std.specs.Fmt.{decimal};
ghost use Rattle.tl_text.specs.Number.{number_of};
ghost use Rattle.check_beats.specs.Bus.{bus_bytes};
ghost use Rattle.check_rows.specs.Columns.{flag_of, flag_or};
ghost use Rattle.check_rows.specs.Number.{decimal_of, decimal_or_zero};
ghost use Rattle.check_samples.specs.Row.{mark_text};
ghost use Rattle.check_due.specs.Lanes.{lanes_of_bits};

use crate::bits::read_lanes;
use check_beats::{Bus, MAX_LANES};
use check_samples::read_bits;

/// An opcode, a parameter or a size, of which a column takes up to 255.
pub(crate) fn field_of(number: u64) -> Option<u8>
    ensures { IfSome result (λ field. decimal_of 255 (decimal number) ≡ Ok field) }
{
    if number > u8::MAX as u64 {
        return None;
    }
    Some(number as u8)
}

/// A parameter, which is 0 if a dump has none.
pub(crate) fn field_or_zero(mark: Option<u64>) -> Option<u8>
    ensures { IfSome result (λ field. decimal_or_zero 255 (mark_text mark) ≡ Ok field) }
{
    match mark {
        Some(number) => field_of(number),
        None => Some(0),
    }
}

/// A source, of which a column takes up to 65,535.
pub(crate) fn source_of(number: u64) -> Option<u16>
    ensures { IfSome result (λ source. decimal_of 65535 (decimal number) ≡ Ok source) }
{
    if number > u16::MAX as u64 {
        return None;
    }
    Some(number as u16)
}

/// A flag: 0 or 1.
pub(crate) fn flag_of(number: u64) -> Option<bool>
    ensures { IfSome result (λ flag. flag_of (decimal number) ≡ Ok flag) }
{
    match number {
        0 => Some(false),
        1 => Some(true),
        _ => None,
    }
}

/// A flag, or this one if a dump has none.
pub(crate) fn flag_or(absent: bool, mark: Option<u64>) -> Option<bool>
    ensures { IfSome result (λ flag. flag_or absent (mark_text mark) ≡ Ok flag) }
{
    match mark {
        Some(number) => flag_of(number),
        None => Some(absent),
    }
}

/// The flag of a request, which is 0 if a dump has none.
pub(crate) fn mark_or_zero(mark: Option<u64>) -> Option<u64>
    ensures { IfSome result (λ number. decimal_or_zero 1 (mark_text mark) ≡ Ok number) }
{
    match mark {
        Some(number) if number <= 1 => Some(number),
        Some(_) => None,
        None => Some(0),
    }
}

/// A mask with a bit for each lane of the bus.
pub(crate) fn mask_of(bus: Bus, bits: &[u8]) -> Option<u64>
    ensures size { IfSome result (λ _. length bits.now ≡ bus_bytes bus) }
    ensures value { IfSome result (λ mask. number_of 2 64 bits.now ≡ Some mask) }
{
    if bits.len() != bus.bytes() {
        return None;
    }
    read_bits(bits)
}

/// The lanes of the bus, of which there are eight bits for each.
fn bus_lanes(bus: Bus, bits: &[u8], lanes: &mut [u8; MAX_LANES]) -> u64
    requires { length bits.now ≡ 8 * bus_bytes bus }
    ensures { record { known = result; bytes = take (bus_bytes bus) lanes.new } ≡ lanes_of_bits (bus_bytes bus) bits.now }
{
    let count = bus.bytes();
    read_lanes(bits, &mut lanes[..count])
}

/// The lanes of the bus. They stand in the first places of the buffer then, and the answer is which of them are known.
pub(crate) fn lanes_of(bus: Bus, bits: &[u8], lanes: &mut [u8; MAX_LANES]) -> Option<u64>
    ensures size { IfSome result (λ _. length bits.now ≡ 8 * bus_bytes bus) }
    ensures value { IfSome result (λ known. record { known = known; bytes = take (bus_bytes bus) lanes.new }
        ≡ lanes_of_bits (bus_bytes bus) bits.now) }
{
    if bits.len() != 8 * bus.bytes() {
        return None;
    }
    Some(bus_lanes(bus, bits, lanes))
}
