//! Numbers, as columns spell them.
ghost use Rattle.std.specs.Prelude.{◌≡◌, ◌≤◌, ◌+◌, ◌*◌, ◌-◌, ◌^◌, ℕ, IfOk};
ghost use Rattle.check_beats.specs.Bus.{bus_bytes};
ghost use Rattle.check_rows.specs.Number.{address_of, decimal_of, decimal_or_zero, mask_digits, mask_of};

use crate::digit::read_hex;
use crate::fault::RowFault;
use check_beats::{Bus, MAX_LANES};
use tl_text::read_digits;

/// The most digits of an address.
pub(crate) const ADDRESS_DIGITS: usize = 16;

/// The number that decimal digits spell, which is `most` at most.
#[tactic(auto, unfolding(crate::specs::Number::decimal_of))]
pub fn read_decimal(word: &[u8], most: u64) -> Result<u64, RowFault>
    ensures value { result ≡ decimal_of most word.now }
    ensures small { IfOk result (λ n. n ≤ most) }
{
    let spelled = read_digits(word, 10).ok_or(RowFault::Number)?;
    let value = spelled.ok_or(RowFault::Range)?;
    if value <= most {
        Ok(value)
    } else {
        Err(RowFault::Range)
    }
}

/// The same, or 0 if the column is empty.
#[tactic(auto, unfolding(crate::specs::Number::decimal_or_zero))]
pub fn read_decimal_or_zero(word: &[u8], most: u64) -> Result<u64, RowFault>
    ensures value { result ≡ decimal_or_zero most word.now }
    ensures small { IfOk result (λ n. n ≤ most) }
{
    if word.is_empty() {
        Ok(0)
    } else {
        read_decimal(word, most)
    }
}

/// The address that one to sixteen hexadecimal digits spell.
#[tactic(auto, unfolding(crate::specs::Number::address_of))]
pub fn read_address(word: &[u8]) -> Result<u64, RowFault>
    ensures { result ≡ address_of word.now }
{
    if word.len() > ADDRESS_DIGITS {
        return Err(RowFault::Number);
    }
    read_hex(word)
}

/// The number whose bits are those of the lanes of a bus.
pub fn all_lanes(bus: Bus) -> u64
    ensures { result ≡ 2 ^ bus_bytes bus - 1 }
{
    u64::MAX >> (MAX_LANES - bus.bytes())
}

/// How many digits the mask of a bus has.
pub(crate) fn mask_digits(bus: Bus) -> usize
    ensures value { result ≡ mask_digits (bus_bytes bus) }
    ensures few { result ≤ 16 }
{
    (bus.bytes() / 4).max(1)
}

/// The mask that hexadecimal digits spell: as many as the bus asks for, and a bit for each of its lanes and no other.
#[tactic(auto, unfolding(crate::specs::Number::mask_of))]
pub fn read_mask(bus: Bus, word: &[u8]) -> Result<u64, RowFault>
    ensures { result ≡ mask_of (bus_bytes bus) word.now }
{
    if word.len() != mask_digits(bus) {
        return Err(RowFault::Number);
    }
    let mask = read_hex(word)?;
    if mask <= all_lanes(bus) {
        Ok(mask)
    } else {
        Err(RowFault::Number)
    }
}
