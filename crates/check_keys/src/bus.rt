//! The data bus of a link, as a file says how many bytes it has.
ghost use Rattle.std.specs.Prelude.{◌≡◌, IfSome};
ghost use Rattle.toml.specs.View.{table_view};
ghost use Rattle.check_beats.specs.Bus.{bus_bytes};
ghost use Rattle.check_keys.specs.Bus.{bus_in_table as bus_of_table, bus_of_bytes};
ghost use Rattle.check_keys.specs.Reading.{Gives};

use crate::fault::{Key, SystemFault};
use crate::value::number_if_any;
use check_beats::{Bus, MAX_LANES};
use toml::Table;

/// The bus of so many bytes, if there is one.
fn bus_of(bytes: u64) -> Option<Bus>
    ensures value { result ≡ bus_of_bytes bytes }
    ensures bytes { IfSome result (λ bus. bus_bytes bus ≡ bytes) }
{
    if bytes == 1 {
        Some(Bus::One)
    } else if bytes == 2 {
        Some(Bus::Two)
    } else if bytes == 4 {
        Some(Bus::Four)
    } else if bytes == 8 {
        Some(Bus::Eight)
    } else if bytes == 16 {
        Some(Bus::Sixteen)
    } else if bytes == 32 {
        Some(Bus::ThirtyTwo)
    } else if bytes == 64 {
        Some(Bus::SixtyFour)
    } else {
        None
    }
}

/// The bus that a table says, or else the one that is handed in.
#[tactic(auto, unfolding(crate::specs::Bus::bus_in_table))]
pub fn bus_in_table(table: &Table, absent: Bus) -> Result<Bus, SystemFault>
    ensures { Gives (λ bus. bus) result (bus_of_table absent (table_view table.now)) }
{
    let Some(bytes) = number_if_any(table, Key::Bus, 1, MAX_LANES as u64)? else {
        return Ok(absent);
    };
    match bus_of(bytes) {
        Some(bus) => Ok(bus),
        None => Err(SystemFault::OutOfRange(Key::Bus)),
    }
}
