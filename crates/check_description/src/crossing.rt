//! How messages to a port are judged if both sides are watched.
ghost use Rattle.std.specs.Prelude.{◌≡◌};
ghost use Rattle.toml.specs.View.{table_view};
ghost use Rattle.check_keys.specs.Reading.{Gives};
ghost use Rattle.check_description.specs.Crossing.{is_apart_by, port_crossing_at as crossing_of_table, port_crossing_of, said_crossing as said_in_table};

use check_keys::{Key, SystemFault, text_if_any};
use toml::Table;

/// What is compared of messages to a port if both sides are watched.
#[derive(Debug, Clone, Copy, PartialEq, Eq)]
pub enum PortCrossing {
    /// A message at the port's link is the master's.
    Same,
    /// Nothing: the port's link is judged by itself.
    Apart,
}

impl PortCrossing {
    /// Whether the port's link is judged by itself.
    pub fn is_apart(self) -> bool
        ensures { result ≡ is_apart_by self }
    {
        match self {
            PortCrossing::Same => false,
            PortCrossing::Apart => true,
        }
    }
}

/// What a word names.
fn port_crossing_of(word: &[u8]) -> Option<PortCrossing>
    ensures { result ≡ port_crossing_of word.now }
{
    if word == b"same".as_slice() {
        Some(PortCrossing::Same)
    } else if word == b"none".as_slice() {
        Some(PortCrossing::Apart)
    } else {
        None
    }
}

/// The word of a port, if it says one.
#[tactic(auto, unfolding(crate::specs::Crossing::said_crossing))]
fn said_crossing(table: &Table) -> Result<Option<PortCrossing>, SystemFault>
    ensures { Gives (λ said. said) result (said_in_table (table_view table.now)) }
{
    let Some(word) = text_if_any(table, Key::Crossing)? else {
        return Ok(None);
    };
    match port_crossing_of(word.as_bytes()) {
        Some(crossing) => Ok(Some(crossing)),
        None => Err(SystemFault::OutOfRange(Key::Crossing)),
    }
}

/// What is compared of messages to the port that a table describes.
#[tactic(auto, unfolding(crate::specs::Crossing::port_crossing_at))]
pub fn port_crossing_at(table: &Table) -> Result<PortCrossing, SystemFault>
    ensures { Gives (λ crossing. crossing) result (crossing_of_table (table_view table.now)) }
{
    let said = said_crossing(table)?;
    Ok(said.unwrap_or(PortCrossing::Same))
}
