//! What stands at a port.
ghost use Rattle.std.specs.Prelude.{◌≡◌};
ghost use Rattle.toml.specs.View.{table_view};
ghost use Rattle.check_keys.specs.Reading.{Gives};
ghost use Rattle.check_description.specs.Kind.{kind_at, port_kind_of};

use check_keys::{Key, SystemFault, text_of, value_at};
use tl_ops::Kind;
use toml::Table;

/// What stands at a port: a memory of a kind, or a device.
#[derive(Debug, Clone, Copy, PartialEq, Eq)]
pub enum PortKind {
    Memory(Kind),
    Device,
}

/// The kind that a word names.
fn port_kind_of(word: &[u8]) -> Option<PortKind>
    ensures { result ≡ port_kind_of word.now }
{
    if word == b"ram".as_slice() {
        Some(PortKind::Memory(Kind::Ram))
    } else if word == b"rom".as_slice() {
        Some(PortKind::Memory(Kind::Rom))
    } else if word == b"regs".as_slice() {
        Some(PortKind::Memory(Kind::Regs))
    } else if word == b"w1c".as_slice() {
        Some(PortKind::Memory(Kind::ClearRegs))
    } else if word == b"device".as_slice() {
        Some(PortKind::Device)
    } else {
        None
    }
}

/// The kind of a port.
#[tactic(auto, unfolding(crate::specs::Kind::kind_at))]
pub fn kind_at(table: &Table) -> Result<PortKind, SystemFault>
    ensures { Gives (λ kind. kind) result (kind_at (table_view table.now)) }
{
    let word = text_of(value_at(table, Key::Kind)?, Key::Kind)?;
    match port_kind_of(word.as_bytes()) {
        Some(kind) => Ok(kind),
        None => Err(SystemFault::OutOfRange(Key::Kind)),
    }
}
