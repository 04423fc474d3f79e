//! What a reset of the whole system does to the memory of a port.
ghost use Rattle.std.specs.Prelude.{◌≡◌};
ghost use Rattle.toml.specs.View.{table_view};
ghost use Rattle.check_keys.specs.Reading.{Gives};
ghost use Rattle.check_description.specs.OnReset.{if_resets as with_resets, on_reset_at as on_reset_of_table, on_reset_of, said_on_reset as said_in_table, usual_on_reset as usual_of_kind};

use crate::kind::PortKind;
use check_keys::{Key, SystemFault, text_if_any};
use tl_ops::Kind;
use toml::Table;

/// What a reset does to the memory of a port.
#[derive(Debug, Clone, Copy, PartialEq, Eq)]
pub enum OnReset {
    /// The system has no resets.
    Never,
    /// The memory keeps its bytes.
    Keep,
    /// The memory has again what it held before any request.
    Load,
}

/// What a word names.
fn on_reset_of(word: &[u8]) -> Option<OnReset>
    ensures { result ≡ on_reset_of word.now }
{
    if word == b"keep".as_slice() {
        Some(OnReset::Keep)
    } else if word == b"load".as_slice() {
        Some(OnReset::Load)
    } else {
        None
    }
}

/// What a port of this kind does that does not say it.
fn usual_on_reset(kind: PortKind) -> OnReset
    ensures { result ≡ usual_of_kind kind }
{
    match kind {
        PortKind::Memory(Kind::Regs | Kind::ClearRegs) => OnReset::Load,
        PortKind::Memory(Kind::Ram | Kind::Rom | Kind::NoDevice) | PortKind::Device => {
            OnReset::Keep
        }
    }
}

/// The word of a port, if it says one.
#[tactic(auto, unfolding(crate::specs::OnReset::said_on_reset))]
fn said_on_reset(table: &Table) -> Result<Option<OnReset>, SystemFault>
    ensures { Gives (λ said. said) result (said_in_table (table_view table.now)) }
{
    let Some(word) = text_if_any(table, Key::OnReset)? else {
        return Ok(None);
    };
    match on_reset_of(word.as_bytes()) {
        Some(on_reset) => Ok(Some(on_reset)),
        None => Err(SystemFault::OutOfRange(Key::OnReset)),
    }
}

/// The same in a system that has resets; in one that has none it is `Never`.
fn if_resets(resets: bool, on_reset: OnReset) -> OnReset
    ensures { result ≡ with_resets resets on_reset }
{
    if resets { on_reset } else { OnReset::Never }
}

/// What a reset does to a port of this kind, in a system that has resets or none.
#[tactic(auto, unfolding(crate::specs::OnReset::on_reset_at))]
pub fn on_reset_at(resets: bool, kind: PortKind, table: &Table) -> Result<OnReset, SystemFault>
    ensures { Gives (λ on_reset. on_reset) result (on_reset_of_table resets kind (table_view table.now)) }
{
    let said = said_on_reset(table)?;
    Ok(if_resets(resets, said.unwrap_or(usual_on_reset(kind))))
}
