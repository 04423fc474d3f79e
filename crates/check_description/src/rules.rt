//! What a system file says of the whole system.
ghost use Rattle.std.specs.Prelude.{◌≡◌};
ghost use Rattle.toml.specs.View.{table_view};
ghost use Rattle.check_keys.specs.Reading.{Gives};
ghost use Rattle.check_description.specs.Rules.{by_address_in, by_address_of, rules_in};

use check_beats::LinkRules;
use check_keys::{Key, LAST_INTEGER, SystemFault, flag_at, number_if_any, text_if_any};
use toml::Table;

/// The rules of all links, and whether there may be resets of the whole system.
#[derive(Debug, Clone, Copy, PartialEq, Eq)]
pub struct SystemRules {
    pub links: LinkRules,
    pub resets: bool,
}

/// Whether decoders look at the address alone, by the word for what they look at.
fn by_address_of(word: &[u8]) -> Option<bool>
    ensures { result ≡ by_address_of word.now }
{
    if word == b"bytes".as_slice() {
        Some(false)
    } else if word == b"address".as_slice() {
        Some(true)
    } else {
        None
    }
}

/// The same by a table; if it says nothing, decoders look at all bytes.
#[tactic(auto, unfolding(crate::specs::Rules::by_address_in))]
fn by_address_in(table: &Table) -> Result<bool, SystemFault>
    ensures { Gives (λ by_address. by_address) result (by_address_in (table_view table.now)) }
{
    let Some(word) = text_if_any(table, Key::Decode)? else {
        return Ok(false);
    };
    match by_address_of(word.as_bytes()) {
        Some(by_address) => Ok(by_address),
        None => Err(SystemFault::OutOfRange(Key::Decode)),
    }
}

/// What a file's table says of the whole system.
#[tactic(auto, unfolding(crate::specs::Rules::rules_in))]
pub fn read_rules(table: &Table) -> Result<SystemRules, SystemFault>
    ensures { Gives (λ rules. rules) result (rules_in (table_view table.now)) }
{
    let unaligned = flag_at(table, Key::Unaligned)?;
    let corrupt = flag_at(table, Key::Corrupt)?;
    let by_address = by_address_in(table)?;
    let resets = flag_at(table, Key::Resets)?;
    let period = number_if_any(table, Key::Period, 1, LAST_INTEGER)?.unwrap_or(1);
    let links = LinkRules {
        unaligned,
        corrupt,
        by_address,
        period,
    };
    Ok(SystemRules { links, resets })
}
