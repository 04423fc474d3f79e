//! The names of ports and masters.
ghost use Rattle.std.specs.Prelude.{◌≡◌, option_map, string_bytes};
ghost use Rattle.std.specs.List.{list_all};
ghost use Rattle.toml.specs.View.{table_view};
ghost use Rattle.std.specs.Char.{is_ascii_digit};
ghost use Rattle.check_keys.specs.Name.{is_name as is_name_text, is_name_byte as is_byte_of_name, is_number_of_link as is_numbered, name_at as name_of_table, name_of_text};
ghost use Rattle.check_keys.specs.Reading.{Gives};

use crate::fault::{Key, SystemFault};
use crate::value::text_if_any;
use std::alloc::Global;
use toml::Table;

/// The most characters of a name.
pub const MAX_NAME: usize = 32;

/// Whether a byte may stand in a name.
fn is_name_byte(byte: u8) -> bool
    ensures { result ≡ is_byte_of_name byte }
{
    byte.is_ascii_alphanumeric() || byte == b'_' || byte == b'.' || byte == b'-'
}

/// Whether each byte may stand in a name.
fn are_name_bytes(text: &[u8]) -> bool
    ensures { result ≡ list_all is_byte_of_name text.now }
{
    text.iter().all(|byte| is_name_byte(*byte))
}

/// Whether each byte is a digit.
fn are_digits(text: &[u8]) -> bool
    ensures { result ≡ list_all is_ascii_digit text.now }
{
    text.iter().all(|byte| byte.is_ascii_digit())
}

/// Whether a text is `m` or `p` with digits alone after it, as captures and traces number the links.
fn is_number_of_link(text: &[u8]) -> bool
    ensures { result ≡ is_numbered text.now }
{
    match text {
        [first, digits @ ..] if !digits.is_empty() => {
            (*first == b'm' || *first == b'p') && are_digits(digits)
        }
        _ => false,
    }
}

/// Whether a text may be a name.
fn is_name(text: &[u8]) -> bool
    ensures { result ≡ is_name_text text.now }
{
    1 <= text.len() && text.len() <= MAX_NAME && are_name_bytes(text) && !is_number_of_link(text)
}

/// The name that a text is.
fn name_of(alloc: Global, text: &str) -> Result<String, SystemFault>
    ensures { Gives string_bytes result (name_of_text text.now) }
{
    if !is_name(text.as_bytes()) {
        return Err(SystemFault::OutOfRange(Key::Name));
    }
    Ok(String::from_str(alloc, text)?)
}

/// The name of a port or master, which may have none.
#[tactic(auto, unfolding(crate::specs::Name::name_at))]
pub fn name_at(alloc: Global, table: &Table) -> Result<Option<String>, SystemFault>
    ensures { Gives (option_map string_bytes) result (name_of_table (table_view table.now)) }
{
    match text_if_any(table, Key::Name)? {
        Some(text) => Ok(Some(name_of(alloc, text)?)),
        None => Ok(None),
    }
}
