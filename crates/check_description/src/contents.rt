//! What a port holds before any request.
ghost use Rattle.std.specs.Prelude.{◌≡◌, ◌≤◌, IfOk, length, option_map, string_bytes};
ghost use Rattle.toml.specs.View.{table_view};
ghost use Rattle.check_keys.specs.Reading.{Gives};
ghost use Rattle.check_description.specs.Contents.{contents_at as contents_of_table, image_name_at as image_of_table, reset_at as reset_of_table, reset_of as reset_of_text};
ghost use Rattle.check_description.specs.Port.{contents_view};

use crate::port::Contents;
use check_keys::{Key, SystemFault, bytes_of, flag_at, text_if_any};
use std::alloc::Global;
use toml::Table;

/// The bytes that a text spells, at most `most`.
fn reset_of(alloc: Global, most: u64, text: &[u8]) -> Result<Vec<u8>, SystemFault>
    ensures value { Gives (λ bytes. bytes.items) result (reset_of_text most text.now) }
    ensures few { IfOk result (λ bytes. length bytes.items ≤ most) }
{
    let bytes = bytes_of(alloc, text, Key::Reset)?;
    if bytes.len() as u64 > most {
        return Err(SystemFault::OutOfRange(Key::Reset));
    }
    Ok(bytes)
}

/// The first bytes of a port of a first range of so many, which may be none.
#[tactic(auto, unfolding(crate::specs::Contents::reset_at))]
fn reset_at(alloc: Global, most: u64, table: &Table) -> Result<Vec<u8>, SystemFault>
    ensures value { Gives (λ bytes. bytes.items) result (reset_of_table most (table_view table.now)) }
    ensures few { IfOk result (λ bytes. length bytes.items ≤ most) }
{
    match text_if_any(table, Key::Reset)? {
        Some(text) => reset_of(alloc, most, text.as_bytes()),
        None => Ok(Vec::new(alloc)),
    }
}

/// The name of a port's file, which may have none.
#[tactic(auto, unfolding(crate::specs::Contents::image_name_at))]
fn image_at(alloc: Global, table: &Table) -> Result<Option<String>, SystemFault>
    ensures { Gives (option_map string_bytes) result (image_of_table (table_view table.now)) }
{
    match text_if_any(table, Key::Image)? {
        Some(text) => Ok(Some(String::from_str(alloc, text)?)),
        None => Ok(None),
    }
}

/// What a port of a first range of so many bytes holds.
#[tactic(auto, unfolding(crate::specs::Contents::contents_at))]
pub fn contents_at(alloc: Global, most: u64, table: &Table) -> Result<Contents, SystemFault>
    ensures value { Gives contents_view result (contents_of_table most (table_view table.now)) }
    ensures few { IfOk result (λ contents. length contents.reset.items ≤ most) }
{
    let reset = reset_at(alloc, most, table)?;
    let image = image_at(alloc, table)?;
    let unknown = flag_at(table, Key::Unknown)?;
    Ok(Contents {
        reset,
        image,
        unknown,
    })
}
