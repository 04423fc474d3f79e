//! The values at the keys of a script. Only here is a table of `toml` looked into.
ghost use Rattle.std.specs.Prelude.{◌≡◌, ◌≤◌, IfOk, map, option_map};
ghost use Rattle.toml.specs.Data.{get_member};
ghost use Rattle.toml.specs.View.{view, table_view};
ghost use Rattle.tl_text.specs.Reading.{each};
ghost use Rattle.tl_script.specs.Key.{script_key_name};
ghost use Rattle.tl_script.specs.Reading.{GivesInScript};
ghost use Rattle.tl_script.specs.Value.{script_value_at as value_of_key, script_number_at as number_of_key, list_at as list_of_value, script_table_of as table_of_value, script_text_of as text_of_value};

use crate::fault::{ScriptFault, ScriptKey};
use std::alloc::Global;
use toml::{Table, Value};

/// The value at a key, if it is there.
pub fn find_script_value(table: &Table, key: ScriptKey) -> Option<&Value>
    ensures { option_map (λ value. view value.now) result
        ≡ get_member (script_key_name key) (table_view table.now) }
{
    table.get(key.name())
}

/// The value at a key that has to be there.
#[tactic(auto, unfolding(crate::specs::Value::script_value_at))]
pub fn script_value_at(table: &Table, key: ScriptKey) -> Result<&Value, ScriptFault>
    ensures { GivesInScript (λ value. view value.now) result (value_of_key key (table_view table.now)) }
{
    match find_script_value(table, key) {
        Some(value) => Ok(value),
        None => Err(ScriptFault::Missing(key)),
    }
}

/// The number at a key, from `low` to `high`.
#[tactic(auto, unfolding(crate::specs::Value::script_number_at))]
pub fn script_number_at(
    table: &Table,
    key: ScriptKey,
    low: u64,
    high: u64,
) -> Result<u64, ScriptFault>
    ensures value { GivesInScript (λ n. n) result (number_of_key key low high (table_view table.now)) }
    ensures range { IfOk result (λ n. (low ≤ n) × (n ≤ high)) }
{
    let value = script_value_at(table, key)?;
    let number = value.as_integer().ok_or(ScriptFault::WrongType(key))?;
    match u64::try_from(number) {
        Ok(number) if low <= number && number <= high => Ok(number),
        _ => Err(ScriptFault::OutOfRange(key)),
    }
}

/// The text of a value.
pub fn script_text_of(value: &Value, key: ScriptKey) -> Result<&str, ScriptFault>
    ensures { GivesInScript (λ text. text.now) result (text_of_value key (view value.now)) }
{
    match value.as_str() {
        Some(text) => Ok(text),
        None => Err(ScriptFault::WrongType(key)),
    }
}

/// The values of an array.
#[tactic(auto, using(crate::proofs::Views::array_laws), unfolding(crate::specs::Value::list_at))]
pub fn list_at(value: &Value, key: ScriptKey) -> Result<&[Value], ScriptFault>
    ensures { GivesInScript (λ values. map view values.now) result (list_of_value key (view value.now)) }
{
    match value.as_array() {
        Some(array) => Ok(array.as_slice()),
        None => Err(ScriptFault::WrongType(key)),
    }
}

/// The tables among which each value has to be.
pub fn script_tables_of<'a>(
    alloc: Global,
    values: &'a [Value],
    key: ScriptKey,
) -> Result<Vec<&'a Table>, ScriptFault>
    ensures { GivesInScript (λ tables. map (λ table. table_view table.now) tables.items) result
        (each (table_of_value key) (map view values.now)) }
{
    let mut tables = Vec::with_capacity(alloc, values.len())?;
    for value in values {
        match value.as_table() {
            Some(table) => tables.push(table)?,
            None => return Err(ScriptFault::WrongType(key)),
        }
    }
    Ok(tables)
}

/// The texts among which each value has to be.
pub fn script_texts_of<'a>(
    alloc: Global,
    values: &'a [Value],
    key: ScriptKey,
) -> Result<Vec<&'a str>, ScriptFault>
    ensures { GivesInScript (λ texts. map (λ text. text.now) texts.items) result
        (each (text_of_value key) (map view values.now)) }
{
    let mut texts = Vec::with_capacity(alloc, values.len())?;
    for value in values {
        texts.push(script_text_of(value, key)?)?;
    }
    Ok(texts)
}
