//! The values at the keys of a system file. Only here is a table of `toml` looked into.
ghost use Rattle.std.specs.Prelude.{◌≡◌, ◌≤◌, IfOk, IfSome, OnOk, length, map, option_map};
ghost use Rattle.toml.specs.Data.{get_member};
ghost use Rattle.toml.specs.View.{view, table_view};
ghost use Rattle.tl_text.specs.Reading.{each};
ghost use Rattle.check_keys.specs.Key.{key_name};
ghost use Rattle.check_keys.specs.Reading.{Gives};
ghost use Rattle.check_keys.specs.Value.{array_of as array_of_value, bytes_of as bytes_of_text, integer_or_text_of as integer_or_text_of_value, integer_or_text_view, flag_at as flag_of_key, in_range as range_of_key, integer_of as integer_of_value, number_at as number_of_key, number_if_any as any_number_of_key, number_in_value as number_of_value, pair_in_value as pair_of_value, table_of as table_of_value, text_if_any as any_text_of_key, text_of as text_of_value, two_of as two_of_values, value_at as value_of_key};

use crate::fault::{Key, SystemFault};
use std::alloc::Global;
use tl_text::read_pair;
use toml::{Table, Value};

/// The last number that a key may have: the largest integer of a document.
pub const LAST_INTEGER: u64 = i64::MAX as u64;

/// The value of a member, if it is there.
pub fn find_member<'a>(table: &'a Table, name: &str) -> Option<&'a Value>
    ensures { option_map (λ value. view value.now) result
        ≡ get_member name.now (table_view table.now) }
{
    table.get(name)
}

/// The value at a key, if it is there.
pub fn find_value(table: &Table, key: Key) -> Option<&Value>
    ensures { option_map (λ value. view value.now) result
        ≡ get_member (key_name key) (table_view table.now) }
{
    find_member(table, key.name())
}

/// The value at a key that has to be there.
#[tactic(auto, unfolding(crate::specs::Value::value_at))]
pub fn value_at(table: &Table, key: Key) -> Result<&Value, SystemFault>
    ensures { Gives (λ value. view value.now) result (value_of_key key (table_view table.now)) }
{
    match find_value(table, key) {
        Some(value) => Ok(value),
        None => Err(SystemFault::Missing(key)),
    }
}

/// The integer that a value is.
pub fn integer_of(value: &Value, key: Key) -> Result<i64, SystemFault>
    ensures { Gives (λ n. n) result (integer_of_value key (view value.now)) }
{
    match value.as_integer() {
        Some(number) => Ok(number),
        None => Err(SystemFault::WrongType(key)),
    }
}

/// The number, if it is from `low` to `high`.
pub fn in_range(number: i64, key: Key, low: u64, high: u64) -> Result<u64, SystemFault>
    ensures value { Gives (λ n. n) result (range_of_key key low high number) }
    ensures range { IfOk result (λ n. (low ≤ n) × (n ≤ high)) }
{
    match u64::try_from(number) {
        Ok(number) if low <= number && number <= high => Ok(number),
        _ => Err(SystemFault::OutOfRange(key)),
    }
}

/// The number that a value is, from `low` to `high`.
#[tactic(auto, unfolding(crate::specs::Value::number_in_value))]
pub fn number_in_value(value: &Value, key: Key, low: u64, high: u64) -> Result<u64, SystemFault>
    ensures value { Gives (λ n. n) result (number_of_value key low high (view value.now)) }
    ensures range { IfOk result (λ n. (low ≤ n) × (n ≤ high)) }
{
    in_range(integer_of(value, key)?, key, low, high)
}

/// The number at a key that has to be there, from `low` to `high`.
#[tactic(auto, unfolding(crate::specs::Value::number_at))]
pub fn number_at(table: &Table, key: Key, low: u64, high: u64) -> Result<u64, SystemFault>
    ensures value { Gives (λ n. n) result (number_of_key key low high (table_view table.now)) }
    ensures range { IfOk result (λ n. (low ≤ n) × (n ≤ high)) }
{
    number_in_value(value_at(table, key)?, key, low, high)
}

/// The number at a key that may be absent, from `low` to `high`.
#[tactic(auto, unfolding(crate::specs::Value::number_if_any))]
pub fn number_if_any(
    table: &Table,
    key: Key,
    low: u64,
    high: u64,
) -> Result<Option<u64>, SystemFault>
    ensures value { Gives (λ n. n) result (any_number_of_key key low high (table_view table.now)) }
    ensures range { IfOk result (λ n. IfSome n (λ n. (low ≤ n) × (n ≤ high))) }
{
    match find_value(table, key) {
        Some(value) => Ok(Some(number_in_value(value, key, low, high)?)),
        None => Ok(None),
    }
}

/// The boolean at a key, which is false if it is absent.
#[tactic(auto, unfolding(crate::specs::Value::flag_at))]
pub fn flag_at(table: &Table, key: Key) -> Result<bool, SystemFault>
    ensures { Gives (λ flag. flag) result (flag_of_key key (table_view table.now)) }
{
    let Some(value) = find_value(table, key) else {
        return Ok(false);
    };
    match value.as_bool() {
        Some(flag) => Ok(flag),
        None => Err(SystemFault::WrongType(key)),
    }
}

/// The text of a value.
pub fn text_of(value: &Value, key: Key) -> Result<&str, SystemFault>
    ensures { Gives (λ text. text.now) result (text_of_value key (view value.now)) }
{
    match value.as_str() {
        Some(text) => Ok(text),
        None => Err(SystemFault::WrongType(key)),
    }
}

/// The text at a key that may be absent.
#[tactic(auto, unfolding(crate::specs::Value::text_if_any))]
pub fn text_if_any(table: &Table, key: Key) -> Result<Option<&str>, SystemFault>
    ensures { Gives (option_map (λ text. text.now)) result
        (any_text_of_key key (table_view table.now)) }
{
    match find_value(table, key) {
        Some(value) => Ok(Some(text_of(value, key)?)),
        None => Ok(None),
    }
}

/// A value that is an integer or a text.
#[derive(Debug, Clone, Copy)]
pub enum IntegerOrText<'a> {
    Number(i64),
    Text(&'a str),
}

/// The integer or the text that a value is.
pub fn integer_or_text_of(value: &Value, key: Key) -> Result<IntegerOrText<'_>, SystemFault>
    ensures { Gives integer_or_text_view result (integer_or_text_of_value key (view value.now)) }
{
    if let Some(number) = value.as_integer() {
        return Ok(IntegerOrText::Number(number));
    }
    match value.as_str() {
        Some(text) => Ok(IntegerOrText::Text(text)),
        None => Err(SystemFault::WrongType(key)),
    }
}

/// The bytes that pairs of hexadecimal digits spell.
pub fn bytes_of(alloc: Global, text: &[u8], key: Key) -> Result<Vec<u8>, SystemFault>
    ensures { Gives (λ bytes. bytes.items) result (bytes_of_text key text.now) }
{
    let mut bytes = Vec::new(alloc);
    let mut rest = text;
    while let [high, low, more @ ..] = rest {
        let Some(byte) = read_pair(*high, *low) else {
            return Err(SystemFault::OutOfRange(key));
        };
        bytes.push(byte)?;
        rest = more;
    }
    if rest.is_empty() {
        Ok(bytes)
    } else {
        Err(SystemFault::OutOfRange(key))
    }
}

/// The values of an array.
#[tactic(auto, using(crate::proofs::Views::array_laws), unfolding(crate::specs::Value::array_of))]
pub fn array_of(value: &Value, key: Key) -> Result<&[Value], SystemFault>
    ensures { Gives (λ values. map view values.now) result (array_of_value key (view value.now)) }
{
    match value.as_array() {
        Some(array) => Ok(array.as_slice()),
        None => Err(SystemFault::WrongType(key)),
    }
}

/// The integers that two values are.
fn two_of(values: &[Value], key: Key) -> Result<(i64, i64), SystemFault>
    ensures { Gives (λ pair. pair) result (two_of_values key (map view values.now)) }
{
    let [first, second] = values else {
        return Err(SystemFault::WrongType(key));
    };
    let first = integer_of(first, key)?;
    let second = integer_of(second, key)?;
    Ok((first, second))
}

/// The two integers of which a value is an array.
#[tactic(auto, unfolding(crate::specs::Value::pair_in_value))]
pub fn pair_in_value(value: &Value, key: Key) -> Result<(i64, i64), SystemFault>
    ensures { Gives (λ pair. pair) result (pair_of_value key (view value.now)) }
{
    two_of(array_of(value, key)?, key)
}

/// The table that a value is.
pub fn table_of(value: &Value, key: Key) -> Result<&Table, SystemFault>
    ensures { Gives (λ table. table_view table.now) result (table_of_value key (view value.now)) }
{
    match value.as_table() {
        Some(table) => Ok(table),
        None => Err(SystemFault::WrongType(key)),
    }
}

/// The tables among which each value has to be.
pub fn tables_of<'a>(
    alloc: Global,
    values: &'a [Value],
    key: Key,
) -> Result<Vec<&'a Table>, SystemFault>
    ensures { Gives (λ tables. map (λ table. table_view table.now) tables.items) result
        (each (table_of_value key) (map view values.now)) }
{
    let mut tables = Vec::with_capacity(alloc, values.len())?;
    for value in values {
        tables.push(table_of(value, key)?)?;
    }
    Ok(tables)
}
