//! The ports to which a master has a path.
ghost use Rattle.std.specs.Prelude.{◌≡◌, ◌==◌, IfOk, map, option_map};
ghost use Rattle.std.specs.List.{list_any};
ghost use Rattle.toml.specs.View.{table_view, view};
ghost use Rattle.tl_text.specs.Reading.{each};
ghost use Rattle.check_keys.specs.Reading.{Gives};
ghost use Rattle.check_keys.specs.Value.{integer_or_text_of, integer_or_text_view};
ghost use Rattle.check_description.specs.Port.{names_of_ports, port_view};
ghost use Rattle.check_description.specs.Reach.{are_distinct, count_set, flags_in, flags_of, port_of_element, reach_at as reach_of_table, reach_in as reach_of_value};
ghost use Rattle.check_description.specs.Called.{called_from};

use crate::called::{is_called, one_numbered};
use crate::port::Port;
use check_keys::{IntegerOrText, Key, SystemFault, array_of, find_value, integer_or_text_of};
use std::alloc::{AllocError, Global};
use tl_map::MAX_JUDGED_PORTS;
use toml::{Table, Value};

/// The number of the first port of this name.
fn port_called(ports: &[Port], name: &str) -> Option<usize>
    ensures { result ≡ called_from 0 name.now (names_of_ports (map port_view ports.now)) }
{
    for (number, port) in ports.iter().enumerate() {
        if is_called(&port.name, name) {
            return Some(number);
        }
    }
    None
}

/// The port that an element says.
fn port_of(ports: &[Port], said: IntegerOrText<'_>) -> Result<usize, SystemFault>
    ensures { Gives (λ port. port) result
        (port_of_element (names_of_ports (map port_view ports.now)) (integer_or_text_view said.entry)) }
{
    let port = match said {
        IntegerOrText::Number(number) => one_numbered(ports.len(), number),
        IntegerOrText::Text(name) => port_called(ports, name),
    };
    port.ok_or(SystemFault::OutOfRange(Key::Reach))
}

/// The ports that elements say.
fn read_each_number(
    alloc: Global,
    ports: &[Port],
    elements: &[IntegerOrText<'_>],
) -> Result<Vec<usize>, SystemFault>
    ensures { Gives (λ numbers. numbers.items) result
        (each (port_of_element (names_of_ports (map port_view ports.now))) (map integer_or_text_view elements.now)) }
{
    let mut numbers = Vec::with_capacity(alloc, elements.len())?;
    for element in elements {
        numbers.push(port_of(ports, *element)?)?;
    }
    Ok(numbers)
}

/// The integers and texts that the values at a key are.
pub(crate) fn read_each_element<'a>(
    alloc: Global,
    key: Key,
    values: &'a [Value],
) -> Result<Vec<IntegerOrText<'a>>, SystemFault>
    ensures { Gives (λ elements. map integer_or_text_view elements.items) result
        (each (integer_or_text_of key) (map view values.now)) }
{
    let mut elements = Vec::with_capacity(alloc, values.len())?;
    for value in values {
        elements.push(integer_or_text_of(value, key)?)?;
    }
    Ok(elements)
}

/// Whether a number is among these.
fn is_among(numbers: &[usize], number: usize) -> bool
    ensures { result ≡ list_any (λ n. n == number) numbers.now }
{
    for other in numbers {
        if *other == number {
            return true;
        }
    }
    false
}

/// For each of so many ports, whether its number is among these.
pub(crate) fn flags_of(
    alloc: Global,
    count: usize,
    numbers: &[usize],
) -> Result<Vec<bool>, AllocError>
    ensures { IfOk result (λ flags. flags.items ≡ flags_of count numbers.now) }
{
    let mut flags = Vec::with_capacity(alloc, count)?;
    for port in 0..count {
        flags.push(is_among(numbers, port))?;
    }
    Ok(flags)
}

/// How many flags are set.
fn count_set(flags: &[bool]) -> usize
    ensures { result ≡ count_set flags.now }
{
    let mut count = 0;
    for flag in flags {
        if *flag {
            count += 1;
        }
    }
    count
}

/// Whether each of these numbers below a count is another one.
pub(crate) fn are_distinct(
    alloc: Global,
    count: usize,
    numbers: &[usize],
) -> Result<bool, AllocError>
    ensures { IfOk result (λ distinct. distinct ≡ are_distinct count numbers.now) }
{
    let flags = flags_of(alloc, count, numbers)?;
    Ok(count_set(&flags) == numbers.len())
}

/// The flags of the ports that elements say, each of them another one.
fn flags_in(
    alloc: Global,
    ports: &[Port],
    elements: &[IntegerOrText<'_>],
) -> Result<Vec<bool>, SystemFault>
    ensures { Gives (λ flags. flags.items) result
        (flags_in (names_of_ports (map port_view ports.now)) (map integer_or_text_view elements.now)) }
{
    let numbers = read_each_number(alloc, ports, elements)?;
    let flags = flags_of(alloc, ports.len(), &numbers)?;
    if count_set(&flags) == numbers.len() {
        Ok(flags)
    } else {
        Err(SystemFault::OutOfRange(Key::Reach))
    }
}

/// The flags of the ports that a value lists.
#[tactic(auto, unfolding(crate::specs::Reach::reach_in))]
fn reach_in(alloc: Global, ports: &[Port], value: &Value) -> Result<Vec<bool>, SystemFault>
    ensures { Gives (λ flags. flags.items) result
        (reach_of_value (names_of_ports (map port_view ports.now)) (view value.now)) }
{
    let elements = read_each_element(alloc, Key::Reach, array_of(value, Key::Reach)?)?;
    if elements.len() > MAX_JUDGED_PORTS {
        return Err(SystemFault::OutOfRange(Key::Reach));
    }
    flags_in(alloc, ports, &elements)
}

/// For each port whether the master of a table has a path to it, if the table says so.
#[tactic(auto, unfolding(crate::specs::Reach::reach_at))]
pub fn reach_at(
    alloc: Global,
    ports: &[Port],
    table: &Table,
) -> Result<Option<Vec<bool>>, SystemFault>
    ensures { Gives (option_map (λ flags. flags.items)) result
        (reach_of_table (names_of_ports (map port_view ports.now)) (table_view table.now)) }
{
    match find_value(table, Key::Reach) {
        Some(value) => Ok(Some(reach_in(alloc, ports, value)?)),
        None => Ok(None),
    }
}
