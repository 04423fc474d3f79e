//! The masters that reach a port which lists them, and the ports to which each master has a path.
ghost use Rattle.std.specs.Prelude.{◌≡◌, IfOk, is_some, length, map, option_map};
ghost use Rattle.std.specs.List.{list_any};
ghost use Rattle.tl_text.specs.Reading.{each};
ghost use Rattle.check_keys.specs.Reading.{Gives};
ghost use Rattle.check_description.specs.Called.{called_from, said_by};
ghost use Rattle.check_description.specs.Listed.{list_view, listed_view, word_view};
ghost use Rattle.check_description.specs.Master.{master_view};
ghost use Rattle.check_description.specs.Port.{port_view};
ghost use Rattle.check_description.specs.Placed.{contradicts_from, flags_from, has_path_by as has_path_by_list, is_listed as is_listed_there, lists_view, names_of_masters, master_numbers as numbers_of_masters, path_at as path_to_port, paths_at as paths_by_lists, paths_from, paths_view, placed_at as placed_at_port, placed_by as placed_by_word, placed_in as placed_in_list, placed_of, said_at as said_of_port};

use crate::called::{is_called, one_numbered};
use crate::listed::{ListedMaster, ListedMasters, MasterWord};
use crate::masters::Master;
use crate::port::Port;
use crate::reach::are_distinct;
use check_keys::{Key, SystemFault};
use std::alloc::{AllocError, Global};

/// A master that a port lists, by its number: its source `s` has the source `first + stride * s` at the port's link.
#[derive(Debug, Clone, Copy, PartialEq, Eq)]
pub struct PlacedMaster {
    pub master: usize,
    pub first: u16,
    pub stride: u16,
}

/// The number of the first master of this name.
fn master_called(masters: &[Master], name: &str) -> Option<usize>
    ensures { result ≡ called_from 0 name.now (names_of_masters (map master_view masters.now)) }
{
    for (number, master) in masters.iter().enumerate() {
        if is_called(&master.name, name) {
            return Some(number);
        }
    }
    None
}

/// The master that a list says.
fn master_said(masters: &[Master], word: &MasterWord) -> Option<usize>
    ensures { result ≡ said_by (names_of_masters (map master_view masters.now)) (word_view word.now) }
{
    match word {
        MasterWord::Number(number) => one_numbered(masters.len(), *number),
        MasterWord::Name(name) => master_called(masters, name.as_str()),
    }
}

/// A master of a list, by its number.
#[tactic(auto, unfolding(crate::specs::Placed::placed_by))]
fn placed_by(
    masters: &[Master],
    key: Key,
    listed: &ListedMaster,
) -> Result<PlacedMaster, SystemFault>
    ensures { Gives (λ placed. placed) result
        (placed_by_word (names_of_masters (map master_view masters.now)) key (listed_view listed.now)) }
{
    let Some(master) = master_said(masters, &listed.master) else {
        return Err(SystemFault::OutOfRange(key));
    };
    Ok(PlacedMaster {
        master,
        first: listed.first,
        stride: listed.stride,
    })
}

/// The masters of a list, by their numbers.
fn place_each(
    alloc: Global,
    masters: &[Master],
    key: Key,
    listed: &[ListedMaster],
) -> Result<Vec<PlacedMaster>, SystemFault>
    ensures { Gives (λ placed. placed.items) result
        (each (placed_by_word (names_of_masters (map master_view masters.now)) key) (map listed_view listed.now)) }
{
    let mut placed = Vec::with_capacity(alloc, listed.len())?;
    for one in listed {
        placed.push(placed_by(masters, key, one)?)?;
    }
    Ok(placed)
}

/// Their numbers.
fn master_numbers(alloc: Global, placed: &[PlacedMaster]) -> Result<Vec<usize>, AllocError>
    ensures { IfOk result (λ numbers. numbers.items ≡ numbers_of_masters placed.now) }
{
    let mut numbers = Vec::with_capacity(alloc, placed.len())?;
    for one in placed {
        numbers.push(one.master)?;
    }
    Ok(numbers)
}

/// The masters of a list, each of them another one.
#[tactic(auto, unfolding(crate::specs::Placed::placed_in))]
fn placed_in(
    alloc: Global,
    masters: &[Master],
    list: &ListedMasters,
) -> Result<Vec<PlacedMaster>, SystemFault>
    ensures { Gives (λ placed. placed.items) result
        (placed_in_list (names_of_masters (map master_view masters.now)) (list_view list.now)) }
{
    let placed = place_each(alloc, masters, list.key, &list.masters)?;
    let numbers = master_numbers(alloc, &placed)?;
    if are_distinct(alloc, masters.len(), &numbers)? {
        Ok(placed)
    } else {
        Err(SystemFault::OutOfRange(list.key))
    }
}

/// The masters that a port lists, if it lists any.
fn placed_at(
    alloc: Global,
    masters: &[Master],
    port: &Port,
) -> Result<Option<Vec<PlacedMaster>>, SystemFault>
    ensures { Gives (option_map (λ placed. placed.items)) result
        (placed_at_port (names_of_masters (map master_view masters.now)) (port_view port.now)) }
{
    match &port.listed {
        Some(list) => Ok(Some(placed_in(alloc, masters, list)?)),
        None => Ok(None),
    }
}

/// The masters that each port lists which lists any.
pub(crate) fn place_masters(
    alloc: Global,
    masters: &[Master],
    ports: &[Port],
) -> Result<Vec<Option<Vec<PlacedMaster>>>, SystemFault>
    ensures value { Gives lists_view result
        (placed_of (names_of_masters (map master_view masters.now)) (map port_view ports.now)) }
{
    let mut lists = Vec::with_capacity(alloc, ports.len())?;
    for port in ports {
        lists.push(placed_at(alloc, masters, port)?)?;
    }
    Ok(lists)
}

/// Whether a master is one of those that a port lists.
fn is_listed(master: usize, placed: &[PlacedMaster]) -> bool
    ensures { result ≡ is_listed_there master placed.now }
{
    for one in placed {
        if one.master == master {
            return true;
        }
    }
    false
}

/// Whether a master has a path to a port, by what the port lists or else by what the master says itself.
fn has_path_by(master: usize, said: bool, list: &Option<Vec<PlacedMaster>>) -> bool
    ensures { result ≡ has_path_by_list master said (option_map (λ placed. placed.items) list.now) }
{
    match list {
        Some(placed) => is_listed(master, placed),
        None => said,
    }
}

/// What a master says itself of the port of a number.
fn said_at(said: &Option<Vec<bool>>, port: usize) -> bool
    ensures { result ≡ said_of_port (option_map (λ flags. flags.items) said.now) port }
{
    match said {
        Some(flags) => flags.get(port).copied().unwrap_or(false),
        None => true,
    }
}

/// Whether a master has a path to the port of a number.
fn path_at(
    master: usize,
    said: &Option<Vec<bool>>,
    port: usize,
    list: &Option<Vec<PlacedMaster>>,
) -> bool
    ensures { result ≡ path_to_port master (option_map (λ flags. flags.items) said.now) port
        (option_map (λ placed. placed.items) list.now) }
{
    has_path_by(master, said_at(said, port), list)
}

/// For each port whether a master has a path to it.
fn flags_by(
    alloc: Global,
    lists: &[Option<Vec<PlacedMaster>>],
    master: usize,
    said: &Option<Vec<bool>>,
) -> Result<Vec<bool>, AllocError>
    ensures { IfOk result (λ flags. flags.items ≡ flags_from 0 master (option_map (λ flags. flags.items) said.now)
        (map (option_map (λ placed. placed.items)) lists.now)) }
{
    let mut flags = Vec::with_capacity(alloc, lists.len())?;
    for (port, list) in lists.iter().enumerate() {
        flags.push(path_at(master, said, port, list))?;
    }
    Ok(flags)
}

/// Whether a master says something else itself than ports list.
fn contradicts(lists: &[Option<Vec<PlacedMaster>>], master: usize, said: &Option<Vec<bool>>) -> bool
    ensures { result ≡ contradicts_from 0 master (option_map (λ flags. flags.items) said.now)
        (map (option_map (λ placed. placed.items)) lists.now) }
{
    for (port, list) in lists.iter().enumerate() {
        if path_at(master, said, port, list) != said_at(said, port) {
            return true;
        }
    }
    false
}

/// Whether some port lists masters.
pub(crate) fn are_listed(lists: &[Option<Vec<PlacedMaster>>]) -> bool
    ensures { result ≡ list_any is_some (map (option_map (λ placed. placed.items)) lists.now) }
{
    for list in lists {
        if list.is_some() {
            return true;
        }
    }
    false
}

/// The paths of a master: to all ports if neither it nor any port says something else.
#[tactic(auto, unfolding(crate::specs::Placed::paths_at))]
fn paths_at(
    alloc: Global,
    lists: &[Option<Vec<PlacedMaster>>],
    number: usize,
    said: &Option<Vec<bool>>,
) -> Result<Option<Vec<bool>>, SystemFault>
    ensures { Gives (option_map (λ flags. flags.items)) result
        (paths_by_lists (map (option_map (λ placed. placed.items)) lists.now) number
        (option_map (λ flags. flags.items) said.now)) }
{
    let Some(flags) = said else {
        if !are_listed(lists) {
            return Ok(None);
        }
        return Ok(Some(flags_by(alloc, lists, number, said)?));
    };
    if contradicts(lists, number, said) {
        return Err(SystemFault::OutOfRange(Key::Reach));
    }
    Ok(Some(Vec::from_slice(alloc, flags)?))
}

/// The paths of each master.
pub(crate) fn find_paths(
    alloc: Global,
    lists: &[Option<Vec<PlacedMaster>>],
    masters: &[Master],
) -> Result<Vec<Option<Vec<bool>>>, SystemFault>
    ensures value { Gives paths_view result
        (paths_from (map (option_map (λ placed. placed.items)) lists.now) 0 (map master_view masters.now)) }
    ensures counted { IfOk result (λ paths. length paths.items ≡ length masters.now) }
{
    let mut paths = Vec::with_capacity(alloc, masters.len())?;
    for (number, master) in masters.iter().enumerate() {
        paths.push(paths_at(alloc, lists, number, &master.reach)?)?;
    }
    Ok(paths)
}
