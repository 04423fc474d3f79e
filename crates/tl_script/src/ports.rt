//! The ports of a script.
ghost use Rattle.std.specs.Prelude.{◌≡◌, ◌≤◌, All, IfOk, length, map, ok_or};
ghost use Rattle.toml.specs.View.{table_view};
ghost use Rattle.tl_text.specs.Reading.{each};
ghost use Rattle.tl_ops.specs.declared.bank.TheConstants.{MAX_LENGTH as LONGEST};
ghost use Rattle.tl_script.specs.Port.{filled, kind_at, script_kind_of, pairs_of, port_of, script_ports, reset_at};
ghost use Rattle.tl_script.specs.Reading.{GivesInScript};
ghost use Rattle.tl_script.specs.System.{store_of};
ghost use Rattle.tl_script.specs.declared.fault.ScriptKey.TheVariants.{Reset};
ghost use Rattle.tl_script.specs.declared.fault.ScriptFault.TheVariants.{OutOfRange};

use crate::fault::{ScriptFault, ScriptKey};
use crate::system::Device;
use crate::value::{
    find_script_value, list_at, script_number_at, script_tables_of, script_text_of, script_value_at,
};
use std::alloc::Global;
use tl_ops::{Kind, MAX_LENGTH};
use tl_text::read_pair;
use toml::Table;

/// The last address that a range may start at: the largest integer of a document.
const MAX_BASE: u64 = i64::MAX as u64;

/// The kind that a word names.
fn read_kind(word: &[u8]) -> Option<Kind>
    ensures { result ≡ script_kind_of word.now }
{
    if word == b"ram".as_slice() {
        Some(Kind::Ram)
    } else if word == b"rom".as_slice() {
        Some(Kind::Rom)
    } else if word == b"regs".as_slice() {
        Some(Kind::Regs)
    } else if word == b"w1c".as_slice() {
        Some(Kind::ClearRegs)
    } else {
        None
    }
}

#[tactic(auto, unfolding(crate::specs::Port::kind_at))]
fn kind_of_port(table: &Table) -> Result<Kind, ScriptFault>
    ensures { GivesInScript (λ kind. kind) result (kind_at (table_view table.now)) }
{
    let word = script_text_of(script_value_at(table, ScriptKey::Kind)?, ScriptKey::Kind)?;
    match read_kind(word.as_bytes()) {
        Some(kind) => Ok(kind),
        None => Err(ScriptFault::OutOfRange(ScriptKey::Kind)),
    }
}

/// The bytes that pairs of hexadecimal digits spell.
fn read_pairs(alloc: Global, text: &[u8]) -> Result<Vec<u8>, ScriptFault>
    ensures { GivesInScript (λ bytes. bytes.items) result (ok_or (pairs_of text.now) (OutOfRange Reset)) }
{
    let mut bytes = Vec::new(alloc);
    let mut rest = text;
    while let [high, low, more @ ..] = rest {
        let Some(byte) = read_pair(*high, *low) else {
            return Err(ScriptFault::OutOfRange(ScriptKey::Reset));
        };
        bytes.push(byte)?;
        rest = more;
    }
    if rest.is_empty() {
        Ok(bytes)
    } else {
        Err(ScriptFault::OutOfRange(ScriptKey::Reset))
    }
}

/// The bytes of a reset, with zero bytes after them up to `count`.
#[tactic(auto, unfolding(crate::specs::Port::filled))]
fn fill(alloc: Global, count: usize, text: &[u8]) -> Result<Vec<u8>, ScriptFault>
    requires { count ≤ LONGEST }
    ensures value { GivesInScript (λ bytes. bytes.items) result (filled count text.now) }
    ensures counted { IfOk result (λ bytes. length bytes.items ≡ count) }
{
    if text.len() > 2 * count {
        return Err(ScriptFault::OutOfRange(ScriptKey::Reset));
    }
    let mut bytes = read_pairs(alloc, text)?;
    bytes.resize(count, 0)?;
    Ok(bytes)
}

#[tactic(auto, unfolding(crate::specs::Port::reset_at))]
fn reset_of_port(alloc: Global, count: usize, table: &Table) -> Result<Vec<u8>, ScriptFault>
    requires { count ≤ LONGEST }
    ensures value { GivesInScript (λ bytes. bytes.items) result (reset_at count (table_view table.now)) }
    ensures counted { IfOk result (λ bytes. length bytes.items ≡ count) }
{
    match find_script_value(table, ScriptKey::Reset) {
        Some(value) => fill(
            alloc,
            count,
            script_text_of(value, ScriptKey::Reset)?.as_bytes(),
        ),
        None => fill(alloc, count, b""),
    }
}

#[tactic(auto, unfolding(crate::specs::Port::port_of))]
fn read_port(alloc: Global, table: &Table) -> Result<Device, ScriptFault>
    ensures value { GivesInScript store_of result (port_of (table_view table.now)) }
    ensures in_limit { IfOk result (λ device. length device.reset.items ≤ LONGEST) }
{
    let kind = kind_of_port(table)?;
    let base = script_number_at(table, ScriptKey::Base, 0, MAX_BASE)?;
    let count = script_number_at(table, ScriptKey::Length, 0, MAX_LENGTH as u64)?;
    let reset = reset_of_port(alloc, count as usize, table)?;
    Ok(Device { kind, base, reset })
}

fn read_each_port(alloc: Global, tables: &[&Table]) -> Result<Vec<Device>, ScriptFault>
    ensures value { GivesInScript (λ devices. map store_of devices.items) result
        (each port_of (map (λ table. table_view table.now) tables.now)) }
    ensures in_limit { IfOk result
        (λ devices. All (λ store. length store.bytes ≤ LONGEST) (map store_of devices.items)) }
{
    let mut devices = Vec::new(alloc);
    for table in tables {
        devices.push(read_port(alloc, table)?)?;
    }
    Ok(devices)
}

/// The device of each port, of which there may be none.
#[tactic(auto, unfolding(crate::specs::Port::script_ports))]
pub fn read_script_ports(alloc: Global, table: &Table) -> Result<Vec<Device>, ScriptFault>
    ensures value { GivesInScript (λ devices. map store_of devices.items) result
        (script_ports (table_view table.now)) }
    ensures in_limit { IfOk result
        (λ devices. All (λ store. length store.bytes ≤ LONGEST) (map store_of devices.items)) }
{
    let Some(ports) = find_script_value(table, ScriptKey::Port) else {
        return Ok(Vec::new(alloc));
    };
    let tables = script_tables_of(alloc, list_at(ports, ScriptKey::Port)?, ScriptKey::Port)?;
    read_each_port(alloc, &tables)
}
