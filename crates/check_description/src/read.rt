//! Reads the parts that a file names.
ghost use Rattle.std.specs.Prelude.{◌≢◌, IfErr, IfOk};
ghost use Rattle.toml.specs.View.{table_view};
ghost use Rattle.check_keys.specs.Reading.{Gives};
ghost use Rattle.check_keys.specs.declared.fault.SystemFault.TheVariants.{Memory};
ghost use Rattle.check_description.specs.File.{document_of, parts_in, parts_view};
ghost use Rattle.check_description.specs.Name.{IsFirstPartFault, NamesParts};

use crate::masters::read_masters;
use crate::names::check_names;
use crate::parts::Parts;
use crate::placed::{find_paths, place_masters};
use crate::ports::read_ports;
use crate::rules::read_rules;
use crate::unknown::check_keys;
use check_beats::Bus;
use check_keys::{SystemFault, bus_in_table};
use std::alloc::Global;
use toml::Table;

/// The most bytes of a system file.
pub const MAX_SYSTEM: usize = 1_048_576;

/// The table of a file.
#[tactic(auto, using(crate::proofs::Views::text_tests), unfolding(crate::specs::File::document_of))]
fn read_document(alloc: Global, bytes: &[u8]) -> Result<Table, SystemFault>
    ensures { Gives table_view result (document_of bytes.now) }
{
    if bytes.len() > MAX_SYSTEM {
        return Err(SystemFault::TooLong);
    }
    let Ok(text) = std::str::from_utf8(bytes) else {
        return Err(SystemFault::NotToml);
    };
    match toml::table_from_str(alloc, text) {
        Ok(table) => Ok(table),
        Err(error) if error.is_memory() => Err(SystemFault::Memory),
        Err(_) => Err(SystemFault::NotToml),
    }
}

/// The parts that a file's table names. If it says no bus, its links have eight bytes.
#[tactic(auto, unfolding(crate::specs::File::parts_in))]
fn read_tables(alloc: Global, table: &Table) -> Result<Parts, SystemFault>
    ensures { Gives parts_view result (parts_in (table_view table.now)) }
{
    let bus = bus_in_table(table, Bus::Eight)?;
    let rules = read_rules(table)?;
    let ports = read_ports(alloc, bus, rules.resets, table)?;
    let masters = read_masters(alloc, bus, &ports, table)?;
    let lists = place_masters(alloc, &masters, &ports)?;
    let paths = find_paths(alloc, &lists, &masters)?;
    Ok(Parts {
        rules: rules.links,
        resets: rules.resets,
        ports,
        masters,
        lists,
        paths,
    })
}

/// The parts that a file names, or its first fault in the order of the checks: that it is no document, a key that no table
/// may have, one on the way to the parts, or a name that stands twice. Want of memory may be answered at any point.
pub fn read_parts(alloc: Global, bytes: &[u8]) -> Result<Parts, SystemFault>
    ensures named { IfOk result (λ parts. NamesParts bytes.now (parts_view parts)) }
    ensures fault { IfErr result (λ fault. fault ≢ Memory → IsFirstPartFault bytes.now fault) }
{
    let table = read_document(alloc, bytes)?;
    check_keys(alloc, &table)?;
    let parts = read_tables(alloc, &table)?;
    check_names(alloc, &parts)?;
    Ok(parts)
}
