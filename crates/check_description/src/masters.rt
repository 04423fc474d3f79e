//! The masters of a system file.
ghost use Rattle.std.specs.Prelude.{◌≡◌, map};
ghost use Rattle.std.specs.List.{list_any};
ghost use Rattle.toml.specs.View.{table_view};
ghost use Rattle.tl_text.specs.Reading.{each};
ghost use Rattle.check_keys.specs.Reading.{Gives};
ghost use Rattle.check_description.specs.Port.{names_of_ports, port_view};
ghost use Rattle.check_description.specs.Master.{first_at as first_of_table, has_first as has_first_key, master_of, master_tables, master_view, masters_of, stride_at as stride_of_table};

use crate::port::Port;
use crate::reach::reach_at;
use check_beats::Bus;
use check_keys::{
    Key, SystemFault, array_of, bus_in_table, find_value, flag_at, name_at, number_at,
    number_if_any, tables_of, value_at,
};
use std::alloc::Global;
use tl_map::{MAX_JUDGED_MASTERS, MAX_JUDGED_SOURCES, MAX_WIDE};
use toml::Table;

/// A master: its source `s` has the wide source `first + stride * s`, if it has a `first`. It has a path to each port whose
/// flag in `reach` is set, and to all ports if it has none.
#[derive(Debug, Drop)]
pub struct Master {
    pub name: Option<String>,
    pub sources: u32,
    pub first: Option<u16>,
    pub stride: u16,
    pub bus: Bus,
    pub reach: Option<Vec<bool>>,
    /// Whether replies at its link begin in the order in which their requests began there.
    pub fifo: bool,
}

/// Whether a master's table says where its wide sources begin.
fn has_first(table: &Table) -> bool
    ensures { result ≡ has_first_key (table_view table.now) }
{
    find_value(table, Key::First).is_some()
}

/// Whether some master's table does.
fn has_any_first(tables: &[&Table]) -> bool
    ensures { result ≡ list_any has_first_key (map (λ table. table_view table.now) tables.now) }
{
    for table in tables {
        if has_first(table) {
            return true;
        }
    }
    false
}

/// The first wide source, which has to be there if the masters are placed by the file.
#[tactic(auto, unfolding(crate::specs::Master::first_at))]
fn first_at(placed: bool, table: &Table) -> Result<Option<u16>, SystemFault>
    ensures { Gives (λ first. first) result (first_of_table placed (table_view table.now)) }
{
    if !placed {
        return Ok(None);
    }
    let first = number_at(table, Key::First, 0, u64::from(MAX_WIDE))?;
    Ok(Some(first as u16))
}

/// How far apart the wide sources of a master are.
#[tactic(auto, unfolding(crate::specs::Master::stride_at))]
fn stride_at(table: &Table) -> Result<u16, SystemFault>
    ensures { Gives (λ stride. stride) result (stride_of_table (table_view table.now)) }
{
    match number_if_any(table, Key::Stride, 1, u64::from(MAX_WIDE))? {
        Some(stride) => Ok(stride as u16),
        None => Ok(1),
    }
}

/// The master that a table describes, in a system whose links have this bus.
#[tactic(auto, unfolding(crate::specs::Master::master_of))]
fn read_master(
    alloc: Global,
    bus: Bus,
    ports: &[Port],
    placed: bool,
    table: &Table,
) -> Result<Master, SystemFault>
    ensures { Gives master_view result
        (master_of bus (names_of_ports (map port_view ports.now)) placed (table_view table.now)) }
{
    let name = name_at(alloc, table)?;
    let sources = number_at(table, Key::Sources, 1, u64::from(MAX_JUDGED_SOURCES))?;
    let first = first_at(placed, table)?;
    let stride = stride_at(table)?;
    let bus = bus_in_table(table, bus)?;
    let reach = reach_at(alloc, ports, table)?;
    let fifo = flag_at(table, Key::Fifo)?;
    Ok(Master {
        name,
        sources: sources as u32,
        first,
        stride,
        bus,
        reach,
        fifo,
    })
}

/// The masters that tables describe.
fn read_each_master(
    alloc: Global,
    bus: Bus,
    ports: &[Port],
    placed: bool,
    tables: &[&Table],
) -> Result<Vec<Master>, SystemFault>
    ensures { Gives (λ masters. map master_view masters.items) result
        (each (master_of bus (names_of_ports (map port_view ports.now)) placed) (map (λ table. table_view table.now) tables.now)) }
{
    let mut masters = Vec::new(alloc);
    for table in tables {
        masters.push(read_master(alloc, bus, ports, placed, table)?)?;
    }
    Ok(masters)
}

/// The tables of the masters, of which there is at least one.
#[tactic(auto, unfolding(crate::specs::Master::master_tables))]
fn tables_of_masters<'a>(alloc: Global, table: &'a Table) -> Result<Vec<&'a Table>, SystemFault>
    ensures { Gives (λ tables. map (λ table. table_view table.now) tables.items) result
        (master_tables (table_view table.now)) }
{
    let values = array_of(value_at(table, Key::Master)?, Key::Master)?;
    let tables = tables_of(alloc, values, Key::Master)?;
    if tables.is_empty() || tables.len() > MAX_JUDGED_MASTERS {
        return Err(SystemFault::OutOfRange(Key::Master));
    }
    Ok(tables)
}

/// The masters, in a system with these ports whose links have this bus.
#[tactic(auto, unfolding(crate::specs::Master::masters_of))]
pub fn read_masters(
    alloc: Global,
    bus: Bus,
    ports: &[Port],
    table: &Table,
) -> Result<Vec<Master>, SystemFault>
    ensures { Gives (λ masters. map master_view masters.items) result
        (masters_of bus (names_of_ports (map port_view ports.now)) (table_view table.now)) }
{
    let tables = tables_of_masters(alloc, table)?;
    read_each_master(alloc, bus, ports, has_any_first(&tables), &tables)
}
