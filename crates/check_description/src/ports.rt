//! Reads the ports of a system file.
ghost use Rattle.std.specs.Prelude.{◌≡◌, ◌≤◌, IfOk, length, map};
ghost use Rattle.toml.specs.View.{table_view};
ghost use Rattle.tl_text.specs.Reading.{each};
ghost use Rattle.check_keys.specs.Reading.{Gives};
ghost use Rattle.tl_map.specs.declared.limits.TheConstants.{MAX_JUDGED_PORTS};
ghost use Rattle.check_description.specs.Port.{port_of, port_tables, port_view, ports_of};

use crate::contents::contents_at;
use crate::crossing::port_crossing_at;
use crate::kind::kind_at;
use crate::listed::listed_at;
use crate::mirror::mirror_at;
use crate::on_reset::on_reset_at;
use crate::order::orders_at;
use crate::port::Port;
use crate::ranges::{first_length, ranges_at};
use crate::sizes::sizes_at;
use crate::volatile::volatile_at;
use check_beats::Bus;
use check_keys::{
    Key, SystemFault, array_of, bus_in_table, find_value, flag_at, name_at, tables_of,
};
use std::alloc::Global;
use tl_map::MAX_JUDGED_PORTS;
use toml::Table;

/// The port that a table describes, in a system whose links have this bus, and which has resets or none.
#[tactic(auto, unfolding(crate::specs::Port::port_of))]
pub fn read_port(alloc: Global, bus: Bus, resets: bool, table: &Table) -> Result<Port, SystemFault>
    ensures { Gives port_view result (port_of bus resets (table_view table.now)) }
{
    let name = name_at(alloc, table)?;
    let kind = kind_at(table)?;
    let ranges = ranges_at(alloc, table)?;
    let contents = contents_at(alloc, first_length(&ranges), table)?;
    let sizes = sizes_at(table)?;
    let orders = orders_at(table)?;
    let bus = bus_in_table(table, bus)?;
    let mirror = mirror_at(&ranges, table)?;
    let volatile = volatile_at(alloc, &ranges, table)?;
    let on_reset = on_reset_at(resets, kind, table)?;
    let listed = listed_at(alloc, table)?;
    let crossing = port_crossing_at(table)?;
    let fifo = flag_at(table, Key::Fifo)?;
    Ok(Port {
        name,
        kind,
        ranges,
        contents,
        sizes,
        orders,
        bus,
        mirror,
        volatile,
        on_reset,
        listed,
        crossing,
        fifo,
    })
}

/// The ports that tables describe.
fn read_each_port(
    alloc: Global,
    bus: Bus,
    resets: bool,
    tables: &[&Table],
) -> Result<Vec<Port>, SystemFault>
    ensures value { Gives (λ ports. map port_view ports.items) result
        (each (port_of bus resets) (map (λ table. table_view table.now) tables.now)) }
    ensures counted { IfOk result (λ ports. length ports.items ≡ length tables.now) }
{
    let mut ports = Vec::new(alloc);
    for table in tables {
        ports.push(read_port(alloc, bus, resets, table)?)?;
    }
    Ok(ports)
}

/// The tables of the ports.
#[tactic(auto, unfolding(crate::specs::Port::port_tables))]
fn tables_of_ports<'a>(alloc: Global, table: &'a Table) -> Result<Vec<&'a Table>, SystemFault>
    ensures value { Gives (λ tables. map (λ table. table_view table.now) tables.items) result
        (port_tables (table_view table.now)) }
    ensures few { IfOk result (λ tables. length tables.items ≤ MAX_JUDGED_PORTS) }
{
    let Some(ports) = find_value(table, Key::Port) else {
        return Ok(Vec::new(alloc));
    };
    let tables = tables_of(alloc, array_of(ports, Key::Port)?, Key::Port)?;
    if tables.len() > MAX_JUDGED_PORTS {
        return Err(SystemFault::OutOfRange(Key::Port));
    }
    Ok(tables)
}

/// The ports of a file, of which there may be none, in a system whose links have this bus, and which has resets or none; or
/// the first fault, port by port in the order of the keys.
#[tactic(auto, unfolding(crate::specs::Port::ports_of))]
pub fn read_ports(
    alloc: Global,
    bus: Bus,
    resets: bool,
    table: &Table,
) -> Result<Vec<Port>, SystemFault>
    ensures value { Gives (λ ports. map port_view ports.items) result
        (ports_of bus resets (table_view table.now)) }
    ensures few { IfOk result (λ ports. length ports.items ≤ MAX_JUDGED_PORTS) }
{
    let tables = tables_of_ports(alloc, table)?;
    read_each_port(alloc, bus, resets, &tables)
}
