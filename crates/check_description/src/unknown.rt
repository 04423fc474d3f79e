//! The first key of a system file that its table may not have.
ghost use Rattle.std.specs.Prelude.{◌≡◌, ◌≢◌, IfErr, OnOk, None, map, option_map};
ghost use Rattle.toml.specs.View.{table_view, view};
ghost use Rattle.check_keys.specs.declared.fault.SystemFault.TheVariants.{Memory};
ghost use Rattle.check_description.specs.Unknown.{IsUnknownFault, stray_at, stray_in, stray_in_array, stray_in_file, stray_in_link, stray_in_links, stray_in_sources, stray_in_tables, stray_of};

use check_keys::{Key, SystemFault, TableKind, find_member, find_value};
use std::alloc::Global;
use toml::{Table, Value};

/// A key that its table may not have, and the kind of that table.
#[derive(Debug, Clone, Copy)]
struct Stray<'a> {
    kind: TableKind,
    key: &'a str,
}

/// The first such key of a table.
fn stray_in(table: &Table, kind: TableKind) -> Option<Stray<'_>>
    ensures { option_map (λ stray. stray_of stray.kind stray.key.now) result ≡ stray_in kind (table_view table.now) }
{
    let key = kind.unknown_in(table)?;
    Some(Stray { kind, key })
}

/// That of the table that stands at a key, if a table does.
fn stray_at<'a>(table: &'a Table, name: &str, kind: TableKind) -> Option<Stray<'a>>
    ensures { option_map (λ stray. stray_of stray.kind stray.key.now) result
        ≡ stray_at name.now kind (table_view table.now) }
{
    let inner = find_member(table, name)?.as_table()?;
    stray_in(inner, kind)
}

/// That of the first table of a port's list that has one.
fn stray_in_tables(values: &[Value]) -> Option<Stray<'_>>
    ensures { option_map (λ stray. stray_of stray.kind stray.key.now) result ≡ stray_in_tables (map view values.now) }
{
    for item in values {
        let Some(table) = item.as_table() else {
            continue;
        };
        if let Some(stray) = stray_in(table, TableKind::Sources) {
            return Some(stray);
        }
    }
    None
}

/// That of the `sources` of a port's table, if there is an array of them.
#[tactic(auto, using(check_keys::proofs::Views::array_laws))]
fn stray_in_sources(value: Option<&Value>, kind: TableKind) -> Option<Stray<'_>>
    ensures { option_map (λ stray. stray_of stray.kind stray.key.now) result
        ≡ stray_in_sources kind (option_map (λ value. view value.now) value.entry) }
{
    match kind {
        TableKind::Port => stray_in_tables(value?.as_array()?.as_slice()),
        _ => None,
    }
}

/// That of a port's or of a master's table, its `sizes`, its `order`, a port's `sources`, and its `wires`.
#[tactic(auto, unfolding(crate::specs::Unknown::stray_in_link))]
fn stray_in_link(table: &Table, kind: TableKind) -> Option<Stray<'_>>
    ensures { option_map (λ stray. stray_of stray.kind stray.key.now) result
        ≡ stray_in_link kind (table_view table.now) }
{
    if let Some(stray) = stray_in(table, kind) {
        return Some(stray);
    }
    if let Some(stray) = stray_at(table, "sizes", TableKind::Sizes) {
        return Some(stray);
    }
    if let Some(stray) = stray_at(table, "order", TableKind::Orders) {
        return Some(stray);
    }
    if let Some(stray) = stray_in_sources(find_member(table, "sources"), kind) {
        return Some(stray);
    }
    stray_at(table, "wires", TableKind::Wires)
}

/// That of the first table of these values that has one.
fn stray_in_links(values: &[Value], kind: TableKind) -> Option<Stray<'_>>
    ensures { option_map (λ stray. stray_of stray.kind stray.key.now) result
        ≡ stray_in_links kind (map view values.now) }
{
    for item in values {
        let Some(table) = item.as_table() else {
            continue;
        };
        if let Some(stray) = stray_in_link(table, kind) {
            return Some(stray);
        }
    }
    None
}

/// That of the ports or the masters, if there is an array of them.
#[tactic(auto, using(check_keys::proofs::Views::array_laws))]
fn stray_in_array(value: Option<&Value>, kind: TableKind) -> Option<Stray<'_>>
    ensures { option_map (λ stray. stray_of stray.kind stray.key.now) result
        ≡ stray_in_array kind (option_map (λ value. view value.now) value.entry) }
{
    stray_in_links(value?.as_array()?.as_slice(), kind)
}

/// That of a file.
#[tactic(auto, unfolding(crate::specs::Unknown::stray_in_file))]
fn stray_in_file(table: &Table) -> Option<Stray<'_>>
    ensures { option_map (λ stray. stray_of stray.kind stray.key.now) result ≡ stray_in_file (table_view table.now) }
{
    if let Some(stray) = stray_in(table, TableKind::Top) {
        return Some(stray);
    }
    if let Some(stray) = stray_at(table, "names", TableKind::Names) {
        return Some(stray);
    }
    if let Some(stray) = stray_in_array(find_value(table, Key::Port), TableKind::Port) {
        return Some(stray);
    }
    stray_in_array(find_value(table, Key::Master), TableKind::Master)
}

/// Whether each key of a file is one that its table may have.
pub fn check_keys(alloc: Global, table: &Table) -> Result<(), SystemFault>
    ensures known { OnOk result (stray_in_file (table_view table.now) ≡ None) }
    ensures fault { IfErr result (λ fault. fault ≢ Memory
        → IsUnknownFault (stray_in_file (table_view table.now)) fault) }
{
    let Some(stray) = stray_in_file(table) else {
        return Ok(());
    };
    let unknown = stray.kind.unknown_key(alloc, stray.key)?;
    Err(SystemFault::UnknownKey(unknown))
}
