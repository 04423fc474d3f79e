//! The masters that a port lists, and where their sources are at its link.
ghost use Rattle.std.specs.Prelude.{◌≡◌, ◌≤◌, IfOk, length, map, option_map};
ghost use Rattle.toml.specs.Data.{get_member};
ghost use Rattle.toml.specs.View.{table_view, view};
ghost use Rattle.tl_text.specs.Reading.{each, if_any};
ghost use Rattle.check_keys.specs.Key.{key_name};
ghost use Rattle.check_keys.specs.Reading.{Gives};
ghost use Rattle.check_keys.specs.Value.{integer_of as integer_of_value, integer_or_text_view};
ghost use Rattle.check_keys.specs.declared.fault.Key.TheVariants.{Hosts, Sources};
ghost use Rattle.check_description.specs.Listed.{host_stride as stride_of_hosts, hosts_from, hosts_in as hosts_of_value, list_view, listed_at as list_of_table, listed_of_said, listed_view, member_of_list, one_list, said_in_table, said_view, stride_of_said, sources_in as sources_of_value, word_view};

use crate::reach::read_each_element;
use check_keys::{
    IntegerOrText, Key, SystemFault, array_of, find_value, in_range, integer_of,
    integer_or_text_of, tables_of,
};
use std::alloc::{AllocError, Global};
use tl_map::{MAX_JUDGED_MASTERS, MAX_WIDE};
use toml::{Table, Value};

/// What a list says of a master: its number or its name.
#[derive(Debug, Drop)]
pub enum MasterWord {
    Number(i64),
    Name(String),
}

/// A master that a port lists: its source `s` has the source `first + stride * s` at the port's link.
#[derive(Debug, Drop)]
pub struct ListedMaster {
    pub master: MasterWord,
    pub first: u16,
    pub stride: u16,
}

/// The masters that a port lists, and the key that lists them.
#[derive(Debug, Drop)]
pub struct ListedMasters {
    pub key: Key,
    pub masters: Vec<ListedMaster>,
}

/// What a table says of a master, before its numbers are looked at.
#[derive(Debug, Clone, Copy)]
struct SaidMaster<'a> {
    master: IntegerOrText<'a>,
    first: i64,
    stride: Option<i64>,
}

/// A copy of what a list says of a master.
fn word_of(alloc: Global, said: IntegerOrText<'_>) -> Result<MasterWord, AllocError>
    ensures { IfOk result (λ word. word_view word ≡ integer_or_text_view said.entry) }
{
    match said {
        IntegerOrText::Number(number) => Ok(MasterWord::Number(number)),
        IntegerOrText::Text(name) => Ok(MasterWord::Name(String::from_str(alloc, name)?)),
    }
}

/// How far apart the sources of one of so many hosts are.
fn host_stride(count: usize) -> u16
    ensures { result ≡ stride_of_hosts count }
{
    match count {
        0 | 1 => 1,
        2 => 2,
        3..=4 => 4,
        5..=8 => 8,
        9..=16 => 16,
        17..=32 => 32,
        _ => 64,
    }
}

/// Hosts as masters of a list, whose sources are so far apart.
fn list_hosts(
    alloc: Global,
    stride: u16,
    hosts: &[IntegerOrText<'_>],
) -> Result<Vec<ListedMaster>, AllocError>
    requires { length hosts.now ≤ MAX_JUDGED_MASTERS }
    ensures { IfOk result (λ masters. map listed_view masters.items
        ≡ hosts_from stride 0 (map integer_or_text_view hosts.now)) }
{
    let mut masters = Vec::with_capacity(alloc, hosts.len())?;
    for (number, host) in hosts.iter().enumerate() {
        masters.push(ListedMaster {
            master: word_of(alloc, *host)?,
            first: number as u16,
            stride,
        })?;
    }
    Ok(masters)
}

/// The hosts that a value lists.
#[tactic(auto, unfolding(crate::specs::Listed::hosts_in))]
fn hosts_in(alloc: Global, value: &Value) -> Result<ListedMasters, SystemFault>
    ensures { Gives list_view result (hosts_of_value (view value.now)) }
{
    let hosts = read_each_element(alloc, Key::Hosts, array_of(value, Key::Hosts)?)?;
    if hosts.is_empty() || hosts.len() > MAX_JUDGED_MASTERS {
        return Err(SystemFault::OutOfRange(Key::Hosts));
    }
    let masters = list_hosts(alloc, host_stride(hosts.len()), &hosts)?;
    Ok(ListedMasters {
        key: Key::Hosts,
        masters,
    })
}

/// The value at a key of a table of `sources`, which has to be there.
#[tactic(auto, unfolding(crate::specs::Listed::member_of_list))]
fn member_of_list(table: &Table, key: Key) -> Result<&Value, SystemFault>
    ensures { Gives (λ value. view value.now) result (member_of_list key (table_view table.now)) }
{
    match find_value(table, key) {
        Some(value) => Ok(value),
        None => Err(SystemFault::WrongType(Key::Sources)),
    }
}

/// The integer at a key of such a table that may be absent.
fn integer_if_any(table: &Table, key: Key) -> Result<Option<i64>, SystemFault>
    ensures { Gives (λ n. n) result (if_any (integer_of_value Sources) (get_member (key_name key) (table_view table.now))) }
{
    match find_value(table, key) {
        Some(value) => Ok(Some(integer_of(value, Key::Sources)?)),
        None => Ok(None),
    }
}

/// What a table of `sources` says.
#[tactic(auto, unfolding(crate::specs::Listed::said_in_table))]
fn said_in_table(table: &Table) -> Result<SaidMaster<'_>, SystemFault>
    ensures { Gives said_view result (said_in_table (table_view table.now)) }
{
    let master = integer_or_text_of(member_of_list(table, Key::Master)?, Key::Sources)?;
    let first = integer_of(member_of_list(table, Key::First)?, Key::Sources)?;
    let stride = integer_if_any(table, Key::Stride)?;
    Ok(SaidMaster {
        master,
        first,
        stride,
    })
}

/// What tables of `sources` say.
fn read_each_said<'a>(
    alloc: Global,
    tables: &[&'a Table],
) -> Result<Vec<SaidMaster<'a>>, SystemFault>
    ensures { Gives (λ said. map said_view said.items) result
        (each said_in_table (map (λ table. table_view table.now) tables.now)) }
{
    let mut said = Vec::with_capacity(alloc, tables.len())?;
    for table in tables {
        said.push(said_in_table(table)?)?;
    }
    Ok(said)
}

/// The stride that is said, or 1.
#[tactic(auto, unfolding(crate::specs::Listed::stride_of_said))]
fn stride_of_said(said: Option<i64>) -> Result<u16, SystemFault>
    ensures { Gives (λ stride. stride) result (stride_of_said said) }
{
    match said {
        Some(stride) => Ok(in_range(stride, Key::Sources, 1, u64::from(MAX_WIDE))? as u16),
        None => Ok(1),
    }
}

/// The master of a list that a table says, if its numbers are in their ranges.
#[tactic(auto, unfolding(crate::specs::Listed::listed_of_said))]
fn listed_of_said(alloc: Global, said: SaidMaster<'_>) -> Result<ListedMaster, SystemFault>
    ensures { Gives listed_view result (listed_of_said (said_view said.entry)) }
{
    let first = in_range(said.first, Key::Sources, 0, u64::from(MAX_WIDE))?;
    let stride = stride_of_said(said.stride)?;
    Ok(ListedMaster {
        master: word_of(alloc, said.master)?,
        first: first as u16,
        stride,
    })
}

/// The masters of a list that tables say.
fn list_each_said(alloc: Global, said: &[SaidMaster<'_>]) -> Result<Vec<ListedMaster>, SystemFault>
    ensures { Gives (λ masters. map listed_view masters.items) result
        (each listed_of_said (map said_view said.now)) }
{
    let mut masters = Vec::with_capacity(alloc, said.len())?;
    for one in said {
        masters.push(listed_of_said(alloc, *one)?)?;
    }
    Ok(masters)
}

/// The masters that a value of `sources` lists, which may not stand beside hosts.
#[tactic(auto, unfolding(crate::specs::Listed::sources_in))]
fn sources_in(alloc: Global, has_hosts: bool, value: &Value) -> Result<ListedMasters, SystemFault>
    ensures { Gives list_view result (sources_of_value has_hosts (view value.now)) }
{
    let tables = tables_of(alloc, array_of(value, Key::Sources)?, Key::Sources)?;
    let said = read_each_said(alloc, &tables)?;
    if has_hosts || said.is_empty() || said.len() > MAX_JUDGED_MASTERS {
        return Err(SystemFault::OutOfRange(Key::Sources));
    }
    Ok(ListedMasters {
        key: Key::Sources,
        masters: list_each_said(alloc, &said)?,
    })
}

/// The hosts of a port, if its table lists any.
fn hosts_at(alloc: Global, table: &Table) -> Result<Option<ListedMasters>, SystemFault>
    ensures { Gives (option_map list_view) result
        (if_any hosts_of_value (get_member (key_name Hosts) (table_view table.now))) }
{
    match find_value(table, Key::Hosts) {
        Some(value) => Ok(Some(hosts_in(alloc, value)?)),
        None => Ok(None),
    }
}

/// The `sources` of a port, if its table has any.
fn sources_at(
    alloc: Global,
    has_hosts: bool,
    table: &Table,
) -> Result<Option<ListedMasters>, SystemFault>
    ensures { Gives (option_map list_view) result
        (if_any (sources_of_value has_hosts) (get_member (key_name Sources) (table_view table.now))) }
{
    match find_value(table, Key::Sources) {
        Some(value) => Ok(Some(sources_in(alloc, has_hosts, value)?)),
        None => Ok(None),
    }
}

/// The masters that a port lists, if it lists any.
#[tactic(auto, unfolding(crate::specs::Listed::listed_at))]
pub fn listed_at(alloc: Global, table: &Table) -> Result<Option<ListedMasters>, SystemFault>
    ensures { Gives (option_map list_view) result (list_of_table (table_view table.now)) }
{
    let hosts = hosts_at(alloc, table)?;
    let sources = sources_at(alloc, hosts.is_some(), table)?;
    Ok(hosts.or(sources))
}
