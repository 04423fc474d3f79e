//! The names of signals that a system file gives.
ghost use Rattle.std.specs.Prelude.{◌≡◌, Ok, Some, map, not, option_map, unwrap_or};
ghost use Rattle.toml.specs.Data.{get_member};
ghost use Rattle.toml.specs.View.{table_view, view};
ghost use Rattle.tl_text.specs.Reading.{each};
ghost use Rattle.check_samples.specs.Signal.{signal_name as name_of_signal};
ghost use Rattle.check_signals.specs.Key.{signal_key_name};
ghost use Rattle.check_signals.specs.Names.{all_names as all_names_of, called as called_in, clock_checked, common_view, has_no_clock, have_signals, joined_names, link_by, link_in, link_of, link_view, links_in, lone_name, name_in, name_view, names_in, names_of_file, names_view, naming_in, need_clock, part_name, resets_in, signals_view, some_names_in, wired as wired_in, wired_alone};
ghost use Rattle.check_signals.specs.Prefixes.{manner_view, naming_view};
ghost use Rattle.check_signals.specs.Values.{GivesNames, may_be_left_out, name_unless, optional_flag, optional_table, optional_text, signal_text_of as text_in, value_in};

use crate::clocks::{ClockNames, clock_names};
use crate::fault::{KeyFault, SignalKey};
use crate::prefixes::{
    Manner, Naming, behind_each, is_no_name, name_behind, prefixes_if_any, said_in, table_of_names,
};
use check_samples::{Edge, Signal};
use std::alloc::Global;
use toml::{Table, Value};

/// The signals of a link, in the order in which they are looked for.
pub const SIGNALS: [Signal; 19] = [
    Signal::AValid,
    Signal::AReady,
    Signal::AOpcode,
    Signal::AParam,
    Signal::ASize,
    Signal::ASource,
    Signal::AAddress,
    Signal::AMask,
    Signal::AData,
    Signal::ACorrupt,
    Signal::DValid,
    Signal::DReady,
    Signal::DOpcode,
    Signal::DParam,
    Signal::DSize,
    Signal::DSource,
    Signal::DData,
    Signal::DDenied,
    Signal::DCorrupt,
];

/// The most signals that a wire puts together.
pub const MAX_PARTS: usize = 512;

/// The name of a signal.
#[derive(Debug, Drop)]
pub enum SignalName {
    /// Those behind the prefixes, of which the first that is declared is taken.
    Prefixed(Vec<Vec<u8>>),
    /// That of its wire.
    Wired(Vec<u8>),
    /// Those of several signals that its wire puts together, one after the other, the highest bits first.
    Joined(Vec<Vec<u8>>),
}

/// The names of a link that has signals: those of its own clock and reset, and those of its signals, in that order.
#[derive(Debug, Drop)]
pub struct LinkNames {
    pub clock: ClockNames,
    pub signals: Vec<SignalName>,
}

/// The names that a system file gives: of the system's clock and reset, and of each link that has signals. And whether resets
/// of the whole system are told.
#[derive(Debug, Drop)]
pub struct SignalNames {
    pub system: ClockNames,
    pub resets: bool,
    pub ports: Vec<Option<LinkNames>>,
    pub masters: Vec<Option<LinkNames>>,
}

/// What a file says of all its links: of their clocks and resets, and how their signals are called.
#[derive(Debug, Clone, Copy)]
struct Common<'a> {
    system: &'a ClockNames,
    naming: Naming<'a>,
}

/// The value at a key, if it is there.
pub(crate) fn find_value(table: &Table, key: SignalKey) -> Option<&Value>
    ensures { option_map (λ value. view value.now) result
        ≡ get_member (signal_key_name key) (table_view table.now) }
{
    table.get(key.name())
}

/// The text of a value.
pub(crate) fn text_of(value: &Value, key: SignalKey) -> Result<&[u8], KeyFault>
    ensures { GivesNames (λ text. text.now) result (text_in key (view value.now)) }
{
    match value.as_str() {
        Some(text) => Ok(text.as_bytes()),
        None => Err(KeyFault::WrongType(key)),
    }
}

/// The text at a key that may be absent.
pub(crate) fn text_if_any(table: &Table, key: SignalKey) -> Result<Option<&[u8]>, KeyFault>
    ensures { GivesNames (option_map (λ text. text.now)) result (optional_text key (table_view table.now)) }
{
    match find_value(table, key) {
        Some(value) => Ok(Some(text_of(value, key)?)),
        None => Ok(None),
    }
}

/// The flag at a key that may be absent.
fn flag_if_any(table: &Table, key: SignalKey) -> Result<Option<bool>, KeyFault>
    ensures { GivesNames (λ flag. flag) result (optional_flag key (table_view table.now)) }
{
    let Some(value) = find_value(table, key) else {
        return Ok(None);
    };
    match value.as_bool() {
        Some(flag) => Ok(Some(flag)),
        None => Err(KeyFault::WrongType(key)),
    }
}

/// The table at a key that may be absent.
pub(crate) fn table_if_any(table: &Table, key: SignalKey) -> Result<Option<&Table>, KeyFault>
    ensures { GivesNames (option_map (λ inner. table_view inner.now)) result
        (optional_table key (table_view table.now)) }
{
    match find_value(table, key) {
        None => Ok(None),
        Some(value) => match value.as_table() {
            Some(inner) => Ok(Some(inner)),
            None => Err(KeyFault::WrongType(key)),
        },
    }
}

/// The value at the key of a signal, if it is there.
fn find_signal(table: &Table, signal: Signal) -> Option<&Value>
    ensures { option_map (λ value. view value.now) result
        ≡ get_member (name_of_signal signal) (table_view table.now) }
{
    table.get(signal.name())
}

/// The same of a table that may be absent.
pub(crate) fn value_in(table: Option<&Table>, signal: Signal) -> Option<&Value>
    ensures { option_map (λ value. view value.now) result
        ≡ value_in (option_map (λ table. table_view table.now) table.entry) signal }
{
    match table {
        Some(table) => find_signal(table, signal),
        None => None,
    }
}

/// Whether a design may have no such signal.
pub(crate) fn may_be_left_out(signal: Signal) -> bool
    ensures { result ≡ may_be_left_out signal }
{
    matches!(signal, Signal::ACorrupt | Signal::DParam | Signal::DCorrupt)
}

/// A name, which may be `-` if that is not refused.
pub(crate) fn name_unless(key: SignalKey, refused: bool, text: &[u8]) -> Result<&[u8], KeyFault>
    ensures { GivesNames (λ text. text.now) result (name_unless key refused text.now) }
{
    if refused && text == b"-".as_slice() {
        return Err(KeyFault::OutOfRange(key));
    }
    Ok(text)
}

/// The one name that a wire is.
fn lone(alloc: Global, value: &Value, signal: Signal) -> Result<SignalName, KeyFault>
    ensures { GivesNames name_view result (lone_name signal (view value.now)) }
{
    let text = text_of(value, SignalKey::Wires)?;
    let name = name_unless(SignalKey::Wires, !may_be_left_out(signal), text)?;
    Ok(SignalName::Wired(Vec::from_slice(alloc, name)?))
}

/// The name of one of several signals.
fn part_name(value: &Value) -> Result<&[u8], KeyFault>
    ensures { GivesNames (λ text. text.now) result (part_name (view value.now)) }
{
    name_unless(SignalKey::Wires, true, text_of(value, SignalKey::Wires)?)
}

/// The names of several signals.
fn part_names(alloc: Global, values: &[Value]) -> Result<Vec<Vec<u8>>, KeyFault>
    ensures { GivesNames (λ names. map (λ name. name.items) names.items) result (each part_name (map view values.now)) }
{
    let mut names = Vec::with_capacity(alloc, values.len())?;
    for value in values {
        let name = part_name(value)?;
        names.push(Vec::from_slice(alloc, name)?)?;
    }
    Ok(names)
}

/// Several signals that a wire puts together.
fn joined(alloc: Global, values: &[Value]) -> Result<SignalName, KeyFault>
    ensures { GivesNames name_view result (joined_names (map view values.now)) }
{
    if values.is_empty() || values.len() > MAX_PARTS {
        return Err(KeyFault::OutOfRange(SignalKey::Wires));
    }
    Ok(SignalName::Joined(part_names(alloc, values)?))
}

/// The name that a wire is, or the names.
#[tactic(auto, using(crate::proofs::Views::array_laws))]
fn wired(alloc: Global, value: &Value, signal: Signal) -> Result<SignalName, KeyFault>
    ensures { GivesNames name_view result (wired_in signal (view value.now)) }
{
    match value.as_array() {
        Some(array) => joined(alloc, array.as_slice()),
        None => lone(alloc, value, signal),
    }
}

/// The names behind the prefixes, of what `names` says or of the specification's.
fn called(
    alloc: Global,
    manner: Manner<'_>,
    signal: Signal,
    said: Option<&[u8]>,
) -> Result<SignalName, KeyFault>
    ensures { GivesNames name_view result
        (Ok (called_in (manner_view manner.entry) signal (option_map (λ text. text.now) said.entry))) }
{
    match said {
        Some(text) if is_no_name(text) => Ok(SignalName::Wired(Vec::from_slice(alloc, text)?)),
        Some(text) => Ok(SignalName::Prefixed(behind_each(alloc, manner.prefixes, text)?)),
        None => {
            let text = name_behind(alloc, manner.naming.bits, signal)?;
            Ok(SignalName::Prefixed(behind_each(alloc, manner.prefixes, &text)?))
        }
    }
}

/// The name of a signal: that of its wire, or else those behind the prefixes.
fn name_of(
    alloc: Global,
    manner: Manner<'_>,
    wires: Option<&Table>,
    signal: Signal,
) -> Result<SignalName, KeyFault>
    ensures { GivesNames name_view result
        (name_in (manner_view manner.entry) (option_map (λ wires. table_view wires.now) wires.entry) signal) }
{
    match value_in(wires, signal) {
        Some(value) => wired(alloc, value, signal),
        None => called(alloc, manner, signal, said_in(manner.naming.names, signal)?),
    }
}

/// The names of signals of a link.
fn names_of(
    alloc: Global,
    manner: Manner<'_>,
    wires: Option<&Table>,
    signals: &[Signal],
) -> Result<Vec<SignalName>, KeyFault>
    ensures { GivesNames (λ names. map name_view names.items) result
        (each (name_in (manner_view manner.entry) (option_map (λ wires. table_view wires.now) wires.entry))
        signals.now) }
{
    let mut names = Vec::with_capacity(alloc, signals.len())?;
    for signal in signals {
        names.push(name_of(alloc, manner, wires, *signal)?)?;
    }
    Ok(names)
}

/// The names of all signals of a link.
fn all_names(
    alloc: Global,
    manner: Manner<'_>,
    wires: Option<&Table>,
) -> Result<Vec<SignalName>, KeyFault>
    ensures { GivesNames (λ names. map name_view names.items) result
        (names_in (manner_view manner.entry) (option_map (λ wires. table_view wires.now) wires.entry)) }
{
    names_of(alloc, manner, wires, SIGNALS.as_slice())
}

/// The names of all signals of a link that has names.
fn some_names(
    alloc: Global,
    manner: Manner<'_>,
    wires: Option<&Table>,
) -> Result<Option<Vec<SignalName>>, KeyFault>
    ensures { GivesNames signals_view result
        (some_names_in (manner_view manner.entry) (option_map (λ wires. table_view wires.now) wires.entry)) }
{
    Ok(Some(all_names(alloc, manner, wires)?))
}

/// The names of the signals of a link without prefixes, if there are wires.
fn wired_alone(
    alloc: Global,
    wires: Option<&Table>,
    bits: bool,
) -> Result<Option<Vec<SignalName>>, KeyFault>
    ensures { GivesNames signals_view result
        (wired_alone (option_map (λ wires. table_view wires.now) wires.entry) bits) }
{
    let manner = Manner {
        prefixes: &[b""],
        naming: Naming { bits, names: None },
    };
    match wires {
        Some(wires) => some_names(alloc, manner, Some(wires)),
        None => Ok(None),
    }
}

/// The names of a link's signals, if there are prefixes or wires.
fn names_if_any(
    alloc: Global,
    prefixes: Option<&[&[u8]]>,
    wires: Option<&Table>,
    naming: Naming<'_>,
) -> Result<Option<Vec<SignalName>>, KeyFault>
    ensures { GivesNames signals_view result
        (link_by (option_map (λ prefixes. map (λ prefix. prefix.now) prefixes.now) prefixes.entry)
        (option_map (λ wires. table_view wires.now) wires.entry) (naming_view naming.entry)) }
{
    match prefixes {
        Some(prefixes) => some_names(alloc, Manner { prefixes, naming }, wires),
        None => wired_alone(alloc, wires, naming.bits),
    }
}

/// The names of the link that a table is of, if it gives any of signals. It has the bundles of the whole file, if it does not
/// say otherwise.
#[tactic(auto, unfolding(crate::specs::Names::link_in))]
fn link_names(alloc: Global, top: Common<'_>, table: &Table) -> Result<Option<LinkNames>, KeyFault>
    ensures { GivesNames link_view result (link_in (common_view top.entry) (table_view table.now)) }
{
    let prefixes = prefixes_if_any(alloc, table)?;
    let wires = table_if_any(table, SignalKey::Wires)?;
    let bits = flag_if_any(table, SignalKey::Bits)?;
    let key = SignalKey::LinkReset;
    let clock = clock_names(alloc, table, key, top.system.edge, top.system.is_low)?;
    let naming = Naming {
        bits: bits.unwrap_or(top.naming.bits),
        names: top.naming.names,
    };
    match names_if_any(alloc, prefixes.as_deref(), wires, naming)? {
        Some(signals) => Ok(Some(LinkNames { clock, signals })),
        None => Ok(None),
    }
}

/// The names of the signals of each link of a kind, of which there may be none.
#[tactic(auto, using(crate::proofs::Views::array_laws), unfolding(crate::specs::Names::links_in))]
fn links_at(
    alloc: Global,
    top: Common<'_>,
    table: &Table,
    key: SignalKey,
) -> Result<Vec<Option<LinkNames>>, KeyFault>
    ensures { GivesNames (λ links. map link_view links.items) result
        (links_in (common_view top.entry) key (table_view table.now)) }
{
    let Some(value) = find_value(table, key) else {
        return Ok(Vec::new(alloc));
    };
    let Some(array) = value.as_array() else {
        return Err(KeyFault::WrongType(key));
    };
    links_of(alloc, top, array.as_slice(), key)
}

#[tactic(auto, unfolding(crate::specs::Names::link_of))]
fn links_of(
    alloc: Global,
    top: Common<'_>,
    values: &[Value],
    key: SignalKey,
) -> Result<Vec<Option<LinkNames>>, KeyFault>
    ensures { GivesNames (λ links. map link_view links.items) result
        (each (link_of (common_view top.entry) key) (map view values.now)) }
{
    let mut links = Vec::with_capacity(alloc, values.len())?;
    for value in values {
        let Some(link) = value.as_table() else {
            return Err(KeyFault::WrongType(key));
        };
        links.push(link_names(alloc, top, link)?)?;
    }
    Ok(links)
}

/// Whether some link of a kind has signals.
fn have_signals(links: &[Option<LinkNames>]) -> bool
    ensures { result ≡ have_signals (map link_view links.now) }
{
    for link in links {
        if link.is_some() {
            return true;
        }
    }
    false
}

/// Whether a link has signals, and no clock of its own.
fn has_no_clock(link: &Option<LinkNames>) -> bool
    ensures { result ≡ has_no_clock (link_view link.now) }
{
    match link {
        Some(names) => names.clock.clock.is_none(),
        None => false,
    }
}

/// Whether some link of a kind has signals, and no clock of its own.
fn need_clock(links: &[Option<LinkNames>]) -> bool
    ensures { result ≡ need_clock (map link_view links.now) }
{
    for link in links {
        if has_no_clock(link) {
            return true;
        }
    }
    false
}

/// Some link has to have signals, and then the system a clock, if one of them needs it.
fn check_clock(has_signals: bool, needed: bool, clock: &Option<Vec<u8>>) -> Result<(), KeyFault>
    ensures { GivesNames (λ done. done) result
        (clock_checked has_signals needed (option_map (λ name. name.items) clock.now)) }
{
    if !has_signals {
        return Err(KeyFault::NoSignals);
    }
    if needed && clock.is_none() {
        return Err(KeyFault::Missing(SignalKey::Clock));
    }
    Ok(())
}

/// How the signals of all links are called.
fn naming_of(table: &Table) -> Result<Naming<'_>, KeyFault>
    ensures { GivesNames naming_view result (naming_in (table_view table.now)) }
{
    let bits = flag_if_any(table, SignalKey::Bits)?;
    let names = table_of_names(table)?;
    Ok(Naming {
        bits: bits.unwrap_or(false),
        names,
    })
}

/// Whether resets of the whole system are told.
fn resets_of(table: &Table) -> Result<bool, KeyFault>
    ensures { GivesNames (λ resets. resets) result (resets_in (table_view table.now)) }
{
    let resets = flag_if_any(table, SignalKey::Resets)?;
    Ok(resets.unwrap_or(false))
}

/// The names that a system's table gives.
#[tactic(auto, unfolding(crate::specs::Names::all_names))]
fn names_of_table(alloc: Global, table: &Table) -> Result<SignalNames, KeyFault>
    ensures { GivesNames names_view result (all_names_of (table_view table.now)) }
{
    let system = clock_names(alloc, table, SignalKey::Reset, Edge::Rising, false)?;
    let top = Common {
        system: &system,
        naming: naming_of(table)?,
    };
    let resets = resets_of(table)?;
    let ports = links_at(alloc, top, table, SignalKey::Port)?;
    let masters = links_at(alloc, top, table, SignalKey::Master)?;
    check_clock(
        have_signals(&ports) || have_signals(&masters),
        need_clock(&ports) || need_clock(&masters),
        &system.clock,
    )?;
    Ok(SignalNames {
        system,
        resets,
        ports,
        masters,
    })
}

/// The names that a system file gives, or its first fault. The file is a document by the crate `toml`'s own definition.
#[tactic(auto, using(crate::proofs::Views::text_tests), unfolding(crate::specs::Names::names_of_file))]
pub fn read_names(alloc: Global, bytes: &[u8]) -> Result<SignalNames, KeyFault>
    ensures { GivesNames names_view result (names_of_file bytes.now) }
{
    let Ok(text) = std::str::from_utf8(bytes) else {
        return Err(KeyFault::NotToml);
    };
    match toml::table_from_str(alloc, text) {
        Ok(table) => names_of_table(alloc, &table),
        Err(error) if error.is_memory() => Err(KeyFault::Memory),
        Err(_) => Err(KeyFault::NotToml),
    }
}
