//! The prefixes of a link's names, and what stands behind them.
ghost use Rattle.std.specs.Prelude.{◌≡◌, ◌++◌, IfOk, OnOk, map, option_map};
ghost use Rattle.toml.specs.View.{table_view, view};
ghost use Rattle.tl_text.specs.Reading.{each};
ghost use Rattle.check_vcd.specs.Header.{var_view};
ghost use Rattle.check_signals.specs.Prefixes.{behind_each, first_declared, has_name, is_declared, is_handshake, is_no_name, lone_prefix, name_behind, names_checked, prefixes_in, prefixes_of, said_in as said_of_names, said_of, several_prefixes, table_of_names, taken, with_bits};
ghost use Rattle.check_signals.specs.Values.{GivesNames, signal_text_of};
ghost use Rattle.check_signals.specs.declared.fault.SignalKey.TheVariants.{Signals};

use crate::fault::{KeyFault, SignalKey};
use crate::keys::{
    SIGNALS, find_value, may_be_left_out, name_unless, table_if_any, text_of, value_in,
};
use crate::wires::sought;
use check_samples::Signal;
use check_vcd::Var;
use std::alloc::{AllocError, Global};
use toml::{Table, Value};

/// The most prefixes of a link.
pub const MAX_PREFIXES: usize = 64;

/// The prefixes that values are.
fn each_prefix(alloc: Global, values: &[Value]) -> Result<Vec<&[u8]>, KeyFault>
    ensures { GivesNames (λ prefixes. map (λ prefix. prefix.now) prefixes.items) result
        (each (signal_text_of Signals) (map view values.now)) }
{
    let mut prefixes = Vec::with_capacity(alloc, values.len())?;
    for value in values {
        prefixes.push(text_of(value, SignalKey::Signals)?)?;
    }
    Ok(prefixes)
}

/// Several prefixes, as many as are allowed.
fn several_prefixes(alloc: Global, values: &[Value]) -> Result<Vec<&[u8]>, KeyFault>
    ensures { GivesNames (λ prefixes. map (λ prefix. prefix.now) prefixes.items) result
        (several_prefixes (map view values.now)) }
{
    if values.is_empty() || values.len() > MAX_PREFIXES {
        return Err(KeyFault::OutOfRange(SignalKey::Signals));
    }
    each_prefix(alloc, values)
}

/// The one prefix that a value is.
fn lone_prefix(alloc: Global, value: &Value) -> Result<Vec<&[u8]>, KeyFault>
    ensures { GivesNames (λ prefixes. map (λ prefix. prefix.now) prefixes.items) result
        (lone_prefix (view value.now)) }
{
    let prefix = text_of(value, SignalKey::Signals)?;
    let mut prefixes = Vec::new(alloc);
    prefixes.push(prefix)?;
    Ok(prefixes)
}

/// The prefixes of an array, or the one that a value is.
#[tactic(auto, using(crate::proofs::Views::array_laws))]
fn prefixes_of(alloc: Global, value: &Value) -> Result<Vec<&[u8]>, KeyFault>
    ensures { GivesNames (λ prefixes. map (λ prefix. prefix.now) prefixes.items) result
        (prefixes_of (view value.now)) }
{
    match value.as_array() {
        Some(array) => several_prefixes(alloc, array.as_slice()),
        None => lone_prefix(alloc, value),
    }
}

/// The prefixes of the link that a table is of, if it has any.
pub(crate) fn prefixes_if_any(alloc: Global, table: &Table) -> Result<Option<Vec<&[u8]>>, KeyFault>
    ensures { GivesNames (option_map (λ prefixes. map (λ prefix. prefix.now) prefixes.items)) result
        (prefixes_in (table_view table.now)) }
{
    match find_value(table, SignalKey::Signals) {
        Some(value) => Ok(Some(prefixes_of(alloc, value)?)),
        None => Ok(None),
    }
}

/// How signals are called: whether those that are no handshake stand in a bundle `bits` of their channel, and the table that
/// says otherwise of some.
#[derive(Debug, Clone, Copy)]
pub(crate) struct Naming<'a> {
    pub(crate) bits: bool,
    pub(crate) names: Option<&'a Table>,
}

/// The same behind these prefixes.
#[derive(Debug, Clone, Copy)]
pub(crate) struct Manner<'a> {
    pub(crate) prefixes: &'a [&'a [u8]],
    pub(crate) naming: Naming<'a>,
}

/// What a value of `names` says of a signal.
fn said_of(value: &Value, signal: Signal) -> Result<&[u8], KeyFault>
    ensures { GivesNames (λ text. text.now) result (said_of signal (view value.now)) }
{
    let text = text_of(value, SignalKey::Names)?;
    name_unless(SignalKey::Names, !may_be_left_out(signal), text)
}

/// What `names` says of a signal, if anything.
pub(crate) fn said_in(names: Option<&Table>, signal: Signal) -> Result<Option<&[u8]>, KeyFault>
    ensures { GivesNames (option_map (λ text. text.now)) result
        (said_of_names (option_map (λ names. table_view names.now) names.entry) signal) }
{
    match value_in(names, signal) {
        Some(value) => Ok(Some(said_of(value, signal)?)),
        None => Ok(None),
    }
}

/// The table, if it says nothing wrong of these signals.
fn names_checked<'a>(
    names: Option<&'a Table>,
    signals: &[Signal],
) -> Result<Option<&'a Table>, KeyFault>
    ensures { GivesNames (option_map (λ names. table_view names.now)) result
        (names_checked (option_map (λ names. table_view names.now) names.entry) signals.now) }
{
    for signal in signals {
        said_in(names, *signal)?;
    }
    Ok(names)
}

/// The table `names` of a file, if there is one.
pub(crate) fn table_of_names(table: &Table) -> Result<Option<&Table>, KeyFault>
    ensures { GivesNames (option_map (λ names. table_view names.now)) result
        (table_of_names (table_view table.now)) }
{
    names_checked(table_if_any(table, SignalKey::Names)?, SIGNALS.as_slice())
}

/// Whether a signal is one of a handshake.
pub(crate) fn is_handshake(signal: Signal) -> bool
    ensures { result ≡ is_handshake signal }
{
    matches!(
        signal,
        Signal::AValid | Signal::AReady | Signal::DValid | Signal::DReady
    )
}

/// Appends a name with `bits_` after its channel.
pub(crate) fn push_with_bits(text: &mut Vec<u8>, name: &[u8]) -> Result<(), AllocError>
    ensures { OnOk result (text.new.items ≡ text.old.items ++ with_bits name.now) }
{
    let [channel, line, field @ ..] = name else {
        return text.extend_from_slice(name);
    };
    text.push(*channel)?;
    text.push(*line)?;
    text.extend_from_slice(b"bits_")?;
    text.extend_from_slice(field)
}

/// The specification's name of a signal, in the bundle of its channel or outside of it.
pub(crate) fn name_behind(alloc: Global, bits: bool, signal: Signal) -> Result<Vec<u8>, AllocError>
    ensures { IfOk result (λ text. text.items ≡ name_behind bits signal) }
{
    let name = signal.name().as_bytes();
    let mut text = Vec::new(alloc);
    if bits && !is_handshake(signal) {
        push_with_bits(&mut text, name)?;
    } else {
        text.extend_from_slice(name)?;
    }
    Ok(text)
}

/// Whether a text is no name: a constant, or that there is no such signal.
pub(crate) fn is_no_name(text: &[u8]) -> bool
    ensures { result ≡ is_no_name text.now }
{
    text == b"0".as_slice() || text == b"1".as_slice() || text == b"-".as_slice()
}

/// A text behind each prefix.
pub(crate) fn behind_each(
    alloc: Global,
    prefixes: &[&[u8]],
    text: &[u8],
) -> Result<Vec<Vec<u8>>, AllocError>
    ensures { IfOk result (λ names. map (λ name. name.items) names.items
        ≡ behind_each text.now (map (λ prefix. prefix.now) prefixes.now)) }
{
    let mut names = Vec::with_capacity(alloc, prefixes.len())?;
    for prefix in prefixes {
        let mut name = Vec::from_slice(alloc, prefix)?;
        name.extend_from_slice(text)?;
        names.push(name)?;
    }
    Ok(names)
}

/// Whether a signal has this name.
pub(crate) fn has_name(vars: &[Var], name: &[u8]) -> bool
    ensures { result ≡ has_name (map var_view vars.now) name.now }
{
    for var in vars {
        if var.name.as_slice() == name {
            return true;
        }
    }
    false
}

/// Whether a signal of a name is declared; of a name that ends in a range, one of the name before it.
#[tactic(auto, unfolding(crate::specs::Prefixes::is_declared))]
fn is_declared(vars: &[Var], name: &[u8]) -> bool
    ensures { result ≡ is_declared (map var_view vars.now) name.now }
{
    let (whole, _) = sought(vars, name);
    has_name(vars, whole)
}

/// The first of these names that is declared.
fn first_declared<'n>(vars: &[Var], names: &'n [Vec<u8>]) -> Option<&'n [u8]>
    ensures { option_map (λ name. name.now) result
        ≡ first_declared (map var_view vars.now) (map (λ name. name.items) names.now) }
{
    for name in names {
        if is_declared(vars, name) {
            return Some(name.as_slice());
        }
    }
    None
}

/// The first that is declared, or else the first.
pub(crate) fn taken<'n>(vars: &[Var], names: &'n [Vec<u8>]) -> &'n [u8]
    ensures { result.now ≡ taken (map var_view vars.now) (map (λ name. name.items) names.now) }
{
    match first_declared(vars, names) {
        Some(name) => name,
        None => match names {
            [first, ..] => first.as_slice(),
            [] => b"",
        },
    }
}
