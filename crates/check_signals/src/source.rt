//! What a name of a system file finds among the signals that a dump declares.
ghost use Rattle.std.specs.Prelude.{◌≡◌, ◌≢◌, ◌≤◌, IfOk, map, option_map};
ghost use Rattle.check_vcd.specs.Header.{var_view};
ghost use Rattle.check_signals.specs.Source.{Finds, asked_view, bundled_if_any, bundled_name, constant_of, digit_in, fault_view, if_declared, is_left_out, left_out, may_lack, measured, missing as missing_in, near_in, signal_in, source_view, too_wide, unfound, width_of, within};
ghost use Rattle.check_signals.specs.Source.{Twice as TwiceIn};
ghost use Rattle.check_signals.specs.Wires.{IsInside, wire_view};
ghost use Rattle.check_signals.specs.declared.signal_fault.SignalFault.TheVariants.{Memory};

use crate::prefixes::{has_name, is_handshake, push_with_bits};
use crate::signal_fault::{SignalFault, SignalOwner};
use crate::wanted::Wanted;
use crate::wires::{Wire, has_another, sought, widest_wire};
use check_keys::nearest;
use check_samples::Signal;
use check_vcd::{MAX_WORD, Var};
use std::alloc::{AllocError, Global};

/// The most bits of a signal whose values are kept.
pub const MAX_WIDTH: u64 = MAX_WORD as u64 - 1;

/// A signal that is looked for: whose it is, its name, which signal of a link it is if that stands behind a prefix, and how
/// many bits it has to have.
#[derive(Debug, Clone, Copy)]
pub(crate) struct WantedSignal<'a> {
    pub(crate) owner: SignalOwner,
    pub(crate) name: &'a [u8],
    pub(crate) behind: Option<Signal>,
    pub(crate) wanted: Wanted,
}

/// A value that is kept: that of an identifier, or a constant, whose bits all have this digit; and how many bits it has.
#[derive(Debug, Clone, Copy)]
pub(crate) enum Kept<'a> {
    Signal(&'a [u8], u64),
    Constant(u8, u64),
}

/// Some digits of a kept value, by their places.
#[derive(Debug, Clone, Copy)]
pub(crate) struct Source<'a> {
    pub(crate) kept: Kept<'a>,
    pub(crate) from: u64,
    pub(crate) to: u64,
}

/// The digit that a name is: `0` and `1` are constants.
pub(crate) fn digit_in(name: &[u8]) -> Option<u8>
    ensures { result ≡ digit_in name.now }
{
    if name == b"0".as_slice() {
        Some(b'0')
    } else if name == b"1".as_slice() {
        Some(b'1')
    } else {
        None
    }
}

/// All bits of a constant of so many.
pub(crate) fn constant_of<'a>(digit: u8, count: u64) -> Source<'a>
    ensures { source_view result ≡ constant_of digit count }
{
    Source {
        kept: Kept::Constant(digit, count),
        from: 0,
        to: count,
    }
}

/// No bits of a constant.
pub(crate) fn left_out<'a>() -> Source<'a>
    ensures { source_view result ≡ left_out }
{
    Source {
        kept: Kept::Constant(b'0', 1),
        from: 0,
        to: 0,
    }
}

/// Whether a name says that the design has no such signal.
pub(crate) fn is_left_out(asked: WantedSignal<'_>) -> bool
    ensures { result ≡ is_left_out (asked_view asked.entry) }
{
    asked.wanted.may_be_absent() && asked.name == b"-".as_slice()
}

/// How many bits the values of an identifier have: those of the widest signal that has it.
pub(crate) fn width_of(vars: &[Var], code: &[u8]) -> u64
    ensures { result ≡ width_of (map var_view vars.now) code.now }
{
    let mut width = 0;
    for var in vars {
        if var.code.as_slice() == code && width < var.width {
            width = var.width;
        }
    }
    width
}

/// A text that may be absent, copied.
pub(crate) fn copy_if_any(alloc: Global, text: Option<&[u8]>) -> Result<Option<Vec<u8>>, AllocError>
    ensures { IfOk result (λ copy. option_map (λ copy. copy.items) copy ≡ option_map (λ text. text.now) text.entry) }
{
    match text {
        Some(text) => Ok(Some(Vec::from_slice(alloc, text)?)),
        None => Ok(None),
    }
}

/// The names of the signals that a header declares.
fn names_of(alloc: Global, vars: &[Var]) -> Result<Vec<&[u8]>, AllocError>
    ensures { IfOk result (λ names. map (λ name. name.now) names.items ≡ map (λ var. var.name) (map var_view vars.now)) }
{
    let mut names = Vec::new(alloc);
    for var in vars {
        names.push(var.name.as_slice())?;
    }
    Ok(names)
}

/// The name that `bits = true` looks for, in the place of the specification's name of a signal behind a prefix.
fn bundled_name(alloc: Global, name: &[u8], which: Signal) -> Result<Option<Vec<u8>>, AllocError>
    ensures { IfOk result (λ bundled. option_map (λ name. name.items) bundled ≡ bundled_name name.now which) }
{
    let own = which.name().as_bytes();
    let split = name.len().saturating_sub(own.len());
    if is_handshake(which) || &name[split..] != own {
        return Ok(None);
    }
    let mut text = Vec::from_slice(alloc, &name[..split])?;
    push_with_bits(&mut text, own)?;
    Ok(Some(text))
}

/// The same, if the signal stands behind a prefix and one of this name is declared.
fn bundled_in(
    alloc: Global,
    vars: &[Var],
    asked: WantedSignal<'_>,
) -> Result<Option<Vec<u8>>, AllocError>
    ensures { IfOk result (λ bundled. option_map (λ name. name.items) bundled
        ≡ if_declared (map var_view vars.now) (bundled_if_any asked.entry.name.now asked.entry.behind)) }
{
    let Some(which) = asked.behind else {
        return Ok(None);
    };
    match bundled_name(alloc, asked.name, which)? {
        Some(name) if has_name(vars, &name) => Ok(Some(name)),
        _ => Ok(None),
    }
}

/// What may have been meant by a name that no signal has: the name that `bits = true` would find, or else the nearest
/// name.
fn near_in(
    alloc: Global,
    vars: &[Var],
    asked: WantedSignal<'_>,
) -> Result<Option<Vec<u8>>, AllocError>
    ensures { IfOk result (λ near. option_map (λ near. near.items) near
        ≡ near_in (map var_view vars.now) (asked_view asked.entry)) }
{
    if let Some(bundled) = bundled_in(alloc, vars, asked)? {
        return Ok(Some(bundled));
    }
    let names = names_of(alloc, vars)?;
    copy_if_any(alloc, nearest(alloc, &names, asked.name)?)
}

/// That there is no such signal, with the name that may have been meant.
fn describe(alloc: Global, vars: &[Var], asked: WantedSignal<'_>) -> Result<SignalFault, AllocError>
    ensures { IfOk result (λ fault. fault_view fault ≡ missing_in (map var_view vars.now) (asked_view asked.entry)) }
{
    let near = near_in(alloc, vars, asked)?;
    let name = Vec::from_slice(alloc, asked.name)?;
    Ok(SignalFault::NoSignal(asked.owner, name, near))
}

/// The same, or that memory was refused for it.
fn missing(alloc: Global, vars: &[Var], asked: WantedSignal<'_>) -> SignalFault
    ensures { result ≢ Memory → fault_view result ≡ missing_in (map var_view vars.now) (asked_view asked.entry) }
{
    match describe(alloc, vars, asked) {
        Ok(fault) => fault,
        Err(_) => SignalFault::Memory,
    }
}

/// That two signals have the name.
pub(crate) fn twice(alloc: Global, asked: WantedSignal<'_>) -> SignalFault
    ensures { result ≢ Memory → fault_view result ≡ TwiceIn asked.entry.owner asked.entry.name.now }
{
    match Vec::from_slice(alloc, asked.name) {
        Ok(name) => SignalFault::Twice(asked.owner, name),
        Err(_) => SignalFault::Memory,
    }
}

/// That the signal has another width than is wanted.
pub(crate) fn too_wide(
    alloc: Global,
    asked: WantedSignal<'_>,
    bits: u64,
    wanted: u64,
) -> SignalFault
    ensures { result ≢ Memory → fault_view result ≡ too_wide (asked_view asked.entry) bits wanted }
{
    match Vec::from_slice(alloc, asked.name) {
        Ok(name) => SignalFault::Width(asked.owner, name, bits, wanted),
        Err(_) => SignalFault::Memory,
    }
}

/// The bits of a wire within the values of its identifier, whose lowest bits are the signal.
fn within<'a>(
    alloc: Global,
    vars: &'a [Var],
    asked: WantedSignal<'_>,
    wire: Wire<'a>,
    width: u64,
) -> Result<Source<'a>, SignalFault>
    requires { IsInside wire }
    ensures { Finds source_view result (within (map var_view vars.now) (asked_view asked.entry) (wire_view wire.entry) width) }
{
    if width > MAX_WIDTH {
        return Err(too_wide(alloc, asked, width, MAX_WIDTH));
    }
    if width < wire.var.width {
        return Err(missing(alloc, vars, asked));
    }
    let shift = width - wire.var.width;
    Ok(Source {
        kept: Kept::Signal(wire.var.code.as_slice(), width),
        from: shift + wire.places.from,
        to: shift + wire.places.to,
    })
}

/// A wire that has as many bits as are wanted.
fn measured<'a>(
    alloc: Global,
    vars: &'a [Var],
    asked: WantedSignal<'_>,
    wire: Wire<'a>,
) -> Result<Source<'a>, SignalFault>
    requires { IsInside wire }
    ensures { Finds source_view result (measured (map var_view vars.now) (asked_view asked.entry) (wire_view wire.entry)) }
{
    let bits = wire.places.to.saturating_sub(wire.places.from);
    if !asked.wanted.fits(bits) {
        return Err(too_wide(alloc, asked, bits, asked.wanted.count()));
    }
    let width = width_of(vars, wire.var.code.as_slice());
    within(alloc, vars, asked, wire, width)
}

/// Whether a signal is left out if none has its name.
fn may_lack(asked: WantedSignal<'_>) -> bool
    ensures { result ≡ may_lack (asked_view asked.entry) }
{
    asked.behind.is_some() && asked.wanted.may_be_unfound()
}

/// What a name finds that no signal has.
fn unfound<'a>(
    alloc: Global,
    vars: &'a [Var],
    asked: WantedSignal<'_>,
) -> Result<Source<'a>, SignalFault>
    ensures { Finds source_view result (unfound (map var_view vars.now) (asked_view asked.entry)) }
{
    if may_lack(asked) {
        return Ok(left_out());
    }
    Err(missing(alloc, vars, asked))
}

/// The widest of the wires that a name means: all of them have its identifier.
pub(crate) fn signal_in<'a>(
    alloc: Global,
    vars: &'a [Var],
    asked: WantedSignal<'_>,
) -> Result<Source<'a>, SignalFault>
    ensures { Finds source_view result (signal_in (map var_view vars.now) (asked_view asked.entry)) }
{
    let (name, part) = sought(vars, asked.name);
    let Some(wire) = widest_wire(vars, name, part) else {
        return unfound(alloc, vars, asked);
    };
    if has_another(vars, name, part, wire.var.code.as_slice()) {
        return Err(twice(alloc, asked));
    }
    measured(alloc, vars, asked, wire)
}
