//! The parts of a signal of a link.
ghost use Rattle.std.specs.Prelude.{◌≡◌, ◌≢◌, ◌++◌, IfOk, OnOk, map};
ghost use Rattle.tl_text.specs.Reading.{each};
ghost use Rattle.check_vcd.specs.Header.{var_view};
ghost use Rattle.check_samples.specs.Signal.{signal_name};
ghost use Rattle.check_signals.specs.Names.{name_view};
ghost use Rattle.check_signals.specs.Parts.{all_parts, fitting, part_of, signal_parts, signals_view, whole_of};
ghost use Rattle.check_signals.specs.Source.{Finds, Width as WidthIn, fault_view, parts_bits, sources_view, source_view};
ghost use Rattle.check_signals.specs.Wanted.{count_of};
ghost use Rattle.check_signals.specs.declared.signal_fault.SignalFault.TheVariants.{Memory};

use crate::keys::SignalName;
use crate::nets::named_in;
use crate::prefixes::taken;
use crate::signal_fault::{SignalFault, SignalOwner};
use crate::source::{MAX_WIDTH, Source, WantedSignal};
use crate::wanted::Wanted;
use check_samples::Signal;
use check_vcd::Var;
use std::alloc::{AllocError, Global};

/// Which signal of a link is looked for, and how many bits it has to have.
#[derive(Debug, Clone, Copy, PartialEq, Eq)]
pub struct LinkSignal {
    pub owner: SignalOwner,
    pub which: Signal,
    pub wanted: Wanted,
}

/// The parts of a signal, the highest bits first.
pub(crate) type Parts<'a> = Vec<Source<'a>>;

/// What one name finds.
fn whole_of<'a>(
    alloc: Global,
    vars: &'a [Var],
    signal: LinkSignal,
    name: &[u8],
    behind: Option<Signal>,
) -> Result<Parts<'a>, SignalFault>
    ensures { Finds sources_view result (whole_of (map var_view vars.now) signal name.now behind) }
{
    let asked = WantedSignal {
        owner: signal.owner,
        name,
        behind,
        wanted: signal.wanted,
    };
    named_in(alloc, vars, asked)
}

/// What one of several names finds, which has any number of bits.
fn part_of<'a>(
    alloc: Global,
    vars: &'a [Var],
    signal: LinkSignal,
    name: &[u8],
) -> Result<Parts<'a>, SignalFault>
    ensures { Finds sources_view result (part_of (map var_view vars.now) signal name.now) }
{
    let asked = WantedSignal {
        owner: signal.owner,
        name,
        behind: None,
        wanted: Wanted::AtMost(MAX_WIDTH),
    };
    named_in(alloc, vars, asked)
}

/// What several names find, or the first fault.
fn each_part<'a>(
    alloc: Global,
    vars: &'a [Var],
    signal: LinkSignal,
    names: &[Vec<u8>],
) -> Result<Vec<Parts<'a>>, SignalFault>
    ensures { Finds (λ found. signals_view found.items) result
        (each (part_of (map var_view vars.now) signal) (map (λ name. name.items) names.now)) }
{
    let mut found = Vec::with_capacity(alloc, names.len())?;
    for name in names {
        found.push(part_of(alloc, vars, signal, name)?)?;
    }
    Ok(found)
}

/// Appends the parts of signals, one after the other.
pub(crate) fn push_parts<'a>(all: &mut Parts<'a>, signals: &[Parts<'a>]) -> Result<(), AllocError>
    ensures { OnOk result (map source_view all.new.items
        ≡ map source_view all.old.items ++ all_parts (signals_view signals.now)) }
{
    for parts in signals {
        all.extend_from_slice(parts)?;
    }
    Ok(())
}

/// The parts of signals, one after the other.
fn joined<'a>(alloc: Global, signals: &[Parts<'a>]) -> Result<Parts<'a>, AllocError>
    ensures { IfOk result (λ parts. sources_view parts ≡ all_parts (signals_view signals.now)) }
{
    let mut all = Vec::new(alloc);
    push_parts(&mut all, signals)?;
    Ok(all)
}

/// How many bits parts have together. There are no 2^64.
pub(crate) fn parts_bits(parts: &[Source<'_>]) -> Result<u64, AllocError>
    ensures { IfOk result (λ bits. bits ≡ parts_bits (map source_view parts.now)) }
{
    let mut bits: u64 = 0;
    for part in parts {
        bits = bits
            .checked_add(part.to.saturating_sub(part.from))
            .ok_or(AllocError)?;
    }
    Ok(bits)
}

/// That several signals have another number of bits together than is wanted.
fn misfit(alloc: Global, signal: LinkSignal, bits: u64) -> SignalFault
    ensures { result ≢ Memory
        → fault_view result ≡ WidthIn signal.owner (signal_name signal.which) bits (count_of signal.wanted) }
{
    match Vec::from_slice(alloc, signal.which.name().as_bytes()) {
        Ok(name) => SignalFault::Width(signal.owner, name, bits, signal.wanted.count()),
        Err(_) => SignalFault::Memory,
    }
}

/// Several signals, if they have as many bits together as are wanted.
fn fitting<'a>(
    alloc: Global,
    signal: LinkSignal,
    parts: Parts<'a>,
) -> Result<Parts<'a>, SignalFault>
    ensures { Finds sources_view result (fitting signal (sources_view parts.entry)) }
{
    let bits = parts_bits(&parts)?;
    if !signal.wanted.fits(bits) {
        return Err(misfit(alloc, signal, bits));
    }
    Ok(parts)
}

/// The parts of a signal of this name, the highest bits first.
pub(crate) fn signal_parts<'a>(
    alloc: Global,
    vars: &'a [Var],
    signal: LinkSignal,
    name: &SignalName,
) -> Result<Parts<'a>, SignalFault>
    ensures { Finds sources_view result (signal_parts (map var_view vars.now) signal (name_view name.now)) }
{
    match name {
        SignalName::Prefixed(names) => {
            whole_of(alloc, vars, signal, taken(vars, names), Some(signal.which))
        }
        SignalName::Wired(name) => whole_of(alloc, vars, signal, name, None),
        SignalName::Joined(names) => {
            let found = each_part(alloc, vars, signal, names)?;
            fitting(alloc, signal, joined(alloc, &found)?)
        }
    }
}
