//! Nets that a dump declares bit by bit.
ghost use Rattle.std.specs.Prelude.{◌≡◌, ◌&&◌, ◌∷◌, [], IfOk, is_none, map, not, option_map};
ghost use Rattle.std.specs.List.{list_any};
ghost use Rattle.std.specs.Str.{bytes_eq};
ghost use Rattle.tl_text.specs.Reading.{each};
ghost use Rattle.check_vcd.specs.Header.{var_view};
ghost use Rattle.check_signals.specs.Nets.{bit_at, bit_called, bit_of, bit_view, bit_within, bits_called, bits_wanted, codes_at, has_whole, indices_down, lone, meant, meant_of, named_in, net_by, net_in, one_of, span_from, span_of, vector_in, with_bit};
ghost use Rattle.check_signals.specs.Source.{Finds, asked_view, sources_view, signal_in, source_view};
ghost use Rattle.check_signals.specs.Wires.{first_of};

use crate::parts::{Parts, parts_bits};
use crate::signal_fault::SignalFault;
use crate::source::{
    Kept, MAX_WIDTH, Source, WantedSignal, constant_of, digit_in, is_left_out, left_out, signal_in,
    too_wide, twice, width_of,
};
use crate::wires::sought;
use check_vcd::{Span, Var};
use std::alloc::{AllocError, Global};

/// A bit that is declared alone: its index and its identifier.
#[derive(Debug, Clone, Copy)]
pub(crate) struct Bit<'a> {
    pub(crate) index: u64,
    pub(crate) code: &'a [u8],
}

/// The bit that a signal is, if it has one bit with an index.
fn bit_of(var: &Var) -> Option<Bit<'_>>
    ensures { option_map bit_view result ≡ bit_of (var_view var.now) }
{
    match var.span {
        Some(span) if var.width == 1 && span.left == span.right => Some(Bit {
            index: span.left,
            code: &var.code,
        }),
        _ => None,
    }
}

/// The same of a signal that has this name.
fn bit_called<'a>(var: &'a Var, name: &[u8]) -> Option<Bit<'a>>
    ensures { option_map bit_view result ≡ bit_called name.now (var_view var.now) }
{
    if var.name.as_slice() == name {
        bit_of(var)
    } else {
        None
    }
}

/// The bits of a name.
fn bits_called<'a>(alloc: Global, vars: &'a [Var], name: &[u8]) -> Result<Vec<Bit<'a>>, AllocError>
    ensures { IfOk result (λ bits. map bit_view bits.items ≡ bits_called (map var_view vars.now) name.now) }
{
    let mut bits = Vec::new(alloc);
    for var in vars {
        if let Some(bit) = bit_called(var, name) {
            bits.push(bit)?;
        }
    }
    Ok(bits)
}

/// Whether a signal of the name is no such bit.
fn has_whole(vars: &[Var], name: &[u8]) -> bool
    ensures { result ≡ has_whole (map var_view vars.now) name.now }
{
    for var in vars {
        if var.name.as_slice() == name && bit_of(var).is_none() {
            return true;
        }
    }
    false
}

/// The highest and the lowest index, with those of one bit more.
fn with_bit(span: Span, bit: Bit<'_>) -> Span
    ensures { result ≡ with_bit span (bit_view bit.entry) }
{
    Span {
        left: if span.left < bit.index {
            bit.index
        } else {
            span.left
        },
        right: if bit.index < span.right {
            bit.index
        } else {
            span.right
        },
    }
}

/// The same with those of several bits more.
fn span_from(first: Span, bits: &[Bit<'_>]) -> Span
    ensures { result ≡ span_from first (map bit_view bits.now) }
{
    let mut span = first;
    for bit in bits {
        span = with_bit(span, *bit);
    }
    span
}

/// The highest and the lowest index of bits, if there are any.
fn span_of(bits: &[Bit<'_>]) -> Option<Span>
    ensures { result ≡ span_of (map bit_view bits.now) }
{
    let [first, others @ ..] = bits else {
        return None;
    };
    let span = Span {
        left: first.index,
        right: first.index,
    };
    Some(span_from(span, others))
}

/// The identifier of the first bit with an index.
fn first_code<'a>(bits: &[Bit<'a>], index: u64) -> Option<&'a [u8]>
    ensures { option_map (λ code. code.now) result ≡ first_of (codes_at (map bit_view bits.now) index) }
{
    for bit in bits {
        if bit.index == index {
            return Some(bit.code);
        }
    }
    None
}

/// Whether a bit with an index has another identifier.
fn has_other(bits: &[Bit<'_>], index: u64, code: &[u8]) -> bool
    ensures { result ≡ list_any (λ other. not (bytes_eq other code.now)) (codes_at (map bit_view bits.now) index) }
{
    for bit in bits {
        if bit.index == index && bit.code != code {
            return true;
        }
    }
    false
}

/// The lowest bit of an identifier whose values have so many bits.
fn bit_within<'a>(
    alloc: Global,
    asked: WantedSignal<'_>,
    code: &'a [u8],
    width: u64,
) -> Result<Source<'a>, SignalFault>
    ensures { Finds source_view result (bit_within (asked_view asked.entry) code.now width) }
{
    if width > MAX_WIDTH {
        return Err(too_wide(alloc, asked, width, MAX_WIDTH));
    }
    Ok(Source {
        kept: Kept::Signal(code, width),
        from: width.saturating_sub(1),
        to: width,
    })
}

/// The bit of an index.
#[tactic(auto, unfolding(crate::specs::Nets::bit_at))]
fn bit_at<'a>(
    alloc: Global,
    vars: &'a [Var],
    asked: WantedSignal<'_>,
    bits: &[Bit<'a>],
    index: u64,
) -> Result<Source<'a>, SignalFault>
    ensures { Finds source_view result
        (bit_at (map var_view vars.now) (asked_view asked.entry) (map bit_view bits.now) index) }
{
    let Some(code) = first_code(bits, index) else {
        return Err(twice(alloc, asked));
    };
    if has_other(bits, index, code) {
        return Err(twice(alloc, asked));
    }
    bit_within(alloc, asked, code, width_of(vars, code))
}

/// So many indices, from this one down.
fn indices_down(alloc: Global, from: u64, count: u64) -> Result<Vec<u64>, AllocError>
    ensures { IfOk result (λ indices. indices.items ≡ indices_down from count) }
{
    let mut indices = Vec::new(alloc);
    for step in 0..count {
        indices.push(from.saturating_sub(step))?;
    }
    Ok(indices)
}

/// The bits of these indices, or the first fault.
fn bits_at<'a>(
    alloc: Global,
    vars: &'a [Var],
    asked: WantedSignal<'_>,
    bits: &[Bit<'a>],
    indices: &[u64],
) -> Result<Parts<'a>, SignalFault>
    ensures { Finds sources_view result
        (each (bit_at (map var_view vars.now) (asked_view asked.entry) (map bit_view bits.now)) indices.now) }
{
    let mut parts = Vec::with_capacity(alloc, indices.len())?;
    for index in indices {
        parts.push(bit_at(alloc, vars, asked, bits, *index)?)?;
    }
    Ok(parts)
}

/// Bits, if they are as many as are wanted.
fn bits_wanted<'a>(
    alloc: Global,
    asked: WantedSignal<'_>,
    parts: Parts<'a>,
) -> Result<Parts<'a>, SignalFault>
    ensures { Finds sources_view result (bits_wanted (asked_view asked.entry) (sources_view parts.entry)) }
{
    let bits = parts_bits(&parts)?;
    if !asked.wanted.fits(bits) {
        return Err(too_wide(alloc, asked, bits, asked.wanted.count()));
    }
    Ok(parts)
}

/// The bits of a name with these indices, from the highest to the lowest.
fn vector_in<'a>(
    alloc: Global,
    vars: &'a [Var],
    asked: WantedSignal<'_>,
    name: &[u8],
    bits: &[Bit<'a>],
    span: Span,
) -> Result<Parts<'a>, SignalFault>
    ensures { Finds sources_view result
        (vector_in (map var_view vars.now) (asked_view asked.entry) name.now (map bit_view bits.now) span) }
{
    let last = span.left.saturating_sub(span.right);
    if has_whole(vars, name) || last >= bits.len() as u64 {
        return Err(twice(alloc, asked));
    }
    let indices = indices_down(alloc, span.left, last + 1)?;
    let parts = bits_at(alloc, vars, asked, bits, &indices)?;
    bits_wanted(alloc, asked, parts)
}

/// The indices that are meant of these, if they are several: all, or those of a range that lies within them.
fn meant_of(span: Span, part: Option<Span>) -> Option<Span>
    ensures { result ≡ meant_of span part }
{
    match part {
        None if span.right < span.left => Some(span),
        Some(part)
            if part.right < part.left && part.left <= span.left && span.right <= part.right => {
            Some(part)
        }
        _ => None,
    }
}

/// The same of bits, of which there may be none.
fn meant(bits: &[Bit<'_>], part: Option<Span>) -> Option<Span>
    ensures { result ≡ meant (span_of (map bit_view bits.now)) part }
{
    meant_of(span_of(bits)?, part)
}

/// One part.
fn lone<'a>(alloc: Global, part: Source<'a>) -> Result<Parts<'a>, AllocError>
    ensures { IfOk result (λ parts. sources_view parts ≡ source_view part.entry ∷ []) }
{
    let mut parts = Vec::new(alloc);
    parts.push(part)?;
    Ok(parts)
}

/// What a name finds among the signals that a dump declares.
fn net_in<'a>(
    alloc: Global,
    vars: &'a [Var],
    asked: WantedSignal<'_>,
) -> Result<Parts<'a>, SignalFault>
    ensures { Finds sources_view result (net_in (map var_view vars.now) (asked_view asked.entry)) }
{
    let (name, part) = sought(vars, asked.name);
    let bits = bits_called(alloc, vars, name)?;
    match meant(&bits, part) {
        Some(span) => vector_in(alloc, vars, asked, name, &bits, span),
        None => {
            let found = signal_in(alloc, vars, asked)?;
            Ok(lone(alloc, found)?)
        }
    }
}

/// What a name finds: a constant, or a signal.
#[tactic(auto, unfolding(crate::specs::Nets::named_in))]
pub(crate) fn named_in<'a>(
    alloc: Global,
    vars: &'a [Var],
    asked: WantedSignal<'_>,
) -> Result<Parts<'a>, SignalFault>
    ensures { Finds sources_view result (named_in (map var_view vars.now) (asked_view asked.entry)) }
{
    if is_left_out(asked) {
        return Ok(lone(alloc, left_out())?);
    }
    match digit_in(asked.name) {
        Some(digit) => Ok(lone(alloc, constant_of(digit, asked.wanted.constant_bits()))?),
        None => net_in(alloc, vars, asked),
    }
}

/// The one part of a signal that has to be one.
pub(crate) fn one_of<'a>(
    alloc: Global,
    asked: WantedSignal<'_>,
    parts: &[Source<'a>],
) -> Result<Source<'a>, SignalFault>
    ensures { Finds source_view result (one_of (asked_view asked.entry) (map source_view parts.now)) }
{
    if let [part] = parts {
        return Ok(*part);
    }
    let bits = parts_bits(parts)?;
    Err(too_wide(alloc, asked, bits, asked.wanted.count()))
}
