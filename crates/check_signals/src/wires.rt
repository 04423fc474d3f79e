//! The bits that a name means, among the signals that a dump declares.
ghost use Rattle.std.specs.Prelude.{◌≡◌, IfSome, map, option_map, not};
ghost use Rattle.std.specs.List.{list_any};
ghost use Rattle.std.specs.Str.{bytes_eq};
ghost use Rattle.check_vcd.specs.Header.{var_view};
ghost use Rattle.check_signals.specs.Wires.{IsInside, first_of, places_in, sought as sought_in, sought_view, wider_by, widest_of, wire_by, wire_of, wire_view, wires};

use check_vcd::{Span, Var, split_range};

/// The places of bits among the digits of a signal, from the first to before the last, the highest bit's digit being at
/// place 0.
#[derive(Debug, Clone, Copy, PartialEq, Eq)]
pub struct Places {
    pub from: u64,
    pub to: u64,
}

/// The places of a range of bits in a signal whose bits have these indices, if it has them in this order.
pub fn places_in(span: Span, part: Span) -> Option<Places>
    ensures { result ≡ places_in span part }
{
    let from = span.left.abs_diff(part.left);
    let last = span.left.abs_diff(part.right);
    let is_down = part.left <= span.left && part.right <= part.left && span.right <= part.right;
    let is_up = span.left <= part.left && part.left <= part.right && part.right <= span.right;
    if !is_down && !is_up {
        return None;
    }
    match last.checked_add(1) {
        Some(to) => Some(Places { from, to }),
        None => None,
    }
}

/// Some bits of a declared signal.
#[derive(Debug, Clone, Copy)]
pub(crate) struct Wire<'a> {
    pub(crate) var: &'a Var,
    pub(crate) places: Places,
}

/// The bits of a signal that a range means, if the signal has them; all bits if there is no range.
fn wire_by<'a>(var: &'a Var, part: Option<Span>) -> Option<Wire<'a>>
    ensures wire { option_map wire_view result ≡ wire_by part (var_view var.now) }
    ensures inside { IfSome result IsInside }
{
    let Some(part) = part else {
        let to = var.width;
        return Some(Wire {
            var,
            places: Places { from: 0, to },
        });
    };
    let Some(span) = var.span else {
        return None;
    };
    match places_in(span, part) {
        Some(places) if places.from <= places.to && places.to <= var.width => {
            Some(Wire { var, places })
        }
        _ => None,
    }
}

/// The same of a signal that has this name.
fn wire_of<'a>(var: &'a Var, name: &[u8], part: Option<Span>) -> Option<Wire<'a>>
    ensures wire { option_map wire_view result ≡ wire_of name.now part (var_view var.now) }
    ensures inside { IfSome result IsInside }
{
    if var.name.as_slice() == name {
        wire_by(var, part)
    } else {
        None
    }
}

/// The first wire that a name and a range mean.
pub(crate) fn first_wire<'a>(vars: &'a [Var], name: &[u8], part: Option<Span>) -> Option<Wire<'a>>
    ensures wire { option_map wire_view result ≡ first_of (wires name.now part (map var_view vars.now)) }
    ensures inside { IfSome result IsInside }
{
    for var in vars {
        if let Some(wire) = wire_of(var, name, part) {
            return Some(wire);
        }
    }
    None
}

/// The one of a wider signal, or else the first.
fn wider<'a>(best: Option<Wire<'a>>, wire: Wire<'a>) -> Wire<'a>
    requires best { IfSome best IsInside }
    requires wire { IsInside wire }
    ensures wire { wire_view result ≡ wider_by (option_map wire_view best.entry) (wire_view wire.entry) }
    ensures inside { IsInside result }
{
    match best {
        Some(best) if wire.var.width <= best.var.width => best,
        _ => wire,
    }
}

/// The widest wire that a name and a range mean, of several the first.
pub(crate) fn widest_wire<'a>(vars: &'a [Var], name: &[u8], part: Option<Span>) -> Option<Wire<'a>>
    ensures wire { option_map wire_view result ≡ widest_of (wires name.now part (map var_view vars.now)) }
    ensures inside { IfSome result IsInside }
{
    let mut best: Option<Wire<'a>> = None;
    for var in vars {
        if let Some(wire) = wire_of(var, name, part) {
            best = Some(wider(best, wire));
        }
    }
    best
}

/// Whether a name and a range mean a wire of another identifier.
pub(crate) fn has_another(vars: &[Var], name: &[u8], part: Option<Span>, code: &[u8]) -> bool
    ensures { result ≡ list_any (λ wire. not (bytes_eq wire.var.code code.now))
        (wires name.now part (map var_view vars.now)) }
{
    for var in vars {
        if let Some(wire) = wire_of(var, name, part)
            && wire.var.code.as_slice() != code
        {
            return true;
        }
    }
    false
}

/// What is looked for by a name: all bits of a signal of this name, or else those that a range at its end means.
pub(crate) fn sought<'n>(vars: &[Var], name: &'n [u8]) -> (&'n [u8], Option<Span>)
    ensures { sought_view result ≡ sought_in (map var_view vars.now) name.now }
{
    if first_wire(vars, name, None).is_some() {
        return (name, None);
    }
    match split_range(name) {
        Some((base, part)) => (base, Some(part)),
        None => (name, None),
    }
}
