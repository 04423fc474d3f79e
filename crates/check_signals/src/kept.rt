//! What is kept of a dump, each value in a slot of its own.
ghost use Rattle.std.specs.Prelude.{◌≡◌, ◌++◌, IfOk, OnOk, map};
ghost use Rattle.check_signals.specs.Found.{is_kept, is_same, values_kept as kept_in, slot_place, tap_by};
ghost use Rattle.check_signals.specs.Source.{kept_view, source_view};

use crate::source::{Kept, Source};
use check_samples::Tap;
use std::alloc::{AllocError, Global};

/// Whether two values are one: of one identifier, or constants with the same digits.
fn is_same(one: Kept<'_>, other: Kept<'_>) -> bool
    ensures { result ≡ is_same (kept_view one.entry) (kept_view other.entry) }
{
    match (one, other) {
        (Kept::Signal(one, _), Kept::Signal(other, _)) => one == other,
        (Kept::Constant(digit, bits), Kept::Constant(other, count)) => {
            digit == other && bits == count
        }
        _ => false,
    }
}

/// Whether a value is kept.
fn is_kept(kept: &[Kept<'_>], value: Kept<'_>) -> bool
    ensures { result ≡ is_kept (map kept_view kept.now) (kept_view value.entry) }
{
    for other in kept {
        if is_same(*other, value) {
            return true;
        }
    }
    false
}

/// What is kept of these sources: the value of each, once.
#[tactic(auto, unfolding(crate::specs::Found::values_kept))]
pub(crate) fn values_kept<'a>(
    alloc: Global,
    sources: &[Source<'a>],
) -> Result<Vec<Kept<'a>>, AllocError>
    ensures { IfOk result (λ kept. map kept_view kept.items ≡ kept_in (map source_view sources.now)) }
{
    let mut kept = Vec::new(alloc);
    for source in sources {
        if !is_kept(&kept, source.kept) {
            kept.push(source.kept)?;
        }
    }
    Ok(kept)
}

/// The place of a value among those that are kept.
fn slot_place(kept: &[Kept<'_>], value: Kept<'_>) -> usize
    ensures { result ≡ slot_place (map kept_view kept.now) (kept_view value.entry) }
{
    for (place, other) in kept.iter().enumerate() {
        if is_same(*other, value) {
            return place;
        }
    }
    kept.len()
}

/// Where the digits of a source are kept.
pub(crate) fn tap_by(kept: &[Kept<'_>], source: Source<'_>) -> Tap
    ensures { result ≡ tap_by (map kept_view kept.now) (source_view source.entry) }
{
    Tap {
        slot: slot_place(kept, source.kept),
        from: source.from as usize,
        to: source.to as usize,
    }
}

/// Appends where the digits of sources are kept.
pub(crate) fn push_taps(
    taps: &mut Vec<Tap>,
    kept: &[Kept<'_>],
    sources: &[Source<'_>],
) -> Result<(), AllocError>
    ensures { OnOk result (taps.new.items
        ≡ taps.old.items ++ map (tap_by (map kept_view kept.now)) (map source_view sources.now)) }
{
    for source in sources {
        taps.push(tap_by(kept, *source))?;
    }
    Ok(())
}
