//! The name that is nearest to a name.
ghost use Rattle.std.specs.Prelude.{◌≡◌, IfOk, map, option_map};
ghost use Rattle.check_keys.specs.Nearest.{distance, is_below, nearest};

use std::alloc::{AllocError, Global};
use strsim::generic_levenshtein;

/// A name, and how far it is from the one that is looked for.
#[derive(Debug, Clone, Copy)]
struct Near<'a> {
    name: &'a [u8],
    distance: usize,
}

/// How many bytes have to be changed, put in or left out.
#[tactic(auto, unfolding(crate::specs::Nearest::distance))]
fn distance(alloc: Global, name: &[u8], other: &[u8]) -> Result<usize, AllocError>
    ensures { IfOk result (λ count. count ≡ distance name.now other.now) }
{
    generic_levenshtein(alloc, name, other)
}

/// Whether a name so far away is nearer than the nearest so far.
fn is_nearer(best: Option<Near<'_>>, distance: usize) -> bool
    ensures { result ≡ is_below distance (option_map (λ near. near.distance) best.entry) }
{
    match best {
        Some(best) => distance < best.distance,
        None => true,
    }
}

/// The name of these that is nearest to a name; of several the first.
pub fn nearest<'a>(
    alloc: Global,
    names: &[&'a [u8]],
    name: &[u8],
) -> Result<Option<&'a [u8]>, AllocError>
    ensures { IfOk result (λ near. option_map (λ near. near.now) near
        ≡ nearest name.now (map (λ other. other.now) names.now)) }
{
    let mut best: Option<Near<'a>> = None;
    for other in names {
        let distance = distance(alloc, name, other)?;
        if is_nearer(best, distance) {
            best = Some(Near {
                name: *other,
                distance,
            });
        }
    }
    match best {
        Some(near) => Ok(Some(near.name)),
        None => Ok(None),
    }
}
