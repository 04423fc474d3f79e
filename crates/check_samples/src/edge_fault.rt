//! What the edges of its domains say of a whole dump.
ghost use Rattle.std.specs.Prelude.{◌≡◌, IfOk, map, option_map};
ghost use Rattle.check_samples.specs.Domain.{watched_view};
ghost use Rattle.check_samples.specs.EdgeFault.{edge_fault, edge_fault_view, first_masked, first_never, first_reset, never_by, some_crossed};

use crate::clock::Edge;
use crate::edges::is_low_of;
use crate::watched::Watched;
use std::alloc::AllocError;

/// Why the edges of a whole dump are none to take beats at. A clock or a reset that is not the system's own is named. A reset
/// that is active at 0 is low.
#[derive(Debug, Drop)]
pub enum EdgeFault {
    /// The clock never rises.
    NeverRises(Option<Vec<u8>>),
    /// The clock never falls, and its falling edges were asked for.
    NeverFalls(Option<Vec<u8>>),
    /// The reset is active at every edge; whether it is low.
    ResetAtEdges(Option<Vec<u8>>, bool),
    /// No beat crossed, and valid and ready were 1 in reset; whether it is low.
    ResetAtBeats(bool),
}

/// A name that there may be, copied.
fn copy_of(name: &Option<Vec<u8>>) -> Result<Option<Vec<u8>>, AllocError>
    ensures { IfOk result (λ copy. option_map (λ name. name.items) copy ≡ option_map (λ name. name.items) name.now) }
{
    match name {
        Some(name) => Ok(Some(name.clone()?)),
        None => Ok(None),
    }
}

/// That a clock has no edge.
fn never_by(edge: Edge, name: Option<Vec<u8>>) -> EdgeFault
    ensures { edge_fault_view result ≡ never_by edge (option_map (λ name. name.items) name) }
{
    match edge {
        Edge::Rising => EdgeFault::NeverRises(name),
        Edge::Falling => EdgeFault::NeverFalls(name),
    }
}

/// That of the first domain in which there was no edge.
fn first_never(watched: &[Watched]) -> Result<Option<EdgeFault>, AllocError>
    ensures { IfOk result (λ fault. option_map edge_fault_view fault ≡ first_never (map watched_view watched.now)) }
{
    for one in watched {
        if !one.edges.any {
            let name = copy_of(&one.domain.clock_name)?;
            return Ok(Some(never_by(one.domain.clock.edge, name)));
        }
    }
    Ok(None)
}

/// That of the first domain whose edges were all in reset.
fn first_reset(watched: &[Watched]) -> Result<Option<EdgeFault>, AllocError>
    ensures { IfOk result (λ fault. option_map edge_fault_view fault ≡ first_reset (map watched_view watched.now)) }
{
    for one in watched {
        if !one.edges.outside {
            let name = copy_of(&one.domain.reset_name)?;
            return Ok(Some(EdgeFault::ResetAtEdges(name, is_low_of(one.domain.reset))));
        }
    }
    Ok(None)
}

/// That of the first domain in which valid and ready of a channel were 1 in reset.
fn first_masked(watched: &[Watched]) -> Option<EdgeFault>
    ensures { option_map edge_fault_view result ≡ first_masked (map watched_view watched.now) }
{
    for one in watched {
        if one.edges.masked {
            return Some(EdgeFault::ResetAtBeats(is_low_of(one.domain.reset)));
        }
    }
    None
}

/// Whether a beat crossed in some domain.
pub(crate) fn some_crossed(watched: &[Watched]) -> bool
    ensures { result ≡ some_crossed (map watched_view watched.now) }
{
    for one in watched {
        if one.edges.crossed {
            return true;
        }
    }
    false
}

/// Why the edges of a whole dump are none to take beats at, if they are not.
pub(crate) fn edge_fault(watched: &[Watched]) -> Result<Option<EdgeFault>, AllocError>
    ensures { IfOk result (λ fault. option_map edge_fault_view fault ≡ edge_fault (map watched_view watched.now)) }
{
    if let Some(never) = first_never(watched)? {
        return Ok(Some(never));
    }
    if let Some(reset) = first_reset(watched)? {
        return Ok(Some(reset));
    }
    if some_crossed(watched) {
        return Ok(None);
    }
    Ok(first_masked(watched))
}
