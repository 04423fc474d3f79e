//! The names of clocks and resets.
ghost use Rattle.std.specs.Prelude.{◌≡◌, Some};
ghost use Rattle.toml.specs.View.{table_view};
ghost use Rattle.check_signals.specs.Names.{clock_names_in, clock_view, edge_by, edge_in, is_low_in};
ghost use Rattle.check_signals.specs.Values.{GivesNames};

use crate::fault::{KeyFault, SignalKey};
use crate::keys::text_if_any;
use crate::source::copy_if_any;
use check_samples::Edge;
use std::alloc::Global;
use toml::Table;

/// The names of a clock and of a reset, if a table gives them; the edges of the one, and whether the other is active at 0.
#[derive(Debug, Drop)]
pub struct ClockNames {
    pub clock: Option<Vec<u8>>,
    pub edge: Edge,
    pub reset: Option<Vec<u8>>,
    pub is_low: bool,
}

/// Whether a reset is active where it is 0, which may be said otherwise.
fn read_is_low(table: &Table, other: bool) -> Result<bool, KeyFault>
    ensures { GivesNames (λ low. low) result (is_low_in other (table_view table.now)) }
{
    match text_if_any(table, SignalKey::ResetActive)? {
        None => Ok(other),
        Some(b"high") => Ok(false),
        Some(b"low") => Ok(true),
        Some(_) => Err(KeyFault::OutOfRange(SignalKey::ResetActive)),
    }
}

/// The edges that a word means.
fn edge_called(word: &[u8]) -> Result<Edge, KeyFault>
    ensures { GivesNames (λ edge. edge) result (edge_by Edge.Rising (Some word.now)) }
{
    if word == b"rising".as_slice() {
        Ok(Edge::Rising)
    } else if word == b"falling".as_slice() {
        Ok(Edge::Falling)
    } else {
        Err(KeyFault::OutOfRange(SignalKey::Edge))
    }
}

/// The edges of a clock at which beats cross, which may be said otherwise.
fn read_edge(table: &Table, other: Edge) -> Result<Edge, KeyFault>
    ensures { GivesNames (λ edge. edge) result (edge_in other (table_view table.now)) }
{
    match text_if_any(table, SignalKey::Edge)? {
        Some(word) => edge_called(word),
        None => Ok(other),
    }
}

/// The names of a table whose reset stands at this key. What it does not say of edges and resets is said otherwise.
#[tactic(auto, unfolding(crate::specs::Names::clock_names_in))]
pub(crate) fn clock_names(
    alloc: Global,
    table: &Table,
    key: SignalKey,
    other_edge: Edge,
    other_low: bool,
) -> Result<ClockNames, KeyFault>
    ensures { GivesNames clock_view result (clock_names_in key other_edge other_low (table_view table.now)) }
{
    let clock = copy_if_any(alloc, text_if_any(table, SignalKey::Clock)?)?;
    let reset = copy_if_any(alloc, text_if_any(table, key)?)?;
    let is_low = read_is_low(table, other_low)?;
    let edge = read_edge(table, other_edge)?;
    Ok(ClockNames {
        clock,
        edge,
        reset,
        is_low,
    })
}
