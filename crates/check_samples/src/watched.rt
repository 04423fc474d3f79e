//! Domains that are watched, time by time.
ghost use Rattle.std.specs.Prelude.{◌≡◌, IfOk, is_some, map, option_map};
ghost use Rattle.std.specs.List.{list_any};
ghost use Rattle.check_samples.specs.Domain.{domain_view, unwatched, watched_view};
ghost use Rattle.check_samples.specs.Edges.{with_edge};
ghost use Rattle.check_samples.specs.Resets.{begins, is_reset_due, unwatched_reset, watched_reset};
ghost use Rattle.check_samples.specs.Rows.{due_at, has_edge, is_active, is_early, is_late, some_crosses, ticks};
ghost use Rattle.check_samples.specs.Sampling.{needs_due, dues_of, edges_at, watched_from};
ghost use Rattle.check_samples.specs.Values.{all_before, all_now};

use crate::channel::Channel;
use crate::clock::{Clock, Edge};
use crate::domain::Domain;
use crate::edge_fault::some_crossed;
use crate::edges::{Edges, Needs, needs_of};
use crate::hands::{is_one, is_zero, some_crosses};
use crate::reset::{Reset, SystemReset, WatchedReset};
use crate::values::Values;
use std::alloc::{AllocError, Global};

/// A domain, what there was at its edges at the times that are over, and what has to be known at the present time if its
/// clock has an edge then outside of reset.
#[derive(Drop)]
pub(crate) struct Watched {
    pub(crate) domain: Domain,
    pub(crate) edges: Edges,
    due: Option<Needs>,
}

/// The system's reset, if its resets are told, of which nothing was seen.
pub(crate) fn watch_reset(resets: Option<SystemReset>) -> Option<WatchedReset>
    ensures { result ≡ option_map unwatched_reset resets }
{
    match resets {
        None => None,
        Some(system) => Some(WatchedReset {
            system,
            was_active: false,
        }),
    }
}

/// Domains, of which nothing was seen.
pub(crate) fn watch_all(alloc: Global, domains: Vec<Domain>) -> Result<Vec<Watched>, AllocError>
    ensures { IfOk result (λ watched. map watched_view watched.items ≡ map unwatched (map domain_view domains.items)) }
{
    let mut watched = Vec::with_capacity(alloc, domains.len())?;
    for domain in domains {
        watched.push(Watched {
            domain,
            edges: Edges::none(),
            due: None,
        })?;
    }
    Ok(watched)
}

/// Whether a reset is active. One that is unknown is not.
fn is_active(values: &Values, reset: Option<Reset>) -> bool
    ensures { result ≡ is_active (all_before values.now) reset }
{
    match reset {
        None => false,
        Some(reset) if reset.is_low => is_zero(values.before(reset.tap)),
        Some(reset) => is_one(values.before(reset.tap)),
    }
}

/// Whether these are the bit that a clock is before its edge.
fn is_early(edge: Edge, bits: &[u8]) -> bool
    ensures { result ≡ is_early edge bits.now }
{
    match edge {
        Edge::Rising => is_zero(bits),
        Edge::Falling => is_one(bits),
    }
}

/// Whether they are the one that it is then.
fn is_late(edge: Edge, bits: &[u8]) -> bool
    ensures { result ≡ is_late edge bits.now }
{
    match edge {
        Edge::Rising => is_one(bits),
        Edge::Falling => is_zero(bits),
    }
}

/// Whether the clock ticks at the present time.
fn ticks(values: &Values, clock: Clock) -> bool
    ensures { result ≡ ticks (all_before values.now) (all_now values.now) clock }
{
    is_early(clock.edge, values.before(clock.tap)) && is_late(clock.edge, values.now(clock.tap))
}

/// Whether the clock of a domain ticks at the present time, outside of reset.
fn has_edge(values: &Values, domain: &Domain) -> bool
    ensures { result ≡ has_edge (all_before values.now) (all_now values.now) (domain_view domain.now) }
{
    ticks(values, domain.clock) && !is_active(values, domain.reset)
}

/// What there was at the edges of the domain at a place, after one more at the present time. Once it is known that beats
/// crossed they are not looked for again.
fn with_edge(place: usize, one: &Watched, values: &Values, channels: &[Channel]) -> Edges
    ensures { result ≡ with_edge one.now.edges (is_active (all_before values.now) one.now.domain.reset)
        (some_crosses place (all_before values.now) channels.now) }
{
    let edges = one.edges;
    let in_reset = is_active(values, one.domain.reset);
    Edges {
        any: true,
        outside: edges.outside || !in_reset,
        in_reset: edges.in_reset || in_reset,
        crossed: edges.crossed || (!in_reset && some_crosses(place, values, channels)),
        masked: edges.masked || (in_reset && some_crosses(place, values, channels)),
    }
}

/// What there was at the edges of the domain at a place, with that of the present time.
fn edges_at(place: usize, one: &Watched, values: &Values, channels: &[Channel]) -> Edges
    ensures { result ≡ edges_at place (all_before values.now) (all_now values.now) channels.now (watched_view one.now) }
{
    if ticks(values, one.domain.clock) {
        with_edge(place, one, values, channels)
    } else {
        one.edges
    }
}

/// The present time is over: what there was at its edges is noted.
pub(crate) fn note_edges(watched: &mut [Watched], values: &Values, channels: &[Channel])
    ensures { map watched_view watched.new
        ≡ watched_from 0 (all_before values.now) (all_now values.now) channels.now (map watched_view watched.old) }
{
    for (place, one) in watched.iter_mut().enumerate() {
        one.edges = edges_at(place, one, values, channels);
    }
}

/// The present time is over: if it was an edge of the system's clock, it is noted whether the reset was active.
fn noted_reset(one: WatchedReset, values: &Values) -> WatchedReset
    ensures { result ≡ watched_reset (all_before values.now) (all_now values.now) one }
{
    if ticks(values, one.system.clock) {
        WatchedReset {
            system: one.system,
            was_active: is_active(values, Some(one.system.reset)),
        }
    } else {
        one
    }
}

/// The same of the system's reset, if its resets are told.
pub(crate) fn note_reset(resets: Option<WatchedReset>, values: &Values) -> Option<WatchedReset>
    ensures { result ≡ option_map (watched_reset (all_before values.now) (all_now values.now)) resets }
{
    match resets {
        None => None,
        Some(one) => Some(noted_reset(one, values)),
    }
}

/// Whether the system's reset is active at an edge of its clock at the present time, and was not at the edge before.
fn begins(one: WatchedReset, values: &Values) -> bool
    ensures { result ≡ begins (all_before values.now) (all_now values.now) one }
{
    ticks(values, one.system.clock) && is_active(values, Some(one.system.reset)) && !one.was_active
}

/// Whether the present time has a reset's row.
pub(crate) fn is_reset_due(
    resets: Option<WatchedReset>,
    values: &Values,
    watched: &[Watched],
) -> bool
    ensures { result
        ≡ is_reset_due (all_before values.now) (all_now values.now) (map watched_view watched.now) resets }
{
    match resets {
        None => false,
        Some(one) => begins(one, values) && some_crossed(watched),
    }
}

/// What has to be known of a domain at the present time.
fn needs_due(one: &Watched, values: &Values) -> Option<Needs>
    ensures { result ≡ needs_due (all_before values.now) (all_now values.now) (watched_view one.now) }
{
    if has_edge(values, &one.domain) {
        Some(needs_of(one.domain.reset, one.edges))
    } else {
        None
    }
}

/// Notes what has to be known in each domain at the present time.
fn note_each(watched: &mut [Watched], values: &Values)
    ensures same { map watched_view watched.new ≡ map watched_view watched.old }
    ensures dues { map (λ one. one.due) watched.new
        ≡ dues_of (all_before values.now) (all_now values.now) (map watched_view watched.old) }
{
    for one in watched.iter_mut() {
        one.due = needs_due(one, values);
    }
}

/// Whether in some domain something was noted: its clock has an edge outside of reset.
fn some_due(watched: &[Watched]) -> bool
    ensures { result ≡ list_any (λ due. is_some due) (map (λ one. one.due) watched.now) }
{
    for one in watched {
        if one.due.is_some() {
            return true;
        }
    }
    false
}

/// Notes what has to be known in each domain at the present time; answers whether some clock has an edge then outside of
/// reset.
pub(crate) fn note_dues(watched: &mut [Watched], values: &Values) -> bool
    ensures same { map watched_view watched.new ≡ map watched_view watched.old }
    ensures dues { map (λ one. one.due) watched.new
        ≡ dues_of (all_before values.now) (all_now values.now) (map watched_view watched.old) }
    ensures some { result ≡ list_any (λ due. is_some due)
        (dues_of (all_before values.now) (all_now values.now) (map watched_view watched.old)) }
{
    note_each(watched, values);
    some_due(watched)
}

/// What was noted of the domain at a place.
#[inline(always)]
pub(crate) fn due_at(watched: &[Watched], place: usize) -> Option<Needs>
    ensures { result ≡ due_at (map (λ one. one.due) watched.now) place }
{
    match watched.get(place) {
        Some(one) => one.due,
        None => None,
    }
}
