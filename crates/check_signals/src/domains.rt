//! The clocks and resets of links, and the domains that they make.
ghost use Rattle.std.specs.Prelude.{◌≡◌, ◌≢◌, IfOk, OnOk, filter, map, option_map};
ghost use Rattle.tl_text.specs.Reading.{if_any};
ghost use Rattle.check_vcd.specs.Header.{var_view};
ghost use Rattle.check_samples.specs.Domain.{domain_view};
ghost use Rattle.check_signals.specs.Found.{both_lines, clock_sources, clocks_of_links, clocks_known, clocks_view, domain_of, domain_place, first_source, has_system, line_source, own_domain, reset_by, same_clock, same_edge, same_text, shared_domain, system_reset, with_clocks};
ghost use Rattle.check_signals.specs.Names.{clock_view};
ghost use Rattle.check_signals.specs.Source.{Finds, kept_view, source_view};

use crate::clocks::ClockNames;
use crate::kept::tap_by;
use crate::nets::{named_in, one_of};
use crate::signal_fault::{SignalFault, SignalOwner};
use crate::source::{Kept, Source, WantedSignal, left_out};
use crate::wanted::Wanted;
use check_samples::{Clock, Domain, Edge, Reset, SystemReset};
use check_vcd::Var;
use std::alloc::{AllocError, Global};

/// The names of a clock and of a reset, and what they find.
#[derive(Debug, Clone, Copy)]
pub(crate) struct ClockSources<'a> {
    pub(crate) names: &'a ClockNames,
    pub(crate) clock: Option<Source<'a>>,
    pub(crate) reset: Option<Source<'a>>,
}

/// What the name of a clock or of a reset finds.
fn line_source<'a>(
    alloc: Global,
    vars: &'a [Var],
    owner: SignalOwner,
    name: &[u8],
) -> Result<Source<'a>, SignalFault>
    ensures { Finds source_view result (line_source (map var_view vars.now) owner name.now) }
{
    let asked = WantedSignal {
        owner,
        name,
        behind: None,
        wanted: Wanted::AtMost(1),
    };
    let parts = named_in(alloc, vars, asked)?;
    one_of(alloc, asked, &parts)
}

/// What the name of a clock or of a reset finds, if there is one.
fn line_if_any<'a>(
    alloc: Global,
    vars: &'a [Var],
    owner: SignalOwner,
    name: &Option<Vec<u8>>,
) -> Result<Option<Source<'a>>, SignalFault>
    ensures { Finds (option_map source_view) result
        (if_any (line_source (map var_view vars.now) owner) (option_map (λ name. name.items) name.now)) }
{
    match name {
        Some(name) => Ok(Some(line_source(alloc, vars, owner, name)?)),
        None => Ok(None),
    }
}

/// What the names of a clock and of a reset find, or the first fault.
#[tactic(auto, unfolding(crate::specs::Found::clock_sources))]
pub(crate) fn clock_sources<'a>(
    alloc: Global,
    vars: &'a [Var],
    owner: SignalOwner,
    names: &'a ClockNames,
) -> Result<ClockSources<'a>, SignalFault>
    ensures { Finds clocks_view result (clock_sources (map var_view vars.now) owner (clock_view names.now)) }
{
    let clock = line_if_any(alloc, vars, owner, &names.clock)?;
    let reset = line_if_any(alloc, vars, owner, &names.reset)?;
    Ok(ClockSources {
        names,
        clock,
        reset,
    })
}

/// Whether two names are the same, or there is neither.
fn same_text(one: &Option<Vec<u8>>, other: &Option<Vec<u8>>) -> bool
    ensures { result ≡ same_text (option_map (λ name. name.items) one.now) (option_map (λ name. name.items) other.now) }
{
    match (one, other) {
        (None, None) => true,
        (Some(one), Some(other)) => one.as_slice() == other.as_slice(),
        _ => false,
    }
}

/// Whether the same edges count.
fn same_edge(one: Edge, other: Edge) -> bool
    ensures { result ≡ same_edge one other }
{
    match (one, other) {
        (Edge::Rising, Edge::Rising) | (Edge::Falling, Edge::Falling) => true,
        _ => false,
    }
}

/// Whether the same is said of two clocks and resets.
fn same_clock(one: &ClockNames, other: &ClockNames) -> bool
    ensures { result ≡ same_clock (clock_view one.now) (clock_view other.now) }
{
    (same_text(&one.clock, &other.clock) && same_edge(one.edge, other.edge))
        && (same_text(&one.reset, &other.reset) && one.is_low == other.is_low)
}

/// Whether it is said of one of these.
fn clocks_known(some: &[ClockSources<'_>], names: &ClockNames) -> bool
    ensures { result ≡ clocks_known (map clocks_view some.now) (clock_view names.now) }
{
    for other in some {
        if same_clock(other.names, names) {
            return true;
        }
    }
    false
}

/// Appends those of links that are not there yet.
#[tactic(auto, unfolding(crate::specs::Found::with_clocks))]
fn push_clocks<'a>(
    some: &mut Vec<ClockSources<'a>>,
    links: &[ClockSources<'a>],
) -> Result<(), AllocError>
    ensures { OnOk result (map clocks_view some.new.items
        ≡ with_clocks (map clocks_view some.old.items) (map clocks_view links.now)) }
{
    for own in links {
        if !clocks_known(some, own.names) {
            some.push(*own)?;
        }
    }
    Ok(())
}

/// Whether a link has the system's clock, edges and reset.
fn has_system(system: &ClockNames, own: &ClockNames) -> bool
    ensures { result ≡ same_clock (clock_view own.now) (record {
      clock = None;
      edge = system.now.edge;
      reset = None;
      is_low = system.now.is_low;
    }) }
{
    (own.clock.is_none() && same_edge(own.edge, system.edge))
        && (own.reset.is_none() && own.is_low == system.is_low)
}

/// Those of links that have the system's.
fn shared_of<'a>(
    alloc: Global,
    system: &ClockNames,
    links: &[ClockSources<'a>],
) -> Result<Vec<ClockSources<'a>>, AllocError>
    ensures { IfOk result (λ some. map clocks_view some.items
        ≡ filter (has_system (clock_view system.now)) (map clocks_view links.now)) }
{
    let mut some = Vec::new(alloc);
    for own in links {
        if has_system(system, own.names) {
            some.push(*own)?;
        }
    }
    Ok(some)
}

/// The clocks and resets of links, each once: the system's first, if a link has it.
pub(crate) fn clocks_of_links<'a>(
    alloc: Global,
    system: &ClockNames,
    links: &[ClockSources<'a>],
) -> Result<Vec<ClockSources<'a>>, AllocError>
    ensures { IfOk result (λ clocks. map clocks_view clocks.items
        ≡ clocks_of_links (clock_view system.now) (map clocks_view links.now)) }
{
    let shared = shared_of(alloc, system, links)?;
    let mut clocks = Vec::new(alloc);
    push_clocks(&mut clocks, &shared)?;
    push_clocks(&mut clocks, links)?;
    Ok(clocks)
}

/// The place of the one of which the same is said.
pub(crate) fn domain_place(clocks: &[ClockSources<'_>], names: &ClockNames) -> usize
    ensures { result ≡ domain_place (map clocks_view clocks.now) (clock_view names.now) }
{
    for (place, other) in clocks.iter().enumerate() {
        if same_clock(other.names, names) {
            return place;
        }
    }
    clocks.len()
}

/// Where the reset is kept, if there is one.
fn reset_by(kept: &[Kept<'_>], is_low: bool, reset: Option<Source<'_>>) -> Option<Reset>
    ensures { result ≡ reset_by (map kept_view kept.now) is_low (option_map source_view reset.entry) }
{
    match reset {
        Some(reset) => Some(Reset {
            tap: tap_by(kept, reset),
            is_low,
        }),
        None => None,
    }
}

/// The system's clock and reset, if it has both.
fn both_lines(kept: &[Kept<'_>], system: ClockSources<'_>) -> Option<SystemReset>
    ensures { result ≡ both_lines (map kept_view kept.now) (clock_view system.entry.names.now)
        (option_map source_view system.entry.clock) (option_map source_view system.entry.reset) }
{
    let Some(clock) = system.clock else {
        return None;
    };
    let Some(reset) = system.reset else {
        return None;
    };
    Some(SystemReset {
        clock: Clock {
            tap: tap_by(kept, clock),
            edge: system.names.edge,
        },
        reset: Reset {
            tap: tap_by(kept, reset),
            is_low: system.names.is_low,
        },
    })
}

/// The same, if resets of the whole system are told.
pub(crate) fn system_reset(
    told: bool,
    kept: &[Kept<'_>],
    system: ClockSources<'_>,
) -> Option<SystemReset>
    ensures { result ≡ system_reset told (map kept_view kept.now) (clocks_view system.entry) }
{
    if told { both_lines(kept, system) } else { None }
}

/// The first of two sources, if there is one.
fn first_source<'a>(first: Option<Source<'a>>, other: Option<Source<'a>>) -> Option<Source<'a>>
    ensures { option_map source_view result
        ≡ first_source (option_map source_view first.entry) (option_map source_view other.entry) }
{
    match first {
        Some(source) => Some(source),
        None => other,
    }
}

/// A name that there may be, copied.
fn copy_of(name: &Option<Vec<u8>>) -> Result<Option<Vec<u8>>, AllocError>
    ensures { IfOk result (λ copy. option_map (λ name. name.items) copy ≡ option_map (λ name. name.items) name.now) }
{
    match name {
        Some(name) => Ok(Some(name.clone()?)),
        None => Ok(None),
    }
}

/// The domain of a clock of a link's own.
fn own_domain(
    kept: &[Kept<'_>],
    clock: Source<'_>,
    own: ClockSources<'_>,
) -> Result<Domain, AllocError>
    ensures { IfOk result (λ domain. domain_view domain
        ≡ own_domain (map kept_view kept.now) (source_view clock.entry) (clocks_view own.entry)) }
{
    Ok(Domain {
        clock: Clock {
            tap: tap_by(kept, clock),
            edge: own.names.edge,
        },
        clock_name: copy_of(&own.names.clock)?,
        reset: reset_by(kept, own.names.is_low, own.reset),
        reset_name: copy_of(&own.names.reset)?,
    })
}

/// The domain of a link without a clock of its own. A system whose links need a clock has one.
fn shared_domain(
    kept: &[Kept<'_>],
    system: ClockSources<'_>,
    own: ClockSources<'_>,
) -> Result<Domain, AllocError>
    ensures { IfOk result (λ domain. domain_view domain
        ≡ shared_domain (map kept_view kept.now) (clocks_view system.entry) (clocks_view own.entry)) }
{
    let clock = match system.clock {
        Some(clock) => clock,
        None => left_out(),
    };
    Ok(Domain {
        clock: Clock {
            tap: tap_by(kept, clock),
            edge: own.names.edge,
        },
        clock_name: None,
        reset: reset_by(
            kept,
            own.names.is_low,
            first_source(own.reset, system.reset),
        ),
        reset_name: copy_of(&own.names.reset)?,
    })
}

/// The domain of a link.
fn domain_of(
    kept: &[Kept<'_>],
    system: ClockSources<'_>,
    own: ClockSources<'_>,
) -> Result<Domain, AllocError>
    ensures { IfOk result (λ domain. domain_view domain
        ≡ domain_of (map kept_view kept.now) (clocks_view system.entry) (clocks_view own.entry)) }
{
    match own.clock {
        Some(clock) => own_domain(kept, clock, own),
        None => shared_domain(kept, system, own),
    }
}

/// The domains of clocks and resets.
pub(crate) fn domains_of(
    alloc: Global,
    kept: &[Kept<'_>],
    system: ClockSources<'_>,
    clocks: &[ClockSources<'_>],
) -> Result<Vec<Domain>, AllocError>
    ensures { IfOk result (λ domains. map domain_view domains.items
        ≡ map (domain_of (map kept_view kept.now) (clocks_view system.entry)) (map clocks_view clocks.now)) }
{
    let mut domains = Vec::with_capacity(alloc, clocks.len())?;
    for own in clocks {
        domains.push(domain_of(kept, system, *own)?)?;
    }
    Ok(domains)
}
