//! Finds the signals that a system file names among those that a dump declares.
ghost use Rattle.std.specs.Prelude.{◌≡◌, ◌≢◌, [], ◌++◌, ◌∷◌, Err, IfOk, MatchResult, OnOk, map, option_map};
ghost use Rattle.check_vcd.specs.Header.{var_view};
ghost use Rattle.check_samples.specs.Digits.{unknown};
ghost use Rattle.check_samples.specs.Values.{all_before, all_now, all_widths, kept_before};
ghost use Rattle.check_signals.specs.Found.{IsFound, IsResolved, all_clocks, all_of, clocks_of, clocks_view, code_in, codes_view, digits_in, flat, found_in, found_of, link_sources_view, of_link, sources_in, sources_view, width_in, with_lines};
ghost use Rattle.check_signals.specs.Names.{names_view};
ghost use Rattle.check_signals.specs.Source.{Finds, fault_view, kept_view, source_view};
ghost use Rattle.check_signals.specs.declared.signal_fault.SignalFault.TheVariants.{Memory};

use crate::domains::{ClockSources, clock_sources, clocks_of_links, domains_of, system_reset};
use crate::kept::values_kept;
use crate::keys::SignalNames;
use crate::links::{Joins, LinkSources, channel_pairs, in_order, links_of};
use crate::parts::push_parts;
use crate::signal_fault::{SignalFault, SignalOwner};
use crate::source::{Kept, Source};
use check_rows::Buses;
use check_samples::{Probes, Values};
use check_vcd::Var;
use std::alloc::{AllocError, Global};

/// What the names of a system file find: those of the system's clock and reset, and those of each link. And whether resets of
/// the whole system are told.
#[derive(Drop)]
struct Sources<'a> {
    system: ClockSources<'a>,
    resets: bool,
    ports: Vec<LinkSources<'a>>,
    masters: Vec<LinkSources<'a>>,
}

/// What the names of a system file find, or the first fault: the system's clock and reset, and then port by port and master
/// by master those of its link and its signals.
#[tactic(auto, unfolding(crate::specs::Found::sources_in))]
fn sources_in<'a>(
    alloc: Global,
    vars: &'a [Var],
    buses: &Buses<'_>,
    names: &'a SignalNames,
) -> Result<Sources<'a>, SignalFault>
    ensures { Finds sources_view result (sources_in (map var_view vars.now)
        buses.now.masters.now buses.now.ports.now (names_view names.now)) }
{
    let system = clock_sources(alloc, vars, SignalOwner::System, &names.system)?;
    let ports = links_of(alloc, vars, true, buses.ports, &names.ports)?;
    let masters = links_of(alloc, vars, false, buses.masters, &names.masters)?;
    Ok(Sources {
        system,
        resets: names.resets,
        ports,
        masters,
    })
}

/// Appends a clock and a reset, as far as there are any.
fn push_lines<'a>(all: &mut Vec<Source<'a>>, own: ClockSources<'a>) -> Result<(), AllocError>
    ensures { OnOk result (map source_view all.new.items
        ≡ map source_view all.old.items ++ with_lines (clocks_view own.entry) []) }
{
    if let Some(clock) = own.clock {
        all.push(clock)?;
    }
    if let Some(reset) = own.reset {
        all.push(reset)?;
    }
    Ok(())
}

/// Appends the sources of a link.
fn push_link<'a>(all: &mut Vec<Source<'a>>, link: &LinkSources<'a>) -> Result<(), AllocError>
    ensures { OnOk result (map source_view all.new.items
        ≡ map source_view all.old.items ++ of_link (link_sources_view link.now)) }
{
    push_lines(all, link.clock)?;
    push_parts(all, &link.signals)
}

/// Appends the sources of links.
fn push_links<'a>(all: &mut Vec<Source<'a>>, links: &[LinkSources<'a>]) -> Result<(), AllocError>
    ensures { OnOk result (map source_view all.new.items
        ≡ map source_view all.old.items ++ flat (map link_sources_view links.now)) }
{
    for link in links {
        push_link(all, link)?;
    }
    Ok(())
}

/// All sources of a system.
fn all_of<'a>(alloc: Global, sources: &Sources<'a>) -> Result<Vec<Source<'a>>, AllocError>
    ensures { IfOk result (λ all. map source_view all.items ≡ all_of (sources_view sources.now)) }
{
    let mut all = Vec::new(alloc);
    push_lines(&mut all, sources.system)?;
    push_links(&mut all, &sources.ports)?;
    push_links(&mut all, &sources.masters)?;
    Ok(all)
}

/// The values that are kept, as they are before a dump's body, with room for so many digits that are put together.
fn values_of(alloc: Global, kept: &[Kept<'_>], room: u64) -> Result<Values, AllocError>
    ensures before { IfOk result (λ values. all_before values
        ≡ map (λ value. unknown (width_in value)) (map kept_view kept.now) ++ ([] ∷ [])) }
    ensures now { IfOk result (λ values. all_now values ≡ map digits_in (map kept_view kept.now)) }
    ensures widths { IfOk result (λ values. all_widths values ≡ map width_in (map kept_view kept.now)) }
{
    let mut values = Values::new(alloc, room as usize)?;
    for value in kept {
        match *value {
            Kept::Signal(_, width) => values.add(alloc, width as usize)?,
            Kept::Constant(digit, width) => values.add_constant(alloc, width as usize, digit)?,
        }
    }
    Ok(values)
}

/// The identifier that a value changes by; a constant has none.
fn code_of(alloc: Global, value: Kept<'_>) -> Result<Option<Vec<u8>>, AllocError>
    ensures { IfOk result (λ code. option_map (λ code. code.items) code ≡ code_in (kept_view value.entry)) }
{
    match value {
        Kept::Signal(code, _) => Ok(Some(Vec::from_slice(alloc, code)?)),
        Kept::Constant(_, _) => Ok(None),
    }
}

/// The identifiers that values change by.
fn codes_of(alloc: Global, kept: &[Kept<'_>]) -> Result<Vec<Option<Vec<u8>>>, AllocError>
    ensures { IfOk result (λ codes. codes_view codes ≡ map code_in (map kept_view kept.now)) }
{
    let mut codes = Vec::with_capacity(alloc, kept.len())?;
    for value in kept {
        codes.push(code_of(alloc, *value)?)?;
    }
    Ok(codes)
}

/// What is looked at in a dump, the values that are kept, and the identifier by which each changes; a constant has none.
#[derive(Drop)]
pub struct Resolved {
    pub probes: Probes,
    pub values: Values,
    pub codes: Vec<Option<Vec<u8>>>,
}

/// The clocks and resets of links, each once.
fn all_clocks<'a>(alloc: Global, sources: &Sources<'a>) -> Result<Vec<ClockSources<'a>>, AllocError>
    ensures { IfOk result (λ clocks. map clocks_view clocks.items ≡ all_clocks (sources_view sources.now)) }
{
    let mut links = Vec::new(alloc);
    push_own(&mut links, &sources.ports)?;
    push_own(&mut links, &sources.masters)?;
    clocks_of_links(alloc, sources.system.names, &links)
}

/// Appends the clocks and resets of links.
fn push_own<'a>(
    all: &mut Vec<ClockSources<'a>>,
    links: &[LinkSources<'a>],
) -> Result<(), AllocError>
    ensures { OnOk result (map clocks_view all.new.items
        ≡ map clocks_view all.old.items ++ clocks_of (map link_sources_view links.now)) }
{
    for link in links {
        all.push(link.clock)?;
    }
    Ok(())
}

/// What is looked at and kept of these sources.
fn resolved_of(alloc: Global, sources: &Sources<'_>) -> Result<Resolved, AllocError>
    ensures { IfOk result (λ resolved. IsResolved resolved (found_of (sources_view sources.now))) }
{
    let all = all_of(alloc, sources)?;
    let kept = values_kept(alloc, &all)?;
    let clocks = all_clocks(alloc, sources)?;
    let mut joins = Joins::new(alloc);
    let ports = channel_pairs(alloc, &kept, &clocks, &mut joins, &sources.ports)?;
    let masters = channel_pairs(alloc, &kept, &clocks, &mut joins, &sources.masters)?;
    let values = values_of(alloc, &kept, joins.bits)?;
    Ok(Resolved {
        probes: Probes {
            domains: domains_of(alloc, &kept, sources.system, &clocks)?,
            resets: system_reset(sources.resets, &kept, sources.system),
            joins: joins.taps,
            channels: in_order(alloc, &ports, &masters)?,
        },
        values,
        codes: codes_of(alloc, &kept)?,
    })
}

/// Finds the signals that a system file names among those that a dump declares: the system's clock and reset, and then port
/// by port and master by master those of its link. The links are those that have a bus, which says how many bits of mask
/// and data they have.
#[tactic(auto, unfolding(crate::specs::Found::found_in))]
pub fn find_signals(
    alloc: Global,
    buses: &Buses<'_>,
    names: &SignalNames,
    vars: &[Var],
) -> Result<Resolved, SignalFault>
    ensures { MatchResult result
        (IsFound (found_in (map var_view vars.now) buses.now.masters.now buses.now.ports.now (names_view names.now)))
        (λ fault. fault ≢ Memory
        → found_in (map var_view vars.now) buses.now.masters.now buses.now.ports.now (names_view names.now)
        ≡ Err (fault_view fault)) }
{
    let sources = sources_in(alloc, vars, buses, names)?;
    Ok(resolved_of(alloc, &sources)?)
}
