//! The signals of links, and the channels that are looked at.
ghost use Rattle.std.specs.Prelude.{[], ◌≡◌, ◌+◌, ◌++◌, IfOk, OnOk, map, option_map};
ghost use Rattle.check_beats.specs.Bus.{bus_bytes};
ghost use Rattle.check_vcd.specs.Header.{var_view};
ghost use Rattle.check_signals.specs.Found.{bits_in, channel_pairs, channels_of_link, clocks_view, in_order, joined_bits, joins_in, joins_of, link_at, link_bits, link_joins, link_sources_view, links_from, links_view, named_sources, names_at, owner_of, signals_named, sources_of, tap_of, taps_from};
ghost use Rattle.check_signals.specs.Names.{link_names_view, link_view, name_view};
ghost use Rattle.check_signals.specs.Parts.{signals_view};
ghost use Rattle.check_signals.specs.Source.{Finds, kept_view, source_view};

use crate::domains::{ClockSources, clock_sources, domain_place};
use crate::kept::{push_taps, tap_by};
use crate::keys::{LinkNames, SIGNALS, SignalName};
use crate::parts::{LinkSignal, Parts, parts_bits, signal_parts};
use crate::signal_fault::{SignalFault, SignalOwner};
use crate::source::{Kept, Source};
use crate::wanted::wanted_of;
use check_beats::Bus;
use check_samples::{AskTaps, BeatTaps, Channel, ReplyTaps, Signal, Tap};
use check_vcd::Var;
use check_watch::Link;
use std::alloc::{AllocError, Global};

/// A link, what the names of its own clock and reset find, and the parts of its signals that their names find.
#[derive(Debug, Drop)]
pub(crate) struct LinkSources<'a> {
    pub(crate) link: Link,
    pub(crate) clock: ClockSources<'a>,
    pub(crate) signals: Vec<Parts<'a>>,
}

/// The channels of a link: that of its requests, and that of its replies.
pub(crate) type Pair = (Channel, Channel);

/// A port's or a master's link.
fn link_at(is_port: bool, number: usize) -> Link
    ensures { result ≡ link_at is_port number }
{
    if is_port {
        Link::Port(number)
    } else {
        Link::Master(number)
    }
}

/// Whose signals those of a link are.
fn owner_of(link: Link) -> SignalOwner
    ensures { result ≡ owner_of link }
{
    match link {
        Link::Port(number) => SignalOwner::Port(number),
        Link::Master(number) => SignalOwner::Master(number),
    }
}

/// The parts of signals of a link with this bus by these names, each that of the signal at its place, or the first fault.
fn signals_named<'a>(
    alloc: Global,
    vars: &'a [Var],
    owner: SignalOwner,
    bus: Bus,
    signals: &[Signal],
    names: &[SignalName],
) -> Result<Vec<Parts<'a>>, SignalFault>
    ensures { Finds (λ found. signals_view found.items) result
        (signals_named (map var_view vars.now) owner (bus_bytes bus) signals.now (map name_view names.now)) }
{
    let mut found = Vec::with_capacity(alloc, signals.len())?;
    let mut rest = names;
    for which in signals {
        let [name, more @ ..] = rest else {
            return Ok(found);
        };
        let signal = LinkSignal {
            owner,
            which: *which,
            wanted: wanted_of(*which, bus),
        };
        found.push(signal_parts(alloc, vars, signal, name)?)?;
        rest = more;
    }
    Ok(found)
}

/// What the names of a link's signals find, or the first fault.
fn sources_of<'a>(
    alloc: Global,
    vars: &'a [Var],
    owner: SignalOwner,
    bus: Bus,
    names: &[SignalName],
) -> Result<Vec<Parts<'a>>, SignalFault>
    ensures { Finds (λ found. signals_view found.items) result
        (sources_of (map var_view vars.now) owner (bus_bytes bus) (map name_view names.now)) }
{
    signals_named(alloc, vars, owner, bus, SIGNALS.as_slice(), names)
}

/// The names of the signals of the link of this number, if it has any.
fn names_at(links: &[Option<LinkNames>], number: usize) -> Option<&LinkNames>
    ensures { option_map (λ names. link_names_view names.now) result
        ≡ names_at (map link_view links.now) number }
{
    links.get(number)?.as_ref()
}

/// What the names of a link find, or the first fault: its own clock and reset first.
#[tactic(auto, unfolding(crate::specs::Found::named_sources))]
fn named_sources<'a>(
    alloc: Global,
    vars: &'a [Var],
    link: Link,
    bus: Bus,
    names: &'a LinkNames,
) -> Result<LinkSources<'a>, SignalFault>
    ensures { Finds link_sources_view result
        (named_sources (map var_view vars.now) link (bus_bytes bus) (link_names_view names.now)) }
{
    let owner = owner_of(link);
    let clock = clock_sources(alloc, vars, owner, &names.clock)?;
    let signals = sources_of(alloc, vars, owner, bus, &names.signals)?;
    Ok(LinkSources {
        link,
        clock,
        signals,
    })
}

/// What the names of the links of a kind find, or the first fault. The links are those that have these buses.
#[tactic(auto, unfolding(crate::specs::Found::links_from))]
pub(crate) fn links_of<'a>(
    alloc: Global,
    vars: &'a [Var],
    is_port: bool,
    buses: &[Bus],
    links: &'a [Option<LinkNames>],
) -> Result<Vec<LinkSources<'a>>, SignalFault>
    ensures { Finds links_view result
        (links_from (map var_view vars.now) is_port (map link_view links.now) 0 buses.now) }
{
    let mut found = Vec::new(alloc);
    for (number, bus) in buses.iter().enumerate() {
        if let Some(names) = names_at(links, number) {
            let link = link_at(is_port, number);
            found.push(named_sources(alloc, vars, link, *bus, names)?)?;
        }
    }
    Ok(found)
}

/// The channels of a link whose domain has this place, and whose signals are kept there, in the order of the names.
fn channels_of_link(link: Link, domain: usize, taps: &[Tap]) -> Option<Pair>
    ensures { result ≡ channels_of_link link domain taps.now }
{
    let [
        a_valid,
        a_ready,
        a_opcode,
        a_param,
        a_size,
        a_source,
        a_address,
        a_mask,
        a_data,
        a_corrupt,
        d_valid,
        d_ready,
        d_opcode,
        d_param,
        d_size,
        d_source,
        d_data,
        d_denied,
        d_corrupt,
    ] = taps
    else {
        return None;
    };
    let ask = Channel {
        link,
        domain,
        valid: *a_valid,
        ready: *a_ready,
        beat: BeatTaps::A(AskTaps {
            opcode: *a_opcode,
            param: *a_param,
            size: *a_size,
            source: *a_source,
            address: *a_address,
            mask: *a_mask,
            data: *a_data,
            corrupt: *a_corrupt,
        }),
    };
    let reply = Channel {
        link,
        domain,
        valid: *d_valid,
        ready: *d_ready,
        beat: BeatTaps::D(ReplyTaps {
            opcode: *d_opcode,
            param: *d_param,
            size: *d_size,
            source: *d_source,
            data: *d_data,
            denied: *d_denied,
            corrupt: *d_corrupt,
        }),
    };
    Some((ask, reply))
}

/// What is put together of parts of values, one signal after the other: the parts, and how many bits they have.
#[derive(Debug, Drop)]
pub(crate) struct Joins {
    pub(crate) taps: Vec<Tap>,
    pub(crate) bits: u64,
}

impl Joins {
    /// Nothing.
    pub(crate) fn new(alloc: Global) -> Joins
        ensures taps { result.taps.items ≡ [] }
        ensures bits { result.bits ≡ 0 }
    {
        Joins {
            taps: Vec::new(alloc),
            bits: 0,
        }
    }
}

/// Where the digits of a signal are. If it has several parts, they are put together behind what is so already.
fn tap_of(kept: &[Kept<'_>], joins: &mut Joins, parts: &[Source<'_>]) -> Result<Tap, AllocError>
    ensures tap { IfOk result (λ tap. tap ≡ tap_of (map kept_view kept.now) joins.old.bits (map source_view parts.now)) }
    ensures taps { OnOk result (joins.new.taps.items
        ≡ joins.old.taps.items ++ joins_of (map kept_view kept.now) (map source_view parts.now)) }
    ensures bits { OnOk result (joins.new.bits ≡ joins.old.bits + joined_bits (map source_view parts.now)) }
{
    if let [part] = parts {
        return Ok(tap_by(kept, *part));
    }
    let from = joins.bits;
    let to = from.checked_add(parts_bits(parts)?).ok_or(AllocError)?;
    push_taps(&mut joins.taps, kept, parts)?;
    joins.bits = to;
    Ok(Tap {
        slot: kept.len(),
        from: from as usize,
        to: to as usize,
    })
}

/// Where the digits of signals are, one after the other.
fn taps_of(
    alloc: Global,
    kept: &[Kept<'_>],
    joins: &mut Joins,
    signals: &[Parts<'_>],
) -> Result<Vec<Tap>, AllocError>
    ensures found { IfOk result (λ taps. taps.items
        ≡ taps_from (map kept_view kept.now) joins.old.bits (signals_view signals.now)) }
    ensures taps { OnOk result (joins.new.taps.items
        ≡ joins.old.taps.items ++ joins_in (map kept_view kept.now) (signals_view signals.now)) }
    ensures bits { OnOk result (joins.new.bits ≡ joins.old.bits + bits_in (signals_view signals.now)) }
{
    let mut taps = Vec::with_capacity(alloc, signals.len())?;
    for parts in signals {
        taps.push(tap_of(kept, joins, parts)?)?;
    }
    Ok(taps)
}

/// The channels of links, whose domains are these. What their signals put together stands behind what is so already.
pub(crate) fn channel_pairs(
    alloc: Global,
    kept: &[Kept<'_>],
    clocks: &[ClockSources<'_>],
    joins: &mut Joins,
    links: &[LinkSources<'_>],
) -> Result<Vec<Pair>, AllocError>
    ensures pairs { IfOk result (λ pairs. pairs.items
        ≡ channel_pairs (map kept_view kept.now) (map clocks_view clocks.now) joins.old.bits
        (map link_sources_view links.now)) }
    ensures taps { OnOk result (joins.new.taps.items
        ≡ joins.old.taps.items ++ link_joins (map kept_view kept.now) (map link_sources_view links.now)) }
    ensures bits { OnOk result (joins.new.bits ≡ joins.old.bits + link_bits (map link_sources_view links.now)) }
{
    let mut pairs = Vec::with_capacity(alloc, links.len())?;
    for link in links {
        let taps = taps_of(alloc, kept, joins, &link.signals)?;
        let domain = domain_place(clocks, link.clock.names);
        if let Some(pair) = channels_of_link(link.link, domain, &taps) {
            pairs.push(pair)?;
        }
    }
    Ok(pairs)
}

/// Appends the channels of requests.
fn push_asks(channels: &mut Vec<Channel>, pairs: &[Pair]) -> Result<(), AllocError>
    ensures { OnOk result (channels.new.items ≡ channels.old.items ++ map (λ pair. pair.0) pairs.now) }
{
    for pair in pairs {
        channels.push(pair.0)?;
    }
    Ok(())
}

/// Appends the channels of replies.
fn push_replies(channels: &mut Vec<Channel>, pairs: &[Pair]) -> Result<(), AllocError>
    ensures { OnOk result (channels.new.items ≡ channels.old.items ++ map (λ pair. pair.1) pairs.now) }
{
    for pair in pairs {
        channels.push(pair.1)?;
    }
    Ok(())
}

/// The channels in the order in which their beats cross within one time.
pub(crate) fn in_order(
    alloc: Global,
    ports: &[Pair],
    masters: &[Pair],
) -> Result<Vec<Channel>, AllocError>
    ensures { IfOk result (λ channels. channels.items ≡ in_order ports.now masters.now) }
{
    let mut channels = Vec::new(alloc);
    push_asks(&mut channels, masters)?;
    push_asks(&mut channels, ports)?;
    push_replies(&mut channels, ports)?;
    push_replies(&mut channels, masters)?;
    Ok(channels)
}
