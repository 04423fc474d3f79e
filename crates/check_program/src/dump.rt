//! A dump in the place of a capture: where its signals are, and the verdict over its rows.
ghost use Rattle.std.specs.Prelude.{◌≡◌, ◌≤◌, ℕ, List, Option, None, Ok, length, map, IfOk, IfErr};
ghost use Rattle.check_description.specs.File.{Parts as PartsView};
ghost use Rattle.check_text.specs.Review.{are_masters_watched, are_ports_watched};
ghost use Rattle.check_signals.specs.Names.{link_view, names_of_file, names_view};
ghost use Rattle.check_rows.specs.PortNumbers.{numbers_in};
ghost use Rattle.check_text.specs.Buses.{HasBuses};
ghost use Rattle.check_waves.specs.Links.{wave_links_view};
ghost use Rattle.check_program.specs.declared.asked.Asked.{Asked as AskedFor};
ghost use Rattle.check_program.specs.Dump.{HasLinks, IsDumpChecked, IsDumpCounted, IsNamesFault, IsText, first_unnamed, link_unnamed, port_unnamed};
ghost use Rattle.check_program.specs.Engine.{IsPrepared, with_buses};

use crate::engine::{Prepared, tell};
use crate::fault::{CheckFault, UnnamedLink};
use check_dump::judge_dump;
use check_rows::Buses;
use check_signals::{LinkNames, SignalNames, read_names};
use check_watch::{Link, Links};
use check_waves::{WaveLinks, open_dump};
use std::alloc::{AllocError, Global};
use std::io::{Read, Write};
use tl_map::{MAX_JUDGED_MASTERS, MAX_JUDGED_PORTS};
use tl_streams::LimitedWriter;

/// The number of the first link without signals.
fn first_unnamed(links: &[Option<LinkNames>]) -> Option<usize>
    ensures { result ≡ first_unnamed (map link_view links.now) 0 }
{
    for (number, link) in links.iter().enumerate() {
        if link.is_none() {
            return Some(number);
        }
    }
    None
}

/// Whether the masters' links are watched.
fn are_masters_watched(links: Links) -> bool
    ensures { result ≡ are_masters_watched links }
{
    match links {
        Links::Both | Links::Masters | Links::Each => true,
        Links::Ports => false,
    }
}

/// Whether the ports' links are watched.
fn are_ports_watched(links: Links) -> bool
    ensures { result ≡ are_ports_watched links }
{
    match links {
        Links::Both | Links::Ports | Links::Each => true,
        Links::Masters => false,
    }
}

/// The first port's link that is watched and has no signals.
fn port_unnamed(links: Links, names: &SignalNames) -> Option<Link>
    ensures { result ≡ port_unnamed links (names_view names.now) }
{
    if !are_ports_watched(links) {
        return None;
    }
    match first_unnamed(&names.ports) {
        Some(number) => Some(Link::Port(number)),
        None => None,
    }
}

/// The first link that is watched and has no signals, masters before ports.
fn link_unnamed(links: Links, names: &SignalNames) -> Option<Link>
    ensures { result ≡ link_unnamed links (names_view names.now) }
{
    if !are_masters_watched(links) {
        return port_unnamed(links, names);
    }
    match first_unnamed(&names.masters) {
        Some(number) => Some(Link::Master(number)),
        None => port_unnamed(links, names),
    }
}

/// The names that a system file gives, if each link that is watched has signals.
fn names_of_dump(alloc: Global, file: &[u8], links: Links) -> Result<SignalNames, CheckFault>
    ensures named { IfOk result (λ names. names_of_file file.now ≡ Ok (names_view names)) }
    ensures all { IfOk result (λ names. link_unnamed links (names_view names) ≡ None) }
    ensures fault { IfErr result (IsNamesFault file.now links) }
{
    let names = read_names(alloc, file)?;
    match link_unnamed(links, &names) {
        Some(link) => Err(CheckFault::Unnamed(UnnamedLink { link })),
        None => Ok(names),
    }
}

/// The links of what was prepared, with these names.
fn links_of(alloc: Global, prepared: &Prepared, names: SignalNames) -> Result<WaveLinks, AllocError>
    ensures { IfOk result (λ links. wave_links_view links ≡ record {
      masters = prepared.now.master_buses.items;
      ports = prepared.now.port_buses.items;
      names = names_view names;
    }) }
{
    Ok(WaveLinks {
        master_buses: Vec::from_slice(alloc, &prepared.master_buses)?,
        port_buses: Vec::from_slice(alloc, &prepared.port_buses)?,
        names,
    })
}

/// The verdict over a dump of these links by what was prepared, with its line.
fn check_linked<D: Read + Drop, W: Write>(
    alloc: Global,
    prepared: &mut Prepared,
    links: &WaveLinks,
    dump: D,
    writer: &mut LimitedWriter<'_, W>,
    covered: &mut Vec<u8>,
) -> Result<bool, CheckFault>
    requires masters { length prepared.old.master_buses.items ≤ MAX_JUDGED_MASTERS }
    requires ports { length prepared.old.port_buses.items ≤ MAX_JUDGED_PORTS }
    requires buses { HasBuses prepared.old.judge.tally.watch.layout
        (with_buses prepared.old.master_buses.items prepared.old.port_buses.items prepared.old.resets
        (numbers_in prepared.old.numbers.items)) }
    ensures same_writer { writer.new.writer.ghost_name ≡ writer.old.writer.ghost_name }
    ensures checked { (asked : AskedFor) (file : List ℕ) (parts : PartsView) (images : List (List ℕ))
        (known : Option (List ℕ)) (is : IsPrepared asked parts images prepared.old)
        → HasLinks asked file is.system (wave_links_view links.now) → IsText known (D.remaining dump)
        → IsDumpChecked asked (record { file = file; parts = parts; images = images; capture = known })
        (W.contents writer.old.writer.now) (W.contents writer.new.writer.now) result }
    ensures covered { (asked : AskedFor) (file : List ℕ) (parts : PartsView) (images : List (List ℕ))
        (known : Option (List ℕ)) (is : IsPrepared asked parts images prepared.old)
        → HasLinks asked file is.system (wave_links_view links.now) → IsText known (D.remaining dump)
        → IfOk result (IsDumpCounted asked (record { file = file; parts = parts; images = images; capture = known })
        covered.old.items covered.new.items) }
{
    let rows = open_dump(alloc, dump, links)?;
    let buses = Buses {
        masters: &prepared.master_buses,
        ports: &prepared.port_buses,
        resets: prepared.resets,
        numbers: &prepared.numbers,
    };
    let verdict = judge_dump(alloc, rows, writer, &mut prepared.judge, &buses)?;
    prepared.judge.append_coverage(covered)?;
    tell(alloc, prepared.complete, &prepared.names, &verdict, writer)
}

/// The verdict over a dump by what was prepared, with its line. The file says where the signals are of the links that are
/// watched.
pub(crate) fn check_dump<D: Read + Drop, W: Write>(
    alloc: Global,
    file: &[u8],
    prepared: &mut Prepared,
    dump: D,
    writer: &mut LimitedWriter<'_, W>,
    links: Links,
    covered: &mut Vec<u8>,
) -> Result<bool, CheckFault>
    requires masters { length prepared.old.master_buses.items ≤ MAX_JUDGED_MASTERS }
    requires ports { length prepared.old.port_buses.items ≤ MAX_JUDGED_PORTS }
    requires buses { HasBuses prepared.old.judge.tally.watch.layout
        (with_buses prepared.old.master_buses.items prepared.old.port_buses.items prepared.old.resets
        (numbers_in prepared.old.numbers.items)) }
    ensures same_writer { writer.new.writer.ghost_name ≡ writer.old.writer.ghost_name }
    ensures checked { (asked : AskedFor) (parts : PartsView) (images : List (List ℕ)) (known : Option (List ℕ))
        → asked.terms.links ≡ links → IsPrepared asked parts images prepared.old → IsText known (D.remaining dump)
        → IsDumpChecked asked (record { file = file.now; parts = parts; images = images; capture = known })
        (W.contents writer.old.writer.now) (W.contents writer.new.writer.now) result }
    ensures covered { (asked : AskedFor) (parts : PartsView) (images : List (List ℕ)) (known : Option (List ℕ))
        → asked.terms.links ≡ links → IsPrepared asked parts images prepared.old → IsText known (D.remaining dump)
        → IfOk result (IsDumpCounted asked (record { file = file.now; parts = parts; images = images; capture = known })
        covered.old.items covered.new.items) }
{
    let names = names_of_dump(alloc, file, links)?;
    let links = links_of(alloc, prepared, names)?;
    check_linked(alloc, prepared, &links, dump, writer, covered)
}
