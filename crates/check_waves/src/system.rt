//! What a system file says of its links.
ghost use Rattle.std.specs.Prelude.{◌≡◌, ◌+◌, ℕ, List, Option, IfErr, IfOk};
ghost use Rattle.check_description.specs.declared.read.TheConstants.{MAX_SYSTEM};
ghost use Rattle.check_signals.specs.Names.{names_view};
ghost use Rattle.tl_streams.specs.Streams.{ReadsUpTo};
ghost use Rattle.check_waves.specs.Capture.{Describes, GivesLinks, IsOfSystem};
ghost use Rattle.check_waves.specs.Links.{wave_links_of, wave_links_view};

use crate::fault::WaveFault;
use check_beats::Bus;
use check_description::{Description, MAX_SYSTEM, describe, master_buses, port_buses, read_parts};
use check_signals::{SignalNames, read_names};
use std::alloc::{AllocError, Global};
use std::io::Read;
use tl_streams::{LimitedReader, read_up_to};

/// The buses of a system's links, and the names of its signals.
#[derive(Drop)]
pub struct WaveLinks {
    pub master_buses: Vec<Bus>,
    pub port_buses: Vec<Bus>,
    pub names: SignalNames,
}

/// The links of a system whose signals have these names.
fn links_of(
    alloc: Global,
    system: &Description,
    names: SignalNames,
) -> Result<WaveLinks, AllocError>
    ensures { IfOk result (λ links. wave_links_view links ≡ wave_links_of system.now (names_view names)) }
{
    Ok(WaveLinks {
        master_buses: master_buses(alloc, system.masters())?,
        port_buses: port_buses(alloc, system.ports())?,
        names,
    })
}

/// The links of the system that a file describes, with the names that it gives.
fn named_links(alloc: Global, system: &Description, bytes: &[u8]) -> Result<WaveLinks, WaveFault>
    ensures ok { (old new : Option (List ℕ)) → ReadsUpTo (MAX_SYSTEM + 1) old new bytes.now
        → Describes bytes.now system.now → IfOk result (λ links. GivesLinks old new (wave_links_view links)) }
    ensures fault { (old new : Option (List ℕ)) → ReadsUpTo (MAX_SYSTEM + 1) old new bytes.now
        → Describes bytes.now system.now → IfErr result (IsOfSystem old new) }
{
    let names = read_names(alloc, bytes)?;
    Ok(links_of(alloc, system, names)?)
}

/// What the bytes of a system file say of its links.
fn links_in(alloc: Global, bytes: &[u8]) -> Result<WaveLinks, WaveFault>
    ensures ok { (old new : Option (List ℕ)) → ReadsUpTo (MAX_SYSTEM + 1) old new bytes.now
        → IfOk result (λ links. GivesLinks old new (wave_links_view links)) }
    ensures fault { (old new : Option (List ℕ)) → ReadsUpTo (MAX_SYSTEM + 1) old new bytes.now
        → IfErr result (IsOfSystem old new) }
{
    let parts = read_parts(alloc, bytes)?;
    let system = describe(alloc, parts)?;
    named_links(alloc, &system, bytes)
}

/// What a system file says of its links. The file has to describe a system, and to say where the signals are. The files
/// of images are not looked at, so it is no fault here if one is missing.
pub fn read_links<S: Read>(
    alloc: Global,
    reader: &mut LimitedReader<'_, S>,
) -> Result<WaveLinks, WaveFault>
    ensures same { reader.new.reader.ghost_name ≡ reader.old.reader.ghost_name }
    ensures ok { IfOk result (λ links. GivesLinks (S.remaining reader.old.reader.now)
        (S.remaining reader.new.reader.now) (wave_links_view links)) }
    ensures fault { IfErr result (IsOfSystem (S.remaining reader.old.reader.now)
        (S.remaining reader.new.reader.now)) }
{
    let bytes = read_up_to(alloc, reader, MAX_SYSTEM + 1)?;
    links_in(alloc, &bytes)
}
