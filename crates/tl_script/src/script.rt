//! Reads the system that a script describes.
ghost use Rattle.std.specs.Prelude.{◌≡◌, ◌≢◌, IfErr, IfOk, map};
ghost use Rattle.toml.specs.View.{table_view};
ghost use Rattle.tl_script.specs.Master.{script_master_view};
ghost use Rattle.tl_script.specs.Reading.{GivesInScript};
ghost use Rattle.tl_script.specs.Script.{IsFirstFaultOfScriptParts, IsFirstScriptFault, MakesSystem, Spells, script_document, parts_in, script_parts_view};
ghost use Rattle.tl_script.specs.System.{range_of, store_of};
ghost use Rattle.tl_script.specs.declared.fault.ScriptFault.TheVariants.{Memory};

use crate::fault::{ScriptFault, ScriptKey};
use crate::map::map_of;
use crate::masters::{read_jobs, read_script_masters};
use crate::parts::{ScriptMaster, ScriptParts};
use crate::ports::read_script_ports;
use crate::sources::sources_of;
use crate::system::{Device, System};
use crate::value::script_number_at;
use std::alloc::{AllocError, Global};
use tl_map::Range;
use tl_types::MAX_SLOTS;
use toml::Table;

/// The most bytes of a script.
pub const MAX_SCRIPT: usize = 1_048_576;

/// The table of a script.
#[tactic(auto, using(crate::proofs::Views::text_tests), unfolding(crate::specs::Script::script_document))]
fn read_document(alloc: Global, bytes: &[u8]) -> Result<Table, ScriptFault>
    ensures { GivesInScript table_view result (script_document bytes.now) }
{
    if bytes.len() > MAX_SCRIPT {
        return Err(ScriptFault::TooLong);
    }
    let Ok(text) = std::str::from_utf8(bytes) else {
        return Err(ScriptFault::NotToml);
    };
    match toml::table_from_str(alloc, text) {
        Ok(table) => Ok(table),
        Err(error) if error.is_memory() => Err(ScriptFault::Memory),
        Err(_) => Err(ScriptFault::NotToml),
    }
}

/// The parts that a script's table names.
#[tactic(auto, unfolding(crate::specs::Script::parts_in))]
fn read_parts<'a>(alloc: Global, table: &'a Table) -> Result<ScriptParts<'a>, ScriptFault>
    ensures { GivesInScript script_parts_view result (parts_in (table_view table.now)) }
{
    let slots = script_number_at(table, ScriptKey::Slots, 1, MAX_SLOTS as u64)?;
    let devices = read_script_ports(alloc, table)?;
    let masters = read_script_masters(alloc, table)?;
    Ok(ScriptParts {
        slots: slots as usize,
        devices,
        masters,
    })
}

/// The addresses of devices.
fn ranges_of(alloc: Global, devices: &[Device]) -> Result<Vec<Range>, AllocError>
    ensures { IfOk result (λ ranges. ranges.items ≡ map range_of (map store_of devices.now)) }
{
    let mut ranges = Vec::new(alloc);
    for device in devices {
        ranges.push(Range {
            base: device.base,
            length: device.reset.len() as u64,
        })?;
    }
    Ok(ranges)
}

/// How many sources masters have.
fn counts_of(alloc: Global, masters: &[ScriptMaster<'_>]) -> Result<Vec<u16>, AllocError>
    ensures { IfOk result
        (λ counts. counts.items ≡ map (λ master. master.sources) (map script_master_view masters.now)) }
{
    let mut counts = Vec::new(alloc);
    for master in masters {
        counts.push(master.sources)?;
    }
    Ok(counts)
}

/// The system of these parts, or their first fault.
fn make_system(alloc: Global, parts: ScriptParts<'_>) -> Result<System, ScriptFault>
    ensures made { IfOk result (MakesSystem (script_parts_view parts.entry)) }
    ensures fault { IfErr result
        (λ fault. fault ≢ Memory → IsFirstFaultOfScriptParts (script_parts_view parts.entry) fault) }
{
    let ranges = ranges_of(alloc, &parts.devices)?;
    let counts = counts_of(alloc, &parts.masters)?;
    let map = map_of(alloc, &ranges)?;
    let sources = sources_of(alloc, &counts)?;
    let jobs = read_jobs(alloc, &parts.masters)?;
    Ok(System::new(parts.slots, parts.devices, sources, map, jobs))
}

/// The system that a script describes, or its first fault in the order of the checks. Want of memory may be answered
/// at any point.
pub fn read_system(alloc: Global, bytes: &[u8]) -> Result<System, ScriptFault>
    ensures spelled { IfOk result (Spells bytes.now) }
    ensures fault { IfErr result (λ fault. fault ≢ Memory → IsFirstScriptFault bytes.now fault) }
{
    let table = read_document(alloc, bytes)?;
    let parts = read_parts(alloc, &table)?;
    make_system(alloc, parts)
}
