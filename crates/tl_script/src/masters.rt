//! The masters of a script.
ghost use Rattle.std.specs.Prelude.{◌≡◌, ◌<◌, ◌≤◌, IfErr, IfOk, length, map};
ghost use Rattle.toml.specs.View.{table_view};
ghost use Rattle.tl_text.specs.Reading.{each};
ghost use Rattle.tl_script.specs.Master.{IsOfJobs, LawfulSoFar, jobs_from, lines_at, master_of, script_master_view, script_masters, operations_from};
ghost use Rattle.tl_script.specs.Reading.{GivesInScript};
ghost use Rattle.tl_script.specs.System.{AreLawfulJobs};

use crate::fault::{ScriptFault, ScriptKey};
use crate::operation::spell;
use crate::operations::Operations;
use crate::parts::ScriptMaster;
use crate::system::MAX_JOBS;
use crate::value::{list_at, script_number_at, script_tables_of, script_texts_of, script_value_at};
use std::alloc::Global;
use tl_types::Bytes;
use toml::Table;

/// The most sources that a script may say.
const MAX_COUNT: u64 = 65_535;

/// The lines of a master's operations.
#[tactic(auto, unfolding(crate::specs::Master::lines_at))]
fn read_lines<'a>(alloc: Global, table: &'a Table) -> Result<Vec<&'a str>, ScriptFault>
    ensures value { GivesInScript (λ lines. map (λ line. line.now) lines.items) result
        (lines_at (table_view table.now)) }
    ensures in_limit { IfOk result (λ lines. length lines.items ≤ MAX_JOBS) }
{
    let values = list_at(script_value_at(table, ScriptKey::Ops)?, ScriptKey::Ops)?;
    let lines = script_texts_of(alloc, values, ScriptKey::Ops)?;
    if lines.len() > MAX_JOBS {
        return Err(ScriptFault::OutOfRange(ScriptKey::Ops));
    }
    Ok(lines)
}

#[tactic(auto, unfolding(crate::specs::Master::master_of))]
fn read_master<'a>(alloc: Global, table: &'a Table) -> Result<ScriptMaster<'a>, ScriptFault>
    ensures value { GivesInScript script_master_view result (master_of (table_view table.now)) }
{
    let sources = script_number_at(table, ScriptKey::Sources, 0, MAX_COUNT)?;
    let lines = read_lines(alloc, table)?;
    Ok(ScriptMaster {
        sources: sources as u16,
        lines,
    })
}

fn read_each_master<'a>(
    alloc: Global,
    tables: &[&'a Table],
) -> Result<Vec<ScriptMaster<'a>>, ScriptFault>
    ensures value { GivesInScript (λ masters. map script_master_view masters.items) result
        (each master_of (map (λ table. table_view table.now) tables.now)) }
    ensures counted { IfOk result (λ masters. length masters.items ≡ length tables.now) }
{
    let mut masters = Vec::new(alloc);
    for table in tables {
        masters.push(read_master(alloc, table)?)?;
    }
    Ok(masters)
}

/// The masters, of which there is at least one.
#[tactic(auto, unfolding(crate::specs::Master::script_masters))]
pub fn read_script_masters<'a>(
    alloc: Global,
    table: &'a Table,
) -> Result<Vec<ScriptMaster<'a>>, ScriptFault>
    ensures value { GivesInScript (λ masters. map script_master_view masters.items) result
        (script_masters (table_view table.now)) }
    ensures some { IfOk result (λ masters. 0 < length masters.items) }
{
    let values = list_at(
        script_value_at(table, ScriptKey::Master)?,
        ScriptKey::Master,
    )?;
    let tables = script_tables_of(alloc, values, ScriptKey::Master)?;
    if tables.is_empty() {
        return Err(ScriptFault::OutOfRange(ScriptKey::Master));
    }
    read_each_master(alloc, &tables)
}

/// The operations of a master, or the lowest line that is none.
fn read_operations(
    alloc: Global,
    m: usize,
    master: &ScriptMaster<'_>,
) -> Result<Operations, ScriptFault>
    ensures value { GivesInScript (λ jobs. jobs) result
        (operations_from master.now.sources m 0 (map (λ line. line.now) master.now.lines.items)) }
    ensures lawful { IfOk result (λ jobs. AreLawfulJobs master.now.sources jobs) }
    ensures bad { IfErr result IsOfJobs }
{
    let mut jobs = Operations::with_capacity(alloc, master.lines.len())?;
    let mut bytes = Bytes::new();
    for (n, line) in master.lines.iter().enumerate() {
        match spell(line.as_bytes(), master.sources, &mut bytes) {
            Some(spelled) => jobs.push(spelled, &bytes)?,
            None => return Err(ScriptFault::BadOp(m, n)),
        }
    }
    jobs.shrink_to_fit();
    Ok(jobs)
}

/// The operations of each master, or the lowest master's lowest line that is none.
pub fn read_jobs(
    alloc: Global,
    masters: &[ScriptMaster<'_>],
) -> Result<Vec<Operations>, ScriptFault>
    ensures value { GivesInScript (λ jobs. jobs.items) result
        (jobs_from 0 (map script_master_view masters.now)) }
    ensures lawful { IfOk result
        (λ jobs. LawfulSoFar (map (λ master. master.sources) (map script_master_view masters.now))
        jobs.items (length masters.now)) }
    ensures bad { IfErr result IsOfJobs }
{
    let mut jobs = Vec::with_capacity(alloc, masters.len())?;
    for (m, master) in masters.iter().enumerate() {
        jobs.push(read_operations(alloc, m, master)?)?;
    }
    Ok(jobs)
}
