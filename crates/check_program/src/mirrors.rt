//! From where the memories of a system's ports are seen.
ghost use Rattle.std.specs.Prelude.{◌≡◌, ℕ, List, map, IfOk};
ghost use Rattle.tl_map.specs.declared.range.Range.{Range as IsRange};
ghost use Rattle.check_description.specs.Mirror.{mirrors_kept};
ghost use Rattle.check_description.specs.Port.{port_view};
ghost use Rattle.check_start.specs.Loads.{SystemPlan};
ghost use Rattle.check_start.specs.Start.{IsPlanOf};
ghost use Rattle.check_start.specs.declared.start.Terms.{Terms};
ghost use Rattle.check_coverage.specs.Mirrors.{HasMirrors};
ghost use Rattle.check_program.specs.Mirrors.{port_mirrors as mirrors_of_view};

use check_coverage::Mirrors;
use check_description::{Description, Port, PortKind};
use std::alloc::{AllocError, Global};
use tl_map::Range;

/// The bases of ranges.
fn bases_of(alloc: Global, ranges: &[Range]) -> Result<Vec<u64>, AllocError>
    ensures { IfOk result (λ bases. bases.items ≡ map (λ (range : IsRange). range.base) ranges.now) }
{
    let mut bases = Vec::with_capacity(alloc, ranges.len())?;
    for range in ranges {
        bases.push(range.base)?;
    }
    Ok(bases)
}

/// From which addresses the first range of a port is seen too.
fn others_of(alloc: Global, port: &Port) -> Result<Vec<u64>, AllocError>
    ensures { IfOk result (λ others. others.items
        ≡ mirrors_kept (port_view port.now).mirror (port_view port.now).ranges) }
{
    if port.mirror {
        bases_of(alloc, &port.ranges[1..])
    } else {
        Ok(Vec::new(alloc))
    }
}

/// From where the memory of a port is seen.
fn port_mirrors(alloc: Global, port: &Port) -> Result<Mirrors, AllocError>
    ensures { IfOk result (λ mirrors. mirrors ≡ mirrors_of_view (port_view port.now)) }
{
    match port.kind {
        PortKind::Memory(_) => Ok(Mirrors::new(port.ranges[0], others_of(alloc, port)?)),
        PortKind::Device => Ok(Mirrors::new(Range { base: 0, length: 0 }, Vec::new(alloc))),
    }
}

/// From where the memory of each port is seen.
fn all_mirrors(alloc: Global, ports: &[Port]) -> Result<Vec<Mirrors>, AllocError>
    ensures { IfOk result (λ all. all.items ≡ map mirrors_of_view (map port_view ports.now)) }
{
    let mut all = Vec::with_capacity(alloc, ports.len())?;
    for port in ports {
        all.push(port_mirrors(alloc, port)?)?;
    }
    Ok(all)
}

/// The same of the ports of a system.
pub(crate) fn mirrors_of(alloc: Global, system: &Description) -> Result<Vec<Mirrors>, AllocError>
    ensures { IfOk result (λ all. (terms : Terms) (images : List (List ℕ)) (plan : SystemPlan)
        → IsPlanOf terms system.now images plan → HasMirrors plan.begins all.items) }
{
    all_mirrors(alloc, system.ports())
}
