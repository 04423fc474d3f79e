//! The audit of traces and lists of histories.
ghost use Rattle.std.specs.Prelude.{◌≡◌, ℕ, List, All, IfErr, IfNone, IfOk, IfSome, IsSomeAnd, OnOk, Some, replicate, slice_get};
ghost use Rattle.std.specs.Prelude as std;
ghost use Rattle.tl_types.specs.declared.trace.Entry.{Entry};
ghost use Rattle.tl_journal.specs.Trace.{entries_in};
ghost use Rattle.tl_map.specs.declared.owners.Owner.{Owner};
ghost use Rattle.tl_audit.specs.Agrees.{Agrees, AreRecorded, HasAuditFault, IsNeverOutOfOrder, IsOutOfOrder, IsRecorded, journals_in};
ghost use Rattle.tl_audit.specs.Marks.{AreCounted, rows_in};
ghost use Rattle.tl_audit.specs.Order.{HavePlaces};
ghost use Rattle.tl_audit.specs.declared.fault.AuditFault.TheVariants.{Memory};

use crate::fault::AuditFault;
use crate::marks::{Mark, first_marked, mark_traces, unnamed};
use crate::order::first_out_of_order;
use crate::recorded::is_recorded;
use std::alloc::{AllocError, Global};
use tl_journal::{Journal, Trace, blank_entry};
use tl_map::SourceOwners;
use tl_types::{Ask, Reply};

/// The first entry of a master's trace that is not the one at its port and index.
fn first_unrecorded(
    sources: &SourceOwners,
    histories: &[&Journal],
    master: usize,
    trace: &Trace,
) -> Option<usize>
    ensures found { IfSome result (λ place. IsSomeAnd (slice_get trace.now.items place)
        (λ entry. IsRecorded sources.now (journals_in histories.now) master entry → ⊥)) }
    ensures none { IfNone result
        (All (IsRecorded sources.now (journals_in histories.now) master) trace.now.items) }
{
    let (mut entry, mut pair) = (blank_entry(), (Ask::blank(), Reply::blank()));
    for place in 0..trace.len() {
        trace.read(place, &mut entry);
        if !is_recorded(sources, histories, master, &entry, &mut pair) {
            return Some(place);
        }
    }
    None
}

/// Checks that each entry is the one at its port and index.
fn check_recorded(
    sources: &SourceOwners,
    traces: &[Trace],
    histories: &[&Journal],
) -> Result<(), AuditFault>
    ensures ok { OnOk result
        (AreRecorded sources.now (entries_in traces.now) (journals_in histories.now)) }
    ensures fault { IfErr result
        (HasAuditFault sources.now (entries_in traces.now) (journals_in histories.now)) }
{
    for (master, trace) in traces.iter().enumerate() {
        if let Some(place) = first_unrecorded(sources, histories, master, trace) {
            return Err(AuditFault::Missing(master, place));
        }
    }
    Ok(())
}

/// How often the entries of traces name each place of each history.
fn marks_of(
    alloc: Global,
    traces: &[Trace],
    histories: &[&Journal],
) -> Result<Vec<Vec<Mark>>, AllocError>
    requires { (owners : List Owner)
        × AreRecorded owners (entries_in traces.now) (journals_in histories.now) }
    ensures { IfOk result (λ rows.
        AreCounted (entries_in traces.now) (journals_in histories.now) (rows_in rows.items)) }
{
    let mut rows = unnamed(alloc, histories)?;
    mark_traces(&mut rows, traces);
    Ok(rows)
}

/// No last index of any of a master's sources at any port.
fn blank(alloc: Global, ports: usize, sources: u32) -> Result<Vec<Vec<Option<usize>>>, AllocError>
    ensures { IfOk result (λ lasts. rows_in lasts.items
        ≡ replicate ports (replicate sources std.None)) }
{
    let mut lasts = Vec::with_capacity(alloc, ports)?;
    for _ in 0..ports {
        lasts.push(Vec::from_elem(alloc, None, sources as usize)?)?;
    }
    Ok(lasts)
}

/// The first entry of a master's trace that is out of order.
fn first_disordered(
    alloc: Global,
    sources: &SourceOwners,
    ports: usize,
    master: usize,
    trace: &Trace,
) -> Result<Option<usize>, AllocError>
    requires { HavePlaces sources.now ports master trace.now.items }
    ensures found { IfOk result (λ first. IfSome first (IsOutOfOrder trace.now.items)) }
    ensures none { IfOk result (λ first. IfNone first (IsNeverOutOfOrder trace.now.items)) }
{
    let count = sources.count(master).unwrap_or(0);
    let mut lasts = blank(alloc, ports, count)?;
    Ok(first_out_of_order(&mut lasts, trace))
}

/// Checks that each trace is in order.
fn check_order(
    alloc: Global,
    sources: &SourceOwners,
    traces: &[Trace],
    histories: &[&Journal],
) -> Result<(), AuditFault>
    requires { AreRecorded sources.now (entries_in traces.now) (journals_in histories.now) }
    ensures ok { OnOk result ((master : ℕ) (trace : List Entry)
        → slice_get (entries_in traces.now) master ≡ Some trace → IsNeverOutOfOrder trace) }
    ensures fault { IfErr result
        (HasAuditFault sources.now (entries_in traces.now) (journals_in histories.now)) }
{
    for (master, trace) in traces.iter().enumerate() {
        let first = first_disordered(alloc, sources, histories.len(), master, trace)?;
        if let Some(place) = first {
            return Err(AuditFault::Order(master, place));
        }
    }
    Ok(())
}

/// Whether the traces of masters and the histories of ports hold the same entries, each once.
///
/// A history carries wide sources, a trace the master's own. Errors, the first kind that applies, and of a kind the one
/// of the lowest master or port and there of the lowest place: [`AuditFault::Missing`], [`AuditFault::Twice`],
/// [`AuditFault::Order`], [`AuditFault::Untraced`]; and [`AuditFault::Memory`] if memory is refused.
pub fn audit_lists(
    alloc: Global,
    sources: &SourceOwners,
    traces: &[Trace],
    histories: &[&Journal],
) -> Result<(), AuditFault>
    ensures ok { OnOk result
        (Agrees sources.now (entries_in traces.now) (journals_in histories.now)) }
    ensures fault { IfErr result
        (HasAuditFault sources.now (entries_in traces.now) (journals_in histories.now)) }

    // If they agree nothing but want of memory is answered beside Ok.
    ensures agreed { Agrees sources.now (entries_in traces.now) (journals_in histories.now)
        → IfErr result (λ fault. fault ≡ Memory) }
{
    check_recorded(sources, traces, histories)?;
    let rows = marks_of(alloc, traces, histories)?;
    if let Some((port, index)) = first_marked(&rows, Mark::NamedAgain) {
        return Err(AuditFault::Twice(port, index));
    }
    check_order(alloc, sources, traces, histories)?;
    if let Some((port, index)) = first_marked(&rows, Mark::Unnamed) {
        return Err(AuditFault::Untraced(port, index));
    }
    Ok(())
}
