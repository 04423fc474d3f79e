//! Marks: how often the entries of traces name each place of each history.
ghost use Rattle.std.specs.Prelude.{◌≡◌, ℕ, IfNone, IfOk, IfSome, IsSome, Some, map, length, replicate, slice_get};
ghost use Rattle.tl_journal.specs.Trace.{entries_in};
ghost use Rattle.tl_audit.specs.Agrees.{journals_in, times_in, times_named};
ghost use Rattle.tl_audit.specs.Marks.{AllNamePlaces, AreMarkedBy, IsSetAt, NamePlaces, cell, next_of, rows_in};

use std::alloc::{AllocError, Global};
use tl_journal::{Journal, Trace, blank_entry};

/// How often a place is named, as far as it matters.
#[derive(Clone, Copy, PartialEq, Eq)]
pub(crate) enum Mark {
    Unnamed,
    Named,
    NamedAgain,
}

/// The mark of a place that one entry more names.
fn next(mark: Mark) -> Mark
    ensures { result ≡ next_of mark }
{
    match mark {
        Mark::Unnamed => Mark::Named,
        Mark::Named | Mark::NamedAgain => Mark::NamedAgain,
    }
}

/// A mark for each place of each history, none of them named.
pub(crate) fn unnamed(alloc: Global, histories: &[&Journal]) -> Result<Vec<Vec<Mark>>, AllocError>
    ensures { IfOk result (λ rows. rows_in rows.items
        ≡ map (λ history. replicate (length history) Mark.Unnamed) (journals_in histories.now)) }
{
    let mut rows = Vec::with_capacity(alloc, histories.len())?;
    for history in histories {
        rows.push(Vec::from_elem(alloc, Mark::Unnamed, history.len())?)?;
    }
    Ok(rows)
}

/// Puts a mark at a place.
fn put(rows: &mut [Vec<Mark>], port: usize, index: usize, mark: Mark)
    requires { IsSome (cell (rows_in rows.old) port index) }
    ensures { IsSetAt port index mark (rows_in rows.old) (rows_in rows.new) }
{
    let row = &mut rows[port];
    row[index] = mark;
}

/// The mark at a place.
fn get(rows: &[Vec<Mark>], port: usize, index: usize) -> Mark
    requires { IsSome (cell (rows_in rows.now) port index) }
    ensures { cell (rows_in rows.now) port index ≡ Some result }
{
    let row = &rows[port];
    row[index]
}

/// Marks the places that the entries of a trace name.
fn mark_trace(rows: &mut [Vec<Mark>], trace: &Trace)
    requires { NamePlaces (rows_in rows.old) trace.now.items }
    ensures { AreMarkedBy (λ p i. times_in p i trace.now.items)
        (rows_in rows.old) (rows_in rows.new) }
{
    let mut entry = blank_entry();
    for place in 0..trace.len() {
        trace.read(place, &mut entry);
        let mark = next(get(rows, entry.port, entry.index));
        put(rows, entry.port, entry.index, mark);
    }
}

/// Marks the places that the entries of traces name.
pub(crate) fn mark_traces(rows: &mut [Vec<Mark>], traces: &[Trace])
    requires { AllNamePlaces (rows_in rows.old) (entries_in traces.now) }
    ensures { AreMarkedBy (times_named (entries_in traces.now))
        (rows_in rows.old) (rows_in rows.new) }
{
    for trace in traces {
        mark_trace(rows, trace);
    }
}

/// The first place of a row that has this mark.
fn first_in(row: &[Mark], mark: Mark) -> Option<usize>
    ensures found { IfSome result (λ index. slice_get row.now index ≡ Some mark) }
    ensures none { IfNone result ((index : ℕ) → slice_get row.now index ≡ Some mark → ⊥) }
{
    row.iter().position(|other| *other == mark)
}

/// The first place of the lowest port that has this mark.
pub(crate) fn first_marked(rows: &[Vec<Mark>], mark: Mark) -> Option<(usize, usize)>
    ensures found { IfSome result (λ at. cell (rows_in rows.now) at.0 at.1 ≡ Some mark) }
    ensures none { IfNone result
        ((port index : ℕ) → cell (rows_in rows.now) port index ≡ Some mark → ⊥) }
{
    for (port, row) in rows.iter().enumerate() {
        if let Some(index) = first_in(row, mark) {
            return Some((port, index));
        }
    }
    None
}
