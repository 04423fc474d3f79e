//! Whether the entries of a trace are in order.
ghost use Rattle.std.specs.Prelude.{◌≡◌, ◌↔◌, IfNone, IfSome, IsSome, IsTrue, Some};
ghost use Rattle.tl_audit.specs.Agrees.{IsNeverOutOfOrder, IsOutOfOrder};
ghost use Rattle.tl_audit.specs.Marks.{IsSetAt, cell, rows_in};
ghost use Rattle.tl_audit.specs.Order.{AreBlank, HaveCells, IsAtLeast};

use tl_journal::{Trace, blank_entry};

/// The last index of a source at a port, if there is one.
fn last(lasts: &[Vec<Option<usize>>], port: usize, source: u16) -> Option<usize>
    requires { IsSome (cell (rows_in lasts.now) port source) }
    ensures { cell (rows_in lasts.now) port source ≡ Some result }
{
    let row = &lasts[port];
    row[source as usize]
}

/// Whether there is a last index, and it is at least this one.
fn is_at_least(last: Option<usize>, index: usize) -> bool
    ensures { IsTrue result ↔ IsAtLeast last index }
{
    match last {
        Some(last) => index <= last,
        None => false,
    }
}

/// Keeps the last index of a source at a port.
fn keep(lasts: &mut [Vec<Option<usize>>], port: usize, source: u16, index: usize)
    requires { IsSome (cell (rows_in lasts.old) port source) }
    ensures { IsSetAt port source (Some index) (rows_in lasts.old) (rows_in lasts.new) }
{
    let row = &mut lasts[port];
    row[source as usize] = Some(index);
}

/// The first entry of a trace after one of the same source and port whose index is no smaller.
pub(crate) fn first_out_of_order(lasts: &mut [Vec<Option<usize>>], trace: &Trace) -> Option<usize>
    requires blank { AreBlank (rows_in lasts.old) }
    requires cells { HaveCells (rows_in lasts.old) trace.now.items }
    ensures found { IfSome result (IsOutOfOrder trace.now.items) }
    ensures none { IfNone result (IsNeverOutOfOrder trace.now.items) }
{
    let mut entry = blank_entry();
    for place in 0..trace.len() {
        trace.read(place, &mut entry);
        let source = entry.ask.source();
        if is_at_least(last(lasts, entry.port, source), entry.index) {
            return Some(place);
        }
        keep(lasts, entry.port, source, entry.index);
    }
    None
}
