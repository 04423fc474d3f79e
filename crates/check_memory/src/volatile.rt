//! Bytes that change by themselves: what is seen of them is unknown, whatever the pages hold.
ghost use Rattle.std.specs.Prelude.{◌≡◌, ℕ, ◌+◌, ◌/◌, ◌%◌, ◌^◌, ◌<◌, ◌≤◌, true, false, length, slice_index_or, take, drop};
ghost use Rattle.tl_types.specs.Operation.{carries_bytes, reply_op_of};
ghost use Rattle.tl_ops.specs.Cell.{FitsWords};
ghost use Rattle.check_memory.specs.Known.{replaced};
ghost use Rattle.check_memory.specs.Cells.{new_cells, unknown_where};
ghost use Rattle.check_memory.specs.Pattern.{shown_cells};
ghost use Rattle.check_memory.specs.Partial.{holds};
ghost use Rattle.check_memory.specs.Paged.{paged_cells, IsAt};

use crate::pages::Pages;
use crate::range::holds;
use crate::sheet::PAGE_BYTES;
use check_cells::Cells;
use tl_map::Range;
use tl_ops::Kind;
use tl_types::{Ask, MAX_BYTES};

/// The cells that stand from an address on, without those of volatile bytes.
#[inline(never)]
fn without(volatile: &[Range], address: u64, cells: &Cells) -> Cells
    requires { address + length cells.now ≤ 2 ^ 64 }
    ensures { result ≡ unknown_where (λ place. holds volatile.now (address + place) 1) cells.now }
{
    let mut left = Cells::new();
    for place in 0..cells.len() {
        let byte = if holds(volatile, address + place as u64, 1) {
            None
        } else {
            cells.get(place)
        };
        left.push(byte);
    }
    left
}

/// Makes the cells unknown, of those that stand from an address on, that are of volatile bytes.
pub fn hide(volatile: &[Range], address: u64, cells: &mut Cells)
    requires { address + length cells.old ≤ 2 ^ 64 }
    ensures { cells.new ≡ unknown_where (λ place. holds volatile.now (address + place) 1) cells.old }
{
    if !volatile.is_empty() {
        *cells = without(volatile, address, cells);
    }
}

/// Which bytes of so many from an address on are volatile.
fn flags_of(volatile: &[Range], address: u64, width: usize) -> [bool; MAX_BYTES]
    requires few { width ≤ MAX_BYTES }
    requires in_space { address + width ≤ 2 ^ 64 }
    ensures counted { length result ≡ MAX_BYTES }
    ensures flags { (k : ℕ) → k < width
        → slice_index_or result k false ≡ holds volatile.now (address + k) 1 }
{
    let mut flags = [false; MAX_BYTES];
    for place in 0..width {
        flags[place] = holds(volatile, address + place as u64, 1);
    }
    flags
}

/// Makes the volatile bytes of a request's window unknown, in the page at a place.
#[inline(never)]
fn forget(pages: &mut Pages, at: usize, volatile: &[Range], ask: &Ask)
    requires at { IsAt pages.old.slots (ask.now.address / PAGE_BYTES) at }
    requires inside { ask.now.address % PAGE_BYTES + 2 ^ ask.now.size ≤ PAGE_BYTES }
    requires in_space { ask.now.address + 2 ^ ask.now.size ≤ 2 ^ 64 }
    ensures after { let seen = unknown_where (λ place. holds volatile.now place 1) (paged_cells pages.old) in
        paged_cells pages.new ≡ replaced (paged_cells pages.old) ask.now.address
        (take (2 ^ ask.now.size) (drop ask.now.address seen)) }
    ensures at { IsAt pages.new.slots (ask.now.address / PAGE_BYTES) at }
{
    let flags = flags_of(volatile, ask.address(), ask.width());
    pages.forget(at, ask.address(), &flags[..ask.width()]);
}

/// Makes of the pages what is seen of them in a request's window.
fn look(pages: &mut Pages, at: usize, volatile: &[Range], ask: &Ask)
    requires at { IsAt pages.old.slots (ask.now.address / PAGE_BYTES) at }
    requires inside { ask.now.address % PAGE_BYTES + 2 ^ ask.now.size ≤ PAGE_BYTES }
    requires in_space { ask.now.address + 2 ^ ask.now.size ≤ 2 ^ 64 }
    ensures after { let seen = unknown_where (λ place. holds volatile.now place 1) (paged_cells pages.old) in
        paged_cells pages.new ≡ replaced (paged_cells pages.old) ask.now.address
        (take (2 ^ ask.now.size) (drop ask.now.address seen)) }
    ensures at { IsAt pages.new.slots (ask.now.address / PAGE_BYTES) at }
{
    if !volatile.is_empty() {
        forget(pages, at, volatile, ask);
    }
}

/// Serves a request that carries bytes, in the page at a place, by what is seen of its window.
pub fn serve_in_page(
    pages: &mut Pages,
    at: usize,
    kind: Kind,
    volatile: &[Range],
    ask: &Ask,
    cells: &mut Cells,
)
    requires at { IsAt pages.old.slots (ask.now.address / PAGE_BYTES) at }
    requires carries { carries_bytes ask.now.op ≡ true }
    requires counted { length ask.now.bytes ≡ 2 ^ ask.now.size }
    requires fits { FitsWords (ask.now.address % PAGE_BYTES) (2 ^ ask.now.size) }
    requires inside { ask.now.address % PAGE_BYTES + 2 ^ ask.now.size ≤ PAGE_BYTES }
    requires in_space { ask.now.address + 2 ^ ask.now.size ≤ 2 ^ 64 }
    ensures after { let seen = unknown_where (λ place. holds volatile.now place 1) (paged_cells pages.old) in
        let old = take (2 ^ ask.now.size) (drop ask.now.address seen) in
        paged_cells pages.new ≡ replaced (paged_cells pages.old) ask.now.address
        (new_cells kind ask.now.op old ask.now.bytes) }
    ensures shown { let seen = unknown_where (λ place. holds volatile.now place 1) (paged_cells pages.old) in
        let old = take (2 ^ ask.now.size) (drop ask.now.address seen) in
        cells.new ≡ shown_cells (reply_op_of ask.now.op) old }
    ensures at { IsAt pages.new.slots (ask.now.address / PAGE_BYTES) at }
{
    look(pages, at, volatile, ask);
    pages.serve(at, kind, ask, cells);
}
