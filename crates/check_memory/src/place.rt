//! Bytes of pages that are taken one by one, so that a window may stand in two of them.
ghost use Rattle.std.specs.Prelude.{◌≡◌, ℕ, ◌+◌, ◌/◌, ◌%◌, ◌^◌, ◌<◌, ◌≤◌, true, false, length, slice_index_or, take, drop, IfOk};
ghost use Rattle.tl_types.specs.Operation.{carries_bytes, reply_op_of};
ghost use Rattle.check_memory.specs.Known.{replaced};
ghost use Rattle.check_memory.specs.Cells.{new_cells, forgotten};
ghost use Rattle.check_memory.specs.Pattern.{shown_cells};
ghost use Rattle.check_memory.specs.Paged.{paged_cells, HasPage, KeepsPages};

use crate::pages::Pages;
use crate::sheet::PAGE_BYTES;
use check_cells::Cells;
use std::alloc::{AllocError, Global};
use tl_ops::Kind;
use tl_types::{Ask, MAX_BYTES, MAX_SIZE};

/// The bytes from an address on.
pub fn read_bytes(pages: &Pages, address: u64, width: usize, cells: &mut Cells)
    requires limit { width ≤ MAX_BYTES }
    requires in_space { address + width ≤ 2 ^ 64 }
    ensures { cells.new ≡ take width (drop address (paged_cells pages.now)) }
{
    cells.clear();
    for place in 0..width {
        cells.push(pages.byte(address + place as u64));
    }
}

/// Makes the pages of so many bytes from an address on, where there are none.
pub fn hold(pages: &mut Pages, alloc: Global, address: u64, width: usize) -> Result<(), AllocError>
    requires { address + width ≤ 2 ^ 64 }
    ensures same { paged_cells pages.new ≡ paged_cells pages.old }
    ensures kept { KeepsPages pages.old.slots pages.new.slots }
    ensures held { IfOk result (λ _. (k : ℕ) → k < width
        → HasPage pages.new.slots ((address + k) / PAGE_BYTES)) }
{
    for place in 0..width {
        pages.page_for(alloc, (address + place as u64) / PAGE_BYTES as u64)?;
    }
    Ok(())
}

/// Makes the pages of the bytes that are flagged from an address on, where there are none.
pub fn hold_flagged(
    pages: &mut Pages,
    alloc: Global,
    address: u64,
    flags: &[bool],
) -> Result<(), AllocError>
    requires { address + length flags.now ≤ 2 ^ 64 }
    ensures same { paged_cells pages.new ≡ paged_cells pages.old }
    ensures kept { KeepsPages pages.old.slots pages.new.slots }
    ensures held { IfOk result (λ _. (k : ℕ) → k < length flags.now → slice_index_or flags.now k false ≡ true
        → HasPage pages.new.slots ((address + k) / PAGE_BYTES)) }
{
    for place in 0..flags.len() {
        if flags[place] {
            pages.page_for(alloc, (address + place as u64) / PAGE_BYTES as u64)?;
        }
    }
    Ok(())
}

/// Puts bytes, known or unknown, from an address on, in pages that are there.
pub fn write_bytes(pages: &mut Pages, address: u64, cells: &Cells)
    requires in_space { address + length cells.now ≤ 2 ^ 64 }
    requires held { (k : ℕ) → k < length cells.now
        → HasPage pages.old.slots ((address + k) / PAGE_BYTES) }
    ensures after { paged_cells pages.new ≡ replaced (paged_cells pages.old) address cells.now }
    ensures kept { KeepsPages pages.old.slots pages.new.slots }
{
    for place in 0..cells.len() {
        pages.put(address + place as u64, cells.get(place));
    }
}

/// Makes the bytes that are flagged unknown, from an address on, in pages that are there.
pub fn forget_bytes(pages: &mut Pages, address: u64, flags: &[bool])
    requires in_space { address + length flags.now ≤ 2 ^ 64 }
    requires held { (k : ℕ) → k < length flags.now → slice_index_or flags.now k false ≡ true
        → HasPage pages.old.slots ((address + k) / PAGE_BYTES) }
    ensures { paged_cells pages.new ≡ forgotten flags.now address (paged_cells pages.old) }
{
    for place in 0..flags.len() {
        if flags[place] {
            pages.put(address + place as u64, None);
        }
    }
}

/// What a request leaves of the bytes of its window, which stand apart from all others. Its answer shows those in their
/// place.
pub fn serve_apart(
    alloc: Global,
    kind: Kind,
    ask: &Ask,
    cells: &mut Cells,
) -> Result<Cells, AllocError>
    requires carries { carries_bytes ask.now.op ≡ true }
    requires counted { length ask.now.bytes ≡ 2 ^ ask.now.size }
    requires window { length cells.old ≡ 2 ^ ask.now.size }
    requires small { ask.now.size ≤ MAX_SIZE }
    requires aligned { ask.now.address % 2 ^ ask.now.size ≡ 0 }
    ensures left { IfOk result (λ left. left ≡ new_cells kind ask.now.op cells.old ask.now.bytes) }
    ensures shown { IfOk result (λ _. cells.new ≡ shown_cells (reply_op_of ask.now.op) cells.old) }
{
    let mut pages = Pages::new(alloc, false);
    let at = pages.page_for(alloc, ask.address() / PAGE_BYTES as u64)?;
    write_bytes(&mut pages, ask.address(), cells);
    pages.serve(at, kind, ask, cells);
    let mut left = Cells::new();
    pages.read(ask.address(), ask.width(), &mut left);
    Ok(left)
}
