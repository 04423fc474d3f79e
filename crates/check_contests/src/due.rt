//! What replies have to fit, once other requests may write their bytes.
ghost use Rattle.std.specs.Prelude.{◌≡◌, ℕ, ◌+◌, ◌≤◌, length};
ghost use Rattle.check_contests.specs.Writes.{writes, may_write, unknown_where};
ghost use Rattle.check_contests.specs.Contests.{due_beside};

use crate::placed::Placed;
use crate::writes::{is_near, writes_after};
use check_cells::{Cells, Pattern};
use check_memory::PartialMemory;
use tl_types::Ask;

/// The bytes from an address on, of which those are unknown that a request writes.
fn without(cells: &Cells, address: u64, other: &Placed) -> Cells
    ensures { result ≡ unknown_where (λ place. writes other.now.op other.now (address + place)) cells.now }
{
    let mut left = Cells::new();
    for place in 0..cells.len() {
        let byte = if writes_after(other, address, place) {
            None
        } else {
            cells.get(place)
        };
        left.push(byte);
    }
    left
}

/// Makes each byte of what is due to a request unknown that another one may write. What is due to one that is denied stays.
pub fn hide(memory: &PartialMemory, ask: &Ask, other: &Ask, due: &mut Pattern)
    ensures { due.new ≡ due_beside memory.now ask.now (may_write memory.now other.now) due.old }
{
    let there = Placed::of(memory, other);
    let start = memory.start(ask);
    if other.op().carries_bytes()
        && is_near(&there, start, due.cells.len())
        && memory.permits(ask)
        && memory.permits(other)
    {
        due.cells = without(&due.cells, start, &there);
    }
}
