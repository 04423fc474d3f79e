//! Requests that a reset cuts short.
ghost use Rattle.std.specs.Prelude.{◌≡◌, ℕ, ◌+◌, ◌^◌, ◌<◌, length, slice_index_or, true, false, OnOk, OnErr};
ghost use Rattle.check_memory.specs.Partial.{takes_bytes};
ghost use Rattle.check_memory.specs.Slave.{slave_takes_bytes};
ghost use Rattle.check_contests.specs.Writes.{writes};
ghost use Rattle.check_contests.specs.Cut.{memory_cut, slave_cut};

use check_cells::AskSoFar;
use check_memory::{PartialMemory, Slave};
use std::alloc::{AllocError, Global};
use tl_types::{AskOp, MAX_BYTES};

/// Whether a request gives a byte of its window, or changes all of them.
fn writes_at(ask: &AskSoFar, place: usize) -> bool
    requires { place < 2 ^ ask.now.size }
    ensures { (start : ℕ) → result ≡ writes ask.now.op (record ask.now { address = start }) (start + place) }
{
    match ask.op() {
        AskOp::PutFull | AskOp::PutPartial => {
            place < ask.bytes().len() && ask.bytes().get(place).is_some()
        }
        AskOp::Arithmetic(_) | AskOp::Logical(_) => true,
        AskOp::Get | AskOp::Intent(_) => false,
    }
}

/// Flags the bytes of a request's window that it writes.
fn mark_written(ask: &AskSoFar, flags: &mut [bool])
    requires { length flags.old ≡ 2 ^ ask.now.size }
    ensures flags { (start k : ℕ) → k < length flags.old → slice_index_or flags.new k false
        ≡ writes ask.now.op (record ask.now { address = start }) (start + k) }
    ensures len { length flags.new ≡ length flags.old }
{
    for place in 0..flags.len() {
        flags[place] = writes_at(ask, place);
    }
}

/// Makes the bytes of a memory unknown that a request may write which was cut short.
fn cut_memory(alloc: Global, memory: &mut PartialMemory, ask: &AskSoFar) -> Result<(), AllocError>
    ensures cut { OnOk result (memory.new ≡ memory_cut memory.old ask.now) }
    ensures takes { OnErr result (takes_bytes memory.old ask.now ≡ true) }
    ensures unchanged { OnErr result (memory.new ≡ memory.old) }
{
    if !ask.op().carries_bytes() || !memory.permits_so_far(ask) {
        return Ok(());
    }
    let mut flags = [false; MAX_BYTES];
    let window = &mut flags[..ask.width()];
    mark_written(ask, window);
    memory.forget(alloc, memory.start_so_far(ask), window)
}

/// Makes the bytes of a slave unknown that a request may write which a reset cut short: it may have taken effect, or not, or
/// in part. If there is no memory for a page, nothing is changed.
pub fn cut_short(alloc: Global, slave: &mut Slave, ask: &AskSoFar) -> Result<(), AllocError>
    ensures cut { OnOk result (slave.new ≡ slave_cut slave.old ask.now) }
    ensures takes { OnErr result (slave_takes_bytes slave.old ask.now ≡ true) }
    ensures unchanged { OnErr result (slave.new ≡ slave.old) }
{
    match slave {
        Slave::Memory(memory) => cut_memory(alloc, memory, ask),
        Slave::Device => Ok(()),
    }
}
