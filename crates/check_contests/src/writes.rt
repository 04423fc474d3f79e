//! Which bytes a request may write.
ghost use Rattle.std.specs.Prelude.{◌≡◌, ◌↔◌, ℕ, ◌+◌, ◌^◌, ◌<◌, ◌≤◌, IsTrue, MatchOption, false, true};
ghost use Rattle.check_memory.specs.Cells.{is_atomic};
ghost use Rattle.check_contests.specs.Writes.{in_window, writes};

use crate::placed::Placed;
use tl_types::{AskOp, MAX_BYTES};

/// The place in a request's window of the address so far after another one, if it is there.
fn place_in(ask: &Placed, address: u64, after: usize) -> Option<usize>
    requires { after ≤ MAX_BYTES }
    ensures { MatchOption result (in_window ask.now (address + after) ≡ false) (λ place.
        (place < 2 ^ ask.now.size) × (ask.now.address + place ≡ address + after)) }
{
    let start = ask.address();
    let width = ask.width();
    let place = if address < start {
        after.checked_sub((start - address) as usize)?
    } else if address - start < width as u64 {
        (address - start) as usize + after
    } else {
        return None;
    };
    if place < width { Some(place) } else { None }
}

/// Whether a request writes at a place of its window, if it is legal.
pub fn writes_at(ask: &Placed, place: usize) -> bool
    requires { place < 2 ^ ask.now.size }
    ensures { result ≡ writes ask.now.op ask.now (ask.now.address + place) }
{
    match ask.op() {
        AskOp::PutFull | AskOp::PutPartial => ask.bytes().get(place).is_some(),
        AskOp::Arithmetic(_) | AskOp::Logical(_) => true,
        AskOp::Get | AskOp::Intent(_) => false,
    }
}

/// Whether a request writes at the address so far after another one, if it is legal.
pub fn writes_after(ask: &Placed, address: u64, after: usize) -> bool
    requires { after ≤ MAX_BYTES }
    ensures { result ≡ writes ask.now.op ask.now (address + after) }
{
    match place_in(ask, address, after) {
        Some(place) => writes_at(ask, place),
        None => false,
    }
}

/// Whether an operation is an atomic.
pub fn is_atomic_op(op: AskOp) -> bool
    ensures { result ≡ is_atomic op }
{
    matches!(op, AskOp::Arithmetic(_) | AskOp::Logical(_))
}

/// Whether so many addresses from one on and a request's window have one in common.
pub fn is_near(ask: &Placed, address: u64, count: usize) -> bool
    ensures near { IsTrue result ↔ ((place : ℕ) × (place < count) × (in_window ask.now (address + place) ≡ true)) }
    ensures in_limit { 2 ^ ask.now.size ≤ MAX_BYTES }
{
    let start = ask.address();
    let width = ask.width();
    if address <= start {
        start - address < count as u64
    } else {
        count > 0 && address - start < width as u64
    }
}
