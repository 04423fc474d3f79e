//! Which bytes near a request it and others leave unknown.
ghost use Rattle.std.specs.Prelude.{◌≡◌, ◌↔◌, ℕ, ◌+◌, ◌^◌, ◌<◌, ◌≤◌, ◌⊎◌, ◌&&◌, ◌||◌, IsTrue, true, false, length, slice_index_or};
ghost use Rattle.check_memory.specs.Cells.{is_atomic};
ghost use Rattle.check_memory.specs.Partial.{permits};
ghost use Rattle.check_contests.specs.Writes.{in_window, writes, meets, leave_unknown, LiesIn, Share, Reaches};
ghost use Rattle.check_contests.specs.declared.flags.TheConstants.{NEAR_BYTES};
ghost use Rattle.check_contests.specs.Contests.{is_contested};

use crate::accepted::Accepted;
use crate::placed::Placed;
use crate::writes::{is_atomic_op, is_near, writes_after, writes_at};
use check_memory::PartialMemory;
use tl_types::{Ask, MAX_BYTES};

/// How many bytes hold a window, and each that has a byte in common with it: as many as three of the largest messages have.
pub const NEAR_BYTES: usize = 3 * MAX_BYTES;

/// Flags the bytes of a request's window, if it is an atomic.
fn mark_atomic(ask: &Placed, first: u64, flags: &mut [bool])
    requires { LiesIn ask.now first (length flags.old) }
    ensures flags { (k : ℕ) → k < length flags.old → slice_index_or flags.new k false
        ≡ (slice_index_or flags.old k false || (is_atomic ask.now.op && in_window ask.now (first + k))) }
    ensures len { length flags.new ≡ length flags.old }
{
    if !is_atomic_op(ask.op()) {
        return;
    }
    let start = (ask.address() - first) as usize;
    for place in start..start + ask.width() {
        flags[place] = true;
    }
}

/// Flags the bytes that both of two requests write. The answer is whether there is one.
fn mark_shared(ask: &Placed, other: &Placed, first: u64, flags: &mut [bool]) -> bool
    requires { LiesIn ask.now first (length flags.old) }
    ensures flags { (k : ℕ) → k < length flags.old → slice_index_or flags.new k false
        ≡ (slice_index_or flags.old k false
        || (writes ask.now.op ask.now (first + k) && writes other.now.op other.now (first + k))) }
    ensures met { IsTrue result ↔ ((address : ℕ)
        × ((writes ask.now.op ask.now address && writes other.now.op other.now address) ≡ true)) }
    ensures len { length flags.new ≡ length flags.old }
{
    let start = (ask.address() - first) as usize;
    let mut met = false;
    for place in 0..ask.width() {
        if writes_at(ask, place) && writes_after(other, ask.address(), place) {
            flags[start + place] = true;
            met = true;
        }
    }
    met
}

/// Flags the bytes that a request writes.
pub fn mark_own(ask: &Placed, first: u64, flags: &mut [bool])
    requires { LiesIn ask.now first (length flags.old) }
    ensures flags { (k : ℕ) → k < length flags.old → slice_index_or flags.new k false
        ≡ (slice_index_or flags.old k false || writes ask.now.op ask.now (first + k)) }
    ensures len { length flags.new ≡ length flags.old }
{
    let start = (ask.address() - first) as usize;
    for place in 0..ask.width() {
        if writes_at(ask, place) {
            flags[start + place] = true;
        }
    }
}

/// Whether a legal request may meet another one. If so, both have a byte in common.
fn may_meet(memory: &PartialMemory, ask: &Ask, other: &Ask) -> bool
    ensures met { meets memory.now ask.now other.now ≡ true → IsTrue result }
    ensures legal { IsTrue result → permits memory.now other.now ≡ true }
    ensures shares { IsTrue result → Share memory.now ask.now other.now }
    ensures in_limit { 2 ^ other.now.size ≤ MAX_BYTES }
{
    let there = Placed::of(memory, other);
    let _in_limit = there.width();
    other.op().carries_bytes()
        && is_near(&there, memory.start(ask), ask.width())
        && memory.permits(other)
}

/// Flags the bytes that a legal request and another one leave unknown, of so many that hold all these.
fn mark_contested(memory: &PartialMemory, ask: &Ask, other: &Ask, first: u64, flags: &mut [bool])
    requires legal { permits memory.now ask.now ≡ true }
    requires reaches { Reaches memory.now ask.now first (length flags.old) }
    ensures flags { (k : ℕ) → k < length flags.old → slice_index_or flags.new k false
        ≡ (slice_index_or flags.old k false || leave_unknown memory.now ask.now other.now (first + k)) }
    ensures outside { (address : ℕ) → (address < first) ⊎ (first + length flags.old ≤ address)
        → leave_unknown memory.now ask.now other.now address ≡ false }
    ensures len { length flags.new ≡ length flags.old }
{
    let here = Placed::of(memory, ask);
    let there = Placed::of(memory, other);
    if may_meet(memory, ask, other) && mark_shared(&here, &there, first, flags) {
        mark_atomic(&here, first, flags);
        mark_atomic(&there, first, flags);
    }
}

/// Flags the bytes that are unknown once a legal request is accepted beside those that are kept, of so many from an address
/// on that hold all these.
pub fn mark_all(
    memory: &PartialMemory,
    kept: &[Accepted],
    ask: &Ask,
    first: u64,
    flags: &mut [bool],
)
    requires legal { permits memory.now ask.now ≡ true }
    requires reaches { Reaches memory.now ask.now first (length flags.old) }
    requires fresh { (k : ℕ) → k < length flags.old → slice_index_or flags.old k false ≡ false }
    ensures flags { (k : ℕ) → k < length flags.old → slice_index_or flags.new k false
        ≡ is_contested memory.now kept.now ask.now (first + k) }
    ensures outside { (address : ℕ) → (address < first) ⊎ (first + length flags.old ≤ address)
        → is_contested memory.now kept.now ask.now address ≡ false }
    ensures len { length flags.new ≡ length flags.old }
{
    for entry in kept {
        mark_contested(memory, ask, &entry.ask, first, flags);
    }
}

/// The first of the bytes near a window, in a memory whose windows stand anywhere.
pub fn near(start: u64) -> u64
    ensures below { result ≤ start }
    ensures reach { (start ≤ result + MAX_BYTES) ⊎ (result + NEAR_BYTES ≡ 2 ^ 64) }
    ensures before { (address : ℕ) → start ≤ address + MAX_BYTES → result ≤ address }
    ensures in_space { result + NEAR_BYTES ≤ 2 ^ 64 }
{
    start
        .saturating_sub(MAX_BYTES as u64)
        .min(u64::MAX - (NEAR_BYTES as u64 - 1))
}
