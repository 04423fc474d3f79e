//! The values that are kept of a dump: what they are, and what they were before the present time.
ghost use Rattle.std.specs.Prelude.{◌≡◌, ◌≤◌, ◌<◌, ◌++◌, ◌∷◌, [], All, IfOk, OnOk, map, replicate, vec_len};
ghost use Rattle.check_samples.specs.Digits.{bits_of, joined_of, set_extended, unknown, with_joined};

use crate::slot::{Slot, part};
use crate::tap::Tap;
use std::alloc::{AllocError, Global};

/// The kept values, what was put together of parts of them, and how many times have begun, counted from 1.
#[derive(Drop)]
pub struct Values {
    slots: Vec<Slot>,
    joined: Vec<u8>,
    times: u64,
    ghost some: { 0 < times },
    ghost past: { All (λ slot. slot.since ≤ times) slots.items },
}

/// Appends what parts of values are, one after the other.
fn push_parts(digits: &mut Vec<u8>, slots: &[Slot], parts: &[Tap]) -> Result<(), AllocError>
    ensures { OnOk result (digits.new.items
        ≡ digits.old.items ++ joined_of (map (λ slot. slot.digits.items) slots.now) parts.now) }
{
    for tap in parts {
        digits.extend_from_slice(part_now(slots, *tap))?;
    }
    Ok(())
}

/// Some bits of values, as they are.
fn part_now(slots: &[Slot], tap: Tap) -> &[u8]
    ensures { result.now ≡ bits_of (map (λ slot. slot.digits.items) slots.now) tap }
{
    match slots.get(tap.slot) {
        Some(slot) => part(&slot.digits, tap),
        None => b"",
    }
}

impl Values {
    ghost use Rattle.check_samples.specs.Values.{all_before, all_now, all_widths, kept_before};

    /// None, with room for so many digits that are put together of parts of values.
    pub fn new(alloc: Global, room: usize) -> Result<Values, AllocError>
        ensures before { IfOk result (λ values. kept_before values ≡ []) }
        ensures joined { IfOk result (λ values. values.joined.items ≡ []) }
        ensures now { IfOk result (λ values. all_now values ≡ []) }
        ensures widths { IfOk result (λ values. all_widths values ≡ []) }
    {
        Ok(Values {
            slots: Vec::new(alloc),
            joined: Vec::with_capacity(alloc, room)?,
            times: 1,
        })
    }

    /// How many there are.
    pub fn count(&self) -> usize
        ensures { result ≡ vec_len self.now.slots }
    {
        self.slots.len()
    }

    /// Keeps one more, of so many bits, which are unknown.
    pub fn add(&mut self, alloc: Global, width: usize) -> Result<(), AllocError>
        ensures before { OnOk result (kept_before self.new ≡ kept_before self.old ++ (unknown width ∷ [])) }
        ensures joined { self.new.joined ≡ self.old.joined }
        ensures now { OnOk result (all_now self.new ≡ all_now self.old ++ (unknown width ∷ [])) }
        ensures widths { OnOk result (all_widths self.new ≡ all_widths self.old ++ (width ∷ [])) }
    {
        self.slots.push(Slot::new(alloc, width)?)?;
        Ok(())
    }

    /// Keeps one more, of so many bits: a constant, whose bits all have this digit.
    pub fn add_constant(&mut self, alloc: Global, width: usize, digit: u8) -> Result<(), AllocError>
        ensures before { OnOk result (kept_before self.new ≡ kept_before self.old ++ (unknown width ∷ [])) }
        ensures joined { self.new.joined ≡ self.old.joined }
        ensures now { OnOk result (all_now self.new
            ≡ all_now self.old ++ (replicate width digit ∷ [])) }
        ensures widths { OnOk result (all_widths self.new ≡ all_widths self.old ++ (width ∷ [])) }
    {
        let mut slot = Slot::new(alloc, width)?;
        slot.fill(self.times, digit)?;
        self.slots.push(slot)?;
        Ok(())
    }

    /// Changes the value in a slot.
    pub fn change(&mut self, slot: usize, digits: &[u8]) -> Result<(), AllocError>
        requires { slot < vec_len self.old.slots }
        ensures before { OnOk result (all_before self.new ≡ all_before self.old) }
        ensures now { OnOk result (all_now self.new
            ≡ set_extended (all_widths self.old) (all_now self.old) slot digits.now) }
        ensures widths { all_widths self.new ≡ all_widths self.old }
    {
        self.slots[slot].change(self.times, digits)
    }

    /// A time begins: what the values are, they were before it, and these parts of them are put together. There are no
    /// 2^64 times.
    pub(crate) fn pass(&mut self, parts: &[Tap]) -> Result<(), AllocError>
        ensures before { OnOk result (all_before self.new ≡ with_joined parts.now (all_now self.old)) }
        ensures now { OnOk result (all_now self.new ≡ all_now self.old) }
        ensures widths { OnOk result (all_widths self.new ≡ all_widths self.old) }
    {
        self.times = self.times.checked_add(1).ok_or(AllocError)?;
        self.joined.clear();
        push_parts(&mut self.joined, &self.slots, parts)
    }

    /// Some bits, as they were before the present time.
    #[inline(always)]
    pub(crate) fn before(&self, tap: Tap) -> &[u8]
        ensures { result.now ≡ bits_of (all_before self.now) tap }
    {
        match self.slots.get(tap.slot) {
            Some(slot) => part(slot.before(self.times), tap),
            None if tap.slot == self.slots.len() => part(&self.joined, tap),
            None => b"",
        }
    }

    /// Some bits, as they are.
    pub(crate) fn now(&self, tap: Tap) -> &[u8]
        ensures { result.now ≡ bits_of (all_now self.now) tap }
    {
        part_now(&self.slots, tap)
    }
}
