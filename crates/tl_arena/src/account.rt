//! The account of an arena: which slots are free, which are held and by whom, and which masters have left.
ghost use Rattle.std.specs.Prelude.{◌≡◌, ◌↔◌, ℕ, Some, IfOk, Contains, slice_get};
ghost use Rattle.tl_arena.specs.declared.account.HeldSlot.{HeldSlot};
ghost use Rattle.tl_arena.specs.Account.{IsRisingBy, IsHeldWord, IsFree, IsHeld, HasLeft, IsAccountOf};

use std::alloc::{AllocError, Global};
use tl_slots::{Phase, phase_of, word_of};

/// A slot that a master holds.
#[derive(Clone, Copy, PartialEq, Eq)]
pub struct HeldSlot {
    pub slot: usize,
    pub master: usize,
}

/// Which slots are free, which are held by which master, and which masters have left, each in rising order.
#[derive(Drop)]
pub struct Account {
    pub free: Vec<usize>,
    pub held: Vec<HeldSlot>,
    pub left: Vec<usize>,
}

/// The account that these words of slots and leave words of masters show.
pub(crate) fn account_of_words(
    alloc: Global,
    slots: &[u64],
    leaves: &[u64],
) -> Result<Account, AllocError>
    ensures { IfOk result
        (λ a. IsAccountOf slots.now leaves.now a.free.items a.held.items a.left.items) }
{
    Ok(Account {
        free: places_of(alloc, slots, word_of(Phase::Free))?,
        held: held_slots(alloc, slots)?,
        left: places_of(alloc, leaves, 1)?,
    })
}

/// The places of the words that are this one.
fn places_of(alloc: Global, words: &[u64], wanted: u64) -> Result<Vec<usize>, AllocError>
    ensures just { IfOk result
        (λ places. (i : ℕ) → Contains places.items i ↔ (slice_get words.now i ≡ Some wanted)) }
    ensures rising { IfOk result (λ places. IsRisingBy (λ (i : ℕ). i) places.items) }
{
    let mut places = Vec::new(alloc);
    for (place, word) in words.iter().enumerate() {
        if *word == wanted {
            places.push(place)?;
        }
    }
    Ok(places)
}

/// The slots whose words name masters, with these.
fn held_slots(alloc: Global, words: &[u64]) -> Result<Vec<HeldSlot>, AllocError>
    ensures just { IfOk result (λ held. (h : HeldSlot) → Contains held.items h ↔ IsHeld words.now h) }
    ensures rising { IfOk result (λ held. IsRisingBy (λ (h : HeldSlot). h.slot) held.items) }
{
    let mut held = Vec::new(alloc);
    for (slot, word) in words.iter().enumerate() {
        if let Some(master) = holder(*word) {
            held.push(HeldSlot { slot, master })?;
        }
    }
    Ok(held)
}

/// The master that holds a slot with this word.
fn holder(word: u64) -> Option<usize>
    ensures { (master : ℕ) → (result ≡ Some master) ↔ IsHeldWord word master }
{
    phase_of(word)?.owner()
}
