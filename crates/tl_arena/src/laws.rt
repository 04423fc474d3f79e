//! What follows from the definitions, each a function whose contract says it.
ghost use Rattle.std.specs.Prelude.{IfOk};
ghost use Rattle.tl_arena.specs.Account.{IsAccountOf};

use crate::account::{Account, account_of_words};
use std::alloc::Global;
use tl_types::Memory;

/// The account that these words of slots and leave words of masters show: a slot is free if its word is that of
/// `Free`, and held if its word is that of a phase which names a master; a master has left if its word is 1.
pub fn account_of(alloc: Global, slots: &[u64], leaves: &[u64]) -> Result<Account, Memory>
    ensures { IfOk result
        (λ a. IsAccountOf slots.now leaves.now a.free.items a.held.items a.left.items) }
{
    Ok(account_of_words(alloc, slots, leaves)?)
}
