//! The end of an arena.
ghost use Rattle.std.specs.Prelude.{◌≡◌, ◌+◌, ◌≤◌, IfOk, take, drop};
ghost use Rattle.std.specs.Mem.Slots.{IsFull, slots_len, slots_items};
ghost use Rattle.tl_arena.specs.Account.{IsClosing};

use crate::account::{Account, account_of_words};
use crate::arena::Arena;
use crate::record::Berth;
use atomic_table::Closed;
use std::alloc::{AllocError, Global};
use tl_types::Memory;

/// So many words of a table, from a place on.
fn words_of(
    alloc: Global,
    closed: &Closed<Berth, Global>,
    from: usize,
    count: usize,
) -> Result<Vec<u64>, AllocError>
    requires full { IsFull closed.now.words }
    requires inside { from + count ≤ slots_len closed.now.words }
    ensures { IfOk result
        (λ words. words.items ≡ take count (drop from (slots_items closed.now.words))) }
{
    let mut words = Vec::with_capacity(alloc, count)?;
    for place in 0..count {
        words.push(closed.word(from + place))?;
    }
    Ok(words)
}

/// Gives up what a table held.
fn give_up(mut closed: Closed<Berth, Global>, slots: usize)
    requires full { IsFull closed.slots }
    requires all { slots ≡ slots_len closed.slots }
{
    for slot in 0..slots {
        drop(closed.take(slot));
    }
    closed.free();
}

impl Arena {
    /// Ends the arena, and gives the account of its words. If memory is refused there is no account.
    pub fn close(self, alloc: Global) -> Result<Account, Memory>
        ensures account { IfOk result
            (λ a. IsClosing self.about a.free.items a.held.items a.left.items) }
    {
        let Arena {
            table,
            slots,
            masters,
            ports: _,
        } = self;
        let closed = table.close();
        let slot_words = words_of(alloc, &closed, 0, slots);
        let leave_words = words_of(alloc, &closed, slots, masters);
        give_up(closed, slots);
        Ok(account_of_words(alloc, &slot_words?, &leave_words?)?)
    }
}
