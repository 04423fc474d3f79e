//! The account that words show.
use std::process::Abort;
use tl_arena::laws::account_of;
use tl_arena::{Account, HeldSlot};

/// The slots that are free, the one that is held, and who has left.
fn shows(rt: &impl Abort, account: &Account, free: usize, held: HeldSlot, left: usize) {
    assert!(rt; account.free.as_slice() == [free].as_slice());
    assert!(rt; account.held.as_slice() == [held].as_slice());
    assert!(rt; account.left.as_slice() == [left].as_slice());
}

#[test]
fn words_show_who_holds_what(rt: HostRuntime) {
    // Slot 0 is free; slot 1 is posted by master 1 for port 2, and master 0 has left.
    let account = account_of(rt.alloc(), &[0, 4106], &[1, 0]).expect(&rt, "memory");
    shows(&rt, &account, 0, HeldSlot { slot: 1, master: 1 }, 0);
}

/// Its requests for memory may be refused (`rt try --test --fail-alloc N`): the account is the right one, or there is
/// none.
#[test]
fn an_account_is_whole_or_memory_is_refused(rt: HostRuntime) {
    if let Ok(account) = account_of(rt.alloc(), &[4106, 0], &[0, 1]) {
        shows(&rt, &account, 1, HeldSlot { slot: 0, master: 1 }, 1);
    }
}
