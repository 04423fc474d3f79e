//! What is left if memory is refused. This test holds whether its requests for memory are granted or not, so that each
//! may be refused in turn (`rt try --test --fail-alloc N`).
use super::scene::{cross, expect_due, head_of, ram, side_of_four};
use crate::tests::holds;
use check_flight::{Order, PortSlave, Side};
use std::alloc::Global;
use std::process::Abort;

/// A put in a page of its own takes effect, or where memory is refused nothing is in flight and nothing has changed.
fn try_put(rt: &impl Abort, alloc: Global, side: &mut Side, slave: &mut PortSlave) {
    let put = head_of(0, 2, 5, 0x1004);
    let get = head_of(4, 2, 6, 0x1004);
    match cross(rt, alloc, side, slave, &put, &[1, 2, 3, 4]) {
        Ok(()) => expect_due(rt, side, 5, 0, Some(false), ""),
        Err(_) => {
            assert!(rt; side.wides() == 8);
            holds(rt, "nothing is in flight", side.flight(5).is_idle());
            if cross(rt, alloc, side, slave, &get, &[0; 4]).is_ok() {
                expect_due(rt, side, 6, 0, Some(false), "xx xx xx xx");
            }
        }
    }
}

/// The same at a slave that is made, if memory is granted.
fn try_slave(rt: &impl Abort, alloc: Global, side: &mut Side) {
    if let Ok(mut slave) = ram(rt, alloc, Order::Accept) {
        try_put(rt, alloc, side, &mut slave);
    }
}

#[test]
fn a_page_is_made_or_nothing_has_changed(rt: HostRuntime) {
    if let Ok(mut side) = side_of_four(rt.alloc()) {
        try_slave(&rt, rt.alloc(), &mut side);
    }
}
