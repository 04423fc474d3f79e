//! What no program asks a port: bytes outside of its range, and any bytes of a device. `tests/captures` has what is due by
//! each order (`what_is_due_follows_the_order`).
use super::scene::{cross, expect_due, head_of, ram, side_of_four};
use crate::tests::holds;
use check_flight::{Order, PortSlave};
use check_memory::Slave;
use std::alloc::Global;
use std::process::Abort;

/// A get of four bytes at 0x2000 crosses, and its reply has to have this flag and these bytes.
fn is_due(
    rt: &impl Abort,
    alloc: Global,
    slave: &mut PortSlave,
    denied: Option<bool>,
    bytes: &str,
) {
    let mut side = side_of_four(alloc).expect(rt, "memory refused");
    let get = head_of(4, 2, 1, 0x2000);
    cross(rt, alloc, &mut side, slave, &get, &[0; 4]).expect(rt, "memory refused");
    expect_due(rt, &side, 1, 0, denied, bytes);
}

#[test]
fn a_get_outside_of_the_range_is_denied(rt: HostRuntime) {
    let mut slave = ram(&rt, rt.alloc(), Order::Accept).expect(&rt, "memory refused");
    is_due(&rt, rt.alloc(), &mut slave, Some(true), "00 00 00 00");
}

#[test]
fn a_device_answers_as_it_likes(rt: HostRuntime) {
    let mut slave = PortSlave::new(rt.alloc(), Slave::Device, Order::Accept, false);
    holds(&rt, "bytes may be unknown", slave.may_be_unknown());
    is_due(&rt, rt.alloc(), &mut slave, None, "xx xx xx xx");
}
