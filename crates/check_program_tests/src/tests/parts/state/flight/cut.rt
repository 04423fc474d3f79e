//! What a reset leaves of a slave: bytes that a request which it cut short may have written, and what is loaded. No program
//! has resets yet.
use super::scene::{cross, expect_due, head_of, ram, side_of_four};
use crate::tests::parts::state::bytes_of;
use check_cells::AskSoFar;
use check_flight::{Order, PortSlave};
use check_memory::Slave;
use std::alloc::Global;
use std::process::Abort;
use tl_types::{AskOp, Bytes, Logic, MAX_SIZE};

/// A request that is cut short: its operation, size and address, the bytes that had crossed, and what is known after it of the
/// bytes 01 02 03 04 at 0x1000.
type Row = (AskOp, u8, u64, &'static str, &'static str);

// a RAM serves atomics of four and of eight bytes
const ROWS: [Row; 7] = [
    (AskOp::PutFull, 2, 0x1000, "aa bb", "xx xx 03 04"),
    (AskOp::PutPartial, 2, 0x1000, "xx aa xx", "01 xx 03 04"),
    (AskOp::Logical(Logic::Or), 2, 0x1000, "", "xx xx xx xx"),
    (AskOp::Logical(Logic::Or), 1, 0x1002, "", "01 02 03 04"),
    (AskOp::Get, 2, 0x1000, "", "01 02 03 04"),
    (AskOp::PutFull, 2, 0x3000, "aa bb cc dd", "01 02 03 04"),
    (AskOp::PutFull, 1, 0x1001, "aa bb", "01 02 03 04"),
];

/// A get of four bytes at 0x1000 crosses, as the second request of the port's list, and its reply has to have this flag and these
/// bytes.
fn try_get(
    rt: &impl Abort,
    alloc: Global,
    slave: &mut PortSlave,
    denied: Option<bool>,
    bytes: &str,
) {
    let mut side = side_of_four(alloc).expect(rt, "memory refused");
    let get = head_of(4, 2, 1, 0x1000);
    cross(rt, alloc, &mut side, slave, &get, &[0; 4]).expect(rt, "memory refused");
    expect_due(rt, &side, 1, 1, denied, bytes);
}

/// A RAM whose bytes at 0x1000 are 01 02 03 04.
fn written_ram(rt: &impl Abort, alloc: Global) -> PortSlave {
    let mut slave = ram(rt, alloc, Order::Accept).expect(rt, "memory refused");
    let mut side = side_of_four(alloc).expect(rt, "memory refused");
    let put = head_of(0, 2, 0, 0x1000);
    cross(rt, alloc, &mut side, &mut slave, &put, &[1, 2, 3, 4]).expect(rt, "memory refused");
    slave
}

fn try_row(rt: &impl Abort, alloc: Global, row: &Row) {
    let (op, size, address, crossed, left) = *row;
    assert!(rt; size <= MAX_SIZE);
    let bytes = Bytes::of(&bytes_of(rt, crossed));
    let ask = AskSoFar::new(op, size, 3, address, bytes);
    let mut slave = written_ram(rt, alloc);
    slave.cut_short(alloc, &ask).expect(rt, "memory refused");
    slave.reset(None);
    try_get(rt, alloc, &mut slave, Some(false), left);
}

#[test]
fn bytes_of_a_request_that_is_cut_short_are_unknown(rt: HostRuntime) {
    for row in &ROWS {
        try_row(&rt, rt.alloc(), row);
    }
}

#[test]
fn a_slave_that_is_loaded_takes_the_place(rt: HostRuntime) {
    let mut slave = written_ram(&rt, rt.alloc());
    slave.reset(Some(Slave::Device));
    try_get(&rt, rt.alloc(), &mut slave, None, "xx xx xx xx");
}
