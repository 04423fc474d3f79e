//! Bits past the bus, in masks and among the lanes that are known.
//!
//! A capture cannot spell them, and who calls the judge may give them. `tests/captures` has all other beats.
use crate::tests::holds;
use crate::tests::parts::state::expect_text;
use check_beats::{AskHead, Bus, FormFault, LinkRules, ReplyHead, UnderWay};
use check_cells::Pattern;
use std::process::Abort;

/// Links that keep to the standard.
const STRICT: LinkRules = LinkRules {
    unaligned: false,
    corrupt: false,
    by_address: false,
    period: 1,
};

/// The lanes of the widest bus.
const LANES: [u8; 64] = [0x33; 64];

/// A beat of a put from source 3.
fn put_of(opcode: u8, size: u8, address: u64, mask: u64) -> AskHead {
    AskHead {
        opcode,
        param: 0,
        size,
        source: 3,
        address,
        mask,
        corrupt: false,
    }
}

/// A beat of a reply with data to source 3.
fn reply_of(size: u8) -> ReplyHead {
    ReplyHead {
        opcode: 1,
        param: 0,
        size,
        source: 3,
        denied: false,
        corrupt: false,
    }
}

/// A bus, the opcode of a put, the size, address and mask of its first beat.
type Row = (Bus, u8, u8, u64, u64);

/// Full puts and partial ones, whose masks have bits past the bus.
const MASKS: [Row; 7] = [
    (Bus::One, 0, 0, 5, 0b11),
    (Bus::One, 0, 3, 8, 0xff),
    (Bus::Four, 0, 4, 0x1010, 0b1_1111),
    (Bus::Four, 0, 2, 0x1004, 0xf0),
    (Bus::Eight, 0, 3, 0x1000, 0x1ff),
    (Bus::One, 1, 3, 8, 0b10),
    (Bus::Four, 1, 3, 0x1000, 0b10_0000),
];

fn try_first(rt: &impl Abort, row: &Row) {
    let (bus, opcode, size, address, mask) = *row;
    let link = UnderWay::new(bus);
    let fault = link.ask_fault(STRICT, &put_of(opcode, size, address, mask), u64::MAX);
    holds(rt, "a wrong mask", fault == Some(FormFault::Mask));
}

/// The mask of the second beat of a put of eight bytes on a bus of four is wrong.
fn try_second(rt: &impl Abort, opcode: u8, mask: u64) {
    let mut link = UnderWay::new(Bus::Four);
    let first = put_of(opcode, 3, 8, 0xf);
    assert!(rt; link.ask_fault(STRICT, &first, u64::MAX).is_none());
    assert!(rt; link.bus().bytes() <= LANES.len());
    link.take_ask(&first, &LANES);
    let fault = link.ask_fault(STRICT, &put_of(opcode, 3, 8, mask), u64::MAX);
    holds(rt, "a wrong mask", fault == Some(FormFault::Mask));
}

#[test]
fn a_mask_has_no_bit_past_the_bus(rt: HostRuntime) {
    for row in &MASKS {
        try_first(&rt, row);
    }
    try_second(&rt, 0, 0xff);
    try_second(&rt, 1, 0x10);
}

#[test]
fn a_known_bit_past_the_bus_is_that_of_no_lane(rt: HostRuntime) {
    let link = UnderWay::new(Bus::One);
    let put = put_of(0, 8, 0, 1);
    holds(
        &rt,
        "unknown data",
        link.ask_fault(STRICT, &put, 0b10) == Some(FormFault::UnknownData),
    );
    let first = reply_of(3);
    assert!(&rt; link.reply_fault(STRICT, &first).is_none());
    holds(&rt, "no known reply", !link.is_known_reply(&first, 0, 0b10));
}

#[test]
fn a_byte_is_that_of_a_lane_of_the_bus(rt: HostRuntime) {
    let link = UnderWay::new(Bus::One);
    let beat = reply_of(0);
    let mut reply = Pattern::blank();
    assert!(&rt; link.reply_fault(STRICT, &beat).is_none());
    assert!(&rt; link.ends_reply(&beat));
    assert!(&rt; link.bus().bytes() <= LANES.len());
    link.reply_into(&beat, 0x1002, 0b10, &LANES, &mut reply);
    expect_text(&rt, "a byte", reply.cells(), "xx");
}
