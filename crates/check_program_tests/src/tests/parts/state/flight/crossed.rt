//! Replies that a port gave, and those at the master's link.
use crate::tests::holds;
use crate::tests::parts::state::bytes_of;
use check_cells::Pattern;
use check_flight::{Answer, Crossing};
use std::process::Abort;
use tl_types::ReplyOp;

/// A reply of four bytes.
fn reply_of(rt: &impl Abort, source: u16, denied: bool, text: &str) -> Pattern {
    let bytes = bytes_of(rt, text);
    let mut reply = Pattern::blank();
    reply.refill(ReplyOp::AccessAckData, 2, source, denied, &bytes);
    reply
}

/// A reply at the master's link: what it shows, the source, whether it is denied, the bytes, and whether the port gave it.
type Crossed = (&'static str, u16, bool, &'static str, bool);

static CROSSED: [Crossed; 5] = [
    ("the same", 9, false, "01 xx 03 04", true),
    ("another source", 2, false, "01 xx 03 04", true),
    ("a byte more is known", 2, false, "01 02 03 04", false),
    ("a byte less is known", 2, false, "01 xx 03 xx", false),
    ("denied", 2, true, "01 xx 03 04", false),
];

/// The port gave these replies, or it did not.
fn expect_gave(rt: &impl Abort, crossing: &Crossing, replies: &[Crossed]) {
    for (row, source, denied, text, gave) in replies {
        let reply = reply_of(rt, *source, *denied, text);
        holds(rt, row, crossing.gave(4, &reply) == *gave);
    }
}

#[test]
fn a_reply_crosses_as_it_was_given(rt: HostRuntime) {
    let mut crossing = Crossing::waiting();
    let given = reply_of(&rt, 9, false, "01 xx 03 04");
    holds(&rt, "not given yet", !crossing.gave(4, &given));
    crossing.cross();
    holds(&rt, "crossed", !crossing.is_waiting());
    crossing.give(&Answer::blank(), &given);
    expect_gave(&rt, &crossing, &CROSSED);
    crossing.wait();
    holds(&rt, "waiting", crossing.given().is_none());
}

#[test]
fn of_denied_replies_no_byte_is_looked_at(rt: HostRuntime) {
    let mut crossing = Crossing::waiting();
    crossing.give(&Answer::blank(), &reply_of(&rt, 9, true, "01 xx 03 04"));
    let reply = reply_of(&rt, 2, true, "xx xx xx xx");
    holds(&rt, "the same", crossing.gave(4, &reply));
}

/// A reply of which these bytes are spoiled, from the first on.
fn spoiled_of(rt: &impl Abort, text: &str, spoiled: &[bool]) -> Pattern {
    let mut reply = reply_of(rt, 9, false, text);
    reply.marks.clear();
    for mark in spoiled {
        assert!(rt; reply.marks.len() < 4);
        reply.marks.push(*mark, 1);
    }
    reply
}

/// A reply at the master's link: what it shows, the bytes of a cut, its own bytes, which are spoiled, and whether the port
/// gave it.
type Cut = (&'static str, usize, &'static str, [bool; 4], bool);

/// The port gave a reply whose first two bytes are spoiled.
static CUTS: [Cut; 8] = [
    (
        "the same",
        2,
        "xx xx 03 04",
        [true, true, false, false],
        true,
    ),
    (
        "less is spoiled",
        2,
        "xx 02 03 04",
        [true, false, false, false],
        true,
    ),
    (
        "another cut is spoiled",
        2,
        "01 02 xx xx",
        [false, false, true, true],
        false,
    ),
    (
        "more is spoiled",
        2,
        "xx xx xx xx",
        [true, true, true, true],
        false,
    ),
    (
        "nothing is",
        2,
        "xx xx 03 04",
        [false, false, false, false],
        false,
    ),
    (
        "another byte",
        2,
        "xx xx 03 05",
        [true, true, false, false],
        false,
    ),
    (
        "one cut is spoiled",
        4,
        "xx xx xx xx",
        [true, true, true, true],
        true,
    ),
    (
        "another byte of it",
        4,
        "xx xx 03 05",
        [true, true, false, false],
        true,
    ),
];

#[test]
fn spoiled_bytes_cross_in_cuts(rt: HostRuntime) {
    let mut crossing = Crossing::waiting();
    let given = spoiled_of(&rt, "xx xx 03 04", &[true, true, false, false]);
    crossing.give(&Answer::blank(), &given);
    for (row, width, text, spoiled, gave) in &CUTS {
        let reply = spoiled_of(&rt, text, spoiled);
        assert!(&rt; 0 < *width && *width <= 64);
        holds(&rt, row, crossing.gave(*width, &reply) == *gave);
    }
}
