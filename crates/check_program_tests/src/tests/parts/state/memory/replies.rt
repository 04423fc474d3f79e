//! Captured replies that fit what is expected, and replies that do not.
use super::scene::{ask_of, memory_of};
use crate::tests::holds;
use crate::tests::parts::state::bytes_of;
use check_memory::{Pattern, Sizes, Slave};
use std::alloc::Global;
use std::process::Abort;
use tl_map::Range;
use tl_ops::Kind;
use tl_types::{AskOp, ReplyOp};

const DATA: ReplyOp = ReplyOp::AccessAckData;

/// A reply of size 2 from source 0 with these bytes.
fn data_of(rt: &impl Abort, text: &str) -> Pattern {
    let bytes = bytes_of(rt, text);
    let mut reply = Pattern::blank();
    reply.refill(DATA, 2, 0, false, &bytes);
    reply
}

/// What is expected, what was captured, and whether it fits.
static BYTES: [(&str, &str, bool); 12] = [
    ("11 22", "11 22", true),
    ("11 xx", "11 22", true),
    ("11 xx", "11 xx", true),
    ("xx xx", "33 xx", true),
    ("11 xx", "xx 22", false),
    ("11 xx", "12 22", false),
    ("11 22", "11 22 33", false),
    ("11 22 33", "11 22", false),
    (
        "00 01 02 03 04 05 06 07 08 09 0a 0b",
        "00 01 02 03 04 05 06 07 08 09 0a 0b",
        true,
    ),
    (
        "00 01 02 03 04 05 06 07 08 09 0a 0b",
        "00 01 02 03 04 05 06 07 08 09 0a 0c",
        false,
    ),
    (
        "00 01 02 03 04 05 06 07 08 09 0a 0b 0c 0d 0e 0f",
        "00 01 02 03 04 05 06 07 08 09 0a 0b 0c 0d 0e 00",
        false,
    ),
    (
        "00 01 02 03 xx 05 06 07 08 09 0a 0b 0c 0d 0e 0f",
        "00 01 02 03 99 05 06 07 08 09 0a 0b 0c 0d 0e 0f",
        true,
    ),
];

fn try_bytes(rt: &impl Abort, rows: &[(&str, &str, bool)]) {
    for (expected, captured, fits) in rows {
        let told = data_of(rt, expected).fits(&data_of(rt, captured));
        holds(rt, captured, told == *fits);
    }
}

#[test]
fn known_bytes_have_to_be_captured(rt: HostRuntime) {
    try_bytes(&rt, &BYTES);
}

/// A captured reply: its opcode, size, source, denied flag and bytes.
type Reply = (ReplyOp, u8, u16, bool, &'static str);

/// Whether a captured reply fits what is expected.
fn fits(rt: &impl Abort, expected: &Pattern, reply: &Reply) -> bool {
    let (op, size, source, denied, text) = *reply;
    let bytes = bytes_of(rt, text);
    let mut captured = Pattern::blank();
    captured.refill(op, size, source, denied, &bytes);
    expected.fits(&captured)
}

/// Each of these replies fits, or not.
fn try_replies(rt: &impl Abort, expected: &Pattern, replies: &[(Reply, bool)]) {
    for (reply, whether) in replies {
        holds(rt, reply.4, fits(rt, expected, reply) == *whether);
    }
}

/// A request of four bytes: its operation, address and bytes; and replies that fit what is expected to it, or do not.
type Asked = (AskOp, u64, &'static str, &'static [(Reply, bool)]);

/// A slave serves the first request, and is then asked what it expects to the second one.
fn try_slave(rt: &impl Abort, alloc: Global, slave: &mut Slave, served: &Asked, asked: &Asked) {
    let mut expected = Pattern::blank();
    let (op, address, text, replies) = *served;
    slave
        .serve_into(alloc, &ask_of(rt, op, 2, address, text), &mut expected)
        .expect(rt, "memory refused");
    try_replies(rt, &expected, replies);
    let (op, address, text, replies) = *asked;
    slave.answer(&ask_of(rt, op, 2, address, text), &mut expected);
    try_replies(rt, &expected, replies);
}

/// Where zeros are expected since the request is denied.
const TO_DENIED: [(Reply, bool); 6] = [
    ((DATA, 2, 0, true, "00 00 00 00"), true),
    ((DATA, 2, 0, true, "xx 11 xx 22"), true),
    ((DATA, 2, 0, true, "00 00 00"), false),
    ((DATA, 2, 0, false, "00 00 00 00"), false),
    ((DATA, 2, 1, true, "00 00 00 00"), false),
    ((ReplyOp::AccessAck, 2, 0, true, ""), false),
];

/// Where nothing of four bytes is known.
const TO_UNKNOWN: [(Reply, bool); 6] = [
    ((DATA, 2, 0, false, "11 xx 33 44"), true),
    ((DATA, 2, 0, true, "00 00 00 00"), false),
    ((DATA, 3, 0, false, "11 xx 33 44"), false),
    ((DATA, 2, 7, false, "11 xx 33 44"), false),
    ((ReplyOp::HintAck, 2, 0, false, "11 xx 33 44"), false),
    ((DATA, 2, 0, false, "11 xx 33"), false),
];

/// Where a device is to answer a get of four bytes.
const TO_DEVICE: [(Reply, bool); 8] = [
    ((DATA, 2, 0, false, "11 xx 33 44"), true),
    ((DATA, 2, 0, false, "xx xx xx xx"), true),
    ((DATA, 2, 0, true, "11 xx 33 44"), true),
    ((DATA, 2, 0, false, "11 22 33"), false),
    ((DATA, 2, 0, true, ""), false),
    ((DATA, 1, 0, false, "11 22 33 44"), false),
    ((DATA, 2, 3, false, "11 22 33 44"), false),
    ((ReplyOp::AccessAck, 2, 0, false, "11 22 33 44"), false),
];

/// Where a device is to answer a put.
const TO_PUT: [(Reply, bool); 3] = [
    ((ReplyOp::AccessAck, 2, 0, false, ""), true),
    ((ReplyOp::AccessAck, 2, 0, true, ""), true),
    ((ReplyOp::AccessAck, 2, 0, true, "00"), false),
];

/// A get that is not aligned, and one of which nothing is known.
static DENIED: Asked = (AskOp::Get, 2, "", &TO_DENIED);

static UNKNOWN: Asked = (AskOp::Get, 4, "", &TO_UNKNOWN);

#[test]
fn replies_fit_what_is_expected(rt: HostRuntime) {
    let range = Range {
        base: 0,
        length: 16,
    };
    let sizes = Sizes::of(Kind::Ram);
    let memory = memory_of(&rt, rt.alloc(), Kind::Ram, sizes, &[range], false);
    let mut slave = Slave::Memory(memory);
    try_slave(&rt, rt.alloc(), &mut slave, &DENIED, &UNKNOWN);
}

static PUT: Asked = (AskOp::PutFull, 4, "11 22 33 44", &TO_PUT);

static GET: Asked = (AskOp::Get, 5, "", &TO_DEVICE);

#[test]
fn a_device_answers_what_it_likes(rt: HostRuntime) {
    let mut slave = Slave::Device;
    try_slave(&rt, rt.alloc(), &mut slave, &PUT, &GET);
}
