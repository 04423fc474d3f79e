//! Messages, and the numbers that stand for operations on the wire.
use super::holds;
use tl_types::{
    Arith, Ask, AskFault, AskOp, Hint, Logic, OpFault, Reply, ReplyFault, ReplyOp, opcode, param,
    read_op, read_reply_op, reply_opcode,
};

/// Requests: the operation, size and bytes, and the first fault.
const ASKS: [(&str, AskOp, u8, &[Option<u8>], Option<AskFault>); 5] = [
    (
        "too large",
        AskOp::PutFull,
        9,
        &[None; 2],
        Some(AskFault::TooLarge),
    ),
    (
        "too many bytes",
        AskOp::PutFull,
        0,
        &[None; 2],
        Some(AskFault::WrongCount),
    ),
    (
        "a hole in a full put",
        AskOp::PutFull,
        1,
        &[None; 2],
        Some(AskFault::HoleInFull),
    ),
    (
        "holes in a partial put",
        AskOp::PutPartial,
        1,
        &[None; 2],
        None,
    ),
    (
        "holes in the longest put",
        AskOp::PutPartial,
        8,
        &[None; 256],
        None,
    ),
];

#[test]
fn requests_are_refused_by_their_first_fault(rt: HostRuntime) {
    for (row, op, size, bytes, fault) in ASKS {
        holds(&rt, row, Ask::new(op, size, 0, 0, bytes).err() == fault);
    }
}

/// Replies with data: the size, whether it is denied, the bytes, and the first fault.
const REPLIES: [(&str, u8, bool, &[u8], Option<ReplyFault>); 5] = [
    ("too large", 9, true, &[0, 1], Some(ReplyFault::TooLarge)),
    (
        "too many bytes",
        0,
        true,
        &[0, 1],
        Some(ReplyFault::WrongCount),
    ),
    (
        "a denied reply with a byte",
        1,
        true,
        &[0, 1],
        Some(ReplyFault::DirtyDenied),
    ),
    ("a reply with bytes", 1, false, &[0, 1], None),
    ("a denied reply", 8, true, &[0; 256], None),
];

#[test]
fn replies_are_refused_by_their_first_fault(rt: HostRuntime) {
    for (row, size, denied, bytes, fault) in REPLIES {
        let made = Reply::new(ReplyOp::AccessAckData, size, 0, denied, bytes);
        holds(&rt, row, made.err() == fault);
    }
}

#[test]
fn a_requests_copy_differs_in_the_source_alone(rt: HostRuntime) {
    let ask = Ask::new(AskOp::PutPartial, 1, 3, 0x1000, &[Some(7), None])
        .expect(&rt, "a request")
        .with_source(12);
    holds(&rt, "its operation", ask.op() == AskOp::PutPartial);
    holds(&rt, "its size", ask.size() == 1);
    holds(&rt, "its source", ask.source() == 12);
    holds(&rt, "its address", ask.address() == 0x1000);
    let again = ask.copy();
    assert!(rt; again.bytes().len() == 2);
    holds(&rt, "its first byte", again.bytes().get(0) == Some(7));
    holds(&rt, "its second byte", again.bytes().get(1) == None);
}

#[test]
fn a_replys_copy_differs_in_the_source_alone(rt: HostRuntime) {
    let reply = Reply::new(ReplyOp::AccessAckData, 0, 12, false, &[7])
        .expect(&rt, "a reply")
        .with_source(3);
    holds(&rt, "its operation", reply.op() == ReplyOp::AccessAckData);
    holds(&rt, "its size", reply.size() == 0);
    holds(&rt, "its source", reply.source() == 3);
    holds(&rt, "whether it is denied", !reply.denied());
    holds(&rt, "its byte", reply.copy().bytes() == [7].as_slice());
}

/// The table of channel A: each operation with its opcode and parameter.
const OPERATIONS: [(&str, AskOp, u8, u8); 14] = [
    ("putfull", AskOp::PutFull, 0, 0),
    ("putpart", AskOp::PutPartial, 1, 0),
    ("min", AskOp::Arithmetic(Arith::Min), 2, 0),
    ("max", AskOp::Arithmetic(Arith::Max), 2, 1),
    ("minu", AskOp::Arithmetic(Arith::MinU), 2, 2),
    ("maxu", AskOp::Arithmetic(Arith::MaxU), 2, 3),
    ("add", AskOp::Arithmetic(Arith::Add), 2, 4),
    ("xor", AskOp::Logical(Logic::Xor), 3, 0),
    ("or", AskOp::Logical(Logic::Or), 3, 1),
    ("and", AskOp::Logical(Logic::And), 3, 2),
    ("swap", AskOp::Logical(Logic::Swap), 3, 3),
    ("get", AskOp::Get, 4, 0),
    ("prefetchr", AskOp::Intent(Hint::PrefetchRead), 5, 0),
    ("prefetchw", AskOp::Intent(Hint::PrefetchWrite), 5, 1),
];

#[test]
fn opcodes_are_those_of_the_standard(rt: HostRuntime) {
    for (row, op, number, parameter) in OPERATIONS {
        holds(&rt, row, opcode(&op) == number);
        holds(&rt, row, param(&op) == parameter);
        holds(&rt, row, read_op(number, parameter) == Ok(op));
    }
}

/// Numbers that mean no operation.
const NO_OPERATIONS: [(&str, u8, u8, OpFault); 4] = [
    ("acquire", 6, 0, OpFault::Cached),
    ("acquire with a parameter", 7, 9, OpFault::Cached),
    ("no opcode", 9, 0, OpFault::UnknownOpcode),
    ("a get with a parameter", 4, 1, OpFault::UnknownParam),
];

#[test]
fn other_numbers_are_refused(rt: HostRuntime) {
    for (row, number, parameter, fault) in NO_OPERATIONS {
        holds(&rt, row, read_op(number, parameter) == Err(fault));
    }
}

const REPLY_OPERATIONS: [(&str, ReplyOp, u8); 3] = [
    ("an ack", ReplyOp::AccessAck, 0),
    ("an ack with data", ReplyOp::AccessAckData, 1),
    ("a hint's ack", ReplyOp::HintAck, 2),
];

#[test]
fn replies_have_numbers(rt: HostRuntime) {
    for (row, op, number) in REPLY_OPERATIONS {
        holds(&rt, row, reply_opcode(op) == number);
        holds(&rt, row, read_reply_op(number) == Ok(op));
    }
    holds(
        &rt,
        "no opcode",
        read_reply_op(3) == Err(OpFault::UnknownOpcode),
    );
}
