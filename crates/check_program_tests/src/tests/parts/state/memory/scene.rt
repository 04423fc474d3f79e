//! What the scenes of the tests share: memories, and requests that are served.
ghost use Rattle.std.specs.Prelude.{◌+◌, ◌^◌, ◌≤◌, length};

use crate::tests::holds;
use crate::tests::parts::state::{bytes_of, expect_cells};
use check_memory::{PartialMemory, Pattern, Sizes, are_within};
use std::alloc::Global;
use std::process::Abort;
use tl_map::Range;
use tl_ops::Kind;
use tl_types::{Ask, AskOp};

/// A request from source 0.
pub fn ask_of(rt: &impl Abort, op: AskOp, size: u8, address: u64, text: &str) -> Ask {
    let bytes = bytes_of(rt, text);
    Ask::new(op, size, 0, address, &bytes).expect(rt, "a request")
}

/// A memory in these ranges, that nothing has written.
pub fn memory_of(
    rt: &impl Abort,
    alloc: Global,
    kind: Kind,
    sizes: Sizes,
    ranges: &[Range],
    known: bool,
) -> PartialMemory {
    let mut kept = Vec::new(alloc);
    for range in ranges {
        kept.push(*range).expect(rt, "memory refused");
    }
    assert!(rt; are_within(&kept));
    PartialMemory::new(
        alloc,
        kind,
        sizes,
        kept,
        Vec::new(alloc),
        Vec::new(alloc),
        known,
    )
}

/// A request's operation, size, address and bytes; whether its reply is denied, and the bytes that it has to have.
pub type Turn = (AskOp, u8, u64, &'static str, bool, &'static str);

/// A memory serves one request.
fn serve(rt: &impl Abort, alloc: Global, row: &str, memory: &mut PartialMemory, turn: &Turn) {
    let (op, size, address, given, denied, read) = *turn;
    let ask = ask_of(rt, op, size, address, given);
    let mut early = Pattern::blank();
    memory.answer(&ask, &mut early);
    let mut answer = Pattern::blank();
    memory
        .serve_into(alloc, &ask, &mut answer)
        .expect(rt, "memory refused");
    holds(rt, row, answer.op() == op.reply_op());
    holds(rt, row, answer.size() == size);
    holds(rt, row, answer.source() == 0);
    let bytes = bytes_of(rt, read);
    expect_reply(rt, row, &answer, denied, &bytes);
    expect_reply(rt, row, &early, denied, &bytes);
}

/// A reply has this flag and these bytes.
fn expect_reply(rt: &impl Abort, row: &str, reply: &Pattern, denied: bool, bytes: &[Option<u8>]) {
    holds(rt, row, reply.denied() == Some(denied));
    expect_cells(rt, row, reply.cells(), bytes);
}

/// Bytes are loaded from an address on.
pub fn load(rt: &impl Abort, alloc: Global, memory: &mut PartialMemory, address: u64, bytes: &[u8])
    requires { address + length bytes.now ≤ 2 ^ 64 }
{
    let loaded = memory.load(alloc, address, bytes);
    holds(rt, "memory is granted", loaded.is_ok());
}

/// A memory serves one request after the other.
pub fn serve_all(
    rt: &impl Abort,
    alloc: Global,
    row: &str,
    memory: &mut PartialMemory,
    turns: &[Turn],
) {
    for turn in turns {
        serve(rt, alloc, row, memory, turn);
    }
}
