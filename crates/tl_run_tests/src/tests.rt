mod audit;
mod beats;
mod memory;
mod ops;
mod program;
mod slots;
mod texts;
mod threads;
mod types;

use std::alloc::Global;
use std::process::Abort;
use tl_map::{SourceOwners, blocks};
use tl_types::{Ask, AskOp, MAX_BYTES};

/// What a row shows, or a step, holds. A call of this is cheaper to prove than an `assert!`, since it has no paths.
fn holds(rt: &impl Abort, row: &str, whether: bool) {
    assert!(rt; whether, "{row}");
}

/// The sources of masters with these counts.
fn sources_of(rt: &impl Abort, alloc: Global, counts: &[u32]) -> SourceOwners {
    let owners = blocks(alloc, counts).expect(rt, "blocks");
    SourceOwners::new(alloc, &owners).expect(rt, "sources")
}

/// A request with these bytes.
fn ask_of(
    rt: &impl Abort,
    op: AskOp,
    size: u8,
    source: u16,
    address: u64,
    given: &[Option<u8>],
) -> Ask {
    Ask::new(op, size, source, address, given).expect(rt, "a request")
}

/// The bytes 00, 01, up to ff.
fn rising() -> [u8; MAX_BYTES] {
    let mut bytes = [0; MAX_BYTES];
    for k in 0..MAX_BYTES {
        bytes[k] = k as u8;
    }
    bytes
}

/// The bytes 00, 01, up to ff of a put, of which a partial one leaves each third unset.
fn given_of(op: AskOp) -> [Option<u8>; MAX_BYTES] {
    let whole = !op.may_leave_unset();
    let mut given = [None; MAX_BYTES];
    for k in 0..MAX_BYTES {
        if whole || k % 3 != 1 {
            given[k] = Some(k as u8);
        }
    }
    given
}
