//! What is left if memory is refused. These tests hold whether their requests for memory are granted or not, so that
//! each request may be refused in turn (`rt try --test --fail-alloc N`).
use super::scene::ask_of;
use crate::tests::holds;
use crate::tests::parts::state::expect_text;
use check_memory::{PartialMemory, Pattern, Sizes, are_within};
use std::alloc::{AllocError, Global};
use std::process::Abort;
use tl_map::Range;
use tl_ops::Kind;
use tl_types::AskOp;

/// A RAM of 64 KiB, of which nothing is known.
fn ram(rt: &impl Abort, alloc: Global) -> Result<PartialMemory, AllocError> {
    let mut ranges = Vec::new(alloc);
    ranges.push(Range {
        base: 0,
        length: 0x1_0000,
    })?;
    assert!(rt; are_within(&ranges));
    let (sizes, alone) = (Sizes::of(Kind::Ram), Vec::new(alloc));
    let volatile = Vec::new(alloc);
    Ok(PartialMemory::new(alloc, Kind::Ram, sizes, ranges, alone, volatile, false))
}

/// These bytes stand at an address.
fn expect_there(rt: &impl Abort, memory: &PartialMemory, address: u64, text: &str) {
    let mut answer = Pattern::blank();
    memory.answer(&ask_of(rt, AskOp::Get, 1, address, ""), &mut answer);
    expect_text(rt, "what stands there", answer.cells(), text);
}

/// A put in a page of its own leaves its bytes, or where memory is refused all as it was.
fn try_put(rt: &impl Abort, alloc: Global, memory: &mut PartialMemory, address: u64) {
    let pages = memory.pages();
    let mut answer = Pattern::blank();
    memory.answer(&ask_of(rt, AskOp::Get, 1, address, ""), &mut answer);
    let put = ask_of(rt, AskOp::PutFull, 1, address, "11 22");
    // what is told, and what stands there
    let (told, there) = match memory.serve_into(alloc, &put, &mut answer) {
        Ok(()) => ("", "11 22"),
        Err(_) => {
            holds(rt, "pages", memory.pages() == pages);
            ("xx xx", "xx xx")
        }
    };
    expect_text(rt, "what is told", answer.cells(), told);
    expect_there(rt, memory, address, there);
}

#[test]
fn a_page_is_made_or_nothing_is_changed(rt: HostRuntime) {
    if let Ok(mut memory) = ram(&rt, rt.alloc()) {
        for k in 0..8 {
            try_put(&rt, rt.alloc(), &mut memory, 0x1000 * (7 - k));
        }
    }
}

#[test]
fn a_front_of_an_image_is_loaded(rt: HostRuntime) {
    if let Ok(mut memory) = ram(&rt, rt.alloc()) {
        match memory.load(rt.alloc(), 0x0fff, &[1, 2]) {
            Ok(()) => expect_there(&rt, &memory, 0x1000, "02 xx"),
            Err(_) => expect_there(&rt, &memory, 0x1000, "xx xx"),
        }
    }
}
