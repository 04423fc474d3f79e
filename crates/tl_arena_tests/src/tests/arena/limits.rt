//! How many slots, masters and ports an arena may have.
use crate::tests::floor::{BlockSources, RAM, bank_of};
use std::alloc::Global;
use std::process::Abort;
use tl_arena::{Arena, ArenaFault};

/// The fault of an arena of so many slots, of masters with one source each, and of so many ports, if it has one.
fn fault_of(
    rt: &impl Abort,
    alloc: Global,
    slots: usize,
    masters: usize,
    ports: usize,
) -> Option<ArenaFault> {
    let mut banks = Vec::new(alloc);
    for _ in 0..ports {
        banks.push(bank_of(rt, alloc, &RAM)).expect(rt, "memory");
    }
    let counts = Vec::from_elem(alloc, 1u32, masters).expect(rt, "memory");
    let sources = BlockSources::new(rt, alloc, counts.as_slice());
    Arena::new(alloc, slots, sources.owners(), banks.as_slice()).err()
}

/// Slots, masters and ports, and the fault of an arena with so many.
const COUNTS: [(usize, usize, usize, Option<ArenaFault>); 7] = [
    (1, 1, 1, None),
    (256, 16, 16, None),
    (0, 1, 1, Some(ArenaFault::BadCount)),
    (257, 1, 1, Some(ArenaFault::BadCount)),
    (1, 0, 1, Some(ArenaFault::BadCount)),
    (1, 1, 0, Some(ArenaFault::BadCount)),
    (1, 1, 17, Some(ArenaFault::BadCount)),
];

#[test]
fn counts_have_limits(rt: HostRuntime) {
    for (slots, masters, ports, fault) in &COUNTS {
        assert!(rt; fault_of(&rt, rt.alloc(), *slots, *masters, *ports) == *fault);
    }
}
