//! The sources of masters.
use crate::tests::holds;
use std::alloc::Global;
use std::process::Abort;
use tl_map::{Owner, SourceOwnerFault, SourceOwners, blocks};

fn owner(first: u16, count: u32, stride: u16) -> Owner {
    Owner {
        first,
        count,
        stride,
    }
}

/// The host's number stands in the low two bits of the source.
const HOSTS: [Owner; 3] = [
    Owner {
        first: 0,
        count: 4,
        stride: 4,
    },
    Owner {
        first: 1,
        count: 2,
        stride: 4,
    },
    Owner {
        first: 2,
        count: 3,
        stride: 4,
    },
];

/// Clients with blocks at any place, the last one far away.
const CLIENTS: [Owner; 3] = [
    Owner {
        first: 64,
        count: 16,
        stride: 1,
    },
    Owner {
        first: 0,
        count: 1,
        stride: 1,
    },
    Owner {
        first: 65_535,
        count: 1,
        stride: 9,
    },
];

/// Owners, a master with a source of its own, and the wide source.
static WIDENED: [(&[Owner], usize, u16, u16); 8] = [
    (&HOSTS, 0, 3, 12),
    (&HOSTS, 1, 0, 1),
    (&HOSTS, 1, 1, 5),
    (&HOSTS, 2, 2, 10),
    (&CLIENTS, 0, 0, 64),
    (&CLIENTS, 0, 15, 79),
    (&CLIENTS, 1, 0, 0),
    (&CLIENTS, 2, 0, 65_535),
];

/// A master's source is this wide one, and this is its owner.
fn is_widened(rt: &impl Abort, sources: &SourceOwners, master: usize, source: u16, wide: u16) {
    holds(rt, "widened", sources.widen(master, source) == Some(wide));
    holds(
        rt,
        "its owner",
        sources.owner(wide) == Some((master, source)),
    );
    holds(rt, "owned", sources.is_owned(wide));
}

/// The sources of these owners.
fn sources_of(rt: &impl Abort, alloc: Global, owners: &[Owner]) -> SourceOwners {
    SourceOwners::new(alloc, owners).expect(rt, "sources")
}

#[test]
fn sources_are_widened_and_owned(rt: HostRuntime) {
    for (owners, master, source, wide) in &WIDENED {
        let sources = sources_of(&rt, rt.alloc(), owners);
        is_widened(&rt, &sources, *master, *source, *wide);
    }
}

/// A wide source has no owner.
fn is_nobodys(rt: &impl Abort, sources: &SourceOwners, wide: u16) {
    holds(rt, "no owner", sources.owner(wide) == None);
    holds(rt, "not owned", !sources.is_owned(wide));
}

#[test]
fn other_sources_are_nobodys(rt: HostRuntime) {
    let hosts = sources_of(&rt, rt.alloc(), &HOSTS);
    for (master, source) in [(0, 4), (1, 2), (2, 3), (3, 0)] {
        holds(&rt, "no source", hosts.widen(master, source) == None);
    }
    for wide in [3, 7, 9, 13, 14, 65_535] {
        is_nobodys(&rt, &hosts, wide);
    }
}

#[test]
fn masters_and_wide_sources_are_counted(rt: HostRuntime) {
    let hosts = sources_of(&rt, rt.alloc(), &HOSTS);
    holds(&rt, "masters", hosts.masters() == 3);
    holds(&rt, "an owner", hosts.at(1) == Some(owner(1, 2, 4)));
    holds(&rt, "no owner", hosts.at(3) == None);
    holds(&rt, "sources", hosts.wides() == 13);
    holds(
        &rt,
        "sources",
        sources_of(&rt, rt.alloc(), &CLIENTS).wides() == 65_536,
    );
}

/// The first source, the count and the stride of a master.
type Block = (u16, u32, u16);

const TOO_MANY: Option<SourceOwnerFault> = Some(SourceOwnerFault::TooMany);

static FAULTS: [(&[Block], Option<SourceOwnerFault>); 12] = [
    (&[(0, 65_536, 1)], None),
    (&[(1, 65_535, 1), (0, 1, 1)], None),
    (&[(1, 65_536, 1)], TOO_MANY),
    (&[(0, 65_537, 1)], TOO_MANY),
    (&[(0, 0, 1)], TOO_MANY),
    (&[(0, 1, 0)], TOO_MANY),
    (&[(65_535, 2, 1)], TOO_MANY),
    // what is tried over all masters comes first
    (&[(3, 1, 1), (3, 1, 1), (0, 0, 1)], TOO_MANY),
    (
        &[(3, 1, 1), (0, 8, 1)],
        Some(SourceOwnerFault::Shared(0, 1, 3)),
    ),
    // the later master's sources are tried in their order
    (
        &[(6, 1, 1), (3, 1, 1), (0, 8, 3)],
        Some(SourceOwnerFault::Shared(1, 2, 3)),
    ),
    // and the masters in theirs
    (
        &[(0, 2, 1), (4, 1, 1), (1, 1, 1), (4, 1, 1)],
        Some(SourceOwnerFault::Shared(0, 2, 1)),
    ),
    (&[(0, 2, 4), (2, 2, 4), (1, 4, 2)], None),
];

/// The fault of masters with these blocks.
fn fault_of(rt: &impl Abort, alloc: Global, blocks: &[Block]) -> Option<SourceOwnerFault> {
    let mut owners = Vec::new(alloc);
    for (first, count, stride) in blocks {
        let owner = owner(*first, *count, *stride);
        owners.push(owner).expect(rt, "memory");
    }
    SourceOwners::new(alloc, &owners).err()
}

#[test]
fn owners_have_a_first_fault(rt: HostRuntime) {
    for (blocks, wanted) in &FAULTS {
        holds(&rt, "a fault", fault_of(&rt, rt.alloc(), blocks) == *wanted);
    }
}

/// This many masters of 16 sources, one after the other.
fn in_a_row(rt: &impl Abort, alloc: Global, masters: u16) -> Vec<Owner> {
    let mut owners = Vec::new(alloc);
    for master in 0..masters {
        let first = master.saturating_mul(16);
        owners.push(owner(first, 16, 1)).expect(rt, "memory");
    }
    owners
}

#[test]
fn sixty_four_masters_and_no_more(rt: HostRuntime) {
    let sources = sources_of(&rt, rt.alloc(), &in_a_row(&rt, rt.alloc(), 64));
    holds(&rt, "widened", sources.widen(63, 15) == Some(1023));
    holds(&rt, "its owner", sources.owner(1008) == Some((63, 0)));
    holds(&rt, "sources", sources.wides() == 1024);
    let owners = in_a_row(&rt, rt.alloc(), 65);
    holds(
        &rt,
        "too many",
        SourceOwners::new(rt.alloc(), &owners).err() == TOO_MANY,
    );
}

/// Counts of sources, the number of a master, and its block, if it has one.
static BLOCKS: [(&[u32], usize, Option<Owner>); 6] = [
    (
        &[3, 5, 1, 256],
        0,
        Some(Owner {
            first: 0,
            count: 3,
            stride: 1,
        }),
    ),
    (
        &[3, 5, 1, 256],
        1,
        Some(Owner {
            first: 8,
            count: 5,
            stride: 1,
        }),
    ),
    (
        &[3, 5, 1, 256],
        2,
        Some(Owner {
            first: 16,
            count: 1,
            stride: 1,
        }),
    ),
    (
        &[3, 5, 1, 256],
        3,
        Some(Owner {
            first: 256,
            count: 256,
            stride: 1,
        }),
    ),
    (&[3, 5, 1, 256], 4, None),
    (
        &[256; 64],
        63,
        Some(Owner {
            first: 16_128,
            count: 256,
            stride: 1,
        }),
    ),
];

/// The owner of a master that says only how many sources it has.
fn block(rt: &impl Abort, alloc: Global, counts: &[u32], master: usize) -> Option<Owner> {
    let owners = blocks(alloc, counts).expect(rt, "owners");
    owners.get(master).copied()
}

#[test]
fn counts_alone_make_blocks(rt: HostRuntime) {
    for (counts, master, wanted) in &BLOCKS {
        holds(
            &rt,
            "a block",
            block(&rt, rt.alloc(), counts, *master) == *wanted,
        );
    }
}

static REFUSED: [&[u32]; 4] = [&[0], &[257], &[1, 0], &[1; 65]];

#[test]
fn other_counts_make_no_blocks(rt: HostRuntime) {
    for counts in &REFUSED {
        holds(
            &rt,
            "too many",
            blocks(rt.alloc(), counts).err() == TOO_MANY,
        );
    }
}
