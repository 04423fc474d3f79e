//! An arena with two ports, and what its masters and ports are handed.
ghost use Rattle.std.specs.Prelude.{◌≡◌, ◌+◌, ◌≤◌, All, length, slice_get};
ghost use Rattle.std.specs.Prelude as std;
ghost use Rattle.tl_map.specs.Blocks.{HaveBlocks};
ghost use Rattle.tl_arena.specs.Views.{about_of, new_master, new_port};
ghost use Rattle.tl_arena.specs.Promises.{memory_of};

use super::stage::Setting;
use std::alloc::Global;
use std::marker::Model;
use std::process::Abort;
use tl_arena::{Arena, Made, MasterSeat, PortSeat};
use tl_map::{AddressMap, Range, SourceOwners, blocks};
use tl_ops::{Bank, Kind};

/// The first address of each memory: a port knows nothing of the map.
pub(super) const BASE: u64 = 0x1000;

/// All that the map gives to the first port. What lies elsewhere goes to the second, as to an error port.
const RANGE: Range = Range {
    base: BASE,
    length: 64,
};

/// What stands at a port.
#[derive(Clone, Copy)]
pub(super) struct Memory {
    kind: Kind,
    base: u64,
    bytes: &'static [u8],
}

/// 64 zero bytes.
pub(super) const RAM: Memory = Memory {
    kind: Kind::Ram,
    base: BASE,
    bytes: &[0; 64],
};

/// The error port has no memory.
pub(super) const NO_DEVICE: Memory = Memory {
    kind: Kind::NoDevice,
    base: 0,
    bytes: &[],
};

/// 16 bytes, which hold the number of their port.
pub(super) const RAM_OF_ZEROS: Memory = Memory {
    kind: Kind::Ram,
    base: BASE,
    bytes: &[0; 16],
};

pub(super) const RAM_OF_ONES: Memory = Memory {
    kind: Kind::Ram,
    base: BASE,
    bytes: &[1; 16],
};

/// The seats of both ports, and what stands there.
#[derive(Drop)]
pub(super) struct Ports {
    pub(super) near: PortSeat,
    pub(super) near_bank: Bank,
    pub(super) far: PortSeat,
    pub(super) far_bank: Bank,
    ghost new_near: { near ≡ new_port near.arena 0 },
    ghost new_far: { far ≡ new_port near.arena 1 },
    ghost near_memory: { near_bank ≡ memory_of near },
    ghost far_memory: { far_bank ≡ memory_of far },
}

/// The sources of masters, each of which has a block.
#[derive(Drop)]
pub(in crate::tests) struct BlockSources {
    sources: SourceOwners,
}

impl Model for BlockSources {
    ghost use Rattle.std.specs.Prelude.{List};
    ghost use Rattle.tl_map.specs.Blocks.{HaveBlocks};
    ghost use Rattle.tl_map.specs.declared.owners.Owner.{Owner};

    ghost Value = { List Owner };

    ghost view = { λ s. s.sources };

    ghost invariant = { λ s. HaveBlocks s.sources };
}

impl BlockSources {
    /// The sources of masters with these counts.
    pub(in crate::tests) fn new(rt: &impl Abort, alloc: Global, counts: &[u32]) -> BlockSources {
        let Ok(owners) = blocks(alloc, counts) else {
            panic!(rt; "no blocks");
        };
        let Ok(sources) = SourceOwners::new(alloc, &owners) else {
            panic!(rt; "no sources");
        };
        BlockSources { sources }
    }

    /// The same as sources of any kind.
    pub(in crate::tests) fn owners(&self) -> &SourceOwners
        ensures same { result.now ≡ self.now }
        ensures blocks { HaveBlocks result.now }
    {
        &self.sources
    }
}

/// An arena with its map, its sources and its seats.
#[derive(Drop)]
pub(super) struct Floor {
    pub(super) arena: Arena,
    pub(super) map: AddressMap,
    pub(super) sources: BlockSources,
    pub(super) masters: Vec<MasterSeat>,
    pub(super) ports: Ports,
    ghost routes: { length map + 1 ≤ arena.about.ports },
    ghost owners: { sources ≡ arena.about.owners },
    ghost new_masters: { All (λ v. v ≡ new_master arena v.number) masters.items },
    ghost here: { ports.near.arena ≡ arena },
}

/// The bank of a memory.
pub(super) fn bank_of(rt: &impl Abort, alloc: Global, memory: &Memory) -> Bank
    ensures { result ≡ record {
      kind = memory.now.kind;
      base = memory.now.base;
      bytes = memory.now.bytes.now;
    } }
{
    Bank::new(alloc, memory.kind, memory.base, memory.bytes).expect(rt, "a bank")
}

/// The first and the second of some seats.
fn two(rt: &impl Abort, seats: Vec<PortSeat>) -> (PortSeat, PortSeat)
    ensures first { slice_get seats.items 0 ≡ std.Some result.0 }
    ensures second { slice_get seats.items 1 ≡ std.Some result.1 }
{
    let mut seats = seats.into_iter();
    let first = seats.next().expect(rt, "no seat");
    let second = seats.next().expect(rt, "no second seat");
    (first, second)
}

/// An arena of these sources with two ports, and all its seats.
fn seats(
    rt: &impl Abort,
    alloc: Global,
    slots: usize,
    sources: &SourceOwners,
    banks: &[Bank; 2],
) -> (Arena, Vec<MasterSeat>, PortSeat, PortSeat)
    ensures about { result.0.about ≡ about_of slots sources.now banks.now }
    ensures masters { All (λ v. v ≡ new_master result.0 v.number) result.1.items }
    ensures near { result.2 ≡ new_port result.0 0 }
    ensures far { result.3 ≡ new_port result.0 1 }
{
    let Ok(
        Made {
            arena,
            masters,
            ports,
        },
    ) = Arena::new(alloc, slots, sources, banks)
    else {
        panic!(rt; "no arena");
    };
    let (near, far) = two(rt, ports);
    (arena, masters, near, far)
}

/// The map of a port with one range, and of the error port.
fn map_of(rt: &impl Abort, alloc: Global) -> AddressMap
    ensures { length result ≡ 1 }
{
    let ports = [Vec::from_slice(alloc, &[RANGE]).expect(rt, "memory")];
    AddressMap::new(alloc, &ports).expect(rt, "a map")
}

/// The arena of a setting. Its ports get banks of their own, like those that it was made of.
pub(super) fn open_floor(rt: &impl Abort, alloc: Global, setting: &Setting) -> Floor {
    let sources = BlockSources::new(rt, alloc, setting.sources);
    let map = map_of(rt, alloc);
    let banks = [
        bank_of(rt, alloc, &setting.near),
        bank_of(rt, alloc, &setting.far),
    ];
    let (arena, masters, near, far) = seats(rt, alloc, setting.slots, sources.owners(), &banks);
    let ports = Ports {
        near,
        near_bank: bank_of(rt, alloc, &setting.near),
        far,
        far_bank: bank_of(rt, alloc, &setting.far),
    };
    Floor {
        arena,
        map,
        sources,
        masters,
        ports,
    }
}
