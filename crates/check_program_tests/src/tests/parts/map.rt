//! The address map of ports with several ranges. `tests/tools/system_faults.py` has ranges with a byte in common.
ghost use Rattle.std.specs.Prelude.{◌↔◌, IsTrue, ◌≡◌, ◌<◌, true, All};
ghost use Rattle.tl_map.specs.Map.{AreRanges, IsLawfulRange, lists_in};
ghost use Rattle.check_program_tests.specs.Port.{IsPort};

use crate::tests::holds;
use std::alloc::Global;
use std::process::Abort;
use tl_map::{AddressMap, AddressMapFault, MAX_JUDGED_PORTS, MAX_RANGES_OF_PORT, Range};
use tl_types::{Ask, AskOp};

fn range(base: u64, length: u64) -> Range {
    Range { base, length }
}

/// Whether a range has a byte, and none past the last address.
fn is_lawful(range: Range) -> bool
    ensures { IsTrue result ↔ IsLawfulRange range }
{
    0 < range.length && range.length - 1 <= u64::MAX - range.base
}

/// Whether a port has lawful ranges, one or more, and not too many.
fn is_port(ranges: &[Range]) -> bool
    ensures { IsTrue result ↔ IsPort ranges.now }
{
    0 < ranges.len()
        && ranges.len() <= MAX_RANGES_OF_PORT
        && ranges.iter().all(|range| is_lawful(*range))
}

/// Whether each port has lawful ranges, one or more, and not too many.
fn are_ports(ports: &[Vec<Range>]) -> bool
    ensures { IsTrue result ↔ All (λ ranges. IsPort ranges.items) ports.now }
{
    ports.iter().all(|ranges| is_port(ranges))
}

/// Whether ports have ranges as the reader of system files leaves them.
fn are_ranges(ports: &[Vec<Range>]) -> bool
    ensures { result ≡ true → AreRanges (lists_in ports.now) }
{
    ports.len() <= MAX_JUDGED_PORTS && are_ports(ports)
}

/// The vectors of these ranges.
fn ports_of(rt: &impl Abort, alloc: Global, rows: &[&[Range]]) -> Vec<Vec<Range>> {
    let mut ports = Vec::new(alloc);
    for row in rows {
        let ranges = Vec::from_slice(alloc, *row).expect(rt, "memory");
        ports.push(ranges).expect(rt, "memory");
    }
    ports
}

/// The map of ports that have ranges as the reader of system files leaves them.
fn made(
    rt: &impl Abort,
    alloc: Global,
    ports: &[Vec<Range>],
) -> Result<AddressMap, AddressMapFault> {
    assert!(rt; are_ranges(ports));
    AddressMap::new(alloc, ports)
}

/// The map of these ranges.
fn map_of(rt: &impl Abort, alloc: Global, rows: &[&[Range]]) -> AddressMap {
    made(rt, alloc, &ports_of(rt, alloc, rows)).expect(rt, "a map")
}

/// A RAM that answers at two places and beside the second of them, a ROM that follows the first, and a device at both
/// ends of the addresses.
static SYSTEM: [&[Range]; 3] = [
    &[
        Range {
            base: 0x1000,
            length: 64,
        },
        Range {
            base: 0x9000,
            length: 64,
        },
        Range {
            base: 0x9040,
            length: 8,
        },
    ],
    &[Range {
        base: 0x1040,
        length: 32,
    }],
    &[
        Range {
            base: 0xffff_ffff_ffff_fff8,
            length: 8,
        },
        Range {
            base: 0,
            length: 16,
        },
    ],
];

/// Addresses and sizes of requests, and the port that each goes to.
static ROUTES: [(u64, u8, usize); 20] = [
    (0x1000, 6, 0),
    (0x1000, 7, 3),
    (0xfff, 0, 3),
    (0x103f, 0, 0),
    // one byte of the RAM, one of the ROM
    (0x103f, 1, 3),
    (0x1040, 5, 1),
    (0x1060, 0, 3),
    (0x9000, 6, 0),
    (0x903f, 0, 0),
    // two ranges of one port are two
    (0x903f, 1, 3),
    (0x9040, 3, 0),
    (0x9048, 0, 3),
    (0, 4, 2),
    (0, 5, 3),
    (16, 0, 3),
    (u64::MAX - 8, 0, 3),
    (u64::MAX - 7, 3, 2),
    (u64::MAX, 0, 2),
    (u64::MAX, 1, 3),
    (u64::MAX - 254, 8, 3),
];

/// A request of this size at this address goes to this port.
fn is_routed(rt: &impl Abort, map: &AddressMap, address: u64, size: u8, wanted: usize) {
    let ask = Ask::new(AskOp::Get, size, 0, address, &[]).expect(rt, "a request");
    holds(rt, "a port", map.route(&ask) == wanted);
}

#[test]
fn bytes_go_to_the_port_one_of_whose_ranges_holds_them_all(rt: HostRuntime) {
    let map = map_of(&rt, rt.alloc(), &SYSTEM);
    holds(&rt, "ports", map.ports() == 4);
    for (address, size, wanted) in &ROUTES {
        is_routed(&rt, &map, *address, *size, *wanted);
    }
}

#[test]
fn a_map_may_have_no_port(rt: HostRuntime) {
    let map = map_of(&rt, rt.alloc(), &[]);
    holds(&rt, "ports", map.ports() == 1);
    holds(&rt, "no port", map.route_bytes(0, 0) == 0);
}

#[test]
fn ports_keep_their_ranges_in_order(rt: HostRuntime) {
    let map = map_of(&rt, rt.alloc(), &SYSTEM);
    for port in 0..3 {
        assert!(rt; port + 1 < map.ports());
        holds(&rt, "ranges", map.ranges(port) == SYSTEM[port]);
    }
}

/// A port's first range: those of later ports stand at lower addresses.
fn low_range(port: u64) -> Range
    requires { port < 255 }
{
    range(4096 * (255 - port), 16 + port)
}

/// The second range of some ports.
fn high_range(port: u64) -> Range
    requires { port < 255 }
{
    range((1 << 32) + 4096 * port, 32)
}

/// The ranges of 255 ports, of which the first 45 have two: 300.
fn many_ranges(rt: &impl Abort, alloc: Global) -> Vec<Vec<Range>> {
    let mut ports = Vec::new(alloc);
    for port in 0..255 {
        let mut ranges = Vec::new(alloc);
        ranges.push(low_range(port)).expect(rt, "memory");
        if port < 45 {
            ranges.push(high_range(port)).expect(rt, "memory");
        }
        ports.push(ranges).expect(rt, "memory");
    }
    ports
}

/// Looks up the first and the last byte of a port's range, and those beside it, which are no port's.
fn look_up(rt: &impl Abort, map: &AddressMap, range: Range, port: u64) {
    assert!(rt;
        0 < range.base && range.base <= 1 << 40 && 0 < range.length && range.length <= 1 << 20
    );
    holds(
        rt,
        "the first byte",
        map.route_bytes(range.base, 0) as u64 == port,
    );
    holds(
        rt,
        "the last byte",
        map.route_bytes(range.base + range.length - 1, 0) as u64 == port,
    );
    holds(rt, "before it", map.route_bytes(range.base - 1, 0) == 255);
    holds(
        rt,
        "after it",
        map.route_bytes(range.base + range.length, 0) == 255,
    );
}

#[test]
fn a_port_is_found_among_255_with_300_ranges(rt: HostRuntime) {
    let ports = many_ranges(&rt, rt.alloc());
    let map = made(&rt, rt.alloc(), &ports).expect(&rt, "a map");
    holds(&rt, "ports", map.ports() == 256);
    for port in 0..255 {
        look_up(&rt, &map, low_range(port), port);
        if port < 45 {
            look_up(&rt, &map, high_range(port), port);
        }
    }
}

#[test]
fn a_port_may_have_sixteen_ranges(rt: HostRuntime) {
    let mut ranges = [range(0, 16); MAX_RANGES_OF_PORT];
    for place in 0..MAX_RANGES_OF_PORT {
        ranges[place].base = 1000 - 32 * place as u64;
    }
    let map = map_of(&rt, rt.alloc(), &[&ranges, &[range(1016, 8)]]);
    for place in 0..MAX_RANGES_OF_PORT as u64 {
        holds(&rt, "a range", map.route_bytes(1000 - 32 * place, 4) == 0);
        holds(
            &rt,
            "between ranges",
            map.route_bytes(999 - 32 * place, 0) == 2,
        );
    }
    holds(&rt, "the next port", map.route_bytes(1016, 3) == 1);
}
