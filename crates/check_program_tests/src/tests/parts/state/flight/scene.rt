//! What the scenes of the tests share: slaves, requests that cross, and replies that are expected.
use crate::tests::holds;
use crate::tests::parts::state::expect_text;
use check_beats::{AskHead, Bus, LinkRules};
use check_flight::{FlightPlace, Order, PortSlave, Side};
use check_memory::{PartialMemory, Sizes, Slave, are_within};
use std::alloc::{AllocError, Global};
use std::process::Abort;
use tl_map::Range;
use tl_ops::Kind;

/// A RAM of 4 KiB from address 0x1000 on, of which nothing is known.
pub fn ram(rt: &impl Abort, alloc: Global, order: Order) -> Result<PortSlave, AllocError> {
    let mut ranges = Vec::new(alloc);
    ranges.push(Range {
        base: 0x1000,
        length: 0x1000,
    })?;
    assert!(rt; are_within(&ranges));
    let (sizes, alone) = (Sizes::of(Kind::Ram), Vec::new(alloc));
    let volatile = Vec::new(alloc);
    let memory = PartialMemory::new(alloc, Kind::Ram, sizes, ranges, alone, volatile, false);
    Ok(PortSlave::new(alloc, Slave::Memory(memory), order, true))
}

/// A side with one link of four bytes, and with eight wide sources.
pub fn side_of_four(alloc: Global) -> Result<Side, AllocError> {
    Side::new(alloc, &[Bus::Four], 8)
}

/// The place of a wide source's request at link 0, to port 2.
fn place_of(wide: usize) -> FlightPlace {
    FlightPlace {
        link: 0,
        wide,
        port: 2,
    }
}

/// A beat of a request that sets all lanes.
pub fn head_of(opcode: u8, size: u8, source: u16, address: u64) -> AskHead {
    AskHead {
        opcode,
        param: 0,
        size,
        source,
        address,
        mask: 0xf,
        corrupt: false,
    }
}

/// The only beat of a request crosses at link 0, all lanes known, and the slave accepts the request.
pub fn cross(
    rt: &impl Abort,
    alloc: Global,
    side: &mut Side,
    slave: &mut PortSlave,
    beat: &AskHead,
    lanes: &[u8; 4],
) -> Result<(), AllocError> {
    let place = place_of(beat.source as usize);
    assert!(rt; place.link < side.links());
    assert!(rt; place.wide < side.wides());
    let under = side.link(place.link);
    let rules = LinkRules::default();
    assert!(rt; under.ask_fault(rules, beat, 0xf).is_none());
    assert!(rt; under.bus().bytes() <= lanes.len());
    assert!(rt; under.ends_ask(beat));
    side.accept(alloc, place, beat, lanes, slave)
}

/// The request of a wide source has taken effect, as the one of this place in the list of port 2, and its reply has to
/// have this flag and these bytes.
pub fn expect_due(
    rt: &impl Abort,
    side: &Side,
    wide: usize,
    index: usize,
    denied: Option<bool>,
    bytes: &str,
) {
    assert!(rt; wide < side.wides());
    let due = side.flight(wide).due().expect(rt, "a reply is due");
    holds(rt, "its port", due.port == 2);
    holds(rt, "its place", due.index == index);
    holds(rt, "whether it is denied", due.reply.denied() == denied);
    expect_text(rt, "its bytes", due.reply.cells(), bytes);
}
