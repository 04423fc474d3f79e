//! Requests that lie in no range, worked out by hand. No program asks a memory for such bytes: the error port denies them.
//! `tests/captures` has what each kind of slave serves.
use super::scene::{Turn, memory_of, serve_all};
use check_memory::Sizes;
use tl_map::Range;
use tl_ops::Kind;
use tl_types::{AskOp, Hint};

const GET: AskOp = AskOp::Get;

const PUT: AskOp = AskOp::PutFull;

const HINT: AskOp = AskOp::Intent(Hint::PrefetchRead);

static ONE_RANGE: [Range; 1] = [Range {
    base: 0x1000,
    length: 0x40,
}];

/// What does not lie in the range is denied with zeros and changes nothing.
static PAST: [Turn; 6] = [
    (GET, 3, 0x0ff8, "", true, "00 00 00 00 00 00 00 00"),
    (GET, 3, 0x1040, "", true, "00 00 00 00 00 00 00 00"),
    (PUT, 7, 0x1000, LONG, true, ""),
    (HINT, 7, 0x1000, "", true, ""),
    (HINT, 6, 0x1000, "", false, ""),
    (GET, 3, 0x1038, "", false, "xx xx xx xx xx xx xx xx"),
];

/// 128 bytes.
const LONG: &str = "00 01 02 03 04 05 06 07 08 09 0a 0b 0c 0d 0e 0f \
    00 01 02 03 04 05 06 07 08 09 0a 0b 0c 0d 0e 0f \
    00 01 02 03 04 05 06 07 08 09 0a 0b 0c 0d 0e 0f \
    00 01 02 03 04 05 06 07 08 09 0a 0b 0c 0d 0e 0f \
    00 01 02 03 04 05 06 07 08 09 0a 0b 0c 0d 0e 0f \
    00 01 02 03 04 05 06 07 08 09 0a 0b 0c 0d 0e 0f \
    00 01 02 03 04 05 06 07 08 09 0a 0b 0c 0d 0e 0f \
    00 01 02 03 04 05 06 07 08 09 0a 0b 0c 0d 0e 0f";

static RANGES: [Range; 3] = [
    Range {
        base: 0x1000,
        length: 8,
    },
    Range {
        base: 0x1008,
        length: 8,
    },
    Range {
        base: 0x2004,
        length: 4,
    },
];

/// A request lies in one range, and its window goes past none; each range has bytes of its own.
static PLACES: [Turn; 9] = [
    (PUT, 3, 0x1000, "01 02 03 04 05 06 07 08", false, ""),
    (PUT, 2, 0x2004, "11 22 33 44", false, ""),
    (
        GET,
        4,
        0x1000,
        "",
        true,
        "00 00 00 00 00 00 00 00 00 00 00 00 00 00 00 00",
    ),
    (GET, 3, 0x2000, "", true, "00 00 00 00 00 00 00 00"),
    (GET, 2, 0x2008, "", true, "00 00 00 00"),
    (GET, 3, 0x1008, "", false, "xx xx xx xx xx xx xx xx"),
    (GET, 3, 0x1000, "", false, "01 02 03 04 05 06 07 08"),
    (GET, 2, 0x2004, "", false, "11 22 33 44"),
    (GET, 1, 0x2006, "", false, "33 44"),
];

#[test]
fn a_request_lies_in_one_range(rt: HostRuntime) {
    let alloc = rt.alloc();
    let mut memory = memory_of(&rt, alloc, Kind::Ram, Sizes::of(Kind::Ram), &RANGES, false);
    serve_all(&rt, alloc, "ranges", &mut memory, &PLACES);
}

#[test]
fn what_lies_past_the_range_is_denied(rt: HostRuntime) {
    let alloc = rt.alloc();
    let mut memory = memory_of(
        &rt,
        alloc,
        Kind::Ram,
        Sizes::of(Kind::Ram),
        &ONE_RANGE,
        false,
    );
    serve_all(&rt, alloc, "past the range", &mut memory, &PAST);
}
