//! Pages: as many as were written, wherever they are, and images over several of them.
use super::scene::{Turn, ask_of, load, memory_of, serve_all};
use crate::tests::holds;
use crate::tests::parts::state::expect_cells;
use check_memory::{PartialMemory, Pattern, Sizes};
use std::alloc::Global;
use std::process::Abort;
use tl_map::Range;
use tl_ops::Kind;
use tl_types::{Ask, AskOp};

/// A RAM in one range, of which nothing is known.
fn ram(rt: &impl Abort, alloc: Global, base: u64, length: u64) -> PartialMemory {
    let range = Range { base, length };
    memory_of(rt, alloc, Kind::Ram, Sizes::of(Kind::Ram), &[range], false)
}

/// From page to page of those that are written: 26 pages, so that 10,000 of them are spread over 1 GiB.
const STEP: u64 = 26 * 4096;

const BASE: u64 = 0x8000_0000;

/// The eight bytes of a number.
fn number_bytes(number: u64) -> [Option<u8>; 8] {
    let bytes = number.to_le_bytes();
    let mut given = [None; 8];
    for k in 0..8 {
        given[k] = Some(bytes[k]);
    }
    given
}

/// Puts the eight bytes of a number.
fn put_number(
    rt: &impl Abort,
    alloc: Global,
    memory: &mut PartialMemory,
    address: u64,
    number: u64,
) {
    let ask = Ask::new(AskOp::PutFull, 3, 0, address, &number_bytes(number));
    let ask = ask.expect(rt, "a request");
    let mut answer = Pattern::blank();
    memory
        .serve_into(alloc, &ask, &mut answer)
        .expect(rt, "memory refused");
    holds(rt, "a put", answer.denied() == Some(false));
}

/// The eight bytes of a number stand there.
fn expect_number(rt: &impl Abort, memory: &PartialMemory, address: u64, number: u64) {
    let mut answer = Pattern::blank();
    memory.answer(&ask_of(rt, AskOp::Get, 3, address, ""), &mut answer);
    expect_cells(rt, "a number", answer.cells(), &number_bytes(number));
}

#[test]
fn ten_thousand_pages_are_kept_of_a_gibibyte(rt: HostRuntime) {
    let mut memory = ram(&rt, rt.alloc(), BASE, 0x4000_0000);
    for k in 0..10_000 {
        // from the last to the first, so that the index has to find them
        put_number(
            &rt,
            rt.alloc(),
            &mut memory,
            BASE + STEP * (9_999 - k) + 8,
            k,
        );
    }
    holds(&rt, "pages", memory.pages() == 10_000);
    for k in 0..10_000 {
        expect_number(&rt, &memory, BASE + STEP * (9_999 - k) + 8, k);
    }
    serve_all(&rt, rt.alloc(), "between", &mut memory, &BETWEEN);
    holds(&rt, "pages", memory.pages() == 10_000);
}

/// What no page was made for is unknown, and reading makes none.
static BETWEEN: [Turn; 3] = [
    (
        AskOp::Get,
        3,
        0x8000_0000,
        "",
        false,
        "xx xx xx xx xx xx xx xx",
    ),
    (
        AskOp::Get,
        3,
        0x8000_1008,
        "",
        false,
        "xx xx xx xx xx xx xx xx",
    ),
    (
        AskOp::Get,
        3,
        0xbfff_fff8,
        "",
        false,
        "xx xx xx xx xx xx xx xx",
    ),
];

static LAST: [Turn; 5] = [
    (
        AskOp::PutFull,
        3,
        0xffff_ffff_ffff_fff8,
        "01 02 03 04 05 06 07 08",
        false,
        "",
    ),
    (
        AskOp::Get,
        3,
        0xffff_ffff_ffff_fff0,
        "",
        false,
        "xx xx xx xx xx xx xx xx",
    ),
    (
        AskOp::Get,
        2,
        0xffff_ffff_ffff_fffc,
        "",
        false,
        "05 06 07 08",
    ),
    (AskOp::Get, 0, 0xffff_ffff_ffff_ffff, "", false, "08"),
    (
        AskOp::Get,
        3,
        0xffff_ffff_ffff_eff8,
        "",
        true,
        "00 00 00 00 00 00 00 00",
    ),
];

/// The end of an image in the last page.
static LOADED: [Turn; 2] = [
    (
        AskOp::Get,
        3,
        0xffff_ffff_ffff_fff8,
        "",
        false,
        "01 02 03 04 aa bb cc dd",
    ),
    (AskOp::Get, 0, 0xffff_ffff_ffff_ffff, "", false, "dd"),
];

#[test]
fn the_last_page_of_the_address_space(rt: HostRuntime) {
    let mut memory = ram(&rt, rt.alloc(), 0xffff_ffff_ffff_f000, 0x1000);
    serve_all(&rt, rt.alloc(), "the last page", &mut memory, &LAST);
    load(
        &rt,
        rt.alloc(),
        &mut memory,
        0xffff_ffff_ffff_fffc,
        &[0xaa, 0xbb, 0xcc, 0xdd],
    );
    serve_all(&rt, rt.alloc(), "loaded", &mut memory, &LOADED);
    holds(&rt, "pages", memory.pages() == 1);
}

/// The seams of an image of 10,000 bytes, of which byte k is k modulo 251, from 0x1ffa on.
static SEAMS: [Turn; 5] = [
    (AskOp::Get, 3, 0x1ff8, "", false, "xx xx 00 01 02 03 04 05"),
    (AskOp::Get, 3, 0x2000, "", false, "06 07 08 09 0a 0b 0c 0d"),
    // byte 4,102 is 4,102 - 16 * 251 = 86, and byte 8,198 is 8,198 - 32 * 251 = 166
    (AskOp::Get, 3, 0x3000, "", false, "56 57 58 59 5a 5b 5c 5d"),
    (AskOp::Get, 3, 0x4000, "", false, "a6 a7 a8 a9 aa ab ac ad"),
    // byte 9,999 is 9,999 - 39 * 251 = 210
    (AskOp::Get, 3, 0x4708, "", false, "d1 d2 xx xx xx xx xx xx"),
];

/// So many bytes, of which byte k is k modulo 251.
fn image(rt: &impl Abort, alloc: Global, count: u64) -> Vec<u8> {
    let mut bytes = Vec::new(alloc);
    for k in 0..count {
        bytes.push((k % 251) as u8).expect(rt, "memory refused");
    }
    bytes
}

#[test]
fn an_image_goes_over_pages(rt: HostRuntime) {
    let mut memory = ram(&rt, rt.alloc(), 0, 0x10000);
    let bytes = image(&rt, rt.alloc(), 10_000);
    assert!(rt; bytes.len() == 10_000);
    load(&rt, rt.alloc(), &mut memory, 0x1ffa, &bytes);
    // those of 256 bytes from 0x1f00 to 0x4700
    holds(&rt, "pages", memory.pages() == 41);
    serve_all(&rt, rt.alloc(), "seams", &mut memory, &SEAMS);
}
