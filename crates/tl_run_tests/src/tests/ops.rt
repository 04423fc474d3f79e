//! Banks: what lies in them and what does not, and beside memories that are as plain as they can be. `tests/scripts`
//! has the worked values of each operation at each kind of slave.
use super::{ask_of, given_of, holds, rising};
use std::alloc::Global;
use std::process::Abort;
use tl_ops::{Bank, BankFault, Kind, MAX_LENGTH};
use tl_types::{Ask, AskOp, Logic, MAX_BYTES, ReplyOp};

/// A request's operation, size, address and bytes; its reply, whether that is denied, and the bytes that it has.
type Turn = (AskOp, u8, u64, &'static [u8], ReplyOp, bool, &'static [u8]);

/// A bank of a kind, where it begins and what stands there at reset; the requests that it serves; and what stands there
/// after them.
struct Scene {
    name: &'static str,
    bank: (Kind, u64, &'static [u8]),
    turns: &'static [Turn],
    left: &'static [u8],
}

const GET: AskOp = AskOp::Get;

const PUT: AskOp = AskOp::PutFull;

const PART: AskOp = AskOp::PutPartial;

const XOR: AskOp = AskOp::Logical(Logic::Xor);

const SWAP: AskOp = AskOp::Logical(Logic::Swap);

const ACK: ReplyOp = ReplyOp::AccessAck;

const DATA: ReplyOp = ReplyOp::AccessAckData;

/// A request from source 0 with these bytes.
fn asked(rt: &impl Abort, op: AskOp, size: u8, address: u64, given: &[u8]) -> Ask {
    let mut bytes = [None; MAX_BYTES];
    assert!(rt; given.len() <= MAX_BYTES);
    for place in 0..given.len() {
        bytes[place] = Some(given[place]);
    }
    ask_of(rt, op, size, 0, address, &bytes[..given.len()])
}

/// A bank answers a request so: the operation of its reply, whether that is denied, and its bytes.
fn answers(rt: &impl Abort, row: &str, bank: &mut Bank, ask: &Ask, told: (ReplyOp, bool, &[u8])) {
    let (op, denied, read) = told;
    holds(rt, row, bank.is_legal(ask) == !denied);
    let reply = bank.serve(ask);
    holds(rt, row, reply.op() == op);
    holds(rt, row, reply.denied() == denied);
    holds(rt, row, reply.bytes() == read);
}

/// These bytes stand from an address on, and none beside them.
fn are_left(rt: &impl Abort, row: &str, bank: &Bank, base: u64, left: &[u8]) {
    for place in 0..left.len() {
        holds(
            rt,
            row,
            bank.byte(base.wrapping_add(place as u64)) == Some(left[place]),
        );
    }
    holds(
        rt,
        row,
        bank.byte(base.wrapping_add(left.len() as u64)) == None,
    );
    holds(rt, row, bank.byte(base.wrapping_sub(1)) == None);
}

/// A bank is made, and serves one request after the other.
fn play(rt: &impl Abort, alloc: Global, scene: &Scene) {
    let (kind, base, reset) = scene.bank;
    let mut bank = Bank::new(alloc, kind, base, reset).expect(rt, scene.name);
    for turn in scene.turns {
        let (op, size, address, given, reply_op, denied, read) = *turn;
        let ask = asked(rt, op, size, address, given);
        answers(rt, scene.name, &mut bank, &ask, (reply_op, denied, read));
    }
    are_left(rt, scene.name, &bank, base, scene.left);
}

fn play_all(rt: &impl Abort, alloc: Global, scenes: &[Scene]) {
    for scene in scenes {
        play(rt, alloc, scene);
    }
}

static SCENES: [Scene; 4] = [
    Scene {
        name: "a bank may begin and end within a word",
        bank: (Kind::Ram, 0x1006, &[1, 2, 3, 4]),
        turns: &[
            (GET, 1, 0x1008, &[], DATA, false, &[3, 4]),
            (PUT, 0, 0x1007, &[0xff], ACK, false, &[]),
            (GET, 1, 0x1006, &[], DATA, false, &[1, 0xff]),
            (GET, 2, 0x1004, &[], DATA, true, &[0; 4]),
        ],
        left: &[1, 0xff, 3, 4],
    },
    Scene {
        name: "what does not lie in the bank is denied with zeros",
        bank: (Kind::Ram, 0x1000, &[0xee; 64]),
        turns: &[
            // past the last byte, before the first, and across the end of the address space
            (GET, 1, 0x103f, &[], DATA, true, &[0; 2]),
            (GET, 0, 0x1040, &[], DATA, true, &[0]),
            (GET, 7, 0x1000, &[], DATA, true, &[0; 128]),
            (GET, 0, 0x0fff, &[], DATA, true, &[0]),
            (GET, 3, u64::MAX, &[], DATA, true, &[0; 8]),
            // and nothing has changed
            (GET, 6, 0x1000, &[], DATA, false, &[0xee; 64]),
        ],
        left: &[0xee; 64],
    },
    Scene {
        name: "a window passes the end of the bank",
        bank: (Kind::Rom, 0x2000, &[0; 32]),
        turns: &[(GET, 6, 0x2000, &[], DATA, true, &[0; 64])],
        left: &[0; 32],
    },
    Scene {
        name: "windows end with the address space",
        bank: (Kind::Ram, u64::MAX - 7, &[0; 8]),
        turns: &[
            (GET, 3, u64::MAX - 7, &[], DATA, false, &[0; 8]),
            (GET, 4, u64::MAX - 15, &[], DATA, true, &[0; 16]),
        ],
        left: &[0; 8],
    },
];

#[test]
fn banks_serve_what_lies_in_them(rt: HostRuntime) {
    play_all(&rt, rt.alloc(), &SCENES);
}

#[test]
fn a_full_line_is_put_and_got(rt: HostRuntime) {
    let mut bank = Bank::new(rt.alloc(), Kind::Ram, 0x1000, &[0; 256]).expect(&rt, "a bank");
    let line = rising();
    let put = ask_of(&rt, PUT, 8, 0, 0x1000, &given_of(PUT));
    let get = ask_of(&rt, GET, 8, 0, 0x1000, &[]);
    // an atomic of a whole line is denied, and changes nothing
    let swap = ask_of(&rt, SWAP, 8, 0, 0x1000, &[Some(0x11); 256]);
    answers(&rt, "a put", &mut bank, &put, (ACK, false, &[]));
    answers(&rt, "a get", &mut bank, &get, (DATA, false, &line));
    answers(&rt, "a swap", &mut bank, &swap, (DATA, true, &[0; 256]));
    answers(&rt, "a get after it", &mut bank, &get, (DATA, false, &line));
}

/// Where a bank begins and how long it is, and its fault.
const REFUSALS: [(u64, usize, BankFault); 3] = [
    (0, MAX_LENGTH + 1, BankFault::TooLong),
    (u64::MAX, MAX_LENGTH + 1, BankFault::TooLong),
    (u64::MAX, 2, BankFault::PastEnd),
];

/// A bank is refused by this fault.
fn refuse(rt: &impl Abort, alloc: Global, base: u64, length: usize, fault: BankFault) {
    let reset = Vec::from_elem(alloc, 0u8, length).expect(rt, "memory");
    let made = Bank::new(alloc, Kind::Ram, base, reset.as_slice());
    holds(rt, "its fault", made.err() == Some(fault));
}

#[test]
fn banks_are_refused_by_their_first_fault(rt: HostRuntime) {
    for (base, length, fault) in &REFUSALS {
        refuse(&rt, rt.alloc(), *base, *length, *fault);
    }
}

/// A ROM of zeros has this base and length.
fn expect_zeros(rt: &impl Abort, alloc: Global, base: u64, length: usize) {
    let reset = Vec::from_elem(alloc, 0u8, length).expect(rt, "memory");
    let bank = Bank::new(alloc, Kind::Rom, base, reset.as_slice()).expect(rt, "a bank");
    holds(rt, "its kind", bank.kind() == Kind::Rom);
    holds(rt, "its base", bank.base() == base);
    holds(rt, "its length", bank.len() == length);
    holds(rt, "it has bytes", !bank.is_empty());
}

#[test]
fn a_bank_may_be_longest_or_end_with_the_address_space(rt: HostRuntime) {
    expect_zeros(&rt, rt.alloc(), 0, MAX_LENGTH);
    expect_zeros(&rt, rt.alloc(), u64::MAX, 1);
}

/// A memory as plain as it can be: the bytes from `WINDOW` on, and none where the bank has none.
type Plain = [Option<u8>; 64];

const WINDOW: u64 = 0x0ff0;

/// Where address 0x1000 stands in a plain memory.
const FIRST: usize = 0x10;

/// What stands in a bank of 20 bytes at reset, or in a shorter one.
const RESET: [u8; 20] = [
    1, 2, 3, 4, 5, 6, 7, 8, 9, 10, 11, 12, 13, 14, 15, 16, 17, 18, 19, 20,
];

/// The plain memory of a bank that begins at this place and has these bytes.
fn plain_of(first: usize, reset: &[u8]) -> Plain {
    let mut plain = [None; 64];
    for place in 0..reset.len() {
        if let Some(cell) = plain.get_mut(first.wrapping_add(place)) {
            *cell = Some(reset[place]);
        }
    }
    plain
}

/// A bank holds what a plain memory holds, also beside its ends.
fn are_same(rt: &impl Abort, bank: &Bank, plain: &Plain) {
    for place in 0..64 {
        holds(
            rt,
            "a byte",
            bank.byte(WINDOW + place as u64) == plain[place],
        );
    }
}

/// Whether a byte stands at a place.
fn stands(plain: &Plain, place: usize) -> bool {
    matches!(plain.get(place), Some(Some(_)))
}

/// Whether a request is legal: a bank has all its bytes, at a multiple of its width, and an atomic has 4 or 8.
fn is_legal(plain: &Plain, place: usize, op: AskOp, width: usize) -> bool {
    let last = place.wrapping_add(width).wrapping_sub(1);
    let whole = match width {
        4 | 8 => true,
        _ => op != XOR,
    };
    whole && place.checked_rem(width) == Some(0) && stands(plain, place) && stands(plain, last)
}

/// What is left of a byte by a request that gives this one.
fn byte_after(op: AskOp, stood: Option<u8>, given: Option<u8>) -> Option<u8> {
    match (op, stood, given) {
        (AskOp::PutPartial, _, Some(given)) => Some(given),
        (AskOp::Logical(Logic::Xor), Some(stood), Some(given)) => Some(stood ^ given),
        _ => stood,
    }
}

/// What a request reads stood in a plain memory, and zeros are read where it is denied. It leaves what it has to.
fn beside(
    rt: &impl Abort,
    plain: &mut Plain,
    place: usize,
    op: AskOp,
    given: &[Option<u8>],
    read: &[u8],
    legal: bool,
) {
    for k in 0..given.len().max(read.len()) {
        let cell = plain.get_mut(place.wrapping_add(k)).expect(rt, "a place");
        let stood = if legal { *cell } else { Some(0) };
        holds(
            rt,
            "a byte",
            read.is_empty() || read.get(k).copied() == stood,
        );
        if legal {
            *cell = byte_after(op, stood, given.get(k).copied().flatten());
        }
    }
}

/// A request, on the bank and byte by byte.
fn serve_beside(
    rt: &impl Abort,
    bank: &mut Bank,
    plain: &mut Plain,
    place: usize,
    op: AskOp,
    size: u8,
    given: &[Option<u8>],
) {
    let ask = ask_of(rt, op, size, 0, WINDOW.wrapping_add(place as u64), given);
    let legal = is_legal(plain, place, op, ask.width());
    let reply = bank.serve(&ask);
    holds(rt, "whether it is denied", reply.denied() == !legal);
    beside(rt, plain, place, op, given, reply.bytes(), legal);
}

/// The sizes of requests, with their widths.
const SIZES: [(u8, usize); 5] = [(0, 1), (1, 2), (2, 4), (3, 8), (4, 16)];

/// The bytes of a put with holes.
fn holes_of(size: u8) -> [Option<u8>; 16] {
    let mut byte = size;
    let mut given = [None; 16];
    for k in 0..16 {
        byte = byte.wrapping_mul(37).wrapping_add(11);
        if byte % 3 != 0 {
            given[k] = Some(byte);
        }
    }
    given
}

/// Serves requests of a size at each address in and about a bank, and a plain memory beside it.
fn serve_size_beside(rt: &impl Abort, bank: &mut Bank, plain: &mut Plain, size: u8, width: usize) {
    let (holes, ones) = (holes_of(size), [Some(0xff); 16]);
    let holes = holes.get(..width).expect(rt, "bytes");
    let ones = ones.get(..width).expect(rt, "bytes");
    for place in 8..48 {
        serve_beside(rt, bank, plain, place, PART, size, holes);
        serve_beside(rt, bank, plain, place, XOR, size, ones);
        serve_beside(rt, bank, plain, place, GET, size, &[]);
    }
}

/// A bank that begins at this place and has these bytes serves requests of each size, and a plain memory beside it.
fn try_alignment(rt: &impl Abort, alloc: Global, skip: usize, reset: &[u8]) {
    let base = 0x1000u64.wrapping_add(skip as u64);
    let mut bank = Bank::new(alloc, Kind::Ram, base, reset).expect(rt, "a bank");
    let mut plain = plain_of(FIRST.wrapping_add(skip), reset);
    for (size, width) in SIZES {
        serve_size_beside(rt, &mut bank, &mut plain, size, width);
    }
    are_same(rt, &bank, &plain);
}

#[test]
fn every_alignment_is_served_as_bytes_are(rt: HostRuntime) {
    for skip in 0..8 {
        for length in 0..=RESET.len() {
            try_alignment(&rt, rt.alloc(), skip, &RESET[..length]);
        }
    }
}
