//! Some bytes of one word, next to one another, as one number: a cell, and what a request makes of it.
ghost use Rattle.std.specs.Prelude.{◌≡◌, ℕ, ◌+◌, ◌*◌, ◌-◌, ◌^◌, ◌<◌, ◌≤◌, length, slice_index};
ghost use Rattle.std.specs.Int.{bit_at};
ghost use Rattle.tl_ops.specs.Number.{signed, low_bytes};
ghost use Rattle.tl_ops.specs.Window.{operand_of, combine_arith, combine_logic, new_window, cleared};
ghost use Rattle.tl_ops.specs.Cell.{cell_of, with_cell, keep_bit, keep_of, bytes_of_word};
ghost use Rattle.tl_ops.specs.declared.kind.Kind.TheVariants.{Ram};

use tl_types::{Arith, AskOp, Bytes, Logic, WORD_BYTES};

/// The mask of a cell of so many bytes, at the lowest lanes.
fn cell_mask(width: usize) -> u64
    requires some { 0 < width }
    requires in_word { width ≤ WORD_BYTES }
    ensures { result ≡ 2 ^ (8 * width) - 1 }
{
    u64::MAX >> (64 - 8 * width)
}

/// The cell of `width` bytes that a word has from `lane` on.
pub fn cell_of(word: u64, lane: usize, width: usize) -> u64
    requires some { 0 < width }
    requires in_word { lane + width ≤ WORD_BYTES }
    ensures value { result ≡ cell_of word lane width }
    ensures fits { result < 2 ^ (8 * width) }
{
    word >> (8 * lane) & cell_mask(width)
}

/// The word with another cell there. All other lanes stay as they are.
pub fn with_cell(word: u64, lane: usize, width: usize, cell: u64) -> u64
    requires some { 0 < width }
    requires in_word { lane + width ≤ WORD_BYTES }
    requires fits { cell < 2 ^ (8 * width) }
    ensures { result ≡ with_cell word lane width cell }
{
    let shift = 8 * lane;
    let lanes = cell_mask(width) << shift;
    word & !lanes | cell << shift
}

/// What a request gives of a cell: the bytes, zero if none is given, and a mask of the lanes that keep theirs.
pub struct Given {
    pub bytes: u64,
    pub keep: u64,
}

/// For each half of a word's mask, the mask of the lanes that keep their byte, since no bit says that one is given.
const KEPT: [u32; 16] = [
    0xffff_ffff,
    0xffff_ff00,
    0xffff_00ff,
    0xffff_0000,
    0xff00_ffff,
    0xff00_ff00,
    0xff00_00ff,
    0xff00_0000,
    0x00ff_ffff,
    0x00ff_ff00,
    0x00ff_00ff,
    0x00ff_0000,
    0x0000_ffff,
    0x0000_ff00,
    0x0000_00ff,
    0x0000_0000,
];

/// The mask of the lanes that keep their byte, where a word has this mask of those that are given.
fn kept_lanes(mask: u8) -> u64
    ensures { (lane : ℕ) → lane < WORD_BYTES → slice_index (low_bytes WORD_BYTES result) lane ≡ keep_bit (bit_at mask lane) }
{
    let low = u64::from(KEPT[usize::from(mask & 0xf)]);
    let high = u64::from(KEPT[usize::from(mask >> 4)]);
    high << 32 | low
}

/// The cell that these bytes spell.
fn spelled(bytes: &[u8]) -> u64
    requires { length bytes.now ≤ WORD_BYTES }
    ensures fits { result < 2 ^ (8 * length bytes.now) }
    ensures value { low_bytes (length bytes.now) result ≡ bytes.now }
{
    if bytes.len() == WORD_BYTES {
        return u64::from_le_bytes([
            bytes[0], bytes[1], bytes[2], bytes[3], bytes[4], bytes[5], bytes[6], bytes[7],
        ]);
    }
    let mut cell = 0u64;
    for k in (0..bytes.len()).rev() {
        cell = cell << 8 | u64::from(bytes[k]);
    }
    cell
}

/// What a word of a request's bytes gives.
fn given_word(bytes: &Bytes, word: usize) -> Given
    requires { WORD_BYTES * word < length bytes.now }
    ensures fits { result.bytes < 2 ^ (8 * length (bytes_of_word bytes.now word)) }
    ensures bytes { let given = bytes_of_word bytes.now word in
        low_bytes (length given) result.bytes ≡ operand_of given }
    ensures keep { let given = bytes_of_word bytes.now word in
        low_bytes (length given) result.keep ≡ keep_of given }
{
    let len = bytes.len();
    let from = WORD_BYTES * word;
    let count = (len - from).min(WORD_BYTES);
    Given {
        bytes: spelled(&bytes.plain()[from..from + count]),
        keep: kept_lanes(bytes.mask(word)),
    }
}

/// A cell of so many bytes in two's complement.
fn signed(cell: u64, width: usize) -> i128
    requires in_word { width ≤ WORD_BYTES }
    requires fits { cell < 2 ^ (8 * width) }
    ensures { result ≡ signed (low_bytes width cell) }
{
    let unsigned = i128::from(cell);
    let span = 1i128 << (8 * width);
    if 2 * unsigned < span {
        unsigned
    } else {
        unsigned - span
    }
}

/// The cell after a logical operation.
fn combine_logic(op: Logic, old: u64, operand: u64, width: usize) -> u64
    requires old { old < 2 ^ (8 * width) }
    requires operand { operand < 2 ^ (8 * width) }
    ensures fits { result < 2 ^ (8 * width) }
    ensures bytes { low_bytes width result
        ≡ combine_logic op (low_bytes width old) (low_bytes width operand) }
{
    match op {
        Logic::Xor => old ^ operand,
        Logic::Or => old | operand,
        Logic::And => old & operand,
        Logic::Swap => operand,
    }
}

/// The cell after an arithmetic operation.
fn combine_arith(op: Arith, old: u64, operand: u64, width: usize) -> u64
    requires some { 0 < width }
    requires in_word { width ≤ WORD_BYTES }
    requires old { old < 2 ^ (8 * width) }
    requires operand { operand < 2 ^ (8 * width) }
    ensures fits { result < 2 ^ (8 * width) }
    ensures bytes { low_bytes width result
        ≡ combine_arith op (low_bytes width old) (low_bytes width operand) }
{
    let first = match op {
        Arith::Min => signed(operand, width) < signed(old, width),
        Arith::Max => signed(old, width) < signed(operand, width),
        Arith::MinU => operand < old,
        Arith::MaxU => old < operand,
        Arith::Add => return old.wrapping_add(operand) & cell_mask(width),
    };
    if first { operand } else { old }
}

/// The cell after a put where writing a one clears.
pub fn cleared_cell(old: u64, given: &Bytes) -> u64
    requires some { 0 < length given.now }
    requires in_word { length given.now ≤ WORD_BYTES }
    requires old { old < 2 ^ (8 * length given.now) }
    ensures fits { result < 2 ^ (8 * length given.now) }
    ensures bytes { low_bytes (length given.now) result
        ≡ cleared (low_bytes (length given.now) old) (operand_of given.now) }
{
    let Given { bytes, keep: _ } = given_word(given, 0);
    old & !bytes
}

/// The cell after a legal request, of whose bytes it takes a word, where a put leaves what it gives.
pub fn new_cell(op: AskOp, old: u64, bytes: &Bytes, word: usize) -> u64
    requires some { WORD_BYTES * word < length bytes.now }
    requires old { old < 2 ^ (8 * length (bytes_of_word bytes.now word)) }
    ensures fits { result < 2 ^ (8 * length (bytes_of_word bytes.now word)) }
    ensures bytes { let given = bytes_of_word bytes.now word in
        low_bytes (length given) result ≡ new_window Ram op (low_bytes (length given) old) given }
{
    let len = bytes.len();
    let width = (len - WORD_BYTES * word).min(WORD_BYTES);
    let Given {
        bytes: operand,
        keep,
    } = given_word(bytes, word);
    match op {
        AskOp::PutFull | AskOp::PutPartial => old & keep | operand,
        AskOp::Arithmetic(op) => combine_arith(op, old, operand, width),
        AskOp::Logical(op) => combine_logic(op, old, operand, width),
        AskOp::Get | AskOp::Intent(_) => old,
    }
}
