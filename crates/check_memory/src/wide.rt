//! Atomics on whole words. A window of several words is one number, the lowest word first, and is combined word by word.
ghost use Rattle.std.specs.Prelude.{◌≡◌, ◌↔◌, ℕ, ◌+◌, ◌*◌, ◌/◌, ◌%◌, ◌^◌, ◌<◌, ◌≤◌, length, take, true, IsTrue, nat_lt, int_lt};
ghost use Rattle.std.specs.Int.{to_le_bytes, w64};
ghost use Rattle.tl_types.specs.Bytes.{bytes_of_words};
ghost use Rattle.tl_types.specs.declared.operation.Arith.TheVariants.{Add};
ghost use Rattle.tl_ops.specs.Number.{number, signed, low_bytes};
ghost use Rattle.tl_ops.specs.Window.{combine_arith, combine_logic, new_window};
ghost use Rattle.tl_ops.specs.declared.kind.Kind.TheVariants.{Ram};
ghost use Rattle.check_memory.specs.Known.{known};
ghost use Rattle.check_memory.specs.Cells.{is_atomic};

use tl_types::{Arith, AskOp, Bytes, Logic, MAX_BYTES, WORD_BYTES};

/// The most words of a message.
const MAX_WORDS: usize = MAX_BYTES / WORD_BYTES;

/// What an atomic makes of a window of whole words.
pub fn combined_words(op: AskOp, old: &[u64], given: &Bytes) -> Bytes
    requires atomic { is_atomic op ≡ true }
    requires some { 0 < length old.now }
    requires paired { length given.now ≡ WORD_BYTES * length old.now }
    ensures { result ≡ known (new_window Ram op (bytes_of_words old.now) given.now) }
{
    let count = given.len() / WORD_BYTES;
    let words = words_of(given.plain());
    let operand = front(&words, count);
    match op {
        AskOp::Arithmetic(op) => combine_arith(op, old, operand),
        AskOp::Logical(op) => combine_logic(op, old, operand),
        AskOp::PutFull | AskOp::PutPartial | AskOp::Get | AskOp::Intent(_) => unreachable!(),
    }
}

/// The bytes after an arithmetic operation.
fn combine_arith(op: Arith, old: &[u64], operand: &[u64]) -> Bytes
    requires some { 0 < length old.now }
    requires paired { length operand.now ≡ length old.now }
    requires limit { WORD_BYTES * length old.now ≤ MAX_BYTES }
    ensures { result ≡ known (combine_arith op (bytes_of_words old.now) (bytes_of_words operand.now)) }
{
    let first = match op {
        Arith::Min => is_less_signed(operand, old),
        Arith::Max => is_less_signed(old, operand),
        Arith::MinU => is_less(operand, old),
        Arith::MaxU => is_less(old, operand),
        Arith::Add => return sum(old, operand),
    };
    if first {
        given_words(operand)
    } else {
        given_words(old)
    }
}

/// The bytes after a logical operation.
fn combine_logic(op: Logic, old: &[u64], operand: &[u64]) -> Bytes
    requires paired { length operand.now ≡ length old.now }
    requires limit { WORD_BYTES * length old.now ≤ MAX_BYTES }
    ensures { result ≡ known (combine_logic op (bytes_of_words old.now) (bytes_of_words operand.now)) }
{
    let mut bytes = Bytes::new();
    for k in 0..old.len() {
        let word = combine_word(op, old[k], operand[k]);
        bytes.push_given(&word.to_le_bytes());
    }
    bytes
}

/// One word after a logical operation.
fn combine_word(op: Logic, old: u64, operand: u64) -> u64
    ensures { to_le_bytes w64 result
        ≡ combine_logic op (to_le_bytes w64 old) (to_le_bytes w64 operand) }
{
    match op {
        Logic::Xor => old ^ operand,
        Logic::Or => old | operand,
        Logic::And => old & operand,
        Logic::Swap => operand,
    }
}

/// The bytes of a sum, without what passes the highest word.
fn sum(old: &[u64], operand: &[u64]) -> Bytes
    requires paired { length operand.now ≡ length old.now }
    requires limit { WORD_BYTES * length old.now ≤ MAX_BYTES }
    ensures { result ≡ known (combine_arith Add (bytes_of_words old.now) (bytes_of_words operand.now)) }
{
    let mut bytes = Bytes::new();
    let mut carry = false;
    for k in 0..old.len() {
        let (word, above) = old[k].carrying_add(operand[k], carry);
        bytes.push_given(&word.to_le_bytes());
        carry = above;
    }
    bytes
}

/// Whether one number is less than another of as many words.
// from the highest word down: the first that differs decides
fn is_less(less: &[u64], more: &[u64]) -> bool
    requires { length more.now ≡ length less.now }
    ensures { result ≡ nat_lt (number (bytes_of_words less.now)) (number (bytes_of_words more.now)) }
{
    for k in (0..less.len()).rev() {
        if less[k] != more[k] {
            return less[k] < more[k];
        }
    }
    false
}

/// Whether one number in two's complement is less than another of as many words.
fn is_less_signed(less: &[u64], more: &[u64]) -> bool
    requires some { 0 < length less.now }
    requires paired { length more.now ≡ length less.now }
    ensures { result ≡ int_lt (signed (bytes_of_words less.now)) (signed (bytes_of_words more.now)) }
{
    let negative = is_negative(less);
    if negative == is_negative(more) {
        is_less(less, more)
    } else {
        negative
    }
}

/// Whether a number in two's complement is below zero: the highest bit of its highest word is set.
fn is_negative(words: &[u64]) -> bool
    requires { 0 < length words.now }
    ensures { let bytes = bytes_of_words words.now in
        IsTrue result ↔ (2 ^ (8 * length bytes) ≤ 2 * number bytes) }
{
    words[words.len() - 1] >= 1 << 63
}

/// The bytes of words, all given.
fn given_words(words: &[u64]) -> Bytes
    requires { WORD_BYTES * length words.now ≤ MAX_BYTES }
    ensures { result ≡ known (bytes_of_words words.now) }
{
    let mut bytes = Bytes::new();
    for word in words {
        bytes.push_given(&word.to_le_bytes());
    }
    bytes
}

/// The words that bytes spell, and zeros after them.
fn words_of(bytes: &[u8]) -> [u64; MAX_WORDS]
    requires whole { length bytes.now % WORD_BYTES ≡ 0 }
    requires limit { length bytes.now ≤ MAX_BYTES }
    ensures counted { length result ≡ MAX_WORDS }
    ensures spelled { bytes_of_words (take (length bytes.now / WORD_BYTES) result) ≡ bytes.now }
{
    let mut words = [0; MAX_WORDS];
    for k in 0..bytes.len() / WORD_BYTES {
        let place = WORD_BYTES * k;
        words[k] = word_of(&bytes[place..place + WORD_BYTES]);
    }
    words
}

/// The word that bytes spell, the lowest first.
fn word_of(bytes: &[u8]) -> u64
    requires { length bytes.now ≡ WORD_BYTES }
    ensures { to_le_bytes w64 result ≡ bytes.now }
{
    u64::from_le_bytes([
        bytes[0], bytes[1], bytes[2], bytes[3], bytes[4], bytes[5], bytes[6], bytes[7],
    ])
}

/// So many words from the first one on.
fn front(words: &[u64], count: usize) -> &[u64]
    requires { count ≤ length words.now }
    ensures { result.now ≡ take count words.now }
{
    &words[..count]
}
