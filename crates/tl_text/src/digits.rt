//! Numbers as lines print them.
ghost use Rattle.std.specs.Prelude.{◌≡◌, ◌<◌, ◌≤◌, ◌+◌, ◌++◌, false, length, vec_capacity, OnErr, OnOk};
ghost use Rattle.std.specs.Fmt.{decimal, digit_glyph, digits};
ghost use Rattle.tl_text.specs.Text.{BeginsWith};

use itoa::Buffer;
use std::alloc::AllocError;

/// The most hexadecimal digits of a number.
const MAX_DIGITS: usize = 16;

/// The character of a hexadecimal digit.
pub fn hex_digit(digit: u8) -> u8
    requires { digit < 16 }
    ensures { result ≡ digit_glyph false digit }
{
    if digit < 10 {
        b'0' + digit
    } else {
        b'a' - 10 + digit
    }
}

/// Appends a number in decimal digits.
#[tactic(auto, using(crate::proofs::TextLemmas::begins))]
pub fn push_decimal(text: &mut Vec<u8>, number: u64) -> Result<(), AllocError>
    ensures ok { OnOk result (text.new.items ≡ text.old.items ++ decimal number) }
    ensures err { OnErr result (BeginsWith text.old.items text.new.items) }
    ensures room { vec_capacity text.old ≤ vec_capacity text.new }
    ensures full { OnErr result (vec_capacity text.old
        < length text.old.items + length (decimal number)) }
{
    text.extend_from_slice(Buffer::new().format(number).as_bytes())
}

/// Appends some characters and a number in decimal digits.
#[tactic(auto, using(crate::proofs::TextLemmas::begins))]
pub fn push_field(text: &mut Vec<u8>, label: &[u8], number: u64) -> Result<(), AllocError>
    ensures ok { OnOk result (text.new.items ≡ text.old.items ++ label.now ++ decimal number) }
    ensures err { OnErr result (BeginsWith text.old.items text.new.items) }
    ensures room { vec_capacity text.old ≤ vec_capacity text.new }
    ensures full { OnErr result (vec_capacity text.old
        < length text.old.items + length label.now + length (decimal number)) }
{
    text.extend_from_slice(label)?;
    push_decimal(text, number)
}

/// Appends a number in hexadecimal digits.
pub fn push_hex(text: &mut Vec<u8>, number: u64) -> Result<(), AllocError>
    ensures ok { OnOk result (text.new.items ≡ text.old.items ++ digits 16 false number) }
    ensures err { OnErr result (BeginsWith text.old.items text.new.items) }
    ensures room { vec_capacity text.old ≤ vec_capacity text.new }
    ensures full { OnErr result (vec_capacity text.old
        < length text.old.items + length (digits 16 false number)) }
{
    let mut digits = [0; MAX_DIGITS];
    let mut first = MAX_DIGITS - 1;
    let mut left = number;
    while left >= 16 {
        digits[first] = hex_digit((left % 16) as u8);
        left /= 16;
        first -= 1;
    }
    digits[first] = hex_digit(left as u8);
    text.extend_from_slice(&digits[first..])
}
