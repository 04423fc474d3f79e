//! Hexadecimal digits of a capture.
ghost use Rattle.std.specs.Prelude.{◌≡◌, ◌≤◌, length};
ghost use Rattle.check_rows.specs.Digit.{digit_code};
ghost use Rattle.check_rows.specs.Number.{hex_of};

use crate::fault::RowFault;

/// What stands for a digit whose bits are unknown.
pub const UNKNOWN: u8 = 16;

/// What stands for a character that is no digit.
pub const NONE: u8 = 17;

/// For each character the value of the digit, if it is one, or UNKNOWN or NONE.
#[rattlefmt::skip]
const CODES: [u8; 256] = [
    17, 17, 17, 17, 17, 17, 17, 17, 17, 17, 17, 17, 17, 17, 17, 17,
    17, 17, 17, 17, 17, 17, 17, 17, 17, 17, 17, 17, 17, 17, 17, 17,
    17, 17, 17, 17, 17, 17, 17, 17, 17, 17, 17, 17, 17, 17, 17, 17,
    0, 1, 2, 3, 4, 5, 6, 7, 8, 9, 17, 17, 17, 17, 17, 17,
    17, 10, 11, 12, 13, 14, 15, 17, 17, 17, 17, 17, 17, 17, 17, 17,
    17, 17, 17, 17, 17, 17, 17, 17, 16, 17, 16, 17, 17, 17, 17, 17,
    17, 10, 11, 12, 13, 14, 15, 17, 17, 17, 17, 17, 17, 17, 17, 17,
    17, 17, 17, 17, 17, 17, 17, 17, 16, 17, 16, 17, 17, 17, 17, 17,
    17, 17, 17, 17, 17, 17, 17, 17, 17, 17, 17, 17, 17, 17, 17, 17,
    17, 17, 17, 17, 17, 17, 17, 17, 17, 17, 17, 17, 17, 17, 17, 17,
    17, 17, 17, 17, 17, 17, 17, 17, 17, 17, 17, 17, 17, 17, 17, 17,
    17, 17, 17, 17, 17, 17, 17, 17, 17, 17, 17, 17, 17, 17, 17, 17,
    17, 17, 17, 17, 17, 17, 17, 17, 17, 17, 17, 17, 17, 17, 17, 17,
    17, 17, 17, 17, 17, 17, 17, 17, 17, 17, 17, 17, 17, 17, 17, 17,
    17, 17, 17, 17, 17, 17, 17, 17, 17, 17, 17, 17, 17, 17, 17, 17,
    17, 17, 17, 17, 17, 17, 17, 17, 17, 17, 17, 17, 17, 17, 17, 17,
];

/// The value of a digit, or UNKNOWN, or NONE.
pub fn digit_code(digit: u8) -> u8
    ensures { result ≡ digit_code digit }
{
    CODES[usize::from(digit)]
}

/// The number that hexadecimal digits spell.
pub fn read_hex(word: &[u8]) -> Result<u64, RowFault>
    requires { length word.now ≤ 16 }
    ensures { result ≡ hex_of word.now }
{
    if word.is_empty() {
        return Err(RowFault::Number);
    }
    let mut value = 0;
    for digit in word {
        let code = digit_code(*digit);
        if code >= UNKNOWN {
            return Err(RowFault::Number);
        }
        value = 16 * value + u64::from(code);
    }
    Ok(value)
}
