//! Numbers as words spell them.
ghost use Rattle.std.specs.Prelude.{◌≡◌, ◌≤◌, ◌+◌, ◌*◌, ℕ};
ghost use Rattle.tl_text.specs.Number.{below_64_bits, digits_of, number_of, pair_of};

/// A number with one more digit, while it is below 2^64.
fn with_digit(value: Option<u64>, radix: u32, digit: u32) -> Option<u64>
    requires { 1 ≤ radix }
    ensures { (n : ℕ) → value ≡ below_64_bits n → result ≡ below_64_bits (n * radix + digit) }
{
    value?
        .checked_mul(u64::from(radix))?
        .checked_add(u64::from(digit))
}

/// What digits of this base spell: the number, or `None` in its place if it is not below 2^64. Any other word is no number.
pub fn read_digits(word: &[u8], radix: u32) -> Option<Option<u64>>
    requires low { 2 ≤ radix }
    requires high { radix ≤ 36 }
    ensures { result ≡ digits_of radix word.now }
{
    if word.is_empty() {
        return None;
    }
    let mut value = Some(0);
    for byte in word {
        let digit = char::from(*byte).to_digit(radix)?;
        value = with_digit(value, radix, digit);
    }
    Some(value)
}

/// The number that one to `most` digits of this base spell, if it is below 2^64.
pub fn read_number(word: &[u8], radix: u32, most: usize) -> Option<u64>
    requires low { 2 ≤ radix }
    requires high { radix ≤ 36 }
    ensures { result ≡ number_of radix most word.now }
{
    if word.len() > most {
        return None;
    }
    read_digits(word, radix)?
}

/// The byte that two hexadecimal digits spell, in either case.
pub fn read_pair(high: u8, low: u8) -> Option<u8>
    ensures { result ≡ pair_of high low }
{
    let high = char::from(high).to_digit(16)?;
    let low = char::from(low).to_digit(16)?;
    Some((16 * high + low) as u8)
}
