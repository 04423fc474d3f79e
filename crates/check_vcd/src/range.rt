//! Ranges of bits, as dumps and names spell them.
ghost use Rattle.std.specs.Prelude.{◌≡◌, ◌≤◌, ◌<◌, IfSome, length, option_map};
ghost use Rattle.std.specs.Char.{is_ascii_digit};
ghost use Rattle.std.specs.List.{prefix_len};
ghost use Rattle.check_vcd.specs.Range.{cut_view, has_bits, index_of, last_bracket, last_from, range_in, rest_view, split_range};

use tl_text::read_number;

/// The most digits of an index.
pub const INDEX_DIGITS: usize = 20;

/// The indices of the bits of a vector, from its highest bit to its lowest.
#[derive(Debug, Clone, Copy, PartialEq, Eq)]
pub struct Span {
    pub left: u64,
    pub right: u64,
}

impl Span {
    /// Whether it has so many bits.
    pub fn has_bits(self, count: u64) -> bool
        ensures { result ≡ has_bits self count }
    {
        count > 0 && self.left.abs_diff(self.right) == count - 1
    }
}

/// How many digits a text begins with.
fn digits_len(text: &[u8]) -> usize
    ensures all { result ≡ prefix_len is_ascii_digit text.now }
    ensures inside { result ≤ length text.now }
{
    let mut len = 0;
    while len < text.len() && text[len].is_ascii_digit() {
        len += 1;
    }
    len
}

/// The index that a text begins with, and what stands after it.
fn read_index(text: &[u8]) -> Option<(u64, &[u8])>
    ensures { option_map rest_view result ≡ index_of text.now }
{
    let (digits, rest) = text.split_at(digits_len(text));
    match read_number(digits, 10, INDEX_DIGITS) {
        Some(index) => Some((index, rest)),
        None => None,
    }
}

/// The range that a text spells after its first bracket: one index, or two with a colon between.
fn read_inside(text: &[u8]) -> Option<Span>
    ensures { result ≡ range_in text.now }
{
    let (left, rest) = read_index(text)?;
    let (right, rest) = match rest {
        [b':', more @ ..] => read_index(more)?,
        _ => (left, rest),
    };
    match rest {
        [b']'] => Some(Span { left, right }),
        _ => None,
    }
}

/// The place of the last opening bracket of a text.
fn last_bracket(text: &[u8]) -> Option<usize>
    ensures place { result ≡ last_bracket text.now }
    ensures inside { IfSome result (λ at. at < length text.now) }
{
    let mut found = None;
    for (at, byte) in text.iter().enumerate() {
        if *byte == b'[' {
            found = Some(at);
        }
    }
    found
}

/// A name without the range at its end, and that range, if it has one.
pub fn split_range(name: &[u8]) -> Option<(&[u8], Span)>
    ensures { option_map cut_view result ≡ split_range name.now }
{
    let at = last_bracket(name)?;
    let span = read_inside(&name[at + 1..])?;
    Some((&name[..at], span))
}
