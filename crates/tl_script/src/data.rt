//! DATA: the bytes that a word spells.
ghost use Rattle.std.specs.Prelude.{◌≡◌, ◌≤◌, length, option_map, IfSome};
ghost use Rattle.tl_script.specs.Data.{byte_of};
ghost use Rattle.tl_script.specs.Operation.{counted_data_of};

use tl_text::read_pair;
use tl_types::{Bytes, MAX_BYTES};

/// Reads the bytes that a word spells, if it spells this many, in the place of those that there were.
#[tactic(auto, unfolding(crate::specs::Operation::counted_data_of))]
pub fn read_data(word: &[u8], count: usize, bytes: &mut Bytes) -> Option<()>
    requires { count ≤ MAX_BYTES }
    ensures value { option_map (λ _. bytes.new) result ≡ counted_data_of count word.now }
    ensures counted { IfSome result (λ _. length bytes.new ≡ count) }
{
    if word.len() != 2 * count {
        return None;
    }
    bytes.clear();
    let mut rest = word;
    while let [high, low, more @ ..] = rest {
        bytes.push(read_byte(*high, *low)?);
        rest = more;
    }
    Some(())
}

/// What two characters spell: a byte by its hexadecimal digits, or an unset one by dashes.
fn read_byte(high: u8, low: u8) -> Option<Option<u8>>
    ensures { result ≡ byte_of high low }
{
    if high == b'-' && low == b'-' {
        return Some(None);
    }
    read_pair(high, low).map(Some)
}
