//! What the lanes of a beat carry.
ghost use Rattle.std.specs.Prelude.{◌≡◌, ◌+◌, ◌%◌, ◌<◌, ◌≤◌, ◌++◌, length, map, Some};
ghost use Rattle.check_beats.specs.Message.{byte_at, given_at, shown_lanes};

use crate::beat::AskHead;
use crate::bus::MAX_LANES;
use tl_types::{Bytes, MAX_BYTES, WORD_BYTES};

/// The bytes of a beat of which none is looked at.
pub const ZEROS: [u8; MAX_LANES] = [0; MAX_LANES];

/// What stands at a lane of a beat.
fn byte_at(mask: u64, lanes: &[u8], lane: usize) -> Option<u8>
    requires inside { lane < length lanes.now }
    requires in_limit { length lanes.now ≤ MAX_LANES }
    ensures { result ≡ byte_at mask lanes.now lane }
{
    if mask >> lane & 1 == 1 {
        Some(lanes[lane])
    } else {
        None
    }
}

/// Appends what stands at so many lanes of a beat from one on.
pub fn push_lanes(bytes: &mut Bytes, mask: u64, lanes: &[u8], first: usize, count: usize)
    requires inside { first + count ≤ length lanes.now }
    requires in_limit { length lanes.now ≤ MAX_LANES }
    requires room { length bytes.old + count ≤ MAX_BYTES }
    ensures { bytes.new ≡ bytes.old ++ given_at mask lanes.now first count }
{
    for k in 0..count {
        bytes.push(byte_at(mask, lanes, first + k));
    }
}

/// Appends words of eight bytes that are all given.
fn push_words(bytes: &mut Bytes, words: &[u8])
    requires aligned { length bytes.old % WORD_BYTES ≡ 0 }
    requires whole { length words.now % WORD_BYTES ≡ 0 }
    requires room { length bytes.old + length words.now ≤ MAX_BYTES }
    ensures { bytes.new ≡ bytes.old ++ map (λ byte. Some byte) words.now }
{
    for word in 0..words.len() / WORD_BYTES {
        let place = WORD_BYTES * word;
        bytes.push_given(&words[place..place + WORD_BYTES]);
    }
}

/// Appends what stands at all lanes of a beat.
// lanes that are all set are words of eight bytes, and most beats of long messages are such
pub fn push_beat(bytes: &mut Bytes, mask: u64, lanes: &[u8])
    requires aligned { WORD_BYTES ≤ length lanes.now → length bytes.old % WORD_BYTES ≡ 0 }
    requires whole { WORD_BYTES ≤ length lanes.now → length lanes.now % WORD_BYTES ≡ 0 }
    requires in_limit { length lanes.now ≤ MAX_LANES }
    requires room { length bytes.old + length lanes.now ≤ MAX_BYTES }
    ensures { bytes.new ≡ bytes.old ++ given_at mask lanes.now 0 (length lanes.now) }
{
    if lanes.len() == WORD_BYTES && mask == 255 {
        bytes.push_given(&lanes[..WORD_BYTES]);
    } else if lanes.len() > WORD_BYTES && mask == u64::MAX >> (64 - lanes.len()) {
        push_words(bytes, lanes);
    } else {
        push_lanes(bytes, mask, lanes, 0, lanes.len());
    }
}

/// Appends what is looked at of all lanes of a beat: zeros at the lanes of its mask, if it is marked corrupt.
pub fn push_shown(bytes: &mut Bytes, beat: &AskHead, lanes: &[u8])
    requires aligned { WORD_BYTES ≤ length lanes.now → length bytes.old % WORD_BYTES ≡ 0 }
    requires whole { WORD_BYTES ≤ length lanes.now → length lanes.now % WORD_BYTES ≡ 0 }
    requires in_limit { length lanes.now ≤ MAX_LANES }
    requires room { length bytes.old + length lanes.now ≤ MAX_BYTES }
    ensures { bytes.new ≡ bytes.old
        ++ given_at beat.now.mask (shown_lanes (length lanes.now) beat.now lanes.now) 0 (length lanes.now) }
{
    if beat.corrupt {
        push_beat(bytes, beat.mask, &ZEROS[..lanes.len()]);
    } else {
        push_beat(bytes, beat.mask, lanes);
    }
}
