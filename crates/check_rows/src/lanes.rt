//! The lanes of a beat, as a waveform shows them.
ghost use Rattle.std.specs.Prelude.{◌≡◌, ◌≤◌, ◌*◌, ◌-◌, ◌^◌, true, Some, length};
ghost use Rattle.check_beats.specs.Bus.{bus_bytes};
ghost use Rattle.check_beats.specs.declared.bus.TheConstants.{MAX_LANES};
ghost use Rattle.check_rows.specs.Lanes.{SeenLanes, lane_of_digits, lanes_in, lanes_of, shown_by, shown_in};

use crate::digit::{UNKNOWN, digit_code};
use crate::fault::RowFault;
use crate::number::all_lanes;
use check_beats::{Bus, MAX_LANES};

/// What two digits say of a lane, if they are digits: its byte, or that it is unknown.
#[inline(always)]
fn read_lane(high: u8, low: u8) -> Option<Option<u8>>
    ensures { result ≡ lane_of_digits high low }
{
    let high = digit_code(high);
    let low = digit_code(low);
    let worst = high.max(low);
    if worst < UNKNOWN {
        Some(Some(16 * high + low))
    } else if worst == UNKNOWN {
        Some(None)
    } else {
        None
    }
}

/// Reads lanes that are all known, of which two digits show each. It answers whether they are.
fn read_known(word: &[u8], lanes: &mut [u8]) -> bool
    requires whole { length word.now ≡ 2 * length lanes.old }
    requires in_limit { length lanes.old ≤ MAX_LANES }
    ensures { result ≡ true
        → shown_in lanes.new (Some (2 ^ length lanes.old - 1)) ≡ shown_by (length lanes.old) word.now }
{
    let count = lanes.len();
    // the digits of the last lane stand first
    for k in 0..count {
        let high = digit_code(word[2 * k]);
        let low = digit_code(word[2 * k + 1]);
        if high.max(low) >= UNKNOWN {
            return false;
        }
        lanes[count - 1 - k] = 16 * high + low;
    }
    true
}

/// Reads lanes, of which two digits show each. It answers which of them are known.
fn read_shown(word: &[u8], lanes: &mut [u8]) -> Option<u64>
    requires whole { length word.now ≡ 2 * length lanes.old }
    requires in_limit { length lanes.old ≤ MAX_LANES }
    ensures { shown_in lanes.new result ≡ shown_by (length lanes.old) word.now }
{
    let count = lanes.len();
    let mut known = 0;
    // the digits of the last lane stand first
    for k in 0..count {
        let lane = read_lane(word[2 * k], word[2 * k + 1])?;
        lanes[count - 1 - k] = lane.unwrap_or(0);
        known = 2 * known + u64::from(lane.is_some());
    }
    Some(known)
}

/// Reads the lanes that a word shows: two digits for each, or none for known zeros. They stand in the first places of
/// the buffer then, and the answer is which of them are known.
#[tactic(auto, unfolding(crate::specs::Lanes::lanes_of))]
pub fn read_lanes(bus: Bus, word: &[u8], lanes: &mut [u8; MAX_LANES]) -> Result<u64, RowFault>
    ensures { lanes_in (bus_bytes bus) lanes.new result ≡ lanes_of (bus_bytes bus) word.now }
{
    let count = bus.bytes();
    if word.is_empty() {
        lanes[..count].fill(0);
        Ok(all_lanes(bus))
    } else if word.len() == 2 * count {
        // most words are known, and take less work then
        if read_known(word, &mut lanes[..count]) {
            return Ok(all_lanes(bus));
        }
        read_shown(word, &mut lanes[..count]).ok_or(RowFault::Number)
    } else {
        Err(RowFault::Number)
    }
}
