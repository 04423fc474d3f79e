//! Bits of a dump as the lanes of a beat.
ghost use Rattle.std.specs.Prelude.{◌≡◌, ◌≤◌, ◌*◌, length};
ghost use Rattle.tl_text.specs.Number.{number_of};
ghost use Rattle.check_due.specs.Lanes.{lanes_of_bits};

use check_beats::MAX_LANES;
use check_samples::is_known;

/// The byte of eight bits, the highest first, if each is known.
fn byte_of(bits: &[u8]) -> Option<u8>
    requires { length bits.now ≡ 8 }
    ensures { result ≡ number_of 2 8 bits.now }
{
    let [a, b, c, d, e, f, g, h] = bits else {
        return None;
    };
    let high = is_known(*a) & is_known(*b) & is_known(*c) & is_known(*d);
    let low = is_known(*e) & is_known(*f) & is_known(*g) & is_known(*h);
    if high & low {
        let high = 8 * (*a % 2) + 4 * (*b % 2) + 2 * (*c % 2) + *d % 2;
        Some(16 * high + 8 * (*e % 2) + 4 * (*f % 2) + 2 * (*g % 2) + *h % 2)
    } else {
        None
    }
}

/// Reads lanes, of which eight bits show each. It answers which of them are known.
pub(crate) fn read_lanes(bits: &[u8], lanes: &mut [u8]) -> u64
    requires whole { length bits.now ≡ 8 * length lanes.old }
    requires in_limit { length lanes.old ≤ MAX_LANES }
    ensures { record { known = result; bytes = lanes.new } ≡ lanes_of_bits (length lanes.old) bits.now }
{
    let count = lanes.len();
    let mut known = 0;
    // the bits of the last lane stand first
    for k in 0..count {
        let lane = byte_of(&bits[8 * k..8 * k + 8]);
        lanes[count - 1 - k] = lane.unwrap_or(0);
        known = 2 * known + u64::from(lane.is_some());
    }
    known
}
