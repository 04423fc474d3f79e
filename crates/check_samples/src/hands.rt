//! The handshakes of channels: valid and ready.
ghost use Rattle.std.specs.Prelude.{◌≡◌};
ghost use Rattle.check_samples.specs.Rows.{crosses, is_one, is_unsure, is_zero, ready_of, some_crosses, unknown_hand, valid_of};
ghost use Rattle.check_samples.specs.Values.{all_before};

use crate::channel::{BeatTaps, Channel};
use crate::edges::Needs;
use crate::signal::Signal;
use crate::values::Values;

/// Whether valid and ready of a channel are both 1.
#[inline(always)]
pub(crate) fn crosses(values: &Values, channel: &Channel) -> bool
    ensures { result ≡ crosses (all_before values.now) channel.now }
{
    is_one(values.before(channel.valid)) && is_one(values.before(channel.ready))
}

/// Whether they are of some channel of the domain at this place.
pub(crate) fn some_crosses(place: usize, values: &Values, channels: &[Channel]) -> bool
    ensures { result ≡ some_crosses place (all_before values.now) channels.now }
{
    for channel in channels {
        if channel.domain == place && crosses(values, channel) {
            return true;
        }
    }
    false
}

/// Whether this is one bit that is 1.
#[inline(always)]
pub(crate) fn is_one(bits: &[u8]) -> bool
    ensures { result ≡ is_one bits.now }
{
    bits == b"1".as_slice()
}

/// Whether this is one bit that is 0.
#[inline(always)]
pub(crate) fn is_zero(bits: &[u8]) -> bool
    ensures { result ≡ is_zero bits.now }
{
    bits == b"0".as_slice()
}

/// Whether this is one bit that is neither 0 nor 1.
fn is_unsure(bits: &[u8]) -> bool
    ensures { result ≡ is_unsure bits.now }
{
    !is_zero(bits) && !is_one(bits)
}

/// The signal of a channel's handshake that has to be known and is not, if there is one.
pub(crate) fn unknown_hand(needs: Needs, values: &Values, channel: &Channel) -> Option<Signal>
    ensures { result ≡ unknown_hand needs (all_before values.now) channel.now }
{
    let valid = values.before(channel.valid);
    let (of_valid, of_ready) = hands_of(&channel.beat);
    if needs.valid && is_unsure(valid) {
        Some(of_valid)
    } else if needs.ready && is_one(valid) && is_unsure(values.before(channel.ready)) {
        Some(of_ready)
    } else {
        None
    }
}

/// The signals of a channel's handshake: valid and ready.
fn hands_of(beat: &BeatTaps) -> (Signal, Signal)
    ensures valid { result.0 ≡ valid_of beat.now }
    ensures ready { result.1 ≡ ready_of beat.now }
{
    match beat {
        BeatTaps::A(_) => (Signal::AValid, Signal::AReady),
        BeatTaps::D(_) => (Signal::DValid, Signal::DReady),
    }
}
