//! What each beat of a message adds, the last one or not.
ghost use Rattle.std.specs.Prelude.{◌≡◌, OnOk};
ghost use Rattle.check_bins.specs.Counting.{Adds};
ghost use Rattle.check_coverage.specs.Bins.{ask_part_bins, corrupt_bins, reply_part_bins};
ghost use Rattle.check_coverage.specs.Flights.{InFlight, kept};

use crate::flight::CountedFlight;
use crate::times::Times;
use crate::waits::{count_gap, count_reply_times};
use check_beats::LinkRules;
use check_bins::{Bin, CountedChannel, Counts};
use std::alloc::AllocError;

/// Counts a beat, if it is corrupt.
fn count_corrupt(
    counts: &mut Counts,
    is_corrupt: bool,
    is_reply: bool,
    flight: &CountedFlight,
) -> Result<(), AllocError>
    ensures { (this : InFlight) → flight.now ≡ kept this
        → OnOk result (Adds counts.old counts.new (corrupt_bins is_corrupt is_reply this)) }
{
    counts.add_if(
        is_corrupt,
        Bin::Corrupt(flight.pair(), flight.operation(), is_reply),
    )
}

/// Counts what a beat of a request adds. One of the same request came before at that time, if one did.
pub fn count_ask_part(
    counts: &mut Counts,
    rules: LinkRules,
    time: u64,
    before: Option<u64>,
    is_corrupt: bool,
    flight: &CountedFlight,
) -> Result<(), AllocError>
    ensures { (this : InFlight) → flight.now ≡ kept this
        → OnOk result (Adds counts.old counts.new (ask_part_bins rules time before is_corrupt this)) }
{
    count_gap(counts, rules, CountedChannel::A, time, before, flight)?;
    count_corrupt(counts, is_corrupt, false, flight)
}

/// Counts what a beat of a reply adds.
pub fn count_reply_part(
    counts: &mut Counts,
    rules: LinkRules,
    time: u64,
    times: Times,
    is_corrupt: bool,
    flight: &CountedFlight,
) -> Result<(), AllocError>
    ensures { (this : InFlight) → flight.now ≡ kept this
        → OnOk result (Adds counts.old counts.new (reply_part_bins rules time times is_corrupt this)) }
{
    count_reply_times(counts, rules, time, times, flight)?;
    count_corrupt(counts, is_corrupt, true, flight)
}
