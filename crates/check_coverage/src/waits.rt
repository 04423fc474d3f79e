//! What is counted by the time since another beat.
ghost use Rattle.std.specs.Prelude.{◌≡◌, ◌-◌, OnOk};
ghost use Rattle.check_beats.specs.Rules.{clocks_in};
ghost use Rattle.check_coverage.specs.Bins.{again, gap_bins, latency_bins, reply_times_bins, step_of};
ghost use Rattle.check_coverage.specs.Flights.{InFlight, kept};
ghost use Rattle.check_bins.specs.Counting.{Adds};

use crate::flight::CountedFlight;
use crate::times::Times;
use check_beats::LinkRules;
use check_bins::{Bin, CountedChannel, Counts};
use std::alloc::AllocError;

/// The least of the step that so many clocks are in.
fn step_of(clocks: u64) -> u64
    ensures { result ≡ step_of clocks }
{
    match clocks {
        0..=3 => clocks,
        4..=7 => 4,
        8..=15 => 8,
        _ => 16,
    }
}

/// The least of the step of the clocks from one time to another.
fn step_between(rules: LinkRules, from: u64, to: u64) -> u64
    ensures { result ≡ step_of (clocks_in rules (to - from)) }
{
    step_of(rules.clocks(to.saturating_sub(from)))
}

/// Counts a source that had a request before.
pub fn count_again(
    counts: &mut Counts,
    rules: LinkRules,
    flight: &CountedFlight,
    time: u64,
    answered: Option<u64>,
) -> Result<(), AllocError>
    ensures { (this : InFlight) → flight.now ≡ kept this
        → OnOk result (Adds counts.old counts.new (again rules this time answered)) }
{
    match answered {
        Some(answered) => counts.add(Bin::Again(
            flight.master,
            step_between(rules, answered, time),
        )),
        None => Ok(()),
    }
}

/// Counts a beat of a message, if one of the same message came before.
pub fn count_gap(
    counts: &mut Counts,
    rules: LinkRules,
    channel: CountedChannel,
    time: u64,
    before: Option<u64>,
    flight: &CountedFlight,
) -> Result<(), AllocError>
    ensures { (this : InFlight) → flight.now ≡ kept this
        → OnOk result (Adds counts.old counts.new (gap_bins rules channel time before this)) }
{
    match before {
        Some(before) => counts.add(Bin::Gap(
            flight.pair(),
            channel,
            step_between(rules, before, time),
        )),
        None => Ok(()),
    }
}

/// Counts the first beat of a reply.
fn count_latency(
    counts: &mut Counts,
    rules: LinkRules,
    time: u64,
    times: Times,
    flight: &CountedFlight,
) -> Result<(), AllocError>
    ensures { (this : InFlight) → flight.now ≡ kept this
        → OnOk result (Adds counts.old counts.new (latency_bins rules time times this)) }
{
    if times.replied.is_some() {
        return Ok(());
    }
    counts.add(Bin::Latency(flight.port, step_between(rules, times.began, time)))
}

/// Counts a beat of a reply by its time.
pub fn count_reply_times(
    counts: &mut Counts,
    rules: LinkRules,
    time: u64,
    times: Times,
    flight: &CountedFlight,
) -> Result<(), AllocError>
    ensures { (this : InFlight) → flight.now ≡ kept this
        → OnOk result (Adds counts.old counts.new (reply_times_bins rules time times this)) }
{
    count_latency(counts, rules, time, times, flight)?;
    count_gap(
        counts,
        rules,
        CountedChannel::D,
        time,
        times.replied,
        flight,
    )
}
