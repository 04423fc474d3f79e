//! Requests beside the ones before them at the same port.
ghost use Rattle.std.specs.Prelude.{◌≡◌, Option, OnOk, option_map};
ghost use Rattle.check_sides.specs.Plan.{Plan};
ghost use Rattle.check_coverage.specs.Bins.{access_of, after_by};
ghost use Rattle.check_coverage.specs.Flights.{InFlight, ends_an_ask, kept};
ghost use Rattle.check_coverage.specs.Latest.{is_last_ask};
ghost use Rattle.check_coverage.specs.Mirrors.{HasMirrors, mirrors_at};
ghost use Rattle.check_bins.specs.Counting.{Adds};

use crate::flight::CountedFlight;
use crate::mirrors::Mirrors;
use crate::times::ends_an_ask;
use check_bins::{Access, Bin, Counts};
use check_sides::{Beat, Ended};
use std::alloc::AllocError;

/// What a request with an opcode does to its bytes.
fn access_of(opcode: u8) -> Access
    ensures { result ≡ access_of opcode }
{
    if opcode < 2 {
        Access::Write
    } else if opcode < 4 {
        Access::Atomic
    } else if opcode == 4 {
        Access::Read
    } else {
        Access::Hint
    }
}

/// Whether a beat that ends this is the last one of a request.
pub fn is_last_ask(beat: &Beat, end: Ended) -> bool
    ensures { result ≡ is_last_ask beat.now end }
{
    match beat {
        Beat::A(_) => ends_an_ask(end),
        Beat::D(_) => false,
    }
}

/// Counts a request that has a byte in common with the one before it. The memories of the ports are seen from here.
pub fn count_after(
    counts: &mut Counts,
    mirrors: &[Mirrors],
    flight: &CountedFlight,
    latest: Option<CountedFlight>,
) -> Result<(), AllocError>
    ensures { (plan : Plan) (this : InFlight) (before : Option InFlight) → HasMirrors plan mirrors.now
        → flight.now ≡ kept this → latest ≡ option_map kept before
        → OnOk result (Adds counts.old counts.new (after_by (mirrors_at plan this.port) this before)) }
{
    match latest {
        Some(latest) => counts.add_if(
            flight.overlaps(&latest, mirrors),
            Bin::After(
                flight.port,
                access_of(latest.first.opcode),
                access_of(flight.first.opcode),
            ),
        ),
        None => Ok(()),
    }
}
