//! The requests in flight, as they are kept.
ghost use Rattle.std.specs.Prelude.{◌≡◌, ◌≤◌, List, ℕ, length, map, filter, find, take_while, not, ◌==◌, ◌&&◌, if◌then◌else◌};
ghost use Rattle.std.specs.Bool.{beq};
ghost use Rattle.std.specs.List.{list_any};
ghost use Rattle.check_beats.specs.Bus.{bus_bytes};
ghost use Rattle.check_coverage.specs.Bins.{contests};
ghost use Rattle.check_coverage.specs.Flights.{InFlight, ends_a_reply, kept, with_beat};
ghost use Rattle.check_coverage.specs.Mirrors.{mirrors_in};

use crate::flight::CountedFlight;
use crate::mirrors::Mirrors;
use crate::times::ends_a_reply;
use check_beats::{AskHead, Bus};
use check_sides::Ended;
use tl_types::MAX_SIZE;

/// The request of a wide source.
pub fn find_of(flights: &[CountedFlight], wide: u16) -> Option<CountedFlight>
    ensures { result ≡ find (λ flight. flight.wide == wide) flights.now }
{
    flights.iter().find(|flight| flight.wide == wide).copied()
}

/// How many requests of a master there are.
pub fn count_of_master(flights: &[CountedFlight], master: usize) -> usize
    ensures { result ≡ length (filter (λ flight. flight.master == master) flights.now) }
{
    flights
        .iter()
        .filter(|flight| flight.master == master)
        .count()
}

/// How many requests of a port there are.
pub fn count_of_port(flights: &[CountedFlight], port: usize) -> usize
    ensures { result ≡ length (filter (λ flight. flight.port == port) flights.now) }
{
    flights.iter().filter(|flight| flight.port == port).count()
}

/// Whether an older request of the same master goes to another port, if that is asked, else to the same.
pub fn is_overtaken(flights: &[CountedFlight], flight: &CountedFlight, elsewhere: bool) -> bool
    ensures { result ≡ list_any
        (λ other. other.master == flight.now.master && beq (not (other.port == flight.now.port)) elsewhere)
        (take_while (λ other. not (other.wide == flight.now.wide)) flights.now) }
{
    for other in flights {
        if other.wide == flight.wide {
            return false;
        }
        if flight.rivals(other, elsewhere) {
            return true;
        }
    }
    false
}

/// Whether another request contests this one. The memories of the ports are seen from here.
pub fn is_contested(flights: &[CountedFlight], flight: &CountedFlight, mirrors: &[Mirrors]) -> bool
    ensures { (before : List InFlight) (this : InFlight) → flights.now ≡ map kept before → flight.now ≡ kept this
        → result ≡ list_any (contests (mirrors_in mirrors.now this.port) this) before }
{
    for other in flights {
        if flight.contests(other, mirrors) {
            return true;
        }
    }
    false
}

/// Takes the request of a wide source out.
fn remove(flights: &mut Vec<CountedFlight>, wide: u16)
    ensures { flights.new.items ≡ filter (λ flight. not (flight.wide == wide)) flights.old.items }
{
    flights.retain(|flight| flight.wide != wide);
}

/// Takes the request of a wide source out, if its reply ends.
pub fn leave(flights: &mut Vec<CountedFlight>, wide: u16, end: Ended)
    ensures { flights.new.items ≡ (if ends_a_reply end
        then filter (λ flight. not (flight.wide == wide)) flights.old.items
        else flights.old.items) }
{
    if ends_a_reply(end) {
        remove(flights, wide);
    }
}

/// Gives one beat more to the request of a wide source.
pub fn grow(flights: &mut Vec<CountedFlight>, wide: u16, bus: Bus, beat: &AskHead, is_whole: bool)
    requires { beat.now.size ≤ MAX_SIZE }
    ensures { (before : List InFlight) → flights.old.items ≡ map kept before
        → flights.new.items ≡ map kept (map (with_beat (bus_bytes bus) wide beat.now is_whole) before) }
{
    for place in 0..flights.len() {
        flights[place] = flights[place].grown(wide, bus, beat, is_whole);
    }
}
