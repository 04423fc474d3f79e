//! A request in flight, as it is kept.
ghost use Rattle.std.specs.Prelude.{◌≡◌, ◌≤◌, ◌<◌, ◌^◌, ◌==◌, ◌&&◌, not};
ghost use Rattle.std.specs.Bool.{beq};
ghost use Rattle.check_beats.specs.Bus.{bus_bytes};
ghost use Rattle.check_coverage.specs.Bins.{bin_pair, cause_of, contests, meets, operation_of, overlap};
ghost use Rattle.check_coverage.specs.Flights.{InFlight, kept, with_beat};
ghost use Rattle.check_coverage.specs.Mirrors.{mirrors_in};
ghost use Rattle.check_memory.specs.Partial.{start_in};

use crate::marks::Marks;
use crate::mirrors::{Mirrors, start_at};
use crate::ranges::RangePlace;
use check_beats::{AskHead, Bus};
use check_bins::{Cause, Operation, Pair};
use tl_types::MAX_SIZE;

/// A request in flight: its wide source, its master, the master's own source, its port, its first beat, how many bytes its size
/// stands for, whether its address is no multiple of that, whether decoders find a port for it, where it stands in the ranges
/// of its port, which of its bytes are given so far, and whether it is whole.
#[derive(Clone, Copy)]
pub struct CountedFlight {
    pub wide: u16,
    pub master: usize,
    pub source: u16,
    pub port: usize,
    pub first: AskHead,
    pub span: u64,
    pub is_unaligned: bool,
    pub is_found: bool,
    pub place: Option<RangePlace>,
    pub marks: Marks,
    pub is_whole: bool,
}

impl CountedFlight {
    /// The request with one beat more of a wide source, if it is of this.
    pub fn grown(self, wide: u16, bus: Bus, beat: &AskHead, is_whole: bool) -> CountedFlight
        requires { beat.now.size ≤ MAX_SIZE }
        ensures { (flight : InFlight) → self ≡ kept flight
            → result ≡ kept (with_beat (bus_bytes bus) wide beat.now is_whole flight) }
    {
        if self.wide != wide {
            return self;
        }
        let mut marks = self.marks;
        marks.mark_beat(self.span, bus, beat);
        CountedFlight {
            wide: self.wide,
            master: self.master,
            source: self.source,
            port: self.port,
            first: self.first,
            span: self.span,
            is_unaligned: self.is_unaligned,
            is_found: self.is_found,
            place: self.place,
            marks,
            is_whole,
        }
    }

    pub fn pair(&self) -> Pair
        ensures { (flight : InFlight) → self.now ≡ kept flight → result ≡ bin_pair flight }
    {
        Pair {
            master: self.master,
            port: self.port,
        }
    }

    pub fn operation(&self) -> Operation
        ensures { (flight : InFlight) → self.now ≡ kept flight → result ≡ operation_of flight }
    {
        Operation {
            opcode: self.first.opcode,
            param: self.first.param,
            size: self.first.size,
        }
    }

    /// Why the request is denied, if it is.
    pub fn cause(&self) -> Cause
        ensures { (flight : InFlight) → self.now ≡ kept flight → result ≡ cause_of flight }
    {
        match self.place {
            Some(_) if self.is_unaligned => Cause::Unaligned,
            Some(place) if !place.is_within => Cause::Beyond,
            Some(_) => Cause::Unserved,
            None if self.is_found => Cause::NoPath,
            None => Cause::Nowhere,
        }
    }

    /// Where the memory of the port of this request has another one.
    fn place_of(&self, other: &CountedFlight, mirrors: &[Mirrors]) -> u128
        ensures value { result ≡ start_in (mirrors_in mirrors.now self.now.port).range
            (mirrors_in mirrors.now self.now.port).others other.now.first.address other.now.span }
        ensures bound { result < 2 ^ 65 }
    {
        start_at(mirrors, self.port, other.first.address, other.span)
    }

    /// Whether the requests have a byte of that memory in common.
    pub fn overlaps(&self, other: &CountedFlight, mirrors: &[Mirrors]) -> bool
        ensures { (flight rival : InFlight) → self.now ≡ kept flight → other.now ≡ kept rival
            → result ≡ overlap (mirrors_in mirrors.now flight.port) flight.first rival.first }
    {
        let here = self.place_of(self, mirrors);
        let there = self.place_of(other, mirrors);
        here < there + u128::from(other.span) && there < here + u128::from(self.span)
    }

    /// Whether they have, and one of them writes.
    fn meets(&self, other: &CountedFlight, mirrors: &[Mirrors]) -> bool
        ensures { (flight rival : InFlight) → self.now ≡ kept flight → other.now ≡ kept rival
            → result ≡ meets (mirrors_in mirrors.now flight.port) flight.first rival.first }
    {
        self.overlaps(other, mirrors) && (self.first.opcode < 4 || other.first.opcode < 4)
    }

    /// Whether another request is of the same master, and goes to another port, if that is asked, else to the same.
    pub fn rivals(&self, other: &CountedFlight, elsewhere: bool) -> bool
        ensures { result ≡ (other.now.master == self.now.master
            && beq (not (other.now.port == self.now.port)) elsewhere) }
    {
        other.master == self.master && (other.port != self.port) == elsewhere
    }

    /// Whether another request of the same port, which is whole, meets this one. The memories of the ports are seen from
    /// here.
    pub fn contests(&self, other: &CountedFlight, mirrors: &[Mirrors]) -> bool
        ensures { (flight rival : InFlight) → self.now ≡ kept flight → other.now ≡ kept rival
            → result ≡ contests (mirrors_in mirrors.now flight.port) flight rival }
    {
        other.wide != self.wide
            && other.port == self.port
            && other.is_whole
            && self.meets(other, mirrors)
    }
}
