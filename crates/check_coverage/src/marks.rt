//! Which bytes of a request are given.
ghost use Rattle.std.specs.Prelude.{◌≡◌, ◌∷◌, ◌++◌, [], ◌+◌, ◌%◌, ◌^◌, ◌<◌, ◌≤◌, ◌&&◌, ◌==◌, ℕ, Bool, List, min, if◌then◌else◌};
ghost use Rattle.std.specs.Bool.{beq};
ghost use Rattle.std.specs.Int.{bit_at};
ghost use Rattle.check_beats.specs.Bus.{bus_bytes, low};
ghost use Rattle.check_coverage.specs.Shape.{given_in, marks_of, pattern_of, shape_of};

use check_beats::{AskHead, Bus};
use check_bins::Shape;
use tl_types::{MAX_SIZE, width};

/// What is kept of which bytes of a request are given, of those that its beats have so far: how many there are and how
/// many of them are given, and whether they are exactly those of the lower half, of the upper half, at even and at odd
/// places.
#[derive(Clone, Copy)]
pub struct Marks {
    pub places: u64,
    pub given: u64,
    pub low: bool,
    pub high: bool,
    pub even: bool,
    pub odd: bool,
}

/// Whether a mask has the bit of a lane.
fn is_set(mask: u64, lane: usize) -> bool
    requires { lane < 64 }
    ensures { result ≡ (bit_at mask lane == 1) }
{
    mask >> lane & 1 == 1
}

/// Whether a pattern still fits, with a byte more that is given and would have to be.
fn keeps(fits: bool, given: bool, wanted: bool) -> bool
    ensures { result ≡ (fits && beq given wanted) }
{
    fits && given == wanted
}

/// One more if the byte is given.
fn count_more(count: u64, given: bool) -> u64
    ensures { result ≡ (if given then (count + 1) % 2 ^ 64 else count) }
{
    if given { count.wrapping_add(1) } else { count }
}

impl Marks {
    /// No byte so far.
    pub fn new() -> Marks
        ensures { (size : ℕ) → result ≡ marks_of size [] }
    {
        Marks {
            places: 0,
            given: 0,
            low: true,
            high: true,
            even: true,
            odd: true,
        }
    }

    /// One byte more of a request that has so many.
    fn mark(&mut self, span: u64, given: bool)
        ensures { (size : ℕ) (bytes : List Bool) → span ≡ 2 ^ size → self.old ≡ marks_of size bytes
            → self.new ≡ marks_of size (bytes ++ given ∷ []) }
    {
        if self.places >= span {
            return;
        }
        let is_low = self.places < span - self.places;
        let is_even = self.places % 2 == 0;
        self.low = keeps(self.low, given, is_low);
        self.high = keeps(self.high, given, !is_low);
        self.even = keeps(self.even, given, is_even);
        self.odd = keeps(self.odd, given, !is_even);
        self.given = count_more(self.given, given);
        self.places += 1;
    }

    /// The bytes of one beat more.
    pub fn mark_beat(&mut self, span: u64, bus: Bus, beat: &AskHead)
        requires { beat.now.size ≤ MAX_SIZE }
        ensures { (size : ℕ) (bytes : List Bool) → span ≡ 2 ^ size → self.old ≡ marks_of size bytes
            → self.new ≡ marks_of size (bytes ++ given_in (bus_bytes bus) beat.now) }
    {
        let mask = beat.mask;
        let first = first_lane(bus, beat.address, beat.size);
        let count = bus.bytes().min(width(beat.size));
        for k in 0..count {
            self.mark(span, is_set(mask, first + k));
        }
    }

    /// The first shape that the bytes have.
    pub fn shape(&self, span: u64) -> Shape
        ensures { (size : ℕ) (bytes : List Bool) → span ≡ 2 ^ size → self.now ≡ marks_of size bytes
            → result ≡ shape_of size bytes }
    {
        if self.given == 0 {
            Shape::Empty
        } else if self.given == span {
            Shape::Full
        } else if self.given == 1 {
            Shape::One
        } else if self.given < span && span - self.given == 1 {
            Shape::Hole
        } else {
            self.pattern()
        }
    }

    /// The first pattern that the bytes have.
    fn pattern(&self) -> Shape
        ensures { (size : ℕ) (bytes : List Bool) → self.now ≡ marks_of size bytes
            → result ≡ pattern_of size bytes }
    {
        if self.low {
            Shape::Low
        } else if self.high {
            Shape::High
        } else if self.even {
            Shape::Even
        } else if self.odd {
            Shape::Odd
        } else {
            Shape::Other
        }
    }
}

/// The lane at which a message begins.
fn first_lane(bus: Bus, address: u64, size: u8) -> usize
    requires { size ≤ MAX_SIZE }
    ensures value { result ≡ low address size % bus_bytes bus }
    ensures in_bus { result + min (bus_bytes bus) (2 ^ size) ≤ bus_bytes bus }
{
    let width = width(size) as u64;
    ((address - address % width) % bus.bytes() as u64) as usize
}
