//! How many bits the signals of a link have.
ghost use Rattle.std.specs.Prelude.{◌≡◌};
ghost use Rattle.check_beats.specs.Bus.{bus_bytes};
ghost use Rattle.check_signals.specs.Wanted.{bits_fit, constant_bits, count_of, may_be_absent, may_be_unfound, wanted_of};

use check_beats::Bus;
use check_samples::Signal;

/// How many bits a signal has.
#[derive(Debug, Clone, Copy, PartialEq, Eq)]
pub enum Wanted {
    Exactly(u64),
    AtMost(u64),
    /// The same of a signal that a design may leave out, as a wire says.
    Optional(u64),
    /// The same of a signal that most designs leave out, so that a prefix need not find it.
    Extra(u64),
}

impl Wanted {
    /// Whether so many bits are right.
    pub fn fits(self, bits: u64) -> bool
        ensures { result ≡ bits_fit self bits }
    {
        match self {
            Wanted::Exactly(count) => bits == count,
            Wanted::AtMost(count) | Wanted::Optional(count) | Wanted::Extra(count) => bits <= count,
        }
    }

    /// How many bits a constant has: each of a mask and of data; a number and a flag are 0 or 1, which one bit spells.
    pub fn constant_bits(self) -> u64
        ensures { result ≡ constant_bits self }
    {
        match self {
            Wanted::Exactly(count) => count,
            Wanted::AtMost(_) | Wanted::Optional(_) | Wanted::Extra(_) => 1,
        }
    }

    /// Whether a design may leave the signal out.
    pub fn may_be_absent(self) -> bool
        ensures { result ≡ may_be_absent self }
    {
        matches!(self, Wanted::Optional(_) | Wanted::Extra(_))
    }

    /// Whether it is left out if a prefix does not find it.
    pub fn may_be_unfound(self) -> bool
        ensures { result ≡ may_be_unfound self }
    {
        matches!(self, Wanted::Extra(_))
    }

    /// The count of bits that it speaks of.
    pub fn count(self) -> u64
        ensures { result ≡ count_of self }
    {
        match self {
            Wanted::Exactly(count)
            | Wanted::AtMost(count)
            | Wanted::Optional(count)
            | Wanted::Extra(count) => count,
        }
    }
}

/// How many bits a signal has at a link with this bus.
pub fn wanted_of(signal: Signal, bus: Bus) -> Wanted
    ensures { result ≡ wanted_of signal (bus_bytes bus) }
{
    match signal {
        Signal::AMask => Wanted::Exactly(bus.bytes() as u64),
        Signal::AData | Signal::DData => Wanted::Exactly(8 * bus.bytes() as u64),
        Signal::AOpcode | Signal::AParam | Signal::ASize | Signal::DOpcode | Signal::DSize => {
            Wanted::AtMost(8)
        }
        Signal::ASource | Signal::DSource => Wanted::AtMost(16),
        Signal::AAddress => Wanted::AtMost(64),
        Signal::AValid | Signal::AReady | Signal::DValid | Signal::DReady | Signal::DDenied =>
            Wanted::AtMost(1),
        Signal::ACorrupt => Wanted::Extra(1),
        Signal::DParam => Wanted::Extra(8),
        Signal::DCorrupt => Wanted::Optional(1),
    }
}
