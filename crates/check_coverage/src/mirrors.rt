//! Where the memories of ports have the bytes of requests.
ghost use Rattle.std.specs.Prelude.{◌≡◌, ◌+◌, ◌^◌, ◌<◌, ◌≤◌, ◌&&◌, nat_le};
ghost use Rattle.check_memory.specs.Partial.{start_in};
ghost use Rattle.check_coverage.specs.Mirrors.{mirrors_in};

use std::marker::Model;
use tl_map::Range;

/// From where the memory of a port is seen: its first range, and the other addresses from which that is seen too.
#[derive(Drop)]
pub struct Mirrors {
    range: Range,
    others: Vec<u64>,
}

impl Model for Mirrors {
    ghost use Rattle.check_coverage.specs.Mirrors.{MirrorsView};

    ghost Value = { MirrorsView };

    ghost view = { λ m. record { range = m.range; others = m.others.items } };
}

/// Whether a range from a base on holds so many bytes from an address on.
pub(crate) fn holds(base: u64, length: u64, address: u64, span: u64) -> bool
    ensures { result ≡ (nat_le base address && nat_le (address + span) (base + length)) }
{
    base <= address
        && u128::from(address) + u128::from(span) <= u128::from(base) + u128::from(length)
}

impl Mirrors {
    /// A memory of this first range, which is seen from the other addresses on too.
    pub fn new(range: Range, others: Vec<u64>) -> Mirrors
        ensures { result ≡ record { range = range; others = others.items } }
    {
        Mirrors { range, others }
    }

    /// Where the memory has so many bytes from an address on.
    fn start(&self, address: u64, span: u64) -> u128
        ensures value { result ≡ start_in self.now.range self.now.others address span }
        ensures bound { result < 2 ^ 65 }
    {
        for base in &self.others {
            if holds(*base, self.range.length, address, span) {
                return u128::from(self.range.base) + u128::from(address - *base);
            }
        }
        u128::from(address)
    }
}

/// Where the memory of a port has so many bytes from an address on, of those of all ports.
pub fn start_at(mirrors: &[Mirrors], port: usize, address: u64, span: u64) -> u128
    ensures value { result ≡ start_in (mirrors_in mirrors.now port).range (mirrors_in mirrors.now port).others
        address span }
    ensures bound { result < 2 ^ 65 }
{
    match mirrors.get(port) {
        Some(mirrors) => mirrors.start(address, span),
        None => u128::from(address),
    }
}
