//! Requests as far as they have crossed.
ghost use Rattle.std.specs.Prelude.{◌≡◌, ◌^◌, ◌<◌, ◌≤◌};
ghost use Rattle.tl_types.specs.declared.limits.TheConstants.{MAX_BYTES, MAX_SIZE};

use std::marker::Model;
use tl_types::{Ask, AskOp, Bytes, MAX_SIZE};

/// A request as far as it has crossed. It has the bytes that its beats have carried so far; all else is known from its first
/// beat on.
#[derive(Drop)]
pub struct AskSoFar {
    op: AskOp,
    size: u8,
    source: u16,
    address: u64,
    bytes: Bytes,
}

impl Model for AskSoFar {
    ghost use Rattle.std.specs.Prelude.{◌≤◌};
    ghost use Rattle.tl_types.specs.Request.{Request};
    ghost use Rattle.tl_types.specs.declared.limits.TheConstants.{MAX_SIZE};

    ghost Value = { Request };

    ghost view = { λ a. record {
      op = a.op;
      size = a.size;
      source = a.source;
      address = a.address;
      bytes = a.bytes;
    } };

    ghost invariant = { λ a. a.size ≤ MAX_SIZE };
}

impl AskSoFar {
    /// The request of these parts.
    pub fn new(op: AskOp, size: u8, source: u16, address: u64, bytes: Bytes) -> AskSoFar
        requires { size ≤ MAX_SIZE }
        ensures { result ≡ record {
          op = op;
          size = size;
          source = source;
          address = address;
          bytes = bytes;
        } }
    {
        AskSoFar {
            op,
            size,
            source,
            address,
            bytes,
        }
    }

    /// A request that has crossed as a whole.
    pub fn whole(ask: &Ask) -> AskSoFar
        ensures { result ≡ ask.now }
    {
        // asked for its clause that the size is in the limit
        let _width = ask.width();
        AskSoFar {
            op: ask.op(),
            size: ask.size(),
            source: ask.source(),
            address: ask.address(),
            bytes: ask.bytes().copy(),
        }
    }

    /// What it asks for.
    pub fn op(&self) -> AskOp
        ensures { result ≡ self.now.op }
    {
        self.op
    }

    /// The base-2 logarithm of the number of bytes of its window.
    pub fn size(&self) -> u8
        ensures value { result ≡ self.now.size }
        ensures in_limit { result ≤ MAX_SIZE }
    {
        self.size
    }

    /// How many bytes its window has.
    pub fn width(&self) -> usize
        ensures value { result ≡ 2 ^ self.now.size }
        ensures some { 0 < result }
        ensures in_limit { result ≤ MAX_BYTES }
    {
        1 << self.size
    }

    /// Where its window begins.
    pub fn address(&self) -> u64
        ensures { result ≡ self.now.address }
    {
        self.address
    }

    /// The bytes that it has carried so far.
    pub fn bytes(&self) -> &Bytes
        ensures { result.now ≡ self.now.bytes }
    {
        &self.bytes
    }
}
