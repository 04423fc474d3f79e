//! Requests on channel A.
ghost use Rattle.std.specs.Prelude.{◌≡◌, ◌↔◌, ◌<◌, ◌≤◌, ◌^◌, [], length, map, slice_index, IsOk, IfOk, IfErr, Some};
ghost use Rattle.tl_types.specs.Bytes.{given_in};
ghost use Rattle.tl_types.specs.Operation.{byte_count};
ghost use Rattle.tl_types.specs.declared.operation.AskOp.TheVariants.{Get};
ghost use Rattle.tl_types.specs.Request.{IsLawfulRequest, IsFirstAskFault};

use crate::bytes::Bytes;
use crate::limits::{MAX_BYTES, MAX_SIZE};
use crate::operation::{AskOp, width};
use std::marker::Model;
use thiserror::Error;

/// A request, of lawful size and byte count.
// The bytes stand first and the small fields last: a move copies whole words, and padding before a large field would
// make each move wait for the stores of the one before it.
#[derive(Debug, Drop)]
pub struct Ask {
    bytes: Bytes,
    address: u64,
    source: u16,
    size: u8,
    op: AskOp,
}

/// Why parts make no request.
#[derive(Debug, Clone, Copy, PartialEq, Eq, Error)]
pub enum AskFault {
    #[error("the size is over the limit")]
    TooLarge,
    #[error("the number of bytes is not the message's")]
    WrongCount,
    #[error("a byte is left unset")]
    HoleInFull,
}

impl Model for Ask {
    ghost use Rattle.tl_types.specs.Request.{Request, IsLawfulRequest};

    ghost Value = { Request };

    ghost view = { λ a. record {
      op = a.op;
      size = a.size;
      source = a.source;
      address = a.address;
      bytes = a.bytes;
    } };

    ghost invariant = { λ a. IsLawfulRequest a.op a.size a.bytes };
}

impl Ask {
    /// The request of these parts, or the first fault that they have.
    pub fn new(
        op: AskOp,
        size: u8,
        source: u16,
        address: u64,
        bytes: &[Option<u8>],
    ) -> Result<Ask, AskFault>
        ensures ok { IsOk result ↔ IsLawfulRequest op size bytes.now }
        ensures parts { IfOk result (λ ask. ask ≡ record {
          op = op;
          size = size;
          source = source;
          address = address;
          bytes = bytes.now;
        }) }
        ensures fault { IfErr result (IsFirstAskFault op size bytes.now) }
    {
        if size > MAX_SIZE {
            return Err(AskFault::TooLarge);
        }
        if bytes.len() != op.byte_count(size) {
            return Err(AskFault::WrongCount);
        }
        if !op.may_leave_unset() && bytes.iter().any(|b| b.is_none()) {
            return Err(AskFault::HoleInFull);
        }
        Ok(Ask {
            op,
            size,
            source,
            address,
            bytes: Bytes::of(bytes),
        })
    }

    /// The request of these parts, which make one.
    pub fn from_parts(op: AskOp, size: u8, source: u16, address: u64, bytes: Bytes) -> Ask
        requires { IsLawfulRequest op size bytes }
        ensures { result ≡ record {
          op = op;
          size = size;
          source = source;
          address = address;
          bytes = bytes;
        } }
    {
        Ask {
            op,
            size,
            source,
            address,
            bytes,
        }
    }

    /// A get of one byte at address 0 from source 0: room for requests that are read one after the other.
    pub fn blank() -> Ask
        ensures { result ≡ record {
          op = Get;
          size = 0;
          source = 0;
          address = 0;
          bytes = [];
        } }
    {
        Ask {
            op: AskOp::Get,
            size: 0,
            source: 0,
            address: 0,
            bytes: Bytes::new(),
        }
    }

    /// Puts the request of these parts, which make one, in the place of the one that there was.
    // no more bytes are moved than it has: the room for the longest request stays where it is
    pub fn refill(&mut self, op: AskOp, size: u8, source: u16, address: u64, bytes: &[Option<u8>])
        requires { IsLawfulRequest op size bytes.now }
        ensures { self.new ≡ record {
          op = op;
          size = size;
          source = source;
          address = address;
          bytes = bytes.now;
        } }
    {
        self.bytes.refill(bytes);
        self.op = op;
        self.size = size;
        self.source = source;
        self.address = address;
    }

    /// As `refill`, with bytes that are all given.
    pub fn refill_given(&mut self, op: AskOp, size: u8, source: u16, address: u64, bytes: &[u8])
        requires { IsLawfulRequest op size (map (λ byte. Some byte) bytes.now) }
        ensures { self.new ≡ record {
          op = op;
          size = size;
          source = source;
          address = address;
          bytes = map (λ byte. Some byte) bytes.now;
        } }
    {
        self.bytes.refill_given(bytes);
        self.op = op;
        self.size = size;
        self.source = source;
        self.address = address;
    }

    /// As `refill`, with a copy of these bytes.
    pub fn refill_from(&mut self, op: AskOp, size: u8, source: u16, address: u64, bytes: &Bytes)
        requires { IsLawfulRequest op size bytes.now }
        ensures { self.new ≡ record {
          op = op;
          size = size;
          source = source;
          address = address;
          bytes = bytes.now;
        } }
    {
        self.bytes.refill_from(bytes);
        self.op = op;
        self.size = size;
        self.source = source;
        self.address = address;
    }

    /// As `refill`, with bytes of which one is left unset if its flag is zero.
    pub fn refill_flagged(
        &mut self,
        op: AskOp,
        size: u8,
        source: u16,
        address: u64,
        bytes: &[u8],
        flags: &[u8],
    )
        requires lawful { IsLawfulRequest op size (given_in (slice_index flags.now) bytes.now) }
        requires flags { length bytes.now ≤ length flags.now }
        ensures { self.new ≡ record {
          op = op;
          size = size;
          source = source;
          address = address;
          bytes = given_in (slice_index flags.now) bytes.now;
        } }
    {
        self.bytes.refill_flagged(bytes, flags);
        self.op = op;
        self.size = size;
        self.source = source;
        self.address = address;
    }

    /// The operation.
    pub fn op(&self) -> AskOp
        ensures { result ≡ self.now.op }
    {
        self.op
    }

    /// The size, as the base-2 logarithm of a number of bytes.
    pub fn size(&self) -> u8
        ensures value { result ≡ self.now.size }
        ensures in_limit { result ≤ MAX_SIZE }
    {
        self.size
    }

    /// The number of bytes that the request names, from its address on.
    pub fn width(&self) -> usize
        ensures value { result ≡ 2 ^ self.now.size }
        ensures some { 0 < result }
        ensures in_limit { result ≤ MAX_BYTES }
    {
        width(self.size)
    }

    /// The source.
    pub fn source(&self) -> u16
        ensures { result ≡ self.now.source }
    {
        self.source
    }

    /// The address of the first byte.
    pub fn address(&self) -> u64
        ensures { result ≡ self.now.address }
    {
        self.address
    }

    /// The bytes that the request carries.
    pub fn bytes(&self) -> &Bytes
        ensures value { result.now ≡ self.now.bytes }
        ensures lawful { IsLawfulRequest self.now.op self.now.size self.now.bytes }
    {
        &self.bytes
    }

    /// The same request.
    pub fn copy(&self) -> Ask
        ensures { result ≡ self.now }
    {
        self.with_source(self.source)
    }

    /// The same request from another source.
    pub fn with_source(&self, source: u16) -> Ask
        ensures { result ≡ record self.now { source = source } }
    {
        Ask {
            op: self.op,
            size: self.size,
            source,
            address: self.address,
            bytes: self.bytes.copy(),
        }
    }
}
