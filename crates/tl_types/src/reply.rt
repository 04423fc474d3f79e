//! Replies on channel D.
ghost use Rattle.std.specs.Prelude.{◌≡◌, ◌↔◌, ◌*◌, ◌≤◌, [], false, length, IsOk, IfOk, IfErr};
ghost use Rattle.tl_types.specs.Bytes.{bytes_of_words};
ghost use Rattle.tl_types.specs.declared.operation.ReplyOp.TheVariants.{AccessAck};
ghost use Rattle.tl_types.specs.Response.{IsLawfulResponse, IsFirstReplyFault};

use crate::limits::{MAX_BYTES, MAX_SIZE, WORD_BYTES};
use crate::operation::ReplyOp;
use crate::room::refill_room;
use arrayvec::ArrayVec;
use std::marker::Model;
use thiserror::Error;

/// Room for the bytes of any message.
const ZEROS: [u8; MAX_BYTES] = [0; MAX_BYTES];

/// A reply, of lawful size and byte count, whose bytes are zero if it is denied.
// The bytes stand first, as in a request.
#[derive(Debug, Drop)]
pub struct Reply {
    bytes: ArrayVec<u8, MAX_BYTES>,
    source: u16,
    size: u8,
    denied: bool,
    op: ReplyOp,
}

/// Why parts make no reply.
#[derive(Debug, Clone, Copy, PartialEq, Eq, Error)]
pub enum ReplyFault {
    #[error("the size is over the limit")]
    TooLarge,
    #[error("the number of bytes is not the message's")]
    WrongCount,
    #[error("a denied reply has a byte that is not zero")]
    DirtyDenied,
}

impl Model for Reply {
    ghost use Rattle.tl_types.specs.Response.{Response, IsLawfulResponse};

    ghost Value = { Response };

    ghost view = { λ r. record {
      op = r.op;
      size = r.size;
      source = r.source;
      denied = r.denied;
      bytes = r.bytes.items;
    } };

    ghost invariant = { λ r. IsLawfulResponse r.op r.size r.denied r.bytes.items };
}

impl Reply {
    /// The reply of these parts, or the first fault that they have.
    pub fn new(
        op: ReplyOp,
        size: u8,
        source: u16,
        denied: bool,
        bytes: &[u8],
    ) -> Result<Reply, ReplyFault>
        ensures ok { IsOk result ↔ IsLawfulResponse op size denied bytes.now }
        ensures parts { IfOk result (λ r. r ≡ record {
          op = op;
          size = size;
          source = source;
          denied = denied;
          bytes = bytes.now;
        }) }
        ensures fault { IfErr result (IsFirstReplyFault op size denied bytes.now) }
    {
        if size > MAX_SIZE {
            return Err(ReplyFault::TooLarge);
        }
        if bytes.len() != op.byte_count(size) {
            return Err(ReplyFault::WrongCount);
        }
        if denied && bytes.iter().any(|b| *b != 0) {
            return Err(ReplyFault::DirtyDenied);
        }
        Ok(Reply {
            op,
            size,
            source,
            denied,
            bytes: ArrayVec::try_from(bytes).unwrap(),
        })
    }

    /// The reply of these parts, which make one.
    pub fn from_parts(
        op: ReplyOp,
        size: u8,
        source: u16,
        denied: bool,
        bytes: ArrayVec<u8, MAX_BYTES>,
    ) -> Reply
        requires { IsLawfulResponse op size denied bytes.items }
        ensures { result ≡ record {
          op = op;
          size = size;
          source = source;
          denied = denied;
          bytes = bytes.items;
        } }
    {
        Reply {
            op,
            size,
            source,
            denied,
            bytes,
        }
    }

    /// An acknowledgement of one byte to source 0: room for replies that are written one after the other.
    pub fn blank() -> Reply
        ensures { result ≡ record {
          op = AccessAck;
          size = 0;
          source = 0;
          denied = false;
          bytes = [];
        } }
    {
        Reply {
            op: ReplyOp::AccessAck,
            size: 0,
            source: 0,
            denied: false,
            bytes: ArrayVec::new(),
        }
    }

    /// Puts the reply of these parts, which make one, in the place of the one that there was.
    // no more bytes are moved than it has: the room for the longest reply stays where it is
    pub fn refill(&mut self, op: ReplyOp, size: u8, source: u16, denied: bool, bytes: &[u8])
        requires { IsLawfulResponse op size denied bytes.now }
        ensures { self.new ≡ record {
          op = op;
          size = size;
          source = source;
          denied = denied;
          bytes = bytes.now;
        } }
    {
        refill_room(&mut self.bytes, bytes);
        self.op = op;
        self.size = size;
        self.source = source;
        self.denied = denied;
    }

    /// As `refill`, with the bytes of whole words of the bus, the lowest byte of each first.
    pub fn refill_words(&mut self, op: ReplyOp, size: u8, source: u16, denied: bool, words: &[u64])
        requires { IsLawfulResponse op size denied (bytes_of_words words.now) }
        ensures { self.new ≡ record {
          op = op;
          size = size;
          source = source;
          denied = denied;
          bytes = bytes_of_words words.now;
        } }
    {
        refill_words(&mut self.bytes, words);
        self.op = op;
        self.size = size;
        self.source = source;
        self.denied = denied;
    }

    /// The opcode.
    pub fn op(&self) -> ReplyOp
        ensures { result ≡ self.now.op }
    {
        self.op
    }

    /// The size, as the base-2 logarithm of a number of bytes.
    pub fn size(&self) -> u8
        ensures value { result ≡ self.now.size }
        ensures in_limit { result ≤ MAX_SIZE }
    {
        self.size
    }

    /// The source of the request.
    pub fn source(&self) -> u16
        ensures { result ≡ self.now.source }
    {
        self.source
    }

    /// Whether the request was denied.
    pub fn denied(&self) -> bool
        ensures { result ≡ self.now.denied }
    {
        self.denied
    }

    /// The bytes that the reply carries.
    pub fn bytes(&self) -> &[u8]
        ensures value { result.now ≡ self.now.bytes }
        ensures lawful { IsLawfulResponse self.now.op self.now.size self.now.denied self.now.bytes }
    {
        self.bytes.as_slice()
    }

    /// The same reply.
    pub fn copy(&self) -> Reply
        ensures { result ≡ self.now }
    {
        self.with_source(self.source)
    }

    /// The same reply to another source.
    pub fn with_source(&self, source: u16) -> Reply
        ensures { result ≡ record self.now { source = source } }
    {
        Reply {
            op: self.op,
            size: self.size,
            source,
            denied: self.denied,
            bytes: ArrayVec::try_from(self.bytes.as_slice()).unwrap(),
        }
    }
}

/// Puts the bytes of words in the place of those that there were.
// they are made room for at once, so that each word is written where it stays, with no length to keep
fn refill_words(bytes: &mut ArrayVec<u8, MAX_BYTES>, words: &[u64])
    requires { length (bytes_of_words words.now) ≤ MAX_BYTES }
    ensures { bytes.new.items ≡ bytes_of_words words.now }
{
    let count = WORD_BYTES * words.len();
    if bytes.len() != count {
        bytes.clear();
        bytes.try_extend_from_slice(&ZEROS[..count]).unwrap();
    }
    write_words(bytes.as_mut_slice(), words);
}

/// Writes the bytes of words over as many others.
fn write_words(bytes: &mut [u8], words: &[u64])
    requires { length bytes.old ≡ WORD_BYTES * length words.now }
    ensures { bytes.new ≡ bytes_of_words words.now }
{
    for k in 0..words.len() {
        let place = WORD_BYTES * k;
        bytes[place..place + WORD_BYTES].copy_from_slice(&words[k].to_le_bytes());
    }
}
