//! The operations of requests and the opcodes of replies, and how many bytes each carries.
ghost use Rattle.std.specs.Prelude.{◌≡◌, ◌<◌, ◌≤◌, ◌^◌};
ghost use Rattle.tl_types.specs.Operation.{carries_bytes, byte_count, may_leave_unset, reply_op_of};
ghost use Rattle.tl_types.specs.Operation.{reply_carries_bytes, reply_byte_count};

use crate::limits::{MAX_BYTES, MAX_SIZE};

/// The arithmetic atomics.
#[derive(Debug, Clone, Copy, PartialEq, Eq)]
pub enum Arith {
    Min,
    Max,
    MinU,
    MaxU,
    Add,
}

/// The logical atomics.
#[derive(Debug, Clone, Copy, PartialEq, Eq)]
pub enum Logic {
    Xor,
    Or,
    And,
    Swap,
}

/// What a prefetch announces.
#[derive(Debug, Clone, Copy, PartialEq, Eq)]
pub enum Hint {
    PrefetchRead,
    PrefetchWrite,
}

/// The operation of a request.
#[derive(Debug, Clone, Copy, PartialEq, Eq)]
pub enum AskOp {
    PutFull,
    PutPartial,
    Arithmetic(Arith),
    Logical(Logic),
    Get,
    Intent(Hint),
}

/// The opcode of a reply.
#[derive(Debug, Clone, Copy, PartialEq, Eq)]
pub enum ReplyOp {
    AccessAck,
    AccessAckData,
    HintAck,
}

impl AskOp {
    /// Whether a request of this operation carries bytes.
    pub fn carries_bytes(self) -> bool
        ensures { result ≡ carries_bytes self }
    {
        match self {
            AskOp::PutFull | AskOp::PutPartial | AskOp::Arithmetic(_) | AskOp::Logical(_) => true,
            AskOp::Get | AskOp::Intent(_) => false,
        }
    }

    /// How many bytes a request of this operation and size carries.
    pub fn byte_count(self, size: u8) -> usize
        requires { size ≤ MAX_SIZE }
        ensures value { result ≡ byte_count self size }
        ensures in_limit { result ≤ MAX_BYTES }
    {
        if self.carries_bytes() { width(size) } else { 0 }
    }

    /// Whether a request of this operation may leave some of its bytes unset.
    pub fn may_leave_unset(self) -> bool
        ensures { result ≡ may_leave_unset self }
    {
        matches!(self, AskOp::PutPartial)
    }

    /// The opcode of the reply to a request of this operation.
    pub fn reply_op(self) -> ReplyOp
        ensures { result ≡ reply_op_of self }
    {
        match self {
            AskOp::PutFull | AskOp::PutPartial => ReplyOp::AccessAck,
            AskOp::Arithmetic(_) | AskOp::Logical(_) | AskOp::Get => ReplyOp::AccessAckData,
            AskOp::Intent(_) => ReplyOp::HintAck,
        }
    }
}

/// The number of bytes that a size stands for.
pub fn width(size: u8) -> usize
    requires { size ≤ MAX_SIZE }
    ensures value { result ≡ 2 ^ size }
    ensures some { 0 < result }
    ensures in_limit { result ≤ MAX_BYTES }
{
    1 << size
}

impl ReplyOp {
    /// Whether a reply of this opcode carries bytes.
    pub fn carries_bytes(self) -> bool
        ensures { result ≡ reply_carries_bytes self }
    {
        matches!(self, ReplyOp::AccessAckData)
    }

    /// How many bytes a reply of this opcode and size carries.
    pub fn byte_count(self, size: u8) -> usize
        requires { size ≤ MAX_SIZE }
        ensures value { result ≡ reply_byte_count self size }
        ensures in_limit { result ≤ MAX_BYTES }
    {
        if self.carries_bytes() { width(size) } else { 0 }
    }
}
