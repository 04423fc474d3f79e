//! The numbers of operations and replies on the wires of channels A and D.
ghost use Rattle.std.specs.Prelude.{◌≡◌, IfOk, IfErr};
ghost use Rattle.tl_types.specs.Wire.{opcode_of, param_of, IsCodeOf, IsFirstOpFault};
ghost use Rattle.tl_types.specs.Wire.{reply_opcode_of, IsFirstReplyOpFault};
ghost use Rattle.tl_types.specs.declared.operation.AskOp.{AskOp};
ghost use Rattle.tl_types.specs.declared.operation.ReplyOp.{ReplyOp};

use crate::operation::{Arith, AskOp, Hint, Logic, ReplyOp};
use thiserror::Error;

/// Why numbers stand for no operation.
#[derive(Debug, Clone, Copy, PartialEq, Eq, Error)]
pub enum OpFault {
    #[error("a cached operation")]
    Cached,
    #[error("no such opcode")]
    UnknownOpcode,
    #[error("no such parameter")]
    UnknownParam,
}

/// The opcode of an operation on channel A.
pub fn opcode(op: &AskOp) -> u8
    ensures { result ≡ opcode_of op.now }
{
    match op {
        AskOp::PutFull => 0,
        AskOp::PutPartial => 1,
        AskOp::Arithmetic(_) => 2,
        AskOp::Logical(_) => 3,
        AskOp::Get => 4,
        AskOp::Intent(_) => 5,
    }
}

/// The parameter of an operation on channel A.
pub fn param(op: &AskOp) -> u8
    ensures { result ≡ param_of op.now }
{
    match op {
        AskOp::Arithmetic(Arith::Min) | AskOp::Logical(Logic::Xor) => 0,
        AskOp::Arithmetic(Arith::Max) | AskOp::Logical(Logic::Or) => 1,
        AskOp::Arithmetic(Arith::MinU) | AskOp::Logical(Logic::And) => 2,
        AskOp::Arithmetic(Arith::MaxU) | AskOp::Logical(Logic::Swap) => 3,
        AskOp::Arithmetic(Arith::Add) => 4,
        AskOp::Intent(Hint::PrefetchWrite) => 1,
        AskOp::Intent(Hint::PrefetchRead) | AskOp::PutFull | AskOp::PutPartial | AskOp::Get => 0,
    }
}

/// The operation that an opcode and a parameter stand for.
pub fn read_op(opcode: u8, param: u8) -> Result<AskOp, OpFault>
    ensures ok { IfOk result (λ op. IsCodeOf op opcode param) }
    ensures all { (op : AskOp) → IsCodeOf op opcode param → result ≡ Ok op }
    ensures fault { IfErr result (IsFirstOpFault opcode param) }
{
    match (opcode, param) {
        (0, 0) => Ok(AskOp::PutFull),
        (1, 0) => Ok(AskOp::PutPartial),
        (2, 0) => Ok(AskOp::Arithmetic(Arith::Min)),
        (2, 1) => Ok(AskOp::Arithmetic(Arith::Max)),
        (2, 2) => Ok(AskOp::Arithmetic(Arith::MinU)),
        (2, 3) => Ok(AskOp::Arithmetic(Arith::MaxU)),
        (2, 4) => Ok(AskOp::Arithmetic(Arith::Add)),
        (3, 0) => Ok(AskOp::Logical(Logic::Xor)),
        (3, 1) => Ok(AskOp::Logical(Logic::Or)),
        (3, 2) => Ok(AskOp::Logical(Logic::And)),
        (3, 3) => Ok(AskOp::Logical(Logic::Swap)),
        (4, 0) => Ok(AskOp::Get),
        (5, 0) => Ok(AskOp::Intent(Hint::PrefetchRead)),
        (5, 1) => Ok(AskOp::Intent(Hint::PrefetchWrite)),
        (6 | 7, _) => Err(OpFault::Cached),
        (8.., _) => Err(OpFault::UnknownOpcode),
        _ => Err(OpFault::UnknownParam),
    }
}

/// The opcode of a reply as a number.
pub fn reply_opcode(op: ReplyOp) -> u8
    ensures { result ≡ reply_opcode_of op }
{
    match op {
        ReplyOp::AccessAck => 0,
        ReplyOp::AccessAckData => 1,
        ReplyOp::HintAck => 2,
    }
}

/// The opcode that a number on channel D stands for.
pub fn read_reply_op(opcode: u8) -> Result<ReplyOp, OpFault>
    ensures ok { IfOk result (λ op. reply_opcode_of op ≡ opcode) }
    ensures all { (op : ReplyOp) → reply_opcode_of op ≡ opcode → result ≡ Ok op }
    ensures fault { IfErr result (IsFirstReplyOpFault opcode) }
{
    match opcode {
        0 => Ok(ReplyOp::AccessAck),
        1 => Ok(ReplyOp::AccessAckData),
        2 => Ok(ReplyOp::HintAck),
        _ => Err(OpFault::UnknownOpcode),
    }
}
