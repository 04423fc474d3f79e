//! The names of operations and replies.
ghost use Rattle.std.specs.Prelude.{◌≡◌, find};
ghost use Rattle.std.specs.Str.{bytes_eq};
ghost use Rattle.tl_text.specs.Name.{name_of, operation_word, reply_word_of};
ghost use Rattle.tl_types.specs.declared.operation.AskOp.TheVariants.{Arithmetic, Logical, Intent};

use tl_types::{Arith, AskOp, Hint, Logic, ReplyOp};

/// Every operation that has a name.
const OPERATIONS: [AskOp; 14] = [
    AskOp::Get,
    AskOp::PutFull,
    AskOp::PutPartial,
    AskOp::Arithmetic(Arith::Min),
    AskOp::Arithmetic(Arith::Max),
    AskOp::Arithmetic(Arith::MinU),
    AskOp::Arithmetic(Arith::MaxU),
    AskOp::Arithmetic(Arith::Add),
    AskOp::Logical(Logic::Xor),
    AskOp::Logical(Logic::Or),
    AskOp::Logical(Logic::And),
    AskOp::Logical(Logic::Swap),
    AskOp::Intent(Hint::PrefetchRead),
    AskOp::Intent(Hint::PrefetchWrite),
];

/// The word that names an operation in scripts and traces.
pub fn word(op: AskOp) -> &'static str
    ensures { result.now ≡ operation_word op }
{
    match op {
        AskOp::Get => "get",
        AskOp::PutFull => "putfull",
        AskOp::PutPartial => "putpart",
        AskOp::Arithmetic(arith) => arith_word(arith),
        AskOp::Logical(logic) => logic_word(logic),
        AskOp::Intent(hint) => hint_word(hint),
    }
}

fn arith_word(arith: Arith) -> &'static str
    ensures { result.now ≡ operation_word (Arithmetic arith) }
{
    match arith {
        Arith::Min => "min",
        Arith::Max => "max",
        Arith::MinU => "minu",
        Arith::MaxU => "maxu",
        Arith::Add => "add",
    }
}

fn logic_word(logic: Logic) -> &'static str
    ensures { result.now ≡ operation_word (Logical logic) }
{
    match logic {
        Logic::Xor => "xor",
        Logic::Or => "or",
        Logic::And => "and",
        Logic::Swap => "swap",
    }
}

fn hint_word(hint: Hint) -> &'static str
    ensures { result.now ≡ operation_word (Intent hint) }
{
    match hint {
        Hint::PrefetchRead => "prefetchr",
        Hint::PrefetchWrite => "prefetchw",
    }
}

/// The operation that a word names.
pub fn read_name(word: &[u8]) -> Option<AskOp>
    ensures { result ≡ name_of word.now }
{
    find_name(&OPERATIONS, word)
}

// The operations are a parameter, so that a proof sees a search of a list and not one test for each name.
fn find_name(operations: &[AskOp], name: &[u8]) -> Option<AskOp>
    ensures { result ≡ find (λ op. bytes_eq (operation_word op) name.now) operations.now }
{
    operations
        .iter()
        .find(|op| word(**op).as_bytes() == name)
        .copied()
}

/// The word that names a reply in traces.
pub fn reply_word(op: ReplyOp) -> &'static str
    ensures { result.now ≡ reply_word_of op }
{
    match op {
        ReplyOp::AccessAck => "AccessAck",
        ReplyOp::AccessAckData => "AccessAckData",
        ReplyOp::HintAck => "HintAck",
    }
}
