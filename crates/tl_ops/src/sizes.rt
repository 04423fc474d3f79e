//! Tables of the sizes that a slave supports, and the row of each kind.
ghost use Rattle.std.specs.Prelude.{◌≡◌};
ghost use Rattle.tl_ops.specs.Support.{allows, row_of_kind};

use crate::kind::Kind;
use tl_types::{AskOp, MAX_SIZE};

/// The least and the greatest size of an operation.
#[derive(Debug, Clone, Copy, PartialEq, Eq)]
pub struct SizeSpan {
    pub least: u8,
    pub greatest: u8,
}

/// The sizes of each operation, as a system file gives them; one that has none is not supported.
#[derive(Debug, Clone, Copy, PartialEq, Eq)]
pub struct SizeTable {
    pub get: Option<SizeSpan>,
    pub put_full: Option<SizeSpan>,
    pub put_partial: Option<SizeSpan>,
    pub arithmetic: Option<SizeSpan>,
    pub logical: Option<SizeSpan>,
    pub intent: Option<SizeSpan>,
}

const ANY: Option<SizeSpan> = Some(SizeSpan {
    least: 0,
    greatest: MAX_SIZE,
});

const WORD: Option<SizeSpan> = Some(SizeSpan {
    least: 2,
    greatest: 3,
});

impl SizeTable {
    /// Whether an operation is supported at a size.
    pub fn allows(&self, op: AskOp, size: u8) -> bool
        ensures { result ≡ allows self.now op size }
    {
        let span = match op {
            AskOp::PutFull => self.put_full,
            AskOp::PutPartial => self.put_partial,
            AskOp::Arithmetic(_) => self.arithmetic,
            AskOp::Logical(_) => self.logical,
            AskOp::Get => self.get,
            AskOp::Intent(_) => self.intent,
        };
        match span {
            Some(span) => span.least <= size && size <= span.greatest,
            None => false,
        }
    }
}

impl Kind {
    /// The sizes that a slave of this kind supports.
    pub fn sizes(self) -> SizeTable
        ensures { result ≡ row_of_kind self }
    {
        let (get, put_full, put_partial, atomic) = match self {
            Kind::Ram => (ANY, ANY, ANY, WORD),
            Kind::Rom => (ANY, None, None, None),
            Kind::Regs | Kind::ClearRegs => (WORD, WORD, None, None),
            Kind::NoDevice => (None, None, None, None),
        };
        let intent = match self {
            Kind::Ram | Kind::Rom => ANY,
            Kind::Regs | Kind::ClearRegs | Kind::NoDevice => None,
        };
        SizeTable {
            get,
            put_full,
            put_partial,
            arithmetic: atomic,
            logical: atomic,
            intent,
        }
    }
}
