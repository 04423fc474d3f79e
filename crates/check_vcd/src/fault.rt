//! Why a dump was not read to its end.
ghost use Rattle.std.specs.Prelude.{◌≡◌};
ghost use Rattle.check_vcd.specs.declared.fault.DumpFault.TheVariants.{Memory};
ghost use Rattle.check_vcd.specs.Fault.{on_line};
ghost use Rattle.check_vcd.specs.declared.fault.WordFault.TheVariants as word;

use std::alloc::{AllocError, AllocFailed};
use thiserror::Error;

/// What is wrong with the text of a dump.
#[derive(Debug, Clone, Copy, PartialEq, Eq, Error)]
pub enum Mistake {
    #[error("not a dump")]
    NotADump,
    #[error("no such identifier")]
    NoSuchIdentifier,
    #[error("bad value")]
    BadValue,
    #[error("value wider than its signal")]
    TooWide,
    #[error("time falls")]
    TimeFalls,
    #[error("cut in its header")]
    CutInHeader,
    #[error("the dump has a gap")]
    Gap,
}

/// Why a dump was not read to its end.
#[derive(Debug, Clone, Copy, PartialEq, Eq, Error)]
pub enum DumpFault {
    /// The line on which it was met, and what it is.
    #[error("line {0}: {1}")]
    At(u64, Mistake),
    #[error("read failed")]
    Read,
    #[error("memory refused")]
    Memory,
}

impl From<AllocError> for DumpFault {
    ghost from_gives = { λ _ e. e ≡ Memory };

    fn from(_e: AllocError) -> DumpFault {
        DumpFault::Memory
    }
}

impl<T: Drop> From<AllocFailed<T>> for DumpFault {
    ghost from_gives = { λ _ e. e ≡ Memory };

    fn from(_e: AllocFailed<T>) -> DumpFault {
        DumpFault::Memory
    }
}

/// Why a word was not taken.
#[derive(Debug, Clone, Copy, PartialEq, Eq)]
pub(crate) enum WordFault {
    Wrong(Mistake),
    Memory,
}

impl WordFault {
    /// The same, with the line of the word.
    pub(crate) fn on(self, line: u64) -> DumpFault
        ensures { result ≡ on_line line self }
    {
        match self {
            WordFault::Wrong(mistake) => DumpFault::At(line, mistake),
            WordFault::Memory => DumpFault::Memory,
        }
    }
}

impl From<AllocError> for WordFault {
    ghost from_gives = { λ _ e. e ≡ word.Memory };

    fn from(_e: AllocError) -> WordFault {
        WordFault::Memory
    }
}

impl<T: Drop> From<AllocFailed<T>> for WordFault {
    ghost from_gives = { λ _ e. e ≡ word.Memory };

    fn from(_e: AllocFailed<T>) -> WordFault {
        WordFault::Memory
    }
}
