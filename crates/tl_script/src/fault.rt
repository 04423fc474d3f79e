//! The faults of scripts, and the keys that they name.
ghost use Rattle.std.specs.Prelude.{◌≡◌, Some};
ghost use Rattle.tl_script.specs.Key.{script_key_name};
ghost use Rattle.tl_script.specs.Reading.{map_fault, source_fault};
ghost use Rattle.tl_script.specs.declared.fault.ScriptFault.TheVariants.{Memory};

use crate::map::MapFault;
use crate::sources::SourceFault;
use std::alloc::{AllocError, AllocFailed};
use std::fmt;
use thiserror::Error;

/// A key of a script.
#[derive(Debug, Clone, Copy, PartialEq, Eq)]
pub enum ScriptKey {
    Slots,
    Port,
    Kind,
    Base,
    Length,
    Reset,
    Master,
    Sources,
    Ops,
}

impl ScriptKey {
    /// The key, as a script has it.
    pub fn name(self) -> &'static str
        ensures { result.now ≡ script_key_name self }
    {
        match self {
            ScriptKey::Slots => "slots",
            ScriptKey::Port => "port",
            ScriptKey::Kind => "kind",
            ScriptKey::Base => "base",
            ScriptKey::Length => "length",
            ScriptKey::Reset => "reset",
            ScriptKey::Master => "master",
            ScriptKey::Sources => "sources",
            ScriptKey::Ops => "ops",
        }
    }
}

impl fmt::Display for ScriptKey {
    ghost output = { λ key. Some (script_key_name key) };

    fn fmt<W: fmt::Write>(&self, f: &mut fmt::Formatter<W>) -> fmt::Result {
        f.write_str(self.name())
    }
}

/// Why a script describes no system. Masters and their operations are counted from 0. Want of memory is always
/// `Memory`, in whichever layer it was met: `Map(MapFault::Memory)` can be written, but is never answered.
#[derive(Debug, Clone, Copy, PartialEq, Eq, Error)]
pub enum ScriptFault {
    #[error("script: not TOML")]
    NotToml,
    #[error("script: missing {0}")]
    Missing(ScriptKey),
    #[error("script: wrong type of {0}")]
    WrongType(ScriptKey),
    #[error("script: {0} out of range")]
    OutOfRange(ScriptKey),
    #[error("script: master {0} operation {1}: bad operation")]
    BadOp(usize, usize),
    #[error("script: {0}")]
    Map(MapFault),
    #[error("script: {0}")]
    Sources(SourceFault),
    #[error("script: longer than 1048576 bytes")]
    TooLong,
    #[error("memory refused")]
    Memory,
}

impl From<AllocError> for ScriptFault {
    ghost from_gives = { λ _ fault. fault ≡ Memory };

    fn from(_: AllocError) -> ScriptFault {
        ScriptFault::Memory
    }
}

impl<T: Drop> From<AllocFailed<T>> for ScriptFault {
    ghost from_gives = { λ _ fault. fault ≡ Memory };

    fn from(_: AllocFailed<T>) -> ScriptFault {
        ScriptFault::Memory
    }
}

impl From<MapFault> for ScriptFault {
    ghost from_gives = { λ from fault. fault ≡ map_fault from };

    fn from(fault: MapFault) -> ScriptFault {
        match fault {
            MapFault::Memory => ScriptFault::Memory,
            _ => ScriptFault::Map(fault),
        }
    }
}

impl From<SourceFault> for ScriptFault {
    ghost from_gives = { λ from fault. fault ≡ source_fault from };

    fn from(fault: SourceFault) -> ScriptFault {
        match fault {
            SourceFault::Memory => ScriptFault::Memory,
            _ => ScriptFault::Sources(fault),
        }
    }
}
