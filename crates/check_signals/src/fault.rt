//! Why it is not known where signals are.
ghost use Rattle.std.specs.Prelude.{◌≡◌, Some};
ghost use Rattle.check_signals.specs.Key.{signal_key_name};
ghost use Rattle.check_signals.specs.declared.fault.KeyFault.TheVariants.{Memory};

use std::alloc::{AllocError, AllocFailed};
use std::fmt;
use thiserror::Error;

/// A key of a system file that says where signals are.
#[derive(Debug, Clone, Copy, PartialEq, Eq)]
pub enum SignalKey {
    Port,
    Master,
    Clock,
    Reset,
    LinkReset,
    ResetActive,
    Signals,
    Wires,
    Bits,
    Names,
    Resets,
    Edge,
}

impl SignalKey {
    /// The key, as a file has it.
    pub fn name(self) -> &'static str
        ensures { result.now ≡ signal_key_name self }
    {
        match self {
            SignalKey::Port => "port",
            SignalKey::Master => "master",
            SignalKey::Clock => "clock",
            SignalKey::Reset => "reset",
            SignalKey::LinkReset => "link_reset",
            SignalKey::ResetActive => "reset_active",
            SignalKey::Signals => "signals",
            SignalKey::Wires => "wires",
            SignalKey::Bits => "bits",
            SignalKey::Names => "names",
            SignalKey::Resets => "resets",
            SignalKey::Edge => "edge",
        }
    }
}

impl fmt::Display for SignalKey {
    ghost output = { λ key. Some (signal_key_name key) };

    fn fmt<W: fmt::Write>(&self, f: &mut fmt::Formatter<W>) -> fmt::Result {
        f.write_str(self.name())
    }
}

/// Why a system file does not say where signals are.
#[derive(Debug, Clone, Copy, PartialEq, Eq, Error)]
pub enum KeyFault {
    #[error("system: not TOML")]
    NotToml,
    #[error("system: missing {0}")]
    Missing(SignalKey),
    #[error("system: wrong type of {0}")]
    WrongType(SignalKey),
    #[error("system: {0} out of range")]
    OutOfRange(SignalKey),
    /// No link has signals, so there is nothing to look for.
    #[error("system: no signals")]
    NoSignals,
    #[error("memory refused")]
    Memory,
}

impl From<AllocError> for KeyFault {
    ghost from_gives = { λ _ fault. fault ≡ Memory };

    fn from(_: AllocError) -> KeyFault {
        KeyFault::Memory
    }
}

impl<T: Drop> From<AllocFailed<T>> for KeyFault {
    ghost from_gives = { λ _ fault. fault ≡ Memory };

    fn from(_: AllocFailed<T>) -> KeyFault {
        KeyFault::Memory
    }
}
