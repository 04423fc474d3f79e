//! Why a signal was not taken.
ghost use Rattle.std.specs.Prelude.{◌≡◌};
ghost use Rattle.check_signals.specs.declared.signal_fault.SignalFault.TheVariants.{Memory};

use std::alloc::{AllocError, AllocFailed};
use std::fmt;

/// Whose signal it is: the system's own, or one of a link.
#[derive(Debug, Clone, Copy, PartialEq, Eq)]
pub enum SignalOwner {
    System,
    Port(usize),
    Master(usize),
}

/// Why a signal was not taken.
#[derive(Debug, Drop)]
pub enum SignalFault {
    /// No signal has this name; the nearest that there is.
    NoSignal(SignalOwner, Vec<u8>, Option<Vec<u8>>),
    /// Two signals have this name, and identifiers of their own.
    Twice(SignalOwner, Vec<u8>),
    /// The signal of this name has so many bits; how many were wanted.
    Width(SignalOwner, Vec<u8>, u64, u64),
    Memory,
}

impl From<AllocError> for SignalFault {
    ghost from_gives = { λ _ fault. fault ≡ Memory };

    fn from(_: AllocError) -> SignalFault {
        SignalFault::Memory
    }
}

impl<T: Drop> From<AllocFailed<T>> for SignalFault {
    ghost from_gives = { λ _ fault. fault ≡ Memory };

    fn from(_: AllocFailed<T>) -> SignalFault {
        SignalFault::Memory
    }
}

impl fmt::Display for SignalOwner {
    fn fmt<W: fmt::Write>(&self, f: &mut fmt::Formatter<W>) -> fmt::Result {
        match *self {
            SignalOwner::System => Ok(()),
            SignalOwner::Port(number) => write!(f, "port {number}: "),
            SignalOwner::Master(number) => write!(f, "master {number}: "),
        }
    }
}

/// A name as text.
fn text_of(name: &[u8]) -> &str {
    std::str::from_utf8(name).unwrap_or("(not text)")
}

impl fmt::Display for SignalFault {
    fn fmt<W: fmt::Write>(&self, f: &mut fmt::Formatter<W>) -> fmt::Result {
        match self {
            SignalFault::NoSignal(owner, name, near) => {
                let name = text_of(name);
                write!(f, "{owner}no signal {name}")?;
                match near {
                    Some(near) => {
                        let near = text_of(near);
                        write!(f, " (near: {near})")
                    }
                    None => Ok(()),
                }
            }
            SignalFault::Twice(owner, name) => {
                let name = text_of(name);
                write!(f, "{owner}two signals are called {name}")
            }
            SignalFault::Width(owner, name, bits, wanted) => {
                let name = text_of(name);
                write!(f, "{owner}{name} has {bits} bits, {wanted} wanted")
            }
            SignalFault::Memory => f.write_str("memory refused"),
        }
    }
}
