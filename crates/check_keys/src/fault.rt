//! The faults of system files, and the keys that they name.
ghost use Rattle.std.specs.Prelude.{◌≡◌, Some};
ghost use Rattle.check_keys.specs.Key.{key_name};
ghost use Rattle.check_keys.specs.Reading.{map_fault, source_fault};
ghost use Rattle.check_keys.specs.declared.fault.SystemFault.TheVariants.{Memory};

use crate::known::UnknownKey;
use std::alloc::{AllocError, AllocFailed};
use std::fmt;
use thiserror::Error;
use tl_map::{AddressMapFault, SourceOwnerFault};

/// A key of a system file.
#[derive(Debug, Clone, Copy, PartialEq, Eq)]
pub enum Key {
    Bus,
    Unaligned,
    Corrupt,
    Decode,
    Resets,
    Period,
    Port,
    Name,
    Kind,
    Base,
    Length,
    Ranges,
    Reset,
    Image,
    Unknown,
    Sizes,
    Order,
    Mirror,
    Volatile,
    OnReset,
    Hosts,
    Master,
    Sources,
    Crossing,
    First,
    Stride,
    Reach,
    Fifo,
}

impl Key {
    /// The key, as a file has it.
    pub fn name(self) -> &'static str
        ensures { result.now ≡ key_name self }
    {
        match self {
            Key::Bus => "bus",
            Key::Unaligned => "unaligned",
            Key::Corrupt => "corrupt",
            Key::Decode => "decode",
            Key::Resets => "resets",
            Key::Period => "period",
            Key::Port => "port",
            Key::Name => "name",
            Key::Kind => "kind",
            Key::Base => "base",
            Key::Length => "length",
            Key::Ranges => "ranges",
            Key::Reset => "reset",
            Key::Image => "image",
            Key::Unknown => "unknown",
            Key::Sizes => "sizes",
            Key::Order => "order",
            Key::Mirror => "mirror",
            Key::Volatile => "volatile",
            Key::OnReset => "on_reset",
            Key::Hosts => "hosts",
            Key::Master => "master",
            Key::Sources => "sources",
            Key::Crossing => "crossing",
            Key::First => "first",
            Key::Stride => "stride",
            Key::Reach => "reach",
            Key::Fifo => "fifo",
        }
    }
}

impl fmt::Display for Key {
    ghost output = { λ key. Some (key_name key) };

    fn fmt<W: fmt::Write>(&self, f: &mut fmt::Formatter<W>) -> fmt::Result {
        f.write_str(self.name())
    }
}

/// Why a file describes no system. Ports and masters are counted from 0. Want of memory is always `Memory`, in
/// whichever layer it was met.
#[derive(Debug, Drop, Error)]
pub enum SystemFault {
    #[error("system: longer than 1048576 bytes")]
    TooLong,
    #[error("system: not TOML")]
    NotToml,
    #[error("system: missing {0}")]
    Missing(Key),
    #[error("system: wrong type of {0}")]
    WrongType(Key),
    #[error("system: {0} out of range")]
    OutOfRange(Key),
    /// A key that its table may not have. The nearest that it may have is named.
    #[error("system: unknown key {0}")]
    UnknownKey(UnknownKey),
    #[error("system: two are called {0}")]
    TwoCalled(String),
    /// The file that a port's `image` names is not there, is a folder, or is refused.
    #[error("system: port {0}: image can't be read")]
    ImageUnreadable(usize),
    #[error("system: port {0}: image is longer than its range")]
    ImageTooLong(usize),
    #[error("system: {0}")]
    Map(AddressMapFault),
    #[error("system: {0}")]
    Sources(SourceOwnerFault),
    /// The sources at a port's link, of the masters that the port lists.
    #[error("system: port {0}: {1}")]
    PortSources(usize, SourceOwnerFault),
    #[error("memory refused")]
    Memory,
}

impl From<AllocError> for SystemFault {
    ghost from_gives = { λ _ fault. fault ≡ Memory };

    fn from(_: AllocError) -> SystemFault {
        SystemFault::Memory
    }
}

impl<T: Drop> From<AllocFailed<T>> for SystemFault {
    ghost from_gives = { λ _ fault. fault ≡ Memory };

    fn from(_: AllocFailed<T>) -> SystemFault {
        SystemFault::Memory
    }
}

impl From<AddressMapFault> for SystemFault {
    ghost from_gives = { λ from fault. fault ≡ map_fault from };

    fn from(fault: AddressMapFault) -> SystemFault {
        match fault {
            AddressMapFault::Memory => SystemFault::Memory,
            _ => SystemFault::Map(fault),
        }
    }
}

impl From<SourceOwnerFault> for SystemFault {
    ghost from_gives = { λ from fault. fault ≡ source_fault from };

    fn from(fault: SourceOwnerFault) -> SystemFault {
        match fault {
            SourceOwnerFault::Memory => SystemFault::Memory,
            _ => SystemFault::Sources(fault),
        }
    }
}
