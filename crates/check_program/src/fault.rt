//! Why there is no verdict.
ghost use Rattle.std.specs.Prelude.{◌≡◌};
ghost use Rattle.check_program.specs.Fault.{dump_fault, of_capture, of_keys, of_read, of_replay, of_system, of_wave, status_of};
ghost use Rattle.check_program.specs.declared.fault.CheckFault.TheVariants.{Write, Memory};

use check_dump::ReplayFault;
use check_keys::SystemFault;
use check_signals::KeyFault;
use check_text::CaptureFault;
use check_watch::Link;
use check_waves::WaveFault;
use std::alloc::AllocError;
use std::fmt;
use thiserror::Error;
use tl_streams::{ReadFault, WriteFault};

/// A fault of a dump, as this program tells it.
#[derive(Debug, Drop)]
pub struct DumpFault {
    pub wave: WaveFault,
}

impl fmt::Display for DumpFault {
    fn fmt<W: fmt::Write>(&self, f: &mut fmt::Formatter<W>) -> fmt::Result {
        f.write_str("dump: ")?;
        self.wave.write_words(f)
    }
}

/// A link that has no signals.
#[derive(Debug, Clone, Copy, PartialEq, Eq)]
pub struct UnnamedLink {
    pub link: Link,
}

impl fmt::Display for UnnamedLink {
    fn fmt<W: fmt::Write>(&self, f: &mut fmt::Formatter<W>) -> fmt::Result {
        match self.link {
            Link::Master(number) => write!(f, "master {number}"),
            Link::Port(number) => write!(f, "port {number}"),
        }
    }
}

/// Why there is no verdict. The text of each is one line for standard error.
#[derive(Debug, Drop, Error)]
pub enum CheckFault {
    /// The first fault of SYSTEM and its images, but for want of memory.
    #[error("{0}")]
    System(SystemFault),
    /// CAPTURE is no capture: which line of it, and why.
    #[error("{0}")]
    Capture(CaptureFault),
    /// CAPTURE is a dump, and SYSTEM does not say where the signals are.
    #[error("{0}")]
    Keys(KeyFault),
    /// CAPTURE is a dump, and this link is watched.
    #[error("system: {0}: no signals")]
    Unnamed(UnnamedLink),
    /// CAPTURE is a dump, with this fault.
    #[error("{0}")]
    Dump(DumpFault),
    /// SYSTEM or CAPTURE could not be opened or read.
    #[error("read failed")]
    Read,
    /// Nothing is said of how much went out.
    #[error("write failed")]
    Write,
    /// Want of memory, in whichever layer it was met.
    #[error("memory refused")]
    Memory,
}

impl CheckFault {
    /// The status that the program ends with.
    pub fn status(&self) -> u8
        ensures { result ≡ status_of self.now }
    {
        match self {
            CheckFault::Memory => 4,
            CheckFault::Read | CheckFault::Write => 5,
            _ => 1,
        }
    }
}

impl From<SystemFault> for CheckFault {
    ghost from_gives = { λ fault e. e ≡ of_system fault };

    fn from(fault: SystemFault) -> CheckFault {
        match fault {
            SystemFault::Memory => CheckFault::Memory,
            other => CheckFault::System(other),
        }
    }
}

impl From<ReadFault> for CheckFault {
    ghost from_gives = { λ fault e. e ≡ of_read fault };

    fn from(fault: ReadFault) -> CheckFault {
        match fault {
            ReadFault::Memory => CheckFault::Memory,
            ReadFault::Read => CheckFault::Read,
        }
    }
}

impl From<CaptureFault> for CheckFault {
    ghost from_gives = { λ fault e. e ≡ of_capture fault };

    fn from(fault: CaptureFault) -> CheckFault {
        match fault {
            CaptureFault::Read => CheckFault::Read,
            CaptureFault::Memory => CheckFault::Memory,
            CaptureFault::Write => CheckFault::Write,
            other => CheckFault::Capture(other),
        }
    }
}

/// A fault of a dump, which no stream has.
fn dump_fault(wave: WaveFault) -> CheckFault
    ensures { result ≡ dump_fault wave }
{
    CheckFault::Dump(DumpFault { wave })
}

impl From<KeyFault> for CheckFault {
    ghost from_gives = { λ fault e. e ≡ of_keys fault };

    fn from(fault: KeyFault) -> CheckFault {
        match fault {
            KeyFault::Memory => CheckFault::Memory,
            other => CheckFault::Keys(other),
        }
    }
}

impl From<WaveFault> for CheckFault {
    ghost from_gives = { λ fault e. e ≡ of_wave fault };

    fn from(fault: WaveFault) -> CheckFault {
        match fault {
            WaveFault::Read => CheckFault::Read,
            WaveFault::Memory => CheckFault::Memory,
            wave => CheckFault::Dump(DumpFault { wave }),
        }
    }
}

impl From<ReplayFault> for CheckFault {
    ghost from_gives = { λ fault e. e ≡ of_replay fault };

    fn from(fault: ReplayFault) -> CheckFault {
        match fault {
            ReplayFault::Edges(why) => dump_fault(WaveFault::Edges(why)),
            ReplayFault::Unknown(unknown) => dump_fault(WaveFault::Unknown(unknown)),
            ReplayFault::Dump(line, mistake) => dump_fault(WaveFault::Dump(line, mistake)),
            ReplayFault::Row(line, why) => CheckFault::Capture(CaptureFault::Row(line, why)),
            ReplayFault::Read => CheckFault::Read,
            ReplayFault::Memory => CheckFault::Memory,
            ReplayFault::Write => CheckFault::Write,
        }
    }
}

impl From<WriteFault> for CheckFault {
    ghost from_gives = { λ _ e. e ≡ Write };

    fn from(_: WriteFault) -> CheckFault {
        CheckFault::Write
    }
}

impl From<AllocError> for CheckFault {
    ghost from_gives = { λ _ e. e ≡ Memory };

    fn from(_: AllocError) -> CheckFault {
        CheckFault::Memory
    }
}
