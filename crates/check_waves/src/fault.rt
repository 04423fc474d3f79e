//! Why not all rows were written.
ghost use Rattle.std.specs.Prelude.{◌≡◌};
ghost use Rattle.check_waves.specs.Fault.{of_dump, of_keys, of_read, of_rows, of_signal, of_system, wave_status_of};
ghost use Rattle.check_waves.specs.declared.fault.WaveFault.TheVariants.{Write, Memory};

use check_keys::SystemFault;
use check_samples::{EdgeFault, RowsFault, UnknownBit};
use check_signals::{KeyFault, SignalFault};
use check_vcd::{DumpFault, Mistake};
use check_watch::Link;
use std::alloc::{AllocError, AllocFailed};
use std::fmt;
use tl_streams::{ReadFault, WriteFault};

/// Why not all rows were written. The text of each is one line for standard error.
#[derive(Debug, Drop)]
pub enum WaveFault {
    /// The first fault of SYSTEM, but for want of memory.
    System(SystemFault),
    /// It does not say where the signals are.
    Keys(KeyFault),
    /// DUMP has not a signal that SYSTEM names.
    Signal(SignalFault),
    /// DUMP is no dump: on which line, and why.
    Dump(u64, Mistake),
    /// A beat has an unknown bit.
    Unknown(UnknownBit),
    /// The edges of the dump are none to take beats at.
    Edges(EdgeFault),
    /// A file could not be opened or read.
    Read,
    /// Nothing is said of how much went out.
    Write,
    /// Want of memory, in whichever layer it was met.
    Memory,
}

impl WaveFault {
    /// The status that the program ends with.
    pub fn status(&self) -> u8
        ensures { result ≡ wave_status_of self.now }
    {
        match self {
            WaveFault::Memory => 4,
            WaveFault::Read | WaveFault::Write => 5,
            _ => 1,
        }
    }
}

/// The name of a link, and of the channel of a signal.
fn write_beat<W: fmt::Write>(f: &mut fmt::Formatter<W>, unknown: &UnknownBit) -> fmt::Result {
    let time = unknown.time;
    let signal = unknown.signal;
    let channel = if signal.name().as_bytes().first() == Some(&b'a') {
        "A"
    } else {
        "D"
    };
    match unknown.link {
        Link::Master(number) => write!(f, "time {time}, m{number} {channel}: {signal} is unknown"),
        Link::Port(number) => write!(f, "time {time}, p{number} {channel}: {signal} is unknown"),
    }
}

/// What may be wrong if a reset is active too long: a high one may be low.
fn hint_of(is_low: bool) -> &'static str {
    if is_low {
        ""
    } else {
        " (reset_active = \"low\"?)"
    }
}

/// A clock or a reset: by its name, or by what it is called if it is the system's own.
fn name_of<'a>(name: &'a Option<Vec<u8>>, own: &'a str) -> &'a str {
    match name {
        Some(name) => std::str::from_utf8(name).unwrap_or("(not text)"),
        None => own,
    }
}

/// Why the edges of a dump are none to take beats at.
fn write_edges<W: fmt::Write>(f: &mut fmt::Formatter<W>, why: &EdgeFault) -> fmt::Result {
    match why {
        EdgeFault::NeverRises(name) => {
            let clock = name_of(name, "the clock");
            write!(f, "{clock} never rises")
        }
        EdgeFault::NeverFalls(name) => {
            let clock = name_of(name, "the clock");
            write!(f, "{clock} never falls")
        }
        EdgeFault::ResetAtEdges(name, is_low) => {
            let reset = name_of(name, "the reset");
            let hint = hint_of(*is_low);
            write!(f, "{reset} is active at every edge{hint}")
        }
        EdgeFault::ResetAtBeats(is_low) => {
            let hint = hint_of(*is_low);
            write!(f, "the reset is active at every beat{hint}")
        }
    }
}

impl WaveFault {
    /// Writes what is wrong, without the program that says so.
    pub fn write_words<W: fmt::Write>(&self, f: &mut fmt::Formatter<W>) -> fmt::Result {
        match self {
            WaveFault::System(fault) => write!(f, "{fault}"),
            WaveFault::Keys(fault) => write!(f, "{fault}"),
            WaveFault::Signal(fault) => write!(f, "{fault}"),
            WaveFault::Dump(line, mistake) => write!(f, "line {line}: {mistake}"),
            WaveFault::Unknown(unknown) => write_beat(f, unknown),
            WaveFault::Edges(why) => write_edges(f, why),
            WaveFault::Read => f.write_str("read failed"),
            WaveFault::Write => f.write_str("write failed"),
            WaveFault::Memory => f.write_str("memory refused"),
        }
    }
}

impl fmt::Display for WaveFault {
    fn fmt<W: fmt::Write>(&self, f: &mut fmt::Formatter<W>) -> fmt::Result {
        if let WaveFault::Signal(_)
        | WaveFault::Dump(_, _)
        | WaveFault::Unknown(_)
        | WaveFault::Edges(_) = self
        {
            f.write_str("tlvcd: ")?;
        }
        self.write_words(f)
    }
}

impl From<SystemFault> for WaveFault {
    ghost from_gives = { λ from fault. fault ≡ of_system from };

    fn from(fault: SystemFault) -> WaveFault {
        match fault {
            SystemFault::Memory => WaveFault::Memory,
            other => WaveFault::System(other),
        }
    }
}

impl From<KeyFault> for WaveFault {
    ghost from_gives = { λ from fault. fault ≡ of_keys from };

    fn from(fault: KeyFault) -> WaveFault {
        match fault {
            KeyFault::Memory => WaveFault::Memory,
            other => WaveFault::Keys(other),
        }
    }
}

impl From<SignalFault> for WaveFault {
    ghost from_gives = { λ from fault. fault ≡ of_signal from };

    fn from(fault: SignalFault) -> WaveFault {
        match fault {
            SignalFault::Memory => WaveFault::Memory,
            other => WaveFault::Signal(other),
        }
    }
}

impl From<DumpFault> for WaveFault {
    ghost from_gives = { λ from fault. fault ≡ of_dump from };

    fn from(fault: DumpFault) -> WaveFault {
        match fault {
            DumpFault::At(line, mistake) => WaveFault::Dump(line, mistake),
            DumpFault::Read => WaveFault::Read,
            DumpFault::Memory => WaveFault::Memory,
        }
    }
}

impl From<RowsFault> for WaveFault {
    ghost from_gives = { λ from fault. fault ≡ of_rows from };

    fn from(fault: RowsFault) -> WaveFault {
        match fault {
            RowsFault::Unknown(unknown) => WaveFault::Unknown(unknown),
            RowsFault::Dump(line, mistake) => WaveFault::Dump(line, mistake),
            RowsFault::Edges(why) => WaveFault::Edges(why),
            RowsFault::Read => WaveFault::Read,
            RowsFault::Memory => WaveFault::Memory,
        }
    }
}

impl From<ReadFault> for WaveFault {
    ghost from_gives = { λ from fault. fault ≡ of_read from };

    fn from(fault: ReadFault) -> WaveFault {
        match fault {
            ReadFault::Read => WaveFault::Read,
            ReadFault::Memory => WaveFault::Memory,
        }
    }
}

impl From<WriteFault> for WaveFault {
    ghost from_gives = { λ _ fault. fault ≡ Write };

    fn from(_: WriteFault) -> WaveFault {
        WaveFault::Write
    }
}

impl From<AllocError> for WaveFault {
    ghost from_gives = { λ _ fault. fault ≡ Memory };

    fn from(_: AllocError) -> WaveFault {
        WaveFault::Memory
    }
}

impl<T: Drop> From<AllocFailed<T>> for WaveFault {
    ghost from_gives = { λ _ fault. fault ≡ Memory };

    fn from(_: AllocFailed<T>) -> WaveFault {
        WaveFault::Memory
    }
}
