//! Why a run has no text.
ghost use Rattle.std.specs.Prelude.{◌≡◌};
ghost use Rattle.tl_program.specs.Fault.{of_audit, of_input, of_thread, status_of};
ghost use Rattle.tl_program.specs.declared.fault.RunFault.TheVariants.{Write, Memory as WantOfMemory};

use thiserror::Error;
use tl_audit::AuditFault;
use tl_script::ScriptFault;
use tl_streams::{InputFault, WriteFault};
use tl_types::Memory;
use tl_workers::ThreadFault;

/// Why a run has no text. The text of each is one line for standard error.
#[derive(Debug, Drop, Error)]
pub enum RunFault {
    /// The script's first fault, but for want of memory.
    #[error("{0}")]
    Script(ScriptFault),
    #[error("read failed")]
    Read,
    /// Nothing is said of how much went out.
    #[error("write failed")]
    Write,
    /// The traces and histories of the run don't agree: the audit's first fault, but for want of memory.
    #[error("{0}")]
    Audit(AuditFault),
    /// Want of memory, in whichever layer it was met.
    #[error("memory refused")]
    Memory,
    /// The system gave no thread.
    #[error("thread refused")]
    NoThread,
    /// The gate of a run never let this port's worker serve.
    #[error("gate of port {0} held")]
    GateHeld(usize),
    /// The lock of this port gave back another port's book.
    #[error("port {0}: stray book")]
    StrayBook(usize),
    /// The threads of a run had ended, and this master had not left the arena.
    #[error("master {0} has not left")]
    NotLeft(usize),
}

impl RunFault {
    /// The status that the program ends with.
    pub fn status(&self) -> u8
        ensures { result ≡ status_of self.now }
    {
        match self {
            RunFault::Script(_) => 1,
            RunFault::Audit(_) => 3,
            RunFault::Memory | RunFault::NoThread => 4,
            RunFault::Read
            | RunFault::Write
            | RunFault::GateHeld(_)
            | RunFault::StrayBook(_)
            | RunFault::NotLeft(_) => 5,
        }
    }
}

impl From<InputFault> for RunFault {
    ghost from_gives = { λ fault e. e ≡ of_input fault };

    fn from(fault: InputFault) -> RunFault {
        match fault {
            InputFault::Script(fault) => RunFault::Script(fault),
            InputFault::Read => RunFault::Read,
            InputFault::Memory => RunFault::Memory,
        }
    }
}

impl From<AuditFault> for RunFault {
    ghost from_gives = { λ fault e. e ≡ of_audit fault };

    fn from(fault: AuditFault) -> RunFault {
        match fault {
            AuditFault::Memory => RunFault::Memory,
            other => RunFault::Audit(other),
        }
    }
}

impl From<WriteFault> for RunFault {
    ghost from_gives = { λ _ e. e ≡ Write };

    fn from(_: WriteFault) -> RunFault {
        RunFault::Write
    }
}

impl From<ThreadFault> for RunFault {
    ghost from_gives = { λ fault e. e ≡ of_thread fault };

    fn from(fault: ThreadFault) -> RunFault {
        match fault {
            ThreadFault::Memory => RunFault::Memory,
            ThreadFault::NoThread => RunFault::NoThread,
            ThreadFault::GateHeld(port) => RunFault::GateHeld(port),
            ThreadFault::StrayBook(port) => RunFault::StrayBook(port),
            ThreadFault::NotLeft(master) => RunFault::NotLeft(master),
        }
    }
}

impl From<Memory> for RunFault {
    ghost from_gives = { λ _ e. e ≡ WantOfMemory };

    fn from(_: Memory) -> RunFault {
        RunFault::Memory
    }
}
