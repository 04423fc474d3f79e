//! The input of a program: a script, and the system that it spells.
ghost use Rattle.std.specs.Prelude.{◌≡◌, ◌+◌, IfOk, Err};
ghost use Rattle.tl_script.specs.declared.fault.ScriptFault.{ScriptFault};
ghost use Rattle.tl_streams.specs.Input.{GivesSystem, HasScriptFault, of_read, of_script};
ghost use Rattle.tl_streams.specs.Streams.{TakesUpTo};

use crate::limited::LimitedReader;
use crate::streams::{ReadFault, read_up_to};
use std::alloc::Global;
use std::io::Read;
use thiserror::Error;
use tl_script::{MAX_SCRIPT, ScriptFault, System, read_system};

/// Why no system was read.
#[derive(Debug, Drop, Error)]
pub enum InputFault {
    /// The script's first fault, but for want of memory.
    #[error("{0}")]
    Script(ScriptFault),
    #[error("read failed")]
    Read,
    /// Want of memory, in whichever layer it was met.
    #[error("memory refused")]
    Memory,
}

impl From<ScriptFault> for InputFault {
    ghost from_gives = { λ fault e. e ≡ of_script fault };

    fn from(fault: ScriptFault) -> InputFault {
        match fault {
            ScriptFault::Memory => InputFault::Memory,
            other => InputFault::Script(other),
        }
    }
}

impl From<ReadFault> for InputFault {
    ghost from_gives = { λ fault e. e ≡ of_read fault };

    fn from(fault: ReadFault) -> InputFault {
        match fault {
            ReadFault::Memory => InputFault::Memory,
            ReadFault::Read => InputFault::Read,
        }
    }
}

/// Reads a script to its end, and the system that it spells.
pub fn read_whole_system<R: Read>(
    alloc: Global,
    reader: &mut LimitedReader<'_, R>,
) -> Result<System, InputFault>
    ensures same { reader.new.reader.ghost_name ≡ reader.old.reader.ghost_name }
    ensures ok { IfOk result (GivesSystem (R.remaining reader.old.reader.now)
        (R.remaining reader.new.reader.now)) }
    ensures script { (fault : ScriptFault) → result ≡ Err (InputFault.Script fault)
        → HasScriptFault (R.remaining reader.old.reader.now) (R.remaining reader.new.reader.now) fault }

    // No more is taken than makes a script too long, whether a fault comes of it or not.
    ensures taken { TakesUpTo (MAX_SCRIPT + 1) (R.remaining reader.old.reader.now)
        (R.remaining reader.new.reader.now) }
{
    let script = read_up_to(alloc, reader, MAX_SCRIPT + 1)?;
    let system = read_system(alloc, &script)?;
    Ok(system)
}
