//! The file of what was covered.
ghost use Rattle.std.specs.Prelude.{◌≡◌, IfErr};
ghost use Rattle.check_program.specs.declared.fault.CheckFault.TheVariants.{Write};

use crate::fault::CheckFault;
use std::fs;
use std::rt::Files;
use tl_streams::{LimitedWriter, write_all};

/// Writes what was covered to the file of this name. The file is made if there is none, and what it held before is gone.
/// If a write fails, it holds a front of the text. No clause can say which bytes reach a file of the system.
pub fn write_coverage<F: Files>(files: &F, name: &str, text: &[u8]) -> Result<(), CheckFault>
    ensures { IfErr result (λ fault. fault ≡ Write) }
{
    let Ok(mut file) = fs::create(files, name) else {
        return Err(CheckFault::Write);
    };
    write_all(&mut LimitedWriter::new(&mut file), text)?;
    Ok(())
}
