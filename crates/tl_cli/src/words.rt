//! The words with which a program was called.
ghost use Rattle.std.specs.Prelude.{◌≡◌, ◌⊎◌, IfErr};
ghost use Rattle.std.specs.Process.{exit_status};
ghost use Rattle.tl_cli.specs.declared.ends.TheConstants.{NO_MEMORY, USAGE};

use crate::ends::{no_memory, unread};
use std::env;
use std::io::Eprint;
use std::process::ExitCode;
use std::rt::Env;

/// The words of the command line, the first of which is the program's name. If a word is not text, or memory is refused,
/// the line of this fault is printed, and the status with which the program ends is the error.
pub fn read_words<R: Env + Alloc + Eprint>(rt: &R) -> Result<Vec<String<R::A>, R::A>, ExitCode>
    ensures { IfErr result (λ status. (exit_status status ≡ NO_MEMORY) ⊎ (exit_status status ≡ USAGE)) }
{
    let words = env::args(rt).map_err(|error| unread(rt, &error))?;
    words
        .collect::<Vec<String<R::A>, R::A>>(rt.alloc())
        .map_err(|_| no_memory(rt))
}
