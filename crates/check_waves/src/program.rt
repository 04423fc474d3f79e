//! The program, save for its words and its files: the status that it ends with.
ghost use Rattle.std.specs.Prelude.{◌≡◌, IfErr, OnOk};
ghost use Rattle.std.specs.Process.{exit_status};
ghost use Rattle.check_waves.specs.Fault.{wave_status_of};

use crate::fault::WaveFault;
use std::io::Eprint;
use std::process::ExitCode;
use tl_cli::fail;

/// Ends the program after all rows were written, or with the line and the status of a fault.
pub fn end_waves<R: Eprint>(rt: &R, outcome: Result<(), WaveFault>) -> ExitCode
    ensures done { OnOk outcome (exit_status result ≡ 0) }
    ensures fault { IfErr outcome (λ fault. exit_status result ≡ wave_status_of fault) }
{
    match outcome {
        Ok(()) => ExitCode::from(0),
        Err(fault) => fail(rt, &fault, fault.status()),
    }
}
