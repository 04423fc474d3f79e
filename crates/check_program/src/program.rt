//! The program, save for its words and its files: what is asked of a capture, and the status that the program ends with.
ghost use Rattle.std.specs.Prelude.{◌≡◌, IfOk, IfErr, map};
ghost use Rattle.std.specs.Process.{exit_status};
ghost use Rattle.check_description.specs.File.{parts_view};
ghost use Rattle.check_program.specs.Dump.{IsOutcome, IsOutcomeCounted};
ghost use Rattle.check_program.specs.Fault.{status_of};
ghost use Rattle.check_program.specs.Program.{asked_by_options, status_of_verdict};

use crate::asked::Asked;
use crate::engine::check;
use crate::fault::CheckFault;
use crate::system::SystemFile;
use check_options::CheckOptions;
use check_start::Terms;
use std::alloc::Global;
use std::io::{Eprint, Read, Write};
use std::process::ExitCode;
use tl_cli::fail;

/// The status of a capture that is not lawful, or incomplete.
const UNLAWFUL: u8 = 3;

/// Judges a capture, or a dump, as the command line asks, for the system of this file and of these images. The text of what
/// the capture has covered is added to `covered` if a file for it was named and there is a verdict.
pub fn check_as_asked<C: Read + Drop, W: Write>(
    alloc: Global,
    system: SystemFile,
    images: &[Vec<u8>],
    capture: C,
    writer: &mut W,
    options: &CheckOptions<'_>,
    covered: &mut Vec<u8>,
) -> Result<bool, CheckFault>
    ensures checked { IsOutcome (asked_by_options options.now) (record {
      file = system.bytes.items;
      parts = parts_view system.parts;
      images = map (λ image. image.items) images.now;
      capture = C.remaining capture;
    }) (W.contents writer.old) (W.contents writer.new) result }
    ensures covered { IfOk result (IsOutcomeCounted (asked_by_options options.now) (record {
      file = system.bytes.items;
      parts = parts_view system.parts;
      images = map (λ image. image.items) images.now;
      capture = C.remaining capture;
    }) covered.old.items covered.new.items) }
{
    let asked = Asked {
        terms: Terms {
            links: options.links,
            orders: options.orders,
            within: options.within,
        },
        trace: options.trace,
        complete: options.complete,
        coverage: options.coverage.is_some(),
    };
    check(alloc, system, images, capture, writer, asked, covered)
}

/// Ends the program after a verdict, or with the line and the status of a fault.
pub fn end_check<R: Eprint>(rt: &R, outcome: Result<bool, CheckFault>) -> ExitCode
    ensures verdict { IfOk outcome (λ lawful. exit_status result ≡ status_of_verdict lawful) }
    ensures fault { IfErr outcome (λ fault. exit_status result ≡ status_of fault) }
{
    match outcome {
        Ok(true) => ExitCode::from(0),
        Ok(false) => ExitCode::from(UNLAWFUL),
        Err(fault) => fail(rt, &fault, fault.status()),
    }
}
