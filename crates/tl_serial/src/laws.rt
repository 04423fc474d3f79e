//! A law of serial runs, on a function that does nothing but carry it.
ghost use Rattle.tl_serial.specs.Exact.{HasOneSerialRun};

use tl_script::System;

/// The serial run is exact: a system has one, with its traces and its histories.
pub fn a_system_has_one_serial_run(system: &System)
    ensures { HasOneSerialRun system.now }
{
    let _lawful = system.map().ports();
}
