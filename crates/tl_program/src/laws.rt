//! A law of the program, on a function that does nothing but carry it: what a reader gets.
ghost use Rattle.tl_program.specs.OneThread.{ThreadedTextIsOneThreads};

use tl_script::System;

/// What the threaded engine writes is one thread's, port by port: each line carries the reply of one thread that serves
/// that port's history from reset; each entry of a history is printed once; and each source's entries at a port were
/// served in the order in which they were issued.
pub fn a_threaded_text_is_one_threads(system: &System)
    ensures { ThreadedTextIsOneThreads system.now }
{
    let _lawful = system.jobs();
}
