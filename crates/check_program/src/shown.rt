//! A reader whose progress is shown, and a writer before which it is erased.
ghost use Rattle.std.specs.Prelude.{◌≡◌};
ghost use Rattle.std.specs.Io.{ReadsAtMost, WritesAtMost};
ghost use Rattle.std.specs.Io.KnownBytes.{Keeps, ReadConsumes, WriteAppends};

use crate::meter::Meter;
use std::io;
use std::io::{Eprint, Read, Write};
use std::time::Clock;

/// A capture, with the meter that counts what is read of it, if its progress is shown. That a read fails only if the one
/// below does is read off the code.
#[derive(Drop)]
pub struct Shown<'m, 'a, R: Clock + Eprint, C: Read + Drop> {
    capture: C,
    meter: Option<&'m Meter<'a, R>>,
}

impl<'m, 'a, R: Clock + Eprint, C: Read + Drop> Shown<'m, 'a, R, C> {
    /// This capture, which is read through the meter.
    pub fn new(capture: C, meter: Option<&'m Meter<'a, R>>) -> Shown<'m, 'a, R, C>
        ensures { result.capture ≡ capture }
    {
        Shown { capture, meter }
    }
}

impl<'m, 'a, R: Clock + Eprint, C: Read + Drop> Read for Shown<'m, 'a, R, C> {
    ghost remaining = { λ shown. C.remaining shown.capture };

    fn read(&mut self, buf: &mut [u8]) -> io::Result<usize>
        ensures bound { ReadsAtMost result buf.new }
        ensures bytes { ReadConsumes (C.remaining self.old.capture) (C.remaining self.new.capture) result buf.new }
    {
        let count = self.capture.read(buf)?;
        if let Some(meter) = self.meter {
            if let Some(read) = buf.get(..count) {
                meter.count(read);
            }
        }
        Ok(count)
    }
}

/// A writer to the terminal on which the progress may be shown: the line of progress is erased before each write. That a
/// write fails only if the one below does is read off the code.
#[derive(Drop)]
pub struct Erasing<'m, 'a, R: Clock + Eprint, W: Write + Drop> {
    writer: W,
    meter: Option<&'m Meter<'a, R>>,
}

impl<'m, 'a, R: Clock + Eprint, W: Write + Drop> Erasing<'m, 'a, R, W> {
    /// This writer, before whose writes the meter's line is erased.
    pub fn new(writer: W, meter: Option<&'m Meter<'a, R>>) -> Erasing<'m, 'a, R, W>
        ensures { result.writer ≡ writer }
    {
        Erasing { writer, meter }
    }

    fn erase(&self) {
        if let Some(meter) = self.meter {
            meter.erase();
        }
    }
}

impl<'m, 'a, R: Clock + Eprint, W: Write + Drop> Write for Erasing<'m, 'a, R, W> {
    ghost contents = { λ erasing. W.contents erasing.writer };

    fn write(&mut self, buf: &[u8]) -> io::Result<usize>
        ensures bound { WritesAtMost result buf.now }
        ensures bytes { WriteAppends (W.contents self.old.writer) (W.contents self.new.writer) result buf.now }
    {
        self.erase();
        self.writer.write(buf)
    }

    fn flush(&mut self) -> io::Result<()>
        ensures bytes { Keeps (W.contents self.old.writer) (W.contents self.new.writer) }
    {
        self.writer.flush()
    }
}
