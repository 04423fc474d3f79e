//! A reader that can be read, and a writer that can be interrupted, a bounded number of times.
//!
//! What reads a script or writes a text is handed nothing else. The streams themselves are private to this file, each call
//! needs one of the turns that are left and spends it, and nothing gives one back: so a bound on the turns is a bound
//! on the calls, whatever a loop does with them.
ghost use Rattle.std.specs.Prelude.{◌≡◌, ◌≢◌, ◌+◌, ◌<◌, ◌↔◌, IsTrue, IfErr, OnOk};
ghost use Rattle.std.specs.Io.{ReadsAtMost, WritesAtMost};
ghost use Rattle.std.specs.Io.KnownBytes.{ReadConsumes, WriteAppends};
ghost use Rattle.std.specs.IoError.{error_kind};

use std::io;
use std::io::{ErrorKind, Read, Write};

/// How many reads are made at most.
pub const READS: u32 = 2_097_154;

/// How many writes that were interrupted are tried again at most.
pub const RETRIES: u32 = 2_097_154;

/// A reader of which so many reads are left. Each read spends one.
#[derive(Drop)]
pub struct LimitedReader<'r, R: Read> {
    reader: &'r mut R,
    reads_left: u32,
}

impl<'r, R: Read> LimitedReader<'r, R> {
    /// All reads are left.
    pub fn new(reader: &'r mut R) -> LimitedReader<'r, R>
        ensures same { result.reader.ghost_name ≡ reader.entry.ghost_name }
        ensures now { result.reader.now ≡ reader.old }
        ensures left { result.reads_left ≡ READS }
    {
        LimitedReader {
            reader,
            reads_left: READS,
        }
    }

    /// Whether no read is left.
    pub fn is_spent(&self) -> bool
        ensures { IsTrue result ↔ (self.now.reads_left ≡ 0) }
    {
        self.reads_left == 0
    }

    /// Reads once.
    pub fn read(&mut self, buf: &mut [u8]) -> io::Result<usize>
        requires { 0 < self.old.reads_left }
        ensures same { self.new.reader.ghost_name ≡ self.old.reader.ghost_name }
        ensures spent { self.new.reads_left + 1 ≡ self.old.reads_left }
        ensures bound { ReadsAtMost result buf.new }
        ensures bytes { ReadConsumes (R.remaining self.old.reader.now) (R.remaining self.new.reader.now)
            result buf.new }
    {
        self.reads_left -= 1;
        self.reader.read(buf)
    }
}

/// A writer of which so many tries are left. A write that is interrupted spends one: the first, and each that is made
/// again.
#[derive(Drop)]
pub struct LimitedWriter<'w, W: Write> {
    writer: &'w mut W,
    tries_left: u32,
}

impl<'w, W: Write> LimitedWriter<'w, W> {
    /// The first try and all retries are left.
    pub fn new(writer: &'w mut W) -> LimitedWriter<'w, W>
        ensures same { result.writer.ghost_name ≡ writer.entry.ghost_name }
        ensures now { result.writer.now ≡ writer.old }
        ensures left { result.tries_left ≡ RETRIES + 1 }
    {
        LimitedWriter {
            writer,
            tries_left: RETRIES + 1,
        }
    }

    /// Whether no try is left.
    pub fn is_spent(&self) -> bool
        ensures { IsTrue result ↔ (self.now.tries_left ≡ 0) }
    {
        self.tries_left == 0
    }

    /// Writes once.
    pub fn write(&mut self, buf: &[u8]) -> io::Result<usize>
        requires { 0 < self.old.tries_left }
        ensures same { self.new.writer.ghost_name ≡ self.old.writer.ghost_name }
        ensures spent { IfErr result (λ e. error_kind e ≡ ErrorKind.Interrupted
            → self.new.tries_left + 1 ≡ self.old.tries_left) }
        ensures failed { IfErr result (λ e. error_kind e ≢ ErrorKind.Interrupted
            → self.new.tries_left ≡ self.old.tries_left) }
        ensures kept { OnOk result (self.new.tries_left ≡ self.old.tries_left) }
        ensures bound { WritesAtMost result buf.now }
        ensures bytes { WriteAppends (W.contents self.old.writer.now) (W.contents self.new.writer.now)
            result buf.now }
    {
        match self.writer.write(buf) {
            Err(error) if error.kind() == ErrorKind::Interrupted => {
                self.tries_left -= 1;
                Err(error)
            }
            other => other,
        }
    }
}
