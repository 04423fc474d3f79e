//! What is counted of a capture, and when it is printed.

use crate::line::Line;
use std::cell::Cell;
use std::io::Eprint;
use std::time::{Clock, Instant};

/// When the first line is printed, in milliseconds.
const FIRST: u64 = 1_000;

/// How long a line stands at least, in milliseconds.
const PAUSE: u64 = 500;

/// Erases what stands on the line of a terminal from the cursor on.
const ERASE: &str = "\u{1b}[K";

/// Counts what is read of a capture, and prints a line of progress from time to time. The reader of the capture and the
/// writer of the verdict share it, so that no line stands where something else is written.
#[derive(Drop)]
pub struct Meter<'a, R: Clock + Eprint> {
    rt: &'a R,
    begun: Instant,
    next: Cell<u64>,
    lines: Cell<u64>,
    bytes: Cell<u64>,
    whole: Option<u64>,
    stands: Cell<bool>,
}

impl<'a, R: Clock + Eprint> Meter<'a, R> {
    /// A meter of a capture of which nothing was read, with the length of its file if that is known. None if there is no
    /// clock.
    pub fn new(rt: &'a R, whole: Option<u64>) -> Option<Meter<'a, R>> {
        Some(Meter {
            rt,
            begun: Instant::now(rt).ok()?,
            next: Cell::new(FIRST),
            lines: Cell::new(0),
            bytes: Cell::new(0),
            whole,
            stands: Cell::new(false),
        })
    }

    /// Counts bytes that were read, none at the end of the capture.
    pub fn count(&self, read: &[u8]) {
        if read.is_empty() {
            self.erase();
            return;
        }
        self.bytes
            .set(self.bytes.get().saturating_add(read.len() as u64));
        let ends = read.iter().filter(|byte| **byte == b'\n').count();
        self.lines.set(self.lines.get().saturating_add(ends as u64));
        self.show();
    }

    /// Prints a line if it is time for one.
    fn show(&self) {
        let Ok(elapsed) = self.begun.elapsed(self.rt) else {
            return;
        };
        let millis = elapsed
            .as_secs()
            .saturating_mul(1_000)
            .saturating_add(u64::from(elapsed.subsec_millis()));
        if millis < self.next.get() {
            return;
        }
        self.next.set(millis.saturating_add(PAUSE));
        let line = Line {
            rows: self.lines.get().saturating_sub(1),
            millis,
            bytes: self.bytes.get(),
            whole: self.whole,
        };
        // what is printed next begins where this line does
        let _ = eprint!(self.rt; "{line}{ERASE}\r");
        self.stands.set(true);
    }

    /// Erases the line that was printed last, if it stands there.
    pub fn erase(&self) {
        if self.stands.replace(false) {
            let _ = eprint!(self.rt; "{ERASE}");
        }
    }
}
