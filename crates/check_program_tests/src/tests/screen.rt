//! A clock that is set by hand, and a terminal to which standard error and standard output go.
use std::alloc::Global;
use std::cell::{Cell, RefCell};
use std::fmt::{Display, Write as _};
use std::io;
use std::io::{Eprint, ErrorKind, Write};
use std::time::{Clock, Duration};

/// The time, and all that was written to the terminal.
#[derive(Drop)]
pub(super) struct Screen {
    pub(super) millis: Cell<u64>,
    said: RefCell<String>,
}

impl Screen {
    pub(super) fn new(alloc: Global) -> Screen {
        Screen {
            millis: Cell::new(0),
            said: RefCell::new(String::new(alloc)),
        }
    }

    /// Writes to the terminal.
    pub(super) fn put(&self, text: &str) -> io::Result<()> {
        let Ok(mut said) = self.said.try_borrow_mut() else {
            return Err(io::Error::from(ErrorKind::Other));
        };
        match said.push_str(text) {
            Ok(()) => Ok(()),
            Err(_) => Err(io::Error::from(ErrorKind::OutOfMemory)),
        }
    }

    /// Whether this alone was written since the last time.
    pub(super) fn has_said(&self, printed: &str) -> bool {
        let Ok(mut said) = self.said.try_borrow_mut() else {
            return false;
        };
        let is_so = said.as_str() == printed;
        said.clear();
        is_so
    }

    /// Whether this stands on the line of the terminal, and nothing else.
    pub(super) fn shows(&self, text: &str) -> bool {
        match self.said.try_borrow() {
            Ok(said) => stands(said.as_bytes(), text.as_bytes()),
            Err(_) => false,
        }
    }
}

/// How long a line of the tests is at most.
const WIDTH: usize = 64;

/// Whether these bytes leave this line on a terminal. Of its codes the return of the carriage and the erasure of what
/// stands from the cursor on are known, by their first bytes.
fn stands(written: &[u8], text: &[u8]) -> bool {
    let mut line = [0u8; WIDTH];
    let (mut cursor, mut length, mut skipped) = (0usize, 0usize, 0u32);
    for byte in written {
        if skipped > 0 {
            skipped -= 1;
        } else if *byte == b'\r' {
            cursor = 0;
        } else if *byte == 0x1b {
            length = cursor;
            skipped = 2;
        } else if let Some(place) = line.get_mut(cursor) {
            *place = *byte;
            cursor = cursor.saturating_add(1);
            length = length.max(cursor);
        }
    }
    line.get(..length) == Some(text)
}

impl Clock for Screen {
    fn monotonic(&self) -> io::Result<Duration> {
        Ok(Duration::from_millis(self.millis.get()))
    }

    fn since_1970(&self) -> io::Result<Duration> {
        Err(io::Error::from(ErrorKind::Unsupported))
    }
}

impl Eprint for Screen {
    fn eprint<D: Display + Drop>(&self, value: D) -> io::Result<()> {
        let Ok(mut said) = self.said.try_borrow_mut() else {
            return Err(io::Error::from(ErrorKind::Other));
        };
        match write!(said, "{value}") {
            Ok(()) => Ok(()),
            Err(_) => Err(io::Error::from(ErrorKind::OutOfMemory)),
        }
    }

    fn eprintln<D: Display + Drop>(&self, value: D) -> io::Result<()> {
        self.eprint(value)
    }
}

/// Standard output on the same terminal.
#[derive(Drop)]
pub(super) struct Output<'s> {
    pub(super) screen: &'s Screen,
}

impl<'s> Write for Output<'s> {
    fn write(&mut self, buf: &[u8]) -> io::Result<usize> {
        self.screen.put(str::from_utf8(buf).unwrap_or("?"))?;
        Ok(buf.len())
    }

    fn flush(&mut self) -> io::Result<()> {
        Ok(())
    }
}
