//! A line of progress.

use std::fmt;
use std::fmt::{Display, Formatter};

/// How far a capture was read, at some time.
#[derive(Clone, Copy, Debug, PartialEq, Eq)]
pub struct Line {
    /// The lines of the file that were read, but for the one with the columns' names.
    pub rows: u64,
    /// How many milliseconds that took.
    pub millis: u64,
    /// The bytes that were read.
    pub bytes: u64,
    /// The bytes of the whole file, if its length is known.
    pub whole: Option<u64>,
}

impl Line {
    /// How many rows were read in a second.
    pub fn rate(&self) -> u64 {
        self.rows.saturating_mul(1_000) / self.millis.max(1)
    }

    /// The share of the file that was read, in percent; none if its length is not known.
    pub fn share(&self) -> Option<u64> {
        let whole = self.whole?.max(1);
        Some((self.bytes.saturating_mul(100) / whole).min(100))
    }
}

/// `1200000 rows, 600000 rows a second, 43 %`.
impl Display for Line {
    fn fmt<W: fmt::Write>(&self, f: &mut Formatter<W>) -> fmt::Result {
        write!(f, "{} rows, {} rows a second", self.rows, self.rate())?;
        match self.share() {
            Some(share) => write!(f, ", {share} %"),
            None => Ok(()),
        }
    }
}
