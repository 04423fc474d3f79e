//! Beats of both channels, and the links that they cross.
ghost use Rattle.std.specs.Prelude.{◌≡◌};

use check_beats::{AskHead, ReplyHead};

/// A link of a crossbar.
#[derive(Debug, Clone, Copy, PartialEq, Eq)]
pub enum Link {
    /// That of a master, by its number.
    Master(usize),
    /// That of a slave port, by its number.
    Port(usize),
}

/// A beat that crossed a link, but for its lanes.
#[derive(Debug, Clone, Copy, PartialEq, Eq)]
pub enum Beat {
    /// One of a request, on channel A.
    A(AskHead),
    /// One of a reply, on channel D.
    D(ReplyHead),
}

impl Beat {
    ghost use Rattle.check_watch.specs.Plan.{source_of};

    /// The source that it names.
    pub fn source(&self) -> u16
        ensures { result ≡ source_of self.now }
    {
        match self {
            Beat::A(beat) => beat.source,
            Beat::D(beat) => beat.source,
        }
    }
}
