//! A channel of a link, and where its signals are.
use crate::signal::Signal;
use crate::tap::Tap;
use check_watch::Link;

/// Where the signals of a beat of channel A are.
#[derive(Debug, Clone, Copy, PartialEq, Eq)]
pub struct AskTaps {
    pub opcode: Tap,
    pub param: Tap,
    pub size: Tap,
    pub source: Tap,
    pub address: Tap,
    pub mask: Tap,
    pub data: Tap,
    pub corrupt: Tap,
}

/// Where the signals of a beat of channel D are.
#[derive(Debug, Clone, Copy, PartialEq, Eq)]
pub struct ReplyTaps {
    pub opcode: Tap,
    pub param: Tap,
    pub size: Tap,
    pub source: Tap,
    pub data: Tap,
    pub denied: Tap,
    pub corrupt: Tap,
}

/// Where the signals of a beat are.
#[derive(Debug, Clone, Copy, PartialEq, Eq)]
pub enum BeatTaps {
    A(AskTaps),
    D(ReplyTaps),
}

/// A channel of a link: the place of its domain, where its valid and its ready are, and the signals of its beats.
#[derive(Debug, Clone, Copy, PartialEq, Eq)]
pub struct Channel {
    pub link: Link,
    pub domain: usize,
    pub valid: Tap,
    pub ready: Tap,
    pub beat: BeatTaps,
}

/// A beat that is no row: a signal of it that is no data has an unknown bit.
#[derive(Debug, Clone, Copy, PartialEq, Eq)]
pub struct UnknownBit {
    pub time: u64,
    pub link: Link,
    pub signal: Signal,
}
