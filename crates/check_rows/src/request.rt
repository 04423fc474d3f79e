//! Requests in flight.
use check_watch::{Beat, Origin};

/// With which beat a request began: the line on which its row begins, its time, the beat without its lanes, and how many
/// rows were judged before that one, modulo 2^64.
#[derive(Debug, Clone, Copy, PartialEq, Eq)]
pub struct Began {
    pub line: u64,
    pub time: u64,
    pub beat: Beat,
    pub place: u64,
}

/// A request in flight: how it began, and whose it is.
#[derive(Debug, Clone, Copy, PartialEq, Eq)]
pub struct Open {
    pub began: Began,
    pub origin: Origin,
}

/// What is left when no more rows come: how many requests are in flight, and the one that began first.
#[derive(Debug, Clone, Copy, PartialEq, Eq)]
pub struct Left {
    pub requests: usize,
    pub first: Open,
}
