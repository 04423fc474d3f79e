//! A clock that is looked at.
use crate::tap::Tap;

/// The edges of a clock at which beats cross.
#[derive(Debug, Clone, Copy, PartialEq, Eq)]
pub enum Edge {
    Rising,
    Falling,
}

/// A clock: where it is, and its edges.
#[derive(Debug, Clone, Copy, PartialEq, Eq)]
pub struct Clock {
    pub tap: Tap,
    pub edge: Edge,
}
