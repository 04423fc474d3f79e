//! Resets that are looked at.
use crate::clock::Clock;
use crate::tap::Tap;

/// A reset: where it is, and the bit that makes it active.
#[derive(Debug, Clone, Copy, PartialEq, Eq)]
pub struct Reset {
    pub tap: Tap,
    pub is_low: bool,
}

/// The system's clock and reset, of which rows tell when it resets the whole system.
#[derive(Debug, Clone, Copy, PartialEq, Eq)]
pub struct SystemReset {
    pub clock: Clock,
    pub reset: Reset,
}

/// The same, and whether the reset was active at the last edge of the clock at the times that are over.
#[derive(Debug, Clone, Copy, PartialEq, Eq)]
pub(crate) struct WatchedReset {
    pub(crate) system: SystemReset,
    pub(crate) was_active: bool,
}
