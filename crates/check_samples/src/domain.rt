//! What says when beats of links cross.
use crate::clock::Clock;
use crate::reset::Reset;

/// A clock and the reset beside it, which there may be none of; and the name of each, if it is not the system's own.
#[derive(Debug, Drop)]
pub struct Domain {
    pub clock: Clock,
    pub clock_name: Option<Vec<u8>>,
    pub reset: Option<Reset>,
    pub reset_name: Option<Vec<u8>>,
}
