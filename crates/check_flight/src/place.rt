//! Where a message stands in a crossbar.

/// The number of its link on its side, its wide source, and the port of its request.
#[derive(Debug, Clone, Copy, PartialEq, Eq)]
pub struct FlightPlace {
    pub link: usize,
    pub wide: usize,
    pub port: usize,
}
