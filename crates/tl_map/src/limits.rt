//! The limits of systems that a judge takes. Code and contracts name them; `laws` says them in numbers.

/// The most masters.
pub const MAX_JUDGED_MASTERS: usize = 64;

/// The most slave ports, the error port not among them.
pub const MAX_JUDGED_PORTS: usize = 255;

/// The most ranges of a port.
pub const MAX_RANGES_OF_PORT: usize = 16;

/// The most sources of a master.
pub const MAX_JUDGED_SOURCES: u32 = 65_536;

/// The largest wide source.
pub const MAX_WIDE: u32 = 65_535;

/// The most sources of a master that says only how many it has.
pub const MAX_BLOCK: u32 = 256;
