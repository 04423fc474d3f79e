//! The limits of the crossbar that several crates share. Code and contracts name them; `laws` says them in numbers.

/// The largest size of a message, as the base-2 logarithm of its bytes.
pub const MAX_SIZE: u8 = 8;

/// The most bytes that a message carries.
pub const MAX_BYTES: usize = 1 << MAX_SIZE;

/// The lanes of the bus, each of one byte.
pub const BUS_BYTES: usize = 8;

/// The bytes of a word in which bytes are kept. It has nothing to do with the bus.
pub const WORD_BYTES: usize = 8;

/// The most masters of a crossbar.
pub const MAX_MASTERS: usize = 16;

/// The most slave ports of a crossbar, the error port among them.
pub const MAX_PORTS: usize = 16;

/// The most slots of a transaction arena.
pub const MAX_SLOTS: usize = 256;

/// The most threads that serve one slave port.
pub const MAX_WORKERS: usize = 4;
