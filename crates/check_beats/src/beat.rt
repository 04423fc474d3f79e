//! Beats of both channels, but for their lanes.
//!
//! What is asked of a beat alone reads no lane, so a beat is handed about without them; who needs its lanes is passed
//! a slice of as many as the bus has, or more.

/// One beat of a request on channel A, but for its lanes. Bit k of the mask belongs to lane k.
#[derive(Debug, Clone, Copy, PartialEq, Eq, Default)]
pub struct AskHead {
    pub opcode: u8,
    pub param: u8,
    pub size: u8,
    pub source: u16,
    pub address: u64,
    pub mask: u64,
    pub corrupt: bool,
}

/// One beat of a reply on channel D, but for its lanes.
#[derive(Debug, Clone, Copy, PartialEq, Eq, Default)]
pub struct ReplyHead {
    pub opcode: u8,
    pub param: u8,
    pub size: u8,
    pub source: u16,
    pub denied: bool,
    pub corrupt: bool,
}
