//! Where bits are taken from.

/// Some bits of a kept value: its slot, and the places of its digits from the first to before the last, the highest
/// bit's digit being at place 0.
#[derive(Debug, Clone, Copy, PartialEq, Eq)]
pub struct Tap {
    pub slot: usize,
    pub from: usize,
    pub to: usize,
}
