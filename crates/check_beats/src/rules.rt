//! What a system says of all its links.
ghost use Rattle.std.specs.Prelude.{◌≡◌, ◌≤◌, ◌↔◌, IsTrue};
ghost use Rattle.tl_types.specs.declared.limits.TheConstants.{MAX_SIZE};
ghost use Rattle.check_beats.specs.Rules.{IsAlignedBy, IsAskMarkedBy, IsMarkedBy, clocks_in, decoded_size};

use crate::beat::{AskHead, ReplyHead};

/// What a system says of all its links. By default requests are aligned, data are not corrupt, decoders look at all
/// bytes of a request, and a unit of time is a clock.
#[derive(Debug, Clone, Copy, PartialEq, Eq, Default)]
pub struct LinkRules {
    /// The address of a request may be no multiple of its size. Its slave denies it.
    pub unaligned: bool,
    /// Beats with data may be marked corrupt. Their bytes promise nothing.
    pub corrupt: bool,
    /// Decoders look at the address of a request, and not at its other bytes.
    pub by_address: bool,
    /// How many units of the time of rows a clock has. 0 counts as 1.
    pub period: u64,
}

impl LinkRules {
    /// The size of the part of a request that decoders look at: all its bytes, or the first.
    #[inline]
    pub fn decoded_size(self, size: u8) -> u8
        ensures value { result ≡ decoded_size self size }
        ensures in_limit { result ≤ size }
    {
        if self.by_address { 0 } else { size }
    }

    /// How many clocks lie in so many units of time.
    pub fn clocks(self, time: u64) -> u64
        ensures { result ≡ clocks_in self time }
    {
        time / self.period.max(1)
    }
}

/// Whether the address of a request is a multiple of its size, if it has to be.
pub fn is_aligned_by(rules: LinkRules, beat: &AskHead) -> bool
    requires { beat.now.size ≤ MAX_SIZE }
    ensures { IsTrue result ↔ IsAlignedBy rules beat.now }
{
    rules.unaligned || beat.address % (1 << beat.size) == 0
}

/// Whether a beat of a request is not marked corrupt, unless it may be.
pub fn is_ask_marked_by(rules: LinkRules, beat: &AskHead) -> bool
    ensures { IsTrue result ↔ IsAskMarkedBy rules beat.now }
{
    !beat.corrupt || rules.corrupt
}

/// Whether a beat of a reply that is not denied is not marked corrupt, unless it may be.
pub fn is_marked_by(rules: LinkRules, beat: &ReplyHead) -> bool
    ensures { IsTrue result ↔ IsMarkedBy rules beat.now }
{
    !beat.corrupt || beat.denied || rules.corrupt
}
