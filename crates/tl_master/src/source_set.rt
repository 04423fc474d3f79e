//! A set of a master's sources.
ghost use Rattle.std.specs.Prelude.{◌≡◌, ◌≢◌, ℕ, ◌+◌, ◌<◌, ◌≤◌, IfSome, IfNone};
ghost use Rattle.std.specs.Int.{bit_at};
ghost use Rattle.tl_master.specs.SourceSet.{source_bit, IsLowestBit, IsLowestIn};

use tl_map::MAX_BLOCK;

/// How many sources a word of a set has a bit for.
const WORD_SOURCES: usize = 64;

/// The words of a set.
const WORDS: usize = MAX_BLOCK as usize / WORD_SOURCES;

/// A set of sources, a bit for each: so the lowest of them is found without a look at those that are not in it.
#[derive(Clone, Copy)]
pub(crate) struct SourceSet {
    words: [u64; WORDS],
}

impl SourceSet {
    /// No source.
    pub(crate) fn new() -> SourceSet
        ensures { (source : ℕ) → source_bit result.words source ≡ 0 }
    {
        SourceSet { words: [0; WORDS] }
    }

    /// Puts a source into the set.
    pub(crate) fn insert(&mut self, source: usize)
        requires { source < MAX_BLOCK }
        ensures here { source_bit self.new.words source ≡ 1 }
        ensures others { (other : ℕ) → other ≢ source
            → source_bit self.new.words other ≡ source_bit self.old.words other }
    {
        self.words[source / WORD_SOURCES] |= 1 << (source % WORD_SOURCES);
    }

    /// Takes a source out of the set.
    pub(crate) fn remove(&mut self, source: usize)
        requires { source < MAX_BLOCK }
        ensures here { source_bit self.new.words source ≡ 0 }
        ensures others { (other : ℕ) → other ≢ source
            → source_bit self.new.words other ≡ source_bit self.old.words other }
    {
        self.words[source / WORD_SOURCES] &= !(1 << (source % WORD_SOURCES));
    }

    /// The lowest source of the set from this one on.
    pub(crate) fn first_from(&self, from: usize) -> Option<usize>
        ensures some { IfSome result (IsLowestIn self.now.words from) }
        ensures none { IfNone result
            ((source : ℕ) → from ≤ source → source_bit self.now.words source ≡ 0) }
    {
        let mut start = from;
        while start < WORDS * WORD_SOURCES {
            let word = start / WORD_SOURCES;
            if let Some(bit) = lowest_from(self.words[word], start % WORD_SOURCES) {
                return Some(word * WORD_SOURCES + bit);
            }
            start = (word + 1) * WORD_SOURCES;
        }
        None
    }
}

/// The lowest bit of a word that is set, from this one on.
fn lowest_from(word: u64, from: usize) -> Option<usize>
    requires { from < WORD_SOURCES }
    ensures some { IfSome result (IsLowestBit word from) }
    ensures none { IfNone result ((bit : ℕ) → from ≤ bit → bit_at word bit ≡ 0) }
{
    let rest = word >> from;
    if rest == 0 {
        return None;
    }
    Some(from + rest.trailing_zeros() as usize)
}
