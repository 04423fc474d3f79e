//! Which requests and replies of one link have begun.
ghost use Rattle.std.specs.Prelude.{◌≡◌, ◌↔◌, ◌+◌, ◌%◌, ◌^◌, ◌==◌, ℕ, if◌then◌else◌, length, IsTrue, IfOk};
ghost use Rattle.check_turns.specs.Turns.{next};
ghost use Rattle.check_turns.specs.View.{IsAfter, IsFresh, number_in};

use check_watch::Beat;
use std::alloc::{AllocError, Global};
use std::marker::Model;

/// How many sources a link may have.
const SOURCES: usize = 65_536;

/// How many requests and replies have begun at a link whose replies come in order.
#[derive(Drop)]
pub struct LinkTurns {
    /// How many requests have begun, modulo 2^64.
    asked: u64,
    /// How many replies have begun, modulo 2^64.
    answered: u64,
    /// Of each source, how many requests had begun with its last one; 0 if it has none.
    numbers: Vec<u64>,
}

impl Model for LinkTurns {
    ghost use Rattle.std.specs.Prelude.{◌≡◌, length};
    ghost use Rattle.check_turns.specs.View.{LinkTurnsView};

    ghost Value = { LinkTurnsView };

    ghost view = { λ t. record { asked = t.asked; answered = t.answered; numbers = t.numbers.items } };

    ghost invariant = { λ t. length t.numbers.items ≡ 65536 };
}

impl Clone for LinkTurns {
    ghost use Rattle.std.specs.Prelude.{◌≡◌};

    ghost is_clone = { λ turns copy. copy ≡ turns };

    fn clone(&self) -> Result<LinkTurns, AllocError> {
        Ok(LinkTurns {
            asked: self.asked,
            answered: self.answered,
            numbers: self.numbers.clone()?,
        })
    }
}

/// So many numbers, all zero.
fn zeros(alloc: Global, count: usize) -> Result<Vec<u64>, AllocError>
    ensures counted { IfOk result (λ numbers. length numbers.items ≡ count) }
    ensures zero { IfOk result (λ numbers. (source : ℕ) → number_in numbers.items source ≡ 0) }
{
    vec![in alloc; 0; count]
}

impl LinkTurns {
    /// No message has begun.
    pub fn new(alloc: Global) -> Result<LinkTurns, AllocError>
        ensures { IfOk result IsFresh }
    {
        Ok(LinkTurns {
            asked: 0,
            answered: 0,
            numbers: zeros(alloc, SOURCES)?,
        })
    }

    /// Whether a reply to a source is the one whose turn it is.
    pub fn is_turn_of(&self, source: u16) -> bool
        ensures { IsTrue result ↔ (number_in self.now.numbers source ≡ next self.now.answered) }
    {
        self.numbers[usize::from(source)] == self.answered.wrapping_add(1)
    }

    /// A request of a source begins.
    fn ask(&mut self, source: u16)
        ensures asked { self.new.asked ≡ (self.old.asked + 1) % 2 ^ 64 }
        ensures answered { self.new.answered ≡ self.old.answered }
        ensures numbers { (other : ℕ) → number_in self.new.numbers other
            ≡ (if source == other then next self.old.asked else number_in self.old.numbers other) }
    {
        self.asked = self.asked.wrapping_add(1);
        self.numbers[usize::from(source)] = self.asked;
    }

    /// A reply begins.
    fn answer(&mut self)
        ensures { self.new ≡ record self.old { answered = (self.old.answered + 1) % 2 ^ 64 } }
    {
        self.answered = self.answered.wrapping_add(1);
    }

    /// A message begins with a beat.
    pub fn note(&mut self, beat: &Beat)
        ensures { IsAfter self.old self.new beat.now }
    {
        match beat {
            Beat::A(beat) => self.ask(beat.source),
            Beat::D(_) => self.answer(),
        }
    }

    /// The link is reset: no message has begun.
    pub fn reset(&mut self)
        ensures { IsFresh self.new }
    {
        self.asked = 0;
        self.answered = 0;
        self.numbers.fill(0);
    }
}
