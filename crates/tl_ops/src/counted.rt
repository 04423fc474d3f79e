//! A bank that counts.
ghost use Rattle.std.specs.Prelude.{◌≡◌, ◌+◌, ◌%◌, ◌^◌};
ghost use Rattle.tl_ops.specs.Store.{reply};
ghost use Rattle.tl_ops.specs.Counted.{fresh_bank, counted_after};

use crate::bank::Bank;
use std::marker::Model;
use tl_types::{Ask, Reply};

/// A bank, and how many requests it has served.
#[derive(Drop)]
pub struct CountedBank {
    pub bank: Bank,
    /// Modulo 2^64.
    pub served: usize,
}

impl CountedBank {
    /// A bank that has served nothing.
    pub fn new(bank: Bank) -> CountedBank
        ensures { result ≡ fresh_bank bank }
    {
        CountedBank { bank, served: 0 }
    }

    /// Serves a request and counts it: the reply stands in the place of another. The answer is how many were served
    /// before it.
    pub fn serve_into(&mut self, ask: &Ask, answer: &mut Reply) -> usize
        ensures after { self.new ≡ counted_after self.old ask.now }
        ensures reply { answer.new ≡ reply self.old.bank ask.now }
        ensures index { result ≡ self.old.served }
    {
        let index = self.served;
        self.bank.serve_into(ask, answer);
        self.served = index.wrapping_add(1);
        index
    }
}
