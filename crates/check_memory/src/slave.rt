//! What stands at a port.
ghost use Rattle.std.specs.Prelude.{◌≡◌, ◌+◌, ◌^◌, ◌≤◌, length, true, IfOk, OnErr};
ghost use Rattle.check_memory.specs.Slave.{slave_after, slave_after_forgetting, slave_takes_bytes, expected_of};

use crate::memory::PartialMemory;
use check_cells::Pattern;
use std::alloc::{AllocError, Global};
use tl_types::Ask;

/// A slave, as the judge keeps it.
#[derive(Drop)]
pub enum Slave {
    /// A memory, whose replies follow from the requests before.
    Memory(PartialMemory),
    /// A device, which keeps nothing here and decides for itself what it answers.
    Device,
}

impl Clone for Slave {
    ghost use Rattle.std.specs.Prelude.{◌≡◌};

    ghost is_clone = { λ slave copy. copy ≡ slave };

    fn clone(&self) -> Result<Slave, AllocError> {
        match self {
            Slave::Memory(memory) => Ok(Slave::Memory(memory.clone()?)),
            Slave::Device => Ok(Slave::Device),
        }
    }
}

impl Slave {
    /// Serves a request: the slave is the one after it, and what its answer has to fit stands in the place of another.
    /// If there is no memory for a page of the bytes that it takes, nothing is changed.
    pub fn serve_into(
        &mut self,
        alloc: Global,
        ask: &Ask,
        answer: &mut Pattern,
    ) -> Result<(), AllocError>
        ensures after { IfOk result (λ _. self.new ≡ slave_after self.old ask.now) }
        ensures expected { IfOk result (λ _. answer.new ≡ expected_of self.old ask.now) }
        ensures takes { OnErr result (slave_takes_bytes self.old ask.now ≡ true) }
        ensures unchanged { OnErr result (self.new ≡ self.old) }
        ensures answer_unchanged { OnErr result (answer.new ≡ answer.old) }
    {
        match self {
            Slave::Memory(memory) => memory.serve_into(alloc, ask, answer),
            Slave::Device => {
                answer.expect_any(ask);
                Ok(())
            }
        }
    }

    /// Serves a request as `serve_into` does, and then forgets each byte that is flagged, from an address on. A request
    /// that is illegal, or carries no bytes, forgets nothing.
    pub fn serve_and_forget(
        &mut self,
        alloc: Global,
        ask: &Ask,
        first: u64,
        flags: &[bool],
        answer: &mut Pattern,
    ) -> Result<(), AllocError>
        requires { first + length flags.now ≤ 2 ^ 64 }
        ensures after { IfOk result (λ _. self.new ≡ slave_after_forgetting self.old ask.now first flags.now) }
        ensures expected { IfOk result (λ _. answer.new ≡ expected_of self.old ask.now) }
        ensures takes { OnErr result (slave_takes_bytes self.old ask.now ≡ true) }
        ensures unchanged { OnErr result (self.new ≡ self.old) }
        ensures answer_unchanged { OnErr result (answer.new ≡ answer.old) }
    {
        match self {
            Slave::Memory(memory) => memory.serve_and_forget(alloc, ask, first, flags, answer),
            Slave::Device => {
                answer.expect_any(ask);
                Ok(())
            }
        }
    }

    /// What the answer to a request that is not served has to fit.
    pub fn answer(&self, ask: &Ask, answer: &mut Pattern)
        ensures { answer.new ≡ expected_of self.now ask.now }
    {
        match self {
            Slave::Memory(memory) => memory.answer(ask, answer),
            Slave::Device => answer.expect_any(ask),
        }
    }
}
