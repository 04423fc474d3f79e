//! Requests where their windows stand in a memory.
ghost use Rattle.std.specs.Prelude.{◌≡◌, ◌+◌, ◌^◌, ◌<◌, ◌≤◌, true};
ghost use Rattle.tl_types.specs.Request.{IsLawfulRequest};
ghost use Rattle.check_memory.specs.Partial.{permits, placed};

use check_memory::PartialMemory;
use std::marker::Model;
use tl_types::{Ask, AskOp, Bytes, MAX_BYTES};

/// A request, with the address at which a memory has its window in the place of its own.
#[derive(Drop)]
pub struct Placed<'a> {
    ask: &'a Ask,
    start: u64,
}

impl<'a> Model for Placed<'a> {
    ghost use Rattle.tl_types.specs.Request.{Request};

    ghost Value = { Request };

    ghost view = { λ p. record p.ask.now { address = p.start } };
}

impl<'a> Placed<'a> {
    /// A request where its window stands.
    pub fn of(memory: &PartialMemory, ask: &'a Ask) -> Placed<'a>
        ensures value { result ≡ placed memory.now ask.now }
        ensures in_space { permits memory.now ask.now ≡ true
            → result.address + 2 ^ ask.now.size ≤ 2 ^ 64 }
    {
        Placed {
            ask,
            start: memory.start(ask),
        }
    }

    /// What it asks for.
    pub fn op(&self) -> AskOp
        ensures { result ≡ self.now.op }
    {
        self.ask.op()
    }

    /// How many bytes its window has.
    pub fn width(&self) -> usize
        ensures value { result ≡ 2 ^ self.now.size }
        ensures some { 0 < result }
        ensures in_limit { result ≤ MAX_BYTES }
    {
        self.ask.width()
    }

    /// Where its window stands.
    pub fn address(&self) -> u64
        ensures { result ≡ self.now.address }
    {
        self.start
    }

    /// Its bytes.
    pub fn bytes(&self) -> &Bytes
        ensures value { result.now ≡ self.now.bytes }
        ensures lawful { IsLawfulRequest self.now.op self.now.size self.now.bytes }
    {
        self.ask.bytes()
    }
}
