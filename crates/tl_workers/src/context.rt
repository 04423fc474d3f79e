//! What all threads of a run share.
ghost use Rattle.std.specs.Prelude.{vec_len};
ghost use Rattle.tl_workers.specs.Context.{AreShared};

use crate::gate::Gate;
use tl_arena::{Arena, ArenaName};
use tl_port::Port;
use tl_script::System;

/// The system that is run, the arena that N names, the ports, each behind its lock, and the gate.
#[derive(Drop)]
pub struct Shared<'e, N: ArenaName, G: Gate> {
    pub system: &'e System,
    pub arena: &'e Arena,
    pub ports: &'e Vec<Port<N>>,
    pub gate: &'e G,
    ghost facts: { AreShared N.arena system.now arena.now (vec_len ports.now) },
}
