//! What a port's thread does.
ghost use Rattle.std.specs.Prelude.{◌≡◌, ◌+◌, ◌<◌, ◌≤◌, ℕ, [], All, IfSome, length, vec_len};
ghost use Rattle.arrayvec.specs.ArrayVec.{array_vec_len};

use crate::bell::{Bells, Ring, Ringer, ring_at};
use crate::context::Shared;
use crate::gate::{Gate, opens};
use arrayvec::ArrayVec;
use std::sync::Wait;
use tl_arena::ArenaName;
use tl_map::SourceOwners;

/// The most rings that a port's thread owes masters at a time.
const MAX_OWED: usize = 16;

/// The masters whose requests a port's thread has answered and whom it has not rung since. It rings them before it waits,
/// before it asks the gate again, and when it owes as many rings as there is room for.
type Owed = ArrayVec<usize, MAX_OWED>;

/// Rings each master that is owed a ring.
fn ring_owed<R: Wait>(rt: &R, masters: &mut [Ringer], owed: &mut Owed)
    requires { All (λ master. master < length masters.old) owed.old.items }
    ensures { owed.new.items ≡ [] }
{
    for master in owed.iter() {
        ring_at(rt, masters, *master);
    }
    owed.clear();
}

/// The next ring of a port's bell. If there is none it first gives the rings that it owes, and then waits for one.
/// So it wakes a master once for several replies: waking a thread costs more than serving a request.
fn next_ring<R: Wait>(rt: &R, bells: &mut Bells, owed: &mut Owed) -> Ring
    requires { All (λ master. master < vec_len bells.old.others) owed.old.items }
    ensures room { array_vec_len owed.new < MAX_OWED }
    ensures owed { All (λ master. master < vec_len bells.new.others) owed.new.items }
    ensures bells { vec_len bells.new.others ≡ vec_len bells.old.others }
{
    if !owed.is_full() {
        if let Some(ring) = bells.own.look(rt) {
            return ring;
        }
    }
    ring_owed(rt, &mut bells.others, owed);
    bells.own.hear(rt)
}

/// Asks the gate. Before it asks again it gives the rings that it owes: the gate may wait for what their masters do.
fn may_serve<R: Wait, G: Gate>(
    rt: &R,
    gate: &G,
    port: usize,
    masters: &mut [Ringer],
    owed: &mut Owed,
) -> bool
    requires room { array_vec_len owed.old < MAX_OWED }
    requires owed { All (λ master. master < length masters.old) owed.old.items }
    ensures room { array_vec_len owed.new < MAX_OWED }
    ensures owed { All (λ master. master < length masters.old) owed.new.items }
{
    if gate.may_serve(port) {
        return true;
    }
    ring_owed(rt, masters, owed);
    opens(gate, port)
}

/// The master whose wide source this is, if there is one.
fn master_of(sources: &SourceOwners, wide: u16) -> Option<usize>
    ensures { IfSome result (λ master. master < length sources.now) }
{
    let (master, _) = sources.owner(wide)?;
    Some(master)
}

/// Asks the gate, unless it has held the port before. The answer is whether it has held it.
fn is_held<R: Wait, G: Gate>(
    rt: &R,
    gate: &G,
    port: usize,
    held: bool,
    bells: &mut Bells,
    owed: &mut Owed,
) -> bool
    requires room { array_vec_len owed.old < MAX_OWED }
    requires owed { All (λ master. master < vec_len bells.old.others) owed.old.items }
    ensures room { array_vec_len owed.new < MAX_OWED }
    ensures owed { All (λ master. master < vec_len bells.new.others) owed.new.items }
    ensures bells { vec_len bells.new.others ≡ vec_len bells.old.others }
{
    if held {
        return true;
    }
    !may_serve(rt, gate, port, &mut bells.others, owed)
}

/// Notes the master whose request was answered, if one was.
fn owe(sources: &SourceOwners, answered: Option<u16>, owed: &mut Owed)
    requires room { array_vec_len owed.old < MAX_OWED }
    ensures { (masters : ℕ) → length sources.now ≤ masters
        → All (λ master. master < masters) owed.old.items
        → All (λ master. master < masters) owed.new.items }
{
    let Some(wide) = answered else {
        return;
    };
    if let Some(master) = master_of(sources, wide) {
        owed.push(master);
    }
}

/// Serves a request at each ring, and rings its master, until it hears a stop. The answer is the port's number where
/// the gate held it: then it served all the same, and asked no more.
pub(crate) fn run_worker<N: ArenaName, R: Wait, G: Gate>(
    rt: &R,
    shared: &Shared<'_, N, G>,
    number: usize,
    mut bells: Bells,
) -> Option<usize>
    requires port { number < length shared.now.system.now.ranges + 1 }
    requires bells { vec_len bells.others ≡ length shared.now.system.now.jobs }
{
    let port = &shared.ports[number];
    let sources = shared.system.sources();
    let mut held = false;
    let mut owed = Owed::new();
    for _ in rt.forever() {
        if next_ring(rt, &mut bells, &mut owed) == Ring::Stop {
            break;
        }
        held = is_held(rt, shared.gate, number, held, &mut bells, &mut owed);
        let step = port.step(rt, shared.arena);
        owe(sources, step.source, &mut owed);
    }
    held.then_some(number)
}
