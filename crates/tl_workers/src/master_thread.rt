//! What a master's thread does.
ghost use Rattle.std.specs.Prelude.{◌≡◌, ◌+◌, ◌<◌, length, vec_len};
ghost use Rattle.tl_script.specs.System.{sends};
ghost use Rattle.tl_master.specs.Master.{out_of};
ghost use Rattle.tl_workers.specs.Trace.{IsTrace, IsSame, HasAsked, IsIdle};

use crate::bell::{Bells, Listener, ring_at};
use crate::context::Shared;
use crate::gate::Gate;
use std::sync::Wait;
use std::thread::yield_now;
use tl_arena::ArenaName;
use tl_journal::Trace;
use tl_master::{Issued, Master, Polled};
use tl_script::Operations;
use tl_types::Ask;

/// Looks once at each source that a request is out for, the lowest first.
fn look_at_all<N: ArenaName, G: Gate>(shared: &Shared<'_, N, G>, master: &mut Master)
    requires { master.old.seat.arena ≡ shared.now.arena.now }
    ensures { IsSame master.old master.new }
{
    let mut from = 0;
    while let Some(source) = master.next_out(from) {
        look_at(shared, master, source);
        from = source as usize + 1;
    }
}

/// Polls a source.
fn poll_one<N: ArenaName, G: Gate>(
    shared: &Shared<'_, N, G>,
    master: &mut Master,
    source: u16,
) -> Polled
    requires { master.old.seat.arena ≡ shared.now.arena.now }
    ensures { IsSame master.old master.new }
{
    master.poll(shared.arena, source)
}

/// Collects the reply to what is out for a source, if it is there.
fn look_at<N: ArenaName, G: Gate>(shared: &Shared<'_, N, G>, master: &mut Master, source: u16)
    requires { master.old.seat.arena ≡ shared.now.arena.now }
    ensures { IsSame master.old master.new }
{
    if let Polled::Done(place) = poll_one(shared, master, source) {
        if let Some(port) = master.port_at(place) {
            shared.gate.collected(master.number(), port);
        }
    }
}

/// Waits for the ring of a reply that is not collected yet. Each reply has one ring, so as many rings as there are
/// entries tell nothing new.
fn wait_for_reply<R: Wait>(rt: &R, master: &Master, bell: &mut Listener) {
    for _ in rt.forever() {
        bell.hear(rt);
        if bell.heard() > master.trace_len() {
            break;
        }
    }
}

/// Collects all that is out.
fn collect_all<N: ArenaName, R: Wait, G: Gate>(
    rt: &R,
    shared: &Shared<'_, N, G>,
    master: &mut Master,
    bell: &mut Listener,
)
    requires { master.old.seat.arena ≡ shared.now.arena.now }
    ensures same { IsSame master.old master.new }
    ensures none { out_of master.new.out ≡ 0 }
{
    for _ in rt.forever() {
        look_at_all(shared, master);
        if master.out() == 0 {
            return;
        }
        wait_for_reply(rt, master, bell);
    }
    unreachable!()
}

/// Waits for a reply to one of the master's own requests. If none is out, other masters have the slots: nobody rings
/// this one when they give them back, so it lets other threads run, and looks again.
fn wait_for_turn<R: Wait>(rt: &R, master: &Master, bell: &mut Listener) {
    if master.out() > 0 {
        wait_for_reply(rt, master, bell);
    } else {
        yield_now();
    }
}

/// Issues a request, as soon as its source is idle and a slot is free.
fn issue<N: ArenaName, R: Wait, G: Gate>(
    rt: &R,
    shared: &Shared<'_, N, G>,
    master: &mut Master,
    ask: &Ask,
    bell: &mut Listener,
) -> Issued
    requires { master.old.seat.arena ≡ shared.now.arena.now }
    ensures asked { HasAsked shared.now.system.now.ranges master.old ask.now master.new }
    ensures port { result.port < length shared.now.system.now.ranges + 1 }
{
    let map = shared.system.map();
    for _ in rt.forever() {
        if let Ok(issued) = master.issue(shared.arena, map, ask) {
            return issued;
        }
        wait_for_turn(rt, master, bell);
        look_at_all(shared, master);
    }
    unreachable!()
}

/// Sends a request, and rings at its port.
fn send<N: ArenaName, R: Wait, G: Gate>(
    rt: &R,
    shared: &Shared<'_, N, G>,
    master: &mut Master,
    ask: &Ask,
    bells: &mut Bells,
)
    requires arena { master.old.seat.arena ≡ shared.now.arena.now }
    requires bells { vec_len bells.old.others ≡ length shared.now.system.now.ranges + 1 }
    ensures asked { HasAsked shared.now.system.now.ranges master.old ask.now master.new }
    ensures bells { vec_len bells.new.others ≡ vec_len bells.old.others }
{
    let port = issue(rt, shared, master, ask, &mut bells.own).port;
    ring_at(rt, &mut bells.others, port);
}

/// Does a master's operations in order, collects all that is out, and leaves with the trace, which has room for all
/// replies.
pub(crate) fn run_master<N: ArenaName, R: Wait, G: Gate>(
    rt: &R,
    shared: &Shared<'_, N, G>,
    number: usize,
    mut master: Master,
    jobs: &Operations,
    mut bells: Bells,
) -> Trace
    requires new { IsIdle shared.now.arena.now number master }
    requires room { master.limit ≡ length (sends jobs.now) }
    requires bells { vec_len bells.others ≡ length shared.now.system.now.ranges + 1 }
    ensures { IsTrace shared.now.arena.now shared.now.system.now.ranges number jobs.now result.items }
{
    let mut ask = Ask::blank();
    for operation in 0..jobs.len() {
        if jobs.fill(operation, &mut ask) {
            send(rt, shared, &mut master, &ask, &mut bells);
        } else {
            collect_all(rt, shared, &mut master, &mut bells.own);
        }
    }
    collect_all(rt, shared, &mut master, &mut bells.own);
    master.finish(shared.arena)
}
