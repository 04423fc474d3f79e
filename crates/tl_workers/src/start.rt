//! How the threads of a run are started.
ghost use Rattle.std.specs.Prelude.{◌≡◌, ◌+◌, ◌<◌, length, vec_len, IfSome};
ghost use Rattle.tl_script.specs.System.{sends};
ghost use Rattle.tl_workers.specs.Context.{AreShared};
ghost use Rattle.tl_workers.specs.Trace.{IsTrace, IsIdle};

use crate::bell::Bells;
use crate::context::Shared;
use crate::gate::Gate;
use crate::master_thread::run_master;
use crate::worker_thread::run_worker;
use std::snapshot::Snapshot;
use std::sync::Wait;
use std::thread::{JoinHandle, Promise, PromisedHandle, Scope, Threads};
use tl_arena::{Arena, ArenaName};
use tl_journal::Trace;
use tl_map::AddressMap;
use tl_master::Master;
use tl_script::Operations;

/// The promise of a master's thread: what it gives is the trace of these operations.
#[derive(Drop)]
pub(crate) struct TraceOf {
    pub(crate) number: usize,
    pub(crate) jobs: Snapshot<Operations>,
    pub(crate) arena: Snapshot<Arena>,
    pub(crate) map: Snapshot<AddressMap>,
}

impl Promise<Trace> for TraceOf {
    ghost use Rattle.tl_workers.specs.Trace.{IsTrace};

    ghost kept_by = { λ p r. IsTrace p.arena.value p.map.value p.number p.jobs.value r.items };
}

/// Starts a master's thread. None if there is no thread to be had.
pub(crate) fn start_master<'s, 'e: 's, N: ArenaName + Send + Sync, R: Wait + Sync, G: Gate + Sync>(
    scope: &'s Scope<'s, &'e ()>,
    rt: &'e R,
    shared: &Shared<'e, N, G>,
    number: usize,
    master: Master,
    jobs: &'e Operations,
    bells: Bells,
) -> Option<PromisedHandle<Trace, TraceOf>>
    requires new { IsIdle shared.now.arena.now number master }
    requires room { master.limit ≡ length (sends jobs.now) }
    requires bells { vec_len bells.others ≡ length shared.now.system.now.ranges + 1 }
    ensures { IfSome result (λ h. (h.promise.number ≡ number)
        × (h.promise.arena.value ≡ shared.now.arena.now)
        × (h.promise.map.value ≡ shared.now.system.now.ranges)
        × (h.promise.jobs.value ≡ jobs.now)) }
{
    let promise = TraceOf {
        number,
        jobs: Snapshot::of(jobs),
        arena: Snapshot::of(shared.arena),
        map: Snapshot::of(shared.system.map()),
    };
    let Shared {
        system,
        arena,
        ports,
        gate,
    } = *shared;
    let run = move || -> Trace
        requires { AreShared N.arena system.now arena.now (vec_len ports.now)
            × IsIdle arena.now number master
            × (master.limit ≡ length (sends jobs.now))
            × (vec_len bells.others ≡ length system.now.ranges + 1) }
        ensures { IsTrace arena.entry.now system.entry.now.ranges number jobs.entry.now
            result.items }
    {
        let shared = Shared {
            system,
            arena,
            ports,
            gate,
        };
        run_master(rt, &shared, number, master, jobs, bells)
    };
    scope.spawn_with(promise, run).ok()
}

/// Starts one of a port's threads. None if there is no thread to be had.
pub(crate) fn start_worker<'s, 'e: 's, N: ArenaName + Send + Sync, R: Wait + Sync, G: Gate + Sync>(
    scope: &'s Scope<'s, &'e ()>,
    rt: &'e R,
    shared: &Shared<'e, N, G>,
    port: usize,
    bells: Bells,
) -> Option<JoinHandle<Option<usize>>>
    requires port { port < length shared.now.system.now.ranges + 1 }
    requires bells { vec_len bells.others ≡ length shared.now.system.now.jobs }
{
    let Shared {
        system,
        arena,
        ports,
        gate,
    } = *shared;
    let run = move || -> Option<usize>
        requires { AreShared N.arena system.now arena.now (vec_len ports.now)
            × (port < length system.now.ranges + 1)
            × (vec_len bells.others ≡ length system.now.jobs) }
    {
        let shared = Shared {
            system,
            arena,
            ports,
            gate,
        };
        run_worker(rt, &shared, port, bells)
    };
    scope.spawn(run).ok()
}
