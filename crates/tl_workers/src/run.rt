//! The threads of a run: started, joined, stopped.
ghost use Rattle.std.specs.Prelude.{◌≡◌, ◌+◌, ◌≤◌, All, IfOk, vec_len, vec_capacity, length, IsTrue};
ghost use Rattle.tl_workers.specs.Context.{AreShared};
ghost use Rattle.tl_workers.specs.Start.{AreFrom, AreTracesOf, IsNewMasterThread, IsNewThreadSet, IsNewWorkerThread, IsPromised, IsTraceOf};

use crate::bell::{Bells, Ring, Ringer};
use crate::context::Shared;
use crate::fault::ThreadFault;
use crate::gate::Gate;
use crate::start::{TraceOf, start_master, start_worker};
use std::alloc::Global;
use std::sync::Wait;
use std::thread;
use std::thread::{JoinHandle, PromisedHandle, Scope, Threads};
use tl_arena::{Arena, ArenaName};
use tl_journal::Trace;
use tl_master::Master;
use tl_script::System;

/// What a master's thread is handed: the master and its bells.
#[derive(Drop)]
pub(crate) struct MasterThread {
    pub(crate) master: Master,
    pub(crate) bells: Bells,
}

/// What one of a port's threads is handed: the port's number and the bells.
#[derive(Drop)]
pub(crate) struct WorkerThread {
    pub(crate) port: usize,
    pub(crate) bells: Bells,
}

/// What all threads of a run are handed, the masters' in order, and for the end the bell of each port, which so many
/// threads hear.
#[derive(Drop)]
pub struct ThreadSet {
    pub(crate) masters: Vec<MasterThread>,
    pub(crate) workers: Vec<WorkerThread>,
    pub(crate) port_bells: Vec<Ringer>,
    pub(crate) workers_per_port: usize,
}

/// The threads of masters that were started, in order, and whether they are all.
#[derive(Drop)]
struct StartedMasters {
    handles: Vec<PromisedHandle<Trace, TraceOf>>,
    all: bool,
}

/// Starts the masters in order, until one can't be started.
fn start_masters<'s, 'e: 's, N: ArenaName + Send + Sync, R: Threads + Wait + Sync, G: Gate + Sync>(
    scope: &'s Scope<'s, &'e ()>,
    rt: &'e R,
    shared: &Shared<'e, N, G>,
    masters: Vec<MasterThread>,
    handles: Vec<PromisedHandle<Trace, TraceOf>>,
) -> StartedMasters
    requires masters { AreFrom (IsNewMasterThread shared.now.arena.now shared.now.system.now)
        0 masters.items }
    requires jobs { vec_len masters ≡ length shared.now.system.now.jobs }
    requires none { vec_len handles ≡ 0 }
    requires room { vec_len masters ≤ vec_capacity handles }
    ensures promised { AreFrom (IsPromised shared.now.arena.now
        shared.now.system.now.ranges shared.now.system.now.jobs) 0 result.handles.items }
    ensures few { vec_len result.handles ≤ vec_len masters }
    ensures all { IsTrue result.all → vec_len result.handles ≡ vec_len masters }
{
    let mut handles = handles;
    for thread in masters {
        let MasterThread { master, bells } = thread;
        let number = handles.len();
        let jobs = &shared.system.jobs()[number];
        let Some(handle) = start_master(scope, rt, shared, number, master, jobs, bells) else {
            return StartedMasters {
                handles,
                all: false,
            };
        };
        handles.push_reserved(handle);
    }
    StartedMasters { handles, all: true }
}

/// Joins the masters, and gives their traces in order.
fn join_masters<R: Threads>(
    rt: &R,
    arena: &Arena,
    system: &System,
    handles: Vec<PromisedHandle<Trace, TraceOf>>,
    traces: Vec<Trace>,
) -> Vec<Trace>
    requires promised { AreFrom (IsPromised arena.now system.now.ranges system.now.jobs)
        0 handles.items }
    requires none { vec_len traces ≡ 0 }
    requires room { vec_len handles ≤ vec_capacity traces }
    ensures many { vec_len result ≡ vec_len handles }
    ensures traces { AreFrom
        (IsTraceOf arena.now system.now.ranges system.now.jobs) 0 result.items }
{
    let mut traces = traces;
    for handle in handles {
        traces.push_reserved(handle.join(rt));
    }
    traces
}

/// The threads of ports that were started, and whether they are all.
#[derive(Drop)]
struct StartedWorkers {
    handles: Vec<JoinHandle<Option<usize>>>,
    all: bool,
}

/// Starts the ports' threads in order, until one can't be started.
fn start_workers<'s, 'e: 's, N: ArenaName + Send + Sync, R: Threads + Wait + Sync, G: Gate + Sync>(
    scope: &'s Scope<'s, &'e ()>,
    rt: &'e R,
    shared: &Shared<'e, N, G>,
    workers: Vec<WorkerThread>,
    handles: Vec<JoinHandle<Option<usize>>>,
) -> StartedWorkers
    requires workers { All (IsNewWorkerThread
        (length shared.now.system.now.ranges + 1) (length shared.now.system.now.jobs)) workers.items }
    requires none { vec_len handles ≡ 0 }
    requires room { vec_len workers ≤ vec_capacity handles }
{
    let mut handles = handles;
    for worker in workers {
        let WorkerThread { port, bells } = worker;
        let Some(handle) = start_worker(scope, rt, shared, port, bells) else {
            return StartedWorkers {
                handles,
                all: false,
            };
        };
        handles.push_reserved(handle);
    }
    StartedWorkers { handles, all: true }
}

/// Rings a stop for each of a port's threads.
fn stop(rt: &impl Wait, bell: &mut Ringer, workers: usize) {
    for _ in 0..workers {
        bell.ring(rt, Ring::Stop);
    }
}

/// Joins the ports' threads. The answer is the lowest port that the gate held, if there is one.
fn join_workers<R: Threads>(rt: &R, handles: Vec<JoinHandle<Option<usize>>>) -> Option<usize> {
    let mut held = None;
    for handle in handles {
        let port = handle.join(rt);
        held = held.or(port);
    }
    held
}

/// Stops the ports' threads, so many for each bell, and joins them.
fn stop_workers<R: Threads + Wait>(
    rt: &R,
    handles: Vec<JoinHandle<Option<usize>>>,
    mut bells: Vec<Ringer>,
    workers_per_port: usize,
) -> Option<usize> {
    for bell in &mut bells {
        stop(rt, bell, workers_per_port);
    }
    join_workers(rt, handles)
}

/// The masters' traces, and the lowest port that the gate held.
#[derive(Drop)]
pub struct Ended {
    pub traces: Vec<Trace>,
    pub held: Option<usize>,
}

/// Starts all threads, those of the ports first, and joins them.
fn run_in<'s, 'e: 's, N: ArenaName + Send + Sync, R: Threads + Wait + Sync, G: Gate + Sync>(
    scope: &'s Scope<'s, &'e ()>,
    rt: &'e R,
    alloc: Global,
    shared: &Shared<'e, N, G>,
    threads: ThreadSet,
) -> Result<Ended, ThreadFault>
    requires { IsNewThreadSet shared.now.arena.now shared.now.system.now threads }
    ensures { IfOk result (λ ended. AreTracesOf shared.now.arena.now shared.now.system.now
        ended.traces.items) }
{
    let ThreadSet {
        masters,
        workers,
        port_bells,
        workers_per_port,
    } = threads;
    let Ok(handles) = Vec::with_capacity(alloc, masters.len()) else {
        return Err(ThreadFault::Memory);
    };
    let Ok(traces) = Vec::with_capacity(alloc, masters.len()) else {
        return Err(ThreadFault::Memory);
    };
    let Ok(serving) = Vec::with_capacity(alloc, workers.len()) else {
        return Err(ThreadFault::Memory);
    };
    let serving = start_workers(scope, rt, shared, workers, serving);
    if !serving.all {
        stop_workers(rt, serving.handles, port_bells, workers_per_port);
        return Err(ThreadFault::NoThread);
    }
    let started = start_masters(scope, rt, shared, masters, handles);
    let all = started.all;
    let traces = join_masters(rt, shared.arena, shared.system, started.handles, traces);
    let held = stop_workers(rt, serving.handles, port_bells, workers_per_port);
    if all {
        Ok(Ended { traces, held })
    } else {
        Err(ThreadFault::NoThread)
    }
}

/// Starts all threads of a run, those of the ports first, and joins them: all have ended when it does.
///
/// Errors: [`ThreadFault::Memory`] if memory is refused, before a thread is started; [`ThreadFault::NoThread`] if a thread
/// is, after those that were started have ended.
pub fn run_all<'x, N: ArenaName + Send + Sync, R: Threads + Wait + Sync, G: Gate + Sync>(
    rt: &'x R,
    alloc: Global,
    shared: &Shared<'x, N, G>,
    threads: ThreadSet,
) -> Result<Ended, ThreadFault>
    requires { IsNewThreadSet shared.now.arena.now shared.now.system.now threads }
    ensures { IfOk result (λ ended. AreTracesOf shared.now.arena.now shared.now.system.now
        ended.traces.items) }
{
    let Shared {
        system,
        arena,
        ports,
        gate,
    } = *shared;
    thread::scope(
        thread::scope_env(),
        rt,
        |scope| -> Result<Ended, ThreadFault>
            requires { AreShared N.arena system.now arena.now (vec_len ports.now)
                × IsNewThreadSet arena.now system.now threads }
            ensures { IfOk result (λ ended. AreTracesOf arena.entry.now system.entry.now
                ended.traces.items) }
        {
            let shared = Shared {
                system,
                arena,
                ports,
                gate,
            };
            run_in(scope, rt, alloc, &shared, threads)
        },
    )
}
