//! Threads that meet at gates, gates that are shut, and runs of the same script over and over.
ghost use Rattle.std.specs.Prelude.{◌≤◌};

use super::holds;
use std::alloc::Global;
use std::process::Abort;
use std::sync::Wait;
use std::sync::atomic::AtomicUsize;
use std::sync::atomic::Ordering::SeqCst;
use std::thread::Threads;
use tl_program::run_threads;
use tl_script::{System, read_system};
use tl_threads::ThreadedRun;
use tl_workers::{Gate, OpenGate, ThreadFault};

/// Runs a script with so many threads a port.
fn run<R: Abort + Threads + Wait + Sync, G: Gate + Sync>(
    rt: &R,
    alloc: Global,
    script: &[u8],
    workers: usize,
    gate: &G,
) -> ThreadedRun
    requires some { 1 ≤ workers }
    requires few { workers ≤ 4 }
{
    let system = read_system(alloc, script).expect(rt, "a system");
    run_threads(rt, alloc, &system, workers, gate).expect(rt, "a run")
}

/// All slots are free after a run, which are these, and so many masters have left.
fn expect_account(rt: &impl Abort, run: &ThreadedRun, slots: &[usize], masters: usize) {
    let account = &run.account;
    holds(rt, "free slots", account.free.as_slice() == slots);
    holds(rt, "held slots", account.held.is_empty());
    holds(rt, "who has left", account.left.len() == masters);
}

/// Port 0 has a history of so many requests, and these bytes at its end.
fn expect_book(rt: &impl Abort, run: &ThreadedRun, history: usize, bytes: &[(u64, u8)]) {
    let book = run.books.first().expect(rt, "no book");
    holds(rt, "a history", book.history_len() == history);
    for (address, byte) in bytes {
        holds(rt, "a byte", book.byte(*address) == Some(*byte));
    }
}

/// The places at which two threads of a kind meet, and how many saw the other there. Two threads of one port come in any
/// order, and the masters of that port do not meet.
#[derive(Drop)]
struct Meeting {
    is_one_port: bool,
    came: AtomicUsize,
    ports: [AtomicUsize; 2],
    masters: [AtomicUsize; 2],
    met: AtomicUsize,
}

/// A meeting to which nobody has come.
fn new_meeting(is_one_port: bool) -> Meeting {
    Meeting {
        is_one_port,
        came: AtomicUsize::new(0),
        ports: [AtomicUsize::new(0), AtomicUsize::new(0)],
        masters: [AtomicUsize::new(0), AtomicUsize::new(0)],
        met: AtomicUsize::new(0),
    }
}

/// Comes to a place, and waits there for a while until the other has come.
fn meet(places: &[AtomicUsize; 2], who: usize, met: &AtomicUsize) {
    let (mine, other) = if who == 0 {
        (&places[0], &places[1])
    } else {
        (&places[1], &places[0])
    };
    mine.store(1, SeqCst);
    for _ in 0..100_000_000u32 {
        if other.load(SeqCst) == 1 {
            met.fetch_add(1, SeqCst);
            return;
        }
    }
}

impl Gate for Meeting {
    fn may_serve(&self, port: usize) -> bool {
        let who = if self.is_one_port {
            self.came.fetch_add(1, SeqCst)
        } else {
            port
        };
        meet(&self.ports, who, &self.met);
        true
    }

    fn collected(&self, master: usize, _port: usize) {
        if !self.is_one_port {
            meet(&self.masters, master, &self.met);
        }
    }
}

const TWO_PORTS: &[u8] =
    b"slots = 4\nport = [{ kind = 'ram', base = 0x1000, length = 64 }, { kind = 'ram', base = 0x2000, length = 64 }]\nmaster = [{ sources = 1, ops = ['0 get 0x1000 2'] }, { sources = 1, ops = ['0 get 0x2000 2'] }]\n";

/// All four threads of a run meet, and all slots are free after it.
fn all_meet<R: Abort + Threads + Wait + Sync>(rt: &R, alloc: Global, workers: usize)
    requires some { 1 ≤ workers }
    requires few { workers ≤ 4 }
{
    let gate = new_meeting(false);
    let run = run(rt, alloc, TWO_PORTS, workers, &gate);
    holds(rt, "all have met", gate.met.load(SeqCst) == 4);
    expect_account(rt, &run, &[0, 1, 2, 3], 2);
}

#[test]
fn threads_run_at_once(rt: HostRuntime) {
    all_meet(&rt, rt.alloc(), 1);
    all_meet(&rt, rt.alloc(), 4);
}

const ONE_PORT: &[u8] =
    b"slots = 4\nport = [{ kind = 'ram', base = 0x1000, length = 64 }]\nmaster = [{ sources = 1, ops = ['0 get 0x1000 2'] }, { sources = 1, ops = ['0 get 0x1004 2'] }]\n";

#[test]
fn workers_of_a_port_run_at_once(rt: HostRuntime) {
    let gate = new_meeting(true);
    let run = run(&rt, rt.alloc(), ONE_PORT, 2, &gate);
    holds(&rt, "both have met", gate.met.load(SeqCst) == 2);
    expect_account(&rt, &run, &[0, 1, 2, 3], 2);
}

/// Says no so many times at each of three ports, and counts how often it is asked there and, for each of two masters,
/// how many replies it collects of them.
#[derive(Drop)]
struct Shut {
    noes: [usize; 3],
    asked: [AtomicUsize; 3],
    collected: [[AtomicUsize; 3]; 2],
}

fn counts() -> [AtomicUsize; 3] {
    [
        AtomicUsize::new(0),
        AtomicUsize::new(0),
        AtomicUsize::new(0),
    ]
}

fn told(counts: &[AtomicUsize; 3]) -> [usize; 3] {
    [
        counts[0].load(SeqCst),
        counts[1].load(SeqCst),
        counts[2].load(SeqCst),
    ]
}

impl Gate for Shut {
    fn may_serve(&self, port: usize) -> bool {
        match (self.asked.get(port), self.noes.get(port)) {
            (Some(asked), Some(noes)) => asked.fetch_add(1, SeqCst) >= *noes,
            _ => true,
        }
    }

    fn collected(&self, master: usize, port: usize) {
        if let Some(counts) = self.collected.get(master) {
            if let Some(count) = counts.get(port) {
                count.fetch_add(1, SeqCst);
            }
        }
    }
}

/// Master 0 has two replies of port 1 and one of the error port, master 1 one of port 0.
const CROSSED: &[u8] =
    b"slots = 4\nport = [{ kind = 'ram', base = 0x1000, length = 64 }, { kind = 'ram', base = 0x2000, length = 64 }]\nmaster = [{ sources = 1, ops = ['0 get 0x2000 2', '0 get 0x2004 2', '0 get 0x9000 0'] }, { sources = 1, ops = ['0 get 0x1000 2'] }]\n";

const EVER: usize = usize::MAX;

/// How often a gate says no at each port, the fault of the run, and how often it is asked there.
#[derive(Clone, Copy)]
struct Held {
    noes: [usize; 3],
    fault: Option<ThreadFault>,
    asked: [usize; 3],
}

static HELD: [Held; 5] = [
    Held {
        noes: [0, 0, 0],
        fault: None,
        asked: [1, 2, 1],
    },
    Held {
        noes: [EVER, 0, EVER],
        fault: Some(ThreadFault::GateHeld(0)),
        asked: [1_000_000, 2, 1_000_000],
    },
    Held {
        noes: [0, EVER, EVER],
        fault: Some(ThreadFault::GateHeld(1)),
        asked: [1, 1_000_000, 1_000_000],
    },
    Held {
        noes: [0, 0, 1_000_000],
        fault: Some(ThreadFault::GateHeld(2)),
        asked: [1, 2, 1_000_000],
    },
    Held {
        noes: [0, 999_999, 999_999],
        fault: None,
        asked: [1, 1_000_001, 1_000_000],
    },
];

/// What becomes of a run at a gate that says no so often. How often several threads of a port ask depends on the
/// schedule.
fn run_held<R: Abort + Threads + Wait + Sync>(
    rt: &R,
    alloc: Global,
    system: &System,
    workers: usize,
    held: &Held,
)
    requires some { 1 ≤ workers }
    requires few { workers ≤ 4 }
{
    let gate = Shut {
        noes: held.noes,
        asked: counts(),
        collected: [counts(), counts()],
    };
    let fault = run_threads(rt, alloc, system, workers, &gate).err();
    let asked = workers > 1 || told(&gate.asked) == held.asked;
    holds(rt, "a fault", fault == held.fault);
    holds(rt, "how often the gate is asked", asked);
    holds(
        rt,
        "the first master's replies",
        told(&gate.collected[0]) == [0, 2, 1],
    );
    holds(
        rt,
        "the second one's",
        told(&gate.collected[1]) == [1, 0, 0],
    );
}

#[test]
fn held_gates_are_told_after_all_was_served(rt: HostRuntime) {
    let system = read_system(rt.alloc(), CROSSED).expect(&rt, "a system");
    for held in &HELD {
        run_held(&rt, rt.alloc(), &system, 1, held);
        run_held(&rt, rt.alloc(), &system, 4, held);
    }
}

const FOUR_MASTERS: &[u8] =
    b"slots = 2\nport = [{ kind = 'ram', base = 0x1000, length = 64 }]\nmaster = [{ sources = 1, ops = [] }, { sources = 2, ops = ['0 add 0x1000 2 01000000', '1 get 0x9000 0', '0 add 0x1000 2 01000000'] }, { sources = 1, ops = ['0 add 0x1000 2 01000000', 'wait', '0 get 0x1000 2'] }, { sources = 4, ops = ['3 add 0x1000 2 01000000', '1 add 0x1000 2 01000000', '2 get 0x1004 2'] }]\n";

/// A run of four masters ends with all slots free, and nothing is lost.
fn four_masters<R: Abort + Threads + Wait + Sync>(rt: &R, alloc: Global, workers: usize)
    requires some { 1 ≤ workers }
    requires few { workers ≤ 4 }
{
    let run = run(rt, alloc, FOUR_MASTERS, workers, &OpenGate);
    expect_account(rt, &run, &[0, 1], 4);
    expect_book(rt, &run, 7, &[(0x1000, 5)]);
}

#[test]
fn every_run_ends_with_all_slots_free(rt: HostRuntime) {
    for _ in 0..100u32 {
        four_masters(&rt, rt.alloc(), 1);
        four_masters(&rt, rt.alloc(), 4);
    }
}
