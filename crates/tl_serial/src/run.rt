//! The run of a system by one thread.
ghost use Rattle.std.specs.Prelude.{◌≡◌, ◌++◌, ◌∷◌, [], ◌+◌, ◌<◌, ℕ, Bool, List, length, map, option_map, replicate, IfOk, OnOk, Some, slice_get, IsSomeAnd, All, false};
ghost use Rattle.tl_types.specs.declared.trace.Entry.{Entry};
ghost use Rattle.tl_journal.specs.Journal.{pairs_in};
ghost use Rattle.tl_journal.specs.Trace.{entries_in, served_entry};
ghost use Rattle.tl_ops.specs.Store.{after, reply};
ghost use Rattle.tl_map.specs.Blocks.{counts_in};
ghost use Rattle.tl_script.specs.System.{System, IsLawfulDevice, sends, store_of, error_store};
ghost use Rattle.tl_serial.specs.Serial.{IsSerialRun, numbered, asks_in, log_of};
ghost use Rattle.tl_serial.specs.Slave.{Stand, IsFresh, bank_of, count_of, history_of, kept_by};

use std::alloc::Global;
use tl_journal::{Journal, Place, Trace};
use tl_ops::{Bank, CountedBank};
use tl_script::{Device, Operations, System, banks_of};
use tl_types::{Ask, Memory, Reply};

/// What one thread makes of a system: a trace for each master, and a history for each port.
#[derive(Drop)]
pub struct SerialRun {
    pub traces: Vec<Trace>,
    /// The requests that each port served and their replies, in order, with wide sources.
    pub histories: Vec<Journal>,
}

/// A slave port as one thread serves it.
#[derive(Drop)]
pub(crate) struct Slave {
    counted: CountedBank,
    /// The requests that it has served, if histories are kept.
    history: Option<Journal>,
}

impl Slave {
    /// Serves a request, and puts it into the history with its wide source, if that is kept. The answer is how many
    /// were served before it; the reply stands in the place of another.
    fn serve(&mut self, ask: &Ask, wide: u16, answer: &mut Reply) -> Result<usize, Memory>
        ensures bank { OnOk result (bank_of self.new ≡ after (bank_of self.old) ask.now) }
        ensures index { IfOk result (λ served. served ≡ count_of self.old) }
        ensures counted { OnOk result (count_of self.new ≡ count_of self.old + 1) }
        ensures reply { OnOk result (answer.new ≡ reply (bank_of self.old) ask.now) }
        ensures history { OnOk result (kept_by self.new ≡ option_map
            (λ h. h ++ (record ask.now { source = wide }, record answer.new { source = wide }) ∷ [])
            (kept_by self.old)) }
    {
        // one request more could not be counted
        if self.counted.served == usize::MAX {
            return Err(Memory);
        }
        let index = self.counted.serve_into(ask, answer);
        if let Some(history) = &mut self.history {
            history.push(wide, ask, answer)?;
        }
        Ok(index)
    }
}

/// Serves a master's next request, and answers where; the reply stands in the place of another.
pub(crate) fn send(
    slaves: &mut [Slave],
    system: &System,
    master: usize,
    ask: &Ask,
    answer: &mut Reply,
) -> Result<Place, Memory>
    requires ready { length slaves.old ≡ length system.now.ranges + 1 }
    requires source { IsSomeAnd (slice_get (counts_in system.now.owners) master)
        (λ count. ask.now.source < count) }
    ensures source { OnOk result (answer.new.source ≡ ask.now.source) }
    ensures stands { IfOk result (λ place. (keeps : Bool) (log : List (ℕ × Entry))
        → Stand system.now keeps log slaves.old
        → Stand system.now keeps (log ++ (master, served_entry ask.now answer.new place) ∷ []) slaves.new) }
{
    let port = system.map().route(ask);
    let wide = system.sources().widen(master, ask.source()).unwrap();
    let index = slaves[port].serve(ask, wide, answer)?;
    Ok(Place { port, index })
}

/// Serves a master's operations in order, and gives its trace.
fn run_master(
    alloc: Global,
    slaves: &mut [Slave],
    system: &System,
    master: usize,
    jobs: &Operations,
) -> Result<Trace, Memory>
    requires ready { length slaves.old ≡ length system.now.ranges + 1 }
    requires source { IsSomeAnd (slice_get (counts_in system.now.owners) master)
        (λ count. All (λ ask. ask.source < count) (sends jobs.now)) }
    ensures asked { IfOk result (λ trace. asks_in trace.items ≡ sends jobs.now) }
    ensures stands { IfOk result (λ trace. (keeps : Bool) (log : List (ℕ × Entry))
        → Stand system.now keeps log slaves.old
        → Stand system.now keeps (log ++ numbered master trace.items) slaves.new) }
{
    let mut trace = Trace::with_room(alloc, jobs.len())?;
    let (mut ask, mut answer) = (Ask::blank(), Reply::blank());
    for number in 0..jobs.len() {
        if jobs.fill(number, &mut ask) {
            let place = send(slaves, system, master, &ask, &mut answer)?;
            trace.push_reserved(ask.source(), &ask, &answer, place);
        }
    }
    Ok(trace)
}

/// A slave port that has served nothing.
fn slave_of(alloc: Global, bank: Bank, keeps: bool) -> Slave
    ensures bank { bank_of result ≡ bank }
    ensures fresh { IsFresh keeps result }
{
    Slave {
        counted: CountedBank::new(bank),
        history: keeps.then(|| Journal::new(alloc)),
    }
}

/// The slave ports of these devices at reset, and the error port after them. They keep histories or not.
pub(crate) fn slaves_of(
    alloc: Global,
    devices: &[Device],
    keeps: bool,
) -> Result<Vec<Slave>, Memory>
    requires { All IsLawfulDevice devices.now }
    ensures banks { IfOk result (λ slaves. map bank_of slaves.items
        ≡ map store_of devices.now ++ error_store ∷ []) }
    ensures fresh { IfOk result (λ slaves. All (IsFresh keeps) slaves.items) }
{
    let banks = banks_of(alloc, devices)?;
    let mut slaves = Vec::with_capacity(alloc, banks.len())?;
    for bank in banks {
        slaves.push(slave_of(alloc, bank, keeps))?;
    }
    Ok(slaves)
}

/// The histories that slave ports keep, and an empty one of each that keeps none.
fn histories_of(alloc: Global, slaves: Vec<Slave>) -> Result<Vec<Journal>, Memory>
    ensures { IfOk result (λ histories. pairs_in histories.items ≡ map history_of slaves.items) }
{
    let mut histories = Vec::with_capacity(alloc, slaves.len())?;
    for slave in slaves {
        histories.push(slave.history.unwrap_or(Journal::new(alloc)))?;
    }
    Ok(histories)
}

/// Serves the masters of a system, one after the other, and gives their traces.
fn run_masters(alloc: Global, slaves: &mut [Slave], system: &System) -> Result<Vec<Trace>, Memory>
    requires { length slaves.old ≡ length system.now.ranges + 1 }
    ensures asked { IfOk result (λ traces. map asks_in (entries_in traces.items)
        ≡ map sends system.now.jobs) }
    ensures stands { IfOk result (λ traces. (keeps : Bool) → Stand system.now keeps [] slaves.old
        → Stand system.now keeps (log_of (entries_in traces.items)) slaves.new) }
{
    let jobs = system.jobs();
    let mut traces = Vec::with_capacity(alloc, jobs.len())?;
    for (master, jobs) in jobs.iter().enumerate() {
        let trace = run_master(alloc, slaves, system, master, jobs)?;
        traces.push(trace)?;
    }
    Ok(traces)
}

/// Runs a system on one thread: the masters one after the other, each request answered before the next is sent.
pub fn run_serial(alloc: Global, system: &System) -> Result<SerialRun, Memory>
    ensures { IfOk result (λ run. IsSerialRun system.now (entries_in run.traces.items)
        (pairs_in run.histories.items)) }
{
    let mut slaves = slaves_of(alloc, system.devices(), true)?;
    let traces = run_masters(alloc, &mut slaves, system)?;
    let histories = histories_of(alloc, slaves)?;
    Ok(SerialRun { traces, histories })
}
