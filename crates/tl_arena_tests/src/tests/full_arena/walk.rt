//! A walk of one thread over an arena, beside the pure core of slots, which is told the same events. With nobody else
//! about, each call has to succeed exactly where the core has a slot in the phase that the call needs.
use crate::tests::agents::desk::Desk;
use crate::tests::agents::master::Client;
use crate::tests::floor::{BASE, NO_DEVICE, RAM};
use crate::tests::stage::{Cast, End, Scene, Script, Setting, Stage, play};
use std::alloc::Global;
use std::process::Abort;
use tl_master::{IssueFault, Issued, Polled};
use tl_slots::{Core, Event, Phase};
use tl_types::{Ask, AskOp};

const SLOTS: usize = 4;

const MASTERS: usize = 3;

const SOURCES: u16 = 4;

const PORTS: usize = 2;

const CALLS: u32 = 10_000;

/// Room in each trace for more entries than a walk can collect.
const LIMIT: usize = 10_000;

/// Numbers that look random, and are the same in each run of the tests.
#[derive(Drop)]
struct Dice(u32);

impl Dice {
    /// A number below this one. What cannot fail has nothing to prove.
    fn throw(&mut self, sides: u32) -> u32 {
        self.0 = self.0.wrapping_mul(1_664_525).wrapping_add(1_013_904_223);
        self.0.wrapping_shr(16).checked_rem(sides).unwrap_or(0)
    }
}

/// How often calls of a kind succeeded, and how often there was no slot for them.
#[derive(Clone, Copy)]
struct Tally {
    done: u32,
    refused: u32,
}

impl Tally {
    const NONE: Tally = Tally {
        done: 0,
        refused: 0,
    };

    fn note(&mut self, done: bool) {
        if done {
            self.done = self.done.saturating_add(1);
        } else {
            self.refused = self.refused.saturating_add(1);
        }
    }

    fn is_often_both(self) -> bool {
        self.done >= 100 && self.refused >= 100
    }
}

/// A request that is out.
#[derive(Clone, Copy)]
struct Flight {
    master: usize,
    source: u16,
    slot: usize,
    port: usize,
}

/// The agents of the arena, the core, and what is out.
#[derive(Drop)]
struct Walk<'a> {
    masters: Vec<Client<'a>>,
    ports: Vec<Desk<'a>>,
    core: Core,
    out: Vec<Flight>,
    claims: Tally,
    collections: Tally,
    passes: Tally,
    acceptances: Tally,
}

/// A read of one byte, which the map has at this port.
fn read_at(rt: &impl Abort, port: usize, source: u16) -> Ask {
    let address = if port == 0 { BASE } else { 0x9000 };
    Ask::new(AskOp::Get, 0, source, address, &[]).expect(rt, "a request")
}

/// What is out for a source.
fn flight_of(out: &[Flight], master: usize, source: u16) -> Option<Flight> {
    for flight in out {
        if flight.master == master && flight.source == source {
            return Some(*flight);
        }
    }
    None
}

/// What is out in a slot is out no longer.
fn forget(out: &mut Vec<Flight>, slot: usize) {
    for place in 0..out.len() {
        if out[place].slot == slot {
            out.swap_remove(place);
            return;
        }
    }
}

/// The free slot that a claim of a master has to find: it goes up from its own part of the slots, which for master
/// m of three begins at slot 4m / 3, that is m, and then from slot 0.
fn free_slot(core: &Core, master: usize) -> Option<usize> {
    for step in 0..SLOTS {
        let slot = (master % SLOTS + step) % SLOTS;
        if core.is_free(slot) {
            return Some(slot);
        }
    }
    None
}

/// The phases of a request that ports and masters look for.
#[derive(Clone, Copy)]
enum Stop {
    Posted,
    Serving,
    Answered,
}

/// The master whose request to the port is in this phase in this slot.
fn owner_at(core: &Core, slot: usize, stop: Stop, port: usize) -> Option<usize> {
    match (stop, core.phase(slot)?) {
        (Stop::Posted, Phase::Posted(owner, to)) if to == port => Some(owner),
        (Stop::Serving, Phase::Serving(owner, to)) if to == port => Some(owner),
        (Stop::Answered, Phase::Answered(owner, to)) if to == port => Some(owner),
        _ => None,
    }
}

/// The lowest slot from which something is posted to the port, and its master.
fn lowest_posted(core: &Core, port: usize) -> Option<(usize, usize)> {
    for slot in 0..SLOTS {
        if let Some(owner) = owner_at(core, slot, Stop::Posted, port) {
            return Some((slot, owner));
        }
    }
    None
}

/// What an issue has to answer.
fn issue_due(
    core: &Core,
    flight: Option<Flight>,
    master: usize,
    port: usize,
) -> Result<Issued, IssueFault> {
    match (flight, free_slot(core, master)) {
        (Some(_), _) => Err(IssueFault::SourceBusy),
        (None, None) => Err(IssueFault::NoSlot),
        (None, Some(slot)) => Ok(Issued { slot, port }),
    }
}

/// What a poll has to answer: the reply is there if the core says so, and gets this place.
fn poll_due(core: &Core, flight: Option<Flight>, place: usize) -> Polled {
    match flight {
        None => Polled::Idle,
        Some(
            Flight {
                master,
                slot,
                port,
                ..
            },
        ) if owner_at(core, slot, Stop::Answered, port) == Some(master) => Polled::Done(place),
        Some(_) => Polled::NotYet,
    }
}

/// The core is told events, which it allows.
fn tell(rt: &impl Abort, core: &mut Core, events: &[Event]) {
    for event in events {
        assert!(rt; core.apply(*event).is_ok());
    }
}

impl<'a> Walk<'a> {
    /// A master claims a slot and posts a request.
    fn issue(&mut self, rt: &impl Abort, number: usize, source: u16, port: usize) {
        let flight = flight_of(&self.out, number, source);
        let due = issue_due(&self.core, flight, number, port);
        let ask = read_at(rt, port, source);
        let master = self.masters.get_mut(number).expect(rt, "no such master");
        assert!(rt; master.issue(&ask) == due);
        match due {
            Ok(Issued { slot, port }) => self.sent(
                rt,
                Flight {
                    master: number,
                    source,
                    slot,
                    port,
                },
            ),
            Err(IssueFault::NoSlot) => self.claims.note(false),
            Err(_) => (),
        }
    }

    /// A request is out.
    fn sent(&mut self, rt: &impl Abort, flight: Flight) {
        let Flight {
            master,
            slot,
            port,
            ..
        } = flight;
        let events = [Event::Claim(slot, master), Event::Post(slot, master, port)];
        tell(rt, &mut self.core, &events);
        self.out.push(flight).expect(rt, "memory");
        self.claims.note(true);
    }

    /// A master collects the reply to what is out for a source, and releases its slot.
    fn poll(&mut self, rt: &impl Abort, number: usize, source: u16) {
        let flight = flight_of(&self.out, number, source);
        let master = self.masters.get_mut(number).expect(rt, "no such master");
        let (_, entries) = master.counts();
        let due = poll_due(&self.core, flight, entries);
        assert!(rt; master.poll(source) == due);
        match (due, flight) {
            (Polled::Done(_), Some(flight)) => self.collected(rt, flight),
            (Polled::NotYet, _) => self.collections.note(false),
            _ => (),
        }
    }

    /// A reply is collected.
    fn collected(&mut self, rt: &impl Abort, flight: Flight) {
        let Flight {
            master,
            slot,
            port,
            ..
        } = flight;
        let events = [
            Event::Collect(slot, master, port),
            Event::Release(slot, master, port),
        ];
        tell(rt, &mut self.core, &events);
        forget(&mut self.out, slot);
        self.collections.note(true);
    }

    /// A port passes over the slots.
    fn accept(&mut self, rt: &impl Abort, number: usize) {
        let due = lowest_posted(&self.core, number);
        let port = self.ports.get_mut(number).expect(rt, "no such port");
        let accepted = port.accept(rt);
        match due {
            None => assert!(rt; accepted.is_none()),
            Some((slot, owner)) => {
                assert!(rt; accepted == Some(slot));
                tell(rt, &mut self.core, &[Event::Accept(slot, owner, number)]);
            }
        }
        self.passes.note(due.is_some());
    }

    /// A port looks at one slot.
    fn accept_at(&mut self, rt: &impl Abort, number: usize, slot: usize) {
        let due = owner_at(&self.core, slot, Stop::Posted, number);
        let port = self.ports.get_mut(number).expect(rt, "no such port");
        let accepted = port.accept_at(rt, slot);
        assert!(rt; accepted == due.is_some());
        if let Some(owner) = due {
            tell(rt, &mut self.core, &[Event::Accept(slot, owner, number)]);
        }
        self.acceptances.note(accepted);
    }

    /// A port answers the oldest request that it serves, if there is one.
    fn answer(&mut self, rt: &impl Abort, number: usize) {
        let port = self.ports.get_mut(number).expect(rt, "no such port");
        if let Some(slot) = port.answer() {
            let owner = owner_at(&self.core, slot, Stop::Serving, number);
            let owner = owner.expect(rt, "answered what is not served");
            tell(rt, &mut self.core, &[Event::Answer(slot, owner, number)]);
        }
    }

    /// One call, as the dice fall. Slot 4 is no slot.
    fn call(&mut self, rt: &impl Abort, dice: &mut Dice) {
        let master = dice.throw(3) as usize;
        let source = dice.throw(4).min(3) as u16;
        let port = dice.throw(2) as usize;
        let slot = dice.throw(5) as usize;
        match dice.throw(12) {
            0..3 => self.issue(rt, master, source, port),
            3..7 => self.poll(rt, master, source),
            7 => self.accept(rt, port),
            8..11 => self.accept_at(rt, port, slot),
            _ => self.answer(rt, port),
        }
    }

    /// Makes the calls of the walk.
    fn go(&mut self, rt: &impl Abort) {
        let mut dice = Dice(2026);
        for _ in 0..CALLS {
            self.call(rt, &mut dice);
        }
    }

    /// All that is out is served and collected.
    fn settle(&mut self, rt: &impl Abort) {
        for port in 0..PORTS {
            for _ in 0..SLOTS {
                self.accept(rt, port);
                self.answer(rt, port);
            }
        }
        for master in 0..MASTERS {
            for source in 0..SOURCES {
                self.poll(rt, master, source);
            }
        }
        assert!(rt; self.out.is_empty());
    }
}

/// All masters leave. Their traces have an entry for each collection.
fn all_leave(rt: &impl Abort, masters: Vec<Client>, core: &mut Core, collections: u32) {
    let mut number = 0usize;
    let mut entries = 0u32;
    for master in masters {
        tell(rt, core, &[Event::Leave(number)]);
        entries = entries.saturating_add(master.finish(rt).len().min(100_000) as u32);
        number = number.saturating_add(1);
    }
    assert!(rt; entries == collections);
}

/// Makes the calls of the walk, sees that each kind of call was often granted and often refused, and ends all turns.
pub(in crate::tests) fn walk_along(rt: &impl Abort, alloc: Global, stage: Stage) {
    let Stage { masters, desks, .. } = stage;
    let mut walk = Walk {
        masters,
        ports: desks,
        core: Core::new(alloc, SLOTS, MASTERS, PORTS).expect(rt, "a core"),
        out: Vec::new(alloc),
        claims: Tally::NONE,
        collections: Tally::NONE,
        passes: Tally::NONE,
        acceptances: Tally::NONE,
    };
    walk.go(rt);
    assert!(rt; walk.claims.is_often_both() && walk.collections.is_often_both());
    assert!(rt; walk.passes.is_often_both() && walk.acceptances.is_often_both());
    walk.settle(rt);
    let Walk {
        masters,
        mut core,
        collections,
        ..
    } = walk;
    all_leave(rt, masters, &mut core, collections.done);
}

/// Three masters of four sources over four slots: all leave, and all slots are free.
static SCENE: Scene = Scene {
    name: "a lone walk goes as the core says",
    setting: Setting {
        slots: SLOTS,
        sources: &[4; MASTERS],
        near: RAM,
        far: NO_DEVICE,
        cast: Cast::Masters(LIMIT),
    },
    script: Script::Walk,
    end: End {
        free: &[0, 1, 2, 3],
        held: 0,
        left: &[0, 1, 2],
    },
};

// No clause refuses a `claim`, `accept_at` or `accept` that gives none now and then, or a `collect` that hands the ticket
// back. Of such bodies, which were tried by hand, the walk says: an issue answered `NoSlot`, and slot 3 is free; nothing
// was accepted from a slot in which a request is posted for the port; a pass found nothing, and slot 0 has a request for
// the port; a poll answered `NotYet`, and the slot is answered.
#[test]
fn a_lone_walk_goes_as_the_core_says(rt: HostRuntime) {
    play(&rt, rt.alloc(), &SCENE);
}
