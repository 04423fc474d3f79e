//! The arena on which a scene is played: a table of calls, each with its answer. All scenes share one stage, since to
//! set it up and to take it down takes the prover long.
ghost use Rattle.std.specs.Prelude.{◌≡◌, ◌+◌, ◌≤◌, All, length};
ghost use Rattle.tl_map.specs.Blocks.{HaveBlocks};
ghost use Rattle.tl_arena.specs.Views.{new_master};

use super::agents::book::{BookCall, Keeper, new_keeper};
use super::agents::caller::{Caller, CallerCall, Read, callers_of};
use super::agents::desk::{Desk, DeskCall, new_desk};
use super::agents::master::{Client, MasterCall, clients_of};
use super::floor::{Floor, Memory, Ports, open_floor};
use super::full_arena::walk::walk_along;
use super::together::threads::{claim_four, lock, step_six};
use std::alloc::Global;
use std::process::Abort;
use std::sync::Wait;
use std::thread::Threads;
use tl_arena::{Account, Arena, HeldSlot, MasterSeat};
use tl_map::{AddressMap, SourceOwners};

/// Who makes the calls.
#[derive(Clone, Copy)]
pub(super) enum Cast {
    /// Masters and ports by their seats.
    Seats,
    /// Masters with room for so many entries in each trace, and ports by their seats.
    Masters(usize),
    /// The same masters, and the book of the first port, with as much room.
    Book(usize),
}

/// A call of a master or a port, with its answer. The number before it is the master's or the port's.
pub(super) enum Call {
    Seat(usize, CallerCall),
    /// A request of the first master to this port is posted from slot 0. Between its claim and its posting, when it
    /// owns one slot, the last master finds none for this request.
    SendPast(Read, usize, Read),
    Master(usize, MasterCall),
    Desk(usize, DeskCall),
    Book(BookCall),
    /// The last master leaves, by its seat.
    Leave,
    /// The last master leaves. It has this number, and a trace of one entry at this place of the first port's history.
    Finish(usize, usize),
}

/// What is played.
#[derive(Clone, Copy)]
pub(super) enum Script {
    Calls(&'static [Call]),
    /// Ten thousand calls, as the dice fall.
    Walk,
    /// Both masters issue twice, each on a thread of its own.
    Claims,
    /// A port behind its lock.
    Lock,
    /// Two workers of a port.
    Workers,
}

/// The account at the end of a scene: which slots are free, how many are held, and which masters have left.
pub(super) struct End {
    pub(super) free: &'static [usize],
    pub(super) held: usize,
    pub(super) left: &'static [usize],
}

/// An arena of so many slots with two ports, and who makes the calls there.
#[derive(Clone, Copy)]
pub(super) struct Setting {
    pub(super) slots: usize,
    /// How many sources each master has.
    pub(super) sources: &'static [u32],
    pub(super) near: Memory,
    pub(super) far: Memory,
    pub(super) cast: Cast,
}

/// What a scene shows, an arena, what is played on it, and the end.
pub(super) struct Scene {
    pub(super) name: &'static str,
    pub(super) setting: Setting,
    pub(super) script: Script,
    pub(super) end: End,
}

/// The masters and ports of a cast. Those of other casts are none.
#[derive(Drop)]
pub(super) struct Stage<'a> {
    pub(super) callers: Vec<Caller<'a>>,
    pub(super) masters: Vec<Client<'a>>,
    pub(super) desks: Vec<Desk<'a>>,
    pub(super) books: Vec<Keeper<'a>>,
}

/// The desks of both ports.
fn desks_of<'a>(rt: &impl Abort, alloc: Global, arena: &'a Arena, ports: Ports) -> Vec<Desk<'a>>
    requires { ports.near.arena ≡ arena.now }
{
    let Ports {
        near,
        near_bank,
        far,
        far_bank,
    } = ports;
    let near = new_desk(alloc, arena, near, near_bank);
    let far = new_desk(alloc, arena, far, far_bank);
    Vec::from_array(alloc, [near, far]).expect(rt, "memory")
}

/// The book of the first port, with room for so many entries.
fn books_of<'a>(
    rt: &impl Abort,
    alloc: Global,
    arena: &'a Arena,
    ports: Ports,
    room: usize,
) -> Vec<Keeper<'a>>
    requires { ports.near.arena ≡ arena.now }
{
    let Ports {
        near,
        near_bank,
        far: _,
        far_bank: _,
    } = ports;
    let keeper = new_keeper(rt, alloc, arena, near, near_bank, room);
    Vec::from_array(alloc, [keeper]).expect(rt, "memory")
}

/// The masters and ports of a cast.
fn stage_of<'a>(
    rt: &impl Abort,
    alloc: Global,
    arena: &'a Arena,
    map: &'a AddressMap,
    sources: &'a SourceOwners,
    masters: Vec<MasterSeat>,
    ports: Ports,
    cast: Cast,
) -> Stage<'a>
    requires routes { length map.now + 1 ≤ arena.now.about.ports }
    requires owners { sources.now ≡ arena.now.about.owners }
    requires blocks { HaveBlocks sources.now }
    requires masters { All (λ v. v ≡ new_master arena.now v.number) masters.items }
    requires ports { ports.near.arena ≡ arena.now }
{
    match cast {
        Cast::Seats => Stage {
            callers: callers_of(rt, alloc, arena, sources, masters),
            masters: Vec::new(alloc),
            desks: desks_of(rt, alloc, arena, ports),
            books: Vec::new(alloc),
        },
        Cast::Masters(room) => Stage {
            callers: Vec::new(alloc),
            masters: clients_of(rt, alloc, arena, map, sources, masters, room),
            desks: desks_of(rt, alloc, arena, ports),
            books: Vec::new(alloc),
        },
        Cast::Book(room) => Stage {
            callers: Vec::new(alloc),
            masters: clients_of(rt, alloc, arena, map, sources, masters, room),
            desks: Vec::new(alloc),
            books: books_of(rt, alloc, arena, ports, room),
        },
    }
}

impl<'a> Stage<'a> {
    fn sends_past(&mut self, rt: &impl Abort, own: Read, port: usize, others: Read) -> bool {
        let mut other = self.callers.pop().expect(rt, "no other master");
        let caller = self.callers.first_mut().expect(rt, "no master");
        let sent = caller.send_past(&mut other, (own, others), port);
        self.callers.push(other).expect(rt, "memory");
        sent == Some((0, 1, None))
    }

    fn leave(&mut self, rt: &impl Abort) {
        let caller = self.callers.pop().expect(rt, "no master is left");
        caller.leave(rt);
    }

    fn finishes(&mut self, rt: &impl Abort, number: usize, index: usize) -> bool {
        let master = self.masters.pop().expect(rt, "no master is left");
        master.ends(rt, number, index)
    }

    /// Makes a call. Its answer is the right one.
    fn play(&mut self, rt: &impl Abort, call: &Call) -> bool {
        match call {
            Call::Seat(number, call) => by_seat(&mut self.callers, *number, call),
            Call::SendPast(own, port, others) => self.sends_past(rt, *own, *port, *others),
            Call::Master(number, call) => by_master(&mut self.masters, *number, call),
            Call::Desk(number, call) => by_desk(rt, &mut self.desks, *number, call),
            Call::Book(call) => by_book(&mut self.books, call),
            Call::Leave => {
                self.leave(rt);
                true
            }
            Call::Finish(number, index) => self.finishes(rt, *number, *index),
        }
    }

    /// Makes these calls of a scene.
    pub(super) fn play_all(&mut self, rt: &impl Abort, name: &str, calls: &[Call]) {
        for (row, call) in calls.iter().enumerate() {
            let right = self.play(rt, call);
            assert!(rt; right, "{name}: call {row}");
        }
    }
}

fn by_seat(callers: &mut [Caller], number: usize, call: &CallerCall) -> bool {
    match callers.get_mut(number) {
        Some(caller) => caller.play(call),
        None => false,
    }
}

fn by_master(masters: &mut [Client], number: usize, call: &MasterCall) -> bool {
    match masters.get_mut(number) {
        Some(master) => master.play(call),
        None => false,
    }
}

fn by_desk(rt: &impl Abort, desks: &mut [Desk], number: usize, call: &DeskCall) -> bool {
    match desks.get_mut(number) {
        Some(desk) => desk.play(rt, call),
        None => false,
    }
}

fn by_book(books: &mut [Keeper], call: &BookCall) -> bool {
    match books.first_mut() {
        Some(book) => book.play(call),
        None => false,
    }
}

/// The last two agents of a stage, in order.
pub(super) fn last_two<T: Drop>(rt: &impl Abort, mut agents: Vec<T>) -> (T, T) {
    let second = agents.pop().expect(rt, "no agent");
    let first = agents.pop().expect(rt, "no second agent");
    (first, second)
}

/// Plays what is to be played.
fn play_script<R: Abort + Threads + Wait + Sync>(
    rt: &R,
    alloc: Global,
    mut stage: Stage,
    scene: &Scene,
) {
    match scene.script {
        Script::Calls(calls) => stage.play_all(rt, scene.name, calls),
        Script::Walk => walk_along(rt, alloc, stage),
        Script::Claims => claim_four(rt, stage),
        Script::Lock => lock(rt, stage),
        Script::Workers => step_six(rt, stage),
    }
}

/// Plays a scene, and answers the account of its arena.
fn account_of<R: Abort + Threads + Wait + Sync>(rt: &R, alloc: Global, scene: &Scene) -> Account {
    let Floor {
        arena,
        map,
        sources,
        masters,
        ports,
    } = open_floor(rt, alloc, &scene.setting);
    {
        let cast = scene.setting.cast;
        let owners = sources.owners();
        let stage = stage_of(rt, alloc, &arena, &map, owners, masters, ports, cast);
        play_script(rt, alloc, stage, scene);
    }
    arena.close(alloc).expect(rt, "memory")
}

/// Plays a scene, whose end is the one that it should be. The answer is the slots that are held then.
pub(super) fn play<R: Abort + Threads + Wait + Sync>(
    rt: &R,
    alloc: Global,
    scene: &Scene,
) -> Vec<HeldSlot> {
    let Account { free, held, left } = account_of(rt, alloc, scene);
    assert!(rt; free.as_slice() == scene.end.free);
    assert!(rt; held.len() == scene.end.held);
    assert!(rt; left.as_slice() == scene.end.left);
    held
}

/// Plays one scene after the other.
pub(super) fn play_each<R: Abort + Threads + Wait + Sync>(
    rt: &R,
    alloc: Global,
    scenes: &[&Scene],
) {
    for scene in scenes {
        play(rt, alloc, scene);
    }
}
