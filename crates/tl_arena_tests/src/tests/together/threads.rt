//! Two threads at one arena, and a port behind its lock.
ghost use Rattle.std.specs.Prelude.{◌≡◌, ◌+◌, ◌≤◌, length};

use super::TWO_MASTERS;
use crate::tests::agents::book::Keeper;
use crate::tests::agents::master::{Client, MasterCall, read};
use crate::tests::stage::{Call, Cast, End, Scene, Script, Setting, Stage, last_two, play};
use std::marker::Brand;
use std::process::Abort;
use std::sync::Wait;
use std::thread;
use std::thread::Threads;
use tl_arena::{Arena, ArenaName};
use tl_map::AddressMap;
use tl_master::{Master, Polled};
use tl_port::{Book, Intake, Port, Step};
use tl_types::Ask;

/// A master, and the slots of two requests that it issues.
fn issue_two(
    arena: &Arena,
    map: &AddressMap,
    master: Master,
    asks: &[Ask; 2],
) -> (Master, Option<[usize; 2]>)
    requires arena { master.seat.arena ≡ arena.now }
    requires ports { length map.now + 1 ≤ arena.now.about.ports }
    ensures { result.0.seat.arena ≡ arena.now }
{
    let mut client = Client { arena, map, master };
    let first = client.issue(&asks[0]);
    let second = client.issue(&asks[1]);
    let Client { master, .. } = client;
    match (first, second) {
        (Ok(first), Ok(second)) => (master, Some([first.slot, second.slot])),
        _ => (master, None),
    }
}

/// Both masters issue twice, each on a thread of its own. The answer is both, and where each slot was claimed.
fn issue_at_once<'a, R: Threads + Wait + Sync>(
    rt: &R,
    one: Client<'a>,
    two: Client<'a>,
    asks: &[Ask; 2],
) -> (Client<'a>, Client<'a>, Option<([usize; 2], [usize; 2])>) {
    let Client { arena, map, master } = one;
    let (first_arena, first_map, first) = (arena, map, master);
    let Client { arena, map, master } = two;
    let ((first, one), (second, two)) = thread::join(
        rt,
        || -> (Master, Option<[usize; 2]>)
            requires { (first.seat.arena ≡ first_arena.now)
                × (length first_map.now + 1 ≤ first_arena.now.about.ports) }
            ensures { result.0.seat.arena ≡ first_arena.entry.now }
        { issue_two(first_arena, first_map, first, asks) },
        || -> (Master, Option<[usize; 2]>)
            requires { (master.seat.arena ≡ arena.now)
                × (length map.now + 1 ≤ arena.now.about.ports) }
            ensures { result.0.seat.arena ≡ arena.entry.now }
        { issue_two(arena, map, master, asks) },
    );
    let first = Client {
        arena: first_arena,
        map: first_map,
        master: first,
    };
    let second = Client {
        arena,
        map,
        master: second,
    };
    (first, second, one.zip(two))
}

/// The slots of four requests are all four slots, and the port serves as many requests.
fn serve_four(rt: &impl Abort, keeper: &mut Keeper, (one, two): ([usize; 2], [usize; 2])) {
    let claimed = [one[0], one[1], two[0], two[1]];
    for slot in 0..4 {
        assert!(rt; claimed.contains(&slot) && keeper.takes_and_serves());
    }
}

/// Collects both replies of a master, which then leaves.
fn collect_two(rt: &impl Abort, mut client: Client) {
    for source in 0..2 {
        assert!(rt; matches!(client.poll(source), Polled::Done(_)));
    }
    assert!(rt; client.finish(rt).len() == 2);
}

/// Reads from the first two sources of a master.
fn two_reads(rt: &impl Abort) -> [Ask; 2] {
    match (read(0), read(1)) {
        (Some(first), Some(second)) => [first, second],
        _ => panic!(rt; "no request"),
    }
}

/// Both masters issue twice at once, and collect all.
pub(in crate::tests) fn claim_four<R: Abort + Threads + Wait + Sync>(rt: &R, stage: Stage) {
    let Stage {
        masters,
        mut books,
        ..
    } = stage;
    let (first, second) = last_two(rt, masters);
    let (first, second, slots) = issue_at_once(rt, first, second, &two_reads(rt));
    let keeper = books.first_mut().expect(rt, "no book");
    serve_four(rt, keeper, slots.expect(rt, "not issued"));
    collect_two(rt, first);
    collect_two(rt, second);
}

static FOUR_CLAIMS: Scene = Scene {
    name: "two threads claim four slots",
    setting: TWO_MASTERS,
    script: Script::Claims,
    end: End {
        free: &[0, 1, 2, 3],
        held: 0,
        left: &[0, 1],
    },
};

#[test]
fn two_threads_claim_four_slots(rt: HostRuntime) {
    play(&rt, rt.alloc(), &FOUR_CLAIMS);
}

/// A call of a port, with its answer.
enum PortCall {
    Take(Intake),
    Serve(Option<usize>),
    InFlightLen(usize),
    Step(Step),
    /// A step beside others, whatever it finds.
    AnyStep,
}

/// Each call of a port, by one thread: it does what the book's call of that name does.
static PORT_CALLS: [PortCall; 7] = [
    PortCall::Take(Intake::Taken(5)),
    PortCall::Take(Intake::Nothing),
    PortCall::InFlightLen(1),
    PortCall::Serve(Some(0)),
    PortCall::InFlightLen(0),
    PortCall::Serve(None),
    PortCall::Step(Step {
        intake: Intake::Nothing,
        index: None,
        source: None,
    }),
];

/// Makes a call of a port. Its answer is the right one.
fn call_port<N: ArenaName>(rt: &impl Wait, port: &Port<N>, arena: &Arena, call: &PortCall) -> bool
    requires { arena.now ≡ N.arena }
{
    match call {
        PortCall::Take(found) => port.intake(rt, arena) == *found,
        PortCall::Serve(place) => port.serve(rt, arena) == *place,
        PortCall::InFlightLen(count) => port.in_flight_len(rt) == *count,
        PortCall::Step(step) => port.step(rt, arena) == *step,
        PortCall::AnyStep => {
            port.step(rt, arena);
            true
        }
    }
}

/// Whether each of these calls of a port has its answer.
fn are_right<N: ArenaName>(
    rt: &impl Wait,
    port: &Port<N>,
    arena: &Arena,
    calls: &[PortCall],
) -> bool
    requires { arena.now ≡ N.arena }
{
    for call in calls {
        if !call_port(rt, port, arena, call) {
            return false;
        }
    }
    true
}

/// A book goes through its lock.
fn through_the_lock<N: ArenaName, R: Abort + Wait>(rt: &R, arena: &Arena, book: Book) -> Book
    requires arena { arena.now ≡ N.arena }
    requires book { book.seat.arena ≡ N.arena }
{
    let port = Port::<N>::new(book);
    assert!(rt; are_right(rt, &port, arena, &PORT_CALLS));
    port.into_book()
}

static ONE_ISSUE: [Call; 1] = [Call::Master(0, MasterCall::Issue(5, 0))];

/// One request is posted, and the port's book goes through its lock.
pub(in crate::tests) fn lock<R: Abort + Wait>(rt: &R, mut stage: Stage) {
    stage.play_all(rt, "one issue", &ONE_ISSUE);
    let Keeper { arena, book } = stage.books.pop().expect(rt, "no book");
    let book = through_the_lock::<Brand, R>(rt, arena, book);
    assert!(rt; (book.history_len(), book.in_flight_len()) == (1, 0));
}

/// Nobody collects the reply, so its slot is held at the end.
static ONE_REQUEST: Scene = Scene {
    name: "a port does what its book does",
    setting: TWO_MASTERS,
    script: Script::Lock,
    end: End {
        free: &[1, 2, 3],
        held: 1,
        left: &[],
    },
};

#[test]
fn a_port_does_what_its_book_does(rt: HostRuntime) {
    play(&rt, rt.alloc(), &ONE_REQUEST);
}

/// Three steps of a worker.
static THREE_STEPS: [PortCall; 3] = [PortCall::AnyStep, PortCall::AnyStep, PortCall::AnyStep];

/// Two workers step one port.
fn work<N: ArenaName + Send + Sync, R: Threads + Wait + Sync>(
    rt: &R,
    arena: &Arena,
    book: Book,
) -> Book
    requires arena { arena.now ≡ N.arena }
    requires book { book.seat.arena ≡ N.arena }
{
    let port = Port::<N>::new(book);
    thread::join(
        rt,
        || are_right(rt, &port, arena, &THREE_STEPS),
        || are_right(rt, &port, arena, &THREE_STEPS),
    );
    port.into_book()
}

static SIX_ISSUES: [Call; 1] = [Call::Master(0, MasterCall::IssueUpTo(6))];

/// Six requests are posted, and two workers step the port.
pub(in crate::tests) fn step_six<R: Abort + Threads + Wait + Sync>(rt: &R, mut stage: Stage) {
    stage.play_all(rt, "six issues", &SIX_ISSUES);
    let Keeper { arena, book } = stage.books.pop().expect(rt, "no book");
    let book = work::<Brand, R>(rt, arena, book);
    assert!(rt; book.history_len() == 6);
    assert!(rt; book.in_flight_len() == 0);
}

/// The same over eight slots, with room for six entries. Nobody collects a reply.
static SIX_REQUESTS: Scene = Scene {
    name: "two threads step one port",
    setting: Setting {
        slots: 8,
        cast: Cast::Book(6),
        ..TWO_MASTERS
    },
    script: Script::Workers,
    end: End {
        free: &[6, 7],
        held: 6,
        left: &[],
    },
};

#[test]
fn two_threads_step_one_port(rt: HostRuntime) {
    play(&rt, rt.alloc(), &SIX_REQUESTS);
}
