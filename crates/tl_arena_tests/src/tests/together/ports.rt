//! What a port takes and serves.
use super::TWO_MASTERS;
use crate::tests::agents::book::BookCall::{
    Byte, First, History, InFlight, InFlightLen, Number, Serve, Take,
};
use crate::tests::agents::master::MasterCall::{Issue, Poll};
use crate::tests::stage::Call::{Book, Master};
use crate::tests::stage::{Cast, End, Scene, Script, Setting, play_each};
use tl_master::Polled::{Done, NotYet};
use tl_port::Flight;
use tl_port::Intake::{JournalFull, Nothing, Taken};

/// Nothing but the posting tells the port where to look.
static TAKEN: Scene = Scene {
    name: "intake takes what is posted",
    setting: Setting {
        slots: 4,
        cast: Cast::Book(3),
        ..TWO_MASTERS
    },
    script: Script::Calls(&[
        Book(Take(Nothing)),
        Master(0, Issue(5, 0)),
        Book(Take(Taken(5))),
        Book(Take(Nothing)),
        Book(InFlight(0, Some(Flight { source: 5, slot: 0 }))),
        Book(InFlight(1, None)),
        Book(Serve(Some(0))),
        Book(InFlightLen(0)),
        Book(First(5, &[0; 4])),
        Book(Number(0)),
        Book(Byte(0x1000, 0)),
    ]),
    end: End {
        free: &[1, 2, 3],
        held: 1,
        left: &[],
    },
};

static FULL: Scene = Scene {
    name: "a full journal takes no more",
    setting: Setting {
        slots: 4,
        cast: Cast::Book(3),
        ..TWO_MASTERS
    },
    script: Script::Calls(&[
        Master(0, Issue(0, 0)),
        Master(0, Issue(1, 1)),
        Master(0, Issue(2, 2)),
        Book(Take(Taken(0))),
        Book(Take(Taken(1))),
        Book(Take(Taken(2))),
        Book(InFlightLen(3)),
        Book(Take(JournalFull)),
        Book(InFlightLen(3)),
        Book(Serve(Some(0))),
        Book(Serve(Some(1))),
        Book(Serve(Some(2))),
        Book(Serve(None)),
        Book(History(3)),
    ]),
    end: End {
        free: &[3],
        held: 3,
        left: &[],
    },
};

/// Each master's trace has room for one entry too, so the second request is the second master's, whose part of the four
/// slots begins at slot 2.
static OF_ONE: Scene = Scene {
    name: "a journal of one takes one",
    setting: Setting {
        slots: 4,
        cast: Cast::Book(1),
        ..TWO_MASTERS
    },
    script: Script::Calls(&[
        Master(0, Issue(5, 0)),
        Book(Take(Taken(5))),
        Master(1, Issue(0, 2)),
        Book(Take(JournalFull)),
        Book(Serve(Some(0))),
        Book(Take(JournalFull)),
        Book(InFlightLen(0)),
        Book(History(1)),
        Master(0, Poll(5, Done(0))),
        Master(1, Poll(0, NotYet)),
    ]),
    end: End {
        free: &[0, 1, 3],
        held: 1,
        left: &[],
    },
};

static LOWEST: Scene = Scene {
    name: "an intake takes from the lowest slot",
    setting: Setting {
        slots: 4,
        cast: Cast::Book(3),
        ..TWO_MASTERS
    },
    script: Script::Calls(&[
        Master(0, Issue(8, 0)),
        Master(0, Issue(7, 1)),
        Book(Take(Taken(8))),
        Book(Take(Taken(7))),
        Book(Take(Nothing)),
    ]),
    end: End {
        free: &[2, 3],
        held: 2,
        left: &[],
    },
};

#[test]
fn ports_take_and_serve(rt: HostRuntime) {
    play_each(&rt, rt.alloc(), &[&TAKEN, &FULL, &OF_ONE, &LOWEST]);
}
