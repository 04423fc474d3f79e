//! What a master issues and collects.
use super::TWO_MASTERS;
use crate::tests::agents::book::BookCall::{History, TakeAndServe};
use crate::tests::agents::master::MasterCall::{Counts, Issue, NextOut, Poll, Refused, Sources};
use crate::tests::stage::Call::{Book, Finish, Master};
use crate::tests::stage::{Cast, End, Scene, Script, Setting, play_each};
use tl_master::IssueFault::{NoSlot, NoSuchSource, SourceBusy, TraceFull};
use tl_master::Polled::{Done, Idle, NotYet};

static WAITS: Scene = Scene {
    name: "a source waits for its reply",
    setting: Setting {
        slots: 4,
        cast: Cast::Book(2),
        ..TWO_MASTERS
    },
    script: Script::Calls(&[
        Master(0, Sources(16)),
        Master(0, Refused(16, NoSuchSource)),
        Master(0, Issue(0, 0)),
        Master(0, Refused(0, SourceBusy)),
        Master(0, Counts(1, 0)),
        Master(0, Issue(1, 1)),
        Master(0, Refused(0, SourceBusy)),
        Master(0, Refused(2, TraceFull)),
    ]),
    end: End {
        free: &[2, 3],
        held: 2,
        left: &[],
    },
};

static LOOKS: Scene = Scene {
    name: "a look goes over what is out alone",
    setting: Setting {
        slots: 4,
        cast: Cast::Book(4),
        ..TWO_MASTERS
    },
    script: Script::Calls(&[
        Master(0, NextOut(0, None)),
        Master(0, Issue(9, 0)),
        Master(0, Issue(3, 1)),
        Master(0, Issue(15, 2)),
        Master(0, NextOut(0, Some(3))),
        Master(0, NextOut(3, Some(3))),
        Master(0, NextOut(4, Some(9))),
        Master(0, NextOut(10, Some(15))),
        Master(0, NextOut(16, None)),
        Book(TakeAndServe),
        Master(0, Poll(9, Done(0))),
        Master(0, Poll(3, NotYet)),
        Master(0, NextOut(4, Some(15))),
    ]),
    end: End {
        free: &[0, 3],
        held: 2,
        left: &[],
    },
};

static POLLS: Scene = Scene {
    name: "poll finds answer",
    setting: Setting {
        slots: 4,
        cast: Cast::Book(4),
        ..TWO_MASTERS
    },
    script: Script::Calls(&[
        Master(0, Poll(3, Idle)),
        Master(0, Issue(3, 0)),
        Master(0, Poll(3, NotYet)),
        Book(TakeAndServe),
        Master(0, Poll(3, Done(0))),
        Master(0, Poll(3, Idle)),
        Master(0, Counts(0, 1)),
    ]),
    end: End {
        free: &[0, 1, 2, 3],
        held: 0,
        left: &[],
    },
};

/// Each master has the only slot once, and each leaves with one entry.
static ONE_SLOT: Scene = Scene {
    name: "issue finds free slot",
    setting: Setting {
        slots: 1,
        cast: Cast::Book(4),
        ..TWO_MASTERS
    },
    script: Script::Calls(&[
        Master(0, Issue(0, 0)),
        Master(1, Refused(0, NoSlot)),
        Master(1, Counts(0, 0)),
        Book(TakeAndServe),
        Master(0, Poll(0, Done(0))),
        Master(1, Issue(0, 0)),
        Book(TakeAndServe),
        Master(1, Poll(0, Done(0))),
        Book(History(2)),
        Finish(1, 1),
        Finish(0, 0),
    ]),
    end: End {
        free: &[0],
        held: 0,
        left: &[0, 1],
    },
};

#[test]
fn masters_issue_and_collect(rt: HostRuntime) {
    play_each(&rt, rt.alloc(), &[&WAITS, &LOOKS, &POLLS, &ONE_SLOT]);
}
