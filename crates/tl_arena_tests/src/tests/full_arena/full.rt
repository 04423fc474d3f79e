//! Slots, sources and traces that are used up.
use crate::tests::agents::desk::DeskCall::{Accept, Answer};
use crate::tests::agents::master::MasterCall::{Counts, Issue, IssueUpTo, Poll, Refused};
use crate::tests::floor::{NO_DEVICE, RAM};
use crate::tests::stage::Call::{Desk, Master};
use crate::tests::stage::{Cast, End, Scene, Script, Setting, play_each};
use tl_master::IssueFault::{NoSlot, NoSuchSource, SourceBusy, TraceFull};
use tl_master::Polled::{Done, Idle, NotYet};

/// A master of 256 sources with 256 slots has all of them out. The reply to its first request is collected, which is
/// its first entry, and its first source issues again.
static ALL_SLOTS: Scene = Scene {
    name: "all slots and all sources are used",
    setting: Setting {
        slots: 256,
        sources: &[256],
        near: RAM,
        far: NO_DEVICE,
        cast: Cast::Masters(300),
    },
    script: Script::Calls(&[
        Master(0, IssueUpTo(256)),
        Master(0, Counts(256, 0)),
        Master(0, Refused(0, SourceBusy)),
        Master(0, Refused(256, NoSuchSource)),
        Master(0, Poll(0, NotYet)),
        Desk(0, Accept(Some(0))),
        Master(0, Poll(0, NotYet)),
        Desk(0, Answer(Some(0))),
        Master(0, Poll(0, Done(0))),
        Master(0, Counts(255, 1)),
        Master(0, Issue(0, 0)),
        Master(0, Counts(256, 1)),
        Master(0, Refused(0, SourceBusy)),
    ]),
    end: End {
        free: &[],
        held: 256,
        left: &[],
    },
};

/// With 255 slots, the request of its last source finds none.
static ONE_SLOT_TOO_FEW: Scene = Scene {
    name: "one slot too few is told",
    setting: Setting {
        slots: 255,
        sources: &[256],
        near: RAM,
        far: NO_DEVICE,
        cast: Cast::Masters(300),
    },
    script: Script::Calls(&[
        Master(0, IssueUpTo(255)),
        Master(0, Counts(255, 0)),
        Master(0, Refused(255, NoSlot)),
        Master(0, Refused(255, NoSlot)),
        Master(0, Poll(0, NotYet)),
        Desk(0, Accept(Some(0))),
        Master(0, Poll(0, NotYet)),
        Desk(0, Answer(Some(0))),
        Master(0, Poll(0, Done(0))),
        Master(0, Counts(254, 1)),
        Master(0, Issue(0, 0)),
        Master(0, Counts(255, 1)),
        Master(0, Refused(255, NoSlot)),
    ]),
    end: End {
        free: &[],
        held: 255,
        left: &[],
    },
};

/// A master of 16 sources, and room for two entries: a third request is refused, and one that is from a busy source too
/// is told that. An entry takes room as well.
static FULL_TRACE: Scene = Scene {
    name: "a full trace is told after a busy source",
    setting: Setting {
        slots: 4,
        sources: &[16],
        near: RAM,
        far: NO_DEVICE,
        cast: Cast::Masters(2),
    },
    script: Script::Calls(&[
        Master(0, IssueUpTo(2)),
        Master(0, Counts(2, 0)),
        Master(0, Refused(2, TraceFull)),
        Master(0, Refused(1, SourceBusy)),
        Master(0, Refused(16, NoSuchSource)),
        Master(0, Poll(0, NotYet)),
        Desk(0, Accept(Some(0))),
        Master(0, Poll(0, NotYet)),
        Desk(0, Answer(Some(0))),
        Master(0, Poll(0, Done(0))),
        Master(0, Counts(1, 1)),
        Master(0, Refused(0, TraceFull)),
        Master(0, Refused(1, SourceBusy)),
    ]),
    end: End {
        free: &[0, 2, 3],
        held: 1,
        left: &[],
    },
};

/// Nothing rings here: a master that looks finds every reply.
static NO_BELL: Scene = Scene {
    name: "a master that hears no bell collects all",
    setting: Setting {
        slots: 4,
        sources: &[4],
        near: RAM,
        far: NO_DEVICE,
        cast: Cast::Masters(4),
    },
    script: Script::Calls(&[
        Master(0, IssueUpTo(4)),
        Desk(0, Accept(Some(0))),
        Desk(0, Answer(Some(0))),
        Desk(0, Accept(Some(1))),
        Desk(0, Answer(Some(1))),
        Desk(0, Accept(Some(2))),
        Desk(0, Answer(Some(2))),
        Desk(0, Accept(Some(3))),
        Desk(0, Answer(Some(3))),
        Master(0, Poll(3, Done(0))),
        Master(0, Poll(3, Idle)),
        Master(0, Poll(1, Done(1))),
        Master(0, Poll(1, Idle)),
        Master(0, Poll(0, Done(2))),
        Master(0, Poll(0, Idle)),
        Master(0, Poll(2, Done(3))),
        Master(0, Poll(2, Idle)),
        Master(0, Counts(0, 4)),
    ]),
    end: End {
        free: &[0, 1, 2, 3],
        held: 0,
        left: &[],
    },
};

#[test]
fn what_is_used_up_is_told(rt: HostRuntime) {
    play_each(
        &rt,
        rt.alloc(),
        &[&ALL_SLOTS, &ONE_SLOT_TOO_FEW, &FULL_TRACE, &NO_BELL],
    );
}
