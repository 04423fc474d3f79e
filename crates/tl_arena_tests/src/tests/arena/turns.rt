//! Turns on one thread, by the worked values.
use crate::tests::agents::caller::CallerCall::{NoReply, Receive, Send};
use crate::tests::agents::caller::{Read, Wanted};
use crate::tests::agents::desk::Accept;
use crate::tests::agents::desk::DeskCall::{AcceptAt, Answer};
use crate::tests::floor::{BASE, RAM_OF_ONES, RAM_OF_ZEROS};
use crate::tests::stage::Call::{Desk, Leave, Seat};
use crate::tests::stage::{Cast, End, Scene, Script, Setting, play, play_each};
use tl_types::AskOp;

/// A read of one byte, from a master's only source.
pub(super) const READ: Read = Read { size: 0, source: 0 };

/// Two masters with one source each over four slots. The second looks for a slot from the middle of them on.
pub(super) const TWO_MASTERS: Setting = Setting {
    slots: 4,
    sources: &[1, 1],
    near: RAM_OF_ZEROS,
    far: RAM_OF_ONES,
    cast: Cast::Seats,
};

/// The second master's request. Its source is 1 on the wide side.
const SECOND: Accept = Accept {
    op: AskOp::Get,
    size: 0,
    source: 1,
    address: BASE,
};

/// The second master has slot 2 at the end, and nobody has left.
const SLOT_2_HELD: End = End {
    free: &[0, 1, 3],
    held: 1,
    left: &[],
};

static ACCEPTED_ONCE: Scene = Scene {
    name: "a request is accepted once by its own port",
    setting: TWO_MASTERS,
    script: Script::Calls(&[
        Seat(1, Send(READ, 1, Some(2))),
        Desk(0, AcceptAt(2, None)),
        Desk(1, AcceptAt(1, None)),
        Desk(1, AcceptAt(2, Some(SECOND))),
        Desk(1, AcceptAt(2, None)),
    ]),
    end: SLOT_2_HELD,
};

/// A byte of the second port's memory, which holds 1.
const BYTE: Wanted = Wanted {
    port: 1,
    index: 0,
    bytes: &[1],
    read: [Some(1), None, None],
};

static ANSWERED: Scene = Scene {
    name: "a ticket comes back until the answer",
    setting: TWO_MASTERS,
    script: Script::Calls(&[
        Seat(1, Send(READ, 1, Some(2))),
        Seat(1, NoReply),
        Desk(1, AcceptAt(0, None)),
        Desk(1, AcceptAt(1, None)),
        Desk(1, AcceptAt(2, Some(SECOND))),
        Desk(1, Answer(Some(2))),
        Desk(1, AcceptAt(3, None)),
        Seat(1, Receive(BYTE)),
        Seat(1, Send(READ, 1, Some(2))),
    ]),
    end: SLOT_2_HELD,
};

static ALL_LEAVE: Scene = Scene {
    name: "all slots are free after all have left",
    setting: TWO_MASTERS,
    script: Script::Calls(&[Leave, Leave]),
    end: End {
        free: &[0, 1, 2, 3],
        held: 0,
        left: &[0, 1],
    },
};

/// The tickets go with their masters, at the end of a scene.
static DROPPED: Scene = Scene {
    name: "a slot whose ticket was dropped is held",
    setting: TWO_MASTERS,
    script: Script::Calls(&[Seat(0, Send(READ, 1, Some(0)))]),
    end: End {
        free: &[1, 2, 3],
        held: 1,
        left: &[],
    },
};

#[test]
fn a_slot_whose_ticket_was_dropped_is_held(rt: HostRuntime) {
    let held = play(&rt, rt.alloc(), &DROPPED);
    let first = held.first().expect(&rt, "nothing is held");
    assert!(rt; (first.slot, first.master) == (0, 0));
}

#[test]
fn turns_are_taken_on_one_thread(rt: HostRuntime) {
    play_each(&rt, rt.alloc(), &[&ACCEPTED_ONCE, &ANSWERED, &ALL_LEAVE]);
}
