//! One slot that two masters use, one after the other, call by call.
use crate::tests::agents::caller::CallerCall::{NoReply, Receive, Send};
use crate::tests::agents::caller::{Read, Wanted};
use crate::tests::agents::desk::Accept;
use crate::tests::agents::desk::DeskCall::{AcceptAt, Answer};
use crate::tests::floor::{BASE, NO_DEVICE, RAM};
use crate::tests::stage::Call::{Desk, Leave, Seat, SendPast};
use crate::tests::stage::{Cast, End, Scene, Script, Setting, play};
use tl_types::AskOp;

/// A read of four bytes, from the source of the first master's turn.
const FIRST: Read = Read { size: 2, source: 3 };

/// The same, from that of the second master's turn.
const SECOND: Read = Read { size: 2, source: 0 };

/// Both, as they are accepted: the second master's first source is 16 on the wide side.
const FIRST_WIDE: Accept = Accept {
    op: AskOp::Get,
    size: 2,
    source: 3,
    address: BASE,
};

const SECOND_WIDE: Accept = Accept {
    op: AskOp::Get,
    size: 2,
    source: 16,
    address: BASE,
};

/// What the first master receives, and the second.
const FIRST_REPLY: Wanted = Wanted {
    port: 0,
    index: 0,
    bytes: &[0; 4],
    read: [Some(0), Some(0), None],
};

const SECOND_REPLY: Wanted = Wanted {
    port: 0,
    index: 1,
    bytes: &[0; 4],
    read: [Some(0), Some(0), None],
};

/// One slot, two masters with 16 sources each, a memory of 64 zero bytes, and the error port.
static ONE_SLOT: Scene = Scene {
    name: "one slot serves one turn after the other",
    setting: Setting {
        slots: 1,
        sources: &[16, 16],
        near: RAM,
        far: NO_DEVICE,
        cast: Cast::Seats,
    },
    script: Script::Calls(&[
        // The first master's turn. Nobody else gets the slot, and no other port what is posted there.
        SendPast(FIRST, 0, SECOND),
        Desk(1, AcceptAt(0, None)),
        Desk(0, AcceptAt(1, None)),
        Seat(0, NoReply),
        Desk(0, AcceptAt(0, Some(FIRST_WIDE))),
        Desk(0, Answer(Some(0))),
        Seat(0, Receive(FIRST_REPLY)),
        // The second master's turn, in the same slot.
        Seat(1, Send(SECOND, 0, Some(0))),
        Desk(0, AcceptAt(0, Some(SECOND_WIDE))),
        Desk(0, Answer(Some(0))),
        Seat(1, Receive(SECOND_REPLY)),
        Leave,
        Leave,
    ]),
    end: End {
        free: &[0],
        held: 0,
        left: &[0, 1],
    },
};

#[test]
fn one_slot_serves_one_turn_after_the_other(rt: HostRuntime) {
    play(&rt, rt.alloc(), &ONE_SLOT);
}
