//! What a port's pass over the slots accepts, and where a master looks for a slot.
use super::turns::READ;
use crate::tests::agents::caller::CallerCall::Send;
use crate::tests::agents::desk::DeskCall::Accept;
use crate::tests::floor::{RAM_OF_ONES, RAM_OF_ZEROS};
use crate::tests::stage::Call::{Desk, Seat};
use crate::tests::stage::{Cast, End, Scene, Script, Setting, play_each};

/// Each of four masters over four slots finds the slot of its own number.
static OF_THE_PORT: Scene = Scene {
    name: "a pass accepts what is posted for the port",
    setting: Setting {
        slots: 4,
        sources: &[1; 4],
        near: RAM_OF_ZEROS,
        far: RAM_OF_ONES,
        cast: Cast::Seats,
    },
    script: Script::Calls(&[
        Desk(0, Accept(None)),
        Seat(0, Send(READ, 0, Some(0))),
        Seat(1, Send(READ, 0, Some(1))),
        Seat(2, Send(READ, 1, Some(2))),
        Desk(0, Accept(Some(0))),
        Desk(0, Accept(Some(1))),
        Desk(0, Accept(None)),
        Desk(1, Accept(Some(2))),
        Desk(1, Accept(None)),
    ]),
    end: End {
        free: &[3],
        held: 3,
        left: &[],
    },
};

/// Both of two slots are held at the end.
const BOTH_HELD: End = End {
    free: &[],
    held: 2,
    left: &[],
};

static LAST_SLOT: Scene = Scene {
    name: "a pass goes to the last slot",
    setting: Setting {
        slots: 2,
        sources: &[1; 2],
        near: RAM_OF_ZEROS,
        far: RAM_OF_ONES,
        cast: Cast::Seats,
    },
    script: Script::Calls(&[
        Seat(0, Send(READ, 1, Some(0))),
        Seat(1, Send(READ, 0, Some(1))),
        Desk(0, Accept(Some(1))),
    ]),
    end: BOTH_HELD,
};

/// The third and the fourth of four masters look for one of two slots from slot 1 on.
static FROM_THE_FIRST: Scene = Scene {
    name: "a claim goes on from the first slot",
    setting: Setting {
        slots: 2,
        sources: &[1; 4],
        near: RAM_OF_ZEROS,
        far: RAM_OF_ONES,
        cast: Cast::Seats,
    },
    script: Script::Calls(&[
        Seat(3, Send(READ, 0, Some(1))),
        Seat(2, Send(READ, 0, Some(0))),
        Seat(1, Send(READ, 0, None)),
    ]),
    end: BOTH_HELD,
};

#[test]
fn passes_and_claims_go_over_the_slots(rt: HostRuntime) {
    play_each(
        &rt,
        rt.alloc(),
        &[&OF_THE_PORT, &LAST_SLOT, &FROM_THE_FIRST],
    );
}
