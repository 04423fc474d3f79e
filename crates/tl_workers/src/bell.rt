//! Doorbells: channels under a rule that any message keeps. Nothing is claimed of what they say: a ring says that a
//! look may be worth while, and no more. Each has room for all that a run sends to it.
ghost use Rattle.std.specs.Prelude.{◌≡◌, ◌<◌, ◌≤◌, All, IfOk, length, vec_len};
ghost use Rattle.crossbeam_channel.specs.Claims.{IsSeatAt};
ghost use Rattle.crossbeam_channel.specs.Ends.{sends_on, receives_on};

use crossbeam_channel::protocol::{Free, Split};
use crossbeam_channel::{Pass, RuledReceiver, RuledSender, TryRecvError, bounded_with};
use std::alloc::Global;
use std::sync::Wait;
use std::thread::yield_now;
use tl_types::Memory;

/// How often a thread looks at its bell before it sleeps: waking one takes longer than the ring that it waits for is
/// mostly away.
const LOOKS: u32 = 64;

/// What a bell says.
#[derive(Clone, Copy, PartialEq, Eq)]
pub(crate) enum Ring {
    /// Something was posted, or answered.
    Look,
    /// The run is over.
    Stop,
}

/// The two halves of a pass that knows nothing.
struct Halves;

impl Split<()> for Halves {
    ghost left = { λ v. v };

    ghost right = { λ v. v };
}

/// The end of a bell that rings it.
#[derive(Drop)]
pub(crate) struct Ringer {
    sender: RuledSender<Ring, (), Free>,
    pass: Pass<Ring, ()>,
    ghost seated: { IsSeatAt (sends_on sender) pass },
}

/// The end of a bell that hears it.
#[derive(Drop)]
pub(crate) struct Listener {
    receiver: RuledReceiver<Ring, (), Free>,
    pass: Pass<Ring, ()>,
    heard: usize,
    ghost seated: { IsSeatAt (receives_on receiver) pass },
}

/// The bell that a thread listens to, and those that it rings.
#[derive(Drop)]
pub(crate) struct Bells {
    pub(crate) own: Listener,
    pub(crate) others: Vec<Ringer>,
}

impl Ringer {
    ghost use Rattle.tl_workers.specs.Bell.{HasRoom};

    /// A bell with room for so many rings that nobody has heard yet, and for one at least, that so many hear: each ring
    /// is heard by one of them.
    pub(crate) fn new(
        alloc: Global,
        room: usize,
        listeners: usize,
    ) -> Result<(Ringer, Vec<Listener>), Memory>
        ensures many { IfOk result (λ made. vec_len made.1 ≡ listeners) }
        ensures room { IfOk result (λ made. All (HasRoom room) made.1.items) }
    {
        let Ok((sender, receiver, mut pass)) = bounded_with::<Ring, (), Free, Global>(
            alloc,
            room.max(1),
        ) else {
            return Err(Memory);
        };
        let Ok(mut made) = Vec::with_capacity(alloc, listeners) else {
            return Err(Memory);
        };
        for _ in 0..listeners {
            let Ok(receiver) = receiver.try_clone() else {
                return Err(Memory);
            };
            let listener = Listener {
                receiver,
                pass: sender.another::<Halves>(&mut pass),
                heard: 0,
            };
            let Ok(()) = made.push(listener) else {
                return Err(Memory);
            };
        }
        Ok((Ringer { sender, pass }, made))
    }

    /// Another end that rings the same bell.
    pub(crate) fn again(&mut self) -> Result<Ringer, Memory> {
        let Ok(sender) = self.sender.try_clone() else {
            return Err(Memory);
        };
        let pass = self.sender.another::<Halves>(&mut self.pass);
        Ok(Ringer { sender, pass })
    }

    /// Rings. A ring is lost if nobody listens any more.
    pub(crate) fn ring(&mut self, rt: &impl Wait, ring: Ring) {
        let _ = self.sender.send_as::<Free, _>(rt, &mut self.pass, ring);
    }
}

impl Listener {
    /// The oldest ring that nobody has heard, if there is one. A bell that nobody can ring any more says stop.
    pub(crate) fn look(&mut self, rt: &impl Wait) -> Option<Ring> {
        match self.receiver.try_recv_as::<Free, _>(rt, &mut self.pass) {
            Ok(ring) => Some(ring),
            Err(TryRecvError::Empty) => None,
            Err(TryRecvError::Disconnected) => Some(Ring::Stop),
        }
    }

    /// Waits for a ring: it looks for one some times, and lets other threads run in between, before it sleeps. A bell
    /// that nobody can ring any more says stop.
    pub(crate) fn hear(&mut self, rt: &impl Wait) -> Ring {
        self.heard = usize::saturating_add(self.heard, 1);
        for _ in 0..LOOKS {
            if let Some(ring) = self.look(rt) {
                return ring;
            }
            yield_now();
        }
        self.receiver
            .recv_as::<Free, _>(rt, &mut self.pass)
            .unwrap_or(Ring::Stop)
    }

    /// How often it waited for a ring.
    pub(crate) fn heard(&self) -> usize {
        self.heard
    }
}

/// Rings the bell of this number.
pub(crate) fn ring_at(rt: &impl Wait, bells: &mut [Ringer], number: usize)
    requires { number < length bells.old }
{
    let bell = &mut bells[number];
    bell.ring(rt, Ring::Look);
}
