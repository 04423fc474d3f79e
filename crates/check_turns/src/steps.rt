//! Steps of the judge: a beat is judged in its turn, where it crosses, and then it is taken.
ghost use Rattle.std.specs.Prelude.{◌≡◌, ◌<◌, ◌∷◌, ◌↔◌, ◌&&◌, ℕ, List, OnErr, IfNone, IfSome, IfOk, IsTrue};
ghost use Rattle.check_watch.specs.Faults.{reason_rank};
ghost use Rattle.check_watch.specs.Plan.{Sighting, is_fifo, seen_at};
ghost use Rattle.check_sides.specs.Plan.{CanCross, HasLink, Plan};
ghost use Rattle.check_turns.specs.Lawful.{IsFirstFaultInOrder};
ghost use Rattle.check_turns.specs.Steps.{IsStepInOrder, IsTakeInOrder};
ghost use Rattle.check_turns.specs.Turns.{IsInTurn, begins_after};
ghost use Rattle.check_turns.specs.View.{KeepsOrdered, KeepsTurns};

use crate::watch::OrderedWatch;
use check_sides::{Beat, Ended, Fault, Link, Reason, Seen, StepError};
use check_watch::fault_of;
use std::alloc::{AllocError, Global};

/// Whether a reason why a beat is not lawful is tried before the order of replies.
fn is_tried_before(reason: Reason) -> bool
    ensures { IsTrue result ↔ (reason_rank reason < 14) }
{
    match reason {
        Reason::Form(_)
        | Reason::NoSuchSource
        | Reason::SourceBusy
        | Reason::WrongPort
        | Reason::NoRequest
        | Reason::EarlyReply => true,
        Reason::OutOfOrder
        | Reason::WrongSize
        | Reason::WrongOpcode
        | Reason::UnknownData
        | Reason::NotSent
        | Reason::NotGiven
        | Reason::WrongReply => false,
    }
}

impl OrderedWatch {
    /// Whether a beat is the first of its message at a link whose replies come in order.
    fn takes_turn(&self, link: Link, beat: &Beat) -> bool
        requires { HasLink self.now.layout link }
        ensures { (plan : Plan) (past : List Sighting) (known : ℕ) (lanes : List ℕ) → KeepsOrdered plan past self.now
            → result ≡ (is_fifo plan.layout link && begins_after plan past (seen_at link beat.now known lanes)) }
    {
        self.turns.has(link) && self.beats.begins(link, beat)
    }

    /// Whether a beat that takes its turn is in turn.
    fn is_in_turn(&self, link: Link, beat: &Beat, takes_turn: bool) -> bool
        ensures { (plan : Plan) (past : List Sighting) (known : ℕ) (lanes : List ℕ) → KeepsOrdered plan past self.now
            → takes_turn ≡ (is_fifo plan.layout link && begins_after plan past (seen_at link beat.now known lanes))
            → IsTrue result ↔ IsInTurn plan past (seen_at link beat.now known lanes) }
    {
        match beat {
            Beat::A(_) => true,
            Beat::D(beat) => !takes_turn || self.turns.is_turn_of(link, beat.source),
        }
    }

    /// The first fault of a beat that begins a reply out of turn.
    // apart from `step`, so that other beats pay for no room of a fault
    #[inline(never)]
    fn turn_fault(&self, link: Link, beat: &Beat, known: u64, lanes: &[u8]) -> Fault
        requires { CanCross self.now.layout link lanes.now }
        ensures { (plan : Plan) (past : List Sighting) → KeepsOrdered plan past self.now
            → (IsInTurn plan past (seen_at link beat.now known lanes.now) → ⊥)
            → IsFirstFaultInOrder plan past (seen_at link beat.now known lanes.now) result }
    {
        match self.beats.reason(link, beat, known, lanes) {
            Some(reason) => {
                if is_tried_before(reason) {
                    fault_of(reason)
                } else {
                    Fault::OutOfOrder
                }
            }
            None => Fault::OutOfOrder,
        }
    }

    /// Notes a message that begins with a beat which is lawful.
    fn note(&mut self, link: Link, beat: &Beat, takes_turn: bool)
        ensures layout { self.new.layout ≡ self.old.layout }
        ensures beats { self.new.beats ≡ self.old.beats }
        ensures turns { (plan : Plan) (past : List Sighting) (known : ℕ) (lanes : List ℕ)
            → KeepsTurns plan past self.old.turns
            → takes_turn ≡ (is_fifo plan.layout link && begins_after plan past (seen_at link beat.now known lanes))
            → IsInTurn plan past (seen_at link beat.now known lanes)
            → KeepsTurns plan (seen_at link beat.now known lanes ∷ past) self.new.turns }
    {
        if takes_turn {
            self.turns.note(link, beat);
        }
    }

    /// Takes one beat more, at a link that is watched, if it is lawful: what it ends. `None` says that it is not. Then
    /// nothing changes, nor if memory is refused to a lawful one: a port's slave may need some with it, or it is the first of
    /// a source at a port's link that is judged by itself. There are as many lanes as the link's bus has, or more; those past
    /// the bus are not looked at.
    ///
    /// It costs less than [`OrderedWatch::step`], which makes the fault or the reply that a beat ends, too.
    pub fn take(
        &mut self,
        alloc: Global,
        link: Link,
        beat: &Beat,
        known: u64,
        lanes: &[u8],
    ) -> Result<Option<Ended>, AllocError>
        requires { CanCross self.old.layout link lanes.now }
        ensures taken { (plan : Plan) (past : List Sighting) → KeepsOrdered plan past self.old
            → IsTakeInOrder plan past (seen_at link beat.now known lanes.now) self.new result }
        ensures none { IfOk result (λ end. IfNone end (self.new ≡ self.old)) }
        ensures err { OnErr result (self.new ≡ self.old) }
        ensures layout { self.new.layout ≡ self.old.layout }
    {
        let takes_turn = self.takes_turn(link, beat);
        if !self.is_in_turn(link, beat, takes_turn) {
            return Ok(None);
        }
        let ended = match self.beats.take(alloc, link, beat, known, lanes) {
            Ok(ended) => ended,
            Err(refused) => return Err(refused),
        };
        if ended.is_some() {
            self.note(link, beat, takes_turn);
        }
        Ok(ended)
    }

    /// Judges one beat more, at a link that is watched: what it ends, or its first fault. An `Err` changes nothing, and
    /// [`StepError::Memory`] says that the beat is lawful, and that a port's slave may need memory with it, or that it is the
    /// first of a source at a port's link that is judged by itself. There are as many lanes as the link's bus has, or more; those
    /// past the bus are not looked at.
    pub fn step(
        &mut self,
        alloc: Global,
        link: Link,
        beat: &Beat,
        known: u64,
        lanes: &[u8],
    ) -> Result<Seen, StepError>
        requires { CanCross self.old.layout link lanes.now }
        ensures judged { (plan : Plan) (past : List Sighting) → KeepsOrdered plan past self.old
            → IsStepInOrder plan past (seen_at link beat.now known lanes.now) self.new result }
        ensures err { OnErr result (self.new ≡ self.old) }
        ensures layout { self.new.layout ≡ self.old.layout }
    {
        let takes_turn = self.takes_turn(link, beat);
        if !self.is_in_turn(link, beat, takes_turn) {
            return Err(StepError::Unlawful(self.turn_fault(link, beat, known, lanes)));
        }
        let seen = match self.beats.step(alloc, link, beat, known, lanes) {
            Ok(seen) => seen,
            Err(refused) => return Err(refused),
        };
        self.note(link, beat, takes_turn);
        Ok(seen)
    }
}
