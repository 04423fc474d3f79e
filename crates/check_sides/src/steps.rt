//! Steps of the judge: a beat is judged in the group of its link.
ghost use Rattle.std.specs.Prelude.{◌≡◌, List, OnErr, IfNone, IfOk, true, false};
ghost use Rattle.check_watch.specs.declared.beat.Link.TheVariants.{Port};
ghost use Rattle.check_watch.specs.Plan.{Sighting, seen_at};
ghost use Rattle.check_sides.specs.Groups.{is_alone};
ghost use Rattle.check_sides.specs.Plan.{CanCross, Plan};
ghost use Rattle.check_sides.specs.Steps.{IsStepAfter, IsTakeAfter};
ghost use Rattle.check_sides.specs.View.{Keeps};

use crate::watch::Watch;
use check_watch::{Beat, Ended, Link, Seen, StepError};
use std::alloc::{AllocError, Global};

impl Watch {
    /// Judges one beat more at a port's link that is judged by itself.
    fn step_alone(
        &mut self,
        alloc: Global,
        port: usize,
        link: Link,
        beat: &Beat,
        known: u64,
        lanes: &[u8],
    ) -> Result<Seen, StepError>
        requires here { link ≡ Port port }
        requires alone { is_alone self.old.layout link ≡ true }
        requires beat { CanCross self.old.layout link lanes.now }
        ensures judged { (plan : Plan) (past : List Sighting) → Keeps plan past self.old
            → IsStepAfter plan past (seen_at link beat.now known lanes.now) self.new result }
        ensures err { OnErr result (self.new ≡ self.old) }
        ensures layout { self.new.layout ≡ self.old.layout }
    {
        self.sized();
        let rules = self.shared.rules();
        let map = self.shared.map();
        self.ports[port].step(alloc, port, rules, map, beat, known, lanes)
    }

    /// Takes one beat more at a port's link that is judged by itself, if it is lawful: what it ends.
    fn take_alone(
        &mut self,
        alloc: Global,
        port: usize,
        link: Link,
        beat: &Beat,
        known: u64,
        lanes: &[u8],
    ) -> Result<Option<Ended>, AllocError>
        requires here { link ≡ Port port }
        requires alone { is_alone self.old.layout link ≡ true }
        requires beat { CanCross self.old.layout link lanes.now }
        ensures taken { (plan : Plan) (past : List Sighting) → Keeps plan past self.old
            → IsTakeAfter plan past (seen_at link beat.now known lanes.now) self.new result }
        ensures none { IfOk result (λ end. IfNone end (self.new ≡ self.old)) }
        ensures err { OnErr result (self.new ≡ self.old) }
        ensures layout { self.new.layout ≡ self.old.layout }
    {
        self.sized();
        let rules = self.shared.rules();
        let map = self.shared.map();
        self.ports[port].take(alloc, port, rules, map, beat, known, lanes)
    }

    /// Judges one beat more at a link that is judged with others.
    fn step_shared(
        &mut self,
        alloc: Global,
        link: Link,
        beat: &Beat,
        known: u64,
        lanes: &[u8],
    ) -> Result<Seen, StepError>
        requires shared { is_alone self.old.layout link ≡ false }
        requires beat { CanCross self.old.layout link lanes.now }
        ensures judged { (plan : Plan) (past : List Sighting) → Keeps plan past self.old
            → IsStepAfter plan past (seen_at link beat.now known lanes.now) self.new result }
        ensures err { OnErr result (self.new ≡ self.old) }
        ensures layout { self.new.layout ≡ self.old.layout }
    {
        self.shared.step(alloc, link, beat, known, lanes)
    }

    /// Takes one beat more at a link that is judged with others, if it is lawful: what it ends.
    fn take_shared(
        &mut self,
        alloc: Global,
        link: Link,
        beat: &Beat,
        known: u64,
        lanes: &[u8],
    ) -> Result<Option<Ended>, AllocError>
        requires shared { is_alone self.old.layout link ≡ false }
        requires beat { CanCross self.old.layout link lanes.now }
        ensures taken { (plan : Plan) (past : List Sighting) → Keeps plan past self.old
            → IsTakeAfter plan past (seen_at link beat.now known lanes.now) self.new result }
        ensures none { IfOk result (λ end. IfNone end (self.new ≡ self.old)) }
        ensures err { OnErr result (self.new ≡ self.old) }
        ensures layout { self.new.layout ≡ self.old.layout }
    {
        self.shared.take(alloc, link, beat, known, lanes)
    }

    /// Takes one beat more, at a link that is watched, if it is lawful: what it ends. `None` says that it is not. Then
    /// nothing changes, nor if memory is refused to a lawful one: a port's slave may need some with it, or it is the first of
    /// a source at a port's link that is judged by itself. There are as many lanes as the link's bus has, or more; those past
    /// the bus are not looked at.
    ///
    /// It costs less than [`Watch::step`], which makes the fault or the reply that a beat ends, too.
    pub fn take(
        &mut self,
        alloc: Global,
        link: Link,
        beat: &Beat,
        known: u64,
        lanes: &[u8],
    ) -> Result<Option<Ended>, AllocError>
        requires { CanCross self.old.layout link lanes.now }
        ensures taken { (plan : Plan) (past : List Sighting) → Keeps plan past self.old
            → IsTakeAfter plan past (seen_at link beat.now known lanes.now) self.new result }
        ensures none { IfOk result (λ end. IfNone end (self.new ≡ self.old)) }
        ensures err { OnErr result (self.new ≡ self.old) }
        ensures layout { self.new.layout ≡ self.old.layout }
    {
        match self.alone(link) {
            Some(port) => self.take_alone(alloc, port, link, beat, known, lanes),
            None => self.take_shared(alloc, link, beat, known, lanes),
        }
    }

    /// Judges one beat more, at a link that is watched: what it ends, or its first fault. An `Err` changes nothing, and
    /// [`StepError::Memory`] says that the beat is lawful, and that a port's slave may need memory with it, or that it is the
    /// first of a source at a port's link that is judged by itself. There are as many lanes as the link's bus has, or more; those
    /// past the bus are not looked at.
    pub fn step(
        &mut self,
        alloc: Global,
        link: Link,
        beat: &Beat,
        known: u64,
        lanes: &[u8],
    ) -> Result<Seen, StepError>
        requires { CanCross self.old.layout link lanes.now }
        ensures judged { (plan : Plan) (past : List Sighting) → Keeps plan past self.old
            → IsStepAfter plan past (seen_at link beat.now known lanes.now) self.new result }
        ensures err { OnErr result (self.new ≡ self.old) }
        ensures layout { self.new.layout ≡ self.old.layout }
    {
        match self.alone(link) {
            Some(port) => self.step_alone(alloc, port, link, beat, known, lanes),
            None => self.step_shared(alloc, link, beat, known, lanes),
        }
    }
}
