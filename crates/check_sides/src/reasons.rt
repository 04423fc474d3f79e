//! What is known of the next beat before it is judged.
ghost use Rattle.std.specs.Prelude.{◌≡◌, List, IfNone, IfSome, true, false};
ghost use Rattle.check_watch.specs.declared.beat.Link.TheVariants.{Port};
ghost use Rattle.check_watch.specs.Lawful.{IsAllowed, IsFirstReason};
ghost use Rattle.check_watch.specs.Plan.{Sighting, seen_at};
ghost use Rattle.check_watch.specs.Scene.{begins};
ghost use Rattle.check_sides.specs.Groups.{is_alone, past_at, plan_at};
ghost use Rattle.check_sides.specs.Lawful.{scene, under_way};
ghost use Rattle.check_sides.specs.Plan.{CanCross, HasLink, Plan};
ghost use Rattle.check_sides.specs.View.{Keeps};

use crate::watch::Watch;
use check_watch::{Beat, Link, Reason};

impl Watch {
    /// Whether a beat is the first of its message at a port's link that is judged by itself.
    fn begins_alone(&self, port: usize, link: Link, beat: &Beat) -> bool
        requires here { link ≡ Port port }
        requires alone { is_alone self.now.layout link ≡ true }
        requires known { HasLink self.now.layout link }
        ensures { (plan : Plan) (past : List Sighting) → Keeps plan past self.now
            → result ≡ begins (under_way plan past link) beat.now }
    {
        self.sized();
        self.ports[port].begins(beat)
    }

    /// The first reason why a beat is not lawful at a port's link that is judged by itself.
    fn reason_alone(
        &self,
        port: usize,
        link: Link,
        beat: &Beat,
        known: u64,
        lanes: &[u8],
    ) -> Option<Reason>
        requires here { link ≡ Port port }
        requires alone { is_alone self.now.layout link ≡ true }
        requires beat { CanCross self.now.layout link lanes.now }
        ensures reason { (plan : Plan) (past : List Sighting) → Keeps plan past self.now
            → IfSome result (IsFirstReason (plan_at plan link) (past_at plan.layout link past)
            (seen_at link beat.now known lanes.now)) }
        ensures allowed { (plan : Plan) (past : List Sighting) → Keeps plan past self.now
            → IfNone result (IsAllowed (plan_at plan link) (scene plan past (seen_at link beat.now known lanes.now))
            (seen_at link beat.now known lanes.now)) }
    {
        self.sized();
        let rules = self.shared.rules();
        let map = self.shared.map();
        self.ports[port].reason(port, rules, map, beat, known, lanes)
    }

    /// The same at a link that is judged with others.
    fn reason_shared(&self, link: Link, beat: &Beat, known: u64, lanes: &[u8]) -> Option<Reason>
        requires shared { is_alone self.now.layout link ≡ false }
        requires beat { CanCross self.now.layout link lanes.now }
        ensures reason { (plan : Plan) (past : List Sighting) → Keeps plan past self.now
            → IfSome result (IsFirstReason (plan_at plan link) (past_at plan.layout link past)
            (seen_at link beat.now known lanes.now)) }
        ensures allowed { (plan : Plan) (past : List Sighting) → Keeps plan past self.now
            → IfNone result (IsAllowed (plan_at plan link) (scene plan past (seen_at link beat.now known lanes.now))
            (seen_at link beat.now known lanes.now)) }
    {
        self.shared.reason(link, beat, known, lanes)
    }

    /// Whether a beat is the first of its message at a link, lawful or not.
    pub fn begins(&self, link: Link, beat: &Beat) -> bool
        requires { HasLink self.now.layout link }
        ensures { (plan : Plan) (past : List Sighting) → Keeps plan past self.now
            → result ≡ begins (under_way plan past link) beat.now }
    {
        match self.alone(link) {
            Some(port) => self.begins_alone(port, link, beat),
            None => self.shared.begins(link, beat),
        }
    }

    /// The first reason why one beat more is not lawful, at a link that is watched; `None` if it is lawful. What is kept
    /// stays.
    pub fn reason(&self, link: Link, beat: &Beat, known: u64, lanes: &[u8]) -> Option<Reason>
        requires { CanCross self.now.layout link lanes.now }
        ensures reason { (plan : Plan) (past : List Sighting) → Keeps plan past self.now
            → IfSome result (IsFirstReason (plan_at plan link) (past_at plan.layout link past)
            (seen_at link beat.now known lanes.now)) }
        ensures allowed { (plan : Plan) (past : List Sighting) → Keeps plan past self.now
            → IfNone result (IsAllowed (plan_at plan link) (scene plan past (seen_at link beat.now known lanes.now))
            (seen_at link beat.now known lanes.now)) }
    {
        match self.alone(link) {
            Some(port) => self.reason_alone(port, link, beat, known, lanes),
            None => self.reason_shared(link, beat, known, lanes),
        }
    }
}
