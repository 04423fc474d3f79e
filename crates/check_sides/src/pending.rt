//! What a beat does to the requests in flight.
ghost use Rattle.std.specs.Prelude.{ℕ, List, ◌∷◌};
ghost use Rattle.check_watch.specs.Pending.{IsInLimit};
ghost use Rattle.check_watch.specs.Plan.{Sighting, seen_at};
ghost use Rattle.check_watch.specs.View.{wides_in};
ghost use Rattle.check_sides.specs.Lawful.{IsLawful};
ghost use Rattle.check_sides.specs.Pending.{IsChange};
ghost use Rattle.check_sides.specs.Plan.{HasLink, Plan};
ghost use Rattle.check_sides.specs.View.{Keeps};

use crate::watch::Watch;
use check_watch::{Beat, Change, Link};

impl Watch {
    /// What the next beat does to the requests in flight at the links that are judged together, if it is lawful, whatever
    /// its lanes. A beat of a port's link that is judged by itself does nothing.
    pub fn change(&self, link: Link, beat: &Beat) -> Change
        requires { HasLink self.now.layout link }
        ensures change { (plan : Plan) (past : List Sighting) (known : ℕ) (lanes : List ℕ)
            → Keeps plan past self.now → IsLawful plan (seen_at link beat.now known lanes ∷ past)
            → IsChange plan past (seen_at link beat.now known lanes) result }
        ensures in_limit { IsInLimit (wides_in self.now.shared) result }
    {
        match self.alone(link) {
            Some(_port) => Change::Nothing,
            None => self.shared.change(link, beat),
        }
    }
}
