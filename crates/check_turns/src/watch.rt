//! The judge of what crossed the links of a crossbar.
ghost use Rattle.std.specs.Prelude.{◌≡◌, ◌+◌, ◌≤◌, ◌∷◌, ◌↔◌, ℕ, List, [], length, IsTrue, IfOk, OnOk};
ghost use Rattle.tl_types.specs.declared.limits.TheConstants.{MAX_SIZE};
ghost use Rattle.check_beats.specs.Bus.{bus_bytes};
ghost use Rattle.check_flight.specs.PortSlave.{PortSlave as SeenSlave};
ghost use Rattle.check_watch.specs.Pending.{IsInLimit};
ghost use Rattle.check_watch.specs.Plan.{RoutesAt, Sighting, seen_at};
ghost use Rattle.check_watch.specs.View.{wides_in};
ghost use Rattle.check_sides.specs.Groups.{are_apart};
ghost use Rattle.check_sides.specs.Pending.{IsChange};
ghost use Rattle.check_sides.specs.Plan.{Plan, IsPlan, HasLink, IsWatched, bus_of};
ghost use Rattle.check_sides.specs.Reset.{IsReset, plan_after_reset};
ghost use Rattle.check_turns.specs.Lawful.{IsLawfulInOrder};
ghost use Rattle.check_turns.specs.View.{KeepsOrdered};

use crate::turns::Turns;
use check_beats::Bus;
use check_flight::PortSlave;
use check_memory::Slave;
use check_sides::{Beat, Change, Link, Links, Wiring};
use std::alloc::{AllocError, Global};
use std::marker::Model;
use tl_map::SourceOwners;

/// What a judge keeps of the beats so far.
#[derive(Drop)]
pub struct OrderedWatch {
    /// Of beats where they cross.
    pub(crate) beats: check_sides::Watch,
    /// Of the order of replies.
    pub(crate) turns: Turns,
}

impl Model for OrderedWatch {
    ghost use Rattle.check_turns.specs.View.{OrderedView};

    ghost Value = { OrderedView };

    ghost view = { λ w. record { layout = w.beats.layout; beats = w.beats; turns = w.turns } };
}

impl Clone for OrderedWatch {
    ghost use Rattle.std.specs.Prelude.{◌≡◌};

    ghost is_clone = { λ watch copy. copy ≡ watch };

    fn clone(&self) -> Result<OrderedWatch, AllocError> {
        Ok(OrderedWatch {
            beats: self.beats.clone()?,
            turns: self.turns.clone()?,
        })
    }
}

impl OrderedWatch {
    /// The judge of a crossbar that is wired so, before any beat. There is a slave for each port, the error port's last, as it is at
    /// reset. A port that is flagged is judged by itself if both sides are watched. If some port is, slaves are given a second
    /// time, which the ports' links have by themselves; otherwise that list is not looked at.
    pub fn new(
        alloc: Global,
        wiring: Wiring,
        slaves: Vec<PortSlave>,
        own: Vec<PortSlave>,
    ) -> Result<OrderedWatch, AllocError>
        requires slaves { length slaves.items ≡ length wiring.ports + 1 }
        requires masters { length wiring.master_buses ≡ length wiring.owners }
        requires ports { length wiring.port_buses ≡ length wiring.ports }
        requires own { IsTrue (are_apart wiring) → length own.items ≡ length wiring.ports + 1 }
        ensures layout { IfOk result (λ watch. watch.layout ≡ wiring) }
        ensures plan { IfOk result (λ watch.
            (plan : Plan) × (plan.resets ≡ slaves.items) × (plan.own ≡ own.items) × KeepsOrdered plan [] watch) }
        ensures keeps { (plan : Plan) → IsPlan plan → plan.layout ≡ wiring → plan.resets ≡ slaves.items
            → (IsTrue (are_apart wiring) → plan.own ≡ own.items) → IfOk result (KeepsOrdered plan []) }
    {
        let turns = Turns::new(alloc, &wiring.fifos)?;
        let beats = check_sides::Watch::new(alloc, wiring, slaves, own)?;
        Ok(OrderedWatch { beats, turns })
    }

    /// The judge of beats where they cross, whatever the order of replies.
    pub fn beats(&self) -> &check_sides::Watch
        ensures beats { result.now ≡ self.now.beats }
        ensures layout { result.now.layout ≡ self.now.layout }
    {
        &self.beats
    }

    /// Whether the crossbar has a link, and it is watched.
    pub fn watches(&self, link: Link) -> bool
        ensures { IsTrue result
            ↔ (HasLink self.now.layout link × IsWatched self.now.layout.links link) }
    {
        self.beats.watches(link)
    }

    /// The links that are watched.
    pub fn links(&self) -> Links
        ensures { result ≡ self.now.layout.links }
    {
        self.beats.links()
    }

    /// The wide sources of the masters.
    pub fn sources(&self) -> &SourceOwners
        ensures { result.now ≡ self.now.layout.owners }
    {
        self.beats.sources()
    }

    /// The bus of a link.
    pub fn bus(&self, link: Link) -> Bus
        requires { HasLink self.now.layout link }
        ensures { bus_bytes result ≡ bus_of self.now.layout link }
    {
        self.beats.bus(link)
    }

    /// Whether some port's link is judged by itself.
    pub fn are_apart(&self) -> bool
        ensures { result ≡ are_apart self.now.layout }
    {
        self.beats.are_apart()
    }

    /// What the next beat does to the requests in flight at the links that are judged together, if it is lawful, whatever
    /// its lanes. A beat of a port's link that is judged by itself does nothing.
    pub fn change(&self, link: Link, beat: &Beat) -> Change
        requires { HasLink self.now.layout link }
        ensures change { (plan : Plan) (past : List Sighting) (known : ℕ) (lanes : List ℕ)
            → KeepsOrdered plan past self.now → IsLawfulInOrder plan (seen_at link beat.now known lanes ∷ past)
            → IsChange plan past (seen_at link beat.now known lanes) result }
        ensures in_limit { IsInLimit (wides_in self.now.beats.shared) result }
    {
        self.beats.change(link, beat)
    }

    /// The whole system is reset. This is loaded into the slave of each port, the error port's last, as the links see it that
    /// are judged together; and `own` into those of ports' links that are judged each by itself. `None` says that a slave keeps
    /// what it has, and so does the end of `own`. Memory may be refused: then nothing is promised of what is kept from then on.
    pub fn reset(
        &mut self,
        alloc: Global,
        loaded: Vec<Option<Slave>>,
        own: Vec<Option<Slave>>,
    ) -> Result<(), AllocError>
        requires { length loaded.items ≡ length self.old.layout.ports + 1 }
        ensures layout { self.new.layout ≡ self.old.layout }
        ensures reset { (plan : Plan) (past : List Sighting) → KeepsOrdered plan past self.old → OnOk result
            ((resets : List SeenSlave) × (slaves : List SeenSlave) × IsReset plan past loaded.items own.items resets slaves
            × KeepsOrdered (plan_after_reset plan resets slaves) [] self.new) }
    {
        self.beats.reset(alloc, loaded, own)?;
        self.turns.reset();
        Ok(())
    }
}
