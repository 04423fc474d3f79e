//! The requests in flight.
ghost use Rattle.std.specs.Prelude.{◌≡◌, [], ◌∷◌, ℕ, List, None, length, map, slice_set, IfNone, IfOk, IfSome};
ghost use Rattle.check_rows.specs.Row.{SeenRow, beats_of, row_with};
ghost use Rattle.check_sides.specs.Pending.{IsChange};
ghost use Rattle.check_sides.specs.Plan.{Plan};
ghost use Rattle.check_unanswered.specs.Began.{IsComplete, IsLeft};
ghost use Rattle.check_unanswered.specs.Table.{open_at};
ghost use Rattle.check_unanswered.specs.View.{Holds, with_open};
ghost use Rattle.check_watch.specs.Plan.{side_of};

use crate::left::left_in;
use check_rows::{Began, Left, Open, Row};
use check_watch::{Change, Link};
use std::alloc::{AllocError, Global};
use std::marker::Model;
use tl_map::SourceOwners;

/// The requests in flight at the links that are judged together, each with the row of its first beat.
#[derive(Drop)]
pub struct Pending {
    /// Of each wide source, at the masters' links.
    masters: Vec<Option<Open>>,
    /// The same at the ports' links.
    ports: Vec<Option<Open>>,
    /// How many rows were judged, modulo 2^64.
    taken: u64,
}

impl Model for Pending {
    ghost use Rattle.check_unanswered.specs.View.{PendingView};

    ghost Value = { PendingView };

    ghost view = { λ p. record { masters = p.masters.items; ports = p.ports.items; taken = p.taken } };
}

impl Clone for Pending {
    ghost use Rattle.std.specs.Prelude.{◌≡◌};

    ghost is_clone = { λ pending copy. copy ≡ pending };

    fn clone(&self) -> Result<Pending, AllocError> {
        Ok(Pending {
            masters: self.masters.clone()?,
            ports: self.ports.clone()?,
            taken: self.taken,
        })
    }
}

/// Nothing in flight of so many wide sources.
fn fresh_table(alloc: Global, count: usize) -> Result<Vec<Option<Open>>, AllocError>
    ensures counted { IfOk result (λ table. length table.items ≡ count) }
    ensures fresh { IfOk result (λ table. (wide : ℕ) → open_at table.items wide ≡ None) }
{
    let mut table = Vec::with_capacity(alloc, count)?;
    for _wide in 0..count {
        table.push(None)?;
    }
    Ok(table)
}

/// Nothing is in flight any more of the wide sources of a table.
fn clear_table(table: &mut [Option<Open>])
    ensures { table.new ≡ map (λ _. None) table.old }
{
    for ask in table.iter_mut() {
        *ask = None;
    }
}

/// Sets what is in flight of a wide source that has a place.
fn put(table: &mut Vec<Option<Open>>, wide: u16, ask: Option<Open>)
    ensures { table.new.items ≡ slice_set table.old.items wide ask }
{
    let place = wide as usize;
    if place < table.len() {
        table[place] = ask;
    }
}

impl Pending {
    /// Nothing is in flight, and no row was judged, of a crossbar with these sources.
    pub fn new(alloc: Global, sources: &SourceOwners) -> Result<Pending, AllocError>
        ensures { IfOk result (λ pending. (plan : Plan) → plan.layout.owners ≡ sources.now → Holds plan [] pending) }
    {
        let wides = sources.wides();
        Ok(Pending {
            masters: fresh_table(alloc, wides)?,
            ports: fresh_table(alloc, wides)?,
            taken: 0,
        })
    }

    /// A reset of the whole system: nothing is in flight. Rows are counted from there, and the judge may go on by another plan
    /// of the same layout.
    pub fn reset(&mut self)
        ensures { (plan later : Plan) (rows : List SeenRow) → later.layout ≡ plan.layout → Holds plan rows self.old
            → Holds later [] self.new }
    {
        clear_table(&mut self.masters);
        clear_table(&mut self.ports);
        self.taken = 0;
    }

    /// Sets what is in flight of a wide source, on the side that a link is on.
    fn set(&mut self, link: Link, wide: u16, ask: Option<Open>)
        ensures { self.new ≡ with_open self.old (side_of link) wide ask }
    {
        match link {
            Link::Master(_) => put(&mut self.masters, wide, ask),
            Link::Port(_) => put(&mut self.ports, wide, ask),
        }
    }

    /// Notes what the beat of a row that was judged did to the requests in flight.
    pub fn note(&mut self, change: Change, row: &Row)
        ensures { (plan : Plan) (rows : List SeenRow) (lanes : List ℕ) → Holds plan rows self.old
            → IsChange plan (beats_of rows) (row_with row.now lanes).sighting change
            → Holds plan (row_with row.now lanes ∷ rows) self.new }
    {
        let link = row.link;
        let began = Began {
            line: row.line,
            time: row.time,
            beat: row.beat,
            place: self.taken,
        };
        self.taken = self.taken.wrapping_add(1);
        match change {
            Change::Nothing => {}
            Change::Begins(origin) => self.set(link, origin.wide, Some(Open { began, origin })),
            Change::Ends(wide) => self.set(link, wide, None),
        }
    }

    /// What is left when no more rows come: `None` if no request is in flight.
    pub fn left(&self) -> Option<Left>
        ensures complete { (plan : Plan) (rows : List SeenRow) → Holds plan rows self.now
            → IfNone result (IsComplete plan rows) }
        ensures left { (plan : Plan) (rows : List SeenRow) → Holds plan rows self.now
            → IfSome result (IsLeft plan rows) }
    {
        match left_in(&self.masters) {
            Some(left) => Some(left),
            None => left_in(&self.ports),
        }
    }
}
