//! Which requests and replies have begun at the links whose replies come in order.
ghost use Rattle.std.specs.Prelude.{◌≡◌, ◌↔◌, ◌==◌, ℕ, false, is_some, slice_index_or, option_map, IsTrue, IfOk};
ghost use Rattle.check_watch.specs.Fifos.{is_fifo_by};
ghost use Rattle.check_watch.specs.Plan.{is_link, link_number, side_of};
ghost use Rattle.check_watch.specs.declared.beat.Link.{Link as SeenLink};
ghost use Rattle.check_turns.specs.View.{IsFreshBy, IsNotedBy, IsTurnOf, turns_at, turns_in};

use crate::link_turns::LinkTurns;
use check_sides::is_any_set;
use check_watch::{Beat, FifoLinks, Link};
use std::alloc::{AllocError, Global};
use std::marker::Model;

/// Of each link whose replies come in order, which messages have begun there.
#[derive(Drop)]
pub struct Turns {
    masters: Vec<Option<LinkTurns>>,
    ports: Vec<Option<LinkTurns>>,
}

impl Model for Turns {
    ghost use Rattle.check_turns.specs.View.{TurnsView};

    ghost Value = { TurnsView };

    ghost view = { λ t. record { masters = t.masters.items; ports = t.ports.items } };
}

impl Clone for Turns {
    ghost use Rattle.std.specs.Prelude.{◌≡◌};

    ghost is_clone = { λ turns copy. copy ≡ turns };

    fn clone(&self) -> Result<Turns, AllocError> {
        Ok(Turns {
            masters: self.masters.clone()?,
            ports: self.ports.clone()?,
        })
    }
}

/// What is kept of a link before any beat: something if its replies come in order.
fn turns_by(alloc: Global, in_order: bool) -> Result<Option<LinkTurns>, AllocError>
    ensures { IfOk result (IsFreshBy in_order) }
{
    if in_order {
        Ok(Some(LinkTurns::new(alloc)?))
    } else {
        Ok(None)
    }
}

/// The same of the links of one side; nothing of any link if none of them has its replies in order, so that nothing is looked up then.
fn table_by(alloc: Global, flags: &[bool]) -> Result<Vec<Option<LinkTurns>>, AllocError>
    ensures { IfOk result (λ table. (number : ℕ)
        → IsFreshBy (slice_index_or flags.now number false) (turns_in table.items number)) }
{
    if !is_any_set(flags) {
        return Ok(Vec::new(alloc));
    }
    let mut table = Vec::with_capacity(alloc, flags.len())?;
    for in_order in flags {
        table.push(turns_by(alloc, *in_order)?)?;
    }
    Ok(table)
}

/// A message begins at a link of this side with a beat.
fn note_in(table: &mut [Option<LinkTurns>], number: usize, beat: &Beat)
    ensures { (other : ℕ)
        → IsNotedBy (number == other) beat.now (turns_in table.old other) (turns_in table.new other) }
{
    if number >= table.len() {
        return;
    }
    match &mut table[number] {
        Some(turns) => turns.note(beat),
        None => {}
    }
}

/// A link is reset, whose replies come in order or not.
fn reset_link(turns: &mut Option<LinkTurns>)
    ensures { IsFreshBy (is_some turns.old) turns.new }
{
    match turns {
        Some(turns) => turns.reset(),
        None => {}
    }
}

/// All links of one side are reset.
fn reset_table(table: &mut [Option<LinkTurns>])
    ensures { (number : ℕ) → IsFreshBy (is_some (turns_in table.old number)) (turns_in table.new number) }
{
    for number in 0..table.len() {
        reset_link(&mut table[number]);
    }
}

impl Turns {
    /// No message has begun.
    pub fn new(alloc: Global, fifos: &FifoLinks) -> Result<Turns, AllocError>
        ensures { IfOk result (λ turns. (link : SeenLink) → IsFreshBy (is_fifo_by fifos.now link) (turns_at turns link)) }
    {
        Ok(Turns {
            masters: table_by(alloc, fifos.masters())?,
            ports: table_by(alloc, fifos.ports())?,
        })
    }

    /// What has begun at a link whose replies come in order.
    fn at(&self, link: Link) -> Option<&LinkTurns>
        ensures { option_map (λ turns. turns.now) result ≡ turns_at self.now link }
    {
        let (table, number) = match link {
            Link::Master(number) => (&self.masters, number),
            Link::Port(number) => (&self.ports, number),
        };
        match table.get(number) {
            Some(Some(turns)) => Some(turns),
            Some(None) | None => None,
        }
    }

    /// Whether replies of a link come in order.
    pub fn has(&self, link: Link) -> bool
        ensures { result ≡ is_some (turns_at self.now link) }
    {
        self.at(link).is_some()
    }

    /// Whether a reply to a source is the one whose turn it is at a link; always if replies come in any order there.
    pub fn is_turn_of(&self, link: Link, source: u16) -> bool
        ensures { IsTrue result ↔ IsTurnOf (turns_at self.now link) source }
    {
        match self.at(link) {
            Some(turns) => turns.is_turn_of(source),
            None => true,
        }
    }

    /// A message begins at a link with a beat.
    pub fn note(&mut self, link: Link, beat: &Beat)
        ensures { (other : SeenLink) → IsNotedBy (is_link link (side_of other) (link_number other)) beat.now
            (turns_at self.old other) (turns_at self.new other) }
    {
        match link {
            Link::Master(number) => note_in(&mut self.masters, number, beat),
            Link::Port(number) => note_in(&mut self.ports, number, beat),
        }
    }

    /// All links are reset: no message has begun.
    pub fn reset(&mut self)
        ensures { (link : SeenLink) → IsFreshBy (is_some (turns_at self.old link)) (turns_at self.new link) }
    {
        reset_table(&mut self.masters);
        reset_table(&mut self.ports);
    }
}
