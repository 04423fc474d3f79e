//! What a beat does to the requests in flight.
ghost use Rattle.std.specs.Prelude.{◌<◌, ◌∷◌, ℕ, List, IfSome, IfNone};
ghost use Rattle.check_watch.specs.declared.beat.Beat.TheVariants.{A, D};
ghost use Rattle.check_watch.specs.Lawful.{IsLawfulGroup};
ghost use Rattle.check_watch.specs.Pending.{IsGroupChange, IsInLimit, IsOriginAt};
ghost use Rattle.check_watch.specs.Plan.{HasLink, HasSource, Plan, Sighting, seen_at};
ghost use Rattle.check_watch.specs.View.{KeepsGroup, wides_in};

use crate::beat::{Beat, Link};
use crate::watch::GroupWatch;
use check_beats::{AskHead, ReplyHead};

/// A wide source, and the master that has it, with the master's own source.
#[derive(Debug, Clone, Copy, PartialEq, Eq)]
pub struct Origin {
    pub wide: u16,
    pub master: usize,
    pub source: u16,
}

/// What a beat does to the requests in flight on its side.
#[derive(Debug, Clone, Copy, PartialEq, Eq)]
pub enum Change {
    /// It is neither the first beat of a request nor the last of a reply.
    Nothing,
    /// A request of this source begins.
    Begins(Origin),
    /// The reply to the request of this wide source ends.
    Ends(u16),
}

impl GroupWatch {
    /// Whose a source at a link is, if the link has it.
    fn origin(&self, link: Link, source: u16) -> Option<Origin>
        ensures some { IfSome result (IsOriginAt self.now.layout link source) }
        ensures in_limit { IfSome result (λ origin. origin.wide < wides_in self.now) }
        ensures none { IfNone result (HasSource self.now.layout link source → ⊥) }
    {
        let Some(wide) = self.wide(link, source) else {
            return None;
        };
        match self.sources().owner(wide) {
            Some((master, source)) => Some(Origin {
                wide,
                master,
                source,
            }),
            None => None,
        }
    }

    /// What the next beat of a request does to the requests in flight, if it is lawful.
    fn ask_change(&self, link: Link, beat: &AskHead) -> Change
        requires { HasLink self.now.layout link }
        ensures change { (plan : Plan) (past : List Sighting) (known : ℕ) (lanes : List ℕ)
            → KeepsGroup plan past self.now → IsLawfulGroup plan (seen_at link (A beat.now) known lanes ∷ past)
            → IsGroupChange plan past (seen_at link (A beat.now) known lanes) result }
        ensures in_limit { IsInLimit (wides_in self.now) result }
    {
        if !self.link(link).begins_ask() {
            return Change::Nothing;
        }
        match self.origin(link, beat.source) {
            Some(origin) => Change::Begins(origin),
            None => Change::Nothing,
        }
    }

    /// What the next beat of a reply does to the requests in flight, if it is lawful.
    fn reply_change(&self, link: Link, beat: &ReplyHead) -> Change
        requires { HasLink self.now.layout link }
        ensures change { (plan : Plan) (past : List Sighting) (known : ℕ) (lanes : List ℕ)
            → KeepsGroup plan past self.now → IsLawfulGroup plan (seen_at link (D beat.now) known lanes ∷ past)
            → IsGroupChange plan past (seen_at link (D beat.now) known lanes) result }
        ensures in_limit { IsInLimit (wides_in self.now) result }
    {
        let under = self.link(link);
        if under.reply_fault(self.rules(), beat).is_some() || !under.ends_reply(beat) {
            return Change::Nothing;
        }
        match self.wide(link, beat.source) {
            Some(wide) => Change::Ends(wide),
            None => Change::Nothing,
        }
    }

    /// What the next beat does to the requests in flight on its side, if it is lawful, whatever its lanes.
    pub fn change(&self, link: Link, beat: &Beat) -> Change
        requires { HasLink self.now.layout link }
        ensures change { (plan : Plan) (past : List Sighting) (known : ℕ) (lanes : List ℕ)
            → KeepsGroup plan past self.now → IsLawfulGroup plan (seen_at link beat.now known lanes ∷ past)
            → IsGroupChange plan past (seen_at link beat.now known lanes) result }
        ensures in_limit { IsInLimit (wides_in self.now) result }
    {
        match beat {
            Beat::A(beat) => self.ask_change(link, beat),
            Beat::D(beat) => self.reply_change(link, beat),
        }
    }
}
