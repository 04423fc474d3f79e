//! The requests that wait for their replies.
ghost use Rattle.std.specs.Prelude.{◌≡◌, [], ◌∷◌, ℕ, List, OnOk};
ghost use Rattle.check_rows.specs.Row.{SeenRow, beats_of, row_with};
ghost use Rattle.check_sides.specs.Lawful.{IsLawful};
ghost use Rattle.check_sides.specs.Plan.{IsPlan, Plan};
ghost use Rattle.check_review.specs.Waiting.{answers_late, first_late, is_late_reply, waiting_in};

use crate::waiting::{Waiting, first_late, is_late_of, note_beat};
use check_coverage::{is_counted, wide_source_at};
use check_rows::Row;
use check_sides::Watch;
use check_turns::Beat;
use std::alloc::{AllocError, Global};
use std::marker::Model;

/// The requests that wait for their replies, and how long one may.
#[derive(Drop)]
pub struct Waits {
    /// The longest time from a request's first beat to that of its reply.
    limit: u64,
    /// The request that began first stands in front.
    requests: Vec<Waiting>,
}

impl Model for Waits {
    ghost use Rattle.check_review.specs.Waiting.{WaitsView};

    ghost Value = { WaitsView };

    ghost view = { λ w. record { limit = w.limit; requests = w.requests.items } };
}

impl Waits {
    /// No request waits.
    pub fn new(alloc: Global, limit: u64) -> Waits
        ensures { result ≡ record { limit = limit; requests = [] } }
    {
        Waits {
            limit,
            requests: Vec::new(alloc),
        }
    }

    /// A reset of the whole system: no request waits.
    pub fn reset(&mut self)
        ensures { self.new ≡ record self.old { requests = [] } }
    {
        self.requests.clear();
    }

    /// Notes a row that was judged after those before it.
    pub fn note(&mut self, watch: &Watch, row: &Row) -> Result<(), AllocError>
        ensures limit { self.new.limit ≡ self.old.limit }
        ensures noted { (plan : Plan) (rows : List SeenRow) (lanes : List ℕ) → watch.now.layout ≡ plan.layout → IsPlan plan
            → IsLawful plan (beats_of (row_with row.now lanes ∷ rows)) → self.old.requests ≡ waiting_in plan rows
            → OnOk result (self.new.requests ≡ waiting_in plan (row_with row.now lanes ∷ rows)) }
    {
        if !is_counted(watch.links(), row.link) {
            return Ok(());
        }
        match wide_source_at(watch.sources(), row.link, row.beat.source()) {
            Some(wide) => note_beat(&mut self.requests, wide, row),
            None => Ok(()),
        }
    }

    /// The first request, in the order in which they began, that has waited for more than the limit by a time.
    pub fn first_late(&self, time: u64) -> Option<Waiting>
        ensures { result ≡ first_late self.now.limit time self.now.requests }
    {
        first_late(&self.requests, self.limit, time)
    }

    /// Whether the beat of a row answers a request of a wide source that has waited for more than the limit.
    fn answers_late(&self, wide: u16, row: &Row) -> bool
        ensures { result ≡ answers_late self.now.limit row.now.time wide row.now.beat self.now.requests }
    {
        match row.beat {
            Beat::A(_) => false,
            Beat::D(_) => is_late_of(&self.requests, self.limit, row.time, wide),
        }
    }

    /// Whether a row begins a late reply, if it is lawful otherwise.
    pub fn is_late_reply(&self, watch: &Watch, row: &Row) -> bool
        ensures { (plan : Plan) (rows : List SeenRow) (lanes : List ℕ) → watch.now.layout ≡ plan.layout → IsPlan plan
            → IsLawful plan (beats_of (row_with row.now lanes ∷ rows)) → self.now.requests ≡ waiting_in plan rows
            → result ≡ is_late_reply self.now.limit plan rows (row_with row.now lanes) }
    {
        if !is_counted(watch.links(), row.link) {
            return false;
        }
        match wide_source_at(watch.sources(), row.link, row.beat.source()) {
            Some(wide) => self.answers_late(wide, row),
            None => false,
        }
    }
}
