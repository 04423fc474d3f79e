//! Beats judged in the order in which they cross, and what they end, counted.
ghost use Rattle.std.specs.Prelude.{◌≡◌, ◌+◌, ◌≤◌, ℕ, ◌&&◌, not, false, true, Option, List, ◌∷◌, ◌++◌, [], All, length, reverse, is_some, IsTrue, OnOk, IfOk, IfErr, IfSome};
ghost use Rattle.check_watch.specs.Plan.{Sighting, seen_at, source_of};
ghost use Rattle.check_sides.specs.Groups.{are_apart};
ghost use Rattle.check_turns.specs.Lawful.{IsLawfulInOrder};
ghost use Rattle.check_sides.specs.Pending.{IsChange};
ghost use Rattle.check_sides.specs.Plan.{CanCross, Plan, HasLink, bus_of};
ghost use Rattle.check_turns.specs.View.{KeepsOrdered};
ghost use Rattle.check_rows.specs.Row.{SeenRow, beats_of, row_with};
ghost use Rattle.check_unanswered.specs.View.{Holds};
ghost use Rattle.check_coverage.specs.Flights.{end_of, ends_a_reply, ends_an_ask, is_counted};
ghost use Rattle.check_coverage.specs.View.{Covers};
ghost use Rattle.check_coverage.specs.Bins.{bins};
ghost use Rattle.check_coverage.specs.Mirrors.{HaveSameMirrors};
ghost use Rattle.check_bins.specs.declared.bin.Bin.{Bin};
ghost use Rattle.check_start.specs.Loads.{SystemPlan};
ghost use Rattle.check_review.specs.Count.{one_more};
ghost use Rattle.check_review.specs.Stretches.{Stretches, Earlier};
ghost use Rattle.check_review.specs.Order.{sightings_of};
ghost use Rattle.check_review.specs.Times.{late_before, waits_after};
ghost use Rattle.check_review.specs.Steps.{SameAsked, TellsRow};
ghost use Rattle.check_review.specs.Told.{AppendsTold, AppendsToldOf, IsCountedOfOwner};
ghost use Rattle.check_review.specs.View.{HasLanes, KeepsOn, Kept, KeptIn, Tallied, wants};
ghost use Rattle.check_review.specs.Verdict.{IsUnlawfulAfter, IsWhatIsLeft, MayWantAfter, MayWantAmong, OfUnlawful, StopsTelling};
ghost use Rattle.check_review.specs.Covered.{StopsCovering};

use crate::stop::{Refusal, Unlawful};
use crate::waits::Waits;
use check_coverage::{Coverage, is_counted};
use check_lines::{Breach, push_answer};
use check_memory::Slave;
use check_rows::{Moment, Row};
use check_start::Loads;
use check_turns::{Beat, Change, Ended, Link, Links, OrderedWatch, Seen, StepError};
use check_unanswered::{Left, Pending};
use std::alloc::{AllocError, Global};

/// Counts what a beat ends at a link: a whole request or a whole reply, each modulo 2^64.
pub fn count_end(links: Links, link: Link, end: Ended, requests: &mut u64, answered: &mut u64)
    ensures requests { requests.new ≡ one_more (is_counted links link && ends_an_ask end) requests.old }
    ensures answered { answered.new ≡ one_more (is_counted links link && ends_a_reply end) answered.old }
{
    if !is_counted(links, link) {
        return;
    }
    match end {
        Ended::Part => {}
        Ended::Ask => *requests = requests.wrapping_add(1),
        Ended::Reply => *answered = answered.wrapping_add(1),
    }
}

/// The judge of beats in the order in which they cross, with how many whole requests and replies it has seen. It knows
/// nothing of files: the judge of a file turns its answer into the words of the file.
#[derive(Drop)]
pub struct Tally {
    pub watch: OrderedWatch,
    /// What a reset of the whole system loads.
    pub loads: Loads,
    /// Whether replies are told.
    pub trace: bool,
    /// The requests in flight, if it is asked which are left at the end.
    pub pending: Option<Pending>,
    /// What the beats have covered, if that is asked for.
    pub coverage: Option<Coverage>,
    /// The requests that wait for their replies, if there is a limit of time.
    pub waits: Option<Waits>,
    pub requests: u64,
    pub answered: u64,
}

impl Tally {
    /// Counts what a beat ends at a link.
    fn count(&mut self, link: Link, end: Ended)
        ensures watch { self.new.watch ≡ self.old.watch }
        ensures loads { self.new.loads ≡ self.old.loads }
        ensures trace { self.new.trace ≡ self.old.trace }
        ensures pending { self.new.pending ≡ self.old.pending }
        ensures coverage { self.new.coverage ≡ self.old.coverage }
        ensures waits { self.new.waits ≡ self.old.waits }
        ensures requests { self.new.requests
            ≡ one_more (is_counted self.old.watch.layout.links link && ends_an_ask end)
            self.old.requests }
        ensures answered { self.new.answered
            ≡ one_more (is_counted self.old.watch.layout.links link && ends_a_reply end)
            self.old.answered }
    {
        let links = self.watch.links();
        count_end(links, link, end, &mut self.requests, &mut self.answered);
    }

    /// Counts what the beat of a row covers that was taken after those before it, and ended this, if that is asked for.
    fn cover(&mut self, row: &Row, end: Ended) -> Result<(), AllocError>
        requires { HasLink self.old.watch.layout row.now.link }
        ensures rest { self.new ≡ record self.old { coverage = self.new.coverage } }
        ensures covered { is_some self.new.coverage ≡ is_some self.old.coverage }
        ensures covers { (plan : Plan) (earlier : List Bin) (rows : List SeenRow) (lanes : List ℕ)
            → IfSome self.old.coverage (Covers plan earlier rows)
            → KeepsOrdered plan (beats_of (row_with row.now lanes ∷ rows)) self.old.watch
            → end ≡ end_of plan rows (row_with row.now lanes)
            → OnOk result (IfSome self.new.coverage (Covers plan earlier (row_with row.now lanes ∷ rows))) }
        ensures memory { IfErr result (λ _. is_some self.old.coverage ≡ true) }
    {
        match &mut self.coverage {
            Some(coverage) => coverage.note(self.watch.beats(), row, end),
            None => Ok(()),
        }
    }

    /// Appends what is told of a beat that ends this.
    fn tell(
        &self,
        link: Link,
        beat: &Beat,
        seen: &Seen,
        text: &mut Vec<u8>,
    ) -> Result<(), AllocError>
        ensures told { IsCountedOfOwner self.now.watch.layout.links self.now.watch.layout.owners link
            (source_of beat.now) → OnOk result (AppendsToldOf
            (self.now.trace && is_counted self.now.watch.layout.links link)
            self.now.watch.layout.owners link (source_of beat.now) seen.now
            text.old.items text.new.items) }
        ensures memory { IfErr result (λ _. self.now.trace ≡ true) }
    {
        if !self.trace || !is_counted(self.watch.links(), link) {
            return Ok(());
        }
        match seen {
            Seen::Part | Seen::WholeAsk => Ok(()),
            Seen::WholeReply(entry) => {
                push_answer(text, self.watch.sources(), link, beat.source(), entry)
            }
        }
    }

    /// Takes the beat of a row after those before it, if it is lawful, and tells nothing: whether it is. Most beats of
    /// a file are, and if nothing is told of them nobody asks for their replies.
    fn take_row(&mut self, alloc: Global, row: &Row, lanes: &[u8]) -> Result<bool, AllocError>
        requires { CanCross self.old.watch.layout row.now.link lanes.now }
        ensures same { SameAsked self.old self.new }
        ensures pending { self.new.pending ≡ self.old.pending }
        ensures waits { self.new.waits ≡ self.old.waits }
        ensures keeps { (earlier : Earlier) (plan : Plan) (before : List SeenRow) → Tallied earlier plan before self.old
            → IfOk result (λ taken. taken ≡ true
            → Tallied earlier plan (row_with row.now lanes.now ∷ before) self.new) }
        ensures refused { IfOk result (λ taken. taken ≡ false → self.new ≡ self.old) }
        ensures memory { (earlier : Earlier) (plan : Plan) (before : List SeenRow) → Tallied earlier plan before self.old
            → IfErr result (λ _. MayWantAfter (wants self.old) (record { plan = plan; rows = before })
            (row_with row.now lanes.now)) }
    {
        match self
            .watch
            .take(alloc, row.link, &row.beat, row.known, lanes)?
        {
            Some(end) => {
                self.count(row.link, end);
                // in most runs nobody asks what is covered
                if self.coverage.is_some() {
                    self.cover(row, end)?;
                }
                Ok(true)
            }
            None => Ok(false),
        }
    }

    /// Judges the beat of a row, whose link is watched, after those before it, and appends what is told of it.
    fn tell_row(
        &mut self,
        alloc: Global,
        row: &Row,
        lanes: &[u8],
        text: &mut Vec<u8>,
    ) -> Result<(), Refusal>
        requires { CanCross self.old.watch.layout row.now.link lanes.now }
        ensures same { SameAsked self.old self.new }
        ensures pending { self.new.pending ≡ self.old.pending }
        ensures waits { self.new.waits ≡ self.old.waits }
        ensures row { TellsRow (row_with row.now lanes.now) self.old self.new text.old.items text.new.items result }
    {
        let seen = match self
            .watch
            .step(alloc, row.link, &row.beat, row.known, lanes)
        {
            Ok(seen) => seen,
            Err(StepError::Unlawful(fault)) => {
                let breach = Breach::Beat(fault);
                return Err(Refusal::Unlawful(Unlawful { row: *row, breach }));
            }
            Err(StepError::Memory) => return Err(Refusal::Memory),
        };
        let end = seen.ended();
        self.count(row.link, end);
        let Ok(()) = self.cover(row, end) else {
            return Err(Refusal::Memory);
        };
        match self.tell(row.link, &row.beat, &seen, text) {
            Ok(()) => Ok(()),
            Err(_) => Err(Refusal::Memory),
        }
    }

    /// Judges the beat of a row, whose link is watched, after those before it, and appends what is told of it. Most rows
    /// are lawful, and are judged without room for a fault if nothing is told of them.
    fn step_row(
        &mut self,
        alloc: Global,
        row: &Row,
        lanes: &[u8],
        text: &mut Vec<u8>,
    ) -> Result<(), Refusal>
        requires { CanCross self.old.watch.layout row.now.link lanes.now }
        ensures same { SameAsked self.old self.new }
        ensures pending { self.new.pending ≡ self.old.pending }
        ensures waits { self.new.waits ≡ self.old.waits }
        ensures row { TellsRow (row_with row.now lanes.now) self.old self.new text.old.items text.new.items result }
    {
        if self.trace {
            return self.tell_row(alloc, row, lanes, text);
        }
        match self.take_row(alloc, row, lanes) {
            Ok(true) => Ok(()),
            // it is judged again for its fault
            Ok(false) => self.tell_row(alloc, row, lanes, text),
            Err(AllocError) => Err(Refusal::Memory),
        }
    }

    /// Whether no requests are kept: neither those in flight are asked for, nor is there a limit of time. So it is in most runs.
    fn keeps_no_requests(&self) -> bool
        ensures { result ≡ (not (is_some self.now.pending) && not (is_some self.now.waits)) }
    {
        self.pending.is_none() && self.waits.is_none()
    }

    /// What the next beat does to the requests in flight, if these are asked for.
    fn change(&self, row: &Row) -> Option<Change>
        requires { HasLink self.now.watch.layout row.now.link }
        ensures asked { is_some result ≡ is_some self.now.pending }
        ensures change { (plan : Plan) (past : List Sighting) (lanes : List ℕ) → KeepsOrdered plan past self.now.watch
            → IsLawfulInOrder plan (seen_at row.now.link row.now.beat row.now.known lanes ∷ past)
            → IfSome result (IsChange plan past (seen_at row.now.link row.now.beat row.now.known lanes)) }
    {
        match self.pending {
            Some(_) => Some(self.watch.change(row.link, &row.beat)),
            None => None,
        }
    }

    /// Notes what the beat of a row that was judged did to the requests in flight, if these are asked for.
    fn note(&mut self, change: Option<Change>, row: &Row)
        ensures layout { self.new.watch.layout ≡ self.old.watch.layout }
        ensures loads { self.new.loads ≡ self.old.loads }
        ensures trace { self.new.trace ≡ self.old.trace }
        ensures coverage { self.new.coverage ≡ self.old.coverage }
        ensures waits { self.new.waits ≡ self.old.waits }
        ensures tallied { (earlier : Earlier) (plan : Plan) (before : List SeenRow) → Tallied earlier plan before self.old
            → Tallied earlier plan before self.new }
        ensures asked { is_some self.new.pending ≡ is_some self.old.pending }
        ensures holds { (plan : Plan) (rows : List SeenRow) (lanes : List ℕ)
            → IfSome self.old.pending (Holds plan rows)
            → is_some change ≡ is_some self.old.pending
            → IfSome change (IsChange plan (beats_of rows) (seen_at row.now.link row.now.beat row.now.known lanes))
            → IfSome self.new.pending (Holds plan (row_with row.now lanes ∷ rows)) }
    {
        match (&mut self.pending, change) {
            (Some(pending), Some(change)) => pending.note(change, row),
            (Some(_), None) | (None, _) => {}
        }
    }

    /// Notes which requests wait after a row that was judged, if there is a limit of time.
    fn wait(&mut self, row: &Row) -> Result<(), AllocError>
        ensures rest { self.new ≡ record self.old { waits = self.new.waits } }
        ensures timed { is_some self.new.waits ≡ is_some self.old.waits }
        ensures waits { (within : Option ℕ) (plan : Plan) (rows : List SeenRow) (lanes : List ℕ)
            → KeepsOrdered plan (beats_of (row_with row.now lanes ∷ rows)) self.old.watch
            → self.old.waits ≡ waits_after within plan rows
            → OnOk result (self.new.waits ≡ waits_after within plan (row_with row.now lanes ∷ rows)) }
        ensures memory { IfErr result (λ _. is_some self.old.waits ≡ true) }
    {
        match &mut self.waits {
            Some(waits) => waits.note(self.watch.beats(), row),
            None => Ok(()),
        }
    }

    /// What is left of the requests when no more rows come, if that is asked for.
    pub fn left(&self) -> Option<Left>
        ensures { (plan : Plan) (rows : List SeenRow) → IfSome self.now.pending (Holds plan rows)
            → IsWhatIsLeft (is_some self.now.pending) plan rows result }
    {
        match &self.pending {
            Some(pending) => pending.left(),
            None => None,
        }
    }

    /// What a reset loads into the slaves of ports' links that are judged each by itself; nothing if none is.
    fn own_loads(&self, alloc: Global) -> Result<Vec<Option<Slave>>, AllocError>
        ensures { IfOk result (λ own. IsTrue (are_apart self.now.watch.layout) → own.items ≡ self.now.loads) }
    {
        if self.watch.are_apart() {
            self.loads.make()
        } else {
            Ok(Vec::new(alloc))
        }
    }

    /// After a reset no request is in flight, if these are asked for.
    fn reset_pending(&mut self)
        ensures rest { self.new ≡ record self.old { pending = self.new.pending } }
        ensures asked { is_some self.new.pending ≡ is_some self.old.pending }
        ensures holds { (plan later : Plan) (rows : List SeenRow) → later.layout ≡ plan.layout
            → IfSome self.old.pending (Holds plan rows) → IfSome self.new.pending (Holds later []) }
    {
        match &mut self.pending {
            Some(pending) => pending.reset(),
            None => {}
        }
    }

    /// After a reset no request waits, if there is a limit of time.
    fn reset_waits(&mut self)
        ensures rest { self.new ≡ record self.old { waits = self.new.waits } }
        ensures waits { (within : Option ℕ) (plan later : Plan) (rows : List SeenRow)
            → self.old.waits ≡ waits_after within plan rows → self.new.waits ≡ waits_after within later [] }
        ensures timed { is_some self.new.waits ≡ is_some self.old.waits }
    {
        match &mut self.waits {
            Some(waits) => waits.reset(),
            None => {}
        }
    }

    /// After a reset what was covered is kept, if it is asked for.
    fn reset_coverage(&mut self)
        ensures rest { self.new ≡ record self.old { coverage = self.new.coverage } }
        ensures covered { is_some self.new.coverage ≡ is_some self.old.coverage }
        ensures covers { (plan later : Plan) (earlier : List Bin) (rows : List SeenRow) → HaveSameMirrors plan later
            → IfSome self.old.coverage (Covers plan earlier rows)
            → IfSome self.new.coverage (Covers later (bins plan rows ++ earlier) []) }
    {
        match &mut self.coverage {
            Some(coverage) => coverage.reset(),
            None => {}
        }
    }

    /// The beats that are judged from now on are those after a reset of the whole system, by what it is said that is
    /// loaded. Memory may be refused: then nothing is promised of what is kept from then on.
    fn reset(&mut self, alloc: Global) -> Result<(), AllocError>
        requires { length self.old.loads ≡ length self.old.watch.layout.ports + 1 }
        ensures same { SameAsked self.old self.new }
        ensures keeps { (system : SystemPlan) (before : List SeenRow) (course : Stretches system before) (row : SeenRow)
            (text : List ℕ) → row.is_reset ≡ true → KeptIn system before course self.old
            → OnOk result (KeepsOn system before course (row ∷ before) self.old.trace self.new text text) }
    {
        let loaded = self.loads.make()?;
        let own = self.own_loads(alloc)?;
        self.watch.reset(alloc, loaded, own)?;
        self.reset_pending();
        self.reset_coverage();
        self.reset_waits();
        Ok(())
    }

    /// Judges the beat of a row after those before it, if its link is watched, and appends what is told of it.
    fn judge_beat(
        &mut self,
        alloc: Global,
        row: &Row,
        lanes: &[u8],
        text: &mut Vec<u8>,
    ) -> Result<(), Refusal>
        requires { bus_of self.old.watch.layout row.now.link ≤ length lanes.now }
        ensures same { SameAsked self.old self.new }
        ensures keeps { (earlier : Earlier) (plan : Plan) (before : List SeenRow) → Kept earlier plan before self.old
            → OnOk result (Kept earlier plan (row_with row.now lanes.now ∷ before) self.new) }
        ensures told { (earlier : Earlier) (plan : Plan) (before : List SeenRow) → Kept earlier plan before self.old
            → OnOk result (AppendsTold self.old.trace plan (sightings_of plan.layout before)
            (sightings_of plan.layout (row_with row.now lanes.now ∷ before)) text.old.items text.new.items) }
        ensures fault { (earlier : Earlier) (plan : Plan) (before : List SeenRow) → Kept earlier plan before self.old
            → IfErr result (OfUnlawful (IsUnlawfulAfter (record { plan = plan; rows = before })
            (row_with row.now lanes.now))) }
        ensures quiet { IfErr result (OfUnlawful (λ _. text.new.items ≡ text.old.items)) }
        ensures uncovered { IfErr result (OfUnlawful (λ _. self.new.coverage ≡ self.old.coverage)) }
        ensures memory { (earlier : Earlier) (plan : Plan) (before : List SeenRow) → Kept earlier plan before self.old
            → IfErr result (λ why. why ≡ Refusal.Memory
            → MayWantAfter (wants self.old) (record { plan = plan; rows = before }) (row_with row.now lanes.now)) }
    {
        if !self.watch.watches(row.link) {
            return Ok(());
        }
        let change = self.change(row);
        if let Err(refusal) = self.step_row(alloc, row, lanes, text) {
            return Err(refusal);
        }
        self.note(change, row);
        match self.wait(row) {
            Ok(()) => Ok(()),
            Err(AllocError) => Err(Refusal::Memory),
        }
    }

    /// Judges the beat of a row, or a reset, after the rows before it, and appends what is told of it.
    pub(crate) fn judge_row(
        &mut self,
        alloc: Global,
        row: &Row,
        lanes: &[u8],
        text: &mut Vec<u8>,
    ) -> Result<(), Refusal>
        requires lanes { row.now.is_reset ≡ false → bus_of self.old.watch.layout row.now.link ≤ length lanes.now }
        requires loads { length self.old.loads ≡ length self.old.watch.layout.ports + 1 }
        ensures same { SameAsked self.old self.new }
        ensures keeps { (system : SystemPlan) (before : List SeenRow) (course : Stretches system before)
            → KeptIn system before course self.old → OnOk result (KeepsOn system before course
            (row_with row.now lanes.now ∷ before) self.old.trace self.new text.old.items text.new.items) }
        ensures beat { IfErr result (OfUnlawful (λ _. row.now.is_reset ≡ false)) }
        ensures fault { (system : SystemPlan) (before : List SeenRow) (course : Stretches system before)
            → KeptIn system before course self.old
            → IfErr result (OfUnlawful (IsUnlawfulAfter course.now (row_with row.now lanes.now))) }
        ensures quiet { IfErr result (OfUnlawful (λ _. text.new.items ≡ text.old.items)) }
        ensures uncovered { IfErr result (OfUnlawful (λ _. self.new.coverage ≡ self.old.coverage)) }
        ensures memory { (system : SystemPlan) (before : List SeenRow) (course : Stretches system before)
            → KeptIn system before course self.old → IfErr result (λ why. why ≡ Refusal.Memory
            → MayWantAfter (wants self.old) course.now (row_with row.now lanes.now)) }
    {
        if !row.is_reset {
            return self.judge_beat(alloc, row, lanes, text);
        }
        match self.reset(alloc) {
            Ok(()) => Ok(()),
            Err(AllocError) => Err(Refusal::Memory),
        }
    }

    /// Takes the beat of a row after those before it, if it is lawful or its link is not watched, notes what it does to
    /// the requests in flight, and tells nothing: whether it did.
    fn pass_row(&mut self, alloc: Global, row: &Row, lanes: &[u8]) -> Result<bool, AllocError>
        requires { bus_of self.old.watch.layout row.now.link ≤ length lanes.now }
        ensures same { SameAsked self.old self.new }
        ensures keeps { (earlier : Earlier) (plan : Plan) (before : List SeenRow) → Kept earlier plan before self.old
            → IfOk result (λ passed. passed ≡ true
            → Kept earlier plan (row_with row.now lanes.now ∷ before) self.new) }
        ensures refused { IfOk result (λ passed. passed ≡ false → self.new ≡ self.old) }
        ensures memory { (earlier : Earlier) (plan : Plan) (before : List SeenRow) → Kept earlier plan before self.old
            → IfErr result (λ _. MayWantAfter (wants self.old) (record { plan = plan; rows = before })
            (row_with row.now lanes.now)) }
    {
        if !self.watch.watches(row.link) {
            return Ok(true);
        }
        if self.keeps_no_requests() {
            return self.take_row(alloc, row, lanes);
        }
        let change = self.change(row);
        if !self.take_row(alloc, row, lanes)? {
            return Ok(false);
        }
        self.note(change, row);
        self.wait(row)?;
        Ok(true)
    }

    /// Takes the beat of a row after the rows before it, if it is no reset, nothing is told of it, and it is lawful or its link is
    /// not watched: whether it did. Nothing changes if it did not. It costs less than [`Tally::judge_row`], which has room for a
    /// fault.
    fn pass(&mut self, alloc: Global, row: &Row, lanes: &[u8]) -> Result<bool, AllocError>
        requires { row.now.is_reset ≡ false → bus_of self.old.watch.layout row.now.link ≤ length lanes.now }
        ensures same { SameAsked self.old self.new }
        ensures keeps { (system : SystemPlan) (before : List SeenRow) (course : Stretches system before) (text : List ℕ)
            → KeptIn system before course self.old → IfOk result (λ passed. passed ≡ true
            → KeepsOn system before course (row_with row.now lanes.now ∷ before) self.old.trace self.new text text) }
        ensures refused { IfOk result (λ passed. passed ≡ false → self.new ≡ self.old) }
        ensures memory { (system : SystemPlan) (before : List SeenRow) (course : Stretches system before)
            → KeptIn system before course self.old
            → IfErr result (λ _. MayWantAfter (wants self.old) course.now (row_with row.now lanes.now)) }
    {
        if self.trace || row.is_reset {
            return Ok(false);
        }
        self.pass_row(alloc, row, lanes)
    }

    /// Takes the beats of the rows of a moment after those before them, if nothing is told of them, they are lawful, no request
    /// has waited for too long, and there is but one, and no reset: whether it did. Nothing changes if it did not.
    pub fn pass_rows(&mut self, alloc: Global, moment: &Moment) -> Result<bool, AllocError>
        requires { All (HasLanes self.old.watch.layout) moment.now.rows }
        ensures same { SameAsked self.old self.new }
        ensures keeps { (system : SystemPlan) (before : List SeenRow) (course : Stretches system before) (text : List ℕ)
            → KeptIn system before course self.old → IfOk result (λ passed. passed ≡ true
            → KeepsOn system before course (reverse moment.now.rows ++ before) self.old.trace self.new text text) }
        ensures refused { IfOk result (λ passed. passed ≡ false → self.new ≡ self.old) }
        ensures in_time { IfOk result (λ passed. passed ≡ true → late_before self.old.waits moment.now.rows ≡ None) }
        ensures memory { (system : SystemPlan) (before : List SeenRow) (course : Stretches system before)
            → KeptIn system before course self.old
            → IfErr result (λ _. MayWantAmong (wants self.old) system moment.now.rows before) }
    {
        if moment.len() != 1 || self.late_before(moment).is_some() {
            return Ok(false);
        }
        let (row, lanes) = moment.get(0);
        self.pass(alloc, row, lanes)
    }

    /// Judges the rows of a moment after those before them, in the order in which they cross, up to the first that is not
    /// lawful, and appends what is told of them.
    pub(crate) fn judge_rows(
        &mut self,
        alloc: Global,
        moment: &Moment,
        text: &mut Vec<u8>,
    ) -> Result<(), Refusal>
        requires lanes { All (HasLanes self.old.watch.layout) moment.now.rows }
        requires loads { length self.old.loads ≡ length self.old.watch.layout.ports + 1 }
        ensures same { SameAsked self.old self.new }
        ensures keeps { (system : SystemPlan) (before : List SeenRow) (course : Stretches system before)
            → KeptIn system before course self.old → OnOk result (KeepsOn system before course
            (reverse moment.now.rows ++ before) self.old.trace self.new text.old.items text.new.items) }
        ensures fault { (system : SystemPlan) (before : List SeenRow) (course : Stretches system before)
            → KeptIn system before course self.old → IfErr result (OfUnlawful (StopsTelling self.old.trace system
            moment.now.rows before course text.old.items text.new.items)) }
        ensures fault_covered { (system : SystemPlan) (before : List SeenRow) (course : Stretches system before)
            → KeptIn system before course self.old
            → IfErr result (OfUnlawful (StopsCovering system moment.now.rows before self.new)) }
        ensures memory { (system : SystemPlan) (before : List SeenRow) (course : Stretches system before)
            → KeptIn system before course self.old → IfErr result (λ why. why ≡ Refusal.Memory
            → MayWantAmong (wants self.old) system moment.now.rows before) }
    {
        for place in 0..moment.len() {
            let (row, lanes) = moment.get(place);
            match self.pass(alloc, row, lanes) {
                Ok(true) => continue,
                // it is judged again for its fault, or for what is told of it
                Ok(false) => {}
                Err(AllocError) => return Err(Refusal::Memory),
            }
            if let Err(refusal) = self.judge_row(alloc, row, lanes, text) {
                return Err(refusal);
            }
        }
        Ok(())
    }
}
