//! The judge of the rows of a file.
ghost use Rattle.std.specs.Prelude.{◌≡◌, ◌+◌, ◌%◌, ◌^◌, ◌<◌, ◌≤◌, ℕ, true, false, List, [], ◌∷◌, ◌++◌, Err, is_some, length, IsOk, IfOk, OnOk, OnErr, IfErr, IfSome};
ghost use Rattle.tl_text.specs.Text.{BeginsWith};
ghost use Rattle.check_beats.specs.Bus.{bus_bytes};
ghost use Rattle.check_sides.specs.Plan.{bus_of};
ghost use Rattle.check_turns.specs.View.{KeepsOrdered};
ghost use Rattle.check_rows.specs.Moment.{HasFault, IsLink, IsMoment, Takes};
ghost use Rattle.check_rows.specs.Row.{SeenRow, seen_row};
ghost use Rattle.check_unanswered.specs.View.{Holds};
ghost use Rattle.check_coverage.specs.View.{Covers};
ghost use Rattle.check_start.specs.Loads.{AreLoadsOf, SystemPlan};
ghost use Rattle.check_review.specs.Stretches.{Stretches};
ghost use Rattle.check_review.specs.Times.{waits_after};
ghost use Rattle.check_review.specs.Covered.{AppendsCoverage, HasCovered, IsCoveredBefore, IsCoveredFile};
ghost use Rattle.check_review.specs.Steps.{SameAsked, TakesRow};
ghost use Rattle.check_review.specs.View.{HasTold, Judges, TellsOn, is_asked, is_covered, is_traced, wants};
ghost use Rattle.check_review.specs.Verdict.{HasCounts, HasLeft, IsFirstUnlawful, IsLawfulFile, IsToldBefore, IsToldFile, MayWantMemory, OfUnlawful};

use crate::stop::{Ending, Refusal, Stop, stop_of};
use crate::tally::Tally;
use crate::waits::Waits;
use check_coverage::Coverage;
use check_lines::VerdictCounts;
use check_rows::{Moment, Row, RowFault};
use check_start::Loads;
use check_turns::OrderedWatch;
use check_unanswered::Pending;
use std::alloc::{AllocError, Global};
use std::marker::Model;

/// The judge of the rows of a file, which it takes in the order in which they stand there. If memory was refused, nothing
/// is promised of the text of traced replies.
#[derive(Drop)]
pub struct Judge {
    tally: Tally,
    moment: Moment,
    rows: u64,
}

impl Model for Judge {
    ghost use Rattle.check_review.specs.View.{IsJudge, JudgeView};

    ghost Value = { JudgeView };

    ghost use Rattle.check_coverage.specs.contracts.coverage.Coverage as the_coverage;
    ghost use Rattle.std.specs.Coded.{codes};

    ghost view = { λ j. record { tally = j.tally; moment = j.moment; rows = j.rows } };

    ghost coded = { Prim.hlevel (codes, the_coverage.the_row.coded) };

    ghost invariant = { λ j. IsJudge (record { tally = j.tally; moment = j.moment; rows = j.rows }) };
}

impl Judge {
    /// The judge of a capture, with a judge of beats that has seen none, and what a reset of the whole system loads; it
    /// tells replies if they are traced. If it is given the requests in flight, which are none yet, it says at the end
    /// which are left. If it is given what is covered, which is nothing yet, it counts what the rows cover. If it is given the
    /// requests that wait, which are none yet, replies have to come in time.
    pub(crate) fn new(
        watch: OrderedWatch,
        loads: Loads,
        trace: bool,
        pending: Option<Pending>,
        coverage: Option<Coverage>,
        waits: Option<Waits>,
    ) -> Judge
        requires { length loads ≡ length watch.layout.ports + 1 }
        ensures judges { (plan : SystemPlan) → KeepsOrdered plan.begins [] watch → AreLoadsOf plan loads
            → IfSome pending (Holds plan.begins []) → IfSome coverage (Covers plan.begins [] [])
            → waits ≡ waits_after plan.within plan.begins [] → Judges plan [] result }
        ensures layout { result.tally.watch.layout ≡ watch.layout }
        ensures trace { is_traced result ≡ trace }
        ensures asked { is_asked result ≡ is_some pending }
        ensures covered { is_covered result ≡ is_some coverage }
    {
        Judge {
            tally: Tally {
                watch,
                loads,
                trace,
                pending,
                coverage,
                waits,
                requests: 0,
                answered: 0,
            },
            moment: Moment::new(),
            rows: 0,
        }
    }

    /// Takes a row of the time of the moment at hand, and counts it; answers whether it is of that time. A row of a later
    /// time changes nothing, nor does one that is refused.
    fn put(&mut self, row: &Row, lanes: &[u8]) -> Result<bool, RowFault>
        requires link { IsLink row.now.link }
        requires lanes { bus_bytes row.now.bus ≤ length lanes.now }
        requires bus { row.now.is_reset ≡ false
            → bus_of self.old.tally.watch.layout row.now.link ≤ bus_bytes row.now.bus }
        ensures tally { self.new.tally ≡ self.old.tally }
        ensures was { IsMoment self.old.moment }
        ensures moment { IsMoment self.new.moment }
        ensures taken { IfOk result (λ taken. taken ≡ true
            → Takes self.old.moment (seen_row row.now lanes.now) self.new.moment) }
        ensures rows { IfOk result (λ taken. taken ≡ true → self.new.rows ≡ (self.old.rows + 1) % 2 ^ 64) }
        ensures later { IfOk result (λ taken. taken ≡ false → self.old.moment.time < row.now.time) }
        ensures left { IfOk result (λ taken. taken ≡ false → self.new ≡ self.old) }
        ensures fault { IfErr result (HasFault self.old.moment (seen_row row.now lanes.now)) }
        ensures err { OnErr result (self.new ≡ self.old) }
    {
        // asked for its clause that they are a moment, before and after
        let _rows = self.moment.len();
        let taken = self.moment.put(row, lanes)?;
        let _next = self.moment.len();
        if taken {
            self.rows = self.rows.wrapping_add(1);
        }
        Ok(taken)
    }

    /// Goes on to the moment of a row of a later time, and counts the row.
    fn begin_moment(&mut self, row: &Row, lanes: &[u8])
        requires link { IsLink row.now.link }
        requires lanes { bus_bytes row.now.bus ≤ length lanes.now }
        requires bus { row.now.is_reset ≡ false
            → bus_of self.old.tally.watch.layout row.now.link ≤ bus_bytes row.now.bus }
        requires later { self.old.moment.time < row.now.time }
        ensures { self.new ≡ record {
          tally = self.old.tally;
          moment = record { time = row.now.time; rows = seen_row row.now lanes.now ∷ [] };
          rows = (self.old.rows + 1) % 2 ^ 64;
        } }
    {
        self.moment.go_on(row, lanes);
        self.rows = self.rows.wrapping_add(1);
    }

    /// Judges the rows of the moment at hand, and goes on to that of this row.
    fn go_on(
        &mut self,
        alloc: Global,
        row: &Row,
        lanes: &[u8],
        text: &mut Vec<u8>,
    ) -> Result<(), Stop>
        requires link { IsLink row.now.link }
        requires lanes { bus_bytes row.now.bus ≤ length lanes.now }
        requires bus { row.now.is_reset ≡ false
            → bus_of self.old.tally.watch.layout row.now.link ≤ bus_bytes row.now.bus }
        requires later { self.old.moment.time < row.now.time }
        ensures same { SameAsked self.old.tally self.new.tally }
        ensures row { TakesRow (seen_row row.now lanes.now) self.old self.new text.old.items text.new.items result }
    {
        // asked for its clause that they are a moment
        let _rows = self.moment.len();
        if let Err(refusal) = self.tally.judge_moment(alloc, &self.moment, text) {
            return Err(stop_of(refusal));
        }
        self.begin_moment(row, lanes);
        Ok(())
    }

    /// Takes the next row of the file, whose lanes stand in the first places of a slice. The rows of one time are judged
    /// once a row of a later time comes, and what is told of them is appended.
    pub fn take(
        &mut self,
        alloc: Global,
        row: &Row,
        lanes: &[u8],
        text: &mut Vec<u8>,
    ) -> Result<(), Stop>
        requires link { IsLink row.now.link }
        requires lanes { bus_bytes row.now.bus ≤ length lanes.now }
        requires bus { row.now.is_reset ≡ false
            → bus_of self.old.tally.watch.layout row.now.link ≤ bus_bytes row.now.bus }
        ensures same { SameAsked self.old.tally self.new.tally }
        ensures row { TakesRow (seen_row row.now lanes.now) self.old self.new text.old.items text.new.items result }
    {
        match self.put(row, lanes) {
            Ok(true) => Ok(()),
            Ok(false) => self.go_on(alloc, row, lanes, text),
            Err(fault) => Err(Stop::Row(fault)),
        }
    }

    /// Judges the row of the moment at hand, if it is alone and nothing is told of it, and goes on to the moment of this
    /// row; answers whether it did. Nothing changes if it did not.
    fn go_on_quietly(&mut self, alloc: Global, row: &Row, lanes: &[u8]) -> Result<bool, AllocError>
        requires link { IsLink row.now.link }
        requires lanes { bus_bytes row.now.bus ≤ length lanes.now }
        requires bus { row.now.is_reset ≡ false
            → bus_of self.old.tally.watch.layout row.now.link ≤ bus_bytes row.now.bus }
        requires later { self.old.moment.time < row.now.time }
        ensures same { SameAsked self.old.tally self.new.tally }
        ensures told { (plan : SystemPlan) (file : List SeenRow) (so_far text : List ℕ) → HasTold plan file self.old so_far
            → IfOk result (λ taken. taken ≡ true
            → TellsOn plan (file ++ seen_row row.now lanes.now ∷ []) self.new so_far text text) }
        ensures left { IfOk result (λ taken. taken ≡ false → self.new ≡ self.old) }
        ensures memory { (plan : SystemPlan) (file : List SeenRow) → Judges plan file self.old
            → IfErr result (λ _. MayWantMemory (wants self.old.tally) plan file) }
    {
        // asked for its clause that they are a moment
        let _rows = self.moment.len();
        if !self.tally.pass_rows(alloc, &self.moment)? {
            return Ok(false);
        }
        self.begin_moment(row, lanes);
        Ok(true)
    }

    /// Takes the next row of the file, if that tells nothing, refuses nothing and judges one row at most; answers
    /// whether it did. Nothing changes if it did not. It costs less than [`Judge::take`], which has room for a fault. Of
    /// several rows of one time only the last is left to that.
    pub fn take_quietly(
        &mut self,
        alloc: Global,
        row: &Row,
        lanes: &[u8],
    ) -> Result<bool, AllocError>
        requires link { IsLink row.now.link }
        requires lanes { bus_bytes row.now.bus ≤ length lanes.now }
        requires bus { row.now.is_reset ≡ false
            → bus_of self.old.tally.watch.layout row.now.link ≤ bus_bytes row.now.bus }
        ensures same { SameAsked self.old.tally self.new.tally }
        ensures told { (plan : SystemPlan) (file : List SeenRow) (so_far text : List ℕ) → HasTold plan file self.old so_far
            → IfOk result (λ taken. taken ≡ true
            → TellsOn plan (file ++ seen_row row.now lanes.now ∷ []) self.new so_far text text) }
        ensures left { IfOk result (λ taken. taken ≡ false → self.new ≡ self.old) }
        ensures memory { (plan : SystemPlan) (file : List SeenRow) → Judges plan file self.old
            → IfErr result (λ _. MayWantMemory (wants self.old.tally) plan file) }
    {
        match self.put(row, lanes) {
            Ok(true) => Ok(true),
            Ok(false) => self.go_on_quietly(alloc, row, lanes),
            Err(_) => Ok(false),
        }
    }

    /// Judges the last rows, and appends what is told of them: the counts of the file and what is left of its requests,
    /// if it is lawful.
    pub fn end(&mut self, alloc: Global, text: &mut Vec<u8>) -> Result<Ending, Refusal>
        ensures lawful { (plan : SystemPlan) (file : List SeenRow) → Judges plan file self.old
            → OnOk result (IsLawfulFile plan file) }
        ensures taken { (plan : SystemPlan) (file : List SeenRow) → Judges plan file self.old
            → (result ≡ Err Refusal.Memory → ⊥) → IsLawfulFile plan file → IsOk result }
        ensures counts { (plan : SystemPlan) (file : List SeenRow) → Judges plan file self.old
            → IfOk result (λ ending. HasCounts plan file ending.counts) }
        ensures left { (plan : SystemPlan) (file : List SeenRow) → Judges plan file self.old
            → IfOk result (λ ending. HasLeft (is_asked self.old) plan file ending.left) }
        ensures fault { (plan : SystemPlan) (file : List SeenRow) → Judges plan file self.old
            → IfErr result (OfUnlawful (IsFirstUnlawful plan file)) }
        ensures told { (plan : SystemPlan) (file : List SeenRow) (so_far : List ℕ) → HasTold plan file self.old so_far
            → OnOk result ((more : List ℕ) × (text.new.items ≡ text.old.items ++ more)
            × IsToldFile (is_traced self.old) plan file (so_far ++ more)) }
        ensures fault_told { (plan : SystemPlan) (file : List SeenRow) (so_far : List ℕ)
            → HasTold plan file self.old so_far
            → IfErr result (OfUnlawful (λ found. (more : List ℕ)
            × (text.new.items ≡ text.old.items ++ more)
            × IsToldBefore (is_traced self.old) plan file (so_far ++ more) found)) }
        ensures layout { self.new.tally.watch.layout ≡ self.old.tally.watch.layout }
        ensures covered { is_covered self.new ≡ is_covered self.old }
        ensures covers { (plan : SystemPlan) (file : List SeenRow) → Judges plan file self.old
            → OnOk result (IsCoveredFile plan file self.new.tally) }
        ensures fault_covers { (plan : SystemPlan) (file : List SeenRow) → Judges plan file self.old
            → IfErr result (OfUnlawful (IsCoveredBefore plan file self.new.tally)) }
        ensures memory { (plan : SystemPlan) (file : List SeenRow) → Judges plan file self.old
            → IfErr result (λ why. why ≡ Refusal.Memory → MayWantMemory (wants self.old.tally) plan file) }
    {
        // asked for its clause that they are a moment
        let _rows = self.moment.len();
        if let Err(refusal) = self.tally.judge_moment(alloc, &self.moment, text) {
            return Err(refusal);
        }
        let counts = VerdictCounts {
            rows: self.rows,
            requests: self.tally.requests,
            answered: self.tally.answered,
        };
        Ok(Ending {
            counts,
            left: self.tally.left(),
        })
    }

    /// Appends the text of what the rows have covered that were judged, if that is asked for. If memory is refused, the text
    /// begins with what it was.
    pub fn append_coverage(&self, text: &mut Vec<u8>) -> Result<(), AllocError>
        ensures told { (plan : SystemPlan) (crossed : List SeenRow) (course : Stretches plan crossed)
            → HasCovered plan crossed course self.now.tally
            → OnOk result (AppendsCoverage (is_covered self.now) plan crossed course text.old.items text.new.items) }
        ensures err { OnErr result (BeginsWith text.old.items text.new.items) }
    {
        match &self.tally.coverage {
            Some(coverage) => coverage.append(self.tally.watch.beats(), text),
            None => Ok(()),
        }
    }
}
