//! The rows of one time judged, if replies have to come in time.
ghost use Rattle.std.specs.Prelude.{◌≡◌, ◌+◌, ◌≤◌, ◌⊎◌, ℕ, true, false, List, ◌∷◌, ◌++◌, All, None, Option, Some, length, reverse, OnOk, IfErr};
ghost use Rattle.check_sides.specs.Plan.{CanCross, HasLink, IsWatched, Plan};
ghost use Rattle.check_watch.specs.Plan.{Sighting};
ghost use Rattle.check_turns.specs.Lawful.{IsLawfulInOrder};
ghost use Rattle.check_turns.specs.View.{KeepsOrdered};
ghost use Rattle.check_rows.specs.Moment.{IsMoment};
ghost use Rattle.check_rows.specs.Row.{SeenRow, beats_of, row_with};
ghost use Rattle.check_review.specs.Waiting.{is_late_reply};
ghost use Rattle.check_lines.specs.declared.breach.Breach.TheVariants.{NoReply};
ghost use Rattle.check_start.specs.Loads.{SystemPlan};
ghost use Rattle.check_review.specs.Covered.{StopsCovering};
ghost use Rattle.check_review.specs.Order.{is_watched, sightings_of, watched};
ghost use Rattle.check_review.specs.Steps.{SameAsked};
ghost use Rattle.check_review.specs.Stretches.{Earlier, Stretches};
ghost use Rattle.check_review.specs.Times.{IsNamedAs, late_before, waits_after};
ghost use Rattle.check_review.specs.Verdict.{IsLateAfter, IsUnlawfulAfter, MayWantAfter, MayWantAmong, OfUnlawful, StopsTelling};
ghost use Rattle.check_review.specs.View.{HasLanes, KeepsOn, KeptIn, Tallied, wants};

use crate::stop::{Refusal, Unlawful};
use crate::tally::Tally;
use crate::waiting::Waiting;
use check_lines::Breach;
use check_rows::{Moment, Row};
use check_turns::StepError;
use std::alloc::Global;

/// A request that has waited for too long, by the row with which it began.
fn unanswered(waiting: Waiting) -> Unlawful
    ensures named { IsNamedAs waiting result.row }
    ensures breach { result.breach ≡ NoReply }
{
    let row = Row {
        line: waiting.line,
        time: waiting.time,
        link: waiting.link,
        beat: waiting.beat,
        ..Row::default()
    };
    Unlawful {
        row,
        breach: Breach::NoReply,
    }
}

impl Tally {
    /// The first request that has waited for more than the limit by the time of a moment, before any of its rows; none if the
    /// moment begins with a reset.
    pub(crate) fn late_before(&self, moment: &Moment) -> Option<Waiting>
        ensures { result ≡ late_before self.now.waits moment.now.rows }
    {
        let waits = self.waits.as_ref()?;
        if moment.is_empty() {
            return None;
        }
        let (row, _) = moment.get(0);
        if row.is_reset {
            return None;
        }
        waits.first_late(row.time)
    }

    /// Whether a row begins a late reply at a link that is watched, if it is lawful otherwise.
    fn begins_late_reply(&self, row: &Row) -> bool
        ensures known { result ≡ true → HasLink self.now.watch.layout row.now.link }
        ensures watched { result ≡ true → IsWatched self.now.watch.layout.links row.now.link }
        ensures late { (limit : ℕ) (plan : Plan) (past : List Sighting) (rows : List SeenRow) (lanes : List ℕ)
            → KeepsOrdered plan past self.now.watch → is_watched plan.layout row.now.link ≡ true
            → IsLawfulInOrder plan (beats_of (row_with row.now lanes ∷ rows))
            → self.now.waits ≡ waits_after (Some limit) plan rows
            → result ≡ is_late_reply limit plan rows (row_with row.now lanes) }
    {
        if !self.watch.watches(row.link) {
            return false;
        }
        match &self.waits {
            Some(waits) => waits.is_late_reply(self.watch.beats(), row),
            None => false,
        }
    }

    /// The refusal of a row that begins a late reply if it is lawful otherwise: by another fault of its beat, if it has one.
    fn refuse_reply(&mut self, alloc: Global, row: &Row, lanes: &[u8]) -> Refusal
        requires { CanCross self.old.watch.layout row.now.link lanes.now }
        ensures same { SameAsked self.old self.new }
        ensures coverage { self.new.coverage ≡ self.old.coverage }
        ensures fault { (limit : ℕ) (earlier : Earlier) (plan : Plan) (before : List SeenRow)
            → Tallied earlier plan before self.old → earlier.system.within ≡ Some limit
            → (IsLawfulInOrder plan ((row_with row.now lanes.now).sighting ∷ sightings_of plan.layout before)
            → is_late_reply limit plan (watched plan.layout before) (row_with row.now lanes.now) ≡ true)
            → OfUnlawful (λ found. IsUnlawfulAfter (record { plan = plan; rows = before }) (row_with row.now lanes.now) found
            ⊎ IsLateAfter earlier.system.within (record { plan = plan; rows = before }) (row_with row.now lanes.now) found)
            result }
        ensures memory { (earlier : Earlier) (plan : Plan) (before : List SeenRow) → Tallied earlier plan before self.old
            → result ≡ Refusal.Memory
            → MayWantAfter (wants self.old) (record { plan = plan; rows = before }) (row_with row.now lanes.now) }
    {
        match self
            .watch
            .step(alloc, row.link, &row.beat, row.known, lanes)
        {
            Ok(_) => Refusal::Unlawful(Unlawful {
                row: *row,
                breach: Breach::LateReply,
            }),
            Err(StepError::Unlawful(fault)) => Refusal::Unlawful(Unlawful {
                row: *row,
                breach: Breach::Beat(fault),
            }),
            Err(StepError::Memory) => Refusal::Memory,
        }
    }

    /// The refusal of the rows of a moment by whose time this request, and no older one, has waited for too long: the first row that
    /// is not lawful or begins a late reply, or else that request. Appends what is told of the rows before.
    // apart from `judge_moment`, so that other moments pay for no room of a fault
    #[inline(never)]
    fn refuse_late(
        &mut self,
        alloc: Global,
        moment: &Moment,
        first: Waiting,
        text: &mut Vec<u8>,
    ) -> Refusal
        requires lanes { All (HasLanes self.old.watch.layout) moment.now.rows }
        requires loads { length self.old.loads ≡ length self.old.watch.layout.ports + 1 }
        requires moment { IsMoment moment.now }
        requires late { late_before self.old.waits moment.now.rows ≡ Some first }
        ensures same { SameAsked self.old self.new }
        ensures fault { (system : SystemPlan) (before : List SeenRow) (course : Stretches system before)
            → KeptIn system before course self.old → OfUnlawful (StopsTelling self.old.trace system
            moment.now.rows before course text.old.items text.new.items) result }
        ensures fault_covered { (system : SystemPlan) (before : List SeenRow) (course : Stretches system before)
            → KeptIn system before course self.old
            → OfUnlawful (StopsCovering system moment.now.rows before self.new) result }
        ensures memory { (system : SystemPlan) (before : List SeenRow) (course : Stretches system before)
            → KeptIn system before course self.old → result ≡ Refusal.Memory
            → MayWantAmong (wants self.old) system moment.now.rows before }
    {
        for place in 0..moment.len() {
            let (row, lanes) = moment.get(place);
            if self.begins_late_reply(row) {
                return self.refuse_reply(alloc, row, lanes);
            }
            if let Err(refusal) = self.judge_row(alloc, row, lanes, text) {
                return refusal;
            }
        }
        Refusal::Unlawful(unanswered(first))
    }

    /// Judges the rows of a moment after those before them, in the order in which they cross, up to the first that is not
    /// lawful or begins a late reply, and appends what is told of them. After them no request may have waited for too long.
    pub(crate) fn judge_moment(
        &mut self,
        alloc: Global,
        moment: &Moment,
        text: &mut Vec<u8>,
    ) -> Result<(), Refusal>
        requires lanes { All (HasLanes self.old.watch.layout) moment.now.rows }
        requires loads { length self.old.loads ≡ length self.old.watch.layout.ports + 1 }
        requires moment { IsMoment moment.now }
        ensures same { SameAsked self.old self.new }
        ensures keeps { (system : SystemPlan) (before : List SeenRow) (course : Stretches system before)
            → KeptIn system before course self.old → OnOk result (KeepsOn system before course
            (reverse moment.now.rows ++ before) self.old.trace self.new text.old.items text.new.items) }
        ensures in_time { OnOk result (late_before self.old.waits moment.now.rows ≡ None) }
        ensures fault { (system : SystemPlan) (before : List SeenRow) (course : Stretches system before)
            → KeptIn system before course self.old → IfErr result (OfUnlawful (StopsTelling self.old.trace system
            moment.now.rows before course text.old.items text.new.items)) }
        ensures fault_covered { (system : SystemPlan) (before : List SeenRow) (course : Stretches system before)
            → KeptIn system before course self.old
            → IfErr result (OfUnlawful (StopsCovering system moment.now.rows before self.new)) }
        ensures memory { (system : SystemPlan) (before : List SeenRow) (course : Stretches system before)
            → KeptIn system before course self.old → IfErr result (λ why. why ≡ Refusal.Memory
            → MayWantAmong (wants self.old) system moment.now.rows before) }
    {
        match self.late_before(moment) {
            Some(first) => Err(self.refuse_late(alloc, moment, first, text)),
            None => self.judge_rows(alloc, moment, text),
        }
    }
}
