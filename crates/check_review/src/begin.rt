//! The judge of rows, before any.
ghost use Rattle.std.specs.Prelude.{◌≡◌, ◌+◌, [], is_some, length, IfOk, IfSome};
ghost use Rattle.check_sides.specs.Plan.{Plan};
ghost use Rattle.check_turns.specs.View.{KeepsOrdered};
ghost use Rattle.check_unanswered.specs.View.{Holds};
ghost use Rattle.check_coverage.specs.View.{Covers};
ghost use Rattle.check_start.specs.Loads.{AreLoadsOf, SystemPlan};
ghost use Rattle.check_review.specs.Times.{waits_after};
ghost use Rattle.check_review.specs.View.{Judges, is_asked, is_covered, is_traced};

use crate::judge::Judge;
use crate::waits::Waits;
use check_coverage::Coverage;
use check_start::Loads;
use check_turns::OrderedWatch;
use check_unanswered::Pending;
use std::alloc::{AllocError, Global};

/// The requests in flight of a judge that has seen no beat: none yet.
pub fn pending_of(alloc: Global, watch: &OrderedWatch) -> Result<Pending, AllocError>
    ensures { IfOk result (λ pending. (plan : Plan) → KeepsOrdered plan [] watch.now → Holds plan [] pending) }
{
    Pending::new(alloc, watch.sources())
}

/// The same, if it is asked which requests are left at the end.
fn pending_if(
    alloc: Global,
    watch: &OrderedWatch,
    asked: bool,
) -> Result<Option<Pending>, AllocError>
    ensures asked { IfOk result (λ pending. is_some pending ≡ asked) }
    ensures none_yet { IfOk result (λ pending. (plan : Plan) → KeepsOrdered plan [] watch.now
        → IfSome pending (Holds plan [])) }
{
    if asked {
        Ok(Some(pending_of(alloc, watch)?))
    } else {
        Ok(None)
    }
}

/// The requests that wait, of a judge that has seen no beat, if there is a limit of time: none yet.
fn waits_within(alloc: Global, within: Option<u64>) -> Option<Waits>
    ensures { (plan : Plan) → result ≡ waits_after within plan [] }
{
    match within {
        Some(limit) => Some(Waits::new(alloc, limit)),
        None => None,
    }
}

impl Judge {
    /// The judge of a capture, with a judge of beats that has seen none, and what a reset of the whole system loads. It tells
    /// replies if they are traced, and says at the end which requests are left if that is asked. If it is given what is
    /// covered, which is nothing yet, it counts what the rows cover. `within` is the longest time from a request's first beat
    /// to that of its reply, if there is a limit.
    pub fn before_rows(
        alloc: Global,
        watch: OrderedWatch,
        loads: Loads,
        trace: bool,
        asked: bool,
        coverage: Option<Coverage>,
        within: Option<u64>,
    ) -> Result<Judge, AllocError>
        requires { length loads ≡ length watch.layout.ports + 1 }
        ensures judges { IfOk result (λ judge. (plan : SystemPlan) → KeepsOrdered plan.begins [] watch → AreLoadsOf plan loads
            → IfSome coverage (Covers plan.begins [] []) → within ≡ plan.within → Judges plan [] judge) }
        ensures layout { IfOk result (λ judge. judge.tally.watch.layout ≡ watch.layout) }
        ensures trace { IfOk result (λ judge. is_traced judge ≡ trace) }
        ensures asked { IfOk result (λ judge. is_asked judge ≡ asked) }
        ensures covered { IfOk result (λ judge. is_covered judge ≡ is_some coverage) }
    {
        let pending = pending_if(alloc, &watch, asked)?;
        let waits = waits_within(alloc, within);
        Ok(Judge::new(watch, loads, trace, pending, coverage, waits))
    }
}
