//! Resets of the whole system, as a judge takes them.
ghost use Rattle.std.specs.Prelude.{◌≡◌, ◌≢◌, ◌↔◌, List, IfOk, IsTrue, OnErr, OnOk, Some, false};
ghost use Rattle.tl_c.specs.Calls.{HoldsJudge, IsJudge};
ghost use Rattle.tl_c.specs.Judging.{IsAfterReset, KeepsAtReset};
ghost use Rattle.tl_c.specs.declared.held.HeldJudge.{HeldJudge};
ghost use Rattle.tl_c.specs.declared.held.HandleContent.TheVariants as held;
ghost use Rattle.check_watch.specs.Plan.{Sighting};
ghost use Rattle.check_sides.specs.Groups.{are_apart};
ghost use Rattle.check_sides.specs.Plan.{Plan};
ghost use Rattle.check_turns.specs.View.{KeepsOrdered};

use crate::fault::{EMPTY, MEMORY, NO_LINK, OK};
use crate::handle::{Handle, take};
use crate::held::{HandleContent, HeldJudge};
use check_memory::Slave;
use std::alloc::{AllocError, Global};

/// What a reset loads into the slaves of ports' links that are judged each by itself; nothing if none is.
fn own_loads(alloc: Global, judge: &HeldJudge) -> Result<Vec<Option<Slave>>, AllocError>
    ensures { IfOk result (λ own. IsTrue (are_apart judge.now.watch.layout) → own.items ≡ judge.now.loads) }
{
    if judge.watch.are_apart() {
        judge.loads.make()
    } else {
        Ok(Vec::new(alloc))
    }
}

/// The judge goes on after a reset of the whole system. Memory may be refused: then it is as it was.
// of what is kept of the beats a copy is reset, which takes the place of it at the end
fn go_on(alloc: Global, judge: &mut HeldJudge) -> Result<(), AllocError>
    ensures reset { (plan : Plan) (past : List Sighting) → KeepsOrdered plan past judge.old.watch
        → OnOk result (IsAfterReset plan past judge.old judge.new) }
    ensures kept { OnOk result (KeepsAtReset judge.old judge.new) }
    ensures err { OnErr result (judge.new ≡ judge.old) }
{
    let loaded = judge.loads.make()?;
    let own = own_loads(alloc, judge)?;
    let mut watch = judge.watch.clone()?;
    watch.reset(alloc, loaded, own)?;
    judge.watch = watch;
    judge.pending.reset();
    Ok(())
}

/// Resets a judge, if its system has resets.
fn reset(alloc: Global, judge: &mut HeldJudge) -> u32
    ensures link { result ≡ NO_LINK ↔ (judge.old.resets ≡ false) }
    ensures reset { (plan : Plan) (past : List Sighting) → KeepsOrdered plan past judge.old.watch → result ≡ OK
        → IsAfterReset plan past judge.old judge.new }
    ensures kept { result ≡ OK → KeepsAtReset judge.old judge.new }
    ensures err { result ≢ OK → judge.new ≡ judge.old }
    ensures answers { result ≢ OK → result ≢ NO_LINK → result ≡ MEMORY }
{
    if !judge.resets {
        return NO_LINK;
    }
    match go_on(alloc, judge) {
        Ok(()) => OK,
        Err(_) => MEMORY,
    }
}

/// `tlx_judge_reset_at` of the header: the whole system is reset.
#[unsafe(no_mangle)]
pub extern "C" fn tlx_judge_reset_at(alloc: Global, judge: &mut Handle) -> u32
    ensures empty { result ≡ EMPTY ↔ (IsJudge judge.old.value → ⊥) }
    ensures link { result ≡ NO_LINK ↔ HoldsJudge (λ old. old.resets ≡ false) judge.old.value }
    ensures reset { (plan : Plan) (past : List Sighting) (j : HeldJudge) → judge.old.value ≡ Some (held.Judge j)
        → KeepsOrdered plan past j.watch → result ≡ OK → HoldsJudge (IsAfterReset plan past j) judge.new.value }
    ensures kept { result ≡ OK
        → HoldsJudge (λ old. HoldsJudge (KeepsAtReset old) judge.new.value) judge.old.value }
    ensures err { result ≢ OK → judge.new.value ≡ judge.old.value }
    ensures answers { result ≢ OK → result ≢ EMPTY → result ≢ NO_LINK → result ≡ MEMORY }
{
    let Some(mut held) = take(alloc, judge) else {
        return EMPTY;
    };
    let number = match &mut *held {
        HandleContent::Judge(held) => reset(alloc, held),
        HandleContent::Draft(_) | HandleContent::Model(_) => EMPTY,
    };
    *judge = Handle::of(held);
    number
}
