//! Copies of models and judges.
ghost use Rattle.std.specs.Prelude.{◌≡◌, ◌≢◌, ◌≤◌, ◌↔◌, IfOk, None, vec_capacity};
ghost use Rattle.tl_c.specs.Calls.{HoldsJudge, HoldsModel, IsJudge, IsModel};
ghost use Rattle.tl_c.specs.Judging.{IsCopyOf};

use crate::fault::{EMPTY, FULL, MEMORY, OK};
use crate::handle::{Handle, hold, is_full, take};
use crate::held::{HandleContent, HeldJudge, Server};
use crate::making::LINE_ROOM;
use std::alloc::{AllocError, Global};

/// Has an empty handle hold a copy of a model.
fn hold_model(alloc: Global, copy: &mut Handle, model: &Server) -> u32
    ensures ok { result ≡ OK → HoldsModel (λ new. new ≡ model.now) copy.new.value }
    ensures err { result ≢ OK → copy.new.value ≡ copy.old.value }
    ensures answers { result ≢ OK → result ≡ MEMORY }
{
    match model.clone() {
        Ok(made) => hold(alloc, copy, HandleContent::Model(made)),
        Err(_) => MEMORY,
    }
}

/// `tlx_model_clone_at` of the header: a model that goes on from where another one is.
#[unsafe(no_mangle)]
pub extern "C" fn tlx_model_clone_at(alloc: Global, model: &mut Handle, copy: &mut Handle) -> u32
    ensures full { result ≡ FULL ↔ (copy.old.value ≢ None) }
    ensures empty { result ≡ EMPTY ↔ ((copy.old.value ≡ None) × (IsModel model.old.value → ⊥)) }
    ensures ok { result ≡ OK
        → HoldsModel (λ state. HoldsModel (λ new. new ≡ state) copy.new.value) model.old.value }
    ensures same { model.new.value ≡ model.old.value }
    ensures err { result ≢ OK → copy.new.value ≡ copy.old.value }
    ensures answers { result ≢ OK → result ≢ FULL → result ≢ EMPTY → result ≡ MEMORY }
{
    if is_full(alloc, copy) {
        return FULL;
    }
    let Some(held) = take(alloc, model) else {
        return EMPTY;
    };
    let number = match &*held {
        HandleContent::Model(server) => hold_model(alloc, copy, server),
        HandleContent::Draft(_) | HandleContent::Judge(_) => EMPTY,
    };
    *model = Handle::of(held);
    number
}

/// A copy of a text, with room for the line of a fault.
fn copy_text(alloc: Global, text: &[u8]) -> Result<Vec<u8>, AllocError>
    ensures items { IfOk result (λ copy. copy.items ≡ text.now) }
    ensures room { IfOk result (λ copy. LINE_ROOM ≤ vec_capacity copy) }
{
    let mut copy = Vec::with_capacity(alloc, LINE_ROOM.max(text.len()))?;
    copy.extend_from_slice(text)?;
    Ok(copy)
}

/// A copy of a judge.
fn copy_judge(alloc: Global, judge: &HeldJudge) -> Result<HeldJudge, AllocError>
    ensures { IfOk result (IsCopyOf judge.now) }
{
    Ok(HeldJudge {
        watch: judge.watch.clone()?,
        names: judge.names.clone()?,
        resets: judge.resets,
        loads: judge.loads.clone()?,
        numbers: judge.numbers.clone()?,
        pending: judge.pending.clone()?,
        requests: judge.requests,
        answered: judge.answered,
        text: copy_text(alloc, &judge.text)?,
    })
}

/// Has an empty handle hold a copy of a judge.
fn hold_judge(alloc: Global, copy: &mut Handle, judge: &HeldJudge) -> u32
    ensures ok { result ≡ OK → HoldsJudge (IsCopyOf judge.now) copy.new.value }
    ensures err { result ≢ OK → copy.new.value ≡ copy.old.value }
    ensures answers { result ≢ OK → result ≡ MEMORY }
{
    match copy_judge(alloc, judge) {
        Ok(made) => hold(alloc, copy, HandleContent::Judge(made)),
        Err(_) => MEMORY,
    }
}

/// `tlx_judge_clone_at` of the header: a judge that goes on from where another one is.
#[unsafe(no_mangle)]
pub extern "C" fn tlx_judge_clone_at(alloc: Global, judge: &mut Handle, copy: &mut Handle) -> u32
    ensures full { result ≡ FULL ↔ (copy.old.value ≢ None) }
    ensures empty { result ≡ EMPTY ↔ ((copy.old.value ≡ None) × (IsJudge judge.old.value → ⊥)) }
    ensures ok { result ≡ OK
        → HoldsJudge (λ old. HoldsJudge (IsCopyOf old) copy.new.value) judge.old.value }
    ensures same { judge.new.value ≡ judge.old.value }
    ensures err { result ≢ OK → copy.new.value ≡ copy.old.value }
    ensures answers { result ≢ OK → result ≢ FULL → result ≢ EMPTY → result ≡ MEMORY }
{
    if is_full(alloc, copy) {
        return FULL;
    }
    let Some(held) = take(alloc, judge) else {
        return EMPTY;
    };
    let number = match &*held {
        HandleContent::Judge(held) => hold_judge(alloc, copy, held),
        HandleContent::Draft(_) | HandleContent::Model(_) => EMPTY,
    };
    *judge = Handle::of(held);
    number
}
