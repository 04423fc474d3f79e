//! Judges of beats.
ghost use Rattle.std.specs.Prelude.{◌≡◌, ◌≢◌, ◌%◌, ◌^◌, ◌<◌, ◌≤◌, ◌↔◌, ◌&&◌, ◌⊎◌, ℕ, List, ◌∷◌, IsSome, None, Some, false, length, vec_capacity};
ghost use Rattle.tl_c.specs.Calls.{HoldsJudge, IsJudge};
ghost use Rattle.tl_c.specs.Judging.{IsEndOf, IsFaultOfBeat, IsLineOf, IsLineOfLeft, IsStep, KeepsAllButText, judged, shown_row};
ghost use Rattle.tl_c.specs.Text.{IsTextOf, IsWritten};
ghost use Rattle.tl_c.specs.Wire.{shown_by_struct};
ghost use Rattle.tl_c.specs.declared.held.HeldJudge.{HeldJudge};
ghost use Rattle.tl_c.specs.declared.held.HandleContent.TheVariants as held;
ghost use Rattle.check_beats.specs.Bus.{bus_bytes};
ghost use Rattle.check_watch.specs.Plan.{Sighting, seen_at};
ghost use Rattle.check_sides.specs.Pending.{IsChange};
ghost use Rattle.check_sides.specs.Plan.{HasLink, IsWatched, Plan, bus_of};
ghost use Rattle.check_turns.specs.View.{KeepsOrdered};
ghost use Rattle.check_rows.specs.Row.{SeenRow, beats_of, row_with};
ghost use Rattle.check_unanswered.specs.Began.{IsComplete};
ghost use Rattle.check_unanswered.specs.View.{Holds};
ghost use Rattle.check_coverage.specs.Flights.{ends_a_reply, ends_an_ask, is_counted};
ghost use Rattle.check_review.specs.Count.{one_more};

use crate::fault::{BAD_ARGUMENT, EMPTY, INCOMPLETE, MEMORY, NO_LINK, OK, beat_number};
use crate::handle::{Handle, take};
use crate::held::{HandleContent, HeldJudge};
use crate::text::put_text;
use crate::wire::{WireBeat, seen_in};
use check_beats::{Bus, MAX_LANES};
use check_lines::{Names, push_incomplete, push_unlawful};
use check_review::count_end;
use check_rows::{Row, number_row};
use check_turns::{Beat, Change, Ended, Fault, Link, StepError};
use check_unanswered::Left;
use std::alloc::Global;

/// Counts what a beat ends at a link.
fn count(judge: &mut HeldJudge, link: Link, end: Ended)
    ensures watch { judge.new.watch ≡ judge.old.watch }
    ensures text { judge.new.text ≡ judge.old.text }
    ensures names { judge.new.names ≡ judge.old.names }
    ensures resets { judge.new.resets ≡ judge.old.resets }
    ensures loads { judge.new.loads ≡ judge.old.loads }
    ensures numbers { judge.new.numbers ≡ judge.old.numbers }
    ensures pending { judge.new.pending ≡ judge.old.pending }
    ensures requests { judge.new.requests
        ≡ one_more (is_counted judge.old.watch.layout.links link && ends_an_ask end) judge.old.requests }
    ensures answered { judge.new.answered
        ≡ one_more (is_counted judge.old.watch.layout.links link && ends_a_reply end) judge.old.answered }
{
    let links = judge.watch.links();
    count_end(links, link, end, &mut judge.requests, &mut judge.answered);
}

/// Keeps the line of a fault. A text with room for it asks for no memory.
fn keep_line(text: &mut Vec<u8>, names: &Names, row: &Row, fault: &Fault)
    ensures line { IsLineOf names.now row.now fault.now (vec_capacity text.old) text.new.items }
    ensures room { vec_capacity text.old ≤ vec_capacity text.new }
{
    text.clear();
    if push_unlawful(text, names, row, fault).is_err() {
        text.clear();
    }
}

/// Judges the beat of a row, whose link is watched, for its fault.
fn judge_fault(alloc: Global, judge: &mut HeldJudge, row: &Row, lanes: &[u8]) -> u32
    requires beat { row.now.is_reset ≡ false }
    requires known { HasLink judge.old.watch.layout row.now.link }
    requires watched { IsWatched judge.old.watch.layout.links row.now.link }
    requires lanes { bus_of judge.old.watch.layout row.now.link ≤ length lanes.now }
    ensures step { (plan : Plan) (past : List Sighting) → KeepsOrdered plan past judge.old.watch
        → IsStep plan past (row_with row.now lanes.now).sighting judge.old result judge.new }
    ensures fault { (plan : Plan) (past : List Sighting) → KeepsOrdered plan past judge.old.watch → NO_LINK < result
        → IsFaultOfBeat plan past (row_with row.now lanes.now).sighting row.now.line row.now.time judge.old result judge.new }
    ensures pending { judge.new.pending ≡ judge.old.pending }
    ensures above { result ≢ OK → result ≢ MEMORY → NO_LINK < result }
    ensures unseen { result ≡ MEMORY → judge.new ≡ judge.old }
    ensures err { result ≢ OK → KeepsAllButText judge.old judge.new }
{
    match judge
        .watch
        .step(alloc, row.link, &row.beat, row.known, lanes)
    {
        Ok(seen) => {
            count(judge, row.link, seen.ended());
            OK
        }
        Err(StepError::Memory) => MEMORY,
        Err(StepError::Unlawful(fault)) => {
            keep_line(&mut judge.text, &judge.names, row, &fault);
            beat_number(&fault)
        }
    }
}

/// Judges the beat of a row, whose link is watched. Most are lawful, and no more is asked of them than what they end.
fn judge_beat(alloc: Global, judge: &mut HeldJudge, row: &Row, lanes: &[u8]) -> u32
    requires beat { row.now.is_reset ≡ false }
    requires known { HasLink judge.old.watch.layout row.now.link }
    requires watched { IsWatched judge.old.watch.layout.links row.now.link }
    requires lanes { bus_of judge.old.watch.layout row.now.link ≤ length lanes.now }
    ensures step { (plan : Plan) (past : List Sighting) → KeepsOrdered plan past judge.old.watch
        → IsStep plan past (row_with row.now lanes.now).sighting judge.old result judge.new }
    ensures fault { (plan : Plan) (past : List Sighting) → KeepsOrdered plan past judge.old.watch → NO_LINK < result
        → IsFaultOfBeat plan past (row_with row.now lanes.now).sighting row.now.line row.now.time judge.old result judge.new }
    ensures pending { judge.new.pending ≡ judge.old.pending }
    ensures above { result ≢ OK → result ≢ MEMORY → NO_LINK < result }
    ensures unseen { result ≡ MEMORY → judge.new ≡ judge.old }
    ensures err { result ≢ OK → KeepsAllButText judge.old judge.new }
{
    match judge
        .watch
        .take(alloc, row.link, &row.beat, row.known, lanes)
    {
        Ok(Some(end)) => {
            count(judge, row.link, end);
            OK
        }
        Ok(None) => judge_fault(alloc, judge, row, lanes),
        Err(_) => MEMORY,
    }
}

/// Notes what the beat of a row that was judged did to the requests in flight.
fn note(judge: &mut HeldJudge, change: Change, row: &Row)
    ensures watch { judge.new.watch ≡ judge.old.watch }
    ensures names { judge.new.names ≡ judge.old.names }
    ensures resets { judge.new.resets ≡ judge.old.resets }
    ensures loads { judge.new.loads ≡ judge.old.loads }
    ensures numbers { judge.new.numbers ≡ judge.old.numbers }
    ensures requests { judge.new.requests ≡ judge.old.requests }
    ensures answered { judge.new.answered ≡ judge.old.answered }
    ensures text { judge.new.text ≡ judge.old.text }
    ensures pending { (plan : Plan) (rows : List SeenRow) (lanes : List ℕ) → Holds plan rows judge.old.pending
        → IsChange plan (beats_of rows) (row_with row.now lanes).sighting change
        → Holds plan (row_with row.now lanes ∷ rows) judge.new.pending }
{
    judge.pending.note(change, row);
}

/// Judges the beat of a row, whose link is watched, and notes what it does to the requests in flight.
fn judge_row(alloc: Global, judge: &mut HeldJudge, row: &Row, lanes: &[u8]) -> u32
    requires beat { row.now.is_reset ≡ false }
    requires known { HasLink judge.old.watch.layout row.now.link }
    requires watched { IsWatched judge.old.watch.layout.links row.now.link }
    requires lanes { bus_of judge.old.watch.layout row.now.link ≤ length lanes.now }
    ensures step { (plan : Plan) (past : List Sighting) → KeepsOrdered plan past judge.old.watch
        → IsStep plan past (row_with row.now lanes.now).sighting judge.old result judge.new }
    ensures fault { (plan : Plan) (past : List Sighting) → KeepsOrdered plan past judge.old.watch → NO_LINK < result
        → IsFaultOfBeat plan past (row_with row.now lanes.now).sighting row.now.line row.now.time judge.old result judge.new }
    ensures pending { (plan : Plan) (rows : List SeenRow) → KeepsOrdered plan (beats_of rows) judge.old.watch
        → Holds plan rows judge.old.pending → result ≡ OK
        → Holds plan (row_with row.now lanes.now ∷ rows) judge.new.pending }
    ensures above { result ≢ OK → result ≢ MEMORY → NO_LINK < result }
    ensures unseen { result ≡ MEMORY → judge.new ≡ judge.old }
    ensures err { result ≢ OK → KeepsAllButText judge.old judge.new }
{
    let change = judge.watch.change(row.link, &row.beat);
    let number = judge_beat(alloc, judge, row, lanes);
    if number == OK {
        note(judge, change, row);
    }
    number
}

/// Which of the lanes of a bus are known, by the bits of all lanes.
fn known_on(bus: Bus, known: u64) -> u64
    ensures { result ≡ known % 2 ^ bus_bytes bus }
{
    known & (u64::MAX >> (MAX_LANES - bus.bytes()))
}

/// Judges one beat more, with as many lanes of its struct as the bus of its link has, and with the system's source.
fn step(alloc: Global, judge: &mut HeldJudge, link: Link, beat: Beat, wire: &WireBeat) -> u32
    ensures step { (plan : Plan) (past : List Sighting) → KeepsOrdered plan past judge.old.watch → result ≢ NO_LINK
        → IsStep plan past (judged judge.old (seen_at link beat wire.now.known wire.now.lanes))
        judge.old result judge.new }
    ensures fault { (plan : Plan) (past : List Sighting) → KeepsOrdered plan past judge.old.watch → NO_LINK < result
        → IsFaultOfBeat plan past (judged judge.old (seen_at link beat wire.now.known wire.now.lanes))
        wire.now.line wire.now.time judge.old result judge.new }
    ensures pending { (plan : Plan) (rows : List SeenRow) → KeepsOrdered plan (beats_of rows) judge.old.watch
        → Holds plan rows judge.old.pending → result ≡ OK
        → Holds plan (shown_row wire.now.line wire.now.time
        (judged judge.old (seen_at link beat wire.now.known wire.now.lanes)) ∷ rows) judge.new.pending }
    ensures link { result ≡ NO_LINK ↔ ((HasLink judge.old.watch.layout link
        × IsWatched judge.old.watch.layout.links link) → ⊥) }
    ensures first { result ≢ OK → result ≢ MEMORY → NO_LINK ≤ result }
    ensures err { result ≢ OK → KeepsAllButText judge.old judge.new }
    ensures unseen { result ≢ OK → result ≤ NO_LINK → judge.new ≡ judge.old }
{
    if !judge.watch.watches(link) {
        return NO_LINK;
    }
    let bus = judge.watch.bus(link);
    let mut row = Row {
        line: wire.line,
        time: wire.time,
        is_reset: false,
        link,
        bus,
        beat,
        known: known_on(bus, wire.known),
    };
    number_row(&judge.numbers, &mut row);
    judge_row(alloc, judge, &row, &wire.lanes[..bus.bytes()])
}

/// `tlx_judge_step_at` of the header: judges one beat more.
#[unsafe(no_mangle)]
pub extern "C" fn tlx_judge_step_at(alloc: Global, judge: &mut Handle, beat: &WireBeat) -> u32
    ensures bad_argument { result ≡ BAD_ARGUMENT ↔ (shown_by_struct beat.now ≡ None) }
    ensures empty { result ≡ EMPTY ↔ (IsSome (shown_by_struct beat.now) × (IsJudge judge.old.value → ⊥)) }
    ensures link { (j : HeldJudge) (shown : Sighting) → judge.old.value ≡ Some (held.Judge j) → shown_by_struct beat.now ≡ Some shown
        → (result ≡ NO_LINK ↔ ((HasLink j.watch.layout shown.link × IsWatched j.watch.layout.links shown.link) → ⊥)) }
    ensures step { (plan : Plan) (past : List Sighting) (j : HeldJudge) (shown : Sighting) → judge.old.value ≡ Some (held.Judge j) → shown_by_struct beat.now ≡ Some shown
        → KeepsOrdered plan past j.watch → result ≢ NO_LINK
        → HoldsJudge (IsStep plan past (judged j shown) j result) judge.new.value }
    ensures fault { (plan : Plan) (past : List Sighting) (j : HeldJudge) (shown : Sighting) → judge.old.value ≡ Some (held.Judge j) → shown_by_struct beat.now ≡ Some shown
        → KeepsOrdered plan past j.watch → NO_LINK < result
        → HoldsJudge (IsFaultOfBeat plan past (judged j shown) beat.now.line beat.now.time j result)
        judge.new.value }
    ensures pending { (plan : Plan) (rows : List SeenRow) (j : HeldJudge) (shown : Sighting)
        → judge.old.value ≡ Some (held.Judge j) → shown_by_struct beat.now ≡ Some shown → KeepsOrdered plan (beats_of rows) j.watch
        → Holds plan rows j.pending → result ≡ OK
        → HoldsJudge (λ new. Holds plan (shown_row beat.now.line beat.now.time (judged j shown) ∷ rows)
        new.pending) judge.new.value }
    ensures first { result ≢ OK → result ≢ EMPTY → result ≢ BAD_ARGUMENT → result ≢ MEMORY → NO_LINK ≤ result }
    ensures err { result ≢ OK
        → HoldsJudge (λ old. HoldsJudge (KeepsAllButText old) judge.new.value) judge.old.value
        ⊎ (judge.new.value ≡ judge.old.value) }
    ensures unseen { result ≢ OK → result ≤ NO_LINK → judge.new.value ≡ judge.old.value }
{
    let Some((link, seen)) = seen_in(beat) else {
        return BAD_ARGUMENT;
    };
    let Some(mut held) = take(alloc, judge) else {
        return EMPTY;
    };
    let number = match &mut *held {
        HandleContent::Judge(held) => step(alloc, held, link, seen, beat),
        HandleContent::Draft(_) | HandleContent::Model(_) => EMPTY,
    };
    *judge = Handle::of(held);
    number
}

/// Keeps the line of the requests that are left. A text with room for it asks for no memory.
fn keep_left(text: &mut Vec<u8>, left: &Left)
    ensures line { IsLineOfLeft left.now (vec_capacity text.old) text.new.items }
    ensures room { vec_capacity text.old ≤ vec_capacity text.new }
{
    text.clear();
    if push_incomplete(text, left).is_err() {
        text.clear();
    }
}

/// Says whether requests are left, and keeps the line of those that are.
fn end(judge: &mut HeldJudge) -> u32
    ensures complete { (plan : Plan) (rows : List SeenRow) → Holds plan rows judge.old.pending
        → result ≡ OK → IsComplete plan rows }
    ensures incomplete { (plan : Plan) (rows : List SeenRow) → Holds plan rows judge.old.pending
        → result ≡ INCOMPLETE → IsEndOf plan rows judge.old judge.new }
    ensures answers { result ≢ OK → result ≡ INCOMPLETE }
    ensures kept { KeepsAllButText judge.old judge.new }
    ensures same { result ≡ OK → judge.new ≡ judge.old }
{
    match judge.pending.left() {
        None => OK,
        Some(left) => {
            keep_left(&mut judge.text, &left);
            INCOMPLETE
        }
    }
}

/// `tlx_judge_end_at` of the header: whether requests are left when no more beats come.
#[unsafe(no_mangle)]
pub extern "C" fn tlx_judge_end_at(alloc: Global, judge: &mut Handle) -> u32
    ensures complete { (plan : Plan) (rows : List SeenRow) (j : HeldJudge) → judge.old.value ≡ Some (held.Judge j)
        → Holds plan rows j.pending → result ≡ OK → IsComplete plan rows }
    ensures incomplete { (plan : Plan) (rows : List SeenRow) (j : HeldJudge) → judge.old.value ≡ Some (held.Judge j)
        → Holds plan rows j.pending → result ≡ INCOMPLETE
        → HoldsJudge (IsEndOf plan rows j) judge.new.value }
    ensures empty { result ≡ EMPTY ↔ (IsJudge judge.old.value → ⊥) }
    ensures answers { result ≢ OK → result ≢ EMPTY → result ≡ INCOMPLETE }
    ensures kept { result ≡ INCOMPLETE
        → HoldsJudge (λ old. HoldsJudge (KeepsAllButText old) judge.new.value) judge.old.value }
    ensures same { result ≢ INCOMPLETE → judge.new.value ≡ judge.old.value }
{
    let Some(mut held) = take(alloc, judge) else {
        return EMPTY;
    };
    let number = match &mut *held {
        HandleContent::Judge(held) => end(held),
        HandleContent::Draft(_) | HandleContent::Model(_) => EMPTY,
    };
    *judge = Handle::of(held);
    number
}

/// `tlx_judge_text_at` of the header: the line of the last fault, or of the requests that are left.
#[unsafe(no_mangle)]
pub extern "C" fn tlx_judge_text_at(alloc: Global, judge: &mut Handle, room: &mut [u8]) -> usize
    ensures text { (j : HeldJudge) → judge.old.value ≡ Some (held.Judge j)
        → IsTextOf j.text.items room.old room.new result }
    ensures written { IsWritten room.old room.new result }
    ensures empty { (IsJudge judge.old.value → ⊥) → result ≡ 0 }
    ensures same { judge.new.value ≡ judge.old.value }
{
    let Some(held) = take(alloc, judge) else {
        return put_text(room, b"");
    };
    let count = match &*held {
        HandleContent::Judge(held) => put_text(room, &held.text),
        HandleContent::Draft(_) | HandleContent::Model(_) => put_text(room, b""),
    };
    *judge = Handle::of(held);
    count
}

/// `tlx_judge_requests_at` of the header: how many whole requests were seen.
#[unsafe(no_mangle)]
pub extern "C" fn tlx_judge_requests_at(alloc: Global, judge: &mut Handle) -> u64
    ensures count { (j : HeldJudge) → judge.old.value ≡ Some (held.Judge j) → result ≡ j.requests }
    ensures empty { (IsJudge judge.old.value → ⊥) → result ≡ 0 }
    ensures same { judge.new.value ≡ judge.old.value }
{
    let Some(held) = take(alloc, judge) else {
        return 0;
    };
    let count = match &*held {
        HandleContent::Judge(held) => held.requests,
        HandleContent::Draft(_) | HandleContent::Model(_) => 0,
    };
    *judge = Handle::of(held);
    count
}

/// `tlx_judge_answered_at` of the header: how many whole replies were seen.
#[unsafe(no_mangle)]
pub extern "C" fn tlx_judge_answered_at(alloc: Global, judge: &mut Handle) -> u64
    ensures count { (j : HeldJudge) → judge.old.value ≡ Some (held.Judge j) → result ≡ j.answered }
    ensures empty { (IsJudge judge.old.value → ⊥) → result ≡ 0 }
    ensures same { judge.new.value ≡ judge.old.value }
{
    let Some(held) = take(alloc, judge) else {
        return 0;
    };
    let count = match &*held {
        HandleContent::Judge(held) => held.answered,
        HandleContent::Draft(_) | HandleContent::Model(_) => 0,
    };
    *judge = Handle::of(held);
    count
}

/// `tlx_judge_free_at` of the header.
#[unsafe(no_mangle)]
pub extern "C" fn tlx_judge_free_at(alloc: Global, judge: &mut Handle)
    ensures { judge.new.value ≡ None }
{
    let _held = take(alloc, judge);
}
