//! Judges of the systems that files describe, before any beat.
ghost use Rattle.std.specs.Prelude.{◌≡◌, ◌≢◌, ◌<◌, ◌≤◌, ◌↔◌, ◌⊎◌, IfErr, IfNone, IfOk, IfSome, None, Some};
ghost use Rattle.check_description.specs.Description.{IsFirstFaultOf};
ghost use Rattle.check_keys.specs.declared.fault.SystemFault.TheVariants.{Memory};
ghost use Rattle.tl_c.specs.Calls.{HasDraft, HoldsDraft, HoldsJudge, IsFaultOfDraft, IsFileAnswer};
ghost use Rattle.tl_c.specs.Draft.{IsFirstFileFault, LacksNone, LacksSome};
ghost use Rattle.tl_c.specs.Judging.{AreTerms, ByTerms, IsJudgeOf, IsJudgeOfFile, links_of, order_of};
ghost use Rattle.tl_c.specs.Text.{IsWritten};

use crate::draft::Draft;
use crate::fault::{BAD_ARGUMENT, EMPTY, FULL, IMAGE_UNREADABLE, MEMORY, OK, OTHER_VERSION};
use crate::handle::{Handle, hold, is_full, take};
use crate::held::{HandleContent, HeldJudge};
use crate::system::refuse;
use crate::text::put_text;
use crate::version::VERSION;
use check_description::describe;
use check_flight::{Order, SideOrders};
use check_keys::SystemFault;
use check_review::pending_of;
use check_start::{Terms, begin};
use check_turns::Links;
use std::alloc::Global;

/// The room that a judge reserves for the line of a fault.
pub(crate) const LINE_ROOM: usize = 2048;

/// The links of a number.
fn links_of(number: u32) -> Option<Links>
    ensures { result ≡ links_of number }
{
    if number == 0 {
        Some(Links::Both)
    } else if number == 1 {
        Some(Links::Masters)
    } else if number == 2 {
        Some(Links::Ports)
    } else if number == 3 {
        Some(Links::Each)
    } else {
        None
    }
}

/// The order of a number.
fn order_of(number: u32) -> Option<Order>
    ensures { result ≡ order_of number }
{
    if number == 0 {
        Some(Order::Accept)
    } else if number == 1 {
        Some(Order::Reply)
    } else if number == 2 {
        Some(Order::Any)
    } else {
        None
    }
}

/// The terms of three numbers. A judge by calls has no limit of time.
fn terms_of(links: u32, masters: u32, ports: u32) -> Option<Terms>
    ensures links { IfSome result (λ terms. links_of links ≡ Some terms.links) }
    ensures masters { IfSome result (λ terms. order_of masters ≡ Some terms.orders.masters) }
    ensures ports { IfSome result (λ terms. order_of ports ≡ Some terms.orders.ports) }
    ensures within { IfSome result (λ terms. terms.within ≡ None) }
    ensures none { IfNone result (AreTerms links masters ports → ⊥) }
{
    let links = links_of(links)?;
    let masters = order_of(masters)?;
    let ports = order_of(ports)?;
    let orders = SideOrders { masters, ports };
    Some(Terms {
        links,
        orders,
        within: None,
    })
}

/// The judge of a draft of which no image lacks, before any beat; or the first fault of its parts.
pub(crate) fn make_judge(
    alloc: Global,
    draft: &Draft,
    terms: Terms,
) -> Result<HeldJudge, SystemFault>
    requires { LacksNone draft.now }
    ensures ok { IfOk result (IsJudgeOf terms draft.now) }
    ensures fault { IfErr result (λ fault. fault ≢ Memory → IsFirstFaultOf draft.now.parts fault) }
{
    let (parts, images) = draft.copy_parts(alloc)?;
    let system = describe(alloc, parts)?;
    let begun = begin(alloc, system, &images, terms)?;
    let pending = pending_of(alloc, &begun.watch)?;
    let text = Vec::with_capacity(alloc, LINE_ROOM)?;
    Ok(HeldJudge {
        watch: begun.watch,
        names: begun.names,
        resets: begun.resets,
        loads: begun.loads,
        numbers: begun.numbers,
        pending,
        requests: 0,
        answered: 0,
        text,
    })
}

/// The judge of the system that a file describes which names no image; or the first fault of the file.
pub(crate) fn read_judge(alloc: Global, file: &[u8], terms: Terms) -> Result<HeldJudge, SystemFault>
    ensures ok { IfOk result (IsJudgeOfFile terms file.now) }
    ensures fault { IfErr result (λ fault. fault ≢ Memory → IsFirstFileFault file.now fault) }
{
    let draft = Draft::read(alloc, file)?;
    if let Some(port) = draft.lacking() {
        return Err(SystemFault::ImageUnreadable(port));
    }
    make_judge(alloc, &draft, terms)
}

/// Makes the judge of a draft, before any beat, in an empty handle.
fn make_of(
    alloc: Global,
    judge: &mut Handle,
    draft: &Draft,
    terms: Terms,
    room: &mut [u8],
    written: &mut usize,
) -> u32
    requires { IsWritten room.old room.old written.old }
    ensures unreadable { result ≡ IMAGE_UNREADABLE ↔ LacksSome draft.now }
    ensures ok { result ≡ OK → HoldsJudge (IsJudgeOf terms draft.now) judge.new.value }
    ensures fault { MEMORY < result → IsFaultOfDraft draft.now result }
    ensures err { result ≢ OK → judge.new.value ≡ judge.old.value }
    ensures first { result ≢ OK → MEMORY ≤ result }
    ensures other { result ≢ BAD_ARGUMENT }
    ensures written { IsWritten room.old room.new written.new }
{
    if let Some(port) = draft.lacking() {
        return refuse(alloc, room, written, SystemFault::ImageUnreadable(port));
    }
    match make_judge(alloc, draft, terms) {
        Ok(made) => hold(alloc, judge, HandleContent::Judge(made)),
        Err(fault) => refuse(alloc, room, written, fault),
    }
}

/// `tlx_judge_make_at` of the header: the judge of a system, before any beat.
#[unsafe(no_mangle)]
pub extern "C" fn tlx_judge_make_at(
    alloc: Global,
    judge: &mut Handle,
    system: &mut Handle,
    links: u32,
    masters: u32,
    ports: u32,
    room: &mut [u8],
    written: &mut usize,
) -> u32
    ensures bad_argument { result ≡ BAD_ARGUMENT ↔ (AreTerms links masters ports → ⊥) }
    ensures full { result ≡ FULL ↔ (AreTerms links masters ports × (judge.old.value ≢ None)) }
    ensures empty { result ≡ EMPTY
        ↔ (AreTerms links masters ports × (judge.old.value ≡ None) × (HasDraft system.old.value → ⊥)) }
    ensures unreadable { result ≡ IMAGE_UNREADABLE
        ↔ (AreTerms links masters ports × (judge.old.value ≡ None) × HoldsDraft LacksSome system.old.value) }
    ensures ok { result ≡ OK → ByTerms links masters ports (λ terms.
        HoldsDraft (λ draft. HoldsJudge (IsJudgeOf terms draft) judge.new.value) system.old.value) }
    ensures fault { MEMORY < result → result ≢ BAD_ARGUMENT
        → HoldsDraft (λ draft. IsFaultOfDraft draft result) system.old.value }
    ensures err { result ≢ OK → judge.new.value ≡ judge.old.value }
    ensures same { system.new.value ≡ system.old.value }
    ensures first { result ≢ OK → EMPTY ≤ result }
    ensures written { IsWritten room.old room.new written.new }
{
    *written = put_text(room, b"");
    let Some(terms) = terms_of(links, masters, ports) else {
        return BAD_ARGUMENT;
    };
    if is_full(alloc, judge) {
        return FULL;
    }
    let Some(held) = take(alloc, system) else {
        return EMPTY;
    };
    let number = match &*held {
        HandleContent::Draft(draft) => make_of(alloc, judge, draft, terms, room, written),
        HandleContent::Model(_) | HandleContent::Judge(_) => EMPTY,
    };
    *system = Handle::of(held);
    number
}

/// `tlx_judge_read_at` of the header: the judge of the system that a file describes, before any beat.
#[unsafe(no_mangle)]
pub extern "C" fn tlx_judge_read_at(
    alloc: Global,
    judge: &mut Handle,
    file: &[u8],
    links: u32,
    masters: u32,
    ports: u32,
    version: u32,
    room: &mut [u8],
    written: &mut usize,
) -> u32
    ensures version { result ≡ OTHER_VERSION ↔ (version ≢ VERSION) }
    ensures bad_argument { result ≡ BAD_ARGUMENT ↔ ((version ≡ VERSION) × (AreTerms links masters ports → ⊥)) }
    ensures full { result ≡ FULL
        ↔ ((version ≡ VERSION) × AreTerms links masters ports × (judge.old.value ≢ None)) }
    ensures ok { result ≡ OK
        → ByTerms links masters ports (λ terms. HoldsJudge (IsJudgeOfFile terms file.now) judge.new.value) }
    ensures fault { IsFileAnswer file.now result }
    ensures err { result ≢ OK → judge.new.value ≡ judge.old.value }
    ensures first { result ≢ OK → FULL ≤ result }
    ensures written { IsWritten room.old room.new written.new }
{
    *written = put_text(room, b"");
    if version != VERSION {
        return OTHER_VERSION;
    }
    let Some(terms) = terms_of(links, masters, ports) else {
        return BAD_ARGUMENT;
    };
    if is_full(alloc, judge) {
        return FULL;
    }
    match read_judge(alloc, file, terms) {
        Ok(made) => hold(alloc, judge, HandleContent::Judge(made)),
        Err(fault) => refuse(alloc, room, written, fault),
    }
}
