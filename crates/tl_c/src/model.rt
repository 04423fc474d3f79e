//! Models of crossbars.
ghost use Rattle.std.specs.Prelude.{◌≡◌, ◌≢◌, ◌<◌, ◌≤◌, ◌↔◌, ◌⊎◌, ℕ, IfErr, IfOk, None, Some, drop, false, length};
ghost use Rattle.check_description.specs.Description.{IsFirstFaultOf};
ghost use Rattle.check_keys.specs.declared.fault.SystemFault.TheVariants.{Memory};
ghost use Rattle.check_model.specs.Bytes.{IsNowhere, IsPoked};
ghost use Rattle.check_model.specs.Model.{ModelState, after_reset};
ghost use Rattle.tl_c.specs.Calls.{HasDraft, HoldsDraft, HoldsModel, IsFaultOfDraft, IsModel, IsModelOf, IsRefusedBy, IsServedBy, TellsByte, TellsDevice, byte_by};
ghost use Rattle.tl_c.specs.Draft.{LacksNone, LacksSome};
ghost use Rattle.tl_c.specs.Text.{IsWritten};
ghost use Rattle.tl_c.specs.Wire.{IsTooLarge, NamesNone};
ghost use Rattle.tl_c.specs.declared.held.HandleContent.TheVariants.{Model};

use crate::draft::Draft;
use crate::fault::{
    BAD_ARGUMENT, DEVICE, EMPTY, FULL, IMAGE_UNREADABLE, MEMORY, NO_BYTE, NO_LINK, NO_OPERATION,
    OK, SIZE, byte_number, serve_number,
};
use crate::handle::{Handle, hold, is_full, take};
use crate::held::{HandleContent, Server};
use crate::system::refuse;
use crate::text::put_text;
use crate::wire::{WireAnswer, WireAsk, put_answer, read_ask};
use check_description::describe;
use check_flight::Answer;
use check_keys::SystemFault;
use check_model::SystemModel;
use std::alloc::Global;
use tl_types::Ask;

/// The model of the system that the parts of a draft make, before any request; or the first fault of the parts.
fn make_model(alloc: Global, draft: &Draft) -> Result<Server, SystemFault>
    requires { LacksNone draft.now }
    ensures ok { IfOk result (IsModelOf draft.now) }
    ensures fault { IfErr result (λ fault. fault ≢ Memory → IsFirstFaultOf draft.now.parts fault) }
{
    let (parts, images) = draft.copy_parts(alloc)?;
    let system = describe(alloc, parts)?;
    let crossbar = SystemModel::new(alloc, system, &images)?;
    Ok(Server {
        crossbar,
        ask: Ask::blank(),
        answer: Answer::blank(),
    })
}

/// Makes the model of a draft, before any request, in an empty handle.
fn make_of(
    alloc: Global,
    model: &mut Handle,
    draft: &Draft,
    room: &mut [u8],
    written: &mut usize,
) -> u32
    requires { IsWritten room.old room.old written.old }
    ensures unreadable { result ≡ IMAGE_UNREADABLE ↔ LacksSome draft.now }
    ensures ok { result ≡ OK → HoldsModel (IsModelOf draft.now) model.new.value }
    ensures fault { MEMORY < result → IsFaultOfDraft draft.now result }
    ensures err { result ≢ OK → model.new.value ≡ model.old.value }
    ensures first { result ≢ OK → MEMORY ≤ result }
    ensures written { IsWritten room.old room.new written.new }
{
    if let Some(port) = draft.lacking() {
        return refuse(alloc, room, written, SystemFault::ImageUnreadable(port));
    }
    match make_model(alloc, draft) {
        Ok(made) => hold(alloc, model, HandleContent::Model(made)),
        Err(fault) => refuse(alloc, room, written, fault),
    }
}

/// `tlx_model_make_at` of the header: the model of a system, before any request.
#[unsafe(no_mangle)]
pub extern "C" fn tlx_model_make_at(
    alloc: Global,
    model: &mut Handle,
    system: &mut Handle,
    room: &mut [u8],
    written: &mut usize,
) -> u32
    ensures full { result ≡ FULL ↔ (model.old.value ≢ None) }
    ensures empty { result ≡ EMPTY ↔ ((model.old.value ≡ None) × (HasDraft system.old.value → ⊥)) }
    ensures unreadable { result ≡ IMAGE_UNREADABLE
        ↔ ((model.old.value ≡ None) × HoldsDraft LacksSome system.old.value) }
    ensures ok { result ≡ OK → HoldsDraft (λ draft. HoldsModel (IsModelOf draft) model.new.value) system.old.value }
    ensures fault { MEMORY < result → HoldsDraft (λ draft. IsFaultOfDraft draft result) system.old.value }
    ensures err { result ≢ OK → model.new.value ≡ model.old.value }
    ensures same { system.new.value ≡ system.old.value }
    ensures first { result ≢ OK → EMPTY ≤ result }
    ensures written { IsWritten room.old room.new written.new }
{
    *written = put_text(room, b"");
    if is_full(alloc, model) {
        return FULL;
    }
    let Some(held) = take(alloc, system) else {
        return EMPTY;
    };
    let number = match &*held {
        HandleContent::Draft(draft) => make_of(alloc, model, draft, room, written),
        HandleContent::Model(_) | HandleContent::Judge(_) => EMPTY,
    };
    *system = Handle::of(held);
    number
}

/// Serves a request of a master.
fn serve(
    alloc: Global,
    model: &mut Server,
    master: usize,
    wire: &WireAsk,
    answer: &mut WireAnswer,
) -> u32
    ensures no_operation { result ≡ NO_OPERATION ↔ NamesNone wire.now }
    ensures size { result ≡ SIZE ↔ IsTooLarge wire.now }
    ensures served { (result ≡ OK) ⊎ (result ≡ DEVICE)
        → IsServedBy model.old master wire.now result answer.new model.new }
    ensures fault { result ≢ OK → result ≢ DEVICE → result ≢ NO_OPERATION → result ≢ SIZE
        → IsRefusedBy model.old master wire.now result }
    ensures some { result ≢ OK → MEMORY ≤ result }
    ensures err { result ≢ OK → result ≢ DEVICE → model.new ≡ model.old }
    ensures quiet { result ≢ OK → result ≢ DEVICE → answer.new ≡ answer.old }
    ensures behind { drop answer.new.count answer.new.bytes ≡ drop answer.new.count answer.old.bytes }
    ensures known_behind { drop answer.new.count answer.new.known ≡ drop answer.new.count answer.old.known }
{
    let read = read_ask(wire, &mut model.ask);
    if read != OK {
        return read;
    }
    let (ask, given) = (&model.ask, &mut model.answer);
    if let Err(fault) = model.crossbar.serve(alloc, master, ask, given) {
        return serve_number(fault);
    }
    put_answer(answer, given);
    if given.reply.denied().is_some() {
        OK
    } else {
        DEVICE
    }
}

/// `tlx_model_serve_at` of the header: what a request of a master is answered.
#[unsafe(no_mangle)]
pub extern "C" fn tlx_model_serve_at(
    alloc: Global,
    model: &mut Handle,
    master: usize,
    ask: &WireAsk,
    answer: &mut WireAnswer,
) -> u32
    ensures empty { result ≡ EMPTY ↔ (IsModel model.old.value → ⊥) }
    ensures no_operation { result ≡ NO_OPERATION ↔ (IsModel model.old.value × NamesNone ask.now) }
    ensures size { result ≡ SIZE ↔ (IsModel model.old.value × IsTooLarge ask.now) }
    ensures served { (result ≡ OK) ⊎ (result ≡ DEVICE) → HoldsModel (λ old.
        HoldsModel (IsServedBy old master ask.now result answer.new) model.new.value) model.old.value }
    ensures fault { result ≢ OK → result ≢ DEVICE → result ≢ EMPTY → result ≢ NO_OPERATION → result ≢ SIZE
        → HoldsModel (λ old. IsRefusedBy old master ask.now result) model.old.value }
    ensures err { result ≢ OK → result ≢ DEVICE → model.new.value ≡ model.old.value }
    ensures quiet { result ≢ OK → result ≢ DEVICE → answer.new ≡ answer.old }
    ensures behind { drop answer.new.count answer.new.bytes ≡ drop answer.new.count answer.old.bytes }
    ensures known_behind { drop answer.new.count answer.new.known ≡ drop answer.new.count answer.old.known }
{
    let Some(mut held) = take(alloc, model) else {
        return EMPTY;
    };
    let number = match &mut *held {
        HandleContent::Model(server) => serve(alloc, server, master, ask, answer),
        HandleContent::Draft(_) | HandleContent::Judge(_) => EMPTY,
    };
    *model = Handle::of(held);
    number
}

/// What is seen of the byte at an address.
fn peek(model: &Server, address: u64, byte: &mut u8, known: &mut u32) -> u32
    ensures nowhere { result ≡ NO_BYTE ↔ IsNowhere model.now address }
    ensures shown { TellsByte model.now address result byte.new known.new }
    ensures some { result ≢ OK → MEMORY ≤ result }
    ensures quiet { result ≢ OK → byte.new ≡ byte.old }
    ensures known_quiet { result ≢ OK → known.new ≡ known.old }
{
    match model.crossbar.peek(address) {
        Ok(seen) => {
            *byte = seen.unwrap_or(0);
            *known = seen.is_some() as u32;
            OK
        }
        Err(fault) => byte_number(fault),
    }
}

/// `tlx_model_peek_at` of the header: the byte at an address.
#[unsafe(no_mangle)]
pub extern "C" fn tlx_model_peek_at(
    alloc: Global,
    model: &mut Handle,
    address: u64,
    byte: &mut u8,
    known: &mut u32,
) -> u32
    ensures empty { result ≡ EMPTY ↔ (IsModel model.old.value → ⊥) }
    ensures nowhere { result ≡ NO_BYTE ↔ HoldsModel (λ state. IsNowhere state address) model.old.value }
    ensures shown { result ≢ EMPTY
        → HoldsModel (λ state. TellsByte state address result byte.new known.new) model.old.value }
    ensures same { model.new.value ≡ model.old.value }
    ensures quiet { result ≢ OK → byte.new ≡ byte.old }
    ensures known_quiet { result ≢ OK → known.new ≡ known.old }
{
    let Some(held) = take(alloc, model) else {
        return EMPTY;
    };
    let number = match &*held {
        HandleContent::Model(server) => peek(server, address, byte, known),
        HandleContent::Draft(_) | HandleContent::Judge(_) => EMPTY,
    };
    *model = Handle::of(held);
    number
}

/// A byte, if it is known.
fn byte_by(byte: u8, known: u32) -> Option<u8>
    ensures { result ≡ byte_by byte known }
{
    if known == 0 { None } else { Some(byte) }
}

/// Puts a byte at an address.
fn poke(alloc: Global, model: &mut Server, address: u64, byte: Option<u8>) -> u32
    ensures nowhere { result ≡ NO_BYTE ↔ IsNowhere model.old address }
    ensures device { TellsDevice model.old address result }
    ensures poked { result ≡ OK → IsPoked model.old address byte model.new }
    ensures some { result ≢ OK → MEMORY ≤ result }
    ensures other { result ≢ BAD_ARGUMENT }
    ensures err { result ≢ OK → model.new ≡ model.old }
{
    if let Err(fault) = model.crossbar.poke(alloc, address, byte) {
        return byte_number(fault);
    }
    OK
}

/// `tlx_model_poke_at` of the header: puts a byte at an address.
#[unsafe(no_mangle)]
pub extern "C" fn tlx_model_poke_at(
    alloc: Global,
    model: &mut Handle,
    address: u64,
    byte: u8,
    known: u32,
) -> u32
    ensures bad_argument { result ≡ BAD_ARGUMENT ↔ 1 < known }
    ensures empty { result ≡ EMPTY ↔ ((known ≤ 1) × (IsModel model.old.value → ⊥)) }
    ensures nowhere { result ≡ NO_BYTE
        ↔ ((known ≤ 1) × HoldsModel (λ state. IsNowhere state address) model.old.value) }
    ensures device { known ≤ 1 → result ≢ EMPTY
        → HoldsModel (λ state. TellsDevice state address result) model.old.value }
    ensures poked { result ≡ OK → HoldsModel (λ old.
        HoldsModel (IsPoked old address (byte_by byte known)) model.new.value) model.old.value }
    ensures err { result ≢ OK → model.new.value ≡ model.old.value }
{
    if known > 1 {
        return BAD_ARGUMENT;
    }
    let Some(mut held) = take(alloc, model) else {
        return EMPTY;
    };
    let number = match &mut *held {
        HandleContent::Model(server) => poke(alloc, server, address, byte_by(byte, known)),
        HandleContent::Draft(_) | HandleContent::Judge(_) => EMPTY,
    };
    *model = Handle::of(held);
    number
}

/// Resets a model, if its system has resets.
fn reset(model: &mut Server) -> u32
    ensures link { result ≡ NO_LINK ↔ (model.old.resets ≡ false) }
    ensures reset { result ≡ OK → model.new ≡ after_reset model.old }
    ensures err { result ≢ OK → model.new ≡ model.old }
    ensures answers { result ≢ OK → result ≢ NO_LINK → result ≡ MEMORY }
{
    if !model.crossbar.has_resets() {
        return NO_LINK;
    }
    match model.crossbar.reset() {
        Ok(()) => OK,
        Err(_) => MEMORY,
    }
}

/// `tlx_model_reset_at` of the header: the whole system is reset.
#[unsafe(no_mangle)]
pub extern "C" fn tlx_model_reset_at(alloc: Global, model: &mut Handle) -> u32
    ensures empty { result ≡ EMPTY ↔ (IsModel model.old.value → ⊥) }
    ensures link { result ≡ NO_LINK ↔ HoldsModel (λ old. old.resets ≡ false) model.old.value }
    ensures reset { result ≡ OK
        → HoldsModel (λ old. HoldsModel (λ new. new ≡ after_reset old) model.new.value) model.old.value }
    ensures err { result ≢ OK → model.new.value ≡ model.old.value }
    ensures answers { result ≢ OK → result ≢ EMPTY → result ≢ NO_LINK → result ≡ MEMORY }
{
    let Some(mut held) = take(alloc, model) else {
        return EMPTY;
    };
    let number = match &mut *held {
        HandleContent::Model(server) => reset(server),
        HandleContent::Draft(_) | HandleContent::Judge(_) => EMPTY,
    };
    *model = Handle::of(held);
    number
}

/// `tlx_model_masters_at` of the header: how many masters there are.
#[unsafe(no_mangle)]
pub extern "C" fn tlx_model_masters_at(alloc: Global, model: &mut Handle) -> usize
    ensures count { (state : ModelState) → model.old.value ≡ Some (Model state) → result ≡ length state.layout.owners }
    ensures empty { (IsModel model.old.value → ⊥) → result ≡ 0 }
    ensures same { model.new.value ≡ model.old.value }
{
    let Some(held) = take(alloc, model) else {
        return 0;
    };
    let count = match &*held {
        HandleContent::Model(server) => server.crossbar.masters(),
        HandleContent::Draft(_) | HandleContent::Judge(_) => 0,
    };
    *model = Handle::of(held);
    count
}

/// `tlx_model_ports_at` of the header: how many ports there are, the error port among them.
#[unsafe(no_mangle)]
pub extern "C" fn tlx_model_ports_at(alloc: Global, model: &mut Handle) -> usize
    ensures count { (state : ModelState) → model.old.value ≡ Some (Model state) → result ≡ length state.ports }
    ensures empty { (IsModel model.old.value → ⊥) → result ≡ 0 }
    ensures same { model.new.value ≡ model.old.value }
{
    let Some(held) = take(alloc, model) else {
        return 0;
    };
    let count = match &*held {
        HandleContent::Model(server) => server.crossbar.ports(),
        HandleContent::Draft(_) | HandleContent::Judge(_) => 0,
    };
    *model = Handle::of(held);
    count
}

/// `tlx_model_free_at` of the header.
#[unsafe(no_mangle)]
pub extern "C" fn tlx_model_free_at(alloc: Global, model: &mut Handle)
    ensures { model.new.value ≡ None }
{
    let _held = take(alloc, model);
}
