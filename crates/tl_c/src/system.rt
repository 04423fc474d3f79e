//! Systems: what system files name, and the images of their ports.
ghost use Rattle.std.specs.Prelude.{◌≡◌, ◌≢◌, ◌≤◌, ◌↔◌, [], None, Some, length, unwrap_or};
ghost use Rattle.tl_c.specs.Calls.{HasDraft, HoldsDraft, IsImageAnswer, IsPartsAnswer};
ghost use Rattle.tl_c.specs.Draft.{DraftView, IsDraftOf, image_fault, image_file, with_image};
ghost use Rattle.tl_c.specs.Numbers.{file_number};
ghost use Rattle.tl_c.specs.Text.{IsTextOf, IsWritten};
ghost use Rattle.tl_c.specs.declared.held.HandleContent.TheVariants as held;

use crate::draft::Draft;
use crate::fault::{EMPTY, FULL, OK, OTHER_VERSION, file_number, image_number};
use crate::handle::{Handle, hold, is_full, take};
use crate::held::HandleContent;
use crate::text::{put_fault, put_text};
use crate::version::VERSION;
use check_keys::SystemFault;
use std::alloc::Global;

/// Writes the line of a fault of a system file. The answer is its number.
pub(crate) fn refuse(alloc: Global, room: &mut [u8], written: &mut usize, fault: SystemFault) -> u32
    ensures number { result ≡ file_number fault }
    ensures written { IsWritten room.old room.new written.new }
{
    *written = put_fault(alloc, room, &fault);
    file_number(&fault)
}

/// `tlx_system_read_at` of the header: what a system file names.
#[unsafe(no_mangle)]
pub extern "C" fn tlx_system_read_at(
    alloc: Global,
    system: &mut Handle,
    file: &[u8],
    version: u32,
    room: &mut [u8],
    written: &mut usize,
) -> u32
    ensures version { result ≡ OTHER_VERSION ↔ (version ≢ VERSION) }
    ensures named { result ≡ OK → HoldsDraft (IsDraftOf file.now) system.new.value }
    ensures fault { IsPartsAnswer file.now result }
    ensures full { result ≡ FULL ↔ ((version ≡ VERSION) × (system.old.value ≢ None)) }
    ensures err { result ≢ OK → system.new.value ≡ system.old.value }
    ensures first { result ≢ OK → FULL ≤ result }
    ensures written { IsWritten room.old room.new written.new }
    ensures none { result ≤ FULL → written.new ≡ 0 }
{
    *written = put_text(room, b"");
    if version != VERSION {
        return OTHER_VERSION;
    }
    if is_full(alloc, system) {
        return FULL;
    }
    match Draft::read(alloc, file) {
        Ok(draft) => hold(alloc, system, HandleContent::Draft(draft)),
        Err(fault) => refuse(alloc, room, written, fault),
    }
}

/// Takes the bytes of a port's image.
fn put_image(
    alloc: Global,
    draft: &mut Draft,
    port: usize,
    bytes: &[u8],
    room: &mut [u8],
    written: &mut usize,
) -> u32
    requires { IsWritten room.old room.old written.old }
    ensures answer { IsImageAnswer (image_fault draft.old port bytes.now) result }
    ensures ok { result ≡ OK → draft.new ≡ with_image draft.old port bytes.now }
    ensures err { result ≢ OK → draft.new ≡ draft.old }
    ensures written { IsWritten room.old room.new written.new }
{
    match draft.put_image(alloc, port, bytes) {
        Ok(()) => OK,
        Err(fault) => {
            *written = put_fault(alloc, room, &fault);
            image_number(&fault)
        }
    }
}

/// `tlx_system_image_at` of the header: takes the bytes of a port's image.
#[unsafe(no_mangle)]
pub extern "C" fn tlx_system_image_at(
    alloc: Global,
    system: &mut Handle,
    port: usize,
    bytes: &[u8],
    room: &mut [u8],
    written: &mut usize,
) -> u32
    ensures empty { result ≡ EMPTY ↔ (HasDraft system.old.value → ⊥) }
    ensures answer { (draft : DraftView) → system.old.value ≡ Some (held.Draft draft)
        → IsImageAnswer (image_fault draft port bytes.now) result }
    ensures ok { (draft : DraftView) → system.old.value ≡ Some (held.Draft draft) → result ≡ OK
        → system.new.value ≡ Some (held.Draft (with_image draft port bytes.now)) }
    ensures err { result ≢ OK → system.new.value ≡ system.old.value }
    ensures written { IsWritten room.old room.new written.new }
{
    *written = put_text(room, b"");
    let Some(mut held) = take(alloc, system) else {
        return EMPTY;
    };
    let number = match &mut *held {
        HandleContent::Draft(draft) => put_image(alloc, draft, port, bytes, room, written),
        HandleContent::Model(_) | HandleContent::Judge(_) => EMPTY,
    };
    *system = Handle::of(held);
    number
}

/// The name of the file of a port's image; nothing if it names none.
fn put_file(draft: &Draft, port: usize, room: &mut [u8]) -> usize
    ensures text { IsTextOf (unwrap_or (image_file draft.now port) []) room.old room.new result }
    ensures written { IsWritten room.old room.new result }
{
    match draft.image_file(port) {
        Some(file) => put_text(room, file.as_bytes()),
        None => put_text(room, b""),
    }
}

/// `tlx_system_image_name_at` of the header: the file of a port's image.
#[unsafe(no_mangle)]
pub extern "C" fn tlx_system_image_name_at(
    alloc: Global,
    system: &mut Handle,
    port: usize,
    room: &mut [u8],
) -> usize
    ensures text { (draft : DraftView) → system.old.value ≡ Some (held.Draft draft)
        → IsTextOf (unwrap_or (image_file draft port) []) room.old room.new result }
    ensures written { IsWritten room.old room.new result }
    ensures empty { (HasDraft system.old.value → ⊥) → result ≡ 0 }
    ensures same { system.new.value ≡ system.old.value }
{
    let Some(held) = take(alloc, system) else {
        return put_text(room, b"");
    };
    let count = match &*held {
        HandleContent::Draft(draft) => put_file(draft, port, room),
        HandleContent::Model(_) | HandleContent::Judge(_) => put_text(room, b""),
    };
    *system = Handle::of(held);
    count
}

/// `tlx_system_ports_at` of the header: how many ports the file names.
#[unsafe(no_mangle)]
pub extern "C" fn tlx_system_ports_at(alloc: Global, system: &mut Handle) -> usize
    ensures count { (draft : DraftView) → system.old.value ≡ Some (held.Draft draft)
        → result ≡ length draft.parts.ports }
    ensures empty { (HasDraft system.old.value → ⊥) → result ≡ 0 }
    ensures same { system.new.value ≡ system.old.value }
{
    let Some(held) = take(alloc, system) else {
        return 0;
    };
    let count = match &*held {
        HandleContent::Draft(draft) => draft.ports(),
        HandleContent::Model(_) | HandleContent::Judge(_) => 0,
    };
    *system = Handle::of(held);
    count
}

/// `tlx_system_free_at` of the header.
#[unsafe(no_mangle)]
pub extern "C" fn tlx_system_free_at(alloc: Global, system: &mut Handle)
    ensures { system.new.value ≡ None }
{
    let _held = take(alloc, system);
}
