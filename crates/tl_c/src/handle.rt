//! What a caller in C holds.
ghost use Rattle.std.specs.Prelude.{◌≡◌, ◌≢◌, ◌↔◌, IsTrue, Option, None, Some};
ghost use Rattle.tl_c.specs.declared.held.HandleContent.{HandleContent};
ghost use Rattle.tl_c.specs.Handle.{unboxed, loosened};

use crate::fault::{MEMORY, OK};
use crate::held::HandleContent;
use crate::loose::Loose;
use std::alloc::Global;
use std::marker::Model;

/// A handle: `struct tlx_system`, `tlx_model` and `tlx_judge` of the header. All zero, it holds nothing.
#[repr(C)]
pub struct Handle {
    pub(crate) at: *mut u8,
    pub(crate) live: bool,
    pub(crate) alloc: Global,
    pub(crate) ghost value: { Option HandleContent },
}

impl Model for Handle {
    ghost use Rattle.tl_c.specs.Handle.{handle_holds};
    ghost use Rattle.tl_c.specs.contracts.held.HandleContent.{the_row};

    ghost also_owns = { λ h. handle_holds the_row h.alloc h.at h.live h.value };
}

impl Handle {
    /// A handle that holds nothing.
    pub(crate) fn empty(alloc: Global) -> Handle
        ensures { result.value ≡ None }
    {
        Handle {
            at: std::ptr::null_mut(),
            live: false,
            alloc,
        }
    }

    fn keep(loose: Loose<HandleContent, Global>) -> Handle
        ensures { result.value ≡ Some loose.value }
    {
        let Loose { at, alloc } = loose;
        Handle {
            at: at as *mut u8,
            live: true,
            alloc,
        }
    }

    fn loose(self) -> Option<Loose<HandleContent, Global>>
        ensures { self.value ≡ loosened result }
    {
        let Handle { at, live, alloc } = self;
        if live {
            Some(Loose {
                at: at as *mut HandleContent,
                alloc,
            })
        } else {
            None
        }
    }

    /// A handle that holds this.
    pub(crate) fn of(held: Box<HandleContent>) -> Handle
        ensures { result.value ≡ Some held.value }
    {
        Handle::keep(Loose::of(held))
    }

    /// What a handle holds.
    pub(crate) fn take(self) -> Option<Box<HandleContent>>
        ensures { self.value ≡ unboxed result }
    {
        match self.loose() {
            Some(loose) => Some(loose.into_box()),
            None => None,
        }
    }
}

impl Drop for Handle {
    fn drop(self) {
        let _held = self.take();
    }
}

/// What a handle holds, which is empty from then on.
pub(crate) fn take(alloc: Global, handle: &mut Handle) -> Option<Box<HandleContent>>
    ensures empty { handle.new.value ≡ None }
    ensures taken { handle.old.value ≡ unboxed result }
{
    std::mem::replace(handle, Handle::empty(alloc)).take()
}

/// Whether a handle holds anything. What it holds stays there.
pub(crate) fn is_full(alloc: Global, handle: &mut Handle) -> bool
    ensures full { IsTrue result ↔ (handle.old.value ≢ None) }
    ensures same { handle.new.value ≡ handle.old.value }
{
    match take(alloc, handle) {
        Some(held) => {
            *handle = Handle::of(held);
            true
        }
        None => false,
    }
}

/// Has an empty handle hold this, if memory allows.
pub(crate) fn hold(alloc: Global, handle: &mut Handle, held: HandleContent) -> u32
    ensures ok { result ≡ OK → handle.new.value ≡ Some held }
    ensures err { result ≢ OK → handle.new.value ≡ handle.old.value }
    ensures number { result ≢ OK → result ≡ MEMORY }
{
    match Box::new(alloc, held) {
        Ok(held) => {
            *handle = Handle::of(held);
            OK
        }
        Err(_) => MEMORY,
    }
}
