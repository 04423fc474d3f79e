//! The room that a message has for its bytes.
ghost use Rattle.std.specs.Prelude.{◌≡◌, ◌≤◌, length};

use crate::limits::MAX_BYTES;
use arrayvec::ArrayVec;

/// Puts these bytes in the place of those that there were.
// as many as before are written over them: `clear` would blank what was there first
#[inline]
pub fn refill_room(room: &mut ArrayVec<u8, MAX_BYTES>, bytes: &[u8])
    requires { length bytes.now ≤ MAX_BYTES }
    ensures { room.new.items ≡ bytes.now }
{
    if room.len() == bytes.len() {
        write_over(room.as_mut_slice(), bytes);
    } else {
        replace(room, bytes);
    }
}

/// Takes away the bytes that there were, and appends these.
// a length that changes is rare: it stands apart, so that the rest is small enough to stand in its callers
#[inline(never)]
fn replace(room: &mut ArrayVec<u8, MAX_BYTES>, bytes: &[u8])
    requires { length bytes.now ≤ MAX_BYTES }
    ensures { room.new.items ≡ bytes.now }
{
    room.clear();
    room.try_extend_from_slice(bytes).unwrap();
}

/// Writes bytes over as many others.
// those of one word are moved in place, where a call would cost more than they do
#[inline]
pub fn write_over(room: &mut [u8], bytes: &[u8])
    requires { length room.old ≡ length bytes.now }
    ensures { room.new ≡ bytes.now }
{
    match bytes.len() {
        0 => {}
        1 => room[..1].copy_from_slice(&bytes[..1]),
        2 => room[..2].copy_from_slice(&bytes[..2]),
        4 => room[..4].copy_from_slice(&bytes[..4]),
        8 => room[..8].copy_from_slice(&bytes[..8]),
        _ => room.copy_from_slice(bytes),
    }
}
