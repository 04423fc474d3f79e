//! One byte of a reply, where it lies.
ghost use Rattle.std.specs.Prelude.{◌≡◌, slice_get};
ghost use Rattle.tl_types.specs.Response.{Response, IsLawfulResponse};
ghost use Rattle.tl_beats.specs.Replies.{SpellsReply};

use crate::beat::DBeat;
use crate::bus::first_lane;
use tl_types::{BUS_BYTES, MAX_SIZE, read_reply_op};

/// A byte of the reply to a request at the address that beats spell, by its place; `None` where the reply has no byte
/// there. Nothing else of the beats is read but the first one's shared fields.
pub fn reply_byte(beats: &[DBeat], address: u64, place: usize) -> Option<u8>
    ensures { (reply : Response) → IsLawfulResponse reply.op reply.size reply.denied reply.bytes
        → SpellsReply reply address beats.now → result ≡ slice_get reply.bytes place }
{
    let Some(first) = beats.first() else {
        return None;
    };
    let Ok(op) = read_reply_op(first.opcode) else {
        return None;
    };
    if first.size > MAX_SIZE {
        return None;
    }
    if place >= op.byte_count(first.size) {
        return None;
    }
    let Some(beat) = beats.get(place / BUS_BYTES) else {
        return None;
    };
    if first.denied {
        return Some(0);
    }
    let lane = (first_lane(address, first.size) + place) % BUS_BYTES;
    Some(beat.lanes[lane])
}
