//! Texts in a caller's buffer.
ghost use Rattle.tl_c.specs.Text.{IsTextOf, IsWritten};

use crate::fault::words;
use std::alloc::Global;
use std::fmt::Display;

/// Writes as much of a text as fits, and a zero byte after it: how many bytes of the text were written.
pub(crate) fn put_text(room: &mut [u8], text: &[u8]) -> usize
    ensures text { IsTextOf text.now room.old room.new result }
    ensures written { IsWritten room.old room.new result }
{
    if room.is_empty() {
        return 0;
    }
    let count = text.len().min(room.len() - 1);
    room[..count].copy_from_slice(&text[..count]);
    room[count] = 0;
    count
}

/// `tlx_fault_text_at` of the header: the words of a fault's number.
#[unsafe(no_mangle)]
pub extern "C" fn tlx_fault_text_at(fault: u32, room: &mut [u8]) -> usize
    ensures { IsWritten room.old room.new result }
{
    put_text(room, words(fault).as_bytes())
}

/// Writes the line of a fault, or nothing if there is no memory for it.
pub(crate) fn put_fault<F: Display>(alloc: Global, room: &mut [u8], fault: &F) -> usize
    ensures { IsWritten room.old room.new result }
{
    match format!(in alloc; "{fault}") {
        Ok(line) => put_text(room, line.as_bytes()),
        Err(_) => put_text(room, b""),
    }
}
