//! The bytes in front of what is judged, which say whether it is a capture or a dump.
ghost use Rattle.std.specs.Prelude.{◌≡◌, IfOk};
ghost use Rattle.std.specs.Io.KnownBytes.{Consumes};
ghost use Rattle.check_program.specs.Front.{IsFront, begins_dump, has_sign, is_sign};

use std::alloc::Global;
use std::io::{ErrorKind, Read};
use tl_streams::{LimitedReader, ReadFault};

/// How many bytes are looked at, at most, for the first that is no blank.
pub const MAX_FRONT: usize = 65_536;

/// How many bytes one read asks for at most.
const CHUNK: usize = 4096;

/// Whether a byte is no blank: neither a space nor a byte of control.
fn is_sign(byte: u8) -> bool
    ensures { result ≡ is_sign byte }
{
    byte > b' '
}

/// Whether a text has a byte that is no blank.
fn has_sign(text: &[u8]) -> bool
    ensures { result ≡ has_sign text.now }
{
    for byte in text {
        if is_sign(*byte) {
            return true;
        }
    }
    false
}

/// Whether a text begins a dump: its first byte that is no blank is the dollar sign of a keyword.
pub fn begins_dump(text: &[u8]) -> bool
    ensures { result ≡ begins_dump text.now }
{
    for byte in text {
        if is_sign(*byte) {
            return *byte == b'$';
        }
    }
    false
}

/// Reads as much as tells whether a dump begins, and no more than one read gives beyond: up to a byte that is no blank, to the
/// end, or to [`MAX_FRONT`] bytes.
pub fn read_front<R: Read>(alloc: Global, reader: &mut R) -> Result<Vec<u8>, ReadFault>
    ensures taken { IfOk result (λ front. Consumes (R.remaining reader.old) (R.remaining reader.new) front.items) }
    ensures enough { IfOk result (λ front. IsFront front.items (R.remaining reader.new)) }
{
    let mut reader = LimitedReader::new(reader);
    read_within(alloc, &mut reader)
}

/// The same, through what limits the reads.
fn read_within<R: Read>(
    alloc: Global,
    reader: &mut LimitedReader<'_, R>,
) -> Result<Vec<u8>, ReadFault>
    ensures same { reader.new.reader.ghost_name ≡ reader.old.reader.ghost_name }
    ensures taken { IfOk result (λ front. Consumes (R.remaining reader.old.reader.now)
        (R.remaining reader.new.reader.now) front.items) }
    ensures enough { IfOk result (λ front. IsFront front.items (R.remaining reader.new.reader.now)) }
{
    let mut front = Vec::new(alloc);
    let mut chunk = [0u8; CHUNK];
    let mut known = false;
    while !known && front.len() < MAX_FRONT {
        if reader.is_spent() {
            return Err(ReadFault::Read);
        }
        let room = CHUNK.min(MAX_FRONT - front.len());
        match reader.read(&mut chunk[..room]) {
            Ok(0) => break,
            Ok(n) => {
                front.extend_from_slice(&chunk[..n])?;
                known = has_sign(&chunk[..n]);
            }
            Err(e) if e.kind() == ErrorKind::Interrupted => {}
            Err(_) => return Err(ReadFault::Read),
        }
    }
    Ok(front)
}
