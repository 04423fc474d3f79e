//! Reading a whole input and writing a whole output, within bounds.
ghost use Rattle.std.specs.Prelude.{◌≡◌, ◌≤◌, ◌<◌, ◌+◌, IfOk, OnOk, IfErr, OnErr};
ghost use Rattle.std.specs.Io.KnownBytes.{Appends};
ghost use Rattle.tl_streams.specs.declared.streams.ReadFault.TheVariants.{Memory};
ghost use Rattle.tl_streams.specs.Streams.{AppendsPart, ReadsUpTo, TakesUpTo};

use crate::limited::{LimitedReader, LimitedWriter};
use std::alloc::{AllocError, Global};
use std::io::{ErrorKind, Read, Write};
use thiserror::Error;

/// How many bytes one read asks for at most.
const CHUNK: usize = 4096;

/// Why an input was not read to its end.
#[derive(Debug, Drop, Error)]
pub enum ReadFault {
    #[error("read failed")]
    Read,
    #[error("memory refused")]
    Memory,
}

impl From<AllocError> for ReadFault {
    ghost from_gives = { λ _ e. e ≡ Memory };

    fn from(_e: AllocError) -> ReadFault {
        ReadFault::Memory
    }
}

/// An output was not written whole. Nothing is said of how much of its front went out.
#[derive(Debug, Drop, Error)]
#[error("write failed")]
pub struct WriteFault;

/// Reads to the end, or to `limit` bytes. A read that was interrupted is made again, as long as reads are left; any
/// other error is the fault at once.
pub fn read_up_to<R: Read>(
    alloc: Global,
    reader: &mut LimitedReader<'_, R>,
    limit: usize,
) -> Result<Vec<u8>, ReadFault>
    ensures same { reader.new.reader.ghost_name ≡ reader.old.reader.ghost_name }
    ensures bytes { IfOk result (λ v. ReadsUpTo limit (R.remaining reader.old.reader.now)
        (R.remaining reader.new.reader.now) v.items) }

    // No more is taken for a fault, and a read was made before one of reading.
    ensures taken { OnErr result (TakesUpTo limit (R.remaining reader.old.reader.now)
        (R.remaining reader.new.reader.now)) }
    ensures tried { IfErr result (λ fault. fault ≡ ReadFault.Read → 0 < reader.old.reads_left
        → reader.new.reads_left < reader.old.reads_left) }
{
    let mut bytes = Vec::new(alloc);
    let mut chunk = [0u8; CHUNK];
    while bytes.len() < limit {
        if reader.is_spent() {
            return Err(ReadFault::Read);
        }
        let room = CHUNK.min(limit - bytes.len());
        match reader.read(&mut chunk[..room]) {
            Ok(0) => break,
            Ok(n) => bytes.extend_from_slice(&chunk[..n])?,
            Err(e) if e.kind() == ErrorKind::Interrupted => {}
            Err(_) => return Err(ReadFault::Read),
        }
    }
    Ok(bytes)
}

/// Writes all of the bytes. A write that was interrupted is made again, as long as tries are left; any other error,
/// and a write that takes no byte, is the fault at once.
pub fn write_all<W: Write>(
    writer: &mut LimitedWriter<'_, W>,
    bytes: &[u8],
) -> Result<(), WriteFault>
    ensures same { writer.new.writer.ghost_name ≡ writer.old.writer.ghost_name }
    ensures bytes { OnOk result (Appends (W.contents writer.old.writer.now)
        (W.contents writer.new.writer.now) bytes.now) }

    // Whatever fails, what went out is a front of the bytes, and not all of them.
    ensures front { OnErr result (AppendsPart (W.contents writer.old.writer.now)
        (W.contents writer.new.writer.now) bytes.now) }
{
    let mut rest = bytes;
    while !rest.is_empty() {
        if writer.is_spent() {
            return Err(WriteFault);
        }
        match writer.write(rest) {
            Ok(0) => return Err(WriteFault),
            Ok(n) => rest = &rest[n..],
            Err(e) if e.kind() == ErrorKind::Interrupted => {}
            Err(_) => return Err(WriteFault),
        }
    }
    Ok(())
}
