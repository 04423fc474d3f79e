//! The system file of a check, and its images.
ghost use Rattle.std.specs.Prelude.{◌≡◌, IfErr, IfOk};
ghost use Rattle.check_description.specs.Port.{port_view};
ghost use Rattle.check_description.specs.File.{parts_view};
ghost use Rattle.check_program.specs.System.{GivesImage, GivesParts, IsImageFault, IsPartsFault};

use crate::fault::CheckFault;
use check_description::{MAX_SYSTEM, Parts, Port, first_length, read_parts};
use check_keys::SystemFault;
use std::alloc::Global;
use std::io::Read;
use tl_streams::{LimitedReader, ReadFault, read_up_to};

/// A system file: the parts that it names, and its bytes. A dump asks for what else the file says.
#[derive(Drop)]
pub struct SystemFile {
    pub parts: Parts,
    pub bytes: Vec<u8>,
}

/// Reads a system file to its end, and the parts that it names.
pub fn read_system_file<R: Read>(alloc: Global, system: &mut R) -> Result<SystemFile, CheckFault>
    ensures ok { IfOk result (λ file. GivesParts (R.remaining system.old) (R.remaining system.new)
        file.bytes.items (parts_view file.parts)) }
    ensures fault { IfErr result (IsPartsFault (R.remaining system.old) (R.remaining system.new)) }
{
    let mut reader = LimitedReader::new(system);
    read_within(alloc, &mut reader)
}

/// The same, through what limits the reads.
fn read_within<R: Read>(
    alloc: Global,
    reader: &mut LimitedReader<'_, R>,
) -> Result<SystemFile, CheckFault>
    ensures same { reader.new.reader.ghost_name ≡ reader.old.reader.ghost_name }
    ensures ok { IfOk result (λ file. GivesParts (R.remaining reader.old.reader.now)
        (R.remaining reader.new.reader.now) file.bytes.items (parts_view file.parts)) }
    ensures fault { IfErr result (IsPartsFault (R.remaining reader.old.reader.now)
        (R.remaining reader.new.reader.now)) }
{
    let bytes = read_up_to(alloc, reader, MAX_SYSTEM + 1)?;
    let parts = read_parts(alloc, &bytes)?;
    Ok(SystemFile { parts, bytes })
}

/// Reads the image of the port of this number to its end. One that can't be read, or is longer than the port's first range,
/// is refused; of the latter one byte more than the range has is read at most.
pub fn read_image<R: Read>(
    alloc: Global,
    image: &mut R,
    number: usize,
    port: &Port,
) -> Result<Vec<u8>, CheckFault>
    ensures ok { IfOk result (λ bytes. GivesImage (port_view port.now)
        (R.remaining image.old) (R.remaining image.new) bytes.items) }
    ensures fault { IfErr result (IsImageFault number (port_view port.now)
        (R.remaining image.old) (R.remaining image.new)) }
{
    let mut reader = LimitedReader::new(image);
    let longest = first_length(&port.ranges) as usize;
    let bytes = match read_up_to(alloc, &mut reader, longest.saturating_add(1)) {
        Ok(bytes) => bytes,
        Err(ReadFault::Read) => return Err(CheckFault::System(SystemFault::ImageUnreadable(
            number,
        ))),
        Err(ReadFault::Memory) => return Err(CheckFault::Memory),
    };
    if bytes.len() > longest {
        return Err(CheckFault::System(SystemFault::ImageTooLong(number)));
    }
    Ok(bytes)
}
