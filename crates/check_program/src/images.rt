//! The images of a system's ports.
ghost use Rattle.std.specs.Prelude.{◌≡◌, IfErr, IfOk, map};
ghost use Rattle.std.specs.Path.{path_buf_bytes, path_with_file_name};
ghost use Rattle.check_description.specs.Port.{port_view};
ghost use Rattle.check_program.specs.Images.{AreImagesOf, IsFaultOfImages, IsFaultOfPort, IsImageOf};

use crate::fault::CheckFault;
use crate::system::read_image;
use check_description::{Parts, Port};
use check_keys::SystemFault;
use std::alloc::{AllocError, Global};
use std::io::Read;
use std::path::{Path, PathBuf};
use std::rt::Files;
use std::{fs, io};

/// Files that are opened by their names, each for one reader.
pub trait ImageFiles {
    ghost use Rattle.std.specs.Prelude.{ℕ, List, ⊤, IfOk};

    type File: Read + Drop;

    // Holds of these files, a name, and what opening the file of that name gives.
    ghost opens: { Self → List ℕ → Self.File → Type 0 } = { λ _ _ _. ⊤ };

    /// Opens the file of this name, which is read from its beginning.
    fn open(&self, name: &str) -> io::Result<Self::File>
        ensures { IfOk result (opens self.now name.now) };
}

/// The files of the system. No clause can say what these hold.
impl<F: Files> ImageFiles for F {
    type File = F::File;

    fn open(&self, name: &str) -> io::Result<F::File> {
        fs::open(self, name)
    }
}

/// The name of an image's file: it is named from the folder of SYSTEM. An absolute name is taken as it is.
fn path_of(alloc: Global, system: &str, image: &str) -> Result<PathBuf, AllocError>
    ensures { IfOk result (λ path. path_buf_bytes path ≡ path_with_file_name system.now image.now) }
{
    Path::new(system).with_file_name(alloc, image)
}

/// Reads the image of the port of this number. One that names none has no bytes.
fn read_image_of<F: ImageFiles>(
    alloc: Global,
    files: &F,
    system: &str,
    number: usize,
    port: &Port,
) -> Result<Vec<u8>, CheckFault>
    ensures ok { IfOk result (λ bytes. IsImageOf (F.opens files.now) F.File.remaining system.now
        (port_view port.now) bytes.items) }
    ensures fault { IfErr result (IsFaultOfPort number (port_view port.now)) }
{
    let Some(image) = &port.contents.image else {
        return Ok(Vec::new(alloc));
    };
    let path = path_of(alloc, system, image.as_str())?;
    let Ok(mut file) = files.open(path.as_str()) else {
        return Err(CheckFault::System(SystemFault::ImageUnreadable(number)));
    };
    read_image(alloc, &mut file, number, port)
}

/// Reads the images that the ports of a system name, port by port, each to its end. The answer has one for each port by
/// its number, without bytes if the port names none. A file that can't be read, or has more bytes than the port's first
/// range, is the fault of the system. That holds of all files whose readers tell their bytes: no clause says what the
/// system's own files hold.
pub fn read_images<F: ImageFiles>(
    alloc: Global,
    files: &F,
    system: &str,
    parts: &Parts,
) -> Result<Vec<Vec<u8>>, CheckFault>
    ensures ok { IfOk result (λ images. AreImagesOf
        (IsImageOf (F.opens files.now) F.File.remaining system.now)
        (map port_view parts.now.ports.items) (map (λ image. image.items) images.items)) }
    ensures fault { IfErr result (IsFaultOfImages (map port_view parts.now.ports.items)) }
{
    let mut images = Vec::with_capacity(alloc, parts.ports.len())?;
    for (number, port) in parts.ports.iter().enumerate() {
        let image = read_image_of(alloc, files, system, number, port)?;
        let Ok(()) = images.push(image) else {
            return Err(CheckFault::Memory);
        };
    }
    Ok(images)
}
