//! What a system file names, of which models and judges are made.
ghost use Rattle.std.specs.Prelude.{◌≡◌, ◌≢◌, ◌⊎◌, IfErr, IfNone, IfOk, IfSome, None, OnErr, OnOk, Some, length, map, option_map, replicate, slice_get};
ghost use Rattle.check_keys.specs.declared.fault.SystemFault.TheVariants.{Memory};
ghost use Rattle.check_description.specs.File.{parts_view};
ghost use Rattle.check_description.specs.Name.{IsFirstPartFault};
ghost use Rattle.tl_c.specs.Draft.{IsDraft, IsDraftOf, IsFirstLacking, LacksNone, bytes_of, image_bytes, fault_at, image_fault, image_file, is_given, lacks, slot_of, slots_of, with_image};
ghost use Rattle.tl_c.specs.declared.draft.ImageFault.TheVariants.{System};

use check_description::{Parts, first_length, read_parts};
use check_keys::SystemFault;
use std::alloc::{AllocError, Global};
use std::marker::Model;
use thiserror::Error;

/// A system file, the ports and masters that it names, and for each port the bytes of its image, if these were handed in.
#[derive(Drop)]
pub struct Draft {
    /// Its parts are read again for each model and each judge.
    file: Vec<u8>,
    parts: Parts,
    images: Vec<Option<Vec<u8>>>,
}

impl Model for Draft {
    ghost use Rattle.check_description.specs.File.{parts_view};
    ghost use Rattle.tl_c.specs.Draft.{DraftView, IsDraft, slots_of};

    ghost Value = { DraftView };

    ghost view = { λ d. record {
      file = d.file.items;
      parts = parts_view d.parts;
      images = slots_of d.images.items;
    } };

    ghost invariant = { λ d. IsDraft (record {
      file = d.file.items;
      parts = parts_view d.parts;
      images = slots_of d.images.items;
    }) };
}

/// Why the bytes of an image are not taken. Ports are counted from 0.
#[derive(Debug, Drop, Error)]
pub enum ImageFault {
    #[error("system: no port {0}")]
    NoPort(usize),
    /// The file names none for the port.
    #[error("system: port {0}: no image")]
    NoImage(usize),
    #[error("{0}")]
    System(SystemFault),
}

/// A place for the bytes of each image, of so many ports.
fn no_images(alloc: Global, ports: usize) -> Result<Vec<Option<Vec<u8>>>, AllocError>
    ensures { IfOk result (λ images. slots_of images.items ≡ replicate ports None) }
{
    let mut images = Vec::with_capacity(alloc, ports)?;
    for _port in 0..ports {
        images.push(None)?;
    }
    Ok(images)
}

/// A copy of the bytes of an image, none if it has none.
fn copy_image(alloc: Global, image: &Option<Vec<u8>>) -> Result<Vec<u8>, AllocError>
    ensures { IfOk result (λ copy. copy.items ≡ bytes_of (slot_of image.now)) }
{
    match image {
        Some(bytes) => Vec::from_slice(alloc, bytes),
        None => Ok(Vec::new(alloc)),
    }
}

/// Copies of the bytes of each port's image, none of one that has none.
fn copy_images(alloc: Global, images: &[Option<Vec<u8>>]) -> Result<Vec<Vec<u8>>, AllocError>
    ensures { IfOk result (λ made. map (λ image. image.items) made.items
        ≡ image_bytes (slots_of images.now)) }
{
    let mut made = Vec::with_capacity(alloc, images.len())?;
    for image in images {
        made.push(copy_image(alloc, image)?)?;
    }
    Ok(made)
}

impl Draft {
    /// What a file names, before any image is handed in; or the first fault on the way to it.
    pub(crate) fn read(alloc: Global, file: &[u8]) -> Result<Draft, SystemFault>
        ensures named { IfOk result (IsDraftOf file.now) }
        ensures fault { IfErr result (λ fault. fault ≢ Memory → IsFirstPartFault file.now fault) }
    {
        let parts = read_parts(alloc, file)?;
        let images = no_images(alloc, parts.ports.len())?;
        let file = Vec::from_slice(alloc, file)?;
        Ok(Draft {
            file,
            parts,
            images,
        })
    }

    /// How many ports the file names.
    pub(crate) fn ports(&self) -> usize
        ensures { result ≡ length self.now.parts.ports }
    {
        self.parts.ports.len()
    }

    /// The file of a port's image, if there is such a port and it names one.
    pub(crate) fn image_file(&self, port: usize) -> Option<&str>
        ensures { option_map (λ file. file.now) result ≡ image_file self.now port }
    {
        match &self.parts.ports.get(port)?.contents.image {
            Some(file) => Some(file.as_str()),
            None => None,
        }
    }

    /// Whether the bytes of a port's image were handed in.
    fn is_given(&self, port: usize) -> bool
        ensures { result ≡ is_given self.now port }
    {
        match self.images.get(port) {
            Some(image) => image.is_some(),
            None => false,
        }
    }

    /// Whether a port names an image that was not handed in.
    fn lacks(&self, port: usize) -> bool
        ensures { result ≡ lacks self.now port }
    {
        self.image_file(port).is_some() && !self.is_given(port)
    }

    /// The first port that names an image which was not handed in.
    pub(crate) fn lacking(&self) -> Option<usize>
        ensures some { IfSome result (IsFirstLacking self.now) }
        ensures none { IfNone result (LacksNone self.now) }
    {
        for port in 0..self.ports() {
            if self.lacks(port) {
                return Some(port);
            }
        }
        None
    }

    /// Why so many bytes are not taken as the image of a port, beside want of memory.
    fn image_fault(&self, port: usize, count: usize) -> Option<ImageFault>
        ensures { result ≡ fault_at port count (slice_get self.now.parts.ports port) }
    {
        let Some(said) = self.parts.ports.get(port) else {
            return Some(ImageFault::NoPort(port));
        };
        if said.contents.image.is_none() {
            return Some(ImageFault::NoImage(port));
        }
        if count as u64 > first_length(&said.ranges) {
            return Some(ImageFault::System(SystemFault::ImageTooLong(port)));
        }
        None
    }

    /// Takes the bytes of a port's image, in the place of those that it had.
    pub(crate) fn put_image(
        &mut self,
        alloc: Global,
        port: usize,
        bytes: &[u8],
    ) -> Result<(), ImageFault>
        ensures ok { OnOk result (self.new ≡ with_image self.old port bytes.now) }
        ensures lawful { OnOk result (image_fault self.old port bytes.now ≡ None) }
        ensures fault { IfErr result (λ fault. (image_fault self.old port bytes.now ≡ Some fault)
            ⊎ ((fault ≡ System Memory) × (image_fault self.old port bytes.now ≡ None))) }
        ensures err { OnErr result (self.new ≡ self.old) }
    {
        if let Some(fault) = self.image_fault(port, bytes.len()) {
            return Err(fault);
        }
        let Ok(bytes) = Vec::from_slice(alloc, bytes) else {
            return Err(ImageFault::System(SystemFault::Memory));
        };
        self.images[port] = Some(bytes);
        Ok(())
    }

    /// The parts once more, and copies of the bytes of each port's image, none of one that has none.
    pub(crate) fn copy_parts(&self, alloc: Global) -> Result<(Parts, Vec<Vec<u8>>), AllocError>
        ensures parts { IfOk result (λ made. parts_view made.0 ≡ self.now.parts) }
        ensures images { IfOk result (λ made. map (λ image. image.items) made.1.items ≡ image_bytes self.now.images) }
        ensures lawful { IsDraft self.now }
    {
        let images = copy_images(alloc, &self.images)?;
        // the file was read before, so nothing is missing now but memory
        let Ok(parts) = read_parts(alloc, &self.file) else {
            return Err(AllocError);
        };
        Ok((parts, images))
    }
}
