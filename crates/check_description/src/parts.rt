//! What the tables of a system file name.
ghost use Rattle.std.specs.Prelude.{◌≡◌, ◌≤◌, IfOk, length, map};
ghost use Rattle.tl_map.specs.declared.limits.TheConstants.{MAX_JUDGED_PORTS};

use crate::masters::Master;
use crate::placed::PlacedMaster;
use crate::port::Port;
use check_beats::LinkRules;
use std::alloc::{AllocError, Global};

/// The rules of the links, whether there may be resets of the whole system, and the ports and the masters that a file names.
#[derive(Debug, Drop)]
pub struct Parts {
    pub rules: LinkRules,
    pub resets: bool,
    pub ports: Vec<Port>,
    pub masters: Vec<Master>,
    /// By port the masters that it lists, if it lists any.
    pub lists: Vec<Option<Vec<PlacedMaster>>>,
    /// By master for each port whether it has a path to it; to each, if there are no flags.
    pub paths: Vec<Option<Vec<bool>>>,
    ghost few_ports: { length ports.items ≤ MAX_JUDGED_PORTS },
}

/// The file of a port's image, as the port names it. Ports are counted from 0.
#[derive(Debug, Clone, Copy)]
pub struct Image<'a> {
    pub port: usize,
    pub file: &'a str,
}

impl Parts {
    ghost use Rattle.check_description.specs.File.{image_view, images_of, parts_view};

    /// The files of the ports' images, in the order of the ports.
    pub fn images(&self, alloc: Global) -> Result<Vec<Image>, AllocError>
        ensures { IfOk result (λ images. map image_view images.items
            ≡ images_of (parts_view self.now)) }
    {
        let mut images = Vec::new(alloc);
        for (port, said) in self.ports.iter().enumerate() {
            let Some(file) = &said.contents.image else {
                continue;
            };
            images.push(Image {
                port,
                file: file.as_str(),
            })?;
        }
        Ok(images)
    }
}
