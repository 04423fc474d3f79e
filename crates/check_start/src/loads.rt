//! What a reset of the whole system loads into the slaves of its ports.
ghost use Rattle.std.specs.Prelude.{◌≡◌, ◌≤◌, IfOk, length, map};
ghost use Rattle.check_description.specs.Port.{port_view};
ghost use Rattle.check_description.specs.Ranges.{first_length};
ghost use Rattle.check_start.specs.Loads.{ImagesFit, is_loaded, load_of, loads_at_reset, loads_from};

use crate::slaves::image_at;
use check_description::{OnReset, Port, kept_at_reset};
use check_memory::Slave;
use std::alloc::{AllocError, Global};
use std::marker::Model;

/// What a reset loads into each slave of a system, the error port's last. A copy of it is made for each reset.
#[derive(Drop)]
pub struct Loads {
    slaves: Vec<Option<Slave>>,
}

impl Model for Loads {
    ghost use Rattle.std.specs.Prelude.{List, Option};
    ghost use Rattle.check_memory.specs.declared.slave.Slave.{Slave};

    ghost Value = { List (Option Slave) };

    ghost view = { λ l. l.slaves.items };
}

impl Clone for Loads {
    ghost use Rattle.std.specs.Prelude.{◌≡◌};

    ghost is_clone = { λ loads copy. copy ≡ loads };

    fn clone(&self) -> Result<Loads, AllocError> {
        Ok(Loads {
            slaves: self.slaves.clone()?,
        })
    }
}

/// Whether a reset loads a port.
fn is_loaded(port: &Port) -> bool
    ensures { result ≡ is_loaded (port_view port.now).on_reset }
{
    matches!(port.on_reset, OnReset::Load)
}

/// What a reset loads into a port with these bytes of its image.
fn load_of(alloc: Global, port: &Port, image: &[u8]) -> Result<Option<Slave>, AllocError>
    requires { length image.now ≤ first_length (port_view port.now).ranges }
    ensures { IfOk result (λ loaded. loaded ≡ load_of (port_view port.now) image.now) }
{
    if is_loaded(port) {
        Ok(Some(kept_at_reset(alloc, port, image)?))
    } else {
        Ok(None)
    }
}

/// What a reset loads into each of these ports.
fn loads_of_ports(
    alloc: Global,
    ports: &[Port],
    images: &[Vec<u8>],
) -> Result<Vec<Option<Slave>>, AllocError>
    requires { ImagesFit (map (λ image. image.items) images.now) (map port_view ports.now) }
    ensures { IfOk result (λ loaded. loaded.items
        ≡ loads_from (map (λ image. image.items) images.now) 0 (map port_view ports.now)) }
{
    let mut loaded = Vec::with_capacity(alloc, ports.len() + 1)?;
    for (number, port) in ports.iter().enumerate() {
        loaded.push(load_of(alloc, port, image_at(images, number))?)?;
    }
    Ok(loaded)
}

impl Loads {
    /// What a reset loads into these ports, with these bytes of their images.
    pub fn of(alloc: Global, ports: &[Port], images: &[Vec<u8>]) -> Result<Loads, AllocError>
        requires { ImagesFit (map (λ image. image.items) images.now) (map port_view ports.now) }
        ensures { IfOk result (λ loads. loads
            ≡ loads_at_reset (map (λ image. image.items) images.now) (map port_view ports.now)) }
    {
        let mut slaves = loads_of_ports(alloc, ports, images)?;
        slaves.push(None)?;
        Ok(Loads { slaves })
    }

    /// What a reset loads: `None` says that it loads nothing into a slave.
    pub fn make(&self) -> Result<Vec<Option<Slave>>, AllocError>
        ensures { IfOk result (λ loaded. loaded.items ≡ self.now) }
    {
        self.slaves.clone()
    }
}
