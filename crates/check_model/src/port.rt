//! The slave ports of a model.
ghost use Rattle.std.specs.Prelude.{◌≡◌, ◌≢◌, ◌↔◌, ◌≤◌, Err, IfOk, OnErr, OnOk, length, map, true};
ghost use Rattle.check_description.specs.Port.{port_view};
ghost use Rattle.check_description.specs.Ranges.{first_length};
ghost use Rattle.check_description.specs.Slave.{kept_at_reset as kept_of_port};
ghost use Rattle.check_memory.specs.Slave.{slave_takes_bytes};
ghost use Rattle.check_memory.specs.declared.slave.Slave.TheVariants as Stands;
ghost use Rattle.check_start.specs.Loads.{ImagesFit};
ghost use Rattle.check_start.specs.Slaves.{image_at as image_of_port};
ghost use Rattle.check_model.specs.Bytes.{Puts, shown_at, with_byte};
ghost use Rattle.check_model.specs.Model.{answer_of, fresh, loaded_port, ports_at_reset, ports_loaded, served_more};
ghost use Rattle.check_model.specs.declared.fault.ByteFault.TheVariants.{Device, Nowhere};

use crate::fault::ByteFault;
use check_description::{Port, denying_slave, kept_at_reset};
use check_flight::Answer;
use check_memory::{PartialMemory, Slave};
use check_start::image_at;
use std::alloc::{AllocError, Global};
use tl_types::Ask;

/// A slave port: what stands there, and how many requests it has served, modulo 2^64.
#[derive(Drop)]
pub struct ModelPort {
    pub slave: Slave,
    pub served: usize,
}

impl Clone for ModelPort {
    ghost use Rattle.std.specs.Prelude.{◌≡◌};

    ghost is_clone = { λ port copy. copy ≡ port };

    fn clone(&self) -> Result<ModelPort, AllocError> {
        Ok(ModelPort {
            slave: self.slave.clone()?,
            served: self.served,
        })
    }
}

impl ModelPort {
    /// A port that has served nothing.
    fn new(slave: Slave) -> ModelPort
        ensures { result ≡ fresh slave }
    {
        ModelPort { slave, served: 0 }
    }

    /// Serves a request as the port of this number, and puts the answer in the place of another. If there is no memory for a
    /// page, nothing is changed.
    pub(crate) fn serve(
        &mut self,
        alloc: Global,
        number: usize,
        ask: &Ask,
        answer: &mut Answer,
    ) -> Result<(), AllocError>
        ensures served { OnOk result (self.new ≡ served_more self.old ask.now) }
        ensures answer { OnOk result (answer.new ≡ answer_of number self.old ask.now) }
        ensures takes { OnErr result (slave_takes_bytes self.old.slave ask.now ≡ true) }
        ensures unchanged { OnErr result (self.new ≡ self.old) }
        ensures answer_unchanged { OnErr result (answer.new ≡ answer.old) }
    {
        self.slave.serve_into(alloc, ask, &mut answer.reply)?;
        answer.port = number;
        answer.index = self.served;
        self.served = self.served.wrapping_add(1);
        Ok(())
    }

    /// What a reset loads stands there from then on, if it loads something.
    fn load(&mut self, loaded: Option<Slave>)
        ensures { self.new ≡ loaded_port self.old loaded }
    {
        if let Some(slave) = loaded {
            self.slave = slave;
        }
    }

    /// What is seen of the byte at an address.
    pub(crate) fn peek(&self, address: u64) -> Result<Option<u8>, ByteFault>
        ensures { result ≡ shown_at self.now.slave address }
    {
        match &self.slave {
            Slave::Memory(memory) => Ok(memory.byte(address)),
            Slave::Device => Err(ByteFault::Device),
        }
    }

    /// Puts a byte, known or unknown, at an address. If there is no memory for a page, nothing is changed.
    pub(crate) fn poke(
        &mut self,
        alloc: Global,
        address: u64,
        byte: Option<u8>,
    ) -> Result<(), ByteFault>
        ensures put { OnOk result (Puts self.old.slave address byte self.new.slave) }
        ensures served { self.new.served ≡ self.old.served }
        ensures device { result ≡ Err Device ↔ (self.old.slave ≡ Stands.Device) }
        ensures somewhere { result ≢ Err Nowhere }
        ensures unchanged { OnErr result (self.new ≡ self.old) }
    {
        match &mut self.slave {
            Slave::Memory(memory) => Ok(put_byte(memory, alloc, address, byte)?),
            Slave::Device => Err(ByteFault::Device),
        }
    }
}

/// Puts a byte, known or unknown, into a memory. If there is no memory for a page, nothing is changed.
fn put_byte(
    memory: &mut PartialMemory,
    alloc: Global,
    address: u64,
    byte: Option<u8>,
) -> Result<(), AllocError>
    ensures put { OnOk result (memory.new ≡ with_byte memory.old address byte) }
    ensures unchanged { OnErr result (memory.new ≡ memory.old) }
{
    let place = memory.place(address);
    match byte {
        Some(byte) => memory.load(alloc, place, &[byte]),
        None => memory.forget(alloc, place, &[true]),
    }
}

/// The port of this number, with these bytes of its image, before any request.
fn port_of(
    alloc: Global,
    number: usize,
    port: &Port,
    images: &[Vec<u8>],
) -> Result<ModelPort, AllocError>
    requires { length (image_of_port (map (λ image. image.items) images.now) number)
        ≤ first_length (port_view port.now).ranges }
    ensures { IfOk result (λ made. made ≡ fresh (kept_of_port (port_view port.now)
        (image_of_port (map (λ image. image.items) images.now) number))) }
{
    Ok(ModelPort::new(kept_at_reset(alloc, port, image_at(images, number))?))
}

/// The ports with these bytes of their images before any request, and after them the error port.
pub(crate) fn ports_of(
    alloc: Global,
    ports: &[Port],
    images: &[Vec<u8>],
) -> Result<Vec<ModelPort>, AllocError>
    requires { ImagesFit (map (λ image. image.items) images.now) (map port_view ports.now) }
    ensures { IfOk result (λ made. made.items
        ≡ ports_at_reset (map (λ image. image.items) images.now) (map port_view ports.now)) }
{
    let mut made = Vec::with_capacity(alloc, ports.len() + 1)?;
    for (number, port) in ports.iter().enumerate() {
        made.push(port_of(alloc, number, port, images)?)?;
    }
    made.push(ModelPort::new(denying_slave(alloc)))?;
    Ok(made)
}

/// Loads into ports what a reset loads, which is taken.
pub(crate) fn load_ports(ports: &mut [ModelPort], loaded: &mut [Option<Slave>])
    requires { length loaded.old ≡ length ports.old }
    ensures { ports.new ≡ ports_loaded ports.old loaded.old }
{
    for number in 0..ports.len() {
        ports[number].load(loaded[number].take());
    }
}
