//! The slave that a port is before any request.
ghost use Rattle.std.specs.Prelude.{◌≡◌, ◌≤◌, IfOk, length};
ghost use Rattle.check_keys.specs.Reading.{Gives};
ghost use Rattle.check_description.specs.Port.{keeps_bytes, may_answer_unknown as lanes_may_be_unknown, port_view};
ghost use Rattle.check_description.specs.Ranges.{first_length as length_of_first};
ghost use Rattle.check_description.specs.Slave.{blank_memory, denying_slave as slave_that_denies, error_slave as slave_of_error, kept_at_reset, memory_at_reset, sizes_of_port, slave_at_reset};

use crate::kind::PortKind;
use crate::mirror::{mirrors_kept, ranges_kept};
use crate::on_reset::OnReset;
use crate::port::Port;
use crate::ranges::{first_base, first_length};
use check_flight::{Order, PortSlave};
use check_keys::SystemFault;
use check_memory::{PartialMemory, Sizes, Slave};
use std::alloc::{AllocError, Global};
use tl_ops::Kind;

/// The sizes that a memory of a kind supports at a port: the port's own, or else the kind's row.
fn sizes_of(kind: Kind, port: &Port) -> Sizes
    ensures { result ≡ sizes_of_port kind (port_view port.now) }
{
    let Some(sizes) = &port.sizes else {
        return Sizes::of(kind);
    };
    match Sizes::new(sizes.table()) {
        Some(sizes) => sizes,
        None => unreachable!(),
    }
}

/// The memory of a port in which nothing was put yet.
fn blank_of(alloc: Global, kind: Kind, port: &Port) -> Result<PartialMemory, AllocError>
    ensures { IfOk result (λ memory. memory ≡ blank_memory kind (port_view port.now)) }
{
    let ranges = ranges_kept(alloc, port.mirror, &port.ranges)?;
    let mirrors = mirrors_kept(alloc, port.mirror, &port.ranges)?;
    let volatile = Vec::from_slice(alloc, &port.volatile)?;
    let sizes = sizes_of(kind, port);
    let known = !port.contents.unknown;
    Ok(PartialMemory::new(alloc, kind, sizes, ranges, mirrors, volatile, known))
}

/// The memory of a port before any request, with these bytes of its image.
fn memory_of(
    alloc: Global,
    kind: Kind,
    port: &Port,
    image: &[u8],
) -> Result<PartialMemory, AllocError>
    requires { length image.now ≤ length_of_first (port_view port.now).ranges }
    ensures { IfOk result (λ memory. memory ≡ memory_at_reset kind (port_view port.now) image.now) }
{
    let base = first_base(&port.ranges);
    let mut memory = blank_of(alloc, kind, port)?;
    memory.load(alloc, base, image)?;
    memory.load(alloc, base, &port.contents.reset)?;
    Ok(memory)
}

/// What a port keeps before any request, with these bytes of its image. A reset loads the same.
pub fn kept_at_reset(alloc: Global, port: &Port, image: &[u8]) -> Result<Slave, AllocError>
    requires { length image.now ≤ length_of_first (port_view port.now).ranges }
    ensures { IfOk result (λ kept. kept ≡ kept_at_reset (port_view port.now) image.now) }
{
    match port.kind {
        PortKind::Memory(kind) => Ok(Slave::Memory(memory_of(alloc, kind, port, image)?)),
        PortKind::Device => Ok(Slave::Device),
    }
}

/// Whether resets leave the bytes of a port, but for those that they cut short.
fn keeps_bytes(port: &Port) -> bool
    ensures { result ≡ keeps_bytes (port_view port.now).on_reset }
{
    matches!(port.on_reset, OnReset::Keep)
}

/// Whether lanes of a port's replies may be unknown.
fn may_answer_unknown(port: &Port) -> bool
    ensures { result ≡ lanes_may_be_unknown (port_view port.now) }
{
    port.contents.unknown || !port.volatile.is_empty() || keeps_bytes(port)
}

/// The slave that the port of this number is before any request, or that its image is longer than its first range. The
/// bytes of the image are handed in, none if it names no image, the order in which its requests take effect, and whether data
/// may be corrupt.
pub fn slave_of(
    alloc: Global,
    corrupt: bool,
    number: usize,
    port: &Port,
    image: &[u8],
    order: Order,
) -> Result<PortSlave, SystemFault>
    ensures { Gives (λ slave. slave) result
        (slave_at_reset corrupt number (port_view port.now) image.now order) }
{
    if image.len() as u64 > first_length(&port.ranges) {
        return Err(SystemFault::ImageTooLong(number));
    }
    let kept = kept_at_reset(alloc, port, image)?;
    Ok(PortSlave::new(alloc, kept, order, corrupt || may_answer_unknown(port)))
}

/// A memory with no range, which denies each request.
pub fn denying_slave(alloc: Global) -> Slave
    ensures { result ≡ slave_that_denies }
{
    let sizes = Sizes::of(Kind::NoDevice);
    let (nowhere, alone, nothing) = (Vec::new(alloc), Vec::new(alloc), Vec::new(alloc));
    let memory = PartialMemory::new(alloc, Kind::NoDevice, sizes, nowhere, alone, nothing, true);
    Slave::Memory(memory)
}

/// The slave of the error port, of a system in which data may be corrupt or not.
pub fn error_slave(alloc: Global, corrupt: bool, order: Order) -> PortSlave
    ensures { result ≡ slave_of_error corrupt order }
{
    PortSlave::new(alloc, denying_slave(alloc), order, corrupt)
}
