//! The slaves of a system's ports, before any request.
ghost use Rattle.std.specs.Prelude.{◌≡◌, map};
ghost use Rattle.check_keys.specs.Reading.{Gives};
ghost use Rattle.check_description.specs.Port.{port_view};
ghost use Rattle.check_description.specs.Slave.{slave_at_reset};
ghost use Rattle.check_start.specs.Slaves.{image_at, order_at_masters as masters_order, order_at_ports as ports_order, order_of, shared_side as side_that_is_shared, slaves_at_reset, slaves_from};

use check_description::{Port, error_slave, slave_of};
use check_flight::{Order, PortSlave, SideOrders};
use check_keys::SystemFault;
use check_turns::Links;
use std::alloc::Global;

/// The side on which a slave sees its requests.
#[derive(Debug, Clone, Copy, PartialEq, Eq)]
pub enum SlaveSide {
    /// At the masters' links.
    Masters,
    /// At its own link.
    Ports,
    /// At its own link if messages to it are compared across, else at the masters' links.
    Compared,
}

/// The side on which the slaves of links that are judged together see requests.
pub fn shared_side(links: Links) -> SlaveSide
    ensures { result ≡ side_that_is_shared links }
{
    match links {
        Links::Both => SlaveSide::Compared,
        Links::Ports => SlaveSide::Ports,
        Links::Masters | Links::Each => SlaveSide::Masters,
    }
}

/// When the requests of a port take effect, as masters see it.
fn order_at_masters(orders: SideOrders, port: &Port) -> Order
    ensures { result ≡ masters_order orders (port_view port.now) }
{
    port.orders.masters.unwrap_or(orders.masters)
}

/// When they do, as the port's link shows it.
fn order_at_ports(orders: SideOrders, port: &Port) -> Order
    ensures { result ≡ ports_order orders (port_view port.now) }
{
    port.orders.ports.unwrap_or(orders.ports)
}

/// When the requests of a port take effect, as they are seen on a side.
fn order_of(side: SlaveSide, orders: SideOrders, port: &Port) -> Order
    ensures { result ≡ order_of side orders (port_view port.now) }
{
    match side {
        SlaveSide::Masters => order_at_masters(orders, port),
        SlaveSide::Ports => order_at_ports(orders, port),
        SlaveSide::Compared => {
            if port.crossing.is_apart() {
                order_at_masters(orders, port)
            } else {
                order_at_ports(orders, port)
            }
        }
    }
}

/// The bytes of the image of the port of this number, none if none are given.
pub fn image_at(images: &[Vec<u8>], port: usize) -> &[u8]
    ensures { result.now ≡ image_at (map (λ image. image.items) images.now) port }
{
    match images.get(port) {
        Some(image) => image.as_slice(),
        None => &[],
    }
}

/// The slave of the port of this number, of a system in which data may be corrupt or not.
fn port_slave(
    alloc: Global,
    corrupt: bool,
    number: usize,
    port: &Port,
    images: &[Vec<u8>],
    side: SlaveSide,
    orders: SideOrders,
) -> Result<PortSlave, SystemFault>
    ensures { Gives (λ slave. slave) result
        (slave_at_reset corrupt number (port_view port.now) (image_at (map (λ image. image.items) images.now) number)
        (order_of side orders (port_view port.now))) }
{
    let order = order_of(side, orders, port);
    slave_of(
        alloc,
        corrupt,
        number,
        port,
        image_at(images, number),
        order,
    )
}

/// The slaves of the ports, with these bytes of their images, as a side sees them, by these orders for ports that say none.
fn port_slaves(
    alloc: Global,
    corrupt: bool,
    ports: &[Port],
    images: &[Vec<u8>],
    side: SlaveSide,
    orders: SideOrders,
) -> Result<Vec<PortSlave>, SystemFault>
    ensures { Gives (λ slaves. slaves.items) result
        (slaves_from corrupt side orders (map (λ image. image.items) images.now) 0 (map port_view ports.now)) }
{
    let mut slaves = Vec::with_capacity(alloc, ports.len() + 1)?;
    for (number, port) in ports.iter().enumerate() {
        slaves.push(port_slave(alloc, corrupt, number, port, images, side, orders)?)?;
    }
    Ok(slaves)
}

/// The same, and after them the slave of the error port.
pub fn slaves_of(
    alloc: Global,
    corrupt: bool,
    ports: &[Port],
    images: &[Vec<u8>],
    side: SlaveSide,
    orders: SideOrders,
) -> Result<Vec<PortSlave>, SystemFault>
    ensures { Gives (λ slaves. slaves.items) result
        (slaves_at_reset corrupt side orders (map (λ image. image.items) images.now) (map port_view ports.now)) }
{
    let mut slaves = port_slaves(alloc, corrupt, ports, images, side, orders)?;
    slaves.push(error_slave(alloc, corrupt, orders.masters))?;
    Ok(slaves)
}
