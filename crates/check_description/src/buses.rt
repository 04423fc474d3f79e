//! The buses of a system's links.
ghost use Rattle.std.specs.Prelude.{◌≡◌, IfOk, map};
ghost use Rattle.check_description.specs.Buses.{master_buses, port_buses};
ghost use Rattle.check_description.specs.Master.{master_view};
ghost use Rattle.check_description.specs.Port.{port_view};

use crate::masters::Master;
use crate::port::Port;
use check_beats::Bus;
use std::alloc::{AllocError, Global};

/// The bus of each master's link, in order.
pub fn master_buses(alloc: Global, masters: &[Master]) -> Result<Vec<Bus>, AllocError>
    ensures { IfOk result (λ buses. buses.items ≡ master_buses (map master_view masters.now)) }
{
    let mut buses = Vec::with_capacity(alloc, masters.len())?;
    for master in masters {
        buses.push(master.bus)?;
    }
    Ok(buses)
}

/// The bus of each port's link, in order.
pub fn port_buses(alloc: Global, ports: &[Port]) -> Result<Vec<Bus>, AllocError>
    ensures { IfOk result (λ buses. buses.items ≡ port_buses (map port_view ports.now)) }
{
    let mut buses = Vec::with_capacity(alloc, ports.len())?;
    for port in ports {
        buses.push(port.bus)?;
    }
    Ok(buses)
}
