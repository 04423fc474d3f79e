//! At which links replies begin in the order of their requests.
ghost use Rattle.std.specs.Prelude.{◌≡◌, IfOk, map};
ghost use Rattle.check_description.specs.Master.{master_fifos as fifos_of_masters, master_view};
ghost use Rattle.check_description.specs.Port.{port_fifos as fifos_of_ports, port_view};

use check_description::{Master, Port};
use check_turns::FifoLinks;
use std::alloc::{AllocError, Global};

/// Of each master, whether they do at its link.
fn master_fifos(alloc: Global, masters: &[Master]) -> Result<Vec<bool>, AllocError>
    ensures { IfOk result (λ fifos. fifos.items ≡ fifos_of_masters (map master_view masters.now)) }
{
    let mut fifos = Vec::with_capacity(alloc, masters.len())?;
    for master in masters {
        fifos.push(master.fifo)?;
    }
    Ok(fifos)
}

/// The same of each port.
fn port_fifos(alloc: Global, ports: &[Port]) -> Result<Vec<bool>, AllocError>
    ensures { IfOk result (λ fifos. fifos.items ≡ fifos_of_ports (map port_view ports.now)) }
{
    let mut fifos = Vec::with_capacity(alloc, ports.len())?;
    for port in ports {
        fifos.push(port.fifo)?;
    }
    Ok(fifos)
}

/// The links of these masters and ports at which they do.
pub(crate) fn fifos_of(
    alloc: Global,
    masters: &[Master],
    ports: &[Port],
) -> Result<FifoLinks, AllocError>
    ensures { IfOk result (λ fifos. fifos ≡ record {
      masters = fifos_of_masters (map master_view masters.now);
      ports = fifos_of_ports (map port_view ports.now);
    }) }
{
    Ok(FifoLinks::new(master_fifos(alloc, masters)?, port_fifos(alloc, ports)?))
}
