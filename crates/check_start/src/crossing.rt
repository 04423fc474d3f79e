//! Which ports' links are judged by themselves if both sides are watched.
ghost use Rattle.std.specs.Prelude.{◌≡◌, IfOk, map};
ghost use Rattle.check_description.specs.Port.{apart_of as apart_of_ports, port_view};

use check_description::Port;
use std::alloc::{AllocError, Global};

/// Of each port, whether its link is.
pub(crate) fn apart_of(alloc: Global, ports: &[Port]) -> Result<Vec<bool>, AllocError>
    ensures { IfOk result (λ apart. apart.items ≡ apart_of_ports (map port_view ports.now)) }
{
    let mut apart = Vec::with_capacity(alloc, ports.len())?;
    for port in ports {
        apart.push(port.crossing.is_apart())?;
    }
    Ok(apart)
}
