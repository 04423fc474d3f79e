//! The names of a system's ports and masters, which are all different.
ghost use Rattle.std.specs.Prelude.{◌≡◌, ◌≢◌, ◌<◌, IfErr, IfNone, IfOk, IfSome, OnOk, length, map};
ghost use Rattle.std.specs.List.{filter_map};
ghost use Rattle.check_keys.specs.declared.fault.SystemFault.TheVariants.{Memory};
ghost use Rattle.check_description.specs.Port.{port_view};
ghost use Rattle.check_description.specs.File.{parts_view};
ghost use Rattle.check_keys.specs.Known.{is_among as is_one_of};
ghost use Rattle.check_description.specs.Name.{AreDistinct, IsFirstTwice, IsNameFault, names_of as names_of_parts};

use crate::parts::Parts;
use crate::port::Port;
use check_keys::SystemFault;
use std::alloc::{AllocError, Global};

/// Whether the name is one of these.
fn is_among(names: &[&str], name: &str) -> bool
    ensures { result ≡ is_one_of (map (λ name. name.now) names.now) name.now }
{
    for other in names {
        if name == *other {
            return true;
        }
    }
    false
}

/// The first place whose name stood before.
fn first_twice(names: &[&str]) -> Option<usize>
    ensures found { IfSome result (IsFirstTwice (map (λ name. name.now) names.now)) }
    ensures inside { IfSome result (λ place. place < length names.now) }
    ensures none { IfNone result (AreDistinct (map (λ name. name.now) names.now)) }
{
    for (place, name) in names.iter().enumerate() {
        if is_among(&names[..place], name) {
            return Some(place);
        }
    }
    None
}

/// The names of ports, in order.
fn names_of_ports<'a>(alloc: Global, ports: &'a [Port]) -> Result<Vec<&'a str>, AllocError>
    ensures { IfOk result (λ names. map (λ name. name.now) names.items
        ≡ filter_map (λ port. port.name) (map port_view ports.now)) }
{
    let mut names = Vec::new(alloc);
    for port in ports {
        let Some(name) = &port.name else {
            continue;
        };
        names.push(name.as_str())?;
    }
    Ok(names)
}

/// The names of ports and then of masters, in order.
fn names_of<'a>(alloc: Global, parts: &'a Parts) -> Result<Vec<&'a str>, AllocError>
    ensures { IfOk result (λ names. map (λ name. name.now) names.items
        ≡ names_of_parts (parts_view parts.now)) }
{
    let mut names = names_of_ports(alloc, &parts.ports)?;
    for master in &parts.masters {
        let Some(name) = &master.name else {
            continue;
        };
        names.push(name.as_str())?;
    }
    Ok(names)
}

/// Whether no two ports or masters have the same name.
pub fn check_names(alloc: Global, parts: &Parts) -> Result<(), SystemFault>
    ensures distinct { OnOk result (AreDistinct (names_of_parts (parts_view parts.now))) }
    ensures fault { IfErr result (λ fault. fault ≢ Memory → IsNameFault (parts_view parts.now) fault) }
{
    let names = names_of(alloc, parts)?;
    match first_twice(&names) {
        Some(place) => Err(SystemFault::TwoCalled(String::from_str(alloc, names[place])?)),
        None => Ok(()),
    }
}
