//! The names of the links of a system.
ghost use Rattle.std.specs.Prelude.{◌≡◌, IfOk, option_map, string_bytes};
ghost use Rattle.check_lines.specs.Names.{name_at, name_of_link, no_names, texts_of};

use check_watch::Link;
use std::alloc::{AllocError, Global};
use std::marker::Model;

/// The names of a system's masters and ports, if they have one, by their numbers.
#[derive(Debug, Drop)]
pub struct Names {
    masters: Vec<Option<String>>,
    ports: Vec<Option<String>>,
}

impl Model for Names {
    ghost use Rattle.check_lines.specs.Names.{NamesView, texts_of};

    ghost Value = { NamesView };

    ghost view = { λ n. record { masters = texts_of n.masters.items; ports = texts_of n.ports.items } };
}

impl Clone for Names {
    ghost use Rattle.std.specs.Prelude.{◌≡◌};

    ghost is_clone = { λ names copy. copy ≡ names };

    fn clone(&self) -> Result<Names, AllocError> {
        let alloc = *self.masters.allocator();
        Ok(Names {
            masters: copy_names(alloc, &self.masters)?,
            ports: copy_names(alloc, &self.ports)?,
        })
    }
}

/// A copy of a name, if there is one.
fn copy_name(name: &Option<String>) -> Result<Option<String>, AllocError>
    ensures { IfOk result (λ copy. option_map string_bytes copy ≡ option_map string_bytes name.now) }
{
    match name {
        Some(name) => Ok(Some(name.clone()?)),
        None => Ok(None),
    }
}

/// A copy of names.
fn copy_names(alloc: Global, names: &[Option<String>]) -> Result<Vec<Option<String>>, AllocError>
    ensures { IfOk result (λ copies. texts_of copies.items ≡ texts_of names.now) }
{
    let mut copies = Vec::with_capacity(alloc, names.len())?;
    for name in names {
        copies.push(copy_name(name)?)?;
    }
    Ok(copies)
}

/// The name at a place, if there is one.
fn name_at(names: &[Option<String>], number: usize) -> Option<&str>
    ensures { option_map (λ name. name.now) result ≡ name_at (texts_of names.now) number }
{
    match names.get(number) {
        Some(Some(name)) => Some(name),
        Some(None) | None => None,
    }
}

impl Names {
    /// These names of masters and ports.
    pub fn new(masters: Vec<Option<String>>, ports: Vec<Option<String>>) -> Names
        ensures { result ≡ record { masters = texts_of masters.items; ports = texts_of ports.items } }
    {
        Names { masters, ports }
    }

    /// The names of a system in which nothing has one.
    pub fn none(alloc: Global) -> Names
        ensures { result ≡ no_names }
    {
        Names {
            masters: Vec::new(alloc),
            ports: Vec::new(alloc),
        }
    }

    /// The name of a link's master or port, if it has one.
    pub fn name(&self, link: Link) -> Option<&str>
        ensures { option_map (λ name. name.now) result ≡ name_of_link self.now link }
    {
        match link {
            Link::Master(number) => name_at(&self.masters, number),
            Link::Port(number) => name_at(&self.ports, number),
        }
    }
}
