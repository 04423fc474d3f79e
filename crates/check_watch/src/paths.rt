//! The ports to which masters have paths.
ghost use Rattle.std.specs.Prelude.{◌≡◌, IfOk, false, option_map, slice_index_or};
ghost use Rattle.check_watch.specs.Paths.{has_path, paths_in};

use std::alloc::{AllocError, Global};
use std::marker::Model;

/// The ports to which each master of a crossbar has a path.
#[derive(Drop)]
pub struct Paths {
    flags: Vec<Option<Vec<bool>>>,
}

impl Model for Paths {
    ghost use Rattle.std.specs.Prelude.{Bool, List, Option};
    ghost use Rattle.check_watch.specs.Paths.{paths_in};

    ghost Value = { List (Option (List Bool)) };

    ghost view = { λ p. paths_in p.flags.items };
}

impl Clone for Paths {
    ghost use Rattle.std.specs.Prelude.{◌≡◌};

    ghost is_clone = { λ paths copy. copy ≡ paths };

    fn clone(&self) -> Result<Paths, AllocError> {
        Ok(Paths {
            flags: copy_rows(*self.flags.allocator(), &self.flags)?,
        })
    }
}

/// A copy of the flags of a master.
fn copy_row(alloc: Global, row: &Option<Vec<bool>>) -> Result<Option<Vec<bool>>, AllocError>
    ensures { IfOk result (λ copy. option_map (λ flags. flags.items) copy ≡ option_map (λ flags. flags.items) row.now) }
{
    match row {
        Some(flags) => Ok(Some(Vec::from_slice(alloc, flags)?)),
        None => Ok(None),
    }
}

/// A copy of the flags of masters.
fn copy_rows(
    alloc: Global,
    rows: &[Option<Vec<bool>>],
) -> Result<Vec<Option<Vec<bool>>>, AllocError>
    ensures { IfOk result (λ copies. paths_in copies.items ≡ paths_in rows.now) }
{
    let mut copies = Vec::with_capacity(alloc, rows.len())?;
    for row in rows {
        copies.push(copy_row(alloc, row)?)?;
    }
    Ok(copies)
}

impl Paths {
    /// A flag for each port, master by master. A master without flags has a path to each port, and so has one that is not
    /// in the list.
    pub fn new(flags: Vec<Option<Vec<bool>>>) -> Paths
        ensures { result ≡ paths_in flags.items }
    {
        Paths { flags }
    }

    /// Whether a master has a path to a port.
    pub fn has(&self, master: usize, port: usize) -> bool
        ensures { result ≡ has_path self.now master port }
    {
        match self.flags.get(master) {
            Some(Some(flags)) => is_set(flags, port),
            Some(None) | None => true,
        }
    }
}

/// The flag of a port.
fn is_set(flags: &[bool], port: usize) -> bool
    ensures { result ≡ slice_index_or flags.now port false }
{
    match flags.get(port) {
        Some(flag) => *flag,
        None => false,
    }
}
