//! Whether the masters that ports list are told apart by their sources at the ports' links. Of masters it is known how many
//! sources each has.
ghost use Rattle.std.specs.Prelude.{◌≡◌, ◌≢◌, ℕ, IfErr, IfNone, IfOk, IfSome, OnOk, map, option_map};
ghost use Rattle.tl_map.specs.Owners.{AreLawfulOwners};
ghost use Rattle.check_keys.specs.declared.fault.SystemFault.TheVariants.{Memory};
ghost use Rattle.check_description.specs.Apart.{AreApartAt, IsFirstListFault, IsFreeFor, IsNobodys, IsOfLists, IsOwnFault, fault_at as fault_at_port, named as named_in_list, place_number as number_in_list, owner_at as owner_at_link, owners_at as owners_at_link};

use crate::placed::PlacedMaster;
use check_keys::SystemFault;
use std::alloc::{AllocError, Global};
use tl_map::{MAX_WIDE, Owner, SourceOwnerFault, SourceOwners};

/// The sources of a master at the link of a port that lists it.
fn owner_at(counts: &[u32], placed: PlacedMaster) -> Owner
    ensures { result ≡ owner_at_link counts.now placed }
{
    Owner {
        first: placed.first,
        count: counts.get(placed.master).copied().unwrap_or(0),
        stride: placed.stride,
    }
}

/// Those of all masters of a list.
fn owners_at(
    alloc: Global,
    counts: &[u32],
    placed: &[PlacedMaster],
) -> Result<Vec<Owner>, AllocError>
    ensures { IfOk result (λ owners. owners.items ≡ owners_at_link counts.now placed.now) }
{
    let mut owners = Vec::with_capacity(alloc, placed.len())?;
    for one in placed {
        owners.push(owner_at(counts, *one))?;
    }
    Ok(owners)
}

/// The least wide source that is nobody's.
fn first_free(sources: &SourceOwners) -> Option<u16>
    ensures free { IfSome result (IsNobodys sources.now) }
    ensures none { IfNone result ((wide : ℕ) → IsNobodys sources.now wide → ⊥) }
{
    for wide in 0..MAX_WIDE + 1 {
        if !sources.is_owned(wide as u16) {
            return Some(wide as u16);
        }
    }
    None
}

/// The number of the master at a place of a list.
fn place_number(placed: &[PlacedMaster], place: usize) -> usize
    ensures { result ≡ number_in_list placed.now place }
{
    match placed.get(place) {
        Some(one) => one.master,
        None => 0,
    }
}

/// The fault of a list, which names places, with the numbers of the masters there.
fn named(placed: &[PlacedMaster], fault: SourceOwnerFault) -> SourceOwnerFault
    ensures { result ≡ named_in_list placed.now fault }
{
    match fault {
        SourceOwnerFault::TooMany => SourceOwnerFault::TooMany,
        SourceOwnerFault::Shared(earlier, later, wide) => {
            SourceOwnerFault::Shared(
                place_number(placed, earlier),
                place_number(placed, later),
                wide,
            )
        }
        SourceOwnerFault::Memory => SourceOwnerFault::Memory,
    }
}

/// Whether the masters of a list share no source at the port's link.
fn check_list(
    alloc: Global,
    counts: &[u32],
    placed: &[PlacedMaster],
) -> Result<(), SourceOwnerFault>
    ensures apart { OnOk result (AreLawfulOwners (owners_at_link counts.now placed.now)) }
    ensures fault { IfErr result (λ fault. fault ≢ SourceOwnerFault.Memory
        → IsOwnFault counts.now placed.now fault) }
{
    let owners = owners_at(alloc, counts, placed)?;
    match SourceOwners::new(alloc, &owners) {
        Ok(_) => Ok(()),
        Err(fault) => Err(named(placed, fault)),
    }
}

/// The fault of the list of a port as a system's.
fn fault_at(port: usize, fault: SourceOwnerFault) -> SystemFault
    ensures { result ≡ fault_at_port port fault }
{
    match fault {
        SourceOwnerFault::Memory => SystemFault::Memory,
        _ => SystemFault::PortSources(port, fault),
    }
}

/// Whether the masters that ports list are told apart. The answer is a wide source that is nobody's, if some port lists
/// masters.
pub(crate) fn check_lists(
    alloc: Global,
    counts: &[u32],
    sources: &SourceOwners,
    lists: &[Option<Vec<PlacedMaster>>],
) -> Result<u16, SystemFault>
    ensures apart { OnOk result ((port : ℕ) → AreApartAt counts.now sources.now
        (map (option_map (λ placed. placed.items)) lists.now) port) }
    ensures free { IfOk result (λ wide.
        IsFreeFor sources.now (map (option_map (λ placed. placed.items)) lists.now) wide) }
    ensures fault { IfErr result (λ fault. fault ≢ Memory → IsOfLists (IsFirstListFault counts.now
        sources.now (map (option_map (λ placed. placed.items)) lists.now)) fault) }
{
    let free = first_free(sources);
    for (port, list) in lists.iter().enumerate() {
        let Some(placed) = list else {
            continue;
        };
        if free.is_none() {
            return Err(SystemFault::PortSources(port, SourceOwnerFault::TooMany));
        }
        match check_list(alloc, counts, placed) {
            Ok(()) => {}
            Err(fault) => return Err(fault_at(port, fault)),
        }
    }
    Ok(free.unwrap_or(0))
}
