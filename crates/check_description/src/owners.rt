//! Which wide sources are each master's.
ghost use Rattle.std.specs.Prelude.{◌≡◌, ◌≢◌, IfErr, IfOk, map, option_map};
ghost use Rattle.tl_map.specs.Owners.{AreLawfulOwners, IsFirstSourceOwnerFault};
ghost use Rattle.check_description.specs.Master.{HasOwners, IsBlockFault, IsFirstOwnerFault, IsInBlocks, counts_of as counts_of_masters, master_view, owner_of as owner_of_master, said_owners};
ghost use Rattle.check_description.specs.Description.{IsOfSources};
ghost use Rattle.check_keys.specs.declared.fault.SystemFault.TheVariants.{Memory};

use crate::masters::Master;
use check_keys::SystemFault;
use std::alloc::{AllocError, Global};
use tl_map::{Owner, SourceOwners, blocks};

/// The wide sources that a master says, if it says where they begin.
fn owner_of(master: &Master) -> Option<Owner>
    ensures { result ≡ owner_of_master (master_view master.now) }
{
    Some(Owner {
        first: master.first?,
        count: master.sources,
        stride: master.stride,
    })
}

/// The wide sources of all masters, if each says them.
fn read_owners(alloc: Global, masters: &[Master]) -> Result<Option<Vec<Owner>>, AllocError>
    ensures { IfOk result (λ owners. option_map (λ owners. owners.items) owners
        ≡ said_owners (map master_view masters.now)) }
{
    let mut owners = Vec::with_capacity(alloc, masters.len())?;
    for master in masters {
        let Some(owner) = owner_of(master) else {
            return Ok(None);
        };
        owners.push(owner)?;
    }
    Ok(Some(owners))
}

/// How many sources each master has.
pub(crate) fn counts_of(alloc: Global, masters: &[Master]) -> Result<Vec<u32>, AllocError>
    ensures { IfOk result
        (λ counts. counts.items ≡ counts_of_masters (map master_view masters.now)) }
{
    let mut counts = Vec::with_capacity(alloc, masters.len())?;
    for master in masters {
        counts.push(master.sources)?;
    }
    Ok(counts)
}

/// The sources of masters in blocks of so many.
fn sources_in_blocks(alloc: Global, counts: &[u32]) -> Result<SourceOwners, SystemFault>
    ensures blocks { IfOk result (IsInBlocks counts.now) }
    ensures lawful { IfOk result AreLawfulOwners }
    ensures fault { IfErr result
        (λ fault. fault ≢ Memory → IsOfSources (IsBlockFault counts.now) fault) }
{
    let owners = blocks(alloc, counts)?;
    Ok(SourceOwners::new(alloc, &owners)?)
}

/// The sources of these owners.
fn sources_said(alloc: Global, owners: &[Owner]) -> Result<SourceOwners, SystemFault>
    ensures made { IfOk result (λ sources. sources ≡ owners.now) }
    ensures lawful { IfOk result AreLawfulOwners }
    ensures fault { IfErr result
        (λ fault. fault ≢ Memory → IsOfSources (IsFirstSourceOwnerFault owners.now) fault) }
{
    Ok(SourceOwners::new(alloc, owners)?)
}

/// The sources of the masters: those that they say, or else blocks.
pub fn sources_of(alloc: Global, masters: &[Master]) -> Result<SourceOwners, SystemFault>
    ensures owners { IfOk result (HasOwners (map master_view masters.now)) }
    ensures lawful { IfOk result AreLawfulOwners }
    ensures fault { IfErr result (λ fault. fault ≢ Memory
        → IsOfSources (IsFirstOwnerFault (map master_view masters.now)) fault) }
{
    match read_owners(alloc, masters)? {
        Some(owners) => sources_said(alloc, &owners),
        None => sources_in_blocks(alloc, &counts_of(alloc, masters)?),
    }
}
