//! The sources of the masters of a script: each has a block.
ghost use Rattle.std.specs.Prelude.{◌≡◌, ◌<◌, ◌≤◌, ◌↔◌, ◌⊎◌, length, IsTrue, IfSome, IfNone, IfOk, OnOk, IfErr, All, Any};
ghost use Rattle.tl_types.specs.List.{FailsFirstAt};
ghost use Rattle.tl_map.specs.Blocks.{AreBlocks};
ghost use Rattle.tl_script.specs.Sources.{AreLawfulCounts, IsFirstSourceFault};

use std::alloc::{AllocError, Global};
use thiserror::Error;
use tl_map::{MAX_BLOCK, SourceOwners, blocks};
use tl_types::MAX_MASTERS;

/// Why counts make no sources. Masters are named by their numbers.
#[derive(Debug, Clone, Copy, PartialEq, Eq, Error)]
pub enum SourceFault {
    #[error("too many masters or sources")]
    TooMany,
    #[error("master {0}: no source")]
    NoSource(usize),
    #[error("memory refused")]
    Memory,
}

/// Whether there are more masters, or more sources of one of them, than there may be.
fn are_too_many(counts: &[u16]) -> bool
    ensures { IsTrue result
        ↔ ((MAX_MASTERS < length counts.now) ⊎ Any (λ count. MAX_BLOCK < count) counts.now) }
{
    counts.len() > MAX_MASTERS || counts.iter().any(|count| u32::from(*count) > MAX_BLOCK)
}

/// The lowest master without a source.
fn without_source(counts: &[u16]) -> Option<usize>
    ensures found { IfSome result (FailsFirstAt (λ count. 0 < count) counts.now) }
    ensures none { IfNone result (All (λ count. 0 < count) counts.now) }
{
    counts.iter().position(|count| *count == 0)
}

/// The same counts as numbers that a judge's system may have.
fn widened(alloc: Global, counts: &[u16]) -> Result<Vec<u32>, AllocError>
    ensures { IfOk result (λ wide. wide.items ≡ counts.now) }
{
    let mut wide = Vec::with_capacity(alloc, counts.len())?;
    for count in counts {
        wide.push(u32::from(*count))?;
    }
    Ok(wide)
}

/// The owners of the blocks of these counts.
fn keep(alloc: Global, counts: &[u16]) -> Option<SourceOwners>
    ensures { IfSome result (AreBlocks counts.now) }
{
    let Ok(wide) = widened(alloc, counts) else {
        return None;
    };
    let Ok(owners) = blocks(alloc, &wide) else {
        return None;
    };
    let Ok(sources) = SourceOwners::new(alloc, &owners) else {
        return None;
    };
    Some(sources)
}

/// The sources of masters with these counts, or the first fault that the counts have.
pub(crate) fn sources_of(alloc: Global, counts: &[u16]) -> Result<SourceOwners, SourceFault>
    ensures made { IfOk result (AreBlocks counts.now) }
    ensures lawful { OnOk result (AreLawfulCounts counts.now) }
    ensures fault { IfErr result (IsFirstSourceFault counts.now) }
{
    if are_too_many(counts) {
        return Err(SourceFault::TooMany);
    }
    if let Some(master) = without_source(counts) {
        return Err(SourceFault::NoSource(master));
    }
    keep(alloc, counts).ok_or(SourceFault::Memory)
}
