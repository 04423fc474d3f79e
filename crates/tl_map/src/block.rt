//! The owners of masters that say only how many sources they have.
ghost use Rattle.std.specs.Prelude.{◌≡◌, ◌≢◌, ◌+◌, ◌^◌, ◌<◌, ◌≤◌, ◌↔◌, IsTrue, IfOk, OnOk, IfErr, length, All};
ghost use Rattle.tl_map.specs.Block.{IsBlockSize, IsBlockStart};
ghost use Rattle.tl_map.specs.Blocks.{AreBlocks, AreFew, IsFew};

use crate::limits::{MAX_BLOCK, MAX_JUDGED_MASTERS};
use crate::owners::{Owner, SourceOwnerFault};
use std::alloc::{AllocError, Global};

/// Whether a master has a source, and not more than a block may have.
fn is_few(count: u32) -> bool
    ensures { IsTrue result ↔ IsFew count }
{
    0 < count && count <= MAX_BLOCK
}

/// Whether there are few enough masters, each with few enough sources and at least one.
fn are_few(counts: &[u32]) -> bool
    ensures { IsTrue result ↔ AreFew counts.now }
{
    counts.len() <= MAX_JUDGED_MASTERS && counts.iter().all(|count| is_few(*count))
}

/// The size of the block of a master with this many sources.
fn block_size(count: u32) -> u32
    requires { IsFew count }
    ensures size { IsBlockSize count result }
    ensures in_limit { result ≤ MAX_BLOCK }
{
    count.next_power_of_two()
}

/// The start of a block of this size after a block that ends here.
fn block_start(end: u32, size: u32) -> u32
    requires some { 0 < size }
    requires in_limit { end + size ≤ 2 ^ 16 }
    ensures start { IsBlockStart end size result }
    ensures near { result < end + size }
{
    u32::next_multiple_of(end, size)
}

/// The owners of masters with these counts: each has the first sources of a block.
fn place_blocks(alloc: Global, counts: &[u32]) -> Result<Vec<Owner>, AllocError>
    requires { AreFew counts.now }
    ensures { IfOk result (λ owners. AreBlocks counts.now owners.items) }
{
    let mut owners = Vec::with_capacity(alloc, counts.len())?;
    let mut end = 0;
    for count in counts {
        let size = block_size(*count);
        let start = block_start(end, size);
        owners.push(Owner {
            first: start as u16,
            count: *count,
            stride: 1,
        })?;
        end = start + size;
    }
    Ok(owners)
}

/// The owners of masters that say only how many sources they have. Each master has a block of the least power of two
/// that is at least its count, at the first multiple of that size that is not below the end of the block before. More
/// than 64 masters, no source, or more than 256 sources of one master are `TooMany`.
pub fn blocks(alloc: Global, counts: &[u32]) -> Result<Vec<Owner>, SourceOwnerFault>
    ensures few { OnOk result (AreFew counts.now) }
    ensures made { IfOk result (λ owners. AreBlocks counts.now owners.items) }
    ensures fault { IfErr result (λ fault. fault ≢ SourceOwnerFault.Memory
        → (fault ≡ SourceOwnerFault.TooMany) × (AreFew counts.now → ⊥)) }
{
    if !are_few(counts) {
        return Err(SourceOwnerFault::TooMany);
    }
    Ok(place_blocks(alloc, counts)?)
}
