//! The wide sources of masters.
ghost use Rattle.std.specs.Prelude.{◌≡◌, ◌≢◌, ◌+◌, ◌-◌, ◌*◌, ◌<◌, ◌≤◌, ℕ, ◌↔◌, Err, Some, length, IsTrue, IfSome, IfNone, IfOk, OnOk, IfErr, slice_get, All};
ghost use Rattle.tl_map.specs.Blocks.{counts_in};
ghost use Rattle.tl_map.specs.Owner.{IsOf, IsOwned, IsWideSource, Widens};
ghost use Rattle.tl_map.specs.Owners.{AreApartBelow, AreLawfulOwners, IsFirstSourceOwnerFault, IsLawfulOwner, IsSharedBy};
ghost use Rattle.tl_map.specs.Marks.{AreMarked, HasRoomFor, IsMarkedUpTo};

use crate::limits::{MAX_JUDGED_MASTERS, MAX_JUDGED_SOURCES, MAX_WIDE};
use std::alloc::{AllocError, Global};
use std::marker::Model;
use thiserror::Error;

/// Why owners make no sources. Masters are named by their numbers, of two that share a source the earlier is first.
#[derive(Debug, Clone, Copy, PartialEq, Eq, Error)]
pub enum SourceOwnerFault {
    #[error("too many masters or sources")]
    TooMany,
    #[error("masters {0} and {1} share source {2}")]
    Shared(usize, usize, u16),
    #[error("memory refused")]
    Memory,
}

impl From<AllocError> for SourceOwnerFault {
    ghost use Rattle.tl_map.specs.declared.owners.SourceOwnerFault.TheVariants.{Memory};

    ghost from_gives = { λ _ fault. fault ≡ Memory };

    fn from(_: AllocError) -> SourceOwnerFault {
        SourceOwnerFault::Memory
    }
}

/// A master's sources: the wide source of the first, how many there are, and how far apart their wide sources are.
#[derive(Debug, Clone, Copy, PartialEq, Eq)]
pub struct Owner {
    pub first: u16,
    pub count: u32,
    pub stride: u16,
}

impl Owner {
    /// Whether the owner has a source, not too many, and no wide source is too large.
    fn is_lawful(self) -> bool
        ensures { IsTrue result ↔ IsLawfulOwner self }
    {
        0 < self.count
            && self.count <= MAX_JUDGED_SOURCES
            && 0 < self.stride
            && u64::from(self.first) + u64::from(self.stride) * u64::from(self.count - 1)
                <= u64::from(MAX_WIDE)
    }

    /// One more than the last wide source.
    fn end(self) -> usize
        requires { IsLawfulOwner self }
        ensures { result ≡ self.first + self.stride * (self.count - 1) + 1 }
    {
        self.first as usize + self.stride as usize * (self.count - 1) as usize + 1
    }

    /// The wide source of a source, if the owner has it.
    fn wide_of(self, source: u16) -> Option<u16>
        requires { IsLawfulOwner self }
        ensures { (wide : ℕ) → (result ≡ Some wide) ↔ Widens self source wide }
    {
        if u32::from(source) >= self.count {
            return None;
        }
        Some((u32::from(self.first) + u32::from(self.stride) * u32::from(source)) as u16)
    }

    /// The source that has a wide source, which is one of the owner's.
    fn source_of(self, wide: u16) -> u16
        requires lawful { IsLawfulOwner self }
        requires of { (source : ℕ) × Widens self source wide }
        ensures { Widens self result wide }
    {
        (wide - self.first) / self.stride
    }
}

/// The wide sources of some masters, which contracts see as the masters' owners.
#[derive(Debug, Drop)]
pub struct SourceOwners {
    owners: Vec<Owner>,
    /// The master of each wide source up to the largest, if it is one's.
    marks: Vec<Option<u8>>,
}

impl Model for SourceOwners {
    ghost use Rattle.std.specs.Prelude.{List};
    ghost use Rattle.tl_map.specs.declared.owners.Owner.{Owner};
    ghost use Rattle.tl_map.specs.Marks.{AreKept};

    ghost Value = { List Owner };

    ghost view = { λ s. s.owners.items };

    ghost invariant = { λ s. AreKept s.owners.items s.marks.items };
}

impl Clone for SourceOwners {
    ghost use Rattle.std.specs.Prelude.{◌≡◌};

    ghost is_clone = { λ owners copy. copy ≡ owners };

    fn clone(&self) -> Result<SourceOwners, AllocError> {
        Ok(SourceOwners {
            owners: self.owners.clone()?,
            marks: self.marks.clone()?,
        })
    }
}

impl SourceOwners {
    /// The sources of these owners, or the first fault that they have. Want of memory is answered only if there are not too
    /// many, and then before the sources of two masters are compared, or after.
    pub fn new(alloc: Global, owners: &[Owner]) -> Result<SourceOwners, SourceOwnerFault>
        ensures made { IfOk result (λ sources. sources ≡ owners.now) }
        ensures lawful { OnOk result (AreLawfulOwners owners.now) }
        ensures fault { IfErr result (λ fault. fault ≢ SourceOwnerFault.Memory → IsFirstSourceOwnerFault owners.now fault) }
        ensures memory { result ≡ Err SourceOwnerFault.Memory
            → (length owners.now ≤ MAX_JUDGED_MASTERS) × All IsLawfulOwner owners.now }
    {
        if owners.len() > MAX_JUDGED_MASTERS || !are_lawful(owners) {
            return Err(SourceOwnerFault::TooMany);
        }
        let mut marks = no_marks(alloc, owners)?;
        if let Some(fault) = mark_all(&mut marks, owners) {
            return Err(fault);
        }
        let owners = Vec::from_slice(alloc, owners)?;
        Ok(SourceOwners { owners, marks })
    }

    /// The wide source of a master's source, if the master has that source.
    pub fn widen(&self, master: usize, source: u16) -> Option<u16>
        ensures { (wide : ℕ) → (result ≡ Some wide) ↔ IsWideSource self.now master source wide }
    {
        let owner = owner_at(&self.owners, master)?;
        owner.wide_of(source)
    }

    /// The master that has a wide source, and its own source.
    pub fn owner(&self, wide: u16) -> Option<(usize, u16)>
        ensures { (master source : ℕ)
            → (result ≡ Some (master, source)) ↔ IsWideSource self.now master source wide }
    {
        let master = master_at(&self.marks, wide)?;
        let source = self.owners[master].source_of(wide);
        Some((master, source))
    }

    /// Whether a wide source is some master's.
    pub fn is_owned(&self, wide: u16) -> bool
        ensures { IsTrue result ↔ IsOwned self.now wide }
    {
        master_at(&self.marks, wide).is_some()
    }

    /// How many masters there are.
    pub fn masters(&self) -> usize
        ensures value { result ≡ length self.now }
        ensures in_limit { result ≤ MAX_JUDGED_MASTERS }
        ensures lawful { AreLawfulOwners self.now }
    {
        self.owners.len()
    }

    /// The sources of a master, if there is such a master.
    pub fn at(&self, master: usize) -> Option<Owner>
        ensures { result ≡ slice_get self.now master }
    {
        owner_at(&self.owners, master)
    }

    /// How many sources a master has, if there is such a master.
    pub fn count(&self, master: usize) -> Option<u32>
        ensures { result ≡ slice_get (counts_in self.now) master }
    {
        count_at(&self.owners, master)
    }

    /// One more than the largest wide source.
    pub fn wides(&self) -> usize
        ensures above { (wide : ℕ) → IsOwned self.now wide → wide < result }
        ensures least { (bound : ℕ) → ((wide : ℕ) → IsOwned self.now wide → wide < bound) → result ≤ bound }
        ensures in_limit { result ≤ MAX_WIDE + 1 }
    {
        self.marks.len()
    }
}

/// Whether each owner is lawful.
fn are_lawful(owners: &[Owner]) -> bool
    ensures { IsTrue result ↔ All IsLawfulOwner owners.now }
{
    owners.iter().all(|owner| owner.is_lawful())
}

/// One more than the largest wide source of these owners.
fn bound_of(owners: &[Owner]) -> usize
    requires { All IsLawfulOwner owners.now }
    ensures room { HasRoomFor owners.now result }
    ensures in_limit { result ≤ MAX_WIDE + 1 }
{
    let mut bound = 0;
    for owner in owners {
        bound = usize::max(bound, owner.end());
    }
    bound
}

/// Room for a mark of each wide source of these owners, with no mark.
fn no_marks(alloc: Global, owners: &[Owner]) -> Result<Vec<Option<u8>>, AllocError>
    requires { All IsLawfulOwner owners.now }
    ensures room { IfOk result (λ marks. HasRoomFor owners.now (length marks.items)) }
    ensures few { IfOk result (λ marks. length marks.items ≤ MAX_WIDE + 1) }
    ensures none { IfOk result (λ marks. IsMarkedUpTo owners.now 0 0 marks.items) }
{
    let mut marks = Vec::new(alloc);
    marks.resize(bound_of(owners), None)?;
    Ok(marks)
}

/// Marks the wide sources of a master in their order, up to the first that an earlier master has: that master, and the
/// wide source.
fn mark_master(marks: &mut [Option<u8>], owners: &[Owner], master: usize) -> Option<(usize, u16)>
    requires within { master < length owners.now }
    requires few { length owners.now ≤ MAX_JUDGED_MASTERS }
    requires lawful { All IsLawfulOwner owners.now }
    requires room { HasRoomFor owners.now (length marks.old) }
    requires marked { IsMarkedUpTo owners.now master 0 marks.old }
    ensures counted { length marks.new ≡ length marks.old }
    ensures marked { IfNone result (IsMarkedUpTo owners.now (master + 1) 0 marks.new) }
    ensures apart { IfNone result (AreApartBelow owners.now master → AreApartBelow owners.now (master + 1)) }
    ensures shared { IfSome result (λ found. IsSharedBy owners.now found.0 master found.1) }
{
    let owner = owners[master];
    for source in 0..owner.count {
        let wide = owner.first as usize + owner.stride as usize * source as usize;
        if let Some(other) = marks[wide] {
            return Some((other as usize, wide as u16));
        }
        marks[wide] = Some(master as u8);
    }
    None
}

/// Marks the wide sources of all masters, up to the first that an earlier master has.
fn mark_all(marks: &mut [Option<u8>], owners: &[Owner]) -> Option<SourceOwnerFault>
    requires few { length owners.now ≤ MAX_JUDGED_MASTERS }
    requires lawful { All IsLawfulOwner owners.now }
    requires room { HasRoomFor owners.now (length marks.old) }
    requires none { IsMarkedUpTo owners.now 0 0 marks.old }
    ensures counted { length marks.new ≡ length marks.old }
    ensures marked { IfNone result (AreMarked owners.now marks.new) }
    ensures lawful { IfNone result (AreLawfulOwners owners.now) }
    ensures fault { IfSome result (IsFirstSourceOwnerFault owners.now) }
{
    for master in 0..owners.len() {
        if let Some((other, wide)) = mark_master(marks, owners, master) {
            return Some(SourceOwnerFault::Shared(other, master, wide));
        }
    }
    None
}

/// The owner of this number.
fn owner_at(owners: &[Owner], master: usize) -> Option<Owner>
    ensures { result ≡ slice_get owners.now master }
{
    owners.get(master).copied()
}

/// How many sources the owner of this number has.
fn count_at(owners: &[Owner], master: usize) -> Option<u32>
    ensures { result ≡ slice_get (counts_in owners.now) master }
{
    owners.get(master).map(|owner| owner.count)
}

/// The master that a wide source has as its mark.
fn master_at(marks: &[Option<u8>], wide: u16) -> Option<usize>
    ensures { (master : ℕ) → (result ≡ Some master) ↔ (slice_get marks.now wide ≡ Some (Some master)) }
{
    let mark = *marks.get(wide as usize)?;
    mark.map(|master| master as usize)
}
