//! The sources at a port's link that has numbers of its own, as the system numbers them.
ghost use Rattle.std.specs.Prelude.{◌≡◌, Some};
ghost use Rattle.check_rows.specs.PortNumbers.{numbered_beat, numbers_at, numbers_in, numbers_view, own_source as own_of_owner, source_in as source_in_place, system_source, wide_source as wide_of_owner};

use crate::row::Row;
use check_watch::{Beat, Link};
use std::alloc::AllocError;
use tl_map::Owner;

/// The sources of a master: as they are numbered at a port's link, and as the system numbers them.
#[derive(Debug, Clone, Copy, PartialEq, Eq)]
pub struct SourcePlace {
    pub here: Owner,
    pub there: Owner,
}

/// The numbers of sources at the link of a port that lists its masters.
#[derive(Debug, Drop)]
pub struct PortNumbers {
    /// Those of the masters that the port lists.
    pub places: Vec<SourcePlace>,
    /// The system's source for all others: nobody has it.
    pub nobody: u16,
}

impl Clone for PortNumbers {
    ghost use Rattle.std.specs.Prelude.{◌≡◌};
    ghost use Rattle.check_rows.specs.PortNumbers.{numbers_view};

    ghost is_clone = { λ numbers copy. numbers_view copy ≡ numbers_view numbers };

    fn clone(&self) -> Result<PortNumbers, AllocError> {
        Ok(PortNumbers {
            places: self.places.clone()?,
            nobody: self.nobody,
        })
    }
}

/// The source of an owner that has this wide source, if one has.
fn own_source(owner: Owner, wide: u16) -> Option<u16>
    ensures { result ≡ own_of_owner owner wide }
{
    if wide < owner.first || owner.stride == 0 {
        return None;
    }
    let above = wide - owner.first;
    let own = above / owner.stride;
    if above % owner.stride == 0 && u32::from(own) < owner.count {
        Some(own)
    } else {
        None
    }
}

/// The wide source of an owner's source, if it is none too large.
fn wide_source(owner: Owner, own: u16) -> Option<u16>
    ensures { result ≡ wide_of_owner owner own }
{
    let wide = u32::from(owner.first) + u32::from(owner.stride) * u32::from(own);
    u16::try_from(wide).ok()
}

impl SourcePlace {
    /// The system's source for a source at the link, if it is one of this master's.
    fn source(self, here: u16) -> Option<u16>
        ensures { result ≡ source_in_place self here }
    {
        wide_source(self.there, own_source(self.here, here)?)
    }
}

impl PortNumbers {
    /// The system's source for a source at the link.
    fn source(&self, here: u16) -> u16
        ensures { result ≡ system_source (numbers_view self.now) here }
    {
        for place in &self.places {
            if let Some(source) = place.source(here) {
                return source;
            }
        }
        self.nobody
    }

    /// Gives a beat the system's source in place of its own.
    fn number(&self, beat: &mut Beat)
        ensures { beat.new ≡ numbered_beat (Some (numbers_view self.now)) beat.old }
    {
        match beat {
            Beat::A(ask) => ask.source = self.source(ask.source),
            Beat::D(reply) => reply.source = self.source(reply.source),
        }
    }
}

/// Gives the beat of a row the system's source, if its link has numbers of its own: by the number of the port, and a port behind
/// the end has none.
pub fn number_row(numbers: &[Option<PortNumbers>], row: &mut Row)
    ensures { row.new ≡ record row.old {
      beat = numbered_beat (numbers_at (numbers_in numbers.now) row.old.link) row.old.beat;
    } }
{
    let Link::Port(port) = row.link else {
        return;
    };
    if let Some(Some(numbers)) = numbers.get(port) {
        numbers.number(&mut row.beat);
    }
}
