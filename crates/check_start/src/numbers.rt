//! The numbers of sources at the links of ports that list masters.
ghost use Rattle.std.specs.Prelude.{◌≡◌, IfOk, None, if◌then◌else◌, option_map};
ghost use Rattle.std.specs.List.{filter_map};
ghost use Rattle.check_description.specs.Placed.{lists_view};
ghost use Rattle.check_rows.specs.PortNumbers.{numbers_in, numbers_view};
ghost use Rattle.check_start.specs.Numbers.{numbers_by as numbers_by_lists, place_of as place_in_list, port_numbers as numbers_of_port};

use check_description::{Described, PlacedMaster};
use check_rows::{PortNumbers, SourcePlace};
use check_turns::{Links, is_port_alone};
use std::alloc::{AllocError, Global};
use tl_map::{Owner, SourceOwners};

/// The sources of a master that a port lists, at the port's link and in the system.
fn place_of(sources: &SourceOwners, placed: PlacedMaster) -> Option<SourcePlace>
    ensures { result ≡ place_in_list sources.now placed }
{
    let there = sources.at(placed.master)?;
    let here = Owner {
        first: placed.first,
        count: there.count,
        stride: placed.stride,
    };
    Some(SourcePlace { here, there })
}

/// Those of all masters that a port lists.
fn places_of(
    alloc: Global,
    sources: &SourceOwners,
    placed: &[PlacedMaster],
) -> Result<Vec<SourcePlace>, AllocError>
    ensures { IfOk result (λ places. places.items ≡ filter_map (place_in_list sources.now) placed.now) }
{
    let mut places = Vec::with_capacity(alloc, placed.len())?;
    for one in placed {
        if let Some(place) = place_of(sources, *one) {
            places.push(place)?;
        }
    }
    Ok(places)
}

/// The numbers at the link of a port, if it lists masters, and is not judged by itself.
fn port_numbers(
    alloc: Global,
    sources: &SourceOwners,
    nobody: u16,
    is_alone: bool,
    list: &Option<Vec<PlacedMaster>>,
) -> Result<Option<PortNumbers>, AllocError>
    ensures { IfOk result (λ numbers. option_map numbers_view numbers ≡ (if is_alone then None
        else option_map (numbers_of_port sources.now nobody) (option_map (λ placed. placed.items) list.now))) }
{
    if is_alone {
        return Ok(None);
    }
    let Some(placed) = list else {
        return Ok(None);
    };
    let places = places_of(alloc, sources, placed)?;
    Ok(Some(PortNumbers { places, nobody }))
}

/// The numbers at the ports' links. A link that is judged by itself has none.
pub(crate) fn numbers_by(
    alloc: Global,
    links: Links,
    apart: &[bool],
    parts: &Described,
) -> Result<Vec<Option<PortNumbers>>, AllocError>
    ensures { IfOk result (λ numbers. numbers_in numbers.items
        ≡ numbers_by_lists links parts.now.sources parts.now.nobody apart.now (lists_view parts.now.lists)) }
{
    let mut numbers = Vec::with_capacity(alloc, parts.lists.len())?;
    for (apart, list) in apart.iter().zip(&parts.lists) {
        let is_alone = is_port_alone(links, *apart);
        numbers.push(port_numbers(alloc, &parts.sources, parts.nobody, is_alone, list)?)?;
    }
    Ok(numbers)
}
