//! Descriptions: the ports and masters of a file, with their addresses and their wide sources.
ghost use Rattle.std.specs.Prelude.{◌≡◌, ◌≢◌, IfErr, IfOk, OnOk, length, map};
ghost use Rattle.tl_map.specs.Map.{AreRanges, IsFirstAddressMapFault, IsLawfulAddressMap};
ghost use Rattle.check_keys.specs.declared.fault.SystemFault.TheVariants.{Memory};
ghost use Rattle.check_description.specs.Port.{port_view};
ghost use Rattle.check_description.specs.Description.{IsFirstFaultOf, IsOfMap, Makes, described, ranges_of};
ghost use Rattle.check_description.specs.File.{parts_view};
ghost use Rattle.check_description.specs.Master.{master_view};
ghost use Rattle.check_description.specs.Placed.{lists_view, paths_view};

use crate::apart::check_lists;
use crate::masters::Master;
use crate::owners::{counts_of, sources_of};
use crate::parts::Parts;
use crate::placed::PlacedMaster;
use crate::port::Port;
use check_beats::LinkRules;
use check_keys::SystemFault;
use std::alloc::Global;
use std::marker::Model;
use tl_map::{AddressMap, SourceOwners};

/// What a file describes: the rules of the links, whether there may be resets of the whole system, the ports, the masters,
/// which port has which addresses, which wide sources are whose, which masters a port lists, and which paths there are.
#[derive(Drop)]
pub struct Description {
    rules: LinkRules,
    resets: bool,
    ports: Vec<Port>,
    masters: Vec<Master>,
    addresses: AddressMap,
    sources: SourceOwners,
    lists: Vec<Option<Vec<PlacedMaster>>>,
    paths: Vec<Option<Vec<bool>>>,
    nobody: u16,
}

/// The parts of a description, each to be taken on its own.
#[derive(Drop)]
pub struct Described {
    pub rules: LinkRules,
    pub resets: bool,
    pub ports: Vec<Port>,
    pub masters: Vec<Master>,
    pub addresses: AddressMap,
    pub sources: SourceOwners,
    /// By port the masters that it lists, if it lists any.
    pub lists: Vec<Option<Vec<PlacedMaster>>>,
    /// By master for each port whether it has a path to it; to each, if there are no flags.
    pub paths: Vec<Option<Vec<bool>>>,
    /// A wide source that is nobody's, if some port lists masters.
    pub nobody: u16,
}

impl Model for Description {
    ghost use Rattle.std.specs.Prelude.{◌≡◌, length, map};
    ghost use Rattle.check_description.specs.Port.{port_view};
    ghost use Rattle.check_description.specs.Description.{Description as Said, described, ranges_of};

    ghost Value = { Said };

    ghost view = { λ s. described s.rules s.resets s.ports.items s.masters.items s.sources s.lists s.paths s.nobody };

    ghost invariant = { λ s. (s.addresses ≡ ranges_of (map port_view s.ports.items))
        × (length s.sources ≡ length s.masters.items) };
}

impl Description {
    /// The description of these parts, with the sources of each master.
    fn new(
        rules: LinkRules,
        resets: bool,
        ports: Vec<Port>,
        masters: Vec<Master>,
        addresses: AddressMap,
        sources: SourceOwners,
        lists: Vec<Option<Vec<PlacedMaster>>>,
        paths: Vec<Option<Vec<bool>>>,
        nobody: u16,
    ) -> Description
        requires addresses { addresses ≡ ranges_of (map port_view ports.items) }
        requires counted { length sources ≡ length masters.items }
        ensures { result ≡ described rules resets ports.items masters.items sources lists paths nobody }
    {
        Description {
            rules,
            resets,
            ports,
            masters,
            addresses,
            sources,
            lists,
            paths,
            nobody,
        }
    }

    /// What the links may do beyond the standard.
    pub fn rules(&self) -> LinkRules
        ensures { result ≡ self.now.rules }
    {
        self.rules
    }

    /// Whether there may be resets of the whole system.
    pub fn resets(&self) -> bool
        ensures { result ≡ self.now.resets }
    {
        self.resets
    }

    /// The ports.
    pub fn ports(&self) -> &[Port]
        ensures { map port_view result.now ≡ self.now.ports }
    {
        &self.ports
    }

    /// The masters, as the file has them: their names, their buses, and what it says of their sources.
    pub fn masters(&self) -> &[Master]
        ensures { map master_view result.now ≡ self.now.masters }
    {
        &self.masters
    }

    /// Which port has which addresses.
    pub fn map(&self) -> &AddressMap
        ensures { result.now ≡ ranges_of self.now.ports }
    {
        &self.addresses
    }

    /// Which wide sources are each master's.
    pub fn sources(&self) -> &SourceOwners
        ensures { result.now ≡ self.now.owners }
    {
        &self.sources
    }

    /// The parts.
    pub fn into_parts(self) -> Described
        ensures rules { result.rules ≡ self.rules }
        ensures resets { result.resets ≡ self.resets }
        ensures ports { map port_view result.ports.items ≡ self.ports }
        ensures masters { map master_view result.masters.items ≡ self.masters }
        ensures addresses { result.addresses ≡ ranges_of self.ports }
        ensures sources { result.sources ≡ self.owners }
        ensures lists { lists_view result.lists ≡ self.lists }
        ensures paths { paths_view result.paths ≡ self.paths }
        ensures nobody { result.nobody ≡ self.nobody }
        ensures counted { length result.sources ≡ length result.masters.items }
    {
        Described {
            rules: self.rules,
            resets: self.resets,
            ports: self.ports,
            masters: self.masters,
            addresses: self.addresses,
            sources: self.sources,
            lists: self.lists,
            paths: self.paths,
            nobody: self.nobody,
        }
    }
}

/// The map of the ports' ranges.
fn map_of(alloc: Global, ports: &[Port]) -> Result<AddressMap, SystemFault>
    requires { AreRanges (ranges_of (map port_view ports.now)) }
    ensures made { IfOk result (λ m. m ≡ ranges_of (map port_view ports.now)) }
    ensures lawful { OnOk result (IsLawfulAddressMap (ranges_of (map port_view ports.now))) }
    ensures fault { IfErr result (λ fault. fault ≢ Memory
        → IsOfMap (IsFirstAddressMapFault (ranges_of (map port_view ports.now))) fault) }
{
    let mut ranges = Vec::with_capacity(alloc, ports.len())?;
    for port in ports {
        ranges.push(Vec::from_slice(alloc, &port.ranges)?)?;
    }
    Ok(AddressMap::new(alloc, &ranges)?)
}

/// The description that parts make, or their first fault: of their ranges, or else of their sources, or else of the masters that
/// a port lists. Want of memory may be answered at any point.
pub fn describe(alloc: Global, parts: Parts) -> Result<Description, SystemFault>
    ensures made { IfOk result (Makes (parts_view parts)) }
    ensures fault { IfErr result (λ fault. fault ≢ Memory → IsFirstFaultOf (parts_view parts) fault) }
{
    let addresses = map_of(alloc, &parts.ports)?;
    let sources = sources_of(alloc, &parts.masters)?;
    let counts = counts_of(alloc, &parts.masters)?;
    let nobody = check_lists(alloc, &counts, &sources, &parts.lists)?;
    Ok(Description::new(
        parts.rules,
        parts.resets,
        parts.ports,
        parts.masters,
        addresses,
        sources,
        parts.lists,
        parts.paths,
        nobody,
    ))
}
