//! Systems: the slaves, masters and operations that a script describes.
ghost use Rattle.std.specs.Prelude.{◌≡◌, ◌++◌, ◌∷◌, [], All, IfOk, map};
ghost use Rattle.tl_map.specs.Blocks.{HaveBlocks};
ghost use Rattle.tl_script.specs.System.{IsLawfulDevice, IsLawfulSystem, error_store, store_of, described};

use crate::operations::Operations;
use std::alloc::Global;
use std::marker::Model;
use tl_map::{AddressMap, SourceOwners};
use tl_ops::{Bank, BankFault, Kind};
use tl_types::Memory;

/// The most operations of a master, waits counted.
pub const MAX_JOBS: usize = 4096;

/// A slave at reset: its kind, the address of its first byte, and its bytes.
#[derive(Debug, Drop)]
pub struct Device {
    pub kind: Kind,
    pub base: u64,
    pub reset: Vec<u8>,
}

/// What a script describes: slots, a device for each port of the map, and a list of operations for each master.
#[derive(Drop)]
pub struct System {
    slots: usize,
    devices: Vec<Device>,
    sources: SourceOwners,
    map: AddressMap,
    jobs: Vec<Operations>,
}

/// A system without its slots and operations: a device for each port of the map, and the sources of the masters.
#[derive(Drop)]
pub struct PartsOfSystem {
    pub devices: Vec<Device>,
    pub sources: SourceOwners,
    pub map: AddressMap,
}

impl Model for System {
    ghost use Rattle.tl_map.specs.Blocks.{HaveBlocks};
    ghost use Rattle.tl_script.specs.System.{System as Described, IsLawfulSystem, described};

    ghost Value = { Described };

    ghost view = { λ s. described s.slots s.devices.items s.sources s.map s.jobs.items };

    ghost invariant = { λ s. IsLawfulSystem (described s.slots s.devices.items s.sources s.map s.jobs.items) };
}

impl System {
    /// The system of these parts.
    pub fn new(
        slots: usize,
        devices: Vec<Device>,
        sources: SourceOwners,
        map: AddressMap,
        jobs: Vec<Operations>,
    ) -> System
        requires { IsLawfulSystem (described slots devices.items sources map jobs.items) }
        ensures { result ≡ described slots devices.items sources map jobs.items }
    {
        System {
            slots,
            devices,
            sources,
            map,
            jobs,
        }
    }

    /// How many slots the arena has.
    pub fn slots(&self) -> usize
        ensures { result ≡ self.now.slots }
    {
        self.slots
    }

    /// The device of each port of the map.
    pub fn devices(&self) -> &[Device]
        ensures value { map store_of result.now ≡ self.now.stores }
        ensures lawful { IsLawfulSystem self.now }
        ensures banks { All IsLawfulDevice result.now }
    {
        let _lawful = self.map.ports();
        &self.devices
    }

    /// The sources of the masters.
    pub fn sources(&self) -> &SourceOwners
        ensures value { result.now ≡ self.now.owners }
        ensures blocks { HaveBlocks result.now }
    {
        &self.sources
    }

    /// Which port serves which addresses.
    pub fn map(&self) -> &AddressMap
        ensures { result.now ≡ self.now.ranges }
    {
        &self.map
    }

    /// The operations of each master.
    pub fn jobs(&self) -> &[Operations]
        ensures value { result.now ≡ self.now.jobs }
        ensures lawful { IsLawfulSystem self.now }
    {
        &self.jobs
    }

    /// The system without its slots and operations.
    pub fn into_crossbar(self) -> PartsOfSystem
        ensures devices { map store_of result.devices.items ≡ self.stores }
        ensures sources { result.sources ≡ self.owners }
        ensures map { result.map ≡ self.ranges }
        ensures lawful { IsLawfulSystem self }
        ensures banks { All IsLawfulDevice result.devices.items }
    {
        let _lawful = self.map.ports();
        PartsOfSystem {
            devices: self.devices,
            sources: self.sources,
            map: self.map,
        }
    }
}

/// What the slave of this device holds at reset.
fn bank_of(alloc: Global, device: &Device) -> Result<Bank, Memory>
    requires { IsLawfulDevice device.now }
    ensures { IfOk result (λ bank. bank ≡ store_of device.now) }
{
    match Bank::new(alloc, device.kind, device.base, &device.reset) {
        Ok(bank) => Ok(bank),
        Err(BankFault::Memory) => Err(Memory),
        Err(BankFault::TooLong | BankFault::PastEnd) => unreachable!(),
    }
}

/// What the slaves of these devices hold at reset, and the error port's after them. Only memory can be refused, since
/// each device makes a lawful bank.
pub fn banks_of(alloc: Global, devices: &[Device]) -> Result<Vec<Bank>, Memory>
    requires { All IsLawfulDevice devices.now }
    ensures { IfOk result (λ banks. banks.items ≡ map store_of devices.now ++ error_store ∷ []) }
{
    let mut banks = Vec::with_capacity(alloc, devices.len() + 1)?;
    for device in devices {
        banks.push(bank_of(alloc, device)?)?;
    }
    let error_port = Bank::new(alloc, Kind::NoDevice, 0, &[]).map_err(|_| Memory)?;
    banks.push(error_port)?;
    Ok(banks)
}
