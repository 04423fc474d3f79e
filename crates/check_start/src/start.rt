//! The judge of a system's beats, before any.
ghost use Rattle.std.specs.Prelude.{◌≡◌, ◌≢◌, ◌≤◌, [], length, map, option_map, string_bytes, Err, IfOk, IfErr, IsTrue, Ok};
ghost use Rattle.tl_map.specs.declared.limits.TheConstants.{MAX_JUDGED_MASTERS, MAX_JUDGED_PORTS};
ghost use Rattle.check_keys.specs.declared.fault.SystemFault.TheVariants.{Memory};
ghost use Rattle.check_description.specs.Buses.{master_buses as buses_of_masters, port_buses as buses_of_ports};
ghost use Rattle.check_description.specs.Port.{port_view};
ghost use Rattle.check_description.specs.Master.{master_view};
ghost use Rattle.check_turns.specs.View.{is_some_alone as is_some_by, KeepsOrdered};
ghost use Rattle.check_watch.specs.Plan.{Plan};
ghost use Rattle.check_lines.specs.Names.{texts_of};
ghost use Rattle.check_rows.specs.PortNumbers.{numbers_in};
ghost use Rattle.check_start.specs.Loads.{AreLoadsOf};
ghost use Rattle.check_start.specs.Numbers.{numbers_of};
ghost use Rattle.check_start.specs.Slaves.{own_slaves as slaves_of_links, shared_slaves};
ghost use Rattle.check_start.specs.Start.{ByThePlan, layout_of, system_names};

use crate::crossing::apart_of;
use crate::fifos::fifos_of;
use crate::loads::Loads;
use crate::numbers::numbers_by;
use crate::slaves::{SlaveSide, shared_side, slaves_of};
use check_beats::Bus;
use check_description::{Described, Description, Master, Port, master_buses, port_buses};
use check_flight::{PortSlave, SideOrders};
use check_keys::SystemFault;
use check_lines::Names;
use check_rows::PortNumbers;
use check_turns::{Links, OrderedWatch, Paths, Wiring, is_some_alone};
use std::alloc::{AllocError, Global};

/// By what terms beats are judged: which links are watched, when the requests of a port take effect on a side for which
/// the system does not say it, and the longest time from a request's first beat to that of its reply, if there is a limit.
#[derive(Debug, Clone, Copy, PartialEq, Eq)]
pub struct Terms {
    pub links: Links,
    pub orders: SideOrders,
    pub within: Option<u64>,
}

/// The judge of a system's beats, the names and buses of its links, what a reset loads, and the numbers of sources at ports' links.
#[derive(Drop)]
pub struct Beginning {
    pub watch: OrderedWatch,
    pub names: Names,
    pub master_buses: Vec<Bus>,
    pub port_buses: Vec<Bus>,
    /// Whether there may be resets of the whole system, and what they load.
    pub resets: bool,
    pub loads: Loads,
    /// By port the numbers of sources at its link, if it has any of its own.
    pub numbers: Vec<Option<PortNumbers>>,
}

/// A copy of a name, if there is one.
fn copy_name(alloc: Global, name: &Option<String>) -> Result<Option<String>, AllocError>
    ensures { IfOk result (λ copy. option_map string_bytes copy ≡ option_map string_bytes name.now) }
{
    match name {
        Some(name) => Ok(Some(String::from_str(alloc, name)?)),
        None => Ok(None),
    }
}

/// The names of ports.
fn port_names(alloc: Global, ports: &[Port]) -> Result<Vec<Option<String>>, AllocError>
    ensures { IfOk result (λ names. texts_of names.items
        ≡ map (λ port. port.name) (map port_view ports.now)) }
{
    let mut names = Vec::with_capacity(alloc, ports.len())?;
    for port in ports {
        names.push(copy_name(alloc, &port.name)?)?;
    }
    Ok(names)
}

/// The names of masters.
fn master_names(alloc: Global, masters: &[Master]) -> Result<Vec<Option<String>>, AllocError>
    ensures { IfOk result (λ names. texts_of names.items
        ≡ map (λ master. master.name) (map master_view masters.now)) }
{
    let mut names = Vec::with_capacity(alloc, masters.len())?;
    for master in masters {
        names.push(copy_name(alloc, &master.name)?)?;
    }
    Ok(names)
}

/// The names of a system's masters and ports.
fn system_names(alloc: Global, system: &Description) -> Result<Names, AllocError>
    ensures { IfOk result (λ names. names ≡ system_names system.now) }
{
    let masters = master_names(alloc, system.masters())?;
    let ports = port_names(alloc, system.ports())?;
    Ok(Names::new(masters, ports))
}

/// The buses of the links of a system's masters and ports, by their numbers.
#[derive(Drop)]
struct LinkBuses {
    masters: Vec<Bus>,
    ports: Vec<Bus>,
}

/// The buses of a system's links.
fn buses_of(alloc: Global, parts: &Described) -> Result<LinkBuses, AllocError>
    requires ports { length parts.now.addresses ≡ length parts.now.ports.items }
    requires masters { length parts.now.sources ≡ length parts.now.masters.items }
    ensures masters { IfOk result (λ buses. buses.masters.items
        ≡ buses_of_masters (map master_view parts.now.masters.items)) }
    ensures ports { IfOk result (λ buses. buses.ports.items ≡ buses_of_ports (map port_view parts.now.ports.items)) }
    ensures few_masters { IfOk result (λ buses. length buses.masters.items ≤ MAX_JUDGED_MASTERS) }
    ensures few_ports { IfOk result (λ buses. length buses.ports.items ≤ MAX_JUDGED_PORTS) }
{
    // these two are called for their clauses: there are few masters and few ports
    let _owners = parts.sources.masters();
    let _slots = parts.addresses.ports();
    let masters = master_buses(alloc, &parts.masters)?;
    let ports = port_buses(alloc, &parts.ports)?;
    Ok(LinkBuses { masters, ports })
}

/// The slaves that ports' links have by themselves: those of their side if some link is judged by itself, else none.
fn own_slaves(
    alloc: Global,
    corrupt: bool,
    ports: &[Port],
    images: &[Vec<u8>],
    terms: Terms,
    apart: &[bool],
) -> Result<Vec<PortSlave>, SystemFault>
    ensures own { IfOk result (λ own. IsTrue (is_some_by terms.links apart.now)
        → slaves_of_links corrupt terms (map (λ image. image.items) images.now) (map port_view ports.now) ≡ Ok own.items) }
    ensures fault { IfErr result (λ fault. fault ≢ Memory
        → slaves_of_links corrupt terms (map (λ image. image.items) images.now) (map port_view ports.now) ≡ Err fault) }
{
    if is_some_alone(terms.links, apart) {
        slaves_of(
            alloc,
            corrupt,
            ports,
            images,
            SlaveSide::Ports,
            terms.orders,
        )
    } else {
        Ok(Vec::new(alloc))
    }
}

/// The slaves of a system's ports, and those that ports' links have by themselves.
#[derive(Drop)]
struct Slaves {
    shared: Vec<PortSlave>,
    own: Vec<PortSlave>,
}

/// The slaves at reset.
fn reset_slaves(
    alloc: Global,
    corrupt: bool,
    ports: &[Port],
    images: &[Vec<u8>],
    terms: Terms,
    apart: &[bool],
) -> Result<Slaves, SystemFault>
    ensures shared { IfOk result (λ slaves.
        shared_slaves corrupt terms (map (λ image. image.items) images.now) (map port_view ports.now)
        ≡ Ok slaves.shared.items) }
    ensures own { IfOk result (λ slaves. IsTrue (is_some_by terms.links apart.now)
        → slaves_of_links corrupt terms (map (λ image. image.items) images.now) (map port_view ports.now)
        ≡ Ok slaves.own.items) }
    ensures fault { IfErr result (λ fault. fault ≢ Memory
        → shared_slaves corrupt terms (map (λ image. image.items) images.now) (map port_view ports.now) ≡ Err fault) }
{
    let shared = slaves_of(
        alloc,
        corrupt,
        ports,
        images,
        shared_side(terms.links),
        terms.orders,
    )?;
    let own = own_slaves(alloc, corrupt, ports, images, terms, apart)?;
    Ok(Slaves { shared, own })
}

/// The judge of a crossbar that is this system, before any beat, the names and buses of its links, what a reset loads, and the numbers
/// of sources at ports' links.
/// Images has the bytes of the image of each port by its number, none of a port that names no image. An image that is
/// longer than its range is refused; beside that only memory is.
pub fn begin(
    alloc: Global,
    system: Description,
    images: &[Vec<u8>],
    terms: Terms,
) -> Result<Beginning, SystemFault>
    ensures layout { IfOk result (λ begun. begun.watch.layout ≡ layout_of terms system) }
    ensures keeps { IfOk result (λ begun.
        ByThePlan terms system (map (λ image. image.items) images.now) (λ plan. KeepsOrdered plan.begins [] begun.watch)) }
    ensures resets { IfOk result (λ begun. begun.resets ≡ system.resets) }
    ensures loads { IfOk result (λ begun.
        ByThePlan terms system (map (λ image. image.items) images.now) (λ plan. AreLoadsOf plan begun.loads)) }
    ensures numbers { IfOk result (λ begun. numbers_in begun.numbers.items ≡ numbers_of terms.links system) }
    ensures names { IfOk result (λ begun. begun.names ≡ system_names system) }
    ensures masters { IfOk result (λ begun. begun.master_buses.items ≡ buses_of_masters system.masters) }
    ensures ports { IfOk result (λ begun. begun.port_buses.items ≡ buses_of_ports system.ports) }
    ensures few_masters { IfOk result (λ begun. length begun.master_buses.items ≤ MAX_JUDGED_MASTERS) }
    ensures few_ports { IfOk result (λ begun. length begun.port_buses.items ≤ MAX_JUDGED_PORTS) }
    ensures fault { IfErr result (λ fault. fault ≢ Memory
        → shared_slaves system.rules.corrupt terms (map (λ image. image.items) images.now) system.ports ≡ Err fault) }
{
    let names = system_names(alloc, &system)?;
    let parts = system.into_parts();
    let apart = apart_of(alloc, &parts.ports)?;
    let fifos = fifos_of(alloc, &parts.masters, &parts.ports)?;
    let slaves = reset_slaves(
        alloc,
        parts.rules.corrupt,
        &parts.ports,
        images,
        terms,
        &apart,
    )?;
    // one for the judge, and one for the reader of rows
    let buses = buses_of(alloc, &parts)?;
    let told = buses_of(alloc, &parts)?;
    let numbers = numbers_by(alloc, terms.links, &apart, &parts)?;
    let paths = Paths::new(parts.paths);
    let loads = Loads::of(alloc, &parts.ports, images)?;
    let wiring = Wiring {
        links: terms.links,
        apart,
        fifos,
        rules: parts.rules,
        map: parts.addresses,
        paths,
        sources: parts.sources,
        master_buses: buses.masters,
        port_buses: buses.ports,
    };
    let watch = OrderedWatch::new(alloc, wiring, slaves.shared, slaves.own)?;
    Ok(Beginning {
        watch,
        names,
        master_buses: told.masters,
        port_buses: told.ports,
        resets: parts.resets,
        loads,
        numbers,
    })
}
