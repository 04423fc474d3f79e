//! What a system file of the judge describes: its ports and masters, which addresses are whose, which wide sources, and the
//! slave that each port is at reset.
//!
//! [`read_parts`] answers the [`Parts`] that a file names, no two of them with the same name, if each key of it is known
//! (`specs/Unknown.antt`), or its first fault on the way to them (`specs/File.antt`, `specs/Name.antt`).
//! [`read_ports`] reads the ports among them, each key in its order (`specs/Port.antt`). A port may list the masters that reach it,
//! and their sources at its link (`specs/Listed.antt`); which paths there are then is `specs/Placed.antt`. Its link may be judged by itself
//! (`specs/Crossing.antt`).
//! The files of the ports' images are [`Parts::images`]: the program reads them. [`slave_of`] makes of a port and the bytes
//! of its image the `PortSlave` that it is before any request (`specs/Slave.antt`), [`kept_at_reset`] what a reset of the whole
//! system loads into it, if it does (`specs/OnReset.antt`), and [`error_slave`] the slave of the error port, over [`denying_slave`]. [`describe`] answers the [`Description`] that the parts make, or the first fault of their ranges and of their
//! sources (`specs/Description.antt`). Beside that only want of memory is answered.
//!
//! What is a TOML document, and what its table is, is the crate `toml`'s own definition, `parse_document`. `laws` says that a
//! port that is wholly known at reset is the sequential memory of `tl_ops`.
//!
//! Read on in `docs/design/model.md`, "Ports of system files" and "Descriptions".
#![tactic(auto)]

mod apart;
mod buses;
mod called;
mod contents;
mod crossing;
mod description;
mod kind;
pub mod laws;
mod listed;
mod masters;
mod mirror;
mod names;
mod on_reset;
mod order;
mod owners;
mod parts;
mod placed;
mod port;
mod ports;
mod ranges;
mod reach;
mod read;
mod rules;
mod sizes;
mod slave;
mod unknown;
mod volatile;

pub use buses::{master_buses, port_buses};
pub use crossing::PortCrossing;
pub use description::{Described, Description, describe};
pub use kind::PortKind;
pub use listed::{ListedMaster, ListedMasters, MasterWord};
pub use masters::Master;
pub use on_reset::OnReset;
pub use parts::{Image, Parts};
pub use placed::PlacedMaster;
pub use port::{Contents, Port, PortOrders};
pub use ports::{read_port, read_ports};
pub use ranges::first_length;
pub use read::{MAX_SYSTEM, read_parts};
pub use slave::{denying_slave, error_slave, kept_at_reset, slave_of};
