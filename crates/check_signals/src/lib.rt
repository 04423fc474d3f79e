//! Where the signals of a crossbar are in a dump.
//!
//! [`read_names`] reads the names that a system file gives (`specs/Names.antt`): those of the system's clock and reset, and
//! of each link: of its own clock and reset, and of its signals, behind its prefixes (`specs/Prefixes.antt`) or by its wires. [`find_signals`] finds them
//! among the signals that a dump declares. What one name finds is in `specs/Source.antt`, with the wires that it means
//! (`specs/Wires.antt`) and how many bits each signal has by the bus of its link (`specs/Wanted.antt`). Of a net that is
//! declared bit by bit it is several parts (`specs/Nets.antt`), and of a wire that names several signals too
//! (`specs/Parts.antt`). What is then looked at and kept, or the first fault, is in `specs/Found.antt`.
//!
//! Read on in `docs/reference/formats.md`, "Dumps".
#![tactic(auto)]

mod clocks;
mod domains;
mod fault;
mod kept;
mod keys;
mod links;
mod nets;
mod parts;
mod prefixes;
mod resolve;
mod signal_fault;
mod source;
mod wanted;
mod wires;

pub use clocks::ClockNames;
pub use fault::{KeyFault, SignalKey};
pub use keys::{LinkNames, MAX_PARTS, SIGNALS, SignalName, SignalNames, read_names};
pub use parts::LinkSignal;
pub use prefixes::MAX_PREFIXES;
pub use resolve::{Resolved, find_signals};
pub use signal_fault::{SignalFault, SignalOwner};
pub use wanted::{Wanted, wanted_of};
pub use wires::{Places, places_in};
