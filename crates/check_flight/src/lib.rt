//! What a judge keeps of each link, of each source and of each port, and how a beat changes it, on links of any width and
//! over memories that are known in part: the layer above `check_beats` and `check_memory`.
//!
//! A [`Side`] has the messages under way at each link of the masters, or of the ports, each on its own bus, and what is in
//! flight there of each wide source. That is a [`Flight`]: nothing, a request that has begun, or one that has ended, with
//! what its reply has to fit ([`Answer`]), if that is known. A [`Crossing`] says how far a source's request has
//! come across, and what its port gave. A [`PortSlave`] is a memory or a device, which serves requests in its [`Order`];
//! if nobody knows in which, it keeps those that it has accepted and not answered (`check_contests`).
//!
//! Each step promises what is kept from then on, and that all else stays; one that needs a page of memory and does not
//! get it changes nothing. Which beats are lawful is not said here: a step asks only that its beat is one of the message
//! under way. Read on in `docs/design/model.md`, "What is in flight on links of any width".
#![tactic(auto)]

mod answer;
mod crossing;
mod flight;
pub mod laws;
mod order;
mod place;
mod side;
mod slave;

pub use answer::Answer;
pub use crossing::{Crossing, is_same_sent};
pub use flight::Flight;
pub use order::{Order, SideOrders};
pub use place::FlightPlace;
pub use side::Side;
pub use slave::PortSlave;
