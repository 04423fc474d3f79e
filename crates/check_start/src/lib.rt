//! How a judge of beats begins: the judge of the crossbar that a system file describes, before any beat.
//!
//! [`begin`] makes the judge ([`check_turns::OrderedWatch`]) of a description, by the bytes of its ports' images and by [`Terms`]:
//! which links are watched, and in which order requests take effect at a port for which the file says none. The judge is one
//! for each plan of that system (`specs/Start.antt`): each port's slave is the one that it is at reset, and each link has the
//! bus that the file gives it. An image that is longer than its range is refused. The only other refusal is want of memory.
//!
//! A [`Beginning`] has the names and buses of the links beside the judge, and whether there may be resets of the whole
//! system. Of a port that lists masters it has the numbers of sources at its link (`specs/Numbers.antt`). Its [`Loads`] are
//! what a reset loads into the slaves (`specs/Loads.antt`). Read on in `docs/design/model.md`, "How a judge
//! begins".
#![tactic(auto)]

mod crossing;
mod fifos;
mod loads;
mod numbers;
mod slaves;
mod start;

pub use loads::Loads;
pub use slaves::image_at;
pub use start::{Beginning, Terms, begin};
