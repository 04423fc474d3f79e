//! What stands at a port, as the judge keeps it: a memory whose bytes are known or unknown, or a device.
//!
//! Contracts see a [`PartialMemory`] as a `Partial` (`specs/Partial.antt`): its kind, the sizes that it supports, its
//! ranges, which bytes change by themselves, and one byte for each address, known or unknown. [`PartialMemory::serve_into`] leaves the memory
//! `after_partial` a request and the `pattern` of its answer; [`Pattern::fits`] (`check_cells`) says whether a
//! captured reply fits it. [`PartialMemory::serve_and_forget`] does the same and then makes bytes near the request
//! unknown. A [`Slave`] is a memory or a device, which keeps nothing. A table of sizes is within the rules, or makes
//! no [`Sizes`].
//!
//! `laws` says that a memory that is wholly known is the sequential memory of `tl_ops`, and that the true reply fits
//! whatever the unknown bytes are. The bytes stand in pages (`pages`), which are made as they are written.
//!
//! Read on in `docs/design/model.md`, "The judge's memory".
#![tactic(auto)]

pub mod laws;
mod memory;
mod pages;
mod place;
mod range;
mod sheet;
mod sizes;
mod slave;
mod slots;
mod volatile;
mod wide;

pub use check_cells::{Cells, Pattern};
pub use memory::PartialMemory;
pub use range::are_within;
pub use sizes::Sizes;
pub use slave::Slave;
