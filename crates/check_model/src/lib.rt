//! The model of the crossbar that a system file describes, call by call: what must this request be answered now?
//!
//! A [`SystemModel`] is made of a description and the bytes of its images, before any request. Each call of
//! [`SystemModel::serve`] is one request of one master: it goes the way that a judge gives it, the slave there serves it at once,
//! and the answer is what a judge of the masters' links expects then. Bytes that nobody knows are unknown in the answer, and
//! of a device all is left open. A refusal changes nothing, and is the first [`ServeFault`] that applies, or want of memory.
//!
//! [`SystemModel::peek`] and [`SystemModel::poke`] look at a byte and put one, known or unknown, without a request.
//! [`SystemModel::reset`] is a reset of the whole system. `laws` says what calls in a row come to. Read on in
//! `docs/design/model.md`, "The model, call by call".
#![tactic(auto)]

mod fault;
pub mod laws;
mod model;
mod port;

pub use fault::{ByteFault, ServeFault};
pub use model::SystemModel;
pub use port::ModelPort;
