//! The requests that have no whole reply yet, each with the row of its first beat.
//!
//! [`Pending`] notes of each row that was judged what its beat did to the requests in flight (`Watch::change` of
//! `check_sides`). [`Pending::left`] says what is left when no more rows come: `None` exactly if no request is in flight
//! at the links that are judged together; else how many there are, and the oldest. Requests are counted at the masters'
//! links; if none is in flight there, at the ports' (`specs/Began.antt`).
//!
//! After a reset of the whole system nothing is in flight: [`Pending::reset`] begins anew, and rows are counted from there.
//!
//! A message that is under way is one of a request in flight, so it is left too. Read on in `docs/design/model.md`, "Requests that
//! are left".
#![tactic(auto)]

mod left;
mod pending;

pub use check_rows::{Began, Left, Open};
pub use pending::Pending;
