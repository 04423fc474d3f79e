//! Captured traces over links of any width: the rows of a file, each a beat that was seen at a link or a reset of the whole
//! system, in the order in which they cross.
//!
//! [`read_row`] answers the row that a record's columns spell, or the first fault that they have (`specs/Row.antt`).
//! The bus of the row's link ([`Buses`]) decides how many digits its mask and its data have. [`read_bare_row`] does so
//! for a line without quotes, which it does not copy. It reads a line as most are in one pass (`quick`), and cuts any
//! other at the commas first. A [`Row`] holds no lanes. They stand apart, in a buffer that is lent. A [`Moment`] takes the
//! rows of one time with their lanes, and has them in the order in which they cross: a reset first. It refuses a row whose
//! time falls, a second beat of one channel of one link, and a second reset (`specs/Moment.antt`).
//!
//! The columns and their names stand once (`specs/Column.antt`). At a port's link sources may have numbers of the link's own:
//! [`number_row`] gives a row the system's (`specs/PortNumbers.antt`).
//!
//! Read on in `docs/reference/captures.md`, which has the format with examples.
#![tactic(auto)]

mod buses;
mod column;
mod columns;
mod digit;
mod fault;
mod front;
mod lanes;
mod moment;
mod number;
mod port_numbers;
mod quick;
mod request;
mod row;

pub use buses::Buses;
pub use column::{COLUMNS, column_name};
pub use fault::RowFault;
pub use moment::Moment;
pub use port_numbers::{PortNumbers, SourcePlace, number_row};
pub use request::{Began, Left, Open};
pub use row::{Row, asks_for_mark, read_bare_row, read_row};
