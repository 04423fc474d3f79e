//! The keys of a system file of the judge: which there are, how the value at each is read, and the faults that name them.
//!
//! A value is absent, of the wrong type or out of range, and each reader answers exactly what its definition gives
//! (`specs/Value.antt`), or want of memory. [`SystemFault`] has the faults of whole files, in the words in which the
//! program prints them. The names of ports and masters (`specs/Name.antt`) and the buses of links (`specs/Bus.antt`)
//! are read here, since several tables have these keys. Which keys a table may have at all is said here too
//! (`specs/Known.antt`), with the nearest that there is ([`TableKind`], [`nearest`]). What the keys of a port mean is the
//! crate `check_description`.
//!
//! No other crate reads a table of the crate `toml`. Read on in `docs/design/model.md`, "Keys of system files".
#![tactic(auto)]

mod bus;
mod fault;
mod known;
pub mod laws;
mod name;
mod near;
mod value;

pub use bus::bus_in_table;
pub use fault::{Key, SystemFault};
pub use known::{TableKind, UnknownKey};
pub use name::{MAX_NAME, name_at};
pub use near::nearest;
pub use value::{
    IntegerOrText, LAST_INTEGER, array_of, bytes_of, find_member, find_value, flag_at, in_range,
    integer_of, integer_or_text_of, number_at, number_if_any, number_in_value, pair_in_value,
    table_of, tables_of, text_if_any, text_of, value_at,
};
