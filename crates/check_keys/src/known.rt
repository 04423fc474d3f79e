//! The keys that the tables of a system file may have, and the first that one may not have.
ghost use Rattle.std.specs.Prelude.{◌≡◌, IfOk, map, option_map, string_bytes};
ghost use Rattle.toml.specs.View.{table_view};
ghost use Rattle.check_keys.specs.Known.{first_unknown, is_among, known_keys, near_key, wire_keys};

use crate::near::nearest;
use std::alloc::{AllocError, Global};
use std::fmt;
use toml::Table;

/// A kind of table of a system file.
#[derive(Debug, Clone, Copy, PartialEq, Eq)]
pub enum TableKind {
    /// The file itself.
    Top,
    /// What the file's `names` has.
    Names,
    Port,
    Master,
    /// What a port's `sizes` has.
    Sizes,
    /// What a port's `order` has, if it is a table.
    Orders,
    /// What a table of a port's `sources` has.
    Sources,
    /// What a link's `wires` has.
    Wires,
}

/// Whether the name is one of these.
fn is_among(names: &[&[u8]], name: &[u8]) -> bool
    ensures { result ≡ is_among (map (λ other. other.now) names.now) name.now }
{
    for other in names {
        if name == *other {
            return true;
        }
    }
    false
}

/// A key that a table may not have, and the nearest that it may.
#[derive(Debug, Drop)]
pub struct UnknownKey {
    pub key: String,
    pub near: Vec<u8>,
}

impl fmt::Display for UnknownKey {
    fn fmt<W: fmt::Write>(&self, f: &mut fmt::Formatter<W>) -> fmt::Result {
        let key = self.key.as_str();
        let near = std::str::from_utf8(&self.near).unwrap_or("");
        if is_bare(key) {
            write!(f, "{key} (near: {near})")
        } else {
            write!(f, "{key:?} (near: {near})")
        }
    }
}

/// Whether a document may have a key without quotes.
fn is_bare(key: &str) -> bool {
    !key.is_empty() && key.as_bytes().iter().all(|byte| is_bare_byte(*byte))
}

/// Whether a key without quotes may have this byte.
fn is_bare_byte(byte: u8) -> bool {
    byte.is_ascii_alphanumeric() || byte == b'_' || byte == b'-'
}

/// The keys of `wires` and of `names`: the signals of a link.
fn wire_keys() -> &'static [&'static [u8]]
    ensures { map (λ key. key.now) result.now ≡ wire_keys }
{
    &[
        b"a_valid",
        b"a_ready",
        b"a_opcode",
        b"a_param",
        b"a_size",
        b"a_source",
        b"a_address",
        b"a_mask",
        b"a_data",
        b"a_corrupt",
        b"d_valid",
        b"d_ready",
        b"d_opcode",
        b"d_param",
        b"d_size",
        b"d_source",
        b"d_data",
        b"d_denied",
        b"d_corrupt",
        b"extra",
    ]
}

impl TableKind {
    /// The keys that a table of this kind may have.
    pub fn keys(self) -> &'static [&'static [u8]]
        ensures { map (λ key. key.now) result.now ≡ known_keys self }
    {
        match self {
            TableKind::Top => &[
                b"bus",
                b"unaligned",
                b"corrupt",
                b"decode",
                b"resets",
                b"period",
                b"port",
                b"master",
                b"clock",
                b"reset",
                b"reset_active",
                b"edge",
                b"bits",
                b"names",
                b"slots",
                b"extra",
            ],
            TableKind::Port => &[
                b"name",
                b"kind",
                b"base",
                b"length",
                b"ranges",
                b"reset",
                b"image",
                b"unknown",
                b"sizes",
                b"order",
                b"bus",
                b"mirror",
                b"volatile",
                b"on_reset",
                b"hosts",
                b"sources",
                b"crossing",
                b"fifo",
                b"signals",
                b"wires",
                b"bits",
                b"clock",
                b"link_reset",
                b"reset_active",
                b"edge",
                b"extra",
            ],
            TableKind::Master => &[
                b"name",
                b"sources",
                b"first",
                b"stride",
                b"bus",
                b"reach",
                b"fifo",
                b"signals",
                b"wires",
                b"bits",
                b"clock",
                b"link_reset",
                b"reset_active",
                b"edge",
                b"ops",
                b"extra",
            ],
            TableKind::Sizes => &[
                b"get",
                b"putfull",
                b"putpart",
                b"arithmetic",
                b"logical",
                b"intent",
                b"extra",
            ],
            TableKind::Orders => &[b"masters", b"ports", b"extra"],
            TableKind::Sources => &[b"master", b"first", b"stride", b"extra"],
            TableKind::Names | TableKind::Wires => wire_keys(),
        }
    }

    /// Whether a table of this kind may have a key.
    fn has(self, key: &str) -> bool
        ensures { result ≡ is_among (known_keys self) key.now }
    {
        is_among(self.keys(), key.as_bytes())
    }

    /// The first key of a table, in the order of bytes, that a table of this kind may not have.
    pub fn unknown_in(self, table: &Table) -> Option<&str>
        ensures { option_map (λ key. key.now) result ≡ first_unknown self (table_view table.now) }
    {
        for (key, _) in table.iter() {
            if !self.has(key.as_str()) {
                return Some(key.as_str());
            }
        }
        None
    }

    /// A key that a table of this kind may not have, with the nearest that it may.
    pub fn unknown_key(self, alloc: Global, key: &str) -> Result<UnknownKey, AllocError>
        ensures key { IfOk result (λ unknown. string_bytes unknown.key ≡ key.now) }
        ensures near { IfOk result (λ unknown. unknown.near.items ≡ near_key self key.now) }
    {
        let near = nearest(alloc, self.keys(), key.as_bytes())?.unwrap_or(b"");
        Ok(UnknownKey {
            key: String::from_str(alloc, key)?,
            near: Vec::from_slice(alloc, near)?,
        })
    }
}
