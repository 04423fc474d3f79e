//! The identifiers that a dump declares.
ghost use Rattle.std.specs.Prelude.{◌≡◌, ◌<◌, ℕ, List, None, Some, OnOk, IfOk, IfSome, length, unwrap_or, if◌then◌else◌};
ghost use Rattle.std.specs.Str.{bytes_eq};
ghost use Rattle.check_vcd.specs.Codes.{cell_at, find_in, is_sign, place_of};

use std::alloc::{AllocError, Global};
use std::collections::HashMap;

/// What is known of an identifier: how many bits its values have at most, and where they are kept, if they are wanted.
#[derive(Debug, Clone, Copy, PartialEq, Eq)]
pub struct Coded {
    pub width: u64,
    pub slot: Option<usize>,
}

/// How many identifiers of one or two signs there are, of 94 signs.
pub const SHORT_CODES: usize = 8_930;

/// The identifiers that a dump declares. Short ones, which most dumps have, are looked up by their places, and the others
/// by their hashes.
#[derive(Drop)]
pub(crate) struct Codes {
    short: Vec<Option<Coded>>,
    known: HashMap<Vec<u8>, Coded>,
}

/// Whether a byte is a sign of an identifier: a character of ASCII that is printed.
#[inline(always)]
fn is_sign(byte: u8) -> bool
    ensures { result ≡ is_sign byte }
{
    b'!' <= byte && byte <= b'~'
}

/// The place of an identifier of one or two signs among all of these.
#[inline(always)]
fn place_of(code: &[u8]) -> Option<usize>
    ensures { result ≡ place_of code.now }
{
    match code {
        [only] if is_sign(*only) => Some((*only - b'!') as usize),
        [low, high] if is_sign(*low) && is_sign(*high) => {
            Some(94 + (*low - b'!') as usize + 94 * (*high - b'!') as usize)
        }
        _ => None,
    }
}

impl Codes {
    /// None is declared.
    pub(crate) fn new(alloc: Global) -> Result<Codes, AllocError>
        ensures { IfOk result (λ codes. (code : List ℕ) → find_in codes code ≡ None) }
    {
        let mut short = Vec::with_capacity(alloc, SHORT_CODES)?;
        short.resize(SHORT_CODES, None)?;
        Ok(Codes {
            short,
            known: HashMap::new(alloc),
        })
    }

    /// What is known of an identifier, if it is declared.
    #[inline(always)]
    pub(crate) fn find(&self, code: &[u8]) -> Option<Coded>
        ensures { result ≡ find_in self.now code.now }
    {
        match self.cell_of(code) {
            Some(place) => self.short[place],
            None => self.known.get(code).copied(),
        }
    }

    /// The place of an identifier in the table, if it has one there.
    #[inline(always)]
    fn cell_of(&self, code: &[u8]) -> Option<usize>
        ensures inside { IfSome result (λ place. place < length self.now.short.items) }
        ensures some { IfSome result (λ place. place_of code.now ≡ Some place) }
        ensures none { result ≡ None → cell_at self.now.short.items (place_of code.now) ≡ None }
    {
        let Some(place) = place_of(code) else {
            return None;
        };
        if place < self.short.len() {
            Some(place)
        } else {
            None
        }
    }

    /// Knows this of an identifier, in place of what was known.
    pub(crate) fn put(&mut self, alloc: Global, code: &[u8], coded: Coded) -> Result<(), AllocError>
        ensures { OnOk result ((other : List ℕ) → find_in self.new other
            ≡ (if bytes_eq code.now other then Some coded else find_in self.old other)) }
    {
        if let Some(place) = self.cell_of(code) {
            self.short[place] = Some(coded);
            return Ok(());
        }
        self.known.insert(Vec::from_slice(alloc, code)?, coded)?;
        Ok(())
    }
}
