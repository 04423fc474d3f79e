//! Requests as they crossed.
ghost use Rattle.std.specs.Prelude.{◌≡◌, []};
ghost use Rattle.tl_types.specs.declared.operation.AskOp.TheVariants.{Get};
ghost use Rattle.check_cells.specs.Sent.{is_corrupt, unspoiled_ask};

use crate::marks::Marks;
use std::marker::Model;
use tl_types::Ask;

/// A request as it crossed: for each of its bytes whether it is spoiled, since a corrupt beat carried it. A spoiled byte that
/// is given is zero.
#[derive(Debug, Drop)]
pub struct Sent {
    pub ask: Ask,
    pub marks: Marks,
}

impl Model for Sent {
    ghost use Rattle.check_cells.specs.Sent.{Sent};

    ghost Value = { Sent };

    ghost view = { λ s. record { ask = s.ask; spoiled = s.marks } };
}

impl Sent {
    /// A get of one byte at address 0 from source 0: room for requests that are read one after the other.
    pub fn blank() -> Sent
        ensures { result ≡ record {
          ask = record { op = Get; size = 0; source = 0; address = 0; bytes = [] };
          spoiled = [];
        } }
    {
        Sent {
            ask: Ask::blank(),
            marks: Marks::new(),
        }
    }

    /// A request of which no beat was marked corrupt.
    pub fn unspoiled(ask: &Ask) -> Sent
        ensures { result ≡ unspoiled_ask ask.now }
    {
        let mut marks = Marks::new();
        marks.push(false, ask.bytes().len());
        Sent {
            ask: ask.copy(),
            marks,
        }
    }

    /// Whether a beat of it was marked corrupt.
    pub fn is_corrupt(&self) -> bool
        ensures { result ≡ is_corrupt self.now }
    {
        self.marks.has_set()
    }

    /// The request.
    pub fn ask(&self) -> &Ask
        ensures { result.now ≡ self.now.ask }
    {
        &self.ask
    }

    /// Which of its bytes are spoiled.
    pub fn marks(&self) -> &Marks
        ensures { result.now ≡ self.now.spoiled }
    {
        &self.marks
    }

    /// The same request.
    pub fn copy(&self) -> Sent
        ensures { result ≡ self.now }
    {
        Sent {
            ask: self.ask.copy(),
            marks: self.marks.copy(),
        }
    }
}
