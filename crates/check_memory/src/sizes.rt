//! The tables of sizes that a port may have.
ghost use Rattle.std.specs.Prelude.{◌≡◌, ◌↔◌, IsTrue, IsSome, IfSome};
ghost use Rattle.tl_ops.specs.Support.{row_of_kind};
ghost use Rattle.check_memory.specs.Sizes.{IsMessageSpan, IsLawfulTable};

use std::marker::Model;
use tl_ops::{Kind, SizeSpan, SizeTable};
use tl_types::MAX_SIZE;

/// A table of sizes within the rules: they are sizes of messages.
#[derive(Debug, Drop)]
pub struct Sizes {
    table: SizeTable,
}

impl Model for Sizes {
    ghost use Rattle.tl_ops.specs.declared.sizes.SizeTable.{SizeTable as Table};
    ghost use Rattle.check_memory.specs.Sizes.{IsLawfulTable};

    ghost Value = { Table };

    ghost view = { λ s. s.table };

    ghost invariant = { λ s. IsLawfulTable s.table };
}

impl Sizes {
    /// The sizes of this table, if it is within the rules.
    pub fn new(table: SizeTable) -> Option<Sizes>
        ensures lawful { IsSome result ↔ IsLawfulTable table }
        ensures value { IfSome result (λ sizes. sizes ≡ table) }
    {
        if is_lawful(&table) {
            Some(Sizes { table })
        } else {
            None
        }
    }

    /// The sizes of a kind, if no others are given.
    pub fn of(kind: Kind) -> Sizes
        ensures { result ≡ row_of_kind kind }
    {
        Sizes {
            table: kind.sizes(),
        }
    }

    /// The table.
    pub fn table(&self) -> SizeTable
        ensures value { result ≡ self.now }
        ensures lawful { IsLawfulTable self.now }
    {
        self.table
    }
}

/// Whether a table is within the rules.
fn is_lawful(table: &SizeTable) -> bool
    ensures { IsTrue result ↔ IsLawfulTable table.now }
{
    is_message_span(table.get)
        && is_message_span(table.put_full)
        && is_message_span(table.put_partial)
        && is_message_span(table.arithmetic)
        && is_message_span(table.logical)
        && is_message_span(table.intent)
}

/// Whether a span, if there is one, is one of the sizes of messages.
fn is_message_span(span: Option<SizeSpan>) -> bool
    ensures { IsTrue result ↔ IsMessageSpan span }
{
    match span {
        Some(span) => span.least <= span.greatest && span.greatest <= MAX_SIZE,
        None => true,
    }
}
