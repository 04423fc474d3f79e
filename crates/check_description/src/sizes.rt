//! The sizes that a port supports, for each operation.
ghost use Rattle.std.specs.Prelude.{◌≡◌, IfOk};
ghost use Rattle.toml.specs.View.{table_view, view};
ghost use Rattle.tl_text.specs.Reading.{if_any};
ghost use Rattle.check_memory.specs.Sizes.{IsLawfulSpan, IsMessageSpan, IsLawfulTable};
ghost use Rattle.check_keys.specs.Reading.{Gives};
ghost use Rattle.check_description.specs.Sizes.{pair_at as pair_of_member, pairs_in, sizes_at as sizes_of_table, sizes_in as sizes_of_value, span_of as span_of_pair, size_table_of};

use check_keys::{Key, SystemFault, find_member, find_value, in_range, pair_in_value, table_of};
use check_memory::Sizes;
use tl_ops::{SizeSpan, SizeTable};
use tl_types::MAX_SIZE;
use toml::{Table, Value};

/// Two integers, for each operation that has them.
#[derive(Debug, Clone, Copy)]
struct Pairs {
    get: Option<(i64, i64)>,
    put_full: Option<(i64, i64)>,
    put_partial: Option<(i64, i64)>,
    arithmetic: Option<(i64, i64)>,
    logical: Option<(i64, i64)>,
    intent: Option<(i64, i64)>,
}

/// The two integers of an operation, if it is there.
#[tactic(auto, unfolding(crate::specs::Sizes::pair_at))]
fn pair_at(table: &Table, name: &str) -> Result<Option<(i64, i64)>, SystemFault>
    ensures { Gives (λ pair. pair) result (pair_of_member name.now (table_view table.now)) }
{
    match find_member(table, name) {
        Some(value) => Ok(Some(pair_in_value(value, Key::Sizes)?)),
        None => Ok(None),
    }
}

/// The two integers of each operation.
#[tactic(auto, unfolding(crate::specs::Sizes::pairs_in))]
fn read_pairs(table: &Table) -> Result<Pairs, SystemFault>
    ensures { Gives (λ pairs. pairs) result (pairs_in (table_view table.now)) }
{
    let get = pair_at(table, "get")?;
    let put_full = pair_at(table, "putfull")?;
    let put_partial = pair_at(table, "putpart")?;
    let arithmetic = pair_at(table, "arithmetic")?;
    let logical = pair_at(table, "logical")?;
    let intent = pair_at(table, "intent")?;
    Ok(Pairs {
        get,
        put_full,
        put_partial,
        arithmetic,
        logical,
        intent,
    })
}

/// The sizes from the first integer to the second, which are those of messages.
#[tactic(auto, unfolding(crate::specs::Sizes::span_of))]
fn span_of(pair: (i64, i64)) -> Result<SizeSpan, SystemFault>
    ensures value { Gives (λ span. span) result (span_of_pair pair) }
    ensures lawful { IfOk result IsLawfulSpan }
{
    let least = in_range(pair.0, Key::Sizes, 0, u64::from(MAX_SIZE))?;
    let greatest = in_range(pair.1, Key::Sizes, least, u64::from(MAX_SIZE))?;
    Ok(SizeSpan {
        least: least as u8,
        greatest: greatest as u8,
    })
}

/// The sizes of an operation, if it has any.
fn span_if_any(pair: Option<(i64, i64)>) -> Result<Option<SizeSpan>, SystemFault>
    ensures value { Gives (λ span. span) result (if_any span_of_pair pair) }
    ensures lawful { IfOk result IsMessageSpan }
{
    match pair {
        Some(pair) => Ok(Some(span_of(pair)?)),
        None => Ok(None),
    }
}

/// The sizes of each operation.
#[tactic(auto, unfolding(crate::specs::Sizes::size_table_of))]
fn table_of_pairs(pairs: Pairs) -> Result<SizeTable, SystemFault>
    ensures value { Gives (λ table. table) result (size_table_of pairs) }
    ensures lawful { IfOk result IsLawfulTable }
{
    let get = span_if_any(pairs.get)?;
    let put_full = span_if_any(pairs.put_full)?;
    let put_partial = span_if_any(pairs.put_partial)?;
    let arithmetic = span_if_any(pairs.arithmetic)?;
    let logical = span_if_any(pairs.logical)?;
    let intent = span_if_any(pairs.intent)?;
    Ok(SizeTable {
        get,
        put_full,
        put_partial,
        arithmetic,
        logical,
        intent,
    })
}

/// The sizes that a value gives.
#[tactic(auto, unfolding(crate::specs::Sizes::sizes_in))]
fn sizes_in(value: &Value) -> Result<Sizes, SystemFault>
    ensures { Gives (λ sizes. sizes) result (sizes_of_value (view value.now)) }
{
    let pairs = read_pairs(table_of(value, Key::Sizes)?)?;
    match Sizes::new(table_of_pairs(pairs)?) {
        Some(sizes) => Ok(sizes),
        None => unreachable!(),
    }
}

/// The sizes of a port, which may give none.
#[tactic(auto, unfolding(crate::specs::Sizes::sizes_at))]
pub fn sizes_at(table: &Table) -> Result<Option<Sizes>, SystemFault>
    ensures { Gives (λ sizes. sizes) result (sizes_of_table (table_view table.now)) }
{
    match find_value(table, Key::Sizes) {
        Some(value) => Ok(Some(sizes_in(value)?)),
        None => Ok(None),
    }
}
