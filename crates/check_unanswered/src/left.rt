//! What is in flight on one side.
ghost use Rattle.std.specs.Prelude.{◌≡◌, ◌+◌, ◌^◌, ◌<◌, [], ◌∷◌, ◌++◌, List, Option, Some, length, IfNone, IfSome};
ghost use Rattle.check_unanswered.specs.Table.{IsEarliestOf, IsOldestOf, opens};
ghost use Rattle.check_rows.specs.declared.request.Open.{Open as IsOpen};

use check_rows::{Left, Open};

/// The older of two requests, if there was one before.
fn older(first: Option<Open>, ask: &Open) -> Open
    ensures { (before : List IsOpen) → IsOldestOf before first
        → IsOldestOf (before ++ ask.now ∷ []) (Some result) }
{
    match first {
        Some(first) if ask.began.place < first.began.place => *ask,
        Some(first) => first,
        None => *ask,
    }
}

/// The one that began first, with one place of a table more.
fn oldest_with(first: Option<Open>, ask: &Option<Open>) -> Option<Open>
    ensures { (before : List (Option IsOpen)) → IsOldestOf (opens before) first
        → IsOldestOf (opens (before ++ ask.now ∷ [])) result }
{
    match ask {
        Some(ask) => Some(older(first, ask)),
        None => first,
    }
}

/// How many there are, with one place of a table more.
fn count_with(requests: usize, ask: &Option<Open>) -> usize
    requires { requests + 1 < 2 ^ 64 }
    ensures { result ≡ requests + length (opens (ask.now ∷ [])) }
{
    match ask {
        Some(_) => requests + 1,
        None => requests,
    }
}

/// How many requests are in flight, and the one that began first; `None` if none is.
pub fn left_in(table: &[Option<Open>]) -> Option<Left>
    ensures none { IfNone result (opens table.now ≡ []) }
    ensures some { IfSome result (IsEarliestOf table.now) }
{
    let mut requests = 0;
    let mut first = None;
    for ask in table {
        requests = count_with(requests, ask);
        first = oldest_with(first, ask);
    }
    match first {
        Some(first) => Some(Left { requests, first }),
        None => None,
    }
}
