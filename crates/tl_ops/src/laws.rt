//! Laws about the definitions, for the crates above that keep histories.
ghost use Rattle.std.specs.Prelude.{◌≡◌, ◌≤◌, ◌+◌, ◌++◌, ◌∷◌, [], ℕ, List, length};
ghost use Rattle.tl_types.specs.Request.{Request};
ghost use Rattle.tl_types.specs.Response.{Response};
ghost use Rattle.tl_ops.specs.Store.{Store, after, reply};
ghost use Rattle.tl_ops.specs.History.{replay, asks_of, IsLawfulHistory};
ghost use Rattle.tl_ops.specs.Laws.{NumberIsSum, WindowByPlaces};
ghost use Rattle.tl_ops.specs.declared.bank.TheConstants.{MAX_LENGTH};

/// The limit of this crate in a number: contracts name the constant, so a wrong one would change what they promise.
pub fn limit_in_numbers()
    ensures { MAX_LENGTH ≡ 65536 }
{}

/// A request more is served last.
pub fn replay_ends_with_last()
    ensures { (store : Store) (asks : List Request) (ask : Request)
        → replay store (asks ++ ask ∷ []) ≡ after (replay store asks) ask }
{}

/// A lawful history stays lawful with one request more and the memory's reply to it.
pub fn history_grows()
    ensures { (reset store : Store) (history : List (Request × Response)) (ask : Request)
        → IsLawfulHistory reset history → store ≡ replay reset (asks_of history)
        → IsLawfulHistory reset (history ++ (ask, reply store ask) ∷ []) }
{}

/// The value of bytes, which is defined byte by byte, is the sum of byte k times 256^k.
pub fn number_is_sum()
    ensures { NumberIsSum }
{}

/// A replaced window has the new bytes, and every other place keeps its byte.
pub fn window_by_places()
    ensures { (bytes new : List ℕ) (start : ℕ) → start + length new ≤ length bytes
        → WindowByPlaces bytes start new }
{}
