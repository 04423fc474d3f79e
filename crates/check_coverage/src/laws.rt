//! A law, on a function that does nothing but carry it.
ghost use Rattle.std.specs.Prelude.{◌≡◌, ◌≤◌, ◌<◌, ◌+◌, ◌++◌, List, ℕ, length};
ghost use Rattle.std.specs.List.{AllByRecursion};
ghost use Rattle.check_rows.specs.Row.{SeenRow};
ghost use Rattle.check_sides.specs.Plan.{Plan};
ghost use Rattle.check_coverage.specs.Bins.{IsUpTo64, bins, told_source, with_one};
ghost use Rattle.check_coverage.specs.Flights.{InFlight};
ghost use Rattle.check_bins.specs.declared.bin.Bin.{Bin};
ghost use Rattle.check_coverage.specs.declared.coverage.TheConstants.{MOST_IN_FLIGHT, SOURCES_APART};

/// The limits in numbers: up to 64 requests in flight are told apart, and the sources 0 to 63 of a master. No bin tells more.
pub fn limits_in_numbers()
    ensures most { MOST_IN_FLIGHT ≡ 64 }
    ensures apart { (flights : List InFlight) → length flights < 64 → with_one flights ≡ length flights + 1 }
    ensures more { (flights : List InFlight) → 64 ≤ length flights → with_one flights ≡ 64 }
    ensures own { (source : ℕ) → source < 64 → told_source source ≡ source }
    ensures past { (source : ℕ) → 64 ≤ source → told_source source ≡ 64 }
    ensures sources { SOURCES_APART ≡ 64 }
    ensures told { (plan : Plan) (rows : List SeenRow) → AllByRecursion IsUpTo64 (bins plan rows) }
    ensures after_resets { (plan : Plan) (earlier : List Bin) (rows : List SeenRow) → AllByRecursion IsUpTo64 earlier
        → AllByRecursion IsUpTo64 (bins plan rows ++ earlier) }
{}
