//! A law, on a function that does nothing but carry it.
ghost use Rattle.std.specs.Prelude.{◌≡◌, ◌↔◌, IsTrue};
ghost use Rattle.std.specs.Ordering.{is_eq};
ghost use Rattle.check_bins.specs.Counting.{bin_cmp};
ghost use Rattle.check_bins.specs.declared.bin.Bin.{Bin};

/// The order of bins tells any two of them apart, so a bin is counted as itself alone.
pub fn order_tells_bins_apart()
    ensures { (one other : Bin) → IsTrue (is_eq (bin_cmp one other)) ↔ (one ≡ other) }
{}
