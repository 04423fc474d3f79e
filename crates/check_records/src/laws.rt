//! The limit of this crate in its number, on a function that does nothing but carry the law.
ghost use Rattle.std.specs.Prelude.{◌≡◌};
ghost use Rattle.check_records.specs.declared.draft.TheConstants.{MAX_ROW};

/// Contracts name the constant, so a wrong one would change what they promise.
pub fn limits_in_numbers()
    ensures row { MAX_ROW ≡ 4096 }
{}
