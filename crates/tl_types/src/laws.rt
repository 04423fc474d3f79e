//! Laws, each a function that does nothing and whose contract is the law.
ghost use Rattle.std.specs.Prelude.{◌≡◌};
ghost use Rattle.tl_types.specs.declared.limits.TheConstants.{MAX_SIZE, MAX_BYTES, BUS_BYTES, WORD_BYTES};
ghost use Rattle.tl_types.specs.declared.limits.TheConstants.{MAX_MASTERS, MAX_PORTS, MAX_SLOTS, MAX_WORKERS};

/// The limits in numbers. Contracts name the constants, so without this law a wrong constant would change what they
/// promise.
pub fn limits_in_numbers()
    ensures size { MAX_SIZE ≡ 8 }
    ensures bytes { MAX_BYTES ≡ 256 }
    ensures lanes { BUS_BYTES ≡ 8 }
    ensures words { WORD_BYTES ≡ 8 }
    ensures masters { MAX_MASTERS ≡ 16 }
    ensures ports { MAX_PORTS ≡ 16 }
    ensures slots { MAX_SLOTS ≡ 256 }
    ensures workers { MAX_WORKERS ≡ 4 }
{}
