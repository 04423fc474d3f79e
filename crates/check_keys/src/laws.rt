//! Laws of keys, each on a function that does nothing but carry it.
ghost use Rattle.std.specs.Prelude.{◌≡◌, ◌-◌, ◌^◌, ℕ, Some, None, map, ◌∷◌, []};
ghost use Rattle.check_beats.specs.Bus.{bus_bytes};
ghost use Rattle.check_beats.specs.declared.bus.Bus.{Bus};
ghost use Rattle.check_keys.specs.Bus.{bus_of_bytes};
ghost use Rattle.check_keys.specs.Value.{last_integer};
ghost use Rattle.check_keys.specs.declared.name.TheConstants.{MAX_NAME};
ghost use Rattle.check_keys.specs.declared.value.TheConstants.{LAST_INTEGER};

/// The limits of this crate in numbers: contracts name the constants, so a wrong one would change what they promise.
pub fn limits_in_numbers()
    ensures name { MAX_NAME ≡ 32 }
    ensures integer { LAST_INTEGER ≡ 2 ^ 63 - 1 }
{}

/// Each bus is the one of as many bytes as it has.
pub fn each_bus_has_its_bytes()
    ensures { (bus : Bus) → bus_of_bytes (bus_bytes bus) ≡ Some bus }
{}
