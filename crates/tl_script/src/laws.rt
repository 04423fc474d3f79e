//! Laws of scripts, each on a function that does nothing but carry it.
ghost use Rattle.std.specs.Prelude.{◌≡◌, ◌*◌, ◌<◌, ◌↔◌, ℕ, true, All, IfSome, List, Option, Some};
ghost use Rattle.tl_types.specs.Request.{Request};
ghost use Rattle.tl_script.specs.Data.{data_of, data_text};
ghost use Rattle.tl_types.specs.declared.limits.TheConstants.{MAX_MASTERS};
ghost use Rattle.tl_map.specs.declared.limits.TheConstants.{MAX_BLOCK};
ghost use Rattle.tl_map.specs.declared.owners.Owner.{Owner};
ghost use Rattle.tl_map.specs.Blocks.{AreBlocks};
ghost use Rattle.tl_map.specs.Owner.{IsWideSource};
ghost use Rattle.tl_map.specs.Range.{HoldsAsk};
ghost use Rattle.tl_script.specs.Sources.{AreLawfulCounts};
ghost use Rattle.tl_ops.specs.Store.{Store, contains_window};
ghost use Rattle.tl_script.specs.System.{range_of};
ghost use Rattle.tl_script.specs.declared.map.TheConstants.{MAX_RANGES};
ghost use Rattle.tl_script.specs.declared.script.TheConstants.{MAX_SCRIPT};
ghost use Rattle.tl_script.specs.declared.system.TheConstants.{MAX_JOBS};

/// The limits of this crate in numbers: contracts name the constants, so a wrong one would change what they promise.
pub fn limits_in_numbers()
    ensures script { MAX_SCRIPT ≡ 1048576 }
    ensures ranges { MAX_RANGES ≡ 15 }
    ensures operations { MAX_JOBS ≡ 4096 }
{}

/// The wide sources of a script's masters are below those of the most sources of the most masters.
pub fn wide_sources_are_low()
    ensures { (counts : List ℕ) (owners : List Owner) → AreLawfulCounts counts → AreBlocks counts owners
        → (master source wide : ℕ) → IsWideSource owners master source wide → wide < MAX_BLOCK * MAX_MASTERS }
{}

/// Bytes are read as they are printed.
pub fn bytes_are_read_back()
    ensures { (bytes : List (Option ℕ)) → All (λ byte. IfSome byte (λ value. value < 256)) bytes
        → data_of (data_text bytes) ≡ Some bytes }
{}

/// The address map and the slaves mean the same by "holds all bytes of a request": a request that a port's range holds
/// has its window in that port's slave, and the other way round.
pub fn containment_is_one()
    ensures { (store : Store) (ask : Request)
        → HoldsAsk (range_of store) ask ↔ (contains_window store ask ≡ true) }
{}
