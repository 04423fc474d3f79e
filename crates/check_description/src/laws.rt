//! Laws of descriptions and of their ports, each on a function that does nothing but carry it.
ghost use Rattle.std.specs.Prelude.{◌≡◌};
ghost use Rattle.check_description.specs.Laws.{ErrorPortIsWhole, KeepsItsStore, KnownPortIsWhole};
ghost use Rattle.check_description.specs.declared.read.TheConstants.{MAX_SYSTEM};
ghost use Rattle.check_description.specs.declared.volatile.TheConstants.{MAX_VOLATILE};

/// The limits of this crate in numbers: contracts name the constants, so a wrong one would change what they promise.
pub fn limits_in_numbers()
    ensures system { MAX_SYSTEM ≡ 1048576 }
    ensures volatile { MAX_VOLATILE ≡ 64 }
{}

/// A port of one range that is wholly known at reset keeps a store of `tl_ops`: the bytes of its image, those of its
/// reset over them, and zeros.
pub fn a_plain_port_keeps_its_store()
    ensures { KeepsItsStore }
{}

/// A port that says of no byte that it is unknown, or changes by itself, knows all its bytes before any request. So no reply
/// of it may have unknown lanes, unless it keeps its bytes over resets, which may cut requests short.
pub fn a_known_port_is_whole()
    ensures { KnownPortIsWhole }
{}

/// So does the error port.
pub fn the_error_port_is_whole()
    ensures { ErrorPortIsWhole }
{}
