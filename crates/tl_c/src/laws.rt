//! The numbers of the header, on functions that do nothing but carry the law.
ghost use Rattle.std.specs.Prelude.{◌≡◌};
ghost use Rattle.check_beats.specs.declared.bus.TheConstants.{MAX_LANES};
ghost use Rattle.tl_c.specs.declared.fault.TheConstants.{OK, EMPTY, FULL, MEMORY, BAD_ARGUMENT, OTHER_VERSION, NO_OPERATION, SIZE, NO_BYTE, DEVICE, NO_LINK, INCOMPLETE, NO_PORT, NO_IMAGE, LONG_IMAGE, IMAGE_UNREADABLE};
ghost use Rattle.tl_c.specs.declared.making.TheConstants.{LINE_ROOM};
ghost use Rattle.tl_c.specs.declared.version.TheConstants.{VERSION};
ghost use Rattle.tl_c.specs.declared.wire.TheConstants.{ROOM};

/// The faults in the numbers of `enum tlx_fault`; those that are told of system files, requests and beats are in
/// `specs/Numbers.antt`. Contracts name the constants, so without this law a wrong one would change what they promise.
pub fn faults_in_numbers()
    ensures ok { OK ≡ 0 }
    ensures empty { EMPTY ≡ 2 }
    ensures full { FULL ≡ 3 }
    ensures memory { MEMORY ≡ 4 }
    ensures bad_argument { BAD_ARGUMENT ≡ 5 }
    ensures other_version { OTHER_VERSION ≡ 6 }
    ensures no_operation { NO_OPERATION ≡ 20 }
    ensures size { SIZE ≡ 21 }
    ensures no_byte { NO_BYTE ≡ 25 }
    ensures device { DEVICE ≡ 26 }
    ensures no_link { NO_LINK ≡ 30 }
    ensures incomplete { INCOMPLETE ≡ 50 }
    ensures no_port { NO_PORT ≡ 60 }
    ensures no_image { NO_IMAGE ≡ 61 }
    ensures long_image { LONG_IMAGE ≡ 62 }
    ensures image_unreadable { IMAGE_UNREADABLE ≡ 63 }
{}

/// The room of a message's bytes in the structs, `TLX_ROOM`, that of a beat's lanes, `TLX_LANES`, and the room for the
/// line of a fault that a judge begins with.
pub fn room_in_numbers()
    ensures bytes { ROOM ≡ 256 }
    ensures lanes { MAX_LANES ≡ 64 }
    ensures line { LINE_ROOM ≡ 2048 }
{}

/// The version of the header, `TLX_VERSION`.
pub fn version_in_numbers()
    ensures { VERSION ≡ 8 }
{}
