//! The version of the header.
ghost use Rattle.std.specs.Prelude.{◌≡◌};

/// The version of the header, `TLX_VERSION`. It rises when a struct, a number or a call changes.
pub(crate) const VERSION: u32 = 8;

/// `tlx_version` of the header: the version of the header that this library was built for.
#[unsafe(no_mangle)]
pub extern "C" fn tlx_version() -> u32
    ensures { result ≡ VERSION }
{
    VERSION
}
