//! The version of the library.

ghost use Rattle.std.specs.Prelude.{◌≡◌};

/// The version that the header names: 0x010203 is 1.2.3.
const VERSION: u32 = 0x00_01_00;

/// Returns the version of the library.
#[unsafe(no_mangle)]
pub extern "C" fn df1_version() -> u32
    ensures { result ≡ 256 }
{
    VERSION
}
