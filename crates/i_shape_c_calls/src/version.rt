//! The version of the library.

ghost use Rattle.std.specs.Prelude.{◌≡◌, ◌^◌};

use i_shape_c::version::version;

/// Returns the version: 2^16 times the major number, plus 2^8 times the minor number, plus the patch number.
#[unsafe(no_mangle)]
pub extern "C" fn i_shape_version() -> u32
    ensures { result ≡ 2 ^ 9 }
{
    version()
}
