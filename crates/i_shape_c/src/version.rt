//! The version of the library.

ghost use Rattle.std.specs.Prelude.{◌≡◌, ◌+◌, ◌*◌, ◌^◌};

const MAJOR: u32 = 0;

const MINOR: u32 = 2;

const PATCH: u32 = 0;

/// Returns the version: 2^16 times the major number, plus 2^8 times the minor number, plus the patch number.
pub fn version() -> u32
    ensures { result ≡ 2 ^ 9 }
{
    MAJOR * 65536 + MINOR * 256 + PATCH
}
