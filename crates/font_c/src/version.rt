//! The version of the library.

ghost use Rattle.std.specs.Prelude.{◌≡◌};

/// Returns the version as `major << 16 | minor << 8 | patch`.
#[unsafe(no_mangle)]
pub extern "C" fn fty_version() -> u32
    ensures { result ≡ 0x00_0D00 }
{
    0x00_0D00
}
