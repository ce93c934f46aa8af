//! The version of the library.

ghost use Rattle.std.specs.Prelude.{◌≡◌};
ghost use Rattle.fuota_c.specs.Version.{version};

/// Returns the version of the library: its major number times 65,536, its minor number times 256, and its patch number.
#[unsafe(no_mangle)]
pub extern "C" fn fuota_version() -> u32
    ensures { result ≡ version }
{
    0x000100
}
