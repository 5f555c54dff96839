// The version of the interface, which include/ferghulta.h has too.
ghost use Rattle.std.specs.Prelude.{◌≡◌};
ghost use Rattle.ferghulta.specs.Version.{version};

const MAJOR: u32 = 5;

const MINOR: u32 = 3;

const PATCH: u32 = 0;

#[unsafe(no_mangle)]
pub extern "C" fn ferghulta_version() -> u32
    ensures { result ≡ version }
{
    10000 * MAJOR + 100 * MINOR + PATCH
}
