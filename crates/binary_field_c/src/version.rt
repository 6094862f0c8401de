// The version of the library.
// Written by scripts/make_c_exports.py; do not edit.
ghost use Rattle.std.specs.Prelude.{◌≡◌, ◌+◌, ◌*◌};

// The numbers of the version.
const MAJOR: u32 = 0;

const MINOR: u32 = 1;

const PATCH: u32 = 0;

/// The version of the library, 65536 times the major number, 256 times the minor one, and the patch.
#[unsafe(no_mangle)]
pub extern "C" fn bf_version() -> u32
    ensures { result ≡ 65536 * MAJOR + 256 * MINOR + PATCH }
{
    65536 * MAJOR + 256 * MINOR + PATCH
}
