//! The version of the library.

ghost use Rattle.std.specs.Prelude.{◌≡◌, length};
ghost use Rattle.dwarf_read_c.specs.Room.{Puts};
ghost use Rattle.dwarf_read_c.specs.Version.{library_version};

use crate::room::put;

// tools/examples compares it with the file VERSION.
const VERSION: &str = "0.5.0";

/// Writes the version of the library, such as `0.5.0`, to the front of `version`, without a zero
/// byte after it. `len` is the number of its bytes. If `version` has no room for them, only `len`
/// is written, and the call returns `DWARF_NO_ROOM`.
#[unsafe(no_mangle)]
pub extern "C" fn dwarf_read_version(version: &mut [u8], len: &mut usize) -> u32
    ensures written { Puts library_version version.old version.new result }
    ensures counted { len.new ≡ length library_version }
{
    *len = VERSION.len();
    put(VERSION.as_bytes(), version)
}
