//! Texts of errors.

ghost use Rattle.std.specs.Prelude.{◌≡◌, ◌≢◌, Option, None, option_map};
ghost use Rattle.dwarf_read_core.specs.ErrorText.{error_text};
ghost use Rattle.dwarf_fault.specs.Fault.{Means, error_number};
ghost use Rattle.dwarf_read_c.specs.Names.{PutsText};

use crate::room::put;
use crate::status::DWARF_NO_NAME;
use dwarf_fault::{DwarfFault, error_of, fault_of};
use dwarf_read_core::Error;
use std::alloc::Global;

/// Writes the text of an error, such as `unexpected end of input`, to the front of `text`, without
/// a zero byte after it. `len` is how many bytes the text has. If `text` has no room for them,
/// only `len` is written, and the call returns `DWARF_NO_ROOM`. It returns `DWARF_NO_NAME` if no
/// error has this number and value, such as 99, or 14 with a value above 255, and 18
/// (`OutOfMemory`) if memory for the text runs out. Then nothing is written.
#[unsafe(no_mangle)]
pub extern "C" fn dwarf_fault_text(
    mem: Global,
    fault: &DwarfFault,
    text: &mut [u8],
    len: &mut usize,
) -> u32
    ensures reported { result ≢ error_number Error.OutOfMemory
        → (error : Option Error) × Means fault.now error
        × PutsText (option_map error_text error) text.old text.new len.old len.new result }
    // Only a text needs memory.
    ensures memory { Means fault.now None → result ≢ error_number Error.OutOfMemory }
    ensures no_text { result ≡ error_number Error.OutOfMemory
        → (text.new ≡ text.old) × (len.new ≡ len.old) }
{
    let Some(error) = error_of(fault) else {
        return DWARF_NO_NAME;
    };
    match format!(in mem; "{error}") {
        Ok(written) => {
            *len = written.len();
            put(written.as_bytes(), text)
        }
        Err(_) => fault_of(Error::OutOfMemory).kind,
    }
}
