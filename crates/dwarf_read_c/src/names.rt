//! Names of constants.

ghost use Rattle.std.specs.Prelude.{option_map};
ghost use Rattle.dwarf_read_c.specs.Families.{name_in};
ghost use Rattle.dwarf_read_c.specs.Names.{TellsName};

use crate::families::name_in;
use crate::status::{DWARF_NO_NAME, DWARF_OK};

/// The name of a constant. Its bytes are a part of the program and never change.
#[repr(C)]
#[derive(Clone, Copy)]
pub struct DwarfName {
    /// The bytes, without a zero byte after them. C sees a pointer and a length.
    pub text: &'static [u8],
}

/// Finds the name of a constant, such as `DW_LANG_Rust`. The constant is named by the number of its
/// family, which `include/dwarf_read.h` lists, and its value. Returns `DWARF_NO_NAME`, and leaves
/// `name` as it was, if no constant of the family has this value, or if no family has the number.
///
/// `name` has to be a name before the call, too, such as one without bytes.
#[unsafe(no_mangle)]
pub extern "C" fn dwarf_constant_name_0_4(family: u32, value: u64, name: &mut DwarfName) -> u32
    ensures named { TellsName (name_in family value) name.old.text.now name.new.text.now result }
{
    tell_name(name_in(family, value), name)
}

// Writes a name, if there is one.
fn tell_name(found: Option<&'static str>, name: &mut DwarfName) -> u32
    ensures { TellsName (option_map (λ s. s.now) found.entry)
        name.old.text.now name.new.text.now result }
{
    match found {
        Some(found) => {
            name.text = found.as_bytes();
            DWARF_OK
        }
        None => DWARF_NO_NAME,
    }
}
