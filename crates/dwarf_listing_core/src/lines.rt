//! Single lines: a string of a section, and bytes in hexadecimal.

ghost use Rattle.std.specs.Prelude.{◌≡◌, ◌++◌, IfOk, IsErrOf, OnOk, string_bytes, vec_items};
ghost use Rattle.dwarf_read_core.specs.Lookups.{UnlessOutOfMemory};
ghost use Rattle.dwarf_listing_core.specs.Lines.{ListsString, hex_byte, hex_text, line};

use dwarf_read_core::{DebugStr, DebugStrOffset, Error, LittleEndian};
use std::alloc::{AllocError, Global};

/// Returns the string at an offset of `.debug_str` or `.debug_line_str`, byte for byte, and a line
/// end, in the memory of the section.
///
/// The line end replaces the zero byte after the string, which is then moved to the front.
///
/// # Errors
///
/// That of [`DebugStr::get_str`]. The call doesn't allocate.
#[tactic(auto, using(crate::proofs::StringLines::string_place))]
pub fn string_in_place(mut section: Vec<u8>, offset: u64) -> Result<Vec<u8>, Error>
    ensures answer { UnlessOutOfMemory (ListsString section.items offset) vec_items result }
    ensures memory { IsErrOf result Error.OutOfMemory → ⊥ }
{
    let debug_str = DebugStr::new(&section, LittleEndian);
    let start = offset as usize;
    let end = start + debug_str.get_str(DebugStrOffset(start))?.slice().len();
    section[end] = b'\n';
    section.truncate(end + 1);
    drop(section.drain(..start));
    Ok(section)
}

/// Returns two hexadecimal digits of each byte, with a space between bytes, and a line end.
///
/// # Errors
///
/// An error is returned if memory runs out.
#[tactic(auto, using(crate::proofs::Hexadecimal::hex_steps))]
pub fn hex_line(mem: Global, bytes: &[u8]) -> Result<Vec<u8>, AllocError>
    ensures { IfOk result (λ text. text.items ≡ line (hex_text bytes.now)) }
{
    let mut text = String::new(mem);
    for (i, byte) in bytes.iter().enumerate() {
        if i > 0 {
            text.push(' ')?;
        }
        push_hex(&mut text, *byte)?;
    }
    text.push('\n')?;
    Ok(text.into_bytes())
}

#[tactic(auto, using(crate::proofs::Hexadecimal::hex_digits))]
fn push_hex(text: &mut String, byte: u8) -> Result<(), AllocError>
    ensures { OnOk result (string_bytes text.new ≡ string_bytes text.old ++ hex_byte byte) }
{
    write!(text, "{byte:02x}")
}
