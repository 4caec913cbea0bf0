//! Sizes of forms (DWARF 5, 7.5.6).

ghost use Rattle.std.specs.Prelude.{◌≡◌};
ghost use Rattle.dwarf_read_core.specs.Forms.{form_size};
ghost use Rattle.dwarf_read_c.specs.Forms.{PutsSize, encoding_of};

use crate::status::{DWARF_NO_SIZE, DWARF_OK};
use dwarf_read_core::{
    AttributeSpecification, DW_AT_null, DW_FORM_implicit_const, DwForm, Encoding, Format,
};

/// Writes how many bytes a value of `form` has in a unit of `version`, with addresses of
/// `address_size` bytes, and in the 64-bit format if `is_64` is set. Returns `DWARF_NO_SIZE`, and
/// writes nothing, if the form doesn't determine the size, or if it has no name.
#[unsafe(no_mangle)]
pub extern "C" fn dwarf_form_size(
    form: u16,
    version: u16,
    address_size: u8,
    is_64: bool,
    size: &mut usize,
) -> u32
    ensures sized { PutsSize (form_size form (encoding_of version address_size is_64))
        size.old size.new result }
{
    let format = if is_64 {
        Format::Dwarf64
    } else {
        Format::Dwarf32
    };
    let encoding = Encoding {
        address_size,
        format,
        version,
    };
    match size_in(DwForm(form), encoding) {
        Some(found) => {
            *size = found;
            DWARF_OK
        }
        None => DWARF_NO_SIZE,
    }
}

// The size of a form in an encoding, if it has one.
fn size_in(form: DwForm, encoding: Encoding) -> Option<usize>
    ensures { result ≡ form_size form.0 encoding }
{
    // Any attribute with this form will do. Its value in the table changes nothing.
    let value = (form == DW_FORM_implicit_const).then_some(0);
    AttributeSpecification::new(DW_AT_null, form, value).size(encoding)
}
