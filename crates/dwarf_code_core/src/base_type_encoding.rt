//! Encodings of base types.

ghost use Rattle.std.specs.Prelude.{◌≡◌, Some, option_map};
ghost use Rattle.std.specs.Fmt.{padded};
ghost use Rattle.dwarf_const_core.specs.Names.{name_of};
ghost use Rattle.dwarf_code_core.specs.DwAte.{base_type_encoding_names, base_type_encoding_text};

use dwarf_const_core::names;
use dwarf_const_core::names::{Names, pad_name};
use std::fmt;

/// How a base type is represented (DWARF 5, section 7.8).
///
/// `Display` writes the name, or `Unknown DwAte: 99` for a value without one, and honours width,
/// precision, fill and alignment.
#[derive(Debug, Clone, Copy, PartialEq, Eq, Hash, PartialOrd, Ord)]
pub struct DwAte(pub u8);

/// An address.
pub const DW_ATE_address: DwAte = DwAte(0x01);
/// A truth value.
pub const DW_ATE_boolean: DwAte = DwAte(0x02);
/// A complex binary floating-point number.
pub const DW_ATE_complex_float: DwAte = DwAte(0x03);
/// A binary floating-point number.
pub const DW_ATE_float: DwAte = DwAte(0x04);
/// A signed integer.
pub const DW_ATE_signed: DwAte = DwAte(0x05);
/// A signed character.
pub const DW_ATE_signed_char: DwAte = DwAte(0x06);
/// An unsigned integer.
pub const DW_ATE_unsigned: DwAte = DwAte(0x07);
/// An unsigned character.
pub const DW_ATE_unsigned_char: DwAte = DwAte(0x08);

// DWARF 3.

/// An imaginary binary floating-point number.
pub const DW_ATE_imaginary_float: DwAte = DwAte(0x09);
/// A packed decimal number.
pub const DW_ATE_packed_decimal: DwAte = DwAte(0x0a);
/// A decimal number as a string of digits.
pub const DW_ATE_numeric_string: DwAte = DwAte(0x0b);
/// A string edited by a picture, as in COBOL.
pub const DW_ATE_edited: DwAte = DwAte(0x0c);
/// A signed fixed-point number.
pub const DW_ATE_signed_fixed: DwAte = DwAte(0x0d);
/// An unsigned fixed-point number.
pub const DW_ATE_unsigned_fixed: DwAte = DwAte(0x0e);
/// A decimal floating-point number.
pub const DW_ATE_decimal_float: DwAte = DwAte(0x0f);

// DWARF 4.

/// A Unicode character in one of the UTF forms.
pub const DW_ATE_UTF: DwAte = DwAte(0x10);

// DWARF 5.

/// A character of ISO 10646.
pub const DW_ATE_UCS: DwAte = DwAte(0x11);
/// A character of ISO 646.
pub const DW_ATE_ASCII: DwAte = DwAte(0x12);

// The values that vendors may use.

/// The first value open to vendors.
pub const DW_ATE_lo_user: DwAte = DwAte(0x80);
/// The last value open to vendors.
pub const DW_ATE_hi_user: DwAte = DwAte(0xff);

// tools/constants writes this list from the declarations.
#[rattlefmt::skip]
const NAMES: Names = names![
    DW_ATE_address, DW_ATE_boolean, DW_ATE_complex_float, DW_ATE_float, DW_ATE_signed,
    DW_ATE_signed_char, DW_ATE_unsigned, DW_ATE_unsigned_char, DW_ATE_imaginary_float,
    DW_ATE_packed_decimal, DW_ATE_numeric_string, DW_ATE_edited, DW_ATE_signed_fixed,
    DW_ATE_unsigned_fixed, DW_ATE_decimal_float, DW_ATE_UTF, DW_ATE_UCS, DW_ATE_ASCII,
    DW_ATE_lo_user, DW_ATE_hi_user,
];

impl DwAte {
    /// Returns the name of this value, such as `DW_ATE_address`, or `None` if it has none.
    #[tactic(auto, unfolding(crate::specs::DwAte::base_type_encoding_names))]
    pub fn static_string(&self) -> Option<&'static str>
        ensures { option_map (λ s. s.now) result ≡ name_of base_type_encoding_names self.now.0 }
    {
        NAMES.find(self.0 as u64)
    }
}

impl fmt::Display for DwAte {
    ghost output = { λ base_type_encoding. Some (base_type_encoding_text base_type_encoding.0) };

    ghost styled_output = { λ base_type_encoding spec. Some (padded spec (base_type_encoding_text base_type_encoding.0)) };

    fn fmt<W: fmt::Write>(&self, f: &mut fmt::Formatter<W>) -> fmt::Result {
        pad_name(f, self.static_string(), "DwAte", self.0 as u64)
    }
}
