//! Entries of `.debug_macro`.

ghost use Rattle.std.specs.Prelude.{◌≡◌, Some, option_map};
ghost use Rattle.std.specs.Fmt.{padded};
ghost use Rattle.dwarf_const_core.specs.Names.{name_of};
ghost use Rattle.dwarf_code_core.specs.DwMacro.{macro_entry_names, macro_entry_text};

use dwarf_const_core::names;
use dwarf_const_core::names::{Names, pad_name};
use std::fmt;

/// What kind of entry of `.debug_macro` follows (DWARF 5, section 7.23).
///
/// `Display` writes the name, or `Unknown DwMacro: 99` for a value without one, and honours width,
/// precision, fill and alignment.
#[derive(Debug, Clone, Copy, PartialEq, Eq, Hash, PartialOrd, Ord)]
pub struct DwMacro(pub u8);

/// A macro is defined, by a string that follows.
pub const DW_MACRO_define: DwMacro = DwMacro(0x01);
/// A macro is no longer defined, by a string that follows.
pub const DW_MACRO_undef: DwMacro = DwMacro(0x02);
/// An included file begins.
pub const DW_MACRO_start_file: DwMacro = DwMacro(0x03);
/// An included file ends.
pub const DW_MACRO_end_file: DwMacro = DwMacro(0x04);
/// A macro is defined, by an offset into `.debug_str`.
pub const DW_MACRO_define_strp: DwMacro = DwMacro(0x05);
/// A macro is no longer defined, by an offset into `.debug_str`.
pub const DW_MACRO_undef_strp: DwMacro = DwMacro(0x06);
/// The entries of another unit of `.debug_macro` belong here.
pub const DW_MACRO_import: DwMacro = DwMacro(0x07);
/// A macro is defined, by a string of the supplementary file.
pub const DW_MACRO_define_sup: DwMacro = DwMacro(0x08);
/// A macro is no longer defined, by a string of the supplementary file.
pub const DW_MACRO_undef_sup: DwMacro = DwMacro(0x09);
/// The entries of a unit of the supplementary file belong here.
pub const DW_MACRO_import_sup: DwMacro = DwMacro(0x0a);
/// A macro is defined, by an index of a string offset.
pub const DW_MACRO_define_strx: DwMacro = DwMacro(0x0b);
/// A macro is no longer defined, by an index of a string offset.
pub const DW_MACRO_undef_strx: DwMacro = DwMacro(0x0c);
/// The first value open to vendors.
pub const DW_MACRO_lo_user: DwMacro = DwMacro(0xe0);
/// The last value open to vendors.
pub const DW_MACRO_hi_user: DwMacro = DwMacro(0xff);

// tools/constants writes this list from the declarations.
#[rattlefmt::skip]
const NAMES: Names = names![
    DW_MACRO_define, DW_MACRO_undef, DW_MACRO_start_file, DW_MACRO_end_file, DW_MACRO_define_strp,
    DW_MACRO_undef_strp, DW_MACRO_import, DW_MACRO_define_sup, DW_MACRO_undef_sup,
    DW_MACRO_import_sup, DW_MACRO_define_strx, DW_MACRO_undef_strx, DW_MACRO_lo_user,
    DW_MACRO_hi_user,
];

impl DwMacro {
    /// Returns the name of this value, such as `DW_MACRO_define`, or `None` if it has none.
    #[tactic(auto, unfolding(crate::specs::DwMacro::macro_entry_names))]
    pub fn static_string(&self) -> Option<&'static str>
        ensures { option_map (λ s. s.now) result ≡ name_of macro_entry_names self.now.0 }
    {
        NAMES.find(self.0 as u64)
    }
}

impl fmt::Display for DwMacro {
    ghost output = { λ macro_entry. Some (macro_entry_text macro_entry.0) };

    ghost styled_output = { λ macro_entry spec. Some (padded spec (macro_entry_text macro_entry.0)) };

    fn fmt<W: fmt::Write>(&self, f: &mut fmt::Formatter<W>) -> fmt::Result {
        pad_name(f, self.static_string(), "DwMacro", self.0 as u64)
    }
}
