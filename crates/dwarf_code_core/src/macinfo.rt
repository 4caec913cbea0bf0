//! Entries of `.debug_macinfo`.

ghost use Rattle.std.specs.Prelude.{◌≡◌, Some, option_map};
ghost use Rattle.std.specs.Fmt.{padded};
ghost use Rattle.dwarf_const_core.specs.Names.{name_of};
ghost use Rattle.dwarf_code_core.specs.DwMacinfo.{macinfo_names, macinfo_text};

use dwarf_const_core::names;
use dwarf_const_core::names::{Names, pad_name};
use std::fmt;

/// What kind of entry of `.debug_macinfo` follows (DWARF 4, section 7.22; DWARF 5 has
/// `.debug_macro` in its place).
///
/// `Display` writes the name, or `Unknown DwMacinfo: 99` for a value without one, and honours
/// width, precision, fill and alignment.
#[derive(Debug, Clone, Copy, PartialEq, Eq, Hash, PartialOrd, Ord)]
pub struct DwMacinfo(pub u8);

/// A macro is defined.
pub const DW_MACINFO_define: DwMacinfo = DwMacinfo(0x01);
/// A macro is no longer defined.
pub const DW_MACINFO_undef: DwMacinfo = DwMacinfo(0x02);
/// An included file begins.
pub const DW_MACINFO_start_file: DwMacinfo = DwMacinfo(0x03);
/// An included file ends.
pub const DW_MACINFO_end_file: DwMacinfo = DwMacinfo(0x04);
/// What a vendor adds.
pub const DW_MACINFO_vendor_ext: DwMacinfo = DwMacinfo(0xff);

// tools/constants writes this list from the declarations.
#[rattlefmt::skip]
const NAMES: Names = names![
    DW_MACINFO_define, DW_MACINFO_undef, DW_MACINFO_start_file, DW_MACINFO_end_file,
    DW_MACINFO_vendor_ext,
];

impl DwMacinfo {
    /// Returns the name of this value, such as `DW_MACINFO_define`, or `None` if it has none.
    #[tactic(auto, unfolding(crate::specs::DwMacinfo::macinfo_names))]
    pub fn static_string(&self) -> Option<&'static str>
        ensures { option_map (λ s. s.now) result ≡ name_of macinfo_names self.now.0 }
    {
        NAMES.find(self.0 as u64)
    }
}

impl fmt::Display for DwMacinfo {
    ghost output = { λ macinfo. Some (macinfo_text macinfo.0) };

    ghost styled_output = { λ macinfo spec. Some (padded spec (macinfo_text macinfo.0)) };

    fn fmt<W: fmt::Write>(&self, f: &mut fmt::Formatter<W>) -> fmt::Result {
        pad_name(f, self.static_string(), "DwMacinfo", self.0 as u64)
    }
}
