//! Sections of a package file.

ghost use Rattle.std.specs.Prelude.{◌≡◌, Some, option_map};
ghost use Rattle.std.specs.Fmt.{padded};
ghost use Rattle.dwarf_const_core.specs.Names.{name_of};
ghost use Rattle.dwarf_code_core.specs.DwSect.{section_names, section_text};

use dwarf_const_core::names;
use dwarf_const_core::names::{Names, pad_name};
use std::fmt;

/// A section of a package file, in its index (DWARF 5, section 7.3.5.3).
///
/// `Display` writes the name, or `Unknown DwSect: 99` for a value without one, and honours width,
/// precision, fill and alignment.
#[derive(Debug, Clone, Copy, PartialEq, Eq, Hash, PartialOrd, Ord)]
pub struct DwSect(pub u32);

/// `.debug_info.dwo`.
pub const DW_SECT_INFO: DwSect = DwSect(1);
/// `.debug_abbrev.dwo`.
pub const DW_SECT_ABBREV: DwSect = DwSect(3);
/// `.debug_line.dwo`.
pub const DW_SECT_LINE: DwSect = DwSect(4);
/// `.debug_loclists.dwo`.
pub const DW_SECT_LOCLISTS: DwSect = DwSect(5);
/// `.debug_str_offsets.dwo`.
pub const DW_SECT_STR_OFFSETS: DwSect = DwSect(6);
/// `.debug_macro.dwo`.
pub const DW_SECT_MACRO: DwSect = DwSect(7);
/// `.debug_rnglists.dwo`.
pub const DW_SECT_RNGLISTS: DwSect = DwSect(8);

// tools/constants writes this list from the declarations.
#[rattlefmt::skip]
const NAMES: Names = names![
    DW_SECT_INFO, DW_SECT_ABBREV, DW_SECT_LINE, DW_SECT_LOCLISTS, DW_SECT_STR_OFFSETS,
    DW_SECT_MACRO, DW_SECT_RNGLISTS,
];

impl DwSect {
    /// Returns the name of this value, such as `DW_SECT_INFO`, or `None` if it has none.
    #[tactic(auto, unfolding(crate::specs::DwSect::section_names))]
    pub fn static_string(&self) -> Option<&'static str>
        ensures { option_map (λ s. s.now) result ≡ name_of section_names self.now.0 }
    {
        NAMES.find(self.0 as u64)
    }
}

impl fmt::Display for DwSect {
    ghost output = { λ section. Some (section_text section.0) };

    ghost styled_output = { λ section spec. Some (padded spec (section_text section.0)) };

    fn fmt<W: fmt::Write>(&self, f: &mut fmt::Formatter<W>) -> fmt::Result {
        pad_name(f, self.static_string(), "DwSect", self.0 as u64)
    }
}
