//! Sections of a package file before DWARF 5.

ghost use Rattle.std.specs.Prelude.{◌≡◌, Some, option_map};
ghost use Rattle.std.specs.Fmt.{padded};
ghost use Rattle.dwarf_const_core.specs.Names.{name_of};
ghost use Rattle.dwarf_code_core.specs.DwSectV2.{section_v2_names, section_v2_text};

use dwarf_const_core::names;
use dwarf_const_core::names::{Names, pad_name};
use std::fmt;

/// A section of a package file, in the index that GNU had before DWARF 5 (version 2 of the index,
/// of GCC's proposal "DWARF Package File Format").
///
/// `Display` writes the name, or `Unknown DwSectV2: 99` for a value without one, and honours width,
/// precision, fill and alignment.
#[derive(Debug, Clone, Copy, PartialEq, Eq, Hash, PartialOrd, Ord)]
pub struct DwSectV2(pub u32);

/// `.debug_info.dwo`.
pub const DW_SECT_V2_INFO: DwSectV2 = DwSectV2(1);
/// `.debug_types.dwo`.
pub const DW_SECT_V2_TYPES: DwSectV2 = DwSectV2(2);
/// `.debug_abbrev.dwo`.
pub const DW_SECT_V2_ABBREV: DwSectV2 = DwSectV2(3);
/// `.debug_line.dwo`.
pub const DW_SECT_V2_LINE: DwSectV2 = DwSectV2(4);
/// `.debug_loc.dwo`.
pub const DW_SECT_V2_LOC: DwSectV2 = DwSectV2(5);
/// `.debug_str_offsets.dwo`.
pub const DW_SECT_V2_STR_OFFSETS: DwSectV2 = DwSectV2(6);
/// `.debug_macinfo.dwo`.
pub const DW_SECT_V2_MACINFO: DwSectV2 = DwSectV2(7);
/// `.debug_macro.dwo`.
pub const DW_SECT_V2_MACRO: DwSectV2 = DwSectV2(8);

// tools/constants writes this list from the declarations.
#[rattlefmt::skip]
const NAMES: Names = names![
    DW_SECT_V2_INFO, DW_SECT_V2_TYPES, DW_SECT_V2_ABBREV, DW_SECT_V2_LINE, DW_SECT_V2_LOC,
    DW_SECT_V2_STR_OFFSETS, DW_SECT_V2_MACINFO, DW_SECT_V2_MACRO,
];

impl DwSectV2 {
    /// Returns the name of this value, such as `DW_SECT_V2_INFO`, or `None` if it has none.
    #[tactic(auto, unfolding(crate::specs::DwSectV2::section_v2_names))]
    pub fn static_string(&self) -> Option<&'static str>
        ensures { option_map (λ s. s.now) result ≡ name_of section_v2_names self.now.0 }
    {
        NAMES.find(self.0 as u64)
    }
}

impl fmt::Display for DwSectV2 {
    ghost output = { λ section_v2. Some (section_v2_text section_v2.0) };

    ghost styled_output = { λ section_v2 spec. Some (padded spec (section_v2_text section_v2.0)) };

    fn fmt<W: fmt::Write>(&self, f: &mut fmt::Formatter<W>) -> fmt::Result {
        pad_name(f, self.static_string(), "DwSectV2", self.0 as u64)
    }
}
