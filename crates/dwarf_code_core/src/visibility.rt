//! Visibility of declarations.

ghost use Rattle.std.specs.Prelude.{◌≡◌, Some, option_map};
ghost use Rattle.std.specs.Fmt.{padded};
ghost use Rattle.dwarf_const_core.specs.Names.{name_of};
ghost use Rattle.dwarf_code_core.specs.DwVis.{visibility_names, visibility_text};

use dwarf_const_core::names;
use dwarf_const_core::names::{Names, pad_name};
use std::fmt;

/// Who sees a declaration (DWARF 5, section 7.10).
///
/// `Display` writes the name, or `Unknown DwVis: 99` for a value without one, and honours width,
/// precision, fill and alignment.
#[derive(Debug, Clone, Copy, PartialEq, Eq, Hash, PartialOrd, Ord)]
pub struct DwVis(pub u8);

/// Seen only in its own module.
pub const DW_VIS_local: DwVis = DwVis(0x01);
/// Seen in other modules.
pub const DW_VIS_exported: DwVis = DwVis(0x02);
/// Seen in other modules if it is named with its own.
pub const DW_VIS_qualified: DwVis = DwVis(0x03);

// tools/constants writes this list from the declarations.
#[rattlefmt::skip]
const NAMES: Names = names![
    DW_VIS_local, DW_VIS_exported, DW_VIS_qualified,
];

impl DwVis {
    /// Returns the name of this value, such as `DW_VIS_local`, or `None` if it has none.
    #[tactic(auto, unfolding(crate::specs::DwVis::visibility_names))]
    pub fn static_string(&self) -> Option<&'static str>
        ensures { option_map (λ s. s.now) result ≡ name_of visibility_names self.now.0 }
    {
        NAMES.find(self.0 as u64)
    }
}

impl fmt::Display for DwVis {
    ghost output = { λ visibility. Some (visibility_text visibility.0) };

    ghost styled_output = { λ visibility spec. Some (padded spec (visibility_text visibility.0)) };

    fn fmt<W: fmt::Write>(&self, f: &mut fmt::Formatter<W>) -> fmt::Result {
        pad_name(f, self.static_string(), "DwVis", self.0 as u64)
    }
}
