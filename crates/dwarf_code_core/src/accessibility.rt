//! Accessibility of members.

ghost use Rattle.std.specs.Prelude.{◌≡◌, Some, option_map};
ghost use Rattle.std.specs.Fmt.{padded};
ghost use Rattle.dwarf_const_core.specs.Names.{name_of};
ghost use Rattle.dwarf_code_core.specs.DwAccess.{accessibility_names, accessibility_text};

use dwarf_const_core::names;
use dwarf_const_core::names::{Names, pad_name};
use std::fmt;

/// Who may use a declaration (DWARF 5, section 7.9).
///
/// `Display` writes the name, or `Unknown DwAccess: 99` for a value without one, and honours width,
/// precision, fill and alignment.
#[derive(Debug, Clone, Copy, PartialEq, Eq, Hash, PartialOrd, Ord)]
pub struct DwAccess(pub u8);

/// Open to all.
pub const DW_ACCESS_public: DwAccess = DwAccess(0x01);
/// Open to the class and those derived from it.
pub const DW_ACCESS_protected: DwAccess = DwAccess(0x02);
/// Open only to the class.
pub const DW_ACCESS_private: DwAccess = DwAccess(0x03);

// tools/constants writes this list from the declarations.
#[rattlefmt::skip]
const NAMES: Names = names![
    DW_ACCESS_public, DW_ACCESS_protected, DW_ACCESS_private,
];

impl DwAccess {
    /// Returns the name of this value, such as `DW_ACCESS_public`, or `None` if it has none.
    #[tactic(auto, unfolding(crate::specs::DwAccess::accessibility_names))]
    pub fn static_string(&self) -> Option<&'static str>
        ensures { option_map (λ s. s.now) result ≡ name_of accessibility_names self.now.0 }
    {
        NAMES.find(self.0 as u64)
    }
}

impl fmt::Display for DwAccess {
    ghost output = { λ accessibility. Some (accessibility_text accessibility.0) };

    ghost styled_output = { λ accessibility spec. Some (padded spec (accessibility_text accessibility.0)) };

    fn fmt<W: fmt::Write>(&self, f: &mut fmt::Formatter<W>) -> fmt::Result {
        pad_name(f, self.static_string(), "DwAccess", self.0 as u64)
    }
}
