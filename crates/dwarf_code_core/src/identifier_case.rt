//! Case of identifiers.

ghost use Rattle.std.specs.Prelude.{◌≡◌, Some, option_map};
ghost use Rattle.std.specs.Fmt.{padded};
ghost use Rattle.dwarf_const_core.specs.Names.{name_of};
ghost use Rattle.dwarf_code_core.specs.DwId.{identifier_case_names, identifier_case_text};

use dwarf_const_core::names;
use dwarf_const_core::names::{Names, pad_name};
use std::fmt;

/// How a unit treats upper and lower case in names (DWARF 5, section 7.14).
///
/// `Display` writes the name, or `Unknown DwId: 99` for a value without one, and honours width,
/// precision, fill and alignment.
#[derive(Debug, Clone, Copy, PartialEq, Eq, Hash, PartialOrd, Ord)]
pub struct DwId(pub u8);

/// Case matters.
pub const DW_ID_case_sensitive: DwId = DwId(0x00);
/// Names are written in upper case here, whatever the source has.
pub const DW_ID_up_case: DwId = DwId(0x01);
/// Names are written in lower case here, whatever the source has.
pub const DW_ID_down_case: DwId = DwId(0x02);
/// Case doesn't matter.
pub const DW_ID_case_insensitive: DwId = DwId(0x03);

// tools/constants writes this list from the declarations.
#[rattlefmt::skip]
const NAMES: Names = names![
    DW_ID_case_sensitive, DW_ID_up_case, DW_ID_down_case, DW_ID_case_insensitive,
];

impl DwId {
    /// Returns the name of this value, such as `DW_ID_case_sensitive`, or `None` if it has none.
    #[tactic(auto, unfolding(crate::specs::DwId::identifier_case_names))]
    pub fn static_string(&self) -> Option<&'static str>
        ensures { option_map (λ s. s.now) result ≡ name_of identifier_case_names self.now.0 }
    {
        NAMES.find(self.0 as u64)
    }
}

impl fmt::Display for DwId {
    ghost output = { λ identifier_case. Some (identifier_case_text identifier_case.0) };

    ghost styled_output = { λ identifier_case spec. Some (padded spec (identifier_case_text identifier_case.0)) };

    fn fmt<W: fmt::Write>(&self, f: &mut fmt::Formatter<W>) -> fmt::Result {
        pad_name(f, self.static_string(), "DwId", self.0 as u64)
    }
}
