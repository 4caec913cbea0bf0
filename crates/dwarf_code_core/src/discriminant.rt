//! Lists of discriminant values.

ghost use Rattle.std.specs.Prelude.{◌≡◌, Some, option_map};
ghost use Rattle.std.specs.Fmt.{padded};
ghost use Rattle.dwarf_const_core.specs.Names.{name_of};
ghost use Rattle.dwarf_code_core.specs.DwDsc.{discriminant_names, discriminant_text};

use dwarf_const_core::names;
use dwarf_const_core::names::{Names, pad_name};
use std::fmt;

/// What comes next in a list of discriminant values (DWARF 5, section 7.18).
///
/// `Display` writes the name, or `Unknown DwDsc: 99` for a value without one, and honours width,
/// precision, fill and alignment.
#[derive(Debug, Clone, Copy, PartialEq, Eq, Hash, PartialOrd, Ord)]
pub struct DwDsc(pub u8);

/// One value of the discriminant.
pub const DW_DSC_label: DwDsc = DwDsc(0x00);
/// The least and the greatest value of a range.
pub const DW_DSC_range: DwDsc = DwDsc(0x01);

// tools/constants writes this list from the declarations.
#[rattlefmt::skip]
const NAMES: Names = names![
    DW_DSC_label, DW_DSC_range,
];

impl DwDsc {
    /// Returns the name of this value, such as `DW_DSC_label`, or `None` if it has none.
    #[tactic(auto, unfolding(crate::specs::DwDsc::discriminant_names))]
    pub fn static_string(&self) -> Option<&'static str>
        ensures { option_map (λ s. s.now) result ≡ name_of discriminant_names self.now.0 }
    {
        NAMES.find(self.0 as u64)
    }
}

impl fmt::Display for DwDsc {
    ghost output = { λ discriminant. Some (discriminant_text discriminant.0) };

    ghost styled_output = { λ discriminant spec. Some (padded spec (discriminant_text discriminant.0)) };

    fn fmt<W: fmt::Write>(&self, f: &mut fmt::Formatter<W>) -> fmt::Result {
        pad_name(f, self.static_string(), "DwDsc", self.0 as u64)
    }
}
