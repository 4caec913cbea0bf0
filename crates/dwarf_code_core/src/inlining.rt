//! Inlined subroutines.

ghost use Rattle.std.specs.Prelude.{◌≡◌, Some, option_map};
ghost use Rattle.std.specs.Fmt.{padded};
ghost use Rattle.dwarf_const_core.specs.Names.{name_of};
ghost use Rattle.dwarf_code_core.specs.DwInl.{inlining_names, inlining_text};

use dwarf_const_core::names;
use dwarf_const_core::names::{Names, pad_name};
use std::fmt;

/// Whether a subroutine was declared inline, and whether it was inlined (DWARF 5, section 7.16).
///
/// `Display` writes the name, or `Unknown DwInl: 99` for a value without one, and honours width,
/// precision, fill and alignment.
#[derive(Debug, Clone, Copy, PartialEq, Eq, Hash, PartialOrd, Ord)]
pub struct DwInl(pub u8);

/// Neither declared inline nor inlined.
pub const DW_INL_not_inlined: DwInl = DwInl(0x00);
/// Inlined, and not declared so.
pub const DW_INL_inlined: DwInl = DwInl(0x01);
/// Declared inline, and not inlined.
pub const DW_INL_declared_not_inlined: DwInl = DwInl(0x02);
/// Declared inline, and inlined.
pub const DW_INL_declared_inlined: DwInl = DwInl(0x03);

// tools/constants writes this list from the declarations.
#[rattlefmt::skip]
const NAMES: Names = names![
    DW_INL_not_inlined, DW_INL_inlined, DW_INL_declared_not_inlined, DW_INL_declared_inlined,
];

impl DwInl {
    /// Returns the name of this value, such as `DW_INL_not_inlined`, or `None` if it has none.
    #[tactic(auto, unfolding(crate::specs::DwInl::inlining_names))]
    pub fn static_string(&self) -> Option<&'static str>
        ensures { option_map (λ s. s.now) result ≡ name_of inlining_names self.now.0 }
    {
        NAMES.find(self.0 as u64)
    }
}

impl fmt::Display for DwInl {
    ghost output = { λ inlining. Some (inlining_text inlining.0) };

    ghost styled_output = { λ inlining spec. Some (padded spec (inlining_text inlining.0)) };

    fn fmt<W: fmt::Write>(&self, f: &mut fmt::Formatter<W>) -> fmt::Result {
        pad_name(f, self.static_string(), "DwInl", self.0 as u64)
    }
}
