//! Virtual functions and base classes.

ghost use Rattle.std.specs.Prelude.{◌≡◌, Some, option_map};
ghost use Rattle.std.specs.Fmt.{padded};
ghost use Rattle.dwarf_const_core.specs.Names.{name_of};
ghost use Rattle.dwarf_code_core.specs.DwVirtuality.{virtuality_names, virtuality_text};

use dwarf_const_core::names;
use dwarf_const_core::names::{Names, pad_name};
use std::fmt;

/// Whether a function or a base class is virtual (DWARF 5, section 7.11).
///
/// `Display` writes the name, or `Unknown DwVirtuality: 99` for a value without one, and honours
/// width, precision, fill and alignment.
#[derive(Debug, Clone, Copy, PartialEq, Eq, Hash, PartialOrd, Ord)]
pub struct DwVirtuality(pub u8);

/// Not virtual.
pub const DW_VIRTUALITY_none: DwVirtuality = DwVirtuality(0x00);
/// Virtual.
pub const DW_VIRTUALITY_virtual: DwVirtuality = DwVirtuality(0x01);
/// Virtual, with no body of its own.
pub const DW_VIRTUALITY_pure_virtual: DwVirtuality = DwVirtuality(0x02);

// tools/constants writes this list from the declarations.
#[rattlefmt::skip]
const NAMES: Names = names![
    DW_VIRTUALITY_none, DW_VIRTUALITY_virtual, DW_VIRTUALITY_pure_virtual,
];

impl DwVirtuality {
    /// Returns the name of this value, such as `DW_VIRTUALITY_none`, or `None` if it has none.
    #[tactic(auto, unfolding(crate::specs::DwVirtuality::virtuality_names))]
    pub fn static_string(&self) -> Option<&'static str>
        ensures { option_map (λ s. s.now) result ≡ name_of virtuality_names self.now.0 }
    {
        NAMES.find(self.0 as u64)
    }
}

impl fmt::Display for DwVirtuality {
    ghost output = { λ virtuality. Some (virtuality_text virtuality.0) };

    ghost styled_output = { λ virtuality spec. Some (padded spec (virtuality_text virtuality.0)) };

    fn fmt<W: fmt::Write>(&self, f: &mut fmt::Formatter<W>) -> fmt::Result {
        pad_name(f, self.static_string(), "DwVirtuality", self.0 as u64)
    }
}
