//! Whether an entry has children.

ghost use Rattle.std.specs.Prelude.{◌≡◌, Some, option_map};
ghost use Rattle.std.specs.Fmt.{padded};
ghost use Rattle.dwarf_const_core.specs.Names.{name_of};
ghost use Rattle.dwarf_code_core.specs.DwChildren.{children_names, children_text};

use dwarf_const_core::names;
use dwarf_const_core::names::{Names, pad_name};
use std::fmt;

/// Whether an entry has children (DWARF 5, section 7.5.3).
///
/// `Display` writes the name, or `Unknown DwChildren: 99` for a value without one, and honours
/// width, precision, fill and alignment.
#[derive(Debug, Clone, Copy, PartialEq, Eq, Hash, PartialOrd, Ord)]
pub struct DwChildren(pub u8);

/// The entry has no children.
pub const DW_CHILDREN_no: DwChildren = DwChildren(0);
/// The next entry is the first child.
pub const DW_CHILDREN_yes: DwChildren = DwChildren(1);

// tools/constants writes this list from the declarations.
#[rattlefmt::skip]
const NAMES: Names = names![
    DW_CHILDREN_no, DW_CHILDREN_yes,
];

impl DwChildren {
    /// Returns the name of this value, such as `DW_CHILDREN_no`, or `None` if it has none.
    #[tactic(auto, unfolding(crate::specs::DwChildren::children_names))]
    pub fn static_string(&self) -> Option<&'static str>
        ensures { option_map (λ s. s.now) result ≡ name_of children_names self.now.0 }
    {
        NAMES.find(self.0 as u64)
    }
}

impl fmt::Display for DwChildren {
    ghost output = { λ children. Some (children_text children.0) };

    ghost styled_output = { λ children spec. Some (padded spec (children_text children.0)) };

    fn fmt<W: fmt::Write>(&self, f: &mut fmt::Formatter<W>) -> fmt::Result {
        pad_name(f, self.static_string(), "DwChildren", self.0 as u64)
    }
}
