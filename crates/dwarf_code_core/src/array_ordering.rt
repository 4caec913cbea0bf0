//! Order of the elements of an array.

ghost use Rattle.std.specs.Prelude.{◌≡◌, Some, option_map};
ghost use Rattle.std.specs.Fmt.{padded};
ghost use Rattle.dwarf_const_core.specs.Names.{name_of};
ghost use Rattle.dwarf_code_core.specs.DwOrd.{array_ordering_names, array_ordering_text};

use dwarf_const_core::names;
use dwarf_const_core::names::{Names, pad_name};
use std::fmt;

/// The order in which an array of several indices lies in memory (DWARF 5, section 7.17).
///
/// `Display` writes the name, or `Unknown DwOrd: 99` for a value without one, and honours width,
/// precision, fill and alignment.
#[derive(Debug, Clone, Copy, PartialEq, Eq, Hash, PartialOrd, Ord)]
pub struct DwOrd(pub u8);

/// Rows lie together: the last index moves fastest.
pub const DW_ORD_row_major: DwOrd = DwOrd(0x00);
/// Columns lie together: the first index moves fastest.
pub const DW_ORD_col_major: DwOrd = DwOrd(0x01);

// tools/constants writes this list from the declarations.
#[rattlefmt::skip]
const NAMES: Names = names![
    DW_ORD_row_major, DW_ORD_col_major,
];

impl DwOrd {
    /// Returns the name of this value, such as `DW_ORD_row_major`, or `None` if it has none.
    #[tactic(auto, unfolding(crate::specs::DwOrd::array_ordering_names))]
    pub fn static_string(&self) -> Option<&'static str>
        ensures { option_map (λ s. s.now) result ≡ name_of array_ordering_names self.now.0 }
    {
        NAMES.find(self.0 as u64)
    }
}

impl fmt::Display for DwOrd {
    ghost output = { λ array_ordering. Some (array_ordering_text array_ordering.0) };

    ghost styled_output = { λ array_ordering spec. Some (padded spec (array_ordering_text array_ordering.0)) };

    fn fmt<W: fmt::Write>(&self, f: &mut fmt::Formatter<W>) -> fmt::Result {
        pad_name(f, self.static_string(), "DwOrd", self.0 as u64)
    }
}
