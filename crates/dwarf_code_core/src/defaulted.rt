//! Defaulted member functions.

ghost use Rattle.std.specs.Prelude.{◌≡◌, Some, option_map};
ghost use Rattle.std.specs.Fmt.{padded};
ghost use Rattle.dwarf_const_core.specs.Names.{name_of};
ghost use Rattle.dwarf_code_core.specs.DwDefaulted.{defaulted_names, defaulted_text};

use dwarf_const_core::names;
use dwarf_const_core::names::{Names, pad_name};
use std::fmt;

/// Where a member function is defaulted, if it is (DWARF 5, section 7.20).
///
/// `Display` writes the name, or `Unknown DwDefaulted: 99` for a value without one, and honours
/// width, precision, fill and alignment.
#[derive(Debug, Clone, Copy, PartialEq, Eq, Hash, PartialOrd, Ord)]
pub struct DwDefaulted(pub u8);

/// Not defaulted.
pub const DW_DEFAULTED_no: DwDefaulted = DwDefaulted(0x00);
/// Defaulted where the class is defined.
pub const DW_DEFAULTED_in_class: DwDefaulted = DwDefaulted(0x01);
/// Defaulted outside the class.
pub const DW_DEFAULTED_out_of_class: DwDefaulted = DwDefaulted(0x02);

// tools/constants writes this list from the declarations.
#[rattlefmt::skip]
const NAMES: Names = names![
    DW_DEFAULTED_no, DW_DEFAULTED_in_class, DW_DEFAULTED_out_of_class,
];

impl DwDefaulted {
    /// Returns the name of this value, such as `DW_DEFAULTED_no`, or `None` if it has none.
    #[tactic(auto, unfolding(crate::specs::DwDefaulted::defaulted_names))]
    pub fn static_string(&self) -> Option<&'static str>
        ensures { option_map (λ s. s.now) result ≡ name_of defaulted_names self.now.0 }
    {
        NAMES.find(self.0 as u64)
    }
}

impl fmt::Display for DwDefaulted {
    ghost output = { λ defaulted. Some (defaulted_text defaulted.0) };

    ghost styled_output = { λ defaulted spec. Some (padded spec (defaulted_text defaulted.0)) };

    fn fmt<W: fmt::Write>(&self, f: &mut fmt::Formatter<W>) -> fmt::Result {
        pad_name(f, self.static_string(), "DwDefaulted", self.0 as u64)
    }
}
