//! Signs of decimal numbers.

ghost use Rattle.std.specs.Prelude.{◌≡◌, Some, option_map};
ghost use Rattle.std.specs.Fmt.{padded};
ghost use Rattle.dwarf_const_core.specs.Names.{name_of};
ghost use Rattle.dwarf_code_core.specs.DwDs.{decimal_sign_names, decimal_sign_text};

use dwarf_const_core::names;
use dwarf_const_core::names::{Names, pad_name};
use std::fmt;

/// How a decimal number has its sign (DWARF 5, section 7.8).
///
/// `Display` writes the name, or `Unknown DwDs: 99` for a value without one, and honours width,
/// precision, fill and alignment.
#[derive(Debug, Clone, Copy, PartialEq, Eq, Hash, PartialOrd, Ord)]
pub struct DwDs(pub u8);

/// No sign.
pub const DW_DS_unsigned: DwDs = DwDs(0x01);
/// A sign in the first digit.
pub const DW_DS_leading_overpunch: DwDs = DwDs(0x02);
/// A sign in the last digit.
pub const DW_DS_trailing_overpunch: DwDs = DwDs(0x03);
/// A sign character before the digits.
pub const DW_DS_leading_separate: DwDs = DwDs(0x04);
/// A sign character after the digits.
pub const DW_DS_trailing_separate: DwDs = DwDs(0x05);

// tools/constants writes this list from the declarations.
#[rattlefmt::skip]
const NAMES: Names = names![
    DW_DS_unsigned, DW_DS_leading_overpunch, DW_DS_trailing_overpunch, DW_DS_leading_separate,
    DW_DS_trailing_separate,
];

impl DwDs {
    /// Returns the name of this value, such as `DW_DS_unsigned`, or `None` if it has none.
    #[tactic(auto, unfolding(crate::specs::DwDs::decimal_sign_names))]
    pub fn static_string(&self) -> Option<&'static str>
        ensures { option_map (λ s. s.now) result ≡ name_of decimal_sign_names self.now.0 }
    {
        NAMES.find(self.0 as u64)
    }
}

impl fmt::Display for DwDs {
    ghost output = { λ decimal_sign. Some (decimal_sign_text decimal_sign.0) };

    ghost styled_output = { λ decimal_sign spec. Some (padded spec (decimal_sign_text decimal_sign.0)) };

    fn fmt<W: fmt::Write>(&self, f: &mut fmt::Formatter<W>) -> fmt::Result {
        pad_name(f, self.static_string(), "DwDs", self.0 as u64)
    }
}
