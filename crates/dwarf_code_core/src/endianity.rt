//! Byte orders of data.

ghost use Rattle.std.specs.Prelude.{◌≡◌, Some, option_map};
ghost use Rattle.std.specs.Fmt.{padded};
ghost use Rattle.dwarf_const_core.specs.Names.{name_of};
ghost use Rattle.dwarf_code_core.specs.DwEnd.{endianity_names, endianity_text};

use dwarf_const_core::names;
use dwarf_const_core::names::{Names, pad_name};
use std::fmt;

/// The byte order of data (DWARF 5, section 7.8).
///
/// `Display` writes the name, or `Unknown DwEnd: 99` for a value without one, and honours width,
/// precision, fill and alignment.
#[derive(Debug, Clone, Copy, PartialEq, Eq, Hash, PartialOrd, Ord)]
pub struct DwEnd(pub u8);

/// The byte order of the machine.
pub const DW_END_default: DwEnd = DwEnd(0x00);
/// Highest byte first.
pub const DW_END_big: DwEnd = DwEnd(0x01);
/// Lowest byte first.
pub const DW_END_little: DwEnd = DwEnd(0x02);
/// The first value open to vendors.
pub const DW_END_lo_user: DwEnd = DwEnd(0x40);
/// The last value open to vendors.
pub const DW_END_hi_user: DwEnd = DwEnd(0xff);

// tools/constants writes this list from the declarations.
#[rattlefmt::skip]
const NAMES: Names = names![
    DW_END_default, DW_END_big, DW_END_little, DW_END_lo_user, DW_END_hi_user,
];

impl DwEnd {
    /// Returns the name of this value, such as `DW_END_default`, or `None` if it has none.
    #[tactic(auto, unfolding(crate::specs::DwEnd::endianity_names))]
    pub fn static_string(&self) -> Option<&'static str>
        ensures { option_map (λ s. s.now) result ≡ name_of endianity_names self.now.0 }
    {
        NAMES.find(self.0 as u64)
    }
}

impl fmt::Display for DwEnd {
    ghost output = { λ endianity. Some (endianity_text endianity.0) };

    ghost styled_output = { λ endianity spec. Some (padded spec (endianity_text endianity.0)) };

    fn fmt<W: fmt::Write>(&self, f: &mut fmt::Formatter<W>) -> fmt::Result {
        pad_name(f, self.static_string(), "DwEnd", self.0 as u64)
    }
}
