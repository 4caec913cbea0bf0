//! Unit types.

ghost use Rattle.std.specs.Prelude.{◌≡◌, Some, option_map};
ghost use Rattle.std.specs.Fmt.{padded};
ghost use Rattle.dwarf_const_core.specs.Names.{name_of};
ghost use Rattle.dwarf_code_core.specs.DwUt.{unit_type_names, unit_type_text};

use dwarf_const_core::names;
use dwarf_const_core::names::{Names, pad_name};
use std::fmt;

/// What kind of unit a header begins (DWARF 5, section 7.5.1).
///
/// `Display` writes the name, or `Unknown DwUt: 99` for a value without one, and honours width,
/// precision, fill and alignment.
#[derive(Debug, Clone, Copy, PartialEq, Eq, Hash, PartialOrd, Ord)]
pub struct DwUt(pub u8);

/// A compilation unit, whole.
pub const DW_UT_compile: DwUt = DwUt(0x01);
/// A type unit.
pub const DW_UT_type: DwUt = DwUt(0x02);
/// A part of a unit that other units import.
pub const DW_UT_partial: DwUt = DwUt(0x03);
/// What remains in the program of a compilation unit whose details are in a split file.
pub const DW_UT_skeleton: DwUt = DwUt(0x04);
/// A compilation unit in a split file.
pub const DW_UT_split_compile: DwUt = DwUt(0x05);
/// A type unit in a split file.
pub const DW_UT_split_type: DwUt = DwUt(0x06);
/// The first value open to vendors.
pub const DW_UT_lo_user: DwUt = DwUt(0x80);
/// The last value open to vendors.
pub const DW_UT_hi_user: DwUt = DwUt(0xff);

// tools/constants writes this list from the declarations.
#[rattlefmt::skip]
const NAMES: Names = names![
    DW_UT_compile, DW_UT_type, DW_UT_partial, DW_UT_skeleton, DW_UT_split_compile, DW_UT_split_type,
    DW_UT_lo_user, DW_UT_hi_user,
];

impl DwUt {
    /// Returns the name of this value, such as `DW_UT_compile`, or `None` if it has none.
    #[tactic(auto, unfolding(crate::specs::DwUt::unit_type_names))]
    pub fn static_string(&self) -> Option<&'static str>
        ensures { option_map (λ s. s.now) result ≡ name_of unit_type_names self.now.0 }
    {
        NAMES.find(self.0 as u64)
    }
}

impl fmt::Display for DwUt {
    ghost output = { λ unit_type. Some (unit_type_text unit_type.0) };

    ghost styled_output = { λ unit_type spec. Some (padded spec (unit_type_text unit_type.0)) };

    fn fmt<W: fmt::Write>(&self, f: &mut fmt::Formatter<W>) -> fmt::Result {
        pad_name(f, self.static_string(), "DwUt", self.0 as u64)
    }
}
