//! Calling conventions.

ghost use Rattle.std.specs.Prelude.{◌≡◌, Some, option_map};
ghost use Rattle.std.specs.Fmt.{padded};
ghost use Rattle.dwarf_const_core.specs.Names.{name_of};
ghost use Rattle.dwarf_code_core.specs.DwCc.{calling_convention_names, calling_convention_text};

use dwarf_const_core::names;
use dwarf_const_core::names::{Names, pad_name};
use std::fmt;

/// How a subroutine is called, or values of a type are passed (DWARF 5, section 7.15).
///
/// `Display` writes the name, or `Unknown DwCc: 99` for a value without one, and honours width,
/// precision, fill and alignment.
#[derive(Debug, Clone, Copy, PartialEq, Eq, Hash, PartialOrd, Ord)]
pub struct DwCc(pub u8);

/// The usual convention.
pub const DW_CC_normal: DwCc = DwCc(0x01);
/// The program's main subroutine, as in Fortran.
pub const DW_CC_program: DwCc = DwCc(0x02);
/// Not one that a debugger can call.
pub const DW_CC_nocall: DwCc = DwCc(0x03);

// DWARF 5, of a type.

/// Values of the type are passed by reference.
pub const DW_CC_pass_by_reference: DwCc = DwCc(0x04);
/// Values of the type are passed by value.
pub const DW_CC_pass_by_value: DwCc = DwCc(0x05);

// The values that vendors may use.

/// The first value open to vendors.
pub const DW_CC_lo_user: DwCc = DwCc(0x40);
/// The last value open to vendors.
pub const DW_CC_hi_user: DwCc = DwCc(0xff);

// tools/constants writes this list from the declarations.
#[rattlefmt::skip]
const NAMES: Names = names![
    DW_CC_normal, DW_CC_program, DW_CC_nocall, DW_CC_pass_by_reference, DW_CC_pass_by_value,
    DW_CC_lo_user, DW_CC_hi_user,
];

impl DwCc {
    /// Returns the name of this value, such as `DW_CC_normal`, or `None` if it has none.
    #[tactic(auto, unfolding(crate::specs::DwCc::calling_convention_names))]
    pub fn static_string(&self) -> Option<&'static str>
        ensures { option_map (λ s. s.now) result ≡ name_of calling_convention_names self.now.0 }
    {
        NAMES.find(self.0 as u64)
    }
}

impl fmt::Display for DwCc {
    ghost output = { λ calling_convention. Some (calling_convention_text calling_convention.0) };

    ghost styled_output = { λ calling_convention spec. Some (padded spec (calling_convention_text calling_convention.0)) };

    fn fmt<W: fmt::Write>(&self, f: &mut fmt::Formatter<W>) -> fmt::Result {
        pad_name(f, self.static_string(), "DwCc", self.0 as u64)
    }
}
