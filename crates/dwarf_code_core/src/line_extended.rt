//! Extended opcodes of a line number program.

ghost use Rattle.std.specs.Prelude.{◌≡◌, Some, option_map};
ghost use Rattle.std.specs.Fmt.{padded};
ghost use Rattle.dwarf_const_core.specs.Names.{name_of};
ghost use Rattle.dwarf_code_core.specs.DwLne.{line_extended_names, line_extended_text};

use dwarf_const_core::names;
use dwarf_const_core::names::{Names, pad_name};
use std::fmt;

/// An extended opcode of a line number program (DWARF 5, section 7.22).
///
/// `Display` writes the name, or `Unknown DwLne: 99` for a value without one, and honours width,
/// precision, fill and alignment.
#[derive(Debug, Clone, Copy, PartialEq, Eq, Hash, PartialOrd, Ord)]
pub struct DwLne(pub u8);

/// The sequence of rows ends.
pub const DW_LNE_end_sequence: DwLne = DwLne(0x01);
/// The address is the one that follows.
pub const DW_LNE_set_address: DwLne = DwLne(0x02);
/// One more file; withdrawn in DWARF 5.
pub const DW_LNE_define_file: DwLne = DwLne(0x03);

// DWARF 4.

/// Distinguishes the blocks of one line.
pub const DW_LNE_set_discriminator: DwLne = DwLne(0x04);

// The values that vendors may use.

/// The first value open to vendors.
pub const DW_LNE_lo_user: DwLne = DwLne(0x80);
/// The last value open to vendors.
pub const DW_LNE_hi_user: DwLne = DwLne(0xff);

// tools/constants writes this list from the declarations.
#[rattlefmt::skip]
const NAMES: Names = names![
    DW_LNE_end_sequence, DW_LNE_set_address, DW_LNE_define_file, DW_LNE_set_discriminator,
    DW_LNE_lo_user, DW_LNE_hi_user,
];

impl DwLne {
    /// Returns the name of this value, such as `DW_LNE_end_sequence`, or `None` if it has none.
    #[tactic(auto, unfolding(crate::specs::DwLne::line_extended_names))]
    pub fn static_string(&self) -> Option<&'static str>
        ensures { option_map (λ s. s.now) result ≡ name_of line_extended_names self.now.0 }
    {
        NAMES.find(self.0 as u64)
    }
}

impl fmt::Display for DwLne {
    ghost output = { λ line_extended. Some (line_extended_text line_extended.0) };

    ghost styled_output = { λ line_extended spec. Some (padded spec (line_extended_text line_extended.0)) };

    fn fmt<W: fmt::Write>(&self, f: &mut fmt::Formatter<W>) -> fmt::Result {
        pad_name(f, self.static_string(), "DwLne", self.0 as u64)
    }
}
