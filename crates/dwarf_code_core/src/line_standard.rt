//! Standard opcodes of a line number program.

ghost use Rattle.std.specs.Prelude.{◌≡◌, Some, option_map};
ghost use Rattle.std.specs.Fmt.{padded};
ghost use Rattle.dwarf_const_core.specs.Names.{name_of};
ghost use Rattle.dwarf_code_core.specs.DwLns.{line_standard_names, line_standard_text};

use dwarf_const_core::names;
use dwarf_const_core::names::{Names, pad_name};
use std::fmt;

/// A standard opcode of a line number program (DWARF 5, section 7.22).
///
/// `Display` writes the name, or `Unknown DwLns: 99` for a value without one, and honours width,
/// precision, fill and alignment.
#[derive(Debug, Clone, Copy, PartialEq, Eq, Hash, PartialOrd, Ord)]
pub struct DwLns(pub u8);

/// Adds a row to the table.
pub const DW_LNS_copy: DwLns = DwLns(0x01);
/// The address moves on by operations.
pub const DW_LNS_advance_pc: DwLns = DwLns(0x02);
/// The line changes by a signed number.
pub const DW_LNS_advance_line: DwLns = DwLns(0x03);
/// The file is another one.
pub const DW_LNS_set_file: DwLns = DwLns(0x04);
/// The column is another one.
pub const DW_LNS_set_column: DwLns = DwLns(0x05);
/// A statement begins here if none did, and the other way round.
pub const DW_LNS_negate_stmt: DwLns = DwLns(0x06);
/// A basic block begins here.
pub const DW_LNS_set_basic_block: DwLns = DwLns(0x07);
/// The address moves on as by the special opcode 255.
pub const DW_LNS_const_add_pc: DwLns = DwLns(0x08);
/// The address moves on by a number of two bytes.
pub const DW_LNS_fixed_advance_pc: DwLns = DwLns(0x09);

// DWARF 3.

/// A breakpoint at the function's entry belongs here.
pub const DW_LNS_set_prologue_end: DwLns = DwLns(0x0a);
/// A breakpoint at the function's exit belongs here.
pub const DW_LNS_set_epilogue_begin: DwLns = DwLns(0x0b);
/// The instruction set is another one.
pub const DW_LNS_set_isa: DwLns = DwLns(0x0c);

// tools/constants writes this list from the declarations.
#[rattlefmt::skip]
const NAMES: Names = names![
    DW_LNS_copy, DW_LNS_advance_pc, DW_LNS_advance_line, DW_LNS_set_file, DW_LNS_set_column,
    DW_LNS_negate_stmt, DW_LNS_set_basic_block, DW_LNS_const_add_pc, DW_LNS_fixed_advance_pc,
    DW_LNS_set_prologue_end, DW_LNS_set_epilogue_begin, DW_LNS_set_isa,
];

impl DwLns {
    /// Returns the name of this value, such as `DW_LNS_copy`, or `None` if it has none.
    #[tactic(auto, unfolding(crate::specs::DwLns::line_standard_names))]
    pub fn static_string(&self) -> Option<&'static str>
        ensures { option_map (λ s. s.now) result ≡ name_of line_standard_names self.now.0 }
    {
        NAMES.find(self.0 as u64)
    }
}

impl fmt::Display for DwLns {
    ghost output = { λ line_standard. Some (line_standard_text line_standard.0) };

    ghost styled_output = { λ line_standard spec. Some (padded spec (line_standard_text line_standard.0)) };

    fn fmt<W: fmt::Write>(&self, f: &mut fmt::Formatter<W>) -> fmt::Result {
        pad_name(f, self.static_string(), "DwLns", self.0 as u64)
    }
}
