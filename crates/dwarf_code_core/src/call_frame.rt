//! Instructions of call frames.

ghost use Rattle.std.specs.Prelude.{◌≡◌, Some, option_map};
ghost use Rattle.std.specs.Fmt.{padded};
ghost use Rattle.dwarf_const_core.specs.Names.{name_of};
ghost use Rattle.dwarf_code_core.specs.DwCfa.{call_frame_names, call_frame_text};

use dwarf_const_core::names;
use dwarf_const_core::names::{Names, pad_name};
use std::fmt;

/// An instruction that says how a call frame is restored (DWARF 5, section 7.24).
///
/// `Display` writes the name, or `Unknown DwCfa: 99` for a value without one, and honours width,
/// precision, fill and alignment.
#[derive(Debug, Clone, Copy, PartialEq, Eq, Hash, PartialOrd, Ord)]
pub struct DwCfa(pub u8);

// The low six bits are an operand, and the instruction is in the high two.

/// The location moves on by the low six bits.
pub const DW_CFA_advance_loc: DwCfa = DwCfa(0x01 << 6);
/// The register of the low six bits was saved at an offset from the frame's address.
pub const DW_CFA_offset: DwCfa = DwCfa(0x02 << 6);
/// The register of the low six bits has the rule it began with.
pub const DW_CFA_restore: DwCfa = DwCfa(0x03 << 6);

// No operand in the opcode: DWARF 2.

/// Nothing.
pub const DW_CFA_nop: DwCfa = DwCfa(0x00);
/// The location is the address that follows.
pub const DW_CFA_set_loc: DwCfa = DwCfa(0x01);
/// The location moves on by a number of one byte.
pub const DW_CFA_advance_loc1: DwCfa = DwCfa(0x02);
/// The location moves on by a number of two bytes.
pub const DW_CFA_advance_loc2: DwCfa = DwCfa(0x03);
/// The location moves on by a number of four bytes.
pub const DW_CFA_advance_loc4: DwCfa = DwCfa(0x04);
/// A register was saved at an offset from the frame's address.
pub const DW_CFA_offset_extended: DwCfa = DwCfa(0x05);
/// A register has the rule it began with.
pub const DW_CFA_restore_extended: DwCfa = DwCfa(0x06);
/// A register can't be restored.
pub const DW_CFA_undefined: DwCfa = DwCfa(0x07);
/// A register was not changed.
pub const DW_CFA_same_value: DwCfa = DwCfa(0x08);
/// A register is kept in another one.
pub const DW_CFA_register: DwCfa = DwCfa(0x09);
/// Pushes the rules of all registers on a stack.
pub const DW_CFA_remember_state: DwCfa = DwCfa(0x0a);
/// Pops the rules that were pushed last.
pub const DW_CFA_restore_state: DwCfa = DwCfa(0x0b);
/// The frame's address is a register and an offset.
pub const DW_CFA_def_cfa: DwCfa = DwCfa(0x0c);
/// The frame's address is another register and the same offset.
pub const DW_CFA_def_cfa_register: DwCfa = DwCfa(0x0d);
/// The frame's address is the same register and another offset.
pub const DW_CFA_def_cfa_offset: DwCfa = DwCfa(0x0e);

// DWARF 3.

/// The frame's address is what an expression gives.
pub const DW_CFA_def_cfa_expression: DwCfa = DwCfa(0x0f);
/// A register was saved where an expression says.
pub const DW_CFA_expression: DwCfa = DwCfa(0x10);
/// As `DW_CFA_offset_extended`, with a signed offset that is scaled.
pub const DW_CFA_offset_extended_sf: DwCfa = DwCfa(0x11);
/// As `DW_CFA_def_cfa`, with a signed offset that is scaled.
pub const DW_CFA_def_cfa_sf: DwCfa = DwCfa(0x12);
/// As `DW_CFA_def_cfa_offset`, with a signed offset that is scaled.
pub const DW_CFA_def_cfa_offset_sf: DwCfa = DwCfa(0x13);
/// A register's value is the frame's address and an offset.
pub const DW_CFA_val_offset: DwCfa = DwCfa(0x14);
/// The same, with a signed offset that is scaled.
pub const DW_CFA_val_offset_sf: DwCfa = DwCfa(0x15);
/// A register's value is what an expression gives.
pub const DW_CFA_val_expression: DwCfa = DwCfa(0x16);

// The values that vendors may use.

/// The first value open to vendors.
pub const DW_CFA_lo_user: DwCfa = DwCfa(0x1c);
/// The last value open to vendors.
pub const DW_CFA_hi_user: DwCfa = DwCfa(0x3f);

// Vendors.

/// The location moves on by a number of eight bytes, by SGI and MIPS.
pub const DW_CFA_MIPS_advance_loc8: DwCfa = DwCfa(0x1d);
/// A SPARC register window was saved, by GNU.
pub const DW_CFA_GNU_window_save: DwCfa = DwCfa(0x2d);
/// How many bytes of arguments were pushed, by GNU.
pub const DW_CFA_GNU_args_size: DwCfa = DwCfa(0x2e);
/// As `DW_CFA_offset_extended`, with the offset subtracted, by GNU.
pub const DW_CFA_GNU_negative_offset_extended: DwCfa = DwCfa(0x2f);
/// The return address is signed now if it wasn't, and the other way round, on AArch64. The value is
/// that of `DW_CFA_GNU_window_save`, and so is the name that it prints.
pub const DW_CFA_AARCH64_negate_ra_state: DwCfa = DwCfa(0x2d);

// tools/constants writes this list from the declarations.
#[rattlefmt::skip]
const NAMES: Names = names![
    DW_CFA_nop, DW_CFA_set_loc, DW_CFA_advance_loc1, DW_CFA_advance_loc2, DW_CFA_advance_loc4,
    DW_CFA_offset_extended, DW_CFA_restore_extended, DW_CFA_undefined, DW_CFA_same_value,
    DW_CFA_register, DW_CFA_remember_state, DW_CFA_restore_state, DW_CFA_def_cfa,
    DW_CFA_def_cfa_register, DW_CFA_def_cfa_offset, DW_CFA_def_cfa_expression, DW_CFA_expression,
    DW_CFA_offset_extended_sf, DW_CFA_def_cfa_sf, DW_CFA_def_cfa_offset_sf, DW_CFA_val_offset,
    DW_CFA_val_offset_sf, DW_CFA_val_expression, DW_CFA_lo_user, DW_CFA_MIPS_advance_loc8,
    DW_CFA_GNU_window_save, DW_CFA_GNU_args_size, DW_CFA_GNU_negative_offset_extended,
    DW_CFA_hi_user, DW_CFA_advance_loc, DW_CFA_offset, DW_CFA_restore,
];

impl DwCfa {
    /// Returns the name of this value, such as `DW_CFA_def_cfa`, or `None` if it has none.
    #[tactic(auto, unfolding(crate::specs::DwCfa::call_frame_names))]
    pub fn static_string(&self) -> Option<&'static str>
        ensures { option_map (λ s. s.now) result ≡ name_of call_frame_names self.now.0 }
    {
        NAMES.find(self.0 as u64)
    }
}

impl fmt::Display for DwCfa {
    ghost output = { λ call_frame. Some (call_frame_text call_frame.0) };

    ghost styled_output = { λ call_frame spec. Some (padded spec (call_frame_text call_frame.0)) };

    fn fmt<W: fmt::Write>(&self, f: &mut fmt::Formatter<W>) -> fmt::Result {
        pad_name(f, self.static_string(), "DwCfa", self.0 as u64)
    }
}
