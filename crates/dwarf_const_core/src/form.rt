//! Forms: how the value of an attribute is encoded.

ghost use Rattle.std.specs.Prelude.{◌≡◌, Some, option_map};
ghost use Rattle.std.specs.Fmt.{padded};
ghost use Rattle.dwarf_const_core.specs.Names.{name_of};
ghost use Rattle.dwarf_const_core.specs.DwForm.{form_names, form_text};

use crate::names::{Names, pad_name};
use std::fmt;

/// How the value of an attribute is encoded (DWARF 5, sections 7.5.5 and 7.5.6).
///
/// `Display` writes the name, or `Unknown DwForm: 4660` for a value without one, and honours width,
/// precision, fill and alignment.
#[derive(Debug, Clone, Copy, PartialEq, Eq, Hash, PartialOrd, Ord)]
pub struct DwForm(pub u16);

// No form: the pair that closes a declaration's attributes.

/// The form of an attribute that has none.
pub const DW_FORM_null: DwForm = DwForm(0x00);

// DWARF 1, withdrawn since.

/// A reference of four bytes.
pub const DW_FORM_ref: DwForm = DwForm(0x02);

// DWARF 2.

/// An address, of the unit's address size.
pub const DW_FORM_addr: DwForm = DwForm(0x01);
/// A block, after its length in two bytes.
pub const DW_FORM_block2: DwForm = DwForm(0x03);
/// A block, after its length in four bytes.
pub const DW_FORM_block4: DwForm = DwForm(0x04);
/// A constant of two bytes.
pub const DW_FORM_data2: DwForm = DwForm(0x05);
/// A constant of four bytes.
pub const DW_FORM_data4: DwForm = DwForm(0x06);
/// A constant of eight bytes.
pub const DW_FORM_data8: DwForm = DwForm(0x07);
/// A string in the entry itself, up to a zero byte.
pub const DW_FORM_string: DwForm = DwForm(0x08);
/// A block, after its length as an unsigned LEB128 number.
pub const DW_FORM_block: DwForm = DwForm(0x09);
/// A block, after its length in one byte.
pub const DW_FORM_block1: DwForm = DwForm(0x0a);
/// A constant of one byte.
pub const DW_FORM_data1: DwForm = DwForm(0x0b);
/// A flag of one byte: unset if it is zero.
pub const DW_FORM_flag: DwForm = DwForm(0x0c);
/// A constant as a signed LEB128 number.
pub const DW_FORM_sdata: DwForm = DwForm(0x0d);
/// An offset into `.debug_str`.
pub const DW_FORM_strp: DwForm = DwForm(0x0e);
/// A constant as an unsigned LEB128 number.
pub const DW_FORM_udata: DwForm = DwForm(0x0f);
/// An offset into `.debug_info`, to any unit.
pub const DW_FORM_ref_addr: DwForm = DwForm(0x10);
/// An offset from the unit's start, in one byte.
pub const DW_FORM_ref1: DwForm = DwForm(0x11);
/// An offset from the unit's start, in two bytes.
pub const DW_FORM_ref2: DwForm = DwForm(0x12);
/// An offset from the unit's start, in four bytes.
pub const DW_FORM_ref4: DwForm = DwForm(0x13);
/// An offset from the unit's start, in eight bytes.
pub const DW_FORM_ref8: DwForm = DwForm(0x14);
/// An offset from the unit's start, as an unsigned LEB128 number.
pub const DW_FORM_ref_udata: DwForm = DwForm(0x15);
/// The form itself is in the entry, before the value.
pub const DW_FORM_indirect: DwForm = DwForm(0x16);

// DWARF 4.

/// An offset into a section that the attribute determines.
pub const DW_FORM_sec_offset: DwForm = DwForm(0x17);
/// An expression, after its length as an unsigned LEB128 number.
pub const DW_FORM_exprloc: DwForm = DwForm(0x18);
/// A set flag that takes no bytes.
pub const DW_FORM_flag_present: DwForm = DwForm(0x19);
/// The signature of a type unit, in eight bytes.
pub const DW_FORM_ref_sig8: DwForm = DwForm(0x20);

// DWARF 5.

/// An index of a string offset, as an unsigned LEB128 number.
pub const DW_FORM_strx: DwForm = DwForm(0x1a);
/// An index of an address, as an unsigned LEB128 number.
pub const DW_FORM_addrx: DwForm = DwForm(0x1b);
/// An offset of four bytes into the supplementary file's `.debug_info`.
pub const DW_FORM_ref_sup4: DwForm = DwForm(0x1c);
/// An offset into the supplementary file's `.debug_str`.
pub const DW_FORM_strp_sup: DwForm = DwForm(0x1d);
/// A constant of sixteen bytes.
pub const DW_FORM_data16: DwForm = DwForm(0x1e);
/// An offset into `.debug_line_str`.
pub const DW_FORM_line_strp: DwForm = DwForm(0x1f);
/// A constant in the abbreviation; the entry has no bytes of it.
pub const DW_FORM_implicit_const: DwForm = DwForm(0x21);
/// An index of a location list, as an unsigned LEB128 number.
pub const DW_FORM_loclistx: DwForm = DwForm(0x22);
/// An index of a range list, as an unsigned LEB128 number.
pub const DW_FORM_rnglistx: DwForm = DwForm(0x23);
/// An offset of eight bytes into the supplementary file's `.debug_info`.
pub const DW_FORM_ref_sup8: DwForm = DwForm(0x24);
/// An index of a string offset, in one byte.
pub const DW_FORM_strx1: DwForm = DwForm(0x25);
/// An index of a string offset, in two bytes.
pub const DW_FORM_strx2: DwForm = DwForm(0x26);
/// An index of a string offset, in three bytes.
pub const DW_FORM_strx3: DwForm = DwForm(0x27);
/// An index of a string offset, in four bytes.
pub const DW_FORM_strx4: DwForm = DwForm(0x28);
/// An index of an address, in one byte.
pub const DW_FORM_addrx1: DwForm = DwForm(0x29);
/// An index of an address, in two bytes.
pub const DW_FORM_addrx2: DwForm = DwForm(0x2a);
/// An index of an address, in three bytes.
pub const DW_FORM_addrx3: DwForm = DwForm(0x2b);
/// An index of an address, in four bytes.
pub const DW_FORM_addrx4: DwForm = DwForm(0x2c);

// GNU, for split files before DWARF 5.

/// An index of an address, as an unsigned LEB128 number.
pub const DW_FORM_GNU_addr_index: DwForm = DwForm(0x1f01);
/// An index of a string offset, as an unsigned LEB128 number.
pub const DW_FORM_GNU_str_index: DwForm = DwForm(0x1f02);

// GNU, for supplementary files before DWARF 5.

/// An offset into the supplementary file's `.debug_info`.
pub const DW_FORM_GNU_ref_alt: DwForm = DwForm(0x1f20);
/// An offset into the supplementary file's `.debug_str`.
pub const DW_FORM_GNU_strp_alt: DwForm = DwForm(0x1f21);

// tools/constants writes this list from the declarations.
#[rattlefmt::skip]
const NAMES: Names = names![
    DW_FORM_null, DW_FORM_addr, DW_FORM_ref, DW_FORM_block2, DW_FORM_block4, DW_FORM_data2,
    DW_FORM_data4, DW_FORM_data8, DW_FORM_string, DW_FORM_block, DW_FORM_block1, DW_FORM_data1,
    DW_FORM_flag, DW_FORM_sdata, DW_FORM_strp, DW_FORM_udata, DW_FORM_ref_addr, DW_FORM_ref1,
    DW_FORM_ref2, DW_FORM_ref4, DW_FORM_ref8, DW_FORM_ref_udata, DW_FORM_indirect,
    DW_FORM_sec_offset, DW_FORM_exprloc, DW_FORM_flag_present, DW_FORM_strx, DW_FORM_addrx,
    DW_FORM_ref_sup4, DW_FORM_strp_sup, DW_FORM_data16, DW_FORM_line_strp, DW_FORM_ref_sig8,
    DW_FORM_implicit_const, DW_FORM_loclistx, DW_FORM_rnglistx, DW_FORM_ref_sup8, DW_FORM_strx1,
    DW_FORM_strx2, DW_FORM_strx3, DW_FORM_strx4, DW_FORM_addrx1, DW_FORM_addrx2, DW_FORM_addrx3,
    DW_FORM_addrx4, DW_FORM_GNU_addr_index, DW_FORM_GNU_str_index, DW_FORM_GNU_ref_alt,
    DW_FORM_GNU_strp_alt,
];

impl DwForm {
    /// Returns the name of this value, such as `DW_FORM_data4`, or `None` if it has none.
    #[tactic(auto, unfolding(crate::specs::DwForm::form_names))]
    pub fn static_string(&self) -> Option<&'static str>
        ensures { option_map (λ s. s.now) result ≡ name_of form_names self.now.0 }
    {
        NAMES.find(self.0 as u64)
    }
}

impl fmt::Display for DwForm {
    ghost output = { λ form. Some (form_text form.0) };

    ghost styled_output = { λ form spec. Some (padded spec (form_text form.0)) };

    fn fmt<W: fmt::Write>(&self, f: &mut fmt::Formatter<W>) -> fmt::Result {
        pad_name(f, self.static_string(), "DwForm", self.0 as u64)
    }
}
