//! The forms of values: how each is encoded, and what it is (DWARF 5, 7.5.5 and 7.5.6).

ghost use Rattle.std.specs.Prelude.{◌≡◌};
ghost use Rattle.dwarf_entry_core.specs.Forms.{form_shape};

use dwarf_read_core::{
    DW_FORM_GNU_addr_index, DW_FORM_GNU_ref_alt, DW_FORM_GNU_str_index, DW_FORM_GNU_strp_alt,
    DW_FORM_addr, DW_FORM_addrx, DW_FORM_addrx1, DW_FORM_addrx2, DW_FORM_addrx3, DW_FORM_addrx4,
    DW_FORM_block, DW_FORM_block1, DW_FORM_block2, DW_FORM_block4, DW_FORM_data1, DW_FORM_data2,
    DW_FORM_data4, DW_FORM_data8, DW_FORM_data16, DW_FORM_exprloc, DW_FORM_flag,
    DW_FORM_flag_present, DW_FORM_implicit_const, DW_FORM_line_strp, DW_FORM_loclistx,
    DW_FORM_ref_addr, DW_FORM_ref_sig8, DW_FORM_ref_sup4, DW_FORM_ref_sup8, DW_FORM_ref_udata,
    DW_FORM_ref1, DW_FORM_ref2, DW_FORM_ref4, DW_FORM_ref8, DW_FORM_rnglistx, DW_FORM_sdata,
    DW_FORM_sec_offset, DW_FORM_string, DW_FORM_strp, DW_FORM_strp_sup, DW_FORM_strx,
    DW_FORM_strx1, DW_FORM_strx2, DW_FORM_strx3, DW_FORM_strx4, DW_FORM_udata, DwForm,
};

/// How a number is encoded.
#[derive(Debug, Clone, Copy, Drop, PartialEq, Eq)]
pub(crate) enum Width {
    /// One byte.
    One,
    /// Two bytes.
    Two,
    /// Three bytes.
    Three,
    /// Four bytes.
    Four,
    /// Eight bytes.
    Eight,
    /// An unsigned LEB128 number.
    Leb128,
}

/// How a value is encoded, and what it is.
#[derive(Debug, Clone, Copy, Drop, PartialEq, Eq)]
pub(crate) enum Shape {
    /// An address.
    Addr,
    /// Bytes, after their number.
    Block(Width),
    /// An expression, after the number of its bytes.
    Exprloc,
    /// A constant of one byte.
    Data1,
    /// A constant of two bytes.
    Data2,
    /// A constant of four bytes.
    Data4,
    /// A constant of eight bytes.
    Data8,
    /// A constant of sixteen bytes.
    Data16,
    /// A signed LEB128 number.
    Sdata,
    /// An unsigned LEB128 number.
    Udata,
    /// A constant that the abbreviation has.
    ImplicitConst,
    /// A byte that isn't 0 if the flag is set.
    Flag,
    /// A flag that is set, without bytes.
    FlagPresent,
    /// An offset into a section that the name of the attribute says.
    SecOffset,
    /// An offset in the unit.
    UnitRef(Width),
    /// An offset into `.debug_info`.
    DebugInfoRef,
    /// An offset of the format's size into the `.debug_info` of the supplementary file.
    DebugInfoRefAlt,
    /// An offset into the `.debug_info` of the supplementary file.
    DebugInfoRefSup(Width),
    /// The signature of a type.
    DebugTypesRef,
    /// An offset into `.debug_str`.
    DebugStrRef,
    /// An offset into the `.debug_str` of the supplementary file.
    DebugStrRefSup,
    /// An offset into `.debug_line_str`.
    DebugLineStrRef,
    /// An index of a string offset.
    DebugStrOffsetsIndex(Width),
    /// An index of an address.
    DebugAddrIndex(Width),
    /// An index of a location list.
    DebugLocListsIndex,
    /// An index of a range list.
    DebugRngListsIndex,
    /// A string, up to a zero byte.
    String,
}

/// Returns the shape of the values of a form, or `None` if the form isn't known.
#[inline(always)]
#[tactic(auto, unfolding(crate::specs::Forms::form_shapes))]
pub(crate) fn shape_of(form: DwForm) -> Option<Shape>
    ensures { result ≡ form_shape form.0 }
{
    match form {
        DW_FORM_addr => Some(Shape::Addr),
        DW_FORM_block1 => Some(Shape::Block(Width::One)),
        DW_FORM_block2 => Some(Shape::Block(Width::Two)),
        DW_FORM_block4 => Some(Shape::Block(Width::Four)),
        DW_FORM_block => Some(Shape::Block(Width::Leb128)),
        DW_FORM_exprloc => Some(Shape::Exprloc),
        DW_FORM_data1 => Some(Shape::Data1),
        DW_FORM_data2 => Some(Shape::Data2),
        DW_FORM_data4 => Some(Shape::Data4),
        DW_FORM_data8 => Some(Shape::Data8),
        DW_FORM_data16 => Some(Shape::Data16),
        DW_FORM_sdata => Some(Shape::Sdata),
        DW_FORM_udata => Some(Shape::Udata),
        DW_FORM_implicit_const => Some(Shape::ImplicitConst),
        DW_FORM_flag => Some(Shape::Flag),
        DW_FORM_flag_present => Some(Shape::FlagPresent),
        DW_FORM_sec_offset => Some(Shape::SecOffset),
        DW_FORM_ref1 => Some(Shape::UnitRef(Width::One)),
        DW_FORM_ref2 => Some(Shape::UnitRef(Width::Two)),
        DW_FORM_ref4 => Some(Shape::UnitRef(Width::Four)),
        DW_FORM_ref8 => Some(Shape::UnitRef(Width::Eight)),
        DW_FORM_ref_udata => Some(Shape::UnitRef(Width::Leb128)),
        DW_FORM_ref_addr => Some(Shape::DebugInfoRef),
        DW_FORM_GNU_ref_alt => Some(Shape::DebugInfoRefAlt),
        DW_FORM_ref_sup4 => Some(Shape::DebugInfoRefSup(Width::Four)),
        DW_FORM_ref_sup8 => Some(Shape::DebugInfoRefSup(Width::Eight)),
        DW_FORM_ref_sig8 => Some(Shape::DebugTypesRef),
        DW_FORM_strp => Some(Shape::DebugStrRef),
        DW_FORM_strp_sup | DW_FORM_GNU_strp_alt => Some(Shape::DebugStrRefSup),
        DW_FORM_line_strp => Some(Shape::DebugLineStrRef),
        DW_FORM_strx | DW_FORM_GNU_str_index => Some(Shape::DebugStrOffsetsIndex(Width::Leb128)),
        DW_FORM_strx1 => Some(Shape::DebugStrOffsetsIndex(Width::One)),
        DW_FORM_strx2 => Some(Shape::DebugStrOffsetsIndex(Width::Two)),
        DW_FORM_strx3 => Some(Shape::DebugStrOffsetsIndex(Width::Three)),
        DW_FORM_strx4 => Some(Shape::DebugStrOffsetsIndex(Width::Four)),
        DW_FORM_addrx | DW_FORM_GNU_addr_index => Some(Shape::DebugAddrIndex(Width::Leb128)),
        DW_FORM_addrx1 => Some(Shape::DebugAddrIndex(Width::One)),
        DW_FORM_addrx2 => Some(Shape::DebugAddrIndex(Width::Two)),
        DW_FORM_addrx3 => Some(Shape::DebugAddrIndex(Width::Three)),
        DW_FORM_addrx4 => Some(Shape::DebugAddrIndex(Width::Four)),
        DW_FORM_loclistx => Some(Shape::DebugLocListsIndex),
        DW_FORM_rnglistx => Some(Shape::DebugRngListsIndex),
        DW_FORM_string => Some(Shape::String),
        _ => None,
    }
}
