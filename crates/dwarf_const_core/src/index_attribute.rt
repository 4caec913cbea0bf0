//! Index attributes: what a value in `.debug_names` is about.

ghost use Rattle.std.specs.Prelude.{◌≡◌, Some, option_map};
ghost use Rattle.std.specs.Fmt.{padded};
ghost use Rattle.dwarf_const_core.specs.Names.{name_of};
ghost use Rattle.dwarf_const_core.specs.DwIdx.{index_attribute_names, index_attribute_text};

use crate::names::{Names, pad_name};
use std::fmt;

/// What a value of an entry in `.debug_names` is about (DWARF 5, section 7.19).
///
/// `Display` writes the name, or `Unknown DwIdx: 4660` for a value without one, and honours width,
/// precision, fill and alignment.
#[derive(Debug, Clone, Copy, PartialEq, Eq, Hash, PartialOrd, Ord)]
pub struct DwIdx(pub u16);

/// The compilation unit, as an index.
pub const DW_IDX_compile_unit: DwIdx = DwIdx(0x01);
/// The type unit, as an index.
pub const DW_IDX_type_unit: DwIdx = DwIdx(0x02);
/// The entry's offset from its unit's start.
pub const DW_IDX_die_offset: DwIdx = DwIdx(0x03);
/// The index entry of the entry that encloses this one.
pub const DW_IDX_parent: DwIdx = DwIdx(0x04);
/// A hash of the type that is declared.
pub const DW_IDX_type_hash: DwIdx = DwIdx(0x05);
/// The first value open to vendors.
pub const DW_IDX_lo_user: DwIdx = DwIdx(0x2000);
/// The last value open to vendors.
pub const DW_IDX_hi_user: DwIdx = DwIdx(0x3fff);

// tools/constants writes this list from the declarations.
#[rattlefmt::skip]
const NAMES: Names = names![
    DW_IDX_compile_unit, DW_IDX_type_unit, DW_IDX_die_offset, DW_IDX_parent, DW_IDX_type_hash,
    DW_IDX_lo_user, DW_IDX_hi_user,
];

impl DwIdx {
    /// Returns the name of this value, such as `DW_IDX_compile_unit`, or `None` if it has none.
    #[tactic(auto, unfolding(crate::specs::DwIdx::index_attribute_names))]
    pub fn static_string(&self) -> Option<&'static str>
        ensures { option_map (λ s. s.now) result ≡ name_of index_attribute_names self.now.0 }
    {
        NAMES.find(self.0 as u64)
    }
}

impl fmt::Display for DwIdx {
    ghost output = { λ index_attribute. Some (index_attribute_text index_attribute.0) };

    ghost styled_output = { λ index_attribute spec. Some (padded spec (index_attribute_text index_attribute.0)) };

    fn fmt<W: fmt::Write>(&self, f: &mut fmt::Formatter<W>) -> fmt::Result {
        pad_name(f, self.static_string(), "DwIdx", self.0 as u64)
    }
}
