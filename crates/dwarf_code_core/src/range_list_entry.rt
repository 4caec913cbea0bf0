//! Entries of range lists.

ghost use Rattle.std.specs.Prelude.{◌≡◌, Some, option_map};
ghost use Rattle.std.specs.Fmt.{padded};
ghost use Rattle.dwarf_const_core.specs.Names.{name_of};
ghost use Rattle.dwarf_code_core.specs.DwRle.{range_list_entry_names, range_list_entry_text};

use dwarf_const_core::names;
use dwarf_const_core::names::{Names, pad_name};
use std::fmt;

/// What kind of entry of a range list follows (DWARF 5, section 7.25).
///
/// `Display` writes the name, or `Unknown DwRle: 99` for a value without one, and honours width,
/// precision, fill and alignment.
#[derive(Debug, Clone, Copy, PartialEq, Eq, Hash, PartialOrd, Ord)]
pub struct DwRle(pub u8);

/// The list ends here.
pub const DW_RLE_end_of_list: DwRle = DwRle(0x00);
/// A base address, as an index of an address.
pub const DW_RLE_base_addressx: DwRle = DwRle(0x01);
/// The first address and the one after the last, as indices.
pub const DW_RLE_startx_endx: DwRle = DwRle(0x02);
/// The first address as an index, and a length.
pub const DW_RLE_startx_length: DwRle = DwRle(0x03);
/// Two offsets from the base address.
pub const DW_RLE_offset_pair: DwRle = DwRle(0x04);
/// A base address.
pub const DW_RLE_base_address: DwRle = DwRle(0x05);
/// The first address and the one after the last.
pub const DW_RLE_start_end: DwRle = DwRle(0x06);
/// The first address and a length.
pub const DW_RLE_start_length: DwRle = DwRle(0x07);

// tools/constants writes this list from the declarations.
#[rattlefmt::skip]
const NAMES: Names = names![
    DW_RLE_end_of_list, DW_RLE_base_addressx, DW_RLE_startx_endx, DW_RLE_startx_length,
    DW_RLE_offset_pair, DW_RLE_base_address, DW_RLE_start_end, DW_RLE_start_length,
];

impl DwRle {
    /// Returns the name of this value, such as `DW_RLE_end_of_list`, or `None` if it has none.
    #[tactic(auto, unfolding(crate::specs::DwRle::range_list_entry_names))]
    pub fn static_string(&self) -> Option<&'static str>
        ensures { option_map (λ s. s.now) result ≡ name_of range_list_entry_names self.now.0 }
    {
        NAMES.find(self.0 as u64)
    }
}

impl fmt::Display for DwRle {
    ghost output = { λ range_list_entry. Some (range_list_entry_text range_list_entry.0) };

    ghost styled_output = { λ range_list_entry spec. Some (padded spec (range_list_entry_text range_list_entry.0)) };

    fn fmt<W: fmt::Write>(&self, f: &mut fmt::Formatter<W>) -> fmt::Result {
        pad_name(f, self.static_string(), "DwRle", self.0 as u64)
    }
}
