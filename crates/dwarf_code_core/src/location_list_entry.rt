//! Entries of location lists.

ghost use Rattle.std.specs.Prelude.{◌≡◌, Some, option_map};
ghost use Rattle.std.specs.Fmt.{padded};
ghost use Rattle.dwarf_const_core.specs.Names.{name_of};
ghost use Rattle.dwarf_code_core.specs.DwLle.{location_list_entry_names, location_list_entry_text};

use dwarf_const_core::names;
use dwarf_const_core::names::{Names, pad_name};
use std::fmt;

/// What kind of entry of a location list follows (DWARF 5, section 7.7.3).
///
/// `Display` writes the name, or `Unknown DwLle: 99` for a value without one, and honours width,
/// precision, fill and alignment.
#[derive(Debug, Clone, Copy, PartialEq, Eq, Hash, PartialOrd, Ord)]
pub struct DwLle(pub u8);

/// The list ends here.
pub const DW_LLE_end_of_list: DwLle = DwLle(0x00);
/// A base address, as an index of an address.
pub const DW_LLE_base_addressx: DwLle = DwLle(0x01);
/// The first address and the one after the last, as indices.
pub const DW_LLE_startx_endx: DwLle = DwLle(0x02);
/// The first address as an index, and a length.
pub const DW_LLE_startx_length: DwLle = DwLle(0x03);
/// Two offsets from the base address.
pub const DW_LLE_offset_pair: DwLle = DwLle(0x04);
/// A location for all addresses that the list doesn't name.
pub const DW_LLE_default_location: DwLle = DwLle(0x05);
/// A base address.
pub const DW_LLE_base_address: DwLle = DwLle(0x06);
/// The first address and the one after the last.
pub const DW_LLE_start_end: DwLle = DwLle(0x07);
/// The first address and a length.
pub const DW_LLE_start_length: DwLle = DwLle(0x08);

// GNU.

/// Two view numbers for the entry that follows.
pub const DW_LLE_GNU_view_pair: DwLle = DwLle(0x09);

// tools/constants writes this list from the declarations.
#[rattlefmt::skip]
const NAMES: Names = names![
    DW_LLE_end_of_list, DW_LLE_base_addressx, DW_LLE_startx_endx, DW_LLE_startx_length,
    DW_LLE_offset_pair, DW_LLE_default_location, DW_LLE_base_address, DW_LLE_start_end,
    DW_LLE_start_length, DW_LLE_GNU_view_pair,
];

impl DwLle {
    /// Returns the name of this value, such as `DW_LLE_end_of_list`, or `None` if it has none.
    #[tactic(auto, unfolding(crate::specs::DwLle::location_list_entry_names))]
    pub fn static_string(&self) -> Option<&'static str>
        ensures { option_map (λ s. s.now) result ≡ name_of location_list_entry_names self.now.0 }
    {
        NAMES.find(self.0 as u64)
    }
}

impl fmt::Display for DwLle {
    ghost output = { λ location_list_entry. Some (location_list_entry_text location_list_entry.0) };

    ghost styled_output = { λ location_list_entry spec. Some (padded spec (location_list_entry_text location_list_entry.0)) };

    fn fmt<W: fmt::Write>(&self, f: &mut fmt::Formatter<W>) -> fmt::Result {
        pad_name(f, self.static_string(), "DwLle", self.0 as u64)
    }
}
