//! Address classes.

ghost use Rattle.std.specs.Prelude.{◌≡◌, Some, option_map};
ghost use Rattle.std.specs.Fmt.{padded};
ghost use Rattle.dwarf_const_core.specs.Names.{name_of};
ghost use Rattle.dwarf_code_core.specs.DwAddr.{address_class_names, address_class_text};

use dwarf_const_core::names;
use dwarf_const_core::names::{Names, pad_name};
use std::fmt;

/// How a pointer is to be followed. Each machine defines classes of its own, too (DWARF 5, section
/// 7.13).
///
/// `Display` writes the name, or `Unknown DwAddr: 99` for a value without one, and honours width,
/// precision, fill and alignment.
#[derive(Debug, Clone, Copy, PartialEq, Eq, Hash, PartialOrd, Ord)]
pub struct DwAddr(pub u64);

/// No class: a plain address.
pub const DW_ADDR_none: DwAddr = DwAddr(0x00);

// tools/constants writes this list from the declarations.
#[rattlefmt::skip]
const NAMES: Names = names![
    DW_ADDR_none,
];

impl DwAddr {
    /// Returns the name of this value, such as `DW_ADDR_none`, or `None` if it has none.
    #[tactic(auto, unfolding(crate::specs::DwAddr::address_class_names))]
    pub fn static_string(&self) -> Option<&'static str>
        ensures { option_map (λ s. s.now) result ≡ name_of address_class_names self.now.0 }
    {
        NAMES.find(self.0)
    }
}

impl fmt::Display for DwAddr {
    ghost output = { λ address_class. Some (address_class_text address_class.0) };

    ghost styled_output = { λ address_class spec. Some (padded spec (address_class_text address_class.0)) };

    fn fmt<W: fmt::Write>(&self, f: &mut fmt::Formatter<W>) -> fmt::Result {
        pad_name(f, self.static_string(), "DwAddr", self.0)
    }
}
