//! Content types: what is kept of a file in a line number program.

ghost use Rattle.std.specs.Prelude.{◌≡◌, Some, option_map};
ghost use Rattle.std.specs.Fmt.{padded};
ghost use Rattle.dwarf_const_core.specs.Names.{name_of};
ghost use Rattle.dwarf_const_core.specs.DwLnct.{line_content_names, line_content_text};

use crate::names::{Names, pad_name};
use std::fmt;

/// What a line number program keeps of a file or a directory (DWARF 5, section 7.22).
///
/// `Display` writes the name, or `Unknown DwLnct: 4660` for a value without one, and honours width,
/// precision, fill and alignment.
#[derive(Debug, Clone, Copy, PartialEq, Eq, Hash, PartialOrd, Ord)]
pub struct DwLnct(pub u16);

/// The path of the file or directory.
pub const DW_LNCT_path: DwLnct = DwLnct(0x01);
/// The directory that a file's path is relative to, as an index.
pub const DW_LNCT_directory_index: DwLnct = DwLnct(0x02);
/// When the file was last changed.
pub const DW_LNCT_timestamp: DwLnct = DwLnct(0x03);
/// The size of the file, in bytes.
pub const DW_LNCT_size: DwLnct = DwLnct(0x04);
/// The MD5 digest of the file.
pub const DW_LNCT_MD5: DwLnct = DwLnct(0x05);
/// The first value open to vendors.
pub const DW_LNCT_lo_user: DwLnct = DwLnct(0x2000);
/// The text of the file itself, by LLVM.
pub const DW_LNCT_LLVM_source: DwLnct = DwLnct(0x2001);
/// The last value open to vendors.
pub const DW_LNCT_hi_user: DwLnct = DwLnct(0x3fff);

// tools/constants writes this list from the declarations.
#[rattlefmt::skip]
const NAMES: Names = names![
    DW_LNCT_path, DW_LNCT_directory_index, DW_LNCT_timestamp, DW_LNCT_size, DW_LNCT_MD5,
    DW_LNCT_lo_user, DW_LNCT_LLVM_source, DW_LNCT_hi_user,
];

impl DwLnct {
    /// Returns the name of this value, such as `DW_LNCT_path`, or `None` if it has none.
    #[tactic(auto, unfolding(crate::specs::DwLnct::line_content_names))]
    pub fn static_string(&self) -> Option<&'static str>
        ensures { option_map (λ s. s.now) result ≡ name_of line_content_names self.now.0 }
    {
        NAMES.find(self.0 as u64)
    }
}

impl fmt::Display for DwLnct {
    ghost output = { λ line_content. Some (line_content_text line_content.0) };

    ghost styled_output = { λ line_content spec. Some (padded spec (line_content_text line_content.0)) };

    fn fmt<W: fmt::Write>(&self, f: &mut fmt::Formatter<W>) -> fmt::Result {
        pad_name(f, self.static_string(), "DwLnct", self.0 as u64)
    }
}
