//! Kinds of symbols in `.gdb_index`.

ghost use Rattle.std.specs.Prelude.{◌≡◌, Some, option_map};
ghost use Rattle.std.specs.Fmt.{padded};
ghost use Rattle.dwarf_const_core.specs.Names.{name_of};
ghost use Rattle.dwarf_code_core.specs.GdbIndexSymbolKind.{gdb_index_symbol_kind_names, gdb_index_symbol_kind_text};

use dwarf_const_core::names;
use dwarf_const_core::names::{Names, pad_name};
use std::fmt;

/// What kind of symbol `.gdb_index` names (GDB's manual, "Index Section Format").
///
/// `Display` writes the name, or `Unknown GdbIndexSymbolKind: 99` for a value without one, and
/// honours width, precision, fill and alignment.
#[derive(Debug, Clone, Copy, PartialEq, Eq, Hash, PartialOrd, Ord)]
pub struct GdbIndexSymbolKind(pub u8);

/// Nothing is known of the kind.
pub const GDB_INDEX_SYMBOL_KIND_NONE: GdbIndexSymbolKind = GdbIndexSymbolKind(0);
/// A type.
pub const GDB_INDEX_SYMBOL_KIND_TYPE: GdbIndexSymbolKind = GdbIndexSymbolKind(1);
/// A variable, or an enumerator or the like.
pub const GDB_INDEX_SYMBOL_KIND_VARIABLE: GdbIndexSymbolKind = GdbIndexSymbolKind(2);
/// A function.
pub const GDB_INDEX_SYMBOL_KIND_FUNCTION: GdbIndexSymbolKind = GdbIndexSymbolKind(3);
/// Something else.
pub const GDB_INDEX_SYMBOL_KIND_OTHER: GdbIndexSymbolKind = GdbIndexSymbolKind(4);
/// Not given a meaning.
pub const GDB_INDEX_SYMBOL_KIND_UNUSED5: GdbIndexSymbolKind = GdbIndexSymbolKind(5);
/// Not given a meaning.
pub const GDB_INDEX_SYMBOL_KIND_UNUSED6: GdbIndexSymbolKind = GdbIndexSymbolKind(6);
/// Not given a meaning.
pub const GDB_INDEX_SYMBOL_KIND_UNUSED7: GdbIndexSymbolKind = GdbIndexSymbolKind(7);

// tools/constants writes this list from the declarations.
#[rattlefmt::skip]
const NAMES: Names = names![
    GDB_INDEX_SYMBOL_KIND_NONE, GDB_INDEX_SYMBOL_KIND_TYPE, GDB_INDEX_SYMBOL_KIND_VARIABLE,
    GDB_INDEX_SYMBOL_KIND_FUNCTION, GDB_INDEX_SYMBOL_KIND_OTHER, GDB_INDEX_SYMBOL_KIND_UNUSED5,
    GDB_INDEX_SYMBOL_KIND_UNUSED6, GDB_INDEX_SYMBOL_KIND_UNUSED7,
];

impl GdbIndexSymbolKind {
    /// Returns the name of this value, such as `GDB_INDEX_SYMBOL_KIND_NONE`, or `None` if it has
    /// none.
    #[tactic(auto, unfolding(crate::specs::GdbIndexSymbolKind::gdb_index_symbol_kind_names))]
    pub fn static_string(&self) -> Option<&'static str>
        ensures { option_map (λ s. s.now) result ≡ name_of gdb_index_symbol_kind_names self.now.0 }
    {
        NAMES.find(self.0 as u64)
    }
}

impl fmt::Display for GdbIndexSymbolKind {
    ghost output = { λ gdb_index_symbol_kind. Some (gdb_index_symbol_kind_text gdb_index_symbol_kind.0) };

    ghost styled_output = { λ gdb_index_symbol_kind spec. Some (padded spec (gdb_index_symbol_kind_text gdb_index_symbol_kind.0)) };

    fn fmt<W: fmt::Write>(&self, f: &mut fmt::Formatter<W>) -> fmt::Result {
        pad_name(f, self.static_string(), "GdbIndexSymbolKind", self.0 as u64)
    }
}
