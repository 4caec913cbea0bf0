//! Laws over the definitions: each function has one as its contract, and does nothing.

ghost use Rattle.std.specs.Prelude.{◌≡◌, ℕ, List, Result};
ghost use Rattle.dwarf_read_core.specs.Once.{HasOne};
ghost use Rattle.dwarf_read_core.specs.declared.Error.{Error};
ghost use Rattle.dwarf_listing_core.specs.Lines.{ListsString};
ghost use Rattle.dwarf_listing_core.specs.Sets.{ListsAddresses, ListsStringOffsets};
ghost use Rattle.dwarf_listing_core.specs.Tables.{ListsStrictTable, ListsTable};
ghost use Rattle.dwarf_listing_core.specs.Text.{IsText, Lists};

use dwarf_read_core::{AddressSize, EndianSlice, NoFields, RunTimeEndian, laws};

/// Every section has exactly one listing of each kind, at each offset or in each byte order: a
/// text, or its first error.
pub fn exactly_one_listing()
    ensures table { (section : List ℕ) (offset : ℕ) → HasOne (ListsTable section offset) }
    ensures strict { (section : List ℕ) (offset : ℕ) → HasOne (ListsStrictTable section offset) }
    ensures string { (section : List ℕ) (offset : ℕ) → HasOne (ListsString section offset) }
    ensures addresses { (endian : _) (section : List ℕ)
        → HasOne (ListsAddresses endian section) }
    ensures string_offsets { (endian : _) (section : List ℕ)
        → HasOne (ListsStringOffsets endian section) }
{
    laws::exactly_one_answer();
    laws::exactly_one_strict_answer();
    laws::exactly_one_list_of_contributions::<EndianSlice<'static, RunTimeEndian>, AddressSize>();
    laws::exactly_one_list_of_addresses();
    laws::exactly_one_list_of_contributions::<EndianSlice<'static, RunTimeEndian>, NoFields>();
    laws::exactly_one_list_of_string_offsets();
}

/// The arguments and the bytes of an input have exactly one text or error. A command has at most
/// one text or error of an input.
pub fn exactly_one_text()
    ensures text { (words : List (List ℕ)) (input : List ℕ) → HasOne (IsText words input) }
    ensures listing { (command : _) (input : List ℕ) (one other : Result (List ℕ) Error)
        → Lists command input one → Lists command input other → other ≡ one }
{
    exactly_one_listing();
    laws::exactly_one_shortest();
}
