//! Laws of units, and those of contributions, which hold for units.

ghost use Rattle.std.specs.Prelude.{ℕ, ◌≤◌, List, [], ◌∷◌, Ok, Err, true, false};
ghost use Rattle.dwarf_read_core.specs.declared.Error.TheVariants.{UnknownVersion};
ghost use Rattle.dwarf_read_core.specs.declared.Format.{Format};
ghost use Rattle.dwarf_read_core.specs.declared.Format.TheVariants.{Dwarf32, Dwarf64};
ghost use Rattle.dwarf_read_core.specs.Contributions.{ContributionRead};
ghost use Rattle.dwarf_read_core.specs.Input.{Input, Takes, section_of};
ghost use Rattle.dwarf_unit_core.specs.Fields.{header_size, unit_header};
ghost use Rattle.dwarf_unit_core.specs.declared.header.UnitFields.{UnitFields};
ghost use Rattle.dwarf_unit_core.specs.declared.header.UnitType.TheVariants.{Compilation, Skeleton, «Type» as TypeUnit};

use crate::info::{DebugInfo, InfoFields};
use crate::types::{DebugTypes, TypesFields};
pub use dwarf_read_core::laws::{
    appended_bytes_change_no_contribution, contributions_are_at_their_offsets,
    exactly_one_contribution, exactly_one_contribution_at_an_offset, exactly_one_header,
    exactly_one_list_of_contributions,
};
use dwarf_read_core::{HeaderFields, Reader};

/// The header of a unit has as many bytes as its format and its fields say.
pub fn headers_of_units_have_their_size()
    ensures { (code greatest : ℕ) (format : Format) (unit rest : Input) (x : UnitFields ℕ)
        → unit_header code greatest format unit (Ok x, rest)
        → Takes (header_size format x) unit rest }
{}

/// Headers of units by their bytes. In `.debug_info` a unit before version 5 is a compilation unit,
/// and in `.debug_types` a type unit. From version 5 on a byte says the type, in both. No unit
/// has version 1. In the 64-bit format, here with the initial length and one byte of entries, an
/// offset has eight bytes.
pub fn headers_of_units_by_their_bytes<R: Reader>()
    ensures info { (greatest : ℕ) (bytes : List ℕ) → 16 ≤ greatest
        → ⟦<InfoFields<R> as HeaderFields<R>>⟧.header greatest Dwarf32
        (section_of (4 ∷ 0 ∷ 16 ∷ 0 ∷ 0 ∷ 0 ∷ 8 ∷ bytes) false) (
          Ok (record {
            version = 4;
            address_size = 8;
            abbrev_offset = 16;
            unit_type = Compilation;
          }),
          record { bytes = bytes; position = 7; is_big = false },
        ) }
    ensures unit_64 { (greatest : ℕ) (bytes : List ℕ) → 16 ≤ greatest
        → ContributionRead ⟦<InfoFields<R> as HeaderFields<R>>⟧.header greatest 0
        (section_of (255 ∷ 255 ∷ 255 ∷ 255 ∷ 0 ∷ 0 ∷ 0 ∷ 0 ∷ 0 ∷ 0 ∷ 0 ∷ 12
        ∷ 0 ∷ 3 ∷ 0 ∷ 0 ∷ 0 ∷ 0 ∷ 0 ∷ 0 ∷ 0 ∷ 16 ∷ 4 ∷ 1 ∷ bytes) true) (
          Ok (record {
            offset = 0;
            format = Dwarf64;
            unit_length = 12;
            header = record {
              version = 3;
              address_size = 4;
              abbrev_offset = 16;
              unit_type = Compilation;
            };
            entries = record { bytes = 1 ∷ []; position = 23; is_big = true };
          }),
          record { bytes = bytes; position = 24; is_big = true },
        ) }
    ensures types { (greatest : ℕ) (bytes : List ℕ) → 30 ≤ greatest
        → ⟦<TypesFields<R> as HeaderFields<R>>⟧.header greatest Dwarf32
        (section_of (4 ∷ 0 ∷ 16 ∷ 0 ∷ 0 ∷ 0 ∷ 8
        ∷ 1 ∷ 0 ∷ 0 ∷ 0 ∷ 0 ∷ 0 ∷ 0 ∷ 0 ∷ 30 ∷ 0 ∷ 0 ∷ 0 ∷ bytes) false) (
          Ok (record {
            version = 4;
            address_size = 8;
            abbrev_offset = 16;
            unit_type = TypeUnit (record { 0 = 1 }) (record { 0 = 30 });
          }),
          record { bytes = bytes; position = 19; is_big = false },
        ) }
    ensures skeleton { (greatest : ℕ) (bytes : List ℕ) → 16 ≤ greatest
        → ⟦<InfoFields<R> as HeaderFields<R>>⟧.header greatest Dwarf32
        (section_of (5 ∷ 0 ∷ 4 ∷ 8 ∷ 16 ∷ 0 ∷ 0 ∷ 0
        ∷ 7 ∷ 0 ∷ 0 ∷ 0 ∷ 0 ∷ 0 ∷ 0 ∷ 0 ∷ bytes) false) (
          Ok (record {
            version = 5;
            address_size = 8;
            abbrev_offset = 16;
            unit_type = Skeleton (record { 0 = 7 });
          }),
          record { bytes = bytes; position = 16; is_big = false },
        ) }
    ensures version { (greatest : ℕ) (bytes : List ℕ)
        → ⟦<InfoFields<R> as HeaderFields<R>>⟧.header greatest Dwarf32
        (section_of (1 ∷ 0 ∷ bytes) false)
        (Err (UnknownVersion 1), record { bytes = bytes; position = 2; is_big = false }) }
{}
