//! Laws of the definitions that the contracts cite: each function has one as its contract, and does
//! nothing.

ghost use Rattle.std.specs.Prelude.{◌≡◌, ℕ, true, false, Some, Ok, map, take, drop, slice_get};
ghost use Rattle.std.specs.FinMap.{values};
ghost use Rattle.dwarf_read_core.specs.Answer.{Answer};
ghost use Rattle.dwarf_read_core.specs.Format.{word_size};
ghost use Rattle.dwarf_read_core.specs.Grammar.{Declaration, Table};
ghost use Rattle.dwarf_read_core.specs.Input.{Input};
ghost use Rattle.dwarf_read_core.specs.Once.{HasOne};
ghost use Rattle.dwarf_read_core.specs.declared.Format.TheVariants.{Dwarf32, Dwarf64};
ghost use Rattle.dwarf_fault.specs.Fault.{Means};
ghost use Rattle.dwarf_read_c.specs.Extents.{ExtentAt};
ghost use Rattle.dwarf_read_c.specs.Sections.{offset_size};
ghost use Rattle.dwarf_read_c.specs.Tables.{Measures, abbreviation_of, abbreviations_of, attribute_of, attributes_of};
ghost use Rattle.dwarf_read_c.specs.Units.{TellsUnit, header_in};
ghost use Rattle.dwarf_read_c.specs.declared.units.DwarfUnit.{DwarfUnit};
ghost use Rattle.dwarf_read_c.specs.declared.rows.DwarfAbbreviation.{DwarfAbbreviation};

use dwarf_fault::{DwarfFault, error_of};
use dwarf_read_core::laws::{exactly_one_contribution_at_an_offset, exactly_one_end};
use dwarf_read_core::{EndianSlice, RunTimeEndian};
use dwarf_unit_core::{InfoFields, TypesFields};

type Slice<'a> = EndianSlice<'a, RunTimeEndian>;

/// The table at an offset has exactly one measure.
pub fn exactly_one_measure()
    ensures { (section : Input) (offset : ℕ) (t : Table) → Answer section offset (Ok t)
        → HasOne (λ measure. Measures measure section offset t) }
{
    exactly_one_end();
}

/// Each abbreviation is the declaration with its index. Its attributes are those of the table from
/// `first_attribute` on.
#[tactic(auto, using(crate::proofs::AttributeIndexes::attributes_at))]
pub fn attributes_are_at_their_indexes()
    ensures { (t : Table) (i : ℕ) (a : DwarfAbbreviation)
        → slice_get (abbreviations_of t) i ≡ Some a
        → (d : Declaration) × (slice_get (values t.by_code) i ≡ Some d)
        × (a ≡ abbreviation_of a.first_attribute d)
        × (take a.attribute_count (drop a.first_attribute (attributes_of t))
        ≡ map attribute_of d.attributes) }
{}

/// A number and a value mean exactly one error, or none.
pub fn exactly_one_error(fault: &DwarfFault)
    ensures { HasOne (λ error. Means fault.now error) }
{
    error_of(fault);
}

/// What a unit's header says determines what is written of it, so an offset has at most one unit.
pub fn at_most_one_unit()
    ensures info { (section : Input) (offset : ℕ) (a b : DwarfUnit)
        → TellsUnit (header_in false) section offset a
        → TellsUnit (header_in false) section offset b → a ≡ b }
    ensures types { (section : Input) (offset : ℕ) (a b : DwarfUnit)
        → TellsUnit (header_in true) section offset a
        → TellsUnit (header_in true) section offset b → a ≡ b }
{
    exactly_one_contribution_at_an_offset::<Slice<'_>, InfoFields<Slice<'_>>>();
    exactly_one_contribution_at_an_offset::<Slice<'_>, TypesFields<Slice<'_>>>();
}

/// A contribution at an offset has exactly one extent, or one error: that no length is there, or that
/// its bytes aren't all in the section.
#[tactic(auto, using(crate::proofs::OneExtent::extent_exactly_one))]
pub fn exactly_one_extent()
    ensures { (section : Input) (offset : ℕ) → HasOne (ExtentAt section offset) }
{}

/// A string offset has as many bytes as a word of its format.
pub fn string_offsets_are_words()
    ensures short { offset_size false ≡ word_size Dwarf32 }
    ensures long { offset_size true ≡ word_size Dwarf64 }
{}
