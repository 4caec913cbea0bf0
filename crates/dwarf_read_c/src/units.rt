//! The headers of units (DWARF 5, 7.5.1).

ghost use Rattle.std.specs.Prelude.{◌≡◌, ◌≢◌, ◌↔◌, ◌-◌, ◌^◌, true, length, Err, IfErr, OnErr, OnOk};
ghost use Rattle.dwarf_read_core.specs.Contributions.{ContributionAtOffset};
ghost use Rattle.dwarf_unit_core.specs.Fields.{unit_header};
ghost use Rattle.dwarf_read_c.specs.Extents.{StepsOver};
ghost use Rattle.dwarf_read_c.specs.Fault.{Rejects};
ghost use Rattle.dwarf_read_c.specs.Sections.{section_of};
ghost use Rattle.dwarf_read_c.specs.Units.{TellsUnit, header_in, identifier, type_number, type_place};

use crate::headers::header_at;
use crate::sections::order;
use crate::status::{DWARF_END, DWARF_OK};
use dwarf_fault::{DwarfFault, reject};
use dwarf_read_core::{EndianSlice, Error, Reader, RunTimeEndian};
use dwarf_unit_core::{DebugInfo, DebugTypes, SectionFields, UnitSection, UnitType};

type Slice<'a> = EndianSlice<'a, RunTimeEndian>;

/// What the header of a unit says.
#[repr(C)]
#[derive(Clone, Copy)]
pub struct DwarfUnit {
    /// Where the next unit may begin: the end of this one.
    pub next: usize,
    /// How many bytes of the unit follow its initial length.
    pub unit_length: usize,
    /// The offset of the unit's first entry.
    pub first_entry: usize,
    /// Where the unit's table begins in `.debug_abbrev`.
    pub abbrev_offset: usize,
    /// The signature of the type that a type unit defines, or the identifier that a skeleton unit
    /// shares with its split unit. It is 0 for units of other types.
    pub identifier: u64,
    /// Where a type unit defines its type, from the unit's start. It is 0 for units of other types.
    pub type_offset: usize,
    /// From 2 to 5.
    pub version: u16,
    /// The number of the unit's type, from 1 (`DW_UT_compile`) to 6 (`DW_UT_split_type`). A unit
    /// before version 5 is 1 in `.debug_info`, and 2 (`DW_UT_type`) in `.debug_types`.
    pub unit_type: u8,
    /// How many bytes an address has: 1, 2, 4 or 8.
    pub address_size: u8,
    /// How many bytes an offset has in the unit's format: 4 or 8.
    pub word_size: u8,
}

/// Reads the header of the unit at `offset` of `.debug_types` if `is_types` is set, and else of
/// `.debug_info`. Its entries follow from `first_entry` up to `next`.
///
/// Returns `DWARF_END`, and writes nothing, if `offset` is the section's end.
///
/// # Errors
///
/// Those that `dwarf_read.h` lists, in that order. With an error of a field, `next` and `unit_length`
/// are written, and nothing else of the unit; with any other, nothing is.
#[unsafe(no_mangle)]
pub extern "C" fn dwarf_unit_header(
    section: &[u8],
    is_big: bool,
    is_types: bool,
    offset: usize,
    unit: &mut DwarfUnit,
    fault: &mut DwarfFault,
) -> u32
    ensures found { let s = section_of section.now is_big in
        result ≡ DWARF_OK → TellsUnit (header_in is_types) s offset unit.new }
    ensures end { (result ≡ DWARF_END) ↔ (offset ≡ length section.now) }
    ensures end_fault { result ≡ DWARF_END → fault.new ≡ fault.old }
    ensures rejected { let s = section_of section.now is_big in
        result ≢ DWARF_OK → result ≢ DWARF_END
        → Rejects (λ e. ContributionAtOffset (header_in is_types) (2 ^ 64 - 1) s offset (Err e))
        result fault.new }

    // An error of a field says where the next unit may begin. No error writes anything else.
    ensures stepped { let s = section_of section.now is_big in
        result ≢ DWARF_OK → result ≢ DWARF_END → StepsOver s offset
        (unit.old.next, unit.old.unit_length) (unit.new.next, unit.new.unit_length) }
    ensures kept { result ≢ DWARF_OK → unit.new
        ≡ record unit.old { next = unit.new.next; unit_length = unit.new.unit_length } }
    ensures no_unit { result ≡ DWARF_END → unit.new ≡ unit.old }
    ensures no_fault { result ≡ DWARF_OK → fault.new ≡ fault.old }
{
    if offset == section.len() {
        return DWARF_END;
    }
    let section = EndianSlice::new(section, order(is_big));
    let found = if is_types {
        unit_at::<_, DebugTypes<Slice<'_>>>(section, offset, unit)
    } else {
        unit_at::<_, DebugInfo<Slice<'_>>>(section, offset, unit)
    };
    match found {
        Ok(()) => DWARF_OK,
        Err(error) => reject(error, fault),
    }
}

// Writes the unit at an offset of a section; with an error, where it ends, if all of it is there.
fn unit_at<R: Reader<Offset = usize>, U: UnitSection>(
    section: R,
    offset: usize,
    unit: &mut DwarfUnit,
) -> Result<(), Error>
    requires clones { R.clone_is_free ≡ true }
    ensures found { let s = R.view section in
        OnOk result (TellsUnit (unit_header U.TYPE_BEFORE_5.0) s offset unit.new) }
    ensures err { let s = R.view section in let header = unit_header U.TYPE_BEFORE_5.0 in
        IfErr result (λ e. ContributionAtOffset header (2 ^ 64 - 1) s offset (Err e)) }
    ensures stepped { StepsOver (R.view section) offset
        (unit.old.next, unit.old.unit_length) (unit.new.next, unit.new.unit_length) }
    ensures kept { OnErr result (unit.new
        ≡ record unit.old { next = unit.new.next; unit_length = unit.new.unit_length }) }
{
    let (format, fields, entries) = header_at::<R, SectionFields<R::Offset, U>>(
        section,
        offset,
        &mut unit.next,
        &mut unit.unit_length,
    )?;
    let fields = fields.0;
    let (unit_type, identifier, type_offset) = type_fields(fields.unit_type);
    *unit = DwarfUnit {
        next: unit.next,
        unit_length: unit.unit_length,
        first_entry: entries.offset_id().0 as usize,
        abbrev_offset: fields.abbrev_offset,
        identifier,
        type_offset,
        version: fields.version,
        unit_type,
        address_size: fields.address_size,
        word_size: format.word_size(),
    };
    Ok(())
}

// The number of a unit's type, what identifies the unit, and where its type is.
fn type_fields(unit_type: UnitType<usize>) -> (u8, u64, usize)
    ensures { result ≡ (type_number unit_type, identifier unit_type, type_place unit_type) }
{
    match unit_type {
        UnitType::Compilation => (1, 0, 0),
        UnitType::Type {
            type_signature,
            type_offset,
        } => (2, type_signature.0, type_offset.0),
        UnitType::Partial => (3, 0, 0),
        UnitType::Skeleton(id) => (4, id.0, 0),
        UnitType::SplitCompilation(id) => (5, id.0, 0),
        UnitType::SplitType {
            type_signature,
            type_offset,
        } => (6, type_signature.0, type_offset.0),
    }
}
