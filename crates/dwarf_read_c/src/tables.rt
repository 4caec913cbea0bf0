//! Abbreviation tables (DWARF 5, 7.5.3).

ghost use Rattle.std.specs.Prelude.{◌≡◌, ◌≢◌, ◌≤◌, ◌<◌, ◌^◌, ◌-◌, ◌/◌, false, Ok, Err, length, map, IfOk, IfErr, IsErrOf, OnOk, ◌⊎◌};
ghost use Rattle.std.specs.FinMap as finite;
ghost use Rattle.dwarf_read_core.specs.Answer.{Answer, Answers, DeclarationsEndAt, FitsIn, TableEndsAt, TakesNoMemory};
ghost use Rattle.dwarf_fault.specs.Fault.{error_number};
ghost use Rattle.dwarf_read_core.specs.Grammar.{Table, attribute_count};
ghost use Rattle.dwarf_read_c.specs.Fault.{Rejects};
ghost use Rattle.dwarf_read_c.specs.Room.{Fills};
ghost use Rattle.dwarf_read_c.specs.Sections.{section_of};
ghost use Rattle.dwarf_read_c.specs.Tables.{LacksRoom, Measures, MeasuresBefore, abbreviations_of, attributes_of, measure_of};

use crate::rows::{DwarfAbbreviation, DwarfAttributeSpec, DwarfMeasure};
use crate::status::{DWARF_NO_ROOM, DWARF_OK};
use crate::table_rows::TableRows;
use dwarf_fault::{DwarfFault, reject};
use dwarf_read_core::{DebugAbbrev, DebugAbbrevOffset, Error, LittleEndian, RunTimeEndian};
use std::alloc::Global;

/// Measures the table at `offset` of `.debug_abbrev`: how many abbreviations and attributes it has,
/// where it ends, and what closes it.
///
/// With an error, `measure` is that of the abbreviations before it: how many they are, how many
/// attributes they have, and the offset at which the one with the error begins. It is left unchanged
/// if `offset` is past the section's end, or if memory runs out.
///
/// # Errors
///
/// If the bytes from `offset` on don't begin with a table, their first error:
///
/// - 1 (`UnexpectedEof`) at 0 if `offset` is past the end, and at the section's end if a
///   declaration is cut short;
/// - 2 (`BadUnsignedLeb128`) for a code that is too long or doesn't fit `u64`, or for a tag, name or
///   form that is too long or doesn't fit `u16` ([the limits](dwarf_read_core::leb128));
/// - 3 (`BadSignedLeb128`) for a value that is too long or doesn't fit `i64`;
/// - 4 to 7 for a field that no declaration has: a tag of 0, a byte for children other than 0 and
///   1, a name of 0 with a form other than 0, or a form of 0 with another name;
/// - 8 (`DuplicateAbbreviationCode`) for a whole declaration with the code of an earlier one.
///
/// 18 (`OutOfMemory`) if memory for the table runs out.
#[unsafe(no_mangle)]
#[tactic(auto, using(crate::proofs::KnownErrors::known_table, crate::proofs::KnownErrors::memory_number))]
pub extern "C" fn dwarf_table_measure_0_3(
    mem: Global,
    section: &[u8],
    offset: usize,
    measure: &mut DwarfMeasure,
    fault: &mut DwarfFault,
) -> u32
    ensures measured { let s = section_of section.now false in result ≡ DWARF_OK
        → (t : Table) × Answer s offset (Ok t) × Measures measure.new s offset t }
    ensures rejected { let s = section_of section.now false in result ≢ DWARF_OK
        → Rejects (λ e. Answers (Err e) s offset) result fault.new }
    // A table without declarations needs no memory.
    ensures memory { TakesNoMemory (section_of section.now false) offset
        → result ≢ error_number Error.OutOfMemory }
    ensures before { let s = section_of section.now false in
        result ≢ DWARF_OK → result ≢ error_number Error.OutOfMemory → offset ≤ length section.now
        → (t : Table) × MeasuresBefore measure.new s offset t }
    ensures no_measure { result ≢ DWARF_OK
        → (result ≡ error_number Error.OutOfMemory) ⊎ (length section.now < offset)
        → measure.new ≡ measure.old }
    ensures no_fault { result ≡ DWARF_OK → fault.new ≡ fault.old }
{
    match table_at(mem, section, offset) {
        Ok((table, end)) => {
            *measure = table.measure(end);
            DWARF_OK
        }
        Err(error) => reject_table(mem, section, offset, error, measure, fault),
    }
}

/// Reads the table at `offset` of `.debug_abbrev`: its abbreviations in the order of their codes,
/// and the attributes of all of them in the same order. `measure` is what [`dwarf_table_measure_0_3`]
/// writes, with an error, too. Elements after them are left unchanged.
///
/// If an array is too short, only `measure` is written, and the call returns `DWARF_NO_ROOM`. It
/// doesn't if there is room for an abbreviation for every five bytes from `offset` on, and for an
/// attribute for every two: none has fewer bytes.
///
/// # Errors
///
/// Those of [`dwarf_table_measure_0_3`].
#[unsafe(no_mangle)]
#[tactic(auto, using(crate::proofs::KnownErrors::known_table, crate::proofs::KnownErrors::memory_number))]
pub extern "C" fn dwarf_table_read_0_3(
    mem: Global,
    section: &[u8],
    offset: usize,
    abbreviations: &mut [DwarfAbbreviation],
    attributes: &mut [DwarfAttributeSpec],
    measure: &mut DwarfMeasure,
    fault: &mut DwarfFault,
) -> u32
    ensures read { let s = section_of section.now false in result ≡ DWARF_OK
        → (t : Table) × Answer s offset (Ok t) × Measures measure.new s offset t
        × Fills (abbreviations_of t) abbreviations.old abbreviations.new
        × Fills (attributes_of t) attributes.old attributes.new }
    ensures full { let s = section_of section.now false in result ≡ DWARF_NO_ROOM
        → (t : Table) × Answer s offset (Ok t) × Measures measure.new s offset t
        × LacksRoom measure.new (length abbreviations.old) (length attributes.old)
        × (fault.new ≡ fault.old) }
    ensures room { let left = length section.now - offset in
        left / 5 ≤ length abbreviations.old → left / 2 ≤ length attributes.old
        → result ≢ DWARF_NO_ROOM }
    ensures rejected { let s = section_of section.now false in
        result ≢ DWARF_OK → result ≢ DWARF_NO_ROOM
        → Rejects (λ e. Answers (Err e) s offset) result fault.new }
    ensures before { let s = section_of section.now false in result ≢ DWARF_OK
        → result ≢ DWARF_NO_ROOM → result ≢ error_number Error.OutOfMemory
        → offset ≤ length section.now → (t : Table) × MeasuresBefore measure.new s offset t }
    ensures no_measure { result ≢ DWARF_OK → result ≢ DWARF_NO_ROOM
        → (result ≡ error_number Error.OutOfMemory) ⊎ (length section.now < offset)
        → measure.new ≡ measure.old }
    ensures memory { TakesNoMemory (section_of section.now false) offset
        → result ≢ error_number Error.OutOfMemory }
    ensures no_items { result ≢ DWARF_OK
        → (abbreviations.new ≡ abbreviations.old) × (attributes.new ≡ attributes.old) }
    ensures no_fault { result ≡ DWARF_OK → fault.new ≡ fault.old }
{
    let (table, end) = match table_at(mem, section, offset) {
        Ok(found) => found,
        Err(error) => return reject_table(mem, section, offset, error, measure, fault),
    };
    put_table(&table, end, abbreviations, attributes, measure)
}

// Returns the table at an offset, and where it ends.
fn table_at(mem: Global, section: &[u8], offset: usize) -> Result<(TableRows, usize), Error>
    ensures answer { let s = section_of section.now false in
        IfOk result (λ r. Answer s offset (Ok r.0) × TableEndsAt s offset r.0 r.1) }
    ensures err { IfErr result (λ e. Answers (Err e) (section_of section.now false) offset) }
    ensures bound { IfOk result (λ r. FitsIn (section_of section.now false) offset r.0) }
    ensures memory { TakesNoMemory (section_of section.now false) offset
        → IsErrOf result Error.OutOfMemory → ⊥ }
{
    let section = DebugAbbrev::new(section, LittleEndian);
    let (table, end) = section.abbreviations_into(mem, DebugAbbrevOffset(offset))?;
    Ok((table, end.0))
}

// Writes the error of a table, and the measure of the abbreviations before it. It is out of line, since
// it reads them once more.
#[inline(never)]
#[tactic(auto, using(crate::proofs::KnownErrors::known_table, crate::proofs::KnownErrors::memory_number))]
fn reject_table(
    mem: Global,
    section: &[u8],
    offset: usize,
    error: Error,
    measure: &mut DwarfMeasure,
    fault: &mut DwarfFault,
) -> u32
    requires error { Answers (Err error) (section_of section.now false) offset }
    requires memory { TakesNoMemory (section_of section.now false) offset
        → error ≢ Error.OutOfMemory }
    ensures nonzero { 0 < result }
    ensures rejected { let s = section_of section.now false in
        Rejects (λ e. Answers (Err e) s offset) result fault.new }
    ensures before { let s = section_of section.now false in
        result ≢ error_number Error.OutOfMemory → offset ≤ length section.now
        → (t : Table) × MeasuresBefore measure.new s offset t }
    ensures no_measure { (result ≡ error_number Error.OutOfMemory) ⊎ (length section.now < offset)
        → measure.new ≡ measure.old }
    ensures memory { TakesNoMemory (section_of section.now false) offset
        → result ≢ error_number Error.OutOfMemory }
{
    if let Error::OutOfMemory = error {
        return reject(Error::OutOfMemory, fault);
    }
    match table_before(mem, section, offset, &error) {
        Ok((before, end)) => {
            *measure = before.measure(end);
            reject(error, fault)
        }
        Err(error) => reject(error, fault),
    }
}

// Returns the abbreviations before an error of the table at an offset, and where they end. The reader
// is of another type than that of `table_at`, for which the compiler then inlines the parser.
fn table_before(
    mem: Global,
    section: &[u8],
    offset: usize,
    error: &Error,
) -> Result<(TableRows, usize), Error>
    ensures end { let s = section_of section.now false in
        IfOk result (λ r. DeclarationsEndAt s offset r.0 r.1) }
    ensures within { OnOk result (offset ≤ length section.now) }
    ensures err { IfErr result (λ e. Answers (Err e) (section_of section.now false) offset) }
    ensures other { IfErr result (λ e. e ≢ Error.OutOfMemory → offset ≤ length section.now
        → error.now ≢ e) }
    ensures memory { TakesNoMemory (section_of section.now false) offset
        → IsErrOf result Error.OutOfMemory → ⊥ }
{
    let section = DebugAbbrev::new(section, RunTimeEndian::Little);
    let (table, end) = section.abbreviations_before(mem, DebugAbbrevOffset(offset), error)?;
    Ok((table, end.0))
}

// Writes the measure of a table that ends there, and its abbreviations and attributes to the front
// of the arrays. If either is too short, only the measure is written.
fn put_table(
    table: &TableRows,
    end: usize,
    abbreviations: &mut [DwarfAbbreviation],
    attributes: &mut [DwarfAttributeSpec],
    measure: &mut DwarfMeasure,
) -> u32
    ensures measured { measure.new ≡ measure_of table.now end }
    ensures filled { result ≡ DWARF_OK
        → Fills (abbreviations_of table.now) abbreviations.old abbreviations.new
        × Fills (attributes_of table.now) attributes.old attributes.new }
    ensures full { result ≢ DWARF_OK → (result ≡ DWARF_NO_ROOM)
        × LacksRoom measure.new (length abbreviations.old) (length attributes.old)
        × (abbreviations.new ≡ abbreviations.old) × (attributes.new ≡ attributes.old) }
{
    *measure = table.measure(end);
    if abbreviations.len() < measure.abbreviations || attributes.len() < measure.attributes {
        return DWARF_NO_ROOM;
    }
    table.fill(abbreviations, attributes);
    DWARF_OK
}
