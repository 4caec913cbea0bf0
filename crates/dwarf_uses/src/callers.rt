//! Small callers of the library, to start from. `docs/USING.md` and doc comments quote them.

ghost use Rattle.std.specs.Prelude.{◌≡◌, ◌≢◌, ◌⊎◌, ◌∷◌, ◌++◌, [], ℕ, false, List, length, Ok, Err, IfOk, IfErr, map, option_map};
ghost use Rattle.std.specs.FinMap as finite;
ghost use Rattle.dwarf_read_core.specs.Entries.{RepresentsAddresses};
ghost use Rattle.dwarf_read_core.specs.Format.{word_size};
ghost use Rattle.dwarf_read_core.specs.Grammar.{Table};
ghost use Rattle.dwarf_read_core.specs.Answer.{Answer};
ghost use Rattle.dwarf_read_core.specs.Input.{section_of};
ghost use Rattle.dwarf_read_core.specs.Sections.{debug_abbrev_reader, debug_str_offsets_reader, debug_str_reader};
ghost use Rattle.dwarf_read_core.specs.Contributions.{addresses_of, seen_by};
ghost use Rattle.dwarf_read_core.specs.Strings.{StringAt};
ghost use Rattle.dwarf_read_core.specs.Words.{WordAt, slot};
ghost use Rattle.dwarf_uses.specs.Callers.{AreTablesUpTo, HaveLengths, IsFirstError};

use dwarf_read_core::{
    Abbreviations, AbbreviationsCache, AbbreviationsCacheStrategy, AddrHeader, DebugAbbrev,
    DebugAbbrevOffset, DebugStr, DebugStrOffsets, DebugStrOffsetsBase, DebugStrOffsetsIndex, DwTag,
    Error, Format, LittleEndian, Reader, Result,
};
use std::alloc::Global;

/// Returns the tag of the abbreviation with this code.
pub fn tag_of(table: &Abbreviations, code: u64) -> Option<DwTag>
    ensures { option_map (λ tag. tag.0) result
        ≡ option_map (λ declaration. declaration.tag) (finite.get table.now.by_code code) }
{
    Some(table.get(code)?.tag())
}

/// Returns the tag that code 1 declares in the first table of a `.debug_abbrev` section.
///
/// # Errors
///
/// Those of [`DebugAbbrev::abbreviations`].
pub fn first_tag(mem: Global, bytes: &[u8]) -> Result<Option<DwTag>>
    ensures ok { IfOk result (λ tag. (table : Table)
        × Answer (section_of bytes.now false) 0 (Ok table)
        × (option_map (λ tag. tag.0) tag
        ≡ option_map (λ declaration. declaration.tag) (finite.get table.by_code 1))) }
    ensures err { IfErr result
        (λ e. e ≢ Error.OutOfMemory → Answer (section_of bytes.now false) 0 (Err e)) }
{
    let section = DebugAbbrev::new(bytes, LittleEndian);
    let table = section.abbreviations(mem, DebugAbbrevOffset(0))?;
    Ok(tag_of(&table, 1))
}

/// Returns the tables of a `.debug_abbrev` section, from the first to the last.
///
/// # Errors
///
/// The first error of a table, which is one of [`DebugAbbrev::abbreviations`].
pub fn all_tables(mem: Global, bytes: &[u8]) -> Result<Vec<Abbreviations>>
    ensures ok { let section = section_of bytes.now false in
        IfOk result (λ tables. AreTablesUpTo section tables.items (length bytes.now)) }
    ensures err { let section = section_of bytes.now false in
        IfErr result (λ e. e ≢ Error.OutOfMemory → (tables : List Table) × (offset : ℕ)
        × AreTablesUpTo section tables offset × Answer section offset (Err e)) }
{
    let section = DebugAbbrev::new(bytes, LittleEndian);
    let mut tables = Vec::new(mem);
    let mut offset = 0;
    while offset < bytes.len() {
        let (table, end) = section.abbreviations_and_end(mem, DebugAbbrevOffset(offset))?;
        tables.push(table)?;
        offset = end.0;
    }
    Ok(tables)
}

/// Returns how many abbreviations the table of each unit has. A table that two units share is read
/// once.
///
/// `Duplicates` keeps the tables that more than one unit uses, which is what a reader of all units
/// needs. `All` keeps the others too, which pays if units are read again.
///
/// # Errors
///
/// The error of the first unit at whose offset there is no table.
pub fn table_lengths<R: Reader>(
    mem: Global,
    section: &DebugAbbrev<R>,
    units: &[DebugAbbrevOffset<R::Offset>],
) -> Result<Vec<usize>>
    ensures ok { let bytes = R.view (debug_abbrev_reader section.now) in
        let offsets = map (λ unit. R.Offset.value unit.0) units.now in
        IfOk result (λ lengths. HaveLengths bytes offsets lengths.items) }
    ensures err { let bytes = R.view (debug_abbrev_reader section.now) in
        let offsets = map (λ unit. R.Offset.value unit.0) units.now in
        IfErr result (λ e. e ≢ Error.OutOfMemory → IsFirstError bytes offsets e) }
{
    let mut cache = AbbreviationsCache::new(mem);
    let offsets = units.iter().map(|offset| Ok(*offset));
    cache.populate(AbbreviationsCacheStrategy::Duplicates, section, offsets)?;
    let mut lengths = Vec::new(mem);
    for offset in units {
        lengths.push(cache.get(section, *offset)?.len())?;
    }
    Ok(lengths)
}

/// Returns the string that an attribute of form `DW_FORM_strx` names by its index.
///
/// # Errors
///
/// Those of [`DebugStrOffsets::get_str_offset`] and of [`DebugStr::get_str`].
pub fn string_by_index<R: Reader>(
    offsets: &DebugStrOffsets<R>,
    strings: &DebugStr<R>,
    format: Format,
    base: DebugStrOffsetsBase<R::Offset>,
    index: DebugStrOffsetsIndex<R::Offset>,
) -> Result<R>
    ensures ok { let width = word_size format in
        let place = slot (R.Offset.value base.0) (R.Offset.value index.0) width in
        IfOk result (λ string. (offset : ℕ)
        × WordAt R.Offset.GREATEST (R.view (debug_str_offsets_reader offsets.now)) place (Ok offset)
        × StringAt (R.view (debug_str_reader strings.now)) offset (Ok (R.view string))) }
    ensures err { let width = word_size format in
        let place = slot (R.Offset.value base.0) (R.Offset.value index.0) width in
        IfErr result (λ e. e ≢ Error.OutOfMemory
        → WordAt R.Offset.GREATEST (R.view (debug_str_offsets_reader offsets.now)) place (Err e)
        ⊎ ((offset : ℕ)
        × WordAt R.Offset.GREATEST (R.view (debug_str_offsets_reader offsets.now)) place (Ok offset)
        × StringAt (R.view (debug_str_reader strings.now)) offset (Err e))) }
{
    let offset = offsets.get_str_offset(format, base, index)?;
    strings.get_str(offset)
}

/// Returns the addresses of a set, which a walk over
/// [`DebugAddr::headers`](dwarf_read_core::DebugAddr::headers) gives.
///
/// # Errors
///
/// The set's first error.
pub fn addresses_in<R: Reader>(mem: Global, header: &AddrHeader<R>) -> Result<Vec<u64>>
    ensures ok { let entries = addresses_of (seen_by R.view header.now) in
        IfOk result (λ addresses. RepresentsAddresses entries (map (λ n. Ok n) addresses.items)) }
    ensures err { let entries = addresses_of (seen_by R.view header.now) in
        IfErr result (λ e. e ≢ Error.OutOfMemory → (addresses : List ℕ)
        × RepresentsAddresses entries (map (λ n. Ok n) addresses ++ Err e ∷ [])) }
{
    let mut addresses = Vec::new(mem);
    let mut entries = header.entries()?;
    while let Some(address) = entries.next()? {
        addresses.push(address)?;
    }
    Ok(addresses)
}
