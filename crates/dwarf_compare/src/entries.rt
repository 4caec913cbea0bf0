//! The entries of units, as numbers, and loops over them, to be measured.

ghost use Rattle.std.specs.Prelude.{◌+◌, ◌≤◌, length, OnOk};

use crate::readers::put;
use dwarf_entry_core::{Attribute, AttributeValue, EntriesRaw};
use dwarf_read_core::{
    Abbreviations, AttributeSpecification, BigEndian, DebugAbbrev, DebugAbbrevOffset, EndianSlice,
    LittleEndian, Reader, ReaderOffset, Result, RunTimeEndian,
};
use dwarf_unit_core::{DebugInfo, UnitHeader};
use dwarf_uses::OwnedReader;
use std::alloc::Global;

/// The request of a call. `reader` is as in `readers.rt`. If `skips` isn't 0, attributes are skipped.
#[repr(C)]
#[derive(Clone, Copy)]
pub struct AskedEntries {
    pub reader: u32,
    pub is_big: u32,
    pub skips: u32,
}

// Numbers, of which the first are kept, as many as there is room for.
#[derive(Drop)]
struct Numbers<'a> {
    kept: &'a mut [u64],
    count: usize,
}

impl<'a> Numbers<'a> {
    fn push(&mut self, number: u64) {
        if self.count < self.kept.len() {
            self.kept[self.count] = number;
        }
        self.count = self.count.wrapping_add(1);
    }
}

/// Writes what the entries of the units of `.debug_info` are. Returns 0 if there is no error, and
/// otherwise how many bytes the error's text has, of which `text` gets as many as fit, or
/// `usize::MAX` if memory for the text runs out.
///
/// `numbers` gets as many as fit of `count`: for each entry 1, its offset in the unit, the code of its
/// abbreviation, and how many attributes it has, and for each of these its name, its form, the kind
/// of its value, and the value in two numbers. After the entries of a unit come 0, and the offset
/// where the next one would begin. An error ends the list: the attributes from it on are missing.
#[unsafe(no_mangle)]
pub extern "C" fn compare_entries(
    mem: Global,
    info: &[u8],
    abbrev: &[u8],
    asked: &AskedEntries,
    numbers: &mut [u64],
    count: &mut usize,
    text: &mut [u8],
) -> usize {
    let mut to = Numbers {
        kept: numbers,
        count: 0,
    };
    let found = by_reader(mem, info, abbrev, *asked, &mut to);
    *count = to.count;
    match found {
        Ok(()) => 0,
        Err(error) => match format!(in mem; "{error:?}") {
            Ok(shown) => put(shown.as_bytes(), text),
            Err(_) => usize::MAX,
        },
    }
}

fn by_reader(
    mem: Global,
    info: &[u8],
    abbrev: &[u8],
    asked: AskedEntries,
    to: &mut Numbers<'_>,
) -> Result<()> {
    let order = match asked.is_big {
        0 => RunTimeEndian::Little,
        _ => RunTimeEndian::Big,
    };
    let skips = asked.skips != 0;
    let tables = &DebugAbbrev::new(abbrev, LittleEndian);
    match (asked.reader, asked.is_big) {
        (0, 0) => units(mem, EndianSlice::new(info, LittleEndian), tables, skips, to),
        (0, _) => units(mem, EndianSlice::new(info, BigEndian), tables, skips, to),
        (1, _) => units(mem, EndianSlice::new(info, order), tables, skips, to),
        _ => {
            let bytes = Vec::from_slice(mem, info)?;
            let input = OwnedReader::new(mem, bytes, order, u8::MAX)?;
            units(mem, input, tables, skips, to)
        }
    }
}

// All units of a section.
fn units<R: Reader>(
    mem: Global,
    info: R,
    tables: &DebugAbbrev<EndianSlice<'_, LittleEndian>>,
    skips: bool,
    to: &mut Numbers<'_>,
) -> Result<()> {
    for unit in DebugInfo::from(info).units()? {
        let unit = unit?;
        let offset = usize::from_u64(unit.debug_abbrev_offset().0.into_u64())?;
        let table = tables.abbreviations(mem, DebugAbbrevOffset(offset))?;
        entries(&unit, &table, skips, to)?;
    }
    Ok(())
}

// All entries of a unit.
fn entries<R: Reader>(
    unit: &UnitHeader<R>,
    table: &Abbreviations,
    skips: bool,
    to: &mut Numbers<'_>,
) -> Result<()> {
    let mut entries = EntriesRaw::new(unit, table)?;
    while !entries.is_empty() {
        if let Err(error) = entry(&mut entries, skips, to) {
            end(&entries, to);
            return Err(error);
        }
    }
    end(&entries, to);
    Ok(())
}

// Where the next entry would begin.
fn end<R: Reader>(entries: &EntriesRaw<'_, R>, to: &mut Numbers<'_>) {
    to.push(0);
    to.push(entries.next_offset().0.into_u64());
}

// The next entry.
fn entry<R: Reader>(
    entries: &mut EntriesRaw<'_, R>,
    skips: bool,
    to: &mut Numbers<'_>,
) -> Result<()>
    ensures bound { let old = (R.view entries.old.input).bytes in
        OnOk result (length (R.view entries.new.input).bytes + 1 ≤ length old) }
{
    let offset = entries.next_offset().0.into_u64();
    let Some(abbreviation) = entries.read_abbreviation()? else {
        head(to, offset, 0, 0);
        return Ok(());
    };
    let specs = abbreviation.attributes();
    if skips {
        head(to, offset, abbreviation.code(), 0);
        return entries.skip_attributes(specs);
    }
    head(to, offset, abbreviation.code(), specs.len());
    attributes(entries, specs, to)
}

fn head(to: &mut Numbers<'_>, offset: u64, code: u64, attributes: usize) {
    to.push(1);
    to.push(offset);
    to.push(code);
    to.push(attributes as u64);
}

fn attributes<R: Reader>(
    entries: &mut EntriesRaw<'_, R>,
    specs: &[AttributeSpecification],
    to: &mut Numbers<'_>,
) -> Result<()>
    ensures bound { let old = (R.view entries.old.input).bytes in
        OnOk result (length (R.view entries.new.input).bytes ≤ length old) }
{
    for spec in specs {
        let attribute = entries.read_attribute(*spec)?;
        let (kind, low, high) = shown(&attribute);
        to.push(u64::from(attribute.name.0));
        to.push(u64::from(attribute.form.0));
        to.push(kind);
        to.push(low);
        to.push(high);
    }
    Ok(())
}

// The kind of a value by its number in `KINDS` of `compare/src/question.rs`, and the value: a number,
// or of bytes the position and how many there are.
fn shown<R: Reader>(attribute: &Attribute<R, R::Offset>) -> (u64, u64, u64) {
    match &attribute.value {
        AttributeValue::Addr(x) => (0, *x, 0),
        AttributeValue::Block(x) => (1, x.offset_id().0, x.len().into_u64()),
        AttributeValue::Data1(x) => (2, u64::from(*x), 0),
        AttributeValue::Data2(x) => (3, u64::from(*x), 0),
        AttributeValue::Data4(x) => (4, u64::from(*x), 0),
        AttributeValue::Data8(x) => (5, *x, 0),
        AttributeValue::Data16(x) => (6, (*x % (1 << 64)) as u64, (*x >> 64) as u64),
        AttributeValue::Sdata(x) => (7, x.cast_unsigned(), 0),
        AttributeValue::Udata(x) => (8, *x, 0),
        AttributeValue::Exprloc(x) => (9, x.offset_id().0, x.len().into_u64()),
        AttributeValue::Flag(x) => (10, u64::from(*x), 0),
        AttributeValue::SecOffset(x) => (11, x.into_u64(), 0),
        AttributeValue::UnitRef(x) => (12, x.0.into_u64(), 0),
        AttributeValue::DebugInfoRef(x) => (13, x.0.into_u64(), 0),
        AttributeValue::DebugInfoRefSup(x) => (14, x.0.into_u64(), 0),
        AttributeValue::DebugTypesRef(x) => (15, x.0, 0),
        AttributeValue::DebugStrRef(x) => (16, x.0.into_u64(), 0),
        AttributeValue::DebugStrRefSup(x) => (17, x.0.into_u64(), 0),
        AttributeValue::DebugLineStrRef(x) => (18, x.0.into_u64(), 0),
        AttributeValue::DebugStrOffsetsIndex(x) => (19, x.0.into_u64(), 0),
        AttributeValue::DebugAddrIndex(x) => (20, x.0.into_u64(), 0),
        AttributeValue::DebugLocListsIndex(x) => (21, x.0.into_u64(), 0),
        AttributeValue::DebugRngListsIndex(x) => (22, x.0.into_u64(), 0),
        AttributeValue::String(x) => (23, x.offset_id().0, x.len().into_u64()),
    }
}

/// Reads all entries of all units with all their attributes, and returns a sum of what these are, or
/// 0 for an error.
#[unsafe(no_mangle)]
pub extern "C" fn compare_entries_read(mem: Global, info: &[u8], abbrev: &[u8]) -> u64 {
    sum_of_units(mem, info, abbrev, false).unwrap_or(0)
}

/// The same without the attributes, which are skipped.
#[unsafe(no_mangle)]
pub extern "C" fn compare_entries_skipped(mem: Global, info: &[u8], abbrev: &[u8]) -> u64 {
    sum_of_units(mem, info, abbrev, true).unwrap_or(0)
}

fn sum_of_units(mem: Global, info: &[u8], abbrev: &[u8], skips: bool) -> Result<u64> {
    let tables = DebugAbbrev::new(abbrev, LittleEndian);
    let mut sum: u64 = 0;
    for unit in DebugInfo::new(info, LittleEndian).units()? {
        let unit = unit?;
        let table = tables.abbreviations(mem, unit.debug_abbrev_offset())?;
        let of_unit = if skips {
            sum_skipped(&unit, &table)?
        } else {
            sum_read(&unit, &table)?
        };
        sum = sum.wrapping_add(of_unit);
    }
    Ok(sum)
}

// What a value counts as: bytes as how many they are.
#[inline(always)]
fn number_of(value: AttributeValue<Slice<'_>, usize>) -> u64 {
    match value {
        AttributeValue::Addr(x) | AttributeValue::Data8(x) | AttributeValue::Udata(x) => x,
        AttributeValue::Block(x) | AttributeValue::Exprloc(x) | AttributeValue::String(x) => {
            x.len() as u64
        }
        AttributeValue::Data1(x) => u64::from(x),
        AttributeValue::Data2(x) => u64::from(x),
        AttributeValue::Data4(x) => u64::from(x),
        AttributeValue::Data16(_) => 16,
        AttributeValue::Sdata(x) => x.cast_unsigned(),
        AttributeValue::Flag(x) => u64::from(x),
        AttributeValue::SecOffset(x) => x as u64,
        AttributeValue::UnitRef(x) => x.0 as u64,
        AttributeValue::DebugInfoRef(x) | AttributeValue::DebugInfoRefSup(x) => x.0 as u64,
        AttributeValue::DebugTypesRef(x) => x.0,
        AttributeValue::DebugStrRef(x) | AttributeValue::DebugStrRefSup(x) => x.0 as u64,
        AttributeValue::DebugLineStrRef(x) => x.0 as u64,
        AttributeValue::DebugStrOffsetsIndex(x) => x.0 as u64,
        AttributeValue::DebugAddrIndex(x) => x.0 as u64,
        AttributeValue::DebugLocListsIndex(x) => x.0 as u64,
        AttributeValue::DebugRngListsIndex(x) => x.0 as u64,
    }
}

type Slice<'a> = EndianSlice<'a, LittleEndian>;

fn sum_read(unit: &UnitHeader<Slice<'_>>, table: &Abbreviations) -> Result<u64> {
    let mut sum: u64 = 0;
    let mut entries = EntriesRaw::new(unit, table)?;
    while !entries.is_empty() {
        if let Some(abbreviation) = entries.read_abbreviation()? {
            sum = sum.wrapping_add(u64::from(abbreviation.tag().0));
            for spec in abbreviation.attributes() {
                let attribute = entries.read_attribute(*spec)?;
                sum = sum
                    .wrapping_add(number_of(attribute.value))
                    .wrapping_add(u64::from(attribute.name.0));
            }
        }
    }
    Ok(sum)
}

fn sum_skipped(unit: &UnitHeader<Slice<'_>>, table: &Abbreviations) -> Result<u64> {
    let mut sum: u64 = 0;
    let mut entries = EntriesRaw::new(unit, table)?;
    while !entries.is_empty() {
        if let Some(abbreviation) = entries.read_abbreviation()? {
            sum = sum.wrapping_add(u64::from(abbreviation.tag().0));
            entries.skip_attributes(abbreviation.attributes())?;
        }
    }
    Ok(sum)
}
