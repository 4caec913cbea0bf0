//! The entries of units.

use super::{Slice, Value, eof, same, shown};
use dwarf_entry_core::AttributeValue::{Data1, DebugStrRef, Flag, Sdata, String, UnitRef};
use dwarf_entry_core::{Attribute, AttributeValue, EntriesRaw};
use dwarf_read_core::Error::{BadUnsignedLeb128, InvalidAbbreviationCode, UnknownForm};
use dwarf_read_core::RunTimeEndian::Little;
use dwarf_read_core::{
    Abbreviations, DebugAbbrev, DebugAbbrevOffset, DebugStrOffset, DwForm, Result, UnitOffset,
};
use dwarf_unit_core::{DebugInfo, DebugTypes, UnitHeader};
use std::alloc::Global;
use std::process::Abort;
use std::test::Fail;

// Abbreviations: 1 has a string and children, 2 a constant of its own, a flag and a reference, 3 no
// attributes, and 4 an unknown form.
const TABLE: &[u8] = b"\x01\x11\x01\x03\x08\0\0\
    \x02\x34\0\x1c\x21\x7d\x3f\x19\x49\x13\0\0\
    \x03\x0f\0\0\0\
    \x04\x24\0\x0b\x0b\x03\x02\0\0\0";

// Where an entry begins in its unit, the code of its abbreviation, and the name, form and value of
// each attribute. A null entry has the code 0.
type Entry = (usize, u64, &'static [(u16, u16, Value<'static>)]);

// The bytes of a section, the entries of its first unit, and the error after them.
type Row = (&'static [u8], &'static [Entry], Result<()>);

// `.debug_info`.
#[rattlefmt::skip]
static INFO: &[Row] = &[
    // No entries
    (b"\x08\0\0\0\x05\0\x01\x08\0\0\0\0", &[], Ok(())),
    // Children, and null entries
    (b"\x12\0\0\0\x05\0\x01\x08\0\0\0\0\x01ab\0\x02\x0c\0\0\0\0",
        &[(12, 1, &[(0x03, 0x08, String(b"ab"))]),
          (16, 2, &[(0x1c, 0x21, Sdata(-3)), (0x3f, 0x19, Flag(true)), (0x49, 0x13, UnitRef(UnitOffset(12)))]),
          (21, 0, &[])], Ok(())),
    (b"\x0c\0\0\0\x05\0\x01\x08\0\0\0\0\0\x83\0\0", &[(12, 0, &[]), (13, 3, &[]), (15, 0, &[])], Ok(())),
    // Offsets count from the unit's start, in each version and format
    (b"\x09\0\0\0\x04\0\0\0\0\0\x08\x03\x03", &[(11, 3, &[]), (12, 3, &[])], Ok(())),
    (b"\xff\xff\xff\xff\x0d\0\0\0\0\0\0\0\x02\0\0\0\0\0\0\0\0\0\x04\x03\x03", &[(23, 3, &[]), (24, 3, &[])], Ok(())),
    (b"\xff\xff\xff\xff\x0d\0\0\0\0\0\0\0\x05\0\x01\x04\0\0\0\0\0\0\0\0\x03", &[(24, 3, &[])], Ok(())),
    (b"\x11\0\0\0\x05\0\x04\x08\0\0\0\0\x01\x02\x03\x04\x05\x06\x07\x08\x03", &[(20, 3, &[])], Ok(())),
    (b"\x11\0\0\0\x05\0\x05\x08\0\0\0\0\x01\x02\x03\x04\x05\x06\x07\x08\x03", &[(20, 3, &[])], Ok(())),
    (b"\x15\0\0\0\x05\0\x06\x08\0\0\0\0\x01\x02\x03\x04\x05\x06\x07\x08\x18\0\0\0\x03", &[(24, 3, &[])], Ok(())),
    (b"\x09\0\0\0\x05\0\x03\x08\0\0\0\0\x03", &[(12, 3, &[])], Ok(())),
    // Codes
    (b"\x0a\0\0\0\x05\0\x01\x08\0\0\0\0\x03\x05", &[(12, 3, &[])], Err(InvalidAbbreviationCode(5))),
    (b"\x0a\0\0\0\x05\0\x01\x08\0\0\0\0\x03\x80", &[(12, 3, &[])], Err(eof!(14))),
    (b"\x12\0\0\0\x05\0\x01\x08\0\0\0\0\xff\xff\xff\xff\xff\xff\xff\xff\xff\x7f", &[], Err(BadUnsignedLeb128)),
    // Attributes
    (b"\x0c\0\0\0\x05\0\x01\x08\0\0\0\0\x03\x01ab", &[(12, 3, &[])], Err(eof!(14))),
    (b"\x0c\0\0\0\x05\0\x01\x08\0\0\0\0\x02\x0c\0\0", &[], Err(eof!(13))),
    (b"\x0a\0\0\0\x05\0\x01\x08\0\0\0\0\x04\x07", &[], Err(UnknownForm(DwForm(2)))),
];

// `.debug_types`.
#[rattlefmt::skip]
static TYPES: &[Row] = &[
    (b"\x14\0\0\0\x04\0\0\0\0\0\x04\x01\x02\x03\x04\x05\x06\x07\x08\x17\0\0\0\x03", &[(23, 3, &[])], Ok(())),
];

// The code of the next entry, and its attributes.
fn next<'a>(
    mem: Global,
    entries: &mut EntriesRaw<'_, Slice<'a>>,
) -> Result<(u64, Vec<Attribute<Slice<'a>, usize>>)> {
    match entries.read_abbreviation()? {
        None => Ok((0, Vec::new(mem))),
        Some(abbreviation) => Ok((
            abbreviation.code(),
            entries.read_attributes(mem, abbreviation.attributes())?,
        )),
    }
}

// Ends the test if the entries aren't those that are wanted.
fn check(
    rt: &impl Abort,
    mem: Global,
    unit: &UnitHeader<Slice<'static>>,
    table: &Abbreviations,
    row: &Row,
) -> Result<()> {
    let (bytes, wanted, end) = row;
    let mut entries = EntriesRaw::new(unit, table)?;
    for (offset, code, attributes) in *wanted {
        same(rt, entries.is_empty(), false, bytes);
        same(rt, entries.next_offset(), UnitOffset(*offset), bytes);
        let (found, list) = next(mem, &mut entries)?;
        same(rt, (found, list.len()), (*code, attributes.len()), bytes);
        for (one, other) in list.iter().zip(attributes.iter()) {
            same(
                rt,
                (one.name.0, one.form.0, shown(one.value)),
                *other,
                bytes,
            );
        }
    }
    if end.is_ok() {
        same(rt, entries.is_empty(), true, bytes);
    } else {
        same(rt, next(mem, &mut entries).map(|_| ()), *end, bytes);
    }
    Ok(())
}

#[test]
fn entries_of_a_unit_are_read(rt: HostRuntime) -> std::result::Result<(), Fail> {
    let mem = rt.alloc();
    let table = DebugAbbrev::new(TABLE, Little).abbreviations(mem, DebugAbbrevOffset(0))?;
    for row in INFO {
        let unit = DebugInfo::new(row.0, Little).units()?.next()?;
        check(&rt, mem, &unit.ok_or("no unit")?, &table, row)?;
    }
    for row in TYPES {
        let unit = DebugTypes::new(row.0, Little).units()?.next()?;
        check(&rt, mem, &unit.ok_or("no unit")?, &table, row)?;
    }
    Ok(())
}

// The offsets in `.debug_str` that the entries of a unit have.
fn strings_of(
    mem: Global,
    unit: &UnitHeader<Slice<'_>>,
    table: &Abbreviations,
) -> Result<Vec<DebugStrOffset<usize>>> {
    let mut offsets = Vec::new(mem);
    let mut entries = EntriesRaw::new(unit, table)?;
    while !entries.is_empty() {
        let Some(abbreviation) = entries.read_abbreviation()? else {
            continue;
        };
        for spec in abbreviation.attributes() {
            let attribute = entries.read_attribute(*spec)?;
            if let AttributeValue::DebugStrRef(offset) = &attribute.value {
                offsets.push(*offset)?;
            }
        }
    }
    Ok(offsets)
}

#[test]
fn strings_of_a_unit_are_found(rt: HostRuntime) -> std::result::Result<(), Fail> {
    let mem = rt.alloc();
    let (abbrev, info) = (
        b"\x01\x11\0\x03\x0e\x0b\x0b\x1b\x0e\0\0\0",
        b"\x13\0\0\0\x05\0\x01\x08\0\0\0\0\x01\x05\0\0\0\x07\x09\0\0\0\0",
    );
    let table = DebugAbbrev::new(abbrev, Little).abbreviations(mem, DebugAbbrevOffset(0))?;
    let unit = DebugInfo::new(info, Little).units()?.next()?;
    let found = strings_of(mem, &unit.ok_or("no unit")?, &table)?;
    same(
        &rt,
        found.as_slice(),
        &[DebugStrOffset(5), DebugStrOffset(9)],
        info,
    );
    Ok(())
}
