//! The small callers, on worked sections.

use super::worked::{FOUR_ADDRESSES, STRINGS, THREE, TWO_SETS, UNIT};
use super::{check_bytes, little, same};
use dwarf_read_core::constants::{DW_TAG_compile_unit, DwTag};
use dwarf_read_core::{
    Abbreviations, AddrHeader, DebugAbbrev, DebugAbbrevOffset, DebugAddr, DebugStr,
    DebugStrOffsets, DebugStrOffsetsBase, DebugStrOffsetsIndex, Error, Format, Reader,
    ReaderOffset, Result,
};
use dwarf_uses::callers::{
    addresses_in, all_tables, first_tag, string_by_index, table_lengths, tag_of,
};
use dwarf_uses::calling::read_core::table_text;
use dwarf_uses::parts::{clone_is_equal, split_ten};
use std::alloc::Global;
use std::process::Abort;

fn check_tags(rt: &impl Abort, table: &Abbreviations) {
    let none: Option<DwTag> = None;
    same(rt, tag_of(table, 1), Some(DW_TAG_compile_unit), "code 1");
    same(rt, tag_of(table, 2), none, "code 2");
}

// Ends the test where the table at 0 isn't the one of one unit.
fn check_unit<R: Reader>(rt: &impl Abort, mem: Global, section: &DebugAbbrev<R>) -> Result<()> {
    let offset = DebugAbbrevOffset(R::Offset::from_u8(0));
    check_tags(rt, &section.abbreviations(mem, offset)?);
    check_text(rt, &table_text(mem, section, offset)?);
    Ok(())
}

fn check_text(rt: &impl Abort, text: &str) {
    let wanted = "1 DW_TAG_compile_unit\n  DW_AT_name DW_FORM_string\n";
    same(rt, text, wanted, "text");
}

const UNITS: &[DebugAbbrevOffset<usize>] = &[
    DebugAbbrevOffset(0),
    DebugAbbrevOffset(5),
    DebugAbbrevOffset(0),
];

// Ends the test where the tables at 0, at 5, and at 0 again don't have three, two and three declarations.
fn check_lengths<R: Reader<Offset = usize>>(
    rt: &impl Abort,
    mem: Global,
    section: &DebugAbbrev<R>,
) -> Result<()> {
    let lengths = table_lengths(mem, section, UNITS)?;
    same(rt, lengths.as_slice(), [3, 2, 3].as_slice(), "lengths");
    Ok(())
}

// A declaration and a code of value 0, one more such code, and two declarations.
const THREE_TABLES: &[u8] = b"\x01\x11\0\0\0\0\0\x01\x11\0\0\0\x02\x11\0\0\0";

// Bytes, the tag of code 1 in the first of their tables, the lengths of all, and the outcome: after
// the table of one unit a number is cut.
#[rattlefmt::skip]
static ALL: &[(&[u8], Result<Option<DwTag>>, &[usize], Result<()>)] = &[
    (THREE_TABLES, Ok(Some(DW_TAG_compile_unit)), &[1, 0, 2], Ok(())),
    (UNIT, Ok(Some(DW_TAG_compile_unit)), &[], Err(eof!(9))),
    (b"\x02\x11\0\0\0\0", Ok(None), &[1], Ok(())),
    (b"\x01\0", Err(Error::AbbreviationTagZero), &[], Err(Error::AbbreviationTagZero)),
    (b"", Ok(None), &[], Ok(())),
];

// Ends the test unless the tables of a section have these lengths.
fn check_all(rt: &impl Abort, mem: Global, bytes: &[u8], wanted: &[usize]) -> Result<()> {
    let tables = all_tables(mem, bytes)?;
    same(rt, tables.len(), wanted.len(), "how many tables");
    for (table, len) in tables.iter().zip(wanted) {
        same(rt, table.len(), *len, "a table");
    }
    Ok(())
}

// Ends the test unless the callers that walk one section find its tables.
fn check_walks<R: Reader<Offset = usize>>(rt: &impl Abort, mem: Global, unit: R, three: R) {
    let unit = check_unit(rt, mem, &unit.into());
    same(rt, unit, Ok(()), "a unit");
    let lengths = check_lengths(rt, mem, &three.into());
    same(rt, lengths, Ok(()), "lengths");
}

#[test]
fn tables_are_walked(rt: HostRuntime) {
    check_walks(&rt, rt.alloc(), little(UNIT), little(THREE));
    for (bytes, tag, wanted, outcome) in ALL {
        same(&rt, first_tag(rt.alloc(), bytes), *tag, bytes);
        let checked = check_all(&rt, rt.alloc(), bytes, wanted);
        same(&rt, checked, *outcome, bytes);
    }
}

const OFFSETS: &[u8] = b"\x0c\0\0\0\x05\0\0\0\0\0\0\0\x04\0\0\0";

// Ends the test where the string at index 1 isn't the second.
fn check_string<R: Reader>(
    rt: &impl Abort,
    offsets: &DebugStrOffsets<R>,
    strings: &DebugStr<R>,
) -> Result<()> {
    let base = DebugStrOffsetsBase(R::Offset::from_u8(8));
    let index = DebugStrOffsetsIndex(R::Offset::from_u8(1));
    let string = string_by_index(offsets, strings, Format::Dwarf32, base, index)?;
    check_bytes(rt, &string, b"two")
}

// Appends the addresses of a set.
fn append<R: Reader>(mem: Global, set: Result<AddrHeader<R>>, found: &mut Vec<u64>) -> Result<()> {
    Ok(found.extend_from_slice(&addresses_in(mem, &set?)?)?)
}

// Appends the addresses of all sets.
fn append_all<R: Reader>(mem: Global, sets: &DebugAddr<R>, found: &mut Vec<u64>) -> Result<()> {
    for header in sets.headers()? {
        append(mem, header, found)?;
    }
    Ok(())
}

fn check_sets<R: Reader>(rt: &impl Abort, mem: Global, sets: &DebugAddr<R>) {
    let mut found = Vec::new(mem);
    same(rt, append_all(mem, sets, &mut found), Ok(()), "addresses");
    let wanted = FOUR_ADDRESSES.as_slice();
    same(rt, found.as_slice(), wanted, "addresses");
}

#[test]
fn sections_are_looked_up(rt: HostRuntime) {
    let string = check_string(&rt, &little(OFFSETS).into(), &little(STRINGS).into());
    same(&rt, string, Ok(()), "a string");
    check_sets(&rt, rt.alloc(), &little(TWO_SETS).into());
}

#[test]
fn parts_are_cut(rt: HostRuntime) {
    let bytes = b"0123456789";
    let wanted = (b"012".as_slice(), b"3456789".as_slice());
    same(&rt, split_ten(bytes), wanted, "three and seven");
    same(&rt, clone_is_equal(&little(bytes)), Ok(true), "a clone");
}
