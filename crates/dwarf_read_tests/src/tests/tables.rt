//! Abbreviation tables.

use super::worked::{
    Attribute, BARE, CLOSED_TABLE, Declaration, ENDED, ENDED_TABLE, FIVE, IMPLICIT, LONG, MANY,
    MANY_TABLE, NAME, NO_TABLE, SIX, THREE, Table, UNIT, UNIT_TABLE,
};
use super::{end_requests, reader_at, same};
use dwarf_read_core::Error::{
    self, AbbreviationTagZero, AttributeFormZero, AttributeNameZero, BadSignedLeb128,
    BadUnsignedLeb128, DuplicateAbbreviationCode, InvalidAbbreviationChildren, OutOfMemory,
};
use dwarf_read_core::constants::*;
use dwarf_read_core::{
    Abbreviation, Abbreviations, AttributeSpecification, DebugAbbrev, DebugAbbrevOffset, Encoding,
    EndianSlice, Format, LittleEndian, Result,
};
use std::alloc::Global;
use std::fmt::Debug;
use std::process::Abort;
use std::test::Fail;

// The error that a table which ends at a position isn't closed.
macro_rules! unterminated {
    ($position:expr) => {
        dwarf_read_core::Error::UnterminatedAbbreviations(dwarf_read_core::ReaderOffsetId($position))
    };
}

// Two declarations with the code 1.
const TWICE: &[u8] = b"\x01\x11\0\0\0\x01\x11\0\0\0";

// Two declarations after four bytes, and bytes after their table.
const TWO_CODES: &[u8] = b"\x01\x02\x03\x04\x02\x2e\0\x03\x08\0\0\
    \x01\x11\x01\x25\x0e\x13\x05\0\0\0\x05\x06\x07\x08";

// The same, with one code for both.
const SAME_CODES: &[u8] = b"\x01\x02\x03\x04\x01\x2e\0\x03\x08\0\0\
    \x01\x11\x01\x25\x0e\x13\x05\0\0\0\x05\x06\x07\x08";

const PRODUCER: Attribute = (DW_AT_producer, DW_FORM_strp, None);

const LANGUAGE: Attribute = (DW_AT_language, DW_FORM_data2, None);

// An attribute whose value is in the table.
const VALUE: Attribute = (DW_AT_name, DW_FORM_implicit_const, Some(-42));

// The least one.
const LEAST_VALUE: Attribute = (DW_AT_name, DW_FORM_implicit_const, Some(i64::MIN));

// The table at an offset of a section whose first position is this one.
pub(super) fn table_at(
    mem: Global,
    first: u8,
    bytes: &[u8],
    offset: usize,
) -> Result<Abbreviations> {
    let section = DebugAbbrev::from(reader_at(bytes, LittleEndian, first));
    section.abbreviations(mem, DebugAbbrevOffset(offset))
}

fn strict_table_at(mem: Global, first: u8, bytes: &[u8], offset: usize) -> Result<Abbreviations> {
    let section = DebugAbbrev::from(reader_at(bytes, LittleEndian, first));
    section.abbreviations_strict(mem, DebugAbbrevOffset(offset))
}

// Whether a table has these declarations and no others, by rising code and by `get`, and what closes it.
pub(super) fn is_table(table: &Abbreviations, (declarations, is_closed): Table) -> bool {
    let mut found = table.iter();
    for (code, declaration) in declarations {
        let is_next = is_found(found.next(), *code, *declaration);
        if !is_next || !is_found(table.get(*code), *code, *declaration) {
            return false;
        }
    }
    found.next().is_none()
        && table.len() == declarations.len()
        && table.is_empty() == declarations.is_empty()
        && table.closed_by_null() == is_closed
}

fn is_found(found: Option<&Abbreviation>, code: u64, declaration: Declaration) -> bool {
    match found {
        Some(found) => found.code() == code && is_declared(found, declaration),
        None => false,
    }
}

// Whether an abbreviation is declared so, whatever its code.
fn is_declared(found: &Abbreviation, (tag, has_children, attributes): Declaration) -> bool {
    found.tag() == tag
        && found.has_children() == has_children
        && are_attributes(found.attributes(), attributes)
}

fn are_attributes(found: &[AttributeSpecification], wanted: &[Attribute]) -> bool {
    for (found, wanted) in found.iter().zip(wanted) {
        if (found.name(), found.form(), found.implicit_const_value()) != *wanted {
            return false;
        }
    }
    found.len() == wanted.len()
}

// Ends the test where a call returns another table, or another error.
pub(super) fn check_table<W: Debug + Copy>(
    rt: &impl Abort,
    found: Result<&Abbreviations>,
    wanted: Result<Table>,
    what: W,
) {
    match (found, wanted) {
        (Ok(table), Ok(wanted)) => same(rt, is_table(table, wanted), true, what),
        (found, wanted) => same(rt, found.err(), wanted.err(), what),
    }
}

fn check_read(rt: &impl Abort, found: Result<Abbreviations>, wanted: Result<Table>, bytes: &[u8]) {
    match found {
        Ok(table) => check_table(rt, Ok(&table), wanted, bytes),
        Err(error) => check_table(rt, Err(error), wanted, bytes),
    }
}

// The first position, bytes, an offset, and the table there, as `abbreviations` and as `abbreviations_strict` read it.
#[rattlefmt::skip]
static READ: &[(u8, &[u8], usize, Result<Table>, Result<Table>)] = &[
    (0, UNIT, 0, Ok(UNIT_TABLE), Ok(UNIT_TABLE)),
    (0, ENDED, 0, Ok(ENDED_TABLE), Err(unterminated!(5))),
    (0, ENDED, 5, Ok(NO_TABLE), Err(unterminated!(5))),
    (0, ENDED, 6, Err(eof!(0)), Err(eof!(0))),
    (100, ENDED, 0, Ok(ENDED_TABLE), Err(unterminated!(105))),
    (0, b"\x80\0\xaa", 0, Ok(CLOSED_TABLE), Ok(CLOSED_TABLE)),
    (0, b"\x80\0\xaa", 3, Ok(NO_TABLE), Err(unterminated!(3))),
    (0, b"\x80", 0, Err(eof!(1)), Err(eof!(1))),
    (0, TWICE, 0, Err(DuplicateAbbreviationCode(1)), Err(DuplicateAbbreviationCode(1))),
];

#[test]
fn strict_tables_are_closed_and_others_end(rt: HostRuntime) {
    let mem = rt.alloc();
    for (first, bytes, offset, lenient, strict) in READ {
        check_read(&rt, table_at(mem, *first, bytes, *offset), *lenient, bytes);
        check_read(
            &rt,
            strict_table_at(mem, *first, bytes, *offset),
            *strict,
            bytes,
        );
    }
}

// Declarations before an error, and the offset at which they end.
type Before = (&'static [(u64, Declaration)], usize);

// The first position, bytes, an offset, and the first error there; and what the bytes have before it: the declarations
// before the one with the error, and the offset at which that one begins.
#[rattlefmt::skip]
static ERRORS: &[(u8, &[u8], usize, Error, Result<Before>)] = &[
    // The section ends within a declaration, or the offset is past its end.
    (0, b"\x80", 0, eof!(1), Ok((&[], 0))),
    (0, b"\x01", 0, eof!(1), Ok((&[], 0))),
    (0, b"\x01\x11", 0, eof!(2), Ok((&[], 0))),
    (0, b"\x01\x11\0\0", 0, eof!(4), Ok((&[], 0))),
    (0, b"\x01\x11\0\x03", 0, eof!(4), Ok((&[], 0))),
    (0, b"\x01\x11\0\0\x80", 0, eof!(5), Ok((&[], 0))),
    (0, b"\x01\x2e\0\x03\x21", 0, eof!(5), Ok((&[], 0))),
    (0, b"\x01\x11\0\0\0\x01\x11\0\0", 0, eof!(9), Ok((&[(1, BARE)], 5))),
    (100, b"\x80", 0, eof!(101), Ok((&[], 0))),
    (100, b"\x01\x11\0\0\0\x01", 0, eof!(106), Ok((&[(1, BARE)], 5))),
    (100, ENDED, 6, eof!(100), Err(eof!(100))),
    // A number is out of range, or longer than it may be.
    (0, b"\x80\x80\x80\x80\x80\x80\x80\x80\x80\x02", 0, BadUnsignedLeb128, Ok((&[], 0))),
    (0, b"\x01\x91\x80\x80\0", 0, BadUnsignedLeb128, Ok((&[], 0))),
    (0, b"\x01\x80\x80\x80", 0, BadUnsignedLeb128, Ok((&[], 0))),
    (0, b"\x02\x11\0\0\0\x01\x2e\0\x03\x21\x80\x80\x80\x80\x80\x80\x80\x80\x80\x01\0\0\0", 0,
        BadSignedLeb128, Ok((&[(2, BARE)], 5))),
    // A field has a value that it may not have.
    (0, b"\x01\0\x02", 0, AbbreviationTagZero, Ok((&[], 0))),
    (0, b"\x01\x11\0\0\0\x02\0", 0, AbbreviationTagZero, Ok((&[(1, BARE)], 5))),
    (0, b"\x01\x11\x02", 0, InvalidAbbreviationChildren(DwChildren(2)), Ok((&[], 0))),
    (100, b"\0\x01\x11\x02", 1, InvalidAbbreviationChildren(DwChildren(2)), Ok((&[], 1))),
    (0, b"\x01\x11\0\0\x01", 0, AttributeNameZero, Ok((&[], 0))),
    (0, b"\x02\x11\0\0\0\x01\x11\0\0\x21", 0, AttributeNameZero, Ok((&[(2, BARE)], 5))),
    (0, b"\x01\x11\0\x01\0", 0, AttributeFormZero, Ok((&[], 0))),
    // A code occurs twice. An error inside of the second declaration comes first.
    (0, b"\x01\x11\0\0\0\x81\0\x11\0\0\0", 0, DuplicateAbbreviationCode(1), Ok((&[(1, BARE)], 5))),
    (0, b"\x01\x11\0\0\0\x03\x11\0\0\0\x02\x11\0\0\0\x03\x11\0\0\0\0", 0,
        DuplicateAbbreviationCode(3), Ok((&[(1, BARE), (2, BARE), (3, BARE)], 15))),
    (0, SAME_CODES, 4, DuplicateAbbreviationCode(1),
        Ok((&[(1, (DW_TAG_subprogram, false, &[NAME]))], 11))),
    (0, b"\x01\x11\0\0\0\x01\0", 0, AbbreviationTagZero, Ok((&[(1, BARE)], 5))),
    (0, b"\x02\x11\0\0\0\x02\x11\x02", 0, InvalidAbbreviationChildren(DwChildren(2)),
        Ok((&[(2, BARE)], 5))),
];

#[test]
fn first_errors_have_positions(rt: HostRuntime) {
    for (first, bytes, offset, wanted, before) in ERRORS {
        let error = table_at(rt.alloc(), *first, bytes, *offset).err();
        same(&rt, error, Some(*wanted), bytes);
        check_before(&rt, rt.alloc(), (*first, bytes, *offset, wanted), *before);
    }
}

// Ends the test where other declarations are before an error, or that is in one at another offset.
fn check_before(
    rt: &impl Abort,
    mem: Global,
    (first, bytes, offset, error): (u8, &[u8], usize, &Error),
    wanted: Result<Before>,
) {
    let section = DebugAbbrev::from(reader_at(bytes, LittleEndian, first));
    let found = section.abbreviations_before::<Abbreviations>(
        mem,
        DebugAbbrevOffset(offset),
        error,
    );
    match (found, wanted) {
        (Ok((table, end)), Ok((declarations, wanted_end))) => {
            same(rt, is_table(&table, (declarations, false)), true, bytes);
            same(rt, end.0, wanted_end, bytes);
        }
        (found, wanted) => same(rt, found.err(), wanted.err(), bytes),
    }
}

// Bytes, an error that they don't have, and what is before it.
#[rattlefmt::skip]
static OTHERS: &[(&[u8], Error, Result<Before>)] = &[
    (TWICE, AttributeNameZero, Err(DuplicateAbbreviationCode(1))),
    (TWICE, DuplicateAbbreviationCode(2), Err(DuplicateAbbreviationCode(1))),
    (UNIT, AttributeNameZero, Ok((&[NAMED_UNIT], 7))),
    (ENDED, DuplicateAbbreviationCode(1), Ok((&[(1, BARE)], 5))),
];

#[test]
fn other_errors_are_looked_for_in_vain(rt: HostRuntime) {
    for (bytes, error, wanted) in OTHERS {
        check_before(&rt, rt.alloc(), (0, bytes, 0, error), *wanted);
    }
}

#[test]
fn default_sections_have_no_bytes(rt: HostRuntime) {
    let none: DebugAbbrev<EndianSlice<'_, LittleEndian>> = DebugAbbrev::default();
    let table = none.abbreviations(rt.alloc(), DebugAbbrevOffset(0));
    check_read(&rt, table, Ok(NO_TABLE), b"");
}

const NAMED_UNIT: (u64, Declaration) = (1, (DW_TAG_compile_unit, true, &[NAME]));

const VALUED: (u64, Declaration) = (1, (DW_TAG_subprogram, false, &[VALUE]));

// Bytes, and the lengths of their beginnings that are whole tables, each with the table and where it ends.
#[rattlefmt::skip]
static CUTS: &[(&[u8], &[(usize, (Table, usize))])] = &[
    (UNIT, &[
        (0, (NO_TABLE, 0)),
        (7, ((&[NAMED_UNIT], false), 7)),
        (8, ((&[NAMED_UNIT], true), 8)),
        (9, ((&[NAMED_UNIT], true), 8)),
    ]),
    (IMPLICIT, &[(0, (NO_TABLE, 0)), (8, ((&[VALUED], false), 8)), (9, ((&[VALUED], true), 9))]),
    (THREE, &[
        (0, (NO_TABLE, 0)),
        (5, ((&[(1, BARE)], false), 5)),
        (10, ((&[(1, BARE), (3, BARE)], false), 10)),
        (15, ((&[(1, BARE), (2, BARE), (3, BARE)], false), 15)),
        (16, ((&[(1, BARE), (2, BARE), (3, BARE)], true), 16)),
    ]),
];

// Ends the test where bytes begin with another table, or it ends elsewhere, or where the first error is another one.
fn check_cut(rt: &impl Abort, mem: Global, bytes: &[u8], wanted: Result<(Table, usize)>) {
    let section = DebugAbbrev::from(reader_at(bytes, LittleEndian, 0));
    match (
        section.abbreviations_and_end(mem, DebugAbbrevOffset(0)),
        wanted,
    ) {
        (Ok((table, end)), Ok((wanted, wanted_end))) => {
            same(rt, is_table(&table, wanted), true, bytes);
            same(rt, end.0, wanted_end, bytes);
        }
        (found, wanted) => same(rt, found.err(), wanted.err(), bytes),
    }
}

#[test]
fn cut_tables_end_early(rt: HostRuntime) {
    for (bytes, whole) in CUTS {
        for len in 0..bytes.len() + 1 {
            let mut wanted = Err(eof!(len as u64));
            for (whole_len, table) in *whole {
                if *whole_len == len {
                    wanted = Ok(*table);
                }
            }
            check_cut(&rt, rt.alloc(), &bytes[..len], wanted);
        }
    }
}

#[test]
fn repeats_are_seen_after_many(rt: HostRuntime) -> std::result::Result<(), Fail> {
    let mut bytes = Vec::new(rt.alloc());
    for code in (1..71u8).rev() {
        bytes.extend_from_slice(&[code, 0x11, 0, 0, 0])?;
    }
    bytes.extend_from_slice(&[35, 0x11, 0, 0, 0, 0])?;
    let error = table_at(rt.alloc(), 0, &bytes, 0).err();
    same(&rt, error, Some(DuplicateAbbreviationCode(35)), "35");
    Ok(())
}

const GREATEST: &[u8] = b"\xff\xff\xff\xff\xff\xff\xff\xff\xff\x01\x11\0\0\0\0";

// Bytes, and a code that no declaration of their table has.
static ABSENT: &[(&[u8], u64)] = &[(THREE, 0), (THREE, 4), (THREE, u64::MAX), (GREATEST, 0)];

#[test]
fn other_codes_are_not_found(rt: HostRuntime) -> std::result::Result<(), Fail> {
    for (bytes, code) in ABSENT {
        let table = table_at(rt.alloc(), 0, bytes, 0)?;
        same(&rt, table.get(*code).is_none(), true, code);
    }
    Ok(())
}

#[test]
fn attributes_are_compared(rt: HostRuntime) {
    let name = AttributeSpecification::new(DW_AT_name, DW_FORM_string, None);
    let first = AttributeSpecification::new(DW_AT_name, DW_FORM_implicit_const, Some(1));
    let second = AttributeSpecification::new(DW_AT_name, DW_FORM_implicit_const, Some(2));
    let found = [name == first, first == second, second == name];
    same(&rt, found, [false; 3], "others");
    let again = AttributeSpecification::new(DW_AT_name, DW_FORM_implicit_const, Some(1));
    same(&rt, first == again, true, "made twice");
}

// Bytes, an offset, and the whole table there.
#[rattlefmt::skip]
static TABLES: &[(&[u8], usize, Table)] = &[
    (b"", 0, NO_TABLE),
    (b"\x80\0\xaa", 0, CLOSED_TABLE),
    (b"\x80\x80\x80\x80\x80\x80\x80\x80\x80\0", 0, CLOSED_TABLE),
    (UNIT, 0, UNIT_TABLE),
    (IMPLICIT, 0, (&[(1, (DW_TAG_subprogram, false, &[VALUE]))], true)),
    (b"\x01\x2e\0\x03\x21\x80\x80\x80\x80\x80\x80\x80\x80\x80\x7f\0\0\0", 0,
        (&[(1, (DW_TAG_subprogram, false, &[LEAST_VALUE]))], true)),
    (b"\x01\x2e\0\x03\x08\0\0\0", 0, (&[(1, (DW_TAG_subprogram, false, &[NAME]))], true)),
    // A padded tag, and a padded null specification.
    (b"\x01\x91\x80\0\0\0\0\0", 0, (&[(1, BARE)], true)),
    (b"\x01\x11\0\x80\0\x80\x80\0\0", 0, (&[(1, BARE)], true)),
    (THREE, 0, (&[(1, BARE), (2, BARE), (3, BARE)], true)),
    (b"\x02\x11\0\0\0\x04\x11\0\0\0\x03\x11\0\0\0\0", 0,
        (&[(2, BARE), (3, BARE), (4, BARE)], true)),
    (b"\x80\x80\x80\x80\x80\x80\x80\x80\x80\x01\x11\0\0\0\0", 0, (&[(1 << 63, BARE)], true)),
    (GREATEST, 0, (&[(u64::MAX, BARE)], true)),
    (TWO_CODES, 4, (&[
        (1, (DW_TAG_compile_unit, true, &[PRODUCER, LANGUAGE])),
        (2, (DW_TAG_subprogram, false, &[NAME])),
    ], true)),
    (FIVE, 0, (&[(1, (DW_TAG_compile_unit, false, &[NAME; 5]))], true)),
    (SIX, 0, (&[(1, (DW_TAG_compile_unit, false, &[NAME; 6]))], true)),
    (LONG, 0, (&[(1, (DW_TAG_compile_unit, false, &[NAME; 17]))], true)),
    (MANY, 0, MANY_TABLE),
];

#[test]
fn tables_and_copies_are_whole(rt: HostRuntime) {
    for (bytes, offset, wanted) in TABLES {
        let table = table_at(rt.alloc(), 0, bytes, *offset);
        same(&rt, check_whole(&rt, table, *wanted, bytes), Ok(()), bytes);
    }
}

// Ends the test where this is another table, or a copy isn't what it is a copy of.
fn check_whole(
    rt: &impl Abort,
    table: Result<Abbreviations>,
    wanted: Table,
    bytes: &[u8],
) -> Result<()> {
    let table = table?;
    same(rt, is_table(&table, wanted), true, bytes);
    same(rt, is_copied(&table, wanted), Ok(true), bytes);
    for abbreviation in table.iter() {
        same(rt, is_one_copied(abbreviation), Ok(true), bytes);
    }
    Ok(())
}

fn is_copied(table: &Abbreviations, wanted: Table) -> Result<bool> {
    Ok(is_table(&table.try_clone()?, wanted))
}

fn is_one_copied(abbreviation: &Abbreviation) -> Result<bool> {
    Ok(abbreviation.try_clone()? == *abbreviation)
}

// If an allocation fails, a call returns the whole table or OutOfMemory, and the table alone if it allocates nothing.
#[test]
fn refused_memory_for_a_table(rt: HostRuntime) {
    for (bytes, offset, wanted) in TABLES {
        match table_at(rt.alloc(), 0, bytes, *offset) {
            Ok(table) => {
                same(&rt, is_table(&table, *wanted), true, bytes);
                copied_or_refused(&rt, &table, *wanted);
            }
            Err(error) => {
                same(&rt, error, OutOfMemory, bytes);
                assert!(rt; !wanted.0.is_empty());
            }
        }
    }
    end_requests(&rt, rt.alloc());
}

// A copy of the table and of each of its abbreviations is whole, or memory for it ran out.
fn copied_or_refused(rt: &impl Abort, table: &Abbreviations, wanted: Table) {
    match is_copied(table, wanted) {
        Ok(is_equal) => assert!(rt; is_equal),
        Err(error) => {
            same(rt, error, OutOfMemory, "a table");
            assert!(rt; !table.is_empty());
        }
    }
    for abbreviation in table.iter() {
        one_copied_or_refused(rt, abbreviation);
    }
}

fn one_copied_or_refused(rt: &impl Abort, abbreviation: &Abbreviation) {
    match is_one_copied(abbreviation) {
        Ok(is_equal) => assert!(rt; is_equal),
        Err(error) => {
            same(rt, error, OutOfMemory, "an abbreviation");
            assert!(rt; abbreviation.attributes().len() > 5);
        }
    }
}

// The sizes of values with addresses of four bytes, in the 32-bit format in version 2 and in version
// 3, and in the 64-bit format in version 2 and in version 3; the same with addresses of eight bytes;
// and the forms that have these.
#[rattlefmt::skip]
static SIZES: &[([[Option<usize>; 4]; 2], &[DwForm])] = &[
    ([[Some(4); 4], [Some(8); 4]], &[DW_FORM_addr]),
    ([[Some(0); 4]; 2], &[DW_FORM_implicit_const, DW_FORM_flag_present]),
    ([[Some(1); 4]; 2], &[DW_FORM_data1, DW_FORM_flag, DW_FORM_strx1, DW_FORM_ref1, DW_FORM_addrx1]),
    ([[Some(2); 4]; 2], &[DW_FORM_data2, DW_FORM_ref2, DW_FORM_addrx2, DW_FORM_strx2]),
    ([[Some(3); 4]; 2], &[DW_FORM_addrx3, DW_FORM_strx3]),
    ([[Some(4); 4]; 2], &[DW_FORM_data4, DW_FORM_ref_sup4, DW_FORM_ref4, DW_FORM_strx4, DW_FORM_addrx4]),
    ([[Some(8); 4]; 2], &[DW_FORM_data8, DW_FORM_ref8, DW_FORM_ref_sig8, DW_FORM_ref_sup8]),
    ([[Some(16); 4]; 2], &[DW_FORM_data16]),
    ([[Some(4), Some(4), Some(8), Some(8)]; 2], &[
        DW_FORM_sec_offset, DW_FORM_GNU_ref_alt, DW_FORM_strp, DW_FORM_strp_sup,
        DW_FORM_GNU_strp_alt, DW_FORM_line_strp,
    ]),
    ([[Some(4), Some(4), Some(4), Some(8)], [Some(8), Some(4), Some(8), Some(8)]],
        &[DW_FORM_ref_addr]),
    ([[None; 4]; 2], &[
        DW_FORM_null, DW_FORM_ref, DW_FORM_block2, DW_FORM_block4, DW_FORM_string, DW_FORM_block,
        DW_FORM_block1, DW_FORM_sdata, DW_FORM_udata, DW_FORM_ref_udata, DW_FORM_indirect,
        DW_FORM_exprloc, DW_FORM_strx, DW_FORM_addrx, DW_FORM_loclistx, DW_FORM_rnglistx,
        DW_FORM_GNU_addr_index, DW_FORM_GNU_str_index, DwForm(0x2137),
    ]),
];

fn sizes_of(form: DwForm) -> [[Option<usize>; 4]; 2] {
    let value = if form == DW_FORM_implicit_const {
        Some(0)
    } else {
        None
    };
    let attribute = AttributeSpecification::new(DW_AT_name, form, value);
    [sizes_with(&attribute, 4), sizes_with(&attribute, 8)]
}

fn sizes_with(attribute: &AttributeSpecification, address_size: u8) -> [Option<usize>; 4] {
    [
        attribute.size(encoding(address_size, Format::Dwarf32, 2)),
        attribute.size(encoding(address_size, Format::Dwarf32, 3)),
        attribute.size(encoding(address_size, Format::Dwarf64, 2)),
        attribute.size(encoding(address_size, Format::Dwarf64, 3)),
    ]
}

fn encoding(address_size: u8, format: Format, version: u16) -> Encoding {
    Encoding {
        address_size,
        format,
        version,
    }
}

#[test]
fn forms_have_sizes(rt: HostRuntime) {
    for (sizes, forms) in SIZES {
        for form in *forms {
            same(&rt, sizes_of(*form), *sizes, form);
        }
    }
}
