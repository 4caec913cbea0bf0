//! Sections, and the units that they have.

use dwarf_read_core::Error::{
    UnknownReservedLength, UnknownUnitType, UnknownVersion, UnsupportedAddressSize,
};
use dwarf_read_core::Format::{self, Dwarf32, Dwarf64};
use dwarf_read_core::RunTimeEndian::{self, Big, Little};
use dwarf_read_core::{
    AbbreviationsCache, AbbreviationsCacheStrategy, DebugAbbrev, DebugInfoOffset,
    DebugTypeSignature, DwUt, DwoId, EndianSlice, Error, Reader, ReaderOffsetId, Result,
    UnitOffset,
};
use dwarf_unit_core::UnitType::{
    Compilation, Partial, Skeleton, SplitCompilation, SplitType, Type,
};
use dwarf_unit_core::{DebugInfo, DebugTypes, UnitHeader, UnitType};
use std::alloc::Global;
use std::fmt::Debug;
use std::process::Abort;
use std::test::Fail;

type Slice<'a> = EndianSlice<'a, RunTimeEndian>;

// What a unit's header says, and its entries.
#[derive(Debug, Clone, Copy, PartialEq)]
struct Unit<'a> {
    offset: usize,
    length: usize,
    format: Format,
    version: u16,
    address_size: u8,
    table: usize,
    unit_type: UnitType<usize>,
    entries: &'a [u8],
}

// What a header says, and the error that bytes are missing at a position, in a constant.
macro_rules! unit {
    ($offset:expr, $length:expr, $format:expr, $version:expr, $size:expr, $table:expr, $type:expr, $entries:expr) => {
        Unit {
            offset: $offset,
            length: $length,
            format: $format,
            version: $version,
            address_size: $size,
            table: $table,
            unit_type: $type,
            entries: $entries,
        }
    };
}

macro_rules! eof {
    ($position:expr) => {
        Error::UnexpectedEof(ReaderOffsetId($position))
    };
}

const SIGNATURE: DebugTypeSignature = DebugTypeSignature(0x0807_0605_0403_0201);

const ID: DwoId = DwoId(0x0807_0605_0403_0201);

const OF_TYPE: UnitType<usize> = Type {
    type_signature: SIGNATURE,
    type_offset: UnitOffset(0x1e),
};

const OF_SPLIT_TYPE: UnitType<usize> = SplitType {
    type_signature: SIGNATURE,
    type_offset: UnitOffset(0x1e),
};

// Bytes of `.debug_info`, their order, the units there, and the error after them.
#[rattlefmt::skip]
static INFO: &[(&[u8], RunTimeEndian, &[Unit<'static>], Result<()>)] = &[
    (b"", Little, &[], Ok(())),
    // Versions 2 to 4.
    (b"\x08\0\0\0\x02\0\x10\0\0\0\x04\xaa", Little, &[unit!(0, 8, Dwarf32, 2, 4, 16, Compilation, b"\xaa")], Ok(())),
    (b"\x07\0\0\0\x03\0\x10\0\0\0\x08", Little, &[unit!(0, 7, Dwarf32, 3, 8, 16, Compilation, b"")], Ok(())),
    (b"\0\0\0\x08\0\x04\0\0\0\x10\x02\xaa", Big, &[unit!(0, 8, Dwarf32, 4, 2, 16, Compilation, b"\xaa")], Ok(())),
    (b"\xff\xff\xff\xff\x0c\0\0\0\0\0\0\0\x04\0\x10\0\0\0\0\0\0\0\x08\xaa", Little,
        &[unit!(0, 12, Dwarf64, 4, 8, 16, Compilation, b"\xaa")], Ok(())),
    // Version 5, with each type.
    (b"\x09\0\0\0\x05\0\x01\x08\x10\0\0\0\xaa", Little, &[unit!(0, 9, Dwarf32, 5, 8, 16, Compilation, b"\xaa")], Ok(())),
    (b"\x18\0\0\0\x05\0\x02\x04\x10\0\0\0\x01\x02\x03\x04\x05\x06\x07\x08\x1e\0\0\0", Little,
        &[], Err(eof!(4))),
    (b"\x14\0\0\0\x05\0\x02\x04\x10\0\0\0\x01\x02\x03\x04\x05\x06\x07\x08\x1e\0\0\0", Little,
        &[unit!(0, 20, Dwarf32, 5, 4, 16, OF_TYPE, b"")], Ok(())),
    (b"\x08\0\0\0\x05\0\x03\x01\x10\0\0\0", Little, &[unit!(0, 8, Dwarf32, 5, 1, 16, Partial, b"")], Ok(())),
    (b"\x11\0\0\0\x05\0\x04\x08\x10\0\0\0\x01\x02\x03\x04\x05\x06\x07\x08\xcc", Little,
        &[unit!(0, 17, Dwarf32, 5, 8, 16, Skeleton(ID), b"\xcc")], Ok(())),
    (b"\0\0\0\x10\0\x05\x05\x08\0\0\0\x10\x08\x07\x06\x05\x04\x03\x02\x01", Big,
        &[unit!(0, 16, Dwarf32, 5, 8, 16, SplitCompilation(ID), b"")], Ok(())),
    (b"\xff\xff\xff\xff\x1c\0\0\0\0\0\0\0\x05\0\x06\x04\x10\0\0\0\0\0\0\0\x01\x02\x03\x04\x05\x06\x07\x08\x1e\0\0\0\0\0\0\0", Little,
        &[unit!(0, 28, Dwarf64, 5, 4, 16, OF_SPLIT_TYPE, b"")], Ok(())),
    // Two units, and an error at the third.
    (b"\x08\0\0\0\x04\0\x10\0\0\0\x08\xaa\x08\0\0\0\x05\0\x03\x08\x20\0\0\0\0", Little,
        &[unit!(0, 8, Dwarf32, 4, 8, 16, Compilation, b"\xaa"), unit!(12, 8, Dwarf32, 5, 8, 32, Partial, b"")], Err(eof!(24))),
    // Lengths.
    (b"\x01\0\0", Little, &[], Err(eof!(0))),
    (b"\xf0\xff\xff\xff", Little, &[], Err(UnknownReservedLength(0xffff_fff0))),
    (b"\xff\xff\xff\xff\0\0\0", Little, &[], Err(eof!(4))),
    (b"\x08\0\0\0\x04\0\x10\0\0\0\x08", Little, &[], Err(eof!(4))),
    // Versions.
    (b"\0\0\0\0", Little, &[], Err(eof!(4))),
    (b"\x01\0\0\0\x04\0", Little, &[], Err(eof!(4))),
    (b"\x02\0\0\0\x01\0", Little, &[], Err(UnknownVersion(1))),
    (b"\x02\0\0\0\x06\0", Little, &[], Err(UnknownVersion(6))),
    // Fields before version 5.
    (b"\x05\0\0\0\x04\0\x10\0\0\x08\x08", Little, &[], Err(eof!(6))),
    (b"\x06\0\0\0\x04\0\x10\0\0\0\x08", Little, &[], Err(eof!(10))),
    (b"\x07\0\0\0\x04\0\x10\0\0\0\x03", Little, &[], Err(UnsupportedAddressSize(3))),
    // Fields from version 5 on.
    (b"\x02\0\0\0\x05\0\x01", Little, &[], Err(eof!(6))),
    (b"\x03\0\0\0\x05\0\x01\x08", Little, &[], Err(eof!(7))),
    (b"\x04\0\0\0\x05\0\x01\x10", Little, &[], Err(UnsupportedAddressSize(16))),
    (b"\x07\0\0\0\x05\0\x01\x08\x10\0\0\0", Little, &[], Err(eof!(8))),
    (b"\x08\0\0\0\x05\0\0\x08\x10\0\0\0", Little, &[], Err(UnknownUnitType(DwUt(0)))),
    (b"\x08\0\0\0\x05\0\x07\x08\x10\0\0\0", Little, &[], Err(UnknownUnitType(DwUt(7)))),
    (b"\x04\0\0\0\x05\0\x07\x05", Little, &[], Err(UnsupportedAddressSize(5))),
    (b"\x07\0\0\0\x05\0\x07\x08\x10\0\0", Little, &[], Err(eof!(8))),
    (b"\x0f\0\0\0\x05\0\x04\x08\x10\0\0\0\x01\x02\x03\x04\x05\x06\x07", Little, &[], Err(eof!(12))),
    (b"\x0f\0\0\0\x05\0\x05\x08\x10\0\0\0\x01\x02\x03\x04\x05\x06\x07", Little, &[], Err(eof!(12))),
    (b"\x0f\0\0\0\x05\0\x02\x08\x10\0\0\0\x01\x02\x03\x04\x05\x06\x07", Little, &[], Err(eof!(12))),
    (b"\x13\0\0\0\x05\0\x06\x08\x10\0\0\0\x01\x02\x03\x04\x05\x06\x07\x08\x1e\0\0", Little, &[], Err(eof!(20))),
];

// The same of `.debug_types`.
#[rattlefmt::skip]
static TYPES: &[(&[u8], RunTimeEndian, &[Unit<'static>], Result<()>)] = &[
    (b"\x13\0\0\0\x04\0\x10\0\0\0\x04\x01\x02\x03\x04\x05\x06\x07\x08\x1e\0\0\0", Little,
        &[unit!(0, 19, Dwarf32, 4, 4, 16, OF_TYPE, b"")], Ok(())),
    (b"\xff\xff\xff\xff\x1c\0\0\0\0\0\0\0\x04\0\x10\0\0\0\0\0\0\0\x04\x01\x02\x03\x04\x05\x06\x07\x08\x1e\0\0\0\0\0\0\0\xaa", Little,
        &[unit!(0, 28, Dwarf64, 4, 4, 16, OF_TYPE, b"\xaa")], Ok(())),
    (b"\x08\0\0\0\x05\0\x01\x08\x10\0\0\0", Little, &[unit!(0, 8, Dwarf32, 5, 8, 16, Compilation, b"")], Ok(())),
    (b"\x07\0\0\0\x04\0\x10\0\0\0\x04", Little, &[], Err(eof!(11))),
    (b"\x12\0\0\0\x04\0\x10\0\0\0\x04\x01\x02\x03\x04\x05\x06\x07\x08\x1e\0\0", Little, &[], Err(eof!(19))),
];

// Ends the test if a value isn't the one that is wanted, and tells which bytes it is of.
fn same<T: PartialEq + Debug + Drop>(rt: &impl Abort, got: T, wanted: T, bytes: &[u8]) {
    assert_eq!(rt; got, wanted, "{bytes:?}");
}

// What a header says.
fn shown<'a>(header: &UnitHeader<Slice<'a>>) -> Result<Unit<'a>> {
    let encoding = header.encoding();
    Ok(Unit {
        offset: header.offset().0,
        length: header.unit_length(),
        format: encoding.format,
        version: encoding.version,
        address_size: encoding.address_size,
        table: header.debug_abbrev_offset().0,
        unit_type: header.type_(),
        entries: header.entries_buf()?.slice(),
    })
}

#[test]
fn units_of_info_are_read(rt: HostRuntime) -> std::result::Result<(), Fail> {
    for (bytes, order, wanted, end) in INFO {
        let mut units = DebugInfo::new(*bytes, *order).units()?;
        for unit in *wanted {
            let header = units.next()?.ok_or("no unit")?;
            same(&rt, shown(&header)?, *unit, bytes);
        }
        let last = units.next().map(|unit| unit.is_some());
        same(&rt, last, end.map(|()| false), bytes);
        for _ in 0..3 {
            same(&rt, units.next()?.is_some(), false, bytes);
        }
    }
    Ok(())
}

#[test]
fn units_of_types_are_read(rt: HostRuntime) -> std::result::Result<(), Fail> {
    for (bytes, order, wanted, end) in TYPES {
        let mut units = DebugTypes::new(*bytes, *order).units()?;
        for unit in *wanted {
            let header = units.next()?.ok_or("no unit")?;
            same(&rt, shown(&header)?, *unit, bytes);
        }
        let last = units.next().map(|unit| unit.is_some());
        same(&rt, last, end.map(|()| false), bytes);
        for _ in 0..3 {
            same(&rt, units.next()?.is_some(), false, bytes);
        }
    }
    Ok(())
}

const TWO: &[u8] = b"\x08\0\0\0\x04\0\x10\0\0\0\x08\xaa\x08\0\0\0\x05\0\x03\x08\x20\0\0\0";

// An offset of these bytes, and the unit there.
#[rattlefmt::skip]
static OFFSETS: &[(usize, Result<Unit<'static>>)] = &[
    (0, Ok(unit!(0, 8, Dwarf32, 4, 8, 16, Compilation, b"\xaa"))),
    (12, Ok(unit!(12, 8, Dwarf32, 5, 8, 32, Partial, b""))),
    (4, Err(eof!(8))),
    (24, Err(eof!(24))),
    (25, Err(eof!(0))),
];

#[test]
fn units_are_found_by_their_offsets(rt: HostRuntime) {
    let section = DebugInfo::new(TWO, Little);
    for (offset, wanted) in OFFSETS {
        let found = section.header_from_offset(DebugInfoOffset(*offset));
        same(&rt, found.and_then(|header| shown(&header)), *wanted, TWO);
    }
}

// Bytes whose first units differ, each from the first in one field.
#[rattlefmt::skip]
static DIFFERENT: &[&[u8]] = &[
    b"\x09\0\0\0\x05\0\x01\x08\x10\0\0\0\xaa",
    b"\x08\0\0\0\x05\0\x01\x08\x10\0\0\0",
    b"\x09\0\0\0\x05\0\x01\x08\x10\0\0\0\xab",
    b"\x09\0\0\0\x05\0\x01\x04\x10\0\0\0\xaa",
    b"\x09\0\0\0\x05\0\x01\x08\x11\0\0\0\xaa",
    b"\x09\0\0\0\x05\0\x03\x08\x10\0\0\0\xaa",
    b"\x08\0\0\0\x04\0\x10\0\0\0\x08\xaa",
    b"\x08\0\0\0\x03\0\x10\0\0\0\x08\xaa",
];

#[test]
fn equal_headers_are_those_of_equal_units(rt: HostRuntime) -> std::result::Result<(), Fail> {
    for (place, one) in DIFFERENT.iter().enumerate() {
        let mut units = DebugInfo::new(*one, Little).units()?;
        let header = units.clone()?.next()?.ok_or("no unit")?;
        same(&rt, header.clone()? == header, true, one);
        same(&rt, units.next()?.ok_or("no unit")? == header, true, one);
        for (other_place, other) in DIFFERENT.iter().enumerate() {
            let section = DebugInfo::new(*other, Little);
            let found = section.header_from_offset(DebugInfoOffset(0))?;
            same(&rt, found == header, place == other_place, other);
        }
    }
    Ok(())
}

// How many abbreviations the table of each unit has. A table that units share is read once.
fn lengths_of_units<R: Reader>(
    mem: Global,
    debug_info: &DebugInfo<R>,
    debug_abbrev: &DebugAbbrev<R>,
) -> Result<Vec<usize>> {
    let mut cache = AbbreviationsCache::new(mem);
    let offsets = debug_info
        .units()?
        .map(|unit| unit.map(|unit| unit.debug_abbrev_offset()));
    cache.populate(
        AbbreviationsCacheStrategy::Duplicates,
        debug_abbrev,
        offsets,
    )?;
    let mut lengths = Vec::new(mem);
    for unit in debug_info.units()? {
        let table = cache.get(debug_abbrev, unit?.debug_abbrev_offset())?;
        lengths.push(table.len())?;
    }
    Ok(lengths)
}

// Two tables, of one abbreviation and of two.
const TABLES: &[u8] = b"\x01\x11\0\0\0\0\x01\x11\0\0\0\x02\x12\0\0\0\0";

// Bytes of `.debug_info`, and the lengths of its units' tables.
#[rattlefmt::skip]
static UNITS: &[(&[u8], Result<&[usize]>)] = &[
    (b"", Ok(&[])),
    (b"\x07\0\0\0\x04\0\0\0\0\0\x08\x08\0\0\0\x05\0\x01\x08\x06\0\0\0\x07\0\0\0\x02\0\0\0\0\0\x04", Ok(&[1, 2, 1])),
    (b"\x07\0\0\0\x04\0\x12\0\0\0\x08", Err(eof!(0))),
    (b"\x07\0\0\0\x04\0\0\0\0\0\x08\x02\0\0\0\x06\0", Err(UnknownVersion(6))),
];

// Ends the test if the tables of units don't have the lengths that are wanted.
fn check_lengths(rt: &impl Abort, mem: Global) {
    let debug_abbrev = DebugAbbrev::new(TABLES, Little);
    for (bytes, wanted) in UNITS {
        let found = lengths_of_units(mem, &DebugInfo::new(*bytes, Little), &debug_abbrev);
        match (found, wanted) {
            (Ok(lengths), Ok(wanted)) => same(rt, lengths.as_slice(), *wanted, bytes),
            (Err(error), Err(wanted)) => same(rt, error, *wanted, bytes),
            (Ok(_), Err(_)) | (Err(_), Ok(_)) => same(rt, true, false, bytes),
        }
    }
}

#[test]
fn tables_of_units_are_cached(rt: HostRuntime) {
    let mem = rt.alloc();
    check_lengths(&rt, mem);
}
