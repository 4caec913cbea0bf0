//! Strings, and their offsets by index.

use super::worked::{STRINGS, twenty_words};
use super::{check_part, reader_at, same};
use dwarf_read_core::Error::{self, UnsupportedOffset};
use dwarf_read_core::Format::{self, Dwarf32, Dwarf64};
use dwarf_read_core::{
    DebugLineStr, DebugLineStrOffset, DebugStr, DebugStrOffset, DebugStrOffsets,
    DebugStrOffsetsBase, DebugStrOffsetsIndex, EndianSlice, LittleEndian, Reader, ReaderOffset,
    Result, RunTimeEndian,
};
use std::process::Abort;
use std::test::Fail;

// The first position, bytes, an offset, and the string there with its position.
static PLACES: &[(u8, &[u8], usize, Result<(&[u8], u64)>)] = &[
    (0, STRINGS, 0, Ok((b"one", 0))),
    (0, STRINGS, 4, Ok((b"two", 4))),
    (0, STRINGS, 6, Ok((b"o", 6))),
    (0, STRINGS, 8, Ok((b"", 8))),
    (0, STRINGS, 9, Err(eof!(9))),
    (0, STRINGS, 10, Err(eof!(0))),
    (0, b"ab", 1, Err(eof!(1))),
    (100, b"one\0two", 0, Ok((b"one", 100))),
    (100, b"one\0two", 4, Err(eof!(104))),
    (100, b"one\0two", 8, Err(eof!(100))),
];

// Ends the test where another string, or another error, is found.
fn check_string<R: Reader>(
    rt: &impl Abort,
    found: Result<R>,
    wanted: Result<(&[u8], u64)>,
) -> Result<()> {
    match (found, wanted) {
        (Ok(string), Ok((bytes, position))) => check_part(rt, &string, bytes, position),
        (found, wanted) => {
            same(rt, found.err(), wanted.err(), "a string");
            Ok(())
        }
    }
}

// Ends the test where one of the two sections has another string at an offset.
fn check_strings<R: Reader + Copy>(
    rt: &impl Abort,
    reader: R,
    offset: R::Offset,
    wanted: Result<(&[u8], u64)>,
) -> Result<()> {
    let (strings, lines) = (DebugStr::from(reader), DebugLineStr::from(reader));
    check_string(rt, strings.get_str(DebugStrOffset(offset)), wanted)?;
    check_string(rt, lines.get_str(DebugLineStrOffset(offset)), wanted)
}

#[test]
fn strings_end_at_a_zero_byte(rt: HostRuntime) {
    for (first, bytes, offset, wanted) in PLACES {
        let reader = reader_at(bytes, LittleEndian, *first);
        let checked = check_strings(&rt, reader, *offset, *wanted);
        same(&rt, checked, Ok(()), (*bytes, *offset));
    }
}

// Ends the test where a section has a byte.
fn check_none<R: Reader>(rt: &impl Abort, none: &DebugLineStr<R>) {
    for offset in [0u8, 4, 8] {
        let place = DebugLineStrOffset(R::Offset::from_u8(offset));
        same(rt, none.get_str(place).err(), Some(eof!(0)), offset);
    }
}

#[test]
fn default_sections_have_no_bytes(rt: HostRuntime) {
    let none: DebugLineStr<EndianSlice<'_, LittleEndian>> = DebugLineStr::default();
    check_none(&rt, &none);
}

// The offset at an index, counted from a base.
fn offset_in(
    bytes: &[u8],
    order: RunTimeEndian,
    format: Format,
    base: usize,
    index: usize,
) -> Result<usize> {
    let section = DebugStrOffsets::from(EndianSlice::new(bytes, order));
    let (base, index) = (DebugStrOffsetsBase(base), DebugStrOffsetsIndex(index));
    Ok(section.get_str_offset(format, base, index)?.0)
}

// A format, a base and an index, and the offset that they name after a header of the words 1000 to 1019.
static OFFSETS: &[(Format, usize, usize, Result<usize>)] = &[
    (Dwarf32, 8, 0, Ok(1000)),
    (Dwarf32, 8, 1, Ok(1001)),
    (Dwarf32, 8, 19, Ok(1019)),
    (Dwarf32, 12, 18, Ok(1019)),
    (Dwarf32, 8, 20, Err(eof!(88))),
    (Dwarf32, 8, 21, Err(eof!(8))),
    (Dwarf32, 89, 0, Err(eof!(0))),
    (Dwarf64, 16, 0, Ok(1000)),
    (Dwarf64, 16, 19, Ok(1019)),
    (Dwarf64, 16, 20, Err(eof!(176))),
    (Dwarf64, 16, 21, Err(eof!(16))),
];

#[test]
fn offsets_are_looked_up(rt: HostRuntime) -> std::result::Result<(), Fail> {
    for (format, base, index, wanted) in OFFSETS {
        for (order, is_big) in [(RunTimeEndian::Little, false), (RunTimeEndian::Big, true)] {
            let bytes = twenty_words(rt.alloc(), *format, is_big)?;
            let offset = offset_in(&bytes, order, *format, *base, *index);
            same(&rt, offset, *wanted, (*format, *base, *index));
        }
    }
    Ok(())
}

// A format, a base and an index, and the first error in 64 zero bytes.
static ERRORS: &[(Format, usize, usize, Error)] = &[
    (Dwarf64, 0, 1 << 61, UnsupportedOffset),
    (Dwarf64, 0, 1 << 62, UnsupportedOffset),
    (Dwarf32, 0, 1 << 62, UnsupportedOffset),
    (Dwarf32, 0, 1 << 61, eof!(0)),
    (Dwarf64, 65, 0, eof!(0)),
    (Dwarf64, 65, 1 << 62, eof!(0)),
    (Dwarf64, 60, 0, eof!(60)),
    (Dwarf32, 61, 1, eof!(61)),
];

#[test]
fn first_errors_are_returned(rt: HostRuntime) {
    for (format, base, index, wanted) in ERRORS {
        let offset = offset_in(&[0; 64], RunTimeEndian::Little, *format, *base, *index);
        same(&rt, offset, Err(*wanted), (*format, *base, *index));
    }
}
