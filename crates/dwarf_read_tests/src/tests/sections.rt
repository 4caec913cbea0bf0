//! Sections: their names, and what they have in common.

use super::owned::owned;
use super::{check_bytes, check_part, little, reader_at, same};
use dwarf_read_core::{
    DebugAbbrev, DebugAddr, DebugLineStr, DebugStr, DebugStrOffsets, EndianSlice, LittleEndian,
    Reader, ReaderOffsetId, Result, Section, SectionId,
};
use dwarf_uses::OwnedReader;
use std::alloc::Global;
use std::process::Abort;
use std::test::Fail;

type Slice<'a> = EndianSlice<'a, LittleEndian>;

// Offset and size of a range of ten bytes, and its bytes and position.
static RANGES: &[(u32, u32, Result<(&[u8], u64)>)] = &[
    (4, 6, Ok((b"456789", 4))),
    (0, 3, Ok((b"012", 0))),
    (10, 0, Ok((b"", 10))),
    (4, 7, Err(eof!(4))),
    (11, 0, Err(eof!(0))),
    (1, u32::MAX, Err(eof!(1))),
];

// Ends the test where a range of a section has other bytes, another position or another error.
fn check_range<R: Reader, S: Section<R> + Drop>(
    rt: &impl Abort,
    section: &S,
    (offset, size, wanted): (u32, u32, Result<(&[u8], u64)>),
) -> Result<()> {
    match (section.dwp_range(offset, size), wanted) {
        (Ok(part), Ok((bytes, position))) => check_part(rt, part.reader(), bytes, position),
        (found, wanted) => {
            same(rt, found.err(), wanted.err(), offset);
            Ok(())
        }
    }
}

// The names of a section: its own, that of its split form, and that in XCOFF.
type Names = (&'static str, Option<&'static str>, Option<&'static str>);

// Ends the test where a kind of section has another identifier, other names or other ranges.
fn check_section<R: Reader, S: Section<R> + Drop>(
    rt: &impl Abort,
    reader: R,
    id: SectionId,
    names: Names,
) {
    same(rt, S::id(), id, id);
    let found = (
        S::section_name(),
        S::dwo_section_name(),
        S::xcoff_section_name(),
    );
    same(rt, found, names, id);
    let section = S::from(reader);
    for row in RANGES {
        same(rt, check_range::<R, S>(rt, &section, *row), Ok(()), id);
    }
}

fn check_sections<R: Reader + Copy>(rt: &impl Abort, reader: R) {
    let names = (".debug_abbrev", Some(".debug_abbrev.dwo"), Some(".dwabrev"));
    check_section::<R, DebugAbbrev<R>>(rt, reader, SectionId::DebugAbbrev, names);
    let names = (".debug_addr", None, None);
    check_section::<R, DebugAddr<R>>(rt, reader, SectionId::DebugAddr, names);
    let names = (".debug_str", Some(".debug_str.dwo"), Some(".dwstr"));
    check_section::<R, DebugStr<R>>(rt, reader, SectionId::DebugStr, names);
    let names = (".debug_str_offsets", Some(".debug_str_offsets.dwo"), None);
    check_section::<R, DebugStrOffsets<R>>(rt, reader, SectionId::DebugStrOffsets, names);
    let names = (".debug_line_str", None, None);
    check_section::<R, DebugLineStr<R>>(rt, reader, SectionId::DebugLineStr, names);
}

#[test]
fn sections_have_names_and_ranges(rt: HostRuntime) {
    check_sections(&rt, little(b"0123456789"));
}

// Positions, and their places in three bytes at position 100.
static PLACES: &[(u64, Option<(SectionId, usize)>)] = &[
    (99, None),
    (100, Some((SectionId::DebugLineStr, 0))),
    (103, Some((SectionId::DebugLineStr, 3))),
    (104, None),
];

// Ends the test where a section has another place at a position.
fn check_places<R: Reader<Offset = usize>>(rt: &impl Abort, section: &DebugLineStr<R>) {
    for (position, wanted) in PLACES {
        let place = section.lookup_offset_id(ReaderOffsetId(*position));
        same(rt, place, *wanted, position);
    }
}

#[test]
fn positions_are_looked_up(rt: HostRuntime) {
    check_places(&rt, &reader_at(b"abc", LittleEndian, 100).into());
}

// Ends the test where a kind of section doesn't call its loader once, with this identifier, or doesn't return what that
// returns.
fn check_load<S: Section<OwnedReader> + Drop>(
    rt: &impl Abort,
    mem: Global,
    id: SectionId,
) -> Result<()> {
    let reader = owned(mem, b"abc\0", 0)?;
    let mut calls = 0u8;
    let loaded = S::load(|asked| {
        calls = calls.wrapping_add(1);
        if asked == id { Ok(reader) } else { Err(asked) }
    });
    match loaded {
        Ok(section) => check_bytes(rt, section.reader(), b"abc\0")?,
        Err(other) => same(rt, other, id, id),
    }
    same(rt, calls, 1, id);
    let refused = S::load(|asked| Err((asked, 7u8))).err();
    same(rt, refused, Some((id, 7)), id);
    Ok(())
}

#[test]
fn sections_are_loaded(rt: HostRuntime) -> std::result::Result<(), Fail> {
    let mem = rt.alloc();
    check_load::<DebugAbbrev<OwnedReader>>(&rt, mem, SectionId::DebugAbbrev)?;
    check_load::<DebugAddr<OwnedReader>>(&rt, mem, SectionId::DebugAddr)?;
    check_load::<DebugStr<OwnedReader>>(&rt, mem, SectionId::DebugStr)?;
    check_load::<DebugStrOffsets<OwnedReader>>(&rt, mem, SectionId::DebugStrOffsets)?;
    check_load::<DebugLineStr<OwnedReader>>(&rt, mem, SectionId::DebugLineStr)?;
    Ok(())
}

fn borrowed<'a>(bytes: &'a [u8; 4]) -> Slice<'a> {
    EndianSlice::new(bytes, LittleEndian)
}

const ABC: [u8; 4] = *b"abc\0";

#[test]
fn sections_are_borrowed(rt: HostRuntime) {
    let (strings, lines) = (DebugStr::from(ABC), DebugLineStr::from(ABC));
    same(
        &rt,
        *strings.borrow(borrowed).reader(),
        little(&ABC),
        "strings",
    );
    same(&rt, *lines.borrow(borrowed).reader(), little(&ABC), "lines");
    let (offsets, addresses) = (DebugStrOffsets::from(ABC), DebugAddr::from(ABC));
    same(
        &rt,
        *offsets.borrow(borrowed).reader(),
        little(&ABC),
        "offsets",
    );
    same(
        &rt,
        *addresses.borrow(borrowed).reader(),
        little(&ABC),
        "addresses",
    );
    let tables = DebugAbbrev::from(ABC);
    same(
        &rt,
        *tables.borrow(borrowed).reader(),
        little(&ABC),
        "tables",
    );
}
