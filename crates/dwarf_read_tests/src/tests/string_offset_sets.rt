//! The sets of string offsets.

use super::owned::owned;
use super::worked::twenty_words;
use super::{check_end, reader_at, same};
use dwarf_read_core::Error::{
    OutOfMemory, UnknownReservedLength, UnknownVersion, UnsupportedOffset,
};
use dwarf_read_core::Format::{self, Dwarf32, Dwarf64};
use dwarf_read_core::{
    DebugStrOffsets, DebugStrOffsetsBase, DebugStrOffsetsIndex, LittleEndian, Reader, ReaderOffset,
    Result, StrOffsetsEntryIter, StrOffsetsHeader, StrOffsetsHeaderIter,
};
use std::fmt::Debug;
use std::process::Abort;
use std::test::Fail;

// Two sets, the first in the 32-bit format with two offsets, the second in the 64-bit format with
// one, and with padding that isn't zero.
pub(super) const TWO_SETS: &[u8] = b"\x0c\0\0\0\x05\0\0\0\xe8\x03\0\0\xe9\x03\0\0\
    \xff\xff\xff\xff\x0c\0\0\0\0\0\0\0\x05\0\x34\x12\xe8\x03\0\0\0\0\0\0";

// A set of two bytes, which are too few for an offset.
const CUT_SET: &[u8] = b"\x06\0\0\0\x05\0\0\0\x01\x02";

// A set with the offset 2^32.
const LARGE_OFFSET: &[u8] = b"\xff\xff\xff\xff\x0c\0\0\0\0\0\0\0\x05\0\0\0\0\0\0\0\x01\0\0\0";

// A set: its offset, its length, its format, its string offsets, and how these end.
type Set = (u64, u64, Format, &'static [u64], Result<()>);

const FIRST_SET: Set = (0, 12, Dwarf32, &[1000, 1001], Ok(()));

// The first position, bytes, the sets that they have, and what follows these.
#[rattlefmt::skip]
static SETS: &[(u8, &[u8], &[Set], Result<()>)] = &[
    (0, b"", &[], Ok(())),
    (0, TWO_SETS, &[FIRST_SET, (16, 12, Dwarf64, &[1000], Ok(()))], Ok(())),
    (0, CUT_SET, &[(0, 6, Dwarf32, &[], Err(eof!(8)))], Ok(())),
    (0, LARGE_OFFSET, &[(0, 12, Dwarf64, &[1 << 32], Ok(()))], Ok(())),
    (0, b"\x03\0\0\0\x05\0\0", &[], Err(eof!(6))),
    (0, b"\x04\0\0\0\x04\0\0\0", &[], Err(UnknownVersion(4))),
    (100, b"\xff\xff\xff", &[], Err(eof!(100))),
    (100, b"\xfe\xff\xff\xff", &[], Err(UnknownReservedLength(0xffff_fffe))),
    (100, b"\xff\xff\xff\xff\x12\x34\x56\x78", &[], Err(eof!(104))),
    (100, b"\x05\0\0\0\x05\0\0\0", &[], Err(eof!(104))),
    (100, b"\x01\0\0\0\x05", &[], Err(eof!(104))),
    (100, b"\x04\0\0\0\x04\0\0\0", &[], Err(UnknownVersion(4))),
    (100, b"\x04\0\0\0\x06\0\0\0\x04\0\0\0\x05\0\0\0", &[], Err(UnknownVersion(6))),
    (100, b"\x02\0\0\0\x05\0", &[], Err(eof!(106))),
    (100, b"\x03\0\0\0\x05\0\0", &[], Err(eof!(106))),
    (100, b"\x0c\0\0\0\x05\0\0\0\xe8\x03\0\0\xe9\x03\0\0\xff\xff", &[FIRST_SET], Err(eof!(116))),
];

// Where the entries of a set begin, which its header says.
fn base_of<R: Reader>(header: &StrOffsetsHeader<R>) -> DebugStrOffsetsBase<R::Offset> {
    let size = match header.format() {
        Dwarf32 => R::Offset::from_u8(8),
        Dwarf64 => R::Offset::from_u8(16),
    };
    DebugStrOffsetsBase(header.offset().wrapping_add(size))
}

fn offset_by_index<R: Reader>(
    section: &DebugStrOffsets<R>,
    header: &StrOffsetsHeader<R>,
    index: u8,
) -> Result<u64> {
    let index = DebugStrOffsetsIndex(R::Offset::from_u8(index));
    let offset = section.get_str_offset(header.format(), base_of(header), index)?;
    Ok(offset.0.into_u64())
}

fn next_offset<R: Reader>(entries: &mut StrOffsetsEntryIter<R>) -> Result<Option<u64>> {
    match entries.next()? {
        Some(offset) => Ok(Some(offset.0.into_u64())),
        None => Ok(None),
    }
}

// Ends the test where a set has other offsets, where an index names another one, or where one follows the last or an
// error.
fn check_entries<R: Reader>(
    rt: &impl Abort,
    section: &DebugStrOffsets<R>,
    header: &StrOffsetsHeader<R>,
    entries: &mut StrOffsetsEntryIter<R>,
    wanted: &Set,
) {
    let (_, _, _, offsets, end) = wanted;
    for (index, offset) in (0..255u8).zip(*offsets) {
        same(rt, next_offset(entries), Ok(Some(*offset)), wanted);
        let by_index = offset_by_index(section, header, index);
        same(rt, by_index, Ok(*offset), wanted);
    }
    same(rt, next_offset(entries), end.map(|()| None), wanted);
    for _ in 0..3 {
        same(rt, next_offset(entries), Ok(None), wanted);
    }
}

fn check_set<R: Reader>(
    rt: &impl Abort,
    section: &DebugStrOffsets<R>,
    header: &StrOffsetsHeader<R>,
    wanted: &Set,
) {
    let (offset, length, format, _, end) = wanted;
    let fields = (header.offset().into_u64(), header.length().into_u64());
    same(rt, fields, (*offset, *length), wanted);
    same(rt, header.format(), *format, wanted);
    match header.entries() {
        Ok(mut entries) => check_entries(rt, section, header, &mut entries, wanted),
        Err(error) => same(rt, Err(error), *end, wanted),
    }
}

// Ends the test where the next set is another one, or there is none.
fn check_next<R: Reader>(
    rt: &impl Abort,
    section: &DebugStrOffsets<R>,
    headers: &mut StrOffsetsHeaderIter<R>,
    wanted: &Set,
) -> Result<()> {
    match headers.next()? {
        Some(header) => check_set(rt, section, &header, wanted),
        None => assert!(rt; false, "no set {wanted:?}"),
    }
    Ok(())
}

// Ends the test where a section has other sets, or where one follows the last or an error.
fn check_sets<R: Reader, W: Debug + Copy>(
    rt: &impl Abort,
    section: &DebugStrOffsets<R>,
    (sets, end): (&[Set], Result<()>),
    what: W,
) -> Result<()> {
    let mut headers = section.headers()?;
    for set in sets {
        check_next(rt, section, &mut headers, set)?;
    }
    check_end(rt, &mut headers, end, what);
    Ok(())
}

// Ends the test where bytes whose first position is this one have other sets.
fn check_slice(rt: &impl Abort, first: u8, bytes: &[u8], sets: &[Set], end: Result<()>) {
    let section = DebugStrOffsets::from(reader_at(bytes, LittleEndian, first));
    let checked = check_sets(rt, &section, (sets, end), bytes);
    same(rt, checked, Ok(()), bytes);
}

#[test]
fn sets_end_at_the_first_error(rt: HostRuntime) {
    for (first, bytes, sets, end) in SETS {
        check_slice(&rt, *first, bytes, sets, *end);
    }
}

static TWENTY: &[u64] = &[
    1000, 1001, 1002, 1003, 1004, 1005, 1006, 1007, 1008, 1009, 1010, 1011, 1012, 1013, 1014, 1015,
    1016, 1017, 1018, 1019,
];

#[test]
fn twenty_words_are_a_set(rt: HostRuntime) -> std::result::Result<(), Fail> {
    let words = twenty_words(rt.alloc(), Dwarf32, false)?;
    let sets = [(0, 84, Dwarf32, TWENTY, Ok(()))];
    check_slice(&rt, 0, &words, &sets, Ok(()));
    Ok(())
}

// How deep the clones of a reader may go that counts in 32 bits, the sets that it reads of a section with the offset
// 2^32, what follows these, and whether it can begin.
#[rattlefmt::skip]
static REFUSED: &[(u8, &[Set], Result<()>, Result<()>)] = &[
    (0, &[], Ok(()), Err(OutOfMemory)),
    (1, &[], Err(OutOfMemory), Ok(())),
    (2, &[(0, 12, Dwarf64, &[], Err(OutOfMemory))], Ok(()), Ok(())),
    (3, &[(0, 12, Dwarf64, &[], Err(UnsupportedOffset))], Ok(()), Ok(())),
];

#[test]
fn refused_clones_and_offsets_end_a_walk(rt: HostRuntime) -> std::result::Result<(), Fail> {
    for (depth, sets, end, begins) in REFUSED {
        let section = DebugStrOffsets::from(owned(rt.alloc(), LARGE_OFFSET, *depth)?);
        let checked = check_sets(&rt, &section, (*sets, *end), *depth);
        same(&rt, checked, *begins, depth);
    }
    Ok(())
}
