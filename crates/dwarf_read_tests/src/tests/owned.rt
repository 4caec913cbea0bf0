//! The owned reader: 32-bit offsets, and clones that fail.

use super::addresses::{Set, check_sets, walk};
use super::tables::is_table;
use super::worked::{FOUR_ADDRESSES, STRINGS, TWO_SETS, UNIT, UNIT_TABLE};
use super::{check_bytes, check_end, end_requests, same};
use dwarf_read_core::Error::{OutOfMemory, UnsupportedOffset};
use dwarf_read_core::Format::{self, Dwarf32, Dwarf64};
use dwarf_read_core::{
    Abbreviations, AbbreviationsCache, AbbreviationsCacheStrategy, AddrHeaderIter, DebugAbbrev,
    DebugAbbrevOffset, DebugAddr, DebugAddrBase, DebugAddrIndex, DebugStr, DebugStrOffset,
    DebugStrOffsets, DebugStrOffsetsBase, DebugStrOffsetsIndex, EndianSlice, Error, LittleEndian,
    Reader, ReaderOffset, Result, RunTimeEndian, Section, read_u8_array,
};
use dwarf_uses::OwnedReader;
use std::alloc::Global;
use std::iter::once;
use std::process::Abort;
use std::rc::Rc;
use std::test::Fail;

// A reader whose clones may go so deep.
pub(super) fn owned(mem: Global, bytes: &[u8], depth: u8) -> Result<OwnedReader> {
    OwnedReader::new(mem, bytes.to_vec(mem)?, RunTimeEndian::Little, depth)
}

#[test]
fn constants_tell_of_clones(rt: HostRuntime) {
    let of_slices = <EndianSlice<'_, LittleEndian> as Reader>::CLONE_IS_FREE;
    same(&rt, of_slices, true, "slices");
    let of_owned = <OwnedReader as Reader>::CLONE_IS_FREE;
    same(&rt, of_owned, false, "owned bytes");
}

// Ends the test where the strings one and two aren't there, or one has a clone.
fn check_parts<R: Reader>(rt: &impl Abort, mem: Global, strings: &mut R) -> Result<()> {
    check_one(rt, mem, &mut strings.read_null_terminated_slice()?)?;
    same(rt, strings.offset_id().0, 4, "after one");
    check_two(rt, &mut strings.split(R::Offset::from_u8(3))?)
}

fn check_one<R: Reader>(rt: &impl Abort, mem: Global, one: &mut R) -> Result<()> {
    same(rt, one.len().into_u64(), 3, "the length of one");
    check_refused(rt, one);
    same(rt, one.offset_id().0, 0, "the position of one");
    check_text(rt, mem, one)?;
    same(rt, read_u8_array::<_, 3>(one)?, *b"one", "three bytes");
    Ok(())
}

fn check_refused<R: Reader>(rt: &impl Abort, one: &mut R) {
    same(rt, one.try_clone().err(), Some(OutOfMemory), "a clone");
    let part = one.split(R::Offset::from_u8(1));
    same(rt, part.err(), Some(OutOfMemory), "a part");
}

fn check_text<R: Reader>(rt: &impl Abort, mem: Global, one: &R) -> Result<()> {
    same(rt, one.to_string()?.as_str(), "one", "text");
    same(rt, one.to_string_lossy(mem)?.as_str(), "one", "lossy");
    Ok(())
}

fn check_two<R: Reader>(rt: &impl Abort, two: &mut R) -> Result<()> {
    check_bytes(rt, two, b"two")?;
    same(rt, two.read_sleb128()?, -12, "t");
    two.skip_leb128()?;
    same(rt, two.offset_id().0, 6, "after w");
    Ok(())
}

#[test]
fn parts_have_one_clone_fewer(rt: HostRuntime) -> std::result::Result<(), Fail> {
    let mut strings = owned(rt.alloc(), b"one\0two\0", 1)?;
    check_parts(&rt, rt.alloc(), &mut strings)?;
    Ok(())
}

// A length of 2^32 in the 64-bit format.
const LONG: &[u8] = &[0xff, 0xff, 0xff, 0xff, 0, 0, 0, 0, 1, 0, 0, 0];

#[test]
fn lengths_have_32_bits(rt: HostRuntime) -> std::result::Result<(), Fail> {
    let mut reader = owned(rt.alloc(), LONG, 0)?;
    let error = reader.read_initial_length().err();
    same(&rt, error, Some(UnsupportedOffset), "a length");
    same(&rt, reader.offset_id().0, 12, "after the length");
    let section = DebugAddr::from(owned(rt.alloc(), LONG, 2)?);
    let checked = check_sets(&rt, &section, (&[], Err(UnsupportedOffset)), LONG);
    same(&rt, checked, Ok(()), "a set");
    Ok(())
}

// In a section of one word of 2^32: a format, an index, and the error in place of the offset that it names.
static ERRORS: &[(Format, u32, Error)] = &[
    (Dwarf64, 0, UnsupportedOffset),
    (Dwarf32, 1 << 30, UnsupportedOffset),
    (Dwarf32, (1 << 30) - 1, eof!(0)),
];

#[test]
fn offsets_have_32_bits(rt: HostRuntime) -> std::result::Result<(), Fail> {
    let section = DebugStrOffsets::from(owned(rt.alloc(), &LONG[4..], 1)?);
    for (format, index, wanted) in ERRORS {
        let (base, place) = (DebugStrOffsetsBase(0), DebugStrOffsetsIndex(*index));
        let error = section.get_str_offset(*format, base, place).err();
        same(&rt, error, Some(*wanted), index);
    }
    Ok(())
}

// Whether a call returns the whole of what is wanted.
type Answer = Result<bool>;

// Ends the test where a call returns something else: OutOfMemory if clones may not go as deep as it needs, and else
// what is wanted.
fn check_depth(rt: &impl Abort, depth: u8, needed: u8, answer: Answer, what: &str) {
    let is_refused = depth < needed;
    let wanted = if is_refused {
        Err(OutOfMemory)
    } else {
        Ok(true)
    };
    same(rt, answer, wanted, (what, depth));
}

fn is_unit(table: Result<Abbreviations>) -> Answer {
    Ok(is_table(&table?, UNIT_TABLE))
}

fn is_shared_unit(table: Result<Rc<Abbreviations>>) -> Answer {
    Ok(is_table(&*table?, UNIT_TABLE))
}

fn is_kept_unit<R: Reader>(
    mem: Global,
    section: &DebugAbbrev<R>,
    offset: DebugAbbrevOffset<R::Offset>,
) -> Answer {
    let mut cache = AbbreviationsCache::new(mem);
    cache.populate(AbbreviationsCacheStrategy::All, section, once(Ok(offset)))?;
    is_shared_unit(cache.get(section, offset))
}

fn check_tables<R: Reader>(rt: &impl Abort, mem: Global, depth: u8, section: &DebugAbbrev<R>) {
    let offset = DebugAbbrevOffset(R::Offset::from_u8(0));
    let lenient = is_unit(section.abbreviations(mem, offset));
    check_depth(rt, depth, 1, lenient, "lenient");
    let strict = is_unit(section.abbreviations_strict(mem, offset));
    check_depth(rt, depth, 1, strict, "strict");
    let fresh = is_shared_unit(AbbreviationsCache::new(mem).get(section, offset));
    check_depth(rt, depth, 1, fresh, "fresh");
    let kept = is_kept_unit(mem, section, offset);
    check_depth(rt, depth, 1, kept, "kept");
}

fn is_two<R: Reader>(part: &R) -> Answer {
    Ok(part.to_slice()?.as_slice() == b"two".as_slice() && part.offset_id().0 == 4)
}

fn is_second_string<R: Reader>(section: &DebugStr<R>) -> Answer {
    is_two(&section.get_str(DebugStrOffset(R::Offset::from_u8(4)))?)
}

// The same bytes, as a range of the section.
fn is_range<R: Reader>(section: &DebugStr<R>) -> Answer {
    is_two(section.dwp_range(4, 3)?.reader())
}

fn check_strings<R: Reader>(rt: &impl Abort, depth: u8, section: &DebugStr<R>) {
    check_depth(rt, depth, 2, is_second_string(section), "a string");
    check_depth(rt, depth, 1, is_range(section), "a range");
}

// The second address of the first set.
fn is_second_address<R: Reader>(section: &DebugAddr<R>) -> Answer {
    let (base, index) = (R::Offset::from_u8(8), R::Offset::from_u8(1));
    let address = section.get_address(4, DebugAddrBase(base), DebugAddrIndex(index))?;
    Ok(address == FOUR_ADDRESSES[1])
}

fn are_all_addresses<R: Reader>(mem: Global, section: &DebugAddr<R>) -> Answer {
    let mut found = Vec::new(mem);
    walk(section, &mut found)?;
    Ok(found.as_slice() == FOUR_ADDRESSES.as_slice())
}

fn check_addresses<R: Reader>(rt: &impl Abort, mem: Global, depth: u8, section: &DebugAddr<R>) {
    check_depth(rt, depth, 1, is_second_address(section), "an address");
    check_depth(rt, depth, 3, are_all_addresses(mem, section), "sets");
}

// Ends the test unless a table, a string and addresses are read exactly if readers may be cloned deep enough.
fn check_answers<R: Reader>(rt: &impl Abort, mem: Global, depth: u8, sections: (R, R, R)) {
    let (unit, strings, sets) = sections;
    check_tables(rt, mem, depth, &unit.into());
    check_strings(rt, depth, &strings.into());
    check_addresses(rt, mem, depth, &sets.into());
}

#[test]
fn refused_clones_are_returned(rt: HostRuntime) -> std::result::Result<(), Fail> {
    let mem = rt.alloc();
    for depth in 0..4u8 {
        let (unit, strings) = (owned(mem, UNIT, depth)?, owned(mem, STRINGS, depth)?);
        let sets = owned(mem, TWO_SETS, depth)?;
        check_answers(&rt, mem, depth, (unit, strings, sets));
    }
    Ok(())
}

// How deep clones may go, the sets that are read of two sets, what follows these, and whether a walk can begin.
#[rattlefmt::skip]
static REFUSED: &[(u8, &[Set], Result<()>, Result<()>)] = &[
    (0, &[], Ok(()), Err(OutOfMemory)),
    (1, &[], Err(OutOfMemory), Ok(())),
    (2, &[
        (0, 12, Dwarf32, 4, &[], Err(OutOfMemory)),
        (16, 20, Dwarf64, 8, &[], Err(OutOfMemory)),
    ], Ok(()), Ok(())),
    (3, &[
        (0, 12, Dwarf32, 4, &[0x1234_5678, 0xdead_beef], Ok(())),
        (16, 20, Dwarf64, 8, &[0x1234_5678_9abc_def0, 0xdead_beef_dead_beef], Ok(())),
    ], Ok(()), Ok(())),
];

// An iterator that returned OutOfMemory has no other item.
#[test]
fn refused_clones_end_a_walk(rt: HostRuntime) -> std::result::Result<(), Fail> {
    for (depth, sets, end, begins) in REFUSED {
        let section = DebugAddr::from(owned(rt.alloc(), TWO_SETS, *depth)?);
        let checked = check_sets(&rt, &section, (*sets, *end), *depth);
        same(&rt, checked, *begins, depth);
    }
    Ok(())
}

// Appends the addresses of two sets up to the first error.
fn walk_owned(mem: Global, found: &mut Vec<u64>) -> Result<()> {
    walk(&DebugAddr::from(owned(mem, TWO_SETS, 3)?), found)
}

// If an allocation fails, the addresses up to some are there, and all if the outcome isn't OutOfMemory.
#[test]
fn refused_memory_for_clones(rt: HostRuntime) {
    let mem = rt.alloc();
    let mut found = Vec::new(mem);
    let outcome = walk_owned(mem, &mut found);
    let count = found.len().min(4);
    same(&rt, found.as_slice(), &FOUR_ADDRESSES[..count], "sets");
    match outcome {
        Ok(()) => same(&rt, count, 4, "sets"),
        Err(error) => same(&rt, error, OutOfMemory, "sets"),
    }
    end_requests(&rt, mem);
}

// Ends the test where the next set has another length, or is refused for another reason than memory.
fn check_length<R: Reader>(
    rt: &impl Abort,
    headers: &mut AddrHeaderIter<R>,
    wanted: u64,
) -> Result<()> {
    match headers.next()? {
        Some(header) => same(rt, header.length().into_u64(), wanted, "a length"),
        None => assert!(rt; false, "no set of {wanted}"),
    }
    Ok(())
}

fn check_lengths<R: Reader>(rt: &impl Abort, headers: &mut AddrHeaderIter<R>) -> Result<()> {
    check_length(rt, headers, 12)?;
    check_length(rt, headers, 20)
}

// Ends the test where a set follows an allocation that failed.
fn check_headers<R: Reader>(rt: &impl Abort, section: &DebugAddr<R>) -> Result<()> {
    let mut headers = section.headers()?;
    let checked = check_lengths(rt, &mut headers);
    check_end(rt, &mut headers, Ok(()), "sets");
    checked
}

fn check_owned(rt: &impl Abort, mem: Global) -> Result<()> {
    check_headers(rt, &owned(mem, TWO_SETS, 3)?.into())
}

#[test]
fn refused_memory_for_headers(rt: HostRuntime) {
    if let Err(error) = check_owned(&rt, rt.alloc()) {
        same(&rt, error, OutOfMemory, "sets");
    }
    end_requests(&rt, rt.alloc());
}
