//! The examples of the documentation, each as it is there. `tools/api` compares them.

use super::string_offset_sets::TWO_SETS as TWO_OFFSET_SETS;
use super::worked::{FOUR_ADDRESSES, STRINGS, TWO_SETS, UNIT};
use super::{little, same};
use dwarf_read_core::constants::{DW_TAG_compile_unit, DwTag};
use dwarf_read_core::leb128::write::Leb128;
use dwarf_read_core::{
    AbbreviationsCache, AbbreviationsCacheStrategy, BigEndian, DebugAbbrev, DebugAbbrevOffset,
    DebugAddr, DebugStr, DebugStrOffset, DebugStrOffsets, EndianSlice, Endianity, Error,
    LittleEndian, Reader, ReaderAddress, ReaderOffset, ReaderOffsetId, Result, Section,
};
use std::alloc::Global;
use std::test::Fail;

// The end of a part, at any type of offsets.
fn end_of<O: ReaderOffset>(start: O, len: O) -> Result<O> {
    let end = start
        .into_u64()
        .checked_add(len.into_u64())
        .ok_or(Error::UnsupportedOffset)?;
    O::from_u64(end)
}

#[test]
fn examples_of_numbers(rt: HostRuntime) {
    let bytes = [0x78, 0x56, 0x34, 0x12];
    let little = LittleEndian.read_u32(&bytes); // 0x12345678
    let big = BigEndian.read_u32(&bytes); // 0x78563412
    same(&rt, (little, big), (0x12345678, 0x78563412), "orders");

    let end = 0xfe_u64.add_sized(1, 1); // Ok(0xff), the last address of size 1
    let past = 0xff_u64.add_sized(1, 1); // Err(Error::AddressOverflow)
    let wrapped = 0xff_u64.wrapping_add_sized(1, 1); // 0
    same(&rt, end, Ok(0xff), "end");
    same(&rt, past, Err(Error::AddressOverflow), "past");
    same(&rt, wrapped, 0, "wrapped");
    same(&rt, end_of(2u32, 3), Ok(5), "end of a part");
}

#[test]
fn examples_of_leb128(rt: HostRuntime) {
    let number = Leb128::unsigned(12857);
    assert_eq!(rt; number.bytes(), [0xb9, 0x64].as_slice());

    let mut input = EndianSlice::new(&[0x81, 0x01, 0x00], LittleEndian);
    assert_eq!(rt; input.read_uleb128(), Ok(129));
    assert_eq!(rt; input.offset_id(), ReaderOffsetId(2));
}

fn tag_in(mem: Global, bytes: &[u8]) -> Result<Option<DwTag>> {
    let section = DebugAbbrev::new(bytes, LittleEndian);
    let table = section.abbreviations(mem, DebugAbbrevOffset(0))?;
    let tag = table.get(1).map(|abbreviation| abbreviation.tag());
    Ok(tag)
}

#[test]
fn examples_of_tables(rt: HostRuntime) {
    let tag = tag_in(rt.alloc(), UNIT);
    same(&rt, tag, Ok(Some(DW_TAG_compile_unit)), "tag");
}

// How many declarations a table from a cache has.
fn cached<R: Reader<Offset = usize>>(mem: Global, debug_abbrev: DebugAbbrev<R>) -> Result<usize> {
    let offsets = [DebugAbbrevOffset(0), DebugAbbrevOffset(0)]
        .into_iter()
        .map(Ok);
    let mut cache = AbbreviationsCache::new(mem);
    cache.populate(
        AbbreviationsCacheStrategy::Duplicates,
        &debug_abbrev,
        offsets,
    )?;
    let table = cache.get(&debug_abbrev, DebugAbbrevOffset(0))?;
    Ok(table.len())
}

#[test]
fn examples_of_caches(rt: HostRuntime) {
    let count = cached(rt.alloc(), DebugAbbrev::new(UNIT, LittleEndian));
    same(&rt, count, Ok(1), "cached");
}

// The bytes of a section of a file, by its name.
fn find_section(name: &str) -> Result<EndianSlice<'static, LittleEndian>> {
    let bytes = if name == ".debug_str" { STRINGS } else { b"" };
    Ok(EndianSlice::new(bytes, LittleEndian))
}

fn string_of_file() -> Result<&'static [u8]> {
    let debug_str = DebugStr::load(|id| find_section(id.name()))?;
    let string = debug_str.get_str(DebugStrOffset(4))?;
    Ok(string.slice())
}

#[test]
fn examples_of_sections(rt: HostRuntime) {
    same(&rt, string_of_file(), Ok(b"two".as_slice()), "string");
}

fn addresses_of<R: Reader>(mem: Global, section: &DebugAddr<R>) -> Result<Vec<u64>> {
    let mut addresses = Vec::new(mem);
    for header in section.headers()? {
        for address in header?.entries()? {
            addresses.push(address?)?;
        }
    }
    Ok(addresses)
}

fn offsets_of<R: Reader>(mem: Global, section: &DebugStrOffsets<R>) -> Result<Vec<R::Offset>> {
    let mut offsets = Vec::new(mem);
    for header in section.headers()? {
        for offset in header?.entries()? {
            offsets.push(offset?.0)?;
        }
    }
    Ok(offsets)
}

#[test]
fn examples_of_sets(rt: HostRuntime) -> std::result::Result<(), Fail> {
    let addresses = addresses_of(rt.alloc(), &little(TWO_SETS).into())?;
    assert_eq!(rt; addresses.as_slice(), FOUR_ADDRESSES.as_slice());
    let offsets = offsets_of(rt.alloc(), &little(TWO_OFFSET_SETS).into())?;
    assert_eq!(rt; offsets.as_slice(), [1000, 1001, 1000].as_slice());
    Ok(())
}
