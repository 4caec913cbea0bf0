//! Offsets that don't fit the 32 bits of a reader's.

use super::{FIVE, LONG, same, section_of, specification};
use dwarf_entry_core::{AttributeValue, EntriesRaw, parse_attribute};
use dwarf_read_core::Error::UnsupportedOffset;
use dwarf_read_core::RunTimeEndian::Little;
use dwarf_read_core::{DebugAbbrev, DebugAbbrevOffset, Encoding, Error, Reader, Result};
use dwarf_unit_core::DebugInfo;
use dwarf_uses::OwnedReader;
use std::alloc::Global;
use std::test::Fail;

// A form, bytes, the error in place of a value, and how many bytes remain after it. Then what
// skipping the value returns, and how many bytes remain.
type Row = (
    u16,
    &'static [u8],
    (Option<Error>, u32),
    (Option<Error>, u32),
);

#[rattlefmt::skip]
static NARROW: &[Row] = &[
    // Offsets and indexes
    (0x14, b"\xff\xff\xff\xff\0\0\0\0\xaa", (None, 1), (None, 1)),
    (0x14, b"\0\0\0\0\x01\0\0\0\xaa", (Some(UnsupportedOffset), 1), (None, 1)),
    (0x24, b"\0\0\0\0\x01\0\0\0\xaa", (Some(UnsupportedOffset), 1), (None, 1)),
    (0x15, b"\x80\x80\x80\x80\x10\xaa", (Some(UnsupportedOffset), 1), (None, 1)),
    (0x1a, b"\x80\x80\x80\x80\x10\xaa", (Some(UnsupportedOffset), 1), (None, 1)),
    (0x1b, b"\x80\x80\x80\x80\x10\xaa", (Some(UnsupportedOffset), 1), (None, 1)),
    (0x22, b"\x80\x80\x80\x80\x10\xaa", (Some(UnsupportedOffset), 1), (None, 1)),
    (0x23, b"\x80\x80\x80\x80\x10\xaa", (Some(UnsupportedOffset), 1), (None, 1)),
    // A number of bytes
    (0x09, b"\x80\x80\x80\x80\x10\xaa", (Some(UnsupportedOffset), 1), (Some(UnsupportedOffset), 1)),
    (0x18, b"\x80\x80\x80\x80\x10\xaa", (Some(UnsupportedOffset), 1), (Some(UnsupportedOffset), 1)),
    // Numbers that are no offsets
    (0x07, b"\0\0\0\0\x01\0\0\0\xaa", (None, 1), (None, 1)),
    (0x0f, b"\x80\x80\x80\x80\x10\xaa", (None, 1), (None, 1)),
    (0x20, b"\0\0\0\0\x01\0\0\0\xaa", (None, 1), (None, 1)),
];

// What is read of an attribute: its error, and how many bytes remain.
fn read(
    mem: Global,
    form: u16,
    encoding: Encoding,
    bytes: &[u8],
    depth: u8,
) -> Result<(Option<Error>, u32)> {
    let mut input = OwnedReader::new(mem, bytes.to_vec(mem)?, Little, depth)?;
    let found = parse_attribute(&mut input, encoding, specification(form));
    Ok((found.err(), input.len()))
}

// The same of skipping it.
fn skip(mem: Global, form: u16, bytes: &[u8]) -> Result<(Option<Error>, u32)> {
    let table = DebugAbbrev::new(b"\0", Little).abbreviations(mem, DebugAbbrevOffset(0))?;
    let input = OwnedReader::new(mem, section_of(mem, bytes)?, Little, 100)?;
    let end = input.len();
    let unit = DebugInfo::from(input).units()?.next()?;
    let Some(unit) = unit else {
        return Ok((None, 0));
    };
    let mut entries = EntriesRaw::new(&unit, &table)?;
    let found = entries.skip_attributes(&[specification(form)]);
    Ok((found.err(), end.wrapping_sub(entries.next_offset().0)))
}

#[test]
fn offsets_have_to_fit(rt: HostRuntime) -> std::result::Result<(), Fail> {
    let mem = rt.alloc();
    for (form, bytes, of_reading, of_skipping) in NARROW {
        same(&rt, read(mem, *form, FIVE, bytes, 100)?, *of_reading, bytes);
        same(&rt, skip(mem, *form, bytes)?, *of_skipping, bytes);
    }
    let word = b"\0\0\0\0\x01\0\0\0\xaa";
    for form in [0x0e, 0x10, 0x17, 0x1d, 0x1f, 0x1f20, 0x1f21] {
        same(
            &rt,
            read(mem, form, LONG, word, 100)?,
            (Some(UnsupportedOffset), 1),
            word,
        );
    }
    Ok(())
}

#[test]
fn a_clone_may_run_out_of_memory(rt: HostRuntime) -> std::result::Result<(), Fail> {
    let mem = rt.alloc();
    let block = b"\x011\xaa";
    let found = read(mem, 0x0a, FIVE, block, 0)?;
    same(&rt, found.0, Some(Error::OutOfMemory), block);
    Ok(())
}
