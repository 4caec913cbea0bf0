//! Attributes that are skipped, and what remains.

use super::{eof, same, section_of, specifications};
use dwarf_entry_core::EntriesRaw;
use dwarf_read_core::Error::{BadUnsignedLeb128, UnknownForm};
use dwarf_read_core::RunTimeEndian::Little;
use dwarf_read_core::{AttributeSpecification, DebugAbbrev, DebugAbbrevOffset, DwForm, Result};
use dwarf_unit_core::DebugInfo;
use std::alloc::Global;
use std::test::Fail;

// Forms, the bytes of a unit's entries, what skipping returns, and where it stops. The entries begin
// at offset 12 of the unit, and an error has that position, too.
type Row = (&'static [u16], &'static [u8], Result<()>, usize);

#[rattlefmt::skip]
static SKIPS: &[Row] = &[
    (&[], b"\xaa", Ok(()), 12),
    // Numbers of fixed sizes
    (&[0x01, 0x0b, 0x05, 0x06, 0x07], b"12345678\x01\x01\x02\x01\x02\x03\x0412345678\xaa", Ok(()), 35),
    (&[0x0c, 0x11, 0x12, 0x13, 0x14, 0x20], b"1121234123456781234567812\xaa", Ok(()), 36),
    (&[0x25, 0x26, 0x27, 0x28, 0x29, 0x2a, 0x2b, 0x2c], b"12123123411212312341\xaa", Ok(()), 32),
    (&[0x1e], b"0123456789abcdef\xaa", Ok(()), 28),
    (&[0x1c, 0x24], b"123412345678\xaa", Ok(()), 24),
    // Words of the format
    (&[0x0e, 0x1d, 0x1f, 0x17, 0x10, 0x1f20, 0x1f21], b"1234123412341234123412341234\xaa", Ok(()), 40),
    // LEB128 numbers, also those that no call reads
    (&[0x0d, 0x0f, 0x15, 0x1a, 0x1b, 0x22, 0x23, 0x1f01, 0x1f02], b"\x7f\x80\x01\x01\x01\x80\0\x01\x01\x01\x01\xaa", Ok(()), 23),
    (&[0x0f], b"\xff\xff\xff\xff\xff\xff\xff\xff\xff\xff\x7f\xaa", Ok(()), 23),
    // No bytes
    (&[0x19, 0x21], b"\xaa", Ok(()), 12),
    // Blocks, expressions and strings
    (&[0x0a, 0x03, 0x04], b"\x011\x02\x0012\0\0\0\0\xaa", Ok(()), 22),
    (&[0x09, 0x18], b"\x811\x021\0\xaa", Err(eof!(14)), 14),
    (&[0x09, 0x18], b"\x81\x001\x0212\xaa", Ok(()), 18),
    (&[0x08, 0x08], b"ab\0\0\xaa", Ok(()), 16),
    // An indirect form
    (&[0x16, 0x0b], b"\x16\x0512\x01\xaa", Ok(()), 17),
    (&[0x16], b"\x21\xaa", Ok(()), 13),
    // Missing bytes: the error has the position of the part that isn't whole
    (&[0x0b, 0x05], b"\x01\x02", Err(eof!(13)), 13),
    (&[0x06, 0x06], b"1234123", Err(eof!(16)), 16),
    (&[0x0b, 0x0f], b"\x01\x80", Err(eof!(14)), 14),
    (&[0x0b, 0x0a], b"\x01\x021", Err(eof!(14)), 14),
    (&[0x0b, 0x03], b"\x01\x02", Err(eof!(13)), 13),
    (&[0x0b, 0x08], b"\x01ab", Err(eof!(13)), 13),
    (&[0x16], b"\x16\x80", Err(eof!(14)), 14),
    (&[0x16], b"\x05\x01", Err(eof!(13)), 13),
    (&[0x09], b"\xff\xff\xff\xff\xff\xff\xff\xff\xff\x7f", Err(BadUnsignedLeb128), 22),
    (&[0x16], b"\xff\xff\x04", Err(BadUnsignedLeb128), 15),
    // No form
    (&[0x0b, 0x02, 0x0b], b"\x01\x02\x03", Err(UnknownForm(DwForm(2))), 13),
    (&[0x16], b"\x02\x03", Err(UnknownForm(DwForm(2))), 13),
];

// What skipping returns, and where it stops.
fn skip(
    mem: Global,
    section: &[u8],
    specs: &[AttributeSpecification],
) -> Result<(Result<()>, usize)> {
    let table = DebugAbbrev::new(b"\0", Little).abbreviations(mem, DebugAbbrevOffset(0))?;
    let unit = DebugInfo::new(section, Little).units()?.next()?;
    let Some(unit) = unit else {
        return Ok((Ok(()), 0));
    };
    let mut entries = EntriesRaw::new(&unit, &table)?;
    let found = entries.skip_attributes(specs);
    Ok((found, entries.next_offset().0))
}

#[test]
fn skipping_judges_no_value(rt: HostRuntime) -> std::result::Result<(), Fail> {
    let mem = rt.alloc();
    for (forms, bytes, wanted, offset) in SKIPS {
        let section = section_of(mem, bytes)?;
        let specs = specifications(mem, forms)?;
        same(&rt, skip(mem, &section, &specs)?, (*wanted, *offset), bytes);
    }
    Ok(())
}
