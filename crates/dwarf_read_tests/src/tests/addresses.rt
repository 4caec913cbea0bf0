//! Addresses by their index, and the sets of addresses.

use super::worked::{CUT_SET, FOUR_ADDRESSES, TWO_SETS};
use super::{check_end, reader_at, same};
use dwarf_read_core::Error::{
    UnknownReservedLength, UnknownVersion, UnsupportedAddressSize, UnsupportedOffset,
    UnsupportedSegmentSize,
};
use dwarf_read_core::Format::{self, Dwarf32, Dwarf64};
use dwarf_read_core::RunTimeEndian::{self, Big, Little};
use dwarf_read_core::{
    AddrEntryIter, AddrHeader, AddrHeaderIter, DebugAddr, DebugAddrBase, DebugAddrIndex, Encoding,
    EndianSlice, LittleEndian, Reader, ReaderOffset, Result,
};
use std::alloc::{AllocError, Global};
use std::fmt::Debug;
use std::process::Abort;
use std::test::Fail;

const BYTES: &[u8] =
    b"\x2c\0\0\0\x05\0\x04\0\x78\x56\x34\x12\xef\xbe\xad\xde\xf0\xde\xbc\x9a\x78\x56\x34\x12";

const ZEROS: &[u8] = &[0; 64];

// Two zero bytes more.
const MORE_ZEROS: &[u8] = &[0; 66];

// Bytes, their order, a size, a base and an index, and the address that they name.
#[rattlefmt::skip]
static ADDRESSES: &[(&[u8], RunTimeEndian, u8, usize, usize, Result<u64>)] = &[
    (BYTES, Little, 4, 8, 0, Ok(0x1234_5678)),
    (BYTES, Little, 4, 8, 1, Ok(0xdead_beef)),
    (BYTES, Little, 4, 8, 3, Ok(0x1234_5678)),
    (BYTES, Little, 8, 8, 0, Ok(0xdead_beef_1234_5678)),
    (BYTES, Little, 8, 8, 1, Ok(0x1234_5678_9abc_def0)),
    (BYTES, Little, 2, 8, 1, Ok(0x1234)),
    (BYTES, Little, 1, 8, 3, Ok(0x12)),
    (BYTES, Big, 4, 8, 0, Ok(0x7856_3412)),
    (BYTES, Big, 4, 8, 1, Ok(0xefbe_adde)),
    (BYTES, Big, 4, 8, 3, Ok(0x7856_3412)),
    (BYTES, Big, 8, 8, 0, Ok(0x7856_3412_efbe_adde)),
    (BYTES, Big, 8, 8, 1, Ok(0xf0de_bc9a_7856_3412)),
    (BYTES, Big, 2, 8, 1, Ok(0x3412)),
    (BYTES, Big, 1, 8, 3, Ok(0x12)),
    (BYTES, Little, 4, 8, 4, Err(eof!(24))),
    (BYTES, Little, 4, 8, 5, Err(eof!(8))),
    (BYTES, Little, 4, 10, 3, Err(eof!(22))),
    (BYTES, Little, 8, 8, 2, Err(eof!(24))),
    (BYTES, Little, 4, 24, 0, Err(eof!(24))),
    (BYTES, Little, 4, 25, 0, Err(eof!(0))),
    (BYTES, Little, 0, 8, 7, Err(UnsupportedAddressSize(0))),
    (ZEROS, Little, 8, 0, 1 << 61, Err(UnsupportedOffset)),
    (MORE_ZEROS, Little, 8, 0, 1 << 61, Err(UnsupportedOffset)),
    (ZEROS, Little, 8, 65, 1 << 61, Err(eof!(0))),
    (ZEROS, Little, 3, 0, 21, Err(UnsupportedAddressSize(3))),
    (MORE_ZEROS, Little, 3, 0, 21, Err(UnsupportedAddressSize(3))),
    (ZEROS, Little, 3, 0, 22, Err(eof!(0))),
    (MORE_ZEROS, Little, 3, 0, 22, Err(UnsupportedAddressSize(3))),
    (ZEROS, Little, 3, 0, usize::MAX, Err(UnsupportedOffset)),
    (ZEROS, Little, 255, 0, usize::MAX, Err(UnsupportedOffset)),
    (ZEROS, Little, 8, 60, 0, Err(eof!(60))),
    (ZEROS, Little, 8, 1, 8, Err(eof!(1))),
    (b"", Little, 4, 0, 0, Err(eof!(0))),
];

// The address of a size at an index, counted from a base.
fn address_in(
    bytes: &[u8],
    order: RunTimeEndian,
    size: u8,
    base: usize,
    index: usize,
) -> Result<u64> {
    let section = DebugAddr::from(EndianSlice::new(bytes, order));
    section.get_address(size, DebugAddrBase(base), DebugAddrIndex(index))
}

#[test]
fn addresses_are_looked_up(rt: HostRuntime) {
    for (bytes, order, size, base, index, wanted) in ADDRESSES {
        let address = address_in(bytes, *order, *size, *base, *index);
        same(&rt, address, *wanted, (*size, *base, *index));
    }
}

// Sizes and bases of twenty addresses.
static TWENTY: &[(u8, usize)] = &[(4, 8), (4, 16), (8, 8), (8, 16)];

// As many bytes as the base says, and then the addresses 1000 to 1019 of a size of four or eight.
fn twenty_addresses(
    mem: Global,
    size: u8,
    base: usize,
) -> std::result::Result<Vec<u8>, AllocError> {
    let mut bytes = Vec::new(mem);
    for _ in 0..base {
        bytes.push(0xaa)?;
    }
    for address in 1000..1020u64 {
        let whole = address.to_le_bytes();
        if size == 4 {
            bytes.extend_from_slice(&whole[..4])?;
        } else {
            bytes.extend_from_slice(&whole)?;
        }
    }
    Ok(bytes)
}

#[test]
fn twenty_addresses_are_looked_up(rt: HostRuntime) -> std::result::Result<(), Fail> {
    for (size, base) in TWENTY {
        let bytes = twenty_addresses(rt.alloc(), *size, *base)?;
        for index in 0..20usize {
            let address = address_in(&bytes, Little, *size, *base, index);
            same(&rt, address, Ok(1000 + index as u64), (*size, *base, index));
        }
    }
    Ok(())
}

// A set: its offset, its length, its format, the size of its addresses, these, and how they end.
pub(super) type Set = (u64, u64, Format, u8, &'static [u64], Result<()>);

// The first position, bytes, the sets that they have, and what follows these.
#[rattlefmt::skip]
static SETS: &[(u8, &[u8], &[Set], Result<()>)] = &[
    (0, b"", &[], Ok(())),
    (0, b"\x04\0\0\0\x05\0\x08\0", &[(0, 4, Dwarf32, 8, &[], Ok(()))], Ok(())),
    (0, CUT_SET, &[(0, 9, Dwarf32, 4, &[0x1234_5678], Err(eof!(12)))], Ok(())),
    (0, TWO_SETS, &[
        (0, 12, Dwarf32, 4, &[0x1234_5678, 0xdead_beef], Ok(())),
        (16, 20, Dwarf64, 8, &[0x1234_5678_9abc_def0, 0xdead_beef_dead_beef], Ok(())),
    ], Ok(())),
    // A header is cut short, or the set's length reaches past the end.
    (0, b"\0\0\0\0", &[], Err(eof!(4))),
    (0, b"\x01\0\0\0\x05", &[], Err(eof!(4))),
    (0, b"\x02\0\0\0\x05\0", &[], Err(eof!(6))),
    (0, b"\x03\0\0\0\x05\0\x08", &[], Err(eof!(7))),
    (0, b"\x05\0\0\0\x05\0\x08\0", &[], Err(eof!(4))),
    (0, b"\xff\xff\xff", &[], Err(eof!(0))),
    (0, b"\xff\xff\xff\xff\x12\x34\x56\x78", &[], Err(eof!(4))),
    (100, CUT_SET, &[(0, 9, Dwarf32, 4, &[0x1234_5678], Err(eof!(112)))], Ok(())),
    (100, b"\xff\xff\xff", &[], Err(eof!(100))),
    (100, b"\x05\0\0\0\x05\0\x08\0", &[], Err(eof!(104))),
    (100, b"\x03\0\0\0\x05\0\x08", &[], Err(eof!(107))),
    // A field of a header has a value that isn't supported.
    (0, b"\x04\0\0\0\x05\0\x03\0", &[], Err(UnsupportedAddressSize(3))),
    (0, b"\x04\0\0\0\x05\0\x08\x01", &[], Err(UnsupportedSegmentSize(1))),
    (0, b"\xf0\xff\xff\xff", &[], Err(UnknownReservedLength(0xffff_fff0))),
    (0, b"\x04\0\0\0\x04\0\x08\0", &[], Err(UnknownVersion(4))),
    // No set follows an error.
    (0, b"\x04\0\0\0\x04\0\x08\0\x09\0\0\0\x05\0\x04\0\x78\x56\x34\x12\xaa", &[],
        Err(UnknownVersion(4))),
];

// Ends the test where a set has other addresses, or where one follows the last or an error.
fn check_entries<R: Reader>(
    rt: &impl Abort,
    entries: &mut AddrEntryIter<R>,
    wanted: &[u64],
    end: Result<()>,
) {
    for address in wanted {
        same(rt, entries.next(), Ok(Some(*address)), wanted);
    }
    same(rt, entries.next(), end.map(|()| None), wanted);
    for _ in 0..8 {
        same(rt, entries.next(), Ok(None), wanted);
    }
}

fn check_set<R: Reader>(rt: &impl Abort, header: &AddrHeader<R>, wanted: &Set) {
    let (offset, length, format, size, addresses, end) = wanted;
    let fields = (header.offset().0.into_u64(), header.length().into_u64());
    same(rt, fields, (*offset, *length), wanted);
    let encoding = Encoding {
        address_size: *size,
        format: *format,
        version: 5,
    };
    same(rt, header.encoding(), encoding, wanted);
    match header.entries() {
        Ok(mut entries) => check_entries(rt, &mut entries, addresses, *end),
        Err(error) => same(rt, Err(error), *end, wanted),
    }
}

// Ends the test where the next set is another one, or there is none.
fn check_next<R: Reader>(
    rt: &impl Abort,
    headers: &mut AddrHeaderIter<R>,
    wanted: &Set,
) -> Result<()> {
    match headers.next()? {
        Some(header) => check_set(rt, &header, wanted),
        None => assert!(rt; false, "no set {wanted:?}"),
    }
    Ok(())
}

// Ends the test where a section has other sets, or where one follows the last or an error.
pub(super) fn check_sets<R: Reader, W: Debug + Copy>(
    rt: &impl Abort,
    section: &DebugAddr<R>,
    (sets, end): (&[Set], Result<()>),
    what: W,
) -> Result<()> {
    let mut headers = section.headers()?;
    for set in sets {
        check_next(rt, &mut headers, set)?;
    }
    check_end(rt, &mut headers, end, what);
    Ok(())
}

#[test]
fn sets_end_at_the_first_error(rt: HostRuntime) {
    for (first, bytes, sets, end) in SETS {
        let section = DebugAddr::from(reader_at(bytes, LittleEndian, *first));
        let checked = check_sets(&rt, &section, (*sets, *end), *bytes);
        same(&rt, checked, Ok(()), bytes);
    }
}

// Bytes, the length of the set that they begin with or the error, and what remains after either.
#[rattlefmt::skip]
static FRONTS: &[(&[u8], Result<usize>, &[u8])] = &[
    (b"\x04\0\0\0\x05\0\x04\0next", Ok(4), b"next"),
    // A set whose header is refused is skipped, too.
    (b"\x04\0\0\0\x06\0\x04\0next", Err(UnknownVersion(6)), b"next"),
    (b"\x04\0\0\0\x05\0\x04\x01next", Err(UnsupportedSegmentSize(1)), b"next"),
    (b"\x02\0\0\0\x05\0next", Err(eof!(6)), b"next"),
    // Without a whole set, what is measured remains; without a whole length, what comes before that.
    (b"\x05\0\0\0\x05\0\x04\0", Err(eof!(4)), b"\x05\0\x04\0"),
    (b"\xf0\xff\xff\xffnext", Err(UnknownReservedLength(0xffff_fff0)), b"next"),
    (b"\xff\xff\xff\xff\x04\0\0", Err(eof!(4)), b"\x04\0\0"),
    (b"\x04\0\0", Err(eof!(0)), b"\x04\0\0"),
];

#[test]
fn refused_sets_are_skipped(rt: HostRuntime) {
    for (bytes, length, rest) in FRONTS {
        let mut input = EndianSlice::new(bytes, LittleEndian);
        let header = AddrHeader::parse(&mut input, 0);
        same(&rt, header.map(|header| header.length()), *length, *bytes);
        same(&rt, input.slice(), *rest, *bytes);
    }
}

// Appends the addresses of a section's sets, up to the first error.
pub(super) fn walk<R: Reader>(section: &DebugAddr<R>, addresses: &mut Vec<u64>) -> Result<()> {
    for header in section.headers()? {
        append_set(&header?, addresses)?;
    }
    Ok(())
}

fn append_set<R: Reader>(header: &AddrHeader<R>, addresses: &mut Vec<u64>) -> Result<()> {
    for address in header.entries()? {
        push(address, addresses)?;
    }
    Ok(())
}

fn push(address: Result<u64>, addresses: &mut Vec<u64>) -> Result<()> {
    Ok(addresses.push(address?)?)
}

// Ends the test where the sets in these bytes don't have that many of the four addresses up to the first error, or have
// another error.
fn check_walk(rt: &impl Abort, mem: Global, bytes: &[u8], count: usize, end: Result<()>) {
    let (mut found, wanted) = (Vec::new(mem), &FOUR_ADDRESSES[..count.min(4)]);
    let section = DebugAddr::from(EndianSlice::new(bytes, LittleEndian));
    same(rt, walk(&section, &mut found), end, bytes);
    same(rt, found.as_slice(), wanted, bytes);
}

// How many addresses the first bytes of two sets have, and their first error.
fn cut(len: usize) -> (usize, Result<()>) {
    match len {
        0 => (0, Ok(())),
        1..=3 => (0, Err(eof!(0))),
        4..=15 => (0, Err(eof!(4))),
        16 => (2, Ok(())),
        17..=19 => (2, Err(eof!(16))),
        20..=27 => (2, Err(eof!(20))),
        28..=47 => (2, Err(eof!(28))),
        _ => (4, Ok(())),
    }
}

#[test]
fn cut_sets_end_early(rt: HostRuntime) {
    for len in 0..49usize {
        let (count, end) = cut(len);
        check_walk(&rt, rt.alloc(), &TWO_SETS[..len], count, end);
    }
}
