//! Readers: numbers of a fixed width, lengths, positions, parts and texts.

use super::{
    BIG, Call, LITTLE, Numbers, Row, Step, check_call, check_calls, check_numbers, check_reader,
    little,
};
use crate::tests::{end_requests, hash_of, same};
use dwarf_base_core::{Error, Format, Result, RunTimeEndian};
use dwarf_reader_core::{EndianSlice, Reader};
use std::alloc::Global;
use std::process::Abort;
use std::test::Fail;

const TEN: &[u8; 10] = &[0, 1, 2, 3, 4, 5, 6, 7, 8, 9];

const SIXTEEN: &[u8] = &[0xfe, 1, 2, 3, 4, 5, 6, 7, 8, 9, 10, 11, 12, 13, 14, 15];

const ONE: &[u8] = &[1, 0, 0, 0, 0, 0, 0, 0, 0, 0, 0, 0, 0, 0, 0, 0];

// Numbers of 1, 2, 4, 8 and 3 bytes.
#[rattlefmt::skip]
static WIDTHS: &[Row] = &[
    (LITTLE, SIXTEEN, &[(Call::Unsigned(1), Ok(0xfe), 1)]),
    (LITTLE, SIXTEEN, &[(Call::Signed(1), Ok(-2), 1)]),
    (LITTLE, SIXTEEN, &[(Call::Unsigned(2), Ok(0x01fe), 2)]),
    (LITTLE, SIXTEEN, &[(Call::Unsigned(4), Ok(0x0302_01fe), 4)]),
    (LITTLE, SIXTEEN, &[(Call::Unsigned(8), Ok(0x0706_0504_0302_01fe), 8)]),
    (BIG, SIXTEEN, &[(Call::Unsigned(2), Ok(0xfe01), 2)]),
    (BIG, SIXTEEN, &[(Call::Signed(2), Ok(-511), 2)]),
    (BIG, SIXTEEN, &[(Call::Signed(4), Ok(-0x01fe_fdfd), 4)]),
    (BIG, SIXTEEN, &[(Call::Signed(8), Ok(-0x01fe_fdfc_fbfa_f9f9), 8)]),
    (LITTLE, &[1, 2, 3], &[(Call::Unsigned(3), Ok(197_121), 3)]),
    (BIG, &[1, 2, 3], &[(Call::Unsigned(3), Ok(66_051), 3)]),
];

#[test]
fn numbers_have_a_width(rt: HostRuntime) {
    check_calls(&rt, WIDTHS);
    let big = EndianSlice::new(ONE, BIG).read_u128();
    let numbers = (little(ONE).read_u128(), big);
    same(&rt, numbers, (Ok(1), Ok(1 << 120)), "16 bytes");
}

// An initial length of twelve bytes.
const LONG: &[u8] = &[
    0xff, 0xff, 0xff, 0xff, 0x12, 0x34, 0x56, 0x78, 0x9a, 0xbc, 0xde, 0xff,
];

#[rattlefmt::skip]
static LENGTHS: Numbers = &[
    (&[0x12, 0x34, 0x56, 0x78], Ok(0x7856_3412), 4),
    (&[0xef, 0xff, 0xff, 0xff], Ok(0xffff_ffef), 4),
    (LONG, Ok(0xffde_bc9a_7856_3412), 12),
    (&[0xfe, 0xff, 0xff, 0xff], Err(Error::UnknownReservedLength(0xffff_fffe)), 4),
    (&[0xf0, 0xff, 0xff, 0xff], Err(Error::UnknownReservedLength(0xffff_fff0)), 4),
    (&[0xff, 0xff, 0xff, 0xff, 0x12, 0x34, 0x56, 0x78], Err(eof!(4)), 4),
    (&[0xff, 0xff, 0xff], Err(eof!(0)), 0),
];

// The size of a word in the format that a length tells.
static FORMATS: Numbers = &[(&[0x12, 0x34, 0x56, 0x78], Ok(4), 4), (LONG, Ok(8), 12)];

#[test]
fn lengths_tell_their_format(rt: HostRuntime) {
    check_numbers(&rt, Call::InitialLength, LENGTHS);
    check_numbers(&rt, Call::InitialLengthFormat, FORMATS);
}

// Numbers of the 32-bit and of the 64-bit format.
#[rattlefmt::skip]
static SHORT: Numbers = &[
    (&[0x67, 0x45, 0x23, 0x01], Ok(0x0123_4567), 4),
    (&[0xef, 0xcd, 0xab, 0x89, 0x67, 0x45, 0x23, 0x01], Ok(0x89ab_cdef), 4),
];

#[rattlefmt::skip]
static WIDE: Numbers = &[
    (&[0x67, 0x45, 0x23, 0x01, 0, 0, 0, 0], Ok(0x0123_4567), 8),
    (&[0xef, 0xcd, 0xab, 0x89, 0x67, 0x45, 0x23, 0x01], Ok(0x0123_4567_89ab_cdef), 8),
    (&[0xef, 0xcd, 0xab, 0x89, 0x67, 0x45, 0x23], Err(eof!(0)), 0),
];

#[test]
fn offsets_have_the_width_of_the_format(rt: HostRuntime) {
    for (format, rows) in [(Format::Dwarf32, SHORT), (Format::Dwarf64, WIDE)] {
        check_numbers(&rt, Call::Offset(format), rows);
        check_numbers(&rt, Call::Length(format), rows);
        check_numbers(&rt, Call::Word(format), rows);
    }
}

// What fails because bytes are missing, or for a size, consumes nothing.
#[rattlefmt::skip]
static SIZES: &[Row] = &[
    (LITTLE, &[1, 2, 3], &[
        (Call::Unsigned(4), Err(eof!(0)), 0),
        (Call::Array, Ok(0x03_0201), 3),
        (Call::Array, Err(eof!(3)), 3),
    ]),
    (LITTLE, &[1, 2, 3, 4], &[
        (Call::SizedOffset(3), Err(Error::UnsupportedOffsetSize(3)), 0),
        (Call::Address(3), Err(Error::UnsupportedAddressSize(3)), 0),
        (Call::SizedOffset(8), Err(eof!(0)), 0),
        (Call::Address(8), Err(eof!(0)), 0),
        (Call::Truncate(5), Err(eof!(0)), 0),
        (Call::Len, Ok(4), 0),
        (Call::SizedOffset(2), Ok(0x0201), 2),
        (Call::Address(1), Ok(3), 3),
        (Call::AddressSize, Ok(4), 4),
    ]),
    (LITTLE, &[4, 5, 6, 7, 8, 9], &[
        (Call::Unsigned(8), Err(eof!(0)), 0),
        (Call::Unsigned(4), Ok(0x0706_0504), 4),
        (Call::Unsigned(2), Ok(0x0908), 6),
    ]),
    (LITTLE, &[3], &[
        (Call::AddressSize, Err(Error::UnsupportedAddressSize(3)), 1),
        (Call::AddressSize, Err(eof!(1)), 1),
    ]),
];

#[test]
fn sizes_are_judged(rt: HostRuntime) {
    check_calls(&rt, SIZES);
}

// Cuts, the bytes that are left, and the strings one and two, of which no zero byte ends the second.
#[rattlefmt::skip]
static CUTS: &[Row] = &[
    (LITTLE, &[1, 2, 3, 4], &[
        (Call::Skip(3), Ok(0), 3),
        (Call::IsEmpty, Ok(0), 3),
        (Call::Empty, Ok(0), 3),
        (Call::IsEmpty, Ok(1), 3),
    ]),
    (LITTLE, TEN, &[
        (Call::Skip(11), Err(eof!(0)), 0),
        (Call::Skip(4), Ok(0), 4),
        (Call::Truncate(7), Err(eof!(4)), 4),
        (Call::Truncate(6), Ok(0), 4),
        (Call::Len, Ok(6), 4),
        (Call::Find(9), Ok(5), 4),
        (Call::Find(3), Err(eof!(4)), 4),
        (Call::SplitPosition(0), Ok(4), 4),
        (Call::Split(2), Ok(0x0504), 6),
        (Call::Unsigned(4), Ok(0x0908_0706), 10),
    ]),
    (LITTLE, TEN, &[(Call::Skip(3), Ok(0), 3), (Call::OffsetAfter(4), Ok(4), 7)]),
    (LITTLE, b"one\0two", &[
        (Call::String, Ok(0x65_6e6f), 4),
        (Call::String, Err(eof!(4)), 4),
        (Call::Unsigned(3), Ok(0x6f_7774), 7),
    ]),
];

#[test]
fn bytes_are_cut(rt: HostRuntime) {
    check_calls(&rt, CUTS);
}

// Positions next to and in one byte at position 100, which begins a number that doesn't end.
static POSITIONS: &[Step] = &[
    (Call::Lookup(99), Ok(-1), 100),
    (Call::Lookup(100), Ok(0), 100),
    (Call::Lookup(101), Ok(1), 100),
    (Call::Lookup(102), Ok(-1), 100),
    (Call::Uleb, Err(eof!(101)), 101),
];

#[test]
fn positions_begin_at_the_first(rt: HostRuntime) {
    check_reader(&rt, LITTLE, 100, &[0x80], POSITIONS);
}

fn check_part(rt: &impl Abort, part: EndianSlice<'_, RunTimeEndian>, wanted: &[u8], position: u64) {
    same(rt, part.slice(), wanted, wanted);
    same(rt, part.as_slice(), wanted, wanted);
    same(rt, part.offset_id().0, position, wanted);
}

#[test]
fn parts_are_cut(rt: HostRuntime) {
    let ten = EndianSlice::new(TEN, LITTLE);
    let (front, rest) = ten.split_at(3);
    let middle = rest.range(1..3);
    check_part(&rt, front, &[0, 1, 2], 0);
    check_part(&rt, rest, &[3, 4, 5, 6, 7, 8, 9], 3);
    check_part(&rt, middle, &[4, 5], 4);
    check_part(&rt, rest.range_from(5..), &[8, 9], 8);
    check_part(&rt, rest.range_to(..2), &[3, 4], 3);
    same(&rt, rest.offset_from(ten), 3, "the offset of the rest");
    let found = (middle.find(5), middle.find(6));
    same(&rt, found, (Some(1), None), "found in the middle");
}

#[test]
fn long_slices_are_searched(rt: HostRuntime) {
    let mut bytes = [0xff; 70];
    check_call(&rt, &bytes, (Call::Find(0), Err(eof!(0)), 0));
    bytes[69] = 0;
    check_call(&rt, &bytes, (Call::Find(0), Ok(69), 0));
}

#[test]
fn slices_are_equal_by_bytes_and_order(rt: HostRuntime) {
    let twice = [1, 2, 1, 2];
    let whole = EndianSlice::new(&twice, LITTLE);
    let (front, rest) = whole.split_at(2);
    let equal = [
        front == rest,
        front == whole,
        whole == EndianSlice::new(&twice, BIG),
    ];
    same(
        &rt,
        equal,
        [true, false, false],
        "at 0 and 2, other bytes, other order",
    );
    same(&rt, hash_of(&front), hash_of(&rest), "hash at 0 and at 2");
    let none: EndianSlice<'_, RunTimeEndian> = EndianSlice::default();
    let is_empty = (none == little(&[]), none.offset_id().0);
    same(&rt, is_empty, (true, 0), "by default");
}

#[test]
fn slices_have_their_derived_text(rt: HostRuntime) -> std::result::Result<(), Fail> {
    let text = format!(in rt.alloc(); "{:?}", little(&[1, 255]))?;
    let wanted = "EndianSlice { slice: [1, 255], endian: Little, end: 2 }";
    same(&rt, text.as_str(), wanted, "two bytes");
    Ok(())
}

// Bytes, their text, and their lossy text.
#[rattlefmt::skip]
static TEXTS: &[(&[u8], Result<&str>, &str)] = &[
    (b"", Ok(""), ""),
    (b"a\xc3\xa9", Ok("a\u{e9}"), "a\u{e9}"),
    (&[0xff], Err(Error::BadUtf8), "\u{fffd}"),
    (&[0xe2, 0x82, 0x61], Err(Error::BadUtf8), "\u{fffd}a"),
    (
        &[0x61, 0xf1, 0x80, 0x80, 0xe1, 0x80, 0xc2, 0x62, 0x80, 0x63, 0x80, 0xbf, 0x64],
        Err(Error::BadUtf8),
        "a\u{fffd}\u{fffd}\u{fffd}b\u{fffd}c\u{fffd}\u{fffd}d",
    ),
];

fn check_text<R: Reader>(rt: &impl Abort, input: &R, wanted: Result<&str>) {
    match input.to_string() {
        Ok(text) => same(rt, Ok(text.as_str()), wanted, "text"),
        Err(error) => same(rt, Err(error), wanted, "no text"),
    }
}

fn check_bytes<R: Reader>(rt: &impl Abort, input: &R, wanted: &[u8]) -> Result<()> {
    same(rt, input.to_slice()?.as_slice(), wanted, wanted);
    Ok(())
}

fn check_lossy<R: Reader>(rt: &impl Abort, mem: Global, input: &R, wanted: &str) -> Result<()> {
    same(rt, input.to_string_lossy(mem)?.as_str(), wanted, wanted);
    Ok(())
}

fn check_texts<R: Reader>(
    rt: &impl Abort,
    mem: Global,
    input: &R,
    (bytes, text, lossy): (&[u8], Result<&str>, &str),
) -> Result<()> {
    check_text(rt, input, text);
    check_bytes(rt, input, bytes)?;
    check_lossy(rt, mem, input, lossy)
}

#[test]
fn texts_are_read(rt: HostRuntime) {
    for row in TEXTS {
        let (bytes, text, _) = *row;
        same(&rt, little(bytes).to_string(), text, bytes);
        let checked = check_texts(&rt, rt.alloc(), &little(bytes), *row);
        same(&rt, checked, Ok(()), bytes);
    }
}

// If an allocation fails, a call returns the text or OutOfMemory.
#[test]
fn refused_memory_for_a_text(rt: HostRuntime) {
    for (bytes, _, wanted) in TEXTS {
        match little(bytes).to_string_lossy(rt.alloc()) {
            Ok(text) => same(&rt, text.as_str(), *wanted, bytes),
            Err(error) => same(&rt, error, Error::OutOfMemory, bytes),
        }
    }
    end_requests(&rt, rt.alloc());
}
