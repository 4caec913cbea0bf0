//! LEB128 numbers, read and written.

use super::{Call, LITTLE, Numbers, Row, check_call, check_calls, check_numbers};
use crate::tests::same;
use dwarf_base_core::Error;
use dwarf_reader_core::leb128::write::{Leb128, sleb128_size, uleb128_size};
use std::process::Abort;

// The last of the thirty-one bytes alone ends a number.
const LONG: &[u8] = &[
    0x82, 0x82, 0x82, 0x82, 0x82, 0x82, 0x82, 0x82, 0x82, 0x82, 0x82, 0x82, 0x82, 0x82, 0x82, 0x82,
    0x82, 0x82, 0x82, 0x82, 0x82, 0x82, 0x82, 0x82, 0x82, 0x82, 0x82, 0x82, 0x82, 0x82, 0x01,
];

const NINE: &[u8] = &[0x80, 0x80, 0x80, 0x80, 0x80, 0x80, 0x80, 0x80, 0x80];

// As many bytes as a number of 64 bits may have. None of them is its last.
const TEN: &[u8] = &[0x80, 0x80, 0x80, 0x80, 0x80, 0x80, 0x80, 0x80, 0x80, 0x80];

#[rattlefmt::skip]
static UNSIGNED: Numbers = &[
    (&[0x02], Ok(2), 1),
    (&[0x7f], Ok(127), 1),
    (&[0x80, 0x01], Ok(128), 2),
    (&[0x81, 0x01], Ok(129), 2),
    (&[0xb9, 0x64], Ok(12857), 2),
    (&[0x80, 0x80, 0x80, 0x80, 0x80, 0x80, 0x80, 0x80, 0x80, 0x01], Ok(1 << 63), 10),
    (
        &[0x80, 0x80, 0x80, 0x80, 0x80, 0x80, 0x80, 0x80, 0x80, 0x02],
        Err(Error::BadUnsignedLeb128),
        10,
    ),
    (LONG, Err(Error::BadUnsignedLeb128), 10),
    (TEN, Err(Error::BadUnsignedLeb128), 10),
    (NINE, Err(eof!(9)), 9),
    (&[0x80], Err(eof!(1)), 1),
    (&[], Err(eof!(0)), 0),
];

// The second call begins where the first number ends.
static TWO: &[Row] = &[(
    LITTLE,
    &[0x82, 0x01, 0x01],
    &[(Call::Uleb, Ok(130), 2), (Call::Uleb, Ok(1), 3)],
)];

#[rattlefmt::skip]
static SHORT: Numbers = &[
    (&[0x02], Ok(2), 1),
    (&[0x7f], Ok(0x7f), 1),
    (&[0x80, 0x01], Ok(0x80), 2),
    (&[0x81, 0x01], Ok(0x81), 2),
    (&[0x82, 0x01], Ok(0x82), 2),
    (&[0xff, 0x7f], Ok(0x3fff), 2),
    (&[0x80, 0x80, 0x01], Ok(0x4000), 3),
    (&[0xff, 0xff, 0x01], Ok(0x7fff), 3),
    (&[0xff, 0xff, 0x03], Ok(0xffff), 3),
    (&[0x80, 0x80, 0x04], Err(Error::BadUnsignedLeb128), 3),
    (&[0x80, 0x80, 0x80, 0x03], Err(Error::BadUnsignedLeb128), 3),
    (&[0x80, 0x80, 0x80], Err(Error::BadUnsignedLeb128), 3),
    (&[0x80, 0x80], Err(eof!(2)), 2),
    (&[0x80], Err(eof!(1)), 1),
];

// The greatest number of 32 bits, and the next.
#[rattlefmt::skip]
static WORDS: Numbers = &[
    (&[0xff, 0xff, 0xff, 0xff, 0x0f], Ok(0xffff_ffff), 5),
    (&[0x80, 0x80, 0x80, 0x80, 0x10], Err(Error::BadUnsignedLeb128), 5),
];

#[rattlefmt::skip]
static SIGNED: Numbers = &[
    (&[0x02], Ok(2), 1),
    (&[0x7e], Ok(-2), 1),
    (&[0xff, 0x7f], Ok(-1), 2),
    (&[0xff, 0x00], Ok(127), 2),
    (&[0x81, 0x7f], Ok(-127), 2),
    (&[0x80, 0x01], Ok(128), 2),
    (&[0x80, 0x7f], Ok(-128), 2),
    (&[0x81, 0x01], Ok(129), 2),
    (&[0xff, 0x7e], Ok(-129), 2),
    (&[0x80, 0x80, 0x80, 0x80, 0x80, 0x80, 0x80, 0x80, 0x40], Ok(-(1 << 62)), 9),
    (&[0x80, 0x80, 0x80, 0x80, 0x80, 0x80, 0x80, 0x80, 0x80, 0x7f], Ok(-(1 << 63)), 10),
    (LONG, Err(Error::BadSignedLeb128), 10),
    (TEN, Err(Error::BadSignedLeb128), 10),
    (NINE, Err(eof!(9)), 9),
    (&[0x80], Err(eof!(1)), 1),
];

#[rattlefmt::skip]
static SKIPPED: Numbers = &[
    (&[0x82, 0x01, 0x01], Ok(0), 2),
    (&[0x80, 0x80, 0x80, 0x80, 0x80, 0x80, 0x80, 0x80, 0x80, 0x80, 0x80, 0x00], Ok(0), 12),
    (NINE, Err(eof!(9)), 9),
];

// Numbers, and their shortest encodings.
#[rattlefmt::skip]
static WRITTEN: &[(u64, &[u8])] = &[
    (0, &[0x00]),
    (12857, &[0xb9, 0x64]),
    (u64::MAX, &[0xff, 0xff, 0xff, 0xff, 0xff, 0xff, 0xff, 0xff, 0xff, 0x01]),
];

#[rattlefmt::skip]
static WRITTEN_SIGNED: &[(i64, &[u8])] = &[
    (0, &[0x00]),
    (63, &[0x3f]),
    (64, &[0xc0, 0x00]),
    (-64, &[0x40]),
    (-65, &[0xbf, 0x7f]),
    (i64::MIN, &[0x80, 0x80, 0x80, 0x80, 0x80, 0x80, 0x80, 0x80, 0x80, 0x7f]),
    (i64::MAX, &[0xff, 0xff, 0xff, 0xff, 0xff, 0xff, 0xff, 0xff, 0xff, 0x00]),
];

#[test]
fn numbers_are_read(rt: HostRuntime) {
    check_numbers(&rt, Call::Uleb, UNSIGNED);
    check_calls(&rt, TWO);
    check_numbers(&rt, Call::UlebOf16Bits, SHORT);
    check_numbers(&rt, Call::UlebOf32Bits, WORDS);
    check_numbers(&rt, Call::Sleb, SIGNED);
    check_numbers(&rt, Call::SkipLeb, SKIPPED);
}

#[test]
fn numbers_are_written(rt: HostRuntime) {
    for (value, bytes) in WRITTEN {
        let written = Leb128::unsigned(*value);
        same(&rt, written.bytes(), *bytes, *value);
        let lengths = (written.len(), uleb128_size(*value));
        same(&rt, lengths, (bytes.len(), bytes.len()), *value);
    }
    for (value, bytes) in WRITTEN_SIGNED {
        let written = Leb128::signed(*value);
        same(&rt, written.bytes(), *bytes, *value);
        let lengths = (written.len(), sleb128_size(*value));
        same(&rt, lengths, (bytes.len(), bytes.len()), *value);
    }
}

// What was written, with zero bytes after it.
fn padded(written: &Leb128) -> [u8; 1024] {
    let (mut buffer, bytes) = ([0; 1024], written.bytes());
    buffer[..bytes.len()].copy_from_slice(bytes);
    buffer
}

// Ends the test where a signed number isn't read as it was written.
fn check_signed(rt: &impl Abort, value: i64) {
    let written = Leb128::signed(value);
    let step = (Call::Sleb, Ok(i128::from(value)), written.len() as u64);
    check_call(rt, &padded(&written), step);
}

#[test]
fn written_numbers_are_read(rt: HostRuntime) {
    for value in 0..1025u64 {
        let written = Leb128::unsigned(value);
        let step = (Call::Uleb, Ok(i128::from(value)), written.len() as u64);
        check_call(&rt, &padded(&written), step);
    }
    for value in -513..513i64 {
        check_signed(&rt, value);
    }
    check_signed(&rt, i64::MIN);
}

// The low seven bits of a byte are its digit, and those of a number are its first byte's.
#[test]
fn bytes_carry_seven_bits(rt: HostRuntime) {
    for digit in 0..127u8 {
        let wide = u64::from(digit);
        let wanted = Ok(i128::from(digit));
        check_call(&rt, &[digit], (Call::Uleb, wanted, 1));
        check_call(&rt, &[digit + 128, 0], (Call::Uleb, wanted, 2));
        for number in [65536 + wide, 65536 * wide + wide + 128] {
            let written = Leb128::unsigned(number);
            same(&rt, written.bytes().first(), Some(&(digit + 128)), number);
        }
    }
}
