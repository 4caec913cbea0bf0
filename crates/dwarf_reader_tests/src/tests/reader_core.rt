//! LEB128 numbers, and readers.
//!
//! Most tests are rows of bytes, and of calls with what they return. The calls are in functions that are generic in the
//! reader, one loop compares all rows, and what a call returns is one type: a number.

use super::same;
use dwarf_base_core::{Error, Format, ReaderOffset, ReaderOffsetId, Result, RunTimeEndian};
use dwarf_reader_core::leb128::read;
use dwarf_reader_core::{EndianSlice, Reader, read_u8_array};
use std::process::Abort;

mod leb128;
mod readers;

// A call of a reader. One that returns no number returns 0 here.
#[derive(Clone, Copy)]
enum Call {
    // A number of this many bytes.
    Unsigned(u8),
    Signed(u8),
    // A LEB128 number.
    Uleb,
    UlebOf16Bits,
    UlebOf32Bits,
    Sleb,
    SkipLeb,
    Offset(Format),
    Length(Format),
    Word(Format),
    SizedOffset(u8),
    Address(u8),
    AddressSize,
    // The length itself, and the size of words in the format that it tells.
    InitialLength,
    InitialLengthFormat,
    Skip(u8),
    Truncate(u8),
    Empty,
    // Both get the bytes that remain, and the second is 1 if there are none.
    Len,
    IsEmpty,
    Find(u8),
    // The offset after this many bytes, from their first.
    OffsetAfter(u8),
    // The offset of a position, or -1 if it is outside of the bytes.
    Lookup(u64),
    // Three bytes as an array, the bytes of a part of this length, and those of a string, each as a number.
    Array,
    Split(u8),
    String,
    // The position of a part.
    SplitPosition(u8),
}

// A call, what it returns, and the position after it.
type Step = (Call, Result<i128>, u64);

// A byte order, bytes, and consecutive calls.
type Row = (RunTimeEndian, &'static [u8], &'static [Step]);

const LITTLE: RunTimeEndian = RunTimeEndian::Little;

const BIG: RunTimeEndian = RunTimeEndian::Big;

fn outcome<R: Reader>(input: &mut R, call: Call) -> Result<i128> {
    match call {
        Call::Unsigned(size) => unsigned(input, size),
        Call::Signed(size) => signed(input, size),
        Call::Offset(_) | Call::Length(_) | Call::Word(_) | Call::SizedOffset(_) => {
            offset(input, call)
        }
        Call::Address(_) | Call::AddressSize => address(input, call),
        Call::InitialLength | Call::InitialLengthFormat => initial_length(input, call),
        Call::Skip(_) | Call::Truncate(_) | Call::Empty => cut(input, call),
        Call::Array => array(input),
        Call::Split(_) | Call::String | Call::SplitPosition(_) => part(input, call),
        Call::OffsetAfter(len) => offset_after(input, R::Offset::from_u8(len)),
        Call::Len | Call::IsEmpty | Call::Find(_) | Call::Lookup(_) => place(input, call),
        _ => leb128_number(input, call),
    }
}

// What a call returns, as a number of 128 bits.
fn widened<N: Into<i128>>(returned: Result<N>) -> Result<i128> {
    match returned {
        Ok(number) => Ok(number.into()),
        Err(error) => Err(error),
    }
}

fn unsigned<R: Reader>(input: &mut R, size: u8) -> Result<i128> {
    match size {
        1 => widened(input.read_u8()),
        2 => widened(input.read_u16()),
        3 => widened(input.read_uint(3)),
        4 => widened(input.read_u32()),
        _ => widened(input.read_u64()),
    }
}

fn signed<R: Reader>(input: &mut R, size: u8) -> Result<i128> {
    match size {
        1 => widened(input.read_i8()),
        2 => widened(input.read_i16()),
        4 => widened(input.read_i32()),
        _ => widened(input.read_i64()),
    }
}

fn leb128_number<R: Reader>(input: &mut R, call: Call) -> Result<i128> {
    match call {
        Call::Uleb => widened(read::unsigned(input)),
        Call::UlebOf16Bits => widened(read::u16(input)),
        Call::UlebOf32Bits => widened(input.read_uleb128_u32()),
        Call::Sleb => widened(read::signed(input)),
        _ => nothing(read::skip(input)),
    }
}

fn nothing(returned: Result<()>) -> Result<i128> {
    match returned {
        Ok(()) => Ok(0),
        Err(error) => Err(error),
    }
}

fn number<O: ReaderOffset>(offset: Result<O>) -> Result<i128> {
    match offset {
        Ok(offset) => Ok(i128::from(offset.into_u64())),
        Err(error) => Err(error),
    }
}

fn offset<R: Reader>(input: &mut R, call: Call) -> Result<i128> {
    match call {
        Call::Offset(format) => number(input.read_offset(format)),
        Call::Length(format) => number(input.read_length(format)),
        Call::Word(format) => number(input.read_word(format)),
        Call::SizedOffset(size) => number(input.read_sized_offset(size)),
        _ => Err(Error::UnsupportedOffset),
    }
}

fn address<R: Reader>(input: &mut R, call: Call) -> Result<i128> {
    match call {
        Call::Address(size) => widened(input.read_address(size)),
        _ => widened(input.read_address_size()),
    }
}

fn initial_length<R: Reader>(input: &mut R, call: Call) -> Result<i128> {
    let (length, format) = input.read_initial_length()?;
    match call {
        Call::InitialLength => Ok(i128::from(length.into_u64())),
        _ => Ok(i128::from(format.word_size())),
    }
}

fn cut<R: Reader>(input: &mut R, call: Call) -> Result<i128> {
    match call {
        Call::Skip(len) => nothing(input.skip(R::Offset::from_u8(len))),
        Call::Truncate(len) => nothing(input.truncate(R::Offset::from_u8(len))),
        _ => {
            input.empty();
            Ok(0)
        }
    }
}

fn part<R: Reader>(input: &mut R, call: Call) -> Result<i128> {
    match call {
        Call::Split(len) => bytes_of(input.split(R::Offset::from_u8(len))),
        Call::SplitPosition(len) => position_of(input.split(R::Offset::from_u8(len))),
        _ => bytes_of(input.read_null_terminated_slice()),
    }
}

fn bytes_of<R: Reader>(part: Result<R>) -> Result<i128> {
    match part {
        Ok(mut part) => all_bytes(&mut part),
        Err(error) => Err(error),
    }
}

fn position_of<R: Reader>(part: Result<R>) -> Result<i128> {
    match part {
        Ok(part) => Ok(i128::from(part.offset_id().0)),
        Err(error) => Err(error),
    }
}

fn array<R: Reader>(input: &mut R) -> Result<i128> {
    let [first, second, third] = read_u8_array::<_, 3>(input)?;
    Ok(i128::from(u32::from_le_bytes([first, second, third, 0])))
}

fn offset_after<R: Reader>(input: &mut R, len: R::Offset) -> Result<i128> {
    let whole = input.try_clone()?;
    match input.skip(len) {
        Ok(()) => Ok(i128::from(input.offset_from(&whole).into_u64())),
        Err(error) => Err(error),
    }
}

fn all_bytes<R: Reader>(part: &mut R) -> Result<i128> {
    let len = part.len().into_u64();
    if len > 8 {
        return Err(Error::UnsupportedOffset);
    }
    Ok(i128::from(part.read_uint(len as usize)?))
}

fn place<R: Reader>(input: &R, call: Call) -> Result<i128> {
    match call {
        Call::Find(byte) => number(input.find(byte)),
        Call::IsEmpty => Ok(i128::from(u8::from(input.is_empty()))),
        Call::Lookup(position) => match input.lookup_offset_id(ReaderOffsetId(position)) {
            Some(offset) => Ok(i128::from(offset.into_u64())),
            None => Ok(-1),
        },
        _ => Ok(i128::from(input.len().into_u64())),
    }
}

// What a call returns, and the position after it.
fn result_of<R: Reader>(input: &mut R, asked: Call) -> (Result<i128>, u64) {
    let returned = outcome(input, asked);
    (returned, input.offset_id().0)
}

fn check_steps<R: Reader>(rt: &impl Abort, input: &mut R, bytes: &[u8], steps: &[Step]) {
    for (asked, wanted, position) in steps {
        let found = result_of(input, *asked);
        same(rt, found, (*wanted, *position), bytes);
    }
}

// A reader of these bytes, at position 0.
fn little(bytes: &[u8]) -> EndianSlice<'_, RunTimeEndian> {
    EndianSlice::new(bytes, LITTLE)
}

// The calls of a reader of at most 2000 bytes, whose first position is this one. The prover has to see that no
// position is past the greatest number of 64 bits.
fn check_reader(rt: &impl Abort, order: RunTimeEndian, first: u8, bytes: &[u8], steps: &[Step]) {
    let bytes = &bytes[..bytes.len().min(2000)];
    let mut input = EndianSlice::with_first_id(bytes, order, ReaderOffsetId(u64::from(first)));
    check_steps(rt, &mut input, bytes, steps);
}

fn check_calls(rt: &impl Abort, rows: &[Row]) {
    for (order, bytes, steps) in rows {
        check_reader(rt, *order, 0, bytes, steps);
    }
}

// One call at the front of these bytes: what it returns, and how many of them it consumes.
fn check_call(rt: &impl Abort, bytes: &[u8], step: Step) {
    check_reader(rt, LITTLE, 0, bytes, &[step]);
}

// Bytes, what a call returns of them, and how many of them it consumes.
type Numbers = &'static [(&'static [u8], Result<i128>, u64)];

fn check_numbers(rt: &impl Abort, asked: Call, rows: Numbers) {
    for (bytes, wanted, consumed) in rows {
        check_call(rt, bytes, (asked, *wanted, *consumed));
    }
}
