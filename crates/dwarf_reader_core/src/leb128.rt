//! LEB128 numbers (DWARF 5, 7.6): a byte carries seven bits of the number, the lowest first, and
//! its highest bit says whether another byte follows.
//!
//! # Limits and errors
//!
//! A number may have more bytes than it needs, up to a limit: ten bytes for a type of 64 bits,
//! three for `u16`. Reading it returns one of these errors:
//!
//! - `UnexpectedEof` at the end of the bytes, if they end before the number does and before the
//!   limit. All of them are consumed.
//! - `BadUnsignedLeb128` or `BadSignedLeb128`, if the last byte of the limit doesn't end the number,
//!   or if the type can't hold it. The bytes of the limit are consumed.

ghost use Rattle.std.specs.Prelude.{◌≡◌, ◌≤◌, ◌<◌, ◌*◌, ◌+◌, ◌%◌, ◌^◌, ◌↔◌, IsTrue, pos, ◌-ℤ◌, if◌then◌else◌};

pub mod read;
pub mod write;

const CONTINUATION_BIT: u8 = 1 << 7;

const SIGN_BIT: u8 = 1 << 6;

// The greatest tenth byte of an unsigned number of 64 bits: it has room for bit 63 only.
pub(crate) const MAX_TENTH_BYTE: u8 = 0x01;

// The greatest third byte of an unsigned number of 16 bits: it has room for bits 14 and 15 only.
pub(crate) const MAX_THIRD_BYTE: u8 = 0x03;

// The seven bits of the number that a byte carries.
#[inline]
fn low_bits_of_byte(byte: u8) -> u8
    ensures { result ≡ byte % 128 }
{
    byte & !CONTINUATION_BIT
}

// Whether another byte follows.
#[inline]
pub(crate) fn has_continuation_bit(byte: u8) -> bool
    ensures { IsTrue result ↔ (128 ≤ byte) }
{
    byte & CONTINUATION_BIT != 0
}

// Whether a number that ends with this byte is negative.
#[inline]
pub(crate) fn has_sign_bit(byte: u8) -> bool
    ensures { IsTrue result ↔ (64 ≤ byte % 128) }
{
    byte & SIGN_BIT != 0
}

// The signed number of `bits` bits; a negative one has ones above them.
#[inline]
pub(crate) fn with_sign(value: u64, is_negative: bool, bits: u32) -> i64
    requires bits { bits < 64 }
    requires below { value < 2 ^ bits }
    ensures { result ≡ pos value -ℤ pos (if is_negative then 2 ^ bits else 0) }
{
    let sign = if is_negative { u64::MAX << bits } else { 0 };
    (value | sign).cast_signed()
}

// The number with the bits of a further byte.
#[inline]
pub(crate) fn with_digit(value: u64, byte: u8, shift: u32) -> u64
    requires bits { shift ≤ 56 }
    requires below { value < 2 ^ shift }
    ensures { result ≡ value + byte % 128 * 2 ^ shift }
{
    value | u64::from(low_bits_of_byte(byte)) << shift
}

// The body of `Reader::read_uleb128`. `EndianSlice` has it too, since no default body is inlined.
macro_rules! read_uleb128 {
    ($reader:expr) => {{
        // Most numbers have one byte.
        let first = $reader.read_u8()?;
        if !has_continuation_bit(first) {
            return Ok(u64::from(first));
        }
        let mut result = with_digit(0, first, 0);
        for index in 1..9 {
            let byte = $reader.read_u8()?;
            result = with_digit(result, byte, 7 * index);
            if !has_continuation_bit(byte) {
                return Ok(result);
            }
        }
        let byte = $reader.read_u8()?;
        if byte > MAX_TENTH_BYTE {
            return Err(Error::BadUnsignedLeb128);
        }
        Ok(result | u64::from(byte) << 63)
    }};
}

// The body of `Reader::read_sleb128`, for the same two.
macro_rules! read_sleb128 {
    ($reader:expr) => {{
        let first = $reader.read_u8()?;
        let mut result = with_digit(0, first, 0);
        if !has_continuation_bit(first) {
            return Ok(with_sign(result, has_sign_bit(first), 7));
        }
        for index in 1..9 {
            let byte = $reader.read_u8()?;
            result = with_digit(result, byte, 7 * index);
            if !has_continuation_bit(byte) {
                return Ok(with_sign(result, has_sign_bit(byte), 7 * index + 7));
            }
        }
        // The tenth byte has room for bit 63 only, which is the sign.
        let byte = $reader.read_u8()?;
        match byte {
            0x00 => Ok(with_sign(result, false, 63)),
            0x7f => Ok(with_sign(result, true, 63)),
            _ => Err(Error::BadSignedLeb128),
        }
    }};
}

pub(crate) use read_sleb128;
pub(crate) use read_uleb128;
