//! Writing LEB128 numbers, each in as few bytes as it can have.

ghost use Rattle.std.specs.Prelude.{◌≡◌, ◌%◌, ◌↔◌, IsTrue, ℕ, ◌≤◌, ◌≤ℤ◌, pos, negsuc, List, ◌++◌, length};
ghost use Rattle.dwarf_reader_core.specs.Leb128.{unsigned64, signed64, IsEncoding, HasLeb128};
ghost use Rattle.dwarf_reader_core.specs.Shortest.{IsShortest, IsShortestLength};

#[cfg(test)]
mod tests;

use super::CONTINUATION_BIT;
use std::marker::Model;

/// The bytes of one LEB128 number.
///
/// ```
/// let number = Leb128::unsigned(12857);
/// assert_eq!(rt; number.bytes(), [0xb9, 0x64].as_slice());
/// ```
#[derive(Debug, Clone, Copy)]
pub struct Leb128 {
    bytes: [u8; 10],
    len: usize,
}

impl Model for Leb128 {
    ghost use Rattle.std.specs.Prelude.{List, ℕ};

    ghost Value = { List ℕ };

    ghost use Rattle.dwarf_reader_core.specs.Shortest.{IsPadded, encoding_of, padded, padded-encoding_of};

    ghost view = { encoding_of };

    ghost invariant = { IsPadded };

    ghost inverse = { padded };

    ghost inverse_ok = { padded-encoding_of };
}

impl Leb128 {
    /// Returns the bytes of the number.
    pub fn bytes(&self) -> &[u8]
        ensures value { result.now ≡ self.now }
        ensures encoding { IsEncoding result.now }
        ensures within { length result.now ≤ 10 }
    {
        &self.bytes[..self.len]
    }

    /// Returns how many bytes the number has, from 1 to 10.
    #[allow(clippy::len_without_is_empty)]
    pub fn len(&self) -> usize
        ensures value { result ≡ length self.now }
        ensures low { 1 ≤ result }
        ensures high { result ≤ 10 }
    {
        self.len
    }

    /// Returns the shortest bytes of an unsigned number. Reading them back yields the number and
    /// consumes exactly these bytes, whatever follows.
    pub fn unsigned(value: u64) -> Leb128
        ensures shortest { IsShortest unsigned64 value result }
        ensures within { length result ≤ 10 }
        ensures read { (rest : List ℕ)
            → HasLeb128 unsigned64 (result ++ rest) value (length result) }
    {
        let mut bytes = [0; 10];
        let mut len = 0;
        let mut rest = value;
        'digits: loop {
            let digit = low_bits_of_u64(rest);
            rest >>= 7;
            if rest == 0 {
                bytes[len] = digit;
                return Leb128 {
                    bytes,
                    len: len + 1,
                };
            }
            bytes[len] = digit | CONTINUATION_BIT;
            len += 1;
        }
    }

    /// Returns the shortest bytes of a signed number. Reading them back yields the number and
    /// consumes exactly these bytes, whatever follows.
    pub fn signed(value: i64) -> Leb128
        ensures shortest { IsShortest signed64 value result }
        ensures within { length result ≤ 10 }
        ensures read { (rest : List ℕ) → HasLeb128 signed64 (result ++ rest) value (length result) }
    {
        let mut bytes = [0; 10];
        let mut len = 0;
        let mut rest = value;
        'digits: loop {
            let digit = (rest & 0x7f) as u8;
            if fits_byte(rest) {
                bytes[len] = digit;
                return Leb128 {
                    bytes,
                    len: len + 1,
                };
            }
            bytes[len] = digit | CONTINUATION_BIT;
            rest >>= 7;
            len += 1;
        }
    }
}

// The lowest seven bits.
fn low_bits_of_u64(value: u64) -> u8
    ensures { result ≡ value % 128 }
{
    (value & 0x7f) as u8
}

// Whether one byte is enough for a signed number.
fn fits_byte(value: i64) -> bool
    ensures { IsTrue result ↔ ((negsuc 63 ≤ℤ value) × (value ≤ℤ pos 63)) }
{
    -64 <= value && value < 64
}

/// Returns the number of bytes of the shortest encoding of an unsigned number.
pub fn uleb128_size(value: u64) -> usize
    ensures { IsShortestLength unsigned64 value result }
{
    Leb128::unsigned(value).len()
}

/// Returns the number of bytes of the shortest encoding of a signed number.
pub fn sleb128_size(value: i64) -> usize
    ensures { IsShortestLength signed64 value result }
{
    Leb128::signed(value).len()
}
