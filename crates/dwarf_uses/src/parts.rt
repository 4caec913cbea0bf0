//! A caller that has to prove what a call requires, and one that compares a clone.

ghost use Rattle.std.specs.Prelude.{◌≡◌, Ok, true, take, drop};

use dwarf_read_core::{EndianSlice, Endianity, LittleEndian, Reader, Result};

/// Returns the first three of ten bytes, and the last seven.
///
/// [`split_at`](EndianSlice::split_at) requires that this many bytes remain: a call with 30 in place
/// of 3 isn't accepted.
pub fn split_ten(bytes: &[u8; 10]) -> (&[u8], &[u8])
    ensures front { result.0.now ≡ take 3 bytes.now }
    ensures rest { result.1.now ≡ drop 3 bytes.now }
{
    let ten = EndianSlice::new(bytes.as_slice(), LittleEndian);
    let (front, rest) = ten.split_at(3);
    (front.slice(), rest.slice())
}

/// Returns whether a clone equals the slice, which it always does.
///
/// Contracts say that the clone has the same bytes, and the byte order itself: not only one whose
/// highest byte is at the same end.
pub fn clone_is_equal<Endian: Endianity>(slice: &EndianSlice<'_, Endian>) -> Result<bool>
    ensures { result ≡ Ok true }
{
    Ok(slice.try_clone()? == *slice)
}
