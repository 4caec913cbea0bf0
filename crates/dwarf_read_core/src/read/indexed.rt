//! Lookups of numbers of one width, by an index counted from a base.

ghost use Rattle.std.specs.Prelude.{◌+◌, ◌*◌};
ghost use Rattle.dwarf_base_core.specs.Checked.{OkBelow};
ghost use Rattle.dwarf_base_core.specs.Format.{word_size};
ghost use Rattle.dwarf_reader_core.specs.Readings.{Reads};
ghost use Rattle.dwarf_read_core.specs.Words.{PlaceRead, slot};

use dwarf_base_core::{Error, Format, ReaderOffset, Result};
use dwarf_reader_core::Reader;

/// Returns the length of `index` numbers of `width` bytes each, or `UnsupportedOffset` if it
/// doesn't fit the offset type.
#[inline]
fn length_before<Offset: ReaderOffset>(index: Offset, width: u8) -> Result<Offset>
    ensures { OkBelow (Offset.GREATEST + 1) Offset.value
        (Offset.value index * width) Error.UnsupportedOffset result }
{
    let length = index
        .into_u64()
        .checked_mul(u64::from(width))
        .ok_or(Error::UnsupportedOffset)?;
    Offset::from_u64(length)
}

/// Skips the bytes before the number with this index: those before `base`, then `index` numbers of
/// `width` bytes each.
///
/// # Errors
///
/// `UnexpectedEof` at the input's start if `base` is past its end, and at `base` if the number is.
/// `UnsupportedOffset` if the distance from `base` to the number doesn't fit the offset type.
#[inline]
pub(crate) fn skip_to_index<R: Reader>(
    input: &mut R,
    base: R::Offset,
    index: R::Offset,
    width: u8,
) -> Result<()>
    ensures { Reads (PlaceRead R.Offset.GREATEST
        (slot (R.Offset.value base) (R.Offset.value index) width))
        (λ _. tt) (R.view input.old) result (R.view input.new) }
{
    input.skip(base)?;
    input.skip(length_before(index, width)?)
}

/// Skips the bytes before the word of a format with this index.
///
/// This is [`skip_to_index`] for words of that size. It checks `index * size` for overflow only if
/// the word is out of bounds.
///
/// # Errors
///
/// Those of [`skip_to_index`].
#[inline]
pub(crate) fn skip_to_word<R: Reader>(
    input: &mut R,
    base: R::Offset,
    index: R::Offset,
    format: Format,
) -> Result<()>
    ensures { Reads (PlaceRead R.Offset.GREATEST
        (slot (R.Offset.value base) (R.Offset.value index) (word_size format)))
        (λ _. tt) (R.view input.old) result (R.view input.new) }
{
    input.skip(base)?;
    let width = format.word_size();
    let words = input.len().into_u64() / u64::from(width);
    if index.into_u64() < words {
        // The length before a word that is in bounds doesn't overflow.
        return input.skip(R::Offset::from_u64(index.into_u64() * u64::from(width))?);
    }
    input.skip(length_before(index, width)?)
}
