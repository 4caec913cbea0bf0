//! A caller of `dwarf_reader_core`.

ghost use Rattle.std.specs.Prelude.{◌≡◌, IfOk};

use dwarf_read_core::{Reader, ReaderOffset, Result};

/// Consumes a block: its length, as an unsigned LEB128 number, and the bytes that it counts.
/// Returns the bytes.
///
/// # Errors
///
/// Those of [`Reader::read_uleb128`], `UnsupportedOffset` if the length is no offset, and those of
/// [`Reader::split`].
pub fn read_block<R: Reader>(input: &mut R) -> Result<R>
    ensures order { IfOk result (λ block. R.order block ≡ R.order input.old) }
    ensures rest { R.order input.new ≡ R.order input.old }
{
    let len = input.read_uleb128()?;
    input.split(R::Offset::from_u64(len)?)
}
