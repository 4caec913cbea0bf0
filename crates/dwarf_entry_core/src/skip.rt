//! Values that are skipped: only what says how many bytes a value has is read.

ghost use Rattle.std.specs.Prelude.{◌≡◌};
ghost use Rattle.dwarf_read_core.specs.Readings.{Mapped, Reads, SkipRead, StringRead};
ghost use Rattle.dwarf_entry_core.specs.Skipped.{AttributesSkipped, BlockSkipped, UnsignedSkipped, ShapeSkipped, ValueSkipped, reference_size};

use crate::form::{Shape, Width, shape_of};
use crate::value::{parse_form, read_width};
use dwarf_read_core::{
    AttributeSpecification, DwForm, Encoding, Error, Reader, ReaderOffset, Result,
};

// Skips this many bytes.
#[inline(always)]
fn skip_bytes<R: Reader>(input: &mut R, count: u8) -> Result<()>
    ensures read { Reads (SkipRead count) (λ done. done) (R.view input.old) result (R.view input.new) }
    ensures order { R.order input.new ≡ R.order input.old }
{
    input.skip(R::Offset::from_u8(count))
}

// Skips an unsigned number of this width. A LEB128 number may have any length.
#[inline(always)]
fn skip_unsigned<R: Reader>(input: &mut R, width: Width) -> Result<()>
    ensures read { Reads (UnsignedSkipped width) (λ done. done) (R.view input.old) result (R.view input.new) }
    ensures order { R.order input.new ≡ R.order input.old }
{
    match width {
        Width::One => skip_bytes(input, 1),
        Width::Two => skip_bytes(input, 2),
        Width::Three => skip_bytes(input, 3),
        Width::Four => skip_bytes(input, 4),
        Width::Eight => skip_bytes(input, 8),
        Width::Leb128 => input.skip_leb128(),
    }
}

// Skips how many bytes follow, and these.
#[inline(always)]
fn skip_block<R: Reader>(input: &mut R, width: Width) -> Result<()>
    ensures read { Reads (BlockSkipped R.Offset.GREATEST width) (λ done. done)
        (R.view input.old) result (R.view input.new) }
    ensures order { R.order input.new ≡ R.order input.old }
{
    let len = read_width(input, width)?;
    input.skip(len)
}

// Skips a string and its zero byte, without a clone of the reader.
#[inline(always)]
fn skip_string<R: Reader>(input: &mut R) -> Result<()>
    ensures read { Reads (Mapped (λ string. tt) StringRead) (λ done. done) (R.view input.old) result (R.view input.new) }
    ensures order { R.order input.new ≡ R.order input.old }
{
    let len = input.find(0)?;
    input.skip(len)?;
    input.skip(R::Offset::from_u8(1))?;
    Ok(())
}

// Returns how many bytes an offset into `.debug_info` has.
#[inline(always)]
fn reference_size(encoding: Encoding) -> u8
    ensures { result ≡ reference_size encoding }
{
    if encoding.version == 2 {
        encoding.address_size
    } else {
        encoding.format.word_size()
    }
}

// Skips a value of a shape.
#[inline(always)]
fn skip_shape<R: Reader>(input: &mut R, encoding: Encoding, shape: Shape) -> Result<()>
    ensures read { Reads (ShapeSkipped R.Offset.GREATEST encoding shape) (λ done. done)
        (R.view input.old) result (R.view input.new) }
    ensures order { R.order input.new ≡ R.order input.old }
{
    match shape {
        Shape::Addr => skip_bytes(input, encoding.address_size),
        Shape::Block(width) => skip_block(input, width),
        Shape::Exprloc => skip_block(input, Width::Leb128),
        Shape::Data1 | Shape::Flag => skip_bytes(input, 1),
        Shape::Data2 => skip_bytes(input, 2),
        Shape::Data4 => skip_bytes(input, 4),
        Shape::Data8 | Shape::DebugTypesRef => skip_bytes(input, 8),
        Shape::Data16 => skip_bytes(input, 16),
        Shape::Sdata | Shape::Udata | Shape::DebugLocListsIndex | Shape::DebugRngListsIndex => {
            input.skip_leb128()
        }
        Shape::ImplicitConst | Shape::FlagPresent => Ok(()),
        Shape::SecOffset
        | Shape::DebugInfoRefAlt
        | Shape::DebugStrRef
        | Shape::DebugStrRefSup
        | Shape::DebugLineStrRef => skip_bytes(input, encoding.format.word_size()),
        Shape::DebugInfoRef => skip_bytes(input, reference_size(encoding)),
        Shape::UnitRef(width)
        | Shape::DebugInfoRefSup(width)
        | Shape::DebugStrOffsetsIndex(width)
        | Shape::DebugAddrIndex(width) => skip_unsigned(input, width),
        Shape::String => skip_string(input),
    }
}

// Skips the attributes of an entry, one for each of these specifications.
#[inline(always)]
pub(crate) fn skip_values<R: Reader>(
    input: &mut R,
    encoding: Encoding,
    specs: &[AttributeSpecification],
) -> Result<()>
    ensures read { Reads (AttributesSkipped R.Offset.GREATEST encoding specs.now) (λ done. done)
        (R.view input.old) result (R.view input.new) }
    ensures order { R.order input.new ≡ R.order input.old }
{
    for spec in specs {
        skip_value(input, encoding, spec.form())?;
    }
    Ok(())
}

// Skips a value, of which the abbreviation has `form`.
#[inline(always)]
fn skip_value<R: Reader>(input: &mut R, encoding: Encoding, form: DwForm) -> Result<()>
    ensures read { Reads (ValueSkipped R.Offset.GREATEST encoding form.0) (λ done. done)
        (R.view input.old) result (R.view input.new) }
    ensures order { R.order input.new ≡ R.order input.old }
{
    let form = parse_form(input, form)?;
    match shape_of(form) {
        Some(shape) => skip_shape(input, encoding, shape),
        None => Err(Error::UnknownForm(form)),
    }
}
