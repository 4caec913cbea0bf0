//! The values of attributes (DWARF 5, 7.5.4 to 7.5.6).

ghost use Rattle.std.specs.Prelude.{◌≡◌, IfOk};
ghost use Rattle.dwarf_read_core.specs.Readings.{Reads, ReadsIfCloned};
ghost use Rattle.dwarf_entry_core.specs.Seen.{seen_value};
ghost use Rattle.dwarf_entry_core.specs.Values.{BlockRead, FormRead, ReferenceRead, ShapeRead, UnsignedRead, ValueRead, WidthRead};

use crate::form::{Shape, Width, shape_of};
use dwarf_read_core::{
    AttributeSpecification, DW_FORM_indirect, DebugAddrIndex, DebugInfoOffset, DebugLineStrOffset,
    DebugLocListsIndex, DebugRngListsIndex, DebugStrOffset, DebugStrOffsetsIndex,
    DebugTypeSignature, DwForm, Encoding, Error, Reader, ReaderOffset, Result, UnitOffset,
};

/// The value of an attribute, as its form says.
///
/// Nothing is looked up: an offset or an index is a number, and an expression is its bytes. What a
/// number means, the name of the attribute says.
#[derive(Debug, Clone, Copy, Drop, PartialEq, Eq)]
pub enum AttributeValue<R, Offset> {
    /// An address.
    Addr(u64),
    /// Bytes.
    Block(R),
    /// A constant of one byte. Its form doesn't say whether it is signed.
    Data1(u8),
    /// A constant of two bytes.
    Data2(u16),
    /// A constant of four bytes. In versions 2 and 3 it may also be an offset into a section.
    Data4(u32),
    /// A constant of eight bytes. In versions 2 and 3 it may also be an offset into a section.
    Data8(u64),
    /// A constant of sixteen bytes.
    Data16(u128),
    /// A signed constant, of the entry or of its abbreviation.
    Sdata(i64),
    /// An unsigned constant.
    Udata(u64),
    /// The bytes of an expression.
    Exprloc(R),
    /// Whether a flag is set.
    Flag(bool),
    /// An offset, in bytes, into the section that the attribute's name implies.
    SecOffset(Offset),
    /// An entry of the same unit, by its offset in bytes from the start of the unit's header.
    UnitRef(UnitOffset<Offset>),
    /// An entry by its offset, in bytes, in `.debug_info`.
    DebugInfoRef(DebugInfoOffset<Offset>),
    /// An entry by its offset, in bytes, in the `.debug_info` of the supplementary file.
    DebugInfoRefSup(DebugInfoOffset<Offset>),
    /// A type by its signature. The unit of this signature may be in `.debug_types`.
    DebugTypesRef(DebugTypeSignature),
    /// A string by its offset, in bytes, in `.debug_str`.
    DebugStrRef(DebugStrOffset<Offset>),
    /// A string by its offset, in bytes, in the `.debug_str` of the supplementary file.
    DebugStrRefSup(DebugStrOffset<Offset>),
    /// A string by its offset, in bytes, in `.debug_line_str`.
    DebugLineStrRef(DebugLineStrOffset<Offset>),
    /// A string by the index of its offset in `.debug_str_offsets`, from the unit's base on.
    DebugStrOffsetsIndex(DebugStrOffsetsIndex<Offset>),
    /// An address by its index in `.debug_addr`, from the unit's base on.
    DebugAddrIndex(DebugAddrIndex<Offset>),
    /// A location list by its index in `.debug_loclists`, from the unit's base on.
    DebugLocListsIndex(DebugLocListsIndex<Offset>),
    /// A range list by its index in `.debug_rnglists`, from the unit's base on.
    DebugRngListsIndex(DebugRngListsIndex<Offset>),
    /// A string that is in the entry, without its zero byte.
    String(R),
}

// Reads an unsigned number of this width.
#[inline(always)]
fn read_unsigned<R: Reader>(input: &mut R, width: Width) -> Result<u64>
    ensures read { Reads (UnsignedRead width) (λ x. x) (R.view input.old) result (R.view input.new) }
    ensures order { R.order input.new ≡ R.order input.old }
{
    match width {
        Width::One => Ok(u64::from(input.read_u8()?)),
        Width::Two => Ok(u64::from(input.read_u16()?)),
        Width::Three => input.read_uint(3),
        Width::Four => Ok(u64::from(input.read_u32()?)),
        Width::Eight => input.read_u64(),
        Width::Leb128 => input.read_uleb128(),
    }
}

// Reads an unsigned number of this width, which has to be an offset.
#[inline(always)]
pub(crate) fn read_width<R: Reader>(input: &mut R, width: Width) -> Result<R::Offset>
    ensures read { Reads (WidthRead R.Offset.GREATEST width) R.Offset.value (R.view input.old) result (R.view input.new) }
    ensures order { R.order input.new ≡ R.order input.old }
{
    let number = read_unsigned(input, width)?;
    R::Offset::from_u64(number)
}

// Reads how many bytes follow, and splits these off.
#[inline(always)]
fn read_block<R: Reader>(input: &mut R, width: Width) -> Result<R>
    ensures read { ReadsIfCloned R.clone_is_free (BlockRead R.Offset.GREATEST width) R.view (R.view input.old) result (R.view input.new) }
    ensures part_order { IfOk result (λ part. R.order part ≡ R.order input.old) }
    ensures order { R.order input.new ≡ R.order input.old }
{
    let len = read_width(input, width)?;
    input.split(len)
}

// Reads an offset into `.debug_info`: in version 2 it has the size of an address.
#[inline(always)]
fn read_reference<R: Reader>(input: &mut R, encoding: Encoding) -> Result<R::Offset>
    ensures read { Reads (ReferenceRead R.Offset.GREATEST encoding) R.Offset.value (R.view input.old) result (R.view input.new) }
    ensures order { R.order input.new ≡ R.order input.old }
{
    if encoding.version == 2 {
        input.read_sized_offset(encoding.address_size)
    } else {
        input.read_offset(encoding.format)
    }
}

// Reads a value of a shape. `constant` is the one that the abbreviation has, if it has one.
#[inline(always)]
fn parse_shape<R: Reader>(
    input: &mut R,
    encoding: Encoding,
    constant: Option<i64>,
    shape: Shape,
) -> Result<AttributeValue<R, R::Offset>>
    ensures read { ReadsIfCloned R.clone_is_free (ShapeRead R.Offset.GREATEST encoding constant shape)
        (seen_value R.view R.Offset.value) (R.view input.old) result (R.view input.new) }
    ensures order { R.order input.new ≡ R.order input.old }
{
    match shape {
        Shape::Addr => Ok(AttributeValue::Addr(input.read_address(encoding.address_size)?)),
        Shape::Block(width) => Ok(AttributeValue::Block(read_block(input, width)?)),
        Shape::Exprloc => Ok(AttributeValue::Exprloc(read_block(input, Width::Leb128)?)),
        Shape::Data1 => Ok(AttributeValue::Data1(input.read_u8()?)),
        Shape::Data2 => Ok(AttributeValue::Data2(input.read_u16()?)),
        Shape::Data4 => Ok(AttributeValue::Data4(input.read_u32()?)),
        Shape::Data8 => Ok(AttributeValue::Data8(input.read_u64()?)),
        Shape::Data16 => Ok(AttributeValue::Data16(input.read_u128()?)),
        Shape::Sdata => Ok(AttributeValue::Sdata(input.read_sleb128()?)),
        Shape::Udata => Ok(AttributeValue::Udata(input.read_uleb128()?)),
        Shape::ImplicitConst => match constant {
            Some(value) => Ok(AttributeValue::Sdata(value)),
            None => Err(Error::InvalidImplicitConst),
        },
        Shape::Flag => Ok(AttributeValue::Flag(input.read_u8()? != 0)),
        Shape::FlagPresent => Ok(AttributeValue::Flag(true)),
        Shape::SecOffset => Ok(AttributeValue::SecOffset(input.read_offset(encoding.format)?)),
        Shape::UnitRef(width) => {
            let offset = read_width(input, width)?;
            Ok(AttributeValue::UnitRef(UnitOffset(offset)))
        }
        Shape::DebugInfoRef => {
            let offset = read_reference(input, encoding)?;
            Ok(AttributeValue::DebugInfoRef(DebugInfoOffset(offset)))
        }
        Shape::DebugInfoRefAlt => {
            let offset = input.read_offset(encoding.format)?;
            Ok(AttributeValue::DebugInfoRefSup(DebugInfoOffset(offset)))
        }
        Shape::DebugInfoRefSup(width) => {
            let offset = read_width(input, width)?;
            Ok(AttributeValue::DebugInfoRefSup(DebugInfoOffset(offset)))
        }
        Shape::DebugTypesRef => {
            let signature = input.read_u64()?;
            Ok(AttributeValue::DebugTypesRef(DebugTypeSignature(signature)))
        }
        Shape::DebugStrRef => {
            let offset = input.read_offset(encoding.format)?;
            Ok(AttributeValue::DebugStrRef(DebugStrOffset(offset)))
        }
        Shape::DebugStrRefSup => {
            let offset = input.read_offset(encoding.format)?;
            Ok(AttributeValue::DebugStrRefSup(DebugStrOffset(offset)))
        }
        Shape::DebugLineStrRef => {
            let offset = input.read_offset(encoding.format)?;
            Ok(AttributeValue::DebugLineStrRef(DebugLineStrOffset(offset)))
        }
        Shape::DebugStrOffsetsIndex(width) => {
            let index = read_width(input, width)?;
            Ok(AttributeValue::DebugStrOffsetsIndex(DebugStrOffsetsIndex(index)))
        }
        Shape::DebugAddrIndex(width) => {
            let index = read_width(input, width)?;
            Ok(AttributeValue::DebugAddrIndex(DebugAddrIndex(index)))
        }
        Shape::DebugLocListsIndex => {
            let index = read_width(input, Width::Leb128)?;
            Ok(AttributeValue::DebugLocListsIndex(DebugLocListsIndex(index)))
        }
        Shape::DebugRngListsIndex => {
            let index = read_width(input, Width::Leb128)?;
            Ok(AttributeValue::DebugRngListsIndex(DebugRngListsIndex(index)))
        }
        Shape::String => {
            let len = input.find(0)?;
            let string = input.split(len)?;
            input.skip(R::Offset::from_u8(1))?;
            Ok(AttributeValue::String(string))
        }
    }
}

// Returns the form of a value, of which the abbreviation has `form`. In place of `DW_FORM_indirect`
// the entry has the form, which may be indirect again.
#[inline(always)]
pub(crate) fn parse_form<R: Reader>(input: &mut R, form: DwForm) -> Result<DwForm>
    ensures read { Reads (FormRead form.0) (λ x. x.0) (R.view input.old) result (R.view input.new) }
    ensures order { R.order input.new ≡ R.order input.old }
{
    let mut actual = form;
    while actual == DW_FORM_indirect {
        actual = DwForm(input.read_uleb128_u16()?);
    }
    Ok(actual)
}

// Reads the value of the attribute that `spec` is of, and returns its form next to it.
#[inline(always)]
pub(crate) fn parse_value<R: Reader>(
    input: &mut R,
    encoding: Encoding,
    spec: AttributeSpecification,
) -> Result<(DwForm, AttributeValue<R, R::Offset>)>
    ensures read { ReadsIfCloned R.clone_is_free (ValueRead R.Offset.GREATEST encoding spec)
        (λ x. (x.0.0, seen_value R.view R.Offset.value x.1)) (R.view input.old) result (R.view input.new) }
    ensures order { R.order input.new ≡ R.order input.old }
{
    let form = parse_form(input, spec.form())?;
    match shape_of(form) {
        Some(shape) => {
            let value = parse_shape(input, encoding, spec.implicit_const_value(), shape)?;
            Ok((form, value))
        }
        None => Err(Error::UnknownForm(form)),
    }
}
