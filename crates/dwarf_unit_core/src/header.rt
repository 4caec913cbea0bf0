//! What the header of a unit says after its initial length (DWARF 5, 7.5.1).

ghost use Rattle.std.specs.Prelude.{◌≡◌};
ghost use Rattle.dwarf_read_core.specs.Readings.{Reads};
ghost use Rattle.dwarf_unit_core.specs.Fields.{before_5, from_5, own_fields, type_fields, unit_fields};
ghost use Rattle.dwarf_unit_core.specs.Seen.{seen_fields, seen_type};

use dwarf_read_core::{
    DW_UT_compile, DW_UT_partial, DW_UT_skeleton, DW_UT_split_compile, DW_UT_split_type,
    DW_UT_type, DebugTypeSignature, DwUt, DwoId, Error, Format, Reader, Result, UnitOffset,
};

/// The type of a unit, and what the header says that only units of this type have.
#[derive(Debug, Clone, Copy, Drop, PartialEq, Eq)]
pub enum UnitType<Offset> {
    /// A compilation unit. Before version 5, each unit of `.debug_info`.
    Compilation,
    /// A type unit. Before version 5, each unit of `.debug_types`.
    Type {
        /// The signature of the type.
        type_signature: DebugTypeSignature,
        /// Where the type is defined.
        type_offset: UnitOffset<Offset>,
    },
    /// A partial unit.
    Partial,
    /// A skeleton of the split unit with the same identifier.
    Skeleton(DwoId),
    /// A compilation unit in a split object.
    SplitCompilation(DwoId),
    /// A type unit in a split object.
    SplitType {
        /// The signature of the type.
        type_signature: DebugTypeSignature,
        /// Where the type is defined.
        type_offset: UnitOffset<Offset>,
    },
}

/// What a header says after its initial length.
#[derive(Debug, Clone, Copy, Drop, PartialEq, Eq)]
pub struct UnitFields<Offset> {
    /// From 2 to 5.
    pub version: u16,
    /// 1, 2, 4 or 8 bytes.
    pub address_size: u8,
    /// Where the unit's table of abbreviations begins in `.debug_abbrev`.
    pub abbrev_offset: Offset,
    /// The type of the unit.
    pub unit_type: UnitType<Offset>,
}

/// Reads the fields of a header. `code` is the type of the section's units before version 5.
pub(crate) fn parse_fields<R: Reader>(
    unit: &mut R,
    format: Format,
    code: DwUt,
) -> Result<UnitFields<R::Offset>>
    ensures read { Reads (unit_fields R.Offset.GREATEST format code.0)
        (seen_fields R.Offset.value) (R.view unit.old) result (R.view unit.new) }
    ensures order { R.order unit.new ≡ R.order unit.old }
{
    let version = unit.read_u16()?;
    match version {
        5 => parse_from_5(unit, format),
        2..=4 => parse_before_5(unit, format, code, version),
        _ => Err(Error::UnknownVersion(u64::from(version))),
    }
}

// The fields after a version before 5.
fn parse_before_5<R: Reader>(
    unit: &mut R,
    format: Format,
    code: DwUt,
    version: u16,
) -> Result<UnitFields<R::Offset>>
    ensures read { Reads (before_5 R.Offset.GREATEST format code.0 version)
        (seen_fields R.Offset.value) (R.view unit.old) result (R.view unit.new) }
    ensures order { R.order unit.new ≡ R.order unit.old }
{
    let abbrev_offset = unit.read_offset(format)?;
    let address_size = unit.read_address_size()?;
    let unit_type = parse_own_fields(unit, format, code)?;
    Ok(UnitFields {
        version,
        address_size,
        abbrev_offset,
        unit_type,
    })
}

// The fields after version 5.
fn parse_from_5<R: Reader>(unit: &mut R, format: Format) -> Result<UnitFields<R::Offset>>
    ensures read { Reads (from_5 R.Offset.GREATEST format)
        (seen_fields R.Offset.value) (R.view unit.old) result (R.view unit.new) }
    ensures order { R.order unit.new ≡ R.order unit.old }
{
    let code = unit.read_u8()?;
    let address_size = unit.read_address_size()?;
    let abbrev_offset = unit.read_offset(format)?;
    let unit_type = parse_own_fields(unit, format, DwUt(code))?;
    Ok(UnitFields {
        version: 5,
        address_size,
        abbrev_offset,
        unit_type,
    })
}

// The fields that only units of one type have.
fn parse_own_fields<R: Reader>(
    unit: &mut R,
    format: Format,
    code: DwUt,
) -> Result<UnitType<R::Offset>>
    ensures read { Reads (own_fields R.Offset.GREATEST format code.0)
        (seen_type R.Offset.value) (R.view unit.old) result (R.view unit.new) }
    ensures order { R.order unit.new ≡ R.order unit.old }
{
    match code {
        DW_UT_compile => Ok(UnitType::Compilation),
        DW_UT_type => {
            let (type_signature, type_offset) = parse_type_fields(unit, format)?;
            Ok(UnitType::Type {
                type_signature,
                type_offset,
            })
        }
        DW_UT_partial => Ok(UnitType::Partial),
        DW_UT_skeleton => {
            let id = unit.read_u64()?;
            Ok(UnitType::Skeleton(DwoId(id)))
        }
        DW_UT_split_compile => {
            let id = unit.read_u64()?;
            Ok(UnitType::SplitCompilation(DwoId(id)))
        }
        DW_UT_split_type => {
            let (type_signature, type_offset) = parse_type_fields(unit, format)?;
            Ok(UnitType::SplitType {
                type_signature,
                type_offset,
            })
        }
        other => Err(Error::UnknownUnitType(other)),
    }
}

// The signature of a type, and its offset in the unit.
fn parse_type_fields<R: Reader>(
    unit: &mut R,
    format: Format,
) -> Result<(DebugTypeSignature, UnitOffset<R::Offset>)>
    ensures read { Reads (type_fields R.Offset.GREATEST format)
        (λ x. (x.0.0, R.Offset.value x.1.0)) (R.view unit.old) result (R.view unit.new) }
    ensures order { R.order unit.new ≡ R.order unit.old }
{
    let signature = unit.read_u64()?;
    let offset = unit.read_offset(format)?;
    Ok((DebugTypeSignature(signature), UnitOffset(offset)))
}
