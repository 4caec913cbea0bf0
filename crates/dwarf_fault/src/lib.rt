//! Errors as numbers, as programs in C see them. The static libraries `dwarf_read_c` and
//! `dwarf_compare` share this, since no crate can use a static library.

#![tactic(auto)]

ghost use Rattle.std.specs.Prelude.{◌≡◌, ◌<◌};
ghost use Rattle.dwarf_fault.specs.Fault.{Means, error_number, fault_of};

use dwarf_read_core::{DwChildren, DwUt, Error, ReaderOffsetId};

/// The error of a call.
///
/// `kind` is the number of the error, which the call also returns. `value` is the position or the
/// value that the error carries, or 0.
#[repr(C)]
#[derive(Clone, Copy)]
pub struct DwarfFault {
    pub kind: u32,
    pub value: u64,
}

/// Returns the number and the value of an error. `include/dwarf_read.h` has the list of numbers.
pub fn fault_of(error: Error) -> DwarfFault
    ensures reported { result ≡ fault_of error }
    ensures nonzero { 0 < result.kind }
{
    // tools/constants writes the arms of both matches, all but the last ones.
    let (kind, value) = match error {
        Error::UnexpectedEof(ReaderOffsetId(position)) => (1, position),
        Error::BadUnsignedLeb128 => (2, 0),
        Error::BadSignedLeb128 => (3, 0),
        Error::AbbreviationTagZero => (4, 0),
        Error::InvalidAbbreviationChildren(DwChildren(value)) => (5, u64::from(value)),
        Error::AttributeNameZero => (6, 0),
        Error::AttributeFormZero => (7, 0),
        Error::DuplicateAbbreviationCode(code) => (8, code),
        Error::UnknownReservedLength(length) => (9, u64::from(length)),
        Error::UnsupportedOffset => (10, 0),
        Error::UnknownVersion(version) => (11, version),
        Error::UnsupportedAddressSize(size) => (12, u64::from(size)),
        Error::UnsupportedSegmentSize(size) => (13, u64::from(size)),
        Error::UnsupportedOffsetSize(size) => (14, u64::from(size)),
        Error::BadUtf8 => (15, 0),
        Error::AddressOverflow => (16, 0),
        Error::UnsupportedRegister(register) => (17, register),
        Error::OutOfMemory => (18, 0),
        Error::UnterminatedAbbreviations(ReaderOffsetId(position)) => (19, position),
        Error::UnknownUnitType(DwUt(value)) => (20, u64::from(value)),
        _ => (255, 0),
    };
    DwarfFault { kind, value }
}

/// Returns the error with the number and the value of a fault, if there is one. For an error that
/// carries nothing the value doesn't matter.
pub fn error_of(fault: &DwarfFault) -> Option<Error>
    ensures { Means fault.now result }
{
    let value = fault.value;
    let error = match fault.kind {
        1 => Error::UnexpectedEof(ReaderOffsetId(value)),
        2 => Error::BadUnsignedLeb128,
        3 => Error::BadSignedLeb128,
        4 => Error::AbbreviationTagZero,
        5 => Error::InvalidAbbreviationChildren(DwChildren(u8::try_from(value).ok()?)),
        6 => Error::AttributeNameZero,
        7 => Error::AttributeFormZero,
        8 => Error::DuplicateAbbreviationCode(value),
        9 => Error::UnknownReservedLength(u32::try_from(value).ok()?),
        10 => Error::UnsupportedOffset,
        11 => Error::UnknownVersion(value),
        12 => Error::UnsupportedAddressSize(u8::try_from(value).ok()?),
        13 => Error::UnsupportedSegmentSize(u8::try_from(value).ok()?),
        14 => Error::UnsupportedOffsetSize(u8::try_from(value).ok()?),
        15 => Error::BadUtf8,
        16 => Error::AddressOverflow,
        17 => Error::UnsupportedRegister(value),
        18 => Error::OutOfMemory,
        19 => Error::UnterminatedAbbreviations(ReaderOffsetId(value)),
        20 => Error::UnknownUnitType(DwUt(u8::try_from(value).ok()?)),
        _ => return None,
    };
    Some(error)
}

/// Writes the error of a call, and returns its number.
pub fn reject(error: Error, fault: &mut DwarfFault) -> u32
    ensures reported { fault.new ≡ fault_of error }
    ensures status { result ≡ error_number error }
    ensures nonzero { 0 < result }
{
    *fault = fault_of(error);
    fault.kind
}
