//! Values, what remains after each, and the entries of units.

mod entries;
mod narrow;
mod skipping;
mod values;

use dwarf_entry_core::AttributeValue;
use dwarf_read_core::Format::{Dwarf32, Dwarf64};
use dwarf_read_core::{
    AttributeSpecification, DW_AT_name, DW_FORM_implicit_const, DwForm, Encoding, EndianSlice,
    Result, RunTimeEndian,
};
use std::alloc::Global;
use std::fmt::Debug;
use std::process::Abort;

type Slice<'a> = EndianSlice<'a, RunTimeEndian>;

// A value whose bytes are a slice.
type Value<'a> = AttributeValue<&'a [u8], usize>;

// The error that bytes are missing at a position, in a constant.
macro_rules! eof {
    ($position:expr) => {
        dwarf_read_core::Error::UnexpectedEof(dwarf_read_core::ReaderOffsetId($position))
    };
}

use eof;

// The units that the rows are of: version 5 with addresses of eight bytes, the same in the 64-bit
// format, version 2 with addresses of two bytes, and one whose addresses have a size that no reader
// takes.
const FIVE: Encoding = Encoding {
    address_size: 8,
    format: Dwarf32,
    version: 5,
};

const LONG: Encoding = Encoding {
    address_size: 4,
    format: Dwarf64,
    version: 5,
};

const TWO: Encoding = Encoding {
    address_size: 2,
    format: Dwarf32,
    version: 2,
};

const ODD: Encoding = Encoding {
    address_size: 3,
    format: Dwarf32,
    version: 2,
};

// The specification of an attribute of this form. A constant in the abbreviation is -7.
fn specification(form: u16) -> AttributeSpecification {
    if DwForm(form) == DW_FORM_implicit_const {
        AttributeSpecification::new(DW_AT_name, DW_FORM_implicit_const, Some(-7))
    } else {
        AttributeSpecification::new(DW_AT_name, DwForm(form), None)
    }
}

// The specifications of attributes of these forms.
fn specifications(mem: Global, forms: &[u16]) -> Result<Vec<AttributeSpecification>> {
    let mut specs = Vec::new(mem);
    for form in forms {
        specs.push(specification(*form))?;
    }
    Ok(specs)
}

// A section whose only unit has these bytes of entries, which begin at offset 12. The unit has
// version 5, 32-bit format, and addresses of eight bytes.
fn section_of(mem: Global, entries: &[u8]) -> Result<Vec<u8>> {
    let mut section = Vec::from_slice(mem, b"\0\0\0\0\x05\0\x01\x08\0\0\0\0")?;
    section[0] = (entries.len() & 0x7f) as u8 + 8;
    section.extend_from_slice(entries)?;
    Ok(section)
}

// Ends the test if a value isn't the one that is wanted, and tells which bytes it is of.
fn same<T: PartialEq + Debug + Drop>(rt: &impl Abort, got: T, wanted: T, bytes: &[u8]) {
    assert_eq!(rt; got, wanted, "{bytes:?}");
}

// A value, with its bytes as a slice.
fn shown<'a>(value: AttributeValue<Slice<'a>, usize>) -> Value<'a> {
    match value {
        AttributeValue::Addr(x) => AttributeValue::Addr(x),
        AttributeValue::Block(x) => AttributeValue::Block(x.slice()),
        AttributeValue::Data1(x) => AttributeValue::Data1(x),
        AttributeValue::Data2(x) => AttributeValue::Data2(x),
        AttributeValue::Data4(x) => AttributeValue::Data4(x),
        AttributeValue::Data8(x) => AttributeValue::Data8(x),
        AttributeValue::Data16(x) => AttributeValue::Data16(x),
        AttributeValue::Sdata(x) => AttributeValue::Sdata(x),
        AttributeValue::Udata(x) => AttributeValue::Udata(x),
        AttributeValue::Exprloc(x) => AttributeValue::Exprloc(x.slice()),
        AttributeValue::Flag(x) => AttributeValue::Flag(x),
        AttributeValue::SecOffset(x) => AttributeValue::SecOffset(x),
        AttributeValue::UnitRef(x) => AttributeValue::UnitRef(x),
        AttributeValue::DebugInfoRef(x) => AttributeValue::DebugInfoRef(x),
        AttributeValue::DebugInfoRefSup(x) => AttributeValue::DebugInfoRefSup(x),
        AttributeValue::DebugTypesRef(x) => AttributeValue::DebugTypesRef(x),
        AttributeValue::DebugStrRef(x) => AttributeValue::DebugStrRef(x),
        AttributeValue::DebugStrRefSup(x) => AttributeValue::DebugStrRefSup(x),
        AttributeValue::DebugLineStrRef(x) => AttributeValue::DebugLineStrRef(x),
        AttributeValue::DebugStrOffsetsIndex(x) => AttributeValue::DebugStrOffsetsIndex(x),
        AttributeValue::DebugAddrIndex(x) => AttributeValue::DebugAddrIndex(x),
        AttributeValue::DebugLocListsIndex(x) => AttributeValue::DebugLocListsIndex(x),
        AttributeValue::DebugRngListsIndex(x) => AttributeValue::DebugRngListsIndex(x),
        AttributeValue::String(x) => AttributeValue::String(x.slice()),
    }
}
