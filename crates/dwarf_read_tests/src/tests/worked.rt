//! Worked sections that several tests read, and the tables that are in them.

use dwarf_read_core::Format;
use dwarf_read_core::constants::{
    DW_AT_name, DW_FORM_string, DW_TAG_compile_unit, DwAt, DwForm, DwTag,
};
use std::alloc::{AllocError, Global};

// The name of an attribute, its form, and the value that the table itself has of it.
pub(super) type Attribute = (DwAt, DwForm, Option<i64>);

// A tag, whether there are children, and the attributes.
pub(super) type Declaration = (DwTag, bool, &'static [Attribute]);

// Declarations with their codes, by rising code, and whether a code of value 0 closes the table.
pub(super) type Table = (&'static [(u64, Declaration)], bool);

pub(super) const NAME: Attribute = (DW_AT_name, DW_FORM_string, None);

// A unit without children and attributes.
pub(super) const BARE: Declaration = (DW_TAG_compile_unit, false, &[]);

// A table without declarations that a code of value 0 closes.
pub(super) const CLOSED_TABLE: Table = (&[], true);

// A table without declarations that the section's end follows.
pub(super) const NO_TABLE: Table = (&[], false);

// A declaration with one attribute and children, a code of value 0, and a byte after it.
pub(super) const UNIT: &[u8] = b"\x01\x11\x01\x03\x08\0\0\0\xff";

pub(super) const UNIT_TABLE: Table = (&[(1, (DW_TAG_compile_unit, true, &[NAME]))], true);

// A declaration that the section's end follows.
pub(super) const ENDED: &[u8] = b"\x01\x11\0\0\0";

pub(super) const ENDED_TABLE: Table = (&[(1, BARE)], false);

// A declaration whose attribute has the value -42 in the table itself.
pub(super) const IMPLICIT: &[u8] = b"\x01\x2e\0\x03\x21\x56\0\0\0";

// Declarations with the codes 1, 3 and 2.
pub(super) const THREE: &[u8] = b"\x01\x11\0\0\0\x03\x11\0\0\0\x02\x11\0\0\0\0";

// A declaration of five attributes.
pub(super) const FIVE: &[u8] = b"\x01\x11\0\x03\x08\x03\x08\x03\x08\x03\x08\x03\x08\0\0\0";

// A declaration of six attributes.
pub(super) const SIX: &[u8] = b"\x01\x11\0\x03\x08\x03\x08\x03\x08\x03\x08\x03\x08\x03\x08\0\0\0";

// Declarations with the codes 1 to 33: one more than a table first has room for.
pub(super) const MANY: &[u8] = b"\
    \x01\x11\0\0\0\x02\x11\0\0\0\x03\x11\0\0\0\x04\x11\0\0\0\x05\x11\0\0\0\x06\x11\0\0\0\
    \x07\x11\0\0\0\x08\x11\0\0\0\x09\x11\0\0\0\x0a\x11\0\0\0\x0b\x11\0\0\0\x0c\x11\0\0\0\
    \x0d\x11\0\0\0\x0e\x11\0\0\0\x0f\x11\0\0\0\x10\x11\0\0\0\x11\x11\0\0\0\x12\x11\0\0\0\
    \x13\x11\0\0\0\x14\x11\0\0\0\x15\x11\0\0\0\x16\x11\0\0\0\x17\x11\0\0\0\x18\x11\0\0\0\
    \x19\x11\0\0\0\x1a\x11\0\0\0\x1b\x11\0\0\0\x1c\x11\0\0\0\x1d\x11\0\0\0\x1e\x11\0\0\0\
    \x1f\x11\0\0\0\x20\x11\0\0\0\x21\x11\0\0\0\0";

#[rattlefmt::skip]
pub(super) const MANY_TABLE: Table = (
    &[
        (1, BARE), (2, BARE), (3, BARE), (4, BARE), (5, BARE), (6, BARE), (7, BARE), (8, BARE),
        (9, BARE), (10, BARE), (11, BARE), (12, BARE), (13, BARE), (14, BARE), (15, BARE),
        (16, BARE), (17, BARE), (18, BARE), (19, BARE), (20, BARE), (21, BARE), (22, BARE),
        (23, BARE), (24, BARE), (25, BARE), (26, BARE), (27, BARE), (28, BARE), (29, BARE),
        (30, BARE), (31, BARE), (32, BARE), (33, BARE),
    ],
    true,
);

// A declaration of 17 attributes: one more than the list that collects them first has room for.
pub(super) const LONG: &[u8] = b"\
    \x01\x11\0\x03\x08\x03\x08\x03\x08\x03\x08\x03\x08\x03\x08\x03\x08\x03\x08\x03\x08\x03\x08\
    \x03\x08\x03\x08\x03\x08\x03\x08\x03\x08\x03\x08\x03\x08\0\0\0";

// Three strings, the last of them empty.
pub(super) const STRINGS: &[u8] = b"one\0two\0\0";

// A set of one address, and a byte too few for another.
pub(super) const CUT_SET: &[u8] = b"\x09\0\0\0\x05\0\x04\0\x78\x56\x34\x12\xaa";

// Two sets of two addresses each, one in the 32-bit and one in the 64-bit format.
pub(super) const TWO_SETS: &[u8] = b"\
    \x0c\0\0\0\x05\0\x04\0\x78\x56\x34\x12\xef\xbe\xad\xde\
    \xff\xff\xff\xff\x14\0\0\0\0\0\0\0\x05\0\x08\0\
    \xf0\xde\xbc\x9a\x78\x56\x34\x12\xef\xbe\xad\xde\xef\xbe\xad\xde";

// A header of string offsets, and then the words 1000 to 1019.
pub(super) fn twenty_words(
    mem: Global,
    format: Format,
    is_big: bool,
) -> Result<Vec<u8>, AllocError> {
    let mut bytes = Vec::new(mem);
    bytes.extend_from_slice(match (format, is_big) {
        (Format::Dwarf32, false) => b"\x54\0\0\0\x05\0\0\0".as_slice(),
        (Format::Dwarf32, true) => b"\0\0\0\x54\0\x05\0\0",
        (Format::Dwarf64, false) => b"\xff\xff\xff\xff\xa4\0\0\0\0\0\0\0\x05\0\0\0",
        (Format::Dwarf64, true) => b"\xff\xff\xff\xff\0\0\0\0\0\0\0\xa4\0\x05\0\0",
    })?;
    for word in 1000..1020u64 {
        let (little, big) = (word.to_le_bytes(), word.to_be_bytes());
        bytes.extend_from_slice(match (format, is_big) {
            (Format::Dwarf32, false) => &little[..4],
            (Format::Dwarf32, true) => &big[4..],
            (Format::Dwarf64, false) => &little,
            (Format::Dwarf64, true) => &big,
        })?;
    }
    Ok(bytes)
}

// The addresses of the two sets.
pub(super) const FOUR_ADDRESSES: [u64; 4] = [
    0x1234_5678,
    0xdead_beef,
    0x1234_5678_9abc_def0,
    0xdead_beef_dead_beef,
];
