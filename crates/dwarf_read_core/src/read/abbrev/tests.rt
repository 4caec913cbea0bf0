//! Where abbreviations and their attributes are, and which bytes remain after the parsers. No
//! public call shows this.

ghost use Rattle.std.specs.Prelude.{◌≡◌, All, IfOk};
ghost use Rattle.dwarf_read_core.specs.Equality.{HasValueByForm};

use super::DebugAbbrev;
use super::abbreviation::Abbreviation;
use super::attribute::{AttributeSpecification, Attributes};
use super::collector::{Collector, parse_has_children, parse_tag};
use super::parse::parse;
use super::sink::AbbreviationDeclaration;
use super::table::Abbreviations;
use dwarf_base_core::{DebugAbbrevOffset, Error, LittleEndian, Result};
use dwarf_code_core::children::{DW_CHILDREN_no, DW_CHILDREN_yes, DwChildren};
use dwarf_const_core::attribute::DW_AT_name;
use dwarf_const_core::form::{DW_FORM_implicit_const, DW_FORM_string};
use dwarf_const_core::tag::{DW_TAG_compile_unit, DW_TAG_subprogram, DwTag};
use dwarf_reader_core::EndianSlice;
use dwarf_reader_core::leb128::write::Leb128;
use std::alloc::{AllocError, Global};
use std::process::Abort;
use std::test::Fail;

fn declared(code: u64, attributes: Attributes) -> Abbreviation
    requires { All HasValueByForm attributes.items }
    ensures { result.code ≡ code }
{
    Abbreviation::new(code, DW_TAG_compile_unit, DW_CHILDREN_no, attributes)
}

// A table of declarations with these codes, added one by one.
fn table_of(mem: Global, codes: &[u64]) -> Result<Abbreviations> {
    let mut table = Abbreviations::empty(mem);
    for code in codes {
        if *code != 0 {
            table.insert(declared(*code, Attributes::new(mem)))?;
        }
    }
    Ok(table)
}

// Whether a table gives exactly these codes, in this order.
fn gives_codes(table: &Abbreviations, codes: &[u64]) -> bool {
    let mut found = table.iter();
    for code in codes {
        if found.next().map(Abbreviation::code) != Some(*code) {
            return false;
        }
    }
    found.next().is_none()
}

const ONE_TO_FOUR: &[u64] = &[1, 2, 3, 4];

// Codes in the order in which they are added, the order in which a table gives them, and how many the vector has.
#[rattlefmt::skip]
static ORDERS: &[(&[u64], &[u64], usize)] = &[
    (&[1, 2], &[1, 2], 2),
    (&[2, 3], &[2, 3], 0),
    (&[1, 3, 2], &[1, 2, 3], 2),
    (&[1, 2, 3, 4], ONE_TO_FOUR, 4),
    (&[1, 2, 4, 3], ONE_TO_FOUR, 3),
    (&[1, 3, 2, 4], ONE_TO_FOUR, 2),
    (&[1, 3, 4, 2], ONE_TO_FOUR, 2),
    (&[1, 4, 2, 3], ONE_TO_FOUR, 3),
    (&[1, 4, 3, 2], ONE_TO_FOUR, 2),
    (&[2, 1, 3, 4], ONE_TO_FOUR, 1),
    (&[2, 1, 4, 3], ONE_TO_FOUR, 1),
    (&[2, 3, 1, 4], ONE_TO_FOUR, 1),
    (&[2, 3, 4, 1], ONE_TO_FOUR, 1),
    (&[2, 4, 1, 3], ONE_TO_FOUR, 1),
    (&[2, 4, 3, 1], ONE_TO_FOUR, 1),
    (&[3, 1, 2, 4], ONE_TO_FOUR, 2),
    (&[3, 1, 4, 2], ONE_TO_FOUR, 2),
    (&[3, 2, 1, 4], ONE_TO_FOUR, 1),
    (&[3, 2, 4, 1], ONE_TO_FOUR, 1),
    (&[3, 4, 1, 2], ONE_TO_FOUR, 2),
    (&[3, 4, 2, 1], ONE_TO_FOUR, 1),
    (&[4, 1, 2, 3], ONE_TO_FOUR, 3),
    (&[4, 1, 3, 2], ONE_TO_FOUR, 2),
    (&[4, 2, 1, 3], ONE_TO_FOUR, 1),
    (&[4, 2, 3, 1], ONE_TO_FOUR, 1),
    (&[4, 3, 1, 2], ONE_TO_FOUR, 2),
    (&[4, 3, 2, 1], ONE_TO_FOUR, 1),
    (&[u64::MAX, 1], &[1, u64::MAX], 1),
];

#[test]
fn codes_from_one_on_are_in_the_vector(rt: HostRuntime) -> std::result::Result<(), Fail> {
    for (codes, in_order, in_vec) in ORDERS {
        let table = table_of(rt.alloc(), codes)?;
        check_codes(&rt, &table, in_order, *in_vec);
        check_codes(&rt, &table.try_clone()?, in_order, *in_vec);
    }
    Ok(())
}

// Ends the test where a table has other codes than these, or another number of them in its vector.
fn check_codes(rt: &impl Abort, table: &Abbreviations, codes: &[u64], in_vec: usize) {
    let lengths = (table.vec.len(), table.vec.len() + table.others.len());
    assert_eq!(rt; lengths, (in_vec, codes.len()), "{codes:?}");
    assert!(rt; gives_codes(table, codes), "{codes:?}");
    for code in codes {
        assert!(rt; table.get(*code).is_some(), "{code} of {codes:?}");
    }
}

#[test]
fn repeated_codes_are_rejected(rt: HostRuntime) {
    let rows: [(&[u64], u64); 8] = [
        (&[1, 2, 1], 1),
        (&[1, 2, 2], 2),
        (&[2, 2], 2),
        (&[2, 1, 2], 2),
        (&[2, 1, 1], 1),
        (&[1, 3, 2, 3], 3),
        (&[3, 5, 4, 4], 4),
        (&[3, 5, 4, 5], 5),
    ];
    for (codes, again) in rows {
        let fault = table_of(rt.alloc(), codes).err();
        let wanted = Some(Error::DuplicateAbbreviationCode(again));
        assert_eq!(rt; fault, wanted, "{codes:?}");
    }
}

fn slice(bytes: &[u8]) -> EndianSlice<'_, LittleEndian> {
    EndianSlice::new(bytes, LittleEndian)
}

// `count` attributes `DW_AT_name` in the form `DW_FORM_string`.
fn attributes(mem: Global, count: usize) -> std::result::Result<Attributes, AllocError>
    ensures { IfOk result (λ list. All HasValueByForm list.items) }
{
    let mut attributes = Attributes::new(mem);
    for _ in 0..count {
        attributes.push(AttributeSpecification::new(DW_AT_name, DW_FORM_string, None))?;
    }
    Ok(attributes)
}

#[test]
fn tags_and_children_are_parsed(rt: HostRuntime) {
    let input = &mut slice(b"\x01\x02");
    assert!(rt; parse_tag(input) == Ok(DwTag(1)));
    assert!(rt; input.slice() == b"\x02".as_slice());
    assert!(rt; parse_tag(&mut slice(b"\0")) == Err(Error::AbbreviationTagZero));
    let input = &mut slice(b"\0\x01\x02");
    assert!(rt; parse_has_children(input) == Ok(DW_CHILDREN_no));
    assert!(rt; parse_has_children(input) == Ok(DW_CHILDREN_yes));
    let refused = Error::InvalidAbbreviationChildren(DwChildren(2));
    assert!(rt; parse_has_children(input) == Err(refused));
}

#[test]
fn attributes_are_parsed(rt: HostRuntime) {
    let rows: [(&[u8], Result<Option<AttributeSpecification>>, &[u8]); 3] = [
        (b"\0\0\x01", Ok(None), b"\x01"),
        (b"\0\x01\0\0", Err(Error::AttributeNameZero), b"\0\0"),
        (b"\x01\0\0\0", Err(Error::AttributeFormZero), b"\0\0"),
    ];
    for (bytes, wanted, left) in rows {
        let input = &mut slice(bytes);
        assert!(rt; AttributeSpecification::parse(input) == wanted, "{bytes:?}");
        assert!(rt; input.slice() == left, "{bytes:?}");
    }
}

// The bytes after each entry, and one with a name, and one whose attribute has a value, before these.
const AFTER: &[u8] = b"\x01\x02\x03\x04";

const NAMED: &[u8] = b"\x01\x2e\0\x03\x08\0\0\x01\x02\x03\x04";

const VALUED: &[u8] = b"\x01\x2e\0\x03\x21\x56\0\0\x01\x02\x03\x04";

#[test]
fn entries_of_a_table_are_parsed(rt: HostRuntime) -> std::result::Result<(), Fail> {
    let mem = rt.alloc();
    let name = AttributeSpecification::new(DW_AT_name, DW_FORM_string, None);
    let value = AttributeSpecification::new(DW_AT_name, DW_FORM_implicit_const, Some(-42));
    let rows: [(&[u8], Option<AttributeSpecification>, &[u8]); 3] = [
        (NAMED, Some(name), AFTER),
        (VALUED, Some(value), AFTER),
        (b"\0\x01\x02\x03\x04", None, AFTER),
    ];
    let mut collector = Collector::new(mem);
    for (bytes, attribute, left) in rows {
        let input = &mut slice(bytes);
        check_entry(&rt, collector.declaration(input)?, attribute, bytes);
        assert_eq!(rt; input.slice(), left, "{bytes:?}");
    }
    Ok(())
}

// Ends the test unless an entry with only this attribute was found, or none where `None` is wanted.
fn check_entry(
    rt: &impl Abort,
    found: Option<AbbreviationDeclaration<'_>>,
    attribute: Option<AttributeSpecification>,
    bytes: &[u8],
) {
    assert_eq!(rt; found.is_some(), attribute.is_some(), "{bytes:?}");
    if let (Some(found), Some(attribute)) = (found, attribute) {
        let head = (found.code, found.tag, found.has_children);
        assert!(rt; head == (1, DW_TAG_subprogram, DW_CHILDREN_no), "{bytes:?}");
        assert!(rt; found.attributes == [attribute].as_slice(), "{bytes:?}");
    }
}

#[test]
fn tables_are_parsed_up_to_code_0(rt: HostRuntime) -> std::result::Result<(), Fail> {
    let bytes =
        b"\x01\x02\x03\x04\x02\x2e\0\x03\x08\0\0\x01\x11\x01\x25\x0e\x13\x05\0\0\0\x05\x06\x07\x08";
    let input = &mut slice(&bytes[4..]);
    let table = parse::<_, Abbreviations>(rt.alloc(), input)?;
    assert_eq!(rt;
        (table.len(), input.slice()),
        (2, b"\x05\x06\x07\x08".as_slice())
    );
    Ok(())
}

// Declarations, and how many attributes each has.
#[rattlefmt::skip]
static PLACES: &[(&[u8], usize)] = &[
    (b"\x01\x11\0\x03\x08\x03\x08\x03\x08\x03\x08\x03\x08\0\0", 5),
    (b"\x01\x11\0\x03\x08\x03\x08\x03\x08\x03\x08\x03\x08\x03\x08\0\0", 6),
];

#[test]
fn five_attributes_stay_in_place(rt: HostRuntime) -> std::result::Result<(), Fail> {
    for (bytes, count) in PLACES {
        let table = parse::<_, Abbreviations>(rt.alloc(), &mut slice(bytes))?;
        let found = table.get(1).ok_or("no declaration")?;
        let place = (found.attributes.len(), found.attributes.spilled());
        assert_eq!(rt; place, (*count, *count > 5));
    }
    Ok(())
}

// A section with a table of the codes from 1 to this one.
fn section_up_to(mem: Global, last: u64) -> std::result::Result<Vec<u8>, AllocError> {
    let mut section = Vec::new(mem);
    for code in 0..last {
        section.extend_from_slice(Leb128::unsigned(code + 1).bytes())?;
        section.extend_from_slice(b"\x11\0\0\0")?;
    }
    Ok(section)
}

// How many abbreviations a table has, and for how many there is room once it is read.
static ROOMS: &[(u64, usize)] = &[(0, 0), (1, 32), (32, 32), (33, 33), (256, 256), (257, 512)];

#[test]
fn room_for_a_usual_table_is_given_back(rt: HostRuntime) -> std::result::Result<(), Fail> {
    for (count, room) in ROOMS {
        let section = section_up_to(rt.alloc(), *count)?;
        let section = DebugAbbrev::new(&section, LittleEndian);
        let table = section.abbreviations(rt.alloc(), DebugAbbrevOffset(0))?;
        let found = (table.len() as u64, table.vec.capacity());
        assert_eq!(rt; found, (*count, *room));
    }
    Ok(())
}

#[test]
fn equality_does_not_see_the_place(rt: HostRuntime) -> std::result::Result<(), Fail> {
    let five = attributes(rt.alloc(), 5)?;
    let mut six = attributes(rt.alloc(), 6)?;
    six.truncate(5);
    assert_eq!(rt; (five.spilled(), six.spilled()), (false, true));
    assert!(rt; declared(1, five) == declared(1, six));
    Ok(())
}
