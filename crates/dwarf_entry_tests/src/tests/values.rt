//! The value of each form, and its errors.

use super::{FIVE, LONG, ODD, Slice, TWO, Value, eof, same, shown, specification};
use dwarf_entry_core::AttributeValue::{
    Addr, Block, Data1, Data2, Data4, Data8, Data16, DebugAddrIndex, DebugInfoRef, DebugInfoRefSup,
    DebugLineStrRef, DebugLocListsIndex, DebugRngListsIndex, DebugStrOffsetsIndex, DebugStrRef,
    DebugStrRefSup, DebugTypesRef, Exprloc, Flag, Sdata, SecOffset, String, Udata, UnitRef,
};
use dwarf_entry_core::parse_attribute;
use dwarf_read_core::Error::{
    BadSignedLeb128, BadUnsignedLeb128, InvalidImplicitConst, UnknownForm, UnsupportedAddressSize,
    UnsupportedOffsetSize,
};
use dwarf_read_core::RunTimeEndian::{self, Big, Little};
use dwarf_read_core::{
    DebugAddrIndex as Address, DebugInfoOffset, DebugLineStrOffset,
    DebugLocListsIndex as Locations, DebugRngListsIndex as Ranges, DebugStrOffset,
    DebugStrOffsetsIndex as Index, DebugTypeSignature, DwForm, Encoding, Reader, Result,
    UnitOffset,
};

// A form, the unit's encoding, the byte order, bytes, and what is read: the value, with its form if
// that is indirect, or the error. The last number is how many bytes remain.
type Row = (
    u16,
    Encoding,
    RunTimeEndian,
    &'static [u8],
    Result<(u16, Value<'static>)>,
    usize,
);

#[rattlefmt::skip]
static VALUES: &[Row] = &[
    // DW_FORM_addr
    (0x01, FIVE, Little, b"\x08\x07\x06\x05\x04\x03\x02\x01\xaa", Ok((0x01, Addr(0x0102_0304_0506_0708))), 1),
    (0x01, LONG, Big, b"\x01\x02\x03\x04\xaa", Ok((0x01, Addr(0x0102_0304))), 1),
    (0x01, TWO, Little, b"\x02\x01\xaa", Ok((0x01, Addr(0x0102))), 1),
    (0x01, FIVE, Little, b"\x08\x07\x06\x05\x04\x03\x02", Err(eof!(0)), 7),
    (0x01, ODD, Little, b"\x03\x02\x01", Err(UnsupportedAddressSize(3)), 3),
    // DW_FORM_block2, block4, block and block1
    (0x03, FIVE, Little, b"\x02\0\x01\x02\xaa", Ok((0x03, Block(b"\x01\x02"))), 1),
    (0x03, FIVE, Big, b"\0\x01\x01\xaa", Ok((0x03, Block(b"\x01"))), 1),
    (0x03, FIVE, Little, b"\x02", Err(eof!(0)), 1),
    (0x03, FIVE, Little, b"\x03\0\x01\x02", Err(eof!(2)), 2),
    (0x04, FIVE, Little, b"\x01\0\0\0\x01\xaa", Ok((0x04, Block(b"\x01"))), 1),
    (0x04, FIVE, Big, b"\0\0\0\0\xaa", Ok((0x04, Block(b""))), 1),
    (0x04, FIVE, Little, b"\x01\0\0", Err(eof!(0)), 3),
    (0x04, FIVE, Little, b"\xff\xff\xff\xff\x01", Err(eof!(4)), 1),
    (0x09, FIVE, Little, b"\x81\0\x01\xaa", Ok((0x09, Block(b"\x01"))), 1),
    (0x09, FIVE, Little, b"\x81", Err(eof!(1)), 0),
    (0x09, FIVE, Little, b"\x02\x01", Err(eof!(1)), 1),
    (0x09, FIVE, Little, b"\xff\xff\xff\xff\xff\xff\xff\xff\xff\x7f\xaa", Err(BadUnsignedLeb128), 1),
    (0x0a, FIVE, Little, b"\x02\x01\x02\xaa", Ok((0x0a, Block(b"\x01\x02"))), 1),
    (0x0a, FIVE, Little, b"", Err(eof!(0)), 0),
    (0x0a, FIVE, Little, b"\x02\x01", Err(eof!(1)), 1),
    // DW_FORM_data2, data4, data8, data1 and data16
    (0x05, FIVE, Little, b"\x02\x01\xaa", Ok((0x05, Data2(0x0102))), 1),
    (0x05, FIVE, Little, b"\x02", Err(eof!(0)), 1),
    (0x06, TWO, Big, b"\x01\x02\x03\x04\xaa", Ok((0x06, Data4(0x0102_0304))), 1),
    (0x06, FIVE, Little, b"\x04\x03\x02", Err(eof!(0)), 3),
    (0x07, FIVE, Little, b"\x08\x07\x06\x05\x04\x03\x02\x01\xaa", Ok((0x07, Data8(0x0102_0304_0506_0708))), 1),
    (0x07, FIVE, Little, b"\x08\x07\x06\x05\x04\x03\x02", Err(eof!(0)), 7),
    (0x0b, FIVE, Little, b"\xff\xaa", Ok((0x0b, Data1(255))), 1),
    (0x0b, FIVE, Little, b"", Err(eof!(0)), 0),
    (0x1e, FIVE, Little, b"\x10\x0f\x0e\x0d\x0c\x0b\x0a\x09\x08\x07\x06\x05\x04\x03\x02\x01\xaa",
        Ok((0x1e, Data16(0x0102_0304_0506_0708_090a_0b0c_0d0e_0f10))), 1),
    (0x1e, FIVE, Little, b"\x10\x0f\x0e\x0d\x0c\x0b\x0a\x09\x08\x07\x06\x05\x04\x03\x02", Err(eof!(0)), 15),
    // DW_FORM_string
    (0x08, FIVE, Little, b"ab\0\xaa", Ok((0x08, String(b"ab"))), 1),
    (0x08, FIVE, Little, b"\0\0", Ok((0x08, String(b""))), 1),
    (0x08, FIVE, Little, b"ab", Err(eof!(0)), 2),
    // DW_FORM_flag and flag_present
    (0x0c, FIVE, Little, b"\0\xaa", Ok((0x0c, Flag(false))), 1),
    (0x0c, FIVE, Little, b"\x01\xaa", Ok((0x0c, Flag(true))), 1),
    (0x0c, FIVE, Little, b"\x80\xaa", Ok((0x0c, Flag(true))), 1),
    (0x0c, FIVE, Little, b"", Err(eof!(0)), 0),
    (0x19, FIVE, Little, b"\xaa", Ok((0x19, Flag(true))), 1),
    (0x19, FIVE, Little, b"", Ok((0x19, Flag(true))), 0),
    // DW_FORM_sdata and udata
    (0x0d, FIVE, Little, b"\x7f\xaa", Ok((0x0d, Sdata(-1))), 1),
    (0x0d, FIVE, Little, b"\x80\x7f\xaa", Ok((0x0d, Sdata(-128))), 1),
    (0x0d, FIVE, Little, b"\x80", Err(eof!(1)), 0),
    (0x0d, FIVE, Little, b"\x80\x80\x80\x80\x80\x80\x80\x80\x80\x01\xaa", Err(BadSignedLeb128), 1),
    (0x0f, FIVE, Little, b"\xff\x01\xaa", Ok((0x0f, Udata(255))), 1),
    (0x0f, FIVE, Little, b"\xff\xff\xff\xff\xff\xff\xff\xff\xff\x01", Ok((0x0f, Udata(u64::MAX))), 0),
    (0x0f, FIVE, Little, b"\xff\xff", Err(eof!(2)), 0),
    // DW_FORM_strp, strp_sup, line_strp and GNU_strp_alt
    (0x0e, FIVE, Little, b"\x04\x03\x02\x01\xaa", Ok((0x0e, DebugStrRef(DebugStrOffset(0x0102_0304)))), 1),
    (0x0e, LONG, Big, b"\0\0\0\0\x01\x02\x03\x04\xaa", Ok((0x0e, DebugStrRef(DebugStrOffset(0x0102_0304)))), 1),
    (0x0e, LONG, Little, b"\x04\x03\x02\x01\xaa", Err(eof!(0)), 5),
    (0x1d, FIVE, Little, b"\x04\0\0\0\xaa", Ok((0x1d, DebugStrRefSup(DebugStrOffset(4)))), 1),
    (0x1d, FIVE, Little, b"\x04\0\0", Err(eof!(0)), 3),
    (0x1f, FIVE, Little, b"\x04\0\0\0\xaa", Ok((0x1f, DebugLineStrRef(DebugLineStrOffset(4)))), 1),
    (0x1f, LONG, Little, b"\x04\0\0\0\xaa", Err(eof!(0)), 5),
    (0x1f21, LONG, Little, b"\x04\0\0\0\0\0\0\0\xaa", Ok((0x1f21, DebugStrRefSup(DebugStrOffset(4)))), 1),
    (0x1f21, FIVE, Little, b"\x04\0\0", Err(eof!(0)), 3),
    // DW_FORM_ref_addr: in version 2 it has the size of an address
    (0x10, TWO, Little, b"\x02\x01\xaa", Ok((0x10, DebugInfoRef(DebugInfoOffset(0x0102)))), 1),
    (0x10, FIVE, Little, b"\x02\x01\0\0\xaa", Ok((0x10, DebugInfoRef(DebugInfoOffset(0x0102)))), 1),
    (0x10, LONG, Little, b"\x02\x01\0\0\0\0\0\0\xaa", Ok((0x10, DebugInfoRef(DebugInfoOffset(0x0102)))), 1),
    (0x10, TWO, Little, b"\x02", Err(eof!(0)), 1),
    (0x10, FIVE, Little, b"\x02\x01", Err(eof!(0)), 2),
    (0x10, ODD, Little, b"\x03\x02\x01", Err(UnsupportedOffsetSize(3)), 3),
    // DW_FORM_ref1, ref2, ref4, ref8 and ref_udata
    (0x11, FIVE, Little, b"\x0b\xaa", Ok((0x11, UnitRef(UnitOffset(11)))), 1),
    (0x11, FIVE, Little, b"", Err(eof!(0)), 0),
    (0x12, FIVE, Big, b"\x01\x02\xaa", Ok((0x12, UnitRef(UnitOffset(0x0102)))), 1),
    (0x12, FIVE, Little, b"\x01", Err(eof!(0)), 1),
    (0x13, FIVE, Little, b"\x04\x03\x02\x01\xaa", Ok((0x13, UnitRef(UnitOffset(0x0102_0304)))), 1),
    (0x13, FIVE, Little, b"\x04\x03\x02", Err(eof!(0)), 3),
    (0x14, FIVE, Little, b"\x04\x03\x02\x01\0\0\0\0\xaa", Ok((0x14, UnitRef(UnitOffset(0x0102_0304)))), 1),
    (0x14, FIVE, Little, b"\x04\x03\x02\x01", Err(eof!(0)), 4),
    (0x15, FIVE, Little, b"\x80\x01\xaa", Ok((0x15, UnitRef(UnitOffset(128)))), 1),
    (0x15, FIVE, Little, b"\x80", Err(eof!(1)), 0),
    // DW_FORM_sec_offset
    (0x17, FIVE, Little, b"\x04\x03\x02\x01\xaa", Ok((0x17, SecOffset(0x0102_0304))), 1),
    (0x17, LONG, Little, b"\x04\x03\x02\x01\0\0\0\0\xaa", Ok((0x17, SecOffset(0x0102_0304))), 1),
    (0x17, FIVE, Little, b"\x04\x03\x02", Err(eof!(0)), 3),
    // DW_FORM_exprloc
    (0x18, FIVE, Little, b"\x02\x91\x7f\xaa", Ok((0x18, Exprloc(b"\x91\x7f"))), 1),
    (0x18, FIVE, Little, b"\0", Ok((0x18, Exprloc(b""))), 0),
    (0x18, FIVE, Little, b"\x80", Err(eof!(1)), 0),
    (0x18, FIVE, Little, b"\x82\0\x91", Err(eof!(2)), 1),
    // DW_FORM_strx, strx1 to strx4, and GNU_str_index
    (0x1a, FIVE, Little, b"\x80\x01\xaa", Ok((0x1a, DebugStrOffsetsIndex(Index(128)))), 1),
    (0x25, FIVE, Little, b"\xff\xaa", Ok((0x25, DebugStrOffsetsIndex(Index(255)))), 1),
    (0x26, FIVE, Little, b"\x02\x01\xaa", Ok((0x26, DebugStrOffsetsIndex(Index(0x0102)))), 1),
    (0x27, FIVE, Big, b"\x01\x02\x03\xaa", Ok((0x27, DebugStrOffsetsIndex(Index(0x01_0203)))), 1),
    (0x27, FIVE, Little, b"\x03\x02", Err(eof!(0)), 2),
    (0x28, FIVE, Little, b"\x04\x03\x02\x01\xaa", Ok((0x28, DebugStrOffsetsIndex(Index(0x0102_0304)))), 1),
    (0x1f02, FIVE, Little, b"\x80\x01\xaa", Ok((0x1f02, DebugStrOffsetsIndex(Index(128)))), 1),
    // DW_FORM_addrx, addrx1 to addrx4, and GNU_addr_index
    (0x1b, FIVE, Little, b"\x80\x01\xaa", Ok((0x1b, DebugAddrIndex(Address(128)))), 1),
    (0x1b, FIVE, Little, b"\x80", Err(eof!(1)), 0),
    (0x29, FIVE, Little, b"\xff\xaa", Ok((0x29, DebugAddrIndex(Address(255)))), 1),
    (0x2a, FIVE, Little, b"\x02\x01\xaa", Ok((0x2a, DebugAddrIndex(Address(0x0102)))), 1),
    (0x2b, FIVE, Little, b"\x03\x02\x01\xaa", Ok((0x2b, DebugAddrIndex(Address(0x01_0203)))), 1),
    (0x2c, FIVE, Little, b"\x04\x03\x02\x01\xaa", Ok((0x2c, DebugAddrIndex(Address(0x0102_0304)))), 1),
    (0x1f01, FIVE, Little, b"\x80\x01\xaa", Ok((0x1f01, DebugAddrIndex(Address(128)))), 1),
    // DW_FORM_ref_sup4, ref_sup8 and GNU_ref_alt
    (0x1c, LONG, Little, b"\x04\0\0\0\xaa", Ok((0x1c, DebugInfoRefSup(DebugInfoOffset(4)))), 1),
    (0x24, FIVE, Little, b"\x04\0\0\0\0\0\0\0\xaa", Ok((0x24, DebugInfoRefSup(DebugInfoOffset(4)))), 1),
    (0x1f20, FIVE, Little, b"\x04\0\0\0\xaa", Ok((0x1f20, DebugInfoRefSup(DebugInfoOffset(4)))), 1),
    (0x1f20, LONG, Little, b"\x04\0\0\0\0\0\0\0\xaa", Ok((0x1f20, DebugInfoRefSup(DebugInfoOffset(4)))), 1),
    (0x24, FIVE, Little, b"\x04\0\0\0", Err(eof!(0)), 4),
    // DW_FORM_ref_sig8
    (0x20, FIVE, Big, b"\x01\x02\x03\x04\x05\x06\x07\x08\xaa",
        Ok((0x20, DebugTypesRef(DebugTypeSignature(0x0102_0304_0506_0708)))), 1),
    (0x20, FIVE, Little, b"\x01\x02\x03\x04\x05\x06\x07", Err(eof!(0)), 7),
    // DW_FORM_loclistx and rnglistx
    (0x22, FIVE, Little, b"\x80\x01\xaa", Ok((0x22, DebugLocListsIndex(Locations(128)))), 1),
    (0x23, FIVE, Little, b"\x80\x01\xaa", Ok((0x23, DebugRngListsIndex(Ranges(128)))), 1),
    (0x23, FIVE, Little, b"", Err(eof!(0)), 0),
    // DW_FORM_implicit_const: the abbreviation has -7
    (0x21, FIVE, Little, b"\xaa", Ok((0x21, Sdata(-7))), 1),
    (0x21, FIVE, Little, b"", Ok((0x21, Sdata(-7))), 0),
    // DW_FORM_indirect: the form is in the entry, and may be indirect again
    (0x16, FIVE, Little, b"\x0b\x07\xaa", Ok((0x0b, Data1(7))), 1),
    (0x16, FIVE, Little, b"\x16\x96\0\x8b\0\x07\xaa", Ok((0x0b, Data1(7))), 1),
    (0x16, FIVE, Little, b"\x19\xaa", Ok((0x19, Flag(true))), 1),
    (0x16, FIVE, Little, b"\xa0\x3e\x04\0\0\0\xaa", Ok((0x1f20, DebugInfoRefSup(DebugInfoOffset(4)))), 1),
    (0x16, FIVE, Little, b"", Err(eof!(0)), 0),
    (0x16, FIVE, Little, b"\x16\x16", Err(eof!(2)), 0),
    (0x16, FIVE, Little, b"\x16\x80", Err(eof!(2)), 0),
    (0x16, FIVE, Little, b"\x05\x07", Err(eof!(1)), 1),
    (0x16, FIVE, Little, b"\x80\x80\x04\xaa", Err(BadUnsignedLeb128), 1),
    (0x16, FIVE, Little, b"\x21\xaa", Err(InvalidImplicitConst), 1),
    (0x16, FIVE, Little, b"\x16\x02\xaa", Err(UnknownForm(DwForm(0x02))), 1),
    // No form
    (0x00, FIVE, Little, b"\xaa", Err(UnknownForm(DwForm(0))), 1),
    (0x02, FIVE, Little, b"\xaa", Err(UnknownForm(DwForm(2))), 1),
    (0x2d, FIVE, Little, b"\xaa", Err(UnknownForm(DwForm(0x2d))), 1),
    (0xffff, FIVE, Little, b"", Err(UnknownForm(DwForm(0xffff))), 0),
];

// What is read of an attribute, and how many bytes remain.
fn read(
    form: u16,
    encoding: Encoding,
    order: RunTimeEndian,
    bytes: &'static [u8],
) -> (Result<(u16, Value<'static>)>, usize) {
    let mut input = Slice::new(bytes, order);
    let found = parse_attribute(&mut input, encoding, specification(form));
    let found = found.map(|attribute| (attribute.form.0, shown(attribute.value)));
    (found, input.len())
}

#[test]
fn each_form_has_its_value(rt: HostRuntime) {
    for (form, encoding, order, bytes, wanted, rest) in VALUES {
        let found = read(*form, *encoding, *order, *bytes);
        same(&rt, found, (*wanted, *rest), bytes);
    }
}
