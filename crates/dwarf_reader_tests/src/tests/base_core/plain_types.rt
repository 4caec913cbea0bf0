//! Formats, encodings, typed offsets and the other plain types.

use crate::tests::{hash_of, same};
use dwarf_base_core::DwarfFileType::{Dwo, Main};
use dwarf_base_core::Format::{Dwarf32, Dwarf64};
use dwarf_base_core::{
    BigEndian, DebugAbbrevOffset, DebugAddrBase, DebugAddrIndex, DebugAddrOffset,
    DebugArangesOffset, DebugFrameOffset, DebugInfoOffset, DebugLineOffset, DebugLineStrOffset,
    DebugLocListsBase, DebugLocListsIndex, DebugMacinfoOffset, DebugMacroOffset, DebugNamesOffset,
    DebugRngListsBase, DebugRngListsIndex, DebugStrOffset, DebugStrOffsetsBase,
    DebugStrOffsetsIndex, DebugTypeSignature, DebugTypesOffset, DwarfFileType, DwoId,
    EhFrameOffset, Encoding, Error, Format, LineEncoding, LittleEndian, LocationListsOffset,
    RangeListsOffset, RawRangeListsOffset, ReaderOffsetId, Register, RunTimeEndian, SectionId,
    StoreOnHeap, UnitOffset, UnitSectionOffset, Vendor,
};
use std::alloc::Global;
use std::fmt::Debug;
use std::hash::Hash;
use std::process::Abort;
use std::test::Fail;

// Each value is its own copy, and no other's.
fn are_plain<T: Debug + Copy + Eq + Drop>(rt: &impl Abort, values: &[T]) {
    for (place, value) in values.iter().enumerate() {
        let copy = *value;
        for (other_place, other) in values.iter().enumerate() {
            same(rt, copy == *other, place == other_place, value);
        }
    }
}

// Each value has the hash of what it is made of, and is no other.
fn are_hashed<T: Debug + Copy + Eq + Hash + Drop, W: Copy + Hash>(
    rt: &impl Abort,
    values: &[(T, W)],
) {
    for (place, (value, made_of)) in values.iter().enumerate() {
        same(rt, hash_of(value), hash_of(made_of), value);
        for (other_place, (other, _)) in values.iter().enumerate() {
            same(rt, *value == *other, place == other_place, value);
        }
    }
}

// The same, and each is less than those after it.
fn are_rising<T: Debug + Copy + Ord + Hash + Drop, W: Copy + Hash>(
    rt: &impl Abort,
    values: &[(T, W)],
) {
    are_hashed(rt, values);
    for (place, (value, _)) in values.iter().enumerate() {
        for (other_place, (other, _)) in values.iter().enumerate() {
            let order = place.cmp(&other_place);
            same(rt, value.cmp(other), order, value);
            same(rt, value.partial_cmp(other), Some(order), value);
        }
    }
}

// Each of these values is made of a number of the type of its one field.
#[test]
fn plain_types_are_compared(rt: HostRuntime) {
    are_plain(&rt, &[DebugAddrOffset(1u8), DebugAddrOffset(2)]);
    are_plain(&rt, &[DebugAddrBase(1u8), DebugAddrBase(2)]);
    are_plain(&rt, &[DebugAddrIndex(1u8), DebugAddrIndex(2)]);
    are_plain(&rt, &[DebugArangesOffset(1u8), DebugArangesOffset(2)]);
    are_plain(&rt, &[DebugLineOffset(1u8), DebugLineOffset(2)]);
    are_plain(&rt, &[DebugLineStrOffset(1u8), DebugLineStrOffset(2)]);
    are_plain(&rt, &[DebugLocListsBase(1u8), DebugLocListsBase(2)]);
    are_plain(&rt, &[DebugLocListsIndex(1u8), DebugLocListsIndex(2)]);
    are_plain(&rt, &[DebugRngListsBase(1u8), DebugRngListsBase(2)]);
    are_plain(&rt, &[DebugRngListsIndex(1u8), DebugRngListsIndex(2)]);
    are_plain(&rt, &[DebugStrOffset(1u8), DebugStrOffset(2)]);
    are_plain(&rt, &[DebugStrOffsetsBase(1u8), DebugStrOffsetsBase(2)]);
    are_plain(&rt, &[DebugStrOffsetsIndex(1u8), DebugStrOffsetsIndex(2)]);
    are_plain(&rt, &[ReaderOffsetId(1u64), ReaderOffsetId(2)]);
    are_plain(&rt, &[Vendor::Default, Vendor::AArch64]);
    are_plain(&rt, &[DwarfFileType::Main, DwarfFileType::Dwo]);
    are_plain(&rt, &[StoreOnHeap]);
    let errors = [
        Error::UnexpectedEof(ReaderOffsetId(1)),
        Error::UnexpectedEof(ReaderOffsetId(2)),
        Error::OutOfMemory,
    ];
    are_plain(&rt, &errors);
}

fn encoding(address_size: u8, format: Format, version: u16) -> Encoding {
    Encoding {
        address_size,
        format,
        version,
    }
}

#[test]
fn values_have_the_hashes_of_their_fields(rt: HostRuntime) {
    are_hashed(
        &rt,
        &[(DebugAbbrevOffset(1u8), 1u8), (DebugAbbrevOffset(2), 2)],
    );
    are_hashed(
        &rt,
        &[(LocationListsOffset(1u8), 1u8), (LocationListsOffset(2), 2)],
    );
    are_hashed(
        &rt,
        &[(DebugMacinfoOffset(1u8), 1u8), (DebugMacinfoOffset(2), 2)],
    );
    are_hashed(
        &rt,
        &[(DebugMacroOffset(1u8), 1u8), (DebugMacroOffset(2), 2)],
    );
    are_hashed(
        &rt,
        &[(DebugNamesOffset(1u8), 1u8), (DebugNamesOffset(2), 2)],
    );
    are_hashed(
        &rt,
        &[(RawRangeListsOffset(1u8), 1u8), (RawRangeListsOffset(2), 2)],
    );
    are_hashed(
        &rt,
        &[(RangeListsOffset(1u8), 1u8), (RangeListsOffset(2), 2)],
    );
    are_hashed(
        &rt,
        &[(DebugFrameOffset(1u8), 1u8), (DebugFrameOffset(2), 2)],
    );
    are_hashed(&rt, &[(EhFrameOffset(1u8), 1u8), (EhFrameOffset(2), 2)]);
    are_hashed(
        &rt,
        &[
            (DebugTypeSignature(1), 1u64),
            (DebugTypeSignature(1 << 63), 1 << 63),
        ],
    );
    are_hashed(&rt, &[(DwoId(1), 1u64), (DwoId(1 << 63), 1 << 63)]);
    are_hashed(&rt, &[(Dwarf32, 4isize), (Dwarf64, 8)]);
    let (first, other) = (encoding(8, Dwarf32, 5), encoding(4, Dwarf64, 5));
    let fields = [(first, (8u8, Dwarf32, 5u16)), (other, (4, Dwarf64, 5))];
    are_hashed(&rt, &fields);
    let (first, mut second) = (LineEncoding::default(), LineEncoding::default());
    second.line_base = -4;
    let fields = [
        (first, (1u8, 1u8, true, -5i8, 14u8)),
        (second, (1, 1, true, -4, 14)),
    ];
    are_hashed(&rt, &fields);
    are_hashed(
        &rt,
        &[(RunTimeEndian::Little, 0isize), (RunTimeEndian::Big, 1)],
    );
    are_hashed(&rt, &[(LittleEndian, ())]);
    are_hashed(&rt, &[(BigEndian, ())]);
}

#[test]
fn offsets_and_sections_are_ordered(rt: HostRuntime) {
    are_rising(&rt, &[(DebugInfoOffset(1u8), 1u8), (DebugInfoOffset(2), 2)]);
    are_rising(
        &rt,
        &[(DebugTypesOffset(1u8), 1u8), (DebugTypesOffset(2), 2)],
    );
    are_rising(
        &rt,
        &[(UnitSectionOffset(1u8), 1u8), (UnitSectionOffset(2), 2)],
    );
    are_rising(&rt, &[(UnitOffset(1u8), 1u8), (UnitOffset(2), 2)]);
    are_rising(&rt, &[(Register(1), 1u16), (Register(2), 2)]);
    let sections = [
        (SectionId::DebugAbbrev, 0isize),
        (SectionId::DebugStr, 21),
        (SectionId::DebugTypes, 24),
    ];
    are_rising(&rt, &sections);
}

// The derived text of a value is the one that is wanted.
fn is_reported<T: Debug>(
    rt: &impl Abort,
    mem: Global,
    value: &T,
    wanted: &str,
) -> Result<(), Fail> {
    let text = format!(in mem; "{value:?}")?;
    same(rt, text.as_str(), wanted, wanted);
    Ok(())
}

#[test]
fn derived_texts_tell_the_fields(rt: HostRuntime) -> Result<(), Fail> {
    let mem = rt.alloc();
    let fields = "Encoding { address_size: 8, format: Dwarf32, version: 5 }";
    is_reported(&rt, mem, &encoding(8, Dwarf32, 5), fields)?;
    let error = Error::UnexpectedEof(ReaderOffsetId(5));
    is_reported(&rt, mem, &error, "UnexpectedEof(ReaderOffsetId(5))")?;
    is_reported(&rt, mem, &DebugAbbrevOffset(7usize), "DebugAbbrevOffset(7)")?;
    is_reported(&rt, mem, &StoreOnHeap, "StoreOnHeap")?;
    is_reported(&rt, mem, &Vendor::AArch64, "AArch64")?;
    is_reported(&rt, mem, &BigEndian, "BigEndian")
}

#[test]
fn formats_have_sizes(rt: HostRuntime) {
    for (format, wanted) in [(Dwarf32, (4, 4, 4)), (Dwarf64, (8, 12, 8))] {
        let (word, initial_length) = (format.word_size(), format.initial_length_size());
        same(&rt, (word, initial_length, format as u8), wanted, format);
    }
}

#[test]
fn values_have_defaults_and_are_made_of_numbers(rt: HostRuntime) {
    let line = LineEncoding {
        minimum_instruction_length: 1,
        maximum_operations_per_instruction: 1,
        default_is_stmt: true,
        line_base: -5,
        line_range: 14,
    };
    same(&rt, LineEncoding::default(), line, "lines");
    same(&rt, DwarfFileType::default(), Main, "files");
    let order = RunTimeEndian::default();
    same(&rt, order, RunTimeEndian::Little, "a byte order");
    same(&rt, LittleEndian::default(), LittleEndian, "little");
    same(&rt, BigEndian::default(), BigEndian, "big");
    let (frame, eh_frame) = (DebugFrameOffset::from(5u32), EhFrameOffset::from(6usize));
    same(&rt, frame, DebugFrameOffset(5), "an offset");
    same(&rt, eh_frame, EhFrameOffset(6), "an offset");
    let (last, past) = (Register::from_u64(65_535), Register::from_u64(65_536));
    same(&rt, last, Ok(Register(65_535)), "the last register");
    same(&rt, past, Err(Error::UnsupportedRegister(65_536)), "past");
}

// A version, a format and a kind of file, and the base of its string offsets.
static BASES: &[(u16, Format, DwarfFileType, usize)] = &[
    (5, Dwarf32, Dwo, 8),
    (5, Dwarf64, Dwo, 16),
    (6, Dwarf32, Dwo, 8),
    (4, Dwarf32, Dwo, 0),
    (4, Dwarf64, Dwo, 0),
    (5, Dwarf32, Main, 0),
    (5, Dwarf64, Main, 0),
    (4, Dwarf64, Main, 0),
];

#[test]
fn string_offsets_have_default_bases(rt: HostRuntime) {
    for (version, format, file, wanted) in BASES {
        let encoding = encoding(8, *format, *version);
        let base = DebugStrOffsetsBase::default_for_encoding_and_file(encoding, *file);
        let wanted = DebugStrOffsetsBase(*wanted);
        same(&rt, base, wanted, (*version, *format, *file));
    }
}
