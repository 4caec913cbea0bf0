//! The base of a DWARF reader: formats and offsets, byte orders, the types of offsets and
//! addresses, and the errors of reading.

#![tactic(auto)]

pub mod common;
pub mod endianity;
pub mod error;
pub mod laws;
pub mod read_types;
pub mod reader_address;
pub mod reader_offset;

pub use common::{
    DebugAbbrevOffset, DebugAddrBase, DebugAddrIndex, DebugAddrOffset, DebugArangesOffset,
    DebugFrameOffset, DebugInfoOffset, DebugLineOffset, DebugLineStrOffset, DebugLocListsBase,
    DebugLocListsIndex, DebugMacinfoOffset, DebugMacroOffset, DebugNamesOffset, DebugRngListsBase,
    DebugRngListsIndex, DebugStrOffset, DebugStrOffsetsBase, DebugStrOffsetsIndex,
    DebugTypeSignature, DebugTypesOffset, DwarfFileType, DwoId, EhFrameOffset, Encoding, Format,
    LineEncoding, LocationListsOffset, RangeListsOffset, RawRangeListsOffset, Register, SectionId,
    UnitSectionOffset, Vendor,
};
pub use endianity::{BigEndian, Endianity, LittleEndian, NativeEndian, RunTimeEndian};
pub use error::{Error, Result};
pub use read_types::{StoreOnHeap, UnitOffset};
pub use reader_address::ReaderAddress;
pub use reader_offset::{ReaderOffset, ReaderOffsetId};
