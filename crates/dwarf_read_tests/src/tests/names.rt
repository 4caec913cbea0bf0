//! The names of the crates below, each of which `dwarf_read_core` has, too. `tools/constants` compares the names of
//! the constants.

use dwarf_read_core::constants::{
    DwAccess, DwAddr, DwAt, DwAte, DwCc, DwCfa, DwChildren, DwDefaulted, DwDs, DwDsc, DwEhPe,
    DwEnd, DwForm, DwId, DwIdx, DwInl, DwLang, DwLle, DwLnct, DwLne, DwLns, DwMacinfo, DwMacro,
    DwOp, DwOrd, DwRle, DwSect, DwSectV2, DwTag, DwUt, DwVirtuality, DwVis, GdbIndexSymbolKind,
};
use dwarf_read_core::leb128::read::{self, signed, skip, u16, unsigned};
use dwarf_read_core::leb128::write::{Leb128, sleb128_size, uleb128_size};
use dwarf_read_core::{
    BigEndian, DebugAbbrevOffset, DebugAddrBase, DebugAddrIndex, DebugAddrOffset,
    DebugArangesOffset, DebugFrameOffset, DebugInfoOffset, DebugLineOffset, DebugLineStrOffset,
    DebugLocListsBase, DebugLocListsIndex, DebugMacinfoOffset, DebugMacroOffset, DebugNamesOffset,
    DebugRngListsBase, DebugRngListsIndex, DebugStrOffset, DebugStrOffsetsBase,
    DebugStrOffsetsIndex, DebugTypeSignature, DebugTypesOffset, DwarfFileType, DwoId,
    EhFrameOffset, Encoding, EndianSlice, Endianity, Error, Format, LineEncoding, LittleEndian,
    LocationListsOffset, NativeEndian, RangeListsOffset, RawRangeListsOffset, Reader,
    ReaderAddress, ReaderOffset, ReaderOffsetId, Register, Result, RunTimeEndian, SectionId,
    StoreOnHeap, UnitOffset, UnitSectionOffset, Vendor, read_u8_array,
};
