//! Reading: readers, the sections that hold abbreviations, addresses and strings, and the errors of
//! reading.

mod abbrev;
mod addr;
mod contributions;
mod indexed;
mod key;
mod section;
mod str;

pub use abbrev::{
    Abbreviation, AbbreviationDeclaration, AbbreviationSink, Abbreviations, AbbreviationsCache,
    AbbreviationsCacheStrategy, AbbreviationsIter, AttributeSpecification, DebugAbbrev,
};
pub use addr::{AddrEntryIter, AddrHeader, AddrHeaderIter, AddressSize, DebugAddr};
pub use contributions::{ContributionHeader, ContributionHeaderIter, HeaderFields};
pub use dwarf_base_core::{
    Error, ReaderAddress, ReaderOffset, ReaderOffsetId, Result, StoreOnHeap, UnitOffset,
};
pub use dwarf_reader_core::{EndianSlice, Reader, read_u8_array};
pub use key::Key;
pub use section::Section;
pub use str::{
    DebugLineStr, DebugStr, DebugStrOffsets, NoFields, StrOffsetsEntryIter, StrOffsetsHeader,
    StrOffsetsHeaderIter,
};
