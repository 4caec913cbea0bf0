//! What DWARF readers and writers have in common: formats and encodings, the types of
//! offsets into the sections, and the sections themselves.
//!
//! An offset is a newtype named after the section that it points into, so that an offset into
//! one section can't be used in another. Its type parameter `T` is the type of the number,
//! mostly a [`ReaderOffset`](crate::ReaderOffset).

ghost use Rattle.std.specs.Prelude.{◌≡◌, ◌^◌, ◌↔◌, ◌⊎◌, IsTrue, option_map, true, negsuc};
ghost use Rattle.dwarf_base_core.specs.Checked.{OkBelow};

use crate::error::{Error, Result};
use crate::reader_offset::ReaderOffset;

/// Whether a unit's lengths and offsets have 4 bytes or 8 (DWARF 5, 7.4).
///
/// The initial length of a unit says which: 0xffffffff precedes a length of 8 bytes.
/// As a number, a format is the number of bytes in a word.
#[derive(Debug, Clone, Copy, PartialEq, Eq, Hash)]
pub enum Format {
    /// Words of 8 bytes.
    Dwarf64 = 8,
    /// Words of 4 bytes.
    Dwarf32 = 4,
}

impl Format {
    ghost use Rattle.dwarf_base_core.specs.Format.{initial_length_size, word_size};

    /// Returns the number of bytes of an initial length: 4, or 12 in the 64-bit format.
    #[inline]
    pub fn initial_length_size(self) -> u8
        ensures { result ≡ initial_length_size self }
    {
        match self {
            Format::Dwarf32 => 4,
            Format::Dwarf64 => 12,
        }
    }

    /// Returns the number of bytes of a word, which is a length or an offset: 4 or 8.
    #[inline]
    pub fn word_size(self) -> u8
        ensures { result ≡ word_size self }
    {
        match self {
            Format::Dwarf32 => 4,
            Format::Dwarf64 => 8,
        }
    }
}

/// The vendor whose meaning a constant has, if several vendors use its value for different things.
#[derive(Debug, Clone, Copy, PartialEq, Eq)]
pub enum Vendor {
    /// No vendor in particular.
    Default,
    /// The extensions for AArch64, such as its call frame instructions.
    AArch64,
}

/// How the parts of a unit are encoded, as its header says (DWARF 5, 7.5.1).
#[derive(Debug, Clone, Copy, PartialEq, Eq, Hash)]
pub struct Encoding {
    /// The number of bytes of an address on the target.
    pub address_size: u8,
    /// The size of lengths and offsets.
    pub format: Format,
    /// The version of the DWARF standard that the unit's header names.
    pub version: u16,
}

/// How a line number program is encoded.
#[derive(Debug, Clone, Copy, PartialEq, Eq, Hash)]
pub struct LineEncoding {
    /// The number of bytes of the target's smallest instruction.
    pub minimum_instruction_length: u8,
    /// The greatest number of operations in one instruction, 1 if the target isn't VLIW.
    pub maximum_operations_per_instruction: u8,
    /// Whether a row begins a statement unless the program says otherwise.
    pub default_is_stmt: bool,
    /// The least number of lines that a special opcode advances.
    pub line_base: i8,
    /// How many different advances of the line special opcodes have.
    pub line_range: u8,
}

/// Instructions of 1 byte and one operation, rows that begin statements unless the program says
/// otherwise, and special opcodes that advance by -5 to 8 lines.
impl Default for LineEncoding {
    ghost is_default = { λ encoding. encoding ≡ record {
      minimum_instruction_length = 1;
      maximum_operations_per_instruction = 1;
      default_is_stmt = true;
      line_base = negsuc 4;
      line_range = 14;
    } };

    fn default() -> LineEncoding {
        LineEncoding {
            minimum_instruction_length: 1,
            maximum_operations_per_instruction: 1,
            default_is_stmt: true,
            line_base: -5,
            line_range: 14,
        }
    }
}

/// The number of a register of the target, as its ABI counts them for DWARF.
#[derive(Debug, Clone, Copy, PartialEq, Eq, Hash, PartialOrd, Ord)]
pub struct Register(pub u16);

impl Register {
    /// Returns the register with this number.
    ///
    /// # Errors
    ///
    /// [`Error::UnsupportedRegister`] with the number, exactly if it doesn't fit 16 bits.
    pub fn from_u64(x: u64) -> Result<Register>
        ensures { OkBelow (2 ^ 16) (λ register. register.0) x (Error.UnsupportedRegister x) result }
    {
        match u16::try_from(x) {
            Ok(register) => Ok(Register(register)),
            Err(_) => Err(Error::UnsupportedRegister(x)),
        }
    }
}

/// An offset in bytes from the start of `.debug_abbrev`, where a table of abbreviations begins.
#[derive(Debug, Clone, Copy, PartialEq, Eq, Hash)]
pub struct DebugAbbrevOffset<T>(pub T);

/// An offset in bytes from the start of `.debug_addr`, where a set of addresses begins.
#[derive(Debug, Clone, Copy, PartialEq, Eq)]
pub struct DebugAddrOffset<T>(pub T);

/// An offset in bytes from the start of `.debug_addr`, where the first address of a set is.
#[derive(Debug, Clone, Copy, PartialEq, Eq)]
pub struct DebugAddrBase<T>(pub T);

/// The place of an address in its set in `.debug_addr`, counted in addresses from 0.
#[derive(Debug, Clone, Copy, PartialEq, Eq)]
pub struct DebugAddrIndex<T>(pub T);

/// An offset in bytes from the start of `.debug_aranges`.
#[derive(Debug, Clone, Copy, PartialEq, Eq)]
pub struct DebugArangesOffset<T>(pub T);

/// An offset in bytes from the start of `.debug_info`.
#[derive(Debug, Clone, Copy, PartialEq, Eq, PartialOrd, Ord, Hash)]
pub struct DebugInfoOffset<T>(pub T);

/// An offset in bytes from the start of `.debug_line`, where a line number program's header begins.
#[derive(Debug, Clone, Copy, PartialEq, Eq)]
pub struct DebugLineOffset<T>(pub T);

/// An offset in bytes from the start of `.debug_line_str`, where a string begins.
#[derive(Debug, Clone, Copy, PartialEq, Eq)]
pub struct DebugLineStrOffset<T>(pub T);

/// An offset in bytes from the start of `.debug_loc`, or of `.debug_loclists` from version 5 on.
#[derive(Debug, Clone, Copy, PartialEq, Eq, Hash)]
pub struct LocationListsOffset<T>(pub T);

/// An offset in bytes from the start of `.debug_loclists`, where the offsets of a set begin.
#[derive(Debug, Clone, Copy, PartialEq, Eq)]
pub struct DebugLocListsBase<T>(pub T);

/// The place of a location list in the table of its set in `.debug_loclists`, from 0.
#[derive(Debug, Clone, Copy, PartialEq, Eq)]
pub struct DebugLocListsIndex<T>(pub T);

/// An offset in bytes from the start of `.debug_macinfo`.
#[derive(Debug, Clone, Copy, PartialEq, Eq, Hash)]
pub struct DebugMacinfoOffset<T>(pub T);

/// An offset in bytes from the start of `.debug_macro`.
#[derive(Debug, Clone, Copy, PartialEq, Eq, Hash)]
pub struct DebugMacroOffset<T>(pub T);

/// An offset in bytes from the start of `.debug_names`.
#[derive(Debug, Clone, Copy, PartialEq, Eq, Hash)]
pub struct DebugNamesOffset<T>(pub T);

/// An offset of a range list, in bytes, as an attribute gives it.
///
/// In a split unit of version 4 the base of the skeleton unit's ranges is still to be added.
#[derive(Debug, Clone, Copy, PartialEq, Eq, Hash)]
pub struct RawRangeListsOffset<T>(pub T);

/// An offset in bytes from the start of `.debug_ranges`, or of `.debug_rnglists` from version 5 on.
#[derive(Debug, Clone, Copy, PartialEq, Eq, Hash)]
pub struct RangeListsOffset<T>(pub T);

/// An offset in bytes from the start of `.debug_rnglists`, where the offsets of a set begin.
#[derive(Debug, Clone, Copy, PartialEq, Eq)]
pub struct DebugRngListsBase<T>(pub T);

/// The place of a range list in the table of its set in `.debug_rnglists`, from 0.
#[derive(Debug, Clone, Copy, PartialEq, Eq)]
pub struct DebugRngListsIndex<T>(pub T);

/// An offset in bytes from the start of `.debug_str`, where a string begins.
#[derive(Debug, Clone, Copy, PartialEq, Eq)]
pub struct DebugStrOffset<T>(pub T);

/// An offset in bytes from the start of `.debug_str_offsets`, where the first entry of a set is.
#[derive(Debug, Clone, Copy, PartialEq, Eq)]
pub struct DebugStrOffsetsBase<T>(pub T);

impl<Offset: ReaderOffset> DebugStrOffsetsBase<Offset> {
    ghost use Rattle.dwarf_base_core.specs.Format.{default_str_offsets_base};

    /// Returns the base of a unit that has no `DW_AT_str_offsets_base`.
    ///
    /// From version 5 on, a split object has one set of entries and no such attribute, so the base
    /// is the length of that set's header (DWARF 5, 7.26): 8 bytes, or 16 in the 64-bit format.
    /// Everywhere else it is 0.
    pub fn default_for_encoding_and_file(
        encoding: Encoding,
        file_type: DwarfFileType,
    ) -> DebugStrOffsetsBase<Offset>
        ensures { Offset.value result.0
            ≡ default_str_offsets_base encoding.version encoding.format file_type }
    {
        if encoding.version >= 5 && file_type == DwarfFileType::Dwo {
            // The header has an initial length, a version and two bytes of padding.
            DebugStrOffsetsBase(Offset::from_u8(encoding.format.initial_length_size() + 2 + 2))
        } else {
            DebugStrOffsetsBase(Offset::from_u8(0))
        }
    }
}

/// The place of an entry in its set in `.debug_str_offsets`, counted in entries from 0.
#[derive(Debug, Clone, Copy, PartialEq, Eq)]
pub struct DebugStrOffsetsIndex<T>(pub T);

/// An offset in bytes from the start of `.debug_types`.
#[derive(Debug, Clone, Copy, PartialEq, Eq, PartialOrd, Ord, Hash)]
pub struct DebugTypesOffset<T>(pub T);

/// The signature of 8 bytes that a type unit has. Other units refer to its type by it.
#[derive(Debug, Clone, Copy, PartialEq, Eq, Hash)]
pub struct DebugTypeSignature(pub u64);

/// An offset in bytes from the start of `.debug_frame`.
#[derive(Debug, Clone, Copy, PartialEq, Eq, Hash)]
pub struct DebugFrameOffset<T>(pub T);

/// Returns the offset of this number.
impl<T> From<T> for DebugFrameOffset<T> {
    ghost from_gives = { λ number offset. offset.0 ≡ number };

    #[inline]
    fn from(offset: T) -> DebugFrameOffset<T> {
        DebugFrameOffset(offset)
    }
}

/// An offset in bytes from the start of `.eh_frame`.
#[derive(Debug, Clone, Copy, PartialEq, Eq, Hash)]
pub struct EhFrameOffset<T>(pub T);

/// Returns the offset of this number.
impl<T> From<T> for EhFrameOffset<T> {
    ghost from_gives = { λ number offset. offset.0 ≡ number };

    #[inline]
    fn from(offset: T) -> EhFrameOffset<T> {
        EhFrameOffset(offset)
    }
}

/// An offset in bytes from the start of `.debug_info` or `.debug_types`, whichever holds the unit.
#[derive(Debug, Clone, Copy, PartialEq, Eq, PartialOrd, Ord, Hash)]
pub struct UnitSectionOffset<T>(pub T);

/// A section that holds DWARF (DWARF 5, appendix B).
#[derive(Debug, Clone, Copy, PartialEq, Eq, PartialOrd, Ord, Hash)]
pub enum SectionId {
    /// Tables of abbreviations.
    DebugAbbrev,
    /// Sets of addresses.
    DebugAddr,
    /// Which addresses belong to which unit.
    DebugAranges,
    /// Which parts of a package's sections belong to which compilation unit.
    DebugCuIndex,
    /// How to unwind frames, for debuggers.
    DebugFrame,
    /// How to unwind frames, for exceptions.
    EhFrame,
    /// A table to search `.eh_frame` by.
    EhFrameHdr,
    /// Names of functions and variables, as GNU tools write them for an index.
    DebugGnuPubNames,
    /// Names of types, as GNU tools write them for an index.
    DebugGnuPubTypes,
    /// Units and their entries.
    DebugInfo,
    /// Line number programs.
    DebugLine,
    /// Strings of line number programs.
    DebugLineStr,
    /// Location lists up to version 4.
    DebugLoc,
    /// Location lists from version 5.
    DebugLocLists,
    /// Macros up to version 4.
    DebugMacinfo,
    /// Macros from version 5.
    DebugMacro,
    /// The index of names of version 5.
    DebugNames,
    /// Names of functions and variables.
    DebugPubNames,
    /// Names of types.
    DebugPubTypes,
    /// Range lists up to version 4.
    DebugRanges,
    /// Range lists from version 5.
    DebugRngLists,
    /// Strings.
    DebugStr,
    /// Sets of offsets of strings.
    DebugStrOffsets,
    /// Which parts of a package's sections belong to which type unit.
    DebugTuIndex,
    /// Type units of version 4.
    DebugTypes,
}

impl SectionId {
    ghost use Rattle.dwarf_base_core.specs.declared.common.SectionId.TheVariants.{DebugStr, DebugLineStr};
    ghost use Rattle.dwarf_base_core.specs.Section.{section_names};

    /// Returns the section's name in an ELF object, such as `.debug_abbrev`.
    pub fn name(self) -> &'static str
        ensures { result.now ≡ (section_names self).name }
    {
        match self {
            SectionId::DebugAbbrev => ".debug_abbrev",
            SectionId::DebugAddr => ".debug_addr",
            SectionId::DebugAranges => ".debug_aranges",
            SectionId::DebugCuIndex => ".debug_cu_index",
            SectionId::DebugFrame => ".debug_frame",
            SectionId::EhFrame => ".eh_frame",
            SectionId::EhFrameHdr => ".eh_frame_hdr",
            SectionId::DebugGnuPubNames => ".debug_gnu_pubnames",
            SectionId::DebugGnuPubTypes => ".debug_gnu_pubtypes",
            SectionId::DebugInfo => ".debug_info",
            SectionId::DebugLine => ".debug_line",
            SectionId::DebugLineStr => ".debug_line_str",
            SectionId::DebugLoc => ".debug_loc",
            SectionId::DebugLocLists => ".debug_loclists",
            SectionId::DebugMacinfo => ".debug_macinfo",
            SectionId::DebugMacro => ".debug_macro",
            SectionId::DebugNames => ".debug_names",
            SectionId::DebugPubNames => ".debug_pubnames",
            SectionId::DebugPubTypes => ".debug_pubtypes",
            SectionId::DebugRanges => ".debug_ranges",
            SectionId::DebugRngLists => ".debug_rnglists",
            SectionId::DebugStr => ".debug_str",
            SectionId::DebugStrOffsets => ".debug_str_offsets",
            SectionId::DebugTuIndex => ".debug_tu_index",
            SectionId::DebugTypes => ".debug_types",
        }
    }

    /// Returns the section's name in a split object or a package, such as `.debug_abbrev.dwo`, or
    /// `None` if it is in neither.
    pub fn dwo_name(self) -> Option<&'static str>
        ensures { option_map (λ name. name.now) result ≡ (section_names self).dwo_name }
    {
        match self {
            SectionId::DebugAbbrev => Some(".debug_abbrev.dwo"),
            SectionId::DebugCuIndex => Some(".debug_cu_index"),
            SectionId::DebugInfo => Some(".debug_info.dwo"),
            SectionId::DebugLine => Some(".debug_line.dwo"),
            SectionId::DebugLoc => Some(".debug_loc.dwo"),
            SectionId::DebugLocLists => Some(".debug_loclists.dwo"),
            SectionId::DebugMacinfo => Some(".debug_macinfo.dwo"),
            SectionId::DebugMacro => Some(".debug_macro.dwo"),
            SectionId::DebugRngLists => Some(".debug_rnglists.dwo"),
            SectionId::DebugStr => Some(".debug_str.dwo"),
            SectionId::DebugStrOffsets => Some(".debug_str_offsets.dwo"),
            SectionId::DebugTuIndex => Some(".debug_tu_index"),
            SectionId::DebugTypes => Some(".debug_types.dwo"),
            _ => None,
        }
    }

    /// Returns the section's name in an XCOFF object, such as `.dwabrev`, or `None` if XCOFF has no
    /// name for it.
    pub fn xcoff_name(self) -> Option<&'static str>
        ensures { option_map (λ name. name.now) result ≡ (section_names self).xcoff_name }
    {
        match self {
            SectionId::DebugAbbrev => Some(".dwabrev"),
            SectionId::DebugAranges => Some(".dwarnge"),
            SectionId::DebugFrame => Some(".dwframe"),
            SectionId::DebugInfo => Some(".dwinfo"),
            SectionId::DebugLine => Some(".dwline"),
            SectionId::DebugLoc => Some(".dwloc"),
            SectionId::DebugMacinfo => Some(".dwmac"),
            SectionId::DebugPubNames => Some(".dwpbnms"),
            SectionId::DebugPubTypes => Some(".dwpbtyp"),
            SectionId::DebugRanges => Some(".dwrnges"),
            SectionId::DebugStr => Some(".dwstr"),
            _ => None,
        }
    }

    /// Returns whether the section holds only strings: `.debug_str` and `.debug_line_str` do.
    pub fn is_string(self) -> bool
        ensures { IsTrue result ↔ ((self ≡ DebugStr) ⊎ (self ≡ DebugLineStr)) }
    {
        matches!(self, SectionId::DebugStr | SectionId::DebugLineStr)
    }
}

/// The identifier of 8 bytes that a skeleton unit and its split unit have in common.
#[derive(Debug, Clone, Copy, PartialEq, Eq, Hash)]
pub struct DwoId(pub u64);

/// Which kind of file sections come from. The default is `Main`.
#[derive(Debug, Clone, Copy, PartialEq, Eq)]
pub enum DwarfFileType {
    /// An executable, a library or an object that isn't split.
    Main,
    /// A split object or a package of them.
    Dwo,
}

impl Default for DwarfFileType {
    ghost use Rattle.dwarf_base_core.specs.declared.common.DwarfFileType.TheVariants.{Main};

    ghost is_default = { λ file_type. file_type ≡ Main };

    fn default() -> DwarfFileType {
        DwarfFileType::Main
    }
}
