//! The errors of reading DWARF.

use crate::reader_offset::ReaderOffsetId;
use dwarf_code_core::call_frame::DwCfa;
use dwarf_code_core::children::DwChildren;
use dwarf_code_core::location_list_entry::DwLle;
use dwarf_code_core::macinfo::DwMacinfo;
use dwarf_code_core::macro_entry::DwMacro;
use dwarf_code_core::operation::DwOp;
use dwarf_code_core::pointer_encoding::DwEhPe;
use dwarf_code_core::range_list_entry::DwRle;
use dwarf_code_core::section::DwSect;
use dwarf_code_core::section_v2::DwSectV2;
use dwarf_code_core::unit_type::DwUt;
use dwarf_const_core::form::DwForm;
use std::alloc::{AllocError, AllocFailed};
use std::fmt;

/// Why a read failed.
///
/// Each error has one text, which its `Display` writes whatever width, precision, fill and
/// alignment are requested. A value in an error is what is wrong: what was read, an argument of the
/// call, or an offset in bytes. A [`ReaderOffsetId`] is a place in the input.
#[derive(Debug, Clone, Copy, PartialEq, Eq)]
pub enum Error {
    /// An input couldn't be read. No call here returns this; loaders of sections do.
    Io,
    /// A pointer counts from its own place (`DW_EH_PE_pcrel`), and the section's address isn't
    /// known.
    PcRelativePointerButSectionBaseIsUndefined,
    /// A pointer counts from the text (`DW_EH_PE_textrel`), whose address isn't known.
    TextRelativePointerButTextBaseIsUndefined,
    /// A pointer counts from the data (`DW_EH_PE_datarel`), whose address isn't known.
    DataRelativePointerButDataBaseIsUndefined,
    /// A pointer counts from a function (`DW_EH_PE_funcrel`), and no function is at hand.
    FuncRelativePointerInBadContext,
    /// A pointer is needed, but its encoding says that it is omitted (`DW_EH_PE_omit`).
    CannotParseOmitPointerEncoding,
    /// An unsigned LEB128 number is too long or above the type that it is read into.
    BadUnsignedLeb128,
    /// A signed LEB128 number is too long or outside the type that it is read into.
    BadSignedLeb128,
    /// An abbreviation has the tag 0.
    AbbreviationTagZero,
    /// An attribute specification has the name 0 and a form that isn't 0.
    AttributeNameZero,
    /// An attribute specification has the form 0 and a name that isn't 0.
    AttributeFormZero,
    /// The byte that says whether an abbreviation's entries have children is neither 0 nor 1.
    InvalidAbbreviationChildren(DwChildren),
    /// An attribute has a form that isn't known, so its value can't be skipped.
    UnknownForm(DwForm),
    /// A table declares an abbreviation of this code twice.
    DuplicateAbbreviationCode(u64),
    /// An initial length is one of the values 0xfffffff0 to 0xfffffffe, which mean nothing yet.
    UnknownReservedLength(u32),
    /// A header has a version that isn't supported.
    UnknownVersion(u64),
    /// An entry has the code of no abbreviation in the unit's table.
    InvalidAbbreviationCode(u64),
    /// The input ended too early: at this place bytes were missing.
    UnexpectedEof(ReaderOffsetId),
    /// An entry of a location list has an unknown kind.
    UnknownLocListsEntry(DwLle),
    /// An entry of a range list has an unknown kind.
    UnknownRangeListsEntry(DwRle),
    /// An address has a number of bytes other than 1, 2, 4 and 8.
    UnsupportedAddressSize(u8),
    /// An offset has a number of bytes other than 1, 2, 4 and 8.
    UnsupportedOffsetSize(u8),
    /// A line number program says that its smallest instruction has no bytes.
    MinimumInstructionLengthZero,
    /// A line number program says that its instructions have no operations.
    MaximumOperationsPerInstructionZero,
    /// A line number program's special opcodes have no advances.
    LineRangeZero,
    /// A line number program's first special opcode is 0.
    OpcodeBaseZero,
    /// A string isn't UTF-8.
    BadUtf8,
    /// The entry of the frame section at this offset, in bytes, ought to be a common information
    /// entry (CIE) and isn't.
    NotCieId(u64),
    /// The entry of the frame section at this offset, in bytes, ought to be a frame description
    /// entry (FDE) and is a CIE.
    NotCiePointer(u64),
    /// A branch leads out of its expression.
    BadBranchTarget(u64),
    /// An expression needs the address of an object, but there is none.
    InvalidPushObjectAddress,
    /// An operation pops more values than the stack of its expression has.
    NotEnoughStackItems,
    /// An expression took more steps than its caller allows.
    TooManyIterations,
    /// An expression has an unknown operation.
    InvalidExpression(DwOp),
    /// An expression has an operation that can't be evaluated.
    UnsupportedEvaluation,
    /// A piece is followed by a location that isn't a piece.
    InvalidPiece,
    /// An operation that ends a location is followed by something other than a piece.
    InvalidExpressionTerminator(u64),
    /// An expression divides by 0.
    DivisionByZero,
    /// The operands of an operation have different types.
    TypeMismatch,
    /// An operation on integers has an operand of another type.
    IntegralTypeRequired,
    /// An operation isn't defined at the type of its operands.
    UnsupportedTypeOperation,
    /// A value is shifted by a negative number of bits.
    InvalidShiftExpression,
    /// An operation reads this number of bytes from memory, which is more than an address has.
    InvalidDerefSize(u8),
    /// A piece of a location has a size that can't be counted.
    InvalidPieceSize(u64),
    /// A call frame instruction is unknown.
    UnknownCallFrameInstruction(DwCfa),
    /// A `DW_CFA_set_loc` leads to this address, which is before the last.
    InvalidCfiSetLoc(u64),
    /// The sum of an address and a length is no address of the unit's size.
    AddressOverflow,
    /// A call frame instruction is at a place where it isn't allowed.
    CfiInstructionInInvalidContext,
    /// A `DW_CFA_restore_state` has no state to restore.
    PopWithEmptyStack,
    /// No entry of the frame section covers the address.
    NoUnwindInfoForAddress,
    /// A number doesn't fit the offset type of the reader.
    UnsupportedOffset,
    /// The encoding of a pointer is unknown.
    UnknownPointerEncoding(DwEhPe),
    /// No entry begins at this offset.
    NoEntryAtGivenOffset(u64),
    /// An offset is outside of what it points into.
    OffsetOutOfBounds(u64),
    /// The augmentation of a common information entry is unknown.
    UnknownAugmentation,
    /// The encoding of a pointer is known, and can't be read here.
    UnsupportedPointerEncoding(DwEhPe),
    /// A pointer leads to the address of its value, which can't be followed here.
    UnsupportedIndirectPointer,
    /// The number of a register doesn't fit 16 bits.
    UnsupportedRegister(u64),
    /// A row has more rules for registers than its storage holds.
    TooManyRegisterRules,
    /// The stack of remembered states, or that of an expression's values, is full.
    StackFull,
    /// A unit's header has an unknown type.
    UnknownUnitType(DwUt),
    /// A set's header has a segment size other than 0.
    UnsupportedSegmentSize(u8),
    /// A unit has no root entry.
    MissingUnitDie,
    /// A split object has no compilation unit.
    MissingSplitUnit,
    /// An attribute has a form that isn't supported there.
    UnsupportedAttributeForm(DwForm),
    /// A line number program doesn't say how the paths of its files are written.
    MissingFileEntryFormatPath,
    /// An attribute that has to be a string is something else.
    ExpectedStringAttributeValue,
    /// An attribute of the form `DW_FORM_indirect` names the form `DW_FORM_implicit_const`.
    InvalidImplicitConst,
    /// The index of a package has more columns than there are kinds of sections.
    UnsupportedIndexSectionCount(u32),
    /// The hash table of a package's index has an impossible number of slots.
    InvalidIndexSlotCount(u32),
    /// The hash table of a package's index names a row that it doesn't have.
    InvalidIndexRow(u32),
    /// A column of a package's index is for an unknown section.
    UnknownIndexSection(DwSect),
    /// A column of a package's index, in the form before the standard's, is for an unknown section.
    UnknownIndexSectionV2(DwSectV2),
    /// An entry of `.debug_macinfo` has an unknown type.
    InvalidMacinfoType(DwMacinfo),
    /// An entry of `.debug_macro` has an unknown type.
    InvalidMacroType(DwMacro),
    /// A unit of `.debug_macro` describes operands of its own.
    UnsupportedOpcodeOperandsTable,
    /// An attribute's value in `.debug_names` isn't a valid index.
    InvalidNameAttributeIndex(u64),
    /// Memory ran out.
    OutOfMemory,
    /// A strict read found a table of abbreviations that no code of value 0 closes. The section
    /// ends at this place.
    UnterminatedAbbreviations(ReaderOffsetId),
}

/// The result of a read.
pub type Result<T> = std::result::Result<T, Error>;

// The text of an error: a number is written after its first part.
enum Text {
    Plain(&'static str),
    Decimal(&'static str, u64),
    Hexadecimal(&'static str, u64),
    HexadecimalInside(&'static str, u64, &'static str),
}

impl Error {
    ghost use Rattle.std.specs.Prelude.{◌≡◌};
    ghost use Rattle.dwarf_base_core.specs.ErrorText.{error_text};
    ghost use Rattle.dwarf_base_core.specs.WrittenText.{written};

    // The one place that chooses a text. So the writing is proved for four forms, and not for each
    // error.
    fn text(self) -> Text
        ensures { written result ≡ error_text self }
    {
        match self {
            Error::Io => Text::Plain("I/O error"),
            Error::PcRelativePointerButSectionBaseIsUndefined => Text::Plain(
                "undefined section base for DW_EH_PE_pcrel pointer",
            ),
            Error::TextRelativePointerButTextBaseIsUndefined => Text::Plain(
                "undefined text base for DW_EH_PE_textrel pointer",
            ),
            Error::DataRelativePointerButDataBaseIsUndefined => Text::Plain(
                "undefined data base for DW_EH_PE_datarel pointer",
            ),
            Error::FuncRelativePointerInBadContext => Text::Plain(
                "invalid context for DW_EH_PE_funcrel pointer",
            ),
            Error::CannotParseOmitPointerEncoding => Text::Plain(
                "invalid encoding for required pointer: DW_EH_PE_omit",
            ),
            Error::BadUnsignedLeb128 => Text::Plain("unsigned LEB128 overflow"),
            Error::BadSignedLeb128 => Text::Plain("signed LEB128 overflow"),
            Error::AbbreviationTagZero => Text::Plain("invalid abbreviation tag: zero"),
            Error::AttributeNameZero => Text::Plain("invalid attribute name: zero"),
            Error::AttributeFormZero => Text::Plain("invalid attribute form: zero"),
            Error::InvalidAbbreviationChildren(DwChildren(value)) => Text::Hexadecimal(
                "invalid abbreviation children: 0x",
                u64::from(value),
            ),
            Error::UnknownForm(DwForm(value)) => Text::Hexadecimal(
                "unknown attribute form: 0x",
                u64::from(value),
            ),
            Error::DuplicateAbbreviationCode(value) => Text::Decimal(
                "duplicate abbreviation code: ",
                value,
            ),
            Error::UnknownReservedLength(value) => Text::Hexadecimal(
                "unknown reserved length: 0x",
                u64::from(value),
            ),
            Error::UnknownVersion(value) => Text::Decimal("unknown DWARF version: ", value),
            Error::InvalidAbbreviationCode(value) => Text::Decimal(
                "invalid abbreviation code: ",
                value,
            ),
            Error::UnexpectedEof(_) => Text::Plain("unexpected end of input"),
            Error::UnknownLocListsEntry(DwLle(value)) => Text::Hexadecimal(
                "unknown location lists entry: 0x",
                u64::from(value),
            ),
            Error::UnknownRangeListsEntry(DwRle(value)) => Text::Hexadecimal(
                "unknown range lists entry: 0x",
                u64::from(value),
            ),
            Error::UnsupportedAddressSize(value) => Text::Decimal(
                "unsupported address size: ",
                u64::from(value),
            ),
            Error::UnsupportedOffsetSize(value) => Text::Decimal(
                "unsupported offset size: ",
                u64::from(value),
            ),
            Error::MinimumInstructionLengthZero => Text::Plain(
                "invalid minimum line instruction length: zero",
            ),
            Error::MaximumOperationsPerInstructionZero => Text::Plain(
                "invalid maximum operations per line instruction: zero",
            ),
            Error::LineRangeZero => Text::Plain("invalid line range: zero"),
            Error::OpcodeBaseZero => Text::Plain("invalid line opcode base: zero"),
            Error::BadUtf8 => Text::Plain("invalid UTF-8"),
            Error::NotCieId(value) => Text::HexadecimalInside(
                "invalid CIE at offset 0x",
                value,
                ": missing CIE ID",
            ),
            Error::NotCiePointer(value) => Text::HexadecimalInside(
                "invalid FDE at offset 0x",
                value,
                ": missing CIE pointer",
            ),
            Error::BadBranchTarget(_) => Text::Plain("invalid expression branch target"),
            Error::InvalidPushObjectAddress => Text::Plain(
                "undefined object address for DW_OP_push_object_address",
            ),
            Error::NotEnoughStackItems => Text::Plain("expression stack underflow"),
            Error::TooManyIterations => Text::Plain("exceeded maximum expression iterations"),
            Error::InvalidExpression(DwOp(value)) => Text::Hexadecimal(
                "unknown expression opcode: 0x",
                u64::from(value),
            ),
            Error::UnsupportedEvaluation => Text::Plain("unsupported evaluation operation"),
            Error::InvalidPiece => Text::Plain("invalid expression: piece followed by non-piece"),
            Error::InvalidExpressionTerminator(_) => Text::Plain("invalid expression terminator"),
            Error::DivisionByZero => Text::Plain("division by zero"),
            Error::TypeMismatch => Text::Plain("invalid operand type: mismatch"),
            Error::IntegralTypeRequired => Text::Plain("invalid operand type: integral required"),
            Error::UnsupportedTypeOperation => Text::Plain("unsupported operand type"),
            Error::InvalidShiftExpression => Text::Plain("invalid shift amount"),
            Error::InvalidDerefSize(value) => Text::Decimal(
                "invalid deref size: ",
                u64::from(value),
            ),
            Error::InvalidPieceSize(value) => Text::Decimal("invalid piece size: ", value),
            Error::UnknownCallFrameInstruction(DwCfa(value)) => Text::Hexadecimal(
                "unknown call frame instruction: 0x",
                u64::from(value),
            ),
            Error::InvalidCfiSetLoc(value) => Text::HexadecimalInside(
                "invalid DW_CFA_set_loc: address 0x",
                value,
                " goes backward",
            ),
            Error::AddressOverflow => Text::Plain("address overflow"),
            Error::CfiInstructionInInvalidContext => Text::Plain(
                "invalid context for call frame instruction",
            ),
            Error::PopWithEmptyStack => Text::Plain("invalid DW_CFA_restore_state: empty stack"),
            Error::NoUnwindInfoForAddress => Text::Plain("no unwind info for address"),
            Error::UnsupportedOffset => Text::Plain("offset overflow"),
            Error::UnknownPointerEncoding(DwEhPe(value)) => Text::Hexadecimal(
                "unknown pointer encoding: 0x",
                u64::from(value),
            ),
            Error::NoEntryAtGivenOffset(value) => Text::Hexadecimal(
                "no entry at offset: 0x",
                value,
            ),
            Error::OffsetOutOfBounds(value) => Text::Hexadecimal("invalid offset: 0x", value),
            Error::UnknownAugmentation => Text::Plain("unknown CFI augmentation"),
            Error::UnsupportedPointerEncoding(DwEhPe(value)) => Text::Hexadecimal(
                "unsupported pointer encoding: 0x",
                u64::from(value),
            ),
            Error::UnsupportedIndirectPointer => Text::Plain("unsupported indirect pointer"),
            Error::UnsupportedRegister(value) => Text::Hexadecimal(
                "unsupported register: 0x",
                value,
            ),
            Error::TooManyRegisterRules => Text::Plain("too many CFI register rules"),
            Error::StackFull => Text::Plain("CFI stack overflow"),
            Error::UnknownUnitType(DwUt(value)) => Text::Hexadecimal(
                "unknown unit type: 0x",
                u64::from(value),
            ),
            Error::UnsupportedSegmentSize(value) => Text::Decimal(
                "unsupported segment size: ",
                u64::from(value),
            ),
            Error::MissingUnitDie => Text::Plain("missing unit DIE"),
            Error::MissingSplitUnit => Text::Plain("missing split compilation unit"),
            Error::UnsupportedAttributeForm(DwForm(value)) => Text::Hexadecimal(
                "unsupported attribute form: 0x",
                u64::from(value),
            ),
            Error::MissingFileEntryFormatPath => Text::Plain("missing file entry format path"),
            Error::ExpectedStringAttributeValue => Text::Plain("invalid attribute form for string"),
            Error::InvalidImplicitConst => Text::Plain(
                "invalid indirect attribute form: DW_FORM_implicit_const",
            ),
            Error::UnsupportedIndexSectionCount(value) => Text::Decimal(
                "unsupported DWP section count: ",
                u64::from(value),
            ),
            Error::InvalidIndexSlotCount(value) => Text::Hexadecimal(
                "invalid DWP slot count: 0x",
                u64::from(value),
            ),
            Error::InvalidIndexRow(value) => Text::Hexadecimal(
                "invalid DWP row index: 0x",
                u64::from(value),
            ),
            Error::UnknownIndexSection(DwSect(value)) => Text::Hexadecimal(
                "unknown DWP section type: 0x",
                u64::from(value),
            ),
            Error::UnknownIndexSectionV2(DwSectV2(value)) => Text::Hexadecimal(
                "unknown DWP v2 section type: 0x",
                u64::from(value),
            ),
            Error::InvalidMacinfoType(DwMacinfo(value)) => Text::Hexadecimal(
                "unknown macinfo type: 0x",
                u64::from(value),
            ),
            Error::InvalidMacroType(DwMacro(value)) => Text::Hexadecimal(
                "unknown macro type: 0x",
                u64::from(value),
            ),
            Error::UnsupportedOpcodeOperandsTable => Text::Plain(
                "unsupported macro opcode operands table",
            ),
            Error::InvalidNameAttributeIndex(value) => Text::Hexadecimal(
                "invalid index in name attribute: 0x",
                value,
            ),
            Error::OutOfMemory => Text::Plain("out of memory"),
            Error::UnterminatedAbbreviations(_) => Text::Plain("unterminated abbreviation table"),
        }
    }
}

/// Writes the error's text, on one line and without a full stop. A [`ReaderOffsetId`] isn't
/// written, nor are the values of `BadBranchTarget` and `InvalidExpressionTerminator`. Any other
/// value is written in decimal, or in hexadecimal after `0x`.
impl fmt::Display for Error {
    ghost use Rattle.std.specs.Prelude.{Some};
    ghost use Rattle.dwarf_base_core.specs.ErrorText.{error_text};

    ghost output = { λ error. Some (error_text error) };

    fn fmt<W: fmt::Write>(&self, f: &mut fmt::Formatter<W>) -> fmt::Result {
        match self.text() {
            Text::Plain(text) => write!(f, "{text}"),
            Text::Decimal(before, value) => write!(f, "{before}{value}"),
            Text::Hexadecimal(before, value) => write!(f, "{before}{value:x}"),
            Text::HexadecimalInside(before, value, after) => write!(f, "{before}{value:x}{after}"),
        }
    }
}

/// No error has a source.
impl std::error::Error for Error {}

/// [`Error::OutOfMemory`], so that `?` propagates a failed allocation.
impl From<AllocError> for Error {
    ghost use Rattle.std.specs.Prelude.{◌≡◌};
    ghost use Rattle.dwarf_base_core.specs.declared.error.Error.TheVariants.{OutOfMemory};

    ghost from_gives = { λ _ error. error ≡ OutOfMemory };

    fn from(_error: AllocError) -> Self {
        Self::OutOfMemory
    }
}

/// [`Error::OutOfMemory`], so that `?` works on a failed push. The value is dropped.
impl<T: Drop> From<AllocFailed<T>> for Error {
    ghost use Rattle.std.specs.Prelude.{◌≡◌};
    ghost use Rattle.dwarf_base_core.specs.declared.error.Error.TheVariants.{OutOfMemory};

    ghost from_gives = { λ _ error. error ≡ OutOfMemory };

    fn from(failed: AllocFailed<T>) -> Self {
        Self::from(AllocError::from(failed))
    }
}
