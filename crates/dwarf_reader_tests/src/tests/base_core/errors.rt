//! The texts of errors, and the error of a failed allocation.

use crate::tests::same;
use dwarf_base_core::Error::{self, *};
use dwarf_base_core::ReaderOffsetId;
use dwarf_code_core::call_frame::DwCfa;
use dwarf_code_core::children::DwChildren;
use dwarf_code_core::location_list_entry::DwLle;
use dwarf_code_core::macinfo::DwMacinfo;
use dwarf_code_core::macro_entry::DwMacro;
use dwarf_code_core::operation::DwOp;
use dwarf_code_core::pointer_encoding::DwEhPe;
use dwarf_code_core::range_list_entry::DwRle;
use dwarf_code_core::section::DwSect;
use dwarf_code_core::section_v2::DwSectV2;
use dwarf_code_core::unit_type::DwUt;
use dwarf_const_core::form::DwForm;
use std::alloc::{AllocError, AllocFailed, Global};
use std::process::Abort;
use std::test::Fail;

#[rattlefmt::skip]
static TEXTS: &[(Error, &str)] = &[
    (Io, "I/O error"),
    (
        PcRelativePointerButSectionBaseIsUndefined,
        "undefined section base for DW_EH_PE_pcrel pointer",
    ),
    (TextRelativePointerButTextBaseIsUndefined, "undefined text base for DW_EH_PE_textrel pointer"),
    (DataRelativePointerButDataBaseIsUndefined, "undefined data base for DW_EH_PE_datarel pointer"),
    (FuncRelativePointerInBadContext, "invalid context for DW_EH_PE_funcrel pointer"),
    (CannotParseOmitPointerEncoding, "invalid encoding for required pointer: DW_EH_PE_omit"),
    (BadUnsignedLeb128, "unsigned LEB128 overflow"),
    (BadSignedLeb128, "signed LEB128 overflow"),
    (AbbreviationTagZero, "invalid abbreviation tag: zero"),
    (AttributeNameZero, "invalid attribute name: zero"),
    (AttributeFormZero, "invalid attribute form: zero"),
    (InvalidAbbreviationChildren(DwChildren(0x1f)), "invalid abbreviation children: 0x1f"),
    (UnknownForm(DwForm(0x2137)), "unknown attribute form: 0x2137"),
    (DuplicateAbbreviationCode(0x10000), "duplicate abbreviation code: 65536"),
    (UnknownReservedLength(0xfffffff0), "unknown reserved length: 0xfffffff0"),
    (UnknownVersion(0x10000), "unknown DWARF version: 65536"),
    (InvalidAbbreviationCode(0x10000), "invalid abbreviation code: 65536"),
    (UnexpectedEof(ReaderOffsetId(5)), "unexpected end of input"),
    (UnknownLocListsEntry(DwLle(0x1f)), "unknown location lists entry: 0x1f"),
    (UnknownRangeListsEntry(DwRle(0x1f)), "unknown range lists entry: 0x1f"),
    (UnsupportedAddressSize(9), "unsupported address size: 9"),
    (UnsupportedOffsetSize(9), "unsupported offset size: 9"),
    (MinimumInstructionLengthZero, "invalid minimum line instruction length: zero"),
    (MaximumOperationsPerInstructionZero, "invalid maximum operations per line instruction: zero"),
    (LineRangeZero, "invalid line range: zero"),
    (OpcodeBaseZero, "invalid line opcode base: zero"),
    (BadUtf8, "invalid UTF-8"),
    (NotCieId(0x10000), "invalid CIE at offset 0x10000: missing CIE ID"),
    (NotCiePointer(0x10000), "invalid FDE at offset 0x10000: missing CIE pointer"),
    (BadBranchTarget(0x10000), "invalid expression branch target"),
    (InvalidPushObjectAddress, "undefined object address for DW_OP_push_object_address"),
    (NotEnoughStackItems, "expression stack underflow"),
    (TooManyIterations, "exceeded maximum expression iterations"),
    (InvalidExpression(DwOp(0x1f)), "unknown expression opcode: 0x1f"),
    (UnsupportedEvaluation, "unsupported evaluation operation"),
    (InvalidPiece, "invalid expression: piece followed by non-piece"),
    (InvalidExpressionTerminator(0x10000), "invalid expression terminator"),
    (DivisionByZero, "division by zero"),
    (TypeMismatch, "invalid operand type: mismatch"),
    (IntegralTypeRequired, "invalid operand type: integral required"),
    (UnsupportedTypeOperation, "unsupported operand type"),
    (InvalidShiftExpression, "invalid shift amount"),
    (InvalidDerefSize(9), "invalid deref size: 9"),
    (InvalidPieceSize(0x10000), "invalid piece size: 65536"),
    (UnknownCallFrameInstruction(DwCfa(0x1f)), "unknown call frame instruction: 0x1f"),
    (InvalidCfiSetLoc(0x10000), "invalid DW_CFA_set_loc: address 0x10000 goes backward"),
    (AddressOverflow, "address overflow"),
    (CfiInstructionInInvalidContext, "invalid context for call frame instruction"),
    (PopWithEmptyStack, "invalid DW_CFA_restore_state: empty stack"),
    (NoUnwindInfoForAddress, "no unwind info for address"),
    (UnsupportedOffset, "offset overflow"),
    (UnknownPointerEncoding(DwEhPe(0x1f)), "unknown pointer encoding: 0x1f"),
    (NoEntryAtGivenOffset(0x10000), "no entry at offset: 0x10000"),
    (OffsetOutOfBounds(0x10000), "invalid offset: 0x10000"),
    (UnknownAugmentation, "unknown CFI augmentation"),
    (UnsupportedPointerEncoding(DwEhPe(0x1f)), "unsupported pointer encoding: 0x1f"),
    (UnsupportedIndirectPointer, "unsupported indirect pointer"),
    (UnsupportedRegister(0x10000), "unsupported register: 0x10000"),
    (TooManyRegisterRules, "too many CFI register rules"),
    (StackFull, "CFI stack overflow"),
    (UnknownUnitType(DwUt(0x1f)), "unknown unit type: 0x1f"),
    (UnsupportedSegmentSize(9), "unsupported segment size: 9"),
    (MissingUnitDie, "missing unit DIE"),
    (MissingSplitUnit, "missing split compilation unit"),
    (UnsupportedAttributeForm(DwForm(0x2137)), "unsupported attribute form: 0x2137"),
    (MissingFileEntryFormatPath, "missing file entry format path"),
    (ExpectedStringAttributeValue, "invalid attribute form for string"),
    (InvalidImplicitConst, "invalid indirect attribute form: DW_FORM_implicit_const"),
    (UnsupportedIndexSectionCount(0xfffffff0), "unsupported DWP section count: 4294967280"),
    (InvalidIndexSlotCount(0xfffffff0), "invalid DWP slot count: 0xfffffff0"),
    (InvalidIndexRow(0xfffffff0), "invalid DWP row index: 0xfffffff0"),
    (UnknownIndexSection(DwSect(0x1_0a0b)), "unknown DWP section type: 0x10a0b"),
    (UnknownIndexSectionV2(DwSectV2(0x1_0a0b)), "unknown DWP v2 section type: 0x10a0b"),
    (InvalidMacinfoType(DwMacinfo(0x1f)), "unknown macinfo type: 0x1f"),
    (InvalidMacroType(DwMacro(0x1f)), "unknown macro type: 0x1f"),
    (UnsupportedOpcodeOperandsTable, "unsupported macro opcode operands table"),
    (InvalidNameAttributeIndex(0x10000), "invalid index in name attribute: 0x10000"),
    (OutOfMemory, "out of memory"),
    (UnterminatedAbbreviations(ReaderOffsetId(5)), "unterminated abbreviation table"),
];

// Each error has its text, whatever the width that is asked for.
fn check_texts(rt: &impl Abort, mem: Global, texts: &[(Error, &str)]) -> Result<(), AllocError> {
    for (error, text) in texts {
        let plain = format!(in mem; "{error}")?;
        same(rt, plain.as_str(), *text, text);
        let padded = format!(in mem; "{error:*>90}")?;
        same(rt, padded.as_str(), *text, text);
    }
    same(rt, texts.len(), 79, "errors");
    Ok(())
}

#[test]
fn texts_are_as_published(rt: HostRuntime) -> Result<(), Fail> {
    check_texts(&rt, rt.alloc(), TEXTS)?;
    Ok(())
}

#[test]
fn want_of_memory_is_an_error(rt: HostRuntime) {
    let errors = [
        Error::from(AllocError),
        Error::from(AllocFailed { value: 5u8 }),
    ];
    same(&rt, errors, [Error::OutOfMemory; 2], "failed allocations");
}
