//! The constants of dwarf_code_core: values, names and texts, and what pointer encodings tell.

use super::{Family, check_names, check_text, same};
use dwarf_code_core::accessibility::*;
use dwarf_code_core::address_class::*;
use dwarf_code_core::array_ordering::*;
use dwarf_code_core::base_type_encoding::*;
use dwarf_code_core::call_frame::*;
use dwarf_code_core::calling_convention::*;
use dwarf_code_core::children::*;
use dwarf_code_core::decimal_sign::*;
use dwarf_code_core::defaulted::*;
use dwarf_code_core::discriminant::*;
use dwarf_code_core::endianity::*;
use dwarf_code_core::gdb_index_symbol_kind::*;
use dwarf_code_core::identifier_case::*;
use dwarf_code_core::inlining::*;
use dwarf_code_core::line_extended::*;
use dwarf_code_core::line_standard::*;
use dwarf_code_core::location_list_entry::*;
use dwarf_code_core::macinfo::*;
use dwarf_code_core::macro_entry::*;
use dwarf_code_core::operation::*;
use dwarf_code_core::pointer_encoding::*;
use dwarf_code_core::range_list_entry::*;
use dwarf_code_core::section::*;
use dwarf_code_core::section_v2::*;
use dwarf_code_core::unit_type::*;
use dwarf_code_core::virtuality::*;
use dwarf_code_core::visibility::*;
use std::test::Fail;

mod codes;
mod operations;

// The name of a value of a family whose values have one byte, four or eight.
pub(super) fn name_of(family: Family, value: u8) -> Option<&'static str> {
    match family {
        Family::Access => DwAccess(value).static_string(),
        Family::Addr => DwAddr(u64::from(value)).static_string(),
        Family::Ate => DwAte(value).static_string(),
        Family::Cc => DwCc(value).static_string(),
        Family::Cfa => DwCfa(value).static_string(),
        Family::Children => DwChildren(value).static_string(),
        Family::Defaulted => DwDefaulted(value).static_string(),
        Family::Ds => DwDs(value).static_string(),
        Family::Dsc => DwDsc(value).static_string(),
        Family::EhPe => DwEhPe(value).static_string(),
        Family::End => DwEnd(value).static_string(),
        Family::GdbIndexSymbolKind => GdbIndexSymbolKind(value).static_string(),
        Family::Id => DwId(value).static_string(),
        Family::Inl => DwInl(value).static_string(),
        Family::Lle => DwLle(value).static_string(),
        Family::Lne => DwLne(value).static_string(),
        Family::Lns => DwLns(value).static_string(),
        Family::Macinfo => DwMacinfo(value).static_string(),
        Family::Macro => DwMacro(value).static_string(),
        Family::Op => DwOp(value).static_string(),
        Family::Ord => DwOrd(value).static_string(),
        Family::Rle => DwRle(value).static_string(),
        Family::Sect => DwSect(u32::from(value)).static_string(),
        Family::SectV2 => DwSectV2(u32::from(value)).static_string(),
        Family::Ut => DwUt(value).static_string(),
        Family::Virtuality => DwVirtuality(value).static_string(),
        Family::Vis => DwVis(value).static_string(),
        _ => None,
    }
}

#[test]
fn operations_are_as_published(rt: HostRuntime) {
    check_names(&rt, Family::Op, operations::OPERATIONS);
}

#[test]
fn codes_are_as_published(rt: HostRuntime) {
    for (family, published) in codes::CODES {
        check_names(&rt, *family, published);
    }
}

#[test]
fn codes_print_their_names(rt: HostRuntime) {
    let mem = rt.alloc();
    check_text(&rt, mem, &DW_OP_addr, "DW_OP_addr");
    check_text(&rt, mem, &DW_UT_compile, "DW_UT_compile");
    check_text(&rt, mem, &DW_CFA_nop, "DW_CFA_nop");
    check_text(&rt, mem, &DW_CHILDREN_no, "DW_CHILDREN_no");
    check_text(&rt, mem, &DW_ATE_address, "DW_ATE_address");
    check_text(&rt, mem, &DW_LLE_end_of_list, "DW_LLE_end_of_list");
    check_text(&rt, mem, &DW_DS_unsigned, "DW_DS_unsigned");
    check_text(&rt, mem, &DW_END_default, "DW_END_default");
    check_text(&rt, mem, &DW_ACCESS_public, "DW_ACCESS_public");
    check_text(&rt, mem, &DW_VIS_local, "DW_VIS_local");
    check_text(&rt, mem, &DW_VIRTUALITY_none, "DW_VIRTUALITY_none");
    check_text(&rt, mem, &DW_ID_case_sensitive, "DW_ID_case_sensitive");
    check_text(&rt, mem, &DW_CC_normal, "DW_CC_normal");
    check_text(&rt, mem, &DW_INL_not_inlined, "DW_INL_not_inlined");
    check_text(&rt, mem, &DW_ORD_row_major, "DW_ORD_row_major");
    check_text(&rt, mem, &DW_DSC_label, "DW_DSC_label");
    check_text(&rt, mem, &DW_DEFAULTED_no, "DW_DEFAULTED_no");
    check_text(&rt, mem, &DW_LNS_copy, "DW_LNS_copy");
    check_text(&rt, mem, &DW_LNE_end_sequence, "DW_LNE_end_sequence");
    check_text(&rt, mem, &DW_MACINFO_define, "DW_MACINFO_define");
    check_text(&rt, mem, &DW_MACRO_define, "DW_MACRO_define");
    check_text(&rt, mem, &DW_RLE_end_of_list, "DW_RLE_end_of_list");
    check_text(&rt, mem, &DW_EH_PE_absptr, "DW_EH_PE_absptr");
    let none = "GDB_INDEX_SYMBOL_KIND_NONE";
    check_text(&rt, mem, &GDB_INDEX_SYMBOL_KIND_NONE, none);
    check_text(&rt, mem, &DW_SECT_INFO, "DW_SECT_INFO");
    check_text(&rt, mem, &DW_SECT_V2_INFO, "DW_SECT_V2_INFO");
    check_text(&rt, mem, &DW_ADDR_none, "DW_ADDR_none");
}

// A pointer encoding, and whether it is valid, absent and indirect.
static ENCODINGS: &[(u8, (bool, bool, bool))] = &[
    (0x11, (true, false, false)),
    (0x00, (true, false, false)),
    (0xff, (true, true, true)),
    (0x9b, (true, false, true)),
    (0x1d, (false, false, false)),
    (0x5d, (false, false, false)),
    (0x60, (false, false, false)),
    (0x87, (false, false, true)),
];

fn reported(encoding: DwEhPe) -> (bool, bool, bool) {
    (
        encoding.is_valid_encoding(),
        encoding.is_absent(),
        encoding.is_indirect(),
    )
}

#[test]
fn pointer_encodings_are_taken_apart(rt: HostRuntime) {
    let relative = DwEhPe(0x11);
    let parts = [
        relative.format(),
        relative.application(),
        DW_EH_PE_uleb128 | DW_EH_PE_pcrel,
        DW_EH_PE_indirect | DW_EH_PE_pcrel | DW_EH_PE_sdata4,
    ];
    let wanted = [DW_EH_PE_uleb128, DW_EH_PE_pcrel, relative, DwEhPe(0x9b)];
    same(&rt, parts, wanted, "format, application, 0x11 and 0x9b");
    for (value, wanted) in ENCODINGS {
        same(&rt, reported(DwEhPe(*value)), *wanted, value);
    }
}

#[test]
fn texts_are_padded(rt: HostRuntime) -> Result<(), Fail> {
    let mem = rt.alloc();
    let (alias, address) = (DW_CFA_AARCH64_negate_ra_state, DwAddr(u64::MAX));
    let text = format!(in mem; "{alias:->25} {address:<37}|")?;
    let wanted = "---DW_CFA_GNU_window_save Unknown DwAddr: 18446744073709551615 |";
    same(&rt, text.as_str(), wanted, "an alias and an address");
    // No table has this row, since the value has the name of the constant that is declared first.
    same(&rt, alias.0, 0x2d, "DW_CFA_AARCH64_negate_ra_state=0x2d");
    Ok(())
}
