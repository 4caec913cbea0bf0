//! The constants of dwarf_const_core: values, names and texts, and what languages tell.

use super::{Family, check_names, check_text, same};
use dwarf_const_core::attribute::*;
use dwarf_const_core::form::*;
use dwarf_const_core::index_attribute::*;
use dwarf_const_core::language::*;
use dwarf_const_core::line_content::*;
use dwarf_const_core::tag::*;
use std::test::Fail;

mod attributes;
mod families;

// The name of a value of a family whose values have two bytes.
pub(super) fn name_of(family: Family, value: u16) -> Option<&'static str> {
    match family {
        Family::At => DwAt(value).static_string(),
        Family::Form => DwForm(value).static_string(),
        Family::Idx => DwIdx(value).static_string(),
        Family::Lang => DwLang(value).static_string(),
        Family::Lnct => DwLnct(value).static_string(),
        Family::Tag => DwTag(value).static_string(),
        _ => None,
    }
}

#[test]
fn attributes_are_as_published(rt: HostRuntime) {
    check_names(&rt, Family::At, attributes::ATTRIBUTES);
}

#[test]
fn tags_and_forms_are_as_published(rt: HostRuntime) {
    for (family, published) in families::FAMILIES {
        check_names(&rt, *family, published);
    }
    same(&rt, name_of(Family::Tag, 0x1234), None, "no tag");
}

#[test]
fn numbers_of_two_bytes_print_their_names(rt: HostRuntime) {
    let mem = rt.alloc();
    check_text(&rt, mem, &DW_AT_null, "DW_AT_null");
    check_text(&rt, mem, &DW_TAG_null, "DW_TAG_null");
    check_text(&rt, mem, &DW_FORM_null, "DW_FORM_null");
    check_text(&rt, mem, &DW_LANG_C89, "DW_LANG_C89");
    check_text(&rt, mem, &DW_IDX_compile_unit, "DW_IDX_compile_unit");
    check_text(&rt, mem, &DW_LNCT_path, "DW_LNCT_path");
}

#[test]
fn texts_are_padded(rt: HostRuntime) -> Result<(), Fail> {
    let mem = rt.alloc();
    for (tag, wanted) in [
        (
            DW_TAG_label,
            "        DW_TAG_label|DW_TAG_label        |*****DW_TAG_label******",
        ),
        (
            DwTag(0x1234),
            " Unknown DwTag: 4660|Unknown DwTag: 4660 |**Unknown DwTag: 4660**",
        ),
    ] {
        let text = format!(in mem; "{tag:>20}|{tag:20}|{tag:*^23}")?;
        same(&rt, text.as_str(), wanted, wanted);
    }
    Ok(())
}

// The languages whose arrays begin at 0, at 1, and at no bound that the standard tells.
#[rattlefmt::skip]
static FROM_ZERO: &[DwLang] = &[
    DW_LANG_C89, DW_LANG_C, DW_LANG_C_plus_plus, DW_LANG_Java, DW_LANG_C99, DW_LANG_ObjC,
    DW_LANG_ObjC_plus_plus, DW_LANG_UPC, DW_LANG_D, DW_LANG_Python, DW_LANG_OpenCL, DW_LANG_Go,
    DW_LANG_Haskell, DW_LANG_C_plus_plus_03, DW_LANG_C_plus_plus_11, DW_LANG_OCaml, DW_LANG_Rust,
    DW_LANG_C11, DW_LANG_Swift, DW_LANG_Dylan, DW_LANG_C_plus_plus_14, DW_LANG_RenderScript,
    DW_LANG_BLISS,
];

#[rattlefmt::skip]
static FROM_ONE: &[DwLang] = &[
    DW_LANG_Ada83, DW_LANG_Cobol74, DW_LANG_Cobol85, DW_LANG_Fortran77, DW_LANG_Fortran90,
    DW_LANG_Pascal83, DW_LANG_Modula2, DW_LANG_Ada95, DW_LANG_Fortran95, DW_LANG_PLI,
    DW_LANG_Modula3, DW_LANG_Julia, DW_LANG_Fortran03, DW_LANG_Fortran08,
];

#[rattlefmt::skip]
static WITHOUT_BOUND: &[DwLang] = &[
    DW_LANG_Kotlin, DW_LANG_Zig, DW_LANG_Crystal, DW_LANG_C_plus_plus_17, DW_LANG_C_plus_plus_20,
    DW_LANG_C17, DW_LANG_Fortran18, DW_LANG_Ada2005, DW_LANG_Ada2012, DW_LANG_lo_user,
    DW_LANG_hi_user, DW_LANG_Mips_Assembler, DW_LANG_GOOGLE_RenderScript, DW_LANG_SUN_Assembler,
    DW_LANG_ALTIUM_Assembler, DW_LANG_BORLAND_Delphi, DwLang(0), DwLang(0x29),
];

#[test]
fn languages_have_lower_bounds(rt: HostRuntime) {
    for (bound, languages) in [
        (Some(0), FROM_ZERO),
        (Some(1), FROM_ONE),
        (None, WITHOUT_BOUND),
    ] {
        for language in languages {
            let name = language.static_string().unwrap_or("no language");
            same(&rt, language.default_lower_bound(), bound, name);
        }
    }
}
