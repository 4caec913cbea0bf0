//! Laws of the definitions, for anyone who uses a contract.

ghost use Rattle.std.specs.Prelude.{◌≡◌};
ghost use Rattle.dwarf_const_core.specs.Names.{HasDistinctValues};
ghost use Rattle.dwarf_code_core.specs.DwAccess.{accessibility_names};
ghost use Rattle.dwarf_code_core.specs.DwAddr.{address_class_names};
ghost use Rattle.dwarf_code_core.specs.DwAte.{base_type_encoding_names};
ghost use Rattle.dwarf_code_core.specs.DwCc.{calling_convention_names};
ghost use Rattle.dwarf_code_core.specs.DwCfa.{call_frame_names};
ghost use Rattle.dwarf_code_core.specs.DwChildren.{children_names};
ghost use Rattle.dwarf_code_core.specs.DwDefaulted.{defaulted_names};
ghost use Rattle.dwarf_code_core.specs.DwDs.{decimal_sign_names};
ghost use Rattle.dwarf_code_core.specs.DwDsc.{discriminant_names};
ghost use Rattle.dwarf_code_core.specs.DwEhPe.{pointer_encoding_names};
ghost use Rattle.dwarf_code_core.specs.DwEnd.{endianity_names};
ghost use Rattle.dwarf_code_core.specs.DwId.{identifier_case_names};
ghost use Rattle.dwarf_code_core.specs.DwInl.{inlining_names};
ghost use Rattle.dwarf_code_core.specs.DwLle.{location_list_entry_names};
ghost use Rattle.dwarf_code_core.specs.DwLne.{line_extended_names};
ghost use Rattle.dwarf_code_core.specs.DwLns.{line_standard_names};
ghost use Rattle.dwarf_code_core.specs.DwMacinfo.{macinfo_names};
ghost use Rattle.dwarf_code_core.specs.DwMacro.{macro_entry_names};
ghost use Rattle.dwarf_code_core.specs.DwOp.{operation_names};
ghost use Rattle.dwarf_code_core.specs.DwOrd.{array_ordering_names};
ghost use Rattle.dwarf_code_core.specs.DwRle.{range_list_entry_names};
ghost use Rattle.dwarf_code_core.specs.DwSect.{section_names};
ghost use Rattle.dwarf_code_core.specs.DwSectV2.{section_v2_names};
ghost use Rattle.dwarf_code_core.specs.DwUt.{unit_type_names};
ghost use Rattle.dwarf_code_core.specs.DwVirtuality.{virtuality_names};
ghost use Rattle.dwarf_code_core.specs.DwVis.{visibility_names};
ghost use Rattle.dwarf_code_core.specs.GdbIndexSymbolKind.{gdb_index_symbol_kind_names};

use crate::call_frame::{DW_CFA_AARCH64_negate_ra_state, DW_CFA_GNU_window_save};

/// No list of names has a value twice, so a value has at most one name.
pub fn names_are_distinct()
    ensures accessibility { HasDistinctValues accessibility_names }
    ensures address_class { HasDistinctValues address_class_names }
    ensures array_ordering { HasDistinctValues array_ordering_names }
    ensures base_type_encoding { HasDistinctValues base_type_encoding_names }
    ensures call_frame { HasDistinctValues call_frame_names }
    ensures calling_convention { HasDistinctValues calling_convention_names }
    ensures children { HasDistinctValues children_names }
    ensures decimal_sign { HasDistinctValues decimal_sign_names }
    ensures defaulted { HasDistinctValues defaulted_names }
    ensures discriminant { HasDistinctValues discriminant_names }
    ensures endianity { HasDistinctValues endianity_names }
    ensures gdb_index_symbol_kind { HasDistinctValues gdb_index_symbol_kind_names }
    ensures identifier_case { HasDistinctValues identifier_case_names }
    ensures inlining { HasDistinctValues inlining_names }
    ensures line_extended { HasDistinctValues line_extended_names }
    ensures line_standard { HasDistinctValues line_standard_names }
    ensures location_list_entry { HasDistinctValues location_list_entry_names }
    ensures macinfo { HasDistinctValues macinfo_names }
    ensures macro_entry { HasDistinctValues macro_entry_names }
    ensures operation { HasDistinctValues operation_names }
    ensures pointer_encoding { HasDistinctValues pointer_encoding_names }
    ensures range_list_entry { HasDistinctValues range_list_entry_names }
    ensures section { HasDistinctValues section_names }
    ensures section_v2 { HasDistinctValues section_v2_names }
    ensures unit_type { HasDistinctValues unit_type_names }
    ensures virtuality { HasDistinctValues virtuality_names }
    ensures visibility { HasDistinctValues visibility_names }
{}

/// Two constants share a value, which is one instruction on SPARC and another on AArch64. The name
/// of the value is that of `DW_CFA_GNU_window_save`.
pub fn negate_ra_state_is_window_save()
    ensures { DW_CFA_AARCH64_negate_ra_state ≡ DW_CFA_GNU_window_save }
{}
