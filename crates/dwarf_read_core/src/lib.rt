//! The lowest layer of DWARF reading: byte orders, numbers, named constants, readers of sections,
//! abbreviation tables and strings.
//!
//! Everything starts from a section's bytes and a byte order:
//!
//! ```
//! let section = DebugAbbrev::new(&bytes, LittleEndian);
//! let table = section.abbreviations(mem, DebugAbbrevOffset(0))?;
//! for abbreviation in table.iter() {
//!     let (code, tag) = (abbreviation.code(), abbreviation.tag());
//!     println!(rt; "{code} {tag}")?;
//! }
//! ```

#![tactic(auto)]

pub mod constants;
pub mod laws;
pub mod leb128;
pub mod read;

// Byte orders, formats and typed offsets.
pub use dwarf_base_core::{
    BigEndian, DebugAbbrevOffset, DebugAddrBase, DebugAddrIndex, DebugAddrOffset,
    DebugArangesOffset, DebugFrameOffset, DebugInfoOffset, DebugLineOffset, DebugLineStrOffset,
    DebugLocListsBase, DebugLocListsIndex, DebugMacinfoOffset, DebugMacroOffset, DebugNamesOffset,
    DebugRngListsBase, DebugRngListsIndex, DebugStrOffset, DebugStrOffsetsBase,
    DebugStrOffsetsIndex, DebugTypeSignature, DebugTypesOffset, DwarfFileType, DwoId,
    EhFrameOffset, Encoding, Endianity, Format, LineEncoding, LittleEndian, LocationListsOffset,
    NativeEndian, RangeListsOffset, RawRangeListsOffset, Register, RunTimeEndian, SectionId,
    UnitSectionOffset, Vendor,
};

// Readers, sections and tables, and the errors of reading.
pub use read::{
    Abbreviation, AbbreviationDeclaration, AbbreviationSink, Abbreviations, AbbreviationsCache,
    AbbreviationsCacheStrategy, AbbreviationsIter, AddrEntryIter, AddrHeader, AddrHeaderIter,
    AddressSize, AttributeSpecification, ContributionHeader, ContributionHeaderIter, DebugAbbrev,
    DebugAddr, DebugLineStr, DebugStr, DebugStrOffsets, EndianSlice, Error, HeaderFields, NoFields,
    Reader, ReaderAddress, ReaderOffset, ReaderOffsetId, Result, Section, StoreOnHeap,
    StrOffsetsEntryIter, StrOffsetsHeader, StrOffsetsHeaderIter, UnitOffset, read_u8_array,
};

// tools/constants writes the names of constants in the lists below.

// Attributes: what a value of an entry is about.
pub use constants::{
    DW_AT_abstract_origin, DW_AT_accessibility, DW_AT_address_class, DW_AT_artificial,
    DW_AT_base_types, DW_AT_bit_offset, DW_AT_bit_size, DW_AT_bit_stride, DW_AT_byte_size,
    DW_AT_calling_convention, DW_AT_common_reference, DW_AT_comp_dir, DW_AT_const_value,
    DW_AT_containing_type, DW_AT_count, DW_AT_data_member_location, DW_AT_decl_column,
    DW_AT_decl_file, DW_AT_decl_line, DW_AT_declaration, DW_AT_default_value, DW_AT_discr,
    DW_AT_discr_list, DW_AT_discr_value, DW_AT_element_list, DW_AT_encoding, DW_AT_external,
    DW_AT_frame_base, DW_AT_friend, DW_AT_friends, DW_AT_fund_type, DW_AT_hi_user, DW_AT_high_pc,
    DW_AT_identifier_case, DW_AT_import, DW_AT_inline, DW_AT_is_optional, DW_AT_language,
    DW_AT_lo_user, DW_AT_location, DW_AT_low_pc, DW_AT_lower_bound, DW_AT_macro_info, DW_AT_member,
    DW_AT_mod_fund_type, DW_AT_mod_u_d_type, DW_AT_name, DW_AT_namelist_item, DW_AT_null,
    DW_AT_ordering, DW_AT_priority, DW_AT_private, DW_AT_producer, DW_AT_program, DW_AT_protected,
    DW_AT_prototyped, DW_AT_public, DW_AT_pure_virtual, DW_AT_return_addr, DW_AT_segment,
    DW_AT_sibling, DW_AT_specification, DW_AT_specification_v1, DW_AT_start_scope,
    DW_AT_static_link, DW_AT_stmt_list, DW_AT_string_length, DW_AT_subscr_data, DW_AT_type,
    DW_AT_upper_bound, DW_AT_use_location, DW_AT_user_def_type, DW_AT_variable_parameter,
    DW_AT_virtual, DW_AT_virtuality, DW_AT_visibility, DW_AT_vtable_elem_location, DwAt,
};

// The attributes that DWARF 3, 4 and 5 added.
pub use constants::{
    DW_AT_addr_base, DW_AT_alignment, DW_AT_allocated, DW_AT_associated, DW_AT_binary_scale,
    DW_AT_byte_stride, DW_AT_call_all_calls, DW_AT_call_all_source_calls,
    DW_AT_call_all_tail_calls, DW_AT_call_column, DW_AT_call_data_location, DW_AT_call_data_value,
    DW_AT_call_file, DW_AT_call_line, DW_AT_call_origin, DW_AT_call_parameter, DW_AT_call_pc,
    DW_AT_call_return_pc, DW_AT_call_tail_call, DW_AT_call_target, DW_AT_call_target_clobbered,
    DW_AT_call_value, DW_AT_const_expr, DW_AT_data_bit_offset, DW_AT_data_location,
    DW_AT_decimal_scale, DW_AT_decimal_sign, DW_AT_defaulted, DW_AT_deleted, DW_AT_description,
    DW_AT_digit_count, DW_AT_dwo_name, DW_AT_elemental, DW_AT_endianity, DW_AT_entry_pc,
    DW_AT_enum_class, DW_AT_explicit, DW_AT_export_symbols, DW_AT_extension, DW_AT_linkage_name,
    DW_AT_loclists_base, DW_AT_macros, DW_AT_main_subprogram, DW_AT_mutable, DW_AT_noreturn,
    DW_AT_object_pointer, DW_AT_picture_string, DW_AT_pure, DW_AT_ranges, DW_AT_rank,
    DW_AT_recursive, DW_AT_reference, DW_AT_rnglists_base, DW_AT_rvalue_reference, DW_AT_signature,
    DW_AT_small, DW_AT_str_offsets_base, DW_AT_string_length_bit_size,
    DW_AT_string_length_byte_size, DW_AT_threads_scaled, DW_AT_trampoline, DW_AT_use_UTF8,
};

// Attributes that Sun added.
pub use constants::{
    DW_AT_SUN_alignment, DW_AT_SUN_amd64_parmdump, DW_AT_SUN_browser_file, DW_AT_SUN_c_vla,
    DW_AT_SUN_cf_kind, DW_AT_SUN_command_line, DW_AT_SUN_compile_options,
    DW_AT_SUN_count_guarantee, DW_AT_SUN_dtor_length, DW_AT_SUN_dtor_start,
    DW_AT_SUN_dtor_state_deltas, DW_AT_SUN_dtor_state_final, DW_AT_SUN_dtor_state_initial,
    DW_AT_SUN_f90_allocatable, DW_AT_SUN_f90_assumed_shape_array, DW_AT_SUN_f90_pointer,
    DW_AT_SUN_f90_use_only, DW_AT_SUN_fortran_based, DW_AT_SUN_fortran_main_alias,
    DW_AT_SUN_func_offset, DW_AT_SUN_func_offsets, DW_AT_SUN_hwcprof_signature,
    DW_AT_SUN_import_by_lname, DW_AT_SUN_import_by_name, DW_AT_SUN_is_omp_child_func,
    DW_AT_SUN_language, DW_AT_SUN_link_name, DW_AT_SUN_memop_signature, DW_AT_SUN_memop_type_ref,
    DW_AT_SUN_namelist_spec, DW_AT_SUN_obj_dir, DW_AT_SUN_obj_file, DW_AT_SUN_omp_child_func,
    DW_AT_SUN_omp_tpriv_addr, DW_AT_SUN_original_name, DW_AT_SUN_part_link_name,
    DW_AT_SUN_pass_by_ref, DW_AT_SUN_pass_with_const, DW_AT_SUN_profile_id,
    DW_AT_SUN_return_value_ptr, DW_AT_SUN_return_with_const, DW_AT_SUN_template, DW_AT_SUN_vbase,
    DW_AT_SUN_vtable, DW_AT_SUN_vtable_abi, DW_AT_SUN_vtable_index,
};

// Attributes that other vendors added, among the values that the standard leaves to them.
pub use constants::{
    DW_AT_ALTIUM_loclist, DW_AT_APPLE_block, DW_AT_APPLE_flags, DW_AT_APPLE_isa,
    DW_AT_APPLE_major_runtime_vers, DW_AT_APPLE_objc_complete_type, DW_AT_APPLE_omit_frame_ptr,
    DW_AT_APPLE_optimized, DW_AT_APPLE_property, DW_AT_APPLE_property_attribute,
    DW_AT_APPLE_property_getter, DW_AT_APPLE_property_name, DW_AT_APPLE_property_setter,
    DW_AT_APPLE_runtime_class, DW_AT_BORLAND_Delphi_ABI, DW_AT_BORLAND_Delphi_anonymous_method,
    DW_AT_BORLAND_Delphi_class, DW_AT_BORLAND_Delphi_constructor, DW_AT_BORLAND_Delphi_destructor,
    DW_AT_BORLAND_Delphi_frameptr, DW_AT_BORLAND_Delphi_interface, DW_AT_BORLAND_Delphi_metaclass,
    DW_AT_BORLAND_Delphi_record, DW_AT_BORLAND_Delphi_return, DW_AT_BORLAND_Delphi_unit,
    DW_AT_BORLAND_closure, DW_AT_BORLAND_property_default, DW_AT_BORLAND_property_implements,
    DW_AT_BORLAND_property_index, DW_AT_BORLAND_property_read, DW_AT_BORLAND_property_write,
    DW_AT_GNAT_descriptive_type, DW_AT_GNU_addr_base, DW_AT_GNU_all_call_sites,
    DW_AT_GNU_all_source_call_sites, DW_AT_GNU_all_tail_call_sites, DW_AT_GNU_bias,
    DW_AT_GNU_call_site_data_value, DW_AT_GNU_call_site_target,
    DW_AT_GNU_call_site_target_clobbered, DW_AT_GNU_call_site_value, DW_AT_GNU_deleted,
    DW_AT_GNU_denominator, DW_AT_GNU_discriminator, DW_AT_GNU_dwo_id, DW_AT_GNU_dwo_name,
    DW_AT_GNU_entry_view, DW_AT_GNU_exclusive_locks_required, DW_AT_GNU_guarded,
    DW_AT_GNU_guarded_by, DW_AT_GNU_locks_excluded, DW_AT_GNU_locviews, DW_AT_GNU_macros,
    DW_AT_GNU_numerator, DW_AT_GNU_odr_signature, DW_AT_GNU_pt_guarded, DW_AT_GNU_pt_guarded_by,
    DW_AT_GNU_pubnames, DW_AT_GNU_pubtypes, DW_AT_GNU_ranges_base, DW_AT_GNU_shared_locks_required,
    DW_AT_GNU_tail_call, DW_AT_GNU_template_name, DW_AT_GNU_vector, DW_AT_INTEL_other_endian,
    DW_AT_LLVM_config_macros, DW_AT_LLVM_include_path, DW_AT_LLVM_isysroot,
    DW_AT_MIPS_abstract_name, DW_AT_MIPS_allocatable_dopetype, DW_AT_MIPS_assumed_shape_dopetype,
    DW_AT_MIPS_assumed_size, DW_AT_MIPS_clone_origin, DW_AT_MIPS_epilog_begin, DW_AT_MIPS_fde,
    DW_AT_MIPS_has_inlines, DW_AT_MIPS_linkage_name, DW_AT_MIPS_loop_begin,
    DW_AT_MIPS_loop_unroll_factor, DW_AT_MIPS_ptr_dopetype, DW_AT_MIPS_software_pipeline_depth,
    DW_AT_MIPS_stride, DW_AT_MIPS_stride_byte, DW_AT_MIPS_stride_elem, DW_AT_MIPS_tail_loop_begin,
    DW_AT_PGI_lbase, DW_AT_PGI_lstride, DW_AT_PGI_soffset, DW_AT_body_begin, DW_AT_body_end,
    DW_AT_mac_info, DW_AT_sf_names, DW_AT_src_coords, DW_AT_src_info, DW_AT_upc_threads_scaled,
    DW_AT_use_GNAT_descriptive_type,
};

// Forms: how the value of an attribute is encoded.
pub use constants::{
    DW_FORM_GNU_addr_index, DW_FORM_GNU_ref_alt, DW_FORM_GNU_str_index, DW_FORM_GNU_strp_alt,
    DW_FORM_addr, DW_FORM_addrx, DW_FORM_addrx1, DW_FORM_addrx2, DW_FORM_addrx3, DW_FORM_addrx4,
    DW_FORM_block, DW_FORM_block1, DW_FORM_block2, DW_FORM_block4, DW_FORM_data1, DW_FORM_data2,
    DW_FORM_data4, DW_FORM_data8, DW_FORM_data16, DW_FORM_exprloc, DW_FORM_flag,
    DW_FORM_flag_present, DW_FORM_implicit_const, DW_FORM_indirect, DW_FORM_line_strp,
    DW_FORM_loclistx, DW_FORM_null, DW_FORM_ref, DW_FORM_ref_addr, DW_FORM_ref_sig8,
    DW_FORM_ref_sup4, DW_FORM_ref_sup8, DW_FORM_ref_udata, DW_FORM_ref1, DW_FORM_ref2,
    DW_FORM_ref4, DW_FORM_ref8, DW_FORM_rnglistx, DW_FORM_sdata, DW_FORM_sec_offset,
    DW_FORM_string, DW_FORM_strp, DW_FORM_strp_sup, DW_FORM_strx, DW_FORM_strx1, DW_FORM_strx2,
    DW_FORM_strx3, DW_FORM_strx4, DW_FORM_udata, DwForm,
};

// Index attributes: what a value in `.debug_names` is about.
pub use constants::{
    DW_IDX_compile_unit, DW_IDX_die_offset, DW_IDX_hi_user, DW_IDX_lo_user, DW_IDX_parent,
    DW_IDX_type_hash, DW_IDX_type_unit, DwIdx,
};

// Source languages.
pub use constants::{
    DW_LANG_ALTIUM_Assembler, DW_LANG_Ada83, DW_LANG_Ada95, DW_LANG_Ada2005, DW_LANG_Ada2012,
    DW_LANG_BLISS, DW_LANG_BORLAND_Delphi, DW_LANG_C, DW_LANG_C_plus_plus, DW_LANG_C_plus_plus_03,
    DW_LANG_C_plus_plus_11, DW_LANG_C_plus_plus_14, DW_LANG_C_plus_plus_17, DW_LANG_C_plus_plus_20,
    DW_LANG_C11, DW_LANG_C17, DW_LANG_C89, DW_LANG_C99, DW_LANG_Cobol74, DW_LANG_Cobol85,
    DW_LANG_Crystal, DW_LANG_D, DW_LANG_Dylan, DW_LANG_Fortran03, DW_LANG_Fortran08,
    DW_LANG_Fortran18, DW_LANG_Fortran77, DW_LANG_Fortran90, DW_LANG_Fortran95,
    DW_LANG_GOOGLE_RenderScript, DW_LANG_Go, DW_LANG_Haskell, DW_LANG_Java, DW_LANG_Julia,
    DW_LANG_Kotlin, DW_LANG_Mips_Assembler, DW_LANG_Modula2, DW_LANG_Modula3, DW_LANG_OCaml,
    DW_LANG_ObjC, DW_LANG_ObjC_plus_plus, DW_LANG_OpenCL, DW_LANG_PLI, DW_LANG_Pascal83,
    DW_LANG_Python, DW_LANG_RenderScript, DW_LANG_Rust, DW_LANG_SUN_Assembler, DW_LANG_Swift,
    DW_LANG_UPC, DW_LANG_Zig, DW_LANG_hi_user, DW_LANG_lo_user, DwLang,
};

// Content types: what is kept of a file in a line number program.
pub use constants::{
    DW_LNCT_LLVM_source, DW_LNCT_MD5, DW_LNCT_directory_index, DW_LNCT_hi_user, DW_LNCT_lo_user,
    DW_LNCT_path, DW_LNCT_size, DW_LNCT_timestamp, DwLnct,
};

// Tags: what kind of thing an entry describes.
pub use constants::{
    DW_TAG_access_declaration, DW_TAG_array_type, DW_TAG_atomic_type, DW_TAG_base_type,
    DW_TAG_call_site, DW_TAG_call_site_parameter, DW_TAG_catch_block, DW_TAG_class_type,
    DW_TAG_coarray_type, DW_TAG_common_block, DW_TAG_common_inclusion, DW_TAG_compile_unit,
    DW_TAG_condition, DW_TAG_const_type, DW_TAG_constant, DW_TAG_dwarf_procedure,
    DW_TAG_dynamic_type, DW_TAG_entry_point, DW_TAG_enumeration_type, DW_TAG_enumerator,
    DW_TAG_file_type, DW_TAG_formal_parameter, DW_TAG_friend, DW_TAG_generic_subrange,
    DW_TAG_global_subroutine, DW_TAG_global_variable, DW_TAG_hi_user, DW_TAG_immutable_type,
    DW_TAG_imported_declaration, DW_TAG_imported_module, DW_TAG_imported_unit, DW_TAG_inheritance,
    DW_TAG_inlined_subroutine, DW_TAG_interface_type, DW_TAG_label, DW_TAG_lexical_block,
    DW_TAG_lo_user, DW_TAG_local_variable, DW_TAG_member, DW_TAG_module, DW_TAG_namelist,
    DW_TAG_namelist_item, DW_TAG_namespace, DW_TAG_null, DW_TAG_packed_type, DW_TAG_partial_unit,
    DW_TAG_pointer_type, DW_TAG_ptr_to_member_type, DW_TAG_reference_type, DW_TAG_restrict_type,
    DW_TAG_rvalue_reference_type, DW_TAG_set_type, DW_TAG_shared_type, DW_TAG_skeleton_unit,
    DW_TAG_string_type, DW_TAG_structure_type, DW_TAG_subprogram, DW_TAG_subrange_type,
    DW_TAG_subroutine, DW_TAG_subroutine_type, DW_TAG_template_alias,
    DW_TAG_template_type_parameter, DW_TAG_template_value_parameter, DW_TAG_thrown_type,
    DW_TAG_try_block, DW_TAG_type_unit, DW_TAG_typedef, DW_TAG_union_type,
    DW_TAG_unspecified_parameters, DW_TAG_unspecified_type, DW_TAG_variable, DW_TAG_variant,
    DW_TAG_variant_part, DW_TAG_volatile_type, DW_TAG_with_stmt, DwTag,
};

// Tags that vendors added, most of them among the values that the standard leaves to them.
pub use constants::{
    DW_TAG_ALTIUM_circ_type, DW_TAG_ALTIUM_mwa_circ_type, DW_TAG_ALTIUM_rev_carry_type,
    DW_TAG_ALTIUM_rom, DW_TAG_APPLE_property, DW_TAG_BORLAND_Delphi_dynamic_array,
    DW_TAG_BORLAND_Delphi_set, DW_TAG_BORLAND_Delphi_string, DW_TAG_BORLAND_Delphi_variant,
    DW_TAG_BORLAND_property, DW_TAG_GNU_BINCL, DW_TAG_GNU_EINCL, DW_TAG_GNU_call_site,
    DW_TAG_GNU_call_site_parameter, DW_TAG_GNU_formal_parameter_pack,
    DW_TAG_GNU_template_parameter_pack, DW_TAG_GNU_template_template_param, DW_TAG_HP_Bliss_field,
    DW_TAG_HP_Bliss_field_set, DW_TAG_HP_array_descriptor, DW_TAG_MIPS_loop,
    DW_TAG_PGI_interface_block, DW_TAG_PGI_kanji_type, DW_TAG_SUN_class_template,
    DW_TAG_SUN_codeflags, DW_TAG_SUN_dtor, DW_TAG_SUN_dtor_info, DW_TAG_SUN_f90_interface,
    DW_TAG_SUN_fortran_vax_structure, DW_TAG_SUN_function_template,
    DW_TAG_SUN_indirect_inheritance, DW_TAG_SUN_memop_info, DW_TAG_SUN_omp_child_func,
    DW_TAG_SUN_rtti_descriptor, DW_TAG_SUN_struct_template, DW_TAG_SUN_union_template,
    DW_TAG_class_template, DW_TAG_format_label, DW_TAG_function_template, DW_TAG_upc_relaxed_type,
    DW_TAG_upc_shared_type, DW_TAG_upc_strict_type,
};

// Accessibility of members.
pub use constants::{DW_ACCESS_private, DW_ACCESS_protected, DW_ACCESS_public, DwAccess};

// Address classes.
pub use constants::{DW_ADDR_none, DwAddr};

// Order of the elements of an array.
pub use constants::{DW_ORD_col_major, DW_ORD_row_major, DwOrd};

// Encodings of base types.
pub use constants::{
    DW_ATE_ASCII, DW_ATE_UCS, DW_ATE_UTF, DW_ATE_address, DW_ATE_boolean, DW_ATE_complex_float,
    DW_ATE_decimal_float, DW_ATE_edited, DW_ATE_float, DW_ATE_hi_user, DW_ATE_imaginary_float,
    DW_ATE_lo_user, DW_ATE_numeric_string, DW_ATE_packed_decimal, DW_ATE_signed,
    DW_ATE_signed_char, DW_ATE_signed_fixed, DW_ATE_unsigned, DW_ATE_unsigned_char,
    DW_ATE_unsigned_fixed, DwAte,
};

// Instructions of call frames.
pub use constants::{
    DW_CFA_AARCH64_negate_ra_state, DW_CFA_GNU_args_size, DW_CFA_GNU_negative_offset_extended,
    DW_CFA_GNU_window_save, DW_CFA_MIPS_advance_loc8, DW_CFA_advance_loc, DW_CFA_advance_loc1,
    DW_CFA_advance_loc2, DW_CFA_advance_loc4, DW_CFA_def_cfa, DW_CFA_def_cfa_expression,
    DW_CFA_def_cfa_offset, DW_CFA_def_cfa_offset_sf, DW_CFA_def_cfa_register, DW_CFA_def_cfa_sf,
    DW_CFA_expression, DW_CFA_hi_user, DW_CFA_lo_user, DW_CFA_nop, DW_CFA_offset,
    DW_CFA_offset_extended, DW_CFA_offset_extended_sf, DW_CFA_register, DW_CFA_remember_state,
    DW_CFA_restore, DW_CFA_restore_extended, DW_CFA_restore_state, DW_CFA_same_value,
    DW_CFA_set_loc, DW_CFA_undefined, DW_CFA_val_expression, DW_CFA_val_offset,
    DW_CFA_val_offset_sf, DwCfa,
};

// Calling conventions.
pub use constants::{
    DW_CC_hi_user, DW_CC_lo_user, DW_CC_nocall, DW_CC_normal, DW_CC_pass_by_reference,
    DW_CC_pass_by_value, DW_CC_program, DwCc,
};

// Whether an entry has children.
pub use constants::{DW_CHILDREN_no, DW_CHILDREN_yes, DwChildren};

// Signs of decimal numbers.
pub use constants::{
    DW_DS_leading_overpunch, DW_DS_leading_separate, DW_DS_trailing_overpunch,
    DW_DS_trailing_separate, DW_DS_unsigned, DwDs,
};

// Defaulted member functions.
pub use constants::{
    DW_DEFAULTED_in_class, DW_DEFAULTED_no, DW_DEFAULTED_out_of_class, DwDefaulted,
};

// Lists of discriminant values.
pub use constants::{DW_DSC_label, DW_DSC_range, DwDsc};

// Byte orders of data.
pub use constants::{
    DW_END_big, DW_END_default, DW_END_hi_user, DW_END_little, DW_END_lo_user, DwEnd,
};

// Kinds of symbols in `.gdb_index`.
pub use constants::{
    GDB_INDEX_SYMBOL_KIND_FUNCTION, GDB_INDEX_SYMBOL_KIND_NONE, GDB_INDEX_SYMBOL_KIND_OTHER,
    GDB_INDEX_SYMBOL_KIND_TYPE, GDB_INDEX_SYMBOL_KIND_UNUSED5, GDB_INDEX_SYMBOL_KIND_UNUSED6,
    GDB_INDEX_SYMBOL_KIND_UNUSED7, GDB_INDEX_SYMBOL_KIND_VARIABLE, GdbIndexSymbolKind,
};

// Case of identifiers.
pub use constants::{
    DW_ID_case_insensitive, DW_ID_case_sensitive, DW_ID_down_case, DW_ID_up_case, DwId,
};

// Inlined subroutines.
pub use constants::{
    DW_INL_declared_inlined, DW_INL_declared_not_inlined, DW_INL_inlined, DW_INL_not_inlined, DwInl,
};

// Extended opcodes of a line number program.
pub use constants::{
    DW_LNE_define_file, DW_LNE_end_sequence, DW_LNE_hi_user, DW_LNE_lo_user, DW_LNE_set_address,
    DW_LNE_set_discriminator, DwLne,
};

// Standard opcodes of a line number program.
pub use constants::{
    DW_LNS_advance_line, DW_LNS_advance_pc, DW_LNS_const_add_pc, DW_LNS_copy,
    DW_LNS_fixed_advance_pc, DW_LNS_negate_stmt, DW_LNS_set_basic_block, DW_LNS_set_column,
    DW_LNS_set_epilogue_begin, DW_LNS_set_file, DW_LNS_set_isa, DW_LNS_set_prologue_end, DwLns,
};

// Entries of location lists.
pub use constants::{
    DW_LLE_GNU_view_pair, DW_LLE_base_address, DW_LLE_base_addressx, DW_LLE_default_location,
    DW_LLE_end_of_list, DW_LLE_offset_pair, DW_LLE_start_end, DW_LLE_start_length,
    DW_LLE_startx_endx, DW_LLE_startx_length, DwLle,
};

// Entries of `.debug_macinfo`.
pub use constants::{
    DW_MACINFO_define, DW_MACINFO_end_file, DW_MACINFO_start_file, DW_MACINFO_undef,
    DW_MACINFO_vendor_ext, DwMacinfo,
};

// Entries of `.debug_macro`.
pub use constants::{
    DW_MACRO_define, DW_MACRO_define_strp, DW_MACRO_define_strx, DW_MACRO_define_sup,
    DW_MACRO_end_file, DW_MACRO_hi_user, DW_MACRO_import, DW_MACRO_import_sup, DW_MACRO_lo_user,
    DW_MACRO_start_file, DW_MACRO_undef, DW_MACRO_undef_strp, DW_MACRO_undef_strx,
    DW_MACRO_undef_sup, DwMacro,
};

// Operations of an expression.
pub use constants::{
    DW_OP_GNU_addr_index, DW_OP_GNU_const_index, DW_OP_GNU_const_type, DW_OP_GNU_convert,
    DW_OP_GNU_deref_type, DW_OP_GNU_encoded_addr, DW_OP_GNU_entry_value,
    DW_OP_GNU_implicit_pointer, DW_OP_GNU_parameter_ref, DW_OP_GNU_push_tls_address,
    DW_OP_GNU_regval_type, DW_OP_GNU_reinterpret, DW_OP_GNU_uninit, DW_OP_GNU_variable_value,
    DW_OP_WASM_location, DW_OP_abs, DW_OP_addr, DW_OP_addrx, DW_OP_and, DW_OP_bit_piece, DW_OP_bra,
    DW_OP_bregx, DW_OP_call_frame_cfa, DW_OP_call_ref, DW_OP_call2, DW_OP_call4, DW_OP_const_type,
    DW_OP_const1s, DW_OP_const1u, DW_OP_const2s, DW_OP_const2u, DW_OP_const4s, DW_OP_const4u,
    DW_OP_const8s, DW_OP_const8u, DW_OP_consts, DW_OP_constu, DW_OP_constx, DW_OP_convert,
    DW_OP_deref, DW_OP_deref_size, DW_OP_deref_type, DW_OP_div, DW_OP_drop, DW_OP_dup,
    DW_OP_entry_value, DW_OP_eq, DW_OP_fbreg, DW_OP_form_tls_address, DW_OP_ge, DW_OP_gt,
    DW_OP_implicit_pointer, DW_OP_implicit_value, DW_OP_le, DW_OP_lt, DW_OP_minus, DW_OP_mod,
    DW_OP_mul, DW_OP_ne, DW_OP_neg, DW_OP_nop, DW_OP_not, DW_OP_or, DW_OP_over, DW_OP_pick,
    DW_OP_piece, DW_OP_plus, DW_OP_plus_uconst, DW_OP_push_object_address, DW_OP_regval_type,
    DW_OP_regx, DW_OP_reinterpret, DW_OP_rot, DW_OP_shl, DW_OP_shr, DW_OP_shra, DW_OP_skip,
    DW_OP_stack_value, DW_OP_swap, DW_OP_xderef, DW_OP_xderef_size, DW_OP_xderef_type, DW_OP_xor,
    DwOp,
};

// Operations with a number in their name: small constants, and the first 32 registers.
pub use constants::{
    DW_OP_breg0, DW_OP_breg1, DW_OP_breg2, DW_OP_breg3, DW_OP_breg4, DW_OP_breg5, DW_OP_breg6,
    DW_OP_breg7, DW_OP_breg8, DW_OP_breg9, DW_OP_breg10, DW_OP_breg11, DW_OP_breg12, DW_OP_breg13,
    DW_OP_breg14, DW_OP_breg15, DW_OP_breg16, DW_OP_breg17, DW_OP_breg18, DW_OP_breg19,
    DW_OP_breg20, DW_OP_breg21, DW_OP_breg22, DW_OP_breg23, DW_OP_breg24, DW_OP_breg25,
    DW_OP_breg26, DW_OP_breg27, DW_OP_breg28, DW_OP_breg29, DW_OP_breg30, DW_OP_breg31, DW_OP_lit0,
    DW_OP_lit1, DW_OP_lit2, DW_OP_lit3, DW_OP_lit4, DW_OP_lit5, DW_OP_lit6, DW_OP_lit7, DW_OP_lit8,
    DW_OP_lit9, DW_OP_lit10, DW_OP_lit11, DW_OP_lit12, DW_OP_lit13, DW_OP_lit14, DW_OP_lit15,
    DW_OP_lit16, DW_OP_lit17, DW_OP_lit18, DW_OP_lit19, DW_OP_lit20, DW_OP_lit21, DW_OP_lit22,
    DW_OP_lit23, DW_OP_lit24, DW_OP_lit25, DW_OP_lit26, DW_OP_lit27, DW_OP_lit28, DW_OP_lit29,
    DW_OP_lit30, DW_OP_lit31, DW_OP_reg0, DW_OP_reg1, DW_OP_reg2, DW_OP_reg3, DW_OP_reg4,
    DW_OP_reg5, DW_OP_reg6, DW_OP_reg7, DW_OP_reg8, DW_OP_reg9, DW_OP_reg10, DW_OP_reg11,
    DW_OP_reg12, DW_OP_reg13, DW_OP_reg14, DW_OP_reg15, DW_OP_reg16, DW_OP_reg17, DW_OP_reg18,
    DW_OP_reg19, DW_OP_reg20, DW_OP_reg21, DW_OP_reg22, DW_OP_reg23, DW_OP_reg24, DW_OP_reg25,
    DW_OP_reg26, DW_OP_reg27, DW_OP_reg28, DW_OP_reg29, DW_OP_reg30, DW_OP_reg31,
};

// Encodings of the pointers of `.eh_frame`.
pub use constants::{
    DW_EH_PE_absptr, DW_EH_PE_aligned, DW_EH_PE_datarel, DW_EH_PE_funcrel, DW_EH_PE_indirect,
    DW_EH_PE_omit, DW_EH_PE_pcrel, DW_EH_PE_sdata2, DW_EH_PE_sdata4, DW_EH_PE_sdata8,
    DW_EH_PE_sleb128, DW_EH_PE_textrel, DW_EH_PE_udata2, DW_EH_PE_udata4, DW_EH_PE_udata8,
    DW_EH_PE_uleb128, DwEhPe,
};

// Entries of range lists.
pub use constants::{
    DW_RLE_base_address, DW_RLE_base_addressx, DW_RLE_end_of_list, DW_RLE_offset_pair,
    DW_RLE_start_end, DW_RLE_start_length, DW_RLE_startx_endx, DW_RLE_startx_length, DwRle,
};

// Sections of a package file.
pub use constants::{
    DW_SECT_ABBREV, DW_SECT_INFO, DW_SECT_LINE, DW_SECT_LOCLISTS, DW_SECT_MACRO, DW_SECT_RNGLISTS,
    DW_SECT_STR_OFFSETS, DwSect,
};

// Sections of a package file before DWARF 5.
pub use constants::{
    DW_SECT_V2_ABBREV, DW_SECT_V2_INFO, DW_SECT_V2_LINE, DW_SECT_V2_LOC, DW_SECT_V2_MACINFO,
    DW_SECT_V2_MACRO, DW_SECT_V2_STR_OFFSETS, DW_SECT_V2_TYPES, DwSectV2,
};

// Unit types.
pub use constants::{
    DW_UT_compile, DW_UT_hi_user, DW_UT_lo_user, DW_UT_partial, DW_UT_skeleton,
    DW_UT_split_compile, DW_UT_split_type, DW_UT_type, DwUt,
};

// Virtual functions and base classes.
pub use constants::{
    DW_VIRTUALITY_none, DW_VIRTUALITY_pure_virtual, DW_VIRTUALITY_virtual, DwVirtuality,
};

// Visibility of declarations.
pub use constants::{DW_VIS_exported, DW_VIS_local, DW_VIS_qualified, DwVis};
