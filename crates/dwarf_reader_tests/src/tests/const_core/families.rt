//! The other constants of two bytes and their values, as published.

use crate::tests::Family;

#[rattlefmt::skip]
pub(super) static FAMILIES: &[(Family, &str)] = &[
    (Family::Tag, "
        DW_TAG_null=0x00                              DW_TAG_array_type=0x01
        DW_TAG_class_type=0x02                        DW_TAG_entry_point=0x03
        DW_TAG_enumeration_type=0x04                  DW_TAG_formal_parameter=0x05
        DW_TAG_global_subroutine=0x06                 DW_TAG_global_variable=0x07
        DW_TAG_imported_declaration=0x08              DW_TAG_label=0x0a
        DW_TAG_lexical_block=0x0b                     DW_TAG_local_variable=0x0c
        DW_TAG_member=0x0d                            DW_TAG_pointer_type=0x0f
        DW_TAG_reference_type=0x10                    DW_TAG_compile_unit=0x11
        DW_TAG_string_type=0x12                       DW_TAG_structure_type=0x13
        DW_TAG_subroutine=0x14                        DW_TAG_subroutine_type=0x15
        DW_TAG_typedef=0x16                           DW_TAG_union_type=0x17
        DW_TAG_unspecified_parameters=0x18            DW_TAG_variant=0x19
        DW_TAG_common_block=0x1a                      DW_TAG_common_inclusion=0x1b
        DW_TAG_inheritance=0x1c                       DW_TAG_inlined_subroutine=0x1d
        DW_TAG_module=0x1e                            DW_TAG_ptr_to_member_type=0x1f
        DW_TAG_set_type=0x20                          DW_TAG_subrange_type=0x21
        DW_TAG_with_stmt=0x22                         DW_TAG_access_declaration=0x23
        DW_TAG_base_type=0x24                         DW_TAG_catch_block=0x25
        DW_TAG_const_type=0x26                        DW_TAG_constant=0x27
        DW_TAG_enumerator=0x28                        DW_TAG_file_type=0x29
        DW_TAG_friend=0x2a                            DW_TAG_namelist=0x2b
        DW_TAG_namelist_item=0x2c                     DW_TAG_packed_type=0x2d
        DW_TAG_subprogram=0x2e                        DW_TAG_template_type_parameter=0x2f
        DW_TAG_template_value_parameter=0x30          DW_TAG_thrown_type=0x31
        DW_TAG_try_block=0x32                         DW_TAG_variant_part=0x33
        DW_TAG_variable=0x34                          DW_TAG_volatile_type=0x35
        DW_TAG_dwarf_procedure=0x36                   DW_TAG_restrict_type=0x37
        DW_TAG_interface_type=0x38                    DW_TAG_namespace=0x39
        DW_TAG_imported_module=0x3a                   DW_TAG_unspecified_type=0x3b
        DW_TAG_partial_unit=0x3c                      DW_TAG_imported_unit=0x3d
        DW_TAG_condition=0x3f                         DW_TAG_shared_type=0x40
        DW_TAG_type_unit=0x41                         DW_TAG_rvalue_reference_type=0x42
        DW_TAG_template_alias=0x43                    DW_TAG_coarray_type=0x44
        DW_TAG_generic_subrange=0x45                  DW_TAG_dynamic_type=0x46
        DW_TAG_atomic_type=0x47                       DW_TAG_call_site=0x48
        DW_TAG_call_site_parameter=0x49               DW_TAG_skeleton_unit=0x4a
        DW_TAG_immutable_type=0x4b                    DW_TAG_lo_user=0x4080
        DW_TAG_MIPS_loop=0x4081                       DW_TAG_HP_array_descriptor=0x4090
        DW_TAG_HP_Bliss_field=0x4091                  DW_TAG_HP_Bliss_field_set=0x4092
        DW_TAG_format_label=0x4101                    DW_TAG_function_template=0x4102
        DW_TAG_class_template=0x4103                  DW_TAG_GNU_BINCL=0x4104
        DW_TAG_GNU_EINCL=0x4105                       DW_TAG_GNU_template_template_param=0x4106
        DW_TAG_GNU_template_parameter_pack=0x4107     DW_TAG_GNU_formal_parameter_pack=0x4108
        DW_TAG_GNU_call_site=0x4109                   DW_TAG_GNU_call_site_parameter=0x410a
        DW_TAG_APPLE_property=0x4200                  DW_TAG_SUN_function_template=0x4201
        DW_TAG_SUN_class_template=0x4202              DW_TAG_SUN_struct_template=0x4203
        DW_TAG_SUN_union_template=0x4204              DW_TAG_SUN_indirect_inheritance=0x4205
        DW_TAG_SUN_codeflags=0x4206                   DW_TAG_SUN_memop_info=0x4207
        DW_TAG_SUN_omp_child_func=0x4208              DW_TAG_SUN_rtti_descriptor=0x4209
        DW_TAG_SUN_dtor_info=0x420a                   DW_TAG_SUN_dtor=0x420b
        DW_TAG_SUN_f90_interface=0x420c               DW_TAG_SUN_fortran_vax_structure=0x420d
        DW_TAG_ALTIUM_circ_type=0x5101                DW_TAG_ALTIUM_mwa_circ_type=0x5102
        DW_TAG_ALTIUM_rev_carry_type=0x5103           DW_TAG_ALTIUM_rom=0x5111
        DW_TAG_upc_shared_type=0x8765                 DW_TAG_upc_strict_type=0x8766
        DW_TAG_upc_relaxed_type=0x8767                DW_TAG_PGI_kanji_type=0xa000
        DW_TAG_PGI_interface_block=0xa020             DW_TAG_BORLAND_property=0xb000
        DW_TAG_BORLAND_Delphi_string=0xb001           DW_TAG_BORLAND_Delphi_dynamic_array=0xb002
        DW_TAG_BORLAND_Delphi_set=0xb003              DW_TAG_BORLAND_Delphi_variant=0xb004
        DW_TAG_hi_user=0xffff"),
    (Family::Form, "
        DW_FORM_null=0x00             DW_FORM_addr=0x01             DW_FORM_ref=0x02
        DW_FORM_block2=0x03           DW_FORM_block4=0x04           DW_FORM_data2=0x05
        DW_FORM_data4=0x06            DW_FORM_data8=0x07            DW_FORM_string=0x08
        DW_FORM_block=0x09            DW_FORM_block1=0x0a           DW_FORM_data1=0x0b
        DW_FORM_flag=0x0c             DW_FORM_sdata=0x0d            DW_FORM_strp=0x0e
        DW_FORM_udata=0x0f            DW_FORM_ref_addr=0x10         DW_FORM_ref1=0x11
        DW_FORM_ref2=0x12             DW_FORM_ref4=0x13             DW_FORM_ref8=0x14
        DW_FORM_ref_udata=0x15        DW_FORM_indirect=0x16         DW_FORM_sec_offset=0x17
        DW_FORM_exprloc=0x18          DW_FORM_flag_present=0x19     DW_FORM_strx=0x1a
        DW_FORM_addrx=0x1b            DW_FORM_ref_sup4=0x1c         DW_FORM_strp_sup=0x1d
        DW_FORM_data16=0x1e           DW_FORM_line_strp=0x1f        DW_FORM_ref_sig8=0x20
        DW_FORM_implicit_const=0x21   DW_FORM_loclistx=0x22         DW_FORM_rnglistx=0x23
        DW_FORM_ref_sup8=0x24         DW_FORM_strx1=0x25            DW_FORM_strx2=0x26
        DW_FORM_strx3=0x27            DW_FORM_strx4=0x28            DW_FORM_addrx1=0x29
        DW_FORM_addrx2=0x2a           DW_FORM_addrx3=0x2b           DW_FORM_addrx4=0x2c
        DW_FORM_GNU_addr_index=0x1f01 DW_FORM_GNU_str_index=0x1f02  DW_FORM_GNU_ref_alt=0x1f20
        DW_FORM_GNU_strp_alt=0x1f21"),
    (Family::Lang, "
        DW_LANG_C89=0x01              DW_LANG_C=0x02                DW_LANG_Ada83=0x03
        DW_LANG_C_plus_plus=0x04      DW_LANG_Cobol74=0x05          DW_LANG_Cobol85=0x06
        DW_LANG_Fortran77=0x07        DW_LANG_Fortran90=0x08        DW_LANG_Pascal83=0x09
        DW_LANG_Modula2=0x0a          DW_LANG_Java=0x0b             DW_LANG_C99=0x0c
        DW_LANG_Ada95=0x0d            DW_LANG_Fortran95=0x0e        DW_LANG_PLI=0x0f
        DW_LANG_ObjC=0x10             DW_LANG_ObjC_plus_plus=0x11   DW_LANG_UPC=0x12
        DW_LANG_D=0x13                DW_LANG_Python=0x14           DW_LANG_OpenCL=0x15
        DW_LANG_Go=0x16               DW_LANG_Modula3=0x17          DW_LANG_Haskell=0x18
        DW_LANG_C_plus_plus_03=0x19   DW_LANG_C_plus_plus_11=0x1a   DW_LANG_OCaml=0x1b
        DW_LANG_Rust=0x1c             DW_LANG_C11=0x1d              DW_LANG_Swift=0x1e
        DW_LANG_Julia=0x1f            DW_LANG_Dylan=0x20            DW_LANG_C_plus_plus_14=0x21
        DW_LANG_Fortran03=0x22        DW_LANG_Fortran08=0x23        DW_LANG_RenderScript=0x24
        DW_LANG_BLISS=0x25            DW_LANG_Kotlin=0x26           DW_LANG_Zig=0x27
        DW_LANG_Crystal=0x28          DW_LANG_C_plus_plus_17=0x2a   DW_LANG_C_plus_plus_20=0x2b
        DW_LANG_C17=0x2c              DW_LANG_Fortran18=0x2d        DW_LANG_Ada2005=0x2e
        DW_LANG_Ada2012=0x2f          DW_LANG_lo_user=0x8000        DW_LANG_Mips_Assembler=0x8001
        DW_LANG_GOOGLE_RenderScript=0x8e57                          DW_LANG_SUN_Assembler=0x9001
        DW_LANG_ALTIUM_Assembler=0x9101                             DW_LANG_BORLAND_Delphi=0xb000
        DW_LANG_hi_user=0xffff"),
    (Family::Idx, "
        DW_IDX_compile_unit=0x01      DW_IDX_type_unit=0x02         DW_IDX_die_offset=0x03
        DW_IDX_parent=0x04            DW_IDX_type_hash=0x05         DW_IDX_lo_user=0x2000
        DW_IDX_hi_user=0x3fff"),
    (Family::Lnct, "
        DW_LNCT_path=0x01             DW_LNCT_directory_index=0x02  DW_LNCT_timestamp=0x03
        DW_LNCT_size=0x04             DW_LNCT_MD5=0x05              DW_LNCT_lo_user=0x2000
        DW_LNCT_LLVM_source=0x2001    DW_LNCT_hi_user=0x3fff"),
];
