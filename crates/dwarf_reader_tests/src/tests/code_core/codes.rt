//! The other constants of one, four and eight bytes and their values, as published.

use crate::tests::Family;

#[rattlefmt::skip]
pub(super) static CODES: &[(Family, &str)] = &[
    (Family::Ut, "
        DW_UT_compile=0x01            DW_UT_type=0x02               DW_UT_partial=0x03
        DW_UT_skeleton=0x04           DW_UT_split_compile=0x05      DW_UT_split_type=0x06
        DW_UT_lo_user=0x80            DW_UT_hi_user=0xff"),
    (Family::Cfa, "
        DW_CFA_nop=0x00               DW_CFA_set_loc=0x01           DW_CFA_advance_loc1=0x02
        DW_CFA_advance_loc2=0x03      DW_CFA_advance_loc4=0x04      DW_CFA_offset_extended=0x05
        DW_CFA_restore_extended=0x06  DW_CFA_undefined=0x07         DW_CFA_same_value=0x08
        DW_CFA_register=0x09          DW_CFA_remember_state=0x0a    DW_CFA_restore_state=0x0b
        DW_CFA_def_cfa=0x0c           DW_CFA_def_cfa_register=0x0d  DW_CFA_def_cfa_offset=0x0e
        DW_CFA_def_cfa_expression=0x0f                              DW_CFA_expression=0x10
        DW_CFA_offset_extended_sf=0x11                              DW_CFA_def_cfa_sf=0x12
        DW_CFA_def_cfa_offset_sf=0x13 DW_CFA_val_offset=0x14        DW_CFA_val_offset_sf=0x15
        DW_CFA_val_expression=0x16    DW_CFA_lo_user=0x1c           DW_CFA_MIPS_advance_loc8=0x1d
        DW_CFA_GNU_window_save=0x2d   DW_CFA_GNU_args_size=0x2e
        DW_CFA_GNU_negative_offset_extended=0x2f                    DW_CFA_hi_user=0x3f
        DW_CFA_advance_loc=0x40       DW_CFA_offset=0x80            DW_CFA_restore=0xc0"),
    (Family::Children, "DW_CHILDREN_no=0x00 DW_CHILDREN_yes=0x01"),
    (Family::Ate, "
        DW_ATE_address=0x01           DW_ATE_boolean=0x02           DW_ATE_complex_float=0x03
        DW_ATE_float=0x04             DW_ATE_signed=0x05            DW_ATE_signed_char=0x06
        DW_ATE_unsigned=0x07          DW_ATE_unsigned_char=0x08     DW_ATE_imaginary_float=0x09
        DW_ATE_packed_decimal=0x0a    DW_ATE_numeric_string=0x0b    DW_ATE_edited=0x0c
        DW_ATE_signed_fixed=0x0d      DW_ATE_unsigned_fixed=0x0e    DW_ATE_decimal_float=0x0f
        DW_ATE_UTF=0x10               DW_ATE_UCS=0x11               DW_ATE_ASCII=0x12
        DW_ATE_lo_user=0x80           DW_ATE_hi_user=0xff"),
    (Family::Lle, "
        DW_LLE_end_of_list=0x00       DW_LLE_base_addressx=0x01     DW_LLE_startx_endx=0x02
        DW_LLE_startx_length=0x03     DW_LLE_offset_pair=0x04       DW_LLE_default_location=0x05
        DW_LLE_base_address=0x06      DW_LLE_start_end=0x07         DW_LLE_start_length=0x08
        DW_LLE_GNU_view_pair=0x09"),
    (Family::Ds, "
        DW_DS_unsigned=0x01           DW_DS_leading_overpunch=0x02  DW_DS_trailing_overpunch=0x03
        DW_DS_leading_separate=0x04   DW_DS_trailing_separate=0x05"),
    (Family::End, "
        DW_END_default=0x00           DW_END_big=0x01               DW_END_little=0x02
        DW_END_lo_user=0x40           DW_END_hi_user=0xff"),
    (Family::Access, "DW_ACCESS_public=0x01 DW_ACCESS_protected=0x02 DW_ACCESS_private=0x03"),
    (Family::Vis, "DW_VIS_local=0x01 DW_VIS_exported=0x02 DW_VIS_qualified=0x03"),
    (Family::Virtuality, "
        DW_VIRTUALITY_none=0x00                       DW_VIRTUALITY_virtual=0x01
        DW_VIRTUALITY_pure_virtual=0x02"),
    (Family::Id, "
        DW_ID_case_sensitive=0x00                     DW_ID_up_case=0x01
        DW_ID_down_case=0x02                          DW_ID_case_insensitive=0x03"),
    (Family::Cc, "
        DW_CC_normal=0x01             DW_CC_program=0x02            DW_CC_nocall=0x03
        DW_CC_pass_by_reference=0x04  DW_CC_pass_by_value=0x05      DW_CC_lo_user=0x40
        DW_CC_hi_user=0xff"),
    (Family::Inl, "
        DW_INL_not_inlined=0x00                       DW_INL_inlined=0x01
        DW_INL_declared_not_inlined=0x02              DW_INL_declared_inlined=0x03"),
    (Family::Ord, "DW_ORD_row_major=0x00 DW_ORD_col_major=0x01"),
    (Family::Dsc, "DW_DSC_label=0x00 DW_DSC_range=0x01"),
    (Family::Defaulted, "
        DW_DEFAULTED_no=0x00                          DW_DEFAULTED_in_class=0x01
        DW_DEFAULTED_out_of_class=0x02"),
    (Family::Lns, "
        DW_LNS_copy=0x01              DW_LNS_advance_pc=0x02        DW_LNS_advance_line=0x03
        DW_LNS_set_file=0x04          DW_LNS_set_column=0x05        DW_LNS_negate_stmt=0x06
        DW_LNS_set_basic_block=0x07   DW_LNS_const_add_pc=0x08      DW_LNS_fixed_advance_pc=0x09
        DW_LNS_set_prologue_end=0x0a  DW_LNS_set_epilogue_begin=0x0b
        DW_LNS_set_isa=0x0c"),
    (Family::Lne, "
        DW_LNE_end_sequence=0x01      DW_LNE_set_address=0x02       DW_LNE_define_file=0x03
        DW_LNE_set_discriminator=0x04 DW_LNE_lo_user=0x80           DW_LNE_hi_user=0xff"),
    (Family::Macinfo, "
        DW_MACINFO_define=0x01        DW_MACINFO_undef=0x02         DW_MACINFO_start_file=0x03
        DW_MACINFO_end_file=0x04      DW_MACINFO_vendor_ext=0xff"),
    (Family::Macro, "
        DW_MACRO_define=0x01          DW_MACRO_undef=0x02           DW_MACRO_start_file=0x03
        DW_MACRO_end_file=0x04        DW_MACRO_define_strp=0x05     DW_MACRO_undef_strp=0x06
        DW_MACRO_import=0x07          DW_MACRO_define_sup=0x08      DW_MACRO_undef_sup=0x09
        DW_MACRO_import_sup=0x0a      DW_MACRO_define_strx=0x0b     DW_MACRO_undef_strx=0x0c
        DW_MACRO_lo_user=0xe0         DW_MACRO_hi_user=0xff"),
    (Family::Rle, "
        DW_RLE_end_of_list=0x00       DW_RLE_base_addressx=0x01     DW_RLE_startx_endx=0x02
        DW_RLE_startx_length=0x03     DW_RLE_offset_pair=0x04       DW_RLE_base_address=0x05
        DW_RLE_start_end=0x06         DW_RLE_start_length=0x07"),
    (Family::EhPe, "
        DW_EH_PE_absptr=0x00  DW_EH_PE_uleb128=0x01 DW_EH_PE_udata2=0x02  DW_EH_PE_udata4=0x03
        DW_EH_PE_udata8=0x04  DW_EH_PE_sleb128=0x09 DW_EH_PE_sdata2=0x0a  DW_EH_PE_sdata4=0x0b
        DW_EH_PE_sdata8=0x0c  DW_EH_PE_pcrel=0x10   DW_EH_PE_textrel=0x20 DW_EH_PE_datarel=0x30
        DW_EH_PE_funcrel=0x40 DW_EH_PE_aligned=0x50 DW_EH_PE_indirect=0x80
        DW_EH_PE_omit=0xff"),
    (Family::GdbIndexSymbolKind, "
        GDB_INDEX_SYMBOL_KIND_NONE=0x00               GDB_INDEX_SYMBOL_KIND_TYPE=0x01
        GDB_INDEX_SYMBOL_KIND_VARIABLE=0x02           GDB_INDEX_SYMBOL_KIND_FUNCTION=0x03
        GDB_INDEX_SYMBOL_KIND_OTHER=0x04              GDB_INDEX_SYMBOL_KIND_UNUSED5=0x05
        GDB_INDEX_SYMBOL_KIND_UNUSED6=0x06            GDB_INDEX_SYMBOL_KIND_UNUSED7=0x07"),
    (Family::Sect, "
        DW_SECT_INFO=0x01             DW_SECT_ABBREV=0x03           DW_SECT_LINE=0x04
        DW_SECT_LOCLISTS=0x05         DW_SECT_STR_OFFSETS=0x06      DW_SECT_MACRO=0x07
        DW_SECT_RNGLISTS=0x08"),
    (Family::SectV2, "
        DW_SECT_V2_INFO=0x01          DW_SECT_V2_TYPES=0x02         DW_SECT_V2_ABBREV=0x03
        DW_SECT_V2_LINE=0x04          DW_SECT_V2_LOC=0x05           DW_SECT_V2_STR_OFFSETS=0x06
        DW_SECT_V2_MACINFO=0x07       DW_SECT_V2_MACRO=0x08"),
    (Family::Addr, "DW_ADDR_none=0x00"),
];
