//! Attributes: what a value of an entry is about.

ghost use Rattle.std.specs.Prelude.{◌≡◌, Some, option_map};
ghost use Rattle.std.specs.Fmt.{padded};
ghost use Rattle.dwarf_const_core.specs.Names.{name_of};
ghost use Rattle.dwarf_const_core.specs.DwAt.{attribute_names, attribute_text};

use crate::names::{Names, pad_name};
use later::*;
use std::fmt;
use sun::*;
use vendor::*;

pub mod later;
pub mod sun;
pub mod vendor;

/// What a value of an entry is about (DWARF 5, section 7.5.4).
///
/// `Display` writes the name, or `Unknown DwAt: 4660` for a value without one, and honours width,
/// precision, fill and alignment.
#[derive(Debug, Clone, Copy, PartialEq, Eq, Hash, PartialOrd, Ord)]
pub struct DwAt(pub u16);

// No attribute: the pair that closes a declaration's attributes.

/// The name of no attribute.
pub const DW_AT_null: DwAt = DwAt(0x00);

// DWARF 1, withdrawn since.

/// A type that the language has of itself.
pub const DW_AT_fund_type: DwAt = DwAt(0x05);
/// Such a type under modifiers, as pointer or reference.
pub const DW_AT_mod_fund_type: DwAt = DwAt(0x06);
/// A type that the program defines.
pub const DW_AT_user_def_type: DwAt = DwAt(0x07);
/// Such a type under modifiers.
pub const DW_AT_mod_u_d_type: DwAt = DwAt(0x08);
/// The subscripts of an array.
pub const DW_AT_subscr_data: DwAt = DwAt(0x0a);
/// The names and values of an enumeration.
pub const DW_AT_element_list: DwAt = DwAt(0x0f);
/// The member that this entry belongs to.
pub const DW_AT_member: DwAt = DwAt(0x14);
/// The friends of a class.
pub const DW_AT_friends: DwAt = DwAt(0x1f);
/// Marks the main program.
pub const DW_AT_program: DwAt = DwAt(0x23);
/// Marks a private member.
pub const DW_AT_private: DwAt = DwAt(0x24);
/// Marks a protected member.
pub const DW_AT_protected: DwAt = DwAt(0x26);
/// Marks a public member.
pub const DW_AT_public: DwAt = DwAt(0x28);
/// Marks a pure virtual function.
pub const DW_AT_pure_virtual: DwAt = DwAt(0x29);
/// Marks a virtual function or base class.
pub const DW_AT_virtual: DwAt = DwAt(0x30);
/// The declaration that this entry completes; a value that later versions gave up.
pub const DW_AT_specification_v1: DwAt = DwAt(0x2b);

// DWARF 2.

/// The next entry with the same parent.
pub const DW_AT_sibling: DwAt = DwAt(0x01);
/// Where the object is.
pub const DW_AT_location: DwAt = DwAt(0x02);
/// The name in the source.
pub const DW_AT_name: DwAt = DwAt(0x03);
/// How an array lies in memory: a `DwOrd`.
pub const DW_AT_ordering: DwAt = DwAt(0x09);
/// The size, in bytes.
pub const DW_AT_byte_size: DwAt = DwAt(0x0b);
/// The distance from the storage unit's highest bit, in bits.
pub const DW_AT_bit_offset: DwAt = DwAt(0x0c);
/// The size, in bits.
pub const DW_AT_bit_size: DwAt = DwAt(0x0d);
/// The unit's line number program, in `.debug_line`.
pub const DW_AT_stmt_list: DwAt = DwAt(0x10);
/// The first address of the code.
pub const DW_AT_low_pc: DwAt = DwAt(0x11);
/// The first address after the code, or the code's length.
pub const DW_AT_high_pc: DwAt = DwAt(0x12);
/// The source language: a `DwLang`.
pub const DW_AT_language: DwAt = DwAt(0x13);
/// The discriminant of a variant part.
pub const DW_AT_discr: DwAt = DwAt(0x15);
/// The value of the discriminant that chooses this variant.
pub const DW_AT_discr_value: DwAt = DwAt(0x16);
/// Who sees the declaration: a `DwVis`.
pub const DW_AT_visibility: DwAt = DwAt(0x17);
/// The entry that is brought in.
pub const DW_AT_import: DwAt = DwAt(0x18);
/// Where the length of a string is.
pub const DW_AT_string_length: DwAt = DwAt(0x19);
/// The common block that is used here.
pub const DW_AT_common_reference: DwAt = DwAt(0x1a);
/// The directory that the compiler worked in.
pub const DW_AT_comp_dir: DwAt = DwAt(0x1b);
/// The value of a constant.
pub const DW_AT_const_value: DwAt = DwAt(0x1c);
/// The class that a pointer to a member, or a virtual function, belongs to.
pub const DW_AT_containing_type: DwAt = DwAt(0x1d);
/// The default of a parameter.
pub const DW_AT_default_value: DwAt = DwAt(0x1e);
/// Whether the subroutine was inlined: a `DwInl`.
pub const DW_AT_inline: DwAt = DwAt(0x20);
/// Marks a parameter that may be omitted.
pub const DW_AT_is_optional: DwAt = DwAt(0x21);
/// The least value of a subrange.
pub const DW_AT_lower_bound: DwAt = DwAt(0x22);
/// The compiler that made the unit.
pub const DW_AT_producer: DwAt = DwAt(0x25);
/// Marks a C function declared with its parameters' types.
pub const DW_AT_prototyped: DwAt = DwAt(0x27);
/// Where the return address is kept.
pub const DW_AT_return_addr: DwAt = DwAt(0x2a);
/// Where in its scope the declaration begins to hold.
pub const DW_AT_start_scope: DwAt = DwAt(0x2c);
/// The distance between elements, in bits.
pub const DW_AT_bit_stride: DwAt = DwAt(0x2e);
/// The greatest value of a subrange.
pub const DW_AT_upper_bound: DwAt = DwAt(0x2f);
/// The abstract form of an inlined entry.
pub const DW_AT_abstract_origin: DwAt = DwAt(0x31);
/// Who may use the declaration: a `DwAccess`.
pub const DW_AT_accessibility: DwAt = DwAt(0x32);
/// How a pointer is to be followed: a `DwAddr`.
pub const DW_AT_address_class: DwAt = DwAt(0x33);
/// Marks what the compiler added.
pub const DW_AT_artificial: DwAt = DwAt(0x34);
/// The unit that holds the base types.
pub const DW_AT_base_types: DwAt = DwAt(0x35);
/// How the subroutine is called: a `DwCc`.
pub const DW_AT_calling_convention: DwAt = DwAt(0x36);
/// How many values a subrange has.
pub const DW_AT_count: DwAt = DwAt(0x37);
/// Where a member is in its object.
pub const DW_AT_data_member_location: DwAt = DwAt(0x38);
/// The column of the declaration.
pub const DW_AT_decl_column: DwAt = DwAt(0x39);
/// The file of the declaration, as an index.
pub const DW_AT_decl_file: DwAt = DwAt(0x3a);
/// The line of the declaration.
pub const DW_AT_decl_line: DwAt = DwAt(0x3b);
/// Marks a declaration that something else completes.
pub const DW_AT_declaration: DwAt = DwAt(0x3c);
/// The values and ranges of the discriminant that choose this variant.
pub const DW_AT_discr_list: DwAt = DwAt(0x3d);
/// How a base type is represented: a `DwAte`.
pub const DW_AT_encoding: DwAt = DwAt(0x3e);
/// Marks what other units see.
pub const DW_AT_external: DwAt = DwAt(0x3f);
/// Where the subroutine's frame is.
pub const DW_AT_frame_base: DwAt = DwAt(0x40);
/// The entry that is a friend.
pub const DW_AT_friend: DwAt = DwAt(0x41);
/// How the unit treats case in names: a `DwId`.
pub const DW_AT_identifier_case: DwAt = DwAt(0x42);
/// The unit's macros, in `.debug_macinfo`.
pub const DW_AT_macro_info: DwAt = DwAt(0x43);
/// The variable of a namelist.
pub const DW_AT_namelist_item: DwAt = DwAt(0x44);
/// The priority of a module.
pub const DW_AT_priority: DwAt = DwAt(0x45);
/// The segment that addresses lie in.
pub const DW_AT_segment: DwAt = DwAt(0x46);
/// The declaration that this entry completes.
pub const DW_AT_specification: DwAt = DwAt(0x47);
/// Where the enclosing subroutine's frame is.
pub const DW_AT_static_link: DwAt = DwAt(0x48);
/// The type.
pub const DW_AT_type: DwAt = DwAt(0x49);
/// How a pointer to a member is applied.
pub const DW_AT_use_location: DwAt = DwAt(0x4a);
/// Marks a parameter that the callee may change for the caller.
pub const DW_AT_variable_parameter: DwAt = DwAt(0x4b);
/// Whether the declaration is virtual: a `DwVirtuality`.
pub const DW_AT_virtuality: DwAt = DwAt(0x4c);
/// Where a virtual function is in the table of its class.
pub const DW_AT_vtable_elem_location: DwAt = DwAt(0x4d);

// The values that vendors may use.

/// The first value open to vendors.
pub const DW_AT_lo_user: DwAt = DwAt(0x2000);
/// The last value open to vendors.
pub const DW_AT_hi_user: DwAt = DwAt(0x3fff);

// tools/constants writes this list from the declarations.
#[rattlefmt::skip]
const NAMES: Names = names![
    DW_AT_null, DW_AT_sibling, DW_AT_location, DW_AT_name, DW_AT_fund_type, DW_AT_mod_fund_type,
    DW_AT_user_def_type, DW_AT_mod_u_d_type, DW_AT_ordering, DW_AT_subscr_data, DW_AT_byte_size,
    DW_AT_bit_offset, DW_AT_bit_size, DW_AT_element_list, DW_AT_stmt_list, DW_AT_low_pc,
    DW_AT_high_pc, DW_AT_language, DW_AT_member, DW_AT_discr, DW_AT_discr_value, DW_AT_visibility,
    DW_AT_import, DW_AT_string_length, DW_AT_common_reference, DW_AT_comp_dir, DW_AT_const_value,
    DW_AT_containing_type, DW_AT_default_value, DW_AT_friends, DW_AT_inline, DW_AT_is_optional,
    DW_AT_lower_bound, DW_AT_program, DW_AT_private, DW_AT_producer, DW_AT_protected,
    DW_AT_prototyped, DW_AT_public, DW_AT_pure_virtual, DW_AT_return_addr, DW_AT_specification_v1,
    DW_AT_start_scope, DW_AT_bit_stride, DW_AT_upper_bound, DW_AT_virtual, DW_AT_abstract_origin,
    DW_AT_accessibility, DW_AT_address_class, DW_AT_artificial, DW_AT_base_types,
    DW_AT_calling_convention, DW_AT_count, DW_AT_data_member_location, DW_AT_decl_column,
    DW_AT_decl_file, DW_AT_decl_line, DW_AT_declaration, DW_AT_discr_list, DW_AT_encoding,
    DW_AT_external, DW_AT_frame_base, DW_AT_friend, DW_AT_identifier_case, DW_AT_macro_info,
    DW_AT_namelist_item, DW_AT_priority, DW_AT_segment, DW_AT_specification, DW_AT_static_link,
    DW_AT_type, DW_AT_use_location, DW_AT_variable_parameter, DW_AT_virtuality,
    DW_AT_vtable_elem_location, DW_AT_allocated, DW_AT_associated, DW_AT_data_location,
    DW_AT_byte_stride, DW_AT_entry_pc, DW_AT_use_UTF8, DW_AT_extension, DW_AT_ranges,
    DW_AT_trampoline, DW_AT_call_column, DW_AT_call_file, DW_AT_call_line, DW_AT_description,
    DW_AT_binary_scale, DW_AT_decimal_scale, DW_AT_small, DW_AT_decimal_sign, DW_AT_digit_count,
    DW_AT_picture_string, DW_AT_mutable, DW_AT_threads_scaled, DW_AT_explicit, DW_AT_object_pointer,
    DW_AT_endianity, DW_AT_elemental, DW_AT_pure, DW_AT_recursive, DW_AT_signature,
    DW_AT_main_subprogram, DW_AT_data_bit_offset, DW_AT_const_expr, DW_AT_enum_class,
    DW_AT_linkage_name, DW_AT_string_length_bit_size, DW_AT_string_length_byte_size, DW_AT_rank,
    DW_AT_str_offsets_base, DW_AT_addr_base, DW_AT_rnglists_base, DW_AT_dwo_name, DW_AT_reference,
    DW_AT_rvalue_reference, DW_AT_macros, DW_AT_call_all_calls, DW_AT_call_all_source_calls,
    DW_AT_call_all_tail_calls, DW_AT_call_return_pc, DW_AT_call_value, DW_AT_call_origin,
    DW_AT_call_parameter, DW_AT_call_pc, DW_AT_call_tail_call, DW_AT_call_target,
    DW_AT_call_target_clobbered, DW_AT_call_data_location, DW_AT_call_data_value, DW_AT_noreturn,
    DW_AT_alignment, DW_AT_export_symbols, DW_AT_deleted, DW_AT_defaulted, DW_AT_loclists_base,
    DW_AT_lo_user, DW_AT_MIPS_fde, DW_AT_MIPS_loop_begin, DW_AT_MIPS_tail_loop_begin,
    DW_AT_MIPS_epilog_begin, DW_AT_MIPS_loop_unroll_factor, DW_AT_MIPS_software_pipeline_depth,
    DW_AT_MIPS_linkage_name, DW_AT_MIPS_stride, DW_AT_MIPS_abstract_name, DW_AT_MIPS_clone_origin,
    DW_AT_MIPS_has_inlines, DW_AT_MIPS_stride_byte, DW_AT_MIPS_stride_elem, DW_AT_MIPS_ptr_dopetype,
    DW_AT_MIPS_allocatable_dopetype, DW_AT_MIPS_assumed_shape_dopetype, DW_AT_MIPS_assumed_size,
    DW_AT_INTEL_other_endian, DW_AT_sf_names, DW_AT_src_info, DW_AT_mac_info, DW_AT_src_coords,
    DW_AT_body_begin, DW_AT_body_end, DW_AT_GNU_vector, DW_AT_GNU_guarded_by,
    DW_AT_GNU_pt_guarded_by, DW_AT_GNU_guarded, DW_AT_GNU_pt_guarded, DW_AT_GNU_locks_excluded,
    DW_AT_GNU_exclusive_locks_required, DW_AT_GNU_shared_locks_required, DW_AT_GNU_odr_signature,
    DW_AT_GNU_template_name, DW_AT_GNU_call_site_value, DW_AT_GNU_call_site_data_value,
    DW_AT_GNU_call_site_target, DW_AT_GNU_call_site_target_clobbered, DW_AT_GNU_tail_call,
    DW_AT_GNU_all_tail_call_sites, DW_AT_GNU_all_call_sites, DW_AT_GNU_all_source_call_sites,
    DW_AT_GNU_macros, DW_AT_GNU_deleted, DW_AT_GNU_dwo_name, DW_AT_GNU_dwo_id,
    DW_AT_GNU_ranges_base, DW_AT_GNU_addr_base, DW_AT_GNU_pubnames, DW_AT_GNU_pubtypes,
    DW_AT_GNU_discriminator, DW_AT_GNU_locviews, DW_AT_GNU_entry_view, DW_AT_SUN_template,
    DW_AT_SUN_alignment, DW_AT_SUN_vtable, DW_AT_SUN_count_guarantee, DW_AT_SUN_command_line,
    DW_AT_SUN_vbase, DW_AT_SUN_compile_options, DW_AT_SUN_language, DW_AT_SUN_browser_file,
    DW_AT_SUN_vtable_abi, DW_AT_SUN_func_offsets, DW_AT_SUN_cf_kind, DW_AT_SUN_vtable_index,
    DW_AT_SUN_omp_tpriv_addr, DW_AT_SUN_omp_child_func, DW_AT_SUN_func_offset,
    DW_AT_SUN_memop_type_ref, DW_AT_SUN_profile_id, DW_AT_SUN_memop_signature, DW_AT_SUN_obj_dir,
    DW_AT_SUN_obj_file, DW_AT_SUN_original_name, DW_AT_SUN_hwcprof_signature,
    DW_AT_SUN_amd64_parmdump, DW_AT_SUN_part_link_name, DW_AT_SUN_link_name,
    DW_AT_SUN_pass_with_const, DW_AT_SUN_return_with_const, DW_AT_SUN_import_by_name,
    DW_AT_SUN_f90_pointer, DW_AT_SUN_pass_by_ref, DW_AT_SUN_f90_allocatable,
    DW_AT_SUN_f90_assumed_shape_array, DW_AT_SUN_c_vla, DW_AT_SUN_return_value_ptr,
    DW_AT_SUN_dtor_start, DW_AT_SUN_dtor_length, DW_AT_SUN_dtor_state_initial,
    DW_AT_SUN_dtor_state_final, DW_AT_SUN_dtor_state_deltas, DW_AT_SUN_import_by_lname,
    DW_AT_SUN_f90_use_only, DW_AT_SUN_namelist_spec, DW_AT_SUN_is_omp_child_func,
    DW_AT_SUN_fortran_main_alias, DW_AT_SUN_fortran_based, DW_AT_ALTIUM_loclist,
    DW_AT_use_GNAT_descriptive_type, DW_AT_GNAT_descriptive_type, DW_AT_GNU_numerator,
    DW_AT_GNU_denominator, DW_AT_GNU_bias, DW_AT_upc_threads_scaled, DW_AT_PGI_lbase,
    DW_AT_PGI_soffset, DW_AT_PGI_lstride, DW_AT_BORLAND_property_read, DW_AT_BORLAND_property_write,
    DW_AT_BORLAND_property_implements, DW_AT_BORLAND_property_index, DW_AT_BORLAND_property_default,
    DW_AT_BORLAND_Delphi_unit, DW_AT_BORLAND_Delphi_class, DW_AT_BORLAND_Delphi_record,
    DW_AT_BORLAND_Delphi_metaclass, DW_AT_BORLAND_Delphi_constructor,
    DW_AT_BORLAND_Delphi_destructor, DW_AT_BORLAND_Delphi_anonymous_method,
    DW_AT_BORLAND_Delphi_interface, DW_AT_BORLAND_Delphi_ABI, DW_AT_BORLAND_Delphi_return,
    DW_AT_BORLAND_Delphi_frameptr, DW_AT_BORLAND_closure, DW_AT_LLVM_include_path,
    DW_AT_LLVM_config_macros, DW_AT_LLVM_isysroot, DW_AT_APPLE_optimized, DW_AT_APPLE_flags,
    DW_AT_APPLE_isa, DW_AT_APPLE_block, DW_AT_APPLE_major_runtime_vers, DW_AT_APPLE_runtime_class,
    DW_AT_APPLE_omit_frame_ptr, DW_AT_APPLE_property_name, DW_AT_APPLE_property_getter,
    DW_AT_APPLE_property_setter, DW_AT_APPLE_property_attribute, DW_AT_APPLE_objc_complete_type,
    DW_AT_APPLE_property, DW_AT_hi_user,
];

impl DwAt {
    /// Returns the name of this value, such as `DW_AT_name`, or `None` if it has none.
    #[tactic(auto, unfolding(crate::specs::DwAt::attribute_names))]
    pub fn static_string(&self) -> Option<&'static str>
        ensures { option_map (λ s. s.now) result ≡ name_of attribute_names self.now.0 }
    {
        NAMES.find(self.0 as u64)
    }
}

impl fmt::Display for DwAt {
    ghost output = { λ attribute. Some (attribute_text attribute.0) };

    ghost styled_output = { λ attribute spec. Some (padded spec (attribute_text attribute.0)) };

    fn fmt<W: fmt::Write>(&self, f: &mut fmt::Formatter<W>) -> fmt::Result {
        pad_name(f, self.static_string(), "DwAt", self.0 as u64)
    }
}
