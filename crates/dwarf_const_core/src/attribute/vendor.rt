//! Attributes that other vendors added, among the values that the standard leaves to them.

use super::DwAt;

// SGI and MIPS.

/// The frame description of the subroutine.
pub const DW_AT_MIPS_fde: DwAt = DwAt(0x2001);
/// Where a loop begins.
pub const DW_AT_MIPS_loop_begin: DwAt = DwAt(0x2002);
/// Where the rest of an unrolled loop begins.
pub const DW_AT_MIPS_tail_loop_begin: DwAt = DwAt(0x2003);
/// Where the epilogue begins.
pub const DW_AT_MIPS_epilog_begin: DwAt = DwAt(0x2004);
/// How many times a loop was unrolled.
pub const DW_AT_MIPS_loop_unroll_factor: DwAt = DwAt(0x2005);
/// How deep a loop was pipelined.
pub const DW_AT_MIPS_software_pipeline_depth: DwAt = DwAt(0x2006);
/// The name that the linker sees, before DWARF 4 had an attribute for it.
pub const DW_AT_MIPS_linkage_name: DwAt = DwAt(0x2007);
/// The distance between elements.
pub const DW_AT_MIPS_stride: DwAt = DwAt(0x2008);
/// The name of the abstract entry.
pub const DW_AT_MIPS_abstract_name: DwAt = DwAt(0x2009);
/// The subroutine that this one is a clone of.
pub const DW_AT_MIPS_clone_origin: DwAt = DwAt(0x200a);
/// Marks a subroutine with inlined calls.
pub const DW_AT_MIPS_has_inlines: DwAt = DwAt(0x200b);
/// The distance between elements, in bytes.
pub const DW_AT_MIPS_stride_byte: DwAt = DwAt(0x200c);
/// The distance between elements, in elements.
pub const DW_AT_MIPS_stride_elem: DwAt = DwAt(0x200d);
/// The descriptor of a Fortran pointer.
pub const DW_AT_MIPS_ptr_dopetype: DwAt = DwAt(0x200e);
/// The descriptor of an allocatable array.
pub const DW_AT_MIPS_allocatable_dopetype: DwAt = DwAt(0x200f);
/// The descriptor of an array of assumed shape.
pub const DW_AT_MIPS_assumed_shape_dopetype: DwAt = DwAt(0x2010);
/// Marks an array of assumed size.
pub const DW_AT_MIPS_assumed_size: DwAt = DwAt(0x2011);

// Intel.

/// Marks data of the other byte order.
pub const DW_AT_INTEL_other_endian: DwAt = DwAt(0x2026);

// GNU.

/// The file names of the older macro information.
pub const DW_AT_sf_names: DwAt = DwAt(0x2101);
/// The older line information of the unit.
pub const DW_AT_src_info: DwAt = DwAt(0x2102);
/// The older macro information of the unit.
pub const DW_AT_mac_info: DwAt = DwAt(0x2103);
/// The older place in the source.
pub const DW_AT_src_coords: DwAt = DwAt(0x2104);
/// Where the body of a subroutine begins.
pub const DW_AT_body_begin: DwAt = DwAt(0x2105);
/// Where the body of a subroutine ends.
pub const DW_AT_body_end: DwAt = DwAt(0x2106);
/// Marks an array that is a vector.
pub const DW_AT_GNU_vector: DwAt = DwAt(0x2107);
/// The lock that guards a variable.
pub const DW_AT_GNU_guarded_by: DwAt = DwAt(0x2108);
/// The lock that guards what a pointer points to.
pub const DW_AT_GNU_pt_guarded_by: DwAt = DwAt(0x2109);
/// Marks a variable that some lock guards.
pub const DW_AT_GNU_guarded: DwAt = DwAt(0x210a);
/// Marks a pointer to what some lock guards.
pub const DW_AT_GNU_pt_guarded: DwAt = DwAt(0x210b);
/// The locks that a function must be called without.
pub const DW_AT_GNU_locks_excluded: DwAt = DwAt(0x210c);
/// The locks that a caller must hold alone.
pub const DW_AT_GNU_exclusive_locks_required: DwAt = DwAt(0x210d);
/// The locks that a caller must hold, maybe with others.
pub const DW_AT_GNU_shared_locks_required: DwAt = DwAt(0x210e);
/// A digest of a type, to compare its definitions across units.
pub const DW_AT_GNU_odr_signature: DwAt = DwAt(0x210f);
/// The name of a template that is an argument.
pub const DW_AT_GNU_template_name: DwAt = DwAt(0x2110);
/// The value of a parameter at a call.
pub const DW_AT_GNU_call_site_value: DwAt = DwAt(0x2111);
/// The value of the data that a parameter points to, at a call.
pub const DW_AT_GNU_call_site_data_value: DwAt = DwAt(0x2112);
/// Where the called address is.
pub const DW_AT_GNU_call_site_target: DwAt = DwAt(0x2113);
/// The same, if the call may change it.
pub const DW_AT_GNU_call_site_target_clobbered: DwAt = DwAt(0x2114);
/// Marks a tail call.
pub const DW_AT_GNU_tail_call: DwAt = DwAt(0x2115);
/// Marks a subroutine whose tail calls are all described.
pub const DW_AT_GNU_all_tail_call_sites: DwAt = DwAt(0x2116);
/// Marks a subroutine whose calls are all described.
pub const DW_AT_GNU_all_call_sites: DwAt = DwAt(0x2117);
/// The same, and also calls that were inlined or dropped.
pub const DW_AT_GNU_all_source_call_sites: DwAt = DwAt(0x2118);
/// The unit's macros, in `.debug_macro`.
pub const DW_AT_GNU_macros: DwAt = DwAt(0x2119);
/// Marks a member function declared as deleted.
pub const DW_AT_GNU_deleted: DwAt = DwAt(0x211a);
/// The name of the split file.
pub const DW_AT_GNU_dwo_name: DwAt = DwAt(0x2130);
/// The number that ties a unit to its split file.
pub const DW_AT_GNU_dwo_id: DwAt = DwAt(0x2131);
/// Where the unit's ranges begin in `.debug_ranges`.
pub const DW_AT_GNU_ranges_base: DwAt = DwAt(0x2132);
/// Where the unit's addresses begin in `.debug_addr`.
pub const DW_AT_GNU_addr_base: DwAt = DwAt(0x2133);
/// Marks a unit with an index of public names.
pub const DW_AT_GNU_pubnames: DwAt = DwAt(0x2134);
/// Marks a unit with an index of public types.
pub const DW_AT_GNU_pubtypes: DwAt = DwAt(0x2135);
/// Distinguishes blocks on the same line.
pub const DW_AT_GNU_discriminator: DwAt = DwAt(0x2136);
/// The view numbers that go with a location list.
pub const DW_AT_GNU_locviews: DwAt = DwAt(0x2137);
/// The view number at the entry of inlined code.
pub const DW_AT_GNU_entry_view: DwAt = DwAt(0x2138);

// Altium.

/// A location list.
pub const DW_AT_ALTIUM_loclist: DwAt = DwAt(0x2300);

// GNAT.

/// Marks a unit whose Ada types have descriptive types.
pub const DW_AT_use_GNAT_descriptive_type: DwAt = DwAt(0x2301);
/// The type whose name describes this Ada type.
pub const DW_AT_GNAT_descriptive_type: DwAt = DwAt(0x2302);

// GNU, for fixed-point and biased numbers.

/// The numerator of a fixed-point number's scale.
pub const DW_AT_GNU_numerator: DwAt = DwAt(0x2303);
/// The denominator of a fixed-point number's scale.
pub const DW_AT_GNU_denominator: DwAt = DwAt(0x2304);
/// What is to be added to a biased number.
pub const DW_AT_GNU_bias: DwAt = DwAt(0x2305);

// Unified Parallel C.

/// Marks a bound that is multiplied by the number of threads.
pub const DW_AT_upc_threads_scaled: DwAt = DwAt(0x3210);

// The Portland Group.

/// The base of an array, for its strides.
pub const DW_AT_PGI_lbase: DwAt = DwAt(0x3a00);
/// The offset of an array's section.
pub const DW_AT_PGI_soffset: DwAt = DwAt(0x3a01);
/// The distance between elements.
pub const DW_AT_PGI_lstride: DwAt = DwAt(0x3a02);

// Borland.

/// What reads a property.
pub const DW_AT_BORLAND_property_read: DwAt = DwAt(0x3b11);
/// What writes a property.
pub const DW_AT_BORLAND_property_write: DwAt = DwAt(0x3b12);
/// The interface that a property implements.
pub const DW_AT_BORLAND_property_implements: DwAt = DwAt(0x3b13);
/// The index of a property.
pub const DW_AT_BORLAND_property_index: DwAt = DwAt(0x3b14);
/// The default of a property.
pub const DW_AT_BORLAND_property_default: DwAt = DwAt(0x3b15);
/// Marks a Delphi unit.
pub const DW_AT_BORLAND_Delphi_unit: DwAt = DwAt(0x3b20);
/// Marks a Delphi class.
pub const DW_AT_BORLAND_Delphi_class: DwAt = DwAt(0x3b21);
/// Marks a Delphi record.
pub const DW_AT_BORLAND_Delphi_record: DwAt = DwAt(0x3b22);
/// Marks a Delphi class reference.
pub const DW_AT_BORLAND_Delphi_metaclass: DwAt = DwAt(0x3b23);
/// Marks a Delphi constructor.
pub const DW_AT_BORLAND_Delphi_constructor: DwAt = DwAt(0x3b24);
/// Marks a Delphi destructor.
pub const DW_AT_BORLAND_Delphi_destructor: DwAt = DwAt(0x3b25);
/// Marks a Delphi anonymous method.
pub const DW_AT_BORLAND_Delphi_anonymous_method: DwAt = DwAt(0x3b26);
/// Marks a Delphi interface.
pub const DW_AT_BORLAND_Delphi_interface: DwAt = DwAt(0x3b27);
/// The calling rules of a Delphi method.
pub const DW_AT_BORLAND_Delphi_ABI: DwAt = DwAt(0x3b28);
/// Marks Delphi's variable for the result.
pub const DW_AT_BORLAND_Delphi_return: DwAt = DwAt(0x3b29);
/// The frame pointer that a Delphi routine is given.
pub const DW_AT_BORLAND_Delphi_frameptr: DwAt = DwAt(0x3b30);
/// Marks a closure.
pub const DW_AT_BORLAND_closure: DwAt = DwAt(0x3b31);

// LLVM, for modules.

/// The directories to search for a module.
pub const DW_AT_LLVM_include_path: DwAt = DwAt(0x3e00);
/// The macros that a module was built with.
pub const DW_AT_LLVM_config_macros: DwAt = DwAt(0x3e01);
/// The root of the system's headers.
pub const DW_AT_LLVM_isysroot: DwAt = DwAt(0x3e02);

// Apple.

/// Marks a unit that was optimized.
pub const DW_AT_APPLE_optimized: DwAt = DwAt(0x3fe1);
/// The flags of the compiler.
pub const DW_AT_APPLE_flags: DwAt = DwAt(0x3fe2);
/// The instruction set.
pub const DW_AT_APPLE_isa: DwAt = DwAt(0x3fe3);
/// Marks a block, which is Apple's closure.
pub const DW_AT_APPLE_block: DwAt = DwAt(0x3fe4);
/// The version of the Objective-C runtime.
pub const DW_AT_APPLE_major_runtime_vers: DwAt = DwAt(0x3fe5);
/// The runtime that a class belongs to.
pub const DW_AT_APPLE_runtime_class: DwAt = DwAt(0x3fe6);
/// Marks a subroutine with no frame pointer.
pub const DW_AT_APPLE_omit_frame_ptr: DwAt = DwAt(0x3fe7);
/// The name of an Objective-C property.
pub const DW_AT_APPLE_property_name: DwAt = DwAt(0x3fe8);
/// The method that reads a property.
pub const DW_AT_APPLE_property_getter: DwAt = DwAt(0x3fe9);
/// The method that writes a property.
pub const DW_AT_APPLE_property_setter: DwAt = DwAt(0x3fea);
/// The attributes of a property, as bits.
pub const DW_AT_APPLE_property_attribute: DwAt = DwAt(0x3feb);
/// Marks the whole definition of an Objective-C class.
pub const DW_AT_APPLE_objc_complete_type: DwAt = DwAt(0x3fec);
/// The property that an instance variable belongs to.
pub const DW_AT_APPLE_property: DwAt = DwAt(0x3fed);
