//! Attributes that Sun added.

use super::DwAt;

/// The template that this entry comes from.
pub const DW_AT_SUN_template: DwAt = DwAt(0x2201);
/// The alignment.
pub const DW_AT_SUN_alignment: DwAt = DwAt(0x2202);
/// The table of virtual functions.
pub const DW_AT_SUN_vtable: DwAt = DwAt(0x2203);
/// A promise on a count.
pub const DW_AT_SUN_count_guarantee: DwAt = DwAt(0x2204);
/// The command line of the compiler.
pub const DW_AT_SUN_command_line: DwAt = DwAt(0x2205);
/// The virtual base class.
pub const DW_AT_SUN_vbase: DwAt = DwAt(0x2206);
/// The options of the compiler.
pub const DW_AT_SUN_compile_options: DwAt = DwAt(0x2207);
/// The source language.
pub const DW_AT_SUN_language: DwAt = DwAt(0x2208);
/// The file for the source browser.
pub const DW_AT_SUN_browser_file: DwAt = DwAt(0x2209);
/// The layout of the table of virtual functions.
pub const DW_AT_SUN_vtable_abi: DwAt = DwAt(0x2210);
/// The offsets of functions.
pub const DW_AT_SUN_func_offsets: DwAt = DwAt(0x2211);
/// The kind of a function that the compiler made.
pub const DW_AT_SUN_cf_kind: DwAt = DwAt(0x2212);
/// The place in the table of virtual functions.
pub const DW_AT_SUN_vtable_index: DwAt = DwAt(0x2213);
/// The address of data that is private to an OpenMP thread.
pub const DW_AT_SUN_omp_tpriv_addr: DwAt = DwAt(0x2214);
/// The body that OpenMP took out of a function.
pub const DW_AT_SUN_omp_child_func: DwAt = DwAt(0x2215);
/// The offset of a function.
pub const DW_AT_SUN_func_offset: DwAt = DwAt(0x2216);
/// The type of a memory operation.
pub const DW_AT_SUN_memop_type_ref: DwAt = DwAt(0x2217);
/// A number for profiles.
pub const DW_AT_SUN_profile_id: DwAt = DwAt(0x2218);
/// A signature of the memory operations.
pub const DW_AT_SUN_memop_signature: DwAt = DwAt(0x2219);
/// The directory of the object file.
pub const DW_AT_SUN_obj_dir: DwAt = DwAt(0x2220);
/// The object file.
pub const DW_AT_SUN_obj_file: DwAt = DwAt(0x2221);
/// The name before it was changed.
pub const DW_AT_SUN_original_name: DwAt = DwAt(0x2222);
/// A signature for profiles by hardware counters.
pub const DW_AT_SUN_hwcprof_signature: DwAt = DwAt(0x2223);
/// Where parameters were saved, on AMD64.
pub const DW_AT_SUN_amd64_parmdump: DwAt = DwAt(0x2224);
/// A part of the name that the linker sees.
pub const DW_AT_SUN_part_link_name: DwAt = DwAt(0x2225);
/// The name that the linker sees.
pub const DW_AT_SUN_link_name: DwAt = DwAt(0x2226);
/// Marks a parameter that is passed as constant.
pub const DW_AT_SUN_pass_with_const: DwAt = DwAt(0x2227);
/// Marks a result that is returned as constant.
pub const DW_AT_SUN_return_with_const: DwAt = DwAt(0x2228);
/// Marks an import by name.
pub const DW_AT_SUN_import_by_name: DwAt = DwAt(0x2229);
/// Marks a Fortran 90 pointer.
pub const DW_AT_SUN_f90_pointer: DwAt = DwAt(0x222a);
/// Marks a parameter that is passed by reference.
pub const DW_AT_SUN_pass_by_ref: DwAt = DwAt(0x222b);
/// Marks a Fortran 90 allocatable.
pub const DW_AT_SUN_f90_allocatable: DwAt = DwAt(0x222c);
/// Marks a Fortran 90 array of assumed shape.
pub const DW_AT_SUN_f90_assumed_shape_array: DwAt = DwAt(0x222d);
/// Marks a C array of variable length.
pub const DW_AT_SUN_c_vla: DwAt = DwAt(0x222e);
/// Marks a result that is returned through a pointer.
pub const DW_AT_SUN_return_value_ptr: DwAt = DwAt(0x2230);
/// Where a destructor's range begins.
pub const DW_AT_SUN_dtor_start: DwAt = DwAt(0x2231);
/// The length of a destructor's range.
pub const DW_AT_SUN_dtor_length: DwAt = DwAt(0x2232);
/// The state before a destructor's range.
pub const DW_AT_SUN_dtor_state_initial: DwAt = DwAt(0x2233);
/// The state after a destructor's range.
pub const DW_AT_SUN_dtor_state_final: DwAt = DwAt(0x2234);
/// The changes of state in a destructor's range.
pub const DW_AT_SUN_dtor_state_deltas: DwAt = DwAt(0x2235);
/// Marks an import by the linker's name.
pub const DW_AT_SUN_import_by_lname: DwAt = DwAt(0x2236);
/// Marks a Fortran 90 `use` with `only`.
pub const DW_AT_SUN_f90_use_only: DwAt = DwAt(0x2237);
/// The specification of a namelist.
pub const DW_AT_SUN_namelist_spec: DwAt = DwAt(0x2238);
/// Marks the body that OpenMP took out of a function.
pub const DW_AT_SUN_is_omp_child_func: DwAt = DwAt(0x2239);
/// Marks the other name of a Fortran main program.
pub const DW_AT_SUN_fortran_main_alias: DwAt = DwAt(0x223a);
/// Marks a Fortran based variable.
pub const DW_AT_SUN_fortran_based: DwAt = DwAt(0x223b);
