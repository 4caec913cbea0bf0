//! The attributes that DWARF 3, 4 and 5 added.

use super::DwAt;

// DWARF 3.

/// Whether the object is allocated.
pub const DW_AT_allocated: DwAt = DwAt(0x4e);
/// Whether a pointer is associated with an object.
pub const DW_AT_associated: DwAt = DwAt(0x4f);
/// Where the object's data is, apart from its descriptor.
pub const DW_AT_data_location: DwAt = DwAt(0x50);
/// The distance between elements, in bytes.
pub const DW_AT_byte_stride: DwAt = DwAt(0x51);
/// The address where the code is entered.
pub const DW_AT_entry_pc: DwAt = DwAt(0x52);
/// Marks a unit whose names are UTF-8.
pub const DW_AT_use_UTF8: DwAt = DwAt(0x53);
/// The earlier part of a namespace.
pub const DW_AT_extension: DwAt = DwAt(0x54);
/// The addresses of code that is not in one piece.
pub const DW_AT_ranges: DwAt = DwAt(0x55);
/// The subroutine that this one passes its call on to.
pub const DW_AT_trampoline: DwAt = DwAt(0x56);
/// The column of the call that was inlined.
pub const DW_AT_call_column: DwAt = DwAt(0x57);
/// The file of the call that was inlined, as an index.
pub const DW_AT_call_file: DwAt = DwAt(0x58);
/// The line of the call that was inlined.
pub const DW_AT_call_line: DwAt = DwAt(0x59);
/// A description in words.
pub const DW_AT_description: DwAt = DwAt(0x5a);
/// The power of two that scales a fixed-point value.
pub const DW_AT_binary_scale: DwAt = DwAt(0x5b);
/// The power of ten that scales a fixed-point value.
pub const DW_AT_decimal_scale: DwAt = DwAt(0x5c);
/// The constant that scales a fixed-point value.
pub const DW_AT_small: DwAt = DwAt(0x5d);
/// How a decimal number has its sign: a `DwDs`.
pub const DW_AT_decimal_sign: DwAt = DwAt(0x5e);
/// How many digits a decimal number has.
pub const DW_AT_digit_count: DwAt = DwAt(0x5f);
/// The COBOL picture of an edited number.
pub const DW_AT_picture_string: DwAt = DwAt(0x60);
/// Marks a member that a `const` object may change.
pub const DW_AT_mutable: DwAt = DwAt(0x61);
/// Marks a UPC bound that is multiplied by the number of threads.
pub const DW_AT_threads_scaled: DwAt = DwAt(0x62);
/// Marks a C++ constructor or conversion declared `explicit`.
pub const DW_AT_explicit: DwAt = DwAt(0x63);
/// The parameter that points to the object, as `this`.
pub const DW_AT_object_pointer: DwAt = DwAt(0x64);
/// The byte order of the data: a `DwEnd`.
pub const DW_AT_endianity: DwAt = DwAt(0x65);
/// Marks a Fortran procedure declared `elemental`.
pub const DW_AT_elemental: DwAt = DwAt(0x66);
/// Marks a procedure declared `pure`.
pub const DW_AT_pure: DwAt = DwAt(0x67);
/// Marks a procedure declared `recursive`.
pub const DW_AT_recursive: DwAt = DwAt(0x68);

// DWARF 4.

/// The signature of a type.
pub const DW_AT_signature: DwAt = DwAt(0x69);
/// Marks the program's main subroutine.
pub const DW_AT_main_subprogram: DwAt = DwAt(0x6a);
/// The distance from the start of the object, in bits.
pub const DW_AT_data_bit_offset: DwAt = DwAt(0x6b);
/// Marks what C++ calls `constexpr`.
pub const DW_AT_const_expr: DwAt = DwAt(0x6c);
/// Marks a scoped enumeration.
pub const DW_AT_enum_class: DwAt = DwAt(0x6d);
/// The name that the linker sees.
pub const DW_AT_linkage_name: DwAt = DwAt(0x6e);

// DWARF 5.

/// The size of a string's length, in bits.
pub const DW_AT_string_length_bit_size: DwAt = DwAt(0x6f);
/// The size of a string's length, in bytes.
pub const DW_AT_string_length_byte_size: DwAt = DwAt(0x70);
/// The rank of an array, computed as the program runs.
pub const DW_AT_rank: DwAt = DwAt(0x71);
/// Where the unit's string offsets begin in `.debug_str_offsets`.
pub const DW_AT_str_offsets_base: DwAt = DwAt(0x72);
/// Where the unit's addresses begin in `.debug_addr`.
pub const DW_AT_addr_base: DwAt = DwAt(0x73);
/// Where the unit's range list offsets begin in `.debug_rnglists`.
pub const DW_AT_rnglists_base: DwAt = DwAt(0x74);
/// The name of the split file.
pub const DW_AT_dwo_name: DwAt = DwAt(0x76);
/// Marks a member function for lvalues only.
pub const DW_AT_reference: DwAt = DwAt(0x77);
/// Marks a member function for rvalues only.
pub const DW_AT_rvalue_reference: DwAt = DwAt(0x78);
/// The unit's macros, in `.debug_macro`.
pub const DW_AT_macros: DwAt = DwAt(0x79);
/// Marks a subroutine whose calls are all described, tail calls included.
pub const DW_AT_call_all_calls: DwAt = DwAt(0x7a);
/// The same, and also calls that were inlined or dropped.
pub const DW_AT_call_all_source_calls: DwAt = DwAt(0x7b);
/// Marks a subroutine whose tail calls are all described.
pub const DW_AT_call_all_tail_calls: DwAt = DwAt(0x7c);
/// The address after the call.
pub const DW_AT_call_return_pc: DwAt = DwAt(0x7d);
/// The value of a parameter at the call.
pub const DW_AT_call_value: DwAt = DwAt(0x7e);
/// The subroutine that is called.
pub const DW_AT_call_origin: DwAt = DwAt(0x7f);
/// The parameter that a call's value is for.
pub const DW_AT_call_parameter: DwAt = DwAt(0x80);
/// The address of the call.
pub const DW_AT_call_pc: DwAt = DwAt(0x81);
/// Marks a tail call.
pub const DW_AT_call_tail_call: DwAt = DwAt(0x82);
/// Where the called address is.
pub const DW_AT_call_target: DwAt = DwAt(0x83);
/// The same, if the call may change it.
pub const DW_AT_call_target_clobbered: DwAt = DwAt(0x84);
/// Where the data is that a parameter points to, at the call.
pub const DW_AT_call_data_location: DwAt = DwAt(0x85);
/// The value of that data, at the call.
pub const DW_AT_call_data_value: DwAt = DwAt(0x86);
/// Marks a subroutine that does not return.
pub const DW_AT_noreturn: DwAt = DwAt(0x87);
/// The alignment, in bytes.
pub const DW_AT_alignment: DwAt = DwAt(0x88);
/// Marks a namespace whose names hold in the scope around it.
pub const DW_AT_export_symbols: DwAt = DwAt(0x89);
/// Marks a member function declared as deleted.
pub const DW_AT_deleted: DwAt = DwAt(0x8a);
/// Where a member function is defaulted: a `DwDefaulted`.
pub const DW_AT_defaulted: DwAt = DwAt(0x8b);
/// Where the unit's location list offsets begin in `.debug_loclists`.
pub const DW_AT_loclists_base: DwAt = DwAt(0x8c);
