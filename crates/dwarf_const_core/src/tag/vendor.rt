//! Tags that vendors added, among the values that the standard leaves to them.

use super::DwTag;

// SGI and MIPS.

/// A loop.
pub const DW_TAG_MIPS_loop: DwTag = DwTag(0x4081);

// HP.

/// A descriptor of an array.
pub const DW_TAG_HP_array_descriptor: DwTag = DwTag(0x4090);
/// A field of a BLISS structure.
pub const DW_TAG_HP_Bliss_field: DwTag = DwTag(0x4091);
/// A set of such fields.
pub const DW_TAG_HP_Bliss_field_set: DwTag = DwTag(0x4092);

// GNU.

/// A label of a Fortran 77 `FORMAT` statement.
pub const DW_TAG_format_label: DwTag = DwTag(0x4101);
/// A C++ function template.
pub const DW_TAG_function_template: DwTag = DwTag(0x4102);
/// A C++ class template.
pub const DW_TAG_class_template: DwTag = DwTag(0x4103);
/// The beginning of an included file, for duplicates to be dropped.
pub const DW_TAG_GNU_BINCL: DwTag = DwTag(0x4104);
/// The end of an included file.
pub const DW_TAG_GNU_EINCL: DwTag = DwTag(0x4105);
/// A template argument that is a template.
pub const DW_TAG_GNU_template_template_param: DwTag = DwTag(0x4106);
/// A pack of template parameters.
pub const DW_TAG_GNU_template_parameter_pack: DwTag = DwTag(0x4107);
/// A pack of function parameters.
pub const DW_TAG_GNU_formal_parameter_pack: DwTag = DwTag(0x4108);
/// A call, before DWARF 5 had `DW_TAG_call_site`.
pub const DW_TAG_GNU_call_site: DwTag = DwTag(0x4109);
/// A parameter at a call, before DWARF 5 had a tag for it.
pub const DW_TAG_GNU_call_site_parameter: DwTag = DwTag(0x410a);

// Apple.

/// An Objective-C property.
pub const DW_TAG_APPLE_property: DwTag = DwTag(0x4200);

// Sun.

/// A function template.
pub const DW_TAG_SUN_function_template: DwTag = DwTag(0x4201);
/// A class template.
pub const DW_TAG_SUN_class_template: DwTag = DwTag(0x4202);
/// A structure template.
pub const DW_TAG_SUN_struct_template: DwTag = DwTag(0x4203);
/// A union template.
pub const DW_TAG_SUN_union_template: DwTag = DwTag(0x4204);
/// A base class of a base class.
pub const DW_TAG_SUN_indirect_inheritance: DwTag = DwTag(0x4205);
/// Flags on pieces of code.
pub const DW_TAG_SUN_codeflags: DwTag = DwTag(0x4206);
/// What is known of a memory operation.
pub const DW_TAG_SUN_memop_info: DwTag = DwTag(0x4207);
/// The body that OpenMP took out of a function.
pub const DW_TAG_SUN_omp_child_func: DwTag = DwTag(0x4208);
/// A descriptor of a type, for use as the program runs.
pub const DW_TAG_SUN_rtti_descriptor: DwTag = DwTag(0x4209);
/// What is known of a destructor.
pub const DW_TAG_SUN_dtor_info: DwTag = DwTag(0x420a);
/// A destructor.
pub const DW_TAG_SUN_dtor: DwTag = DwTag(0x420b);
/// A Fortran 90 interface.
pub const DW_TAG_SUN_f90_interface: DwTag = DwTag(0x420c);
/// A structure of VAX Fortran.
pub const DW_TAG_SUN_fortran_vax_structure: DwTag = DwTag(0x420d);

// Altium.

/// A type of circular buffers.
pub const DW_TAG_ALTIUM_circ_type: DwTag = DwTag(0x5101);
/// A type of circular buffers of the kind `mwa`.
pub const DW_TAG_ALTIUM_mwa_circ_type: DwTag = DwTag(0x5102);
/// A type whose addresses add with the carry reversed.
pub const DW_TAG_ALTIUM_rev_carry_type: DwTag = DwTag(0x5103);
/// A form of a type that is in read-only memory.
pub const DW_TAG_ALTIUM_rom: DwTag = DwTag(0x5111);

// Unified Parallel C.

/// A `shared` form of a type.
pub const DW_TAG_upc_shared_type: DwTag = DwTag(0x8765);
/// A `strict` form of a type.
pub const DW_TAG_upc_strict_type: DwTag = DwTag(0x8766);
/// A `relaxed` form of a type.
pub const DW_TAG_upc_relaxed_type: DwTag = DwTag(0x8767);

// The Portland Group.

/// A type of kanji text.
pub const DW_TAG_PGI_kanji_type: DwTag = DwTag(0xa000);
/// A Fortran interface block.
pub const DW_TAG_PGI_interface_block: DwTag = DwTag(0xa020);

// Borland.

/// A property of a Delphi class.
pub const DW_TAG_BORLAND_property: DwTag = DwTag(0xb000);
/// A Delphi string type.
pub const DW_TAG_BORLAND_Delphi_string: DwTag = DwTag(0xb001);
/// A Delphi array that can grow.
pub const DW_TAG_BORLAND_Delphi_dynamic_array: DwTag = DwTag(0xb002);
/// A Delphi set type.
pub const DW_TAG_BORLAND_Delphi_set: DwTag = DwTag(0xb003);
/// A Delphi variant type.
pub const DW_TAG_BORLAND_Delphi_variant: DwTag = DwTag(0xb004);
