//! Tags: what kind of thing an entry describes.

ghost use Rattle.std.specs.Prelude.{◌≡◌, Some, option_map};
ghost use Rattle.std.specs.Fmt.{padded};
ghost use Rattle.dwarf_const_core.specs.Names.{name_of};
ghost use Rattle.dwarf_const_core.specs.DwTag.{tag_names, tag_text};

use crate::names::{Names, pad_name};
use std::fmt;
use vendor::*;

pub mod vendor;

/// What kind of thing an entry describes (DWARF 5, section 7.5.3).
///
/// `Display` writes the name, or `Unknown DwTag: 4660` for a value without one, and honours width,
/// precision, fill and alignment.
#[derive(Debug, Clone, Copy, PartialEq, Eq, Hash, PartialOrd, Ord)]
pub struct DwTag(pub u16);

// No tag: the entry that closes a list of children has none.

/// The tag of an entry that has none.
pub const DW_TAG_null: DwTag = DwTag(0x00);

// DWARF 1, withdrawn since.

/// A subroutine that other units see.
pub const DW_TAG_global_subroutine: DwTag = DwTag(0x06);
/// A variable that other units see.
pub const DW_TAG_global_variable: DwTag = DwTag(0x07);
/// A variable of a block or a subroutine.
pub const DW_TAG_local_variable: DwTag = DwTag(0x0c);
/// A subroutine of this unit only.
pub const DW_TAG_subroutine: DwTag = DwTag(0x14);

// DWARF 2.

/// An array type.
pub const DW_TAG_array_type: DwTag = DwTag(0x01);
/// A class type.
pub const DW_TAG_class_type: DwTag = DwTag(0x02);
/// A further entry of a subroutine.
pub const DW_TAG_entry_point: DwTag = DwTag(0x03);
/// An enumeration type.
pub const DW_TAG_enumeration_type: DwTag = DwTag(0x04);
/// A parameter of a subroutine.
pub const DW_TAG_formal_parameter: DwTag = DwTag(0x05);
/// A declaration brought in from another scope.
pub const DW_TAG_imported_declaration: DwTag = DwTag(0x08);
/// A label in the code.
pub const DW_TAG_label: DwTag = DwTag(0x0a);
/// A block with declarations of its own.
pub const DW_TAG_lexical_block: DwTag = DwTag(0x0b);
/// A data member of a structure, class or union.
pub const DW_TAG_member: DwTag = DwTag(0x0d);
/// A pointer type.
pub const DW_TAG_pointer_type: DwTag = DwTag(0x0f);
/// A reference type; in C++ one to an lvalue.
pub const DW_TAG_reference_type: DwTag = DwTag(0x10);
/// A compilation unit.
pub const DW_TAG_compile_unit: DwTag = DwTag(0x11);
/// A type of strings.
pub const DW_TAG_string_type: DwTag = DwTag(0x12);
/// A structure type.
pub const DW_TAG_structure_type: DwTag = DwTag(0x13);
/// The type of a subroutine.
pub const DW_TAG_subroutine_type: DwTag = DwTag(0x15);
/// Another name for a type.
pub const DW_TAG_typedef: DwTag = DwTag(0x16);
/// A union type.
pub const DW_TAG_union_type: DwTag = DwTag(0x17);
/// Parameters beyond the named ones, as `...` in C.
pub const DW_TAG_unspecified_parameters: DwTag = DwTag(0x18);
/// One alternative of a variant part.
pub const DW_TAG_variant: DwTag = DwTag(0x19);
/// A Fortran common block.
pub const DW_TAG_common_block: DwTag = DwTag(0x1a);
/// A Fortran common block, in a unit that uses it.
pub const DW_TAG_common_inclusion: DwTag = DwTag(0x1b);
/// A base class, seen from the class that has it.
pub const DW_TAG_inheritance: DwTag = DwTag(0x1c);
/// One inlined copy of a subroutine.
pub const DW_TAG_inlined_subroutine: DwTag = DwTag(0x1d);
/// A module, as in Modula-2 or Fortran.
pub const DW_TAG_module: DwTag = DwTag(0x1e);
/// A pointer to a member of a class.
pub const DW_TAG_ptr_to_member_type: DwTag = DwTag(0x1f);
/// A set type, as in Pascal.
pub const DW_TAG_set_type: DwTag = DwTag(0x20);
/// A range of values, as an array's index has.
pub const DW_TAG_subrange_type: DwTag = DwTag(0x21);
/// A `with` statement of Pascal or Modula-2.
pub const DW_TAG_with_stmt: DwTag = DwTag(0x22);
/// A C++ declaration that changes a member's access.
pub const DW_TAG_access_declaration: DwTag = DwTag(0x23);
/// A type that is not built from others.
pub const DW_TAG_base_type: DwTag = DwTag(0x24);
/// A C++ block that handles an exception.
pub const DW_TAG_catch_block: DwTag = DwTag(0x25);
/// A `const` form of a type.
pub const DW_TAG_const_type: DwTag = DwTag(0x26);
/// A named constant.
pub const DW_TAG_constant: DwTag = DwTag(0x27);
/// One named value of an enumeration.
pub const DW_TAG_enumerator: DwTag = DwTag(0x28);
/// A file type, as in Pascal.
pub const DW_TAG_file_type: DwTag = DwTag(0x29);
/// A friend of a C++ class.
pub const DW_TAG_friend: DwTag = DwTag(0x2a);
/// A Fortran namelist.
pub const DW_TAG_namelist: DwTag = DwTag(0x2b);
/// One variable of a Fortran namelist.
pub const DW_TAG_namelist_item: DwTag = DwTag(0x2c);
/// A packed form of a type, as in Pascal or Ada.
pub const DW_TAG_packed_type: DwTag = DwTag(0x2d);
/// A subroutine or function.
pub const DW_TAG_subprogram: DwTag = DwTag(0x2e);
/// A type argument of a template.
pub const DW_TAG_template_type_parameter: DwTag = DwTag(0x2f);
/// A value argument of a template.
pub const DW_TAG_template_value_parameter: DwTag = DwTag(0x30);
/// An exception type that a subroutine may throw.
pub const DW_TAG_thrown_type: DwTag = DwTag(0x31);
/// A C++ `try` block.
pub const DW_TAG_try_block: DwTag = DwTag(0x32);
/// The variants of a record, chosen by a discriminant.
pub const DW_TAG_variant_part: DwTag = DwTag(0x33);
/// A variable.
pub const DW_TAG_variable: DwTag = DwTag(0x34);
/// A `volatile` form of a type.
pub const DW_TAG_volatile_type: DwTag = DwTag(0x35);

// DWARF 3.

/// An expression of the debug information that others call.
pub const DW_TAG_dwarf_procedure: DwTag = DwTag(0x36);
/// A `restrict` form of a C pointer type.
pub const DW_TAG_restrict_type: DwTag = DwTag(0x37);
/// An interface, as in Java.
pub const DW_TAG_interface_type: DwTag = DwTag(0x38);
/// A namespace.
pub const DW_TAG_namespace: DwTag = DwTag(0x39);
/// A module or namespace whose names are brought in.
pub const DW_TAG_imported_module: DwTag = DwTag(0x3a);
/// A type that the language names and leaves open, as `void`.
pub const DW_TAG_unspecified_type: DwTag = DwTag(0x3b);
/// A part of a unit's information that other units import.
pub const DW_TAG_partial_unit: DwTag = DwTag(0x3c);
/// The place where a partial unit is imported.
pub const DW_TAG_imported_unit: DwTag = DwTag(0x3d);
/// A COBOL condition name.
pub const DW_TAG_condition: DwTag = DwTag(0x3f);
/// A `shared` form of a UPC type.
pub const DW_TAG_shared_type: DwTag = DwTag(0x40);

// DWARF 4.

/// A unit that holds one type, named by its signature.
pub const DW_TAG_type_unit: DwTag = DwTag(0x41);
/// A C++ reference to an rvalue.
pub const DW_TAG_rvalue_reference_type: DwTag = DwTag(0x42);
/// A C++ template that names other types.
pub const DW_TAG_template_alias: DwTag = DwTag(0x43);

// DWARF 5.

/// A Fortran coarray.
pub const DW_TAG_coarray_type: DwTag = DwTag(0x44);
/// A subrange of an array whose rank is known only as it runs.
pub const DW_TAG_generic_subrange: DwTag = DwTag(0x45);
/// A type whose layout is computed as the program runs.
pub const DW_TAG_dynamic_type: DwTag = DwTag(0x46);
/// An `_Atomic` form of a C type.
pub const DW_TAG_atomic_type: DwTag = DwTag(0x47);
/// A call, seen from the caller.
pub const DW_TAG_call_site: DwTag = DwTag(0x48);
/// What one parameter is at a call.
pub const DW_TAG_call_site_parameter: DwTag = DwTag(0x49);
/// The unit that remains in the program if its details are in a split file.
pub const DW_TAG_skeleton_unit: DwTag = DwTag(0x4a);
/// An `immutable` form of a D type.
pub const DW_TAG_immutable_type: DwTag = DwTag(0x4b);

// The values that vendors may use.

/// The first value open to vendors.
pub const DW_TAG_lo_user: DwTag = DwTag(0x4080);
/// The last value open to vendors.
pub const DW_TAG_hi_user: DwTag = DwTag(0xffff);

// tools/constants writes this list from the declarations.
#[rattlefmt::skip]
const NAMES: Names = names![
    DW_TAG_null, DW_TAG_array_type, DW_TAG_class_type, DW_TAG_entry_point, DW_TAG_enumeration_type,
    DW_TAG_formal_parameter, DW_TAG_global_subroutine, DW_TAG_global_variable,
    DW_TAG_imported_declaration, DW_TAG_label, DW_TAG_lexical_block, DW_TAG_local_variable,
    DW_TAG_member, DW_TAG_pointer_type, DW_TAG_reference_type, DW_TAG_compile_unit,
    DW_TAG_string_type, DW_TAG_structure_type, DW_TAG_subroutine, DW_TAG_subroutine_type,
    DW_TAG_typedef, DW_TAG_union_type, DW_TAG_unspecified_parameters, DW_TAG_variant,
    DW_TAG_common_block, DW_TAG_common_inclusion, DW_TAG_inheritance, DW_TAG_inlined_subroutine,
    DW_TAG_module, DW_TAG_ptr_to_member_type, DW_TAG_set_type, DW_TAG_subrange_type,
    DW_TAG_with_stmt, DW_TAG_access_declaration, DW_TAG_base_type, DW_TAG_catch_block,
    DW_TAG_const_type, DW_TAG_constant, DW_TAG_enumerator, DW_TAG_file_type, DW_TAG_friend,
    DW_TAG_namelist, DW_TAG_namelist_item, DW_TAG_packed_type, DW_TAG_subprogram,
    DW_TAG_template_type_parameter, DW_TAG_template_value_parameter, DW_TAG_thrown_type,
    DW_TAG_try_block, DW_TAG_variant_part, DW_TAG_variable, DW_TAG_volatile_type,
    DW_TAG_dwarf_procedure, DW_TAG_restrict_type, DW_TAG_interface_type, DW_TAG_namespace,
    DW_TAG_imported_module, DW_TAG_unspecified_type, DW_TAG_partial_unit, DW_TAG_imported_unit,
    DW_TAG_condition, DW_TAG_shared_type, DW_TAG_type_unit, DW_TAG_rvalue_reference_type,
    DW_TAG_template_alias, DW_TAG_coarray_type, DW_TAG_generic_subrange, DW_TAG_dynamic_type,
    DW_TAG_atomic_type, DW_TAG_call_site, DW_TAG_call_site_parameter, DW_TAG_skeleton_unit,
    DW_TAG_immutable_type, DW_TAG_lo_user, DW_TAG_MIPS_loop, DW_TAG_HP_array_descriptor,
    DW_TAG_HP_Bliss_field, DW_TAG_HP_Bliss_field_set, DW_TAG_format_label, DW_TAG_function_template,
    DW_TAG_class_template, DW_TAG_GNU_BINCL, DW_TAG_GNU_EINCL, DW_TAG_GNU_template_template_param,
    DW_TAG_GNU_template_parameter_pack, DW_TAG_GNU_formal_parameter_pack, DW_TAG_GNU_call_site,
    DW_TAG_GNU_call_site_parameter, DW_TAG_APPLE_property, DW_TAG_SUN_function_template,
    DW_TAG_SUN_class_template, DW_TAG_SUN_struct_template, DW_TAG_SUN_union_template,
    DW_TAG_SUN_indirect_inheritance, DW_TAG_SUN_codeflags, DW_TAG_SUN_memop_info,
    DW_TAG_SUN_omp_child_func, DW_TAG_SUN_rtti_descriptor, DW_TAG_SUN_dtor_info, DW_TAG_SUN_dtor,
    DW_TAG_SUN_f90_interface, DW_TAG_SUN_fortran_vax_structure, DW_TAG_ALTIUM_circ_type,
    DW_TAG_ALTIUM_mwa_circ_type, DW_TAG_ALTIUM_rev_carry_type, DW_TAG_ALTIUM_rom,
    DW_TAG_upc_shared_type, DW_TAG_upc_strict_type, DW_TAG_upc_relaxed_type, DW_TAG_PGI_kanji_type,
    DW_TAG_PGI_interface_block, DW_TAG_BORLAND_property, DW_TAG_BORLAND_Delphi_string,
    DW_TAG_BORLAND_Delphi_dynamic_array, DW_TAG_BORLAND_Delphi_set, DW_TAG_BORLAND_Delphi_variant,
    DW_TAG_hi_user,
];

impl DwTag {
    /// Returns the name of this value, such as `DW_TAG_label`, or `None` if it has none.
    #[tactic(auto, unfolding(crate::specs::DwTag::tag_names))]
    pub fn static_string(&self) -> Option<&'static str>
        ensures { option_map (λ s. s.now) result ≡ name_of tag_names self.now.0 }
    {
        NAMES.find(self.0 as u64)
    }
}

impl fmt::Display for DwTag {
    ghost output = { λ tag. Some (tag_text tag.0) };

    ghost styled_output = { λ tag spec. Some (padded spec (tag_text tag.0)) };

    fn fmt<W: fmt::Write>(&self, f: &mut fmt::Formatter<W>) -> fmt::Result {
        pad_name(f, self.static_string(), "DwTag", self.0 as u64)
    }
}
