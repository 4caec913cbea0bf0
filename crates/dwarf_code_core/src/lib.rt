//! The named constants of DWARF whose value takes one byte, four or eight: unit types, operations,
//! instructions of call frames and line numbers, entries of lists, encodings of pointers and more.
//!
//! Each family is a module with one type, a struct round the value, and its constants. The type
//! returns the name of a value (`static_string`) and prints it; neither allocates memory. Values
//! without a constant are allowed, since vendors add their own. `dwarf_const_core` has the families
//! whose value takes two bytes.
#![tactic(auto)]

pub mod accessibility;
pub mod address_class;
pub mod array_ordering;
pub mod base_type_encoding;
pub mod call_frame;
pub mod calling_convention;
pub mod children;
pub mod decimal_sign;
pub mod defaulted;
pub mod discriminant;
pub mod endianity;
pub mod gdb_index_symbol_kind;
pub mod identifier_case;
pub mod inlining;
pub mod laws;
pub mod line_extended;
pub mod line_standard;
pub mod location_list_entry;
pub mod macinfo;
pub mod macro_entry;
pub mod operation;
pub mod pointer_encoding;
pub mod range_list_entry;
pub mod section;
pub mod section_v2;
pub mod unit_type;
pub mod virtuality;
pub mod visibility;
