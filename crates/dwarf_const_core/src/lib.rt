//! The named constants of DWARF whose value takes two bytes: tags, attributes, forms, languages,
//! index attributes and the content types of line number programs.
//!
//! Each family is a module with one type, a struct round the value, and its constants. The type
//! returns the name of a value (`static_string`) and prints it; neither allocates memory. Values
//! without a constant are allowed, since vendors add their own.
//!
//! The module `names` has the table that all these types search, for further families.
#![tactic(auto)]

/// A table of the names of constants: `names![DW_ORD_row_major, DW_ORD_col_major]`.
///
/// The constants are structs round a number. Their values have to rise, so that no two are equal;
/// the prover checks that where the macro is used.
#[macro_export]
macro_rules! names {
    ($($constant:ident),* $(,)?) => {
        $crate::names::Names {
            values: &[$($constant.0 as u64),*],
            names: &[$(stringify!($constant)),*],
        }
    };
}

pub mod attribute;
pub mod form;
pub mod index_attribute;
pub mod language;
pub mod laws;
pub mod line_content;
pub mod names;
pub mod tag;
