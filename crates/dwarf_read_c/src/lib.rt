//! The lowest layer of DWARF reading, for programs in C, C++ and Rust. `include/dwarf_read.h`
//! declares these functions, lists their errors, and says what a caller has to make sure of.
//!
//! A call returns [`DWARF_OK`](status::DWARF_OK), or a status that says why it failed. The caller
//! owns all memory: a call reads the bytes that are passed and writes to the arrays that are
//! passed. The only pointers that a call hands out are those of names, which are a part of the
//! program. Offsets and positions are counted in bytes from the first byte that is passed.
//!
//! A call whose parameters, or the fields of whose structs, have changed has the version of that
//! change at the end of its name, so that a program that was compiled with an older header doesn't
//! link. The header defines its name without that end.

#![tactic(auto)]

mod families;
pub mod forms;
mod headers;
pub mod laws;
pub mod names;
pub mod numbers;
pub mod room;
pub mod rows;
pub mod sections;
pub mod sets;
pub mod status;
mod table_rows;
pub mod tables;
pub mod texts;
pub mod units;
pub mod version;
