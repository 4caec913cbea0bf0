//! The library's calls, for programs that compare them with another library or measure them next to
//! it.
//!
//! `tools/compare` calls these functions from Rust: `ours.rs` and `measure.rs` of `compare/src` and
//! `calls.rs` of `compare/client` declare them. Some read one thing and return it with each error.
//! The others are whole loops over many items, so that the cost of a call doesn't show in what is
//! measured. Only the program that compares and the copy of gimli of `tools/compare client` link
//! this library: `dwarf_read_c` has the calls for C.

#![tactic(auto)]

pub mod entries;
pub mod numbers;
pub mod readers;
pub mod sections;
pub mod sets;
pub mod single;
pub mod tables;
pub mod units;
