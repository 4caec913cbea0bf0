//! The tests of the public calls of `dwarf_read_core`, by subject, and of the callers of `dwarf_uses`. What is about
//! the crates below is in `dwarf_reader_tests`.
//!
//! Nothing else is here, and no crate uses this one. A crate with tests is proved a second time with them, so
//! the tests have a crate of their own.

#![tactic(auto)]

#[cfg(test)]
mod tests;
