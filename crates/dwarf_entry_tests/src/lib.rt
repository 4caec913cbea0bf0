//! The tests of `dwarf_entry_core`.
//!
//! Nothing else is here, and no crate uses this one. A crate with tests is proved a second time with
//! them, so the tests have a crate of their own.

#![tactic(auto)]

#[cfg(test)]
mod tests;
