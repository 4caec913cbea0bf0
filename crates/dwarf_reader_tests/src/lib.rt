//! The tests of the crates below the tables: constants, plain types, errors, byte orders, numbers and
//! readers. A folder has the tests of the crate of its name.
//!
//! Nothing else is here, and no crate uses this one. A crate with tests is proved a second time with them, so
//! the tests have a crate of their own.

#![tactic(auto)]

#[cfg(test)]
mod tests;
