//! The tests of `dwarf_listing_core`: whole runs of the programs, and the arguments that a system
//! gives.

#![tactic(auto)]

#[cfg(test)]
mod tests;
