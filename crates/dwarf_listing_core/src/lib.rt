//! The text of listings, and the program `dwarf_list`, except for its `main`.
//!
//! The functions at the root, except for `hex_line`, take the bytes of a whole section of
//! abbreviation tables, strings, addresses or string offsets. They return the text, or the
//! section's first error. The lines of a table are made as they are written; any other text is
//! built before it is returned.
//!
//! [`run::run`] is a whole run, with the arguments that [`words::command_line`] returns.

#![tactic(auto)]

pub mod command;
pub mod fault;
pub mod input;
pub mod laws;
mod lines;
pub mod listing;
pub mod number;
mod output;
pub mod piped;
pub mod run;
mod sets;
mod tables;
pub mod words;

pub use lines::{hex_line, string_in_place};
pub use listing::{abbreviations, abbreviations_strict};
pub use sets::{addresses, string_offsets};
