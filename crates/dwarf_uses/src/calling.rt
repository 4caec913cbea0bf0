//! Short callers. `tools/api` quotes these files whole, each in the `CALLING.md` of its crate.

pub mod read_core;
pub mod reader_core;
