//! LEB128 numbers (DWARF 5, 7.6).

pub use dwarf_reader_core::leb128::{read, write};
