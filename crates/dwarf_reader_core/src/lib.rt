//! Readers of DWARF sections, and LEB128 numbers.

#![tactic(auto)]

pub mod endian_slice;
pub mod laws;
pub mod leb128;
pub mod reader;

pub use crate::endian_slice::EndianSlice;
pub use crate::reader::{Reader, read_u8_array};
