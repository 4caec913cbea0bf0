//! The library in use: a reader of one's own, and small callers.
//!
//! Nothing here is part of the library. [`owned_reader`] is an example of a type that implements
//! [`Reader`](dwarf_read_core::Reader), to start from if sections come from a mapped file, a shared
//! buffer or a socket. [`callers`] and [`calling`] have callers to start from. [`parts`] shows what
//! a contract requires of a caller.

#![tactic(auto)]

pub mod callers;
pub mod calling;
pub mod owned_reader;
pub mod parts;

pub use crate::owned_reader::OwnedReader;
