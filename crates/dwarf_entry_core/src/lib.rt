//! The entries of units in `.debug_info` and `.debug_types` (DWARF 5, 7.5.2 to 7.5.6; DWARF 4, 7.5.2
//! to 7.5.5).
//!
//! This crate is above the headers of units. It reads each value as its form says, and follows none:
//! an offset or an index is a number, and an expression is its bytes.
//!
//! ```
//! let mut entries = EntriesRaw::new(unit, table)?;
//! while !entries.is_empty() {
//!     let Some(abbreviation) = entries.read_abbreviation()? else {
//!         continue;
//!     };
//!     for spec in abbreviation.attributes() {
//!         let attribute = entries.read_attribute(*spec)?;
//!         if let AttributeValue::DebugStrRef(offset) = &attribute.value {
//!             offsets.push(*offset)?;
//!         }
//!     }
//! }
//! ```

#![tactic(auto)]

pub mod entries;
mod form;
pub mod laws;
mod skip;
pub mod value;

pub use entries::{Attribute, EntriesRaw, parse_attribute};
pub use value::AttributeValue;
