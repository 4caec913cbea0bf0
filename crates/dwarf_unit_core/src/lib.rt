//! The headers of units: `.debug_info` and `.debug_types` (DWARF 5, 7.5.1; DWARF 4, 7.5.1.1).
//!
//! This crate is above the port of gimli's lowest layer. It reads through `dwarf_read_core`: units
//! are contributions, whose headers are a kind of [`HeaderFields`](dwarf_read_core::HeaderFields).
//!
//! ```
//! let mut lengths = Vec::new(mem);
//! for unit in debug_info.units()? {
//!     let table = cache.get(debug_abbrev, unit?.debug_abbrev_offset())?;
//!     lengths.push(table.len())?;
//! }
//! ```

#![tactic(auto)]

pub mod header;
pub mod info;
pub mod laws;
pub mod types;
pub mod unit;
pub mod units;

pub use header::{UnitFields, UnitType};
pub use info::{DebugInfo, DebugInfoUnitHeadersIter, InfoFields};
pub use types::{DebugTypes, DebugTypesUnitHeadersIter, TypesFields};
pub use unit::UnitHeader;
pub use units::{SectionFields, UnitHeadersIter, UnitSection};
