//! What a call returns.

/// The call succeeded, and its outputs are written.
pub const DWARF_OK: u32 = 0;

/// There are more items than the caller's array has room for. The call wrote their count, or the measure
/// of the table, and nothing else.
pub const DWARF_NO_ROOM: u32 = 100;

/// No constant has this value, or no error has this number and value. Nothing was written.
pub const DWARF_NO_NAME: u32 = 101;

/// The offset is the end of the section, so there is nothing to read. Nothing was written.
pub const DWARF_END: u32 = 102;

/// The form doesn't determine how many bytes a value has. Nothing was written.
pub const DWARF_NO_SIZE: u32 = 103;
