//! Loops over strings, and over lookups by an index (DWARF 5, 7.26 and 7.27), to be measured.

use dwarf_read_core::{
    DebugAddr, DebugAddrBase, DebugAddrIndex, DebugStr, DebugStrOffset, DebugStrOffsets,
    DebugStrOffsetsBase, DebugStrOffsetsIndex, EndianSlice, Format, LittleEndian, Reader,
};

/// Returns the sum of the addresses of eight bytes at these indexes, modulo 2^64, or 0 for an
/// error.
#[unsafe(no_mangle)]
pub extern "C" fn compare_address_lookups(section: &[u8], base: usize, indices: &[usize]) -> u64 {
    let section = DebugAddr::from(EndianSlice::new(section, LittleEndian));
    let mut sum: u64 = 0;
    for index in indices {
        match section.get_address(8, DebugAddrBase(base), DebugAddrIndex(*index)) {
            Ok(address) => sum = sum.wrapping_add(address),
            Err(_) => return 0,
        }
    }
    sum
}

/// Returns how long the strings at these offsets are together, modulo 2^64, or 0 for an error.
#[unsafe(no_mangle)]
pub extern "C" fn compare_strings(section: &[u8], offsets: &[usize]) -> usize {
    let section = DebugStr::new(section, LittleEndian);
    let mut sum: usize = 0;
    for offset in offsets {
        match section.get_str(DebugStrOffset(*offset)) {
            Ok(text) => sum = sum.wrapping_add(text.len()),
            Err(_) => return 0,
        }
    }
    sum
}

/// Returns the sum of the string offsets of four bytes at these indexes, modulo 2^64, or 0 for an
/// error.
#[unsafe(no_mangle)]
pub extern "C" fn compare_str_offset_lookups(
    section: &[u8],
    base: usize,
    indices: &[usize],
) -> usize {
    let section = DebugStrOffsets::from(EndianSlice::new(section, LittleEndian));
    let mut sum: usize = 0;
    for index in indices {
        match section.get_str_offset(
            Format::Dwarf32,
            DebugStrOffsetsBase(base),
            DebugStrOffsetsIndex(*index),
        ) {
            Ok(offset) => sum = sum.wrapping_add(offset.0),
            Err(_) => return 0,
        }
    }
    sum
}
