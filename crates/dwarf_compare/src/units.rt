//! The headers of units (DWARF 5, 7.5.1), to be measured. `dwarf_unit_header` of `dwarf_read_c` is
//! what is compared.

use dwarf_read_core::{EndianSlice, LittleEndian, Reader, ReaderOffset, Result};
use dwarf_unit_core::DebugInfo;

// The sum of the offsets at which the tables of the units begin.
fn sum_of_offsets<R: Reader>(section: &DebugInfo<R>) -> Result<u64> {
    let mut sum: u64 = 0;
    for unit in section.units()? {
        sum = sum.wrapping_add(unit?.debug_abbrev_offset().0.into_u64());
    }
    Ok(sum)
}

/// Returns the sum of the offsets at which the tables of the units of `.debug_info` begin, modulo
/// 2^64, or 0 for an error.
#[unsafe(no_mangle)]
pub extern "C" fn compare_unit_headers(section: &[u8]) -> u64 {
    sum_of_offsets(&DebugInfo::from(EndianSlice::new(section, LittleEndian))).unwrap_or(0)
}
