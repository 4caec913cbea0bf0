//! Loops over sets of addresses (DWARF 5, 7.27), to be measured.

use dwarf_read_core::{
    AddrHeader, DebugAddr, EndianSlice, LittleEndian, Reader, ReaderOffset, Result,
};

// The sum of the addresses of a set.
fn sum_of_set<R: Reader>(header: &AddrHeader<R>) -> Result<u64> {
    let mut sum: u64 = 0;
    for address in header.entries()? {
        sum = sum.wrapping_add(address?);
    }
    Ok(sum)
}

// The sum of all addresses of all sets.
pub(crate) fn sum_of_sets<R: Reader>(section: &DebugAddr<R>) -> Result<u64> {
    let mut sum: u64 = 0;
    for header in section.headers()? {
        let header = header?;
        sum = sum.wrapping_add(sum_of_set(&header)?);
    }
    Ok(sum)
}

/// Returns the sum of all addresses of all sets modulo 2^64, or 0 for an error.
#[unsafe(no_mangle)]
pub extern "C" fn compare_addresses(section: &[u8]) -> u64 {
    sum_of_sets(&DebugAddr::from(EndianSlice::new(section, LittleEndian))).unwrap_or(0)
}

// A sum of what each header has.
fn sum_of_headers<R: Reader>(section: &DebugAddr<R>) -> Result<u64> {
    let mut sum: u64 = 0;
    for header in section.headers()? {
        let header = header?;
        sum = sum
            .wrapping_add(header.length().into_u64())
            .wrapping_add(header.offset().0.into_u64())
            .wrapping_add(u64::from(header.encoding().address_size));
    }
    Ok(sum)
}

/// Returns a sum of what each header of a set of addresses has, or 0 for an error.
#[unsafe(no_mangle)]
pub extern "C" fn compare_headers(section: &[u8]) -> u64 {
    sum_of_headers(&DebugAddr::from(EndianSlice::new(section, LittleEndian))).unwrap_or(0)
}
