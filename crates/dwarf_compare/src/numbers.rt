//! Loops over LEB128 numbers (DWARF 5, 7.6), to be measured.

use dwarf_read_core::leb128::read;
use dwarf_read_core::{EndianSlice, LittleEndian, Reader};

/// Reads the consecutive unsigned numbers that `bytes` consist of, and returns their sum modulo
/// 2^64, or 0 if one of them is none.
#[unsafe(no_mangle)]
pub extern "C" fn compare_unsigned_sum(bytes: &[u8]) -> u64 {
    let mut input = EndianSlice::new(bytes, LittleEndian);
    let mut sum: u64 = 0;
    while !input.is_empty() {
        match read::unsigned(&mut input) {
            Ok(value) => sum = sum.wrapping_add(value),
            Err(_) => return 0,
        }
    }
    sum
}

/// The same of signed numbers.
#[unsafe(no_mangle)]
pub extern "C" fn compare_signed_sum(bytes: &[u8]) -> u64 {
    let mut input = EndianSlice::new(bytes, LittleEndian);
    let mut sum: u64 = 0;
    while !input.is_empty() {
        match read::signed(&mut input) {
            Ok(value) => sum = sum.wrapping_add(value.cast_unsigned()),
            Err(_) => return 0,
        }
    }
    sum
}

/// The same of numbers of at most 16 bits.
#[unsafe(no_mangle)]
pub extern "C" fn compare_short_sum(bytes: &[u8]) -> u64 {
    let mut input = EndianSlice::new(bytes, LittleEndian);
    let mut sum: u64 = 0;
    while !input.is_empty() {
        match read::u16(&mut input) {
            Ok(value) => sum = sum.wrapping_add(u64::from(value)),
            Err(_) => return 0,
        }
    }
    sum
}

/// Skips the consecutive numbers that `bytes` consist of, and returns how many there are, or 0 if
/// the last one is cut.
#[unsafe(no_mangle)]
pub extern "C" fn compare_skipped_count(bytes: &[u8]) -> u64 {
    let mut input = EndianSlice::new(bytes, LittleEndian);
    let mut count: u64 = 0;
    while !input.is_empty() {
        match read::skip(&mut input) {
            Ok(()) => count = count.wrapping_add(1),
            Err(_) => return 0,
        }
    }
    count
}
