//! Loops over abbreviation tables (DWARF 5, 7.5.3), to be measured, and over their cache, to be
//! compared.

use crate::single::{cached_at, filled, table_at, tag_of};
use dwarf_read_core::{Abbreviation, Abbreviations, AbbreviationsCache, AttributeSpecification};
use std::alloc::Global;

// What an error counts as.
pub const FAILED: usize = 1 << 32;

/// Reads the table at each offset, and returns how many abbreviations they have together. A table
/// with an error counts as 2^32.
#[unsafe(no_mangle)]
pub extern "C" fn compare_tables(mem: Global, section: &[u8], offsets: &[usize]) -> usize {
    let mut sum: usize = 0;
    for offset in offsets {
        sum = sum.wrapping_add(match table_at(mem, section, *offset) {
            Ok(table) => table.len(),
            Err(_) => FAILED,
        });
    }
    sum
}

// The sum of the tags that are found.
fn get_all(table: &Abbreviations, codes: u64) -> u64 {
    let mut sum: u64 = 0;
    for code in 0..codes {
        sum = sum.wrapping_add(u64::from(tag_of(table, code + 1)));
    }
    sum
}

// The same, repeated this many times.
fn get_rounds(table: &Abbreviations, codes: u64, rounds: u64) -> u64 {
    let mut sum: u64 = 0;
    for _ in 0..rounds {
        sum = sum.wrapping_add(get_all(table, codes));
    }
    sum
}

/// Looks up the codes from 1 to `codes`, this many times, in the table at `offset`. Returns the sum
/// of the tags that are found modulo 2^64, or 2^32 if no table is there.
#[unsafe(no_mangle)]
pub extern "C" fn compare_get_sum(
    mem: Global,
    section: &[u8],
    offset: usize,
    codes: u64,
    rounds: u64,
) -> u64 {
    match table_at(mem, section, offset) {
        Ok(table) => get_rounds(&table, codes, rounds),
        Err(_) => FAILED as u64,
    }
}

// The name, the form and the value of an attribute, added up. The value counts as 64 bits.
fn of_attribute(attribute: &AttributeSpecification) -> u64 {
    let (name, form) = (attribute.name(), attribute.form());
    let value = attribute.implicit_const_value().unwrap_or(0);
    (u64::from(name.0) + u64::from(form.0)).wrapping_add(value.cast_unsigned())
}

// The code and the tag of an abbreviation, 1 if there are children, and its attributes, added up.
fn of_abbreviation(abbreviation: &Abbreviation) -> u64 {
    let head = u64::from(abbreviation.tag().0) + u64::from(abbreviation.has_children());
    let mut sum = abbreviation.code().wrapping_add(head);
    for attribute in abbreviation.attributes() {
        sum = sum.wrapping_add(of_attribute(attribute));
    }
    sum
}

// The sum over all abbreviations of a table.
pub(crate) fn walked(table: &Abbreviations) -> u64 {
    let mut sum: u64 = 0;
    for abbreviation in table.iter() {
        sum = sum.wrapping_add(of_abbreviation(abbreviation));
    }
    sum
}

/// Looks at each abbreviation of the table at `offset`, and at each of its attributes. Returns
/// their codes, tags, children, names, forms and values, added up modulo 2^64, or 2^32 if no table
/// is there.
#[unsafe(no_mangle)]
pub extern "C" fn compare_walk(mem: Global, section: &[u8], offset: usize) -> u64 {
    match table_at(mem, section, offset) {
        Ok(table) => walked(&table),
        Err(_) => FAILED as u64,
    }
}

// How many abbreviations the tables have together that a cache returns.
fn get_cached(cache: &AbbreviationsCache, section: &[u8], offsets: &[usize]) -> usize {
    let mut sum: usize = 0;
    for offset in offsets {
        sum = sum.wrapping_add(match cached_at(cache, section, *offset) {
            Ok(table) => table.len(),
            Err(_) => FAILED,
        });
    }
    sum
}

/// Fills a cache with the tables at these offsets, and returns how many abbreviations they have
/// together as it returns each, twice. A table with an error counts as 2^32. Returns 2^32 if memory
/// runs out.
#[unsafe(no_mangle)]
pub extern "C" fn compare_cached(mem: Global, section: &[u8], offsets: &[usize]) -> usize {
    match filled(mem, section, offsets) {
        Ok(cache) => {
            let once = get_cached(&cache, section, offsets);
            once.wrapping_add(get_cached(&cache, section, offsets))
        }
        Err(_) => FAILED,
    }
}
