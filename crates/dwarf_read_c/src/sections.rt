//! Strings, and lookups by an index (DWARF 5, 7.5.5, 7.26 and 7.27).

ghost use Rattle.std.specs.Prelude.{◌≡◌, ◌≢◌, ◌^◌, ◌-◌, false, Ok, Err};
ghost use Rattle.dwarf_read_core.specs.Endian.{is_big_at_run_time};
ghost use Rattle.dwarf_read_core.specs.Strings.{StringAt};
ghost use Rattle.dwarf_read_core.specs.Words.{AddressAt, WordAt, slot};
ghost use Rattle.dwarf_read_c.specs.Fault.{Rejects};
ghost use Rattle.dwarf_read_c.specs.Sections.{offset_size, part_of, section_of};

use crate::status::DWARF_OK;
use dwarf_fault::{DwarfFault, reject};
use dwarf_read_core::{
    DebugAddr, DebugAddrBase, DebugAddrIndex, DebugStr, DebugStrOffset, DebugStrOffsets,
    DebugStrOffsetsBase, DebugStrOffsetsIndex, EndianSlice, Format, LittleEndian, RunTimeEndian,
};

/// Finds the string at `offset` of `.debug_str` or `.debug_line_str`: `len` bytes from the offset
/// on, followed by a zero byte.
///
/// # Errors
///
/// Those that `dwarf_read.h` lists, in that order.
#[unsafe(no_mangle)]
#[tactic(auto, using(crate::proofs::FoundStrings::string_steps))]
pub extern "C" fn dwarf_string(
    section: &[u8],
    offset: usize,
    len: &mut usize,
    fault: &mut DwarfFault,
) -> u32
    ensures found { let s = section_of section.now false in
        result ≡ DWARF_OK → StringAt s offset (Ok (part_of s offset len.new)) }
    ensures rejected { let s = section_of section.now false in
        result ≢ DWARF_OK → Rejects (λ e. StringAt s offset (Err e)) result fault.new }
    ensures no_length { result ≢ DWARF_OK → len.new ≡ len.old }
    ensures no_fault { result ≡ DWARF_OK → fault.new ≡ fault.old }
{
    match DebugStr::new(section, LittleEndian).get_str(DebugStrOffset(offset)) {
        Ok(string) => {
            *len = string.slice().len();
            DWARF_OK
        }
        Err(error) => reject(error, fault),
    }
}

/// Reads the string offset at `index`, counted from 0, of those that follow each other from `base`
/// on in `.debug_str_offsets`. Each has eight bytes if `is_64` is set, and four otherwise.
///
/// # Errors
///
/// Those that `dwarf_read.h` lists, in that order.
#[unsafe(no_mangle)]
#[tactic(auto, using(crate::proofs::KnownErrors::known_word))]
pub extern "C" fn dwarf_str_offset(
    section: &[u8],
    is_big: bool,
    is_64: bool,
    base: usize,
    index: usize,
    offset: &mut usize,
    fault: &mut DwarfFault,
) -> u32
    ensures found { let s = section_of section.now is_big in
        let place = slot base index (offset_size is_64) in
        result ≡ DWARF_OK → WordAt (2 ^ 64 - 1) s place (Ok offset.new) }
    ensures rejected { let s = section_of section.now is_big in
        let place = slot base index (offset_size is_64) in
        result ≢ DWARF_OK → Rejects (λ e. WordAt (2 ^ 64 - 1) s place (Err e)) result fault.new }
    ensures no_offset { result ≢ DWARF_OK → offset.new ≡ offset.old }
    ensures no_fault { result ≡ DWARF_OK → fault.new ≡ fault.old }
{
    let format = if is_64 {
        Format::Dwarf64
    } else {
        Format::Dwarf32
    };
    let offsets = DebugStrOffsets::from(EndianSlice::new(section, order(is_big)));
    let (base, index) = (DebugStrOffsetsBase(base), DebugStrOffsetsIndex(index));
    match offsets.get_str_offset(format, base, index) {
        Ok(DebugStrOffset(found)) => {
            *offset = found;
            DWARF_OK
        }
        Err(error) => reject(error, fault),
    }
}

/// Reads the address at `index`, counted from 0, of those that follow each other from `base` on in
/// `.debug_addr`. Each has `size` bytes.
///
/// # Errors
///
/// Those that `dwarf_read.h` lists, in that order.
#[unsafe(no_mangle)]
#[tactic(auto, using(crate::proofs::KnownErrors::known_address))]
pub extern "C" fn dwarf_address(
    section: &[u8],
    is_big: bool,
    size: u8,
    base: usize,
    index: usize,
    address: &mut u64,
    fault: &mut DwarfFault,
) -> u32
    ensures found { let s = section_of section.now is_big in
        result ≡ DWARF_OK → AddressAt (2 ^ 64 - 1) s (slot base index size) (Ok address.new) }
    ensures rejected { let s = section_of section.now is_big in result ≢ DWARF_OK
        → Rejects (λ e. AddressAt (2 ^ 64 - 1) s (slot base index size) (Err e)) result fault.new }
    ensures no_address { result ≢ DWARF_OK → address.new ≡ address.old }
    ensures no_fault { result ≡ DWARF_OK → fault.new ≡ fault.old }
{
    let addresses = DebugAddr::from(EndianSlice::new(section, order(is_big)));
    match addresses.get_address(size, DebugAddrBase(base), DebugAddrIndex(index)) {
        Ok(found) => {
            *address = found;
            DWARF_OK
        }
        Err(error) => reject(error, fault),
    }
}

// The byte order that a caller passes.
pub(crate) fn order(is_big: bool) -> RunTimeEndian
    ensures { is_big_at_run_time result ≡ is_big }
{
    if is_big {
        RunTimeEndian::Big
    } else {
        RunTimeEndian::Little
    }
}
