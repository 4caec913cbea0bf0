//! Sets of addresses (DWARF 5, 7.27) and of string offsets (7.26).

ghost use Rattle.std.specs.Prelude.{◌≡◌, ◌≢◌, ◌↔◌, ◌-◌, ◌<◌, ◌≤◌, ◌^◌, true, length, Err, IfErr, OnErr, OnOk};
ghost use Rattle.dwarf_read_core.specs.Headers.{AddressHeaderRead, StringOffsetsHeaderRead};
ghost use Rattle.dwarf_read_core.specs.Contributions.{ContributionAtOffset, addresses_of, string_offsets_of};
ghost use Rattle.dwarf_read_c.specs.Extents.{StepsOver};
ghost use Rattle.dwarf_read_c.specs.Fault.{Rejects};
ghost use Rattle.dwarf_read_c.specs.Sections.{section_of};
ghost use Rattle.dwarf_read_c.specs.Sets.{TellsSet, set_to};

use crate::headers::header_at;
use crate::sections::order;
use crate::status::{DWARF_END, DWARF_OK};
use dwarf_fault::{DwarfFault, reject};
use dwarf_read_core::{AddressSize, EndianSlice, Error, Format, NoFields, Reader};

/// A set of addresses or of string offsets. Its entries are the numbers from `first_entry` up to
/// `next`.
#[repr(C)]
#[derive(Clone, Copy)]
pub struct DwarfSet {
    /// Where the next set may begin: the end of this one.
    pub next: usize,
    /// How many bytes of the set follow its initial length.
    pub unit_length: usize,
    /// The offset of the set's first entry.
    pub first_entry: usize,
    /// How many whole entries the set has. If `next` is in the middle of an entry, that one is cut
    /// and isn't counted.
    pub entry_count: usize,
    /// How many bytes a word of the set's format has: 4 or 8.
    pub word_size: u8,
    /// How many bytes an entry has: 1, 2, 4 or 8. A string offset has as many as a word.
    pub entry_size: u8,
}

/// Reads the header of the set of addresses at `offset` of `.debug_addr`. Its addresses are those
/// that [`dwarf_address`](crate::sections::dwarf_address) reads from `first_entry` on. If `next` is
/// in the middle of an address, that address is cut, and `entry_count` doesn't count it.
///
/// Returns `DWARF_END`, and writes nothing, if `offset` is the section's end.
///
/// # Errors
///
/// Those that `dwarf_read.h` lists, in that order. If the set lies within the section, `next` and
/// `unit_length` are written with the error, and nothing else of the set.
#[unsafe(no_mangle)]
pub extern "C" fn dwarf_address_set_0_3(
    section: &[u8],
    is_big: bool,
    offset: usize,
    set: &mut DwarfSet,
    fault: &mut DwarfFault,
) -> u32
    ensures found { let s = section_of section.now is_big in
        result ≡ DWARF_OK → TellsSet AddressHeaderRead addresses_of s offset set.new }
    ensures end { (result ≡ DWARF_END) ↔ (offset ≡ length section.now) }
    ensures end_fault { result ≡ DWARF_END → fault.new ≡ fault.old }
    ensures rejected { let s = section_of section.now is_big in
        result ≢ DWARF_OK → result ≢ DWARF_END
        → Rejects (λ e. ContributionAtOffset AddressHeaderRead (2 ^ 64 - 1) s offset (Err e))
        result fault.new }

    // An error of a set that lies within the section says where the next set may begin. No error
    // writes anything else.
    ensures stepped { let s = section_of section.now is_big in
        result ≢ DWARF_OK → result ≢ DWARF_END → StepsOver s offset
        (set.old.next, set.old.unit_length) (set.new.next, set.new.unit_length) }
    ensures kept { result ≢ DWARF_OK → set.new
        ≡ record set.old { next = set.new.next; unit_length = set.new.unit_length } }
    ensures no_set { result ≡ DWARF_END → set.new ≡ set.old }
    ensures no_fault { result ≡ DWARF_OK → fault.new ≡ fault.old }
{
    if offset == section.len() {
        return DWARF_END;
    }
    let section = EndianSlice::new(section, order(is_big));
    match address_set_at(section, offset, set) {
        Ok(()) => DWARF_OK,
        Err(error) => reject(error, fault),
    }
}

/// Reads the header of the set of string offsets at `offset` of `.debug_str_offsets`. Its string
/// offsets are those that [`dwarf_str_offset`](crate::sections::dwarf_str_offset) reads from
/// `first_entry` on, in the format that `word_size` says. If `next` is in the middle of a string
/// offset, that one is cut, and `entry_count` doesn't count it.
///
/// Returns `DWARF_END`, and writes nothing, if `offset` is the section's end.
///
/// # Errors
///
/// Those that `dwarf_read.h` lists, in that order. `next` and `unit_length` are written as by
/// [`dwarf_address_set_0_3`].
#[unsafe(no_mangle)]
pub extern "C" fn dwarf_str_offset_set_0_3(
    section: &[u8],
    is_big: bool,
    offset: usize,
    set: &mut DwarfSet,
    fault: &mut DwarfFault,
) -> u32
    ensures found { let s = section_of section.now is_big in
        result ≡ DWARF_OK → TellsSet StringOffsetsHeaderRead string_offsets_of s offset set.new }
    ensures end { (result ≡ DWARF_END) ↔ (offset ≡ length section.now) }
    ensures end_fault { result ≡ DWARF_END → fault.new ≡ fault.old }
    ensures rejected { let s = section_of section.now is_big in
        result ≢ DWARF_OK → result ≢ DWARF_END
        → Rejects (λ e. ContributionAtOffset StringOffsetsHeaderRead (2 ^ 64 - 1) s offset (Err e))
        result fault.new }

    // An error of a set that lies within the section says where the next set may begin. No error
    // writes anything else.
    ensures stepped { let s = section_of section.now is_big in
        result ≢ DWARF_OK → result ≢ DWARF_END → StepsOver s offset
        (set.old.next, set.old.unit_length) (set.new.next, set.new.unit_length) }
    ensures kept { result ≢ DWARF_OK → set.new
        ≡ record set.old { next = set.new.next; unit_length = set.new.unit_length } }
    ensures no_set { result ≡ DWARF_END → set.new ≡ set.old }
    ensures no_fault { result ≡ DWARF_OK → fault.new ≡ fault.old }
{
    if offset == section.len() {
        return DWARF_END;
    }
    let section = EndianSlice::new(section, order(is_big));
    match str_offset_set_at(section, offset, set) {
        Ok(()) => DWARF_OK,
        Err(error) => reject(error, fault),
    }
}

// Writes the set of addresses at an offset; with an error, where it ends, if all of it is there.
fn address_set_at<R: Reader<Offset = usize>>(
    section: R,
    offset: usize,
    set: &mut DwarfSet,
) -> Result<(), Error>
    requires starts { (R.view section).position ≡ 0 }
    requires clones { R.clone_is_free ≡ true }
    ensures found { let s = R.view section in
        OnOk result (TellsSet AddressHeaderRead addresses_of s offset set.new) }
    ensures err { let s = R.view section in
        IfErr result (λ e. ContributionAtOffset AddressHeaderRead (2 ^ 64 - 1) s offset (Err e)) }
    ensures stepped { StepsOver (R.view section) offset
        (set.old.next, set.old.unit_length) (set.new.next, set.new.unit_length) }
    ensures kept { OnErr result (set.new
        ≡ record set.old { next = set.new.next; unit_length = set.new.unit_length }) }
{
    let (format, size, _) = header_at::<R, AddressSize>(
        section,
        offset,
        &mut set.next,
        &mut set.unit_length,
    )?;
    put_entries(format, size.bytes(), set);
    Ok(())
}

// Writes the set of string offsets at an offset; with an error, where it ends, if all of it is there.
fn str_offset_set_at<R: Reader<Offset = usize>>(
    section: R,
    offset: usize,
    set: &mut DwarfSet,
) -> Result<(), Error>
    requires starts { (R.view section).position ≡ 0 }
    requires clones { R.clone_is_free ≡ true }
    ensures found { let s = R.view section in
        OnOk result (TellsSet StringOffsetsHeaderRead string_offsets_of s offset set.new) }
    ensures err { let s = R.view section in let header = StringOffsetsHeaderRead in
        IfErr result (λ e. ContributionAtOffset header (2 ^ 64 - 1) s offset (Err e)) }
    ensures stepped { StepsOver (R.view section) offset
        (set.old.next, set.old.unit_length) (set.new.next, set.new.unit_length) }
    ensures kept { OnErr result (set.new
        ≡ record set.old { next = set.new.next; unit_length = set.new.unit_length }) }
{
    let (format, _, _) = header_at::<R, NoFields>(
        section,
        offset,
        &mut set.next,
        &mut set.unit_length,
    )?;
    put_entries(format, format.word_size(), set);
    Ok(())
}

// Writes what a header of four bytes says of a set whose end and length are written.
#[inline(always)]
fn put_entries(format: Format, entry_size: u8, set: &mut DwarfSet)
    requires header { 4 ≤ set.old.unit_length }
    requires within { set.old.unit_length ≤ set.old.next }
    requires sized { 0 < entry_size }
    ensures { set.new ≡ set_to set.old.next set.old.unit_length format entry_size }
{
    set.first_entry = set.next - set.unit_length + 4;
    set.entry_count = (set.unit_length - 4) / usize::from(entry_size);
    set.word_size = format.word_size();
    set.entry_size = entry_size;
}
