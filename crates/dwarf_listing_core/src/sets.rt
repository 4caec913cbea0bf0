//! The lines of sets of addresses and of string offsets.

ghost use Rattle.std.specs.Prelude.{◌≡◌, ◌<◌, ◌≤◌, ◌-◌, ◌^◌, ◌++◌, ℕ, List, Result, Ok, false, drop, OnOk, vec_items};
ghost use Rattle.std.specs.Fmt.{digit_glyph};
ghost use Rattle.std.specs.Iterator.{IsFinite};
ghost use Rattle.dwarf_read_core.specs.ErrorText.{hexadecimal};
ghost use Rattle.dwarf_read_core.specs.Lookups.{UnlessOutOfMemory};
ghost use Rattle.dwarf_read_core.specs.Contributions.{Remaining};
ghost use Rattle.dwarf_listing_core.specs.Items.{Joins, ListsRun};
ghost use Rattle.dwarf_listing_core.specs.Sets.{ListsAddresses, ListsSection, ListsStringOffsets, address_header_line, address_line, address_listing, offset_header_line, offset_line, offset_listing, set_title};

use dwarf_read_core::{
    AddrHeader, DebugAddr, DebugStrOffset, DebugStrOffsets, EndianSlice, Error, Reader,
    ReaderOffset, RunTimeEndian, StrOffsetsHeader,
};
use itoa::write_digits;
use std::alloc::{AllocError, Global};
use std::io::Write;

/// Returns the sets of addresses of a whole `.debug_addr`: a line for each header, such as
/// `set 0: length 12, 32-bit, address size 4`, and below it a line for each address, such as
/// `  0x12345678`.
///
/// # Errors
///
/// The first error: that of a header, or that of a set's addresses before the next header.
/// `OutOfMemory` if memory runs out.
pub fn addresses(mem: Global, section: &[u8], endian: RunTimeEndian) -> Result<Vec<u8>, Error>
    ensures { UnlessOutOfMemory (ListsAddresses endian section.now) vec_items result }
{
    addresses_from(mem, EndianSlice::new(section, endian))
}

// Returns the lines of the sets of addresses that a reader has.
fn addresses_from<R: Reader<Offset = usize>>(mem: Global, section: R) -> Result<Vec<u8>, Error>
    ensures { let sets : Remaining = record { offset = 0; rest = R.view section } in
        UnlessOutOfMemory (ListsSection address_listing sets) vec_items result }
{
    text_of(mem, DebugAddr::from(section).headers()?)
}

/// Returns the sets of string offsets of a whole `.debug_str_offsets`: a line for each header, such
/// as `set 0: length 8, 32-bit`, and below it a line for each offset, such as `  42`.
///
/// # Errors
///
/// The first error, as [`addresses`] returns it.
pub fn string_offsets(mem: Global, section: &[u8], endian: RunTimeEndian) -> Result<Vec<u8>, Error>
    ensures { UnlessOutOfMemory (ListsStringOffsets endian section.now) vec_items result }
{
    string_offsets_from(mem, EndianSlice::new(section, endian))
}

// Returns the lines of the sets of string offsets that a reader has.
fn string_offsets_from<R: Reader<Offset = usize>>(mem: Global, section: R) -> Result<Vec<u8>, Error>
    ensures { let sets : Remaining = record { offset = 0; rest = R.view section } in
        UnlessOutOfMemory (ListsSection (offset_listing (2 ^ 64 - 1)) sets) vec_items result }
{
    text_of(mem, DebugStrOffsets::from(section).headers()?)
}

/// An item of a section, such as a set or an entry of a set, which is listed by lines.
trait Listed: Drop {
    ghost use Rattle.dwarf_read_core.specs.declared.Error.{Error};

    ghost lists: { Self → Result (List ℕ) Error → Type 0 };

    /// Appends the lines of the item, or returns the error that takes their place.
    fn push_lines(&self, text: &mut Vec<u8>) -> Result<(), Error>
        ensures { UnlessOutOfMemory (Joins (Ok text.old.items) (lists self.now))
            (λ _. text.new.items) result };
}

// Returns the lines of items, in order.
fn text_of<T: Listed, I: Iterator<Item = Result<T, Error>>>(
    mem: Global,
    items: I,
) -> Result<Vec<u8>, Error>
    requires can { I.can_next items }
    requires ends { IsFinite (I.remaining items) }
    ensures { UnlessOutOfMemory (ListsRun I.next_gives T.lists items) vec_items result }
{
    let mut text = Vec::new(mem);
    push_items(&mut text, items)?;
    Ok(text)
}

// Appends the lines of items, in order.
fn push_items<T: Listed, I: Iterator<Item = Result<T, Error>>>(
    text: &mut Vec<u8>,
    items: I,
) -> Result<(), Error>
    requires can { I.can_next items }
    requires ends { IsFinite (I.remaining items) }
    ensures { UnlessOutOfMemory
        (Joins (Ok text.old.items) (ListsRun I.next_gives T.lists items))
        (λ _. text.new.items) result }
{
    for item in items {
        item?.push_lines(text)?;
    }
    Ok(())
}

impl<R: Reader> Listed for AddrHeader<R> {
    ghost use Rattle.dwarf_read_core.specs.Contributions.{seen_by};
    ghost use Rattle.dwarf_listing_core.specs.Sets.{ListsSet, address_listing};

    ghost lists = { λ header. ListsSet address_listing (seen_by R.view header) };

    fn push_lines(&self, text: &mut Vec<u8>) -> Result<(), Error> {
        let (offset, length) = (self.offset().0.into_u64(), self.length().into_u64());
        let encoding = self.encoding();
        let (bits, size) = (encoding.format.word_size() * 8, encoding.address_size);
        push_address_header(text, offset, length, bits, size)?;
        push_items(text, self.entries()?)
    }
}

impl<R: Reader> Listed for StrOffsetsHeader<R> {
    ghost use Rattle.dwarf_read_core.specs.Contributions.{seen_by};
    ghost use Rattle.dwarf_listing_core.specs.Sets.{ListsSet, offset_listing};

    ghost lists = { λ header.
        ListsSet (offset_listing R.Offset.GREATEST) (seen_by R.view header) };

    fn push_lines(&self, text: &mut Vec<u8>) -> Result<(), Error> {
        let (offset, length) = (self.offset().into_u64(), self.length().into_u64());
        let bits = self.format().word_size() * 8;
        push_offset_header(text, offset, length, bits)?;
        push_items(text, self.entries()?)
    }
}

fn push_address_header(
    text: &mut Vec<u8>,
    offset: u64,
    length: u64,
    bits: u8,
    size: u8,
) -> Result<(), AllocError>
    ensures { OnOk result
        (text.new.items
        ≡ text.old.items ++ address_header_line offset length bits size) }
{
    push_set_title(text, offset)?;
    writeln!(text, "length {length}, {bits}-bit, address size {size}").map_err(|_| AllocError)
}

fn push_offset_header(
    text: &mut Vec<u8>,
    offset: u64,
    length: u64,
    bits: u8,
) -> Result<(), AllocError>
    ensures { OnOk result
        (text.new.items ≡ text.old.items ++ offset_header_line offset length bits) }
{
    push_set_title(text, offset)?;
    writeln!(text, "length {length}, {bits}-bit").map_err(|_| AllocError)
}

fn push_set_title(text: &mut Vec<u8>, offset: u64) -> Result<(), AllocError>
    ensures { OnOk result (text.new.items ≡ text.old.items ++ set_title offset) }
{
    write!(text, "set {offset}: ").map_err(|_| AllocError)
}

// An address.
impl Listed for u64 {
    ghost use Rattle.dwarf_listing_core.specs.Sets.{ListsLine, address_line};

    ghost lists = { ListsLine address_line };

    fn push_lines(&self, text: &mut Vec<u8>) -> Result<(), Error> {
        Ok(push_address(text, *self)?)
    }
}

impl<O: ReaderOffset> Listed for DebugStrOffset<O> {
    ghost use Rattle.dwarf_listing_core.specs.Sets.{ListsLine, offset_line};

    ghost lists = { λ offset. ListsLine offset_line (O.value offset.0) };

    fn push_lines(&self, text: &mut Vec<u8>) -> Result<(), Error> {
        Ok(push_string_offset(text, self.0.into_u64())?)
    }
}

// Appends the line of an address.
fn push_address(text: &mut Vec<u8>, address: u64) -> Result<(), AllocError>
    ensures { OnOk result (text.new.items ≡ text.old.items ++ address_line address) }
{
    let mut line = [b'\n'; 17];
    let start = put_hexadecimal(&mut line, address);
    text.extend_from_slice(b"  0x")?;
    text.extend_from_slice(&line[start..])
}

// Appends the line of a string's offset. With a `Buffer` of `itoa`, after which the line end is
// appended alone, a listing takes six to nine per cent more instructions.
fn push_string_offset(text: &mut Vec<u8>, offset: u64) -> Result<(), AllocError>
    ensures { OnOk result (text.new.items ≡ text.old.items ++ offset_line offset) }
{
    let mut line = [b'\n'; 21];
    let start = write_digits(offset, &mut line, 20);
    text.extend_from_slice(b"  ")?;
    text.extend_from_slice(&line[start..])
}

// Puts the hexadecimal digits of a number before the last byte, and returns where they begin.
// A section has many addresses, and formatting each by `{:x}` takes twice as long.
fn put_hexadecimal(line: &mut [u8; 17], number: u64) -> usize
    ensures bound { result ≤ 17 }
    ensures digits { drop result line.new ≡ hexadecimal number ++ drop 16 line.old }
{
    let mut start = 16;
    let mut rest = number;
    while start > 0 {
        start -= 1;
        line[start] = digit((rest % 16) as u8);
        rest /= 16;
        if rest == 0 {
            break;
        }
    }
    start
}

// A look-up takes fewer instructions than a test and a sum.
fn digit(value: u8) -> u8
    requires { value < 16 }
    ensures { result ≡ digit_glyph false value }
{
    b"0123456789abcdef"[usize::from(value)]
}
