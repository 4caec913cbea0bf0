//! The entries of a unit, read in parts.

ghost use Rattle.std.specs.Prelude.{◌≡◌, ◌+◌, ◌-◌, ◌<◌, ◌≤◌, ◌↔◌, ◌⊎◌, IsTrue, [], map, length, IfOk, IfErr, OnOk, Ok, Err, option_copied};
ghost use Rattle.dwarf_read_core.specs.Faults.{CloneRanOutOfMemory};
ghost use Rattle.dwarf_read_core.specs.Format.{initial_length_size};
ghost use Rattle.dwarf_read_core.specs.Readings.{Reads, ReadsIfCloned};
ghost use Rattle.dwarf_read_core.specs.declared.Error.TheVariants.{OutOfMemory, UnsupportedOffset};
ghost use Rattle.dwarf_unit_core.specs.Fields.{header_size};
ghost use Rattle.dwarf_unit_core.specs.Seen.{seen_unit};
ghost use Rattle.dwarf_entry_core.specs.Entries.{AttributeRead, AttributesRead, CodeRead};
ghost use Rattle.dwarf_entry_core.specs.Seen.{seen_attribute};
ghost use Rattle.dwarf_entry_core.specs.Skipped.{AttributesSkipped};

use crate::skip::skip_values;
use crate::value::{AttributeValue, parse_value};
use dwarf_read_core::{
    Abbreviation, Abbreviations, AttributeSpecification, DwAt, DwForm, Encoding, Error, Reader,
    ReaderOffset, Result, UnitOffset,
};
use dwarf_unit_core::{UnitHeader, UnitType};
use std::alloc::Global;

/// An attribute of an entry.
#[derive(Debug, Clone, Copy, Drop, PartialEq, Eq)]
pub struct Attribute<R, Offset> {
    /// What the attribute says of the entry.
    pub name: DwAt,
    /// The form of the value, which is never `DW_FORM_indirect`.
    pub form: DwForm,
    /// The value.
    pub value: AttributeValue<R, Offset>,
}

/// The entries that remain of a unit.
///
/// An entry is read in parts: first its abbreviation, by
/// [`read_abbreviation`](EntriesRaw::read_abbreviation), and then all of its attributes, which are
/// read or skipped. An entry whose abbreviation has children is followed by these and by a null
/// entry.
#[derive(Debug, Drop)]
pub struct EntriesRaw<'abbrev, R: Reader> {
    input: R,
    // The offset in the unit after its last byte. How many bytes remain says where they begin.
    end: R::Offset,
    encoding: Encoding,
    abbreviations: &'abbrev Abbreviations,
}

impl<'abbrev, R: Reader> EntriesRaw<'abbrev, R> {
    /// Returns all entries of a unit, whose abbreviations are in this table.
    ///
    /// # Errors
    ///
    /// `OutOfMemory` if a clone of the reader runs out of memory. `UnsupportedOffset` if an offset in
    /// the unit doesn't fit the offset type, which no unit of a section has.
    pub fn new(unit: &UnitHeader<R>, abbreviations: &'abbrev Abbreviations) -> Result<Self>
        ensures encoding { let unit = seen_unit R.Offset.value R.view unit.now in IfOk result
            (λ entries. entries.encoding ≡ record {
              address_size = unit.header.address_size;
              format = unit.format;
              version = unit.header.version;
            }) }
        ensures table { IfOk result (λ entries. entries.abbreviations.now ≡ abbreviations.now) }
        ensures end { let unit = seen_unit R.Offset.value R.view unit.now in
            let first = initial_length_size unit.format + header_size unit.format unit.header in
            IfOk result
            (λ entries. R.Offset.value entries.end ≡ first + length unit.entries.bytes) }
        ensures input { IfOk result (λ entries. R.view entries.input ≡ R.view unit.now.entries) }
        ensures order { IfOk result (λ entries. R.order entries.input ≡ R.order unit.now.entries) }
        ensures err { let unit = seen_unit R.Offset.value R.view unit.now in
            let first = initial_length_size unit.format + header_size unit.format unit.header in
            IfErr result (λ e. CloneRanOutOfMemory R.clone_is_free e
            ⊎ ((e ≡ UnsupportedOffset)
            × (R.Offset.GREATEST < first + length unit.entries.bytes))) }
    {
        let input = unit.entries_buf()?;
        let first = u64::from(size_of_header(unit));
        let end = first
            .checked_add(input.len().into_u64())
            .ok_or(Error::UnsupportedOffset)?;
        Ok(EntriesRaw {
            input,
            end: R::Offset::from_u64(end)?,
            encoding: unit.encoding(),
            abbreviations,
        })
    }

    /// Returns whether no bytes remain.
    #[inline]
    pub fn is_empty(&self) -> bool
        ensures { IsTrue result ↔ ((R.view self.now.input).bytes ≡ []) }
    {
        self.input.is_empty()
    }

    /// Returns where the bytes that remain begin, in bytes from the start of the unit's header.
    ///
    /// Before [`read_abbreviation`](EntriesRaw::read_abbreviation) this is where the next entry
    /// begins, as references from other entries of the unit say it.
    #[inline]
    pub fn next_offset(&self) -> UnitOffset<R::Offset>
        ensures { let left = length (R.view self.now.input).bytes in
            R.Offset.value result.0 ≡ R.Offset.value self.now.end - left }
    {
        let left = self.input.len();
        UnitOffset(self.end.checked_sub(left).unwrap_or(R::Offset::from_u8(0)))
    }

    /// Reads the code of the next entry, and returns its abbreviation, or `None` for a null entry.
    /// A code has at least one byte.
    ///
    /// Read or skip all attributes of the abbreviation before the next entry.
    ///
    /// # Errors
    ///
    /// Those of [`read_uleb128`](Reader::read_uleb128) for the code, and `InvalidAbbreviationCode` if
    /// no abbreviation of the table has it.
    #[inline(always)]
    pub fn read_abbreviation(&mut self) -> Result<Option<&'abbrev Abbreviation>>
        ensures read { Reads (CodeRead self.old.abbreviations.now) option_copied
            (R.view self.old.input) result (R.view self.new.input) }
        ensures encoding { self.new.encoding ≡ self.old.encoding }
        ensures table { self.new.abbreviations ≡ self.old.abbreviations }
        ensures end { self.new.end ≡ self.old.end }
        ensures bound { let old = (R.view self.old.input).bytes in
            OnOk result (length (R.view self.new.input).bytes + 1 ≤ length old) }
        ensures order { R.order self.new.input ≡ R.order self.old.input }
    {
        let code = self.input.read_uleb128()?;
        if code == 0 {
            return Ok(None);
        }
        match self.abbreviations.get(code) {
            Some(abbreviation) => Ok(Some(abbreviation)),
            None => Err(Error::InvalidAbbreviationCode(code)),
        }
    }

    /// Reads the attribute that this specification of the entry's abbreviation is of.
    ///
    /// # Errors
    ///
    /// The first of these:
    ///
    /// - for `DW_FORM_indirect`, those of [`read_uleb128_u16`](Reader::read_uleb128_u16) for each
    ///   number that is a form;
    /// - `UnknownForm` if the form isn't known;
    /// - `InvalidImplicitConst` if an indirect form is `DW_FORM_implicit_const`;
    /// - those of the value: `UnexpectedEof` at the position of its first part that isn't whole, a
    ///   malformed LEB128 number, `UnsupportedAddressSize`, `UnsupportedOffsetSize`, or
    ///   `UnsupportedOffset` if an offset, an index or a number of bytes doesn't fit the offset type.
    ///
    /// `OutOfMemory` if a clone of the reader runs out of memory.
    #[inline(always)]
    pub fn read_attribute(
        &mut self,
        spec: AttributeSpecification,
    ) -> Result<Attribute<R, R::Offset>>
        ensures read { ReadsIfCloned R.clone_is_free
            (AttributeRead R.Offset.GREATEST self.old.encoding spec)
            (seen_attribute R.view R.Offset.value)
            (R.view self.old.input) result (R.view self.new.input) }
        ensures encoding { self.new.encoding ≡ self.old.encoding }
        ensures table { self.new.abbreviations ≡ self.old.abbreviations }
        ensures end { self.new.end ≡ self.old.end }
        ensures bound { let old = (R.view self.old.input).bytes in
            OnOk result (length (R.view self.new.input).bytes ≤ length old) }
        ensures order { R.order self.new.input ≡ R.order self.old.input }
    {
        parse_attribute(&mut self.input, self.encoding, spec)
    }

    /// Skips the attributes of an entry, one for each of these specifications of its abbreviation.
    ///
    /// If they can be read, skipping them leaves the same bytes. But no value is judged: an offset
    /// may be one that doesn't fit the offset type, an address may have any size, and a LEB128 number
    /// any length.
    ///
    /// # Errors
    ///
    /// Those of the first attribute that can't be skipped: those of an indirect form, `UnknownForm`,
    /// `UnexpectedEof` where a part of the value isn't whole, and of how many bytes a block or an
    /// expression has, those of a LEB128 number, and `UnsupportedOffset` if it doesn't fit the offset
    /// type.
    #[inline(always)]
    pub fn skip_attributes(&mut self, specs: &[AttributeSpecification]) -> Result<()>
        ensures read { Reads (AttributesSkipped R.Offset.GREATEST self.old.encoding specs.now)
            (λ done. done) (R.view self.old.input) result (R.view self.new.input) }
        ensures encoding { self.new.encoding ≡ self.old.encoding }
        ensures table { self.new.abbreviations ≡ self.old.abbreviations }
        ensures end { self.new.end ≡ self.old.end }
        ensures bound { let old = (R.view self.old.input).bytes in
            OnOk result (length (R.view self.new.input).bytes ≤ length old) }
        ensures order { R.order self.new.input ≡ R.order self.old.input }
    {
        skip_values(&mut self.input, self.encoding, specs)
    }

    /// Reads the attributes of an entry, one for each of these specifications of its abbreviation.
    ///
    /// # Errors
    ///
    /// Those of the first attribute that can't be read, and `OutOfMemory`.
    pub fn read_attributes(
        &mut self,
        mem: Global,
        specs: &[AttributeSpecification],
    ) -> Result<Vec<Attribute<R, R::Offset>>>
        ensures ok { let At = AttributesRead R.Offset.GREATEST self.old.encoding specs.now in
            IfOk result (λ attributes. At (R.view self.old.input)
            (Ok (map (seen_attribute R.view R.Offset.value) attributes.items), R.view self.new.input)) }
        ensures err { let At = AttributesRead R.Offset.GREATEST self.old.encoding specs.now in
            IfErr result
            (λ e. At (R.view self.old.input) (Err e, R.view self.new.input) ⊎ (e ≡ OutOfMemory)) }
        ensures encoding { self.new.encoding ≡ self.old.encoding }
        ensures table { self.new.abbreviations ≡ self.old.abbreviations }
        ensures end { self.new.end ≡ self.old.end }
        ensures bound { let old = (R.view self.old.input).bytes in
            OnOk result (length (R.view self.new.input).bytes ≤ length old) }
        ensures order { R.order self.new.input ≡ R.order self.old.input }
    {
        let mut attributes = Vec::new(mem);
        for spec in specs {
            let attribute = self.read_attribute(*spec)?;
            attributes.push(attribute)?;
        }
        Ok(attributes)
    }
}

/// Reads the attribute that this specification is of, in a unit of this encoding.
///
/// # Errors
///
/// Those of [`EntriesRaw::read_attribute`].
#[inline(always)]
pub fn parse_attribute<R: Reader>(
    input: &mut R,
    encoding: Encoding,
    spec: AttributeSpecification,
) -> Result<Attribute<R, R::Offset>>
    ensures read { ReadsIfCloned R.clone_is_free (AttributeRead R.Offset.GREATEST encoding spec)
        (seen_attribute R.view R.Offset.value) (R.view input.old) result (R.view input.new) }
    ensures order { R.order input.new ≡ R.order input.old }
{
    let (form, value) = parse_value(input, encoding, spec)?;
    Ok(Attribute {
        name: spec.name(),
        form,
        value,
    })
}

// Returns how many bytes the header of a unit has, with its initial length.
fn size_of_header<R: Reader>(unit: &UnitHeader<R>) -> u8
    ensures { let unit = seen_unit R.Offset.value R.view unit.now in
        result ≡ initial_length_size unit.format + header_size unit.format unit.header }
{
    let encoding = unit.encoding();
    let word_size = encoding.format.word_size();
    let fixed = if encoding.version == 5 { 4 } else { 3 };
    let own = match unit.type_() {
        UnitType::Compilation | UnitType::Partial => 0,
        UnitType::Skeleton(_) | UnitType::SplitCompilation(_) => 8,
        UnitType::Type { .. } | UnitType::SplitType { .. } => 8 + word_size,
    };
    encoding.format.initial_length_size() + fixed + word_size + own
}
