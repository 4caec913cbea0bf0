//! A unit, as both sections have them.

ghost use Rattle.std.specs.Prelude.{◌≡◌, IfOk, IfErr, IsTrue};
ghost use Rattle.dwarf_read_core.specs.Faults.{CloneRanOutOfMemory};
ghost use Rattle.dwarf_unit_core.specs.Seen.{seen_fields, seen_type, seen_unit};

use crate::header::{UnitFields, UnitType};
use dwarf_read_core::{
    ContributionHeader, DebugAbbrevOffset, Encoding, Format, HeaderFields, Reader, Result,
    UnitSectionOffset,
};

/// The header of a unit, and its entries.
///
/// [`DebugInfo::units`](crate::DebugInfo::units) and [`DebugTypes::units`](crate::DebugTypes::units)
/// return the headers of a section, and
/// [`DebugInfo::header_from_offset`](crate::DebugInfo::header_from_offset) the one at an offset.
#[derive(Debug, Clone, Drop, PartialEq, Eq)]
pub struct UnitHeader<R: Reader, Offset = <R as Reader>::Offset> {
    offset: Offset,
    unit_length: Offset,
    format: Format,
    fields: UnitFields<Offset>,
    entries: R,
}

impl<R: Reader> UnitHeader<R> {
    // The unit whose contribution this is, and whose header has these fields.
    pub(crate) fn from_contribution<K: HeaderFields<R>>(
        header: ContributionHeader<R, K>,
        fields: UnitFields<R::Offset>,
    ) -> Self
        ensures seen { seen_unit R.Offset.value R.view result ≡ record {
          offset = header.offset;
          format = header.format;
          unit_length = header.unit_length;
          header = seen_fields R.Offset.value fields;
          entries = R.view header.entries;
        } }
        ensures order { R.order result.entries ≡ R.order header.entries }
    {
        UnitHeader {
            offset: header.section_offset(),
            unit_length: header.length(),
            format: header.format(),
            fields,
            entries: header.into_entries(),
        }
    }

    /// Returns where the unit begins, in bytes from its section's start.
    pub fn offset(&self) -> UnitSectionOffset<R::Offset>
        ensures { R.Offset.value result.0 ≡ (seen_unit R.Offset.value R.view self.now).offset }
    {
        UnitSectionOffset(self.offset)
    }

    /// Returns how many bytes of the unit follow its initial length: those of the rest of the
    /// header, and of the entries.
    pub fn unit_length(&self) -> R::Offset
        ensures { R.Offset.value result ≡ (seen_unit R.Offset.value R.view self.now).unit_length }
    {
        self.unit_length
    }

    /// Returns the unit's format, version and address size.
    pub fn encoding(&self) -> Encoding
        ensures { let unit = seen_unit R.Offset.value R.view self.now in result ≡ record {
          address_size = unit.header.address_size;
          format = unit.format;
          version = unit.header.version;
        } }
    {
        Encoding {
            address_size: self.fields.address_size,
            format: self.format,
            version: self.fields.version,
        }
    }

    /// Returns the unit's type, with what its header says that only units of this type have.
    pub fn type_(&self) -> UnitType<R::Offset>
        ensures { let unit = seen_unit R.Offset.value R.view self.now in
            seen_type R.Offset.value result ≡ unit.header.unit_type }
    {
        self.fields.unit_type
    }

    /// Returns where the unit's table of abbreviations begins in `.debug_abbrev`.
    pub fn debug_abbrev_offset(&self) -> DebugAbbrevOffset<R::Offset>
        ensures { let unit = seen_unit R.Offset.value R.view self.now in
            R.Offset.value result.0 ≡ unit.header.abbrev_offset }
    {
        DebugAbbrevOffset(self.fields.abbrev_offset)
    }

    /// Returns a reader of the unit's entries, which follow the header.
    ///
    /// # Errors
    ///
    /// `OutOfMemory` if a clone of the reader runs out of memory.
    pub fn entries_buf(&self) -> Result<R>
        ensures ok { IfOk result (λ entries. R.view entries ≡ R.view self.now.entries) }
        ensures order { IfOk result (λ entries. R.order entries ≡ R.order self.now.entries) }
        ensures err { IfErr result (CloneRanOutOfMemory R.clone_is_free) }
    {
        self.entries.try_clone()
    }
}
