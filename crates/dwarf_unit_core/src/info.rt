//! The section `.debug_info`.

ghost use Rattle.std.specs.Prelude.{◌≡◌, IfOk, IfErr};
ghost use Rattle.dwarf_read_core.specs.declared.SectionId.TheVariants.{DebugInfo as debug_info};
ghost use Rattle.dwarf_read_core.specs.Contributions.{ContributionAtOffset, remaining_of};
ghost use Rattle.dwarf_read_core.specs.Faults.{CloneRanOutOfMemory};
ghost use Rattle.dwarf_read_core.specs.Lookups.{Stays, UnlessCloneRanOut};
ghost use Rattle.dwarf_read_core.specs.Slice.{input_of};
ghost use Rattle.dwarf_unit_core.specs.Fields.{compile_unit, unit_header};
ghost use Rattle.dwarf_unit_core.specs.Seen.{seen_unit};

use crate::unit::UnitHeader;
use crate::units::{SectionFields, UnitHeadersIter, UnitSection};
use dwarf_read_core::{
    ContributionHeader, DW_UT_compile, DebugInfoOffset, DwUt, EndianSlice, Endianity, Reader,
    Result, Section, SectionId,
};

/// The `.debug_info` section: units of any type from version 5 on, and compilation units before
/// (DWARF 5, 7.5.1).
#[derive(Debug, Default, Clone, Copy, Drop)]
pub struct DebugInfo<R> {
    section: R,
}

impl<'input, Endian: Endianity> DebugInfo<EndianSlice<'input, Endian>> {
    ghost use Rattle.dwarf_unit_core.specs.Sections.{debug_info_reader};

    /// Returns the section of these bytes.
    pub fn new(debug_info_section: &'input [u8], endian: Endian) -> Self
        ensures view { input_of (debug_info_reader result)
            ≡ record {
              bytes = debug_info_section.now;
              position = 0;
              is_big = Endian.is_big endian;
            } }
        ensures order { (debug_info_reader result).endian ≡ endian }
    {
        Self::from(EndianSlice::new(debug_info_section, endian))
    }
}

impl<R: Reader> DebugInfo<R> {
    ghost use Rattle.dwarf_unit_core.specs.Sections.{debug_info_reader};

    /// Returns the units in order, from the section's start.
    ///
    /// # Errors
    ///
    /// `OutOfMemory` if a clone of the reader runs out of memory.
    pub fn units(&self) -> Result<DebugInfoUnitHeadersIter<R>>
        ensures ok { let section = R.view (debug_info_reader self.now) in IfOk result
            (λ units. remaining_of R.view units.headers ≡ record { offset = 0; rest = section }) }
        ensures order { let order = R.order (debug_info_reader self.now) in
            IfOk result (λ units. R.order units.headers.rest ≡ order) }
        ensures err { IfErr result (CloneRanOutOfMemory R.clone_is_free) }
    {
        Ok(UnitHeadersIter::new(self.section.try_clone()?))
    }

    /// Returns the header of the unit that begins at `offset`.
    ///
    /// # Errors
    ///
    /// `UnexpectedEof` at the section's start if `offset` is past its end, and at the end if `offset`
    /// is the end. Otherwise those of [`DebugInfoUnitHeadersIter::next`].
    pub fn header_from_offset(&self, offset: DebugInfoOffset<R::Offset>) -> Result<UnitHeader<R>>
        ensures answer { let section = R.view (debug_info_reader self.now) in
            let at = R.Offset.value offset.0 in let header = unit_header compile_unit in
            UnlessCloneRanOut (ContributionAtOffset header R.Offset.GREATEST section at)
            (seen_unit R.Offset.value R.view) R.clone_is_free result }

        // Appended bytes don't change the result, unless it is `UnexpectedEof` or memory ran out.
        ensures stable { let section = R.view (debug_info_reader self.now) in
            let at = R.Offset.value offset.0 in let header = unit_header compile_unit in
            Stays (λ input. ContributionAtOffset header R.Offset.GREATEST input at)
            (seen_unit R.Offset.value R.view) R.clone_is_free section result }
        ensures entries_order { let order = R.order (debug_info_reader self.now) in
            IfOk result (λ unit. R.order unit.entries ≡ order) }
    {
        match ContributionHeader::<R, InfoFields<R>>::at(&self.section, offset.0) {
            Ok(header) => {
                let fields = header.fields().0;
                Ok(UnitHeader::from_contribution(header, fields))
            }
            Err(error) => Err(error),
        }
    }
}

impl<R> Section<R> for DebugInfo<R> {
    ghost use Rattle.dwarf_unit_core.specs.Sections.{debug_info_reader};

    ghost section_id = { debug_info };

    ghost section_reader = { debug_info_reader };

    fn id() -> SectionId {
        SectionId::DebugInfo
    }

    fn reader(&self) -> &R {
        &self.section
    }

    ghost holds_reader = { λ reader section h. h };
}

impl<R> From<R> for DebugInfo<R> {
    ghost use Rattle.dwarf_unit_core.specs.Sections.{debug_info_reader};

    ghost from_gives = { λ reader section. debug_info_reader section ≡ reader };

    fn from(section: R) -> Self {
        DebugInfo { section }
    }
}

impl<R: Drop> UnitSection for DebugInfo<R> {
    ghost TYPE_BEFORE_5 = { record { 0 = compile_unit } };

    const TYPE_BEFORE_5: DwUt = DW_UT_compile;
}

/// The fields of a header in `.debug_info`.
pub type InfoFields<R> = SectionFields<<R as Reader>::Offset, DebugInfo<R>>;

/// The units that remain of `.debug_info`, each by its header.
pub type DebugInfoUnitHeadersIter<R> = UnitHeadersIter<R, DebugInfo<R>>;
