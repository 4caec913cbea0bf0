//! The section `.debug_types`.

ghost use Rattle.std.specs.Prelude.{◌≡◌, IfOk, IfErr};
ghost use Rattle.dwarf_read_core.specs.declared.SectionId.TheVariants.{DebugTypes as debug_types};
ghost use Rattle.dwarf_read_core.specs.Contributions.{remaining_of};
ghost use Rattle.dwarf_read_core.specs.Faults.{CloneRanOutOfMemory};
ghost use Rattle.dwarf_read_core.specs.Slice.{input_of};
ghost use Rattle.dwarf_unit_core.specs.Fields.{type_unit};

use crate::units::{SectionFields, UnitHeadersIter, UnitSection};
use dwarf_read_core::{
    DW_UT_type, DwUt, EndianSlice, Endianity, Reader, Result, Section, SectionId,
};

/// The `.debug_types` section of version 4: type units (DWARF 4, 7.5.1.1).
#[derive(Debug, Default, Clone, Copy, Drop)]
pub struct DebugTypes<R> {
    section: R,
}

impl<'input, Endian: Endianity> DebugTypes<EndianSlice<'input, Endian>> {
    ghost use Rattle.dwarf_unit_core.specs.Sections.{debug_types_reader};

    /// Returns the section of these bytes.
    pub fn new(debug_types_section: &'input [u8], endian: Endian) -> Self
        ensures view { input_of (debug_types_reader result)
            ≡ record {
              bytes = debug_types_section.now;
              position = 0;
              is_big = Endian.is_big endian;
            } }
        ensures order { (debug_types_reader result).endian ≡ endian }
    {
        Self::from(EndianSlice::new(debug_types_section, endian))
    }
}

impl<R: Reader> DebugTypes<R> {
    ghost use Rattle.dwarf_unit_core.specs.Sections.{debug_types_reader};

    /// Returns the units in order, from the section's start.
    ///
    /// # Errors
    ///
    /// `OutOfMemory` if a clone of the reader runs out of memory.
    pub fn units(&self) -> Result<DebugTypesUnitHeadersIter<R>>
        ensures ok { let section = R.view (debug_types_reader self.now) in IfOk result
            (λ units. remaining_of R.view units.headers ≡ record { offset = 0; rest = section }) }
        ensures order { let order = R.order (debug_types_reader self.now) in
            IfOk result (λ units. R.order units.headers.rest ≡ order) }
        ensures err { IfErr result (CloneRanOutOfMemory R.clone_is_free) }
    {
        Ok(UnitHeadersIter::new(self.section.try_clone()?))
    }
}

impl<R> Section<R> for DebugTypes<R> {
    ghost use Rattle.dwarf_unit_core.specs.Sections.{debug_types_reader};

    ghost section_id = { debug_types };

    ghost section_reader = { debug_types_reader };

    fn id() -> SectionId {
        SectionId::DebugTypes
    }

    fn reader(&self) -> &R {
        &self.section
    }

    ghost holds_reader = { λ reader section h. h };
}

impl<R> From<R> for DebugTypes<R> {
    ghost use Rattle.dwarf_unit_core.specs.Sections.{debug_types_reader};

    ghost from_gives = { λ reader section. debug_types_reader section ≡ reader };

    fn from(section: R) -> Self {
        DebugTypes { section }
    }
}

impl<R: Drop> UnitSection for DebugTypes<R> {
    ghost TYPE_BEFORE_5 = { record { 0 = type_unit } };

    const TYPE_BEFORE_5: DwUt = DW_UT_type;
}

/// The fields of a header in `.debug_types`.
pub type TypesFields<R> = SectionFields<<R as Reader>::Offset, DebugTypes<R>>;

/// The units that remain of `.debug_types`, each by its header.
pub type DebugTypesUnitHeadersIter<R> = UnitHeadersIter<R, DebugTypes<R>>;
