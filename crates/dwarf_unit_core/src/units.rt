//! The units of a section, each by its header.

ghost use Rattle.std.specs.Prelude.{◌≡◌, true, ◌+◌, ◌≤◌, [], ℕ, length, IfOk, IfSome, OnErr};
ghost use Rattle.std.specs.Result.{result_transpose};
ghost use Rattle.dwarf_read_core.specs.Contributions.{RepresentsContributions, RepresentsContributionsOf, followed_remaining, remaining_of};
ghost use Rattle.dwarf_read_core.specs.Items.{GivesFirst, StaysFirst};
ghost use Rattle.dwarf_read_core.specs.declared.DwUt.{DwUt};
ghost use Rattle.dwarf_unit_core.specs.Fields.{unit_header};
ghost use Rattle.dwarf_unit_core.specs.Seen.{seen_fields, seen_unit};
ghost use Rattle.dwarf_unit_core.specs.declared.header.UnitFields.{UnitFields};

use crate::header::{UnitFields, parse_fields};
use crate::unit::UnitHeader;
use dwarf_read_core::{ContributionHeaderIter, DwUt, Format, HeaderFields, Reader, Result};
use std::alloc::AllocError;
use std::marker::PhantomData;

/// A section of units: `.debug_info`, or `.debug_types` of version 4.
pub trait UnitSection: Drop {
    ghost TYPE_BEFORE_5: { DwUt };

    /// The type of the section's units before version 5, whose headers don't say it.
    const TYPE_BEFORE_5: DwUt;
}

/// The fields of the header of a unit in the section `U`.
// `U` is only a name, so the derives require nothing of it.
#[derive(Drop)]
#[derive_where(Debug, Clone, Copy, PartialEq, Eq; Offset)]
pub struct SectionFields<Offset, U>(pub UnitFields<Offset>, PhantomData<U>);

impl<R: Reader, U: UnitSection> HeaderFields<R> for SectionFields<R::Offset, U> {
    ghost Said = { UnitFields ℕ };

    ghost said = { λ fields. seen_fields R.Offset.value fields.0 };

    ghost header = { unit_header U.TYPE_BEFORE_5.0 };

    const NAME: &'static str = "UnitHeader";

    fn parse(unit: &mut R, format: Format) -> Result<Self> {
        let fields = parse_fields(unit, format, U::TYPE_BEFORE_5)?;
        Ok(SectionFields(fields, PhantomData))
    }

    fn law() {}
}

/// The units that remain of a section, each by its header.
///
/// [`DebugInfoUnitHeadersIter`](crate::DebugInfoUnitHeadersIter) and
/// [`DebugTypesUnitHeadersIter`](crate::DebugTypesUnitHeadersIter) are this iterator.
#[derive(Debug, Drop)]
pub struct UnitHeadersIter<R: Reader, U: UnitSection> {
    headers: ContributionHeaderIter<R, SectionFields<R::Offset, U>>,
}

impl<R: Reader, U: UnitSection> UnitHeadersIter<R, U> {
    // Returns the units of a whole section.
    pub(crate) fn new(section: R) -> Self
        ensures { result.headers ≡ record { offset = 0; rest = section } }
    {
        UnitHeadersIter {
            headers: ContributionHeaderIter::new(section),
        }
    }

    /// Returns the header of the next unit, or `None` if no bytes remain. A unit has at least 11
    /// bytes.
    ///
    /// # Errors
    ///
    /// If the bytes that remain don't begin with a unit, the first of these:
    ///
    /// - those of an initial length, and of a part of that length
    ///   ([`ContributionHeaderIter::next`](dwarf_read_core::ContributionHeaderIter::next));
    /// - `UnexpectedEof` at the first field that isn't whole in the unit;
    /// - `UnknownVersion` if the version isn't 2 to 5;
    /// - `UnsupportedAddressSize` if the address size isn't 1, 2, 4 or 8;
    /// - `UnsupportedOffset` if an offset doesn't fit the offset type;
    /// - `UnknownUnitType` if the unit's type isn't `DW_UT_compile` to `DW_UT_split_type`. It is
    ///   tested after the fields that all units have.
    ///
    /// `OutOfMemory` if memory for a reader of the unit runs out. After any error the iterator is
    /// exhausted: `next` returns `Ok(None)`.
    pub fn next(&mut self) -> Result<Option<UnitHeader<R>>>
        ensures first { let header = unit_header U.TYPE_BEFORE_5.0 in
            GivesFirst (RepresentsContributionsOf R.view header R.Offset.GREATEST)
            (seen_unit R.Offset.value R.view) R.clone_is_free self.old.headers
            (result_transpose result) self.new.headers }
        ensures failed { OnErr result ((R.view self.new.headers.rest).bytes ≡ []) }
        ensures bound { let old = (R.view self.old.headers.rest).bytes in
            IfOk result (λ item. IfSome item
            (λ _. length (R.view self.new.headers.rest).bytes + 11 ≤ length old)) }
        ensures some { OnErr result (1 ≤ length (R.view self.old.headers.rest).bytes) }
        ensures entries_order { let order = R.order self.old.headers.rest in
            IfOk result (λ item. IfSome item (λ unit. R.order unit.entries ≡ order)) }
        ensures order { R.order self.new.headers.rest ≡ R.order self.old.headers.rest }

        // Appended bytes change neither a unit nor an error, unless that is an `UnexpectedEof` or
        // memory ran out.
        ensures stable { let old = remaining_of R.view self.old.headers in
            StaysFirst (RepresentsContributions (unit_header U.TYPE_BEFORE_5.0) R.Offset.GREATEST)
            (seen_unit R.Offset.value R.view) R.clone_is_free followed_remaining old
            (result_transpose result) (remaining_of R.view self.new.headers) }
    {
        match self.headers.next() {
            Ok(Some(header)) => {
                let fields = header.fields().0;
                Ok(Some(UnitHeader::from_contribution(header, fields)))
            }
            Ok(None) => Ok(None),
            Err(error) => Err(error),
        }
    }
}

impl<R: Reader, U: UnitSection> Iterator for UnitHeadersIter<R, U> {
    type Item = Result<UnitHeader<R>>;

    ghost use Rattle.std.specs.Prelude.{length};
    ghost use Rattle.std.specs.Iterator.{at_most};
    ghost use Rattle.dwarf_read_core.specs.Contributions.{RepresentsContributionsOf};
    ghost use Rattle.dwarf_read_core.specs.Items.{GivesFirst};
    ghost use Rattle.dwarf_unit_core.specs.Fields.{unit_header};
    ghost use Rattle.dwarf_unit_core.specs.Seen.{seen_unit};

    ghost next_gives = { λ old item new. GivesFirst (RepresentsContributionsOf R.view (unit_header U.TYPE_BEFORE_5.0) R.Offset.GREATEST) (seen_unit R.Offset.value R.view) R.clone_is_free old.headers item new.headers };

    ghost remaining = { λ units. at_most (length (R.view units.headers.rest).bytes) };

    fn next(&mut self) -> Option<Result<UnitHeader<R>>> {
        self.next().transpose()
    }
}

impl<R: Reader + Clone, U: UnitSection> Clone for UnitHeadersIter<R, U> {
    ghost use Rattle.dwarf_read_core.specs.Contributions.{remaining_of};

    ghost is_clone = { λ units copy. (remaining_of R.view copy.headers ≡ remaining_of R.view units.headers) × (R.order copy.headers.rest ≡ R.order units.headers.rest) };

    ghost is_infallible = { λ _. R.clone_is_free ≡ true };

    fn clone(&self) -> std::result::Result<Self, AllocError> {
        let headers = self.headers.clone()?;
        Ok(UnitHeadersIter { headers })
    }
}
