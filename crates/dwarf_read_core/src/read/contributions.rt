//! Contributions: the consecutive parts of a section, each with a header.
//!
//! Sets of string offsets (DWARF 5, 7.26) and of addresses (7.27) are contributions. Units (7.5.1)
//! and sets of lists (7.28 and 7.29) have the same form: a crate that reads them says what their
//! headers have after the length, by [`HeaderFields`], and gets the rest from here.

ghost use Rattle.std.specs.Prelude.{◌≡◌, ◌+◌, ◌≤◌, ◌⊎◌, ℕ, [], Result, Ok, Err, true, length, IfOk, IfErr, IfSome, OnErr};
ghost use Rattle.std.specs.Result.{result_transpose};
ghost use Rattle.dwarf_reader_core.specs.Faults.{CloneRanOutOfMemory};
ghost use Rattle.dwarf_base_core.specs.declared.common.Format.{Format};
ghost use Rattle.dwarf_base_core.specs.declared.error.Error.{Error};
ghost use Rattle.dwarf_reader_core.specs.Input.{Input};
ghost use Rattle.dwarf_read_core.specs.Equality.{same_contribution, same_contribution_per, same_contribution_equiv};
ghost use Rattle.dwarf_reader_core.specs.Headers.{IsHeader};
ghost use Rattle.dwarf_reader_core.specs.Readings.{Reads};
ghost use Rattle.dwarf_read_core.specs.Items.{GivesFirst, StaysFirst};
ghost use Rattle.dwarf_read_core.specs.Lookups.{Stays, UnlessCloneRanOut};
ghost use Rattle.dwarf_read_core.specs.Contributions.{ContributionRead, ReadsNoContribution, RepresentsContributions, RepresentsContributionsOf, ContributionAtOffset, followed_remaining, remaining_of, seen_as, seen_by, contribution_size};

use dwarf_base_core::{Format, Result};
use dwarf_reader_core::Reader;
use std::alloc::AllocError;
use std::fmt;
use std::marker::{Model, PhantomData};

// The version of every set of addresses and of string offsets. Earlier standards have none.
pub(super) const VERSION: u16 = 5;

/// What the header of a contribution says after its length, for one kind of contributions and a
/// reader.
///
/// [`ContributionHeader`] and [`ContributionHeaderIter`] read each kind by its fields. The field of
/// a set of addresses is an [`AddressSize`](super::AddressSize), and a set of string offsets has
/// none ([`NoFields`](super::NoFields)). Fields may hold offsets of the reader.
pub trait HeaderFields<R: Reader>: fmt::Debug + Copy + Drop {
    // What the fields say, with each offset as its number.
    ghost Said: { Type 0 };

    ghost said: { Self → Said };

    // For a greatest offset and a format: what is read of a header.
    ghost header: { ℕ → Format → Input → Result Said Error × Input → Type 0 };

    /// The name of the kind's header, with which its debug text begins.
    const NAME: &'static str;

    /// Reads the fields from the front of what follows the length of a contribution with this
    /// `format`, and returns them.
    ///
    /// # Errors
    ///
    /// The first error of the fields.
    fn parse(unit: &mut R, format: Format) -> Result<Self>
        ensures read { Reads (header R.Offset.GREATEST format)
            said (R.view unit.old) result (R.view unit.new) }
        ensures order { R.order unit.new ≡ R.order unit.old };

    /// Says a law of the kind by its contract, and does nothing: the bytes and their format
    /// determine the fields or the error, and what remains.
    fn law()
        ensures { IsHeader header };
}

/// The contributions that remain of a section, each by its header.
///
/// [`AddrHeaderIter`](super::AddrHeaderIter) and
/// [`StrOffsetsHeaderIter`](super::StrOffsetsHeaderIter) are this iterator.
#[derive(Debug, Drop)]
pub struct ContributionHeaderIter<R: Reader, H: HeaderFields<R>> {
    input: R,
    // The offset after the last byte. The bytes that remain say where the next contribution begins.
    end: R::Offset,
    fields: PhantomData<H>,
}

impl<R: Reader, H: HeaderFields<R>> Model for ContributionHeaderIter<R, H> {
    ghost use Rattle.std.specs.Prelude.{◌-◌, ◌≤◌, length};
    ghost use Rattle.dwarf_read_core.specs.Contributions.{RemainingOf};

    ghost Value = { RemainingOf R };

    ghost view = { λ headers. record {
      offset = R.Offset.value headers.end - length (R.view headers.input).bytes;
      rest = headers.input;
    } };

    ghost invariant = { λ headers. length (R.view headers.input).bytes ≤ R.Offset.value headers.end };
}

impl<R: Reader, H: HeaderFields<R>> ContributionHeaderIter<R, H> {
    /// Returns the contributions of a whole section.
    pub fn new(input: R) -> Self
        ensures { result ≡ record { offset = 0; rest = input } }
    {
        let end = input.len();
        ContributionHeaderIter {
            input,
            end,
            fields: PhantomData,
        }
    }

    /// Returns the header of the next contribution, or `None` if no bytes remain.
    ///
    /// A set of addresses or of string offsets has at least eight bytes: four of its length, and
    /// four of the header's other fields.
    ///
    /// # Errors
    ///
    /// If the bytes that remain don't begin with a contribution, the first of these:
    ///
    /// - `UnexpectedEof` at the contribution's first byte if fewer than four bytes remain;
    /// - `UnknownReservedLength` if the first four bytes are 0xfffffff0 to 0xfffffffe;
    /// - `UnexpectedEof` after the first four bytes if they are 0xffffffff and fewer than eight
    ///   bytes follow;
    /// - `UnsupportedOffset` if the length doesn't fit the offset type;
    /// - `UnexpectedEof` after the length if fewer bytes follow than it says;
    /// - the first error of the header's fields.
    ///
    /// The errors of the fields of a set of addresses or of string offsets are the first of these:
    ///
    /// - `UnexpectedEof` after the length if it is less than the two bytes of the version;
    /// - `UnknownVersion` if the version isn't 5;
    /// - for addresses, in this order: `UnexpectedEof` after the version if the set ends there;
    ///   `UnsupportedAddressSize` if the address size isn't 1, 2, 4 or 8; `UnexpectedEof` after the
    ///   address size if the set ends there; `UnsupportedSegmentSize` if the segment size isn't 0;
    /// - for string offsets, `UnexpectedEof` after the version if fewer than two bytes of the set
    ///   remain for the padding, which may have any value.
    ///
    /// `OutOfMemory` if memory for a reader of the contribution runs out. After any error the
    /// iterator is exhausted: `next` returns `Ok(None)`.
    pub fn next(&mut self) -> Result<Option<ContributionHeader<R, H>>>
        ensures first { GivesFirst (RepresentsContributionsOf R.view H.header R.Offset.GREATEST)
            (seen_as H.said R.view) R.clone_is_free self.old
            (result_transpose result) self.new }
        ensures failed { OnErr result ((R.view self.new.rest).bytes ≡ []) }
        ensures bound { let old = (R.view self.old.rest).bytes in
            IfOk result (λ item. IfSome item
            (λ header. length (R.view self.new.rest).bytes
            + contribution_size (seen_as H.said R.view header) ≡ length old)) }
        ensures some { OnErr result (1 ≤ length (R.view self.old.rest).bytes) }
        ensures entries_order { let order = R.order self.old.rest in
            IfOk result (λ item. IfSome item (λ header. R.order header.entries ≡ order)) }
        ensures order { R.order self.new.rest ≡ R.order self.old.rest }

        // Appended bytes change neither a contribution nor an error, unless that is an
        // `UnexpectedEof` or memory ran out.
        ensures stable { let old = remaining_of R.view self.old in
            StaysFirst (RepresentsContributions H.header R.Offset.GREATEST)
            (seen_as H.said R.view) R.clone_is_free followed_remaining old
            (result_transpose result) (remaining_of R.view self.new) }
    {
        H::law();
        if self.input.is_empty() {
            return Ok(None);
        }
        let offset = self.end - self.input.len();
        match ContributionHeader::parse(&mut self.input, offset) {
            Ok(header) => Ok(Some(header)),
            Err(error) => {
                // Nothing says where the next contribution would begin.
                self.input.empty();
                Err(error)
            }
        }
    }
}

impl<R: Reader, H: HeaderFields<R>> Iterator for ContributionHeaderIter<R, H> {
    type Item = Result<ContributionHeader<R, H>>;

    ghost use Rattle.std.specs.Prelude.{length};
    ghost use Rattle.std.specs.Iterator.{at_most};
    ghost use Rattle.dwarf_read_core.specs.Items.{GivesFirst};
    ghost use Rattle.dwarf_read_core.specs.Contributions.{RepresentsContributionsOf, seen_as};

    ghost next_gives = { GivesFirst (RepresentsContributionsOf R.view H.header R.Offset.GREATEST) (seen_as H.said R.view) R.clone_is_free };

    ghost remaining = { λ headers. at_most (length (R.view headers.rest).bytes) };

    fn next(&mut self) -> Option<Result<ContributionHeader<R, H>>> {
        self.next().transpose()
    }
}

impl<R: Reader + Clone, H: HeaderFields<R>> Clone for ContributionHeaderIter<R, H> {
    ghost is_clone = { λ headers copy. (remaining_of R.view copy ≡ remaining_of R.view headers)
        × (R.order copy.rest ≡ R.order headers.rest) };

    ghost is_infallible = { λ _. R.clone_is_free ≡ true };

    fn clone(&self) -> std::result::Result<Self, AllocError> {
        Ok(ContributionHeaderIter {
            input: self.input.try_clone().map_err(|_| AllocError)?,
            end: self.end,
            fields: PhantomData,
        })
    }
}

/// The header of a contribution, and the entries that follow it.
///
/// [`AddrHeader`](super::AddrHeader) and [`StrOffsetsHeader`](super::StrOffsetsHeader) are this
/// header, and have further calls of their own.
#[derive(Drop)]
pub struct ContributionHeader<R: Reader, H: HeaderFields<R>> {
    pub(super) offset: R::Offset,
    length: R::Offset,
    pub(super) fields: H,
    pub(super) format: Format,
    // Always 0. With it a header is copied by larger moves than with unnamed padding.
    padding: u16,
    pub(super) entries: R,
}

impl<R: Reader, H: HeaderFields<R>> Model for ContributionHeader<R, H> {
    ghost use Rattle.std.specs.Prelude.{◌≡◌};
    ghost use Rattle.dwarf_read_core.specs.Contributions.{ContributionOf};

    ghost Value = { ContributionOf H R };

    ghost view = { λ a. record {
      offset = R.Offset.value a.offset;
      format = a.format;
      unit_length = R.Offset.value a.length;
      header = a.fields;
      entries = a.entries;
    } };

    ghost invariant = { λ a. a.padding ≡ 0 };
}

/// Two headers are equal if their offsets, lengths, formats, fields and readers are.
impl<R: Reader + PartialEq, H: HeaderFields<R> + Eq> PartialEq for ContributionHeader<R, H> {
    ghost eq = { same_contribution H.eq R.eq };

    ghost laws = { same_contribution_per H.Eq.laws R.PartialEq.laws };

    fn eq(&self, other: &Self) -> bool {
        self.offset == other.offset
            && self.length == other.length
            && self.format == other.format
            && self.fields == other.fields
            && self.entries == other.entries
    }
}

impl<R: Reader + Eq, H: HeaderFields<R> + Eq> Eq for ContributionHeader<R, H> {
    ghost laws = { same_contribution_equiv H.Eq.laws R.Eq.laws };
}

impl<R: Reader + Clone, H: HeaderFields<R>> Clone for ContributionHeader<R, H> {
    ghost is_clone = { λ header copy. (seen_by R.view copy ≡ seen_by R.view header)
        × (R.order copy.entries ≡ R.order header.entries) };

    ghost is_infallible = { λ _. R.clone_is_free ≡ true };

    fn clone(&self) -> std::result::Result<Self, AllocError> {
        Ok(ContributionHeader {
            offset: self.offset,
            length: self.length,
            fields: self.fields,
            format: self.format,
            padding: 0,
            entries: self.entries.try_clone().map_err(|_| AllocError)?,
        })
    }
}

// Prints the name of the kind's header.
impl<R: Reader, H: HeaderFields<R>> fmt::Debug for ContributionHeader<R, H> {
    fn fmt<W: fmt::Write>(&self, f: &mut fmt::Formatter<W>) -> fmt::Result {
        f.debug_struct(H::NAME)
            .field("offset", &self.offset)
            .field("length", &self.length)
            .field("format", &self.format)
            .field("fields", &self.fields)
            .field("entries", &self.entries)
            .finish()
    }
}

impl<R: Reader, H: HeaderFields<R>> ContributionHeader<R, H> {
    /// Returns the header of the contribution that begins at `offset` of a section, in bytes from
    /// the section's start.
    ///
    /// # Errors
    ///
    /// `UnexpectedEof` at the section's start if `offset` is past its end, and at the end if `offset`
    /// is the end. Otherwise those of [`ContributionHeaderIter::next`].
    pub fn at(section: &R, offset: R::Offset) -> Result<Self>
        ensures answer { let input = R.view section.now in let at = R.Offset.value offset in
            UnlessCloneRanOut (ContributionAtOffset H.header R.Offset.GREATEST input at)
            (seen_as H.said R.view) R.clone_is_free result }

        // Appended bytes don't change the result, unless it is `UnexpectedEof` or memory ran out.
        ensures stable { let at = R.Offset.value offset in
            Stays (λ input. ContributionAtOffset H.header R.Offset.GREATEST input at)
            (seen_as H.said R.view) R.clone_is_free (R.view section.now) result }
        ensures entries_order { IfOk result
            (λ header. R.order header.entries ≡ R.order section.now) }
    {
        H::law();
        let mut input = section.try_clone()?;
        input.skip(offset)?;
        ContributionHeader::parse(&mut input, offset)
    }

    /// Reads the header of the contribution at the front of `input`, which begins at this `offset`
    /// of the section, and skips the contribution.
    ///
    /// # Errors
    ///
    /// Those of [`ContributionHeaderIter::next`]. An input without bytes is an `UnexpectedEof` too.
    pub fn parse(input: &mut R, offset: R::Offset) -> Result<Self>
        ensures ok { let at = R.Offset.value offset in IfOk result
            (λ header. ContributionRead H.header R.Offset.GREATEST at (R.view input.old)
            (Ok (seen_as H.said R.view header), R.view input.new)) }
        ensures err { let at = R.Offset.value offset in IfErr result
            (λ e. ReadsNoContribution H.header R.Offset.GREATEST R.clone_is_free at
            (R.view input.old) e (R.view input.new)) }
        ensures entries_order { IfOk result
            (λ header. R.order header.entries ≡ R.order input.old) }
        ensures order { R.order input.new ≡ R.order input.old }
    {
        let (length, format) = input.read_initial_length()?;
        let mut unit = input.split(length)?;
        let fields = H::parse(&mut unit, format)?;
        Ok(ContributionHeader {
            offset,
            length,
            fields,
            format,
            padding: 0,
            entries: unit,
        })
    }

    /// Returns how many bytes of the contribution follow its initial length: those of the rest of
    /// the header, and of the entries.
    pub fn length(&self) -> R::Offset
        ensures { R.Offset.value result ≡ self.now.unit_length }
    {
        self.length
    }

    /// Returns where the contribution begins, in bytes from the section's start.
    pub fn section_offset(&self) -> R::Offset
        ensures { R.Offset.value result ≡ self.now.offset }
    {
        self.offset
    }

    /// Returns the contribution's format.
    pub fn format(&self) -> Format
        ensures { result ≡ self.now.format }
    {
        self.format
    }

    /// Returns what the header says.
    pub fn fields(&self) -> H
        ensures { result ≡ self.now.header }
    {
        self.fields
    }

    /// Returns the reader of the entries, which isn't cloned.
    pub fn into_entries(self) -> R
        ensures { result ≡ self.entries }
    {
        self.entries
    }
}
