//! Sets of string offsets: the headers and entries of `.debug_str_offsets` (DWARF 5, 7.26).

ghost use Rattle.std.specs.Prelude.{◌≡◌, ◌+◌, ◌<◌, ◌≤◌, [], true, length, IfOk, IfErr, IfSome, OnErr};
ghost use Rattle.std.specs.Result.{result_transpose};
ghost use Rattle.dwarf_reader_core.specs.Faults.{CloneRanOutOfMemory};
ghost use Rattle.dwarf_read_core.specs.Entries.{RepresentsStringOffsets};
ghost use Rattle.dwarf_read_core.specs.Items.{GivesFirst};
ghost use Rattle.dwarf_reader_core.specs.Headers.{StringOffsetsHeaderRead};
ghost use Rattle.dwarf_read_core.specs.Contributions.{seen_by, string_offsets_of};

use crate::read::contributions::{
    ContributionHeader, ContributionHeaderIter, HeaderFields, VERSION,
};
use dwarf_base_core::{DebugStrOffset, Error, Format, Result};
use dwarf_reader_core::Reader;
use std::alloc::AllocError;
use std::marker::Model;

/// The sets of string offsets that remain of a section, each by its header.
///
/// ```
/// for header in section.headers()? {
///     for offset in header?.entries()? {
///         offsets.push(offset?.0)?;
///     }
/// }
/// ```
pub type StrOffsetsHeaderIter<R> = ContributionHeaderIter<R, NoFields>;

/// The header of a set of string offsets, and the offsets that follow it. The header says nothing
/// after its version.
pub type StrOffsetsHeader<R> = ContributionHeader<R, NoFields>;

/// What the header of a set of string offsets says after its version: nothing.
#[derive(Clone, Copy, Debug, PartialEq, Eq)]
pub struct NoFields;

impl Model for NoFields {
    ghost Value = { Unit {0} };

    ghost view = { λ _. tt };

    ghost inverse = { λ _. record {} };
}

impl<R: Reader> HeaderFields<R> for NoFields {
    ghost Said = { Unit {0} };

    ghost said = { λ none. none };

    ghost header = { StringOffsetsHeaderRead };

    const NAME: &'static str = "StrOffsetsHeader";

    fn parse(unit: &mut R, _format: Format) -> Result<NoFields> {
        let version = unit.read_u16()?;
        if version != VERSION {
            return Err(Error::UnknownVersion(u64::from(version)));
        }
        let _padding = unit.read_u16()?;
        Ok(NoFields)
    }

    fn law() {}
}

impl<R: Reader> StrOffsetsHeader<R> {
    /// Returns where the set begins, in bytes from the section's start.
    pub fn offset(&self) -> R::Offset
        ensures { R.Offset.value result ≡ self.now.offset }
    {
        self.offset
    }

    /// Returns the offsets of the set.
    ///
    /// # Errors
    ///
    /// `OutOfMemory` if a clone of the reader runs out of memory.
    pub fn entries(&self) -> Result<StrOffsetsEntryIter<R>>
        ensures ok { IfOk result
            (λ entries. entries ≡ string_offsets_of (seen_by R.view self.now)) }
        ensures err { IfErr result (CloneRanOutOfMemory R.clone_is_free) }
    {
        Ok(StrOffsetsEntryIter {
            input: self.entries.try_clone()?,
            format: self.format,
        })
    }
}

/// The string offsets that remain of a set.
#[derive(Debug, Drop)]
pub struct StrOffsetsEntryIter<R: Reader> {
    input: R,
    format: Format,
}

impl<R: Reader> Model for StrOffsetsEntryIter<R> {
    ghost use Rattle.dwarf_base_core.specs.Format.{word_size};
    ghost use Rattle.dwarf_read_core.specs.Entries.{Entries};

    ghost Value = { Entries };

    ghost view = { λ entries. record { width = word_size entries.format; rest = R.view entries.input } };
}

impl<R: Reader> StrOffsetsEntryIter<R> {
    /// Returns the next offset of a string in `.debug_str`, or `None` if no bytes remain. It
    /// doesn't allocate.
    ///
    /// # Errors
    ///
    /// `UnexpectedEof` at the bytes that remain if they are fewer than a word has, and
    /// `UnsupportedOffset` if the next word doesn't fit the offset type. After either `next`
    /// returns `Ok(None)`.
    pub fn next(&mut self) -> Result<Option<DebugStrOffset<R::Offset>>>
        ensures first { GivesFirst (RepresentsStringOffsets R.Offset.GREATEST)
            (λ offset. R.Offset.value offset.0) true self.old (result_transpose result) self.new }
        ensures failed { OnErr result (self.new.rest.bytes ≡ []) }
        ensures bound { IfOk result
            (λ item. IfSome item
            (λ _. (length self.new.rest.bytes + self.old.width ≡ length self.old.rest.bytes)
            × (length self.new.rest.bytes < length self.old.rest.bytes))) }
        ensures some { OnErr result (1 ≤ length self.old.rest.bytes) }
        ensures width { self.new.width ≡ self.old.width }
    {
        if self.input.is_empty() {
            return Ok(None);
        }
        match self.input.read_offset(self.format) {
            Ok(entry) => Ok(Some(DebugStrOffset(entry))),
            Err(error) => {
                self.input.empty();
                Err(error)
            }
        }
    }
}

impl<R: Reader> Iterator for StrOffsetsEntryIter<R> {
    type Item = Result<DebugStrOffset<R::Offset>>;

    ghost use Rattle.std.specs.Prelude.{length, true};
    ghost use Rattle.std.specs.Iterator.{at_most};
    ghost use Rattle.dwarf_read_core.specs.Entries.{RepresentsStringOffsets};
    ghost use Rattle.dwarf_read_core.specs.Items.{GivesFirst};

    ghost next_gives = { GivesFirst (RepresentsStringOffsets R.Offset.GREATEST) (λ offset. R.Offset.value offset.0) true };

    ghost remaining = { λ entries. at_most (length entries.rest.bytes) };

    #[tactic(auto, using(crate::proofs::contributions::IteratorsEnd::entries_progress))]
    fn next(&mut self) -> Option<Result<DebugStrOffset<R::Offset>>> {
        self.next().transpose()
    }
}

impl<R: Reader + Clone> Clone for StrOffsetsEntryIter<R> {
    ghost is_clone = { λ entries copy. copy ≡ entries };

    ghost is_infallible = { λ _. R.clone_is_free ≡ true };

    fn clone(&self) -> std::result::Result<Self, AllocError> {
        Ok(StrOffsetsEntryIter {
            input: self.input.try_clone().map_err(|_| AllocError)?,
            format: self.format,
        })
    }
}
