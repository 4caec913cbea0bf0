//! Abbreviation tables: the `.debug_abbrev` section (DWARF 5, 7.5.3).
//!
//! A compilation unit stores each debugging information entry as a code and the values of its
//! attributes. The unit's table of abbreviations says what a code means: the tag of the entry,
//! whether it has children, and which attributes follow in which forms.

ghost use Rattle.std.specs.Prelude.{◌≡◌, ◌≢◌, ◌≤◌, ℕ, List, Ok, Err, IfOk, IfErr, OnOk, length};
ghost use Rattle.std.specs.Fn.{CalledAt, TakesAt};
ghost use Rattle.dwarf_base_core.specs.declared.common.SectionId.TheVariants.{DebugAbbrev as debug_abbrev};
ghost use Rattle.dwarf_reader_core.specs.Appended.{followed_by};
ghost use Rattle.dwarf_reader_core.specs.Input.{end_of};
ghost use Rattle.dwarf_reader_core.specs.Slice.{input_of};
ghost use Rattle.dwarf_read_core.specs.Answer.{Answer, Answers, AnswersStrictly, DeclarationsEndAt, FitsIn, IsFinal, IsStrictlyFinal, SparesMemory, TableEndsAt};

use super::section::Section;
use before::parse_before;
use dwarf_base_core::{
    DebugAbbrevOffset, Endianity, Error, ReaderOffset, ReaderOffsetId, Result, SectionId,
};
use dwarf_reader_core::{EndianSlice, Reader};
use parse::parse;
use std::alloc::Global;

mod abbreviation;
mod attribute;
mod before;
mod cache;
mod collector;
mod others;
mod parse;
mod sink;
mod table;
#[cfg(test)]
mod tests;

pub use abbreviation::Abbreviation;
pub use attribute::AttributeSpecification;
pub use cache::{AbbreviationsCache, AbbreviationsCacheStrategy};
pub use sink::{AbbreviationDeclaration, AbbreviationSink};
pub use table::{Abbreviations, AbbreviationsIter};

/// The `.debug_abbrev` section (DWARF 5, 7.5.3): consecutive tables of abbreviations.
///
/// A unit's header says at which offset its table begins.
#[derive(Debug, Default, Clone, Copy, Drop)]
pub struct DebugAbbrev<R> {
    debug_abbrev_section: R,
}

impl<'input, Endian: Endianity> DebugAbbrev<EndianSlice<'input, Endian>> {
    ghost use Rattle.dwarf_read_core.specs.Sections.{debug_abbrev_reader};

    /// Returns the section with these bytes, whose first byte has position 0.
    ///
    /// ```
    /// let section = DebugAbbrev::new(bytes, LittleEndian);
    /// let table = section.abbreviations(mem, DebugAbbrevOffset(0))?;
    /// let tag = table.get(1).map(|abbreviation| abbreviation.tag());
    /// ```
    pub fn new(debug_abbrev_section: &'input [u8], endian: Endian) -> Self
        ensures view { input_of (debug_abbrev_reader result)
            ≡ record {
              bytes = debug_abbrev_section.now;
              position = 0;
              is_big = Endian.is_big endian;
            } }
        ensures order { (debug_abbrev_reader result).endian ≡ endian }
    {
        Self::from(EndianSlice::new(debug_abbrev_section, endian))
    }
}

impl<R: Reader> DebugAbbrev<R> {
    ghost use Rattle.dwarf_read_core.specs.Sections.{debug_abbrev_reader};

    /// Returns the table of abbreviations at `offset`, in bytes from the section's start.
    ///
    /// A table is a sequence of declarations with distinct codes. A code of value 0 closes it, and
    /// so does the section's end if a declaration could begin there. The table at an offset equal
    /// to the section's length is empty.
    ///
    /// # Errors
    ///
    /// If the bytes don't begin with a table, their first error is returned:
    ///
    /// - `UnexpectedEof`, at the section's start if `offset` is past its end, and at the
    ///   section's end if a declaration is cut short;
    /// - `BadUnsignedLeb128` for a code that is too long or doesn't fit `u64`, or for a tag, name or
    ///   form that is too long or doesn't fit `u16` ([the limits](crate::leb128#limits-and-errors));
    /// - `BadSignedLeb128` for a value that is too long or doesn't fit `i64`;
    /// - `AbbreviationTagZero`, `InvalidAbbreviationChildren`, `AttributeNameZero` or
    ///   `AttributeFormZero` for a field with a value that no declaration has;
    /// - `DuplicateAbbreviationCode` for a whole declaration with the code of an earlier one.
    ///
    /// `OutOfMemory` if memory for the table, or for a clone of the reader, runs out.
    pub fn abbreviations(
        &self,
        mem: Global,
        offset: DebugAbbrevOffset<R::Offset>,
    ) -> Result<Abbreviations>
        ensures answer { let section = R.view (debug_abbrev_reader self.now) in
            Answers result section (R.Offset.value offset.0) }

        // A declaration has at least five bytes, and an attribute two more.
        ensures bound { let section = R.view (debug_abbrev_reader self.now) in
            IfOk result (FitsIn section (R.Offset.value offset.0)) }

        // If clones can't fail, a table without declarations needs no memory.
        ensures memory { let section = R.view (debug_abbrev_reader self.now) in
            SparesMemory R.clone_is_free section (R.Offset.value offset.0) result }

        // Appended bytes don't change a result that doesn't depend on where the section ends.
        ensures stable { let section = R.view (debug_abbrev_reader self.now) in
            IsFinal result → (more : List ℕ)
            → Answers result (followed_by section more) (R.Offset.value offset.0) }
    {
        let (abbreviations, _) = self.abbreviations_and_end(mem, offset)?;
        Ok(abbreviations)
    }

    /// Returns the table of abbreviations at `offset`, and the offset of its end, in bytes from the
    /// section's start.
    ///
    /// A table ends after the code of value 0 that closes it, or at the section's end. To walk a
    /// section, read each table at the end of the one before it:
    ///
    /// ```
    /// while offset < bytes.len() {
    ///     let (table, end) = section.abbreviations_and_end(mem, DebugAbbrevOffset(offset))?;
    ///     tables.push(table)?;
    ///     offset = end.0;
    /// }
    /// ```
    ///
    /// # Errors
    ///
    /// Those of [`abbreviations`](Self::abbreviations).
    #[inline]
    pub fn abbreviations_and_end(
        &self,
        mem: Global,
        offset: DebugAbbrevOffset<R::Offset>,
    ) -> Result<(Abbreviations, DebugAbbrevOffset<R::Offset>)>
        ensures answer { let section = R.view (debug_abbrev_reader self.now) in
            IfOk result (λ r. Answer section (R.Offset.value offset.0) (Ok r.0)) }
        ensures end { let section = R.view (debug_abbrev_reader self.now) in
            IfOk result (λ r. TableEndsAt section (R.Offset.value offset.0)
            r.0 (R.Offset.value r.1.0)) }
        ensures err { let section = R.view (debug_abbrev_reader self.now) in
            IfErr result (λ e. Answers (Err e) section (R.Offset.value offset.0)) }
        ensures bound { let section = R.view (debug_abbrev_reader self.now) in
            IfOk result (λ r. FitsIn section (R.Offset.value offset.0) r.0) }
        ensures memory { let section = R.view (debug_abbrev_reader self.now) in
            SparesMemory R.clone_is_free section (R.Offset.value offset.0) result }
    {
        let (mut abbreviations, end) = self.abbreviations_into::<Abbreviations>(mem, offset)?;
        abbreviations.trim();
        Ok((abbreviations, end))
    }

    /// Returns the table of abbreviations at `offset` in a form of the caller's own, and the offset
    /// of its end.
    ///
    /// This is [`abbreviations_and_end`](Self::abbreviations_and_end) for a program that keeps tables
    /// in a form of its own: see [`AbbreviationSink`].
    ///
    /// # Errors
    ///
    /// Those of [`abbreviations`](Self::abbreviations). `OutOfMemory` if the table returns that, too.
    #[inline]
    pub fn abbreviations_into<T: AbbreviationSink>(
        &self,
        mem: Global,
        offset: DebugAbbrevOffset<R::Offset>,
    ) -> Result<(T, DebugAbbrevOffset<R::Offset>)>
        ensures answer { let section = R.view (debug_abbrev_reader self.now) in
            IfOk result (λ r. Answer section (R.Offset.value offset.0) (Ok (T.table r.0))) }
        ensures end { let section = R.view (debug_abbrev_reader self.now) in
            IfOk result (λ r. TableEndsAt section (R.Offset.value offset.0)
            (T.table r.0) (R.Offset.value r.1.0)) }
        ensures err { let section = R.view (debug_abbrev_reader self.now) in
            IfErr result (λ e. Answers (Err e) section (R.Offset.value offset.0)) }
        ensures bound { let section = R.view (debug_abbrev_reader self.now) in
            IfOk result (λ r. FitsIn section (R.Offset.value offset.0) (T.table r.0)) }
        ensures memory { let section = R.view (debug_abbrev_reader self.now) in
            SparesMemory R.clone_is_free section (R.Offset.value offset.0) result }
    {
        let mut input = self.debug_abbrev_section.try_clone()?;
        let len = input.len();
        input.skip(offset.0)?;
        // Only the parser refers to this one, so that the compiler keeps it in registers.
        let mut input = input;
        let table: T = parse(mem, &mut input)?;
        Ok((table, DebugAbbrevOffset(len - input.len())))
    }

    /// Returns the abbreviations before the first error of the table at `offset`, and the offset, in
    /// bytes from the section's start, at which the declaration with the error begins.
    ///
    /// `error` is what [`abbreviations`](Self::abbreviations) returned for this offset. With this
    /// call, a program can say where a table breaks, and go on with what stands before. It reads these
    /// abbreviations once more. If there is no error, it returns all of them, and the offset of the
    /// code of value 0, or of the section's end.
    ///
    /// # Errors
    ///
    /// - `UnexpectedEof` at the section's start if `offset` is past its end.
    /// - `DuplicateAbbreviationCode` if that is the table's error, and `error` is another one.
    /// - `OutOfMemory` if memory for the table, or for a clone of the reader, runs out.
    pub fn abbreviations_before<T: AbbreviationSink>(
        &self,
        mem: Global,
        offset: DebugAbbrevOffset<R::Offset>,
        error: &Error,
    ) -> Result<(T, DebugAbbrevOffset<R::Offset>)>
        ensures end { let section = R.view (debug_abbrev_reader self.now) in
            IfOk result (λ r. DeclarationsEndAt section (R.Offset.value offset.0)
            (T.table r.0) (R.Offset.value r.1.0)) }
        ensures within { let section = R.view (debug_abbrev_reader self.now) in
            OnOk result (R.Offset.value offset.0 ≤ length section.bytes) }
        ensures err { let section = R.view (debug_abbrev_reader self.now) in
            IfErr result (λ e. Answers (Err e) section (R.Offset.value offset.0)) }
        ensures other { let section = R.view (debug_abbrev_reader self.now) in
            IfErr result (λ e. e ≢ Error.OutOfMemory
            → R.Offset.value offset.0 ≤ length section.bytes → error.now ≢ e) }
        ensures memory { let section = R.view (debug_abbrev_reader self.now) in
            SparesMemory R.clone_is_free section (R.Offset.value offset.0) result }
    {
        let mut input = self.debug_abbrev_section.try_clone()?;
        let len = input.len();
        input.skip(offset.0)?;
        let (table, left) = parse_before(mem, &mut input, error)?;
        Ok((table, DebugAbbrevOffset(len - left)))
    }

    /// Returns the table of abbreviations at `offset`, which a code of value 0 has to close.
    ///
    /// This is [`abbreviations`](Self::abbreviations), except that the section's end closes no
    /// table. It is meant for a section that is still growing, and for checking what a producer
    /// wrote: a table that is returned remains the table at `offset`, whatever bytes are appended
    /// to the section.
    ///
    /// # Errors
    ///
    /// - `UnterminatedAbbreviations`, with the identifier of the section's end, if only that end
    ///   closes the table. This includes an `offset` that equals the section's length.
    /// - All errors of [`abbreviations`](Self::abbreviations).
    #[tactic(auto, using(crate::proofs::tables::StrictAnswers::strictly_stays, crate::proofs::tables::StrictAnswers::unclosed_stays))]
    pub fn abbreviations_strict(
        &self,
        mem: Global,
        offset: DebugAbbrevOffset<R::Offset>,
    ) -> Result<Abbreviations>
        ensures answer { let section = R.view (debug_abbrev_reader self.now) in
            AnswersStrictly result section (R.Offset.value offset.0) }
        ensures bound { let section = R.view (debug_abbrev_reader self.now) in
            IfOk result (FitsIn section (R.Offset.value offset.0)) }
        ensures memory { let section = R.view (debug_abbrev_reader self.now) in
            SparesMemory R.clone_is_free section (R.Offset.value offset.0) result }

        // Appended bytes don't change a result that doesn't depend on where the section ends. No
        // table does.
        ensures stable { let section = R.view (debug_abbrev_reader self.now) in
            IsStrictlyFinal result → (more : List ℕ)
            → AnswersStrictly result (followed_by section more) (R.Offset.value offset.0) }
    {
        let abbreviations = self.abbreviations(mem, offset)?;
        if abbreviations.closed_by_null() {
            Ok(abbreviations)
        } else {
            Err(Error::UnterminatedAbbreviations(self.end_id()))
        }
    }

    // The identifier of the section's end.
    fn end_id(&self) -> ReaderOffsetId
        ensures { result.0 ≡ end_of (R.view (debug_abbrev_reader self.now)) }
    {
        let section = &self.debug_abbrev_section;
        ReaderOffsetId(section.offset_id().0 + section.len().into_u64())
    }
}

impl<T> DebugAbbrev<T> {
    ghost use Rattle.dwarf_read_core.specs.Sections.{debug_abbrev_reader};

    /// Returns a section that borrows this one's data. Use it if this one owns its bytes, such as
    /// `DebugAbbrev<Vec<u8>>`, which has no `Reader`: `borrow` makes one, such as an
    /// `EndianSlice`, of a reference to them.
    ///
    /// `borrow` is called once. The caller makes sure that it may be called with that reference.
    pub fn borrow<'a, F, R>(&'a self, mut borrow: F) -> DebugAbbrev<R>
    where
        F: FnMut(&'a T) -> R + Drop,
        requires { TakesAt F.FnMut borrow (debug_abbrev_reader self.now) }
        ensures { (after : F)
            × CalledAt F.FnMut borrow
            (debug_abbrev_reader self.now) (debug_abbrev_reader result) after }
    {
        borrow(&self.debug_abbrev_section).into()
    }
}

impl<R> Section<R> for DebugAbbrev<R> {
    ghost use Rattle.dwarf_read_core.specs.Sections.{debug_abbrev_reader};

    ghost section_id = { debug_abbrev };

    ghost section_reader = { debug_abbrev_reader };

    fn id() -> SectionId {
        SectionId::DebugAbbrev
    }

    fn reader(&self) -> &R {
        &self.debug_abbrev_section
    }

    ghost holds_reader = { λ reader section h. h };
}

impl<R> From<R> for DebugAbbrev<R> {
    ghost use Rattle.dwarf_read_core.specs.Sections.{debug_abbrev_reader};

    ghost from_gives = { λ reader section. debug_abbrev_reader section ≡ reader };

    fn from(debug_abbrev_section: R) -> Self {
        DebugAbbrev {
            debug_abbrev_section,
        }
    }
}
