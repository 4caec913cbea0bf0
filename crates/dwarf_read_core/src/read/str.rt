//! Strings: the sections `.debug_str`, `.debug_str_offsets` and `.debug_line_str` (DWARF 5, 7.5.5
//! and 7.26).

ghost use Rattle.std.specs.Prelude.{◌≡◌, Ok, IfOk, IfErr};
ghost use Rattle.std.specs.Fn.{CalledAt, TakesAt};
ghost use Rattle.dwarf_base_core.specs.declared.common.SectionId.TheVariants.{DebugStr as debug_str, DebugStrOffsets as debug_str_offsets, DebugLineStr as debug_line_str};
ghost use Rattle.dwarf_base_core.specs.Format.{word_size};
ghost use Rattle.dwarf_reader_core.specs.Faults.{CloneRanOutOfMemory};
ghost use Rattle.dwarf_reader_core.specs.Slice.{input_of};
ghost use Rattle.dwarf_read_core.specs.Lookups.{UnlessCloneRanOut, Stays};
ghost use Rattle.dwarf_read_core.specs.Contributions.{remaining_of};
ghost use Rattle.dwarf_read_core.specs.Strings.{StringAt};
ghost use Rattle.dwarf_read_core.specs.Words.{WordAt, slot};

mod offsets;

use super::indexed::skip_to_word;
use super::section::Section;
use dwarf_base_core::{
    DebugLineStrOffset, DebugStrOffset, DebugStrOffsetsBase, DebugStrOffsetsIndex, Endianity,
    Format, Result, SectionId,
};
use dwarf_reader_core::{EndianSlice, Reader};
pub use offsets::{NoFields, StrOffsetsEntryIter, StrOffsetsHeader, StrOffsetsHeaderIter};

/// The `.debug_str` section (DWARF 5, 7.5.5): strings, each ended by a zero byte.
#[derive(Debug, Default, Clone, Copy, Drop)]
pub struct DebugStr<R> {
    debug_str_section: R,
}

impl<'input, Endian: Endianity> DebugStr<EndianSlice<'input, Endian>> {
    ghost use Rattle.dwarf_read_core.specs.Sections.{debug_str_reader};

    /// Returns the section with these bytes, whose first byte has position 0.
    pub fn new(debug_str_section: &'input [u8], endian: Endian) -> Self
        ensures view { input_of (debug_str_reader result)
            ≡ record {
              bytes = debug_str_section.now;
              position = 0;
              is_big = Endian.is_big endian;
            } }
        ensures order { (debug_str_reader result).endian ≡ endian }
    {
        Self::from(EndianSlice::new(debug_str_section, endian))
    }
}

impl<R: Reader> DebugStr<R> {
    ghost use Rattle.dwarf_read_core.specs.Sections.{debug_str_reader};

    /// Returns the string at `offset`, in bytes from the section's start: the bytes up to the first
    /// zero byte, which is not a part of it.
    ///
    /// # Errors
    ///
    /// `UnexpectedEof` at the section's start if `offset` is past its end, and at the string's
    /// start if no zero byte ends it. `OutOfMemory` if a clone of the reader runs out of memory.
    pub fn get_str(&self, offset: DebugStrOffset<R::Offset>) -> Result<R>
        ensures answer { let section = R.view (debug_str_reader self.now) in
            UnlessCloneRanOut (StringAt section (R.Offset.value offset.0))
            R.view R.clone_is_free result }
        ensures order { let order = R.order (debug_str_reader self.now) in
            IfOk result (λ string. R.order string ≡ order) }

        // Appended bytes don't change the result, unless it is `UnexpectedEof` or memory ran out.
        ensures stable { let section = R.view (debug_str_reader self.now) in
            Stays (λ input. StringAt input (R.Offset.value offset.0))
            R.view R.clone_is_free section result }
    {
        string_at(&self.debug_str_section, offset.0)
    }
}

impl<T> DebugStr<T> {
    ghost use Rattle.dwarf_read_core.specs.Sections.{debug_str_reader};

    /// Returns a section that borrows this one's data. Use it if this one owns its bytes, such as
    /// `DebugStr<Vec<u8>>`, which has no `Reader`: `borrow` makes one, such as an
    /// `EndianSlice`, of a reference to them.
    ///
    /// `borrow` is called once. The caller makes sure that it may be called with that reference.
    pub fn borrow<'a, F, R>(&'a self, mut borrow: F) -> DebugStr<R>
    where
        F: FnMut(&'a T) -> R + Drop,
        requires { TakesAt F.FnMut borrow (debug_str_reader self.now) }
        ensures { (after : F)
            × CalledAt F.FnMut borrow (debug_str_reader self.now) (debug_str_reader result) after }
    {
        borrow(&self.debug_str_section).into()
    }
}

impl<R> Section<R> for DebugStr<R> {
    ghost use Rattle.dwarf_read_core.specs.Sections.{debug_str_reader};

    ghost section_id = { debug_str };

    ghost section_reader = { debug_str_reader };

    fn id() -> SectionId {
        SectionId::DebugStr
    }

    fn reader(&self) -> &R {
        &self.debug_str_section
    }

    ghost holds_reader = { λ reader section h. h };
}

impl<R> From<R> for DebugStr<R> {
    ghost use Rattle.dwarf_read_core.specs.Sections.{debug_str_reader};

    ghost from_gives = { λ reader section. debug_str_reader section ≡ reader };

    fn from(debug_str_section: R) -> Self {
        DebugStr { debug_str_section }
    }
}

/// The `.debug_str_offsets` section (DWARF 5, 7.26): sets of string offsets, each with a header.
#[derive(Debug, Default, Clone, Copy, Drop)]
pub struct DebugStrOffsets<R> {
    section: R,
}

impl<R: Reader> DebugStrOffsets<R> {
    ghost use Rattle.dwarf_read_core.specs.Sections.{debug_str_offsets_reader};

    /// Returns the string offset with this `index` among those that begin at `base`. It says where
    /// a string begins in `.debug_str`. Indices begin at 0.
    ///
    /// `base` is the offset of a set's first entry, in bytes from the section's start: the value of
    /// `DW_AT_str_offsets_base`, or [`DebugStrOffsetsBase::default_for_encoding_and_file`] if the
    /// unit has none. `index` is the value of an attribute of the form `DW_FORM_strx`, or
    /// `DW_FORM_strx1` to `DW_FORM_strx4`. Entries are words of the unit's `format`. The header of
    /// the set isn't read, because GNU's split DWARF 4 has none.
    ///
    /// ```
    /// let offset = offsets.get_str_offset(format, base, index)?;
    /// strings.get_str(offset)
    /// ```
    ///
    /// # Errors
    ///
    /// The first of these:
    ///
    /// - `UnexpectedEof` at the section's start if `base` is past its end;
    /// - `UnsupportedOffset` if `index` times the word size doesn't fit the offset type;
    /// - `UnexpectedEof` at `base` if the entry would begin past the section's end;
    /// - `UnexpectedEof` at the entry if it ends past the section's end;
    /// - `UnsupportedOffset` if the entry doesn't fit the offset type.
    ///
    /// `OutOfMemory` if a clone of the reader runs out of memory.
    pub fn get_str_offset(
        &self,
        format: Format,
        base: DebugStrOffsetsBase<R::Offset>,
        index: DebugStrOffsetsIndex<R::Offset>,
    ) -> Result<DebugStrOffset<R::Offset>>
        ensures answer { let section = R.view (debug_str_offsets_reader self.now) in
            let s = slot (R.Offset.value base.0) (R.Offset.value index.0) (word_size format) in
            UnlessCloneRanOut (WordAt R.Offset.GREATEST section s)
            (λ offset. R.Offset.value offset.0) R.clone_is_free result }

        // Appended bytes don't change the result, unless it is `UnexpectedEof` or memory ran out.
        ensures stable { let section = R.view (debug_str_offsets_reader self.now) in
            let s = slot (R.Offset.value base.0) (R.Offset.value index.0) (word_size format) in
            Stays (λ input. WordAt R.Offset.GREATEST input s)
            (λ offset. R.Offset.value offset.0) R.clone_is_free section result }
    {
        let input = &mut self.section.try_clone()?;
        skip_to_word(input, base.0, index.0, format)?;
        Ok(DebugStrOffset(input.read_offset(format)?))
    }

    /// Returns the sets of string offsets in order, from the section's start.
    ///
    /// GNU's split DWARF 4 has string offsets without headers. Only
    /// [`get_str_offset`](DebugStrOffsets::get_str_offset) reads them, and this call would take
    /// entries for a header.
    ///
    /// # Errors
    ///
    /// `OutOfMemory` if a clone of the reader runs out of memory.
    pub fn headers(&self) -> Result<StrOffsetsHeaderIter<R>>
        ensures ok { let section = R.view (debug_str_offsets_reader self.now) in
            IfOk result
            (λ headers. remaining_of R.view headers ≡ record { offset = 0; rest = section }) }
        ensures order { let order = R.order (debug_str_offsets_reader self.now) in
            IfOk result (λ headers. R.order headers.rest ≡ order) }
        ensures err { IfErr result (CloneRanOutOfMemory R.clone_is_free) }
    {
        Ok(StrOffsetsHeaderIter::new(self.section.try_clone()?))
    }
}

impl<T> DebugStrOffsets<T> {
    ghost use Rattle.dwarf_read_core.specs.Sections.{debug_str_offsets_reader};

    /// Returns a section that borrows this one's data. Use it if this one owns its bytes, such as
    /// `DebugStrOffsets<Vec<u8>>`, which has no `Reader`: `borrow` makes one, such as an
    /// `EndianSlice`, of a reference to them.
    ///
    /// `borrow` is called once. The caller makes sure that it may be called with that reference.
    pub fn borrow<'a, F, R>(&'a self, mut borrow: F) -> DebugStrOffsets<R>
    where
        F: FnMut(&'a T) -> R + Drop,
        requires { TakesAt F.FnMut borrow (debug_str_offsets_reader self.now) }
        ensures { (after : F)
            × CalledAt F.FnMut borrow (debug_str_offsets_reader self.now)
            (debug_str_offsets_reader result) after }
    {
        borrow(&self.section).into()
    }
}

impl<R> Section<R> for DebugStrOffsets<R> {
    ghost use Rattle.dwarf_read_core.specs.Sections.{debug_str_offsets_reader};

    ghost section_id = { debug_str_offsets };

    ghost section_reader = { debug_str_offsets_reader };

    fn id() -> SectionId {
        SectionId::DebugStrOffsets
    }

    fn reader(&self) -> &R {
        &self.section
    }

    ghost holds_reader = { λ reader section h. h };
}

impl<R> From<R> for DebugStrOffsets<R> {
    ghost use Rattle.dwarf_read_core.specs.Sections.{debug_str_offsets_reader};

    ghost from_gives = { λ reader section. debug_str_offsets_reader section ≡ reader };

    fn from(section: R) -> Self {
        DebugStrOffsets { section }
    }
}

/// The `.debug_line_str` section (DWARF 5, 7.5.5): strings of line number programs, each ended by a
/// zero byte.
#[derive(Debug, Default, Clone, Copy, Drop)]
pub struct DebugLineStr<R> {
    section: R,
}

impl<'input, Endian: Endianity> DebugLineStr<EndianSlice<'input, Endian>> {
    ghost use Rattle.dwarf_read_core.specs.Sections.{debug_line_str_reader};

    /// Returns the section with these bytes, whose first byte has position 0.
    pub fn new(debug_line_str_section: &'input [u8], endian: Endian) -> Self
        ensures view { input_of (debug_line_str_reader result)
            ≡ record {
              bytes = debug_line_str_section.now;
              position = 0;
              is_big = Endian.is_big endian;
            } }
        ensures order { (debug_line_str_reader result).endian ≡ endian }
    {
        Self::from(EndianSlice::new(debug_line_str_section, endian))
    }
}

impl<R: Reader> DebugLineStr<R> {
    ghost use Rattle.dwarf_read_core.specs.Sections.{debug_line_str_reader};

    /// Returns the string at `offset`, in bytes from the section's start: the bytes up to the first
    /// zero byte, which is not a part of it.
    ///
    /// # Errors
    ///
    /// `UnexpectedEof` at the section's start if `offset` is past its end, and at the string's
    /// start if no zero byte ends it. `OutOfMemory` if a clone of the reader runs out of memory.
    pub fn get_str(&self, offset: DebugLineStrOffset<R::Offset>) -> Result<R>
        ensures answer { let section = R.view (debug_line_str_reader self.now) in
            UnlessCloneRanOut (StringAt section (R.Offset.value offset.0))
            R.view R.clone_is_free result }
        ensures order { let order = R.order (debug_line_str_reader self.now) in
            IfOk result (λ string. R.order string ≡ order) }

        // Appended bytes don't change the result, unless it is `UnexpectedEof` or memory ran out.
        ensures stable { let section = R.view (debug_line_str_reader self.now) in
            Stays (λ input. StringAt input (R.Offset.value offset.0))
            R.view R.clone_is_free section result }
    {
        string_at(&self.section, offset.0)
    }
}

impl<T> DebugLineStr<T> {
    ghost use Rattle.dwarf_read_core.specs.Sections.{debug_line_str_reader};

    /// Returns a section that borrows this one's data. Use it if this one owns its bytes, such as
    /// `DebugLineStr<Vec<u8>>`, which has no `Reader`: `borrow` makes one, such as an
    /// `EndianSlice`, of a reference to them.
    ///
    /// `borrow` is called once. The caller makes sure that it may be called with that reference.
    pub fn borrow<'a, F, R>(&'a self, mut borrow: F) -> DebugLineStr<R>
    where
        F: FnMut(&'a T) -> R + Drop,
        requires { TakesAt F.FnMut borrow (debug_line_str_reader self.now) }
        ensures { (after : F)
            × CalledAt F.FnMut borrow (debug_line_str_reader self.now)
            (debug_line_str_reader result) after }
    {
        borrow(&self.section).into()
    }
}

impl<R> Section<R> for DebugLineStr<R> {
    ghost use Rattle.dwarf_read_core.specs.Sections.{debug_line_str_reader};

    ghost section_id = { debug_line_str };

    ghost section_reader = { debug_line_str_reader };

    fn id() -> SectionId {
        SectionId::DebugLineStr
    }

    fn reader(&self) -> &R {
        &self.section
    }

    ghost holds_reader = { λ reader section h. h };
}

impl<R> From<R> for DebugLineStr<R> {
    ghost use Rattle.dwarf_read_core.specs.Sections.{debug_line_str_reader};

    ghost from_gives = { λ reader section. debug_line_str_reader section ≡ reader };

    fn from(section: R) -> Self {
        DebugLineStr { section }
    }
}

// The string at an offset of a section.
#[inline]
fn string_at<R: Reader>(section: &R, offset: R::Offset) -> Result<R>
    ensures answer { UnlessCloneRanOut (StringAt (R.view section.now) (R.Offset.value offset))
        R.view R.clone_is_free result }
    ensures order { IfOk result (λ string. R.order string ≡ R.order section.now) }
{
    let input = &mut section.try_clone()?;
    input.skip(offset)?;
    input.read_null_terminated_slice()
}
