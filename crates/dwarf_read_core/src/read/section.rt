//! What the sections have in common: an identifier, names, and the reader of their bytes.

ghost use Rattle.std.specs.Prelude.{◌≡◌, ◌+◌, ◌↔◌, IfOk, IfErr, IfSome, IsSome, Ok, Err, option_map};
ghost use Rattle.dwarf_base_core.specs.declared.common.SectionId.{SectionId};
ghost use Rattle.dwarf_base_core.specs.Section.{section_names};
ghost use Rattle.dwarf_reader_core.specs.Input.{Covers};
ghost use Rattle.dwarf_read_core.specs.Lookups.{UnlessCloneRanOut};
ghost use Rattle.dwarf_read_core.specs.Ranges.{RangeAt};

use dwarf_base_core::{ReaderOffset, ReaderOffsetId, Result, SectionId};
use dwarf_reader_core::Reader;

/// A section of DWARF over a reader `R` of its bytes.
///
/// A section is made from its reader by `From`, or loaded:
///
/// ```
/// let debug_str = DebugStr::load(|id| find_section(id.name()))?;
/// ```
pub trait Section<R>: From<R> + Sized {
    // What `id` returns, for contracts.
    ghost section_id: { SectionId };

    // What `reader` returns, for contracts.
    ghost section_reader: { Self → R };

    /// Returns which section this is.
    fn id() -> SectionId
        ensures { result ≡ section_id };

    /// Returns the section's name in an ELF object, such as `.debug_abbrev`.
    fn section_name() -> &'static str
        ensures { result.now ≡ (section_names section_id).name }
    {
        Self::id().name()
    }

    /// Returns the section's name in a split object or a package, such as `.debug_abbrev.dwo`, or
    /// `None` if it is in neither.
    fn dwo_section_name() -> Option<&'static str>
        ensures { option_map (λ name. name.now) result ≡ (section_names section_id).dwo_name }
    {
        Self::id().dwo_name()
    }

    /// Returns the section's name in an XCOFF object, such as `.dwabrev`, or `None` if XCOFF has no
    /// name for it.
    fn xcoff_section_name() -> Option<&'static str>
        ensures { option_map (λ name. name.now) result ≡ (section_names section_id).xcoff_name }
    {
        Self::id().xcoff_name()
    }

    /// Returns the section over the reader that `f` returns for the section's identifier.
    ///
    /// `f` is called once. The caller has to make sure that it may be called with that identifier.
    ///
    /// # Errors
    ///
    /// The error that `f` returns, unchanged.
    fn load<F, E>(f: F) -> std::result::Result<Self, E>
    where
        F: FnOnce(SectionId) -> std::result::Result<R, E>,
        requires { F.pre f section_id }
        ensures ok { IfOk result (λ section. F.post f section_id (Ok (section_reader section))) }
        ensures err { IfErr result (λ e. F.post f section_id (Err e)) }
    {
        match f(Self::id()) {
            Ok(reader) => Ok(Self::from(reader)),
            Err(error) => Err(error),
        }
    }

    /// Returns the reader of the section's bytes.
    fn reader(&self) -> &R
    where
        R: Reader,
        ensures { result.now ≡ section_reader self.now };

    /// Returns the `size` bytes from `offset` on, as a section of their own. The first byte keeps
    /// its position.
    ///
    /// The index of a package gives the offset and the size, both in bytes, of what belongs to one
    /// unit (DWARF 5, 7.3.5).
    ///
    /// # Errors
    ///
    /// `UnexpectedEof` at the section's start if `offset` is past its end, and at the range's start
    /// if the range ends past it. `OutOfMemory` if a clone of the reader runs out of memory.
    fn dwp_range(&self, offset: u32, size: u32) -> Result<Self>
    where
        R: Reader,
        ensures answer { let section = R.view (section_reader self.now) in
            UnlessCloneRanOut (RangeAt section offset size)
            (λ part. R.view (section_reader part)) R.clone_is_free result }
        ensures order { let order = R.order (section_reader self.now) in
            IfOk result (λ part. R.order (section_reader part) ≡ order) }
    {
        let mut part = self.reader().try_clone()?;
        part.skip(R::Offset::from_u32(offset))?;
        part.truncate(R::Offset::from_u32(size))?;
        Ok(part.into())
    }

    /// Returns the section's identifier and the offset, in bytes, of the place that `id`
    /// identifies, or `None` if that is neither one of the section's bytes nor its end.
    fn lookup_offset_id(&self, id: ReaderOffsetId) -> Option<(SectionId, R::Offset)>
    where
        R: Reader,
        ensures found { let section = R.view (section_reader self.now) in
            IfSome result (λ found. (found.0 ≡ section_id)
            × (section.position + R.Offset.value found.1 ≡ id.0)) }
        ensures covered { IsSome result ↔ Covers (R.view (section_reader self.now)) id.0 }
    {
        self.reader()
            .lookup_offset_id(id)
            .map(|offset| (Self::id(), offset))
    }

    // A section that is made from a reader holds that reader.
    ghost holds_reader: { (reader : R) (section : Self) → Self.from_gives reader section → section_reader section ≡ reader };
}
