//! What a table is read into, and the declarations that it is given.

ghost use Rattle.std.specs.Prelude.{◌≡◌, ◌≢◌, ◌<◌, All, true, false, IfErr, OnOk};
ghost use Rattle.std.specs.FinMap as finite;
ghost use Rattle.dwarf_read_core.specs.Equality.{HasValueByForm};
ghost use Rattle.dwarf_read_core.specs.Grammar.{Table, by_end, by_null, closed};

use super::attribute::AttributeSpecification;
use dwarf_base_core::{Error, Result};
use dwarf_code_core::children::{DW_CHILDREN_yes, DwChildren};
use dwarf_const_core::tag::DwTag;
use std::alloc::Global;
use std::marker::Model;

/// A declaration of an abbreviation, which borrows its attributes: what the parser gives an
/// [`AbbreviationSink`].
///
/// Only the parser makes one, so each is a declaration that was read from a section.
#[derive(Debug, Drop)]
pub struct AbbreviationDeclaration<'a> {
    pub(super) code: u64,
    pub(super) tag: DwTag,
    pub(super) has_children: DwChildren,
    pub(super) attributes: &'a [AttributeSpecification],
}

impl<'a> Model for AbbreviationDeclaration<'a> {
    ghost use Rattle.std.specs.Prelude.{◌<◌, ◌==◌, All};
    ghost use Rattle.dwarf_read_core.specs.Equality.{HasValueByForm};
    ghost use Rattle.dwarf_read_core.specs.Grammar.{Declaration};

    ghost Value = { Declaration };

    ghost view = { λ d. record {
      code = d.code;
      tag = d.tag.0;
      children = d.has_children.0 == 1;
      attributes = d.attributes.now;
    } };

    ghost invariant = { λ d. (0 < d.code) × All HasValueByForm d.attributes.now };
}

impl<'a> AbbreviationDeclaration<'a> {
    /// Returns the code of the abbreviation. It is not 0.
    #[inline]
    pub fn code(&self) -> u64
        ensures code { result ≡ self.now.code }
        ensures nonzero { 0 < result }
    {
        self.code
    }

    /// Returns the tag of the entries.
    #[inline]
    pub fn tag(&self) -> DwTag
        ensures { result.0 ≡ self.now.tag }
    {
        self.tag
    }

    /// Returns whether an entry is followed by its children.
    #[inline]
    pub fn has_children(&self) -> bool
        ensures { result ≡ self.now.children }
    {
        self.has_children == DW_CHILDREN_yes
    }

    /// Returns the attributes of the entries, as [`Abbreviation::attributes`] does.
    ///
    /// [`Abbreviation::attributes`]: super::Abbreviation::attributes
    #[inline]
    pub fn attributes(&self) -> &'a [AttributeSpecification]
        ensures list { result.now ≡ self.now.attributes }
        ensures valued { All HasValueByForm result.now }
    {
        self.attributes
    }
}

/// A table of abbreviations in any form, which [`DebugAbbrev::abbreviations_into`] reads.
///
/// [`Abbreviations`] is one. Write another if a program keeps tables in a form of its own: it then
/// needs neither a copy nor a parser of its own.
///
/// [`Abbreviations`]: super::Abbreviations
/// [`DebugAbbrev::abbreviations_into`]: super::DebugAbbrev::abbreviations_into
pub trait AbbreviationSink: Drop + Sized {
    // The table of the abbreviations so far.
    ghost table: { Self → Table };

    /// Returns the table with no abbreviations, which no code of value 0 closes.
    fn new(mem: Global) -> Self
        ensures { table result ≡ closed finite.empty by_end };

    /// Adds an abbreviation.
    ///
    /// # Errors
    ///
    /// `DuplicateAbbreviationCode` if an abbreviation has this code already, and `OutOfMemory` if
    /// memory runs out. What the table is then isn't said.
    fn declare(&mut self, declaration: &AbbreviationDeclaration<'_>) -> Result<()>
        ensures new { OnOk result
            (finite.contains_key (table self.old).by_code declaration.now.code ≡ false) }
        ensures ok { OnOk result ((table self.new).by_code
            ≡ finite.insert (table self.old).by_code declaration.now.code declaration.now) }
        ensures close { OnOk result ((table self.new).close ≡ (table self.old).close) }
        ensures repeated { IfErr result (λ e. e ≢ Error.OutOfMemory
            → (finite.contains_key (table self.old).by_code declaration.now.code ≡ true)
            × (e ≡ Error.DuplicateAbbreviationCode declaration.now.code)) };

    /// Notes that a code of value 0 closes the table.
    fn close(&mut self)
        ensures { table self.new ≡ closed (table self.old).by_code by_null };
}
