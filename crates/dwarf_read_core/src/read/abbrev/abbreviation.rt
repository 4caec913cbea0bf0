//! Abbreviations.

ghost use Rattle.std.specs.Prelude.{◌≡◌, ◌==◌, ◌≤◌, length, All, IsOk, IfOk, IfErr};
ghost use Rattle.std.specs.Cmp.{partial_equiv_from_equiv};
ghost use Rattle.dwarf_read_core.specs.Equality.{HasValueByForm, same_declaration, same_declaration_equiv};

use super::attribute::{AttributeSpecification, Attributes};
use dwarf_base_core::{Error, Result};
use dwarf_code_core::children::{DW_CHILDREN_yes, DwChildren};
use dwarf_const_core::tag::DwTag;
use std::alloc::AllocError;
use std::marker::Model;

/// An abbreviation: the shape of the debugging information entries that have its code.
#[derive(Debug, Drop)]
pub struct Abbreviation {
    code: u64,
    tag: DwTag,
    has_children: DwChildren,
    pub(super) attributes: Attributes,
}

impl Model for Abbreviation {
    ghost use Rattle.dwarf_read_core.specs.Codes.{declaration_code};
    ghost use Rattle.dwarf_read_core.specs.Grammar.{Declaration};

    ghost Value = { Declaration };

    ghost coded = { declaration_code };

    ghost use Rattle.dwarf_read_core.specs.Views.{abbreviation_view};

    ghost view = { abbreviation_view };

    ghost use Rattle.std.specs.Prelude.{All};
    ghost use Rattle.dwarf_read_core.specs.Equality.{HasValueByForm};

    ghost invariant = { λ a. All HasValueByForm a.attributes.items };
}

impl Clone for Abbreviation {
    ghost is_clone = { λ abbreviation copy. copy ≡ abbreviation };

    ghost is_infallible = { λ abbreviation. length abbreviation.attributes ≤ 5 };

    fn clone(&self) -> std::result::Result<Self, AllocError> {
        let mem = *self.attributes.allocator();
        Ok(Abbreviation {
            code: self.code,
            tag: self.tag,
            has_children: self.has_children,
            attributes: Attributes::from_slice(mem, self.attributes.as_slice())?,
        })
    }
}

/// Two abbreviations are equal if their codes, tags, children and attributes are.
impl PartialEq for Abbreviation {
    ghost eq = { same_declaration };

    ghost laws = { partial_equiv_from_equiv same_declaration_equiv };

    fn eq(&self, other: &Self) -> bool {
        self.has_children() == other.has_children()
            && self.code() == other.code()
            && self.tag() == other.tag()
            && self.attributes() == other.attributes()
    }
}

impl Eq for Abbreviation {
    ghost laws = { same_declaration_equiv };
}

impl Abbreviation {
    pub(super) fn new(
        code: u64,
        tag: DwTag,
        has_children: DwChildren,
        attributes: Attributes,
    ) -> Abbreviation
        requires { All HasValueByForm attributes.items }
        ensures { result ≡ record {
          code = code;
          tag = tag.0;
          children = has_children.0 == 1;
          attributes = attributes.items;
        } }
    {
        Abbreviation {
            code,
            tag,
            has_children,
            attributes,
        }
    }

    /// Returns a copy of the abbreviation.
    ///
    /// # Errors
    ///
    /// `OutOfMemory` if memory for the attributes runs out. Up to five attributes need none.
    pub fn try_clone(&self) -> Result<Abbreviation>
        ensures ok { IfOk result (λ copy. copy ≡ self.now) }
        ensures free { length self.now.attributes ≤ 5 → IsOk result }
        ensures err { IfErr result (λ e. e ≡ Error.OutOfMemory) }
    {
        Ok(self.clone()?)
    }

    /// Returns this abbreviation's code, which entries refer to. It is not 0.
    pub fn code(&self) -> u64
        ensures { result ≡ self.now.code }
    {
        self.code
    }

    /// Returns the tag of the entries.
    pub fn tag(&self) -> DwTag
        ensures { result.0 ≡ self.now.tag }
    {
        self.tag
    }

    /// Returns whether an entry is followed by its children.
    pub fn has_children(&self) -> bool
        ensures { result ≡ self.now.children }
    {
        self.has_children == DW_CHILDREN_yes
    }

    /// Returns the attributes of the entries, in the order in which an entry has their values.
    /// Exactly those of the form `DW_FORM_implicit_const` have an
    /// [`implicit_const_value`](AttributeSpecification::implicit_const_value).
    pub fn attributes(&self) -> &[AttributeSpecification]
        ensures list { result.now ≡ self.now.attributes }
        ensures valued { All HasValueByForm result.now }
    {
        self.attributes.as_slice()
    }
}
