//! How a declaration is read, and where its attributes are collected.

ghost use Rattle.std.specs.Prelude.{◌≡◌, ◌<◌, ◌++◌, ◌==◌, [], ℕ, List, IsOk, IfOk, OnOk, Ok, None};
ghost use Rattle.dwarf_reader_core.specs.Input.{end_of};
ghost use Rattle.dwarf_read_core.specs.Reading.{ReturnsUnlessOutOfMemory, attributes_in, children_at, coded_at, declared_at, tag_at};

use super::attribute::AttributeSpecification;
use super::sink::AbbreviationDeclaration;
use dwarf_base_core::{Error, Result};
use dwarf_code_core::children::{DW_CHILDREN_no, DW_CHILDREN_yes, DwChildren};
use dwarf_const_core::tag::DwTag;
use dwarf_reader_core::Reader;
use std::alloc::{AllocError, Global};
use std::default::MadeWith;
use std::marker::Model;

// How many attributes are collected without allocating. Few declarations have more.
const SCRATCH_LEN: usize = 16;

// The attributes of a declaration while it is read.
#[derive(Drop)]
pub(super) struct Collector {
    // They are those in `overflow`, and then the first `len` of `scratch`.
    overflow: Vec<AttributeSpecification>,
    scratch: [AttributeSpecification; SCRATCH_LEN],
    len: usize,
}

impl Model for Collector {
    ghost use Rattle.std.specs.Prelude.{◌++◌, ◌≤◌, List, take};
    ghost use Rattle.dwarf_read_core.specs.Grammar.{Specification};

    ghost Value = { List Specification };

    ghost view = { λ c. c.overflow.items ++ take c.len c.scratch };

    ghost invariant = { λ c. c.len ≤ 16 };
}

impl Collector {
    pub(super) fn new(mem: Global) -> Collector
        ensures { result ≡ [] }
    {
        Collector {
            overflow: Vec::new(mem),
            scratch: [AttributeSpecification::made_with(mem); SCRATCH_LEN],
            len: 0,
        }
    }

    // Reads a declaration, or `None` if a code of value 0 is in its place.
    pub(super) fn declaration<R: Reader>(
        &mut self,
        input: &mut R,
    ) -> Result<Option<AbbreviationDeclaration<'_>>>
        ensures ends { (rest : List ℕ)
            → coded_at (end_of (R.view input.old)) (R.view input.old).bytes ≡ Ok (None, rest)
            → IsOk result }
        ensures read { ReturnsUnlessOutOfMemory (λ found. (found, (R.view input.new).bytes)) result
            (coded_at (end_of (R.view input.old)) (R.view input.old).bytes) }
        ensures same_end { OnOk result (end_of (R.view input.new) ≡ end_of (R.view input.old)) }
    {
        let code = input.read_uleb128()?;
        if code == 0 {
            return Ok(None);
        }
        let tag = parse_tag(input)?;
        let has_children = parse_has_children(input)?;
        self.parse_attributes(input)?;
        Ok(Some(AbbreviationDeclaration {
            code,
            tag,
            has_children,
            attributes: self.as_slice()?,
        }))
    }

    // Reads the attributes of a declaration, in place of those of another one.
    #[tactic(auto, using(crate::proofs::tables::ReadingAttributes::attribute_steps))]
    fn parse_attributes<R: Reader>(&mut self, input: &mut R) -> Result<()>
        ensures read { ReturnsUnlessOutOfMemory (λ _. (self.new, (R.view input.new).bytes)) result
            (attributes_in (end_of (R.view input.old)) (R.view input.old).bytes) }
        ensures same_end { OnOk result (end_of (R.view input.new) ≡ end_of (R.view input.old)) }
    {
        self.overflow.clear();
        // It is counted in a variable of its own, which stays in a register.
        let mut len = 0;
        // The label names the loop in its proof.
        'attributes: while let Some(attribute) = AttributeSpecification::parse(input)? {
            if len == SCRATCH_LEN {
                spill(&mut self.overflow, &self.scratch)?;
                len = 0;
            }
            self.scratch[len] = attribute;
            len += 1;
        }
        self.len = len;
        Ok(())
    }

    // Returns all attributes in one place.
    fn as_slice(&mut self) -> std::result::Result<&[AttributeSpecification], AllocError>
        ensures { IfOk result (λ slice. slice.now ≡ self.old) }
    {
        if self.overflow.is_empty() {
            return Ok(&self.scratch[..self.len]);
        }
        spill(&mut self.overflow, &self.scratch[..self.len])?;
        self.len = 0;
        Ok(self.overflow.as_slice())
    }
}

pub(super) fn parse_tag<R: Reader>(input: &mut R) -> Result<DwTag>
    ensures read { ReturnsUnlessOutOfMemory (λ t. (t.0, (R.view input.new).bytes)) result
        (tag_at (end_of (R.view input.old)) (R.view input.old).bytes) }
    ensures same_end { OnOk result (end_of (R.view input.new) ≡ end_of (R.view input.old)) }
{
    let value = input.read_uleb128_u16()?;
    if value == 0 {
        Err(Error::AbbreviationTagZero)
    } else {
        Ok(DwTag(value))
    }
}

#[tactic(auto, unfolding(crate::specs::Reading::children_at))]
pub(super) fn parse_has_children<R: Reader>(input: &mut R) -> Result<DwChildren>
    ensures read { ReturnsUnlessOutOfMemory (λ c. (c.0 == 1, (R.view input.new).bytes)) result
        (children_at (end_of (R.view input.old)) (R.view input.old).bytes) }
    ensures same_end { OnOk result (end_of (R.view input.new) ≡ end_of (R.view input.old)) }
{
    let value = DwChildren(input.read_u8()?);
    if value == DW_CHILDREN_no || value == DW_CHILDREN_yes {
        Ok(value)
    } else {
        Err(Error::InvalidAbbreviationChildren(value))
    }
}

// Copies attributes after those in `overflow`. It is out of line, since few declarations have
// enough attributes to need it.
#[inline(never)]
fn spill(
    overflow: &mut Vec<AttributeSpecification>,
    scratch: &[AttributeSpecification],
) -> std::result::Result<(), AllocError>
    ensures ok { OnOk result (overflow.new.items ≡ overflow.old.items ++ scratch.now) }
{
    overflow.extend_from_slice(scratch)
}
