//! Tables of abbreviations, and how an abbreviation is found by its code.

ghost use Rattle.std.specs.Prelude.{◌≡◌, ◌≢◌, ◌↔◌, ◌<◌, ◌∷◌, ◌++◌, [], true, false, IsTrue, IsOk, IfOk, IfErr, IfSome, OnOk, OnErr, option_copied, ⊤};
ghost use Rattle.std.specs.FinMap as finite;
ghost use Rattle.std.specs.Iterator.{YieldsFirstRef, item_count};
ghost use Rattle.dwarf_read_core.specs.Grammar.{by_end, is_by_null};

use super::abbreviation::Abbreviation;
use super::attribute::Attributes;
use super::others::{Others, OthersIter};
use super::sink::{AbbreviationDeclaration, AbbreviationSink};
use dwarf_base_core::{Error, Result};
use std::alloc::{AllocError, Global};
use std::marker::Model;
use std::slice;

/// A table of abbreviations, by their codes.
#[derive(Debug, Drop)]
pub struct Abbreviations {
    // Those with the codes from 1 on, in order, because compilers number them so.
    pub(super) vec: Vec<Abbreviation>,
    pub(super) others: Others,
    closed_by_null: bool,
}

impl Model for Abbreviations {
    ghost use Rattle.dwarf_read_core.specs.Codes.{table_code};
    ghost use Rattle.dwarf_read_core.specs.Grammar.{Table};

    ghost Value = { Table };

    ghost coded = { table_code };

    ghost use Rattle.dwarf_read_core.specs.Views.{abbreviations_view, AreKeyed};

    ghost view = { abbreviations_view };

    ghost invariant = { λ a. AreKeyed a.vec.items a.others };
}

impl Abbreviations {
    /// Returns the table with no abbreviations. It doesn't allocate.
    pub fn empty(mem: Global) -> Abbreviations
        ensures none { result.by_code ≡ finite.empty }
        ensures close { result.close ≡ by_end }
    {
        Abbreviations {
            vec: Vec::new(mem),
            others: Others::new(mem),
            closed_by_null: false,
        }
    }

    /// Returns a copy of the table.
    ///
    /// # Errors
    ///
    /// `OutOfMemory` if memory for the table runs out. A table with no abbreviations needs none.
    pub fn try_clone(&self) -> Result<Abbreviations>
        ensures ok { IfOk result (λ copy. copy ≡ self.now) }
        ensures free { finite.len self.now.by_code ≡ 0 → IsOk result }
        ensures err { IfErr result (λ e. e ≡ Error.OutOfMemory) }
    {
        if self.is_empty() {
            let mem = *self.vec.allocator();
            return Ok(Abbreviations {
                closed_by_null: self.closed_by_null,
                ..Abbreviations::empty(mem)
            });
        }
        Ok(Abbreviations {
            vec: self.vec.clone()?,
            others: self.others.clone()?,
            closed_by_null: self.closed_by_null,
        })
    }

    // Adds an abbreviation, or returns `DuplicateAbbreviationCode` if its code is in the table. It
    // is inlined also where several readers read tables, since a call copies the abbreviation.
    #[inline(always)]
    #[tactic(auto, using(crate::proofs::tables::VectorAndMap::insertion))]
    pub(super) fn insert(&mut self, abbreviation: Abbreviation) -> Result<()>
        requires { 0 < abbreviation.code }
        ensures ok { OnOk result ((finite.contains_key self.old.by_code abbreviation.code ≡ false)
            × (self.new.by_code ≡ finite.insert self.old.by_code abbreviation.code abbreviation)) }
        ensures close { OnOk result (self.new.close ≡ self.old.close) }
        ensures repeated { IfErr result (λ e. e ≢ Error.OutOfMemory
            → (finite.contains_key self.old.by_code abbreviation.code ≡ true)
            × (e ≡ Error.DuplicateAbbreviationCode abbreviation.code)) }
        ensures unchanged { OnErr result (self.new ≡ self.old) }
    {
        let code = abbreviation.code();
        let index = code - 1;
        let len = self.vec.len() as u64;
        if index < len {
            return Err(Error::DuplicateAbbreviationCode(code));
        }
        if index == len {
            // The vector's next code may have come earlier, and is then among the others.
            if !self.others.is_empty() && self.others.contains(code) {
                return Err(Error::DuplicateAbbreviationCode(code));
            }
            push(&mut self.vec, abbreviation)?;
            return Ok(());
        }
        self.others.insert(abbreviation)
    }

    /// Returns the abbreviation with this code, if the table has one. No abbreviation has code 0.
    #[inline]
    #[tactic(auto, using(crate::proofs::tables::VectorAndMap::lookup_steps))]
    pub fn get(&self, code: u64) -> Option<&Abbreviation>
        ensures found { option_copied result ≡ finite.get self.now.by_code code }
        ensures coded { IfSome result
            (λ abbreviation. (abbreviation.now.code ≡ code) × (0 < code)) }
    {
        // Code 0 wraps to an index past every vector's end.
        let index = code.wrapping_sub(1) as usize;
        match self.vec.get(index) {
            Some(abbreviation) => Some(abbreviation),
            None => self.others.get(code),
        }
    }

    /// Returns how many abbreviations there are.
    #[tactic(auto, using(crate::proofs::tables::VectorAndMap::table_len))]
    pub fn len(&self) -> usize
        ensures { result ≡ finite.len self.now.by_code }
    {
        self.vec.len() + self.others.len()
    }

    /// Returns whether a code of value 0 closes the table. If not, the section ended where another
    /// declaration could begin. This is `false` for [`empty`](Self::empty).
    pub fn closed_by_null(&self) -> bool
        ensures { result ≡ is_by_null self.now.close }
    {
        self.closed_by_null
    }

    /// Returns whether the table has no abbreviations.
    pub fn is_empty(&self) -> bool
        ensures { IsTrue result ↔ (finite.len self.now.by_code ≡ 0) }
    {
        self.len() == 0
    }

    /// Returns the abbreviations in the order of their codes.
    #[tactic(auto, using(crate::proofs::tables::VectorAndMap::table_values))]
    pub fn iter(&self) -> AbbreviationsIter<'_>
        ensures { result ≡ finite.values self.now.by_code }
    {
        AbbreviationsIter {
            vec: self.vec.iter(),
            others: self.others.iter(),
        }
    }

    // Frees what a vector with room for a usual table doesn't need. A longer one has at most twice
    // the room that it needs.
    pub(super) fn trim(&mut self)
        ensures { self.new ≡ self.old }
    {
        if self.vec.capacity() == SECOND_CAPACITY {
            self.vec.shrink_to_fit();
        }
    }
}

impl AbbreviationSink for Abbreviations {
    ghost table = { λ t. t };

    fn new(mem: Global) -> Self {
        Abbreviations::empty(mem)
    }

    // It is inlined, so that the parser keeps the parts of an abbreviation in registers.
    #[inline(always)]
    fn declare(&mut self, declaration: &AbbreviationDeclaration<'_>) -> Result<()> {
        let attributes = Attributes::from_slice(*self.vec.allocator(), declaration.attributes)?;
        self.insert(Abbreviation::new(
            declaration.code,
            declaration.tag,
            declaration.has_children,
            attributes,
        ))
    }

    fn close(&mut self) {
        self.closed_by_null = true;
    }
}

// How many abbreviations a vector first has room for.
const FIRST_CAPACITY: usize = 32;

// How many it has room for once it has grown. It doubles from then on, so the table of a usual unit
// is copied at most once.
const SECOND_CAPACITY: usize = 256;

// Adds an abbreviation at the back.
#[inline]
fn push(
    items: &mut Vec<Abbreviation>,
    abbreviation: Abbreviation,
) -> std::result::Result<(), AllocError>
    ensures ok { OnOk result (items.new.items ≡ items.old.items ++ abbreviation ∷ []) }
    ensures err { OnErr result (items.new.items ≡ items.old.items) }
{
    if items.len() == items.capacity() {
        items.reserve(if items.is_empty() {
            FIRST_CAPACITY
        } else {
            SECOND_CAPACITY - FIRST_CAPACITY
        })?;
    }
    items.push_reserved(abbreviation);
    Ok(())
}

/// The abbreviations of a table, in the order of their codes.
#[derive(Debug, Drop)]
pub struct AbbreviationsIter<'table> {
    vec: slice::Iter<'table, Abbreviation>,
    others: OthersIter<'table>,
}

impl<'table> Model for AbbreviationsIter<'table> {
    ghost use Rattle.std.specs.Prelude.{List, ◌++◌};
    ghost use Rattle.std.specs.Slice.Iter.{iter_rest};
    ghost use Rattle.dwarf_read_core.specs.Grammar.{Declaration};

    ghost Value = { List Declaration };

    ghost view = { λ it. iter_rest it.vec ++ it.others };
}

impl<'table> Iterator for AbbreviationsIter<'table> {
    type Item = &'table Abbreviation;

    ghost next_gives = { YieldsFirstRef (λ rest. rest) };

    ghost remaining = { item_count (λ rest. rest) };

    fn next(&mut self) -> Option<&'table Abbreviation> {
        match self.vec.next() {
            Some(abbreviation) => Some(abbreviation),
            None => self.others.next(),
        }
    }
}

impl<'table> Clone for AbbreviationsIter<'table> {
    ghost is_clone = { λ it copy. copy ≡ it };

    ghost is_infallible = { λ _. ⊤ };

    fn clone(&self) -> std::result::Result<Self, AllocError> {
        Ok(AbbreviationsIter {
            vec: self.vec.clone()?,
            others: self.others.clone()?,
        })
    }
}
