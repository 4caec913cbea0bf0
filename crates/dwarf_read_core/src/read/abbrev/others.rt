//! The abbreviations of a table whose codes don't count up from 1.

ghost use Rattle.std.specs.Prelude.{◌≡◌, ◌≢◌, ◌↔◌, ◌^◌, ◌<◌, length, [], IsTrue, IsSome, IfErr, OnOk, OnErr, option_copied, ⊤};
ghost use Rattle.std.specs.List.Sorted.{IsStrictlySortedBy};
ghost use Rattle.std.specs.Map.{keys_of, values_of};
ghost use Rattle.std.specs.Ordering.{nat_cmp};
ghost use Rattle.std.specs.Iterator.{YieldsFirstRef, item_count};
ghost use Rattle.dwarf_read_core.specs.Others.{Adds, ArePlaces, at_code, with_places};

use super::super::key::Key;
use super::abbreviation::Abbreviation;
use dwarf_base_core::{Error, Result};
use std::alloc::{AllocError, Global};
use std::collections::BTreeMap;
use std::collections::btree_map::{Entry, Values};
use std::marker::Model;

// Abbreviations with any codes, by their codes.
#[derive(Debug, Drop)]
pub(super) struct Others {
    // In the order in which they came.
    items: Vec<Abbreviation>,
    // The place of each code in `items`.
    places: BTreeMap<Key, usize>,
}

impl Model for Others {
    ghost use Rattle.std.specs.Prelude.{ℕ, List};
    ghost use Rattle.dwarf_read_core.specs.Grammar.{Declaration};
    ghost use Rattle.dwarf_read_core.specs.Others.{with_places, ArePlaces};

    ghost Value = { List (ℕ × Declaration) };

    ghost view = { λ o. with_places o.items.items o.places.entries };

    ghost invariant = { λ o. ArePlaces o.items.items o.places.entries };
}

impl Others {
    pub(super) fn new(mem: Global) -> Others
        ensures { result ≡ [] }
    {
        Others {
            items: Vec::new(mem),
            places: BTreeMap::new(mem),
        }
    }

    #[tactic(auto, using(crate::proofs::tables::OthersByCode::by_place))]
    pub(super) fn len(&self) -> usize
        ensures len { result ≡ length self.now }
        ensures small { result < 2 ^ 63 }
        ensures ordered { IsStrictlySortedBy nat_cmp (keys_of self.now) }
    {
        self.places.len()
    }

    pub(super) fn is_empty(&self) -> bool
        ensures { IsTrue result ↔ (length self.now ≡ 0) }
    {
        self.len() == 0
    }

    pub(super) fn get(&self, code: u64) -> Option<&Abbreviation>
        ensures { option_copied result ≡ at_code code self.now }
    {
        let place = *self.places.get(&Key(code))?;
        self.items.get(place)
    }

    // Whether one has this code. It is a call out of line, as `insert_by_place` is.
    #[inline(never)]
    pub(super) fn contains(&self, code: u64) -> bool
        ensures { IsTrue result ↔ IsSome (at_code code self.now) }
    {
        self.get(code).is_some()
    }

    // In the order of their codes.
    #[tactic(auto, using(crate::proofs::tables::OthersByCode::by_place))]
    pub(super) fn iter(&self) -> OthersIter<'_>
        ensures rest { result ≡ values_of self.now }
        ensures ordered { IsStrictlySortedBy nat_cmp (keys_of self.now) }
    {
        OthersIter {
            items: &self.items,
            places: self.places.values(),
        }
    }

    // Adds an abbreviation, or returns `DuplicateAbbreviationCode` if its code is there.
    pub(super) fn insert(&mut self, abbreviation: Abbreviation) -> Result<()>
        ensures ok { OnOk result (Adds abbreviation self.old self.new) }
        ensures repeated { IfErr result (λ e. e ≢ Error.OutOfMemory
            → IsSome (at_code abbreviation.code self.old)
            × (e ≡ Error.DuplicateAbbreviationCode abbreviation.code)) }
        ensures unchanged { OnErr result (self.new ≡ self.old) }
    {
        insert_by_place(&mut self.items, &mut self.places, abbreviation)
    }
}

impl Clone for Others {
    ghost is_clone = { λ others copy. copy ≡ others };

    fn clone(&self) -> std::result::Result<Self, AllocError> {
        Ok(Others {
            items: self.items.clone()?,
            places: self.places.clone()?,
        })
    }
}

// Adds an abbreviation at the back, and its place by its code. It is a call out of line, since
// usual tables have no such code, and are read faster without it.
#[inline(never)]
fn insert_by_place(
    items: &mut Vec<Abbreviation>,
    places: &mut BTreeMap<Key, usize>,
    abbreviation: Abbreviation,
) -> Result<()>
    requires { ArePlaces items.old.items places.old.entries }
    ensures ok { OnOk result (Adds abbreviation (with_places items.old.items places.old.entries)
        (with_places items.new.items places.new.entries)) }
    ensures repeated { IfErr result (λ e. e ≢ Error.OutOfMemory
        → IsSome (at_code abbreviation.code (with_places items.old.items places.old.entries))
        × (e ≡ Error.DuplicateAbbreviationCode abbreviation.code)) }
    ensures unchanged { OnErr result (with_places items.new.items places.new.entries
        ≡ with_places items.old.items places.old.entries) }
    ensures kept { ArePlaces items.new.items places.new.entries }
{
    items.reserve(1)?;
    let code = abbreviation.code();
    let Entry::Vacant(entry) = places.entry(Key(code))? else {
        return Err(Error::DuplicateAbbreviationCode(code));
    };
    entry.insert(items.len());
    items.push_reserved(abbreviation);
    Ok(())
}

// The abbreviations at the places that remain.
#[derive(Debug, Drop)]
pub(super) struct OthersIter<'table> {
    items: &'table [Abbreviation],
    places: Values<'table, Key, usize>,
}

impl<'table> Model for OthersIter<'table> {
    ghost use Rattle.std.specs.Prelude.{List, map, length, ◌<◌};
    ghost use Rattle.std.specs.List.{AllByRecursion};
    ghost use Rattle.dwarf_read_core.specs.Grammar.{Declaration};
    ghost use Rattle.dwarf_read_core.specs.Others.{at_place};

    ghost Value = { List Declaration };

    ghost view = { λ p. map (at_place p.items.now) p.places };

    ghost invariant = { λ p. AllByRecursion (λ place. place < length p.items.now) p.places };
}

impl<'table> Iterator for OthersIter<'table> {
    type Item = &'table Abbreviation;

    ghost next_gives = { YieldsFirstRef (λ rest. rest) };

    ghost remaining = { item_count (λ rest. rest) };

    fn next(&mut self) -> Option<&'table Abbreviation> {
        let place = *self.places.next()?;
        self.items.get(place)
    }
}

impl<'table> Clone for OthersIter<'table> {
    ghost is_clone = { λ it copy. copy ≡ it };

    ghost is_infallible = { λ _. ⊤ };

    fn clone(&self) -> std::result::Result<Self, AllocError> {
        Ok(OthersIter {
            items: self.items,
            places: self.places.clone()?,
        })
    }
}
