//! What a table is read into: abbreviations as C sees them, with codes in any order.

ghost use Rattle.std.specs.Prelude.{◌≡◌, ◌≢◌, ◌↔◌, ◌<◌, ◌≤◌, ◌∷◌, ◌++◌, List, [], false, true, length, map, IsTrue, IfOk, IfErr, OnOk, OnErr};
ghost use Rattle.std.specs.Vec.{vec_len, vec_capacity};
ghost use Rattle.std.specs.FinMap as finite;
ghost use Rattle.dwarf_read_core.specs.Grammar.{Declaration, Specification, attribute_count, by_code_of};
ghost use Rattle.dwarf_read_core.specs.Others.{at_place};
ghost use Rattle.dwarf_read_c.specs.Laid.{AreKept, AreLaid, ArePlaced, AreRising, laid_out, last_code};
ghost use Rattle.dwarf_read_c.specs.Room.{Fills};
ghost use Rattle.dwarf_read_c.specs.Tables.{abbreviation_of, abbreviations_of, attribute_of, attributes_in, attributes_of, laid_from, measure_of};

use crate::rows::{DwarfAbbreviation, DwarfAttributeSpec, DwarfMeasure};
use dwarf_read_core::read::Key;
use dwarf_read_core::{
    AbbreviationDeclaration, AbbreviationSink, AttributeSpecification, Error, Result,
};
use std::alloc::{AllocError, Global};
use std::collections::BTreeMap;
use std::collections::btree_map::Entry;
use std::marker::Model;

// A table that is read.
#[derive(Drop)]
pub(crate) struct TableRows {
    // Its abbreviations, in the order in which they came.
    rows: Vec<DwarfAbbreviation>,
    // Those of all abbreviations, in their order.
    attributes: Vec<AttributeSpecification>,
    // The index of the row of each code. It is empty while codes rise, as compilers number them.
    places: BTreeMap<Key, usize>,
    closed_by_null: bool,
}

impl Model for TableRows {
    ghost use Rattle.dwarf_read_core.specs.Codes.{close_from, table_code};
    ghost use Rattle.dwarf_read_core.specs.Grammar.{Table, by_code_of, closed};
    ghost use Rattle.dwarf_read_c.specs.Laid.{AreKept, laid_out};

    ghost Value = { Table };

    ghost coded = { table_code };

    ghost view = { λ k. closed (by_code_of (laid_out k.attributes.items k.rows.items))
        (close_from k.closed_by_null) };

    ghost invariant = { λ k. AreKept k.attributes.items k.rows.items k.places.entries };
}

impl TableRows {
    // Returns how large the table is, and that it ends there.
    pub(crate) fn measure(&self, end: usize) -> DwarfMeasure
        ensures { result ≡ measure_of self.now end }
    {
        DwarfMeasure {
            abbreviations: self.rows.len(),
            attributes: self.attributes.len(),
            end,
            closed_by_null: u8::from(self.closed_by_null),
        }
    }

    // Writes the abbreviations and the attributes of all of them, in the order of their codes, to
    // the front of the arrays.
    pub(crate) fn fill(
        &self,
        abbreviations: &mut [DwarfAbbreviation],
        attributes: &mut [DwarfAttributeSpec],
    )
        requires room { finite.len self.now.by_code ≤ length abbreviations.old }
        requires counted { attribute_count self.now.by_code ≤ length attributes.old }
        ensures laid { Fills (abbreviations_of self.now) abbreviations.old abbreviations.new }
        ensures filled { Fills (attributes_of self.now) attributes.old attributes.new }
    {
        if self.places.is_empty() {
            abbreviations[..self.rows.len()].copy_from_slice(&self.rows);
            fill_each(&self.attributes, &mut attributes[..self.attributes.len()]);
            return;
        }
        fill_by_place(
            &self.rows,
            &self.attributes,
            &self.places,
            abbreviations,
            attributes,
        );
    }
}

impl AbbreviationSink for TableRows {
    ghost table = { λ t. t };

    fn new(mem: Global) -> TableRows {
        TableRows {
            rows: Vec::new(mem),
            attributes: Vec::new(mem),
            places: BTreeMap::new(mem),
            closed_by_null: false,
        }
    }

    // Tables are read in two places, and only those that have an error in the second.
    #[inline(always)]
    fn declare(&mut self, declaration: &AbbreviationDeclaration<'_>) -> Result<()> {
        make_room(&mut self.rows, &mut self.attributes)?;
        let (code, attributes) = (declaration.code(), declaration.attributes());
        let first_attribute = self.attributes.len();
        if self.places.is_empty() && is_above(&self.rows, code) {
            self.attributes.extend_from_slice(attributes)?;
        } else {
            extend_by_place(
                &self.rows,
                &mut self.attributes,
                &mut self.places,
                code,
                attributes,
            )?;
        }
        self.rows.push_reserved(DwarfAbbreviation {
            code,
            tag: declaration.tag().0,
            has_children: u8::from(declaration.has_children()),
            first_attribute,
            attribute_count: attributes.len(),
        });
        Ok(())
    }

    fn close(&mut self) {
        self.closed_by_null = true;
    }
}

// For how many more abbreviations there is room at least when there is none for the next one, and
// for how many attributes with them. Both lists begin with 1,024 bytes, which glibc still takes from
// those that were freed last.
const MORE_ABBREVIATIONS: usize = 32;

const MORE_ATTRIBUTES: usize = 2 * MORE_ABBREVIATIONS;

// Makes room for one more abbreviation, and for the attributes of a usual one.
#[inline]
fn make_room(
    rows: &mut Vec<DwarfAbbreviation>,
    attributes: &mut Vec<AttributeSpecification>,
) -> std::result::Result<(), AllocError>
    ensures rows { rows.new.items ≡ rows.old.items }
    ensures attributes { attributes.new.items ≡ attributes.old.items }
    ensures room { OnOk result (vec_len rows.new < vec_capacity rows.new) }
{
    if rows.len() == rows.capacity() {
        rows.reserve(MORE_ABBREVIATIONS)?;
        attributes.reserve(MORE_ATTRIBUTES)?;
    }
    Ok(())
}

// Whether a code is above that of the last row. It isn't 0.
fn is_above(rows: &[DwarfAbbreviation], code: u64) -> bool
    requires { 0 < code }
    ensures { IsTrue result ↔ (last_code 0 rows.now < code) }
{
    match rows.last() {
        Some(last) => last.code < code,
        None => true,
    }
}

// Adds attributes after all others, and the place of the next row, whose attributes they are. It is
// out of line, since codes of usual tables rise.
#[inline(never)]
fn extend_by_place(
    rows: &[DwarfAbbreviation],
    all: &mut Vec<AttributeSpecification>,
    places: &mut BTreeMap<Key, usize>,
    code: u64,
    attributes: &[AttributeSpecification],
) -> Result<()>
    requires { AreKept all.old.items rows.now places.old.entries }
    ensures new { let ds = laid_out all.old.items rows.now in
        OnOk result (finite.contains_key (by_code_of ds) code ≡ false) }
    ensures placed { let ds = laid_out all.old.items rows.now in OnOk result
        ((d : Declaration) → d.code ≡ code → ArePlaced (ds ++ d ∷ []) places.new.entries) }
    ensures extended { OnOk result (all.new.items ≡ all.old.items ++ attributes.now) }
    ensures repeated { let ds = laid_out all.old.items rows.now in
        IfErr result (λ e. e ≢ Error.OutOfMemory
        → (finite.contains_key (by_code_of ds) code ≡ true)
        × (e ≡ Error.DuplicateAbbreviationCode code)) }
    ensures kept { OnErr result (AreKept all.new.items rows.now places.new.entries) }
{
    if places.is_empty() {
        *places = places_of(*all.allocator(), rows)?;
    }
    let Entry::Vacant(entry) = places.entry(Key(code))? else {
        return Err(Error::DuplicateAbbreviationCode(code));
    };
    all.extend_from_slice(attributes)?;
    entry.insert(rows.len());
    Ok(())
}

// Returns the index of each row by its code.
fn places_of(
    mem: Global,
    rows: &[DwarfAbbreviation],
) -> std::result::Result<BTreeMap<Key, usize>, AllocError>
    requires { AreRising 0 rows.now }
    ensures { IfOk result (λ places. (attributes : List Specification)
        → ArePlaced (laid_out attributes rows.now) places.entries) }
{
    let mut places = BTreeMap::new(mem);
    for (place, row) in rows.iter().enumerate() {
        places.insert(Key(row.code), place)?;
    }
    Ok(places)
}

// Writes the abbreviations and the attributes of all of them, in the order of their places, to the
// front of the arrays.
#[tactic(auto, using(crate::proofs::WrittenTables::table_steps))]
fn fill_by_place(
    rows: &[DwarfAbbreviation],
    all: &[AttributeSpecification],
    places: &BTreeMap<Key, usize>,
    abbreviations: &mut [DwarfAbbreviation],
    attributes: &mut [DwarfAttributeSpec],
)
    requires laid { AreLaid all.now rows.now }
    requires placed { ArePlaced (laid_out all.now rows.now) places.now.entries }
    requires room { finite.len (by_code_of (laid_out all.now rows.now))
        ≤ length abbreviations.old }
    requires counted { attribute_count (by_code_of (laid_out all.now rows.now))
        ≤ length attributes.old }
    ensures laid { Fills (laid_from 0 (finite.values (by_code_of (laid_out all.now rows.now))))
        abbreviations.old abbreviations.new }
    ensures filled { Fills (attributes_in (finite.values (by_code_of (laid_out all.now rows.now))))
        attributes.old attributes.new }
{
    let (mut index, mut first_attribute) = (0, 0);
    for place in places.values() {
        let (row, specifications) = row_at(rows, all, *place);
        abbreviations[index] = DwarfAbbreviation {
            first_attribute,
            ..row
        };
        index += 1;
        let end = first_attribute + specifications.len();
        fill_each(specifications, &mut attributes[first_attribute..end]);
        first_attribute = end;
    }
}

// Returns the row at a place, and its attributes.
fn row_at<'table>(
    rows: &[DwarfAbbreviation],
    all: &'table [AttributeSpecification],
    place: usize,
) -> (DwarfAbbreviation, &'table [AttributeSpecification])
    requires laid { AreLaid all.now rows.now }
    requires within { place < length rows.now }
    ensures row { let d = at_place (laid_out all.now rows.now) place in
        result.0 ≡ abbreviation_of result.0.first_attribute d }
    ensures attributes { let d = at_place (laid_out all.now rows.now) place in
        result.1.now ≡ d.attributes }
{
    let row = rows[place];
    let end = row.first_attribute + row.attribute_count;
    (row, &all[row.first_attribute..end])
}

// Writes the attributes of one abbreviation, each to its index.
fn fill_each(attributes: &[AttributeSpecification], places: &mut [DwarfAttributeSpec])
    requires { length attributes.now ≡ length places.old }
    ensures { places.new ≡ map attribute_of attributes.now }
{
    for (i, attribute) in attributes.iter().enumerate() {
        places[i] = attribute_of(attribute);
    }
}

fn attribute_of(attribute: &AttributeSpecification) -> DwarfAttributeSpec
    ensures { result ≡ attribute_of attribute.now }
{
    DwarfAttributeSpec {
        name: attribute.name().0,
        form: attribute.form().0,
        implicit_const: attribute.implicit_const_value().unwrap_or(0),
    }
}
