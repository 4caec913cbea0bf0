//! A cache of abbreviation tables, which units share.

ghost use Rattle.std.specs.Prelude.{◌≡◌, ◌≢◌, List, [], ℕ, IfOk, IsOk, IsSome, IfErr, OnOk, OnErr, MatchOption, Ok, Err, map, option_map};
ghost use Rattle.std.specs.FinMap as finite;
ghost use Rattle.std.specs.Iterator.{IsFinite};
ghost use Rattle.dwarf_reader_core.specs.Input.{Input};
ghost use Rattle.dwarf_reader_core.specs.Appended.{followed_by};
ghost use Rattle.dwarf_read_core.specs.Answer.{Answer, Answers};
ghost use Rattle.dwarf_read_core.specs.Cache.{answer_of, KeepsAnswers, least_count, NamesOffsets, GivesBeforeError, HasFirstItem, IsFaithful, ReturnsKept, StillKept};
ghost use Rattle.dwarf_read_core.specs.Reading.{is_final};
ghost use Rattle.dwarf_read_core.specs.Sections.{debug_abbrev_reader};

use super::super::key::Key;
use super::{Abbreviations, DebugAbbrev};
use dwarf_base_core::{DebugAbbrevOffset, Error, ReaderOffset, Result};
use dwarf_reader_core::Reader;
use std::alloc::Global;
use std::collections::BTreeMap;
use std::marker::Model;
use std::rc::Rc;

/// Which tables a cache of abbreviations keeps.
#[derive(Debug, Clone, Copy, PartialEq, Eq)]
pub enum AbbreviationsCacheStrategy {
    /// Those at offsets that occur at least twice.
    Duplicates,
    /// Those at every offset that occurs.
    All,
}

impl AbbreviationsCacheStrategy {
    // How often an offset has to occur for its table to be kept.
    fn least_count(self) -> usize
        ensures { result ≡ least_count self }
    {
        match self {
            AbbreviationsCacheStrategy::Duplicates => 2,
            AbbreviationsCacheStrategy::All => 1,
        }
    }
}

/// Tables of abbreviations by their offsets, kept so that a table which several units use is read
/// once.
///
/// A cache keeps what it was populated with from one section: tables, and the errors in place of
/// tables. [`set`](Self::set) adds a table by hand. A table at another offset is read by each
/// [`get`](Self::get), and isn't kept.
///
/// ```
/// let mut cache = AbbreviationsCache::new(mem);
/// cache.populate(
///     AbbreviationsCacheStrategy::Duplicates,
///     &debug_abbrev,
///     offsets,
/// )?;
/// let table = cache.get(&debug_abbrev, DebugAbbrevOffset(0))?;
/// ```
#[derive(Debug, Drop)]
pub struct AbbreviationsCache {
    // By its offset, each table or the error in its place. All units that use a table share it.
    abbreviations: BTreeMap<Key, Result<Rc<Abbreviations>>>,
    mem: Global,
}

impl Model for AbbreviationsCache {
    ghost use Rattle.std.specs.FinMap as finite;
    ghost use Rattle.std.specs.Coded.{coded_ℕ, coded_result};
    ghost use Rattle.dwarf_read_core.specs.Codes.{table_code};
    ghost use Rattle.dwarf_read_core.specs.Cache.{Cache, KeepsNoOutOfMemory, shown_entries};
    ghost use Rattle.dwarf_base_core.specs.contracts.error.Error as error;

    ghost Value = { Cache };

    ghost coded = { finite.code coded_ℕ (coded_result table_code error.the_row.coded) };

    ghost view = { λ a. finite.from_entries (shown_entries a.abbreviations.entries) };

    ghost invariant = { λ a. KeepsNoOutOfMemory (finite.from_entries (shown_entries a.abbreviations.entries)) };
}

impl AbbreviationsCache {
    /// Returns a cache that keeps nothing yet.
    #[tactic(auto, using(crate::proofs::cache::NoMemoryError::no_memory_error_empty, crate::proofs::cache::EntriesAsMap::shown))]
    pub fn new(mem: Global) -> Self
        ensures { result ≡ finite.empty }
    {
        AbbreviationsCache {
            abbreviations: BTreeMap::new(mem),
            mem,
        }
    }

    /// Reads the tables at the offsets that `strategy` selects from `units`, and keeps them in
    /// place of all that was kept before. It selects the offsets that occur at least twice, or all
    /// of them.
    ///
    /// The call stops at the first error from `units`, and returns it only if it is `OutOfMemory`.
    /// If there is an error in place of a table, the error is kept. The caller has to make sure
    /// that `next` may be called on `units`, and that its items end.
    ///
    /// The contract knows the offsets by the ghost member `next_gives` of the iterator's type. If
    /// the type leaves this member at the default of the standard library, which allows any items,
    /// the contract doesn't say which offsets are kept. What is kept at an offset is then still the
    /// section's result there.
    ///
    /// # Errors
    ///
    /// `OutOfMemory` if memory runs out, or if `units` yields that. The cache is then unchanged.
    /// With no offsets no memory is allocated.
    pub fn populate<R: Reader, I: Iterator<Item = Result<DebugAbbrevOffset<R::Offset>>>>(
        &mut self,
        strategy: AbbreviationsCacheStrategy,
        debug_abbrev: &DebugAbbrev<R>,
        units: I,
    ) -> Result<()>
        requires can { I.can_next units }
        requires ends { IsFinite (I.remaining units) }
        ensures ok { let section = R.view (debug_abbrev_reader debug_abbrev.now) in
            OnOk result ((offsets : List ℕ)
            × NamesOffsets I.next_gives (λ o. R.Offset.value o.0) units offsets
            × KeepsAnswers (least_count strategy) section offsets (finite.get self.new)) }
        ensures faithful { let section = R.view (debug_abbrev_reader debug_abbrev.now) in
            OnOk result (IsFaithful self.new section) }
        ensures err { IfErr result (λ e. e ≡ Error.OutOfMemory) }
        ensures unchanged { OnErr result (self.new ≡ self.old) }

        // With no offsets the call succeeds, unless the iterator itself runs out of memory.
        ensures some { OnErr result (HasFirstItem I.next_gives units) }
    {
        let offsets = before_error(self.mem, units)?;
        let cache = populated(self.mem, strategy, debug_abbrev, offsets)?;
        *self = cache;
        Ok(())
    }

    /// Keeps this table at `offset`, in bytes from the section's start, in place of what was kept
    /// there. It isn't compared with a section. `R` is written: `cache.set::<R>(offset, table)`.
    ///
    /// # Errors
    ///
    /// `OutOfMemory` if memory runs out. The cache is then unchanged. An offset at which something
    /// is kept needs no memory.
    pub fn set<R: Reader>(
        &mut self,
        offset: DebugAbbrevOffset<R::Offset>,
        abbreviations: Rc<Abbreviations>,
    ) -> Result<()>
        ensures ok { OnOk result
            (self.new ≡ finite.insert self.old (R.Offset.value offset.0) (Ok abbreviations.value)) }
        ensures err { IfErr result (λ e. e ≡ Error.OutOfMemory) }
        ensures unchanged { OnErr result (self.new ≡ self.old) }

        // Replacing what is kept needs no memory.
        ensures free { IsSome (finite.get self.old (R.Offset.value offset.0)) → IsOk result }
    {
        self.keep(offset.0.into_u64(), Ok(abbreviations))
    }

    // Keeps a result at an offset, in place of what was kept there.
    fn keep(&mut self, offset: u64, answer: Result<Rc<Abbreviations>>) -> Result<()>
        requires { answer_of answer ≢ Err Error.OutOfMemory }
        ensures ok { OnOk result (self.new ≡ finite.insert self.old offset (answer_of answer)) }
        ensures err { IfErr result (λ e. e ≡ Error.OutOfMemory) }
        ensures unchanged { OnErr result (self.new ≡ self.old) }
        ensures free { IsSome (finite.get self.old offset) → IsOk result }
    {
        self.abbreviations.insert(Key(offset), answer)?;
        Ok(())
    }

    /// Drops each entry that may be wrong once bytes are appended to the section.
    ///
    /// A table that a code of value 0 closes is kept, and so is each error except `UnexpectedEof`:
    /// appended bytes don't change these. A table that the section's end closed is dropped, and so
    /// is an `UnexpectedEof`. After this call [`get`](Self::get) reads them again.
    ///
    /// Call this each time the section has grown, before the next `get` on the longer section. It
    /// doesn't allocate.
    pub fn section_grew(&mut self)
        ensures kept { (key : ℕ) → StillKept (finite.get self.old key) (finite.get self.new key) }
        ensures faithful { (section : Input) (more : List ℕ)
            → IsFaithful self.old section → IsFaithful self.new (followed_by section more) }
    {
        self.abbreviations.retain(|_, answer| is_final(answer));
    }

    /// Returns the table that is kept at `offset`, in bytes from the section's start, or one that
    /// is read from `debug_abbrev` if nothing is kept there. The cache doesn't change.
    ///
    /// What is kept is returned whatever `debug_abbrev` is, so pass the section that the cache was
    /// populated from.
    ///
    /// # Errors
    ///
    /// Those of [`DebugAbbrev::abbreviations`], kept or read now, and `OutOfMemory` if memory to
    /// share a table runs out.
    pub fn get<R: Reader>(
        &self,
        debug_abbrev: &DebugAbbrev<R>,
        offset: DebugAbbrevOffset<R::Offset>,
    ) -> Result<Rc<Abbreviations>>
        ensures answer { let section = R.view (debug_abbrev_reader debug_abbrev.now) in
            MatchOption (finite.get self.now (R.Offset.value offset.0))
            (Answers (answer_of result) section (R.Offset.value offset.0))
            (λ kept. ReturnsKept kept result) }
        ensures faithful { let section = R.view (debug_abbrev_reader debug_abbrev.now) in
            IsFaithful self.now section
            → Answers (answer_of result) section (R.Offset.value offset.0) }
    {
        match self.kept(offset.0.into_u64()) {
            Some(Ok(table)) => Ok(table.clone()?),
            Some(Err(error)) => Err(*error),
            None => Ok(Rc::new(self.mem, debug_abbrev.abbreviations(self.mem, offset)?)?),
        }
    }

    // What is kept at an offset.
    fn kept(&self, offset: u64) -> Option<&Result<Rc<Abbreviations>>>
        ensures { option_map (λ answer. answer_of answer.now) result ≡ finite.get self.now offset }
    {
        self.abbreviations.get(&Key(offset))
    }
}

// Whether appended bytes leave a result unchanged.
fn is_final(answer: &Result<Rc<Abbreviations>>) -> bool
    ensures { result ≡ is_final (answer_of answer.now) }
{
    match answer {
        Ok(table) => table.closed_by_null(),
        Err(Error::UnexpectedEof(_)) => false,
        Err(_) => true,
    }
}

// The items before the first error.
fn before_error<T: Drop, I: Iterator<Item = Result<T>>>(mem: Global, items: I) -> Result<Vec<T>>
    requires can { I.can_next items }
    requires ends { IsFinite (I.remaining items) }
    ensures ok { IfOk result (λ taken. GivesBeforeError I.next_gives items taken.items) }
    ensures err { IfErr result (λ e. e ≡ Error.OutOfMemory) }
    ensures some { OnErr result (HasFirstItem I.next_gives items) }
{
    let mut taken = Vec::new(mem);
    for item in items {
        match item {
            Ok(item) => taken.push(item)?,
            Err(Error::OutOfMemory) => return Err(Error::OutOfMemory),
            Err(_) => return Ok(taken),
        }
    }
    Ok(taken)
}

// Reads the table at an offset, to be shared.
fn shared_answer<R: Reader>(
    mem: Global,
    debug_abbrev: &DebugAbbrev<R>,
    offset: DebugAbbrevOffset<R::Offset>,
) -> Result<Result<Rc<Abbreviations>>>
    ensures ok { let section = R.view (debug_abbrev_reader debug_abbrev.now) in
        IfOk result (λ answer. Answer section (R.Offset.value offset.0) (answer_of answer)) }
    ensures err { IfErr result (λ e. e ≡ Error.OutOfMemory) }
{
    match debug_abbrev.abbreviations(mem, offset) {
        Ok(table) => Ok(Ok(Rc::new(mem, table)?)),
        Err(Error::OutOfMemory) => Err(Error::OutOfMemory),
        Err(error) => Ok(Err(error)),
    }
}

// Reads the table at each offset that occurs often enough. Equal offsets are neighbours once they
// are sorted.
fn populated<R: Reader>(
    mem: Global,
    strategy: AbbreviationsCacheStrategy,
    debug_abbrev: &DebugAbbrev<R>,
    mut offsets: Vec<DebugAbbrevOffset<R::Offset>>,
) -> Result<AbbreviationsCache>
    ensures ok { let section = R.view (debug_abbrev_reader debug_abbrev.now) in
        IfOk result (λ cache. KeepsAnswers (least_count strategy) section
        (map (λ o. R.Offset.value o.0) offsets.items) (finite.get cache)) }
    ensures err { IfErr result (λ e. e ≡ Error.OutOfMemory) }
    ensures some { OnErr result (offsets.items ≢ []) }
{
    offsets.sort_unstable_by_key(|offset| offset.0.into_u64());
    let mut cache = AbbreviationsCache::new(mem);
    let mut last = 0;
    let mut count = 0;
    for offset in &offsets {
        let number = offset.0.into_u64();
        count = if number == last { count + 1 } else { 1 };
        last = number;
        if count == strategy.least_count() {
            let answer = shared_answer(mem, debug_abbrev, *offset)?;
            cache.keep(number, answer)?;
        }
    }
    Ok(cache)
}
