//! One result, with its error.

ghost use Rattle.std.specs.Prelude.{◌≡◌, ◌≢◌, ◌≤◌, false, Ok, Err, length, map, IfOk, IfErr};
ghost use Rattle.std.specs.FinMap as finite;
ghost use Rattle.dwarf_read_core.specs.Answer.{Answer, Answers};
ghost use Rattle.dwarf_read_core.specs.Cache.{IsFaithful, answer_of};
ghost use Rattle.dwarf_read_core.specs.Grammar.{Table};
ghost use Rattle.dwarf_read_core.specs.Input.{Input, section_of};
ghost use Rattle.dwarf_read_core.specs.Leb128.{unsigned16, TakesNoEncoding, ReadsLeb128, ReadsNoLeb128, TakesEncoding};
ghost use Rattle.dwarf_compare.specs.Tags.{tag_in};
ghost use Rattle.dwarf_fault.specs.Fault.{Reports};

use dwarf_fault::{DwarfFault, reject};
use dwarf_read_core::{
    Abbreviations, AbbreviationsCache, AbbreviationsCacheStrategy, DebugAbbrev, DebugAbbrevOffset,
    EndianSlice, Error, LittleEndian, Reader, Result,
};
use std::alloc::Global;
use std::rc::Rc;

// There are fewer or more places than items.
const NO_ROOM: u32 = 100;

/// Reads the unsigned number of at most 16 bits that `bytes` begin with. Returns 0 or the number of
/// the error. `rest` is how many bytes aren't consumed, also by an error.
#[unsafe(no_mangle)]
pub extern "C" fn compare_short(
    bytes: &[u8],
    value: &mut u16,
    rest: &mut usize,
    fault: &mut DwarfFault,
) -> u32
    ensures read { result ≡ 0 → (left : Input)
        × ReadsLeb128 unsigned16 (section_of bytes.now false) value.new left
        × (rest.new ≡ length left.bytes) }
    ensures rejected { result ≢ 0 → Reports (λ e. (left : Input)
        × ReadsNoLeb128 unsigned16 (section_of bytes.now false) e left
        × (rest.new ≡ length left.bytes))
        result fault.new }
{
    let mut input = EndianSlice::new(bytes, LittleEndian);
    let found = input.read_uleb128_u16();
    *rest = input.len();
    match found {
        Ok(number) => {
            *value = number;
            0
        }
        Err(error) => reject(error, fault),
    }
}

/// Skips the number of any length that `bytes` begin with, otherwise as [`compare_short`].
#[unsafe(no_mangle)]
pub extern "C" fn compare_skipped(bytes: &[u8], rest: &mut usize, fault: &mut DwarfFault) -> u32
    ensures read { result ≡ 0 → (left : Input)
        × TakesEncoding (section_of bytes.now false) left × (rest.new ≡ length left.bytes) }
    ensures rejected { result ≢ 0 → Reports (λ e. (left : Input)
        × TakesNoEncoding (section_of bytes.now false) e left × (rest.new ≡ length left.bytes))
        result fault.new }
{
    let mut input = EndianSlice::new(bytes, LittleEndian);
    let found = input.skip_leb128();
    *rest = input.len();
    match found {
        Ok(()) => 0,
        Err(error) => reject(error, fault),
    }
}

/// Fills a cache with the table at `offset` of the first `before` bytes of `.debug_abbrev`, tells
/// it that the section grew, and returns what it then has at that offset of the whole section: 0,
/// and in `count` how many abbreviations, or the number of the error. If there are fewer bytes than
/// `before`, the section has grown by none.
#[unsafe(no_mangle)]
pub extern "C" fn compare_grown(
    mem: Global,
    section: &[u8],
    before: usize,
    offset: usize,
    count: &mut usize,
    fault: &mut DwarfFault,
) -> u32
    ensures read { let s = section_of section.now false in result ≡ 0
        → (t : Table) × Answer s offset (Ok t) × (count.new ≡ finite.len t.by_code) }
    ensures rejected { let s = section_of section.now false in
        result ≢ 0 → Reports (λ e. Answers (Err e) s offset) result fault.new }
{
    match grown_at(mem, section, before, offset) {
        Ok(table) => {
            *count = table.len();
            0
        }
        Err(error) => reject(error, fault),
    }
}

// What a cache has at an offset that was filled before the section grew.
fn grown_at(mem: Global, section: &[u8], before: usize, offset: usize) -> Result<Rc<Abbreviations>>
    ensures { Answers (answer_of result) (section_of section.now false) offset }
{
    let before = before.min(section.len());
    let mut cache = filled(mem, &section[..before], &[offset])?;
    cache.section_grew();
    cached_at(&cache, section, offset)
}

// A cache that is filled with the tables at these offsets.
pub(crate) fn filled(mem: Global, section: &[u8], offsets: &[usize]) -> Result<AbbreviationsCache>
    ensures ok { IfOk result (λ cache. IsFaithful cache (section_of section.now false)) }
    ensures err { IfErr result (λ e. e ≡ Error.OutOfMemory) }
{
    let mut cache = AbbreviationsCache::new(mem);
    let section = DebugAbbrev::new(section, LittleEndian);
    let units = offsets
        .iter()
        .map(|offset| Ok::<_, Error>(DebugAbbrevOffset(*offset)));
    cache.populate(AbbreviationsCacheStrategy::All, &section, units)?;
    Ok(cache)
}

// What a cache returns for an offset of a section.
pub(crate) fn cached_at(
    cache: &AbbreviationsCache,
    section: &[u8],
    offset: usize,
) -> Result<Rc<Abbreviations>>
    ensures { IsFaithful cache.now (section_of section.now false)
        → Answers (answer_of result) (section_of section.now false) offset }
{
    cache.get(
        &DebugAbbrev::new(section, LittleEndian),
        DebugAbbrevOffset(offset),
    )
}

/// Writes to `tags` the tag of the abbreviation with each code of `codes` in the table at `offset`
/// of `.debug_abbrev`, or 0 if there is none. Returns 0, or the number of the error if no table is
/// there, or 100 if there aren't as many places as codes.
#[unsafe(no_mangle)]
pub extern "C" fn compare_found(
    mem: Global,
    section: &[u8],
    offset: usize,
    codes: &[u64],
    tags: &mut [u16],
    fault: &mut DwarfFault,
) -> u32
    ensures found { let s = section_of section.now false in result ≡ 0
        → (t : Table) × Answer s offset (Ok t) × (tags.new ≡ map (tag_in t) codes.now) }
    ensures rejected { let s = section_of section.now false in result ≢ 0 → result ≢ NO_ROOM
        → Reports (λ e. Answers (Err e) s offset) result fault.new }
    ensures full { result ≡ NO_ROOM → length tags.old ≢ length codes.now }
{
    if tags.len() != codes.len() {
        return NO_ROOM;
    }
    match table_at(mem, section, offset) {
        Ok(table) => {
            find_each(&table, codes, tags);
            0
        }
        Err(error) => reject(error, fault),
    }
}

// The table at an offset.
pub(crate) fn table_at(mem: Global, section: &[u8], offset: usize) -> Result<Abbreviations>
    ensures { Answers result (section_of section.now false) offset }
{
    DebugAbbrev::new(section, LittleEndian).abbreviations(mem, DebugAbbrevOffset(offset))
}

// Writes the tag of each code's abbreviation, or 0.
fn find_each(table: &Abbreviations, codes: &[u64], tags: &mut [u16])
    requires { length codes.now ≡ length tags.old }
    ensures { tags.new ≡ map (tag_in table.now) codes.now }
{
    for (i, code) in codes.iter().enumerate() {
        tags[i] = tag_of(table, *code);
    }
}

// The tag of the abbreviation with a code, or 0.
pub(crate) fn tag_of(table: &Abbreviations, code: u64) -> u16
    ensures { result ≡ tag_in table.now code }
{
    match table.get(code) {
        Some(abbreviation) => abbreviation.tag().0,
        None => 0,
    }
}
