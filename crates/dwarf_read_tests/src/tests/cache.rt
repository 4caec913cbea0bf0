//! The cache of abbreviation tables.

use super::tables::{check_table, table_at};
use super::worked::{BARE, CLOSED_TABLE, ENDED, ENDED_TABLE, NO_TABLE, Table};
use super::{end_requests, same};
use dwarf_read_core::AbbreviationsCacheStrategy::{self, All, Duplicates};
use dwarf_read_core::{
    AbbreviationsCache, DebugAbbrev, DebugAbbrevOffset, EndianSlice, Error, LittleEndian, Result,
};
use std::alloc::Global;
use std::process::Abort;
use std::rc::Rc;

// A section with one declaration, whose code is 1.
const ONE: &[u8] = ENDED;

// A section whose table is empty.
const NONE: &[u8] = b"\0";

// A section with the code 9.
const NINE: &[u8] = b"\x09\x11\0\0\0";

// A section that has no code at 0, the code 2 at 5, and bytes at 7. So none of its results there is that of the section
// with one declaration.
const OTHER: &[u8] = b"\0\0\0\0\0\x02\x11\0\0\0";

// The table with the code 9.
const NINE_TABLE: Table = (&[(9, BARE)], false);

// The table that the other section has at 5.
const OTHER_TABLE: Table = (&[(2, BARE)], false);

type Slice<'a> = EndianSlice<'a, LittleEndian>;

// What an iterator over the offsets of units yields.
type Unit = Result<DebugAbbrevOffset<usize>>;

static UNITS: &[Unit] = &[
    Ok(DebugAbbrevOffset(5)),
    Ok(DebugAbbrevOffset(0)),
    Ok(DebugAbbrevOffset(5)),
    Ok(DebugAbbrevOffset(7)),
    Err(Error::BadUtf8),
    Ok(DebugAbbrevOffset(7)),
];

fn populate(
    cache: &mut AbbreviationsCache,
    strategy: AbbreviationsCacheStrategy,
    bytes: &[u8],
    units: &[Unit],
) -> Result<()> {
    let section = DebugAbbrev::new(bytes, LittleEndian);
    cache.populate(strategy, &section, units.iter().copied())
}

// Keeps the table at the front of these bytes, for an offset.
fn set(mem: Global, cache: &mut AbbreviationsCache, offset: usize, bytes: &[u8]) -> Result<()> {
    let table = Rc::new(mem, table_at(mem, 0, bytes, 0)?)?;
    cache.set::<Slice<'_>>(DebugAbbrevOffset(offset), table)
}

// A section's bytes, an offset, and the table that `get` returns.
type Row = (&'static [u8], usize, Result<Table>);

// Ends the test where `get` returns something else.
fn check_get(rt: &impl Abort, cache: &AbbreviationsCache, rows: &[Row], what: &str) {
    for (bytes, offset, wanted) in rows {
        let section = DebugAbbrev::new(bytes, LittleEndian);
        match cache.get(&section, DebugAbbrevOffset(*offset)) {
            Ok(table) => check_table(rt, Ok(&*table), *wanted, (what, *offset)),
            Err(error) => check_table(rt, Err(error), *wanted, (what, *offset)),
        }
    }
}

#[test]
fn strategies_are_compared(rt: HostRuntime) {
    let copies = [All, Duplicates];
    same(&rt, copies, [All, Duplicates], "copies");
    same(&rt, All == Duplicates, false, "others");
}

// The tables at 0 and at 5 are those that a cache returns for the empty section: what was kept of another section, or
// else what is read afresh.
#[test]
fn tables_are_kept_or_read_afresh(rt: HostRuntime) {
    let mem = rt.alloc();
    let mut cache = AbbreviationsCache::new(mem);
    static FRESH: &[Row] = &[(NONE, 0, Ok(CLOSED_TABLE)), (NONE, 5, Err(eof!(0)))];
    check_get(&rt, &cache, FRESH, "new");

    let populated = populate(&mut cache, Duplicates, ONE, UNITS);
    same(&rt, populated, Ok(()), "duplicates");
    static TWICE: &[Row] = &[(NONE, 0, Ok(CLOSED_TABLE)), (NONE, 5, Ok(NO_TABLE))];
    check_get(&rt, &cache, TWICE, "duplicates");

    same(&rt, populate(&mut cache, All, ONE, UNITS), Ok(()), "all");
    static WHOLE: &[Row] = &[(NONE, 0, Ok(ENDED_TABLE)), (NONE, 5, Ok(NO_TABLE))];
    check_get(&rt, &cache, WHOLE, "all");

    same(&rt, set(mem, &mut cache, 5, NINE), Ok(()), "set");
    static CHANGED: &[Row] = &[(NONE, 0, Ok(ENDED_TABLE)), (NONE, 5, Ok(NINE_TABLE))];
    check_get(&rt, &cache, CHANGED, "set");

    let units = &[Ok(DebugAbbrevOffset(0)), Err(Error::OutOfMemory)];
    let refused = populate(&mut cache, All, ONE, units);
    same(&rt, refused, Err(Error::OutOfMemory), "refused");
    check_get(&rt, &cache, CHANGED, "refused");

    same(&rt, populate(&mut cache, All, ONE, &[]), Ok(()), "none");
    check_get(&rt, &cache, FRESH, "no units");
}

// What a cache returns for the other section at 0, 5 and 7: what is kept, or else what that section has.
#[test]
fn offsets_are_kept_if_they_occur_often_enough(rt: HostRuntime) {
    let mut cache = AbbreviationsCache::new(rt.alloc());
    static FRESH: &[Row] = &[
        (OTHER, 0, Ok(CLOSED_TABLE)),
        (OTHER, 5, Ok(OTHER_TABLE)),
        (OTHER, 7, Ok(CLOSED_TABLE)),
    ];
    check_get(&rt, &cache, FRESH, "new");

    let populated = populate(&mut cache, Duplicates, ONE, UNITS);
    same(&rt, populated, Ok(()), "duplicates");
    static TWICE: &[Row] = &[
        (OTHER, 0, Ok(CLOSED_TABLE)),
        (OTHER, 5, Ok(NO_TABLE)),
        (OTHER, 7, Ok(CLOSED_TABLE)),
    ];
    check_get(&rt, &cache, TWICE, "duplicates");

    same(&rt, populate(&mut cache, All, ONE, UNITS), Ok(()), "all");
    static WHOLE: &[Row] = &[
        (OTHER, 0, Ok(ENDED_TABLE)),
        (OTHER, 5, Ok(NO_TABLE)),
        (OTHER, 7, Err(eof!(0))),
    ];
    check_get(&rt, &cache, WHOLE, "all");
}

// Whether two calls return one table, and not two that are alike.
fn is_shared(cache: &AbbreviationsCache, bytes: &[u8], offset: usize) -> Result<bool> {
    let section = DebugAbbrev::new(bytes, LittleEndian);
    let first = cache.get(&section, DebugAbbrevOffset(offset))?;
    let second = cache.get(&section, DebugAbbrevOffset(offset))?;
    Ok(Rc::ptr_eq(&first, &second))
}

// `get` itself keeps nothing, so a table that wasn't kept before is read at each call.
#[test]
fn kept_tables_are_shared(rt: HostRuntime) {
    let mut cache = AbbreviationsCache::new(rt.alloc());
    let populated = populate(&mut cache, All, ONE, &[Ok(DebugAbbrevOffset(0))]);
    same(&rt, populated, Ok(()), "populate");
    same(&rt, set(rt.alloc(), &mut cache, 5, NINE), Ok(()), "set");
    same(&rt, is_shared(&cache, ONE, 0), Ok(true), "populated");
    same(&rt, is_shared(&cache, ONE, 5), Ok(true), "set");
    same(&rt, is_shared(&cache, ONE, 4), Ok(false), "only read");
}

// What an iterator over these yields next, once `populate` was called with it.
fn next_after_populate(
    cache: &mut AbbreviationsCache,
    bytes: &[u8],
    units: &[Unit],
) -> Result<Option<Unit>> {
    let section = DebugAbbrev::new(bytes, LittleEndian);
    let mut units = units.iter().copied();
    cache.populate(All, &section, units.by_ref())?;
    Ok(units.next())
}

#[test]
fn nothing_is_asked_after_an_error(rt: HostRuntime) {
    let mut cache = AbbreviationsCache::new(rt.alloc());
    let next = next_after_populate(&mut cache, ONE, UNITS);
    let after = Ok(Some(Ok(DebugAbbrevOffset(7))));
    same(&rt, next, after, "after the error");
    static BEFORE: &[Row] = &[(NONE, 5, Ok(NO_TABLE))];
    check_get(&rt, &cache, BEFORE, "before the error");
}

const SHORTER: &[u8] = b"\x80\0\x01\0\x02\x01\x11\0\0\0";

const LONGER: &[u8] = b"\x01\x11\0\0\0\0\0\0\0\0\0\0";

static GROWN_UNITS: &[Unit] = &[
    Ok(DebugAbbrevOffset(0)),
    Ok(DebugAbbrevOffset(2)),
    Ok(DebugAbbrevOffset(5)),
    Ok(DebugAbbrevOffset(11)),
];

#[test]
fn growing_sections_are_read_again(rt: HostRuntime) {
    let mut cache = AbbreviationsCache::new(rt.alloc());
    let populated = populate(&mut cache, All, SHORTER, GROWN_UNITS);
    same(&rt, populated, Ok(()), "populate");
    static BEFORE: &[Row] = &[
        (LONGER, 0, Ok(CLOSED_TABLE)),
        (LONGER, 2, Err(Error::AbbreviationTagZero)),
        (LONGER, 5, Ok(ENDED_TABLE)),
        (LONGER, 11, Err(eof!(0))),
    ];
    check_get(&rt, &cache, BEFORE, "before");
    cache.section_grew();
    static AFTER: &[Row] = &[
        (LONGER, 0, Ok(CLOSED_TABLE)),
        (LONGER, 2, Err(Error::AbbreviationTagZero)),
        (LONGER, 5, Ok(CLOSED_TABLE)),
        (LONGER, 11, Ok(CLOSED_TABLE)),
    ];
    check_get(&rt, &cache, AFTER, "grown");
}

// What a cache keeps of the section with one declaration at 0, 5 and 7, seen by sections that have something else
// there. None of these calls allocates.
static KEPT: &[Row] = &[
    (NONE, 0, Ok(ENDED_TABLE)),
    (NONE, 5, Ok(NO_TABLE)),
    (OTHER, 7, Err(eof!(0))),
];

// Such a cache.
fn populated(mem: Global) -> Result<AbbreviationsCache> {
    let mut cache = AbbreviationsCache::new(mem);
    populate(&mut cache, All, ONE, UNITS)?;
    Ok(cache)
}

// Ends the test where such a cache has something else after a call: these tables, or if memory ran out the old ones.
fn check_changed(rt: &impl Abort, cache: &AbbreviationsCache, changed: Result<()>, rows: &[Row]) {
    match changed {
        Ok(()) => check_get(rt, cache, rows, "changed"),
        Err(error) => {
            same(rt, error, Error::OutOfMemory, "refused");
            check_get(rt, cache, KEPT, "refused");
        }
    }
}

fn check_replaced(rt: &impl Abort, mem: Global) -> Result<()> {
    let mut cache = populated(mem)?;
    let changed = set(mem, &mut cache, 5, NINE);
    static ROWS: &[Row] = &[
        (NONE, 0, Ok(ENDED_TABLE)),
        (NONE, 5, Ok(NINE_TABLE)),
        (OTHER, 7, Err(eof!(0))),
    ];
    check_changed(rt, &cache, changed, ROWS);
    Ok(())
}

// There is no room for six more tables.
fn add_six(mem: Global, cache: &mut AbbreviationsCache) -> Result<()> {
    for offset in [1, 2, 3, 4, 6, 8] {
        set(mem, cache, offset, NONE)?;
    }
    Ok(())
}

fn check_added(rt: &impl Abort, mem: Global) -> Result<()> {
    let mut cache = populated(mem)?;
    let changed = add_six(mem, &mut cache);
    static ROWS: &[Row] = &[
        (NONE, 0, Ok(ENDED_TABLE)),
        (ONE, 1, Ok(CLOSED_TABLE)),
        (NONE, 5, Ok(NO_TABLE)),
        (OTHER, 7, Err(eof!(0))),
        (ONE, 8, Ok(CLOSED_TABLE)),
    ];
    check_changed(rt, &cache, changed, ROWS);
    Ok(())
}

// The tables at 0, 5 and 7 of the other section.
fn check_all(rt: &impl Abort, mem: Global) -> Result<()> {
    let mut cache = populated(mem)?;
    let changed = populate(&mut cache, All, OTHER, UNITS);
    static ROWS: &[Row] = &[
        (ONE, 0, Ok(CLOSED_TABLE)),
        (NONE, 5, Ok(OTHER_TABLE)),
        (NONE, 7, Ok(CLOSED_TABLE)),
    ];
    check_changed(rt, &cache, changed, ROWS);
    Ok(())
}

// The one at 5 alone.
fn check_duplicates(rt: &impl Abort, mem: Global) -> Result<()> {
    let mut cache = populated(mem)?;
    let changed = populate(&mut cache, Duplicates, OTHER, UNITS);
    static ROWS: &[Row] = &[
        (b"\x01", 0, Err(eof!(1))),
        (NONE, 5, Ok(OTHER_TABLE)),
        (NONE, 7, Err(eof!(0))),
    ];
    check_changed(rt, &cache, changed, ROWS);
    Ok(())
}

// Ends the test where a call returned another error than that memory ran out.
fn check_refused(rt: &impl Abort, checked: Result<()>) {
    match checked {
        Ok(()) => {}
        Err(error) => same(rt, error, Error::OutOfMemory, "a cache"),
    }
}

#[test]
fn refused_memory_for_one_table(rt: HostRuntime) {
    check_refused(&rt, check_replaced(&rt, rt.alloc()));
    check_refused(&rt, check_added(&rt, rt.alloc()));
    end_requests(&rt, rt.alloc());
}

#[test]
fn refused_memory_for_all_tables(rt: HostRuntime) {
    check_refused(&rt, check_all(&rt, rt.alloc()));
    check_refused(&rt, check_duplicates(&rt, rt.alloc()));
    end_requests(&rt, rt.alloc());
}
