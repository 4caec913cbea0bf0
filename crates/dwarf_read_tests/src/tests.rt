//! The public calls of dwarf_read_core and dwarf_uses, each by worked results.

use dwarf_read_core::{
    ContributionHeaderIter, EndianSlice, Endianity, HeaderFields, LittleEndian, Reader,
    ReaderOffsetId, Result,
};
use std::alloc::Global;
use std::fmt::Debug;
use std::process::Abort;

// The error that bytes are missing at a position, also in a constant.
macro_rules! eof {
    ($position:expr) => {
        dwarf_read_core::Error::UnexpectedEof(dwarf_read_core::ReaderOffsetId($position))
    };
}

mod addresses;
mod cache;
mod callers;
mod copies;
mod examples;
mod names;
mod owned;
mod sections;
mod string_offset_sets;
mod strings;
mod tables;
mod worked;

// Ends the test if a result isn't the one that is wanted, and tells what it is the result of.
fn same<T: PartialEq + Debug + Drop, W: Debug + Copy>(rt: &impl Abort, got: T, wanted: T, what: W) {
    assert_eq!(rt; got, wanted, "{what:?}");
}

// Ends the test if a reader has other bytes.
fn check_bytes<R: Reader>(rt: &impl Abort, part: &R, wanted: &[u8]) -> Result<()> {
    same(rt, part.to_slice()?.as_slice(), wanted, wanted);
    Ok(())
}

// Ends the test if a reader has other bytes or another position.
fn check_part<R: Reader>(rt: &impl Abort, part: &R, bytes: &[u8], position: u64) -> Result<()> {
    check_bytes(rt, part, bytes)?;
    same(rt, part.offset_id().0, position, bytes);
    Ok(())
}

// Whether a set follows.
fn has_next<R: Reader, H: HeaderFields<R>>(
    headers: &mut ContributionHeaderIter<R, H>,
) -> Result<bool> {
    Ok(headers.next()?.is_some())
}

// Ends the test if the sets don't end so, or one follows their end, however often it is requested.
fn check_end<R: Reader, H: HeaderFields<R>, W: Debug + Copy>(
    rt: &impl Abort,
    headers: &mut ContributionHeaderIter<R, H>,
    end: Result<()>,
    what: W,
) {
    same(rt, has_next(headers), end.map(|()| false), what);
    for _ in 0..3 {
        same(rt, has_next(headers), Ok(false), what);
    }
}

// A reader of at most a thousand bytes whose first position is this one. The prover has to see that no position
// is past the greatest number of 64 bits.
fn reader_at<E: Endianity>(bytes: &[u8], order: E, first: u8) -> EndianSlice<'_, E> {
    let bytes = &bytes[..bytes.len().min(1000)];
    EndianSlice::with_first_id(bytes, order, ReaderOffsetId(u64::from(first)))
}

// A reader of these bytes, at position 0.
fn little(bytes: &[u8]) -> EndianSlice<'_, LittleEndian> {
    EndianSlice::new(bytes, LittleEndian)
}

// Makes the last allocation of a test whose allocations `tools/fail-alloc` makes fail in turn. If it fails, each one
// before it failed in an earlier run of the test.
fn end_requests(rt: &impl Print, mem: Global) {
    if Vec::from_slice(mem, &[0u8]).is_err() {
        let _ = println!(rt; "every request was refused");
    }
}
