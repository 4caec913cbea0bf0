//! Copies of the sets of addresses and of string offsets, and of their iterators and a table's. That a copy is what it
//! is a copy of is proved (`is_clone`). So these tests show that each kind of copy can be made.

use super::string_offset_sets::TWO_SETS as TWO_OFFSET_SETS;
use super::tables::table_at;
use super::worked::{FOUR_ADDRESSES, THREE, TWO_SETS};
use super::{little, same};
use dwarf_read_core::{
    AbbreviationsIter, AddrEntryIter, AddrHeader, ContributionHeader, ContributionHeaderIter,
    DebugAddr, DebugStrOffset, DebugStrOffsets, Error, HeaderFields, Reader, ReaderOffset, Result,
    StrOffsetsEntryIter, StrOffsetsHeader,
};
use std::alloc::Global;
use std::process::Abort;

// The first set, by a copied iterator.
fn first_set<R: Reader + Clone, H: HeaderFields<R>>(
    headers: &ContributionHeaderIter<R, H>,
) -> Result<ContributionHeader<R, H>> {
    headers
        .clone()?
        .next()?
        .ok_or(Error::NoEntryAtGivenOffset(0))
}

// Whether a copy of a set equals it.
fn is_copied<R: Reader + Clone + PartialEq, H: HeaderFields<R> + Eq>(
    header: &ContributionHeader<R, H>,
) -> Result<bool> {
    Ok(header.clone()? == *header)
}

fn first_address<R: Reader + Clone>(entries: &AddrEntryIter<R>) -> Result<Option<u64>> {
    entries.clone()?.next()
}

fn check_address<R: Reader + Clone>(rt: &impl Abort, header: &AddrHeader<R>) -> Result<()> {
    let address = first_address(&header.entries()?);
    same(rt, address, Ok(Some(FOUR_ADDRESSES[0])), "an address");
    Ok(())
}

fn check_addresses<R: Reader + Clone + PartialEq>(
    rt: &impl Abort,
    section: &DebugAddr<R>,
) -> Result<()> {
    let header = first_set(&section.headers()?)?;
    same(rt, is_copied(&header), Ok(true), "a set");
    check_address(rt, &header)
}

fn first_offset<R: Reader + Clone>(
    entries: &StrOffsetsEntryIter<R>,
) -> Result<Option<DebugStrOffset<R::Offset>>> {
    entries.clone()?.next()
}

fn check_offset<R: Reader + Clone>(rt: &impl Abort, header: &StrOffsetsHeader<R>) -> Result<()> {
    let offset = first_offset(&header.entries()?);
    let wanted = DebugStrOffset(R::Offset::from_u16(1000));
    same(rt, offset, Ok(Some(wanted)), "an offset");
    Ok(())
}

fn check_offsets<R: Reader + Clone + PartialEq>(
    rt: &impl Abort,
    section: &DebugStrOffsets<R>,
) -> Result<()> {
    let header = first_set(&section.headers()?)?;
    same(rt, is_copied(&header), Ok(true), "a set");
    check_offset(rt, &header)
}

fn next_code(abbreviations: &mut AbbreviationsIter<'_>) -> Option<u64> {
    Some(abbreviations.next()?.code())
}

// Before each of three abbreviations, and after the last, a copy of the iterator is as far as the iterator.
fn check_copies(rt: &impl Abort, mut rest: AbbreviationsIter<'_>) -> Result<()> {
    for wanted in [Some(1), Some(2), Some(3), None] {
        let copied = next_code(&mut rest.clone()?);
        same(rt, (copied, next_code(&mut rest)), (wanted, wanted), wanted);
    }
    Ok(())
}

fn check_abbreviations(rt: &impl Abort, mem: Global) -> Result<()> {
    let table = table_at(mem, 0, THREE, 0)?;
    check_copies(rt, table.iter())
}

#[test]
fn copies_are_read_alike(rt: HostRuntime) {
    let abbreviations = check_abbreviations(&rt, rt.alloc());
    same(&rt, abbreviations, Ok(()), "abbreviations");
    let addresses = check_addresses(&rt, &little(TWO_SETS).into());
    same(&rt, addresses, Ok(()), "addresses");
    let offsets = check_offsets(&rt, &little(TWO_OFFSET_SETS).into());
    same(&rt, offsets, Ok(()), "offsets");
}
