//! What each reader of the library reads of the same bytes.

use crate::sets::sum_of_sets;
use crate::tables::walked;
use dwarf_read_core::{
    BigEndian, DebugAbbrev, DebugAbbrevOffset, DebugAddr, DebugAddrBase, DebugAddrIndex, DebugStr,
    DebugStrOffset, DebugStrOffsets, DebugStrOffsetsBase, DebugStrOffsetsIndex, EndianSlice,
    Format, LittleEndian, Reader, ReaderOffset, Result, RunTimeEndian,
};
use dwarf_uses::OwnedReader;
use std::alloc::Global;

/// The request of a call. `reader` is 0 for a slice whose byte order is its type's, 1 for a slice
/// that has it at run time, and otherwise [`OwnedReader`].
#[repr(C)]
#[derive(Clone, Copy)]
pub struct Asked {
    pub reader: u32,
    pub question: u32,
    pub is_big: u32,
    pub size: u32,
    pub base: u64,
    pub index: u64,
}

/// What a reader returns. `rest` is how many bytes remain after a number or its error; for a set it
/// is 1 if there is none.
#[repr(C)]
#[derive(Clone, Copy)]
pub struct Found {
    pub value: u64,
    pub size: u64,
    pub more: u64,
    pub rest: u64,
}

/// Does what is requested, by one of the readers. Returns 0 if there is no error, and otherwise how
/// many bytes the error's text has, of which `text` gets as many as fit, or `usize::MAX` if memory
/// for the text runs out.
#[unsafe(no_mangle)]
pub extern "C" fn compare_readers(
    mem: Global,
    section: &[u8],
    asked: &Asked,
    found: &mut Found,
    text: &mut [u8],
) -> usize {
    match by_reader(mem, section, *asked, found) {
        Ok(()) => 0,
        Err(error) => match format!(in mem; "{error:?}") {
            Ok(shown) => put(shown.as_bytes(), text),
            Err(_) => usize::MAX,
        },
    }
}

// Writes as many bytes as there is room for, and returns how many there are.
pub(crate) fn put(bytes: &[u8], to: &mut [u8]) -> usize {
    let count = bytes.len().min(to.len());
    to[..count].copy_from_slice(&bytes[..count]);
    bytes.len()
}

fn by_reader(mem: Global, section: &[u8], asked: Asked, found: &mut Found) -> Result<()> {
    let order = match asked.is_big {
        0 => RunTimeEndian::Little,
        _ => RunTimeEndian::Big,
    };
    match (asked.reader, asked.is_big) {
        (0, 0) => read(mem, EndianSlice::new(section, LittleEndian), asked, found),
        (0, _) => read(mem, EndianSlice::new(section, BigEndian), asked, found),
        (1, _) => read(mem, EndianSlice::new(section, order), asked, found),
        _ => {
            let bytes = Vec::from_slice(mem, section)?;
            let input = OwnedReader::new(mem, bytes, order, u8::MAX)?;
            read(mem, input, asked, found)
        }
    }
}

// What a reader finds. The questions are those of `compare/src/question.rs`.
fn read<R: Reader>(mem: Global, input: R, asked: Asked, found: &mut Found) -> Result<()> {
    found.value = match asked.question {
        4 => return table(mem, &input.into(), asked, found),
        5 => strict(mem, &input.into(), asked)?,
        6 => string(&input.into(), asked)?,
        7 => str_offset(&input.into(), asked)?,
        8 => address(&input.into(), asked)?,
        9 => return address_set(input, asked, found),
        10 => return str_offset_set(input, asked, found),
        11 => sum_of_sets(&DebugAddr::from(input))?,
        _ => return number(input, asked, found),
    };
    Ok(())
}

fn number<R: Reader>(mut input: R, asked: Asked, found: &mut Found) -> Result<()> {
    let number = match asked.question {
        0 => input.read_uleb128(),
        1 => input.read_sleb128().map(|number| number.cast_unsigned()),
        2 => input.read_uleb128_u16().map(|number| u64::from(number)),
        _ => input.skip_leb128().map(|()| 0),
    };
    found.rest = input.len().into_u64();
    found.value = number?;
    Ok(())
}

// The sum of all parts of a table, how many declarations it has, and what closes it.
fn table<R: Reader>(
    mem: Global,
    section: &DebugAbbrev<R>,
    asked: Asked,
    found: &mut Found,
) -> Result<()> {
    let offset = DebugAbbrevOffset(R::Offset::from_u64(asked.base)?);
    let table = section.abbreviations(mem, offset)?;
    found.value = walked(&table);
    found.size = table.len() as u64;
    found.more = u64::from(table.closed_by_null());
    Ok(())
}

fn strict<R: Reader>(mem: Global, section: &DebugAbbrev<R>, asked: Asked) -> Result<u64> {
    let offset = DebugAbbrevOffset(R::Offset::from_u64(asked.base)?);
    Ok(section.abbreviations_strict(mem, offset)?.len() as u64)
}

fn string<R: Reader>(section: &DebugStr<R>, asked: Asked) -> Result<u64> {
    let offset = DebugStrOffset(R::Offset::from_u64(asked.base)?);
    Ok(section.get_str(offset)?.len().into_u64())
}

fn str_offset<R: Reader>(section: &DebugStrOffsets<R>, asked: Asked) -> Result<u64> {
    let format = match asked.size {
        8 => Format::Dwarf64,
        _ => Format::Dwarf32,
    };
    let base = DebugStrOffsetsBase(R::Offset::from_u64(asked.base)?);
    let index = DebugStrOffsetsIndex(R::Offset::from_u64(asked.index)?);
    Ok(section.get_str_offset(format, base, index)?.0.into_u64())
}

fn address<R: Reader>(section: &DebugAddr<R>, asked: Asked) -> Result<u64> {
    let size = (asked.size & 0xff) as u8;
    let base = DebugAddrBase(R::Offset::from_u64(asked.base)?);
    let index = DebugAddrIndex(R::Offset::from_u64(asked.index)?);
    section.get_address(size, base, index)
}

fn address_set<R: Reader>(mut input: R, asked: Asked, found: &mut Found) -> Result<()> {
    input.skip(R::Offset::from_u64(asked.base)?)?;
    match DebugAddr::from(input).headers()?.next()? {
        Some(header) => {
            let encoding = header.encoding();
            found.value = header.length().into_u64();
            found.size = u64::from(encoding.address_size);
            found.more = u64::from(encoding.format.word_size());
        }
        None => found.rest = 1,
    }
    Ok(())
}

fn str_offset_set<R: Reader>(mut input: R, asked: Asked, found: &mut Found) -> Result<()> {
    input.skip(R::Offset::from_u64(asked.base)?)?;
    match DebugStrOffsets::from(input).headers()?.next()? {
        Some(header) => {
            found.value = header.length().into_u64();
            found.size = u64::from(header.format().word_size());
            found.more = found.size;
        }
        None => found.rest = 1,
    }
    Ok(())
}
