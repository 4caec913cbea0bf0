//! The text of a listing: what a command lists.

ghost use Rattle.std.specs.Prelude.{OnOk};
ghost use Rattle.std.specs.Io.KnownBytes.{Appends};
ghost use Rattle.dwarf_read_core.specs.Lookups.{UnlessOutOfMemory};
ghost use Rattle.dwarf_listing_core.specs.Tables.{ListsStrictTable, ListsTable};
ghost use Rattle.dwarf_listing_core.specs.Text.{Lists, text_bytes};

use crate::command::Command;
use crate::lines::{hex_line, string_in_place};
use crate::sets::{addresses, string_offsets};
use crate::tables::write_table;
use dwarf_read_core::leb128::write::Leb128;
use dwarf_read_core::{Abbreviations, DebugAbbrev, DebugAbbrevOffset, Error, LittleEndian};
use std::alloc::Global;
use std::io;
use std::io::Write;

/// The text of a listing. What it lists has been read, and has no error.
#[derive(Debug, Drop)]
pub enum Text {
    /// The lines of a table, which are made as they are written.
    Table(Abbreviations),
    /// All bytes of the text.
    Bytes(Vec<u8>),
}

impl Text {
    /// Writes the text. This doesn't allocate.
    ///
    /// # Errors
    ///
    /// That of the output. A part of the text may be written then.
    pub fn write_to<O: Write>(&self, output: &mut O) -> io::Result<()>
        ensures { OnOk result
            (Appends (O.contents output.old) (O.contents output.new) (text_bytes self.now)) }
    {
        match self {
            Text::Table(table) => write_table(output, table),
            Text::Bytes(bytes) => output.write_all(bytes),
        }
    }
}

/// Returns the text that a command prints of an input.
///
/// The text of a string is built in the memory of the input. That of a table is made as it is
/// written.
///
/// # Errors
///
/// The section's error, or `OutOfMemory` if memory runs out.
pub fn listing(mem: Global, command: Command, input: Vec<u8>) -> Result<Text, Error>
    ensures { UnlessOutOfMemory (Lists command input.items) text_bytes result }
{
    match command {
        Command::Abbrev(offset) => abbreviations(mem, &input, offset),
        Command::Str(offset) => string_in_place(input, offset).map(Text::Bytes),
        Command::Addr(endian) => addresses(mem, &input, endian).map(Text::Bytes),
        Command::Uleb(value) => Ok(Text::Bytes(hex_line(mem, Leb128::unsigned(value).bytes())?)),
        Command::Sleb(value) => Ok(Text::Bytes(hex_line(mem, Leb128::signed(value).bytes())?)),
        Command::AbbrevStrict(offset) => abbreviations_strict(mem, &input, offset),
        Command::StrOffsets(endian) => string_offsets(mem, &input, endian).map(Text::Bytes),
    }
}

/// Returns the declarations of the table at an offset of `.debug_abbrev`, in the order of their
/// codes: a line with the code, the tag and whether there are children, such as
/// `1 DW_TAG_compile_unit yes`, and a line for each attribute, such as
/// `  DW_AT_name DW_FORM_string`, with its value if the table has it.
///
/// # Errors
///
/// That of [`DebugAbbrev::abbreviations`].
pub fn abbreviations(mem: Global, section: &[u8], offset: u64) -> Result<Text, Error>
    ensures { UnlessOutOfMemory (ListsTable section.now offset) text_bytes result }
{
    let debug_abbrev = DebugAbbrev::new(section, LittleEndian);
    let table = debug_abbrev.abbreviations(mem, DebugAbbrevOffset(offset as usize))?;
    Ok(Text::Table(table))
}

/// Returns the lines of [`abbreviations`], if a code of value 0 closes the table.
///
/// # Errors
///
/// That of [`DebugAbbrev::abbreviations_strict`].
pub fn abbreviations_strict(mem: Global, section: &[u8], offset: u64) -> Result<Text, Error>
    ensures { UnlessOutOfMemory (ListsStrictTable section.now offset) text_bytes result }
{
    let debug_abbrev = DebugAbbrev::new(section, LittleEndian);
    let table = debug_abbrev.abbreviations_strict(mem, DebugAbbrevOffset(offset as usize))?;
    Ok(Text::Table(table))
}
