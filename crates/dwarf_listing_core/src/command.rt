//! The commands, and the arguments that name them.

ghost use Rattle.std.specs.Prelude.{◌≡◌, map, string_bytes};
ghost use Rattle.dwarf_listing_core.specs.Command.{command_of, endian_of, named_command, reads_input};

use crate::number::{parse_signed, parse_unsigned};
use dwarf_read_core::RunTimeEndian;

/// What the program lists.
#[derive(Clone, Copy, Debug, PartialEq, Eq)]
pub enum Command {
    /// The table of abbreviations at an offset, in bytes from the start of `.debug_abbrev`.
    Abbrev(u64),
    /// The string at an offset, in bytes from the start of `.debug_str` or `.debug_line_str`.
    Str(u64),
    /// The sets of addresses of a whole `.debug_addr` in a byte order.
    Addr(RunTimeEndian),
    /// The shortest LEB128 encoding of an unsigned number.
    Uleb(u64),
    /// The shortest LEB128 encoding of a signed number.
    Sleb(i64),
    /// The table of abbreviations at an offset, which a code of value 0 has to close.
    AbbrevStrict(u64),
    /// The sets of string offsets of a whole `.debug_str_offsets` in a byte order.
    StrOffsets(RunTimeEndian),
}

/// Returns the command that the arguments name, if they name one.
#[tactic(auto, using(crate::proofs::Commands::other_commands))]
pub fn parse_command(words: &[String]) -> Option<Command>
    ensures { result ≡ command_of (map string_bytes words.now) }
{
    match words {
        [name, argument] => named_command(name.as_str(), argument.as_str()),
        _ => None,
    }
}

fn named_command(name: &str, argument: &str) -> Option<Command>
    ensures { result ≡ named_command name.now argument.now }
{
    match name {
        "abbrev" => parse_unsigned(argument).map(Command::Abbrev),
        "str" => parse_unsigned(argument).map(Command::Str),
        "addr" => parse_endian(argument).map(Command::Addr),
        "uleb" => parse_unsigned(argument).map(Command::Uleb),
        "sleb" => parse_signed(argument).map(Command::Sleb),
        "abbrev-strict" => parse_unsigned(argument).map(Command::AbbrevStrict),
        "str-offsets" => parse_endian(argument).map(Command::StrOffsets),
        _ => None,
    }
}

pub(crate) fn parse_endian(name: &str) -> Option<RunTimeEndian>
    ensures { result ≡ endian_of name.now }
{
    match name {
        "le" => Some(RunTimeEndian::Little),
        "be" => Some(RunTimeEndian::Big),
        _ => None,
    }
}

/// Returns whether the command lists a part of a section, and so reads the input.
pub fn reads_input(command: Command) -> bool
    ensures { result ≡ reads_input command }
{
    match command {
        Command::Uleb(_) | Command::Sleb(_) => false,
        _ => true,
    }
}
