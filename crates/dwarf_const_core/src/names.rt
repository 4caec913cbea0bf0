//! Names of constants by value: a table that is searched, and the text of a value that has no name.

ghost use Rattle.std.specs.Prelude.{◌≡◌, IsTrue, length, option_map, unwrap_or};
ghost use Rattle.std.specs.Fmt.{WritesOnOk, WritesStyledOnOk, formatter_spec, padded};
ghost use Rattle.dwarf_const_core.specs.Names.{is_rising, unknown_text};

use std::fmt;
use std::fmt::{InlineText, Write};

// Room for the text of a value without a name: the name of a type of up to 34 bytes, twenty digits,
// and the text between them.
const MAX_LEN: usize = 64;

/// The names of the constants of one type, in the order of their values. The macro `names!` writes
/// such a table.
#[derive(Clone, Copy)]
pub struct Names {
    /// The values, each above the one before.
    pub values: &'static [u64],
    /// The name of each value, at the same index.
    pub names: &'static [&'static str],
    ghost rising: { IsTrue (is_rising values.now) },
    ghost paired: { length values.now ≡ length names.now },
}

impl Names {
    ghost use Rattle.dwarf_const_core.specs.Names.{name_of};
    ghost use Rattle.dwarf_const_core.specs.Table.{entries};

    /// Returns the name of `value`, or `None` if the table doesn't have the value. This is a binary
    /// search.
    pub fn find(&self, value: u64) -> Option<&'static str>
        ensures { option_map (λ s. s.now) result ≡ name_of (entries self.now) value }
    {
        match self.values.binary_search(&value) {
            Ok(place) => Some(self.names[place]),
            Err(_) => None,
        }
    }
}

/// Writes `name`, or `Unknown TYPE: VALUE` in decimal if there is none, with the width, precision,
/// fill and alignment of `f`. It doesn't allocate.
///
/// # Errors
///
/// An error of `f` itself. Without a name also `fmt::Error` if that text has more than 64 bytes,
/// which needs a `type_name` of more than 34.
pub fn pad_name<W: fmt::Write>(
    f: &mut fmt::Formatter<W>,
    name: Option<&'static str>,
    type_name: &str,
    value: u64,
) -> fmt::Result
    ensures writes { let known = option_map (λ s. s.now) name.entry in
        let text = unwrap_or known (unknown_text type_name.now value) in
        WritesOnOk W.write_str_gives f.old result text f.new }
    ensures styled { let known = option_map (λ s. s.now) name.entry in
        let text = unwrap_or known (unknown_text type_name.now value) in
        WritesStyledOnOk W.write_str_gives f.old result (padded (formatter_spec f.old) text) f.new }
{
    match name {
        Some(name) => f.pad(name),
        None => pad_unknown(f, type_name, value),
    }
}

fn pad_unknown<W: fmt::Write>(f: &mut fmt::Formatter<W>, type_name: &str, value: u64) -> fmt::Result
    ensures writes { WritesOnOk W.write_str_gives f.old result
        (unknown_text type_name.now value) f.new }
    ensures styled { WritesStyledOnOk W.write_str_gives f.old result
        (padded (formatter_spec f.old) (unknown_text type_name.now value)) f.new }
{
    let mut text = InlineText::<MAX_LEN>::new();
    write!(text, "Unknown {type_name}: {value}")?;
    f.pad(text.as_str())
}
