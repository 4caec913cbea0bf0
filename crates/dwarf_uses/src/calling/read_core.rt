//! A caller of `dwarf_read_core`.

ghost use Rattle.std.specs.Prelude.{◌≢◌, Err, IfErr};
ghost use Rattle.dwarf_read_core.specs.Answer.{Answer};
ghost use Rattle.dwarf_read_core.specs.Sections.{debug_abbrev_reader};

use dwarf_read_core::{Abbreviation, DebugAbbrev, DebugAbbrevOffset, Error, Reader, Result};
use std::alloc::{AllocError, Global};

/// Returns the table at `offset`, a line for each declaration and for each of its attributes.
///
/// # Errors
///
/// Those of [`DebugAbbrev::abbreviations`].
pub fn table_text<R: Reader>(
    mem: Global,
    section: &DebugAbbrev<R>,
    offset: DebugAbbrevOffset<R::Offset>,
) -> Result<String>
    ensures err { let bytes = R.view (debug_abbrev_reader section.now) in
        IfErr result (λ e. e ≢ Error.OutOfMemory → Answer bytes (R.Offset.value offset.0) (Err e)) }
{
    let table = section.abbreviations(mem, offset)?;
    let mut text = String::new(mem);
    for abbreviation in table.iter() {
        append(abbreviation, &mut text)?;
    }
    Ok(text)
}

// Appends the line of a declaration, and those of its attributes.
fn append(abbreviation: &Abbreviation, text: &mut String) -> std::result::Result<(), AllocError> {
    let (code, tag) = (abbreviation.code(), abbreviation.tag());
    writeln!(text, "{code} {tag}")?;
    for attribute in abbreviation.attributes() {
        let (name, form) = (attribute.name(), attribute.form());
        writeln!(text, "  {name} {form}")?;
    }
    Ok(())
}
