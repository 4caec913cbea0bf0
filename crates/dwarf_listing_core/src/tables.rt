//! The lines of abbreviation tables.

ghost use Rattle.std.specs.Prelude.{◌≡◌, ◌++◌, IfSome, OnOk, codes, decimal};
ghost use Rattle.std.specs.Io.KnownBytes.{Appends};
ghost use Rattle.dwarf_read_core.specs.DwTag.{tag_text};
ghost use Rattle.dwarf_listing_core.specs.Lines.{line};
ghost use Rattle.dwarf_listing_core.specs.Tables.{attribute_line, declaration_lines, table_text, value_text, yes_or_no};

use dwarf_read_core::{Abbreviation, Abbreviations, AttributeSpecification};
use itoa::Buffer;
use std::fmt::Display;
use std::io;
use std::io::Write;

// Writes the lines of a table, each as soon as it is made.
pub(crate) fn write_table<O: Write>(output: &mut O, table: &Abbreviations) -> io::Result<()>
    ensures { OnOk result
        (Appends (O.contents output.old) (O.contents output.new) (table_text table.now)) }
{
    for abbreviation in table.iter() {
        write_declaration(output, abbreviation)?;
    }
    Ok(())
}

#[tactic(auto, using(crate::proofs::Written::one_text))]
fn write_declaration<O: Write>(output: &mut O, abbreviation: &Abbreviation) -> io::Result<()>
    ensures { OnOk result (Appends (O.contents output.old) (O.contents output.new)
        (declaration_lines abbreviation.now)) }
{
    write_head(output, abbreviation)?;
    for attribute in abbreviation.attributes() {
        write_attribute(output, attribute)?;
    }
    Ok(())
}

fn write_head<O: Write>(output: &mut O, abbreviation: &Abbreviation) -> io::Result<()>
    ensures { OnOk result (Appends (O.contents output.old) (O.contents output.new)
        (line (decimal abbreviation.now.code ++ codes " " ++ tag_text abbreviation.now.tag
        ++ codes " " ++ yes_or_no abbreviation.now.children))) }
{
    let (code, tag) = (abbreviation.code(), abbreviation.tag());
    output.write_all(Buffer::new().format(code).as_bytes())?;
    output.write_all(b" ")?;
    write_name(output, tag.static_string(), tag)?;
    if abbreviation.has_children() {
        output.write_all(b" yes\n")
    } else {
        output.write_all(b" no\n")
    }
}

fn write_attribute<O: Write>(output: &mut O, attribute: &AttributeSpecification) -> io::Result<()>
    ensures { OnOk result (Appends (O.contents output.old) (O.contents output.new)
        (attribute_line attribute.now)) }
{
    let (name, form) = (attribute.name(), attribute.form());
    output.write_all(b"  ")?;
    write_name(output, name.static_string(), name)?;
    output.write_all(b" ")?;
    write_name(output, form.static_string(), form)?;
    write_value(output, attribute.implicit_const_value())?;
    output.write_all(b"\n")
}

fn write_value<O: Write>(output: &mut O, value: Option<i64>) -> io::Result<()>
    ensures { OnOk result
        (Appends (O.contents output.old) (O.contents output.new) (value_text value)) }
{
    let Some(value) = value else {
        return Ok(());
    };
    output.write_all(b" ")?;
    output.write_all(Buffer::new().format(value).as_bytes())
}

// Writes the name of a constant, or the text of one that has no name. Copying a name is faster than
// formatting it.
fn write_name<O: Write, C: Display + Drop>(
    output: &mut O,
    name: Option<&'static str>,
    constant: C,
) -> io::Result<()>
    requires { IfSome name (λ s. IfSome (C.output constant) (λ text. s.now ≡ text)) }
    ensures { OnOk result (IfSome (C.output constant)
        (Appends (O.contents output.old) (O.contents output.new))) }
{
    match name {
        Some(name) => output.write_all(name.as_bytes()),
        None => write!(output, "{constant}"),
    }
}
