//! How a table is read: one declaration after the other, up to what closes it.

ghost use Rattle.std.specs.Prelude.{◌≡◌, ℕ, List, IsOk, IfOk, Ok, None};
ghost use Rattle.std.specs.FinMap as finite;
ghost use Rattle.dwarf_reader_core.specs.Input.{end_of};
ghost use Rattle.dwarf_read_core.specs.Grammar.{IsTableBefore};
ghost use Rattle.dwarf_read_core.specs.Reading.{ReturnsUnlessOutOfMemory, declaration_at, table_in};

use super::collector::Collector;
use super::sink::AbbreviationSink;
use dwarf_base_core::Result;
use dwarf_reader_core::Reader;
use std::alloc::Global;

// Reads a table, and the code of value 0 that closes it, if there is one.
pub(super) fn parse<R: Reader, T: AbbreviationSink>(mem: Global, input: &mut R) -> Result<T>
    ensures ends { (rest : List ℕ)
        → declaration_at (end_of (R.view input.old)) (R.view input.old).bytes ≡ Ok (None, rest)
        → IsOk result }
    ensures read { ReturnsUnlessOutOfMemory T.table result
        (table_in (end_of (R.view input.old)) finite.empty (R.view input.old).bytes) }
    ensures after { IfOk result
        (λ t. IsTableBefore (R.view input.old).bytes (T.table t) (R.view input.new).bytes) }
{
    // One serves the whole table; each declaration's attributes are collected in it.
    let mut collector = Collector::new(mem);
    let mut table = T::new(mem);
    // The label names the loop in its proof.
    'declarations: while !input.is_empty() {
        match collector.declaration(input) {
            Ok(Some(declaration)) => table.declare(&declaration)?,
            Ok(None) => {
                table.close();
                return Ok(table);
            }
            // By `?` each declaration takes four more instructions in the calls for C.
            Err(error) => return Err(error),
        }
    }
    Ok(table)
}
