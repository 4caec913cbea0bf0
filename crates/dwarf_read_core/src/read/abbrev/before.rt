//! How far a table goes before its first error.

ghost use Rattle.std.specs.Prelude.{◌≡◌, ◌≢◌, ℕ, List, IsOk, IfOk, IfErr, Ok, Err, None, length};
ghost use Rattle.std.specs.FinMap as finite;
ghost use Rattle.dwarf_reader_core.specs.Input.{end_of};
ghost use Rattle.dwarf_read_core.specs.Answer.{BeginsWithAll};
ghost use Rattle.dwarf_read_core.specs.Grammar.{by_end};
ghost use Rattle.dwarf_read_core.specs.Reading.{declaration_at, table_in};

use super::collector::Collector;
use super::sink::AbbreviationSink;
use dwarf_base_core::{Error, Result};
use dwarf_reader_core::Reader;
use std::alloc::Global;

// Reads the declarations before the first that can't follow, and returns how many bytes remain there.
// A repeated code is the one that `error` names, so that a table never gets one.
pub(super) fn parse_before<R: Reader, T: AbbreviationSink>(
    mem: Global,
    input: &mut R,
    error: &Error,
) -> Result<(T, R::Offset)>
    ensures ends { (rest : List ℕ)
        → declaration_at (end_of (R.view input.old)) (R.view input.old).bytes ≡ Ok (None, rest)
        → IsOk result }
    ensures before { IfOk result (λ r. (rest : List ℕ)
        × BeginsWithAll (R.view input.old).bytes (T.table r.0).by_code rest
        × ((T.table r.0).close ≡ by_end) × (R.Offset.value r.1 ≡ length rest)) }
    ensures err { IfErr result (λ e. e ≢ Error.OutOfMemory
        → (table_in (end_of (R.view input.old)) finite.empty (R.view input.old).bytes ≡ Err e)
        × (error.now ≢ e)) }
{
    let repeated = repeated_code(error);
    let mut is_declared = false;
    let mut collector = Collector::new(mem);
    let mut table = T::new(mem);
    'declarations: while !input.is_empty() {
        let left = input.len();
        match collector.declaration(input) {
            Ok(Some(declaration)) => {
                let is_repeated = declaration.code() == repeated;
                if is_declared && is_repeated {
                    return Ok((table, left));
                }
                table.declare(&declaration)?;
                is_declared |= is_repeated;
            }
            Ok(None) => return Ok((table, left)),
            Err(fault) => {
                return if fault == Error::OutOfMemory {
                    Err(fault)
                } else {
                    Ok((table, left))
                };
            }
        }
    }
    Ok((table, input.len()))
}

// Returns the code that comes a second time, if that is the error. No declaration has the code 0.
fn repeated_code(error: &Error) -> u64
    ensures { (code : ℕ) → error.now ≡ Error.DuplicateAbbreviationCode code → result ≡ code }
{
    match error {
        Error::DuplicateAbbreviationCode(code) => *code,
        _ => 0,
    }
}
