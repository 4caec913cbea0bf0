//! The arguments, as the system gives them.

ghost use Rattle.std.specs.Prelude.{◌≡◌, ◌≢◌, ◌⊎◌, IfErr};
ghost use Rattle.std.specs.IoError.{error_kind};

use crate::fault::Fault;
use dwarf_read_core::Error;
use std::alloc::Global;
use std::env::{Env, FillError};
use std::io::ErrorKind;
use std::{env, io};

// The arguments after the program's own name, which may not be UTF-8.
#[derive(Drop)]
struct AfterName<'env, E: Env>(&'env E);

impl<E: Env> Env for AfterName<'_, E> {
    fn arg(&self, i: usize, buf: &mut [u8]) -> Result<usize, FillError> {
        self.0.arg(i.saturating_add(1), buf)
    }

    fn var(&self, name: &str, buf: &mut [u8]) -> Result<usize, FillError> {
        self.0.var(name, buf)
    }

    fn var_at(&self, i: usize, buf: &mut [u8]) -> Result<usize, FillError> {
        self.0.var_at(i, buf)
    }
}

/// Returns the arguments, without the program's name.
///
/// # Errors
///
/// `Usage` if an argument isn't UTF-8, and `OutOfMemory` if memory runs out.
pub fn command_line<E: Env>(mem: Global, env: &E) -> Result<Vec<String>, Fault>
    ensures err { IfErr result
        (λ fault. (fault ≡ Fault.Usage) ⊎ (fault ≡ Fault.Section Error.OutOfMemory)) }
{
    match env::args(&(AfterName(env), mem)) {
        Ok(words) => Ok(words.collect(mem)?),
        Err(error) => Err(fault_of(&error)),
    }
}

// The error of arguments that can't be read.
fn fault_of(error: &io::Error) -> Fault
    ensures memory { error_kind error.now ≡ ErrorKind.OutOfMemory
        → result ≡ Fault.Section Error.OutOfMemory }
    ensures usage { error_kind error.now ≢ ErrorKind.OutOfMemory → result ≡ Fault.Usage }
{
    if error.kind() == ErrorKind::OutOfMemory {
        Fault::out_of_memory()
    } else {
        Fault::Usage
    }
}
