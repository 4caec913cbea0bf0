//! The errors of a run, their lines, and the status that the program ends with.

ghost use Rattle.std.specs.Prelude.{◌≡◌, IfErr, OnOk};
ghost use Rattle.std.specs.Process.{exit_status};
ghost use Rattle.dwarf_listing_core.specs.Fault.{fault_status};

use dwarf_read_core::Error;
use std::alloc::AllocError;
use std::fmt;
use std::process::ExitCode;

/// Why a run failed.
#[derive(Clone, Copy, Debug, PartialEq, Eq)]
pub enum Fault {
    /// The error of what the command lists, or `OutOfMemory`.
    Section(Error),
    /// The arguments name no command, or one isn't UTF-8.
    Usage,
    /// The input could not be read.
    Read,
    /// The output could not be written.
    Write,
}

/// Returns the status that the program ends with: 0 without an error, or else that of the error.
pub fn exit_code(outcome: Result<(), Fault>) -> ExitCode
    ensures ok { OnOk outcome (exit_status result ≡ 0) }
    ensures err { IfErr outcome (λ fault. exit_status result ≡ fault_status fault) }
{
    match outcome {
        Ok(()) => ExitCode::from(0),
        Err(fault) => ExitCode::from(fault.status()),
    }
}

impl Fault {
    /// Returns the error for a failed allocation.
    pub fn out_of_memory() -> Fault
        ensures { result ≡ Fault.Section Error.OutOfMemory }
    {
        Fault::Section(Error::OutOfMemory)
    }

    /// Returns the exit status: 1 for a section or memory, 2 for the arguments, 3 for input and
    /// output.
    pub fn status(&self) -> u8
        ensures { result ≡ fault_status self.now }
    {
        match self {
            Fault::Section(_) => 1,
            Fault::Usage => 2,
            Fault::Read | Fault::Write => 3,
        }
    }
}

/// Writes the line on standard error, without its line end.
impl fmt::Display for Fault {
    ghost use Rattle.std.specs.Prelude.{Some};
    ghost use Rattle.dwarf_listing_core.specs.Fault.{fault_text};

    ghost output = { λ fault. Some (fault_text fault) };

    fn fmt<W: fmt::Write>(&self, f: &mut fmt::Formatter<W>) -> fmt::Result {
        match self {
            Fault::Section(error) => write!(f, "error: {error}"),
            Fault::Usage => write!(
                f,
                "usage: dwarf_list abbrev OFFSET | str OFFSET | addr le|be | uleb N | sleb N \
                 | abbrev-strict OFFSET | str-offsets le|be"
            ),
            Fault::Read => write!(f, "error: cannot read input"),
            Fault::Write => write!(f, "error: cannot write output"),
        }
    }
}

impl From<Error> for Fault {
    ghost use Rattle.dwarf_listing_core.specs.declared.fault.Fault.TheVariants.{Section};
    ghost use Rattle.std.specs.Prelude.{◌≡◌};

    ghost from_gives = { λ error fault. fault ≡ Section error };

    fn from(error: Error) -> Fault {
        Fault::Section(error)
    }
}

impl From<AllocError> for Fault {
    ghost use Rattle.dwarf_listing_core.specs.declared.fault.Fault.TheVariants.{Section};
    ghost use Rattle.dwarf_read_core.specs.declared.Error.TheVariants.{OutOfMemory};
    ghost use Rattle.std.specs.Prelude.{◌≡◌};

    ghost from_gives = { λ _ fault. fault ≡ Section OutOfMemory };

    fn from(_error: AllocError) -> Fault {
        Fault::out_of_memory()
    }
}
