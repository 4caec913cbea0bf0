//! `dwarf_list` lists parts of DWARF sections: it reads a section from standard input and writes
//! lines of text to standard output. If the reader of its output closes it, the program says
//! nothing and ends with status 141, as `cat` does in a shell.

#![tactic(auto)]

use dwarf_listing_core::fault::{Fault, exit_code};
use dwarf_listing_core::piped::{CLOSED_STATUS, Piped};
use dwarf_listing_core::run::run;
use dwarf_listing_core::words::command_line;
use std::io::Stdout;
use std::process::ExitCode;

fn list(rt: &HostRuntime, output: &mut Piped<Stdout>) -> Result<(), Fault> {
    let mem = rt.alloc();
    let words = command_line(mem, rt)?;
    run(mem, &words, &mut rt.stdin(), output)
}

fn main(rt: HostRuntime) -> ExitCode {
    let mut output = Piped::new(rt.stdout());
    let outcome = list(&rt, &mut output);
    if output.is_closed() {
        return ExitCode::from(CLOSED_STATUS);
    }
    if let Err(fault) = outcome {
        // If standard error can't be written either, the status still reports the error.
        let _ = eprintln!(rt; "{fault}");
    }
    exit_code(outcome)
}
