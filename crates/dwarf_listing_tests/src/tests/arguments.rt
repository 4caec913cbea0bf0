//! The arguments of a system, and memory that runs out.

use super::end_requests;
use dwarf_listing_core::fault::Fault;
use dwarf_listing_core::words::command_line;
use std::alloc::Global;
use std::env::{Env, FillError};
use std::process::Abort;
use std::test::Fail;

// A system with these arguments, the program's name first.
#[derive(Drop)]
pub(super) struct Given<'list, 'word>(pub(super) &'list [&'word [u8]]);

impl Env for Given<'_, '_> {
    fn arg(&self, i: usize, buf: &mut [u8]) -> Result<usize, FillError> {
        let word = self.0.get(i).ok_or(FillError::NotPresent)?;
        if buf.len() < word.len() {
            return Err(FillError::TooLong);
        }
        buf[..word.len()].copy_from_slice(word);
        Ok(word.len())
    }

    fn var(&self, _name: &str, _buf: &mut [u8]) -> Result<usize, FillError> {
        Err(FillError::NotPresent)
    }

    fn var_at(&self, _i: usize, _buf: &mut [u8]) -> Result<usize, FillError> {
        Err(FillError::NotPresent)
    }
}

// The arguments that are read from a system, each with a `;` after it.
fn taken(mem: Global, given: &[&[u8]]) -> Result<String, Fault> {
    let mut text = String::new(mem);
    for word in command_line(mem, &Given(given))?.iter() {
        text.push_str(word.as_str())?;
        text.push(';')?;
    }
    Ok(text)
}

fn check_taken(rt: &impl Abort, mem: Global, given: &[&[u8]], wanted: &str) -> Result<(), Fail> {
    assert_eq!(rt; taken(mem, given)?.as_str(), wanted);
    Ok(())
}

#[test]
fn words_of_the_system(rt: HostRuntime) -> Result<(), Fail> {
    let mem = rt.alloc();
    check_taken(&rt, mem, &[], "")?;
    check_taken(&rt, mem, &[b"dwarf_list"], "")?;
    check_taken(&rt, mem, &[b"dwarf_list", b"abbrev", b"0"], "abbrev;0;")?;
    check_taken(&rt, mem, &[b"caf\xe9/dwarf_list", b"str", b"5"], "str;5;")?;
    let unreadable = taken(mem, &[b"dwarf_list", b"abbrev", b"\xe9"]);
    assert_eq!(rt; unreadable.err(), Some(Fault::Usage));
    Ok(())
}

// `tools/fail-alloc` makes each allocation fail.
#[test]
fn refused_memory_for_words(rt: HostRuntime) -> Result<(), Fail> {
    let mem = rt.alloc();
    match taken(mem, &[b"dwarf_list", b"abbrev", b"0"]) {
        Ok(text) => assert_eq!(rt; text.as_str(), "abbrev;0;"),
        Err(fault) => assert_eq!(rt; fault, Fault::out_of_memory()),
    }
    end_requests(&rt, mem);
    Ok(())
}
