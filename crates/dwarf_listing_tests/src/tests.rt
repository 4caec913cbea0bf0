//! Whole runs: what is written for arguments and an input, and how an error is reported.

use dwarf_listing_core::fault::Fault;
use dwarf_listing_core::run::run;
use std::alloc::{AllocError, Global};
use std::io::Read;
use std::process::Abort;
use std::test::Fail;

mod arguments;
mod cuts;
mod ends;

const CUT: &str = "error: unexpected end of input";

// A declaration with one attribute and children, a code of value 0, and a byte after it.
const UNIT: &[u8] = b"\x01\x11\x01\x03\x08\0\0\0\xff";

const UNIT_TEXT: &[u8] = b"1 DW_TAG_compile_unit yes\n  DW_AT_name DW_FORM_string\n";

// Three strings, the last of them empty.
const STRINGS: &[u8] = b"one\0two\0\0";

const SET: &[u8] = b"set 0: length 8, 32-bit, address size 4\n  0x12345678\n";

// The text that a run writes, or the line and the status of its error.
type Outcome<'a> = Result<&'a [u8], (&'a str, u8)>;

fn words(mem: Global, texts: &[&str]) -> Result<Vec<String>, AllocError> {
    let mut words = Vec::new(mem);
    for text in texts {
        words.push(String::from_str(mem, text)?)?;
    }
    Ok(words)
}

// Ends the test if a run has another outcome, or if it has an error and writes something.
fn check<I: Read>(
    rt: &impl Abort,
    mem: Global,
    texts: &[&str],
    input: &mut I,
    wanted: Outcome<'_>,
) -> Result<(), Fail> {
    let mut output = Vec::new(mem);
    let outcome = run(mem, &words(mem, texts)?, input, &mut output);
    check_outcome(rt, mem, outcome, &output, wanted)
}

fn check_outcome(
    rt: &impl Abort,
    mem: Global,
    outcome: Result<(), Fault>,
    output: &[u8],
    wanted: Outcome<'_>,
) -> Result<(), Fail> {
    match (outcome, wanted) {
        (Ok(()), Ok(text)) => assert_eq!(rt; output, text),
        (Err(fault), Err((line, status))) => {
            assert_eq!(rt; fault.to_string(mem)?.as_str(), line);
            assert_eq!(rt; fault.status(), status, "{line}");
            assert_eq!(rt; output.len(), 0, "{line}");
        }
        _ => assert!(rt; false, "{outcome:?}"),
    }
    Ok(())
}

// A row for each command, and for both byte orders: arguments, an input, and the text. A command
// that takes a number doesn't read the input, which is empty here. What the program prints of other
// inputs is in the worked cases of `dwarf_list`, which are data.
type Row = (&'static [&'static str], &'static [u8], &'static [u8]);

#[rattlefmt::skip]
static TEXTS: &[Row] = &[
    (&["abbrev", "0"], UNIT, UNIT_TEXT),
    (&["abbrev-strict", "0"], UNIT, UNIT_TEXT),
    (&["str", "4"], STRINGS, b"two\n"),
    (&["str", "8"], STRINGS, b"\n"),
    (&["addr", "le"], b"\x08\0\0\0\x05\0\x04\0\x78\x56\x34\x12", SET),
    (&["addr", "be"], b"\0\0\0\x08\0\x05\x04\0\x12\x34\x56\x78", SET),
    (&["str-offsets", "le"], b"\x08\0\0\0\x05\0\0\0\xe8\x03\0\0", b"set 0: length 8, 32-bit\n  1000\n"),
    (&["str-offsets", "be"], b"\0\0\0\x08\0\x05\0\0\xff\xff\xff\xff", b"set 0: length 8, 32-bit\n  4294967295\n"),
    (&["uleb", "12857"], b"", b"b9 64\n"),
    (&["sleb", "-65"], b"", b"bf 7f\n"),
];

// A run writes the whole text, or it returns that memory ran out and writes nothing.
fn check_refused(rt: &impl Abort, mem: Global, (texts, mut input, text): Row) -> Result<(), Fail> {
    let Ok(words) = words(mem, texts) else {
        return Ok(());
    };
    let Ok(mut output) = Vec::with_capacity(mem, 256) else {
        return Ok(());
    };
    let outcome = run(mem, &words, &mut input, &mut output);
    let wanted = match outcome {
        Ok(()) => Ok(text),
        Err(_) => Err(("error: out of memory", 1)),
    };
    check_outcome(rt, mem, outcome, &output, wanted)
}

// `tools/fail-alloc` makes the first allocation of the test fail, then the second, and so on.
#[test]
fn refused_memory_for_each_command(rt: HostRuntime) -> Result<(), Fail> {
    for row in TEXTS {
        check_refused(&rt, rt.alloc(), *row)?;
    }
    end_requests(&rt, rt.alloc());
    Ok(())
}

// Makes the last allocation of a test whose allocations `tools/fail-alloc` makes fail in turn. If
// it fails, each one before it failed in an earlier run of the test.
fn end_requests(rt: &impl Print, mem: Global) {
    if Vec::from_slice(mem, &[0u8]).is_err() {
        let _ = println!(rt; "every request was refused");
    }
}
