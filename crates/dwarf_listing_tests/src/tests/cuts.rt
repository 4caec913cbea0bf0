//! Sections that are cut at each byte, and a long one.

use super::{CUT, UNIT, UNIT_TEXT, check};
use std::test::Fail;

const CONSTANT: &[u8] = b"1 DW_TAG_subprogram no\n  DW_AT_name DW_FORM_implicit_const -42\n";

const ONE_UNIT: &[u8] = b"1 DW_TAG_compile_unit no\n";

const TWO_UNITS: &[u8] = b"1 DW_TAG_compile_unit no\n3 DW_TAG_compile_unit no\n";

const THREE_UNITS: &[u8] =
    b"1 DW_TAG_compile_unit no\n2 DW_TAG_compile_unit no\n3 DW_TAG_compile_unit no\n";

// Two sets of two addresses each, one in the 32-bit and one in the 64-bit format.
const TWO_SETS: &[u8] = b"\
    \x0c\0\0\0\x05\0\x04\0\x78\x56\x34\x12\xef\xbe\xad\xde\
    \xff\xff\xff\xff\x14\0\0\0\0\0\0\0\x05\0\x08\0\
    \xf0\xde\xbc\x9a\x78\x56\x34\x12\xef\xbe\xad\xde\xef\xbe\xad\xde";

const FIRST_SET: &[u8] = b"set 0: length 12, 32-bit, address size 4\n  0x12345678\n  0xdeadbeef\n";

const BOTH_SETS: &[u8] = b"\
    set 0: length 12, 32-bit, address size 4\n  0x12345678\n  0xdeadbeef\n\
    set 16: length 20, 64-bit, address size 8\n  0x123456789abcdef0\n  0xdeadbeefdeadbeef\n";

// Arguments, an input, and the lengths of its beginnings that have a text, each with its text.
#[rattlefmt::skip]
static CUTS: &[(&[&str], &[u8], &[(usize, &[u8])])] = &[
    (&["abbrev", "0"], UNIT, &[(0, b""), (7, UNIT_TEXT), (8, UNIT_TEXT), (9, UNIT_TEXT)]),
    (&["abbrev", "0"], b"\x01\x2e\0\x03\x21\x56\0\0\0", &[(0, b""), (8, CONSTANT), (9, CONSTANT)]),
    (&["abbrev", "0"], b"\x01\x11\0\0\0\x03\x11\0\0\0\x02\x11\0\0\0\0",
        &[(0, b""), (5, ONE_UNIT), (10, TWO_UNITS), (15, THREE_UNITS), (16, THREE_UNITS)]),
    (&["addr", "le"], TWO_SETS, &[(0, b""), (16, FIRST_SET), (48, BOTH_SETS)]),
];

#[test]
fn cut_inputs_end_early(rt: HostRuntime) -> Result<(), Fail> {
    for (texts, bytes, whole) in CUTS {
        for len in 0..bytes.len() + 1 {
            let mut wanted = Err((CUT, 1));
            for (whole_len, text) in *whole {
                if *whole_len == len {
                    wanted = Ok(*text);
                }
            }
            check(&rt, rt.alloc(), texts, &mut &bytes[..len], wanted)?;
        }
    }
    Ok(())
}

#[test]
fn lists_seventy_declarations_in_rising_order(rt: HostRuntime) -> Result<(), Fail> {
    let mem = rt.alloc();
    let mut bytes = Vec::new(mem);
    let mut text = String::new(mem);
    for code in 1..71u8 {
        bytes.extend_from_slice(&[71 - code, 0x11, 0, 0, 0])?;
        write!(text, "{code} DW_TAG_compile_unit no\n")?;
    }
    let words = ["abbrev", "0"];
    check(&rt, mem, &words, &mut bytes.as_slice(), Ok(text.as_bytes()))?;
    bytes.extend_from_slice(&[35, 0x11, 0, 0, 0, 0])?;
    let line = "error: duplicate abbreviation code: 35";
    check(&rt, mem, &words, &mut bytes.as_slice(), Err((line, 1)))
}

// More bytes than the buffer of an input has.
#[test]
fn reads_an_input_longer_than_the_buffer(rt: HostRuntime) -> Result<(), Fail> {
    let mem = rt.alloc();
    let mut bytes = Vec::new(mem);
    for _ in 0..70_000 {
        bytes.push(b'a')?;
    }
    let mut text = bytes.clone()?;
    text.push(b'\n')?;
    bytes.push(0)?;
    check(&rt, mem, &["str", "0"], &mut bytes.as_slice(), Ok(&text))
}
